// Laws of feeding. Each call does nothing: its contract is the law.
ghost use Rattle.std.specs.Prelude.{◌≡◌, ℕ, List, [], ◌∷◌, ◌++◌, Result, Err};
ghost use Rattle.std.specs.List.{flat_map};
ghost use Rattle.faim_base.specs.declared.judgement.Refused.{Refused};
ghost use Rattle.faim_message.specs.declared.form.Form.{Form};
ghost use Rattle.faim_stream.specs.Fed.{Judges};
ghost use Rattle.faim_stream.specs.Cuts.{Answers};

/// Bytes have one answer, and a refusal stays whatever is fed after it. So where the same bytes are cut elsewhere, the last
/// piece has the same answer.
pub fn cuts_change_no_answer()
    ensures some { (form : Form) (fed : List ℕ) → (a : Result (Unit {0}) Refused) × Judges form fed a }
    ensures one { (form : Form) (fed : List ℕ) (a b : Result (Unit {0}) Refused) → Judges form fed a → Judges form fed b → a ≡ b }
    ensures stays { (form : Form) (fed more : List ℕ) (e : Refused) → Judges form fed (Err e) → Judges form (fed ++ more) (Err e) }
    ensures cuts { (form : Form) (fed : List ℕ) (pieces others : List (List ℕ)) (a b : Result (Unit {0}) Refused) (before earlier : List (Result (Unit {0}) Refused))
        → flat_map (λ piece. piece) pieces ≡ flat_map (λ piece. piece) others
        → Answers form fed pieces (before ++ a ∷ []) → Answers form fed others (earlier ++ b ∷ []) → a ≡ b }
{}
