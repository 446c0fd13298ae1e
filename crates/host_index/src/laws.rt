// Laws of what an index knows. Each call does nothing: its contract is the law.
ghost use Rattle.std.specs.Prelude.{◌≡◌, ◌≢◌, ◌↔◌, ◌+◌, ◌<◌, ◌≤◌, ◌++◌, ◌∷◌, [], ℕ, List, length, map, filter, bytes_eq, true, Option, Some, None};
ghost use Rattle.std.specs.List.{Contains, IsDistinct, list_all};
ghost use Rattle.std.specs.Option.{option_map};
ghost use Rattle.faim_base.specs.declared.ids.Imad.{Imad};
ghost use Rattle.faim_base.specs.declared.ids.OutPos.{OutPos};
ghost use Rattle.faim_base.specs.Ids.{is_up_to};
ghost use Rattle.host_index.specs.Index.{Index, Output, place_of, outputs_to, is_under, is_above, are_above, Rises, outputs_at, retrieved, places_of, after_posting, after_roll, EndsInPosting, EndsInRoll, before_posting, before_roll};

/// An addition may be taken back, and the index is then as it was.
pub fn additions_are_taken_back()
    ensures posting_last { (i : Index) (imad : Imad) (to : Option (List ℕ × OutPos)) (place : ℕ)
        → EndsInPosting imad (option_map (λ end. end.0) to) (after_posting imad to place i) }
    ensures posting { (i : Index) (imad : Imad) (to : Option (List ℕ × OutPos)) (place : ℕ)
        → before_posting (option_map (λ end. end.0) to) (after_posting imad to place i) ≡ i }
    ensures roll_last { (i : Index) (ends : List (List ℕ × OutPos)) (place : ℕ)
        → EndsInRoll (map (λ end. end.0) ends) (after_roll ends place i) }
    ensures roll { (i : Index) (ends : List (List ℕ × OutPos)) (place : ℕ)
        → before_roll (map (λ end. end.0) ends) (after_roll ends place i) ≡ i }
{}

/// A new IMAD is found at the place of its entry, and each other IMAD where it was found before.
pub fn imads_keep_their_places()
    ensures own { (i : Index) (imad : Imad) (to : Option (List ℕ × OutPos)) (place : ℕ)
        → place_of imad i.posted ≡ None → place_of imad (after_posting imad to place i).posted ≡ Some place }
    ensures others { (i : Index) (imad other : Imad) (to : Option (List ℕ × OutPos)) (place : ℕ)
        → other ≢ imad → place_of other (after_posting imad to place i).posted ≡ place_of other i.posted }
{}

/// An output comes after those that its endpoint has, and other endpoints have what they had.
pub fn outputs_go_to_their_endpoints()
    ensures own { (outputs : List Output) (e : List ℕ) (at : OutPos) (place : ℕ)
        → outputs_to e (outputs ++ outputs_at place ((e, at) ∷ []))
        ≡ outputs_to e outputs ++ record { dest = e; at = at; place = place } ∷ [] }
    ensures others { (outputs : List Output) (e : List ℕ) (ends : List (List ℕ × OutPos)) (place : ℕ)
        → ((at : OutPos) → Contains ends (e, at) → ⊥)
        → outputs_to e (outputs ++ outputs_at place ends) ≡ outputs_to e outputs }
{}

/// An output raises its endpoint's count under its date by one, and leaves the counts under other dates.
pub fn outputs_are_counted_under_their_dates()
    ensures own { (outputs : List Output) (e : List ℕ) (at : OutPos) (place : ℕ)
        → length (filter (is_under at.date) (outputs_to e (outputs ++ outputs_at place ((e, at) ∷ []))))
        ≡ length (filter (is_under at.date) (outputs_to e outputs)) + 1 }
    ensures others { (outputs : List Output) (e : List ℕ) (at : OutPos) (place date : ℕ)
        → date ≢ at.date
        → length (filter (is_under date) (outputs_to e (outputs ++ outputs_at place ((e, at) ∷ []))))
        ≡ length (filter (is_under date) (outputs_to e outputs)) }
{}

/// A retrieval gives outputs of its endpoint at its position or after it, at most 64: each of them where they are fewer,
/// and else the first, which later outputs leave as they are.
pub fn retrievals_give_the_first()
    ensures given { (outputs : List Output) (e : List ℕ) (p : OutPos) (o : Output)
        → Contains (retrieved e p outputs) o → Contains outputs o × (o.dest ≡ e) × (is_up_to p o.at ≡ true) }
    ensures most { (outputs : List Output) (e : List ℕ) (p : OutPos) → length (retrieved e p outputs) ≤ 64 }
    ensures each { (outputs : List Output) (e : List ℕ) (p : OutPos) (o : Output)
        → length (retrieved e p outputs) < 64 → Contains outputs o → o.dest ≡ e → is_up_to p o.at ≡ true
        → Contains (retrieved e p outputs) o }
    ensures first { (outputs more : List Output) (e : List ℕ) (p : OutPos)
        → length (retrieved e p outputs) ≡ 64 → retrieved e p (outputs ++ more) ≡ retrieved e p outputs }
{}

/// Positions that are above all that their endpoints have by then keep the outputs of each endpoint in order.
pub fn outputs_stay_in_order()
    ensures { (outputs : List Output) (ends : List (List ℕ × OutPos)) (place : ℕ) (e : List ℕ)
        → are_above place ends outputs ≡ true → Rises (outputs_to e outputs)
        → Rises (outputs_to e (outputs ++ outputs_at place ends)) }
{}

/// The outputs of a Roll over distinct endpoints may be added exactly where each position is above all that its endpoint has.
pub fn rolls_over_distinct_endpoints()
    ensures { (outputs : List Output) (ends : List (List ℕ × OutPos)) (place : ℕ)
        → IsDistinct bytes_eq (map (λ end. end.0) ends)
        → are_above place ends outputs ≡ list_all (λ end. is_above end.0 end.1 outputs) ends }
{}

/// A new output is what a retrieval from its position gives, by the place of its entry.
pub fn new_outputs_are_found()
    ensures { (outputs : List Output) (e : List ℕ) (p : OutPos) (place : ℕ)
        → is_above e p outputs ≡ true
        → places_of (retrieved e p (outputs ++ outputs_at place ((e, p) ∷ []))) ≡ place ∷ [] }
{}

/// A position is above all that an endpoint has exactly where a retrieval from it gives nothing.
pub fn positions_above_find_nothing()
    ensures { (outputs : List Output) (e : List ℕ) (p : OutPos)
        → (is_above e p outputs ≡ true) ↔ (retrieved e p outputs ≡ []) }
{}
