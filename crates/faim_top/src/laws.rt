// The promises over whole runs, and what every input has. Each call does nothing: its contract is the law.
ghost use Rattle.std.specs.Prelude.{◌≡◌, ℕ, List};
ghost use Rattle.host_ledger.specs.Soundness.{IsConfig};
ghost use Rattle.world_text.specs.declared.script.Script.{Script};
ghost use Rattle.faim_top.specs.declared.query.Query.{Query};
ghost use Rattle.faim_top.specs.declared.status.Status.{Status};
ghost use Rattle.faim_top.specs.Ends.{Answers, IsAnswered};
ghost use Rattle.faim_top.specs.Promises.{KeepsPromises};

use faim_message::{
    each_input_is_judged, one_refusal, one_spelling_of_messages, spelled_is_not_refused,
};
use faim_model::{
    floors_are_kept, money_is_conserved, numbered_in_order, other_text_is_turned, posted_once,
    turns_stay_lawful, verdict_stands,
};

/// Whatever a script submits, in whatever order and how often: after each event no two entries share an identifier, the
/// balances add up to the openings and none is lower than its floor or its opening, the output numbers of each endpoint
/// under each date run from 1 without gaps, a known message is answered with the verdict that stands, and another text
/// under its identifier is turned away. The list of which the report tells is one of these.
pub fn promises_kept()
    ensures { (s : Script) → IsConfig s.config → KeepsPromises s }
{
    posted_once();
    money_is_conserved();
    floors_are_kept();
    numbered_in_order();
    turns_stay_lawful();
    verdict_stands();
    other_text_is_turned();
}

/// Every input of a query, whatever its bytes, has an answer, and one alone: one status, and one text to be written.
pub fn inputs_have_one_answer()
    ensures some { (q : Query) (text : List ℕ) → (status : Status) × IsAnswered q status text }
    ensures one { (q : Query) (text : List ℕ) (s t : Status) (a b : List ℕ) → Answers q text s a → Answers q text t b → (s ≡ t) × (a ≡ b) }
{
    each_input_is_judged();
    one_spelling_of_messages();
    spelled_is_not_refused();
    one_refusal();
}
