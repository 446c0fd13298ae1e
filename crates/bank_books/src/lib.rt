//! A participant's book: its drafts, the verdicts that came for them, and its inbox.
#![tactic(auto)]

mod books;
mod entries;
mod laws;
mod outcomes;
mod rows;
#[cfg(test)]
mod tests;

pub use books::Books;
pub use entries::{BankEntry, BankOpening};
pub use laws::{
    drafts_are_answered_once, drafts_are_numbered_in_order, drafts_stand_at_their_places,
    inboxes_have_no_hole, lists_stay_lawful, next_numbers_are_new, what_came_is_repeated,
};
pub use outcomes::{AckCase, BankOutcome, OutCase, SeqFull};
