//! What a participant does with a frame, as mathematics: drafts, acknowledgements, outputs, ticks, and their laws.
#![tactic(auto)]

mod kept_laws;
mod laws;

pub use kept_laws::{
    drafts_keep_their_texts, full_cycles_keep_no_draft, kept_banks_are_lawful, kept_frames_fit,
    outputs_keep_their_texts, reminders_submit_at_most_64, steps_add_what_is_kept,
};
pub use laws::{
    bank_steps_stay_lawful, draft_faults_are_refusals, sent_frames_fit, steps_number_in_order,
};
