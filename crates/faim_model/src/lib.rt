//! What the service promises, as mathematics: balances, outputs, verdicts, lawful lists, the host's frames, and their laws.
#![tactic(auto)]

mod decisions;
mod frame_laws;
mod laws;
mod step_laws;

pub use decisions::{Decision, HostOutcome};
pub use frame_laws::{
    acks_name_outputs, acks_tell_verdicts, answers_are_messages, covered_acks_are_kept,
    covered_frames_are_marked, covered_frames_are_stamped, covered_frames_fit,
    covered_frames_stay_covered, covered_outputs_are_given, four_refusals_turn_away,
    outputs_hand_on_texts, outputs_name_positions,
};
pub use laws::{
    accepted_where_allowed, cycles_have_a_number_left, entries_that_follow_are_spelled,
    floors_are_kept, kept_refusals_are_recorded, known_verdicts_are_kept, moments_in_order,
    money_is_conserved, numbered_in_order, other_text_is_turned, outputs_rise,
    outputs_stand_at_their_places, posted_messages_are_sound, posted_once, refusals_tell_why,
    retrieved_up_to_sixty_four, rolls_end_cycles, turn_follows, turns_stay_lawful,
    turns_tell_verdicts, verdict_stands, within_floor,
};
pub use step_laws::{
    entries_have_their_frames, frames_differ_in_their_marks, frames_go_where_they_belong,
    requests_settle_steps, restarts_send_again, sent_frames_are_covered, sessions_join,
    sessions_miss_and_repeat_nothing, sessions_stay_sound, steps_land_soundly, steps_stay_lawful,
    steps_tell_their_outcomes,
};
