//! Messages of the format: the four forms with their spelling and reading (docs/FORMATS.md, "Messages").
#![tactic(auto)]

mod allowed;
mod cutting;
mod decoding;
mod form;
mod head;
mod laws;
mod message;
mod numbering;
mod partial;
mod remaining;
mod so_far;
#[cfg(test)]
mod tests;
mod writing;

pub use decoding::decode;
pub use form::{Breaks, Form};
pub use laws::{
    a_mark_changes_alone, a_mark_is_one_byte, a_stop_stays, bodies_tell_messages_apart,
    decoded_is_spelled, each_input_is_judged, heads_are_in_range, one_body_has_one_head,
    one_refusal, one_spelling_of_messages, reading_tells_what_begins, spelled_is_not_refused,
    spellings_are_short, submissions_show_their_bodies, submissions_show_their_marks,
    what_is_read_begins_a_message,
};
pub use message::{Message, Tags};
pub use numbering::with_imad;
pub use partial::MessagePart;
pub use writing::{body, encode};
