//! A host's turn at what comes from a line, and the payloads that it sends, without a journal.
#![tactic(auto)]

mod payloads;
mod reading;
mod service_tags;
#[cfg(test)]
mod tests;
mod turns;

pub use payloads::{ack_payload, output_payload, turned_payload};
pub use reading::{Numbered, ReadText, TextReader, with_mark};
pub use turns::{decision_on, posted, recorded, retrieve, submit, told_again};
