//! Decoding messages that come in pieces (docs/FORMATS.md, "Messages").
#![tactic(auto)]

mod decoder;
mod laws;

pub use decoder::Decoder;
pub use laws::cuts_change_no_answer;

#[cfg(test)]
mod tests;
