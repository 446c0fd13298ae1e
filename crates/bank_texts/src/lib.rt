//! How a participant reads the payloads that come to it, and the texts that its journal keeps.
#![tactic(auto)]

mod acks;
mod drafts;
mod keeping;
mod outputs;
mod parts;
mod places;
mod refusals;
#[cfg(test)]
mod tests;

pub use acks::{AckRead, AckReader};
pub use drafts::{DraftRead, DraftReader, number_draft};
pub use keeping::KeptReader;
pub use outputs::{OutputRead, OutputReader};
