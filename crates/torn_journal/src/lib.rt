//! A journal of payloads over any site, which each stop leaves as it was or with one payload more.
#![tactic(auto)]

mod append;
mod faults;
mod frame;
mod journal;
mod laws;
mod limits;
mod making;
mod reading;
mod resuming;
#[cfg(test)]
mod tests;
mod visit;

pub use faults::{AppendFault, CreateFault, ResumeFault};
pub use frame::frame_payload;
pub use journal::Journal;
pub use laws::{
    journals_are_sound, one_damage, one_list, other_images_are_damaged, stopped_appends,
};
pub use limits::{GREATEST_TAIL, LONGEST_PAYLOAD};
pub use making::create;
pub use resuming::resume;
pub use visit::{Visit, VisitFault};
