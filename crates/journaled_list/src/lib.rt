//! A list whose journal is read as that list and no other, and to which one record at a time is added.
#![tactic(auto)]

mod faults;
mod grouping;
mod kept;
mod laws;
mod list;
mod loading;
mod making;
mod reading;
mod resuming;
mod storing;
#[cfg(test)]
mod tests;

pub use faults::OpenFault;
pub use kept::Kept;
pub use laws::{images_stand_for_one_list, lists_are_damaged_once, payloads_go_on};
pub use list::Journaled;
pub use making::init;
pub use resuming::{read_back, resume};
