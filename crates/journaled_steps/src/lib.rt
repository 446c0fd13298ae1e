//! A step of any node whose list a journal keeps: what it adds is secured before the frames that rest on it are sent.
#![tactic(auto)]

mod faults;
mod sending;
mod storing;
#[cfg(test)]
mod tests;

pub use faults::{StepFault, is_live_after};
pub use sending::send_step;
pub use storing::{room_for, store_step};
