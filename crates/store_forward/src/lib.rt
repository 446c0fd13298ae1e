//! A record is stored, and then frames that rest on it are sent: two parts of a turn, and what a stop in either leaves.
#![tactic(auto)]

mod faults;
mod laws;
mod outbox;
mod sending;
mod storing;
#[cfg(test)]
mod tests;

pub use faults::ForwardFault;
pub use laws::{sends_are_in_order, stopped_sends, stopped_stores};
pub use outbox::Outbox;
pub use sending::send_all;
pub use storing::store_and_forward;
