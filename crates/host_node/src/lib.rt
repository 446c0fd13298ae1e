//! A host on its site: a journal keeps its list, and its frames are sent once the record that they rest on is secured.
#![tactic(auto)]

mod following;
mod handling;
mod host_list;
mod node;
mod preparing;
mod resending;
mod securing;
mod submitting;
#[cfg(test)]
mod tests;

pub use host_list::HostList;
pub use host_turns::{ack_payload, output_payload, turned_payload};
pub use journaled_list::OpenFault;
pub use journaled_steps::StepFault as HostFault;
pub use node::HostNode;
