//! A bank on its site: a journal keeps its list, and its frames are sent once the record that they rest on is secured.
#![tactic(auto)]

mod bank_list;
mod drafting;
mod following;
mod handling;
mod node;
mod preparing;
mod reminding;
mod securing;
mod taking;
#[cfg(test)]
mod tests;

pub use bank_list::KeptBooks;
pub use journaled_list::OpenFault;
pub use journaled_steps::StepFault as BankFault;
pub use node::BankNode;
