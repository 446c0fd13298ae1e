//! Texts: scripts, configurations and those of banks are read, outcomes, reports and refusals printed.
#![tactic(auto)]

mod accounts;
mod bank_text;
mod fields;
mod laws;
mod lines;
mod outcome;
mod printing;
mod reader;
mod script;
#[cfg(test)]
mod tests;

pub use bank_text::read_bank_text;
pub use laws::{bank_texts_are_sound, configurations_are_sound, scripts_are_sound};
pub use outcome::{Balances, Closing, Counts, Outcome};
pub use printing::{print_closing, print_fault, print_outcome, print_refused};
pub use reader::{SIZE_LIMIT, read_config_text, read_script};
pub use script::{Act, Event, Events, Script, ScriptFault, ScriptRefused, Why};
