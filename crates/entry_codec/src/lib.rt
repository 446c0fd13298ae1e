//! The bytes of a host's configuration and entries and of a bank's opening and entries: one spelling for each value, and it is
//! read exactly.
#![tactic(auto)]

mod bank_reading;
mod bank_spelling;
#[cfg(test)]
mod bank_tests;
mod config_reading;
mod config_spelling;
#[cfg(test)]
mod config_tests;
#[cfg(test)]
mod entry_tests;
mod fault;
mod parts;
mod reading;
mod sizes;
mod spelling;

pub use bank_reading::{one_bank_reading, one_opening, read_bank_entry, read_opening};
pub use bank_spelling::{spell_bank_entry, spell_opening};
pub use config_reading::{one_config, read_config};
pub use config_spelling::spell_config;
pub use fault::CodecFault;
pub use reading::{one_reading, read_entry};
pub use sizes::{
    bank_entry_is_a_payload, bank_opening_is_a_payload, config_is_a_payload, entry_is_a_payload,
};
pub use spelling::spell_entry;
