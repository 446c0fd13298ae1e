//! When what a participant keeps is what a host says, as mathematics, and that it stays so whatever the host sends.
#![tactic(auto)]

mod laws;

pub use laws::{accord_outlasts_growth, new_banks_accord, steps_keep_accord};
