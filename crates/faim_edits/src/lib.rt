//! The edit table: what a submission must meet beyond its form, the texts of refusals, and the table in print
//! (docs/FORMATS.md, "Edits", "Refusals" and "Table").
#![tactic(auto)]

mod edit_no;
mod kinds;
mod laws;
mod parts;
mod printing;
mod table;
#[cfg(test)]
mod tests;
mod texts;

pub use edit_no::EditNo;
pub use laws::{each_edit_can_fail, edits_are_listed, recorded_are_listed, texts_fit};
pub use parts::test_or_production;
pub use printing::{print_edit, print_table};
pub use table::first_failed;
pub use texts::text_of;
