//! Shared types of the payment service: identifiers, numbers, dates, and lists that contracts see as lists.
#![tactic(auto)]

mod bytes;
mod calendar;
mod faults;
mod ids;
mod judgement;
mod laws;
mod limits;
mod lists;
mod names;
mod numbers;
mod numerals;
mod slices;
mod tag_numbers;
#[cfg(test)]
mod tests;

pub use bytes::{are_digits, are_text, is_digit, is_name_byte, is_text_byte};
pub use calendar::{civil, stamp};
pub use faults::{Failed, NoMemory};
pub use ids::{IdFault, Imad, Omad, OutPos, Stamp};
pub use judgement::{Head, Refused, Reject, Verdict};
pub use laws::{
    date_reads_back, date_writes_back, imad_reads_back, imad_writes_back, omad_reads_back,
    omad_writes_back, position_reads_back, position_writes_back,
};
pub use limits::LONGEST_MESSAGE;
pub use lists::{Bytes, Endpoints, Items, Moments, Places};
pub use names::{Aba, Endpoint, aba_check};
pub use numbers::{Cents, CycleDate, Moment, Seq};
pub use numerals::{digits, padded};
pub use slices::{after, array_of, before};
pub use tag_numbers::{TAG_NUMBERS, TagNo};
