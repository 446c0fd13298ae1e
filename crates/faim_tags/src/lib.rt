//! The layouts of the 34 tags, and one tag: its spelling and its reading (docs/FORMATS.md, "Tags").
#![tactic(auto)]

mod classes;
mod cutting;
mod lanes;
mod laws;
mod lookup;
mod number;
mod partial;
mod reading;
mod short_bytes;
mod table;
mod value;
mod writing;

pub use cutting::cut_tag;
pub use laws::{
    each_front_is_judged, one_refusal_in_front, one_spelling, one_tag_in_front,
    steps_tell_what_begins, table_is_sound,
};
pub use lookup::layout;
pub use partial::{TagPart, close_alike, go_on, go_on_alike};
pub use reading::{read_tag, read_tag_among};
pub use short_bytes::ShortBytes;
pub use table::Layout;
pub use value::{Stars, TagValue};
pub use writing::spell;

#[cfg(test)]
mod tests;
