//! Frames from a source that gives its bytes in pieces, up to the end of the input or the first bad one.
#![tactic(auto)]

mod ends;
mod feeding;
mod laws;
mod limits;
mod reader;
#[cfg(test)]
mod tests;

pub use ends::InputEnd;
pub use laws::{
    faults_end_the_frames, frames_come_in_order, frames_of_an_input, frames_of_more, handing_out,
    reading_starts, taking_more,
};
pub use limits::GREATEST_INPUT;
pub use reader::FrameReader;
