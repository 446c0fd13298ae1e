//! Frames: what goes over the line between a host and its participants, and a reader of frames that come in pieces.
#![tactic(auto)]

mod encoding;
mod fault;
mod filling;
mod frame;
mod heads;
mod laws;
mod limits;
mod splitter;
#[cfg(test)]
mod tests;

pub use encoding::encode_frame;
pub use fault::FrameFault;
pub use frame::{Frame, FrameKind};
pub use laws::{
    each_input_splits, ends_tell_what_is_left, faults_show_what_begins_no_frame, faults_stay,
    faults_tell_the_first_bad_part, one_splitting, sessions_read_the_frames, splittings_go_on,
    whole_fronts_are_frames,
};
pub use splitter::Splitter;
