//! What a session of any node says whose list a journal keeps: it is resumed, and handles one frame after another.
#![tactic(auto)]

mod ends;
mod laws;

pub use ends::{input_end, open_end, step_end};
pub use laws::{Serving, sessions_follow_one_another};
