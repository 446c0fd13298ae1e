//! Sessions over a line: what stands at each moment of a node that takes one thing after another, and how a session ends.
#![tactic(auto)]

mod ends;
mod laws;

pub use ends::SessionEnd;
pub use laws::{Playing, each_moment_is_in_order, sessions_join};
