//! A host's session: it is resumed, and handles one frame after another from its source, each at a reading of its clock.
#![tactic(auto)]

mod laws;
mod serving;
#[cfg(test)]
mod tests;

pub use laws::{
    HostSessions, all_that_is_out_is_covered, all_that_is_out_may_be_trusted, each_moment_is_safe,
    nothing_is_missed, sessions_are_the_models,
};
pub use line_sessions::SessionEnd;
pub use serving::serve;
