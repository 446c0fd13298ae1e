//! A bank's session: it is resumed, and handles one frame after another from its source.
#![tactic(auto)]

mod laws;
mod serving;
#[cfg(test)]
mod tests;

pub use laws::{
    BankSessions, all_that_is_out_is_covered, each_moment_is_safe, sessions_are_the_models,
    sessions_keep_accord,
};
pub use line_sessions::SessionEnd;
pub use serving::serve;
