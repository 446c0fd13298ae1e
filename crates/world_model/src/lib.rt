//! A world of a host, its banks and their lines, as mathematics: how each event may go, and what no event breaks.
#![tactic(auto)]

mod laws;

pub use laws::{
    each_moment_of_a_step_is_safe, moments_lie_in_steps, safe_worlds_keep_the_promises,
    started_worlds_are_safe, steps_can_go, steps_keep_worlds_safe, steps_lose_nothing,
};
