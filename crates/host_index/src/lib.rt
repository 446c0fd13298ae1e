//! An index over a host's list: the places of message identifiers, and what each endpoint was given.
#![tactic(auto)]

mod bisection;
mod index;
mod keys;
mod laws;
mod limits;
mod outputs;
mod postings;
#[cfg(test)]
mod tests;

pub use index::HostIndex;
pub use laws::{
    additions_are_taken_back, imads_keep_their_places, new_outputs_are_found,
    outputs_are_counted_under_their_dates, outputs_go_to_their_endpoints, outputs_stay_in_order,
    positions_above_find_nothing, retrievals_give_the_first, rolls_over_distinct_endpoints,
};
