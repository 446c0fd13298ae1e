//! What the program meets outside itself, as traits with contracts, and forms of them in memory.
#![tactic(auto)]

mod clock;
mod counts;
mod disk;
mod laws;
mod listed;
mod memory_calls;
mod memory_clock;
mod memory_sink;
mod memory_site;
mod memory_source;
mod memory_stops;
mod past;
mod patch;
mod site;
mod stop;
mod streams;
#[cfg(test)]
mod tests;

pub use clock::Clock;
pub use laws::{
    counts_on, counts_rise, failed_calls_may_leave, left_now, left_on, nothing_pending, one_reason,
    pending_stays, reads_left, restarts_may_give, sends_may_be_cut, stop_reached,
    writes_may_be_torn,
};
pub use memory_clock::MemClock;
pub use memory_sink::MemSink;
pub use memory_site::MemSite;
pub use memory_source::MemSource;
pub use site::Site;
pub use stop::StopSite;
pub use streams::{Sink, Source};
