//! What happens in a world of a host, its banks and their lines, and what each event brings about.
#![tactic(auto)]

mod acts;
mod outcomes;

pub use acts::{Act, End, Event};
pub use outcomes::{Kept, Outcome};
