//! The program's top call: from its words and its input to what it writes.
#![tactic(auto)]

mod answers;
mod command;
mod feeding;
mod inits;
mod laws;
mod openings;
mod play;
mod query;
mod sessions;
mod status;
mod streams;
#[cfg(test)]
mod tests;
mod top;

pub use command::{Command, path_in, words_after_name};
pub use laws::{inputs_have_one_answer, promises_kept};
pub use query::Query;
pub use status::{Reason, Status};
pub use top::run;
