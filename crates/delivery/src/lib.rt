//! A job's rounds, which carry its file over a transfer, and what the program writes.
#![tactic(auto)]

mod exchange;
mod outcome;
mod output;
mod program;
mod progress;
mod rounds;
mod running;

pub use job::{FieldKind, Job, SourceKind, Tally, parse};
pub use outcome::{Ending, Outcome};
pub use program::answer;
pub use running::run;
