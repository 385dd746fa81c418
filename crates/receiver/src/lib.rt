//! The receiver: it takes frames in, in any order, and releases the packets of the stream in theirs.
#![tactic(auto)]

mod readable;
mod receiver;
mod state;

pub use receiver::Receiver;
pub use state::Answer;
