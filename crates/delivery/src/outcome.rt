//! What a job comes to.
use job::Tally;

/// How the rounds ended.
// An enum and no `Result`: rounds that are used up are an outcome, and no refusal.
#[derive(Clone, Copy, PartialEq, Eq, Debug)]
pub enum Ending {
    /// All packets were released: the file, of this length, is there.
    Whole(usize),
    /// The rounds were used up when this many packets were released.
    Spent(u32),
}

/// The counts of a job, and its ending.
#[derive(Clone, Copy, PartialEq, Eq, Debug)]
pub struct Outcome {
    pub tally: Tally,
    pub ending: Ending,
}
