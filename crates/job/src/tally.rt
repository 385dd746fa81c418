//! The counts of a job.
ghost use Rattle.std.specs.Prelude.{◌≡◌, ◌+◌, ◌-◌, ◌^◌, ◌<◌, IfOk, string_bytes};
ghost use Rattle.job.specs.Counts.{answered_with, counted_by, one_more, released_by, counts_text};

use receiver::Answer;
use refusal::Refusal;
use std::alloc::{AllocError, Global};

/// How often frames were sent, and how a receiver answered those that came.
#[derive(Clone, Copy, PartialEq, Eq, Debug, Default)]
pub struct Tally {
    pub sent: u32,
    pub fresh: u32,
    pub repeat: u32,
    pub refused: u32,
}

impl Tally {
    /// Counts an answer of the receiver, and gives how many packets it released. A count stays at its most.
    pub fn count(&mut self, answer: Result<Answer, Refusal>) -> u32
        ensures exact { self.new ≡ counted_by one_more answer self.old }
        ensures counts { self.old.fresh + (self.old.repeat + self.old.refused) < 2 ^ 32 - 1 → self.new ≡ answered_with answer self.old }
        ensures released { result ≡ released_by answer }
    {
        match answer {
            Ok(Answer::Fresh(released)) => {
                self.fresh = self.fresh.saturating_add(1);
                released
            }
            Ok(Answer::Repeat) => {
                self.repeat = self.repeat.saturating_add(1);
                0
            }
            Err(_) => {
                self.refused = self.refused.saturating_add(1);
                0
            }
        }
    }

    /// The counts, a line each; the word stands for what was sent.
    pub fn lines(self, heap: Global, word: &str) -> Result<String, AllocError>
        ensures { IfOk result (λ text. string_bytes text ≡ counts_text word.now self) }
    {
        let Tally {
            sent,
            fresh,
            repeat,
            refused,
        } = self;
        format!(in heap; "{word} {sent}\nfresh {fresh}\nrepeat {repeat}\nrefused {refused}\n")
    }
}
