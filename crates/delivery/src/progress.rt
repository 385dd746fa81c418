//! What the program keeps of a transfer's answers.
ghost use Rattle.std.specs.Prelude.{◌≡◌, ℕ, ◌+◌, ◌*◌, ◌^◌, ◌<◌, ◌≤◌, List, length, take, replicate, Ok};
ghost use Rattle.file.specs.Filled.{FilledOver, FillsAllOver};
ghost use Rattle.file.specs.Packets.{packets};
ghost use Rattle.file.specs.Spelling.{spelling_of};
ghost use Rattle.job.specs.Counts.{released_by};
ghost use Rattle.delivery.specs.Follows.{Keeps};
ghost use Rattle.delivery.specs.Phases.{outcome_from};

use super::outcome::{Ending, Outcome};
use field::Field;
use file::{FILE_MOST, Filling};
use job::Tally;
use receiver::Answer;
use refusal::Refusal;

/// The greatest released number heard, the counts, the buffer of the packets released last, and the record that all
/// released packets go to.
// The buffer is an array: below the program no memory is asked for.
#[derive(Drop)]
pub(crate) struct Progress<C> {
    pub heard: u32,
    pub released: u32,
    pub tally: Tally,
    pub numbers: [u16; 4096],
    pub filling: Filling<C>,
}

impl<C: Field> Progress<C> {
    pub(crate) fn new() -> Progress<C>
        ensures counts { (result.heard ≡ 0) × (result.released ≡ 0) × (result.tally ≡ record { sent = 0; fresh = 0; repeat = 0; refused = 0 }) }
        ensures numbers { result.numbers ≡ replicate 4096 0 }
        ensures filling { (file buffer : List ℕ) → FilledOver (spelling_of C.Field.means.q) file 0 result.filling.taken result.filling.size buffer buffer }
    {
        Progress {
            heard: 0,
            released: 0,
            tally: Tally::default(),
            numbers: [0; 4096],
            filling: Filling::new(),
        }
    }

    /// Keeps the answer of a fetch: counts it, and hands the packets that it released to the record.
    pub(crate) fn keep(
        &mut self,
        answer: Result<Answer, Refusal>,
        buffer: &mut [u8; FILE_MOST],
    ) -> Result<(), Refusal>
        requires few { released_by answer ≤ 32 }
        requires room { self.old.tally.fresh + (self.old.tally.repeat + self.old.tally.refused) < 2 ^ 26 }
        requires released { self.old.released ≤ 32 * self.old.tally.fresh }
        ensures keeps { Keeps answer self.old self.new }
        ensures fills { FillsAllOver (spelling_of C.Field.means.q) (take (128 * released_by answer) self.old.numbers) self.old.filling.taken self.old.filling.size buffer.old (result, self.new.filling.taken, self.new.filling.size, buffer.new) }
    {
        let count = self.tally.count(answer);
        self.released += count;
        let packets = &self.numbers[..128 * count as usize];
        self.filling.add_all(packets, buffer)
    }

    /// What it comes to once the rounds are used up.
    pub(crate) fn spent(self) -> Outcome
        ensures { result ≡ record { tally = self.tally; ending = Ending.Spent self.released } }
    {
        Outcome {
            tally: self.tally,
            ending: Ending::Spent(self.released),
        }
    }

    /// What it comes to: whole, where the sender has heard that all the packets are released.
    pub(crate) fn finish(self, count: u32) -> Result<Outcome, Refusal>
        ensures { (file before buffer : List ℕ) → FilledOver (spelling_of C.Field.means.q) file self.released self.filling.taken self.filling.size before buffer → (self.heard ≡ count → packets (spelling_of C.Field.means.q) (length file) ≤ self.released) → result ≡ Ok (outcome_from file count self) }
    {
        if self.heard != count {
            return Ok(self.spent());
        }
        let whole = self.filling.finish().map_err(|(_, refusal)| refusal)?;
        Ok(Outcome {
            tally: self.tally,
            ending: Ending::Whole(whole.length()),
        })
    }
}
