//! The record of a file that is all there.
ghost use Rattle.std.specs.Prelude.{◌≡◌, ℕ, ◌<◌, ◌≤◌, List, length, take, Ok, Err};
ghost use Rattle.refusal.specs.declared.Refusal.TheVariants.{ShortBuffer};
ghost use Rattle.file.specs.Filled.{Filled};
ghost use Rattle.file.specs.Packets.{packets};
ghost use Rattle.file.specs.Spelling.{spelling_of};

use super::FILE_MOST;
use refusal::Refusal;

/// A record of a file that is all there. Only finishing a filling record makes one.
#[derive(Drop)]
pub struct Whole {
    pub(crate) size: usize,
    ghost short: { size ≤ 16000 },
}

impl Whole {
    /// The file's length.
    pub fn length(&self) -> usize
        ensures { result ≡ self.now.size }
    {
        self.size
    }

    /// The file, in the buffer that its packets were added to.
    pub fn show<'a>(&self, buffer: &'a [u8]) -> Result<&'a [u8], Refusal>
        ensures exact { elim result [ Ok shown ↦ (16000 ≤ length buffer.now) × (shown.now ≡ take self.now.size buffer.now) | Err why ↦ (length buffer.now < 16000) × (why ≡ ShortBuffer) ] }
        ensures shows { (q : ℕ) (file : List ℕ) (k taken : ℕ) → Filled (spelling_of q) file k taken self.now.size buffer.now → packets (spelling_of q) (length file) ≤ k → elim result [ Ok shown ↦ shown.now ≡ file | Err why ↦ length buffer.now < 16000 ] }
    {
        let Some(buffer) = buffer.first_chunk::<FILE_MOST>() else {
            return Err(Refusal::ShortBuffer);
        };
        Ok(&buffer[..self.length()])
    }
}
