//! The script of a scripted link.
ghost use Rattle.std.specs.Prelude.{◌≡◌, IfOk, if◌then◌else◌, Ok, Err};
ghost use Rattle.link.specs.Script.{proper, opened, letter_of, turned, Rounds};
ghost use Rattle.refusal.specs.declared.Refusal.TheVariants.{BadScript};

use super::letter::Letter;
use refusal::Refusal;

// The most letters that a script has.
const MOST: usize = 64;

/// Letters that are read round and round.
#[derive(Clone, Copy)]
pub(crate) struct Script {
    // An array, of which the letters up to the place `last` count: so a link is Copy, and asks for no memory.
    letters: [Letter; MOST],
    last: usize,
    at: usize,
}

impl Script {
    pub(crate) fn new(script: &[u8]) -> Result<Script, Refusal>
        ensures exact { result ≡ (if proper 64 script.now then Ok (opened 64 script.now) else Err BadScript) }
        ensures rounds { IfOk result (Rounds script.now) }
    {
        if script.is_empty() || script.len() > MOST {
            return Err(Refusal::BadScript);
        }
        // By its place, since nothing is known of what is written through a zip.
        let mut letters = [Letter::Lose; MOST];
        for (i, byte) in script.iter().enumerate() {
            letters[i] = Letter::try_from(*byte)?;
        }
        Ok(Script {
            letters,
            last: script.len() - 1,
            at: 0,
        })
    }

    /// The next letter; the last one is followed by the first.
    pub(crate) fn read(&mut self) -> Letter
        ensures letter { result ≡ letter_of self.old }
        ensures after { self.new ≡ turned self.old }
    {
        // The place counts modulo the array's length, so that no state is out of bounds.
        let letter = self.letters[self.at % MOST];
        self.at = if self.at < self.last { self.at + 1 } else { 0 };
        letter
    }
}
