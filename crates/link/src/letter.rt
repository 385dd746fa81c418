//! The letters of a script.
ghost use Rattle.std.specs.Prelude.{◌≡◌};
ghost use Rattle.link.specs.Script.{read_letter};

use refusal::Refusal;

/// What a letter of a script does to the frame that is put.
#[derive(Clone, Copy, PartialEq, Eq, Debug)]
pub(crate) enum Letter {
    /// `k`: it joins the queue.
    Keep,
    /// `l`: it is lost.
    Lose,
    /// `d`: it joins the queue twice.
    Double,
    /// `h`: it is held.
    Hold,
}

/// A letter is written as a byte of ASCII.
impl TryFrom<u8> for Letter {
    type Error = Refusal;

    ghost try_from_gives = { λ byte r. r ≡ read_letter byte };

    fn try_from(byte: u8) -> Result<Letter, Refusal> {
        match char::from(byte) {
            'k' => Ok(Letter::Keep),
            'l' => Ok(Letter::Lose),
            'd' => Ok(Letter::Double),
            'h' => Ok(Letter::Hold),
            _ => Err(Refusal::BadScript),
        }
    }
}
