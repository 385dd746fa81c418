//! How the symbols of a field spell bytes.
//!
//! A symbol is a digit of a byte, and the highest digit comes first. In a field of order 256 or more one symbol is
//! the whole byte; in any other a symbol is a bit.
ghost use Rattle.std.specs.Prelude.{◌≡◌, ◌<◌, length};
ghost use Rattle.file.specs.Spelling.{base, digit, digits, room, spelled, spelling_of};

use field::Field;

#[derive(Clone, Copy, Debug, PartialEq, Eq)]
pub(crate) enum Spelling {
    Bits,
    Bytes,
}

impl Spelling {
    /// How the symbols of the field spell bytes.
    pub(crate) fn of<F: Field>() -> Spelling
        ensures { result ≡ spelling_of F.means.q }
    {
        if F::Q < 256 {
            Spelling::Bits
        } else {
            Spelling::Bytes
        }
    }

    /// What each symbol is a digit to.
    pub(crate) fn base(self) -> u16
        ensures { result ≡ base self }
    {
        match self {
            Spelling::Bits => 2,
            Spelling::Bytes => 256,
        }
    }

    /// How many symbols spell a byte.
    pub(crate) fn digits(self) -> usize
        ensures { result ≡ digits self }
    {
        match self {
            Spelling::Bits => 8,
            Spelling::Bytes => 1,
        }
    }

    /// How many bytes a packet spells.
    pub(crate) fn room(self) -> usize
        ensures { result ≡ room self }
    {
        match self {
            Spelling::Bits => 16,
            Spelling::Bytes => 128,
        }
    }

    /// The symbol at a place among those that spell the byte.
    pub(crate) fn symbol(self, byte: u8, place: usize) -> u16
        requires { place < digits self }
        ensures { result ≡ digit (base self) (digits self) byte place }
    {
        // Below a symbol's place there are bits, or nothing.
        (u16::from(byte) >> (self.digits() - 1 - place)) % self.base()
    }
    /// Writes the symbols that spell the byte.
    pub(crate) fn spell(self, byte: u8, symbols: &mut [u16])
        requires { length symbols.old ≡ digits self }
        ensures { symbols.new ≡ spelled (base self) (digits self) byte }
    {
        for (place, symbol) in symbols.iter_mut().enumerate() {
            *symbol = self.symbol(byte, place);
        }
    }
}
