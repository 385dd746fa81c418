//! The symbols of a packet of bytes.
ghost use Rattle.std.specs.Prelude.{◌≡◌, ◌<◌, true, Ok, Err, MatchResult};
ghost use Rattle.field.specs.Lists.{below};
ghost use Rattle.file.specs.Filling.{checked};
ghost use Rattle.file.specs.Spelling.{base, byte_of, room, spelling_of};

use super::SYMBOLS;
use super::spelling::Spelling;
use field::{Field, all_below};
use refusal::Refusal;
use std::marker::PhantomData;

/// The symbols of a packet, each of them a digit of a byte.
#[derive(Drop)]
pub(crate) struct Digits<'a, F: Field> {
    symbols: &'a [u16; SYMBOLS],
    field: PhantomData<F>,
    ghost digits: { below (base (spelling_of F.means.q)) symbols.now ≡ true },
}

impl<'a, F: Field> Digits<'a, F> {
    /// The symbols of the packet, where it has 128 codes and each of them is a digit.
    pub(crate) fn of(packet: &'a [u16]) -> Result<Digits<'a, F>, Refusal>
        ensures { MatchResult result (λ digits. (checked F.means.q packet.now ≡ Ok tt) × (digits.symbols.now ≡ packet.now)) (λ why. checked F.means.q packet.now ≡ Err why) }
    {
        let Some(symbols) = packet.as_array() else {
            return Err(Refusal::BadPacket);
        };
        if !all_below(symbols, F::Q) {
            return Err(Refusal::BadPacket);
        }
        if !all_below(symbols, Spelling::of::<F>().base()) {
            return Err(Refusal::NotAByte);
        }
        Ok(Digits {
            symbols,
            field: PhantomData,
        })
    }

    /// Byte i of those that the symbols spell.
    pub(crate) fn byte(&self, i: usize) -> u8
        requires { i < room (spelling_of F.means.q) }
        ensures { result ≡ byte_of (spelling_of F.means.q) self.now.symbols.now i }
    {
        let spelling = Spelling::of::<F>();
        let digits = &self.symbols[spelling.digits() * i..spelling.digits() * (i + 1)];
        // A loop: a fold has to show that the number so far always fits, which was not proved without an invariant.
        let mut byte = 0;
        for digit in digits {
            byte = byte * spelling.base() + *digit;
        }
        byte as u8
    }
}
