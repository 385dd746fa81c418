//! Bits lie eight to a byte, the first in the highest bit.
ghost use Rattle.std.specs.Prelude.{◌≡◌, ◌%◌, slice_index, refl};
ghost use Rattle.carried.specs.Layouts.{eight_a_byte};
ghost use Rattle.carried.specs.BitsLayout.{eight_a_byte_lays};

use super::{Carried, item_or};
use field::Bits;

// Code i as a bit.
fn bit(codes: &[u16], i: usize) -> u8
    ensures { result ≡ slice_index codes.now i % 2 }
{
    (item_or(codes, i, 0) % 2) as u8
}

impl Carried for Bits {
    const KIND: u8 = 1;

    ghost KIND = { 1 };

    const LEN: usize = 26;

    ghost LEN = { 26 };

    ghost carries = { eight_a_byte };

    ghost kind = { refl };

    ghost len = { refl };

    ghost lays = { eight_a_byte_lays };

    fn byte(codes: &[u16], k: usize) -> u8 {
        // Past the end there are no codes; in the last group those that lack count as 0.
        if k > codes.len() / 8 {
            return 0;
        }
        let group = &codes[8 * k..];
        // Eight terms: a loop takes as long and wants an invariant, and a fold takes a quarter longer.
        let high = 128 * bit(group, 0)
            + 64 * bit(group, 1)
            + 32 * bit(group, 2)
            + 16 * bit(group, 3);
        let low = 8 * bit(group, 4) + 4 * bit(group, 5) + 2 * bit(group, 6) + bit(group, 7);
        high + low
    }

    fn code(bytes: &[u8], i: usize) -> u16 {
        u16::from(item_or(bytes, i / 8, 0) >> (7 - i % 8)) % 2
    }
}
