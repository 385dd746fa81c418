//! Bytes lie one to a byte.
ghost use Rattle.std.specs.Prelude.{refl};
ghost use Rattle.carried.specs.Layouts.{one_byte};
ghost use Rattle.carried.specs.BytesLayout.{one_byte_lays};

use super::{Carried, item_or};
use field::Bytes;

impl Carried for Bytes {
    const KIND: u8 = 2;

    ghost KIND = { 2 };

    const LEN: usize = 166;

    ghost LEN = { 166 };

    ghost carries = { one_byte };

    ghost kind = { refl };

    ghost len = { refl };

    ghost lays = { one_byte_lays };

    fn byte(codes: &[u16], k: usize) -> u8 {
        (item_or(codes, k, 0) % 256) as u8
    }

    fn code(bytes: &[u8], i: usize) -> u16 {
        u16::from(item_or(bytes, i, 0))
    }
}
