//! Residues lie two bytes each, the higher first.
ghost use Rattle.std.specs.Prelude.{refl};
ghost use Rattle.carried.specs.Layouts.{two_bytes};
ghost use Rattle.carried.specs.ResiduesLayout.{two_bytes_lay};

use super::{Carried, item_or};
use field::Residues;

impl Carried for Residues {
    const KIND: u8 = 3;

    ghost KIND = { 3 };

    const LEN: usize = 326;

    ghost LEN = { 326 };

    ghost carries = { two_bytes };

    ghost kind = { refl };

    ghost len = { refl };

    ghost lays = { two_bytes_lay };

    fn byte(codes: &[u16], k: usize) -> u8 {
        // By a shift, since a choice between two bytes makes slow vector code.
        ((item_or(codes, k / 2, 0) >> (8 - 8 * (k % 2))) % 256) as u8
    }

    fn code(bytes: &[u8], i: usize) -> u16 {
        // Past the end there are no bytes; of the last pair one may lack, which counts as 0.
        if i > bytes.len() / 2 {
            return 0;
        }
        let pair = &bytes[2 * i..];
        u16::from_be_bytes([item_or(pair, 0, 0), item_or(pair, 1, 0)])
    }
}
