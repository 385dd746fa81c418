//! The field of two codes: sum and difference are exclusive or, product is and.
ghost use Rattle.std.specs.Prelude.{refl};
ghost use Rattle.field.specs.OfBits.{bits};
ghost use Rattle.field.specs.BitsLaws.{bits_laws};
ghost use Rattle.field.specs.Remainders.{all_laws};

use super::Field;
use super::binary::sum;

/// The field of two codes.
pub struct Bits;

impl Field for Bits {
    const Q: u16 = 2;

    ghost Q = { 2 };

    ghost means = { bits };

    ghost order = { refl };

    ghost laws = { all_laws bits_laws };

    fn add(a: u16, b: u16) -> u16 {
        sum::<{ Self::Q }>(a, b)
    }

    // Every code is its own negative.
    fn sub(a: u16, b: u16) -> u16 {
        Self::add(a, b)
    }

    fn mul(a: u16, b: u16) -> u16 {
        (a % Self::Q) & (b % Self::Q)
    }

    fn inverse(a: u16) -> Option<u16> {
        (a % Self::Q != 0).then_some(1)
    }
}
