//! The field of bytes: polynomials over bits, bit i standing for power i, reduced by 0x11D.
//!
//! The code multiplies by tables of powers and logarithms of 2; the meaning is the product of polynomials and knows
//! no table, so a wrong entry is a failed proof.
ghost use Rattle.std.specs.Prelude.{refl};
ghost use Rattle.field.specs.OfBytes.{bytes};
ghost use Rattle.field.specs.BytesLaws.{bytes_laws};
ghost use Rattle.field.specs.Remainders.{all_laws};

mod logarithms;
mod powers;

use super::Field;
use super::binary::sum;
use logarithms::logarithm;
use powers::power;

/// The field of bytes.
pub struct Bytes;

impl Field for Bytes {
    const Q: u16 = 256;

    ghost Q = { 256 };

    ghost means = { bytes };

    ghost order = { refl };

    ghost laws = { all_laws bytes_laws };

    fn add(a: u16, b: u16) -> u16 {
        sum::<{ Self::Q }>(a, b)
    }

    // Every code is its own negative.
    fn sub(a: u16, b: u16) -> u16 {
        Self::add(a, b)
    }

    // Codes other than 0 are powers of 2, and there are 255 of them: logarithms add modulo 255.
    fn mul(a: u16, b: u16) -> u16 {
        let a = a % Self::Q;
        let b = b % Self::Q;
        if a == 0 || b == 0 {
            return 0;
        }
        power((logarithm(a) + logarithm(b)) % 255)
    }

    fn inverse(a: u16) -> Option<u16> {
        let a = a % Self::Q;
        if a == 0 {
            return None;
        }
        Some(power((255 - logarithm(a)) % 255))
    }
}
