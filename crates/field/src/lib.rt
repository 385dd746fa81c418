//! Finite fields over codes.
//!
//! A code is a 16-bit number below the field's order q. What a field computes is said by its ghost meaning, a
//! record of plain functions on numbers, and every field shows the laws that elimination rests on. All above this
//! crate is written and proved once, for every field.
#![tactic(auto)]

ghost use Rattle.std.specs.Prelude.{◌≡◌, ℕ};
ghost use Rattle.field.specs.Field.{Means, Laws, plus, minus, times, inverse};

mod binary;
mod bits;
mod bytes;
mod lists;
mod residues;

pub use bits::Bits;
pub use bytes::Bytes;
pub use lists::{all_below, all_zero};
pub use residues::Residues;

/// A finite field. Its calls take any 16-bit numbers, each counting as its remainder by q, and answer codes.
pub trait Field {
    /// The order q, the number of codes.
    const Q: u16;

    ghost Q: { ℕ };

    ghost means: { Means };

    fn add(a: u16, b: u16) -> u16
        ensures { result ≡ plus means a b };

    fn sub(a: u16, b: u16) -> u16
        ensures { result ≡ minus means a b };

    fn mul(a: u16, b: u16) -> u16
        ensures { result ≡ times means a b };

    /// The code whose product with a is 1; absent where a counts as 0.
    fn inverse(a: u16) -> Option<u16>
        ensures { result ≡ inverse means a };

    ghost order: { Q ≡ means.q };

    ghost laws: { Laws means };
}

#[cfg(test)]
mod tests {
    use super::*;

    #[test]
    fn numbers_count_by_their_remainder(rt: HostRuntime) {
        assert_eq!(rt; Bits::add(3, 4), 1);
        assert_eq!(rt; Bytes::sub(256, 7), 7);
        assert_eq!(rt; Residues::sub(0, 258), 256);
        assert_eq!(rt; Residues::mul(256, 513), 1);
    }

    #[test]
    fn products_are_reduced(rt: HostRuntime) {
        assert_eq!(rt; Bits::mul(1, 1), 1);
        assert_eq!(rt; Bytes::mul(2, 128), 29);
        assert_eq!(rt; Residues::mul(16, 16), 256);
    }

    #[test]
    fn only_zero_has_no_inverse(rt: HostRuntime) {
        assert_eq!(rt; Bits::inverse(0), None);
        assert_eq!(rt; Bytes::inverse(256), None);
        assert_eq!(rt; Residues::inverse(257), None);
        assert_eq!(rt; Bytes::inverse(2), Some(142));
        assert_eq!(rt; Residues::inverse(2), Some(129));
    }
}
