//! The integers modulo 257, a prime.
ghost use Rattle.std.specs.Prelude.{refl};
ghost use Rattle.field.specs.OfResidues.{residues};
ghost use Rattle.field.specs.ResiduesLaws.{residues_laws};
ghost use Rattle.field.specs.Remainders.{all_laws};

use super::Field;

/// The field of the integers modulo 257.
pub struct Residues;

impl Field for Residues {
    const Q: u16 = 257;

    ghost Q = { 257 };

    ghost means = { residues };

    ghost order = { refl };

    ghost laws = { all_laws residues_laws };

    fn add(a: u16, b: u16) -> u16 {
        (a % Self::Q + b % Self::Q) % Self::Q
    }

    fn sub(a: u16, b: u16) -> u16 {
        (a % Self::Q + (Self::Q - b % Self::Q)) % Self::Q
    }

    // 256 times 256 needs more than 16 bits.
    fn mul(a: u16, b: u16) -> u16 {
        let product = u32::from(a % Self::Q) * u32::from(b % Self::Q);
        (product % u32::from(Self::Q)) as u16
    }

    // By Fermat's little theorem the inverse of a is its power 255, which eight squarings give.
    fn inverse(a: u16) -> Option<u16> {
        let mut square = a % Self::Q;
        if square == 0 {
            return None;
        }
        let mut power = 1;
        // A loop, since a fold would carry both numbers of a turn in a pair and be no plainer.
        for _turn in 0..8u8 {
            power = Self::mul(power, square);
            square = Self::mul(square, square);
        }
        Some(power)
    }
}
