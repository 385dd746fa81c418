//! One packet at a time.
ghost use Rattle.std.specs.Prelude.{◌≡◌, refl};
ghost use Rattle.source.specs.OfPlain.{plain};
ghost use Rattle.source.specs.Turn.{start};
ghost use Rattle.std.proofs.Common.{arith};
ghost use Rattle.source.specs.Turning.{turning_laws};

use super::turn::{Turn, marked};
use super::{SLOTS, Source, check_draw};
use refusal::Refusal;

/// Draws the packets of the window one by one, in turn.
#[derive(Clone, Copy)]
pub struct Plain {
    turn: Turn,
}

impl Plain {
    /// A source before its first draw.
    pub fn new() -> Plain
        ensures { result ≡ record { turn = start } }
    {
        Plain { turn: Turn::new() }
    }
}

impl Source for Plain {
    ghost means = { plain 32 };

    ghost laws = { turning_laws 32 (λ x. x.turn) (λ x q i. 0) (plain 32).next (λ x q i h. omega arith) (λ x q n. refl) };

    fn draw(&mut self, order: u16, width: usize, slots: &mut [u16]) -> Result<(), Refusal> {
        let Some(slots) = slots.as_mut_array::<SLOTS>() else {
            return Err(Refusal::BadDraw);
        };
        check_draw(order, width)?;
        let place = self.turn.take(width);
        *slots = marked(place);
        Ok(())
    }
}
