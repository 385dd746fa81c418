//! One packet at a time, mixed with those below it.
ghost use Rattle.std.specs.Prelude.{◌≡◌, suc, ◌/◌, ◌<◌, refl};
ghost use Rattle.source.specs.OfWoven.{woven, stepped, advanced, generated, code, codes};
ghost use Rattle.source.specs.Turn.{start, ending};
ghost use Rattle.std.proofs.Common.{mod-lt, arith};
ghost use Rattle.source.specs.Turning.{turning_laws};

use super::turn::{Turn, marked};
use super::{SLOTS, Source, check_draw};
use refusal::Refusal;

/// Draws each packet of the window in turn, mixed with those below it.
#[derive(Clone, Copy)]
pub struct Woven {
    turn: Turn,
    v: u32,
}

impl Woven {
    /// A source before its first draw, whose generator starts at `seed`.
    pub fn new(seed: u32) -> Woven
        ensures { result ≡ record { turn = start; v = seed } }
    {
        Woven {
            turn: Turn::new(),
            v: seed,
        }
    }

    // A code from the upper half of the generator's next number, which mixes better than the lower.
    fn code(&mut self, order: u16) -> u16
        requires { 0 < order }
        ensures code { result ≡ code order (stepped self.old.v) }
        ensures after { self.new ≡ advanced self.old }
    {
        self.v = step(self.v);
        (self.v / 65_536 % u32::from(order)) as u16
    }

    // Writes 1 at the place, a code in each slot below, and 0 above.
    fn weave(&mut self, order: u16, place: usize, slots: &mut [u16; SLOTS])
        requires order { 0 < order }
        requires place { place < 32 }
        ensures slots { slots.new ≡ ending 32 place (codes self.old order) }
        ensures after { self.new ≡ record { turn = self.old.turn; v = generated self.old.v place } }
    {
        *slots = marked(place);
        for slot in slots[..place].iter_mut() {
            *slot = self.code(order);
        }
    }
}

impl Source for Woven {
    ghost means = { woven 32 };

    ghost laws = { turning_laws 32 (λ x. x.turn) codes (woven 32).next (λ x q i h. mod-lt (generated x.v (suc i) / 65536) (omega arith)) (λ x q n. refl) };

    fn draw(&mut self, order: u16, width: usize, slots: &mut [u16]) -> Result<(), Refusal> {
        let Some(slots) = slots.as_mut_array::<SLOTS>() else {
            return Err(Refusal::BadDraw);
        };
        check_draw(order, width)?;
        let place = self.turn.take(width);
        self.weave(order, place, slots);
        Ok(())
    }
}

// One step of the generator.
fn step(v: u32) -> u32
    ensures { result ≡ stepped v }
{
    v.wrapping_mul(1_664_525).wrapping_add(1_013_904_223)
}
