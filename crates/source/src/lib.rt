//! Where a sender's coefficients come from.
//!
//! A source fills the slots of one frame with each draw. What it draws is a function of its state, the field's order
//! q and the window's width n, and every source shows that n draws in a row at width n are independent rows, so that
//! n frames in a row carry the whole window.
#![tactic(auto)]

ghost use Rattle.std.specs.Prelude.{◌≡◌, ℕ, ◌≤◌, false, List, MatchResult};
ghost use Rattle.refusal.specs.declared.Refusal.TheVariants.{BadDraw};
ghost use Rattle.source.specs.Source.{Draws, DrawsLaws, allowed, drawn};

use refusal::Refusal;

mod plain;
mod turn;
mod woven;

pub use plain::Plain;
pub use woven::Woven;

// The number of slots that a draw fills, as many as a frame has: a source stands on no frames.
const SLOTS: usize = 32;

/// A source of coefficients.
pub trait Source {
    ghost means: { Draws Self };

    /// Fills the 32 slots with codes below the order, 0 from the width on. Refuses an order below 2, a width outside
    /// 1 to 32 and other than 32 slots, and then changes nothing.
    fn draw(&mut self, order: u16, width: usize, slots: &mut [u16]) -> Result<(), Refusal>
        ensures exact { record { answer = result; state = self.new; slots = slots.new } ≡ drawn 32 means self.old order width slots.old };

    ghost laws: { DrawsLaws 32 means };
}

// The check of a draw's order and width that every source makes, with the 32 slots at hand, before it draws. The few
// calls that the sources' draws share are no longer than a trait of their own that would hold them.
fn check_draw(order: u16, width: usize) -> Result<(), Refusal>
    ensures { MatchResult result (λ _. (2 ≤ order) × (1 ≤ width) × (width ≤ 32)) (λ e. (e ≡ BadDraw) × ((slots : List ℕ) → allowed 32 order width slots ≡ false)) }
{
    if order < 2 || width < 1 || width > SLOTS {
        return Err(Refusal::BadDraw);
    }
    Ok(())
}

#[cfg(test)]
mod tests {
    use super::*;
    use std::test::Fail;

    #[test]
    fn woven_mixes_in_the_packets_below(rt: HostRuntime) -> Result<(), Fail> {
        let mut source = Woven::new(0);
        let mut slots = [0; 32];
        source.draw(256, 3, &mut slots)?;
        assert_eq!(rt; (slots[0], slots[1], slots[2]), (1, 0, 0));
        source.draw(256, 3, &mut slots)?;
        assert_eq!(rt; (slots[0], slots[1], slots[2]), (110, 1, 0));
        source.draw(256, 3, &mut slots)?;
        assert_eq!(rt; (slots[0], slots[1], slots[2]), (80, 204, 1));
        Ok(())
    }
}
