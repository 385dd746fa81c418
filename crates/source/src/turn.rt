//! Whose turn it is in the window: the place that every source keeps.
ghost use Rattle.std.specs.Prelude.{◌≡◌, ◌<◌};
ghost use Rattle.source.specs.Turn.{start, place_at, moved, ending};

use super::SLOTS;

/// The place of the next draw, and the width of the last one.
#[derive(Clone, Copy)]
pub(crate) struct Turn {
    place: usize,
    width: usize,
}

impl Turn {
    /// Before the first draw.
    pub(crate) fn new() -> Turn
        ensures { result ≡ start }
    {
        Turn { place: 0, width: 0 }
    }

    /// The place of a draw at this width, after which it is the next one's turn.
    pub(crate) fn take(&mut self, width: usize) -> usize
        requires { 0 < width }
        ensures place { result ≡ place_at self.old width }
        ensures below { result < width }
        ensures after { self.new ≡ moved self.old width }
    {
        let place = if self.width == width {
            self.place % width
        } else {
            0
        };
        *self = Turn {
            place: (place + 1) % width,
            width,
        };
        place
    }
}

// 1 in the slot at the place, and 0 in the others.
pub(crate) fn marked(place: usize) -> [u16; SLOTS]
    requires { place < 32 }
    ensures { result ≡ ending 32 place (λ i. 0) }
{
    let mut slots = [0; SLOTS];
    slots[place] = 1;
    slots
}
