//! Captures: frames end to end, each behind its length in two bytes, the highest first.
#![tactic(auto)]

ghost use Rattle.std.specs.Prelude.{◌≡◌, Some, codes};
ghost use Rattle.capture.specs.Frames.{captured, left, ComeBack};

use std::error::Error;
use std::fmt;

/// The capture ends in the middle of a frame.
#[derive(Clone, Copy, PartialEq, Eq, Debug)]
pub struct CutShort;

impl fmt::Display for CutShort {
    ghost output = { λ _. Some (codes "cut short") };

    fn fmt<W: fmt::Write>(&self, f: &mut fmt::Formatter<W>) -> fmt::Result {
        f.write_str("cut short")
    }
}

impl Error for CutShort {}

/// The frames of a capture, one after another. A frame that is cut short ends them, and a length that is cut short ends
/// them too, without a word.
#[derive(Clone, Copy, Debug)]
pub struct Frames<'a> {
    rest: &'a [u8],
}

impl<'a> Frames<'a> {
    /// The frames of these bytes.
    pub fn new(capture: &'a [u8]) -> Frames<'a>
        ensures exact { left result ≡ captured capture.now }
        ensures come_back { ComeBack capture.now (left result) }
    {
        Frames { rest: capture }
    }
}

impl<'a> Iterator for Frames<'a> {
    ghost use Rattle.std.specs.Iterator.{YieldsFirstBy, item_count};
    ghost use Rattle.capture.specs.Frames.{shown, left};

    type Item = Result<&'a [u8], CutShort>;

    ghost next_gives = { YieldsFirstBy shown left };

    ghost remaining = { item_count left };

    fn next(&mut self) -> Option<Result<&'a [u8], CutShort>> {
        let [high, low, tail @ ..] = self.rest else {
            return None;
        };
        let length = u16::from_be_bytes([*high, *low]) as usize;
        let Some((frame, rest)) = tail.split_at_checked(length) else {
            self.rest = &[];
            return Some(Err(CutShort));
        };
        self.rest = rest;
        Some(Ok(frame))
    }
}

#[cfg(test)]
mod tests {
    use super::*;

    #[test]
    fn frames_lie_end_to_end(rt: HostRuntime) {
        let mut frames = Frames::new(&[0, 2, 7, 8, 0, 0, 1, 0, 9]);
        let first: &[u8] = &[7, 8];
        assert_eq!(rt; frames.next(), Some(Ok(first)));
        let empty: &[u8] = &[];
        assert_eq!(rt; frames.next(), Some(Ok(empty)));
        assert_eq!(rt; frames.next(), Some(Err(CutShort)));
        assert_eq!(rt; frames.next(), None);
    }

    #[test]
    fn half_a_length_ends_them(rt: HostRuntime) {
        let mut frames = Frames::new(&[0, 0, 5]);
        let empty: &[u8] = &[];
        assert_eq!(rt; frames.next(), Some(Ok(empty)));
        assert_eq!(rt; frames.next(), None);
    }
}
