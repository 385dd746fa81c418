//! Links between the two ends of a transfer.
//!
//! A link carries frames of at most 400 bytes. It may lose, double, hold or reorder them, but it makes up none: that
//! is the law that every link shows, and all that the ends rely on.
#![tactic(auto)]

ghost use Rattle.std.specs.Prelude.{◌≡◌};
ghost use Rattle.link.specs.Link.{Carries, CarriesLaws, taken};

use refusal::Refusal;

mod letter;
mod plain;
mod script;
mod scripted;
mod stored;

pub use plain::PlainLink;
pub use scripted::ScriptedLink;

/// A link that frames are put on and taken from.
pub trait Link {
    ghost means: { Carries Self };

    /// Hands a frame to the link, which refuses nothing.
    fn put(&mut self, frame: &[u8])
        ensures exact { self.new ≡ means.put self.old frame.now };

    /// Takes the next frame, if there is one: it then stands at the start of the buffer, whose rest is left, and its
    /// length is answered. Refuses a buffer of fewer than 400 bytes, and then changes nothing.
    // The length, and no slice of the buffer, since what the whole buffer then holds is promised.
    fn take(&mut self, buffer: &mut [u8]) -> Result<Option<usize>, Refusal>
        ensures exact { record { answer = result; state = self.new; buffer = buffer.new } ≡ taken 400 means self.old buffer.old };

    ghost laws: { CarriesLaws 400 means };
}

#[cfg(test)]
mod tests {
    use super::*;
    use std::test::Fail;

    #[test]
    fn a_held_frame_joins_after_the_next_put(rt: HostRuntime) -> Result<(), Fail> {
        let mut link = ScriptedLink::new(b"hk")?;
        let mut buffer = [0; 400];
        link.put(&[7]);
        assert_eq!(rt; link.take(&mut buffer)?, None);
        link.put(&[8, 9]);
        assert_eq!(rt; link.take(&mut buffer)?, Some(2));
        assert_eq!(rt; link.take(&mut buffer)?, Some(1));
        assert_eq!(rt; (buffer[0], buffer[1]), (7, 9));
        Ok(())
    }
}
