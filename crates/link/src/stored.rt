//! Frames in memory of a fixed size.
ghost use Rattle.std.specs.Prelude.{◌≡◌, ◌≤◌, [], ◌++◌, length, drop};
ghost use Rattle.link.specs.Ring.{frame, padded, entry, entry_of};

/// The longest frame that a link carries, which no frame of the crate of frames exceeds: a link stands on no frames.
pub(crate) const LIMIT: usize = 400;

/// A frame: the first bytes of its memory.
#[derive(Clone, Copy)]
pub(crate) struct Stored {
    // An array with its length beside it: a put refuses nothing, so no memory is asked for.
    bytes: [u8; LIMIT],
    length: usize,
}

impl Stored {
    pub(crate) fn empty() -> Stored
        ensures { result ≡ entry 400 [] }
    {
        Stored {
            bytes: padded(&[]),
            length: 0,
        }
    }

    /// A copy of the frame, unless it is too long.
    pub(crate) fn of(frame: &[u8]) -> Option<Stored>
        ensures { result ≡ entry_of 400 frame.now }
    {
        if frame.len() > LIMIT {
            return None;
        }
        Some(Stored {
            bytes: padded(frame),
            length: frame.len(),
        })
    }

    /// Writes the frame at the start of the buffer, and answers its length.
    pub(crate) fn write(&self, buffer: &mut [u8; LIMIT]) -> usize
        ensures length { result ≡ length (frame 400 self.now) }
        ensures buffer { buffer.new ≡ frame 400 self.now ++ drop (length (frame 400 self.now)) buffer.old }
    {
        // A length over the limit counts as the limit, so that no state is out of bounds.
        let length = self.length.min(LIMIT);
        buffer[..length].copy_from_slice(&self.bytes[..length]);
        length
    }
}

// The frame, with zeros after it.
fn padded(frame: &[u8]) -> [u8; LIMIT]
    requires { length frame.now ≤ 400 }
    ensures { result ≡ padded 400 frame.now }
{
    let mut bytes = [0; LIMIT];
    bytes[..frame.len()].copy_from_slice(frame);
    bytes
}
