//! A link that delivers in order, as long as it has room.
ghost use Rattle.std.specs.Prelude.{◌≡◌, ◌<◌, ◌≤◌, [], length, drop, if◌then◌else◌, nat_lt};
ghost use Rattle.link.specs.Link.{taken};
ghost use Rattle.link.specs.OfPlain.{plain};
ghost use Rattle.link.specs.Queue.{joined_by, short};
ghost use Rattle.link.specs.Ring.{empty, place_of, queued, pushed_by, front, popped};
ghost use Rattle.std.specs.Option.{option_to_list};
ghost use Rattle.link.specs.Waiting.{plain_laws};

use super::Link;
use super::stored::{LIMIT, Stored};
use refusal::Refusal;

// How many frames there is room for.
const ROOM: usize = 16;

/// A queue of 16 frames, in a ring. A frame that finds it full or is over 400 bytes is lost.
#[derive(Clone, Copy)]
pub struct PlainLink {
    // A ring in an array: a put refuses nothing, so no memory is asked for.
    frames: [Stored; ROOM],
    first: usize,
    count: usize,
}

impl PlainLink {
    /// A link on which no frame waits.
    pub fn new() -> PlainLink
        ensures exact { result ≡ empty 16 400 }
        ensures queue { queued 400 result ≡ [] }
    {
        PlainLink {
            frames: [Stored::empty(); ROOM],
            first: 0,
            count: 0,
        }
    }

    // Where entry i lies. The first place counts modulo the room, so that no state is out of bounds.
    fn place(&self, i: usize) -> usize
        requires { i ≤ 16 }
        ensures place { result ≡ place_of self.now i }
        ensures within { result < 16 }
    {
        (self.first % ROOM + i) % ROOM
    }

    /// Puts a frame, if there is one, at the end of the queue, unless that is full.
    pub(crate) fn join(&mut self, frame: Option<Stored>)
        ensures exact { self.new ≡ pushed_by self.old (option_to_list frame) }
        ensures room { length self.old.frames ≡ 16 }
    {
        if let Some(frame) = frame
            && self.count < ROOM
        {
            let place = self.place(self.count);
            self.frames[place] = frame;
            self.count += 1;
        }
    }

    // Takes the first frame, if there is one, off the queue.
    fn pop(&mut self) -> Option<Stored>
        ensures front { result ≡ front self.old }
        ensures after { self.new ≡ popped self.old }
    {
        if self.count == 0 {
            return None;
        }
        let frame = self.frames[self.place(0)];
        self.first = self.place(1);
        self.count -= 1;
        Some(frame)
    }
}

impl Link for PlainLink {
    ghost means = { plain 400 };

    ghost laws = { plain_laws 400 };

    fn put(&mut self, frame: &[u8])
        ensures exact { self.new ≡ (plain 400).put self.old frame.now }
        ensures queue { queued 400 self.new ≡ joined_by 16 (queued 400 self.old) (option_to_list (short 400 frame.now)) }
    {
        self.join(Stored::of(frame));
    }

    fn take(&mut self, buffer: &mut [u8]) -> Result<Option<usize>, Refusal>
        ensures exact { record { answer = result; state = self.new; buffer = buffer.new } ≡ taken 400 (plain 400) self.old buffer.old }
        ensures queue { queued 400 self.new ≡ (if nat_lt (length buffer.old) 400 then queued 400 self.old else drop 1 (queued 400 self.old)) }
    {
        let Some(start) = buffer.first_chunk_mut::<LIMIT>() else {
            return Err(Refusal::ShortBuffer);
        };
        let Some(frame) = self.pop() else {
            return Ok(None);
        };
        Ok(Some(frame.write(start)))
    }
}
