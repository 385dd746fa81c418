//! A link that loses, doubles and holds frames by a script.
ghost use Rattle.std.specs.Prelude.{◌≡◌, [], length, IfOk, if◌then◌else◌, nat_lt};
ghost use Rattle.link.specs.Link.{taken};
ghost use Rattle.link.specs.OfScripted.{put_by, served, line, opened_with, acted, passed, scripted};
ghost use Rattle.link.specs.Script.{letter_of, Rounds};
ghost use Rattle.link.specs.Waiting.{scripted_laws};

use super::Link;
use super::letter::Letter;
use super::plain::PlainLink;
use super::script::Script;
use super::stored::Stored;
use refusal::Refusal;

/// A queue as that of a plain link, and a script, of which each put takes the next letter: `k` keeps the frame, `l`
/// loses it, `d` queues it twice and `h` holds it. A held frame joins the queue after the next put's own letter has
/// acted. A frame over 400 bytes is lost, whatever the letter.
#[derive(Clone, Copy)]
pub struct ScriptedLink {
    queue: PlainLink,
    script: Script,
    held: Option<Stored>,
}

impl ScriptedLink {
    /// A link on which no frame waits. The script has 1 to 64 letters, each `k`, `l`, `d` or `h`.
    pub fn new(script: &[u8]) -> Result<ScriptedLink, Refusal>
        ensures exact { result ≡ opened_with 16 400 64 script.now }
        ensures empty { IfOk result (λ x. (scripted 400).waiting x ≡ []) }
        ensures rounds { IfOk result (λ x. Rounds script.now x.script) }
    {
        let script = Script::new(script)?;
        Ok(ScriptedLink {
            queue: PlainLink::new(),
            script,
            held: None,
        })
    }

    // What a put does with a frame, which is absent where it was too long.
    fn pass(&mut self, frame: Option<Stored>)
        ensures exact { self.new ≡ passed frame self.old }
        ensures room { length self.old.queue.frames ≡ 16 }
    {
        let letter = self.script.read();
        let held = self.held.take();
        if let Some(frame) = frame {
            self.act(letter, frame);
        }
        self.queue.join(held);
    }

    // What the letter does to a frame.
    fn act(&mut self, letter: Letter, frame: Stored)
        ensures { self.new ≡ acted letter frame self.old }
    {
        match letter {
            Letter::Keep => self.queue.join(Some(frame)),
            Letter::Lose => {}
            Letter::Double => {
                // Where there is room for one only, the copy is lost.
                let copy = frame;
                self.queue.join(Some(frame));
                self.queue.join(Some(copy));
            }
            Letter::Hold => self.held = Some(frame),
        }
    }
}

impl Link for ScriptedLink {
    ghost means = { scripted 400 };

    ghost laws = { scripted_laws 400 };

    fn put(&mut self, frame: &[u8])
        ensures exact { self.new ≡ (scripted 400).put self.old frame.now }
        ensures line { line 400 self.new ≡ put_by 16 400 (letter_of self.old.script) (line 400 self.old) frame.now }
    {
        self.pass(Stored::of(frame));
    }

    fn take(&mut self, buffer: &mut [u8]) -> Result<Option<usize>, Refusal>
        ensures exact { record { answer = result; state = self.new; buffer = buffer.new } ≡ taken 400 (scripted 400) self.old buffer.old }
        ensures line { line 400 self.new ≡ (if nat_lt (length buffer.old) 400 then line 400 self.old else served (line 400 self.old)) }
    {
        self.queue.take(buffer)
    }
}
