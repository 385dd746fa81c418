//! What only an open sender does.
ghost use Rattle.std.specs.Prelude.{◌≡◌, []};
ghost use Rattle.sender.specs.Packets.{Appends, Holds};
ghost use Rattle.sender.specs.Steps.{admitting, empty};

use super::window::{Window, as_packet};
use super::{Open, OpenSender, SealedSender, Sender};
use carried::Carried;
use frame::{STREAM, WINDOW};
use refusal::Refusal;
use source::Source;
use std::marker::PhantomData;

impl<C: Carried, S: Source> Sender<Open, C, S> {
    /// A sender before its first packet.
    pub fn new(source: S) -> OpenSender<C, S>
        ensures window { result.window ≡ empty 32 }
        ensures source { result.source ≡ source }
        ensures holds { Holds 32 C.Field.means.q [] result.window }
    {
        Sender {
            window: Window::new(),
            source,
            phase: PhantomData,
            field: PhantomData,
        }
    }

    /// Adds a packet to the window, and answers how many were admitted. Refuses what is no packet of codes, then a full
    /// stream, then a full window, and then changes nothing.
    pub fn admit(&mut self, packet: &[u16]) -> Result<u32, Refusal>
        ensures exact { (result, self.new.window) ≡ admitting 32 C.Field.means self.old.window packet.now }
        ensures source { self.new.source ≡ self.old.source }
        ensures appends { Appends 32 C.Field.means.q packet.now result self.old.window self.new.window }
    {
        let Some(packet) = as_packet::<C>(packet) else {
            return Err(Refusal::BadPacket);
        };
        if self.window.admitted == STREAM {
            return Err(Refusal::StreamFull);
        }
        if self.window.admitted == self.window.heard + WINDOW as u32 {
            return Err(Refusal::WindowFull);
        }
        self.window.packets[self.window.admitted as usize % WINDOW] = *packet;
        self.window.admitted += 1;
        Ok(self.window.admitted)
    }

    /// Ends the stream: the admitted packets are all that there will be.
    pub fn seal(self) -> SealedSender<C, S>
        ensures window { result.window ≡ self.window }
        ensures source { result.source ≡ self.source }
    {
        let Sender {
            window,
            source,
            field,
            ..
        } = self;
        Sender {
            window,
            source,
            phase: PhantomData,
            field,
        }
    }
}
