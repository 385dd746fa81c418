//! The sender: packets admitted in order, and frames that combine those of the window.
//!
//! A sender counts the admitted packets, and hears from reports how many packets the far end has released and which is
//! the oldest that it has not seen. Its window is the packets from the oldest unseen one on; what lies below is
//! dropped.
//! A sender is open until it is sealed: a sealed one admits nothing.
#![tactic(auto)]

ghost use Rattle.std.specs.Prelude.{◌≡◌, ◌≤◌, Ok};
ghost use Rattle.sender.specs.Packets.{Keeps, TellsPackets};
ghost use Rattle.sender.specs.Steps.{Sound, hearing, payload, sending, width};

mod open_sender;
mod window;

use carried::Carried;
use field::Field;
use frame::{Data, SYMBOLS, WINDOW, read_report, write_data};
use refusal::Refusal;
use source::Source;
use std::marker::PhantomData;
use window::{Window, add_multiple};

/// The phase of a stream that still grows.
#[derive(Clone, Copy)]
pub struct Open;

/// The phase of a stream that is whole.
#[derive(Clone, Copy)]
pub struct Sealed;

/// A sender whose stream is in the phase P, over the field C, with coefficients from a source S.
#[derive(Drop)]
pub struct Sender<P, C, S> {
    window: Window,
    source: S,
    phase: PhantomData<P>,
    field: PhantomData<C>,
    ghost ok: { Sound 32 window },
}

/// A sender that admits packets.
pub type OpenSender<C, S> = Sender<Open, C, S>;

/// A sender that admits no more packets, and sends what is in its window until the far end has it all.
pub type SealedSender<C, S> = Sender<Sealed, C, S>;

impl<P, C: Carried, S: Source> Sender<P, C, S> {
    /// Draws a row for the window, writes the frame that combines its packets by that row at the buffer's start, leaves
    /// the rest, and answers the frame's length. Refuses a buffer that is shorter, then an empty window; a refused send
    /// draws nothing and changes nothing.
    pub fn send(&mut self, frame: &mut [u8]) -> Result<usize, Refusal>
        ensures exact { record { answer = result; source = self.new.source; frame = frame.new } ≡ sending 32 C.Field.means C.Carried.carries S.Source.means self.old.window self.old.source frame.old }
        ensures same { self.new.window ≡ self.old.window }
        ensures tells { TellsPackets 32 C.Field.means C.Carried.carries S.Source.means self.old.window self.old.source result frame.new }
    {
        if frame.len() < C::LEN {
            return Err(Refusal::ShortBuffer);
        }
        if self.window.is_empty() {
            return Err(Refusal::WindowEmpty);
        }
        let width = self.width();
        let slots = draw_row::<C, S>(&mut self.source, width)?;
        let data = Data {
            base: self.window.unseen,
            width: width as u8,
            slots,
            symbols: self.payload(&slots),
        };
        write_data::<C>(&data, frame)
    }

    /// Takes a report in, and answers the greatest released and the greatest oldest unseen number heard. Refuses what
    /// is
    /// no report, then one whose numbers are out of order or past what was admitted, and then changes nothing.
    pub fn hear(&mut self, report: &[u8]) -> Result<(u32, u32), Refusal>
        ensures exact { (result, self.new.window) ≡ hearing self.old.window report.now }
        ensures same { self.new.source ≡ self.old.source }
        ensures keeps { Keeps 32 C.Field.means.q self.old.window self.new.window }
    {
        let (released, unseen) = read_report(report)?;
        if released > unseen || unseen > self.window.admitted {
            return Err(Refusal::BadReport);
        }
        self.window.heard = self.window.heard.max(released);
        self.window.unseen = self.window.unseen.max(unseen);
        Ok((self.window.heard, self.window.unseen))
    }

    // How many packets are in the window.
    fn width(&self) -> u32
        ensures { result ≡ width self.now.window }
    {
        self.window.admitted - self.window.unseen
    }

    // The payload of a row: the sum over the window of coefficient times packet.
    fn payload(&self, slots: &[u16; WINDOW]) -> [u16; SYMBOLS]
        ensures { result ≡ payload 32 C.Field.means self.now.window slots.now }
    {
        let mut sum = [0; SYMBOLS];
        for (i, factor) in slots[..self.width() as usize].iter().enumerate() {
            add_multiple::<C>(
                &mut sum,
                *factor,
                self.window.packet(self.window.unseen + i as u32),
            );
        }
        sum
    }
}

// The slots of one draw at this width.
fn draw_row<C: Carried, S: Source>(source: &mut S, width: u32) -> Result<[u16; WINDOW], Refusal>
    requires { (1 ≤ width) × (width ≤ 32) }
    ensures row { result ≡ Ok (S.Source.means.slots source.old C.Field.means.q width) }
    ensures next { source.new ≡ S.Source.means.next source.old C.Field.means.q width }
{
    let mut slots = [0; WINDOW];
    source.draw(C::Q, width as usize, &mut slots)?;
    Ok(slots)
}
