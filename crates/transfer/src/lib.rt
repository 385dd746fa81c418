//! A transfer: both ends of one stream, and a link each way.
//!
//! Data frames go forward from the sender to the receiver, and reports come back. Of the links no more is known than
//! that
//! they make up no frame. `specs/Log.antt` and `specs/Promise.antt` say what a transfer promises over every log of
//! calls;
//! `starts` and `goes_on` tie a transfer to its log, and `stands` has the promise.
#![tactic(auto)]

ghost use Rattle.std.specs.Prelude.{◌≡◌, ◌<◌, ◌≤◌, [], length, take, Some, None, Err, MatchOption, OnErr};
ghost use Rattle.refusal.specs.declared.Refusal.TheVariants.{ShortBuffer};
ghost use Rattle.frame.specs.ReportFrame.{report_of};
ghost use Rattle.transfer.specs.Calls.{state_of, admit, seal, send, fetch, hear, GoesOn, Stands};
ghost use Rattle.transfer.specs.Parts.{Parts, parts, started};
ghost use Rattle.transfer.specs.Promise.{Promise};
ghost use Rattle.transfer.specs.Run.{Run};
ghost use Rattle.transfer.specs.Steps.{called, fetched, admits, sends, fetches, with_heard, hears};

use carried::Carried;
use frame::{FRAME_MOST, REPORT_LEN, SYMBOLS, WINDOW, write_report};
use link::Link;
use receiver::{Answer, Receiver};
use refusal::Refusal;
use sender::{Open, OpenSender, Sealed, Sender};
use source::Source;

/// Both ends of one stream, and the links between them: P is the phase of the sender.
#[derive(Drop)]
pub struct Transfer<P, C, S, D, R> {
    sender: Sender<P, C, S>,
    receiver: Receiver<C>,
    forward: D,
    reverse: R,
}

/// A transfer whose stream still grows.
pub type OpenTransfer<C, S, D, R> = Transfer<Open, C, S, D, R>;

/// A transfer whose stream is whole.
pub type SealedTransfer<C, S, D, R> = Transfer<Sealed, C, S, D, R>;

// What the parts of a transfer mean, under one name, which the contracts quote.
trait Joined {
    type S;

    type D;

    type R;

    ghost parts: { Parts Self.S Self.D Self.R };
}

impl<P, C: Carried, S: Source, D: Link, R: Link> Joined for Transfer<P, C, S, D, R> {
    type S = S;

    type D = D;

    type R = R;

    ghost parts = { parts C.Field.means C.Carried.carries S.Source.means D.Link.means R.Link.means };
}

impl<C: Carried, S: Source, D: Link, R: Link> OpenTransfer<C, S, D, R> {
    /// A transfer before its first packet, over these links.
    pub fn new(source: S, forward: D, reverse: R) -> OpenTransfer<C, S, D, R>
        ensures exact { state_of result ≡ started 32 source forward reverse }
        ensures starts { Run 32 ⟦<Self as Joined>⟧.parts source forward reverse [] (state_of result) }
        ensures stands { Promise C.Field.means C.Carried.carries 32 (D.Link.means.waiting forward) (R.Link.means.waiting reverse) [] }
    {
        Transfer {
            sender: OpenSender::new(source),
            receiver: Receiver::new(),
            forward,
            reverse,
        }
    }

    /// Hands a packet to the sender, and answers how many were admitted. Refuses what the sender refuses, and then
    /// changes
    /// nothing.
    pub fn admit(&mut self, packet: &[u16]) -> Result<u32, Refusal>
        ensures exact { called result (state_of self.new) ≡ admits 32 ⟦<Self as Joined>⟧.parts (state_of self.old) packet.now }
        ensures unchanged { OnErr result (state_of self.new ≡ state_of self.old) }
        ensures goes_on { GoesOn 32 ⟦<Self as Joined>⟧.parts (admit packet.now result) (state_of self.old) (state_of self.new) }
        ensures stands { Stands 32 ⟦<Self as Joined>⟧.parts (admit packet.now result) (state_of self.old) }
    {
        self.sender.admit(packet)
    }

    /// Ends the stream: the admitted packets are all that there will be.
    pub fn seal(self) -> SealedTransfer<C, S, D, R>
        ensures exact { state_of result ≡ state_of self }
        ensures goes_on { GoesOn 32 ⟦<Self as Joined>⟧.parts seal (state_of self) (state_of result) }
        ensures stands { Stands 32 ⟦<Self as Joined>⟧.parts seal (state_of self) }
    {
        let Transfer {
            sender,
            receiver,
            forward,
            reverse,
        } = self;
        Transfer {
            sender: sender.seal(),
            receiver,
            forward,
            reverse,
        }
    }
}

impl<P, C: Carried, S: Source, D: Link, R: Link> Transfer<P, C, S, D, R> {
    /// Puts a frame that combines the window's packets on the forward link, and answers its length. Refuses an empty
    /// window, and then changes nothing.
    pub fn send(&mut self) -> Result<usize, Refusal>
        ensures exact { called result (state_of self.new) ≡ sends 32 ⟦<Self as Joined>⟧.parts (state_of self.old) }
        ensures unchanged { OnErr result (state_of self.new ≡ state_of self.old) }
        ensures goes_on { GoesOn 32 ⟦<Self as Joined>⟧.parts (send result) (state_of self.old) (state_of self.new) }
        ensures stands { Stands 32 ⟦<Self as Joined>⟧.parts (send result) (state_of self.old) }
    {
        let mut frame = [0; FRAME_MOST];
        let length = self.sender.send(&mut frame)?;
        self.forward.put(&frame[..length]);
        Ok(length)
    }

    /// Takes a frame, if there is one, off the forward link and into the receiver, whose answer it gives, and puts the
    /// report on the reverse link, whatever the answer. The released packets are written to the number buffer. Refuses
    /// a
    /// number buffer without room for 32 packets, before it takes a frame, and then changes nothing; where the receiver
    /// refuses the frame, the frame is gone, and the report is put all the same.
    pub fn fetch(&mut self, numbers: &mut [u16]) -> Result<Option<Answer>, Refusal>
        ensures exact { fetched result (state_of self.new) numbers.new ≡ fetches 32 ⟦<Self as Joined>⟧.parts (state_of self.old) numbers.old }
        ensures short { length numbers.old < 4096 → (result ≡ Err ShortBuffer) × (state_of self.new ≡ state_of self.old) × (numbers.new ≡ numbers.old) }
        ensures unchanged { OnErr result ((self.new.sender ≡ self.old.sender) × (self.new.receiver.state ≡ self.old.receiver.state) × (numbers.new ≡ numbers.old)) }
        ensures goes_on { GoesOn 32 ⟦<Self as Joined>⟧.parts (fetch numbers.old result numbers.new) (state_of self.old) (state_of self.new) }
        ensures stands { Stands 32 ⟦<Self as Joined>⟧.parts (fetch numbers.old result numbers.new) (state_of self.old) }
    {
        if numbers.len() < WINDOW * SYMBOLS {
            return Err(Refusal::ShortBuffer);
        }
        let mut buffer = [0; FRAME_MOST];
        let Some(frame) = take_frame(&mut self.forward, &mut buffer) else {
            return Ok(None);
        };
        let answer = self.receiver.arrive(frame, numbers);
        self.reverse.put(&report_frame(self.receiver.report()));
        answer.map(Some)
    }

    /// Takes a report, if there is one, off the reverse link and into the sender, whose answer it gives. A report that
    /// the
    /// sender refuses is gone, and changes nothing else.
    pub fn hear(&mut self) -> Result<Option<(u32, u32)>, Refusal>
        ensures exact { called result (state_of self.new) ≡ hears 32 ⟦<Self as Joined>⟧.parts (state_of self.old) }
        ensures unchanged { OnErr result (state_of self.new ≡ with_heard 32 ⟦<Self as Joined>⟧.parts self.old.sender.window (state_of self.old)) }
        ensures goes_on { GoesOn 32 ⟦<Self as Joined>⟧.parts (hear result) (state_of self.old) (state_of self.new) }
        ensures stands { Stands 32 ⟦<Self as Joined>⟧.parts (hear result) (state_of self.old) }
    {
        let mut buffer = [0; FRAME_MOST];
        let Some(frame) = take_frame(&mut self.reverse, &mut buffer) else {
            return Ok(None);
        };
        self.sender.hear(frame).map(Some)
    }
}

// Takes the next frame, if there is one, into the buffer: no link refuses so long a buffer.
fn take_frame<'a, L: Link>(link: &mut L, buffer: &'a mut [u8; FRAME_MOST]) -> Option<&'a [u8]>
    ensures frame { MatchOption result (L.Link.means.first link.old ≡ None) (λ frame. L.Link.means.first link.old ≡ Some frame.now) }
    ensures rest { link.new ≡ L.Link.means.rest link.old }
{
    let length = link.take(buffer).ok().flatten()?;
    Some(&buffer[..length])
}

// The report as a frame.
fn report_frame(report: (u32, u32)) -> [u8; REPORT_LEN]
    ensures { result ≡ report_of report }
{
    let mut frame = [0; REPORT_LEN];
    let _ = write_report(report, &mut frame);
    frame
}
