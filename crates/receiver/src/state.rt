//! What a receiver holds, and the steps of a frame's arrival.
ghost use Rattle.std.specs.Prelude.{◌≡◌, ◌+◌, Ok};
ghost use Rattle.receiver.specs.Alignment.{with_packet, aligned};
ghost use Rattle.receiver.specs.Arrival.{arrival, fresh, accepted, arrived};
ghost use Rattle.receiver.specs.Reach.{reach};
ghost use Rattle.receiver.specs.Release.{ready, advanced, releasing};
ghost use Rattle.receiver.specs.Reports.{sees, reported, listed};
ghost use Rattle.receiver.specs.Start.{at_first, Bounded};
ghost use Rattle.receiver.specs.declared.state.Answer.TheVariants.{Fresh};

use super::readable::Readable;
use carried::Carried;
use elimination::{Row, Table, Verdict, place, subtract_packet};
use field::Field;
use frame::{STREAM, SYMBOLS, WINDOW};
use refusal::Refusal;
use std::marker::Model;

// How far a frame may reach back from the next packet, and past it.
const REACH: u32 = WINDOW as u32;

// The numbers of as many packets as one arrival may release.
const ROOM: usize = WINDOW * SYMBOLS;

/// What an accepted frame was.
// An enum, and no `Option<u32>`: its two names are what the protocol calls the answers.
#[derive(Clone, Copy, PartialEq, Eq, Debug)]
pub enum Answer {
    /// Its row is no combination of those accepted before; so many packets were released.
    Fresh(u32),
    /// Its row is a combination of those accepted before.
    Repeat,
}

#[derive(Drop)]
pub(crate) struct State {
    // How many packets are released: the number of the next one.
    released: u32,
    // The greatest base + width of an accepted frame, or 0.
    top: u32,
    // Rows of the 32 packets from the next one on.
    table: Table,
    // The last 32 released packets: packet k stands at the place k % 32.
    // An array, and no map or queue: no memory is asked for below the programs.
    kept: [[u16; SYMBOLS]; WINDOW],
}

// Clauses see the fields. The stream has 65,536 packets, and no frame reaches past the window.
impl Model for State {
    ghost use Rattle.receiver.specs.Held.{Held};

    ghost Value = { Held };

    ghost use Rattle.receiver.specs.Start.{Bounded};

    ghost view = { λ s. record { released = s.released; top = s.top; table = s.table; kept = s.kept } };

    ghost invariant = { λ s. Bounded 32 (record { released = s.released; top = s.top; table = s.table; kept = s.kept }) };
}

impl State {
    pub(crate) fn new() -> State
        ensures { result ≡ at_first 32 }
    {
        State {
            released: 0,
            top: 0,
            table: Table::new(),
            kept: [[0; SYMBOLS]; WINDOW],
        }
    }

    // What every state keeps, told to callers, who see no invariant.
    fn bounds(&self)
        ensures { Bounded 32 self.now }
    {
        let _ = &self.released;
    }

    // Refuses a frame that has packets no longer kept, or past the table's end.
    fn in_reach(&self, frame: &Readable) -> Result<(), Refusal>
        ensures { result ≡ reach 32 self.now.released frame.now }
    {
        if frame.base() + REACH < self.released {
            return Err(Refusal::Late);
        }
        if frame.end() > self.released + REACH {
            return Err(Refusal::Ahead);
        }
        Ok(())
    }

    // Gives a row its coefficient of packet k; a released packet is subtracted instead.
    fn enter<F: Field>(&self, row: &mut Row, k: u32, coefficient: u16)
        ensures { row.new ≡ with_packet F.Field.means 32 self.now k coefficient row.old }
    {
        if k < self.released {
            subtract_packet::<F>(row, coefficient, &self.kept[place(k)]);
        } else {
            row.slots[place(k)] = coefficient;
        }
    }

    // The frame's row, of packets that are not released.
    fn align<F: Field>(&self, frame: &Readable) -> Row
        ensures { result ≡ aligned F.Field.means 32 self.now frame.now }
    {
        let mut row = Row {
            slots: [0; WINDOW],
            payload: *frame.symbols(),
        };
        for (i, coefficient) in frame.coefficients().iter().enumerate() {
            self.enter::<F>(&mut row, frame.base() + i as u32, *coefficient);
        }
        row
    }

    // The next packet, where it is known: it leaves the table and is kept.
    fn next_packet(&mut self) -> Option<[u16; SYMBOLS]>
        ensures packet { result ≡ ready 32 self.old }
        ensures state { self.new ≡ advanced 32 result self.old }
    {
        if self.released >= STREAM {
            return None;
        }
        let packet = self.table.take_solved(self.released)?;
        self.kept[place(self.released)] = packet;
        self.released += 1;
        Some(packet)
    }

    // Releases packets while the next one is known, and answers how many.
    fn release(&mut self, numbers: &mut [u16; ROOM]) -> u32
        ensures { arrival (Ok (Fresh result)) self.new numbers.new ≡ fresh numbers.old (releasing 32 self.old 32) }
    {
        // By its place, since nothing is known of what is written through chunks.
        for count in 0..REACH {
            let Some(packet) = self.next_packet() else {
                return count;
            };
            let start = SYMBOLS * count as usize;
            numbers[start..start + SYMBOLS].copy_from_slice(&packet);
        }
        REACH
    }

    // Takes in a readable frame.
    fn accept<F: Field>(
        &mut self,
        frame: &Readable,
        numbers: &mut [u16; ROOM],
    ) -> Result<Answer, Refusal>
        ensures { arrival result self.new numbers.new ≡ accepted F.Field.means 32 self.old frame.now numbers.old }
    {
        self.in_reach(frame)?;
        let row = self.align::<F>(frame);
        let verdict = self.table.absorb::<F>(row, self.released);
        if let Verdict::Contradictory = verdict {
            return Err(Refusal::Contradiction);
        }
        self.top = self.top.max(frame.end());
        Ok(match verdict {
            Verdict::Innovative(_) => Answer::Fresh(self.release(numbers)),
            _ => Answer::Repeat,
        })
    }

    // Takes in the bytes of a frame.
    pub(crate) fn arrive<C: Carried>(
        &mut self,
        frame: &[u8],
        numbers: &mut [u16],
    ) -> Result<Answer, Refusal>
        ensures exact { arrival result self.new numbers.new ≡ arrived C.Field.means C.carries 32 self.old frame.now numbers.old }
        ensures bounded { Bounded 32 self.new }
    {
        self.bounds();
        let Some(numbers) = numbers.first_chunk_mut::<ROOM>() else {
            return Err(Refusal::ShortBuffer);
        };
        let frame = Readable::read::<C>(frame)?;
        let answer = self.accept::<C>(&frame, numbers);
        self.bounds();
        answer
    }

    // Whether packet k is released, or a row begins there.
    fn sees(&self, k: u32) -> bool
        ensures { result ≡ sees 32 self.now k }
    {
        k < self.released || (k < self.released + REACH && self.table.holds(k))
    }

    // The released count and the oldest unseen number.
    pub(crate) fn report(&self) -> (u32, u32)
        ensures { result ≡ reported 32 self.now }
    {
        let unseen = (self.released..STREAM).find(|k| !self.sees(*k));
        (self.released, unseen.unwrap_or(STREAM))
    }

    // The unseen numbers that an accepted frame reached.
    pub(crate) fn missing(&self, numbers: &mut [u32]) -> Result<usize, Refusal>
        ensures { (result, numbers.new) ≡ listed 32 self.now numbers.old }
    {
        if numbers.len() < WINDOW {
            return Err(Refusal::ShortBuffer);
        }
        // By its place, since nothing is known of what is written through a zip; the count is the answer.
        let mut count = 0;
        for k in (self.released..self.top).filter(|k| !self.sees(*k)) {
            numbers[count] = k;
            count += 1;
        }
        Ok(count)
    }
}
