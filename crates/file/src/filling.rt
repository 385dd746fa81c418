//! The record that a file's packets fill.
ghost use Rattle.std.specs.Prelude.{◌≡◌, ℕ, ◌+◌, ◌*◌, ◌<◌, ◌≤◌, true, false, List, length, Ok, Err};
ghost use Rattle.refusal.specs.declared.Refusal.TheVariants.{Incomplete, ShortBuffer};
ghost use Rattle.file.specs.Filled.{Filled, Fills, FillsAll, FillsAllOver, FillsOver};
ghost use Rattle.file.specs.Filling.{adding, adding_each, buffer_with, complete, packets_in, size_with_packet, taking};
ghost use Rattle.file.specs.Packets.{packets};
ghost use Rattle.file.specs.Spelling.{room, spelling_of};

use super::digits::Digits;
use super::spelling::Spelling;
use super::whole::Whole;
use super::{FILE_MOST, SYMBOLS};
use field::Field;
use refusal::Refusal;
use std::array;
use std::marker::PhantomData;

/// A record that takes a file's packets in order.
#[derive(Drop)]
pub struct Filling<F> {
    taken: u32,
    // The file's length, or 0 while no packet has told it: `taken` tells if one has, and an Option would repeat that.
    size: usize,
    field: PhantomData<F>,
    ghost short: { size ≤ 16000 },
}

impl<F: Field> Filling<F> {
    /// A record that has taken no packet.
    pub fn new() -> Filling<F>
        ensures exact { (result.taken ≡ 0) × (result.size ≡ 0) }
        ensures starts { (file buffer : List ℕ) → Filled (spelling_of F.means.q) file 0 result.taken result.size buffer }
    {
        Filling {
            taken: 0,
            size: 0,
            field: PhantomData,
        }
    }

    /// Takes the next packet, and writes the bytes of the file that it holds at their places in the buffer. Packets
    /// past the file's end change nothing.
    pub fn add(&mut self, packet: &[u16], buffer: &mut [u8]) -> Result<(), Refusal>
        ensures exact { (result, self.new.taken, self.new.size, buffer.new) ≡ adding F.means.q self.old.taken self.old.size packet.now buffer.old }
        ensures fills { Fills (spelling_of F.means.q) packet.now self.old.taken self.old.size buffer.old (result, self.new.taken, self.new.size, buffer.new) }
        ensures fills_over { FillsOver (spelling_of F.means.q) packet.now self.old.taken self.old.size buffer.old (result, self.new.taken, self.new.size, buffer.new) }
    {
        let Some(buffer) = buffer.first_chunk_mut() else {
            return Err(Refusal::ShortBuffer);
        };
        let packet = Digits::of(packet)?;
        self.take_packet(&packet, buffer)
    }

    /// Takes the packets that stand one after another in the numbers, up to the first refusal. Numbers past the last
    /// whole packet are left aside.
    pub fn add_all(&mut self, numbers: &[u16], buffer: &mut [u8]) -> Result<(), Refusal>
        ensures exact { (result, self.new.taken, self.new.size, buffer.new) ≡ adding_each F.means.q self.old.taken self.old.size (packets_in numbers.now) buffer.old }
        ensures fills { FillsAll (spelling_of F.means.q) numbers.now self.old.taken self.old.size buffer.old (result, self.new.taken, self.new.size, buffer.new) }
        ensures fills_over { FillsAllOver (spelling_of F.means.q) numbers.now self.old.taken self.old.size buffer.old (result, self.new.taken, self.new.size, buffer.new) }
    {
        for packet in numbers.chunks_exact(SYMBOLS) {
            self.add(packet, buffer)?;
        }
        Ok(())
    }

    // Takes a packet of bytes.
    fn take_packet(
        &mut self,
        packet: &Digits<'_, F>,
        buffer: &mut [u8; FILE_MOST],
    ) -> Result<(), Refusal>
        ensures { (result, self.new.taken, self.new.size, buffer.new) ≡ taking (spelling_of F.means.q) self.old.taken self.old.size packet.now.symbols.now buffer.old }
    {
        if self.is_complete() {
            return Ok(());
        }
        let size = self.size_with(packet);
        if size > FILE_MOST {
            return Err(Refusal::LongRecord);
        }
        write(self.taken, size, packet, buffer);
        self.taken += 1;
        self.size = size;
        Ok(())
    }

    // The file's length, which the first packet begins with.
    fn size_with(&self, packet: &Digits<'_, F>) -> usize
        ensures { result ≡ size_with_packet (spelling_of F.means.q) self.now.taken self.now.size packet.now.symbols.now }
    {
        if self.taken > 0 {
            return self.size;
        }
        u32::from_be_bytes(array::from_fn(|i| packet.byte(i))) as usize
    }

    // Whether all bytes of the file are there; the four of its length are the first.
    fn is_complete(&self) -> bool
        ensures { result ≡ complete (spelling_of F.means.q) self.now.taken self.now.size }
    {
        4 + self.size <= Spelling::of::<F>().room() * self.taken as usize
    }

    /// The whole record, where all bytes of the file are there.
    pub fn finish(self) -> Result<Whole, (Filling<F>, Refusal)>
        ensures exact { elim result [ Ok whole ↦ (complete (spelling_of F.means.q) self.taken self.size ≡ true) × (whole.size ≡ self.size) | Err back ↦ (complete (spelling_of F.means.q) self.taken self.size ≡ false) × (back.0.taken ≡ self.taken) × (back.0.size ≡ self.size) × (back.1 ≡ Incomplete) ] }
        ensures completes { (file buffer : List ℕ) (k : ℕ) → Filled (spelling_of F.means.q) file k self.taken self.size buffer → elim result [ Ok whole ↦ (packets (spelling_of F.means.q) (length file) ≤ k) × (whole.size ≡ length file) | Err back ↦ (k < packets (spelling_of F.means.q) (length file)) × (back.1 ≡ Incomplete) ] }
    {
        if self.is_complete() {
            Ok(Whole { size: self.size })
        } else {
            Err((self, Refusal::Incomplete))
        }
    }
}

// Writes the bytes of the file that the packet after the taken ones holds at their places.
fn write<F: Field>(taken: u32, size: usize, packet: &Digits<'_, F>, buffer: &mut [u8; FILE_MOST])
    requires { (size ≤ 16000) × (complete (spelling_of F.means.q) taken size ≡ false) }
    ensures { buffer.new ≡ buffer_with (spelling_of F.means.q) taken size packet.now.symbols.now buffer.old }
{
    // The packet's first byte is this one of all that the packets hold, and the file's bytes come after four others.
    let room = Spelling::of::<F>().room();
    let first = room * taken as usize;
    let start = first.saturating_sub(4);
    let end = size.min(first + room - 4);
    let skipped = start + 4 - first;
    for (i, byte) in buffer[start..end].iter_mut().enumerate() {
        *byte = packet.byte(skipped + i);
    }
}
