//! Rows with payloads, in a ring.
ghost use Rattle.std.specs.Prelude.{◌≡◌, ◌+◌, ◌%◌, ◌<◌, length};
ghost use Rattle.elimination.specs.Rows.{less_all, less_row, less_packet, times_all, scaled, first_from, unit_at};

use super::{SYMBOLS, WINDOW};
use field::Field;

/// A combination of packets: the coefficient of packet k stands at the place k % 32, and the payload is what the
/// packets add up to.
#[derive(Clone, Copy, PartialEq, Eq, Debug)]
#[repr(C)]
pub struct Row {
    pub slots: [u16; WINDOW],
    pub payload: [u16; SYMBOLS],
}

/// Where packet k stands in a ring of 32.
pub fn place(k: u32) -> usize
    ensures { result ≡ k % 32 }
{
    k as usize % WINDOW
}

// Where the packet so far past `start` stands. The sum is taken in 64 bits, where it does not wrap.
pub(crate) fn place_past(start: u32, distance: u32) -> usize
    ensures { result ≡ (start + distance) % 32 }
{
    (start as usize + distance as usize) % WINDOW
}

/// Subtracts `factor` times the other row from the target.
pub fn subtract<F: Field>(target: &mut Row, factor: u16, other: &Row)
    ensures { target.new ≡ less_row F.Field.means factor other.now target.old }
{
    // In memory of its own, where the compiler knows that the slots are no part of the other row.
    let mut slots = target.slots;
    subtract_codes::<F>(&mut slots, factor, &other.slots);
    target.slots = slots;
    subtract_codes::<F>(&mut target.payload, factor, &other.payload);
}

/// Subtracts `factor` times a known packet from the target's payload.
pub fn subtract_packet<F: Field>(target: &mut Row, factor: u16, packet: &[u16; SYMBOLS])
    ensures { target.new ≡ less_packet F.Field.means factor packet.now target.old }
{
    subtract_codes::<F>(&mut target.payload, factor, packet);
}

fn subtract_codes<F: Field>(target: &mut [u16], factor: u16, other: &[u16])
    requires { length target.old ≡ length other.now }
    ensures { target.new ≡ less_all F.Field.means factor other.now target.old }
{
    // By its place, since nothing is known of what is written through a zip.
    for (i, code) in target.iter_mut().enumerate() {
        *code = F::sub(*code, F::mul(factor, other[i]));
    }
}

fn scale_codes<F: Field>(codes: &mut [u16], factor: u16)
    ensures { codes.new ≡ times_all F.Field.means factor codes.old }
{
    for code in codes.iter_mut() {
        *code = F::mul(factor, *code);
    }
}

impl Row {
    // How far past `start` the first coefficient other than 0 stands, of the 32 from `start` on.
    pub(crate) fn first(&self, start: u32) -> Option<u32>
        ensures { result ≡ first_from 32 start self.now }
    {
        (0..WINDOW as u32).find(|distance| self.slots[place_past(start, *distance)] != 0)
    }

    // Scales the row to 1 at a place where it is not 0.
    pub(crate) fn scale<F: Field>(&mut self, at: usize)
        requires { at < 32 }
        ensures { self.new ≡ scaled F.Field.means at self.old }
    {
        if let Some(inverse) = F::inverse(self.slots[at]) {
            scale_codes::<F>(&mut self.slots, inverse);
            scale_codes::<F>(&mut self.payload, inverse);
        }
    }

    // Whether the row is 0 at every other place.
    pub(crate) fn is_unit(&self, at: usize) -> bool
        ensures { result ≡ unit_at 32 at self.now }
    {
        // No `all`: its closure makes the callers copy packets and table, which takes 4% of decoding a window of bits.
        for (i, slot) in self.slots.iter().enumerate() {
            if i != at && *slot != 0 {
                return false;
            }
        }
        true
    }
}
