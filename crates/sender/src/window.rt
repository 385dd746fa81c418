//! The counts and the packets of a sender's window.
ghost use Rattle.std.specs.Prelude.{◌≡◌, ℕ, ◌<◌, true, false, MatchOption, ◌==◌, slice_index};
ghost use Rattle.field.specs.Field.{plus, times};
ghost use Rattle.sender.specs.Steps.{empty, is_packet_lem, packet_at};

use field::{Field, all_below};
use frame::{SYMBOLS, WINDOW};

// Packet k stands at place k % 32: an array, since a sender asks for no memory.
#[derive(Clone, Copy)]
pub struct Window {
    pub admitted: u32,
    // The greatest released number heard.
    pub heard: u32,
    // The greatest oldest unseen number heard.
    pub unseen: u32,
    pub packets: [[u16; SYMBOLS]; WINDOW],
}

impl Window {
    // A window before its first packet.
    pub(crate) fn new() -> Window
        ensures { result ≡ empty 32 }
    {
        Window {
            admitted: 0,
            heard: 0,
            unseen: 0,
            packets: [[0; SYMBOLS]; WINDOW],
        }
    }

    // Whether there is nothing to send.
    pub(crate) fn is_empty(&self) -> bool
        ensures { result ≡ (self.now.unseen == self.now.admitted) }
    {
        self.unseen == self.admitted
    }

    // Packet k, as long as it is in the window.
    pub(crate) fn packet(&self, k: u32) -> &[u16; SYMBOLS]
        ensures { result.now ≡ packet_at 32 self.now k }
    {
        &self.packets[k as usize % WINDOW]
    }
}

// These as the symbols of a packet, where they are 128 codes.
pub(crate) fn as_packet<F: Field>(packet: &[u16]) -> Option<&[u16; SYMBOLS]>
    ensures { MatchOption result (is_packet_lem F.Field.means.q packet.now ≡ false) (λ symbols. (is_packet_lem F.Field.means.q packet.now ≡ true) × (symbols.now ≡ packet.now)) }
{
    let symbols = packet.as_array::<SYMBOLS>()?;
    all_below(packet, F::Q).then_some(symbols)
}

// Adds a multiple of a packet to a sum of packets.
pub(crate) fn add_multiple<F: Field>(
    total: &mut [u16; SYMBOLS],
    factor: u16,
    packet: &[u16; SYMBOLS],
)
    ensures { (p : ℕ) → p < 128 → slice_index total.new p ≡ plus F.Field.means (slice_index total.old p) (times F.Field.means factor (slice_index packet.now p)) }
{
    // By its place, since nothing is known of what is written through a zip.
    for (p, sum) in total.iter_mut().enumerate() {
        *sum = F::add(*sum, F::mul(factor, packet[p]));
    }
}
