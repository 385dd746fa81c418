//! The packets of a file.
ghost use Rattle.std.specs.Prelude.{◌≡◌, ℕ, ◌+◌, ◌*◌, ◌<◌, ◌≤◌, length, IfOk, if◌then◌else◌, Ok, Err, OnOk, nat_lt, slice_index};
ghost use Rattle.refusal.specs.declared.Refusal.TheVariants.{LongFile};
ghost use Rattle.std.specs.Int.Digits.{AllBelowBase};
ghost use Rattle.file.specs.Filled.{File};
ghost use Rattle.file.specs.Packets.{loaded, packets, packet_of};
ghost use Rattle.file.specs.Spelling.{room, spelling_of};

use super::spelling::Spelling;
use super::{FILE_MOST, SYMBOLS};
use field::Field;
use refusal::Refusal;

/// How many packets a file of this many bytes takes: the least number that holds the length and the file.
pub fn packet_count<F: Field>(size: u32) -> u32
    ensures exact { result ≡ packets (spelling_of F.means.q) size }
    ensures enough { 4 + size ≤ room (spelling_of F.means.q) * result }
    ensures least { (n : ℕ) → 4 + size ≤ room (spelling_of F.means.q) * n → result ≤ n }
{
    (size as usize + 4).div_ceil(Spelling::of::<F>().room()) as u32
}

/// Packet `number` of the file, which is zeros where the file ended before it.
pub fn packet<F: Field>(file: &[u8], number: u32) -> Result<[u16; SYMBOLS], Refusal>
    ensures exact { result ≡ (if nat_lt 16000 (length file.now) then Err LongFile else Ok (packet_of (spelling_of F.means.q) file.now number)) }
    ensures codes { IfOk result (λ p. (length p ≡ 128) × AllBelowBase F.means.q p) }
    ensures carries { OnOk result (File file.now) }
{
    if file.len() > FILE_MOST {
        return Err(Refusal::LongFile);
    }
    let spelling = Spelling::of::<F>();
    let digits = spelling.digits();
    let start = spelling.room() * number as usize;
    let mut symbols = [0; SYMBOLS];
    // By place: no proof knows what `chunks_exact_mut` wrote, and a loop over symbols took bits 0.28 ms a file longer.
    for i in 0..spelling.room() {
        let at = digits * i;
        spelling.spell(held(file, start + i), &mut symbols[at..at + digits]);
    }
    Ok(symbols)
}

// Byte i of what the packets hold.
fn held(file: &[u8], i: usize) -> u8
    requires { length file.now ≤ 16000 }
    ensures { result ≡ slice_index (loaded file.now) i }
{
    let length = (file.len() as u32).to_be_bytes();
    if i < length.len() {
        return length[i];
    }
    file.get(i - length.len()).copied().unwrap_or(0)
}
