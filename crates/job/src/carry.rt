//! A file's way: cut into packets, each sent in a frame to a receiver, and put together from what that releases.
ghost use Rattle.std.specs.Prelude.{◌≡◌, ◌+◌, ◌<◌, ◌≤◌, [], ◌++◌, length, take, Ok, MatchResult};
ghost use Rattle.std.specs.Int.Digits.{AllBelowBase};
ghost use Rattle.frame.specs.DataFrame.{reading};
ghost use Rattle.file.specs.Packets.{packets};
ghost use Rattle.file.specs.Spelling.{spelling_of};
ghost use Rattle.receiver.specs.Buffers.{over};
ghost use Rattle.job.specs.Crossing.{alone, Waits, all_fresh};

use super::line::ShortFile;
use super::tally::Tally;
use carried::Carried;
use file::{FILE_MOST, Filling, Whole, packet, packet_count};
use frame::{Data, FRAME_MOST, WINDOW, write_data};
use receiver::Receiver;
use refusal::Refusal;

/// Takes the file through a receiver into the buffer, and gives the tally of its frames and the record that shows the
/// file there.
pub(crate) fn carry<C: Carried>(
    file: ShortFile<'_>,
    buffer: &mut [u8; FILE_MOST],
) -> Result<(Tally, Whole), Refusal>
    ensures { MatchResult result (λ came. (came.0 ≡ all_fresh (packets (spelling_of C.Field.means.q) (length file.entry.bytes.now))) × (came.1.size ≡ length file.entry.bytes.now) × (take (length file.entry.bytes.now) buffer.new ≡ file.entry.bytes.now)) (λ _. ⊥) }
{
    let mut receiver = Receiver::<C>::new();
    // An array: below the program no memory is asked for.
    let mut numbers = [0; 4096];
    let mut filling = Filling::<C>::new();
    let mut tally = Tally::default();
    for number in 0..packet_count::<C>(file.bytes.len() as u32) {
        let symbols = packet::<C>(file.bytes, number)?;
        let released = cross::<C>(number, symbols, &mut receiver, &mut numbers, &mut tally)?;
        filling.add_all(&numbers[..128 * released as usize], buffer)?;
    }
    let whole = filling.finish().map_err(|(_, refusal)| refusal)?;
    Ok((tally, whole))
}

// A packet crosses in a frame of its own. Answers how many packets the receiver then released, to the number buffer.
fn cross<C: Carried>(
    number: u32,
    symbols: [u16; 128],
    receiver: &mut Receiver<C>,
    numbers: &mut [u16; 4096],
    tally: &mut Tally,
) -> Result<u32, Refusal>
    requires packet { (number < 65536) × (AllBelowBase C.Field.means.q symbols) }
    requires waits { (Waits 32 number receiver.old.state) × (tally.old ≡ all_fresh number) }
    ensures answer { result ≡ Ok 1 }
    ensures waits { Waits 32 (number + 1) receiver.new.state }
    ensures released { numbers.new ≡ over numbers.old (symbols ++ []) }
    ensures tally { tally.new ≡ all_fresh (number + 1) }
{
    let mut frame = [0; FRAME_MOST];
    let length = write_alone::<C>(number, symbols, &mut frame)?;
    tally.sent += 1;
    let answer = receiver.arrive(&frame[..length], numbers);
    Ok(tally.count(answer))
}

// Writes the frame whose one coefficient is 1, at the packet's number.
fn write_alone<C: Carried>(
    number: u32,
    symbols: [u16; 128],
    frame: &mut [u8; FRAME_MOST],
) -> Result<usize, Refusal>
    requires { (number < 65536) × (AllBelowBase C.Field.means.q symbols) }
    ensures { MatchResult result (λ n. (n ≤ 400) × (reading C.Field.means C.carries 32 (take n frame.new) ≡ Ok (alone 32 number symbols))) (λ _. ⊥) }
{
    let mut slots = [0; WINDOW];
    slots[0] = 1;
    let data = Data {
        base: number,
        width: 1,
        slots,
        symbols,
    };
    write_data::<C>(&data, frame)
}
