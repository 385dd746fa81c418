//! Data frames as bytes.
ghost use Rattle.std.specs.Prelude.{◌≡◌, ◌≤◌, length, take, drop, IfOk, Ok, OnErr, OnOk};
ghost use Rattle.frame.specs.Head.{verdict};
ghost use Rattle.frame.specs.DataFrame.{bytes_for, codes_only_lem, contents_by, fits_stream_lem, flaw, frame_of, none_stray_lem, reading, writing};
ghost use Rattle.frame.specs.Proper.{Proper};

use super::{STREAM, SYMBOLS, WINDOW, misfit};
use carried::Carried;
use field::{all_below, all_zero};
use refusal::Refusal;

/// What a data frame says: slot i holds the coefficient of packet base + i, and every other coefficient is 0.
// The width stands beside all 32 slots, as in the frame itself: those past it are there, and have to be 0.
#[derive(Clone, Copy, PartialEq, Eq, Debug)]
pub struct Data {
    pub base: u32,
    pub width: u8,
    pub slots: [u16; WINDOW],
    pub symbols: [u16; SYMBOLS],
}

// Kind, base and width.
const HEAD: usize = 6;

// How many bytes the slots take: their share of the body.
fn slot_bytes<C: Carried>() -> usize
    ensures { result ≡ bytes_for C.carries 32 }
{
    (C::LEN - HEAD) * WINDOW / (WINDOW + SYMBOLS)
}

impl Data {
    // The contents of a frame whose body is left to unpack.
    fn unpacked<C: Carried>(base: u32, width: u8, body: &[u8]) -> Data
        requires { bytes_for C.carries 32 ≤ length body.now }
        ensures { result ≡ contents_by C.carries 32 base width body.now }
    {
        let (slot_part, symbol_part) = body.split_at(slot_bytes::<C>());
        let mut slots = [0; WINDOW];
        C::unpack(slot_part, &mut slots);
        let mut symbols = [0; SYMBOLS];
        C::unpack(symbol_part, &mut symbols);
        Data {
            base,
            width,
            slots,
            symbols,
        }
    }

    // Whether the width is from 1 to the window, and the row ends within the stream.
    fn fits_stream(&self) -> bool
        ensures { result ≡ fits_stream_lem 32 self.now }
    {
        let width = u32::from(self.width);
        // Nothing wraps: the base is compared before the sum is made.
        width >= 1 && width as usize <= WINDOW && self.base <= STREAM && self.base + width <= STREAM
    }

    // Whether the slots and the symbols are codes.
    fn codes_only<C: Carried>(&self) -> bool
        ensures { result ≡ codes_only_lem C.Q self.now }
    {
        all_below(&self.slots, C::Q) && all_below(&self.symbols, C::Q)
    }

    // Whether the slots from the width on are 0.
    fn none_stray(&self) -> bool
        requires { self.now.width ≤ 32 }
        ensures { result ≡ none_stray_lem self.now }
    {
        all_zero(&self.slots[self.width as usize..])
    }

    // The rules of a frame's contents, in the order of their refusals.
    fn check<C: Carried>(&self) -> Result<(), Refusal>
        ensures { result ≡ verdict (flaw C.Q 32 self.now) tt }
    {
        if !self.fits_stream() {
            return Err(Refusal::BadWidth);
        }
        if !self.codes_only::<C>() {
            return Err(Refusal::BadCode);
        }
        if !self.none_stray() {
            return Err(Refusal::StraySlot);
        }
        Ok(())
    }

    // Fills a frame of the kind's length.
    fn fill<C: Carried>(&self, frame: &mut [u8])
        requires { length frame.old ≡ C.LEN }
        ensures exact { frame.new ≡ frame_of C.carries 32 self.now }
        ensures slots { length self.now.slots ≡ 32 }
        ensures symbols { length self.now.symbols ≡ 128 }
    {
        let (head, body) = frame.split_at_mut(HEAD);
        let [b0, b1, b2, b3] = self.base.to_be_bytes();
        head.copy_from_slice(&[C::KIND, b0, b1, b2, b3, self.width]);
        let (slot_part, symbol_part) = body.split_at_mut(slot_bytes::<C>());
        C::pack(&self.slots, slot_part);
        C::pack(&self.symbols, symbol_part);
    }
}

/// Reads a data frame.
///
/// A frame that can be read has proper contents, and is exactly what writing them gives.
pub fn read_data<C: Carried>(frame: &[u8]) -> Result<Data, Refusal>
    ensures exact { result ≡ reading C.Field.means C.carries 32 frame.now }
    ensures proper { IfOk result (Proper C.Q 32) }
    ensures canonical { IfOk result (λ d. frame.now ≡ frame_of C.carries 32 d) }
{
    let [kind, b0, b1, b2, b3, width, body @ ..] = frame else {
        return Err(misfit(frame, C::KIND));
    };
    if *kind != C::KIND {
        return Err(Refusal::WrongKind);
    }
    if frame.len() != C::LEN {
        return Err(Refusal::WrongLength);
    }
    let base = u32::from_be_bytes([*b0, *b1, *b2, *b3]);
    let data = Data::unpacked::<C>(base, *width, body);
    data.check::<C>()?;
    Ok(data)
}

/// Writes a data frame at the buffer's start, leaves the rest, and answers the frame's length.
pub fn write_data<C: Carried>(data: &Data, frame: &mut [u8]) -> Result<usize, Refusal>
    ensures exact { (result, frame.new) ≡ writing C.Field.means C.carries 32 «data».now frame.old }
    ensures accepts { Proper C.Q 32 «data».now → C.LEN ≤ length frame.old → result ≡ Ok C.LEN }
    ensures proper { OnOk result (Proper C.Q 32 «data».now) }
    ensures comes_back { IfOk result (λ n. reading C.Field.means C.carries 32 (take n frame.new) ≡ Ok «data».now) }
    ensures rest_left { IfOk result (λ n. drop n frame.new ≡ drop n frame.old) }
    ensures nothing_written { OnErr result (frame.new ≡ frame.old) }
{
    if frame.len() < C::LEN {
        return Err(Refusal::ShortBuffer);
    }
    data.check::<C>()?;
    data.fill::<C>(&mut frame[0..C::LEN]);
    Ok(C::LEN)
}
