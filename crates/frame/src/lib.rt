//! Data frames and reports as bytes.
//!
//! A frame is one byte of kind, then a body whose length the kind fixes. Whatever the bytes, reading gives their
//! contents or the first refusal that holds of them; a frame that can be read is exactly what writing its contents
//! gives.
#![tactic(auto)]

ghost use Rattle.std.specs.Prelude.{◌≡◌, if◌then◌else◌};
ghost use Rattle.refusal.specs.declared.Refusal.TheVariants.{WrongKind, WrongLength};
ghost use Rattle.frame.specs.Head.{begins};

mod data;
mod report;

pub use data::{Data, read_data, write_data};
use refusal::Refusal;
pub use report::{read_report, write_report};

/// The slots of a row.
pub const WINDOW: usize = 32;

/// The symbols of a packet.
pub const SYMBOLS: usize = 128;

/// The packets of a stream.
pub const STREAM: u32 = 65_536;

/// The kind of a report.
// A number, as the kinds of data frames are, which each field brings itself.
pub const REPORT_KIND: u8 = 4;

/// The length of a report in bytes.
pub const REPORT_LEN: usize = 9;

/// No frame is longer.
pub const FRAME_MOST: usize = 400;

// Why a frame whose length does not fit its kind is refused: the kind is looked at first.
fn misfit(frame: &[u8], kind: u8) -> Refusal
    ensures { result ≡ (if begins kind frame.now then WrongLength else WrongKind) }
{
    match frame {
        [first, ..] if *first == kind => Refusal::WrongLength,
        _ => Refusal::WrongKind,
    }
}

#[cfg(test)]
mod tests {
    use super::*;
    use carried::Carried;
    use field::{Bits, Bytes, Residues};
    use std::process::Abort;
    use std::test::Fail;

    fn empty(base: u32, width: u8) -> Data {
        Data {
            base,
            width,
            slots: [0; WINDOW],
            symbols: [0; SYMBOLS],
        }
    }

    // The whole buffer after a frame was written into it.
    fn writes<C: Carried>(
        rt: &impl Abort,
        data: &Data,
        buffer: &mut [u8],
        bytes: &[u8],
    ) -> Result<(), Fail> {
        assert_eq!(rt; write_data::<C>(data, buffer)?, C::LEN);
        let buffer: &[u8] = buffer;
        assert_eq!(rt; buffer, bytes);
        Ok(())
    }

    // Slots 1 0 1, the first and the last symbol 1: the first code of a byte lies in its highest bit.
    #[test]
    fn bits(rt: HostRuntime) -> Result<(), Fail> {
        let mut data = empty(258, 3);
        data.slots[0] = 1;
        data.slots[2] = 1;
        data.symbols[0] = 1;
        data.symbols[127] = 1;
        let mut bytes = [0; 28];
        bytes[0..7].copy_from_slice(&[1, 0, 0, 1, 2, 3, 0xA0]);
        bytes[10] = 0x80;
        bytes[25..28].copy_from_slice(&[1, 9, 9]);
        writes::<Bits>(&rt, &data, &mut [9; 28], &bytes)
    }

    // Slots 7 255, the last symbol 29.
    #[test]
    fn bytes(rt: HostRuntime) -> Result<(), Fail> {
        let mut data = empty(0, 2);
        data.slots[0] = 7;
        data.slots[1] = 255;
        data.symbols[127] = 29;
        let mut bytes = [0; 166];
        bytes[0..8].copy_from_slice(&[2, 0, 0, 0, 0, 2, 7, 255]);
        bytes[165] = 29;
        writes::<Bytes>(&rt, &data, &mut [9; 166], &bytes)
    }

    // The last packet of the stream with coefficient 256, the first symbol 255: the higher byte comes first.
    #[test]
    fn residues(rt: HostRuntime) -> Result<(), Fail> {
        let mut data = empty(65_535, 1);
        data.slots[0] = 256;
        data.symbols[0] = 255;
        let mut bytes = [0; 326];
        bytes[0..8].copy_from_slice(&[3, 0, 0, 0xFF, 0xFF, 1, 1, 0]);
        bytes[71] = 255;
        writes::<Residues>(&rt, &data, &mut [9; 326], &bytes)
    }

    #[test]
    fn report(rt: HostRuntime) -> Result<(), Fail> {
        let mut buffer = [9; 10];
        assert_eq!(rt; write_report((258, 65_536), &mut buffer)?, REPORT_LEN);
        assert_eq!(rt; buffer, [4, 0, 0, 1, 2, 0, 1, 0, 0, 9]);
        Ok(())
    }
}
