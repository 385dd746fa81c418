//! Data frames that were read.
ghost use Rattle.std.specs.Prelude.{◌≡◌, ◌+◌, ◌≤◌, length, take};
ghost use Rattle.frame.specs.DataFrame.{reading};

use carried::Carried;
use frame::{Data, SYMBOLS, read_data};
use refusal::Refusal;
use std::marker::Model;

// The contents of a frame that can be read: its row is no wider than the window, and ends within the stream.
#[derive(Drop)]
pub(crate) struct Readable {
    contents: Data,
}

// Clauses see the contents.
impl Model for Readable {
    ghost use Rattle.std.specs.Prelude.{◌+◌, ◌≤◌};
    ghost use Rattle.frame.specs.declared.data.Data.{Data};

    ghost Value = { Data };

    ghost view = { λ r. r.contents };

    ghost invariant = { λ r. (r.contents.width ≤ 32) × (r.contents.base + r.contents.width ≤ 65536) };
}

impl Readable {
    pub(crate) fn read<C: Carried>(frame: &[u8]) -> Result<Readable, Refusal>
        ensures { result ≡ reading C.Field.means C.carries 32 frame.now }
    {
        let contents = read_data::<C>(frame)?;
        Ok(Readable { contents })
    }

    // The first packet of the row.
    pub(crate) fn base(&self) -> u32
        ensures exact { result ≡ self.now.base }
        ensures in_stream { self.now.base + self.now.width ≤ 65536 }
    {
        self.contents.base
    }

    // The packet past the row.
    pub(crate) fn end(&self) -> u32
        ensures { result ≡ self.now.base + self.now.width }
    {
        self.contents.base + u32::from(self.contents.width)
    }

    // The coefficients of the row.
    pub(crate) fn coefficients(&self) -> &[u16]
        ensures exact { result.now ≡ take self.now.width self.now.slots }
        ensures long { length result.now ≡ self.now.width }
    {
        &self.contents.slots[..self.contents.width as usize]
    }

    pub(crate) fn symbols(&self) -> &[u16; SYMBOLS]
        ensures { result.now ≡ self.now.symbols }
    {
        &self.contents.symbols
    }
}
