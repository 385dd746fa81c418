//! What the program writes of a job.
ghost use Rattle.std.specs.Prelude.{◌≡◌, IfOk};
ghost use Rattle.refusal.specs.Numbers.{numbered};
ghost use Rattle.job.specs.Output.{refused_text, whole_text};

use super::tally::Tally;
use refusal::Refusal;
use std::alloc::{AllocError, Global};

/// A refused job is answered by its number alone.
pub fn refused(heap: Global, refusal: Refusal) -> Result<Vec<u8>, AllocError>
    ensures { IfOk result (λ v. v.items ≡ refused_text (numbered refusal)) }
{
    let number = refusal.number();
    let text = format!(in heap; "job {number}\n")?;
    Ok(text.into_bytes())
}

/// What came of a file: its count of packets, the tally of their frames, and the file as it was put together again.
#[derive(Clone, Copy)]
pub(crate) struct Copied<'a> {
    pub packets: u32,
    pub tally: Tally,
    pub file: &'a [u8],
}

/// The count of packets, the tally of frames, the file's length, and the file itself.
pub(crate) fn whole(heap: Global, copied: Copied<'_>) -> Result<Vec<u8>, AllocError>
    ensures { IfOk result (λ v. v.items ≡ whole_text copied.entry.packets copied.entry.tally copied.entry.file.now) }
{
    let Copied {
        packets,
        tally,
        file,
    } = copied;
    let counts = tally.lines(heap, "frames")?;
    let length = file.len();
    let text = format!(in heap; "packets {packets}\n{counts}whole {length}\n")?;
    let mut bytes = text.into_bytes();
    bytes.extend_from_slice(file)?;
    Ok(bytes)
}
