//! What the program writes of a job.
ghost use Rattle.std.specs.Prelude.{◌≡◌, ◌++◌, length, codes, IfOk};
ghost use Rattle.job.specs.Counts.{counts_text};
ghost use Rattle.job.specs.Output.{file_text};
ghost use Rattle.delivery.specs.Output.{spent_text, shown_text, Within};

use super::outcome::{Ending, Outcome};
use job::Tally;
use std::alloc::{AllocError, Global};

/// The counts, and then the length and the file, which begins the buffer, or how many packets were released.
pub(crate) fn outcome(heap: Global, outcome: Outcome, buffer: &[u8]) -> Result<Vec<u8>, AllocError>
    requires { Within (length buffer.now) outcome.ending }
    ensures { IfOk result (λ v. v.items ≡ shown_text buffer.now outcome) }
{
    match outcome.ending {
        Ending::Whole(length) => whole(heap, outcome.tally, &buffer[0..length]),
        Ending::Spent(released) => spent(heap, outcome.tally, released),
    }
}

// The counts, the file's length, and the file itself.
// The other program's text has a line more in front, so each text stands in one place, as it is written.
fn whole(heap: Global, tally: Tally, file: &[u8]) -> Result<Vec<u8>, AllocError>
    ensures { IfOk result (λ v. v.items ≡ counts_text (codes "sent") tally ++ file_text file.now) }
{
    let counts = tally.lines(heap, "sent")?;
    let length = file.len();
    let mut bytes = format!(in heap; "{counts}whole {length}\n")?.into_bytes();
    bytes.extend_from_slice(file)?;
    Ok(bytes)
}

// The counts, and how many packets were released.
fn spent(heap: Global, tally: Tally, released: u32) -> Result<Vec<u8>, AllocError>
    ensures { IfOk result (λ v. v.items ≡ counts_text (codes "sent") tally ++ spent_text released) }
{
    let counts = tally.lines(heap, "sent")?;
    let text = format!(in heap; "{counts}spent {released}\n")?;
    Ok(text.into_bytes())
}
