//! The program's answer to its input.
ghost use Rattle.std.specs.Prelude.{◌≡◌, ◌<◌, length, IfOk, MatchResult};
ghost use Rattle.job.specs.Answer.{answered, carried_text, copied_text};
ghost use Rattle.job.specs.Output.{whole_text};

use super::carry::carry;
use super::line::{FieldKind, Job, ShortFile, parse};
use super::output;
use super::output::Copied;
use carried::Carried;
use field::{Bits, Bytes, Residues};
use file::{FILE_MOST, packet_count};
use refusal::Refusal;
use std::alloc::{AllocError, Global};

/// What the program writes for this input.
pub fn answer(heap: Global, input: &[u8]) -> Result<Vec<u8>, AllocError>
    ensures { IfOk result (λ v. v.items ≡ answered input.now) }
{
    let job = match parse(input) {
        Ok(job) => job,
        Err(refusal) => return output::refused(heap, refusal),
    };
    // Behind the parse, since filling it takes longer than all else that a refused job needs.
    let mut buffer = [0; FILE_MOST];
    match carried(job, &mut buffer) {
        Ok(copied) => output::whole(heap, copied),
        Err(refusal) => output::refused(heap, refusal),
    }
}

// Carries the job's file in the field that it asks for.
fn carried<'a>(job: Job<'_>, buffer: &'a mut [u8; FILE_MOST]) -> Result<Copied<'a>, Refusal>
    ensures { MatchResult result (λ came. whole_text came.packets came.tally came.file.now ≡ carried_text job.entry.field job.entry.file.now) (λ _. 16000 < length job.entry.file.now) }
{
    let file = ShortFile::new(job.file)?;
    // A match, since each arm is one function at another type, which a closure cannot be.
    match job.field {
        FieldKind::Bits => copied::<Bits>(file, buffer),
        FieldKind::Bytes => copied::<Bytes>(file, buffer),
        FieldKind::Residues => copied::<Residues>(file, buffer),
    }
}

// What is shown is the record's copy, not the file that came in.
fn copied<'a, C: Carried>(
    file: ShortFile<'_>,
    buffer: &'a mut [u8; FILE_MOST],
) -> Result<Copied<'a>, Refusal>
    ensures { MatchResult result (λ came. whole_text came.packets came.tally came.file.now ≡ copied_text C.Field.means.q file.entry.bytes.now) (λ _. ⊥) }
{
    let packets = packet_count::<C>(file.bytes.len() as u32);
    let (tally, whole) = carry::<C>(file, buffer)?;
    let file = whole.show(buffer)?;
    Ok(Copied {
        packets,
        tally,
        file,
    })
}
