//! The call that carries a job out.
ghost use Rattle.std.specs.Prelude.{◌≡◌, ℕ, List, length};
ghost use Rattle.link.specs.OfScripted.{new_link};
ghost use Rattle.delivery.specs.Outcome.{with_source, setup_of, ran, EndsRightly};
ghost use Rattle.delivery.specs.Phases.{CarriesOut};

use super::outcome::Outcome;
use super::rounds::carry;
use carried::Carried;
use field::{Bits, Bytes, Residues};
use file::FILE_MOST;
use job::{FieldKind, Job, ShortFile, SourceKind};
use link::ScriptedLink;
use refusal::Refusal;
use source::{Plain, Woven};

/// Carries the job's file over a transfer of its field and source, with its script on the data link, in at most 64,000
/// rounds. Where it comes out whole, the file then stands at the start of the buffer, as it was put together from what
/// was released; where the rounds are used up, the bytes of it that were released do. All else there is left. Refuses
/// a buffer of fewer than 16,000 bytes, then what is no script, then a file over 16,000 bytes, and then leaves the
/// buffer.
pub fn run(job: Job<'_>, buffer: &mut [u8]) -> Result<Outcome, Refusal>
    ensures exact { result ≡ ran job.entry.field job.entry.source job.entry.script.now job.entry.file.now (length buffer.old) }
    ensures ends { EndsRightly job.entry.field job.entry.source job.entry.script.now job.entry.file.now buffer.old buffer.new result }
{
    let Some(buffer) = buffer.first_chunk_mut::<FILE_MOST>() else {
        return Err(Refusal::ShortBuffer);
    };
    let forward = ScriptedLink::new(job.script)?;
    let file = ShortFile::new(job.file)?;
    in_field(job.field, job.source, forward, file, buffer)
}

// The field that the job asks for. What was checked goes on to where it is used, two calls further: a struct of it
// would
// be taken apart there at once.
fn in_field(
    field: FieldKind,
    source: SourceKind,
    forward: ScriptedLink,
    file: ShortFile<'_>,
    buffer: &mut [u8; FILE_MOST],
) -> Result<Outcome, Refusal>
    requires { forward.queue.count ≡ 0 }
    ensures { (script : List ℕ) → forward ≡ new_link 16 400 64 script → CarriesOut (setup_of field source).parts file.entry.bytes.now (setup_of field source).source script buffer.old result buffer.new }
{
    // A match, since each arm is one function at another type, which a closure cannot be.
    match field {
        FieldKind::Bits => from_source::<Bits>(source, forward, file, buffer),
        FieldKind::Bytes => from_source::<Bytes>(source, forward, file, buffer),
        FieldKind::Residues => from_source::<Residues>(source, forward, file, buffer),
    }
}

// The source that it asks for, the woven one with seed 0.
fn from_source<C: Carried>(
    source: SourceKind,
    forward: ScriptedLink,
    file: ShortFile<'_>,
    buffer: &mut [u8; FILE_MOST],
) -> Result<Outcome, Refusal>
    requires { forward.queue.count ≡ 0 }
    ensures { (script : List ℕ) → forward ≡ new_link 16 400 64 script → CarriesOut (with_source source C.Field.means C.Carried.carries).parts file.entry.bytes.now (with_source source C.Field.means C.Carried.carries).source script buffer.old result buffer.new }
{
    // A match, for the same reason.
    match source {
        SourceKind::Plain => carry::<C, Plain>(Plain::new(), forward, file, buffer),
        SourceKind::Woven => carry::<C, Woven>(Woven::new(0), forward, file, buffer),
    }
}
