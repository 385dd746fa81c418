//! The job line and the file behind it.
ghost use Rattle.std.specs.Prelude.{◌≡◌, ◌<◌, length, Some, None, Ok, Err, MatchOption, MatchResult, ◌==◌, position};
ghost use Rattle.refusal.specs.declared.Refusal.TheVariants.{LongFile};
ghost use Rattle.file.specs.Filled.{File};
ghost use Rattle.job.specs.Line.{split, FieldRead, SourceRead, parsed};

use file::FILE_MOST;
use link::ScriptedLink;
use refusal::Refusal;

/// The field a job asks for; its digit is the kind of its data frames.
#[derive(Clone, Copy, PartialEq, Eq, Debug)]
pub enum FieldKind {
    Bits,
    Bytes,
    Residues,
}

impl TryFrom<u8> for FieldKind {
    type Error = Refusal;

    ghost try_from_gives = { FieldRead };

    fn try_from(digit: u8) -> Result<FieldKind, Refusal> {
        match digit {
            b'1' => Ok(FieldKind::Bits),
            b'2' => Ok(FieldKind::Bytes),
            b'3' => Ok(FieldKind::Residues),
            _ => Err(Refusal::BadLine),
        }
    }
}

/// The source of coefficients a job asks for.
#[derive(Clone, Copy, PartialEq, Eq, Debug)]
pub enum SourceKind {
    Plain,
    Woven,
}

impl TryFrom<u8> for SourceKind {
    type Error = Refusal;

    ghost try_from_gives = { SourceRead };

    fn try_from(digit: u8) -> Result<SourceKind, Refusal> {
        match digit {
            b'1' => Ok(SourceKind::Plain),
            b'2' => Ok(SourceKind::Woven),
            _ => Err(Refusal::BadLine),
        }
    }
}

/// What is to be carried, and over what.
#[derive(Clone, Copy)]
pub struct Job<'a> {
    pub field: FieldKind,
    pub source: SourceKind,
    pub script: &'a [u8],
    pub file: &'a [u8],
}

/// Reads a job: two digits, a space and a script up to the first newline, and the file behind it.
pub fn parse(input: &[u8]) -> Result<Job<'_>, Refusal>
    ensures { MatchResult result (λ job. parsed input.now ≡ Ok (record { field = job.field; source = job.source; script = job.script.now; file = job.file.now })) (λ refusal. parsed input.now ≡ Err refusal) }
{
    let Some((line, file)) = split_line(input) else {
        return Err(Refusal::BadLine);
    };
    let [field, source, b' ', script @ ..] = line else {
        return Err(Refusal::BadLine);
    };
    let field = FieldKind::try_from(*field)?;
    let source = SourceKind::try_from(*source)?;
    // A link opens with a script and with nothing else.
    ScriptedLink::new(script)?;
    let file = ShortFile::new(file)?.bytes;
    Ok(Job {
        field,
        source,
        script,
        file,
    })
}

/// The bytes of a file that is short enough to be carried.
#[derive(Clone, Copy)]
pub struct ShortFile<'a> {
    pub bytes: &'a [u8],
    ghost is_file: { File bytes.now },
}

impl<'a> ShortFile<'a> {
    /// Refuses a file of over 16,000 bytes.
    pub fn new(bytes: &'a [u8]) -> Result<ShortFile<'a>, Refusal>
        ensures { MatchResult result (λ file. file.bytes.now ≡ bytes.now) (λ refusal. (16000 < length bytes.now) × (refusal ≡ LongFile)) }
    {
        if bytes.len() > FILE_MOST {
            return Err(Refusal::LongFile);
        }
        Ok(ShortFile { bytes })
    }
}

// The bytes before the first newline, and those after it.
fn split_line(input: &[u8]) -> Option<(&[u8], &[u8])>
    ensures { MatchOption result (split input.now ≡ None) (λ parts. split input.now ≡ Some (parts.0.now, parts.1.now)) }
{
    let end = find_newline(input)?;
    Some((&input[..end], &input[end + 1..]))
}

// The place of the first newline. A function of its own: within the other one its proof does not close.
fn find_newline(input: &[u8]) -> Option<usize>
    ensures { result ≡ position (λ b. b == 10) input.now }
{
    input.iter().position(|byte| *byte == b'\n')
}
