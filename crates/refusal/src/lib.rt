//! Why a call refused.
//!
//! Every call of the transport gives its result or exactly one of these, and makes its checks in the order of their
//! numbers. docs/PROTOCOL.md says who can cause each.
#![tactic(auto)]

ghost use Rattle.std.specs.Prelude.{◌≡◌};
ghost use Rattle.refusal.specs.Numbers.{numbered};

use std::error::Error;
use std::fmt;

/// The reason for a refusal, in the order of the checks within each group.
#[derive(Clone, Copy, PartialEq, Eq, Debug)]
pub enum Refusal {
    // The calling program.
    ShortBuffer = 1,
    BadPacket = 2,
    StreamFull = 3,
    WindowFull = 4,
    WindowEmpty = 5,
    // Whoever sets up the job.
    BadLine = 6,
    BadScript = 7,
    LongFile = 8,
    // The calling program again.
    BadDraw = 9,
    // The far end or the link.
    WrongKind = 11,
    WrongLength = 12,
    BadWidth = 13,
    BadCode = 14,
    StraySlot = 15,
    Late = 16,
    Ahead = 17,
    Contradiction = 18,
    BadReport = 19,
    NotAByte = 21,
    LongRecord = 22,
    Incomplete = 23,
}

impl Refusal {
    /// The number that programs and operators know the refusal by.
    pub fn number(self) -> u8
        ensures { result ≡ numbered self }
    {
        self as u8
    }

    // What went wrong, in a sentence for people. A derived Display would have each number in its text a second time.
    fn sentence(self) -> &'static str {
        match self {
            Refusal::ShortBuffer => "a buffer is shorter than the call needs",
            Refusal::BadPacket => "a packet is not 128 codes of the field",
            Refusal::StreamFull => "the stream is full: 65536 packets were admitted",
            Refusal::WindowFull =>
                "the window is full: 32 packets are not yet reported as released",
            Refusal::WindowEmpty => "the window is empty: there is nothing to send",
            Refusal::BadLine =>
                "the job line does not begin with a field, a source and a space, or does not end",
            Refusal::BadScript =>
                "the script is empty, over 64 letters, or has a letter other than k, l, d and h",
            Refusal::LongFile => "the file is over 16000 bytes",
            Refusal::BadDraw =>
                "a draw has a width outside 1 to 32, other than 32 slots, or an order below 2",
            Refusal::WrongKind => "the frame is empty or of another kind than expected",
            Refusal::WrongLength => "the frame's length is not that of its kind",
            Refusal::BadWidth =>
                "the frame's width is outside 1 to 32, or it reaches past the stream's end",
            Refusal::BadCode => "a slot or a symbol of the frame is no code of the field",
            Refusal::StraySlot => "a slot past the frame's width is not 0",
            Refusal::Late => "the frame begins too far below the released packets",
            Refusal::Ahead => "the frame reaches past the receiver's window",
            Refusal::Contradiction => "the frame contradicts the frames accepted before",
            Refusal::BadReport => "the report names more packets than were seen or admitted",
            Refusal::NotAByte => "a symbol of a released packet is not part of a byte",
            Refusal::LongRecord => "the record's length is over 16000 bytes",
            Refusal::Incomplete => "bytes of the record are still lacking",
        }
    }
}

/// The number and what went wrong, for people.
impl fmt::Display for Refusal {
    fn fmt<W: fmt::Write>(&self, f: &mut fmt::Formatter<W>) -> fmt::Result {
        write!(f, "{}: {}", self.number(), self.sentence())
    }
}

impl Error for Refusal {}
