//! A job: its line and file, how the file is carried alone, and what the program writes.
#![tactic(auto)]

mod carry;
mod line;
mod output;
mod program;
mod tally;

pub use line::{FieldKind, Job, ShortFile, SourceKind, parse};
pub use output::refused;
pub use program::answer;
pub use tally::Tally;

#[cfg(test)]
mod tests {
    use super::*;
    use refusal::Refusal;
    use std::test::Fail;

    #[test]
    fn counts_and_refusals_are_written(rt: HostRuntime) -> Result<(), Fail> {
        let tally = Tally {
            sent: 4,
            fresh: 3,
            repeat: 1,
            refused: 0,
        };
        let counts = tally.lines(rt.alloc(), "sent")?;
        assert_eq!(rt; counts.as_str(), "sent 4\nfresh 3\nrepeat 1\nrefused 0\n");
        let bytes = refused(rt.alloc(), Refusal::LongFile)?;
        let text: &[u8] = &[b'j', b'o', b'b', b' ', b'8', b'\n'];
        assert_eq!(rt; bytes.as_slice(), text);
        Ok(())
    }
}
