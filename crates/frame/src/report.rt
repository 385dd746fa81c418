//! Reports as bytes.
ghost use Rattle.std.specs.Prelude.{◌≡◌, take, drop, IfOk, Ok, OnErr};
ghost use Rattle.frame.specs.ReportFrame.{report_of, reading_report, writing_report};

use super::{REPORT_KIND, REPORT_LEN, misfit};
use refusal::Refusal;

/// Reads a report: the released count and the oldest unseen number.
pub fn read_report(frame: &[u8]) -> Result<(u32, u32), Refusal>
    ensures exact { result ≡ reading_report frame.now }
    ensures canonical { IfOk result (λ p. frame.now ≡ report_of p) }
{
    let [kind, r0, r1, r2, r3, u0, u1, u2, u3] = frame else {
        return Err(misfit(frame, REPORT_KIND));
    };
    if *kind != REPORT_KIND {
        return Err(Refusal::WrongKind);
    }
    let released = u32::from_be_bytes([*r0, *r1, *r2, *r3]);
    let unseen = u32::from_be_bytes([*u0, *u1, *u2, *u3]);
    Ok((released, unseen))
}

/// Writes a report at the buffer's start, leaves the rest, and answers the report's length.
pub fn write_report(report: (u32, u32), frame: &mut [u8]) -> Result<usize, Refusal>
    ensures exact { (result, frame.new) ≡ writing_report report frame.old }
    ensures comes_back { IfOk result (λ n. reading_report (take n frame.new) ≡ Ok report) }
    ensures rest_left { IfOk result (λ n. drop n frame.new ≡ drop n frame.old) }
    ensures nothing_written { OnErr result (frame.new ≡ frame.old) }
{
    if frame.len() < REPORT_LEN {
        return Err(Refusal::ShortBuffer);
    }
    let (released, unseen) = report;
    let [r0, r1, r2, r3] = released.to_be_bytes();
    let [u0, u1, u2, u3] = unseen.to_be_bytes();
    frame[0..REPORT_LEN].copy_from_slice(&[REPORT_KIND, r0, r1, r2, r3, u0, u1, u2, u3]);
    Ok(REPORT_LEN)
}
