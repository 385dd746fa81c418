//! Prints what the frames of a capture say, a line for each frame.
//!
//! Standard input holds the frames end to end, each behind its length in two bytes, the highest first.
#![tactic(auto)]

use capture::Frames;
use carried::Carried;
use field::{Bits, Bytes, Residues};
use frame::{read_data, read_report};
use refusal::Refusal;
use std::io;
use std::io::Read;

fn main(rt: HostRuntime) -> io::Result<()> {
    let mut input = Vec::new(rt.alloc());
    rt.stdin().read_to_end(&mut input)?;
    for frame in Frames::new(&input) {
        match frame {
            Ok(frame) => show(&rt, frame)?,
            Err(cut) => println!(rt; "{cut}")?,
        }
    }
    Ok(())
}

// A frame that begins with no data kind is read as a report, which says why it is none.
fn show(rt: &impl Print, frame: &[u8]) -> io::Result<()> {
    match frame {
        [Bits::KIND, ..] => show_data::<Bits>(rt, frame),
        [Bytes::KIND, ..] => show_data::<Bytes>(rt, frame),
        [Residues::KIND, ..] => show_data::<Residues>(rt, frame),
        _ => show_report(rt, frame),
    }
}

fn show_data<C: Carried>(rt: &impl Print, frame: &[u8]) -> io::Result<()> {
    match read_data::<C>(frame) {
        Ok(data) => println!(rt;
            "base {} width {} slots {:?} symbols {:?}",
            data.base, data.width, data.slots, data.symbols
        ),
        Err(refusal) => show_refusal(rt, refusal),
    }
}

fn show_report(rt: &impl Print, frame: &[u8]) -> io::Result<()> {
    match read_report(frame) {
        Ok((released, unseen)) => println!(rt; "released {released} unseen {unseen}"),
        Err(refusal) => show_refusal(rt, refusal),
    }
}

fn show_refusal(rt: &impl Print, refusal: Refusal) -> io::Result<()> {
    println!(rt; "refused {}", refusal.number())
}
