//! Prints what a receiver makes of captured frames.
//!
//! Standard input holds a digit that names the field, 1, 2 or 3 as in the kinds, and then the frames end to end, each
//! behind its length in two bytes, the highest first. Each frame arrives in its turn: a line for the answer, one for
//! the report, one for the missing packets, and one for each packet that was released.
#![tactic(auto)]

use capture::Frames;
use carried::Carried;
use field::{Bits, Bytes, Residues};
use frame::{SYMBOLS, WINDOW};
use receiver::{Answer, Receiver};
use std::io;
use std::io::Read;

fn main(rt: HostRuntime) -> io::Result<()> {
    let mut input = Vec::new(rt.alloc());
    rt.stdin().read_to_end(&mut input)?;
    // The digit chooses a type here and nowhere else, so an enum of fields would only be matched again.
    match input.as_slice() {
        [b'1', capture @ ..] => listen::<Bits>(&rt, capture),
        [b'2', capture @ ..] => listen::<Bytes>(&rt, capture),
        [b'3', capture @ ..] => listen::<Residues>(&rt, capture),
        _ => rt.println("no field"),
    }
}

fn listen<C: Carried>(rt: &impl Print, capture: &[u8]) -> io::Result<()> {
    let mut receiver = Receiver::<C>::new();
    for frame in Frames::new(capture) {
        match frame {
            Ok(frame) => hear(rt, &mut receiver, frame)?,
            Err(cut) => println!(rt; "{cut}")?,
        }
    }
    Ok(())
}

fn hear<C: Carried>(rt: &impl Print, receiver: &mut Receiver<C>, frame: &[u8]) -> io::Result<()> {
    let mut numbers = [0; SYMBOLS * WINDOW];
    let answer = receiver.arrive(frame, &mut numbers);
    let (released, unseen) = receiver.report();
    match answer {
        Ok(Answer::Fresh(count)) => {
            println!(rt; "fresh {count} report {released} {unseen}")?;
            show_packets(rt, count, &numbers)?;
        }
        Ok(Answer::Repeat) => println!(rt; "repeat report {released} {unseen}")?,
        Err(refusal) => { println!(rt; "refused {} report {released} {unseen}", refusal.number())? }
    }
    show_missing(rt, receiver)
}

fn show_packets(rt: &impl Print, count: u32, numbers: &[u16]) -> io::Result<()> {
    for packet in numbers.chunks_exact(SYMBOLS).take(count as usize) {
        println!(rt; "packet {packet:?}")?;
    }
    Ok(())
}

fn show_missing<C: Carried>(rt: &impl Print, receiver: &Receiver<C>) -> io::Result<()> {
    let mut numbers = [0; WINDOW];
    if let Ok(count) = receiver.missing(&mut numbers)
        && let Some(missing) = numbers.get(..count)
    {
        println!(rt; "missing {missing:?}")?;
    }
    Ok(())
}
