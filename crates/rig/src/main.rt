//! Drives sources and links by commands, for tests: a command a line, and a line for each answer.
//!
//! `plain Q N N ..` draws from a new plain source at the order Q and the widths N, one after another; `woven SEED Q N
//! N ..` from a woven one. `link SCRIPT STEPS` drives a scripted link, and `queue STEPS` a plain one: the step `p` puts
//! a frame of one byte, which counts the puts, `x` one of 401 bytes, and `t` takes.
#![tactic(auto)]

use link::{Link, PlainLink, ScriptedLink};
use refusal::Refusal;
use source::{Plain, Source, Woven};
use std::io;
use std::str::SplitWhitespace;

fn main(rt: HostRuntime) -> anyhow::Result<()> {
    for line in rt.lines(rt.alloc()) {
        let line = line?;
        command(&rt, line.as_str())?;
    }
    Ok(())
}

// Words are read one at a time, and not into a list: a line may have any number of them.
fn command(rt: &impl Print, line: &str) -> anyhow::Result<()> {
    let mut words = line.split_whitespace();
    match words.next() {
        Some("plain") => draws(rt, Plain::new(), words),
        Some("woven") => {
            let Some(seed) = words.next() else {
                return Ok(());
            };
            draws(rt, Woven::new(seed.parse::<u32>()?), words)
        }
        Some("queue") => {
            let Some(steps) = words.next() else {
                return Ok(());
            };
            drive(rt, PlainLink::new(), steps)
        }
        _ => scripted(rt, words),
    }
}

fn scripted(rt: &impl Print, mut words: SplitWhitespace<'_>) -> anyhow::Result<()> {
    let (Some(script), Some(steps)) = (words.next(), words.next()) else {
        return Ok(());
    };
    match ScriptedLink::new(script.as_bytes()) {
        Ok(link) => drive(rt, link, steps),
        Err(refusal) => Ok(show_refusal(rt, refusal)?),
    }
}

fn draws<S: Source + Drop>(
    rt: &impl Print,
    mut source: S,
    mut words: SplitWhitespace<'_>,
) -> anyhow::Result<()> {
    let Some(order) = words.next() else {
        return Ok(());
    };
    let order = order.parse::<u16>()?;
    for width in words {
        let mut slots = [0; 32];
        match source.draw(order, width.parse::<usize>()?, &mut slots) {
            Ok(()) => println!(rt; "{slots:?}")?,
            Err(refusal) => show_refusal(rt, refusal)?,
        }
    }
    Ok(())
}

fn drive<L: Link + Drop>(rt: &impl Print, mut link: L, steps: &str) -> anyhow::Result<()> {
    let mut count = 0u8;
    for step in steps.bytes() {
        match step {
            b'p' => {
                link.put(&[count]);
                count = count.wrapping_add(1);
            }
            b'x' => link.put(&[0; 401]),
            _ => take(rt, &mut link)?,
        }
    }
    Ok(())
}

fn take<L: Link>(rt: &impl Print, link: &mut L) -> io::Result<()> {
    let mut buffer = [0; 400];
    match link.take(&mut buffer) {
        Ok(Some(length)) => println!(rt; "{} of {length}", buffer[0]),
        Ok(None) => rt.println("none"),
        Err(refusal) => show_refusal(rt, refusal),
    }
}

fn show_refusal(rt: &impl Print, refusal: Refusal) -> io::Result<()> {
    println!(rt; "refused {}", refusal.number())
}
