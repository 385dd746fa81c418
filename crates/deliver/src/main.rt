//! The program: reads a job from standard input and writes its answer to standard output.
#![tactic(auto)]

use std::io;
use std::io::{Read, Write};

// As haul's but for the library: one for both could promise nothing, since no clause tells what a program reads.
fn main(rt: HostRuntime) -> io::Result<()> {
    let heap = rt.alloc();
    let mut input = Vec::new(heap);
    rt.stdin().read_to_end(&mut input)?;
    let answer = delivery::answer(heap, &input)?;
    rt.stdout().write_all(&answer)
}
