//! A transfer over plain links.
use field::Bytes;
use frame::{SYMBOLS, WINDOW};
use link::PlainLink;
use receiver::Answer;
use refusal::Refusal;
use source::Plain;
use std::process::Abort;
use std::test::Fail;
use transfer::{OpenTransfer, SealedTransfer, Transfer};

// Two packets over plain links: each frame releases its packet, and its report drops it from the window.
#[test]
fn two_packets(rt: HostRuntime) -> Result<(), Fail> {
    let mut open: OpenTransfer<Bytes, Plain, PlainLink, PlainLink> = Transfer::new(
        Plain::new(),
        PlainLink::new(),
        PlainLink::new(),
    );
    assert_eq!(rt; open.admit(&[7; SYMBOLS])?, 1);
    assert_eq!(rt; open.admit(&[8; SYMBOLS])?, 2);
    let mut transfer = open.seal();
    crosses(&rt, &mut transfer, 7, 1)?;
    crosses(&rt, &mut transfer, 8, 2)?;
    assert_eq!(rt; transfer.send(), Err(Refusal::WindowEmpty));
    Ok(())
}

// A frame is sent and fetched, the packet has this symbol, and the report makes so many released and seen.
fn crosses(
    rt: &impl Abort,
    transfer: &mut SealedTransfer<Bytes, Plain, PlainLink, PlainLink>,
    symbol: u16,
    count: u32,
) -> Result<(), Fail> {
    let mut numbers = [0; WINDOW * SYMBOLS];
    assert_eq!(rt; transfer.send()?, 166);
    assert_eq!(rt; transfer.fetch(&mut numbers)?, Some(Answer::Fresh(1)));
    assert_eq!(rt; numbers[127], symbol);
    assert_eq!(rt; transfer.hear()?, Some((count, count)));
    Ok(())
}
