//! The worked examples, run.
use carried::Carried;
use field::{Bits, Bytes, Residues};
use frame::{Data, FRAME_MOST, SYMBOLS, WINDOW, write_data};
use receiver::Answer::{Fresh, Repeat};
use receiver::{Answer, Receiver};
use refusal::Refusal;
use source::{Source, Woven};
use std::process::Abort;
use std::test::Fail;

// What a frame says that gives the packets from base on the coefficients of the row; its payload is 128 times x.
fn data(base: u32, row: &[u16], x: u16) -> Data {
    let width = row.len().min(WINDOW);
    let mut slots = [0; WINDOW];
    slots[..width].copy_from_slice(&row[..width]);
    Data {
        base,
        width: width as u8,
        slots,
        symbols: [x; SYMBOLS],
    }
}

// The frame that says so arrives.
fn arrive<C: Carried>(
    receiver: &mut Receiver<C>,
    data: &Data,
    numbers: &mut [u16],
) -> Result<Answer, Refusal> {
    let mut bytes = [0; FRAME_MOST];
    let len = write_data::<C>(data, &mut bytes)?;
    receiver.arrive(&bytes[..len.min(FRAME_MOST)], numbers)
}

// The buffer begins with packets of 128 equal numbers each, and is 0 from there on.
fn check_packets(rt: &impl Abort, numbers: &[u16; SYMBOLS * WINDOW], packets: &[u16]) {
    for (i, packet) in numbers.chunks_exact(SYMBOLS).enumerate() {
        let number = packets.get(i).copied().unwrap_or(0);
        assert_eq!(rt; packet, [number; SYMBOLS].as_slice());
    }
}

// What the receiver then reports and lacks.
fn check_report<C: Carried>(
    rt: &impl Abort,
    receiver: &Receiver<C>,
    report: (u32, u32),
    missing: &[u32],
) -> Result<(), Fail> {
    assert_eq!(rt; receiver.report(), report);
    let mut numbers = [0; WINDOW];
    let count = receiver.missing(&mut numbers)?;
    assert_eq!(rt; numbers.get(..count), Some(missing));
    Ok(())
}

// The frame arrives with a buffer of zeros: its answer, and the packets that it releases.
fn call<C: Carried>(
    rt: &impl Abort,
    receiver: &mut Receiver<C>,
    data: &Data,
    answer: Result<Answer, Refusal>,
    packets: &[u16],
) {
    let mut numbers = [0; SYMBOLS * WINDOW];
    assert_eq!(rt; arrive(receiver, data, &mut numbers), answer);
    check_packets(rt, &numbers, packets);
}

#[test]
fn woven_draws(rt: HostRuntime) -> Result<(), Fail> {
    let mut source = Woven::new(0);
    let mut slots = [0; WINDOW];
    source.draw(256, 3, &mut slots)?;
    assert_eq!(rt; slots, data(0, &[1], 0).slots);
    source.draw(256, 3, &mut slots)?;
    assert_eq!(rt; slots, data(0, &[110, 1], 0).slots);
    source.draw(256, 3, &mut slots)?;
    assert_eq!(rt; slots, data(0, &[80, 204, 1], 0).slots);
    Ok(())
}

#[test]
fn residues_solved(rt: HostRuntime) -> Result<(), Fail> {
    let mut receiver = Receiver::<Residues>::new();
    call(&rt, &mut receiver, &data(0, &[1, 1], 5), Ok(Fresh(0)), &[]);
    check_report(&rt, &receiver, (0, 1), &[1])?;
    call(
        &rt,
        &mut receiver,
        &data(0, &[1, 2], 8),
        Ok(Fresh(2)),
        &[2, 3],
    );
    check_report(&rt, &receiver, (2, 2), &[])?;
    call(&rt, &mut receiver, &data(0, &[1, 1], 5), Ok(Repeat), &[]);
    check_report(&rt, &receiver, (2, 2), &[])?;
    let refused = Err(Refusal::Contradiction);
    call(&rt, &mut receiver, &data(0, &[1, 1], 6), refused, &[]);
    check_report(&rt, &receiver, (2, 2), &[])
}

#[test]
fn bytes_solved(rt: HostRuntime) -> Result<(), Fail> {
    let mut receiver = Receiver::<Bytes>::new();
    call(&rt, &mut receiver, &data(0, &[1, 1], 5), Ok(Fresh(0)), &[]);
    check_report(&rt, &receiver, (0, 1), &[1])?;
    let packets = [245, 240];
    call(
        &rt,
        &mut receiver,
        &data(0, &[1, 2], 8),
        Ok(Fresh(2)),
        &packets,
    );
    check_report(&rt, &receiver, (2, 2), &[])
}

#[test]
fn one_missing(rt: HostRuntime) -> Result<(), Fail> {
    let mut receiver = Receiver::<Bits>::new();
    call(
        &rt,
        &mut receiver,
        &data(0, &[1, 1, 0], 1),
        Ok(Fresh(0)),
        &[],
    );
    check_report(&rt, &receiver, (0, 1), &[1, 2])?;
    call(
        &rt,
        &mut receiver,
        &data(0, &[0, 0, 1], 1),
        Ok(Fresh(0)),
        &[],
    );
    check_report(&rt, &receiver, (0, 1), &[1])
}

#[test]
fn ahead(rt: HostRuntime) -> Result<(), Fail> {
    let mut receiver = Receiver::<Bits>::new();
    let row = [1; WINDOW];
    call(
        &rt,
        &mut receiver,
        &data(1, &row, 0),
        Err(Refusal::Ahead),
        &[],
    );
    check_report(&rt, &receiver, (0, 0), &[])?;
    call(&rt, &mut receiver, &data(0, &row, 0), Ok(Fresh(0)), &[]);
    assert_eq!(rt; receiver.report(), (0, 1));
    assert_eq!(rt; Refusal::Ahead.number(), 17);
    Ok(())
}

// Packets 0 to 32, all 0, arrive one by one.
fn arrive_singly(rt: &impl Abort, receiver: &mut Receiver<Bits>, numbers: &mut [u16]) {
    for k in 0..33u32 {
        assert_eq!(rt; arrive(receiver, &data(k, &[1], 0), numbers), Ok(Fresh(1)));
    }
}

#[test]
fn late(rt: HostRuntime) -> Result<(), Fail> {
    let mut receiver = Receiver::<Bits>::new();
    arrive_singly(&rt, &mut receiver, &mut [0; SYMBOLS * WINDOW]);
    call(&rt, &mut receiver, &data(1, &[1], 0), Ok(Repeat), &[]);
    check_report(&rt, &receiver, (33, 33), &[])?;
    call(
        &rt,
        &mut receiver,
        &data(0, &[1], 0),
        Err(Refusal::Late),
        &[],
    );
    check_report(&rt, &receiver, (33, 33), &[])?;
    assert_eq!(rt; Refusal::Late.number(), 16);
    Ok(())
}
