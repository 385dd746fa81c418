//! A file's packets, and the record that puts them together again.
//!
//! The packets hold the file's length in four bytes, the file, and zero bytes to the end. A record takes them in
//! order and writes each byte of the file at its place in a buffer. It is finished once all bytes are there, and only
//! then shows the file: `Filling` has no `show`, and `Whole` no `add`.
#![tactic(auto)]

mod digits;
mod filling;
mod packets;
mod spelling;
mod whole;

pub use filling::Filling;
pub use packets::{packet, packet_count};
pub use whole::Whole;

/// The most bytes that a file may have.
pub const FILE_MOST: usize = 16_000;

/// The symbols of a packet.
// As in the crate of frames: neither of the two crates stands on the other.
pub const SYMBOLS: usize = 128;
