//! Gaussian elimination over rows with payloads, written once for every field.
//!
//! Whatever is done to a row is done to its payload. A table holds rows in reduced form: each begins with 1 at a
//! number of its own, where all others are 0. Every call is total, so that whatever holds rows uses the same.
#![tactic(auto)]

mod row;
mod table;

// As in the crate of frames: neither of the two crates stands on the other.

/// How many packets a row combines at most, and how many rows a table holds.
pub const WINDOW: usize = 32;

/// The symbols of a packet.
pub const SYMBOLS: usize = 128;

pub use row::{Row, place, subtract, subtract_packet};
pub use table::{Table, Verdict};
