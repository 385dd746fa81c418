//! The linear algebra behind the receiver: rows, frames, streams that fit, seen packets, exact release.
//!
//! No code, but functions that name theorems: each has its theorem as its contract and does nothing. What a receiver
//! promises by these words stands in `specs/Promises.antt`.
#![tactic(auto)]

ghost use Rattle.algebra.specs.Theorems.{ReleaseExists, ReleaseIsDetermined, ReleaseIsCounted, WindowDecodes, EndsApartIndependent, SpansGrow};

/// Frames that some stream fits have an exact release.
pub fn release_exists()
    ensures { ReleaseExists }
{}

/// The streams that fit the accepted frames determine what is exactly released.
pub fn release_is_determined()
    ensures { ReleaseIsDetermined }
{}

/// Whether it is complete shows in the count of the fresh rows.
pub fn release_is_counted()
    ensures { ReleaseIsCounted }
{}

/// As many independent draws as a window has packets determine all packets up to its end.
pub fn window_decodes()
    ensures { WindowDecodes }
{}

/// Draws that end with 1, each in a slot of its own, are independent.
pub fn ends_apart_independent()
    ensures { EndsApartIndependent }
{}

/// What rows span and show seen, they do with one more row.
pub fn spans_grow()
    ensures { SpansGrow }
{}
