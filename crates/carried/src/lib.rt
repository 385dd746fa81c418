//! How the codes of a field lie in bytes.
#![tactic(auto)]

ghost use Rattle.std.specs.Prelude.{◌≡◌, ℕ, length, slice_index_or};
ghost use Rattle.carried.specs.Carries.{Carries, Lays, packed, unpacked};

mod bits;
mod bytes;
mod residues;

use field::Field;

/// A field whose codes travel in frames. Codes past the end of what is packed, and bytes past the end of what is
/// unpacked, count as 0.
pub trait Carried: Field {
    /// The first byte of a data frame.
    // A number, and no enum of kinds: it is a byte of the frame, and a field of another crate brings its own.
    const KIND: u8;

    ghost KIND: { ℕ };

    /// The length of a data frame in bytes, at most 400.
    const LEN: usize;

    ghost LEN: { ℕ };

    ghost carries: { Carries };

    /// The byte at place k of the codes.
    fn byte(codes: &[u16], k: usize) -> u8
        ensures { result ≡ carries.byte_of codes.now k };

    /// The code at place i of the bytes.
    fn code(bytes: &[u8], i: usize) -> u16
        ensures { result ≡ carries.code_of bytes.now i };

    /// Fills the bytes with the codes.
    fn pack(codes: &[u16], bytes: &mut [u8])
        ensures { bytes.new ≡ packed carries (length bytes.old) codes.now }
    {
        for (k, byte) in bytes.iter_mut().enumerate() {
            *byte = Self::byte(codes, k);
        }
    }

    /// Fills the codes from the bytes.
    fn unpack(bytes: &[u8], codes: &mut [u16])
        ensures { codes.new ≡ unpacked carries (length codes.old) bytes.now }
    {
        for (i, code) in codes.iter_mut().enumerate() {
            *code = Self::code(bytes, i);
        }
    }

    ghost kind: { KIND ≡ carries.kind };

    ghost len: { LEN ≡ carries.len };

    ghost lays: { Lays 32 Self.Field.means.q carries };
}

// Item i, or what stands for it past the end.
fn item_or<T: Copy>(items: &[T], i: usize, past: T) -> T
    ensures { result ≡ slice_index_or items.now i past }
{
    items.get(i).copied().unwrap_or(past)
}
