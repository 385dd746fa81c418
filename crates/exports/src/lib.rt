//! Functions for programs in C or Rust to link: what the tests compare and the benchmarks measure.
#![tactic(auto)]

ghost use Rattle.std.specs.Prelude.{◌≡◌};
ghost use Rattle.std.specs.Option.{unwrap_or};
ghost use Rattle.field.specs.Field.{times, inverse};
ghost use Rattle.field.specs.OfBits.{bits};
ghost use Rattle.field.specs.OfBytes.{bytes};
ghost use Rattle.field.specs.OfResidues.{residues};
ghost use Rattle.elimination.specs.Rows.{less_row};
ghost use Rattle.exports.specs.Decoding.{gathered, unloaded, decoded};

use elimination::{Row, SYMBOLS, Table, WINDOW, subtract};
use field::{Bits, Bytes, Field, Residues};

// A function for each field, since C knows no generic ones, and 0 for no inverse, since it knows no `Option`.

/// The product in the field of bytes.
#[unsafe(no_mangle)]
pub extern "C" fn lambjade_bytes_mul(a: u16, b: u16) -> u16
    ensures { result ≡ times bytes a b }
{
    Bytes::mul(a, b)
}

/// The inverse in the field of bytes, or 0 where there is none.
#[unsafe(no_mangle)]
pub extern "C" fn lambjade_bytes_inverse(a: u16) -> u16
    ensures { result ≡ unwrap_or (inverse bytes a) 0 }
{
    Bytes::inverse(a).unwrap_or(0)
}

/// The product modulo 257.
#[unsafe(no_mangle)]
pub extern "C" fn lambjade_residues_mul(a: u16, b: u16) -> u16
    ensures { result ≡ times residues a b }
{
    Residues::mul(a, b)
}

/// The inverse modulo 257, or 0 where there is none.
#[unsafe(no_mangle)]
pub extern "C" fn lambjade_residues_inverse(a: u16) -> u16
    ensures { result ≡ unwrap_or (inverse residues a) 0 }
{
    Residues::inverse(a).unwrap_or(0)
}

/// Subtracts `factor` times the other row of bits from the target.
#[unsafe(no_mangle)]
pub extern "C" fn lambjade_bits_subtract(target: &mut Row, factor: u16, other: &Row)
    ensures { target.new ≡ less_row bits factor other.now target.old }
{
    subtract::<Bits>(target, factor, other);
}

/// Subtracts `factor` times the other row of bytes from the target.
#[unsafe(no_mangle)]
pub extern "C" fn lambjade_bytes_subtract(target: &mut Row, factor: u16, other: &Row)
    ensures { target.new ≡ less_row bytes factor other.now target.old }
{
    subtract::<Bytes>(target, factor, other);
}

/// Subtracts `factor` times the other row of residues from the target.
#[unsafe(no_mangle)]
pub extern "C" fn lambjade_residues_subtract(target: &mut Row, factor: u16, other: &Row)
    ensures { target.new ≡ less_row residues factor other.now target.old }
{
    subtract::<Residues>(target, factor, other);
}

/// The first 32 packets of a stream.
// A struct around one array, since C hands over no array itself.
#[repr(C)]
pub struct Packets {
    pub packets: [[u16; SYMBOLS]; WINDOW],
}

// A new table takes the rows in, one after another.
fn gathered<F: Field>(rows: &[Row]) -> Table
    ensures { result ≡ gathered F.Field.means 32 rows.now }
{
    let mut table = Table::new();
    for row in rows {
        let _ = table.absorb::<F>(*row, 0);
    }
    table
}

// Writes each of the first 32 packets that the table has solved at its place; the others are left.
fn unload(table: &mut Table, packets: &mut Packets)
    ensures { packets.new ≡ unloaded 32 table.old packets.old }
{
    // By its number: that each packet goes to the first place, as an edit has it, cannot be said over the places.
    for k in 0..WINDOW as u32 {
        if let Some(packet) = table.take_solved(k) {
            packets.packets[k as usize] = packet;
        }
    }
}

// Takes in rows of the first 32 packets, and writes those packets that they determine.
fn decode<F: Field>(rows: &[Row], packets: &mut Packets)
    ensures { packets.new ≡ decoded F.Field.means 32 rows.now packets.old }
{
    let mut table = gathered::<F>(rows);
    unload(&mut table, packets);
}

/// Takes in rows of bits, and writes the packets that they determine.
#[unsafe(no_mangle)]
pub extern "C" fn lambjade_bits_decode(rows: &[Row], packets: &mut Packets)
    ensures { packets.new ≡ decoded bits 32 rows.now packets.old }
{
    decode::<Bits>(rows, packets);
}

/// Takes in rows of bytes, and writes the packets that they determine.
#[unsafe(no_mangle)]
pub extern "C" fn lambjade_bytes_decode(rows: &[Row], packets: &mut Packets)
    ensures { packets.new ≡ decoded bytes 32 rows.now packets.old }
{
    decode::<Bytes>(rows, packets);
}

/// Takes in rows of residues, and writes the packets that they determine.
#[unsafe(no_mangle)]
pub extern "C" fn lambjade_residues_decode(rows: &[Row], packets: &mut Packets)
    ensures { packets.new ≡ decoded residues 32 rows.now packets.old }
{
    decode::<Residues>(rows, packets);
}
