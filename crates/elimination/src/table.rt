//! The reduced table.
ghost use Rattle.std.specs.Prelude.{◌≡◌, ℕ, ◌+◌, ◌%◌, ◌<◌, true, is_some};
ghost use Rattle.field.specs.Field.{Means};
ghost use Rattle.elimination.specs.Reduced.{Coded, Reduced};
ghost use Rattle.elimination.specs.Tables.{no_rows, holding, reduced, joined, solved, without};
ghost use Rattle.elimination.specs.Absorption.{absorption, absorbed, LeftUnlessInnovative};

use super::row::{Row, place, place_past, subtract};
use super::{SYMBOLS, WINDOW};
use field::Field;

/// Rows in reduced form: the one that begins at packet k stands at the place k % 32.
#[derive(Drop)]
pub struct Table {
    // An array, and no map or list: no memory is asked for below the programs.
    rows: [Option<Row>; WINDOW],
}

/// What a row was to the table that it came to.
#[derive(Clone, Copy, PartialEq, Eq, Debug)]
pub enum Verdict {
    /// It is no combination of the table's rows, and joined them; it begins so far past the start.
    Innovative(u32),
    /// It is a combination of the table's rows, and so is its payload.
    Redundant,
    /// It is a combination of the table's rows, and its payload is another than theirs.
    Contradictory,
}

impl Table {
    /// A table without rows.
    pub fn new() -> Table
        ensures exact { result ≡ no_rows 32 }
        ensures reduced { (m : Means) (start : ℕ) → Reduced m 32 start result }
    {
        Table {
            rows: [None; WINDOW],
        }
    }

    /// Whether a row begins at packet k.
    pub fn holds(&self, k: u32) -> bool
        ensures { result ≡ holding 32 self.now k }
    {
        self.rows[place(k)].is_some()
    }

    /// Takes in a row of the 32 packets from `start` on, unless the table's rows combine to it.
    pub fn absorb<F: Field>(&mut self, mut row: Row, start: u32) -> Verdict
        ensures exact { absorption result self.new ≡ absorbed F.Field.means 32 start row self.old }
        ensures left { LeftUnlessInnovative result self.old self.new }
        ensures reduced { Coded F.Field.means 32 row → Reduced F.Field.means 32 start self.old → Reduced F.Field.means 32 start self.new }
    {
        self.reduce::<F>(&mut row);
        let Some(distance) = row.first(start) else {
            return if field::all_zero(&row.payload) {
                Verdict::Redundant
            } else {
                Verdict::Contradictory
            };
        };
        let at = place_past(start, distance);
        row.scale::<F>(at);
        self.insert::<F>(at, &row);
        Verdict::Innovative(distance)
    }

    /// Where the row that begins at packet k is 0 elsewhere, takes it out and answers its payload, which is packet k.
    pub fn take_solved(&mut self, k: u32) -> Option<[u16; SYMBOLS]>
        ensures packet { result ≡ solved 32 self.old k }
        ensures table { self.new ≡ without (k % 32) result self.old }
        ensures reduced { (m : Means) → is_some result ≡ true → Reduced m 32 k self.old → Reduced m 32 (k + 1) self.new }
    {
        let at = place(k);
        let Some(row) = &self.rows[at] else {
            return None;
        };
        if !row.is_unit(at) {
            return None;
        }
        let packet = row.payload;
        self.rows[at] = None;
        Some(packet)
    }

    // Makes the row 0 wherever a row of the table begins.
    fn reduce<F: Field>(&self, row: &mut Row)
        ensures { row.new ≡ reduced F.Field.means 32 self.now row.old }
    {
        for (at, slot) in self.rows.iter().enumerate() {
            if let Some(pivot) = slot {
                let factor = row.slots[at];
                subtract::<F>(row, factor, pivot);
            }
        }
    }

    // Makes every row 0 at the place by the new row, which then stands there.
    fn insert<F: Field>(&mut self, at: usize, pivot: &Row)
        requires { at < 32 }
        ensures { self.new ≡ joined F.Field.means 32 at pivot.now self.old }
    {
        for slot in &mut self.rows {
            if let Some(row) = slot {
                let factor = row.slots[at];
                subtract::<F>(row, factor, pivot);
            }
        }
        self.rows[at] = Some(*pivot);
    }
}
