//! The rows of a table, lent one after the other from one buffer. Own. Each takes a read for each letter, in cells of any kind.

ghost use Rattle.std.specs.Prelude.{◌≡◌, ◌+◌, ◌*◌, ◌<◌, true, false, [], ◌∷◌, length, take, drop, IfOk, IfSome, IfNone};
ghost use Rattle.lash_model.specs.Tables.{letters, ints, fracs};
ghost use Rattle.std.specs.Borrow.{sem};
ghost use Rattle.std.specs.Io.BufRead.{Rests};
ghost use mir.Syntax.{named};
ghost use Rattle.step_tables.specs.contracts.rows.Rows.{the_row};
ghost use Rattle.step_tables.specs.Rows.{rows_of};

use crate::Table;
use lash_io::Memory;
use packed_cells::Cells;
use std::alloc::Global;
use std::marker::Model;

/// Writes the targets of an integer state.
fn write_int_row<C: Cells>(table: &Table<C>, state: u32, row: &mut [u32])
    requires state { state < ints table.now.table }
    requires width { length row.old ≡ letters table.now.table }
    ensures row { row.new ≡ take (letters table.now.table) (drop (state * letters table.now.table) table.now.table.rows) }
    ensures width { length row.new ≡ length row.old }
{
    for letter in 0..table.letters() {
        row[letter as usize] = table.int_step(state, letter);
    }
}

/// Writes the targets of a fraction state.
fn write_frac_row<C: Cells>(table: &Table<C>, state: u32, row: &mut [u32])
    requires state { state < fracs table.now.table }
    requires width { length row.old ≡ letters table.now.table }
    ensures row { row.new ≡ take (letters table.now.table) (drop (state * letters table.now.table) table.now.table.frac_rows) }
    ensures width { length row.new ≡ length row.old }
{
    for letter in 0..table.letters() {
        row[letter as usize] = table.frac_step(state, letter);
    }
}

/// Writes the row at a place, and returns whether there is one.
fn write_row<C: Cells>(table: &Table<C>, place: u32, row: &mut [u32]) -> bool
    requires { length row.old ≡ letters table.now.table }
    ensures some { result ≡ true → drop place (rows_of table.now.table) ≡ row.new ∷ drop 1 (drop place (rows_of table.now.table)) }
    ensures place { result ≡ true → place < ints table.now.table + fracs table.now.table }
    ensures none { result ≡ false → drop place (rows_of table.now.table) ≡ [] }
    ensures width { length row.new ≡ length row.old }
{
    let ints = table.ints();
    if place < ints {
        write_int_row(table, place, row);
        return true;
    }
    if place - ints < table.fracs() {
        write_frac_row(table, place - ints, row);
        return true;
    }
    false
}

/// The rows of a table that were not lent yet: those of the integer states, and then those of the fraction states.
#[derive(Drop)]
pub struct Rows<'a, C: Cells> {
    table: &'a Table<C>,
    row: Vec<u32>,
    next: u32,
}

impl<'a, C: Cells> Model for Rows<'a, C> {
    ghost use Rattle.std.specs.Prelude.{ℕ, List, drop, length};
    ghost use Rattle.step_tables.specs.Rows.{rows_of, IsLending};

    ghost Value = { List (List ℕ) };

    ghost view = { λ r. drop r.next (rows_of r.table.now.table) };

    ghost invariant = { λ r. IsLending r.table.now.table (length r.row.items) r.next };
}

impl<'a, C: Cells> Rows<'a, C> {
    /// All rows of a table.
    pub fn new(alloc: Global, table: &'a Table<C>) -> Result<Self, Memory>
        ensures { IfOk result (λ r. r ≡ rows_of table.now.table) }
    {
        match vec![in alloc; 0; table.letters() as usize] {
            Ok(row) => Ok(Rows {
                table,
                row,
                next: 0,
            }),
            Err(_) => Err(Memory),
        }
    }

    /// The next row, until the next call; none if all were lent.
    pub fn next_row(&mut self) -> Option<&[u32]>
        ensures row { IfSome result (λ row. self.old ≡ row.now ∷ drop 1 self.old) }
        ensures none { IfNone result (self.old ≡ []) }
        ensures* rest { sem 𝓛 (Rests (the_row (record { mir = named 1; lft = [] }) C.row C.Cells) self.entry (λ new. new ≡ drop 1 self.old)) }
    {
        if !write_row(self.table, self.next, self.row.as_mut_slice()) {
            return None;
        }
        self.next += 1;
        Some(self.row.as_slice())
    }
}
