//! Tables in cells of as few bits as their entries need. Own. One pass over each list; an entry is read and changed as before.

ghost use Rattle.std.specs.Prelude.{◌≡◌, ◌^◌, IfOk};
ghost use Rattle.lash_model.specs.Tables.{IsTable};
ghost use Rattle.step_tables.specs.Kept.{wide};
ghost use Rattle.step_tables.specs.Packing.{IsTight, IsWordSum};

use crate::Table;
use lash_io::Memory;
use packed_cells::{Cells, Packed, Plain};
use std::alloc::Global;

/// The same table; each of its five lists stands in cells of the least bits that hold its largest number, at least 1.
pub fn pack(alloc: Global, table: &Table<Plain>) -> Result<Table<Packed>, Memory>
    ensures same { IfOk result (λ t. t.table ≡ table.now.table) }
    ensures bits { IfOk result (λ t. IsTight t) }
    ensures table { IfOk result (λ t. IsTable t.table) }
{
    let roots = Packed::of_cells(alloc, &table.roots)?;
    let rows = Packed::of_cells(alloc, &table.rows)?;
    let outs = Packed::of_cells(alloc, &table.outs)?;
    let frac_rows = Packed::of_cells(alloc, &table.frac_rows)?;
    let colours = Packed::of_cells(alloc, &table.colours)?;
    Ok(Table {
        base: table.base,
        tracks: table.tracks,
        letters: table.letters,
        ints: table.ints,
        fracs: table.fracs,
        roots,
        rows,
        outs,
        frac_rows,
        colours,
    })
}

impl Table<Plain> {
    /// What the entries of each list may be at the most, and one more: the bound of all cells.
    pub fn bound(&self) -> u64
        ensures value { result ≡ 2 ^ 32 }
        ensures wide { self.now.bounds ≡ wide }
    {
        self.roots.bound()
    }
}

impl Table<Packed> {
    /// How many words of 64 bits the five lists take together.
    pub fn words(&self) -> u64
        ensures { IsWordSum self.now result }
    {
        let ints = self.roots.word_count() + self.rows.word_count() + self.outs.word_count();
        (ints + self.frac_rows.word_count() + self.colours.word_count()) as u64
    }
}
