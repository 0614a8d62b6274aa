//! Tables that are canonical: equal exactly if they accept the same words, or the same lassos.

ghost use Rattle.std.specs.Prelude.{◌≡◌, ◌<◌, IfOk};
ghost use Rattle.lash_model.specs.Tables.{letters, fracs, IsDiagram};
ghost use Rattle.canonical_laws.specs.Canonical.{IsCanonical, AcceptSameWords};
ghost use Rattle.part_laws.specs.Graphs.{IsWeak};
ghost use Rattle.part_laws.specs.CanonicalMixed.{fraction_graph, IsCanonicalMixed, IsCanonicalTable, AcceptSameLassos};

use crate::diagrams::canonical_diagram;
use crate::fractions::canonical_fractions;
use lash_io::Memory;
use packed_cells::{Cells, Packed, Plain};
use std::alloc::Global;
use std::marker::Model;
use step_tables::{Table, pack};

/// A canonical table, a diagram or a table with fraction states, in packed cells.
#[derive(Drop)]
pub struct Canon {
    table: Table<Packed>,
}

impl Model for Canon {
    ghost use Rattle.step_tables.specs.Kept.{Kept};
    ghost use Rattle.part_laws.specs.CanonicalMixed.{IsCanonicalTable};

    ghost Value = { Kept };

    ghost view = { λ c. c.table };

    ghost invariant = { λ c. IsCanonicalTable c.table.table };
}

impl Canon {
    /// A table that is known to be canonical.
    pub fn new(table: Table<Packed>) -> Self
        requires { IsCanonicalTable table.table }
        ensures { result ≡ table }
    {
        Canon { table }
    }

    /// The table.
    pub fn table(&self) -> &Table<Packed>
        ensures value { result.now ≡ self.now }
        ensures canonical { IsCanonicalTable self.now.table }
        ensures diagram { IsDiagram self.now.table → IsCanonical self.now.table }
        ensures fractions { 0 < fracs self.now.table → IsCanonicalMixed self.now.table }
    {
        &self.table
    }

    /// The table, given away.
    pub fn into_table(self) -> Table<Packed>
        ensures value { result ≡ self }
        ensures canonical { IsCanonicalTable result.table }
        ensures diagram { IsDiagram result.table → IsCanonical result.table }
        ensures fractions { 0 < fracs result.table → IsCanonicalMixed result.table }
    {
        self.table
    }
}

/// The canonical table in packed cells. Fails only if memory runs out.
fn packed(alloc: Global, table: &Table<Plain>) -> Result<Canon, Memory>
    requires { IsCanonicalTable table.now.table }
    ensures { IfOk result (λ u. u.table ≡ table.now.table) }
{
    match pack(alloc, table) {
        Ok(made) => Ok(Canon::new(made)),
        Err(Memory) => Err(Memory),
    }
}

/// The canonical table of a diagram, or of a table with fraction states whose fraction part is weak: of the same kind, base and number
/// of tracks, it accepts the same words or lassos. Fails only if memory runs out.
pub fn canonical<C: Cells>(alloc: Global, table: &Table<C>) -> Result<Canon, Memory>
    requires { 0 < fracs table.now.table → IsWeak (letters table.now.table) (fraction_graph table.now.table) }
    ensures base { IfOk result (λ u. u.table.base ≡ table.now.table.base) }
    ensures tracks { IfOk result (λ u. u.table.tracks ≡ table.now.table.tracks) }
    ensures diagram { IsDiagram table.now.table → IfOk result (λ u. IsCanonical u.table) }
    ensures words { IsDiagram table.now.table → IfOk result (λ u. AcceptSameWords table.now.table u.table) }
    ensures fractions { 0 < fracs table.now.table → IfOk result (λ u. IsCanonicalMixed u.table) }
    ensures lassos { 0 < fracs table.now.table → IfOk result (λ u. AcceptSameLassos table.now.table u.table) }
{
    let made = if table.fracs() == 0 {
        canonical_diagram(alloc, table)
    } else {
        canonical_fractions(alloc, table)
    };
    match made {
        Ok(made) => packed(alloc, &made),
        Err(Memory) => Err(Memory),
    }
}
