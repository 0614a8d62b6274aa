//! Whether two canonical tables are equal, entry by entry. Costs one look at each entry, and takes no memory.

ghost use Rattle.std.specs.Prelude.{◌≡◌, ◌↔◌, ◌+◌, ◌*◌, ◌^◌, ◌<◌, ℕ, IsTrue, slice_index};
ghost use Rattle.lash_model.specs.Tables.{letters, ints, fracs, IsTable, IsDiagram};
ghost use Rattle.canonical_laws.specs.Canonical.{AcceptSameWords};
ghost use Rattle.part_laws.specs.CanonicalMixed.{AcceptSameLassos};
ghost use Rattle.weak_min.specs.Shapes.{IsSameShape};

use crate::Canon;
use packed_cells::Packed;
use step_tables::Table;

/// Whether base, number of tracks and both numbers of states are equal.
fn same_shape(left: &Table<Packed>, right: &Table<Packed>) -> bool
    ensures { IsTrue result ↔ IsSameShape left.now.table right.now.table }
{
    left.base() == right.base()
        && left.tracks() == right.tracks()
        && left.ints() == right.ints()
        && left.fracs() == right.fracs()
}

/// Whether all roots are equal.
fn same_roots(left: &Table<Packed>, right: &Table<Packed>) -> bool
    requires left { IsTable left.now.table }
    requires right { IsTable right.now.table }
    requires tracks { left.now.table.tracks ≡ right.now.table.tracks }
    ensures { IsTrue result ↔ (left.now.table.roots ≡ right.now.table.roots) }
{
    for sign in 0..2u32.pow(left.tracks()) {
        if left.root(sign) != right.root(sign) {
            return false;
        }
    }
    true
}

/// Whether all targets of a state are equal.
fn same_row(left: &Table<Packed>, right: &Table<Packed>, state: u32) -> bool
    requires letters { letters left.now.table ≡ letters right.now.table }
    requires left { state < ints left.now.table }
    requires right { state < ints right.now.table }
    ensures { IsTrue result ↔ ((l : ℕ) → l < letters left.now.table → slice_index left.now.table.rows (state * letters left.now.table + l) ≡ slice_index right.now.table.rows (state * letters left.now.table + l)) }
{
    for letter in 0..left.letters() {
        if left.int_step(state, letter) != right.int_step(state, letter) {
            return false;
        }
    }
    true
}

/// Whether all targets are equal.
fn same_rows(left: &Table<Packed>, right: &Table<Packed>) -> bool
    requires left { IsTable left.now.table }
    requires right { IsTable right.now.table }
    requires letters { letters left.now.table ≡ letters right.now.table }
    requires states { ints left.now.table ≡ ints right.now.table }
    ensures { IsTrue result ↔ (left.now.table.rows ≡ right.now.table.rows) }
{
    for state in 0..left.ints() {
        if !same_row(left, right, state) {
            return false;
        }
    }
    true
}

/// Whether all outputs are equal.
fn same_outs(left: &Table<Packed>, right: &Table<Packed>) -> bool
    requires { ints left.now.table ≡ ints right.now.table }
    ensures { IsTrue result ↔ (left.now.table.outs ≡ right.now.table.outs) }
{
    for state in 0..left.ints() {
        if left.out(state) != right.out(state) {
            return false;
        }
    }
    true
}

/// Whether all targets of a fraction state are equal.
fn same_fraction_row(left: &Table<Packed>, right: &Table<Packed>, state: u32) -> bool
    requires letters { letters left.now.table ≡ letters right.now.table }
    requires left { state < fracs left.now.table }
    requires right { state < fracs right.now.table }
    ensures { IsTrue result ↔ ((l : ℕ) → l < letters left.now.table → slice_index left.now.table.frac_rows (state * letters left.now.table + l) ≡ slice_index right.now.table.frac_rows (state * letters left.now.table + l)) }
{
    for letter in 0..left.letters() {
        if left.frac_step(state, letter) != right.frac_step(state, letter) {
            return false;
        }
    }
    true
}

/// Whether all targets of fraction states are equal.
fn same_fraction_rows(left: &Table<Packed>, right: &Table<Packed>) -> bool
    requires left { IsTable left.now.table }
    requires right { IsTable right.now.table }
    requires letters { letters left.now.table ≡ letters right.now.table }
    requires states { fracs left.now.table ≡ fracs right.now.table }
    ensures { IsTrue result ↔ (left.now.table.frac_rows ≡ right.now.table.frac_rows) }
{
    for state in 0..left.fracs() {
        if !same_fraction_row(left, right, state) {
            return false;
        }
    }
    true
}

/// Whether all colours are equal.
fn same_colours(left: &Table<Packed>, right: &Table<Packed>) -> bool
    requires left { IsTable left.now.table }
    requires right { IsTable right.now.table }
    requires states { fracs left.now.table ≡ fracs right.now.table }
    ensures { IsTrue result ↔ (left.now.table.colours ≡ right.now.table.colours) }
{
    for state in 0..left.fracs() {
        if left.colour(state) != right.colour(state) {
            return false;
        }
    }
    true
}

/// Whether two tables are equal.
fn same_tables(left: &Table<Packed>, right: &Table<Packed>) -> bool
    requires left { IsTable left.now.table }
    requires right { IsTable right.now.table }
    ensures { IsTrue result ↔ (left.now.table ≡ right.now.table) }
{
    same_shape(left, right)
        && same_roots(left, right)
        && same_rows(left, right)
        && same_outs(left, right)
        && same_fraction_rows(left, right)
        && same_colours(left, right)
}

/// Whether two canonical tables are equal. If they are of one kind, base and number of tracks, they are equal exactly if they accept the
/// same words, or the same lassos.
pub fn same(left: &Canon, right: &Canon) -> bool
    ensures tables { IsTrue result ↔ (left.now.table ≡ right.now.table) }
    ensures words { IsDiagram left.now.table → IsDiagram right.now.table → left.now.table.base ≡ right.now.table.base → left.now.table.tracks ≡ right.now.table.tracks → (IsTrue result ↔ AcceptSameWords left.now.table right.now.table) }
    ensures lassos { 0 < fracs left.now.table → 0 < fracs right.now.table → left.now.table.base ≡ right.now.table.base → left.now.table.tracks ≡ right.now.table.tracks → (IsTrue result ↔ AcceptSameLassos left.now.table right.now.table) }
{
    same_tables(left.table(), right.table())
}
