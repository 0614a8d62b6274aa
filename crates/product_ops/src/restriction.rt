//! The whole numbers of a table with fraction states, as a diagram (own): an integer state's output is the colour after zeros alone after
//! the point. Where zeros lead is found by doubling: two steps of n zeros are one of 2n. Costs one pass over the fraction states for each
//! doubling up to their number, and one access for each integer entry.

ghost use Rattle.std.specs.Prelude.{◌≡◌, ◌+◌, ◌*◌, ◌^◌, ◌<◌, ◌≤◌, ℕ, ℤ, [], ◌∷◌, List, length, All, slice_index, IfOk};
ghost use Rattle.lash_model.specs.Formulas.{Formula};
ghost use Rattle.lash_model.specs.Lassos.{Lasso};
ghost use Rattle.lash_model.specs.Sets.{set_of, KeepsScale};
ghost use Rattle.lash_model.specs.Standing.{StandsForWhole, StandsForMixed};
ghost use Rattle.lash_model.specs.Tables.{IsTable, IsDiagram, letters, ints, fracs};
ghost use Rattle.part_laws.specs.Graphs.{IsWeak};
ghost use Rattle.part_laws.specs.CanonicalMixed.{fraction_graph};
ghost use Rattle.step_tables.specs.Kept.{plain};
ghost use Rattle.product_ops.specs.Restriction.{colour_of_zeros, restricted, AcceptsWholes, IsAfterZeros, AreEnds, filled};

use lash_io::Memory;
use packed_cells::{Cells, Plain};
use std::alloc::Global;
use step_tables::Table;

/// The fraction states after one digit of 0.
fn after_one_zero<C: Cells>(alloc: Global, table: &Table<C>) -> Result<Vec<u32>, Memory>
    requires { 0 < fracs table.now.table }
    ensures count { IfOk result (λ v. length v.items ≡ fracs table.now.table) }
    ensures ends { IfOk result (λ v. AreEnds table.now.table.frac_rows (letters table.now.table) 1 v.items) }
{
    let _letters = table.letters();
    let mut ends = Vec::new(alloc);
    for state in 0..table.fracs() {
        match ends.push(table.frac_step(state, 0)) {
            Ok(()) => {}
            Err(_) => return Err(Memory),
        }
    }
    Ok(ends)
}

/// Goes on from each state by what its end goes on by: at least twice as many zeros.
fn double(ends: &mut [u32])
    requires { All (λ q. q < length ends.old) ends.old }
    ensures count { length ends.new ≡ length ends.old }
    ensures ends { (rows : List ℕ) (width least : ℕ) → AreEnds rows width least ends.old → AreEnds rows width (2 * least) ends.new }
{
    for state in 0..ends.len() {
        ends[state] = ends[ends[state] as usize];
    }
}

/// For each fraction state one after at least as many digits of 0 as there are fraction states.
fn ends_of_zeros<C: Cells>(alloc: Global, table: &Table<C>) -> Result<Vec<u32>, Memory>
    requires { 0 < fracs table.now.table }
    ensures count { IfOk result (λ v. length v.items ≡ fracs table.now.table) }
    ensures ends { IfOk result (λ v. AreEnds table.now.table.frac_rows (letters table.now.table) (fracs table.now.table) v.items) }
{
    let _letters = table.letters();
    let mut ends = after_one_zero(alloc, table)?;
    let mut zeros = 1;
    while zeros < table.fracs() {
        double(ends.as_mut_slice());
        zeros *= 2;
    }
    Ok(ends)
}

/// Copies the roots.
fn copy_roots<C: Cells>(source: &Table<C>, table: &mut Table<Plain>)
    requires start { table.old ≡ plain (filled (restricted source.now.table) 0 0 0) }
    ensures copied { table.new ≡ plain (filled (restricted source.now.table) (2 ^ source.now.table.tracks) 0 0) }
{
    let _letters = source.letters();
    for sign in 0..2u32.pow(source.tracks()) {
        table.set_root(sign, source.root(sign));
    }
}

/// Copies the row of an integer state.
fn copy_row<C: Cells>(source: &Table<C>, table: &mut Table<Plain>, state: u32)
    requires state { state < ints source.now.table }
    requires start { table.old ≡ plain (filled (restricted source.now.table) (2 ^ source.now.table.tracks) (state * letters source.now.table) 0) }
    ensures copied { table.new ≡ plain (filled (restricted source.now.table) (2 ^ source.now.table.tracks) ((state + 1) * letters source.now.table) 0) }
{
    for letter in 0..source.letters() {
        table.set_int(state, letter, source.int_step(state, letter));
    }
}

/// Copies the rows of the integer states.
fn copy_rows<C: Cells>(source: &Table<C>, table: &mut Table<Plain>)
    requires start { table.old ≡ plain (filled (restricted source.now.table) (2 ^ source.now.table.tracks) 0 0) }
    ensures copied { table.new ≡ plain (filled (restricted source.now.table) (2 ^ source.now.table.tracks)
        (ints source.now.table * letters source.now.table) 0) }
{
    for state in 0..source.ints() {
        copy_row(source, table, state);
    }
}

/// The answer of an integer state: the colour at the end of the zeros from its output.
fn answer<C: Cells>(source: &Table<C>, ends: &[u32], state: u32) -> u32
    requires state { state < ints source.now.table }
    requires fractions { 0 < fracs source.now.table }
    requires weak { IsWeak (letters source.now.table) (fraction_graph source.now.table) }
    requires count { length ends.now ≡ fracs source.now.table }
    requires ends { AreEnds source.now.table.frac_rows (letters source.now.table) (fracs source.now.table) ends.now }
    ensures value { result ≡ colour_of_zeros source.now.table (slice_index source.now.table.outs state) }
    ensures bit { result < 2 }
{
    let _letters = source.letters();
    let end = ends[source.out(state) as usize];
    if source.colour(end) { 1 } else { 0 }
}

/// Fills the outputs.
fn fill_outs<C: Cells>(source: &Table<C>, ends: &[u32], table: &mut Table<Plain>)
    requires fractions { 0 < fracs source.now.table }
    requires weak { IsWeak (letters source.now.table) (fraction_graph source.now.table) }
    requires count { length ends.now ≡ fracs source.now.table }
    requires ends { AreEnds source.now.table.frac_rows (letters source.now.table) (fracs source.now.table) ends.now }
    requires start { table.old ≡ plain (filled (restricted source.now.table) (2 ^ source.now.table.tracks)
        (ints source.now.table * letters source.now.table) 0) }
    ensures restricted { table.new ≡ plain (restricted source.now.table) }
{
    let _letters = source.letters();
    for state in 0..source.ints() {
        table.set_out(state, answer(source, ends, state));
    }
}

/// The diagram of the whole numbers of a weak table with fraction states. It has the table's roots and rows, and accepts a word exactly
/// if the table accepts the word followed by the point and zeros, so it stands for the same set. Out of memory is the only error.
pub fn restrict_to_ints<C: Cells>(alloc: Global, table: &Table<C>) -> Result<Table<Plain>, Memory>
    requires fractions { 0 < fracs table.now.table }
    requires weak { IsWeak (letters table.now.table) (fraction_graph table.now.table) }
    ensures restricted { IfOk result (λ t. t ≡ plain (restricted table.now.table)) }
    ensures table { IfOk result (λ t. IsTable t.table) }
    ensures diagram { IfOk result (λ t. IsDiagram t.table) }
    ensures base { IfOk result (λ t. t.table.base ≡ table.now.table.base) }
    ensures tracks { IfOk result (λ t. t.table.tracks ≡ table.now.table.tracks) }
    ensures words { IfOk result (λ t. AcceptsWholes table.now.table t.table) }
    ensures stands { IfOk result (λ t. (f : Formula) (s : List ℤ → List ℤ) → KeepsScale s → StandsForMixed table.now.table (set_of f s)
        → StandsForWhole t.table (set_of f s)) }
{
    let _letters = table.letters();
    let ends = ends_of_zeros(alloc, table)?;
    let mut whole = Table::blank(alloc, table.base(), table.tracks(), table.ints(), 0)?;
    copy_roots(table, &mut whole);
    copy_rows(table, &mut whole);
    fill_outs(table, ends.as_slice(), &mut whole);
    let _whole_letters = whole.letters();
    Ok(whole)
}
