//! Weak tables over one track in base 2, filled row by row, and their canonical tables: `x <= 0` as its atom's table is laid, the whole
//! numbers with the wrong colour at the first state, which is on no loop, and a table of all numbers with every state twice.

ghost use Rattle.std.specs.Prelude.{◌≡◌, IsTrue, IfOk};
ghost use Rattle.lash_model.specs.Tables.{letters};
ghost use Rattle.part_laws.specs.Graphs.{IsWeak};
ghost use Rattle.part_laws.specs.CanonicalMixed.{fraction_graph};
ghost use Rattle.step_tables.specs.Kept.{wide};

use super::*;
use crate::copies::{colours_of, outs_of, roots_of, rows_of};
use components::{frac_rows_of, is_weak, parts_of};
use digit_codes::Base;
use lash_io::Memory;
use packed_cells::{Cells, Plain};
use std::alloc::Global;
use std::process::Abort;
use std::test::Fail;
use step_tables::Table;

/// The lists of a table: two roots, for each integer state its output and its two targets, for each fraction state its colour and its
/// two targets.
#[derive(Drop)]
struct Rows<'a> {
    roots: [u32; 2],
    ints: &'a [[u32; 3]],
    fractions: &'a [[u32; 3]],
}

/// Gives an integer state its output and its two targets.
fn set_int_row(rt: &impl Abort, table: &mut Table<Plain>, state: u32, row: [u32; 3])
    requires { table.old.bounds ≡ wide }
    ensures { table.new.bounds ≡ wide }
{
    let [out, zero, one] = row;
    assert!(rt; table.letters() == 2 && state < table.ints());
    assert!(rt; zero < table.ints() && one < table.ints());
    assert!(rt; 0 < table.fracs() && out < table.fracs());
    table.set_out(state, out);
    table.set_int(state, 0, zero);
    table.set_int(state, 1, one);
}

/// Gives a fraction state its colour and its two targets.
fn set_fraction_row(rt: &impl Abort, table: &mut Table<Plain>, state: u32, row: [u32; 3])
    requires { table.old.bounds ≡ wide }
    ensures { table.new.bounds ≡ wide }
{
    let [colour, zero, one] = row;
    assert!(rt; table.letters() == 2 && state < table.fracs());
    assert!(rt; zero < table.fracs() && one < table.fracs());
    table.set_colour(state, colour == 1);
    table.set_frac(state, 0, zero);
    table.set_frac(state, 1, one);
}

/// The table of these rows.
fn filled(rt: &impl Abort, alloc: Global, two: Base, lists: &Rows) -> Result<Table<Plain>, Memory>
    requires { two ≡ 2 }
{
    let ints = lists.ints.len();
    let fractions = lists.fractions.len();
    assert!(rt; 0 < ints && ints <= 4 && fractions <= 4);
    let mut table = match Table::<Plain>::blank(alloc, two, 1, ints as u32, fractions as u32) {
        Ok(table) => table,
        Err(Memory) => return Err(Memory),
    };
    assert!(rt; table.tracks() == 1);
    assert!(rt; lists.roots[0] < table.ints() && lists.roots[1] < table.ints());
    table.set_root(0, lists.roots[0]);
    table.set_root(1, lists.roots[1]);
    fill_ints(rt, &mut table, lists.ints);
    fill_fractions(rt, &mut table, lists.fractions);
    Ok(table)
}

/// Fills the rows of the integer states.
fn fill_ints(rt: &impl Abort, table: &mut Table<Plain>, rows: &[[u32; 3]])
    requires { table.old.bounds ≡ wide }
    ensures { table.new.bounds ≡ wide }
{
    assert!(rt; rows.len() <= 4);
    for (state, row) in rows.iter().enumerate() {
        set_int_row(rt, table, state as u32, *row);
    }
}

/// Fills the rows of the fraction states.
fn fill_fractions(rt: &impl Abort, table: &mut Table<Plain>, rows: &[[u32; 3]])
    requires { table.old.bounds ≡ wide }
{
    assert!(rt; rows.len() <= 4);
    for (state, row) in rows.iter().enumerate() {
        set_fraction_row(rt, table, state as u32, *row);
    }
}

/// Whether the fraction part is weak.
fn has_weak_part(alloc: Global, table: &Table<Plain>) -> Result<bool, Memory>
    ensures { IfOk result (λ weak. IsTrue weak → IsWeak (letters table.now.table) (fraction_graph table.now.table)) }
{
    let letters = table.letters();
    let rows = match frac_rows_of(alloc, table) {
        Ok(rows) => rows,
        Err(Memory) => return Err(Memory),
    };
    let colours = match colours_of(alloc, table) {
        Ok(colours) => colours,
        Err(Memory) => return Err(Memory),
    };
    let parts = match parts_of(alloc, &rows, letters, table.fracs()) {
        Ok(parts) => parts,
        Err(Memory) => return Err(Memory),
    };
    Ok(is_weak(&colours, &parts))
}

/// The canonical table of these rows.
fn minimal(rt: &impl Abort, alloc: Global, two: Base, lists: &Rows) -> Result<Canon, Memory>
    requires { two ≡ 2 }
{
    let table = match filled(rt, alloc, two, lists) {
        Ok(table) => table,
        Err(Memory) => return Err(Memory),
    };
    let weak = match has_weak_part(alloc, &table) {
        Ok(weak) => weak,
        Err(Memory) => return Err(Memory),
    };
    assert!(rt; weak);
    canonical(alloc, &table)
}

/// The rows of a state are its output or colour and its two targets.
fn check_rows(rt: &impl Abort, firsts: &[u32], targets: &[u32], rows: &[[u32; 3]]) {
    assert!(rt; firsts.len() == rows.len() && targets.len() == 2 * rows.len());
    for (state, row) in rows.iter().enumerate() {
        let [first, zero, one] = *row;
        assert!(rt; state < 4);
        assert_eq!(rt;
            (firsts[state], targets[2 * state], targets[2 * state + 1]),
            (first, zero, one)
        );
    }
}

/// A table has these rows.
fn check_table<C: Cells>(
    rt: &impl Abort,
    alloc: Global,
    table: &Table<C>,
    lists: &Rows,
) -> Result<(), Fail> {
    assert_eq!(rt; table.letters(), 2);
    let roots = roots_of(alloc, table)?;
    assert_eq!(rt; roots.as_slice(), lists.roots.as_slice());
    check_ints(rt, alloc, table, lists.ints)?;
    let colours = colours_of(alloc, table)?;
    let targets = frac_rows_of(alloc, table)?;
    check_rows(rt, &colours, &targets, lists.fractions);
    Ok(())
}

/// The integer states of a table have these rows.
fn check_ints<C: Cells>(
    rt: &impl Abort,
    alloc: Global,
    table: &Table<C>,
    rows: &[[u32; 3]],
) -> Result<(), Fail> {
    let outs = outs_of(alloc, table)?;
    let targets = rows_of(alloc, table)?;
    check_rows(rt, &outs, &targets, rows);
    Ok(())
}

/// The canonical table of the first rows has the second ones, and is its own canonical table.
fn check(
    rt: &impl Abort,
    alloc: Global,
    two: Base,
    given: &Rows,
    expected: &Rows,
) -> Result<(), Fail>
    requires { two ≡ 2 }
{
    let canon = minimal(rt, alloc, two, given)?;
    check_table(rt, alloc, canon.table(), expected)?;
    let again = minimal(rt, alloc, two, expected)?;
    assert!(rt; same(&canon, &again));
    Ok(())
}

/// The inequation as its atom's table is laid.
const INEQUATION: Rows<'static> = Rows {
    roots: [1, 0],
    ints: &[[1, 0, 0], [0, 1, 2], [2, 2, 2]],
    fractions: &[[1, 0, 2], [1, 1, 1], [0, 2, 2]],
};

const LEAST_INEQUATION: Rows<'static> = Rows {
    roots: [0, 1],
    ints: &[[0, 0, 2], [1, 1, 1], [2, 2, 2]],
    fractions: &[[1, 0, 2], [1, 1, 1], [0, 2, 2]],
};

/// The whole numbers with colour no at the first state, which is on no loop.
const WHOLE_NUMBERS: Rows<'static> = Rows {
    roots: [0, 0],
    ints: &[[0, 0, 0]],
    fractions: &[[0, 1, 2], [1, 1, 3], [1, 3, 2], [0, 3, 3]],
};

const LEAST_WHOLE_NUMBERS: Rows<'static> = Rows {
    roots: [0, 0],
    ints: &[[0, 0, 0]],
    fractions: &[[1, 1, 2], [1, 1, 3], [1, 3, 2], [0, 3, 3]],
};

/// All numbers, with each state twice, and colour no at states on no loop.
const ALL_NUMBERS: Rows<'static> = Rows {
    roots: [0, 1],
    ints: &[[0, 0, 1], [1, 1, 0]],
    fractions: &[[0, 2, 3], [0, 3, 2], [1, 2, 2], [1, 3, 3]],
};

const LEAST_ALL_NUMBERS: Rows<'static> = Rows {
    roots: [0, 0],
    ints: &[[0, 0, 0]],
    fractions: &[[1, 0, 0]],
};

#[test]
fn canonical_weak_tables(rt: HostRuntime) -> Result<(), Fail> {
    let alloc = rt.alloc();
    let two = Base::new(2).ok_or("2 is a base")?;
    check(&rt, alloc, two, &INEQUATION, &LEAST_INEQUATION)?;
    check(&rt, alloc, two, &WHOLE_NUMBERS, &LEAST_WHOLE_NUMBERS)?;
    check(&rt, alloc, two, &ALL_NUMBERS, &LEAST_ALL_NUMBERS)
}
