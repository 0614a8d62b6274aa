//! The parts of fixed solutions of small sets of real numbers in base 2: tables as an independent program prints them.

ghost use Rattle.std.specs.Prelude.{◌≡◌, IfOk};
ghost use Rattle.part_laws.specs.CanonicalMixed.{everything};
ghost use Rattle.step_tables.specs.Kept.{wide};

use crate::fractions::fraction_solution;
use crate::scans::first_live;
use crate::stems::least_ending;
use digit_codes::{Base, Lasso};
use lash_io::Memory;
use packed_cells::{Packed, Plain};
use part_laws::some_table_is_canonical;
use std::alloc::Global;
use std::process::Abort;
use std::test::Fail;
use step_tables::{Table, pack};

/// A row: an output or a colour, and the targets by the two letters.
type Row = [u32; 3];

/// Gives an integer state its output and its targets.
fn set_int_row(rt: &impl Abort, table: &mut Table<Plain>, state: u32, row: Row)
    requires { table.old.bounds ≡ wide }
    ensures { table.new.bounds ≡ wide }
{
    assert!(rt; table.letters() == 2 && table.fracs() > 0 && state < table.ints());
    assert!(rt; row[0] < table.fracs() && row[1] < table.ints() && row[2] < table.ints());
    table.set_out(state, row[0]);
    table.set_int(state, 0, row[1]);
    table.set_int(state, 1, row[2]);
}

/// Gives a fraction state its colour and its targets.
fn set_frac_row(rt: &impl Abort, table: &mut Table<Plain>, state: u32, row: Row)
    requires { table.old.bounds ≡ wide }
    ensures { table.new.bounds ≡ wide }
{
    assert!(rt; table.letters() == 2 && state < table.fracs());
    assert!(rt; row[1] < table.fracs() && row[2] < table.fracs());
    table.set_colour(state, row[0] == 1);
    table.set_frac(state, 0, row[1]);
    table.set_frac(state, 1, row[2]);
}

/// A table with those rows, and a root for the negative numbers.
fn filled(
    rt: &impl Abort,
    alloc: Global,
    two: Base,
    root: u32,
    ints: &[Row],
    fracs: &[Row],
) -> Result<Table<Packed>, Memory>
    requires { two ≡ 2 }
{
    assert!(rt; ints.len() > 0 && ints.len() < 10 && fracs.len() > 0 && fracs.len() < 10);
    let mut table = match Table::<Plain>::blank(
        alloc,
        two,
        1,
        ints.len() as u32,
        fracs.len() as u32,
    ) {
        Ok(table) => table,
        Err(Memory) => return Err(Memory),
    };
    assert!(rt; root < table.ints());
    table.set_root(1, root);
    let mut state = 0u32;
    for row in ints {
        set_int_row(rt, &mut table, state, *row);
        state = state.wrapping_add(1);
    }
    state = 0;
    for row in fracs {
        set_frac_row(rt, &mut table, state, *row);
        state = state.wrapping_add(1);
    }
    pack(alloc, &table)
}

/// The least stem and cycle from a fraction state.
fn check_ending(
    rt: &impl Abort,
    alloc: Global,
    table: &Table<Packed>,
    out: u32,
    stem: &[u32],
    cycle: &[u32],
) -> Result<(), Fail> {
    assert!(rt; out < table.fracs());
    match least_ending(alloc, table, out)? {
        Some(ending) => {
            assert_eq!(rt; ending.stem.as_slice(), stem);
            assert_eq!(rt; ending.cycle.as_slice(), cycle);
        }
        None => assert!(rt; false, "something is accepted"),
    }
    Ok(())
}

/// The first integer state with a solution, and what the solution ends with.
fn check_live(
    rt: &impl Abort,
    alloc: Global,
    table: &Table<Packed>,
    live: u32,
    stem: &[u32],
    cycle: &[u32],
) -> Result<(), Fail> {
    assert!(rt; table.fracs() > 0);
    match first_live(table) {
        Some(state) => {
            assert_eq!(rt; state, live);
            check_ending(rt, alloc, table, table.out(state), stem, cycle)
        }
        None => Err(Fail::from("something is accepted")),
    }
}

// 0 < x < 1 has 1/4, and 0 < 2 x < 1 has 1/8.
fn check_between(rt: &impl Abort, alloc: Global, two: Base) -> Result<(), Fail>
    requires { two ≡ 2 }
{
    let ints = [[0, 0, 1], [1, 1, 1]];
    let fracs = [[0, 2, 3], [0, 1, 1], [0, 2, 4], [0, 4, 3], [1, 4, 4]];
    let table = filled(rt, alloc, two, 1, &ints, &fracs)?;
    check_live(rt, alloc, &table, 0, &[0, 1], &[0])?;
    let fracs = [
        [0, 2, 1],
        [0, 1, 1],
        [0, 3, 4],
        [0, 3, 5],
        [0, 5, 4],
        [1, 5, 5],
    ];
    let table = filled(rt, alloc, two, 1, &ints, &fracs)?;
    check_live(rt, alloc, &table, 0, &[0, 0, 1], &[0])
}

// 3 x = 1 or x = 6 has 1/3, whose cycle has two letters.
fn check_third(rt: &impl Abort, alloc: Global, two: Base) -> Result<(), Fail>
    requires { two ≡ 2 }
{
    let ints = [
        [0, 0, 2],
        [1, 1, 1],
        [1, 3, 4],
        [1, 1, 5],
        [1, 6, 1],
        [2, 1, 1],
        [3, 1, 1],
    ];
    let fracs = [[1, 4, 1], [0, 1, 1], [1, 1, 2], [1, 3, 1], [1, 1, 0]];
    let table = filled(rt, alloc, two, 1, &ints, &fracs)?;
    check_live(rt, alloc, &table, 0, &[], &[0, 1])
}

// 3 x = -20 has a solution at its fifth integer state.
fn check_negative(rt: &impl Abort, alloc: Global, two: Base) -> Result<(), Fail>
    requires { two ≡ 2 }
{
    let ints = [[0, 0, 0], [0, 2, 1], [0, 3, 0], [0, 0, 4], [1, 0, 0]];
    let fracs = [[0, 0, 0], [1, 2, 0], [1, 0, 1]];
    let table = filled(rt, alloc, two, 1, &ints, &fracs)?;
    check_live(rt, alloc, &table, 4, &[], &[0, 1])
}

// 0 < x < 0 has none.
fn check_empty(rt: &impl Abort, alloc: Global, two: Base) -> Result<(), Fail>
    requires { two ≡ 2 }
{
    let table = filled(rt, alloc, two, 0, &[[0, 0, 0]], &[[0, 0, 0]])?;
    assert!(rt; table.fracs() > 0);
    assert!(rt; first_live(&table).is_none());
    Ok(())
}

/// The table with no tracks that accepts all.
fn all(alloc: Global, two: Base) -> Result<Table<Packed>, Memory>
    requires { two ≡ 2 }
    ensures { IfOk result (λ k. k.table ≡ everything) }
{
    let mut table = match Table::<Plain>::blank(alloc, two, 0, 1, 1) {
        Ok(table) => table,
        Err(Memory) => return Err(Memory),
    };
    table.set_colour(0, true);
    match pack(alloc, &table) {
        Ok(table) => Ok(table),
        Err(Memory) => Err(Memory),
    }
}

fn check_all(rt: &impl Abort, alloc: Global, two: Base) -> Result<(), Fail>
    requires { two ≡ 2 }
{
    some_table_is_canonical();
    let table = all(alloc, two)?;
    match fraction_solution(alloc, &table)? {
        Some(lasso) => check_letters(rt, &lasso),
        None => assert!(rt; false, "all are accepted"),
    }
    Ok(())
}

fn check_letters(rt: &impl Abort, lasso: &Lasso) {
    assert_eq!(rt; lasso.sign, 0);
    assert!(rt; lasso.whole.letters().is_empty());
    assert!(rt; lasso.stem.letters().is_empty());
    assert_eq!(rt; lasso.cycle.letters(), [0].as_slice());
}

#[test]
fn fraction_parts(rt: HostRuntime) -> Result<(), Fail> {
    let alloc = rt.alloc();
    let two = Base::new(2).ok_or("2 is a base")?;
    check_between(&rt, alloc, two)?;
    check_third(&rt, alloc, two)?;
    check_negative(&rt, alloc, two)?;
    check_empty(&rt, alloc, two)?;
    check_all(&rt, alloc, two)
}
