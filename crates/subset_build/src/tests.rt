//! Projections of the canonical diagrams of small sets in base 2.

ghost use Rattle.std.specs.Prelude.{◌≡◌, IsTrue, IfOk};
ghost use Rattle.lash_model.specs.Tables.{IsDiagram};
ghost use Rattle.step_tables.specs.Kept.{wide};

use super::*;
use digit_codes::Base;
use lash_io::Memory;
use packed_cells::Plain;
use std::alloc::Global;
use std::process::Abort;
use std::test::Fail;
use step_tables::{BuildError, Table};

/// Gives a diagram its roots.
fn set_roots(rt: &impl Abort, table: &mut Table<Plain>, roots: &[u32])
    requires cells { table.old.bounds ≡ wide }
    ensures cells { table.new.bounds ≡ wide }
{
    assert!(rt; roots.len() <= 4);
    for sign in 0..roots.len() as u32 {
        let root = roots[sign as usize];
        assert!(rt; table.tracks() <= 2 && sign < 2u32.pow(table.tracks()));
        assert!(rt; root < table.ints());
        table.set_root(sign, root);
    }
}

/// Gives the states of a diagram their targets, one row behind another.
fn set_rows(rt: &impl Abort, table: &mut Table<Plain>, rows: &[u32])
    requires cells { table.old.bounds ≡ wide }
    ensures cells { table.new.bounds ≡ wide }
{
    assert!(rt; rows.len() <= 36);
    for place in 0..rows.len() as u32 {
        let letters = table.letters();
        let to = rows[place as usize];
        assert!(rt; letters > 0 && place / letters < table.ints());
        assert!(rt; place % letters < table.letters() && to < table.ints());
        table.set_int(place / letters, place % letters, to);
    }
}

/// Gives the states of a diagram their outputs.
fn set_outs(rt: &impl Abort, table: &mut Table<Plain>, outs: &[u32])
    requires cells { table.old.bounds ≡ wide }
    ensures cells { table.new.bounds ≡ wide }
{
    assert!(rt; outs.len() <= 9);
    for state in 0..outs.len() as u32 {
        let out = outs[state as usize];
        assert!(rt; state < table.ints() && out < 2);
        assert!(rt; table.fracs() == 0);
        table.set_out(state, out);
    }
}

/// The diagram of x = y.
fn equal(rt: &impl Abort, alloc: Global, two: Base) -> Result<Table<Plain>, Memory>
    requires { two ≡ 2 }
{
    let mut table = match Table::<Plain>::blank(alloc, two, 2, 2, 0) {
        Ok(table) => table,
        Err(Memory) => return Err(Memory),
    };
    set_roots(rt, &mut table, &[0, 1, 1, 0]);
    set_rows(rt, &mut table, &[0, 1, 1, 0, 1, 1, 1, 1]);
    set_outs(rt, &mut table, &[1, 0]);
    Ok(table)
}

/// The diagram of x = 2y.
fn twice(rt: &impl Abort, alloc: Global, two: Base) -> Result<Table<Plain>, Memory>
    requires { two ≡ 2 }
{
    let mut table = match Table::<Plain>::blank(alloc, two, 2, 3, 0) {
        Ok(table) => table,
        Err(Memory) => return Err(Memory),
    };
    set_roots(rt, &mut table, &[0, 1, 1, 2]);
    set_rows(rt, &mut table, &[0, 1, 2, 1, 1, 1, 1, 1, 1, 0, 1, 2]);
    set_outs(rt, &mut table, &[1, 0, 0]);
    Ok(table)
}

/// The rows of the diagram of y = 4x and y >= 8.
const FOUR_TIMES: [u32; 36] = [
    0, 2, 1, 1, 1, 1, 1, 1, 3, 4, 1, 1, 1, 1, 5, 6, 1, 1, 7, 4, 8, 6, 1, 1, 7, 4, 1, 1, 1, 1, 8, 6,
    8, 6, 1, 1,
];

/// The diagram of y = 4x and y >= 8.
fn four_times(rt: &impl Abort, alloc: Global, two: Base) -> Result<Table<Plain>, Memory>
    requires { two ≡ 2 }
{
    let mut table = match Table::<Plain>::blank(alloc, two, 2, 9, 0) {
        Ok(table) => table,
        Err(Memory) => return Err(Memory),
    };
    set_roots(rt, &mut table, &[0, 1, 1, 1]);
    set_rows(rt, &mut table, &FOUR_TIMES);
    set_outs(rt, &mut table, &[0, 0, 0, 0, 0, 0, 0, 0, 1]);
    Ok(table)
}

/// The diagram of x <= 3.
fn at_most_three(rt: &impl Abort, alloc: Global, two: Base) -> Result<Table<Plain>, Memory>
    requires { two ≡ 2 }
{
    let mut table = match Table::<Plain>::blank(alloc, two, 1, 5, 0) {
        Ok(table) => table,
        Err(Memory) => return Err(Memory),
    };
    set_roots(rt, &mut table, &[0, 1]);
    set_rows(rt, &mut table, &[0, 2, 1, 1, 3, 3, 4, 4, 4, 4]);
    set_outs(rt, &mut table, &[1, 1, 1, 1, 0]);
    Ok(table)
}

/// Whether a table is a diagram.
fn is_diagram(table: &Table<Plain>) -> bool
    ensures { IsTrue result → IsDiagram table.now.table }
{
    table.fracs() == 0
}

/// The diagram without a track.
fn without(
    rt: &impl Abort,
    alloc: Global,
    table: &Table<Plain>,
    track: u32,
    limit: u64,
) -> Result<Table<Plain>, BuildError> {
    assert!(rt; is_diagram(table));
    assert!(rt; track < table.tracks() && limit <= 28);
    project_int(alloc, table, track, limit)
}

fn outs_are(rt: &impl Abort, table: &Table<Plain>, outs: &[u32]) {
    assert!(rt; table.ints() as usize == outs.len());
    for state in 0..table.ints() {
        assert_eq!(rt; table.out(state), outs[state as usize]);
    }
}

fn row_is(rt: &impl Abort, table: &Table<Plain>, state: u32, row: &[u32]) {
    assert!(rt; state < table.ints() && table.letters() as usize == row.len());
    for letter in 0..table.letters() {
        assert_eq!(rt; table.int_step(state, letter), row[letter as usize]);
    }
}

fn roots_are(rt: &impl Abort, table: &Table<Plain>, roots: &[u32]) {
    assert!(rt; table.tracks() <= 2 && 2usize.pow(table.tracks()) == roots.len());
    for sign in 0..2u32.pow(table.tracks()) {
        assert_eq!(rt; table.root(sign), roots[sign as usize]);
    }
}

/// The start sets of two sign vectors.
fn starts_are(
    rt: &impl Abort,
    alloc: Global,
    table: &Table<Plain>,
    track: u32,
    sets: [&[u32]; 2],
) -> Result<(), Memory> {
    let [positive, negative] = sets;
    assert!(rt; track < table.tracks());
    let starts = match sign_closure(alloc, table, track) {
        Ok(starts) => starts,
        Err(Memory) => return Err(Memory),
    };
    assert!(rt; starts.len() == 2);
    assert_eq!(rt; starts.set(0), positive);
    assert_eq!(rt; starts.set(1), negative);
    Ok(())
}

// No table comes within the limit.
fn too_heavy(rt: &impl Abort, alloc: Global, table: &Table<Plain>, track: u32, limit: u64) {
    match without(rt, alloc, table, track, limit) {
        Ok(_) => assert!(rt; false, "the limit is passed"),
        Err(error) => assert_eq!(rt; error, BuildError::Heavy),
    }
}

// For each x there is a y with x = y: one set of two states, whose cells are 5.
fn forget_equal(rt: &impl Abort, alloc: Global, two: Base) -> Result<(), Fail>
    requires { two ≡ 2 }
{
    let table = equal(rt, alloc, two)?;
    starts_are(rt, alloc, &table, 1, [&[0, 1], &[0, 1]])?;
    let made = without(rt, alloc, &table, 1, 5)?;
    roots_are(rt, &made, &[0, 0]);
    outs_are(rt, &made, &[1]);
    row_is(rt, &made, 0, &[0, 0]);
    too_heavy(rt, alloc, &table, 1, 4);
    Ok(())
}

// The even numbers x, and then all numbers y.
fn forget_twice(rt: &impl Abort, alloc: Global, two: Base) -> Result<(), Fail>
    requires { two ≡ 2 }
{
    let table = twice(rt, alloc, two)?;
    starts_are(rt, alloc, &table, 1, [&[0, 1], &[1, 2]])?;
    let even = without(rt, alloc, &table, 1, 10)?;
    roots_are(rt, &even, &[0, 1]);
    outs_are(rt, &even, &[1, 0]);
    row_is(rt, &even, 1, &[0, 1]);
    too_heavy(rt, alloc, &table, 1, 9);
    starts_are(rt, alloc, &table, 0, [&[0, 1, 2], &[0, 1, 2]])?;
    let all = without(rt, alloc, &table, 0, 6)?;
    outs_are(rt, &all, &[1]);
    Ok(())
}

// The numbers x from 2 on: the words of y are longer than those of x.
fn forget_four_times(rt: &impl Abort, alloc: Global, two: Base) -> Result<(), Fail>
    requires { two ≡ 2 }
{
    let table = four_times(rt, alloc, two)?;
    starts_are(rt, alloc, &table, 1, [&[0, 1, 2, 3, 4], &[1]])?;
    let made = without(rt, alloc, &table, 1, 28)?;
    roots_are(rt, &made, &[0, 1]);
    outs_are(rt, &made, &[0, 0, 0, 1]);
    row_is(rt, &made, 0, &[0, 2]);
    row_is(rt, &made, 2, &[3, 3]);
    too_heavy(rt, alloc, &table, 1, 27);
    Ok(())
}

// Some x is at most 3: no track is kept.
fn forget_all(rt: &impl Abort, alloc: Global, two: Base) -> Result<(), Fail>
    requires { two ≡ 2 }
{
    let table = at_most_three(rt, alloc, two)?;
    let made = without(rt, alloc, &table, 0, 7)?;
    roots_are(rt, &made, &[0]);
    outs_are(rt, &made, &[1]);
    row_is(rt, &made, 0, &[0]);
    too_heavy(rt, alloc, &table, 0, 6);
    Ok(())
}

#[test]
fn projections(rt: HostRuntime) -> Result<(), Fail> {
    let alloc = rt.alloc();
    let two = Base::new(2).ok_or("2 is a base")?;
    forget_equal(&rt, alloc, two)?;
    forget_twice(&rt, alloc, two)?;
    forget_four_times(&rt, alloc, two)?;
    forget_all(&rt, alloc, two)?;
    Ok(())
}
