//! The diagrams of x <= 3 and x >= 0, numbered by their least paths, and what is made of them.

ghost use Rattle.std.specs.Prelude.{◌≡◌, ◌<◌, IsTrue, IfOk};
ghost use Rattle.lash_model.specs.Tables.{IsDiagram};
ghost use Rattle.step_tables.specs.Kept.{wide};
ghost use Rattle.product_ops.specs.Tracks.{AreTracks};

mod weak;

use super::*;
use digit_codes::Base;
use lash_io::Memory;
use packed_cells::Plain;
use std::alloc::Global;
use std::process::Abort;
use std::test::Fail;
use step_tables::{BuildError, Table};

/// Gives a state its output and its two targets.
fn set_row(rt: &impl Abort, table: &mut Table<Plain>, state: u32, row: [u32; 3])
    requires cells { table.old.bounds ≡ wide }
    ensures cells { table.new.bounds ≡ wide }
{
    let [out, zero, one] = row;
    assert!(rt; table.letters() == 2 && state < table.ints());
    assert!(rt; zero < table.ints() && one < table.ints());
    assert!(rt; out < 2 && table.fracs() == 0);
    table.set_out(state, out);
    table.set_int(state, 0, zero);
    table.set_int(state, 1, one);
}

/// The diagram of x <= 3.
fn at_most_three(rt: &impl Abort, alloc: Global, two: Base) -> Result<Table<Plain>, Memory>
    requires { two ≡ 2 }
{
    let mut table = Table::<Plain>::blank(alloc, two, 1, 5, 0)?;
    table.set_root(1, 1);
    set_row(rt, &mut table, 0, [1, 0, 2]);
    set_row(rt, &mut table, 1, [1, 1, 1]);
    set_row(rt, &mut table, 2, [1, 3, 3]);
    set_row(rt, &mut table, 3, [1, 4, 4]);
    set_row(rt, &mut table, 4, [0, 4, 4]);
    Ok(table)
}

/// The diagram of x >= 0.
fn not_negative(rt: &impl Abort, alloc: Global, two: Base) -> Result<Table<Plain>, Memory>
    requires { two ≡ 2 }
{
    let mut table = Table::<Plain>::blank(alloc, two, 1, 2, 0)?;
    table.set_root(1, 1);
    set_row(rt, &mut table, 0, [1, 0, 0]);
    set_row(rt, &mut table, 1, [0, 1, 1]);
    Ok(table)
}

fn outs_are(rt: &impl Abort, table: &Table<Plain>, outs: &[u32]) {
    assert!(rt; table.ints() as usize == outs.len());
    for state in 0..table.ints() {
        assert_eq!(rt; table.out(state), outs[state as usize]);
    }
}

fn row_is(rt: &impl Abort, table: &Table<Plain>, state: u32, row: &[u32]) {
    assert!(rt; state < table.ints() && table.letters() as usize == row.len());
    for letter in 0..table.letters() {
        assert_eq!(rt; table.int_step(state, letter), row[letter as usize]);
    }
}

fn roots_are(rt: &impl Abort, table: &Table<Plain>, roots: &[u32]) {
    assert!(rt; table.tracks() <= 2 && 2usize.pow(table.tracks()) == roots.len());
    for sign in 0..2u32.pow(table.tracks()) {
        assert_eq!(rt; table.root(sign), roots[sign as usize]);
    }
}

/// The list of one track.
fn one_place(alloc: Global, tracks: u32, place: u32) -> Result<Vec<u32>, Memory>
    requires { place < tracks }
    ensures places { IfOk result (λ v. AreTracks tracks v.items) }
{
    match Vec::from_slice(alloc, &[place]) {
        Ok(places) => Ok(places),
        Err(_) => Err(Memory),
    }
}

/// A map of operands of one track each.
fn map_of(alloc: Global, tracks: u32, left: u32, right: u32) -> Result<TrackMap, Memory>
    requires left { left < tracks }
    requires right { right < tracks }
{
    let first = one_place(alloc, tracks, left)?;
    match one_place(alloc, tracks, right) {
        Ok(second) => Ok(TrackMap::new(tracks, first, second)),
        Err(Memory) => Err(Memory),
    }
}

/// Whether a diagram is over one track in base 2.
fn is_simple(table: &Table<Plain>) -> bool
    ensures { IsTrue result → (table.now.table.base ≡ 2) × (table.now.table.tracks ≡ 1) × IsDiagram table.now.table }
{
    table.base().radix() == 2 && table.tracks() == 1 && table.fracs() == 0
}

/// What is made of two diagrams of one track each.
fn made(
    rt: &impl Abort,
    alloc: Global,
    tables: (&Table<Plain>, &Table<Plain>),
    map: &TrackMap,
    op: Op,
    limit: u64,
) -> Result<Table<Plain>, BuildError> {
    let (left, right) = tables;
    assert!(rt; is_simple(left) && is_simple(right));
    assert!(rt; map.left().len() == 1 && map.right().len() == 1);
    assert!(rt; map.tracks() <= 2 && limit <= 70);
    product(alloc, left, right, map, op, limit)
}

// Of five pairs: the outputs.
fn outs_by(
    rt: &impl Abort,
    alloc: Global,
    tables: (&Table<Plain>, &Table<Plain>),
    map: &TrackMap,
    op: Op,
    outs: &[u32],
) -> Result<(), Fail> {
    let table = made(rt, alloc, tables, map, op, 25)?;
    outs_are(rt, &table, outs);
    Ok(())
}

// The roots and two rows.
fn five_pairs(
    rt: &impl Abort,
    alloc: Global,
    tables: (&Table<Plain>, &Table<Plain>),
    map: &TrackMap,
) -> Result<(), Fail> {
    let table = made(rt, alloc, tables, map, Op::And, 25)?;
    roots_are(rt, &table, &[0, 1]);
    row_is(rt, &table, 0, &[0, 2]);
    row_is(rt, &table, 2, &[3, 3]);
    Ok(())
}

// Five pairs have 25 cells: at one cell less there is no table.
fn too_heavy(
    rt: &impl Abort,
    alloc: Global,
    tables: (&Table<Plain>, &Table<Plain>),
    map: &TrackMap,
) {
    match made(rt, alloc, tables, map, Op::And, 24) {
        Ok(_) => assert!(rt; false, "25 cells pass the limit 24"),
        Err(error) => assert_eq!(rt; error, BuildError::Heavy),
    }
}

// The sets of x <= 3 and x >= 0, of x <= 3 or x >= 0, and of x <= 3 without x >= 0.
fn one_track(
    rt: &impl Abort,
    alloc: Global,
    tables: (&Table<Plain>, &Table<Plain>),
    map: &TrackMap,
) -> Result<(), Fail> {
    five_pairs(rt, alloc, tables, map)?;
    outs_by(rt, alloc, tables, map, Op::And, &[1, 0, 1, 1, 0])?;
    outs_by(rt, alloc, tables, map, Op::Or, &[1, 1, 1, 1, 1])?;
    outs_by(rt, alloc, tables, map, Op::AndNot, &[0, 1, 0, 0, 0])?;
    too_heavy(rt, alloc, tables, map);
    Ok(())
}

// The set of x >= 0 and y <= 3: ten pairs of 70 cells.
fn two_tracks(
    rt: &impl Abort,
    alloc: Global,
    tables: (&Table<Plain>, &Table<Plain>),
    map: &TrackMap,
) -> Result<(), Fail> {
    let both = made(rt, alloc, tables, map, Op::And, 70)?;
    roots_are(rt, &both, &[0, 1, 2, 3]);
    outs_are(rt, &both, &[1, 1, 0, 0, 1, 0, 1, 0, 0, 0]);
    row_is(rt, &both, 0, &[0, 4, 0, 4]);
    row_is(rt, &both, 2, &[2, 5, 2, 5]);
    row_is(rt, &both, 4, &[6, 6, 6, 6]);
    Ok(())
}

fn products(
    rt: &impl Abort,
    alloc: Global,
    left: &Table<Plain>,
    right: &Table<Plain>,
) -> Result<(), Fail> {
    let one = map_of(alloc, 1, 0, 0)?;
    one_track(rt, alloc, (left, right), &one)?;
    let two = map_of(alloc, 2, 0, 1)?;
    two_tracks(rt, alloc, (right, left), &two)
}

// The set of not x <= 3.
fn others(rt: &impl Abort, table: &mut Table<Plain>) {
    assert!(rt; is_simple(table));
    complement(table);
    outs_are(rt, table, &[0, 0, 0, 0, 1]);
    roots_are(rt, table, &[0, 1]);
    row_is(rt, table, 0, &[0, 2]);
}

#[test]
fn truth_functions(rt: HostRuntime) -> Result<(), Fail> {
    let alloc = rt.alloc();
    let two = Base::new(2).ok_or("2 is a base")?;
    let mut left = at_most_three(&rt, alloc, two)?;
    let right = not_negative(&rt, alloc, two)?;
    products(&rt, alloc, &left, &right)?;
    others(&rt, &mut left);
    Ok(())
}
