//! Products of tables with fraction states, in bases 2 and 3. The tables are those of x <= 0, x = 0, x >= 0 and of the whole numbers; the
//! rows, roots and cells of what is made of them come from a program that was written apart from this one.

ghost use Rattle.std.specs.Prelude.{◌≡◌, ◌+◌, ◌*◌, ◌^◌, ◌<◌, ◌≤◌, ℕ, IsTrue, slice_index};
ghost use Rattle.lash_model.specs.Tables.{letters, fracs};
ghost use Rattle.product_ops.specs.FractionPairs.{IsWeakTable};
ghost use Rattle.step_tables.specs.Kept.{wide};

use super::{map_of, roots_are};
use crate::*;
use digit_codes::Base;
use lash_io::Memory;
use packed_cells::Plain;
use std::alloc::Global;
use std::process::Abort;
use std::test::Fail;
use step_tables::{BuildError, Table};

/// The five lists of a table, row by row.
#[derive(Clone, Copy)]
struct Lists<'a> {
    roots: &'a [u32],
    rows: &'a [u32],
    outs: &'a [u32],
    frac_rows: &'a [u32],
    colours: &'a [u32],
}

/// The entry of a list at a state and a letter, or 0 past its end.
fn entry(list: &[u32], letters: u32, state: u32, letter: u32) -> u32 {
    let at = state.wrapping_mul(letters).wrapping_add(letter) as usize;
    if at < list.len() { list[at] } else { 0 }
}

/// Gives a state its output and its targets.
fn set_int_state(rt: &impl Abort, table: &mut Table<Plain>, state: u32, lists: &Lists)
    requires { table.old.bounds ≡ wide }
    ensures { table.new.bounds ≡ wide }
{
    let out = entry(lists.outs, 1, state, 0);
    assert!(rt; state < table.ints() && out < table.fracs());
    table.set_out(state, out);
    let width = table.letters();
    for letter in 0..width {
        let to = entry(lists.rows, width, state, letter);
        assert!(rt; state < table.ints() && letter < table.letters() && to < table.ints());
        table.set_int(state, letter, to);
    }
}

/// Gives a fraction state its colour and its targets.
fn set_frac_state(rt: &impl Abort, table: &mut Table<Plain>, state: u32, lists: &Lists)
    requires { table.old.bounds ≡ wide }
    ensures { table.new.bounds ≡ wide }
{
    assert!(rt; state < table.fracs());
    table.set_colour(state, entry(lists.colours, 1, state, 0) == 1);
    let width = table.letters();
    for letter in 0..width {
        let to = entry(lists.frac_rows, width, state, letter);
        assert!(rt; state < table.fracs() && letter < table.letters() && to < table.fracs());
        table.set_frac(state, letter, to);
    }
}

/// The table of one track that has these lists.
fn table_of(
    rt: &impl Abort,
    alloc: Global,
    base: Base,
    lists: &Lists,
) -> Result<Table<Plain>, Memory> {
    let ints = lists.outs.len();
    let fracs = lists.colours.len();
    assert!(rt; base.radix() <= 3 && 0 < ints && ints < 10 && fracs < 10);
    let mut table = Table::<Plain>::blank(alloc, base, 1, ints as u32, fracs as u32)?;
    for sign in 0..2u32 {
        let root = entry(lists.roots, 1, sign, 0);
        assert!(rt; table.tracks() == 1 && root < table.ints());
        table.set_root(sign, root);
    }
    for state in 0..table.ints() {
        set_int_state(rt, &mut table, state, lists);
    }
    for state in 0..table.fracs() {
        set_frac_state(rt, &mut table, state, lists);
    }
    Ok(table)
}

/// Whether a fraction state leads to no lower one.
fn row_rises(table: &Table<Plain>, state: u32) -> bool
    requires { state < fracs table.now.table }
    ensures { IsTrue result → (l : ℕ) → l < letters table.now.table → state ≤ slice_index table.now.table.frac_rows (state * letters table.now.table + l) }
{
    for letter in 0..table.letters() {
        if table.frac_step(state, letter) < state {
            return false;
        }
    }
    true
}

/// Whether there are fraction states, and none leads to a lower one. Then each part has one state, so the table is weak.
fn is_rising(table: &Table<Plain>) -> bool
    ensures { IsTrue result → IsWeakTable table.now.table }
{
    let _letters = table.letters();
    if table.fracs() == 0 {
        return false;
    }
    for state in 0..table.fracs() {
        if !row_rises(table, state) {
            return false;
        }
    }
    true
}

/// Whether a base has at most 4,096 letters of so many tracks.
fn has_few_letters(base: Base, tracks: u32) -> bool
    ensures { IsTrue result → base ^ tracks ≤ 4096 }
{
    match base.radix().checked_pow(tracks) {
        Some(letters) => letters <= 4096,
        None => false,
    }
}

/// What is made of two tables of one track each.
fn made(
    rt: &impl Abort,
    alloc: Global,
    tables: (&Table<Plain>, &Table<Plain>),
    map: &TrackMap,
    op: Op,
    limit: u64,
) -> Result<Table<Plain>, BuildError> {
    let (left, right) = tables;
    assert!(rt; is_rising(left) && is_rising(right));
    assert!(rt; left.base().radix() == right.base().radix());
    assert!(rt; map.left().len() == left.tracks() as usize);
    assert!(rt; map.right().len() == right.tracks() as usize);
    assert!(rt; has_few_letters(left.base(), map.tracks()) && limit <= 1000);
    product(alloc, left, right, map, op, limit)
}

fn int_states_are(rt: &impl Abort, table: &Table<Plain>, lists: &Lists) {
    assert!(rt; table.ints() as usize == lists.outs.len());
    for state in 0..table.ints() {
        assert!(rt; table.out(state) == entry(lists.outs, 1, state, 0));
        for letter in 0..table.letters() {
            let to = entry(lists.rows, table.letters(), state, letter);
            assert!(rt; table.int_step(state, letter) == to);
        }
    }
}

fn frac_states_are(rt: &impl Abort, table: &Table<Plain>, lists: &Lists) {
    assert!(rt; table.fracs() as usize == lists.colours.len());
    for state in 0..table.fracs() {
        assert!(rt; table.colour(state) == (entry(lists.colours, 1, state, 0) == 1));
        for letter in 0..table.letters() {
            let to = entry(lists.frac_rows, table.letters(), state, letter);
            assert!(rt; table.frac_step(state, letter) == to);
        }
    }
}

/// Two tables of one track each, what is made of them over one track or two, the cells of its first part and of both, and its lists.
#[derive(Clone, Copy)]
struct Case<'a> {
    base: u32,
    left: Lists<'a>,
    right: Lists<'a>,
    tracks: u32,
    op: Op,
    cells: [u64; 2],
    lists: Lists<'a>,
}

/// Whether the product passes a limit of cells.
fn is_heavy(
    rt: &impl Abort,
    alloc: Global,
    tables: (&Table<Plain>, &Table<Plain>),
    map: &TrackMap,
    op: Op,
    limit: u64,
) -> bool {
    match made(rt, alloc, tables, map, op, limit) {
        Ok(_) => false,
        Err(error) => error == BuildError::Heavy,
    }
}

/// The product is heavy at one cell less than its own, at the cells of its first part, and at one less than these.
fn are_heavy(
    rt: &impl Abort,
    alloc: Global,
    tables: (&Table<Plain>, &Table<Plain>),
    map: &TrackMap,
    case: &Case,
) {
    let [first, both] = case.cells;
    assert!(rt; 0 < first && first <= both);
    for limit in [first - 1, first, both - 1] {
        assert!(rt; is_heavy(rt, alloc, tables, map, case.op, limit));
    }
}

/// The product within its own cells has these lists.
fn has_lists(
    rt: &impl Abort,
    alloc: Global,
    tables: (&Table<Plain>, &Table<Plain>),
    map: &TrackMap,
    case: &Case,
) -> Result<(), Fail> {
    let table = made(rt, alloc, tables, map, case.op, case.cells[1])?;
    roots_are(rt, &table, case.lists.roots);
    int_states_are(rt, &table, &case.lists);
    frac_states_are(rt, &table, &case.lists);
    Ok(())
}

fn product_is(
    rt: &impl Abort,
    alloc: Global,
    tables: (&Table<Plain>, &Table<Plain>),
    case: &Case,
) -> Result<(), Fail> {
    assert!(rt; 0 < case.tracks);
    let map = map_of(alloc, case.tracks, 0, case.tracks - 1)?;
    are_heavy(rt, alloc, tables, &map, case);
    has_lists(rt, alloc, tables, &map, case)
}

fn check(rt: &impl Abort, alloc: Global, case: &Case) -> Result<(), Fail> {
    let base = Base::new(case.base).ok_or("2 and 3 are bases")?;
    let left = table_of(rt, alloc, base, &case.left)?;
    let right = table_of(rt, alloc, base, &case.right)?;
    product_is(rt, alloc, (&left, &right), case)
}

/// x <= 0 in base 2.
const AT_MOST: Lists<'static> = Lists {
    roots: &[1, 0],
    rows: &[0, 0, 1, 2, 2, 2],
    outs: &[1, 0, 2],
    frac_rows: &[0, 2, 1, 1, 2, 2],
    colours: &[1, 1, 0],
};

/// x >= 0 in base 2.
const AT_LEAST: Lists<'static> = Lists {
    roots: &[0, 1],
    rows: &[0, 0, 2, 1, 2, 2],
    outs: &[1, 0, 2],
    frac_rows: &[2, 0, 1, 1, 2, 2],
    colours: &[1, 1, 0],
};

/// x = 0 in base 2.
const EQUAL: Lists<'static> = Lists {
    roots: &[2, 1],
    rows: &[0, 0, 0, 1, 2, 3, 3, 3],
    outs: &[2, 1, 0, 2],
    frac_rows: &[0, 2, 2, 1, 2, 2],
    colours: &[1, 1, 0],
};

/// x = 0 in base 3.
const EQUAL_IN_THREE: Lists<'static> = Lists {
    roots: &[2, 1],
    rows: &[0, 0, 0, 0, 0, 1, 2, 3, 3, 3, 3, 3],
    outs: &[2, 1, 0, 2],
    frac_rows: &[0, 2, 2, 2, 2, 1, 2, 2, 2],
    colours: &[1, 1, 0],
};

/// The whole numbers in base 3.
const WHOLE: Lists<'static> = Lists {
    roots: &[0, 0],
    rows: &[0, 0, 0],
    outs: &[0],
    frac_rows: &[1, 3, 2, 1, 3, 3, 3, 3, 2, 3, 3, 3],
    colours: &[1, 1, 1, 0],
};

/// x <= 0 and x >= 0.
const BOTH: Case<'static> = Case {
    base: 2,
    left: AT_MOST,
    right: AT_LEAST,
    tracks: 1,
    op: Op::And,
    cells: [20, 40],
    lists: Lists {
        roots: &[0, 1],
        rows: &[0, 2, 3, 1, 2, 2, 3, 3],
        outs: &[0, 1, 2, 3],
        frac_rows: &[0, 2, 3, 1, 2, 2, 3, 3],
        colours: &[1, 1, 0, 0],
    },
};

/// x <= 0 without x = 0.
const FIRST_ALONE: Case<'static> = Case {
    base: 2,
    left: AT_MOST,
    right: EQUAL,
    tracks: 1,
    op: Op::AndNot,
    cells: [20, 40],
    lists: Lists {
        roots: &[0, 1],
        rows: &[0, 2, 3, 1, 2, 2, 3, 3],
        outs: &[0, 1, 2, 3],
        frac_rows: &[0, 2, 3, 1, 2, 2, 3, 3],
        colours: &[0, 0, 0, 1],
    },
};

/// x <= 0 and y <= 0.
const OF_TWO_TRACKS: Case<'static> = Case {
    base: 2,
    left: AT_MOST,
    right: AT_MOST,
    tracks: 2,
    op: Op::And,
    cells: [63, 126],
    lists: Lists {
        roots: &[0, 1, 2, 3],
        rows: &[
            0, 4, 5, 6, 1, 1, 7, 7, 2, 8, 2, 8, 3, 3, 3, 3, 4, 4, 6, 6, 5, 6, 5, 6, 6, 6, 6, 6, 7,
            7, 7, 7, 8, 8, 8, 8,
        ],
        outs: &[0, 1, 2, 3, 4, 5, 6, 7, 8],
        frac_rows: &[
            0, 4, 5, 6, 1, 1, 7, 7, 2, 8, 2, 8, 3, 3, 3, 3, 4, 4, 6, 6, 5, 6, 5, 6, 6, 6, 6, 6, 7,
            7, 7, 7, 8, 8, 8, 8,
        ],
        colours: &[1, 1, 1, 1, 0, 0, 0, 0, 0],
    },
};

/// x = 0 or x is whole, in base 3: four pairs of integer states, and eight of fraction states.
const EITHER: Case<'static> = Case {
    base: 3,
    left: EQUAL_IN_THREE,
    right: WHOLE,
    tracks: 1,
    op: Op::Or,
    cells: [24, 72],
    lists: Lists {
        roots: &[0, 1],
        rows: &[0, 2, 2, 3, 3, 1, 2, 2, 2, 3, 3, 3],
        outs: &[0, 1, 2, 2],
        frac_rows: &[
            3, 4, 5, 6, 4, 7, 6, 4, 5, 3, 4, 4, 4, 4, 4, 4, 4, 5, 6, 4, 4, 4, 4, 7,
        ],
        colours: &[1, 1, 1, 1, 0, 1, 1, 1],
    },
};

#[test]
fn products_of_weak_tables(rt: HostRuntime) -> Result<(), Fail> {
    for case in [&BOTH, &FIRST_ALONE, &OF_TWO_TRACKS, &EITHER] {
        check(&rt, rt.alloc(), case)?;
    }
    Ok(())
}
