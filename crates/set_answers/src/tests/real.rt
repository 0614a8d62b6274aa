//! Answers about small sets of real numbers in base 2: 4*x = 1, 2*x <= 1, and none. The texts and the cells of differences come from a
//! program that was written apart from this one.

ghost use Rattle.std.specs.Prelude.{◌≡◌, ◌*◌, ◌+◌, ◌<◌, ◌≤◌, ℕ, All, IsTrue, IfOk, slice_index};
ghost use Rattle.lash_model.specs.Tables.{letters, fracs};
ghost use Rattle.product_ops.specs.FractionPairs.{IsWeakTable};
ghost use Rattle.step_tables.specs.Kept.{wide};
ghost use Rattle.fraction_codes.specs.Fractions.{IsSmall};

use super::{check_text, has, header_of, is_heavy, is_inside};
use crate::equal;
use digit_codes::Base;
use formula_core::Sort;
use fraction_codes::Ratio;
use lash_io::Memory;
use packed_cells::Plain;
use std::alloc::Global;
use std::process::Abort;
use std::test::Fail;
use step_tables::Table;
use weak_min::{Canon, canonical};

/// A row: an output or a colour, and the targets by the two letters.
type Row = [u32; 3];

/// The rows of a table, and its root for the negative numbers. No fraction state leads to a lower one.
#[derive(Clone, Copy)]
struct Rows<'a> {
    root: u32,
    ints: &'a [Row],
    fractions: &'a [Row],
}

/// 4*x = 1.
const QUARTER: Rows<'static> = Rows {
    root: 1,
    ints: &[[0, 0, 1], [4, 1, 1]],
    fractions: &[[1, 1, 4], [1, 2, 3], [1, 4, 2], [1, 3, 4], [0, 4, 4]],
};

/// 2*x <= 1.
const HALF_AT_MOST: Rows<'static> = Rows {
    root: 1,
    ints: &[[0, 0, 2], [1, 1, 1], [3, 2, 2]],
    fractions: &[[1, 1, 2], [1, 1, 1], [1, 2, 3], [0, 3, 3]],
};

/// x < 0 and x > 0.
const NONE: Rows<'static> = Rows {
    root: 0,
    ints: &[[0, 0, 0]],
    fractions: &[[0, 0, 0]],
};

/// Gives an integer state its output and its targets.
fn set_int_row(rt: &impl Abort, table: &mut Table<Plain>, state: u32, row: Row)
    requires { table.old.bounds ≡ wide }
    ensures { table.new.bounds ≡ wide }
{
    assert!(rt; table.letters() == 2 && table.fracs() > 0 && state < table.ints());
    assert!(rt; row[0] < table.fracs() && row[1] < table.ints() && row[2] < table.ints());
    table.set_out(state, row[0]);
    table.set_int(state, 0, row[1]);
    table.set_int(state, 1, row[2]);
}

/// Gives a fraction state its colour and its targets.
fn set_frac_row(rt: &impl Abort, table: &mut Table<Plain>, state: u32, row: Row)
    requires { table.old.bounds ≡ wide }
    ensures { table.new.bounds ≡ wide }
{
    assert!(rt; table.letters() == 2 && state < table.fracs());
    assert!(rt; row[1] < table.fracs() && row[2] < table.fracs());
    table.set_colour(state, row[0] == 1);
    table.set_frac(state, 0, row[1]);
    table.set_frac(state, 1, row[2]);
}

/// The table of these rows.
fn filled(rt: &impl Abort, alloc: Global, two: Base, rows: &Rows) -> Result<Table<Plain>, Memory>
    requires { two ≡ 2 }
{
    let ints = rows.ints.len();
    let fracs = rows.fractions.len();
    assert!(rt; ints > 0 && ints < 10 && fracs > 0 && fracs < 10);
    let mut table = Table::<Plain>::blank(alloc, two, 1, ints as u32, fracs as u32)?;
    assert!(rt; rows.root < table.ints());
    table.set_root(1, rows.root);
    for state in 0..ints {
        set_int_row(rt, &mut table, state as u32, rows.ints[state]);
    }
    for state in 0..fracs {
        set_frac_row(rt, &mut table, state as u32, rows.fractions[state]);
    }
    Ok(table)
}

/// Whether a fraction state leads to no lower one.
fn row_rises(table: &Table<Plain>, state: u32) -> bool
    requires { state < fracs table.now.table }
    ensures { IsTrue result → (l : ℕ) → l < letters table.now.table → state ≤ slice_index table.now.table.frac_rows (state * letters table.now.table + l) }
{
    for letter in 0..table.letters() {
        if table.frac_step(state, letter) < state {
            return false;
        }
    }
    true
}

/// Whether there are fraction states, and none leads to a lower one. Then each part has one state, so the table is weak.
fn is_rising(table: &Table<Plain>) -> bool
    ensures { IsTrue result → IsWeakTable table.now.table }
{
    let _letters = table.letters();
    if table.fracs() == 0 {
        return false;
    }
    for state in 0..table.fracs() {
        if !row_rises(table, state) {
            return false;
        }
    }
    true
}

/// The canonical table of these rows.
fn canon_of(rt: &impl Abort, alloc: Global, two: Base, rows: &Rows) -> Result<Canon, Memory>
    requires { two ≡ 2 }
    ensures base { IfOk result (λ k. k.table.base ≡ 2) }
    ensures tracks { IfOk result (λ k. k.table.tracks ≡ 1) }
{
    let table = filled(rt, alloc, two, rows)?;
    assert!(rt; table.base() == two && table.tracks() == 1);
    assert!(rt; is_rising(&table));
    canonical(alloc, &table)
}

/// Whether the parts of fractions are small, and the denominators positive.
fn are_small(values: &[Ratio]) -> bool
    ensures { IsTrue result → All IsSmall values.now }
{
    for value in values {
        if value.den < 1 || value.den > 100 || value.num < 0 || value.num > 100 {
            return false;
        }
    }
    true
}

/// A set, the text of its solution, and of two numbers whether it has them.
#[derive(Clone, Copy)]
struct Case<'a> {
    rows: Rows<'a>,
    text: &'a [u8],
    values: [Ratio; 2],
    answers: [bool; 2],
}

const OF_QUARTER: Case<'static> = Case {
    rows: QUARTER,
    text: b"solution\nx 1/4 0:.00(1)\n",
    values: [Ratio { num: 1, den: 4 }, Ratio { num: 1, den: 2 }],
    answers: [true, false],
};

const OF_HALF: Case<'static> = Case {
    rows: HALF_AT_MOST,
    text: b"solution\nx 0 0:.0(0)\n",
    values: [Ratio { num: 1, den: 3 }, Ratio { num: 2, den: 3 }],
    answers: [true, false],
};

const OF_NONE: Case<'static> = Case {
    rows: NONE,
    text: b"empty\n",
    values: [Ratio { num: 0, den: 1 }, Ratio { num: 1, den: 2 }],
    answers: [false, false],
};

/// The solution and the members of a set.
fn check(rt: &impl Abort, alloc: Global, two: Base, case: &Case) -> Result<(), Fail>
    requires { two ≡ 2 }
{
    let canon = canon_of(rt, alloc, two, &case.rows)?;
    let header = header_of(alloc, two, Sort::Real)?;
    check_text(rt, alloc, &canon, &header, case.text)?;
    for at in 0..2 {
        let values = [case.values[at]];
        assert!(rt; are_small(&values));
        has(rt, alloc, &canon, &values, case.answers[at]);
    }
    Ok(())
}

#[test]
fn solutions_and_members_among_reals(rt: HostRuntime) -> Result<(), Fail> {
    let two = Base::new(2).ok_or("2 is a base")?;
    for case in [&OF_QUARTER, &OF_HALF, &OF_NONE] {
        check(&rt, rt.alloc(), two, case)?;
    }
    Ok(())
}

fn check_relations(rt: &impl Abort, alloc: Global, two: Base) -> Result<(), Fail>
    requires { two ≡ 2 }
{
    let quarter = canon_of(rt, alloc, two, &QUARTER)?;
    let half = canon_of(rt, alloc, two, &HALF_AT_MOST)?;
    assert!(rt; equal(&quarter, &quarter));
    assert!(rt; !equal(&quarter, &half));
    is_inside(rt, alloc, &quarter, &half, 50, true);
    is_inside(rt, alloc, &half, &quarter, 50, false);
    is_heavy(rt, alloc, &quarter, &half, 49);
    Ok(())
}

// The one number is among the others, and each difference has 50 cells.
#[test]
fn relations_among_reals(rt: HostRuntime) -> Result<(), Fail> {
    check_relations(&rt, rt.alloc(), Base::new(2).ok_or("2 is a base")?)
}
