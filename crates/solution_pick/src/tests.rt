//! Solutions of small sets in base 2, found by hand: the tables read two's complement, highest digit first, from the root 0 of the
//! numbers that are not negative and the root 1 of the negative ones.

ghost use Rattle.std.specs.Prelude.{◌≡◌, IfOk};
ghost use Rattle.lash_model.specs.Tables.{IsDiagram};
ghost use Rattle.step_tables.specs.Kept.{wide};

use super::*;
use digit_codes::{Base, Lasso};
use lash_io::Memory;
use packed_cells::Plain;
use std::alloc::Global;
use std::process::Abort;
use std::test::Fail;
use step_tables::Table;
use weak_min::{Canon, canonical};

/// Changes a target.
fn set_target(rt: &impl Abort, table: &mut Table<Plain>, state: u32, letter: u32, to: u32)
    requires { table.old.bounds ≡ wide }
    ensures { table.new.bounds ≡ wide }
{
    assert!(rt; state < table.ints());
    assert!(rt; letter < table.letters());
    assert!(rt; to < table.ints());
    table.set_int(state, letter, to);
}

/// Changes an output.
fn set_answer(rt: &impl Abort, table: &mut Table<Plain>, state: u32, answer: u32)
    requires { table.old.bounds ≡ wide }
    ensures { table.new.bounds ≡ wide }
{
    assert!(rt; state < table.ints());
    assert!(rt; table.fracs() == 0);
    assert!(rt; answer < 2);
    table.set_out(state, answer);
}

/// Gives a state its output and its targets.
fn set_row(rt: &impl Abort, table: &mut Table<Plain>, state: u32, answer: u32, targets: &[u32])
    requires { table.old.bounds ≡ wide }
    ensures { table.new.bounds ≡ wide }
{
    set_answer(rt, table, state, answer);
    let mut letter = 0u32;
    for to in targets {
        set_target(rt, table, state, letter, *to);
        letter = letter.wrapping_add(1);
    }
}

/// A set of numbers that is told by its answers to 0, to negative numbers, to 1, to 2, to 3, and to those above.
fn told_by(
    rt: &impl Abort,
    alloc: Global,
    base: Base,
    outs: [u32; 6],
) -> Result<Table<Plain>, Memory>
    requires { base ≡ 2 }
    ensures diagram { IfOk result (λ k. IsDiagram k.table) }
    ensures base { IfOk result (λ k. k.table.base ≡ 2) }
    ensures tracks { IfOk result (λ k. k.table.tracks ≡ 1) }
{
    let mut table = match Table::<Plain>::blank(alloc, base, 1, 6, 0) {
        Ok(table) => table,
        Err(Memory) => return Err(Memory),
    };
    let [zero, negative, one, two, three, above] = outs;
    table.set_root(1, 1);
    set_row(rt, &mut table, 0, zero, &[0, 2]);
    set_row(rt, &mut table, 1, negative, &[1, 1]);
    set_row(rt, &mut table, 2, one, &[3, 4]);
    set_row(rt, &mut table, 3, two, &[5, 5]);
    set_row(rt, &mut table, 4, three, &[5, 5]);
    set_row(rt, &mut table, 5, above, &[5, 5]);
    assert!(rt; table.base() == base);
    assert!(rt; table.tracks() == 1);
    assert!(rt; table.fracs() == 0);
    Ok(table)
}

/// The pairs of a number above 0 and one below -1, whose sign vector is 1. The letter 2 is the pair of the digits 1 and 0.
fn two_sided(rt: &impl Abort, alloc: Global, base: Base) -> Result<Table<Plain>, Memory>
    requires { base ≡ 2 }
    ensures { IfOk result (λ k. IsDiagram k.table) }
{
    let mut table = match Table::<Plain>::blank(alloc, base, 2, 5, 0) {
        Ok(table) => table,
        Err(Memory) => return Err(Memory),
    };
    table.set_root(1, 1);
    set_row(rt, &mut table, 1, 0, &[2, 1, 3, 4]);
    set_row(rt, &mut table, 2, 0, &[2, 2, 3, 3]);
    set_row(rt, &mut table, 3, 1, &[3, 3, 3, 3]);
    set_row(rt, &mut table, 4, 0, &[3, 4, 3, 4]);
    assert!(rt; table.fracs() == 0);
    Ok(table)
}

fn check_lasso(rt: &impl Abort, lasso: &Lasso, sign: u32, letters: &[u32]) {
    assert_eq!(rt; lasso.sign, sign);
    assert_eq!(rt; lasso.whole.letters(), letters);
    assert!(rt; lasso.stem.letters().is_empty());
    assert_eq!(rt; lasso.cycle.letters(), [0].as_slice());
}

fn check_found(
    rt: &impl Abort,
    alloc: Global,
    canon: &Canon,
    sign: u32,
    letters: &[u32],
) -> Result<(), Fail> {
    match solution(alloc, canon)? {
        Some(lasso) => {
            check_lasso(rt, &lasso, sign, letters);
            assert!(rt; member(canon, &lasso));
        }
        None => assert!(rt; false, "there is a solution"),
    }
    Ok(())
}

fn check_solution(
    rt: &impl Abort,
    alloc: Global,
    table: &Table<Plain>,
    sign: u32,
    letters: &[u32],
) -> Result<(), Fail>
    requires { IsDiagram table.now.table }
{
    let canon = canonical(alloc, table)?;
    check_found(rt, alloc, &canon, sign, letters)
}

fn check_told(
    rt: &impl Abort,
    alloc: Global,
    base: Base,
    outs: [u32; 6],
    sign: u32,
    letters: &[u32],
) -> Result<(), Fail>
    requires { base ≡ 2 }
{
    let table = told_by(rt, alloc, base, outs)?;
    check_solution(rt, alloc, &table, sign, letters)
}

fn check_none(rt: &impl Abort, alloc: Global, base: Base) -> Result<(), Fail>
    requires { base ≡ 2 }
{
    let table = told_by(rt, alloc, base, [0, 0, 0, 0, 0, 0])?;
    let canon = canonical(alloc, &table)?;
    let found = solution(alloc, &canon)?;
    assert!(rt; found.is_none());
    Ok(())
}

fn check_pairs(rt: &impl Abort, alloc: Global, base: Base) -> Result<(), Fail>
    requires { base ≡ 2 }
{
    let table = two_sided(rt, alloc, base)?;
    check_solution(rt, alloc, &table, 1, &[2])
}

/// The canonical diagram of a set that is told by its answers.
fn canon_told(rt: &impl Abort, alloc: Global, base: Base, outs: [u32; 6]) -> Result<Canon, Memory>
    requires { base ≡ 2 }
    ensures base { IfOk result (λ k. k.table.base ≡ 2) }
    ensures tracks { IfOk result (λ k. k.table.tracks ≡ 1) }
{
    let table = match told_by(rt, alloc, base, outs) {
        Ok(table) => table,
        Err(Memory) => return Err(Memory),
    };
    match canonical(alloc, &table) {
        Ok(canon) => Ok(canon),
        Err(Memory) => Err(Memory),
    }
}

// The solution of the one set is no member of the other.
fn check_apart(rt: &impl Abort, alloc: Global, one: &Canon, other: &Canon) -> Result<(), Fail>
    requires bases { one.now.table.base ≡ other.now.table.base }
    requires tracks { one.now.table.tracks ≡ other.now.table.tracks }
{
    assert!(rt; one.table().fracs() == 0);
    match solution(alloc, one)? {
        Some(lasso) => assert!(rt; !member(other, &lasso)),
        None => assert!(rt; false, "there is a solution"),
    }
    Ok(())
}

fn check_members(rt: &impl Abort, alloc: Global, base: Base) -> Result<(), Fail>
    requires { base ≡ 2 }
{
    let above = canon_told(rt, alloc, base, [0, 0, 0, 0, 1, 1])?;
    let below = canon_told(rt, alloc, base, [0, 1, 0, 0, 0, 0])?;
    check_apart(rt, alloc, &above, &below)?;
    check_apart(rt, alloc, &below, &above)
}

// Of the numbers above 2 the least word is that of 3, two digits 1; of those up to 3 the empty one, of 0; of those below 0 the empty
// one, of -1. Of the pairs it is that of 1 and -2, one digit each.
#[test]
fn least_words(rt: HostRuntime) -> Result<(), Fail> {
    let alloc = rt.alloc();
    let two = Base::new(2).ok_or("2 is a base")?;
    check_told(&rt, alloc, two, [0, 0, 0, 0, 1, 1], 0, &[1, 1])?;
    check_told(&rt, alloc, two, [1, 1, 1, 1, 1, 0], 0, &[])?;
    check_told(&rt, alloc, two, [0, 1, 0, 0, 0, 0], 1, &[])?;
    check_pairs(&rt, alloc, two)?;
    check_none(&rt, alloc, two)?;
    check_members(&rt, alloc, two)
}
