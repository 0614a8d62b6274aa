//! Answers about small sets of integers, and in `real` about sets of reals. The tables read r's complement, highest digit first, from the
//! root 0 of the numbers that are not negative and the root 1 of the negative ones.

ghost use Rattle.std.specs.Prelude.{◌≡◌, ◌≤◌, length, All, IsTrue, IfOk};
ghost use Rattle.lash_model.specs.Tables.{IsDiagram};
ghost use Rattle.step_tables.specs.Kept.{wide};
ghost use Rattle.fraction_codes.specs.Fractions.{IsSmall};
ghost use Rattle.product_ops.specs.Products.{HaveSameKind};

mod real;

use super::*;
use canon_text::Header;
use digit_codes::Base;
use formula_core::{Sort, Vars};
use fraction_codes::{Ratio, common_denominator};
use lash_io::{MemSink, Memory};
use packed_cells::Plain;
use std::alloc::Global;
use std::process::Abort;
use std::test::Fail;
use step_tables::{BuildError, Table};
use weak_min::{Canon, canonical};

/// Changes a target.
fn set_target(rt: &impl Abort, table: &mut Table<Plain>, state: u32, letter: u32, to: u32)
    requires { table.old.bounds ≡ wide }
    ensures { table.new.bounds ≡ wide }
{
    assert!(rt; state < table.ints());
    assert!(rt; letter < table.letters());
    assert!(rt; to < table.ints());
    table.set_int(state, letter, to);
}

/// Changes an output.
fn set_answer(rt: &impl Abort, table: &mut Table<Plain>, state: u32, answer: u32)
    requires { table.old.bounds ≡ wide }
    ensures { table.new.bounds ≡ wide }
{
    assert!(rt; state < table.ints());
    assert!(rt; table.fracs() == 0);
    assert!(rt; answer < 2);
    table.set_out(state, answer);
}

/// Gives a state its output, and all its letters one target.
fn set_row(rt: &impl Abort, table: &mut Table<Plain>, state: u32, answer: u32, to: u32)
    requires { table.old.bounds ≡ wide }
    ensures { table.new.bounds ≡ wide }
{
    set_answer(rt, table, state, answer);
    for letter in 0..table.letters() {
        set_target(rt, table, state, letter, to);
    }
}

/// A set of numbers that is told by its answers to 0, to negative numbers, to 1, to 2, to 3, and to those above.
fn told_by(
    rt: &impl Abort,
    alloc: Global,
    base: Base,
    outs: [u32; 6],
) -> Result<Table<Plain>, Memory>
    requires { base ≡ 2 }
    ensures diagram { IfOk result (λ k. IsDiagram k.table) }
    ensures base { IfOk result (λ k. k.table.base ≡ 2) }
    ensures tracks { IfOk result (λ k. k.table.tracks ≡ 1) }
{
    let mut table = match Table::<Plain>::blank(alloc, base, 1, 6, 0) {
        Ok(table) => table,
        Err(Memory) => return Err(Memory),
    };
    let [zero, negative, one, two, three, above] = outs;
    table.set_root(1, 1);
    set_row(rt, &mut table, 0, zero, 0);
    set_row(rt, &mut table, 1, negative, 1);
    set_row(rt, &mut table, 2, one, 3);
    set_row(rt, &mut table, 3, two, 5);
    set_row(rt, &mut table, 4, three, 5);
    set_row(rt, &mut table, 5, above, 5);
    set_target(rt, &mut table, 0, 1, 2);
    set_target(rt, &mut table, 2, 1, 4);
    assert!(rt; table.base() == base);
    assert!(rt; table.tracks() == 1);
    assert!(rt; table.fracs() == 0);
    Ok(table)
}

/// The number 100 in base 10.
fn one_hundred(rt: &impl Abort, alloc: Global, base: Base) -> Result<Table<Plain>, Memory>
    requires { base ≡ 10 }
    ensures diagram { IfOk result (λ k. IsDiagram k.table) }
    ensures base { IfOk result (λ k. k.table.base ≡ 10) }
    ensures tracks { IfOk result (λ k. k.table.tracks ≡ 1) }
{
    let mut table = match Table::<Plain>::blank(alloc, base, 1, 5, 0) {
        Ok(table) => table,
        Err(Memory) => return Err(Memory),
    };
    table.set_root(1, 4);
    set_row(rt, &mut table, 0, 0, 4);
    set_row(rt, &mut table, 1, 0, 4);
    set_row(rt, &mut table, 2, 0, 4);
    set_row(rt, &mut table, 3, 1, 4);
    set_row(rt, &mut table, 4, 0, 4);
    set_target(rt, &mut table, 0, 0, 0);
    set_target(rt, &mut table, 0, 1, 1);
    set_target(rt, &mut table, 1, 0, 2);
    set_target(rt, &mut table, 2, 0, 3);
    assert!(rt; table.base() == base);
    assert!(rt; table.tracks() == 1);
    assert!(rt; table.fracs() == 0);
    Ok(table)
}

/// The canonical table of a set that is told by its answers.
fn canon_told(rt: &impl Abort, alloc: Global, base: Base, outs: [u32; 6]) -> Result<Canon, Memory>
    requires { base ≡ 2 }
    ensures base { IfOk result (λ k. k.table.base ≡ 2) }
    ensures tracks { IfOk result (λ k. k.table.tracks ≡ 1) }
{
    let table = match told_by(rt, alloc, base, outs) {
        Ok(table) => table,
        Err(Memory) => return Err(Memory),
    };
    match canonical(alloc, &table) {
        Ok(canon) => Ok(canon),
        Err(Memory) => Err(Memory),
    }
}

fn canon_hundred(rt: &impl Abort, alloc: Global, base: Base) -> Result<Canon, Memory>
    requires { base ≡ 10 }
    ensures base { IfOk result (λ k. k.table.base ≡ 10) }
    ensures tracks { IfOk result (λ k. k.table.tracks ≡ 1) }
{
    let table = match one_hundred(rt, alloc, base) {
        Ok(table) => table,
        Err(Memory) => return Err(Memory),
    };
    match canonical(alloc, &table) {
        Ok(canon) => Ok(canon),
        Err(Memory) => Err(Memory),
    }
}

/// A statement without variables.
fn statement(rt: &impl Abort, alloc: Global, base: Base, answer: u32) -> Result<Canon, Memory>
    requires { base ≡ 2 }
    ensures { IfOk result (λ k. k.table.tracks ≡ 0) }
{
    let mut table = match Table::<Plain>::blank(alloc, base, 0, 1, 0) {
        Ok(table) => table,
        Err(Memory) => return Err(Memory),
    };
    set_answer(rt, &mut table, 0, answer);
    assert!(rt; table.tracks() == 0);
    assert!(rt; table.fracs() == 0);
    match canonical(alloc, &table) {
        Ok(canon) => Ok(canon),
        Err(Memory) => Err(Memory),
    }
}

/// The header of one variable x.
fn header_of(alloc: Global, base: Base, sort: Sort) -> Result<Header, Memory>
    ensures base { IfOk result (λ h. h.base ≡ base) }
    ensures one { IfOk result (λ h. length h.vars ≡ 1) }
{
    let mut vars = Vars::new(alloc);
    match vars.add(b"x", sort) {
        Ok(()) => Ok(Header::new(base, vars)),
        Err(Memory) => Err(Memory),
    }
}

fn check_text(
    rt: &impl Abort,
    alloc: Global,
    canon: &Canon,
    header: &Header,
    text: &[u8],
) -> Result<(), Fail>
    requires base { header.now.base ≡ canon.now.table.base }
    requires variables { length header.now.vars ≡ canon.now.table.tracks }
{
    let mut sink = MemSink::new(alloc, 40, Vec::new(alloc))?;
    assert!(rt; write_solution(alloc, canon, header, &mut sink).is_ok());
    assert_eq!(rt; sink.bytes(), text);
    Ok(())
}

// A sink that fails at the second call holds as much as it took.
fn check_fault(rt: &impl Abort, alloc: Global, canon: &Canon, header: &Header) -> Result<(), Fail>
    requires base { header.now.base ≡ canon.now.table.base }
    requires variables { length header.now.vars ≡ canon.now.table.tracks }
{
    let fails = Vec::from_slice(alloc, &[(2, 1)])?;
    let mut sink = MemSink::new(alloc, 40, fails)?;
    let answer = write_solution(alloc, canon, header, &mut sink);
    assert!(rt; matches!(answer, Err(WriteError::Fault)));
    assert_eq!(rt; sink.bytes(), b"solution\nx 3 0".as_slice());
    Ok(())
}

fn check_told(
    rt: &impl Abort,
    alloc: Global,
    base: Base,
    outs: [u32; 6],
    text: &[u8],
) -> Result<(), Fail>
    requires { base ≡ 2 }
{
    let canon = canon_told(rt, alloc, base, outs)?;
    let header = header_of(alloc, base, Sort::Int)?;
    check_text(rt, alloc, &canon, &header, text)
}

fn check_above(rt: &impl Abort, alloc: Global, base: Base) -> Result<(), Fail>
    requires { base ≡ 2 }
{
    let canon = canon_told(rt, alloc, base, [0, 0, 0, 0, 1, 1])?;
    let header = header_of(alloc, base, Sort::Int)?;
    check_fault(rt, alloc, &canon, &header)
}

fn check_hundred(rt: &impl Abort, alloc: Global, base: Base) -> Result<(), Fail>
    requires { base ≡ 10 }
{
    let canon = canon_hundred(rt, alloc, base)?;
    let header = header_of(alloc, base, Sort::Int)?;
    check_text(rt, alloc, &canon, &header, b"solution\nx 100 0:100\n")
}

// Above 2 the least is 3; below 0 it is -1, which needs no digit after its sign.
#[test]
fn solutions_in_base_two(rt: HostRuntime) -> Result<(), Fail> {
    let alloc = rt.alloc();
    let two = Base::new(2).ok_or("2 is a base")?;
    check_told(&rt, alloc, two, [0, 0, 0, 0, 1, 1], b"solution\nx 3 0:11\n")?;
    check_told(&rt, alloc, two, [0, 1, 0, 0, 0, 0], b"solution\nx -1 1:\n")?;
    check_told(&rt, alloc, two, [0, 0, 0, 0, 0, 0], b"empty\n")?;
    check_above(&rt, alloc, two)
}

#[test]
fn solution_in_base_ten(rt: HostRuntime) -> Result<(), Fail> {
    check_hundred(&rt, rt.alloc(), Base::new(10).ok_or("10 is a base")?)
}

fn has(rt: &impl Abort, alloc: Global, canon: &Canon, values: &[Ratio], answer: bool)
    requires count { length values.now ≡ canon.now.table.tracks }
    requires small { All IsSmall values.now }
{
    if common_denominator(values).is_none() {
        assert!(rt; false, "the denominators are small");
        return;
    }
    match contains(alloc, canon, values) {
        Ok(found) => assert!(rt; found == answer),
        Err(Memory) => assert!(rt; false, "there is memory"),
    }
}

fn has_three(rt: &impl Abort, alloc: Global, canon: &Canon)
    requires { canon.now.table.tracks ≡ 1 }
{
    let values = [Ratio { num: 12, den: 4 }];
    has(rt, alloc, canon, &values, true);
}

fn has_no_half(rt: &impl Abort, alloc: Global, canon: &Canon)
    requires { canon.now.table.tracks ≡ 1 }
{
    let values = [Ratio { num: 7, den: 2 }];
    has(rt, alloc, canon, &values, false);
}

fn has_no_two(rt: &impl Abort, alloc: Global, canon: &Canon)
    requires { canon.now.table.tracks ≡ 1 }
{
    let values = [Ratio { num: 2, den: 1 }];
    has(rt, alloc, canon, &values, false);
}

fn check_members(rt: &impl Abort, alloc: Global, base: Base) -> Result<(), Fail>
    requires { base ≡ 2 }
{
    let above = canon_told(rt, alloc, base, [0, 0, 0, 0, 1, 1])?;
    has_three(rt, alloc, &above);
    has_no_half(rt, alloc, &above);
    has_no_two(rt, alloc, &above);
    Ok(())
}

// Of the numbers above 2.
#[test]
fn members(rt: HostRuntime) -> Result<(), Fail> {
    check_members(&rt, rt.alloc(), Base::new(2).ok_or("2 is a base")?)
}

/// Whether both tables are diagrams, or both have fraction states.
fn have_same_kind(left: &Canon, right: &Canon) -> bool
    ensures { IsTrue result → HaveSameKind left.now.table right.now.table }
{
    (left.table().fracs() == 0) == (right.table().fracs() == 0)
}

fn is_inside(rt: &impl Abort, alloc: Global, left: &Canon, right: &Canon, limit: u64, answer: bool)
    requires base { left.now.table.base ≡ right.now.table.base }
    requires tracks { left.now.table.tracks ≡ right.now.table.tracks }
    requires limit { limit ≤ 1000 }
{
    assert!(rt; have_same_kind(left, right));
    match subset(alloc, left, right, limit) {
        Ok(found) => assert!(rt; found == answer),
        Err(_) => assert!(rt; false, "it is light"),
    }
}

fn is_heavy(rt: &impl Abort, alloc: Global, left: &Canon, right: &Canon, limit: u64)
    requires base { left.now.table.base ≡ right.now.table.base }
    requires tracks { left.now.table.tracks ≡ right.now.table.tracks }
    requires limit { limit ≤ 1000 }
{
    assert!(rt; have_same_kind(left, right));
    match subset(alloc, left, right, limit) {
        Ok(_) => assert!(rt; false, "it has more cells"),
        Err(error) => assert!(rt; error == BuildError::Heavy),
    }
}

fn check_relations(rt: &impl Abort, alloc: Global, base: Base) -> Result<(), Fail>
    requires { base ≡ 2 }
{
    let above = canon_told(rt, alloc, base, [0, 0, 0, 0, 1, 1])?;
    let natural = canon_told(rt, alloc, base, [1, 0, 1, 1, 1, 1])?;
    assert!(rt; equal(&above, &above));
    assert!(rt; !equal(&above, &natural));
    is_inside(rt, alloc, &above, &natural, 1000, true);
    is_inside(rt, alloc, &natural, &above, 1000, false);
    // A pair has five cells.
    is_heavy(rt, alloc, &above, &natural, 4);
    Ok(())
}

// The numbers above 2 are among those that are not negative.
#[test]
fn relations(rt: HostRuntime) -> Result<(), Fail> {
    check_relations(&rt, rt.alloc(), Base::new(2).ok_or("2 is a base")?)
}

fn check_statement(rt: &impl Abort, alloc: Global, base: Base, answer: u32) -> Result<(), Fail>
    requires { base ≡ 2 }
{
    let canon = statement(rt, alloc, base, answer)?;
    assert!(rt; holds(&canon) == (answer == 1));
    Ok(())
}

#[test]
fn statements(rt: HostRuntime) -> Result<(), Fail> {
    let two = Base::new(2).ok_or("2 is a base")?;
    check_statement(&rt, rt.alloc(), two, 1)?;
    check_statement(&rt, rt.alloc(), two, 0)
}
