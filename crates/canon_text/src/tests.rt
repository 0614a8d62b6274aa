//! The texts of a diagram and of a table with fraction states, and a sink that fails in mid-text.

ghost use Rattle.std.specs.Prelude.{◌≡◌, [], ◌∷◌, length, codes, IfOk};
ghost use Rattle.formula_core.specs.Variables.{sort_of};
ghost use Rattle.step_tables.specs.Kept.{wide};
ghost use Rattle.canon_text.specs.Heading.{HeadsTable};

use super::*;
use digit_codes::Base;
use formula_core::{Sort, Vars};
use lash_io::{MemSink, Memory};
use packed_cells::Plain;
use std::alloc::Global;
use std::process::Abort;
use std::test::Fail;
use step_tables::Table;

/// The header of one variable x.
fn header_of(alloc: Global, base: Base, sort: Sort) -> Result<Header, Memory>
    ensures { IfOk result (λ h. h ≡ record { base = base; vars = (codes "x", sort_of sort) ∷ [] }) }
{
    let mut vars = Vars::new(alloc);
    match vars.add(b"x", sort) {
        Ok(()) => Ok(Header::new(base, vars)),
        Err(Memory) => Err(Memory),
    }
}

/// Gives an integer state its output and its two targets.
fn set_int_row(rt: &impl Abort, table: &mut Table<Plain>, state: u32, row: [u32; 3])
    requires { table.old.bounds ≡ wide }
    ensures bounds { table.new.bounds ≡ wide }
    ensures base { table.new.table.base ≡ table.old.table.base }
    ensures tracks { table.new.table.tracks ≡ table.old.table.tracks }
    ensures colours { table.new.table.colours ≡ table.old.table.colours }
{
    let [out, zero, one] = row;
    assert!(rt; table.letters() == 2 && state < table.ints());
    assert!(rt; zero < table.ints() && one < table.ints());
    assert!(rt; out < 2 && table.fracs() == 0 || out < table.fracs());
    table.set_out(state, out);
    table.set_int(state, 0, zero);
    table.set_int(state, 1, one);
}

/// Gives a fraction state its colour and its two targets.
fn set_frac_row(rt: &impl Abort, table: &mut Table<Plain>, state: u32, yes: bool, row: [u32; 2])
    requires { table.old.bounds ≡ wide }
    ensures bounds { table.new.bounds ≡ wide }
    ensures base { table.new.table.base ≡ table.old.table.base }
    ensures tracks { table.new.table.tracks ≡ table.old.table.tracks }
    ensures colours { length table.new.table.colours ≡ length table.old.table.colours }
{
    let [zero, one] = row;
    assert!(rt; table.letters() == 2 && state < table.fracs());
    assert!(rt; zero < table.fracs() && one < table.fracs());
    table.set_colour(state, yes);
    table.set_frac(state, 0, zero);
    table.set_frac(state, 1, one);
}

// The diagram of x <= 3 whose states are the counts of the thresholds -1, 0, 1 and 3 that are below what was read.
fn diagram(rt: &impl Abort, alloc: Global, base: Base) -> Result<Table<Plain>, Memory>
    requires { base ≡ 2 }
    ensures { IfOk result (λ k. (k.table.base ≡ base) × (k.table.tracks ≡ 1) × (k.table.colours ≡ [])) }
{
    let mut table = match Table::<Plain>::blank(alloc, base, 1, 5, 0) {
        Ok(table) => table,
        Err(Memory) => return Err(Memory),
    };
    table.set_root(0, 1);
    set_int_row(rt, &mut table, 0, [1, 0, 0]);
    set_int_row(rt, &mut table, 1, [1, 1, 2]);
    set_int_row(rt, &mut table, 2, [1, 3, 3]);
    set_int_row(rt, &mut table, 3, [1, 4, 4]);
    set_int_row(rt, &mut table, 4, [0, 4, 4]);
    Ok(table)
}

// The table of x = 0 with its least states.
fn with_fractions(rt: &impl Abort, alloc: Global, base: Base) -> Result<Table<Plain>, Memory>
    requires { base ≡ 2 }
    ensures { IfOk result (λ k. (k.table.base ≡ base) × (k.table.tracks ≡ 1) × (length k.table.colours ≡ 3)) }
{
    let mut table = match Table::<Plain>::blank(alloc, base, 1, 3, 3) {
        Ok(table) => table,
        Err(Memory) => return Err(Memory),
    };
    table.set_root(1, 1);
    set_int_row(rt, &mut table, 0, [0, 0, 2]);
    set_int_row(rt, &mut table, 1, [1, 2, 1]);
    set_int_row(rt, &mut table, 2, [2, 2, 2]);
    set_frac_row(rt, &mut table, 0, true, [0, 2]);
    set_frac_row(rt, &mut table, 1, true, [2, 1]);
    set_frac_row(rt, &mut table, 2, false, [2, 2]);
    Ok(table)
}

// The whole text, one line behind another.
fn is_int_text(rt: &impl Abort, text: &[u8]) {
    let head = b"lash 1\nbase 2\nvars x int\nint 5\nroots 1 0\n".as_slice();
    let states = b"0 + 0 0\n1 + 1 2\n2 + 3 3\n3 + 4 4\n4 - 4 4\nend\n".as_slice();
    assert!(rt; text.len() == head.len() + states.len());
    assert_eq!(rt; &text[..head.len()], head);
    assert_eq!(rt; &text[head.len()..], states);
}

fn is_real_text(rt: &impl Abort, text: &[u8]) {
    let head = b"lash 1\nbase 2\nvars x real\nint 3\nfrac 3\nroots 0 1\n".as_slice();
    let states = b"0 0 0 2\n1 1 2 1\n2 2 2 2\n0 + 0 2\n1 + 2 1\n2 - 2 2\nend\n".as_slice();
    assert!(rt; text.len() == head.len() + states.len());
    assert_eq!(rt; &text[..head.len()], head);
    assert_eq!(rt; &text[head.len()..], states);
}

fn is_front(rt: &impl Abort, text: &[u8]) {
    assert_eq!(rt; text, b"lash 1\nbase 2\nvars x real\nint".as_slice());
}

// The text is put whole.
fn check_whole(
    rt: &impl Abort,
    alloc: Global,
    table: &Table<Plain>,
    header: &Header,
) -> Result<(), Fail>
    requires { HeadsTable header.now.base header.now.vars table.now.table }
{
    let mut sink = MemSink::new(alloc, 200, Vec::new(alloc))?;
    write_table(table, header, &mut sink)?;
    if table.fracs() == 0 {
        is_int_text(rt, sink.bytes());
    } else {
        is_real_text(rt, sink.bytes());
    }
    Ok(())
}

// A sink that fails at the first block holds as much of it as it took.
fn check_failing(
    rt: &impl Abort,
    alloc: Global,
    table: &Table<Plain>,
    header: &Header,
) -> Result<(), Fail>
    requires { HeadsTable header.now.base header.now.vars table.now.table }
{
    let fails = Vec::from_slice(alloc, &[(1, 29)])?;
    let mut sink = MemSink::new(alloc, 200, fails)?;
    assert!(rt; write_table(table, header, &mut sink).is_err());
    is_front(rt, sink.bytes());
    Ok(())
}

fn check_int(rt: &impl Abort, alloc: Global, base: Base) -> Result<(), Fail>
    requires { base ≡ 2 }
{
    let table = diagram(rt, alloc, base)?;
    let header = header_of(alloc, base, Sort::Int)?;
    check_whole(rt, alloc, &table, &header)
}

fn check_real(rt: &impl Abort, alloc: Global, base: Base) -> Result<(), Fail>
    requires { base ≡ 2 }
{
    let table = with_fractions(rt, alloc, base)?;
    let header = header_of(alloc, base, Sort::Real)?;
    check_whole(rt, alloc, &table, &header)?;
    check_failing(rt, alloc, &table, &header)
}

#[test]
fn texts_of_tables(rt: HostRuntime) -> Result<(), Fail> {
    let alloc = rt.alloc();
    let two = Base::new(2).ok_or("2 is a base")?;
    check_int(&rt, alloc, two)?;
    check_real(&rt, alloc, two)
}
