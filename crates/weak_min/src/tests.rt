//! The inequation `x <= 3` over one track in base 2, numbered by the thresholds -1, 0, 1 and 3 that are below a value, and the same
//! diagram numbered by least paths.

ghost use Rattle.std.specs.Prelude.{◌≡◌, IfOk};
ghost use Rattle.lash_model.specs.Tables.{IsDiagram};
ghost use Rattle.step_tables.specs.Kept.{wide};

use super::*;
use crate::copies::{outs_of, rows_of};
use digit_codes::Base;
use lash_io::Memory;
use packed_cells::{Cells, Plain};
use std::alloc::Global;
use std::process::Abort;
use std::test::Fail;
use step_tables::Table;

/// Gives a state its output and its two targets.
fn set_row(rt: &impl Abort, table: &mut Table<Plain>, state: u32, row: [u32; 3])
    requires { table.old.bounds ≡ wide }
    ensures bounds { table.new.bounds ≡ wide }
    ensures colours { table.new.table.colours ≡ table.old.table.colours }
{
    let [out, zero, one] = row;
    assert!(rt; table.letters() == 2 && state < table.ints());
    assert!(rt; zero < table.ints() && one < table.ints());
    assert!(rt; out < 2 && table.fracs() == 0);
    table.set_out(state, out);
    table.set_int(state, 0, zero);
    table.set_int(state, 1, one);
}

// The diagram of x <= 3 whose states count thresholds.
fn counts(rt: &impl Abort, alloc: Global, base: Base) -> Result<Table<Plain>, Memory>
    requires { base ≡ 2 }
    ensures { IfOk result (λ k. IsDiagram k.table) }
{
    let mut table = match Table::<Plain>::blank(alloc, base, 1, 5, 0) {
        Ok(table) => table,
        Err(Memory) => return Err(Memory),
    };
    table.set_root(0, 1);
    set_row(rt, &mut table, 0, [1, 0, 0]);
    set_row(rt, &mut table, 1, [1, 1, 2]);
    set_row(rt, &mut table, 2, [1, 3, 3]);
    set_row(rt, &mut table, 3, [1, 4, 4]);
    set_row(rt, &mut table, 4, [0, 4, 4]);
    Ok(table)
}

fn check_roots<C: Cells>(rt: &impl Abort, table: &Table<C>) {
    assert!(rt; table.tracks() == 1);
    assert_eq!(rt; (table.root(0), table.root(1)), (0, 1));
}

fn check_rows<C: Cells>(rt: &impl Abort, alloc: Global, table: &Table<C>) -> Result<(), Fail> {
    let rows = rows_of(alloc, table)?;
    assert_eq!(rt; rows.as_slice(), [0, 2, 1, 1, 3, 3, 4, 4, 4, 4].as_slice());
    Ok(())
}

fn check_outs<C: Cells>(rt: &impl Abort, alloc: Global, table: &Table<C>) -> Result<(), Fail> {
    let outs = outs_of(alloc, table)?;
    assert_eq!(rt; outs.as_slice(), [1, 1, 1, 1, 0].as_slice());
    Ok(())
}

// A canonical table is its own canonical table.
fn check_again(rt: &impl Abort, alloc: Global, canon: &Canon) -> Result<(), Fail> {
    let again = canonical(alloc, canon.table())?;
    assert!(rt; same(canon, &again));
    Ok(())
}

fn check_canonical(rt: &impl Abort, alloc: Global, table: &Table<Plain>) -> Result<(), Fail>
    requires { IsDiagram table.now.table }
{
    let canon = canonical(alloc, table)?;
    check_roots(rt, canon.table());
    check_rows(rt, alloc, canon.table())?;
    check_outs(rt, alloc, canon.table())?;
    // Two roots and five outputs of 1 bit, and ten targets of 3 bits: each list takes one word.
    assert_eq!(rt; canon.table().words(), 3);
    check_again(rt, alloc, &canon)
}

fn check_counts(rt: &impl Abort, alloc: Global, base: Base) -> Result<(), Fail>
    requires { base ≡ 2 }
{
    let table = counts(rt, alloc, base)?;
    check_canonical(rt, alloc, &table)
}

#[test]
fn numbered_by_least_paths(rt: HostRuntime) -> Result<(), Fail> {
    let alloc = rt.alloc();
    let two = Base::new(2).ok_or("2 is a base")?;
    check_counts(&rt, alloc, two)
}
