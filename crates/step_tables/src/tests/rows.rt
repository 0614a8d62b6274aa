//! The rows of the diagram of `x <= 3`, lent one by one, and the same diagram in packed cells: its roots, rows and outputs take a word each.

ghost use Rattle.std.specs.Prelude.{◌≡◌};
ghost use Rattle.step_tables.specs.Kept.{wide};

use crate::*;
use digit_codes::Base;
use lash_io::Memory;
use packed_cells::{Cells, Plain};
use std::alloc::Global;
use std::process::Abort;
use std::test::Fail;

/// Gives a state its two targets.
fn set_row(rt: &impl Abort, table: &mut Table<Plain>, state: u32, row: [u32; 2])
    requires { table.old.bounds ≡ wide }
    ensures { table.new.bounds ≡ wide }
{
    assert!(rt; table.letters() == 2 && table.ints() == 5 && state < 5 && row[0] < 5 && row[1] < 5);
    table.set_int(state, 0, row[0]);
    table.set_int(state, 1, row[1]);
}

/// The diagram of x <= 3, but for its outputs, which are 0.
fn at_most_three(rt: &impl Abort, alloc: Global, two: Base) -> Result<Table<Plain>, Memory>
    requires { two ≡ 2 }
{
    let mut table = match Table::<Plain>::blank(alloc, two, 1, 5, 0) {
        Ok(table) => table,
        Err(Memory) => return Err(Memory),
    };
    set_row(rt, &mut table, 0, [0, 2]);
    set_row(rt, &mut table, 1, [1, 1]);
    set_row(rt, &mut table, 2, [3, 3]);
    set_row(rt, &mut table, 3, [4, 4]);
    set_row(rt, &mut table, 4, [4, 4]);
    Ok(table)
}

/// The next row is this one.
fn next_is<C: Cells>(rt: &impl Abort, rows: &mut Rows<C>, row: [u32; 2]) {
    match rows.next_row() {
        Some(next) => assert_eq!(rt; next, row.as_slice()),
        None => assert!(rt; false, "a row is left"),
    }
}

/// The rows are those of the diagram.
fn rows_are<C: Cells>(rt: &impl Abort, rows: &mut Rows<C>) {
    next_is(rt, rows, [0, 2]);
    next_is(rt, rows, [1, 1]);
    next_is(rt, rows, [3, 3]);
    next_is(rt, rows, [4, 4]);
    next_is(rt, rows, [4, 4]);
    assert!(rt; rows.next_row().is_none());
}

#[test]
fn rows_in_order(rt: HostRuntime) -> Result<(), Fail> {
    let two = Base::new(2).ok_or("2 is a base")?;
    let table = at_most_three(&rt, rt.alloc(), two)?;
    let mut rows = Rows::new(rt.alloc(), &table)?;
    rows_are(&rt, &mut rows);
    Ok(())
}

#[test]
fn packed_rows(rt: HostRuntime) -> Result<(), Fail> {
    let two = Base::new(2).ok_or("2 is a base")?;
    let table = at_most_three(&rt, rt.alloc(), two)?;
    assert_eq!(rt; table.bound(), 4294967296);
    let packed = pack(rt.alloc(), &table)?;
    assert_eq!(rt; packed.words(), 3);
    let mut rows = Rows::new(rt.alloc(), &packed)?;
    rows_are(&rt, &mut rows);
    Ok(())
}
