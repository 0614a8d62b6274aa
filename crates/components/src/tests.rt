//! Small graphs whose parts and ranks are found by hand, and the fraction states of the table of `x <= 0` over a real in base 2.

ghost use Rattle.std.specs.Prelude.{◌≡◌, ◌*◌, ◌<◌, length, All, IfOk};
ghost use Rattle.lash_model.specs.Tables.{fracs};
ghost use Rattle.step_tables.specs.Kept.{wide};

use crate::{Parts, components, frac_rows_of, is_weak, parts_of, rank_colours, ranks_of};
use digit_codes::Base;
use lash_io::Memory;
use packed_cells::Plain;
use std::alloc::Global;
use std::process::Abort;
use std::test::Fail;
use step_tables::Table;

// Whether the states have these numbers, and these parts loop.
fn have_numbers(parts: &Parts, numbers: &[u32], looping: &[bool]) -> bool
    requires states { length parts.now.numbers ≡ length numbers.now }
    requires few { length numbers.now < 64 }
{
    let mut same = parts.count() as usize == looping.len();
    for state in 0..numbers.len() as u32 {
        same = same && parts.part_of(state) == numbers[state as usize];
    }
    for part in 0..parts.count() {
        same = same && looping.get(part as usize) == Some(&parts.loops(part));
    }
    same
}

// Whether a graph's parts have these numbers, and these of them loop.
fn are_parts(
    alloc: Global,
    rows: &[u32],
    letters: u32,
    numbers: &[u32],
    looping: &[bool],
) -> Result<bool, Memory>
    requires rows { length rows.now ≡ length numbers.now * letters }
    requires targets { All (λ q. q < length numbers.now) rows.now }
    requires few { length numbers.now < 64 }
{
    let found = parts_of(alloc, rows, letters, numbers.len() as u32)?;
    Ok(have_numbers(&found, numbers, looping))
}

// Whether the graph is weak, and its states have these ranks and by them these colours.
fn are_ranks(
    alloc: Global,
    rows: &[u32],
    letters: u32,
    colours: &[u32],
    ranks: &[u32],
    by_rank: &[u32],
) -> Result<bool, Memory>
    requires rows { length rows.now ≡ length colours.now * letters }
    requires targets { All (λ q. q < length colours.now) rows.now }
    requires letters { 0 < letters }
    requires few { length colours.now < 64 }
    requires colours { All (λ c. c < 2) colours.now }
{
    let found = parts_of(alloc, rows, letters, colours.len() as u32)?;
    if !is_weak(colours, &found) {
        return Ok(false);
    }
    let numbers = ranks_of(alloc, rows, letters, colours, &found)?;
    let changed = rank_colours(alloc, rows, letters, colours, &found)?;
    Ok(numbers.as_slice() == ranks && changed.as_slice() == by_rank)
}

// Gives a fraction state its two targets.
fn set_targets(rt: &impl Abort, table: &mut Table<Plain>, state: u32, zero: u32, one: u32)
    requires { table.old.bounds ≡ wide }
    ensures bounds { table.new.bounds ≡ wide }
    ensures fracs { fracs table.new.table ≡ fracs table.old.table }
{
    assert!(rt; table.letters() == 2 && state < table.fracs());
    assert!(rt; zero < table.fracs() && one < table.fracs());
    table.set_frac(state, 0, zero);
    table.set_frac(state, 1, one);
}

// A table with the fraction states of `x <= 0`: the fraction is 0 so far, and below it all is accepted, or nothing.
fn at_most_zero(rt: &impl Abort, alloc: Global, base: Base) -> Result<Table<Plain>, Memory>
    requires { base ≡ 2 }
    ensures { IfOk result (λ k. fracs k.table ≡ 3) }
{
    let mut table = match Table::<Plain>::blank(alloc, base, 1, 1, 3) {
        Ok(table) => table,
        Err(Memory) => return Err(Memory),
    };
    set_targets(rt, &mut table, 0, 0, 2);
    set_targets(rt, &mut table, 1, 1, 1);
    set_targets(rt, &mut table, 2, 2, 2);
    Ok(table)
}

// Three states, each of which loops: the first goes to the last.
fn check_table(rt: &impl Abort, alloc: Global, base: Base) -> Result<(), Fail>
    requires { base ≡ 2 }
{
    let table = at_most_zero(rt, alloc, base)?;
    let rows = frac_rows_of(alloc, &table)?;
    assert_eq!(rt; rows.as_slice(), [0, 2, 1, 1, 2, 2].as_slice());
    let found = components(alloc, &table)?;
    assert!(rt; have_numbers(&found, [1, 2, 0].as_slice(), [true, true, true].as_slice()));
    Ok(())
}

fn check_ranks(rt: &impl Abort, alloc: Global) -> Result<(), Fail> {
    // 0 and 1 go to each other with colour no, and 2 goes to 3, which goes to itself with colour yes.
    let rows = [1, 0, 3, 3];
    let ranks = [1, 1, 0, 0];
    assert!(rt;
        are_ranks(
            alloc,
            rows.as_slice(),
            1,
            [0, 0, 0, 1].as_slice(),
            ranks.as_slice(),
            [0, 0, 1, 1].as_slice()
        )?
    );
    // If 0 has colour yes, the graph is not weak.
    assert!(rt;
        !are_ranks(
            alloc,
            rows.as_slice(),
            1,
            [1, 0, 0, 1].as_slice(),
            ranks.as_slice(),
            [0, 0, 1, 1].as_slice()
        )?
    );
    // Four loops, each reached from the one before, of alternating colours; then the first three have one colour.
    let rows = [0, 1, 1, 2, 2, 3, 3, 3];
    let colours = [1, 0, 1, 0];
    assert!(rt;
        are_ranks(
            alloc,
            rows.as_slice(),
            2,
            colours.as_slice(),
            [4, 3, 2, 1].as_slice(),
            colours.as_slice()
        )?
    );
    let colours = [0, 0, 0, 1];
    assert!(rt;
        are_ranks(
            alloc,
            rows.as_slice(),
            2,
            colours.as_slice(),
            [1, 1, 1, 0].as_slice(),
            colours.as_slice()
        )?
    );
    // States 0 and 1 lie on no loop, so they take the colour of their rank.
    let rows = [1, 2, 3, 3, 2, 2, 3, 3];
    let ranks = [1, 1, 0, 1];
    assert!(rt;
        are_ranks(
            alloc,
            rows.as_slice(),
            2,
            [0, 1, 1, 0].as_slice(),
            ranks.as_slice(),
            [0, 0, 1, 0].as_slice()
        )?
    );
    // The fraction states of x <= 0.
    let rows = [0, 2, 1, 1, 2, 2];
    let colours = [1, 1, 0];
    assert!(rt;
        are_ranks(
            alloc,
            rows.as_slice(),
            2,
            colours.as_slice(),
            [2, 0, 1].as_slice(),
            colours.as_slice()
        )?
    );
    Ok(())
}

#[test]
fn graphs(rt: HostRuntime) -> Result<(), Fail> {
    let alloc = rt.alloc();
    // A chain, whose last state goes to itself.
    let loops = [true, false, false, false];
    assert!(rt;
        are_parts(
            alloc,
            [1, 2, 3, 3].as_slice(),
            1,
            [3, 2, 1, 0].as_slice(),
            loops.as_slice()
        )?
    );
    // No letters, and no states.
    let loops = [false, false, false];
    assert!(rt;
        are_parts(
            alloc,
            [].as_slice(),
            0,
            [0, 1, 2].as_slice(),
            loops.as_slice()
        )?
    );
    assert!(rt; are_parts(alloc, [].as_slice(), 2, [].as_slice(), [].as_slice())?);
    // 0 to 1 to 2 and back to 0, and between them 1 to 3 to 4 to 1; then 2 goes to 5, which goes to itself by both letters.
    let nested = [1, 1, 2, 3, 0, 5, 4, 4, 1, 1, 5, 5];
    let numbers = [1, 1, 1, 1, 1, 0];
    assert!(rt;
        are_parts(
            alloc,
            nested.as_slice(),
            2,
            numbers.as_slice(),
            [true, true].as_slice()
        )?
    );
    // Two cycles, 0 with 1 and 2 with 3, if 1 goes to 4 and 4 goes to 2.
    let apart = [1, 1, 0, 4, 3, 3, 2, 2, 2, 2];
    let loops = [true, false, true];
    assert!(rt;
        are_parts(
            alloc,
            apart.as_slice(),
            2,
            [2, 2, 0, 0, 1].as_slice(),
            loops.as_slice()
        )?
    );
    check_ranks(&rt, alloc)?;
    let two = Base::new(2).ok_or("2 is a base")?;
    check_table(&rt, alloc, two)
}
