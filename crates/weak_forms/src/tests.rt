//! Tables in base 2 with one track and one integer state, whose answers are found by hand.

ghost use Rattle.std.specs.Prelude.{◌≡◌};
ghost use Rattle.step_tables.specs.Kept.{wide};

use crate::{CoTable, WeakError, weaken};
use digit_codes::Base;
use lash_io::Memory;
use packed_cells::Plain;
use std::alloc::Global;
use std::process::Abort;
use std::test::Fail;
use step_tables::Table;

/// A fraction state: its colour, 1 for yes, and its targets by the two letters.
type Row = [u32; 3];

/// A table and its answer: the output of the integer state, the fraction states, and either the colours of the weak form or, if there is
/// none, the stem and the two loops that show it.
#[derive(Drop)]
struct Case<'a> {
    output: u32,
    states: &'a [Row],
    colours: &'a [bool],
    stem: &'a [u32],
    accept: &'a [u32],
    reject: &'a [u32],
}

/// Gives a fraction state its colour and its targets.
fn set_state(rt: &impl Abort, table: &mut Table<Plain>, state: u32, row: Row)
    requires { table.old.bounds ≡ wide }
    ensures { table.new.bounds ≡ wide }
{
    assert!(rt; table.letters() == 2 && state < table.fracs());
    assert!(rt; row[1] < table.fracs() && row[2] < table.fracs());
    table.set_colour(state, row[0] == 1);
    table.set_frac(state, 0, row[1]);
    table.set_frac(state, 1, row[2]);
}

/// The table with that output and those fraction states, read by its marks.
fn marked(
    rt: &impl Abort,
    alloc: Global,
    two: Base,
    output: u32,
    states: &[Row],
) -> Result<CoTable<Plain>, Memory>
    requires { two ≡ 2 }
{
    assert!(rt; states.len() > 0 && states.len() < 10);
    let mut table = match Table::<Plain>::blank(alloc, two, 1, 1, states.len() as u32) {
        Ok(table) => table,
        Err(Memory) => return Err(Memory),
    };
    let mut state = 0u32;
    for row in states {
        set_state(rt, &mut table, state, *row);
        state = state.wrapping_add(1);
    }
    assert!(rt; table.ints() == 1 && table.fracs() > 0 && output < table.fracs());
    table.set_out(0, output);
    assert!(rt; table.fracs() > 0);
    Ok(CoTable::new(table))
}

fn check_colours(rt: &impl Abort, table: &Table<Plain>, colours: &[bool]) {
    assert!(rt; table.fracs() as usize == colours.len());
    for state in 0..table.fracs() {
        assert!(rt; Some(&table.colour(state)) == colours.get(state as usize));
    }
}

fn check(rt: &impl Abort, alloc: Global, two: Base, case: &Case<'_>) -> Result<(), Fail>
    requires { two ≡ 2 }
{
    let table = marked(rt, alloc, two, case.output, case.states)?;
    match weaken(alloc, table) {
        Ok(form) => check_colours(rt, &form, case.colours),
        Err(
            WeakError::NotWeak {
                sign,
                whole,
                stem,
                accept,
                reject,
            },
        ) => {
            assert!(rt; case.colours.is_empty());
            assert_eq!(rt; sign, 0);
            assert!(rt; whole.letters().is_empty());
            assert_eq!(rt; stem.letters(), case.stem);
            assert_eq!(rt; accept.letters(), case.accept);
            assert_eq!(rt; reject.letters(), case.reject);
        }
        Err(WeakError::Memory) => return Err(Fail::from("there is no memory")),
    }
    Ok(())
}

#[test]
fn weak_forms(rt: HostRuntime) -> Result<(), Fail> {
    let alloc = rt.alloc();
    let two = Base::new(2).ok_or("2 is a base")?;
    let cases = [
        Case {
            output: 0,
            states: &[[0, 0, 1], [1, 0, 1]],
            colours: &[],
            stem: &[1],
            accept: &[1],
            reject: &[0, 1],
        },
        Case {
            output: 2,
            states: &[[0, 0, 1], [1, 0, 1], [1, 2, 2]],
            colours: &[false, false, true],
            stem: &[],
            accept: &[],
            reject: &[],
        },
    ];
    for case in &cases {
        check(&rt, alloc, two, case)?;
    }
    Ok(())
}
