//! The table of x = 0 over the reals in base 2: its complement, and its whole numbers.

ghost use Rattle.std.specs.Prelude.{◌≡◌, ◌<◌, ◌+◌, ◌*◌, ◌⊎◌, IsTrue, slice_index};
ghost use Rattle.lash_model.specs.Tables.{letters, fracs};
ghost use Rattle.part_laws.specs.Graphs.{IsWeak};
ghost use Rattle.part_laws.specs.CanonicalMixed.{fraction_graph};
ghost use Rattle.step_tables.specs.Kept.{wide};

use super::*;
use digit_codes::Base;
use lash_io::Memory;
use packed_cells::Plain;
use std::alloc::Global;
use std::process::Abort;
use std::test::Fail;
use step_tables::Table;

/// The targets of a state in both parts.
const ROWS: [[u32; 2]; 3] = [[0, 2], [2, 1], [2, 2]];

/// Gives an integer state and a fraction state of one number their targets, the output and the colour.
fn set_states(rt: &impl Abort, table: &mut Table<Plain>, state: u32, row: [u32; 2], yes: bool)
    requires cells { table.old.bounds ≡ wide }
    ensures cells { table.new.bounds ≡ wide }
{
    assert!(rt; table.letters() == 2 && table.ints() == 3 && table.fracs() == 3);
    assert!(rt; state < 3 && row[0] < 3 && row[1] < 3);
    table.set_out(state, state);
    table.set_int(state, 0, row[0]);
    table.set_int(state, 1, row[1]);
    table.set_frac(state, 0, row[0]);
    table.set_frac(state, 1, row[1]);
    table.set_colour(state, yes);
}

/// The table of x = 0.
fn zero(rt: &impl Abort, alloc: Global, two: Base) -> Result<Table<Plain>, Memory>
    requires { two ≡ 2 }
{
    let mut table = Table::<Plain>::blank(alloc, two, 1, 3, 3)?;
    table.set_root(1, 1);
    set_states(rt, &mut table, 0, ROWS[0], true);
    set_states(rt, &mut table, 1, ROWS[1], true);
    set_states(rt, &mut table, 2, ROWS[2], false);
    Ok(table)
}

/// Whether a fraction state has the colour yes, or leads to itself alone.
fn is_fine(table: &Table<Plain>, state: u32) -> bool
    requires letters { letters table.now.table ≡ 2 }
    requires state { state < fracs table.now.table }
    ensures { IsTrue result → (slice_index table.now.table.colours state ≡ 1)
        ⊎ ((slice_index table.now.table.frac_rows (state * 2 + 0) ≡ state) × (slice_index table.now.table.frac_rows (state * 2 + 1) ≡ state)) }
{
    if table.colour(state) {
        return true;
    }
    table.frac_step(state, 0) == state && table.frac_step(state, 1) == state
}

/// Whether a table with three fraction states is weak since those of colour no lead to themselves alone.
fn is_weak(table: &Table<Plain>) -> bool
    ensures fractions { IsTrue result → 0 < fracs table.now.table }
    ensures weak { IsTrue result → IsWeak (letters table.now.table) (fraction_graph table.now.table) }
{
    if table.letters() != 2 || table.fracs() != 3 {
        return false;
    }
    if !is_fine(table, 0) {
        return false;
    }
    if !is_fine(table, 1) {
        return false;
    }
    is_fine(table, 2)
}

/// The colours of the three fraction states.
fn colours_are(rt: &impl Abort, table: &Table<Plain>, colours: [bool; 3]) {
    assert!(rt; table.fracs() == 3);
    assert_eq!(rt; table.colour(0), colours[0]);
    assert_eq!(rt; table.colour(1), colours[1]);
    assert_eq!(rt; table.colour(2), colours[2]);
}

/// The integer states are those of the table of x = 0, with these outputs.
fn ints_are(rt: &impl Abort, table: &Table<Plain>, outs: [u32; 3]) {
    assert!(rt; table.letters() == 2 && table.tracks() == 1 && table.ints() == 3);
    assert!(rt; table.root(0) == 0 && table.root(1) == 1);
    for state in 0..3 {
        assert_eq!(rt; table.out(state), outs[state as usize]);
        assert_eq!(rt; table.int_step(state, 0), ROWS[state as usize][0]);
        assert_eq!(rt; table.int_step(state, 1), ROWS[state as usize][1]);
    }
}

// The word 0 is accepted, and its expansion by greatest digits is not a word.
#[test]
fn zero_among_integers(rt: HostRuntime) -> Result<(), Fail> {
    let two = Base::new(2).ok_or("2 is a base")?;
    let table = match zero(&rt, rt.alloc(), two) {
        Ok(table) => table,
        Err(Memory) => return Err(Fail::from("no memory")),
    };
    assert!(rt; is_weak(&table));
    match restrict_to_ints(rt.alloc(), &table) {
        Ok(whole) => {
            assert_eq!(rt; whole.fracs(), 0);
            ints_are(&rt, &whole, [1, 0, 0]);
            Ok(())
        }
        Err(Memory) => Err(Fail::from("no memory")),
    }
}

#[test]
fn all_but_zero(rt: HostRuntime) -> Result<(), Fail> {
    let two = Base::new(2).ok_or("2 is a base")?;
    let mut table = match zero(&rt, rt.alloc(), two) {
        Ok(table) => table,
        Err(Memory) => return Err(Fail::from("no memory")),
    };
    complement(&mut table);
    colours_are(&rt, &table, [false, false, true]);
    ints_are(&rt, &table, [0, 1, 2]);
    Ok(())
}
