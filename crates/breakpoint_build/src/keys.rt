//! Keys of breakpoint states: how many states there are where the automaton can be, these states, and after them those that owe.

ghost use Rattle.std.specs.Prelude.{◌≡◌, ◌++◌, ◌∷◌, ◌<◌, ◌^◌, All, length, IsTrue, OnOk};
ghost use Rattle.lash_model.specs.Tables.{ints, fracs};
ghost use Rattle.subset_build.specs.Projection.{is_rising_in};
ghost use Rattle.breakpoint_laws.specs.Breakpoints.{states_of, owing_of, yes_states, entries_of_set, is_key};
ghost use Rattle.breakpoint_build.specs.BreakpointMachines.{outputs_of};

use lash_io::Memory;
use packed_cells::Cells;
use std::alloc::Global;
use step_tables::{Key, Table};
use subset_build::put_in_order;

/// The states of a key.
pub(crate) fn states_in(key: &[u32], states: u32) -> &[u32]
    requires { IsTrue (is_key states key.now) }
    ensures states { result.now ≡ states_of key.now }
    ensures rising { IsTrue (is_rising_in 0 states result.now) }
{
    let end = 1 + key[0] as usize;
    &key[1..end]
}

/// The states of a key that owe.
pub(crate) fn owing_in(key: &[u32], states: u32) -> &[u32]
    requires { IsTrue (is_key states key.now) }
    ensures owing { result.now ≡ owing_of key.now }
    ensures rising { IsTrue (is_rising_in 0 states result.now) }
{
    let from = 1 + key[0] as usize;
    &key[from..]
}

/// Begins a key with its states, which are at most 2^32 - 1.
pub(crate) fn begin_key(states: &[u32], into: &mut Key) -> Result<(), Memory>
    requires { length states.now < 2 ^ 32 }
    ensures { OnOk result (into.new.items ≡ length states.now ∷ states.now) }
{
    into.clear();
    match into.push(states.len() as u32) {
        Ok(()) => {}
        Err(_) => return Err(Memory),
    }
    match into.extend_from_slice(states) {
        Ok(()) => Ok(()),
        Err(_) => Err(Memory),
    }
}

/// Appends the states of colour yes among some.
pub(crate) fn push_yes<C: Cells>(
    table: &Table<C>,
    states: &[u32],
    into: &mut Key,
) -> Result<(), Memory>
    requires { All (λ q. q < fracs table.now.table) states.now }
    ensures { OnOk result (into.new.items ≡ into.old.items ++ yes_states table.now.table states.now) }
{
    for state in states {
        if table.colour(*state) {
            match into.push(*state) {
                Ok(()) => {}
                Err(_) => return Err(Memory),
            }
        }
    }
    Ok(())
}

/// Writes the outputs of the states of a set.
fn write_outputs<C: Cells>(table: &Table<C>, set: &[u32], into: &mut Key) -> Result<(), Memory>
    requires { All (λ q. q < ints table.now.table) set.now }
    ensures { OnOk result (into.new.items ≡ outputs_of table.now.table set.now) }
{
    into.clear();
    for state in set {
        match into.push(table.out(*state)) {
            Ok(()) => {}
            Err(_) => return Err(Memory),
        }
    }
    Ok(())
}

/// Writes the fraction states in which an automaton enters its fraction part from a set of integer states.
pub(crate) fn write_entries<C: Cells>(
    table: &Table<C>,
    set: &[u32],
    into: &mut Key,
) -> Result<(), Memory>
    requires fractions { 0 < fracs table.now.table }
    requires set { All (λ q. q < ints table.now.table) set.now }
    ensures { OnOk result (into.new.items ≡ entries_of_set table.now.table set.now) }
{
    let _letters = table.letters();
    match write_outputs(table, set, into) {
        Ok(()) => {}
        Err(Memory) => return Err(Memory),
    }
    put_in_order(into);
    Ok(())
}
