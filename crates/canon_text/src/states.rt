//! The lines of the states. Own.

ghost use Rattle.std.specs.Prelude.{◌<◌, ◌≤◌, OnErr};
ghost use Rattle.lash_io.specs.Faults.{IsFaultCounted};
ghost use Rattle.lash_model.specs.Tables.{letters, ints, fracs};
ghost use Rattle.automaton_texts.specs.Text.{texts_upto, out_text, targets_text, int_line, frac_line};
ghost use Rattle.lash_io.specs.Blocks.{Passes};

use crate::pieces::{put_answer, put_spaced};
use lash_io::{Block, Failed, Sink};
use packed_cells::Cells;
use step_tables::Table;

/// Puts an output: yes or no where there are no fraction states, and else one of these.
fn put_out<C: Cells, K: Sink>(
    block: &mut Block,
    sink: &mut K,
    table: &Table<C>,
    out: u32,
) -> Result<(), Failed>
    ensures bytes { Passes (K.held sink.old) block.old (K.held sink.new) block.new result (out_text table.now.table out) }
    ensures count { K.faults sink.old ≤ K.faults sink.new }
    ensures cause { OnErr result (IsFaultCounted (K.faults sink.old) (K.faults sink.new)) }
{
    if table.fracs() == 0 {
        put_answer(block, sink, out == 1)
    } else {
        put_spaced(block, sink, out)
    }
}

/// Puts the targets of an integer state.
fn put_int_targets<C: Cells, K: Sink>(
    block: &mut Block,
    sink: &mut K,
    table: &Table<C>,
    state: u32,
) -> Result<(), Failed>
    requires { state < ints table.now.table }
    ensures bytes { Passes (K.held sink.old) block.old (K.held sink.new) block.new result (targets_text table.now.table.rows (letters table.now.table) state) }
    ensures count { K.faults sink.old ≤ K.faults sink.new }
    ensures cause { OnErr result (IsFaultCounted (K.faults sink.old) (K.faults sink.new)) }
{
    for letter in 0..table.letters() {
        put_spaced(block, sink, table.int_step(state, letter))?;
    }
    Ok(())
}

/// Puts the line of an integer state.
fn put_int_line<C: Cells, K: Sink>(
    block: &mut Block,
    sink: &mut K,
    table: &Table<C>,
    state: u32,
) -> Result<(), Failed>
    requires { state < ints table.now.table }
    ensures bytes { Passes (K.held sink.old) block.old (K.held sink.new) block.new result (int_line table.now.table state) }
    ensures count { K.faults sink.old ≤ K.faults sink.new }
    ensures cause { OnErr result (IsFaultCounted (K.faults sink.old) (K.faults sink.new)) }
{
    block.put_number(sink, state as u64)?;
    put_out(block, sink, table, table.out(state))?;
    put_int_targets(block, sink, table, state)?;
    block.put(sink, b"\n")
}

/// Puts the lines of the integer states.
pub(crate) fn put_int_lines<C: Cells, K: Sink>(
    block: &mut Block,
    sink: &mut K,
    table: &Table<C>,
) -> Result<(), Failed>
    ensures bytes { Passes (K.held sink.old) block.old (K.held sink.new) block.new result (texts_upto (int_line table.now.table) (ints table.now.table)) }
    ensures count { K.faults sink.old ≤ K.faults sink.new }
    ensures cause { OnErr result (IsFaultCounted (K.faults sink.old) (K.faults sink.new)) }
{
    for state in 0..table.ints() {
        put_int_line(block, sink, table, state)?;
    }
    Ok(())
}

/// Puts the targets of a fraction state.
fn put_frac_targets<C: Cells, K: Sink>(
    block: &mut Block,
    sink: &mut K,
    table: &Table<C>,
    state: u32,
) -> Result<(), Failed>
    requires { state < fracs table.now.table }
    ensures bytes { Passes (K.held sink.old) block.old (K.held sink.new) block.new result (targets_text table.now.table.frac_rows (letters table.now.table) state) }
    ensures count { K.faults sink.old ≤ K.faults sink.new }
    ensures cause { OnErr result (IsFaultCounted (K.faults sink.old) (K.faults sink.new)) }
{
    for letter in 0..table.letters() {
        put_spaced(block, sink, table.frac_step(state, letter))?;
    }
    Ok(())
}

/// Puts the line of a fraction state.
fn put_frac_line<C: Cells, K: Sink>(
    block: &mut Block,
    sink: &mut K,
    table: &Table<C>,
    state: u32,
) -> Result<(), Failed>
    requires { state < fracs table.now.table }
    ensures bytes { Passes (K.held sink.old) block.old (K.held sink.new) block.new result (frac_line table.now.table state) }
    ensures count { K.faults sink.old ≤ K.faults sink.new }
    ensures cause { OnErr result (IsFaultCounted (K.faults sink.old) (K.faults sink.new)) }
{
    block.put_number(sink, state as u64)?;
    put_answer(block, sink, table.colour(state))?;
    put_frac_targets(block, sink, table, state)?;
    block.put(sink, b"\n")
}

/// Puts the lines of the fraction states.
pub(crate) fn put_frac_lines<C: Cells, K: Sink>(
    block: &mut Block,
    sink: &mut K,
    table: &Table<C>,
) -> Result<(), Failed>
    ensures bytes { Passes (K.held sink.old) block.old (K.held sink.new) block.new result (texts_upto (frac_line table.now.table) (fracs table.now.table)) }
    ensures count { K.faults sink.old ≤ K.faults sink.new }
    ensures cause { OnErr result (IsFaultCounted (K.faults sink.old) (K.faults sink.new)) }
{
    for state in 0..table.fracs() {
        put_frac_line(block, sink, table, state)?;
    }
    Ok(())
}
