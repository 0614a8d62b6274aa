//! The lines before those of the states. Own.

ghost use Rattle.std.specs.Prelude.{◌≡◌, ◌≤◌, ◌++◌, ◌^◌, length, codes, OnErr};
ghost use Rattle.lash_io.specs.Faults.{IsFaultCounted};
ghost use Rattle.automaton_texts.specs.Text.{variables_text, line, fracs_line, roots_text, heading, counts};
ghost use Rattle.lash_io.specs.Blocks.{Passes};

use crate::pieces::{put_number_line, put_spaced, put_variable};
use digit_codes::Base;
use formula_core::Vars;
use lash_io::{Block, Failed, Sink};
use packed_cells::Cells;
use step_tables::Table;

/// Puts the names and sorts of the variables, of which there are `count`.
fn put_variables<K: Sink>(
    block: &mut Block,
    sink: &mut K,
    vars: &Vars,
    count: u32,
) -> Result<(), Failed>
    requires { count ≡ length vars.now }
    ensures bytes { Passes (K.held sink.old) block.old (K.held sink.new) block.new result (variables_text vars.now) }
    ensures count { K.faults sink.old ≤ K.faults sink.new }
    ensures cause { OnErr result (IsFaultCounted (K.faults sink.old) (K.faults sink.new)) }
{
    for at in 0..count {
        put_variable(block, sink, vars.name(at), vars.sorts()[at as usize])?;
    }
    Ok(())
}

/// Puts the line of the variables, of which there are `count`.
fn put_vars_line<K: Sink>(
    block: &mut Block,
    sink: &mut K,
    vars: &Vars,
    count: u32,
) -> Result<(), Failed>
    requires { count ≡ length vars.now }
    ensures bytes { Passes (K.held sink.old) block.old (K.held sink.new) block.new result (line (codes "vars") (variables_text vars.now)) }
    ensures count { K.faults sink.old ≤ K.faults sink.new }
    ensures cause { OnErr result (IsFaultCounted (K.faults sink.old) (K.faults sink.new)) }
{
    block.put(sink, b"vars")?;
    put_variables(block, sink, vars, count)?;
    block.put(sink, b"\n")
}

/// Puts the lines of the format, of the base and of the variables, of which there are `count`.
pub(crate) fn put_heading<K: Sink>(
    block: &mut Block,
    sink: &mut K,
    base: Base,
    vars: &Vars,
    count: u32,
) -> Result<(), Failed>
    requires { count ≡ length vars.now }
    ensures bytes { Passes (K.held sink.old) block.old (K.held sink.new) block.new result (heading base vars.now) }
    ensures count { K.faults sink.old ≤ K.faults sink.new }
    ensures cause { OnErr result (IsFaultCounted (K.faults sink.old) (K.faults sink.new)) }
{
    block.put(sink, b"lash 1\n")?;
    put_number_line(block, sink, b"base", base.radix())?;
    put_vars_line(block, sink, vars, count)
}

/// Puts the line of the number of fraction states, where there are any.
fn put_fracs_line<K: Sink>(block: &mut Block, sink: &mut K, count: u32) -> Result<(), Failed>
    ensures bytes { Passes (K.held sink.old) block.old (K.held sink.new) block.new result (fracs_line count) }
    ensures count { K.faults sink.old ≤ K.faults sink.new }
    ensures cause { OnErr result (IsFaultCounted (K.faults sink.old) (K.faults sink.new)) }
{
    if count == 0 {
        return Ok(());
    }
    put_number_line(block, sink, b"frac", count)
}

/// The number of sign vectors.
fn sign_count<C: Cells>(table: &Table<C>) -> u32
    ensures { result ≡ 2 ^ table.now.table.tracks }
{
    // They are no more than the letters, since the base is at least 2.
    let letters = table.letters();
    let count = 2u32.pow(table.tracks());
    prove!(count <= letters);
    count
}

/// Puts the roots.
fn put_roots<C: Cells, K: Sink>(
    block: &mut Block,
    sink: &mut K,
    table: &Table<C>,
) -> Result<(), Failed>
    ensures bytes { Passes (K.held sink.old) block.old (K.held sink.new) block.new result (roots_text table.now.table) }
    ensures count { K.faults sink.old ≤ K.faults sink.new }
    ensures cause { OnErr result (IsFaultCounted (K.faults sink.old) (K.faults sink.new)) }
{
    for sign in 0..sign_count(table) {
        put_spaced(block, sink, table.root(sign))?;
    }
    Ok(())
}

/// Puts the line of the roots.
fn put_roots_line<C: Cells, K: Sink>(
    block: &mut Block,
    sink: &mut K,
    table: &Table<C>,
) -> Result<(), Failed>
    ensures bytes { Passes (K.held sink.old) block.old (K.held sink.new) block.new result (line (codes "roots") (roots_text table.now.table)) }
    ensures count { K.faults sink.old ≤ K.faults sink.new }
    ensures cause { OnErr result (IsFaultCounted (K.faults sink.old) (K.faults sink.new)) }
{
    block.put(sink, b"roots")?;
    put_roots(block, sink, table)?;
    block.put(sink, b"\n")
}

/// Puts the lines of the numbers of states and of the roots.
pub(crate) fn put_counts<C: Cells, K: Sink>(
    block: &mut Block,
    sink: &mut K,
    table: &Table<C>,
) -> Result<(), Failed>
    ensures bytes { Passes (K.held sink.old) block.old (K.held sink.new) block.new result (counts table.now.table) }
    ensures count { K.faults sink.old ≤ K.faults sink.new }
    ensures cause { OnErr result (IsFaultCounted (K.faults sink.old) (K.faults sink.new)) }
{
    put_number_line(block, sink, b"int", table.ints())?;
    put_fracs_line(block, sink, table.fracs())?;
    put_roots_line(block, sink, table)
}
