//! Writing the text of an automaton, through one block of fixed size. Own.
//!
//! Each cell is read once, and the sink is called once for a few thousand bytes. No memory is taken.

ghost use Rattle.std.specs.Prelude.{◌≤◌, OnErr};
ghost use Rattle.lash_io.specs.Faults.{IsFaultCounted};
ghost use Rattle.automaton_texts.specs.Text.{text_of};
ghost use Rattle.lash_io.specs.Sinks.{Puts};
ghost use Rattle.lash_io.specs.Blocks.{Passes};
ghost use Rattle.canon_text.specs.Heading.{HeadsTable};

use crate::header::Header;
use crate::lines::{put_counts, put_heading};
use crate::states::{put_frac_lines, put_int_lines};
use lash_io::{Block, Failed, Sink};
use packed_cells::Cells;
use step_tables::Table;
use weak_min::Canon;

/// Writes the text of a canonical table under a header. As a condition, the base is the table's, there is a variable for each track,
/// and no variable is real exactly where the table has no fraction states. It takes no memory.
///
/// Fails only at a fault of the sink, which then holds a prefix of the text.
pub fn write_text<K: Sink>(canon: &Canon, header: &Header, sink: &mut K) -> Result<(), Failed>
    requires { HeadsTable header.now.base header.now.vars canon.now.table }
    ensures text { Puts (K.held sink.old) (K.held sink.new) result (text_of header.now.vars canon.now.table) }
    ensures count { K.faults sink.old ≤ K.faults sink.new }
    ensures cause { OnErr result (IsFaultCounted (K.faults sink.old) (K.faults sink.new)) }
{
    write_table(canon.table(), header, sink)
}

/// Writes the text of a table, canonical or not, under a header. As a condition, the base is the table's, there is a variable for
/// each track, and no variable is real exactly where the table has no fraction states.
///
/// Fails only at a fault of the sink, which then holds a prefix of the text.
pub fn write_table<C: Cells, K: Sink>(
    table: &Table<C>,
    header: &Header,
    sink: &mut K,
) -> Result<(), Failed>
    requires { HeadsTable header.now.base header.now.vars table.now.table }
    ensures text { Puts (K.held sink.old) (K.held sink.new) result (text_of header.now.vars table.now.table) }
    ensures count { K.faults sink.old ≤ K.faults sink.new }
    ensures cause { OnErr result (IsFaultCounted (K.faults sink.old) (K.faults sink.new)) }
{
    let mut block = Block::new();
    put_text(&mut block, sink, table, header)?;
    block.flush(sink)
}

/// Puts the text of a table.
fn put_text<C: Cells, K: Sink>(
    block: &mut Block,
    sink: &mut K,
    table: &Table<C>,
    header: &Header,
) -> Result<(), Failed>
    requires { HeadsTable header.now.base header.now.vars table.now.table }
    ensures bytes { Passes (K.held sink.old) block.old (K.held sink.new) block.new result (text_of header.now.vars table.now.table) }
    ensures count { K.faults sink.old ≤ K.faults sink.new }
    ensures cause { OnErr result (IsFaultCounted (K.faults sink.old) (K.faults sink.new)) }
{
    put_heading(block, sink, table.base(), header.vars(), table.tracks())?;
    put_counts(block, sink, table)?;
    put_int_lines(block, sink, table)?;
    put_frac_lines(block, sink, table)?;
    block.put(sink, b"end\n")
}
