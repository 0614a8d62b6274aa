//! The words of a line. Own.

ghost use Rattle.std.specs.Prelude.{◌≤◌, ◌++◌, codes, OnErr};
ghost use Rattle.lash_io.specs.Faults.{IsFaultCounted};
ghost use Rattle.automaton_texts.specs.Text.{number_text, answer_text, sort_text, number_line};
ghost use Rattle.lash_io.specs.Blocks.{Passes};
ghost use Rattle.formula_core.specs.Variables.{sort_of};

use formula_core::Sort;
use lash_io::{Block, Failed, Sink};

/// Puts a number behind a space.
pub(crate) fn put_spaced<K: Sink>(
    block: &mut Block,
    sink: &mut K,
    number: u32,
) -> Result<(), Failed>
    ensures bytes { Passes (K.held sink.old) block.old (K.held sink.new) block.new result (number_text number) }
    ensures count { K.faults sink.old ≤ K.faults sink.new }
    ensures cause { OnErr result (IsFaultCounted (K.faults sink.old) (K.faults sink.new)) }
{
    block.put(sink, b" ")?;
    block.put_number(sink, number as u64)
}

/// Puts yes or no behind a space.
pub(crate) fn put_answer<K: Sink>(block: &mut Block, sink: &mut K, yes: bool) -> Result<(), Failed>
    ensures bytes { Passes (K.held sink.old) block.old (K.held sink.new) block.new result (answer_text yes) }
    ensures count { K.faults sink.old ≤ K.faults sink.new }
    ensures cause { OnErr result (IsFaultCounted (K.faults sink.old) (K.faults sink.new)) }
{
    block.put(sink, if yes { b" +" } else { b" -" })
}

/// Puts a sort behind a space.
fn put_sort<K: Sink>(block: &mut Block, sink: &mut K, sort: Sort) -> Result<(), Failed>
    ensures bytes { Passes (K.held sink.old) block.old (K.held sink.new) block.new result (sort_text (sort_of sort)) }
    ensures count { K.faults sink.old ≤ K.faults sink.new }
    ensures cause { OnErr result (IsFaultCounted (K.faults sink.old) (K.faults sink.new)) }
{
    match sort {
        Sort::Int => block.put(sink, b" int"),
        Sort::Real => block.put(sink, b" real"),
    }
}

/// Puts a name and its sort, each behind a space.
pub(crate) fn put_variable<K: Sink>(
    block: &mut Block,
    sink: &mut K,
    name: &[u8],
    sort: Sort,
) -> Result<(), Failed>
    ensures bytes { Passes (K.held sink.old) block.old (K.held sink.new) block.new result (codes " " ++ (name.now ++ sort_text (sort_of sort))) }
    ensures count { K.faults sink.old ≤ K.faults sink.new }
    ensures cause { OnErr result (IsFaultCounted (K.faults sink.old) (K.faults sink.new)) }
{
    block.put(sink, b" ")?;
    block.put(sink, name)?;
    put_sort(block, sink, sort)
}

/// Puts the line of a word and a number.
pub(crate) fn put_number_line<K: Sink>(
    block: &mut Block,
    sink: &mut K,
    word: &[u8],
    number: u32,
) -> Result<(), Failed>
    ensures bytes { Passes (K.held sink.old) block.old (K.held sink.new) block.new result (number_line word.now number) }
    ensures count { K.faults sink.old ≤ K.faults sink.new }
    ensures cause { OnErr result (IsFaultCounted (K.faults sink.old) (K.faults sink.new)) }
{
    block.put(sink, word)?;
    put_spaced(block, sink, number)?;
    block.put(sink, b"\n")
}
