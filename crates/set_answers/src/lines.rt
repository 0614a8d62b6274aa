//! The lines of a solution. Own.

ghost use Rattle.std.specs.Prelude.{◌≡◌, ◌≤◌, ◌<◌, OnErr, pos};
ghost use Rattle.std.specs.Ordering.{int_eq};
ghost use Rattle.std.specs.Fmt.{signed_decimal};
ghost use Rattle.lash_io.specs.Faults.{IsFaultCounted};
ghost use Rattle.lash_io.specs.Sinks.{Puts};
ghost use Rattle.lash_io.specs.Blocks.{Passes};
ghost use Rattle.digit_codes.specs.Reading.{lasso_of};
ghost use Rattle.fraction_codes.specs.DigitText.{track_text};
ghost use Rattle.set_answers.specs.Solving.{ratio_text, value_text};
ghost use Rattle.set_answers.specs.Writing.{IsAnswer, line_of, lines_of, text_of_answer};

use digit_codes::{Base, Lasso};
use formula_core::Vars;
use fraction_codes::{Ratio, digits_text};
use itoa::Buffer;
use lash_io::{Block, Failed, Sink};

/// A solution over so many tracks, each with its variable and its value, and whether the digits after the point are written.
#[derive(Drop)]
pub(crate) struct Answer<'a> {
    pub base: Base,
    pub tracks: u32,
    pub vars: &'a Vars,
    pub lasso: &'a Lasso,
    pub found: &'a [Option<Ratio>],
    pub fraction: bool,
}

/// Writes the text of a solution.
pub(crate) fn write_lines<K: Sink>(answer: &Answer<'_>, sink: &mut K) -> Result<(), Failed>
    requires { IsAnswer answer.now }
    ensures text { Puts (K.held sink.old) (K.held sink.new) result (text_of_answer answer.now) }
    ensures count { K.faults sink.old ≤ K.faults sink.new }
    ensures cause { OnErr result (IsFaultCounted (K.faults sink.old) (K.faults sink.new)) }
{
    let mut block = Block::new();
    put_text(&mut block, sink, answer)?;
    block.flush(sink)
}

/// Puts the text of a solution.
fn put_text<K: Sink>(block: &mut Block, sink: &mut K, answer: &Answer<'_>) -> Result<(), Failed>
    requires { IsAnswer answer.now }
    ensures bytes { Passes (K.held sink.old) block.old (K.held sink.new) block.new result (text_of_answer answer.now) }
    ensures count { K.faults sink.old ≤ K.faults sink.new }
    ensures cause { OnErr result (IsFaultCounted (K.faults sink.old) (K.faults sink.new)) }
{
    block.put(sink, b"solution\n")?;
    put_lines(block, sink, answer)
}

/// Puts the lines of the variables.
fn put_lines<K: Sink>(block: &mut Block, sink: &mut K, answer: &Answer<'_>) -> Result<(), Failed>
    requires { IsAnswer answer.now }
    ensures bytes { Passes (K.held sink.old) block.old (K.held sink.new) block.new result (lines_of answer.now) }
    ensures count { K.faults sink.old ≤ K.faults sink.new }
    ensures cause { OnErr result (IsFaultCounted (K.faults sink.old) (K.faults sink.new)) }
{
    for at in 0..answer.tracks {
        put_line(block, sink, answer, at)?;
    }
    Ok(())
}

/// Puts the line of a variable.
fn put_line<K: Sink>(
    block: &mut Block,
    sink: &mut K,
    answer: &Answer<'_>,
    at: u32,
) -> Result<(), Failed>
    requires answer { IsAnswer answer.now }
    requires track { at < answer.now.tracks }
    ensures bytes { Passes (K.held sink.old) block.old (K.held sink.new) block.new result (line_of answer.now at) }
    ensures count { K.faults sink.old ≤ K.faults sink.new }
    ensures cause { OnErr result (IsFaultCounted (K.faults sink.old) (K.faults sink.new)) }
{
    block.put(sink, answer.vars.name(at))?;
    block.put(sink, b" ")?;
    put_value(block, sink, &answer.found[at as usize])?;
    block.put(sink, b" ")?;
    put_digits(block, sink, answer, at)?;
    block.put(sink, b"\n")
}

/// Puts the digits of a variable. What is pending is sent before.
fn put_digits<K: Sink>(
    block: &mut Block,
    sink: &mut K,
    answer: &Answer<'_>,
    at: u32,
) -> Result<(), Failed>
    requires answer { IsAnswer answer.now }
    requires track { at < answer.now.tracks }
    ensures bytes { Passes (K.held sink.old) block.old (K.held sink.new) block.new result (track_text answer.now.base answer.now.tracks at (lasso_of answer.now.lasso.now) answer.now.fraction) }
    ensures count { K.faults sink.old ≤ K.faults sink.new }
    ensures cause { OnErr result (IsFaultCounted (K.faults sink.old) (K.faults sink.new)) }
{
    block.flush(sink)?;
    digits_text(
        answer.base,
        answer.tracks,
        answer.lasso,
        at,
        answer.fraction,
        sink,
    )
}

/// Puts a value; `-` if there is none.
fn put_value<K: Sink>(block: &mut Block, sink: &mut K, found: &Option<Ratio>) -> Result<(), Failed>
    ensures bytes { Passes (K.held sink.old) block.old (K.held sink.new) block.new result (value_text found.now) }
    ensures count { K.faults sink.old ≤ K.faults sink.new }
    ensures cause { OnErr result (IsFaultCounted (K.faults sink.old) (K.faults sink.new)) }
{
    match found {
        Some(value) => put_ratio(block, sink, value),
        None => block.put(sink, b"-"),
    }
}

/// Puts a fraction; a denominator of 1 is left out.
fn put_ratio<K: Sink>(block: &mut Block, sink: &mut K, value: &Ratio) -> Result<(), Failed>
    ensures bytes { Passes (K.held sink.old) block.old (K.held sink.new) block.new result (ratio_text value.now) }
    ensures count { K.faults sink.old ≤ K.faults sink.new }
    ensures cause { OnErr result (IsFaultCounted (K.faults sink.old) (K.faults sink.new)) }
{
    put_integer(block, sink, &value.num)?;
    if is_one(&value.den) {
        return Ok(());
    }
    block.put(sink, b"/")?;
    put_integer(block, sink, &value.den)
}

/// Whether an integer is 1.
fn is_one(number: &i128) -> bool
    ensures { result ≡ int_eq number.now (pos 1) }
{
    *number == 1
}

/// Puts the decimal text of an integer.
fn put_integer<K: Sink>(block: &mut Block, sink: &mut K, number: &i128) -> Result<(), Failed>
    ensures bytes { Passes (K.held sink.old) block.old (K.held sink.new) block.new result (signed_decimal number.now) }
    ensures count { K.faults sink.old ≤ K.faults sink.new }
    ensures cause { OnErr result (IsFaultCounted (K.faults sink.old) (K.faults sink.new)) }
{
    let mut buffer = Buffer::new();
    block.put(sink, buffer.format(*number).as_bytes())
}
