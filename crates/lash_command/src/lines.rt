//! The line of an ending, on the second sink. Own. It goes out in one block, and takes no memory.

ghost use Rattle.std.specs.Prelude.{◌≡◌, ◌≤◌, ◌++◌, codes, OnErr};
ghost use Rattle.std.specs.Fmt.{decimal};
ghost use Rattle.lash_io.specs.Faults.{IsFaultCounted};
ghost use Rattle.lash_io.specs.Blocks.{Passes};
ghost use Rattle.lash_io.specs.Sinks.{Puts};
ghost use Rattle.lash_command.specs.Lines.{fault_words, place_text, limit_words, letters_text, word_text, not_weak_text, refusal_text, refused_line, line_of, IsReported};

use crate::ending::{Ending, Refusal};
use digit_codes::Word;
use lash_io::{Block, Failed, Sink};
use script_meaning::Which;
use script_names::NameFault;

/// What is wrong about a name.
fn words_of_fault(fault: NameFault) -> &'static [u8]
    ensures { result.now ≡ fault_words fault }
{
    match fault {
        NameFault::Unknown => b"unknown name",
        NameFault::Repeated => b"repeated name",
        NameFault::Misused => b"misused name",
    }
}

/// The words of a limit.
fn words_of_limit(which: Which) -> &'static [u8]
    ensures { result.now ≡ limit_words which }
{
    match which {
        Which::StatementBytes => b"statement bytes",
        Which::ScriptBytes => b"script bytes",
        Which::Nesting => b"nesting",
        Which::Literal => b"literal",
        Which::LoopVariables => b"loop variables",
        Which::Sets => b"sets",
        Which::Nodes => b"nodes",
        Which::Depth => b"depth",
        Which::Coefficient => b"coefficient",
        Which::Constant => b"constant",
        Which::Letters => b"letters",
        Which::Denominator => b"denominator",
        Which::KeptCells => b"kept cells",
    }
}

/// Puts what is wrong, and the number of script bytes before it.
fn put_place<E: Sink>(
    block: &mut Block,
    sink: &mut E,
    wrong: &[u8],
    place: u64,
) -> Result<(), Failed>
    ensures bytes { Passes (E.held sink.old) block.old (E.held sink.new) block.new result (wrong.now ++ place_text place) }
    ensures count { E.faults sink.old ≤ E.faults sink.new }
    ensures cause { OnErr result (IsFaultCounted (E.faults sink.old) (E.faults sink.new)) }
{
    block.put(sink, wrong)?;
    block.put(sink, b" at byte ")?;
    block.put_number(sink, place)
}

/// Puts the limit that is passed.
fn put_limit<E: Sink>(block: &mut Block, sink: &mut E, which: Which) -> Result<(), Failed>
    ensures bytes { Passes (E.held sink.old) block.old (E.held sink.new) block.new result (codes "limit " ++ limit_words which) }
    ensures count { E.faults sink.old ≤ E.faults sink.new }
    ensures cause { OnErr result (IsFaultCounted (E.faults sink.old) (E.faults sink.new)) }
{
    block.put(sink, b"limit ")?;
    block.put(sink, words_of_limit(which))
}

/// Puts a letter after a comma.
fn put_letter<E: Sink>(block: &mut Block, sink: &mut E, letter: u32) -> Result<(), Failed>
    ensures bytes { Passes (E.held sink.old) block.old (E.held sink.new) block.new result (codes "," ++ decimal letter) }
    ensures count { E.faults sink.old ≤ E.faults sink.new }
    ensures cause { OnErr result (IsFaultCounted (E.faults sink.old) (E.faults sink.new)) }
{
    block.put(sink, b",")?;
    block.put_number(sink, letter as u64)
}

/// Puts letters, each after a comma.
fn put_letters<E: Sink>(block: &mut Block, sink: &mut E, letters: &[u32]) -> Result<(), Failed>
    ensures bytes { Passes (E.held sink.old) block.old (E.held sink.new) block.new result (letters_text letters.now) }
    ensures count { E.faults sink.old ≤ E.faults sink.new }
    ensures cause { OnErr result (IsFaultCounted (E.faults sink.old) (E.faults sink.new)) }
{
    for letter in letters {
        put_letter(block, sink, *letter)?;
    }
    Ok(())
}

/// Puts the letters of a word with commas between them.
fn put_word<E: Sink>(block: &mut Block, sink: &mut E, word: &Word) -> Result<(), Failed>
    ensures bytes { Passes (E.held sink.old) block.old (E.held sink.new) block.new result (word_text word.now) }
    ensures count { E.faults sink.old ≤ E.faults sink.new }
    ensures cause { OnErr result (IsFaultCounted (E.faults sink.old) (E.faults sink.new)) }
{
    match word.letters().split_first() {
        None => block.put(sink, b"-"),
        Some((first, others)) => {
            block.put_number(sink, *first as u64)?;
            put_letters(block, sink, others)
        }
    }
}

/// Puts a word after what it is.
fn put_part<E: Sink>(
    block: &mut Block,
    sink: &mut E,
    name: &[u8],
    word: &Word,
) -> Result<(), Failed>
    ensures bytes { Passes (E.held sink.old) block.old (E.held sink.new) block.new result (name.now ++ word_text word.now) }
    ensures count { E.faults sink.old ≤ E.faults sink.new }
    ensures cause { OnErr result (IsFaultCounted (E.faults sink.old) (E.faults sink.new)) }
{
    block.put(sink, name)?;
    put_word(block, sink, word)
}

/// Puts the words that show that a set is not weak.
fn put_not_weak<E: Sink>(
    block: &mut Block,
    sink: &mut E,
    sign: u32,
    whole: &Word,
    stem: &Word,
    accept: &Word,
    reject: &Word,
) -> Result<(), Failed>
    ensures bytes { Passes (E.held sink.old) block.old (E.held sink.new) block.new result (not_weak_text sign whole.now stem.now accept.now reject.now) }
    ensures count { E.faults sink.old ≤ E.faults sink.new }
    ensures cause { OnErr result (IsFaultCounted (E.faults sink.old) (E.faults sink.new)) }
{
    block.put(sink, b"not weak sign ")?;
    block.put_number(sink, sign as u64)?;
    put_part(block, sink, b" whole ", whole)?;
    put_part(block, sink, b" stem ", stem)?;
    put_part(block, sink, b" accept ", accept)?;
    put_part(block, sink, b" reject ", reject)
}

/// Puts why a statement is refused.
fn put_refusal<E: Sink>(block: &mut Block, sink: &mut E, refusal: &Refusal) -> Result<(), Failed>
    ensures bytes { Passes (E.held sink.old) block.old (E.held sink.new) block.new result (refusal_text refusal.now) }
    ensures count { E.faults sink.old ≤ E.faults sink.new }
    ensures cause { OnErr result (IsFaultCounted (E.faults sink.old) (E.faults sink.new)) }
{
    match refusal {
        Refusal::Syntax { place } => put_place(block, sink, b"syntax", *place),
        Refusal::Name { fault, place } => put_place(block, sink, words_of_fault(*fault), *place),
        Refusal::Limit { which } => put_limit(block, sink, *which),
        Refusal::NoPower => block.put(sink, b"no power"),
        Refusal::Heavy => block.put(sink, b"heavy"),
        Refusal::NotWeak {
            sign,
            whole,
            stem,
            accept,
            reject,
        } => put_not_weak(block, sink, *sign, whole, stem, accept, reject),
    }
}

/// Puts the line of a refused statement.
fn put_refused<E: Sink>(
    block: &mut Block,
    sink: &mut E,
    statement: u64,
    refusal: &Refusal,
) -> Result<(), Failed>
    ensures bytes { Passes (E.held sink.old) block.old (E.held sink.new) block.new result (refused_line statement refusal.now) }
    ensures count { E.faults sink.old ≤ E.faults sink.new }
    ensures cause { OnErr result (IsFaultCounted (E.faults sink.old) (E.faults sink.new)) }
{
    block.put(sink, b"lash: statement ")?;
    block.put_number(sink, statement)?;
    block.put(sink, b": ")?;
    put_refusal(block, sink, refusal)?;
    block.put(sink, b"\n")
}

/// Puts the line of an ending.
fn put_line<E: Sink>(block: &mut Block, sink: &mut E, ending: &Ending) -> Result<(), Failed>
    ensures bytes { Passes (E.held sink.old) block.old (E.held sink.new) block.new result (line_of ending.now) }
    ensures count { E.faults sink.old ≤ E.faults sink.new }
    ensures cause { OnErr result (IsFaultCounted (E.faults sink.old) (E.faults sink.new)) }
{
    match ending {
        Ending::Finished => block.put(sink, b""),
        Ending::Usage => block.put(sink, b"lash: usage: lash [-b BASE] [-m CELLS] [--gen N]\n"),
        Ending::Refused { statement, refusal } => put_refused(block, sink, *statement, refusal),
        Ending::ReadFault => block.put(sink, b"lash: read fault\n"),
        Ending::WriteFault => block.put(sink, b"lash: write fault\n"),
        Ending::NoMemory => block.put(sink, b"lash: no memory\n"),
        Ending::Unbuilt => block.put(sink, b"lash: unbuilt\n"),
    }
}

/// Writes the line of an ending, in one block.
fn write_line<E: Sink>(ending: &Ending, err: &mut E) -> Result<(), Failed>
    ensures text { Puts (E.held err.old) (E.held err.new) result (line_of ending.now) }
    ensures cause { OnErr result (IsFaultCounted (E.faults err.old) (E.faults err.new)) }
{
    let mut block = Block::new();
    put_line(&mut block, err, ending)?;
    block.flush(err)
}

/// Writes the line of an ending, all of it or, where a fault of the sink is counted, a part.
pub fn report<E: Sink>(ending: &Ending, err: &mut E)
    ensures { IsReported (line_of ending.now) (E.held err.old) (E.held err.new) (E.faults err.old) (E.faults err.new) }
{
    match write_line(ending, err) {
        Ok(()) => {}
        Err(_) => {}
    }
}
