//! Scripts in memory, by the text of the definitions.

ghost use Rattle.std.specs.Prelude.{◌≤◌};

use super::*;
use digit_codes::Base;
use formula_core::{Formula, Linear};
use lash_io::MemSource;
use script_meaning::Which;
use script_names::{Defs, NameFault};
use statement_meaning::Statement;
use std::alloc::{AllocError, Global};
use std::test::Fail;

type Answer = Result<Option<Statement>, ScriptError>;

/// Bytes that come in pieces of a given size, from a source whose stated calls fail.
fn source(alloc: Global, bytes: &[u8], piece: usize, fails: &[u64]) -> Result<MemSource, AllocError>
    requires { 1 ≤ piece }
{
    let bytes = Vec::from_slice(alloc, bytes)?;
    Ok(MemSource::new(bytes, piece, Vec::from_slice(alloc, fails)?))
}

/// A reader in base 2 that has taken nothing.
fn reader(alloc: Global) -> Result<Statements, Fail> {
    let binary = Base::new(2).ok_or("2 is a base")?;
    match Statements::new(alloc, binary) {
        Ok(statements) => Ok(statements),
        Err(_) => Err(Fail::from("no memory")),
    }
}

/// The next answer of a reader that is live, if no sets are kept.
fn next(
    alloc: Global,
    statements: &mut Statements,
    source: &mut MemSource,
) -> Result<Answer, Fail> {
    if !statements.live() {
        return Err(Fail::from("the reader is not live"));
    }
    Ok(statements.next(alloc, &Defs::new(alloc), source))
}

/// Whether a term is the variable at place 0 alone, compared to a bound.
fn is_bound(term: &Linear, bound: i128) -> bool {
    term.constant() == bound && term.terms() == [(0, 1)].as_slice()
}

/// Whether a statement shows one variable that is at most a bound.
fn shows_at_most(statement: &Statement, name: &[u8], bound: i128) -> bool {
    match statement {
        Statement::Show { vars, formula } => {
            if vars.sorts().len() != 1 || vars.name(0) != name {
                return false;
            }
            match formula {
                Formula::Le(term) => is_bound(term, bound),
                _ => false,
            }
        }
        _ => false,
    }
}

/// Whether an answer is a statement that shows one variable that is at most a bound.
fn is_at_most(answer: &Answer, name: &[u8], bound: i128) -> bool {
    match answer {
        Ok(Some(statement)) => shows_at_most(statement, name, bound),
        _ => false,
    }
}

/// The cause of the first refusal of a script whose bytes come three at a time; None if its first answer is another.
fn refusal(alloc: Global, bytes: &[u8], fails: &[u64]) -> Result<Option<ScriptError>, Fail> {
    let mut source = source(alloc, bytes, 3, fails)?;
    let mut statements = reader(alloc)?;
    let cause = next(alloc, &mut statements, &mut source)?.err();
    if cause.is_some() && statements.live() {
        return Err(Fail::from("a reader that has refused is live"));
    }
    Ok(cause)
}

/// Whether a script is at its end at once, and the reader is not live then.
fn is_blank(alloc: Global, bytes: &[u8]) -> Result<bool, Fail> {
    let mut source = source(alloc, bytes, 3, &[])?;
    let mut statements = reader(alloc)?;
    let ends = match next(alloc, &mut statements, &mut source)? {
        Ok(None) => true,
        _ => false,
    };
    Ok(ends && !statements.live())
}

/// Whether two statements are shown in their order, and then the script is at its end.
fn are_shown(alloc: Global, piece: usize) -> Result<bool, Fail>
    requires { 1 ≤ piece }
{
    let script = b"show (x int): x <= 3;# and; then\nshow (y int): y <= -4;\n";
    let mut source = source(alloc, script, piece, &[])?;
    let mut statements = reader(alloc)?;
    let first = next(alloc, &mut statements, &mut source)?;
    let second = next(alloc, &mut statements, &mut source)?;
    let last = next(alloc, &mut statements, &mut source)?;
    Ok(is_at_most(&first, b"x", 3) && is_at_most(&second, b"y", -4) && ends(&last))
}

fn ends(answer: &Answer) -> bool {
    match answer {
        Ok(None) => true,
        _ => false,
    }
}

#[test]
fn statements_are_given_in_order(rt: HostRuntime) -> Result<(), Fail> {
    assert!(rt; are_shown(rt.alloc(), 1)?);
    assert!(rt; are_shown(rt.alloc(), 3)?);
    assert!(rt; are_shown(rt.alloc(), usize::MAX)?);
    Ok(())
}

#[test]
fn scripts_without_tokens_end(rt: HostRuntime) -> Result<(), Fail> {
    assert!(rt; is_blank(rt.alloc(), b"")?);
    assert!(rt; is_blank(rt.alloc(), b" \t\r\n# a; b")?);
    Ok(())
}

/// A name that is wrong, at a byte.
fn name(fault: NameFault, place: u64) -> ScriptError {
    ScriptError::Name { fault, place }
}

fn limit(which: Which) -> ScriptError {
    ScriptError::Limit { which }
}

/// Whether each script is refused for the cause beside it.
fn are_refused(alloc: Global, cases: &[(&[u8], ScriptError)]) -> Result<bool, Fail> {
    for (script, cause) in cases {
        if refusal(alloc, script, &[])? != Some(*cause) {
            return Ok(false);
        }
    }
    Ok(true)
}

#[test]
fn refusals_are_told(rt: HostRuntime) -> Result<(), Fail> {
    let cases: &[(&[u8], ScriptError)] = &[
        (b"show (x int): x <= ;", ScriptError::Syntax { place: 19 }),
        (b";", ScriptError::Syntax { place: 0 }),
        (b"; check true", ScriptError::Syntax { place: 0 }),
        (b"show (x int): x", ScriptError::Syntax { place: 15 }),
        (
            b"show (x int): exists y int x <= y;",
            ScriptError::Syntax { place: 27 },
        ),
        (b"show (x int): y <= 1;", name(NameFault::Unknown, 14)),
        (b"set A (x real) = y <= 1;", name(NameFault::Unknown, 17)),
        (b"show (x int): set1(3);", name(NameFault::Unknown, 14)),
        (b"print B;", name(NameFault::Unknown, 6)),
        (
            b"test A (18446744073709551617);",
            name(NameFault::Unknown, 5),
        ),
        (b"show (x int, x int): true;", name(NameFault::Repeated, 13)),
        (
            b"show (x int): exists x int: x <= 1;",
            name(NameFault::Repeated, 21),
        ),
        (
            b"show (x int): forall y int: exists y int: x <= y;",
            name(NameFault::Repeated, 35),
        ),
        (
            b"show (x int): (exists y int: x = y) and y <= 1;",
            name(NameFault::Unknown, 40),
        ),
        (
            b"show (x int): x <= 18446744073709551617;",
            limit(Which::Literal),
        ),
        (thirteen(), limit(Which::Letters)),
        (twelve_bound(), limit(Which::Letters)),
    ];
    assert!(rt; are_refused(rt.alloc(), cases)?);
    Ok(())
}

/// Thirteen variables: in base 2 these are 8,192 letters.
fn thirteen() -> &'static [u8] {
    b"show (a int, b int, c int, d int, e int, f int, g int, h int, i int, j int, k int, l int, m int): true;"
}

/// Twelve bound variables beside a declared one, all free in one part.
fn twelve_bound() -> &'static [u8] {
    b"show (x int): exists a int, b int, c int, d int, e int, f int, g int, h int, i int, j int, k int, l int: x + a + b + c + d + e + f + g + h + i + j + k + l <= 1;"
}

/// A statement whose formula has the same in front so many times.
fn nested(alloc: Global, front: &[u8], count: usize) -> Result<Vec<u8>, AllocError> {
    let mut script = Vec::from_slice(alloc, b"show (x int): ")?;
    for _ in 0..count {
        script.extend_from_slice(front)?;
    }
    script.extend_from_slice(b"x <= 1;")?;
    Ok(script)
}

// The names are judged if the nesting is within its limit.
#[test]
fn nesting_comes_before_names(rt: HostRuntime) -> Result<(), Fail> {
    let deep = nested(rt.alloc(), b"exists y int: ", 257)?;
    let repeated = nested(rt.alloc(), b"exists y int: ", 256)?;
    let denied = nested(rt.alloc(), b"not ", 257)?;
    let cases: &[(&[u8], ScriptError)] = &[
        (deep.as_slice(), limit(Which::Nesting)),
        (denied.as_slice(), limit(Which::Nesting)),
        (repeated.as_slice(), name(NameFault::Repeated, 35)),
    ];
    assert!(rt; are_refused(rt.alloc(), cases)?);
    Ok(())
}

#[test]
fn a_statement_has_65536_bytes_at_the_most(rt: HostRuntime) -> Result<(), Fail> {
    let script = vec![in rt.alloc(); b' '; 65_537]?;
    assert!(rt; is_blank(rt.alloc(), &script[..65_536])?);
    let mut long = Vec::from_slice(rt.alloc(), script.as_slice())?;
    long.push(b';')?;
    assert_eq!(rt;
        refusal(rt.alloc(), long.as_slice(), &[])?,
        Some(ScriptError::Limit {
            which: Which::StatementBytes
        })
    );
    Ok(())
}

#[test]
fn faults_of_reads_are_told(rt: HostRuntime) -> Result<(), Fail> {
    assert_eq!(rt;
        refusal(rt.alloc(), b"show (x int): x <= 3;", &[2])?,
        Some(ScriptError::Read)
    );
    Ok(())
}
