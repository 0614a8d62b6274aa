//! Runs over bytes in memory: what is shown, and each refusal that can be brought about from outside. The expected texts are worked out by
//! the definitions.

use super::*;
use lash_io::{MemSink, MemSource};
use std::alloc::{AllocError, Global};
use std::test::Fail;

const UP_TO_THREE: &[u8] =
    b"lash 1\nbase 2\nvars x int\nint 5\nroots 0 1\n0 + 0 2\n1 + 1 1\n2 + 3 3\n3 + 4 4\n4 - 4 4\nend\n";

const SESSION: &[u8] =
    b"set A (x int) = exists y int: y = 4*x and y >= 8;\nset B (x int) = A(x) and x <= 2;\nequal A B;\nsubset B A;\nprint A;\nsolve B;\ntest A (7/2);\ncheck forall x int: B(x) -> A(x + 1);\n";

const SESSION_ANSWERS: &[u8] =
    b"no\nyes\nlash 1\nbase 2\nvars x int\nint 4\nroots 0 1\n0 - 0 2\n1 - 1 1\n2 - 3 3\n3 + 3 3\nend\nsolution\nx 2 0:10\nout\ntrue\n";

const REAL_UP_TO_THREE: &[u8] =
    b"lash 1\nbase 2\nvars x real\nint 6\nfrac 3\nroots 0 1\n0 0 0 2\n1 0 1 1\n2 0 3 4\n3 0 5 5\n4 1 5 5\n5 2 5 5\n0 + 0 0\n1 + 1 2\n2 - 2 2\nend\n";

const REAL_SESSION: &[u8] =
    b"set A (x real) = 3*x >= 1 and x <= 2;\ntest A (1/3);\ntest A (1/4);\nset B (x real) = 3*x > 1 and x <= 2;\nequal A B;\nsubset B A;\nsubset A B;\nsolve A;\nprint B;\n";

const REAL_ANSWERS: &[u8] =
    b"in\nout\nno\nyes\nno\nsolution\nx 1/3 0:.(01)\nlash 1\nbase 2\nvars x real\nint 4\nfrac 5\nroots 0 1\n0 0 0 2\n1 1 1 1\n2 2 3 1\n3 3 1 1\n0 - 4 2\n1 - 1 1\n2 + 2 2\n3 + 3 1\n4 - 1 0\nend\n";

/// Bytes that come in pieces of five, from a source whose stated calls fail.
fn source(alloc: Global, script: &[u8], fails: &[u64]) -> Result<MemSource, AllocError> {
    let bytes = Vec::from_slice(alloc, script)?;
    Ok(MemSource::new(bytes, 5, Vec::from_slice(alloc, fails)?))
}

/// A sink that holds at most so many bytes.
fn sink(alloc: Global, room: usize) -> Result<MemSink, Fail> {
    match MemSink::new(alloc, room, Vec::new(alloc)) {
        Ok(sink) => Ok(sink),
        Err(_) => Err(Fail::from("no memory")),
    }
}

/// Whether a script without words ends with the code, the bytes on the first sink and the line on the second.
fn ends(alloc: Global, script: &[u8], code: u8, written: &[u8], line: &[u8]) -> Result<bool, Fail> {
    let mut input = source(alloc, script, &[])?;
    let mut out = sink(alloc, 400)?;
    let mut err = sink(alloc, 200)?;
    let status = run(alloc, &[], &mut input, &mut out, &mut err);
    Ok(status.code() == code && out.bytes() == written && err.bytes() == line)
}

#[test]
fn shows_the_integers_up_to_three(rt: HostRuntime) -> Result<(), Fail> {
    let script = b"show (x int): x <= 3;\n# no more; this is all\n";
    assert!(rt; ends(rt.alloc(), script, 0, UP_TO_THREE, b"")?);
    Ok(())
}

#[test]
fn shows_truth_functions(rt: HostRuntime) -> Result<(), Fail> {
    let both =
        b"lash 1\nbase 2\nvars x int\nint 4\nroots 0 1\n0 + 0 2\n1 - 1 1\n2 + 3 3\n3 + 1 1\nend\n";
    assert!(rt;
        ends(
            rt.alloc(),
            b"show (x int): x <= 3 and x >= 0;",
            0,
            both,
            b""
        )?
    );
    let none = b"lash 1\nbase 2\nvars x int\nint 1\nroots 0 0\n0 - 0 0\nend\n";
    assert!(rt;
        ends(
            rt.alloc(),
            b"show (x int): 2*x = 1 or not x = x;",
            0,
            none,
            b""
        )?
    );
    Ok(())
}

#[test]
fn refuses_wrong_statements(rt: HostRuntime) -> Result<(), Fail> {
    let syntax = b"lash: statement 1: syntax at byte 19\n";
    assert!(rt; ends(rt.alloc(), b"show (x int): x <= ;", 2, b"", syntax)?);
    let unknown = b"lash: statement 1: unknown name at byte 14\n";
    assert!(rt; ends(rt.alloc(), b"show (x int): y <= 1;", 2, b"", unknown)?);
    let repeated = b"lash: statement 1: repeated name at byte 13\n";
    assert!(rt;
        ends(
            rt.alloc(),
            b"show (x int, x int): x <= 1;",
            2,
            b"",
            repeated
        )?
    );
    Ok(())
}

/// A formula with a real variable, declared or bound, may bind variables.
#[test]
fn binds_variables_with_reals(rt: HostRuntime) -> Result<(), Fail> {
    let declared = b"set A (x real) = exists y int: 2*y <= x;\ntest A (1/2);\n";
    assert!(rt; ends(rt.alloc(), declared, 0, b"in\n", b"")?);
    let bound = b"show (x int): exists y real: x <= y;";
    let all = b"lash 1\nbase 2\nvars x int\nint 1\nroots 0 0\n0 + 0 0\nend\n";
    assert!(rt; ends(rt.alloc(), bound, 0, all, b"")?);
    assert!(rt;
        ends(
            rt.alloc(),
            b"check exists x real: x = 1;",
            0,
            b"true\n",
            b""
        )?
    );
    Ok(())
}

/// A number above 0 and at most x exists exactly if x is above 0: the text is that of `show (x real): x > 0;`.
#[test]
fn forgets_a_real_below_another(rt: HostRuntime) -> Result<(), Fail> {
    let above =
        b"lash 1\nbase 2\nvars x real\nint 3\nfrac 3\nroots 0 1\n0 0 0 2\n1 1 1 1\n2 2 2 2\n0 - 0 2\n1 - 1 1\n2 + 2 2\nend\n";
    let bound = b"show (x real): exists y real: 0 < y and y <= x;";
    assert!(rt; ends(rt.alloc(), bound, 0, above, b"")?);
    assert!(rt; ends(rt.alloc(), b"show (x real): x > 0;", 0, above, b"")?);
    Ok(())
}

/// The reals that are some integer, and those that have a half; a set that is a single integer, by a real that is bound; sentences.
#[test]
fn binds_both_sorts(rt: HostRuntime) -> Result<(), Fail> {
    let shown = b"show (x real): exists k int: x = k;\nshow (x real): exists y real: 2*y = x;\n";
    let texts =
        b"lash 1\nbase 2\nvars x real\nint 1\nfrac 4\nroots 0 0\n0 0 0 0\n0 + 1 2\n1 + 1 3\n2 + 3 2\n3 - 3 3\nend\nlash 1\nbase 2\nvars x real\nint 1\nfrac 1\nroots 0 0\n0 0 0 0\n0 + 0 0\nend\n";
    assert!(rt; ends(rt.alloc(), shown, 0, texts, b"")?);
    let sets =
        b"set A (x int) = x = 1;\nset B (x int) = exists y real: 2*y = x and 2 <= 4*y and 4*y <= 2;\nequal A B;\nprint B;\n";
    let one =
        b"yes\nlash 1\nbase 2\nvars x int\nint 3\nroots 0 1\n0 - 0 2\n1 - 1 1\n2 + 1 1\nend\n";
    assert!(rt; ends(rt.alloc(), sets, 0, one, b"")?);
    let sentences =
        b"check forall x real: exists n int: n <= x and x < n + 1;\ncheck exists n int: 2*n = 1;\ncheck exists y real: 2*y = 1;\n";
    assert!(rt; ends(rt.alloc(), sentences, 0, b"true\nfalse\ntrue\n", b"")?);
    Ok(())
}

#[test]
fn refuses_names_and_letters_beside_reals(rt: HostRuntime) -> Result<(), Fail> {
    let unknown = b"lash: statement 1: unknown name at byte 29\n";
    assert!(rt;
        ends(
            rt.alloc(),
            b"show (x real): exists y int: z <= y;",
            2,
            b"",
            unknown
        )?
    );
    let script =
        b"show (a real, b int, c int, d int, e int, f int, g int, h int, i int, j int, k int, l int, m int): exists n int: true;";
    let letters = b"lash: statement 1: limit letters\n";
    assert!(rt; ends(rt.alloc(), script, 3, b"", letters)?);
    Ok(())
}

/// The pairs of a loop bind the number of iterations. Its power and the limits of its closure come first.
#[test]
fn keeps_loops_of_reals(rt: HostRuntime) -> Result<(), Fail> {
    let script = b"loop L (x real) when x <= 10 do x := x + 1;\ntest L (1/2, 5/2);\n";
    assert!(rt; ends(rt.alloc(), script, 0, b"in\n", b"")?);
    let doubles = b"loop D (x real) when x <= 9 do x := 2*x;";
    assert!(rt;
        ends(
            rt.alloc(),
            doubles,
            4,
            b"",
            b"lash: statement 1: no power\n"
        )?
    );
    let far = b"loop D (x real) when x <= 9 do x := x + 1099511627776;";
    assert!(rt;
        ends(
            rt.alloc(),
            far,
            3,
            b"",
            b"lash: statement 1: limit coefficient\n"
        )?
    );
    Ok(())
}

#[test]
fn shows_the_reals_up_to_three(rt: HostRuntime) -> Result<(), Fail> {
    let script = b"show (x real): x <= 3;";
    assert!(rt; ends(rt.alloc(), script, 0, REAL_UP_TO_THREE, b"")?);
    Ok(())
}

/// Sets of reals are tested, compared, solved and printed.
#[test]
fn answers_a_session_of_reals(rt: HostRuntime) -> Result<(), Fail> {
    assert!(rt; ends(rt.alloc(), REAL_SESSION, 0, REAL_ANSWERS, b"")?);
    Ok(())
}

/// Sets over other sorts are not compared, and the values of a test have a common denominator of at most 65,536.
#[test]
fn refuses_other_sorts_and_fine_values(rt: HostRuntime) -> Result<(), Fail> {
    let sorts = b"set A (x real) = x <= 1; set B (x int) = x <= 1; equal A B;";
    let misused = b"lash: statement 3: misused name at byte 57\n";
    assert!(rt; ends(rt.alloc(), sorts, 2, b"", misused)?);
    let fine = b"set A (x real) = x <= 1; test A (1/3); test A (1/65537);";
    let denominator = b"lash: statement 3: limit denominator\n";
    assert!(rt; ends(rt.alloc(), fine, 3, b"in\n", denominator)?);
    Ok(())
}

/// A kept set is called, compared, printed, solved and tested.
#[test]
fn answers_a_session(rt: HostRuntime) -> Result<(), Fail> {
    assert!(rt; ends(rt.alloc(), SESSION, 0, SESSION_ANSWERS, b"")?);
    Ok(())
}

#[test]
fn refuses_a_name_that_is_kept(rt: HostRuntime) -> Result<(), Fail> {
    let repeated = b"lash: statement 2: repeated name at byte 21\n";
    assert!(rt;
        ends(
            rt.alloc(),
            b"set A () = true;\nset A () = false;",
            2,
            b"",
            repeated
        )?
    );
    Ok(())
}

#[test]
fn refuses_what_is_too_large(rt: HostRuntime) -> Result<(), Fail> {
    let script =
        b"show (a int, b int, c int, d int, e int, f int, g int, h int, i int, j int, k int, l int, m int): true;";
    assert!(rt;
        ends(
            rt.alloc(),
            script,
            3,
            b"",
            b"lash: statement 1: limit letters\n"
        )?
    );
    let literal = b"show (x int): x <= 18446744073709551617;";
    assert!(rt;
        ends(
            rt.alloc(),
            literal,
            3,
            b"",
            b"lash: statement 1: limit literal\n"
        )?
    );
    Ok(())
}

/// What is shown before a refusal stands, and the refused statement is counted.
#[test]
fn tells_the_refused_statement(rt: HostRuntime) -> Result<(), Fail> {
    let script = b"show (x int): x <= 3;\nshow (x int): x <;";
    assert!(rt;
        ends(
            rt.alloc(),
            script,
            2,
            UP_TO_THREE,
            b"lash: statement 2: syntax at byte 39\n"
        )?
    );
    let rest = b"show (x int): x <= 3; x";
    assert!(rt;
        ends(
            rt.alloc(),
            rest,
            2,
            UP_TO_THREE,
            b"lash: statement 2: syntax at byte 22\n"
        )?
    );
    Ok(())
}

/// One inequation of coefficients within their limit has more than 4,194,304 cells.
#[test]
fn refuses_a_heavy_set(rt: HostRuntime) -> Result<(), Fail> {
    let script = b"show (x int, y int): 8388608*x - 8388608*y <= 1;";
    assert!(rt; ends(rt.alloc(), script, 3, b"", b"lash: statement 1: heavy\n")?);
    Ok(())
}

#[test]
fn tells_a_fault_of_the_source(rt: HostRuntime) -> Result<(), Fail> {
    let alloc = rt.alloc();
    // Calls 1 to 5 give the 21 bytes of the statement, which is answered before call 6.
    let mut input = source(alloc, b"show (x int): x <= 3;    show", &[6])?;
    let mut out = sink(alloc, 200)?;
    let mut err = sink(alloc, 200)?;
    let status = run(alloc, &[], &mut input, &mut out, &mut err);
    assert_eq!(rt; status.code(), 6);
    assert_eq!(rt; out.bytes(), UP_TO_THREE);
    assert_eq!(rt; err.bytes(), b"lash: read fault\n".as_slice());
    Ok(())
}

#[test]
fn tells_a_fault_of_the_sink(rt: HostRuntime) -> Result<(), Fail> {
    let alloc = rt.alloc();
    let mut input = source(alloc, b"show (x int): x <= 3;", &[])?;
    let mut out = sink(alloc, 10)?;
    let mut err = sink(alloc, 6)?;
    let status = run(alloc, &[], &mut input, &mut out, &mut err);
    assert_eq!(rt; status.code(), 7);
    assert_eq!(rt; out.bytes(), b"lash 1\nbas".as_slice());
    assert_eq!(rt; err.bytes(), b"lash: ".as_slice());
    Ok(())
}

/// A piece of one line is one `put`; here the second one fails behind two bytes.
#[test]
fn puts_a_line_at_once(rt: HostRuntime) -> Result<(), Fail> {
    let alloc = rt.alloc();
    let mut input = source(alloc, b"check true; check false;", &[])?;
    let mut fails = Vec::new(alloc);
    fails.push((2, 2)).map_err(|_| AllocError)?;
    let mut out = match MemSink::new(alloc, 200, fails) {
        Ok(sink) => sink,
        Err(_) => return Err(Fail::from("no memory")),
    };
    let mut err = sink(alloc, 200)?;
    let status = run(alloc, &[], &mut input, &mut out, &mut err);
    assert_eq!(rt; status.code(), 7);
    assert_eq!(rt; out.bytes(), b"true\nfa".as_slice());
    assert_eq!(rt; err.bytes(), b"lash: write fault\n".as_slice());
    Ok(())
}

#[test]
fn answers_before_it_reads_on(rt: HostRuntime) -> Result<(), Fail> {
    let alloc = rt.alloc();
    let bytes = Vec::from_slice(alloc, b"check true;check false;")?;
    let mut input = MemSource::new(bytes, 11, Vec::from_slice(alloc, &[2])?);
    let mut out = sink(alloc, 200)?;
    let mut err = sink(alloc, 200)?;
    let status = run(alloc, &[], &mut input, &mut out, &mut err);
    assert_eq!(rt; status.code(), 6);
    assert_eq!(rt; out.bytes(), b"true\n".as_slice());
    assert_eq!(rt; err.bytes(), b"lash: read fault\n".as_slice());
    Ok(())
}

#[test]
fn takes_nothing_where_there_are_words(rt: HostRuntime) -> Result<(), Fail> {
    let alloc = rt.alloc();
    let mut words = Vec::new(alloc);
    words.push(String::new(alloc)).map_err(|_| AllocError)?;
    let mut input = source(alloc, b"show (x int): x <= 3;", &[1])?;
    let mut out = sink(alloc, 10)?;
    let mut err = sink(alloc, 200)?;
    let status = run(alloc, words.as_slice(), &mut input, &mut out, &mut err);
    assert_eq!(rt; status.code(), 9);
    assert_eq!(rt; out.bytes(), b"".as_slice());
    assert_eq!(rt; err.bytes(), b"lash: unbuilt\n".as_slice());
    Ok(())
}

/// A loop whose power is 1, one whose power is 2, and one that has none.
#[test]
fn keeps_loops(rt: HostRuntime) -> Result<(), Fail> {
    let script =
        b"loop L (x int) when x <= 10 do x := x + 1;\ntest L (0, 11);\ntest L (0, 12);\nloop Z (x int) when x <= 0 do x := -x;\ntest Z (-3, 3);\nloop D (x int) when x <= 9 do x := 2*x;\n";
    let line = b"lash: statement 6: no power\n";
    assert!(rt; ends(rt.alloc(), script, 4, b"in\nout\nin\n", line)?);
    Ok(())
}

#[test]
fn refuses_a_loop_of_five_variables(rt: HostRuntime) -> Result<(), Fail> {
    let script = b"loop L (a int, b int, c int, d int, e int) when true do a := a;";
    let line = b"lash: statement 1: limit loop variables\n";
    assert!(rt; ends(rt.alloc(), script, 3, b"", line)?);
    Ok(())
}
