//! Statements and wrong tokens, with the places that the grammar of the language gives.

use crate::{Refusal, Statement, read_statement};
use lash_io::Memory;
use script_tokens::{Placed, tokens};
use std::alloc::Global;
use std::test::Fail;

// An answer without its tree.
#[derive(Clone, Copy, PartialEq, Eq, Debug)]
enum Seen {
    Whole(u8),
    Syntax(u64),
    Nesting(u64),
    NoMemory,
}

// The number of script bytes before a token.
fn byte_at(read: &[Placed<'_>], at: usize) -> u64 {
    if at < read.len() { read[at].place } else { 0 }
}

// Which of the statements it is, in the order of the grammar.
fn order(statement: &Statement<'_>) -> u8 {
    match statement {
        Statement::Show(_) => 0,
        Statement::Set(_, _) => 1,
        Statement::Print(_) => 2,
        Statement::Solve(_) => 3,
        Statement::Test(_, _) => 4,
        Statement::Equal(_, _) => 5,
        Statement::Subset(_, _) => 6,
        Statement::Check(_) => 7,
        Statement::Loop(_) => 8,
    }
}

// What is read from tokens.
fn answer(alloc: Global, read: &[Placed<'_>]) -> Seen {
    match read_statement(alloc, read) {
        Ok(statement) => Seen::Whole(order(&statement)),
        Err(Refusal::Syntax { at }) => Seen::Syntax(byte_at(read, at)),
        Err(Refusal::Nesting { at }) => Seen::Nesting(byte_at(read, at)),
        Err(Refusal::Memory) => Seen::NoMemory,
    }
}

// What is read from bytes.
fn outcome(alloc: Global, bytes: &[u8]) -> Seen {
    match tokens(alloc, bytes, 0) {
        Ok(read) => answer(alloc, &read),
        Err(_) => Seen::NoMemory,
    }
}

// A formula with so many words `not` behind a beginning.
fn nested(alloc: Global, front: &[u8], count: u32) -> Result<Vec<u8>, Memory> {
    let mut bytes = Vec::new(alloc);
    match bytes.extend_from_slice(front) {
        Ok(()) => {}
        Err(_) => return Err(Memory),
    }
    for _ in 0..count {
        match bytes.extend_from_slice(b"not ") {
            Ok(()) => {}
            Err(_) => return Err(Memory),
        }
    }
    match bytes.extend_from_slice(b"true;") {
        Ok(()) => Ok(bytes),
        Err(_) => Err(Memory),
    }
}

// What is read of such a formula.
fn nested_outcome(alloc: Global, front: &[u8], count: u32) -> Seen {
    match nested(alloc, front, count) {
        Ok(bytes) => outcome(alloc, &bytes),
        Err(_) => Seen::NoMemory,
    }
}

#[test]
fn each_statement(rt: HostRuntime) -> Result<(), Fail> {
    let alloc = rt.alloc();
    assert_eq!(rt;
        outcome(alloc, b"show (x int, y real): x <= 2*y - 1;"),
        Seen::Whole(0)
    );
    assert_eq!(rt;
        outcome(alloc, b"set A () = exists x int: x = 3;"),
        Seen::Whole(1)
    );
    assert_eq!(rt; outcome(alloc, b"print A; # the set"), Seen::Whole(2));
    assert_eq!(rt; outcome(alloc, b"solve A;"), Seen::Whole(3));
    assert_eq!(rt; outcome(alloc, b"test A (-1/2, 0, 7/3);"), Seen::Whole(4));
    assert_eq!(rt; outcome(alloc, b"equal A B;"), Seen::Whole(5));
    assert_eq!(rt; outcome(alloc, b"subset A B;"), Seen::Whole(6));
    assert_eq!(rt;
        outcome(alloc, b"check A(1, x) or not (1 < 2);"),
        Seen::Whole(7)
    );
    Ok(())
}

#[test]
fn loops(rt: HostRuntime) -> Result<(), Fail> {
    let alloc = rt.alloc();
    assert_eq!(rt;
        outcome(alloc, b"loop L (x int) when true do x := x + 1;"),
        Seen::Whole(8)
    );
    assert_eq!(rt;
        outcome(
            alloc,
            b"loop L (x int, y int) when x <= 5 and y > x do x := y, y := 1 - x;"
        ),
        Seen::Whole(8)
    );
    assert_eq!(rt;
        outcome(alloc, b"loop L (x int) when x != 0 do x := x;"),
        Seen::Syntax(22)
    );
    Ok(())
}

#[test]
fn wrong_tokens(rt: HostRuntime) -> Result<(), Fail> {
    let alloc = rt.alloc();
    assert_eq!(rt; outcome(alloc, b"show (x int): x <= ;"), Seen::Syntax(19));
    assert_eq!(rt; outcome(alloc, b";"), Seen::Syntax(0));
    assert_eq!(rt; outcome(alloc, b"test A (1/0);"), Seen::Syntax(10));
    assert_eq!(rt;
        outcome(alloc, b"check 1 = 1 <-> 2 = 2 <-> 3 = 3;"),
        Seen::Syntax(22)
    );
    assert_eq!(rt; outcome(alloc, b"equal A A A;"), Seen::Syntax(10));
    assert_eq!(rt; outcome(alloc, b"show (x int): x = 0 $;"), Seen::Syntax(20));
    assert_eq!(rt; outcome(alloc, b"print A; solve A;"), Seen::Syntax(9));
    Ok(())
}

#[test]
fn nesting(rt: HostRuntime) -> Result<(), Fail> {
    let alloc = rt.alloc();
    assert_eq!(rt; nested_outcome(alloc, b"check ", 256), Seen::Whole(7));
    assert_eq!(rt; nested_outcome(alloc, b"check ", 257), Seen::Nesting(1030));
    assert_eq!(rt;
        nested_outcome(alloc, b"show (x int): ", 256),
        Seen::Whole(0)
    );
    Ok(())
}
