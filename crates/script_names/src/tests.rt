//! Names of scripts, by hand. The places of wrong names are those of the reference implementation.

ghost use Rattle.std.specs.Prelude.{◌≤◌, IfOk, length};

use super::*;
use formula_core::{Formula, Linear, Sort, Vars};
use lash_io::Memory;
use script_syntax::Cursor;
use script_tokens::{Kind, tokens};
use std::alloc::Global;
use std::test::Fail;

// No variables, or x of the sort.
fn vars_of(alloc: Global, sort: Option<Sort>) -> Result<Vars, Memory>
    ensures { IfOk result (λ vars. length vars ≤ 1) }
{
    let mut vars = Vars::new(alloc);
    match sort {
        Some(sort) => match vars.add(b"x", sort) {
            Ok(()) => Ok(vars),
            Err(error) => Err(error),
        },
        None => Ok(vars),
    }
}

// Keeps the set of all values of its variable.
fn keep_all(alloc: Global, defs: &mut Defs, name: &[u8], sort: Option<Sort>) -> Option<()> {
    if defs.len() >= 1024 || defs.place(name).is_some() {
        return None;
    }
    let name = Name::new(alloc, name).ok()?;
    let zero = Linear::new(alloc, 0);
    match vars_of(alloc, sort) {
        Ok(vars) => defs.keep(name, vars, Formula::Le(zero)).ok(),
        Err(_) => None,
    }
}

// X over an integer, R over a real, and N over nothing.
fn three_sets(alloc: Global) -> Option<Defs> {
    let mut defs = Defs::new(alloc);
    keep_all(alloc, &mut defs, b"X", Some(Sort::Int))?;
    keep_all(alloc, &mut defs, b"R", Some(Sort::Real))?;
    keep_all(alloc, &mut defs, b"N", None)?;
    Some(defs)
}

// What the names of a set are found to be, whose header begins at byte 5, behind `show` and a blank.
fn names(alloc: Global, defs: &Defs, text: &[u8]) -> Option<Result<(), NameError>> {
    let placed = tokens(alloc, text, 5).ok()?;
    let mut cursor = Cursor::new(&placed);
    let vars = cursor.header(alloc).ok()?;
    cursor.expect(Kind::Colon).ok()?;
    let tree = cursor.formula(alloc, 256).ok()?;
    let mut scope = Scope::new(alloc);
    match declare_all(&mut scope, &vars) {
        Ok(()) => Some(check_names(defs, &mut scope, &tree)),
        Err(error) => Some(Err(error)),
    }
}

fn is_fault(alloc: Global, text: &[u8], fault: NameFault, place: u64) -> bool {
    match three_sets(alloc) {
        Some(defs) => names(alloc, &defs, text)
            == Some(Err(NameError::Fault(FaultAt { fault, place }))),
        None => false,
    }
}

fn is_right(alloc: Global, text: &[u8]) -> bool {
    match three_sets(alloc) {
        Some(defs) => names(alloc, &defs, text) == Some(Ok(())),
        None => false,
    }
}

#[test]
fn wrong_names_have_their_places(rt: HostRuntime) -> Result<(), Fail> {
    let alloc = rt.alloc();
    assert!(rt; is_fault(alloc, b"(x int): x <= y", NameFault::Unknown, 19));
    assert!(rt; is_fault(alloc, b"(x int, x int): x <= 1", NameFault::Repeated, 13));
    assert!(rt;
        is_fault(
            alloc,
            b"(x int): exists x int: x <= 1",
            NameFault::Repeated,
            21
        )
    );
    assert!(rt;
        is_fault(
            alloc,
            b"(x int): x <= 1 and y <= 1 or z <= 1",
            NameFault::Unknown,
            25
        )
    );
    assert!(rt;
        is_fault(
            alloc,
            b"(): (exists x int: x = 1) and x = 1",
            NameFault::Unknown,
            35
        )
    );
    assert!(rt;
        is_right(
            alloc,
            b"(): (exists x int: x = 1) and (exists x real: x = 1)"
        )
    );
    Ok(())
}

#[test]
fn calls(rt: HostRuntime) -> Result<(), Fail> {
    let alloc = rt.alloc();
    assert!(rt; is_right(alloc, b"(x int): X(x) and R(2*x + 1) and N()"));
    assert!(rt; is_fault(alloc, b"(): X(1) and A(1)", NameFault::Unknown, 18));
    assert!(rt; is_fault(alloc, b"(): not X()", NameFault::Misused, 13));
    assert!(rt; is_fault(alloc, b"(x int): X(x, y)", NameFault::Misused, 14));
    assert!(rt; is_fault(alloc, b"(x int): X(y)", NameFault::Unknown, 16));
    Ok(())
}

#[test]
fn an_integer_has_integers_alone(rt: HostRuntime) -> Result<(), Fail> {
    let alloc = rt.alloc();
    assert!(rt; is_right(alloc, b"(x int, y real): R(x + y)"));
    assert!(rt; is_fault(alloc, b"(x real): X(x)", NameFault::Misused, 17));
    assert!(rt; is_fault(alloc, b"(x real): X(2*x)", NameFault::Misused, 19));
    assert!(rt;
        is_fault(
            alloc,
            b"(x int, y real): R(x + y) and X(x + y)",
            NameFault::Misused,
            41
        )
    );
    Ok(())
}

#[test]
fn sets_are_found_by_their_names(rt: HostRuntime) -> Result<(), Fail> {
    let alloc = rt.alloc();
    let defs = three_sets(alloc).ok_or("no memory")?;
    assert!(rt; defs.len() == 3);
    assert!(rt; defs.place(b"X") == Some(0));
    assert!(rt; defs.place(b"N") == Some(2));
    assert!(rt; defs.place(b"x").is_none());
    assert!(rt; defs.name(1) == b"R".as_slice());
    assert!(rt; defs.vars(1).sorts() == [Sort::Real].as_slice());
    assert!(rt; matches!(defs.formula(2), Formula::Le(_)));
    Ok(())
}
