//! The inequation `x <= 3` over one track in base 2: its thresholds -1, 0, 1 and 3 make five states and 15 cells. The whole numbers in
//! base 2: one integer state and four fraction states, which are 15 cells too. The inequation `x <= 0` over the fractions: three integer
//! states, and a bound and two sinks, which are 18 cells.

ghost use Rattle.std.specs.Prelude.{◌≡◌, [], ◌∷◌, pos, IfOk};

use super::*;
use digit_codes::Base;
use formula_core::Linear;
use lash_io::Memory;
use packed_cells::Plain;
use std::alloc::Global;
use std::process::Abort;
use std::test::Fail;
use step_tables::{BuildError, Table};

/// The term x, to be compared to a constant of one digit.
fn term_of(alloc: Global, constant: u8) -> Result<Linear, Memory>
    ensures { IfOk result (λ a. a ≡ record { terms = (0, pos 1) ∷ []; constant = pos constant }) }
{
    let mut term = Linear::new(alloc, i128::from(constant));
    match term.add(0, 1) {
        Ok(()) => Ok(term),
        Err(Memory) => Err(Memory),
    }
}

#[test]
fn at_most_three(rt: HostRuntime) -> Result<(), Fail> {
    let binary = Base::new(2).ok_or("2 is a base")?;
    let term = match term_of(rt.alloc(), 3) {
        Ok(term) => term,
        Err(Memory) => return Err(Fail::from("no memory")),
    };
    match atom_int(rt.alloc(), binary, &term, 1, AtomKind::Le, 15) {
        Ok(table) => assert_eq!(rt; table.ints(), 5),
        Err(_) => return Err(Fail::from("the limit suffices")),
    }
    match atom_int(rt.alloc(), binary, &term, 1, AtomKind::Le, 14) {
        Err(BuildError::Heavy) => Ok(()),
        _ => Err(Fail::from("15 cells are more than 14")),
    }
}

/// The targets and the colour of a fraction state.
fn frac_is(rt: &impl Abort, table: &Table<Plain>, state: u32, targets: [u32; 2], yes: bool) {
    assert!(rt; table.letters() == 2 && state < table.fracs());
    assert_eq!(rt; table.frac_step(state, 0), targets[0]);
    assert_eq!(rt; table.frac_step(state, 1), targets[1]);
    assert_eq!(rt; table.colour(state), yes);
}

/// The integer part has one state, whose output is 0.
fn is_one_state(rt: &impl Abort, table: &Table<Plain>) {
    assert!(rt; table.letters() == 2 && table.tracks() == 1 && table.ints() == 1);
    assert!(rt; table.root(0) == 0 && table.root(1) == 0 && table.out(0) == 0);
    assert!(rt; table.int_step(0, 0) == 0 && table.int_step(0, 1) == 0);
}

#[test]
fn whole_numbers(rt: HostRuntime) -> Result<(), Fail> {
    let binary = Base::new(2).ok_or("2 is a base")?;
    let table = match is_int(rt.alloc(), binary, 15) {
        Ok(table) => table,
        Err(_) => return Err(Fail::from("the limit suffices")),
    };
    is_one_state(&rt, &table);
    assert_eq!(rt; table.fracs(), 4);
    frac_is(&rt, &table, 0, [1, 2], true);
    frac_is(&rt, &table, 1, [1, 3], true);
    frac_is(&rt, &table, 2, [3, 2], true);
    frac_is(&rt, &table, 3, [3, 3], false);
    match is_int(rt.alloc(), binary, 14) {
        Err(BuildError::Heavy) => Ok(()),
        _ => Err(Fail::from("15 cells are more than 14")),
    }
}

/// The targets and the output of an integer state.
fn int_is(rt: &impl Abort, table: &Table<Plain>, state: u32, targets: [u32; 2], out: u32) {
    assert!(rt; table.letters() == 2 && state < table.ints());
    assert_eq!(rt; table.int_step(state, 0), targets[0]);
    assert_eq!(rt; table.int_step(state, 1), targets[1]);
    assert_eq!(rt; table.out(state), out);
}

#[test]
fn at_most_zero(rt: HostRuntime) -> Result<(), Fail> {
    let binary = Base::new(2).ok_or("2 is a base")?;
    let term = match term_of(rt.alloc(), 0) {
        Ok(term) => term,
        Err(Memory) => return Err(Fail::from("no memory")),
    };
    let table = match atom_real(rt.alloc(), binary, &term, 1, AtomKind::Le, 18) {
        Ok(table) => table,
        Err(_) => return Err(Fail::from("the limit suffices")),
    };
    assert!(rt; table.tracks() == 1 && table.ints() == 3 && table.fracs() == 3);
    assert!(rt; table.root(0) == 1 && table.root(1) == 0);
    int_is(&rt, &table, 0, [0, 0], 1);
    int_is(&rt, &table, 1, [1, 2], 0);
    int_is(&rt, &table, 2, [2, 2], 2);
    frac_is(&rt, &table, 0, [0, 2], true);
    frac_is(&rt, &table, 1, [1, 1], true);
    frac_is(&rt, &table, 2, [2, 2], false);
    match atom_real(rt.alloc(), binary, &term, 1, AtomKind::Le, 17) {
        Err(BuildError::Heavy) => Ok(()),
        _ => Err(Fail::from("18 cells are more than 17")),
    }
}
