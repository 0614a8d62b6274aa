//! Tables of zeros and the pairs of two small tables. A diagram of `x <= 3` has the rows 0 2, 1 1, 3 3, 4 4 and 4 4, one of
//! `x >= 0` the rows 0 0 and 1 1, both the roots 0 and 1: five pairs are reached, and at weight 2 they have 25 cells.

ghost use Rattle.std.specs.Prelude.{◌≡◌, ℕ, ◌+◌, ◌*◌, ◌<◌, ◌^◌, [], ◌∷◌, length, slice_index, IfOk, OnOk};
ghost use Rattle.digit_codes.specs.Reading.{lasso_of};

use super::*;
use digit_codes::{Base, Lasso, Word};
use lash_io::Memory;
use packed_cells::Plain;
use std::alloc::Global;
use std::process::Abort;
use std::test::Fail;

mod rows;

const LEFT: [u32; 10] = [0, 2, 1, 1, 3, 3, 4, 4, 4, 4];

const RIGHT: [u32; 4] = [0, 0, 1, 1];

/// Pairs of a state of each table.
#[derive(Drop)]
struct Pairs;

fn entry(rows: &[u32], at: u64) -> u32
    ensures { result ≡ slice_index rows.now at }
{
    if at < rows.len() as u64 {
        rows[at as usize]
    } else {
        0
    }
}

fn write_pair(left: u32, right: u32, into: &mut Key) -> Result<(), Memory>
    ensures { OnOk result (into.new.items ≡ left ∷ right ∷ []) }
{
    into.clear();
    match into.extend_from_slice(&[left, right]) {
        Ok(()) => Ok(()),
        Err(_) => Err(Memory),
    }
}

impl Machine for Pairs {
    ghost use Rattle.std.specs.Prelude.{ℕ, ◌+◌, ◌*◌, [], ◌∷◌, length, slice_index, nat_eq};

    ghost meaning = { λ _. record { width = 2; starts = (0 ∷ 0 ∷ []) ∷ (1 ∷ 1 ∷ []) ∷ []; step = λ k l. slice_index (0 ∷ 2 ∷ 1 ∷ 1 ∷ 3 ∷ 3 ∷ 4 ∷ 4 ∷ 4 ∷ 4 ∷ []) (slice_index k 0 * 2 + l) ∷ slice_index (0 ∷ 0 ∷ 1 ∷ 1 ∷ []) (slice_index k 1 * 2 + l) ∷ []; weight = λ _. 2; is_proper = λ k. nat_eq (length k) 2 } };

    fn letters(&self) -> u32 {
        2
    }

    fn starts(&self) -> usize {
        2
    }

    fn start(&mut self, at: usize, into: &mut Key) -> Result<(), Memory> {
        if at == 0 {
            write_pair(0, 0, into)
        } else {
            write_pair(1, 1, into)
        }
    }

    fn step(&mut self, from: &Key, letter: u32, into: &mut Key) -> Result<(), Memory> {
        let key = from.as_slice();
        let left = entry(&LEFT, u64::from(key[0]) * 2 + u64::from(letter));
        let right = entry(&RIGHT, u64::from(key[1]) * 2 + u64::from(letter));
        write_pair(left, right, into)
    }

    fn numbers(&self) -> u64 {
        10
    }

    fn radix(&self) -> u32 {
        2
    }

    fn number_behind(&self, _from: &Key, _letter: u32) -> u64 {
        u64::MAX
    }

    fn is_behind(&self, _from: &Key, _letter: u32, _key: &[u32]) -> bool {
        false
    }

    fn weight(&self, _key: &Key) -> u64 {
        2
    }
}

/// The lasso of a sign and two letters, one for the stem and one for the cycle.
fn lasso(alloc: Global, sign: u32, stem: u32, cycle: u32) -> Result<Lasso, Memory>
    ensures { IfOk result (λ x. lasso_of x ≡ record { sign = sign; whole = []; stem = stem ∷ []; cycle = cycle ∷ [] }) }
{
    let mut x = Lasso {
        sign,
        whole: Word::empty(alloc),
        stem: Word::empty(alloc),
        cycle: Word::empty(alloc),
    };
    match x.stem.push(stem) {
        Ok(()) => {}
        Err(Memory) => return Err(Memory),
    }
    match x.cycle.push(cycle) {
        Ok(()) => Ok(x),
        Err(Memory) => Err(Memory),
    }
}

#[test]
fn pairs_and_zeros(rt: HostRuntime) -> Result<(), Fail> {
    let alloc = rt.alloc();
    five_keys(&rt, alloc, &mut Pairs)?;
    let two = Base::new(2).ok_or("2 is a base")?;
    let minus = lasso(alloc, 1, 1, 1)?;
    diagram(&rt, alloc, two, &minus)?;
    fractions(&rt, alloc, two, &minus)
}

// Five keys of 25 cells, in the order of their least paths, and at one cell less none.
fn five_keys<M: Machine>(rt: &impl Abort, alloc: Global, machine: &mut M) -> Result<(), Fail>
    requires { length (M.meaning machine.old).starts < 2 ^ 32 }
{
    let found = explore(alloc, machine, 25)?;
    assert_eq!(rt; (found.len(), found.cells()), (5, 25));
    assert_eq!(rt; found.key(2), [2, 0].as_slice());
    assert_eq!(rt; found.key(4), [4, 0].as_slice());
    assert_eq!(rt; found.rows(), [0, 2, 1, 1, 3, 3, 4, 4, 4, 4].as_slice());
    assert_eq!(rt; found.starts(), [0, 1].as_slice());
    match explore(alloc, machine, 24) {
        Ok(_) => assert!(rt; false, "25 cells pass the limit 24"),
        Err(error) => assert_eq!(rt; error, ExploreError::Heavy),
    }
    Ok(())
}

// A diagram of zeros answers no, and with the output 1 yes.
fn diagram(rt: &impl Abort, alloc: Global, two: Base, minus: &Lasso) -> Result<(), Fail>
    requires base { two ≡ 2 }
    requires minus { lasso_of minus.now ≡ record { sign = 1; whole = []; stem = 1 ∷ []; cycle = 1 ∷ [] } }
{
    let mut table = Table::<Plain>::blank(alloc, two, 1, 2, 0)?;
    assert_eq!(rt; table.ints(), 2);
    assert!(rt; !table.accepts(minus));
    table.set_out(0, 1);
    assert!(rt; table.accepts(minus));
    Ok(())
}

// Of two fraction states that both go to the first, which is yes, the cycle of one letter stays there; once letter 1 leads to the
// second, the stem of that letter ends there after two turns.
fn fractions(rt: &impl Abort, alloc: Global, two: Base, minus: &Lasso) -> Result<(), Fail>
    requires base { two ≡ 2 }
    requires minus { lasso_of minus.now ≡ record { sign = 1; whole = []; stem = 1 ∷ []; cycle = 1 ∷ [] } }
{
    let mut table = Table::<Plain>::blank(alloc, two, 1, 1, 2)?;
    table.set_colour(0, true);
    assert!(rt; table.accepts(minus));
    table.set_frac(0, 1, 1);
    assert!(rt; !table.accepts(minus));
    Ok(())
}
