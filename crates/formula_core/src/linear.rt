//! Linear terms: a sum of coefficient times variable, and a constant (own). The terms are kept in the order of their places, each with
//! a coefficient that is not 0, so that equal terms are equal lists. A change costs a search by halves and a move of what is behind.

ghost use Rattle.std.specs.Prelude.{◌≡◌, ◌≤◌, ◌<◌, ◌^◌, ◌*◌, ◌+◌, ℕ, ℤ, List, [], ◌∷◌, pos, ◌+ℤ◌, ◌*ℤ◌, unsigned_abs, OnOk, OnErr, IfOk, length, All, slice_index_or, IsTrue, ◌↔◌, if◌then◌else◌};
ghost use Rattle.std.specs.List.{AllPairs, insert};
ghost use Rattle.std.specs.Ordering.{int_eq};
ghost use Rattle.lash_model.specs.Formulas.{IsLinear};
ghost use Rattle.lash_model.specs.Meaning.{total};
ghost use Rattle.formula_core.specs.Terms.{added, with_sum, coefficient_at, IsPlaceOf};

use lash_io::Memory;
use std::alloc::Global;
use std::marker::Model;

/// Coefficients at places, and a constant.
#[derive(Debug, Drop)]
pub struct Linear {
    terms: Vec<(u32, i128)>,
    constant: i128,
}

impl Model for Linear {
    ghost use Rattle.lash_model.specs.Formulas.{Linear as Term, IsLinear};

    ghost Value = { Term };

    ghost view = { λ a. record { terms = a.terms.items; constant = a.constant } };

    ghost invariant = { λ a. IsLinear (record { terms = a.terms.items; constant = a.constant }) };
}

impl Linear {
    /// A term that is a constant alone.
    pub fn new(alloc: Global, constant: i128) -> Linear
        ensures { result ≡ record { terms = []; constant = constant } }
    {
        Linear {
            terms: Vec::new(alloc),
            constant,
        }
    }

    /// Adds the coefficient to the one at the place. The sum is at most 2^113 in magnitude, as a condition. Only want of memory is
    /// refused, and leaves the term as it was.
    pub fn add(&mut self, place: u32, coefficient: i128) -> Result<(), Memory>
        requires { unsigned_abs (coefficient_at self.old.terms place +ℤ coefficient) ≤ 2 ^ 113 }
        ensures terms { OnOk result (self.new ≡ record { terms = added self.old.terms place coefficient; constant = self.old.constant }) }
        ensures total { OnOk result ((ns : List ℤ) → total self.new.terms ns ≡ total self.old.terms ns +ℤ (coefficient *ℤ slice_index_or ns place (pos 0))) }
        ensures linear { IsLinear self.new }
        ensures unchanged { OnErr result (self.new ≡ self.old) }
    {
        add_at(&mut self.terms, place, coefficient)
    }

    /// The constant.
    pub fn constant(&self) -> i128
        ensures { result ≡ self.now.constant }
    {
        self.constant
    }

    /// The places with their coefficients. The places rise, and no coefficient is 0.
    pub fn terms(&self) -> &[(u32, i128)]
        ensures terms { result.now ≡ self.now.terms }
        ensures linear { IsLinear self.now }
    {
        self.terms.as_slice()
    }

    /// The same term once more.
    pub fn copied(&self, alloc: Global) -> Result<Linear, Memory>
        ensures { IfOk result (λ a. a ≡ self.now) }
    {
        match Vec::from_slice(alloc, &self.terms) {
            Ok(terms) => Ok(Linear {
                terms,
                constant: self.constant,
            }),
            Err(_) => Err(Memory),
        }
    }
}

// Adds a coefficient at a place, to terms whose places rise.
fn add_at(terms: &mut Vec<(u32, i128)>, place: u32, coefficient: i128) -> Result<(), Memory>
    requires rising { AllPairs (λ s t. s.0 < t.0) terms.old.items }
    requires fits { unsigned_abs (coefficient_at terms.old.items place +ℤ coefficient) ≤ 2 ^ 113 }
    ensures added { OnOk result (terms.new.items ≡ added terms.old.items place coefficient) }
    ensures unchanged { OnErr result (terms.new.items ≡ terms.old.items) }
{
    let at = find_place(terms, place);
    if has_place(terms, at, place) {
        put_sum(terms, at, coefficient);
        Ok(())
    } else {
        put_new(terms, at, place, coefficient)
    }
}

// The first of the terms whose place is not below the given one.
fn find_place(terms: &[(u32, i128)], place: u32) -> usize
    requires { AllPairs (λ s t. s.0 < t.0) terms.now }
    ensures { IsPlaceOf terms.now place result }
{
    terms.partition_point(|term| term.0 < place)
}

// Whether the term there has the place.
fn has_place(terms: &[(u32, i128)], at: usize, place: u32) -> bool
    ensures { IsTrue result ↔ ((at < length terms.now) × ((slice_index_or terms.now at (0, pos 0)).0 ≡ place)) }
{
    at < terms.len() && terms[at].0 == place
}

// Puts a term there, unless its coefficient is 0.
fn put_new(
    terms: &mut Vec<(u32, i128)>,
    at: usize,
    place: u32,
    coefficient: i128,
) -> Result<(), Memory>
    requires { at ≤ length terms.old.items }
    ensures put { OnOk result (terms.new.items ≡ (if int_eq coefficient (pos 0) then terms.old.items else insert terms.old.items at (place, coefficient))) }
    ensures unchanged { OnErr result (terms.new.items ≡ terms.old.items) }
{
    if coefficient == 0 {
        return Ok(());
    }
    match terms.insert(at, (place, coefficient)) {
        Ok(()) => Ok(()),
        Err(_) => Err(Memory),
    }
}

// Adds to the coefficient there, and removes the term where the sum is 0.
fn put_sum(terms: &mut Vec<(u32, i128)>, at: usize, coefficient: i128)
    requires within { at < length terms.old.items }
    requires fits { unsigned_abs ((slice_index_or terms.old.items at (0, pos 0)).1 +ℤ coefficient) ≤ 2 ^ 113 }
    ensures { terms.new.items ≡ with_sum terms.old.items at coefficient }
{
    let sum = terms[at].1 + coefficient;
    if sum == 0 {
        terms.remove(at);
    } else {
        terms[at].1 = sum;
    }
}
