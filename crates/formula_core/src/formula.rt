//! Formulas as trees, and their counts (own). Variables are named by place: a formula over n variables uses the places 0 to n - 1, and
//! `Exists` binds place n of its body, which is over one more.

ghost use Rattle.std.specs.Prelude.{◌≡◌, ℕ, min, ◌&&◌, IfOk, map};
ghost use Rattle.std.specs.List.{list_all};
ghost use Rattle.formula_core.specs.Counts.{nodes_of, depth_of, count_limit, is_int, binds_ints};
ghost use Rattle.formula_core.specs.Shape.{formula_of};
ghost use Rattle.formula_core.specs.Variables.{sort_of};

use crate::linear::Linear;
use crate::sort::Sort;
use lash_io::Memory;
use std::alloc::Global;

/// A formula. `Le` holds where the sum of coefficient times variable is at most the constant, and `Eq` where it is equal.
#[derive(Debug, Drop)]
pub enum Formula {
    Le(Linear),
    Eq(Linear),
    Not(Box<Formula>),
    And(Box<Formula>, Box<Formula>),
    Or(Box<Formula>, Box<Formula>),
    Exists(Sort, Box<Formula>),
}

impl Formula {
    /// The same formula once more.
    #[cycle(copied)]
    pub fn copied(&self, alloc: Global) -> Result<Formula, Memory>
        ensures { IfOk result (λ copy. formula_of copy ≡ formula_of self.now) }
    {
        match self {
            Formula::Le(term) => match term.copied(alloc) {
                Ok(term) => Ok(Formula::Le(term)),
                Err(error) => Err(error),
            },
            Formula::Eq(term) => match term.copied(alloc) {
                Ok(term) => Ok(Formula::Eq(term)),
                Err(error) => Err(error),
            },
            Formula::Not(inner) => Ok(Formula::Not(copied_box(alloc, inner)?)),
            Formula::And(left, right) => Ok(Formula::And(
                copied_box(alloc, left)?,
                copied_box(alloc, right)?,
            )),
            Formula::Or(left, right) => Ok(Formula::Or(
                copied_box(alloc, left)?,
                copied_box(alloc, right)?,
            )),
            Formula::Exists(sort, inner) => Ok(Formula::Exists(*sort, copied_box(alloc, inner)?)),
        }
    }
}

// The same boxed formula once more.
#[cycle(copied)]
fn copied_box(alloc: Global, formula: &Formula) -> Result<Box<Formula>, Memory>
    ensures { IfOk result (λ copy. formula_of copy.value ≡ formula_of formula.now) }
{
    match formula.copied(alloc) {
        Ok(copy) => match Box::new(alloc, copy) {
            Ok(copy) => Ok(copy),
            Err(_) => Err(Memory),
        },
        Err(error) => Err(error),
    }
}

/// How many nodes the formula has, or 2^64 - 1 where there are more.
pub fn nodes(formula: &Formula) -> u64
    ensures { result ≡ min (nodes_of (formula_of formula.now)) count_limit }
{
    match formula {
        Formula::Le(_) | Formula::Eq(_) => 1,
        Formula::Not(inner) | Formula::Exists(_, inner) => nodes(inner).saturating_add(1),
        Formula::And(left, right) | Formula::Or(left, right) => nodes(left)
            .saturating_add(nodes(right))
            .saturating_add(1),
    }
}

/// How many nodes the longest way down the formula has, or 2^64 - 1 where there are more.
pub fn depth(formula: &Formula) -> u64
    ensures { result ≡ min (depth_of (formula_of formula.now)) count_limit }
{
    match formula {
        Formula::Le(_) | Formula::Eq(_) => 1,
        Formula::Not(inner) | Formula::Exists(_, inner) => depth(inner).saturating_add(1),
        Formula::And(left, right) | Formula::Or(left, right) => depth(left)
            .max(depth(right))
            .saturating_add(1),
    }
}

/// Whether all the sorts and the sorts of all bound variables are `Int`.
pub fn all_int(sorts: &[Sort], formula: &Formula) -> bool
    ensures { result ≡ (list_all is_int (map sort_of sorts.now) && binds_ints (formula_of formula.now)) }
{
    are_int(sorts) && binds_only_ints(formula)
}

// Whether all the sorts are `Int`.
fn are_int(sorts: &[Sort]) -> bool
    ensures { result ≡ list_all is_int (map sort_of sorts.now) }
{
    for sort in sorts {
        if *sort == Sort::Real {
            return false;
        }
    }
    true
}

// Whether the sorts of all bound variables are `Int`.
fn binds_only_ints(formula: &Formula) -> bool
    ensures { result ≡ binds_ints (formula_of formula.now) }
{
    match formula {
        Formula::Le(_) | Formula::Eq(_) => true,
        Formula::Not(inner) => binds_only_ints(inner),
        Formula::And(left, right) | Formula::Or(left, right) => binds_only_ints(left)
            && binds_only_ints(right),
        Formula::Exists(sort, inner) => *sort == Sort::Int && binds_only_ints(inner),
    }
}
