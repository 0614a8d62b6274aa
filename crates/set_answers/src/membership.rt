//! Whether a vector of fractions is in a set: its code is read. A vector with an entry that is not whole is in no set of integers.

ghost use Rattle.std.specs.Prelude.{◌≡◌, ◌↔◌, ◌<◌, ◌≤◌, ℕ, ℤ, List, length, All, IsTrue, IfOk};
ghost use Rattle.lash_model.specs.Formulas.{Sort, Formula};
ghost use Rattle.lash_model.specs.Meaning.{Solves};
ghost use Rattle.lash_model.specs.Standing.{StandsFor};
ghost use Rattle.lash_model.specs.Tables.{fracs, IsDiagram};
ghost use Rattle.fraction_codes.specs.Fractions.{IsSmall, IsWholeTimes};
ghost use Rattle.set_answers.specs.Vectors.{IsVectorOf, HasCoarseDenominator, IsAnswerToCode};

use fraction_codes::{CodeError, Ratio, encode};
use lash_io::Memory;
use solution_pick::member;
use std::alloc::Global;
use weak_min::Canon;

/// Whether the set has the vector of these fractions. There is a value for each track, each denominator is positive, and no part passes
/// 2 ^ 100. If the table has fraction states, the least common denominator is at most 65,536. A vector with an entry that is not whole
/// is in no set of integers. The one error is Memory: out of memory.
pub fn contains(alloc: Global, canon: &Canon, values: &[Ratio]) -> Result<bool, Memory>
    requires count { length values.now ≡ canon.now.table.tracks }
    requires small { All IsSmall values.now }
    requires coarse { 0 < fracs canon.now.table → HasCoarseDenominator values.now }
    ensures { IfOk result (λ yes. (sorts : List Sort) (f : Formula) → length values.now ≡ length sorts → StandsFor canon.now.table sorts f → (ns : List ℤ) (d : ℕ) → IsVectorOf values.now ns d → (IsTrue yes ↔ Solves sorts f ns d)) }
{
    // It is canonical.
    let _table = canon.table();
    if !may_have(canon, values) {
        return Ok(false);
    }
    accepts_code(alloc, canon, values)
}

/// Whether the fractions are whole, if the table is a diagram. Any other table may have all fractions.
fn may_have(canon: &Canon, values: &[Ratio]) -> bool
    requires { All IsSmall values.now }
    ensures diagram { IsDiagram canon.now.table → (IsTrue result ↔ All (IsWholeTimes 1) values.now) }
    ensures fractions { 0 < fracs canon.now.table → IsTrue result }
{
    canon.table().fracs() > 0 || are_whole(values)
}

/// Whether a canonical table accepts the code of a vector, whose least common denominator is at most 65,536. The one error is Memory: out
/// of memory.
fn accepts_code(alloc: Global, canon: &Canon, values: &[Ratio]) -> Result<bool, Memory>
    requires count { length values.now ≡ canon.now.table.tracks }
    requires small { All IsSmall values.now }
    requires coarse { HasCoarseDenominator values.now }
    ensures { IfOk result (λ yes. IsAnswerToCode canon.now.table values.now yes) }
{
    match encode(alloc, canon.table().base(), values) {
        Ok(lasso) => Ok(member(canon, &lasso)),
        Err(CodeError::Memory) => Err(Memory),
        // The least common denominator is at most 65,536.
        Err(CodeError::Denominator) => unreachable!(),
    }
}

/// Whether all fractions are whole.
fn are_whole(values: &[Ratio]) -> bool
    requires { All IsSmall values.now }
    ensures { IsTrue result ↔ All (IsWholeTimes 1) values.now }
{
    for value in values {
        if !is_whole(value) {
            return false;
        }
    }
    true
}

/// Whether a fraction is whole: the denominator divides the numerator.
fn is_whole(value: &Ratio) -> bool
    requires { IsSmall value.now }
    ensures { IsTrue result ↔ IsWholeTimes 1 value.now }
{
    value.num.unsigned_abs() % value.den.unsigned_abs() == 0
}
