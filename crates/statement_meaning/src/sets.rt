//! Judging the statements that have a formula.

ghost use Rattle.std.specs.Prelude.{◌≤◌};
ghost use Rattle.script_names.specs.Kept.{sets_of};
ghost use Rattle.script_meaning.specs.Limits.{size_of, terms_limit};
ghost use Rattle.script_syntax.specs.Trees.{named_of, tree_of};
ghost use Rattle.script_statements.specs.Statements.{Show, Set, Check, comprehension_of};
ghost use Rattle.statement_meaning.specs.Judging.{IsJudgement, IsReadable};

use crate::statement::Statement;
use digit_codes::Base;
use script_meaning::{Refusal, resolve};
use script_names::{Defs, FaultAt, Name, NameFault};
use script_statements::Comprehension;
use script_syntax::{NameAt, Tree};
use std::alloc::Global;

/// The greatest number of kept sets.
pub const SETS_LIMIT: u32 = 1024;

/// Judges a set that is to be shown.
pub fn shown(
    alloc: Global,
    base: Base,
    defs: &Defs,
    set: &Comprehension<'_>,
) -> Result<Statement, Refusal>
    requires readable { IsReadable (comprehension_of set.now) }
    ensures { IsJudgement base (sets_of defs.now) (Show (comprehension_of set.now)) result }
{
    match resolve(alloc, base, defs, false, &set.vars, &set.formula) {
        Ok(found) => Ok(Statement::Show {
            vars: found.vars,
            formula: found.formula,
        }),
        Err(Refusal::Fault(fault)) => Err(Refusal::Fault(fault)),
        Err(Refusal::Limit(which)) => Err(Refusal::Limit(which)),
        Err(Refusal::Memory) => Err(Refusal::Memory),
    }
}

/// Judges a set that is to be kept: its name first, which is new.
pub fn set_to_keep(
    alloc: Global,
    base: Base,
    defs: &Defs,
    name: &NameAt<'_>,
    set: &Comprehension<'_>,
) -> Result<Statement, Refusal>
    requires readable { IsReadable (comprehension_of set.now) }
    ensures { IsJudgement base (sets_of defs.now) (Set (named_of name.now) (comprehension_of set.now)) result }
{
    if defs.place(name.bytes).is_some() {
        return Err(Refusal::Fault(FaultAt {
            fault: NameFault::Repeated,
            place: name.place,
        }));
    }
    let full = defs.len() >= SETS_LIMIT;
    match resolve(alloc, base, defs, full, &set.vars, &set.formula) {
        Ok(found) => match Name::new(alloc, name.bytes) {
            Ok(name) => Ok(Statement::Set {
                name,
                vars: found.vars,
                formula: found.formula,
            }),
            Err(_) => Err(Refusal::Memory),
        },
        Err(Refusal::Fault(fault)) => Err(Refusal::Fault(fault)),
        Err(Refusal::Limit(which)) => Err(Refusal::Limit(which)),
        Err(Refusal::Memory) => Err(Refusal::Memory),
    }
}

/// Judges a formula over no variables.
pub fn checked(
    alloc: Global,
    base: Base,
    defs: &Defs,
    formula: &Tree<'_>,
) -> Result<Statement, Refusal>
    requires size { size_of (tree_of formula.now) ≤ terms_limit }
    ensures { IsJudgement base (sets_of defs.now) (Check (tree_of formula.now)) result }
{
    match resolve(alloc, base, defs, false, &[], formula) {
        Ok(found) => Ok(Statement::Check {
            formula: found.formula,
        }),
        Err(Refusal::Fault(fault)) => Err(Refusal::Fault(fault)),
        Err(Refusal::Limit(which)) => Err(Refusal::Limit(which)),
        Err(Refusal::Memory) => Err(Refusal::Memory),
    }
}
