//! Judging a statement: its names, then its limits, and what it asks.

ghost use Rattle.script_names.specs.Kept.{sets_of};
ghost use Rattle.script_statements.specs.Statements.{statement_of};
ghost use Rattle.statement_meaning.specs.Judging.{IsJudgement, IsStatementReadable};

use crate::finding::{kept_at, kept_pair};
use crate::loops::loop_to_keep;
use crate::sets::{checked, set_to_keep, shown};
use crate::statement::Statement;
use crate::vectors::tested;
use digit_codes::Base;
use script_meaning::Refusal;
use script_names::Defs;
use script_statements::Statement as Tree;
use std::alloc::Global;

/// What a statement asks, where these sets are kept. Conditions: declared names are variables' names, those of loops have no quote mark, a loop
/// declares at least one variable, there are at most 65,536 declarations and parts of terms together, and the denominators of values are
/// positive.
///
/// # Errors
/// `Fault` at the first wrong name from left to right: a set that is asked for and not kept, the name of a set that is kept already, a test
/// whose values are not as many as the set's variables, two sets of different sorts, or a wrong name of a formula or of a loop. `Limit`, where all names
/// are right, with the first limit in the order of `Which` that is passed: `Sets` where 1,024 sets are kept and another is to be,
/// `Denominator` where the least common denominator of a test's values passes 65,536, or one of a formula or of a loop. `Memory` where memory is wanting.
pub fn judge(
    alloc: Global,
    base: Base,
    defs: &Defs,
    statement: &Tree<'_>,
) -> Result<Statement, Refusal>
    requires readable { IsStatementReadable (statement_of statement.now) }
    ensures { IsJudgement base (sets_of defs.now) (statement_of statement.now) result }
{
    match statement {
        Tree::Show(set) => shown(alloc, base, defs, set),
        Tree::Set(name, set) => set_to_keep(alloc, base, defs, name, set),
        Tree::Print(name) => match kept_at(defs, name) {
            Ok(at) => Ok(Statement::Print { at }),
            Err(fault) => Err(Refusal::Fault(fault)),
        },
        Tree::Solve(name) => match kept_at(defs, name) {
            Ok(at) => Ok(Statement::Solve { at }),
            Err(fault) => Err(Refusal::Fault(fault)),
        },
        Tree::Test(name, values) => tested(alloc, defs, name, values),
        Tree::Equal(a, b) => match kept_pair(defs, a, b) {
            Ok((left, right)) => Ok(Statement::Equal { left, right }),
            Err(fault) => Err(Refusal::Fault(fault)),
        },
        Tree::Subset(a, b) => match kept_pair(defs, a, b) {
            Ok((left, right)) => Ok(Statement::Subset { left, right }),
            Err(fault) => Err(Refusal::Fault(fault)),
        },
        Tree::Check(formula) => checked(alloc, base, defs, formula),
        Tree::Loop(turns) => loop_to_keep(alloc, defs, turns),
    }
}
