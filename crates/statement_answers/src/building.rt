//! The automata of sets.

ghost use Rattle.std.specs.Prelude.{◌≤◌, IfErr, IfOk};
ghost use Rattle.formula_core.specs.Shape.{formula_of};
ghost use Rattle.statement_answers.specs.Automata.{IsAnswer, IsGiven};
ghost use Rattle.statement_answers.specs.Pieces.{HasNoAutomaton};

use crate::errors::Unanswered;
use crate::settings::Settings;
use formula_core::{Formula, Vars};
use set_compile::{CompileError, compile};
use std::alloc::Global;
use weak_min::Canon;

/// The canonical table of a set. If a construction is refused, `Heavy` and `NotWeak` say which refusal the first one gives.
pub(crate) fn automaton(
    alloc: Global,
    settings: Settings,
    vars: &Vars,
    formula: &Formula,
) -> Result<Canon, Unanswered>
    requires limit { settings.cells ≤ 16777216 }
    requires given { IsGiven settings.base vars.now (formula_of formula.now) }
    ensures answer { IfOk result (λ c. IsAnswer settings vars.now (formula_of formula.now) c.table) }
    ensures cause { IfErr result (λ e. HasNoAutomaton settings vars.now (formula_of formula.now) e) }
{
    let sorts = vars.sorts();
    match compile(alloc, settings.base, sorts, formula, settings.cells) {
        Ok(canon) => Ok(canon),
        Err(CompileError::Heavy) => Err(Unanswered::Heavy),
        Err(
            CompileError::NotWeak {
                sign,
                whole,
                stem,
                accept,
                reject,
            },
        ) => Err(Unanswered::NotWeak {
            sign,
            whole,
            stem,
            accept,
            reject,
        }),
        Err(CompileError::Memory) => Err(Unanswered::Memory),
    }
}
