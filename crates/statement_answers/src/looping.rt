//! Keeping the pairs of vectors that the iterations of a loop join.

ghost use Rattle.std.specs.Prelude.{◌≡◌, IfErr, IfOk, OnErr, OnOk};
ghost use Rattle.formula_core.specs.Shape.{formula_of};
ghost use Rattle.loop_closure.specs.Bodies.{body_of};
ghost use Rattle.loop_closure.specs.Closing.{IsBody};
ghost use Rattle.statement_meaning.specs.Asking.{Loop};
ghost use Rattle.statement_answers.specs.Keeping.{grown, sets_kept};
ghost use Rattle.statement_answers.specs.Loops.{IsFitLoop, IsPairing, IsUnpaired, unclosed_of};
ghost use Rattle.statement_answers.specs.Pieces.{KeepsSilent};

use crate::answering::keep;
use crate::errors::Unanswered;
use crate::library::Library;
use crate::settings::Settings;
use formula_core::{Formula, Vars, fits_letters};
use loop_closure::{LoopBody, LoopError, closure};
use script_meaning::Which;
use script_names::Name;
use std::alloc::Global;

// Why a loop has no closure.
fn unclosed(error: LoopError) -> Unanswered
    ensures { result ≡ unclosed_of error }
{
    let which = match error {
        LoopError::NoPower => return Unanswered::NoPower,
        LoopError::Memory => return Unanswered::Memory,
        LoopError::Nodes => Which::Nodes,
        LoopError::Depth => Which::Depth,
        LoopError::Coefficient => Which::Coefficient,
        LoopError::Constant => Which::Constant,
    };
    Unanswered::Closure { which }
}

// The formula of a loop's pairs.
fn pairs(alloc: Global, settings: Settings, body: &LoopBody) -> Result<Formula, Unanswered>
    requires { IsBody (body_of body.now) }
    ensures pairs { IfOk result (λ f. IsPairing settings.base (body_of body.now) (formula_of f)) }
    ensures cause { IfErr result (λ e. IsUnpaired settings.base (body_of body.now) e) }
{
    let formula = match closure(alloc, body) {
        Ok(formula) => formula,
        Err(error) => return Err(unclosed(error)),
    };
    if fits_letters(settings.base, &formula, body.matrix.side() * 2) {
        Ok(formula)
    } else {
        Err(Unanswered::Closure {
            which: Which::Letters,
        })
    }
}

/// Keeps the pairs of a loop.
pub(crate) fn keep_loop(
    alloc: Global,
    library: &mut Library,
    name: Name,
    vars: Vars,
    body: LoopBody,
) -> Result<(), Unanswered>
    requires { IsFitLoop (sets_kept library.old) name vars (body_of body) }
    ensures kept { OnOk result (sets_kept library.new ≡ grown (sets_kept library.old) (Loop name vars (body_of body))) }
    ensures stays { OnErr result (sets_kept library.new ≡ sets_kept library.old) }
    ensures settings { library.new.settings ≡ library.old.settings }
    ensures answered { KeepsSilent library.old.settings (sets_kept library.old) (Loop name vars (body_of body)) result }
{
    match pairs(alloc, library.settings(), &body) {
        Ok(formula) => keep(alloc, library, name, vars, formula),
        Err(error) => Err(error),
    }
}
