//! What all parts of a closure are built from.

ghost use Rattle.std.specs.Prelude.{◌≡◌, ◌≤◌};
ghost use Rattle.loop_closure.specs.Builders.{stage_places};
ghost use Rattle.term_substitution.specs.Conditions.{variables_limit};

use formula_core::Formula;
use matrix_powers::Orbit;

/// Where the turns lead, the guard, the equation of two variables, and whether the number of turns is a variable behind x and y.
#[derive(Drop)]
pub(crate) struct Builder {
    pub orbit: Orbit,
    pub guard: Formula,
    pub same: Formula,
    pub counted: bool,
}

/// A vector of terms over so many variables: that after so many turns, or that after p (M - `back` + 1) turns and the remainder, where p is
/// the power and M the variable at the place.
#[derive(Clone, Copy)]
pub(crate) enum Stage {
    Early {
        turns: u32,
        places: u32,
    },
    Late {
        remainder: u32,
        place: u32,
        back: u32,
    },
}

/// Over how many variables the terms are.
pub(crate) fn places(stage: Stage) -> u32
    requires { stage_places stage ≤ variables_limit }
    ensures { result ≡ stage_places stage }
{
    match stage {
        Stage::Early { places, .. } => places,
        Stage::Late { place, .. } => place + 1,
    }
}
