//! What a script asks.

ghost use Rattle.std.specs.Prelude.{◌≡◌};

use formula_core::{Formula, Vars};
use fraction_codes::Ratio;
use loop_closure::LoopBody;
use script_names::Name;
use std::marker::Model;

/// The values of a test, one for each variable of its set.
#[derive(Debug, Drop)]
pub struct Values {
    ratios: Vec<Ratio>,
}

impl Model for Values {
    ghost use Rattle.std.specs.Prelude.{List};
    ghost use Rattle.fraction_codes.specs.declared.ratio.Ratio.{Ratio as RatioOfModel};

    ghost Value = { List RatioOfModel };

    ghost view = { λ v. v.ratios.items };
}

impl Values {
    /// The values of these fractions.
    pub(crate) fn of(ratios: Vec<Ratio>) -> Values
        ensures { result ≡ ratios.items }
    {
        Values { ratios }
    }

    /// The fractions, in the order of the variables. Each denominator is positive, and no part passes 2^64.
    pub fn ratios(&self) -> &[Ratio]
        ensures { result.now ≡ self.now }
    {
        self.ratios.as_slice()
    }
}

/// A statement whose names are right and that passes no limit. A kept set is named by its place in the list of kept sets.
#[derive(Debug, Drop)]
pub enum Statement {
    /// Show the set of the variables' values that satisfy the formula.
    Show {
        vars: Vars,
        formula: Formula,
    },
    /// Keep this set by a name, which is new.
    Set {
        name: Name,
        vars: Vars,
        formula: Formula,
    },
    /// Show the kept set.
    Print {
        at: u32,
    },
    /// Tell a solution of the kept set, or that there is none.
    Solve {
        at: u32,
    },
    /// Whether the values are in the kept set.
    Test {
        at: u32,
        values: Values,
    },
    /// Whether the two kept sets have the same solutions. They have the same list of sorts.
    Equal {
        left: u32,
        right: u32,
    },
    /// Whether each solution of the first kept set is one of the second. They have the same list of sorts.
    Subset {
        left: u32,
        right: u32,
    },
    /// Whether the formula, which has no free variables, holds.
    Check {
        formula: Formula,
    },
    /// Keep the pairs of vectors that turns of the loop join, by this name, which is new. The variables are those before the turns, and behind
    /// them those after the turns; the body is over the first half.
    Loop {
        name: Name,
        vars: Vars,
        body: LoopBody,
    },
}
