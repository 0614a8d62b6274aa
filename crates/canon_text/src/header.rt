//! What the text of an automaton says besides its table. Own.

ghost use Rattle.std.specs.Prelude.{◌≡◌};

use digit_codes::Base;
use formula_core::Vars;

/// The base in which digits are written, and the variables, one for each track.
#[derive(Drop)]
pub struct Header {
    base: Base,
    vars: Vars,
}

impl Header {
    /// A header of this base and these variables.
    pub fn new(base: Base, vars: Vars) -> Header
        ensures { result ≡ record { base = base; vars = vars } }
    {
        Header { base, vars }
    }

    /// The base.
    pub fn base(&self) -> &Base
        ensures { result.now ≡ self.now.base }
    {
        &self.base
    }

    /// The variables.
    pub fn vars(&self) -> &Vars
        ensures { result.now ≡ self.now.vars }
    {
        &self.vars
    }
}
