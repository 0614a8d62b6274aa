//! The marks of breakpoint states: a state is marked if nothing is owed.

use crate::keys::owing_in;
use step_tables::Answers;

/// The colours of breakpoint states of an automaton with so many fraction states: no, the mark, if nothing is owed.
#[derive(Drop)]
pub struct OwingColours {
    pub states: u32,
}

impl Answers for OwingColours {
    ghost use Rattle.breakpoint_laws.specs.Breakpoints.{is_key};
    ghost use Rattle.breakpoint_build.specs.BreakpointMachines.{is_owing};

    ghost says_yes = { λ _. is_owing };

    ghost is_proper = { λ o. is_key o.states };

    fn is_yes(&self, key: &[u32]) -> bool {
        !owing_in(key, self.states).is_empty()
    }
}
