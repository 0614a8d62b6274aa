//! The outputs of sets of states: yes where some member's output is yes.

ghost use Rattle.std.specs.Prelude.{◌≡◌, ◌<◌, All};
ghost use Rattle.lash_model.specs.Tables.{ints};
ghost use Rattle.subset_build.specs.Projection.{is_rising_in, set_says};

use packed_cells::Cells;
use step_tables::{Answers, Table};

/// Whether some member's output is yes.
fn has_yes<C: Cells>(table: &Table<C>, set: &[u32]) -> bool
    requires { All (λ q. q < ints table.now.table) set.now }
    ensures { result ≡ set_says table.now.table set.now }
{
    for state in set {
        if table.out(*state) == 1 {
            return true;
        }
    }
    false
}

/// The outputs of a diagram's states.
#[derive(Drop)]
pub struct SetOutputs<'a, C: Cells> {
    pub table: &'a Table<C>,
}

impl<C: Cells> Answers for SetOutputs<'_, C> {
    ghost says_yes = { λ o. set_says o.table.now.table };

    ghost is_proper = { λ o. is_rising_in 0 (ints o.table.now.table) };

    fn is_yes(&self, key: &[u32]) -> bool {
        has_yes(self.table, key)
    }
}
