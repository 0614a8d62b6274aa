//! Searches for the first state of a kind. Each stops at the first that it finds.

ghost use Rattle.std.specs.Prelude.{◌≡◌, ℕ, ◌<◌, slice_index, true, false, IfNone, IfSome};
ghost use Rattle.lash_model.specs.Tables.{letters, ints, fracs};
ghost use Rattle.solution_pick.specs.FractionSearches.{IsDead, IsFirstLive};
ghost use Rattle.solution_pick.specs.Solutions.{IsFirstYes};

use packed_cells::Packed;
use step_tables::Table;

/// The first state whose output is yes. None if there is none.
pub(crate) fn first_yes(table: &Table<Packed>) -> Option<u32>
    ensures none { IfNone result ((q : ℕ) → q < ints table.now.table → slice_index table.now.table.outs q ≡ 1 → ⊥) }
    ensures some { IfSome result (IsFirstYes table.now.table) }
{
    for state in 0..table.ints() {
        if table.out(state) == 1 {
            return Some(state);
        }
    }
    None
}

/// The output of an integer state, which is a fraction state.
pub(crate) fn fraction_out(table: &Table<Packed>, state: u32) -> u32
    requires fractions { 0 < fracs table.now.table }
    requires state { state < ints table.now.table }
    ensures value { result ≡ slice_index table.now.table.outs state }
    ensures below { result < fracs table.now.table }
{
    table.out(state)
}

/// Whether a fraction state has colour no and only steps to itself. In a canonical table those are the states from which nothing is
/// accepted.
fn is_dead(table: &Table<Packed>, state: u32) -> bool
    requires { state < fracs table.now.table }
    ensures dead { result ≡ true → IsDead table.now.table state }
    ensures live { result ≡ false → IsDead table.now.table state → ⊥ }
{
    if table.colour(state) {
        return false;
    }
    for letter in 0..table.letters() {
        if table.frac_step(state, letter) != state {
            return false;
        }
    }
    true
}

/// The first integer state whose output is not dead. None if there is none.
pub(crate) fn first_live(table: &Table<Packed>) -> Option<u32>
    requires { 0 < fracs table.now.table }
    ensures none { IfNone result ((q : ℕ) → q < ints table.now.table → IsDead table.now.table (slice_index table.now.table.outs q)) }
    ensures some { IfSome result (IsFirstLive table.now.table) }
{
    for state in 0..table.ints() {
        if !is_dead(table, fraction_out(table, state)) {
            return Some(state);
        }
    }
    None
}
