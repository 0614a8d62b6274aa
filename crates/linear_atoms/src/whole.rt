//! The table of the whole numbers among the fractions (own): a number is whole exactly if all its digits after the point are 0, or all
//! are the greatest. Costs a step for each fraction state and digit.

ghost use Rattle.std.specs.Prelude.{◌≡◌, ℕ, ◌+◌, ◌-◌, ◌*◌, ◌^◌, ◌<◌, ◌≤◌, IfOk, IfErr};
ghost use Rattle.lash_model.specs.Letters.{digit};
ghost use Rattle.lash_model.specs.Tables.{IsTable, letters};
ghost use Rattle.lash_model.specs.Standing.{StandsForMixed};
ghost use Rattle.part_laws.specs.Graphs.{IsWeak};
ghost use Rattle.part_laws.specs.CanonicalMixed.{fraction_graph};
ghost use Rattle.lasso_laws.specs.WholeNumbers.{whole_at, IsWholeTable};
ghost use Rattle.linear_atoms.specs.Whole.{whole_step, AreWholeSteps};

use digit_codes::{Base, letter_digit};
use packed_cells::Plain;
use std::alloc::Global;
use step_tables::{BuildError, Table};

/// The fraction state at the point.
const START: u32 = 0;

/// The fraction state after digits of 0 alone.
const ZEROS: u32 = 1;

/// The fraction state after greatest digits alone.
const GREATEST: u32 = 2;

/// The fraction state after any other digits.
const OTHERS: u32 = 3;

/// The number of fraction states.
const FRACTION_STATES: u32 = 4;

/// The fraction state to which a digit leads.
fn next_state(base: u32, state: u32, digit: u32) -> u32
    requires base { 2 ≤ base }
    ensures value { result ≡ whole_step base state digit }
    ensures within { result < 4 }
{
    if digit == 0 && (state == START || state == ZEROS) {
        ZEROS
    } else if digit == base - 1 && (state == START || state == GREATEST) {
        GREATEST
    } else {
        OTHERS
    }
}

/// Fills the row of a fraction state.
fn fill_row(base: Base, table: &mut Table<Plain>, state: u32)
    requires state { state < 4 }
    requires before { AreWholeSteps base (state * base ^ 1) table.old }
    ensures filled { AreWholeSteps base ((state + 1) * base ^ 1) table.new }
{
    for letter in 0..table.letters() {
        let digit = letter_digit(base, 1, letter, 0);
        table.set_frac(state, letter, next_state(base.radix(), state, digit));
    }
}

/// Fills the rows of the fraction states.
fn fill_rows(base: Base, table: &mut Table<Plain>)
    requires before { AreWholeSteps base 0 table.old }
    ensures filled { AreWholeSteps base (4 * base ^ 1) table.new }
{
    for state in 0..FRACTION_STATES {
        fill_row(base, table, state);
    }
}

/// Gives the fraction states their colours.
fn colour(base: Base, table: &mut Table<Plain>)
    requires filled { AreWholeSteps base (4 * base ^ 1) table.old }
    ensures whole { IsWholeTable base 1 0 table.new.table }
    ensures table { IsTable table.new.table }
{
    table.set_colour(START, true);
    table.set_colour(ZEROS, true);
    table.set_colour(GREATEST, true);
}

/// The table over one track that accepts exactly the lassos of whole numbers. `Heavy` comes exactly if its cells, five states of one more
/// than there are letters, pass the limit.
pub fn is_int(alloc: Global, base: Base, limit: u64) -> Result<Table<Plain>, BuildError>
    ensures whole { IfOk result (λ t. IsWholeTable base 1 0 t.table) }
    ensures stands { IfOk result (λ t. StandsForMixed t.table (whole_at 0)) }
    ensures weak { IfOk result (λ t. IsWeak (letters t.table) (fraction_graph t.table)) }
    ensures table { IfOk result (λ t. IsTable t.table) }
    ensures within { IfOk result (λ _. 5 * (base + 1) ≤ limit) }
    ensures heavy { IfErr result (λ e. e ≡ BuildError.Heavy → limit < 5 * (base + 1)) }
{
    let states = 1 + FRACTION_STATES;
    let cells = states * (base.radix() + 1);
    if u64::from(cells) > limit {
        return Err(BuildError::Heavy);
    }
    let mut table = match Table::blank(alloc, base, 1, 1, FRACTION_STATES) {
        Ok(table) => table,
        Err(_) => return Err(BuildError::Memory),
    };
    fill_rows(base, &mut table);
    colour(base, &mut table);
    Ok(table)
}
