//! The complement of a table: each integer state's output is exchanged or, if there are fraction states, each fraction state's colour.
//! Costs one change for each of these states, and takes no memory.

ghost use Rattle.std.specs.Prelude.{◌≡◌, ◌<◌, ℕ, ℤ, List};
ghost use Rattle.lash_model.specs.Formulas.{Formula};
ghost use Rattle.lash_model.specs.Standing.{StandsForWhole, StandsForMixed};
ghost use Rattle.lash_model.specs.Tables.{IsTable, IsDiagram, letters, fracs};
ghost use Rattle.lash_model.specs.Sets.{set_of};
ghost use Rattle.canonical_laws.specs.Canonical.{IsCanonical};
ghost use Rattle.part_laws.specs.Graphs.{IsWeak};
ghost use Rattle.part_laws.specs.CanonicalMixed.{fraction_graph};
ghost use Rattle.part_laws.specs.Opposites.{opposite, AcceptOtherLassos};
ghost use Rattle.product_ops.specs.Negation.{negated, AcceptsOthers};

use packed_cells::Cells;
use step_tables::Table;

/// Exchanges the outputs of a diagram.
fn exchange_outputs<C: Cells>(table: &mut Table<C>)
    requires { IsDiagram table.old.table }
    ensures changed { table.new ≡ record table.old { table = negated table.old.table } }
    ensures table { IsTable table.new.table }
    ensures old_table { IsTable table.old.table }
{
    let _letters = table.letters();
    for state in 0..table.ints() {
        table.set_out(state, 1 - table.out(state));
    }
}

/// Exchanges the colours of a table.
fn exchange_colours<C: Cells>(table: &mut Table<C>)
    ensures changed { table.new ≡ record table.old { table = opposite table.old.table } }
    ensures table { IsTable table.new.table }
    ensures old_table { IsTable table.old.table }
{
    let _letters = table.letters();
    for state in 0..table.fracs() {
        table.set_colour(state, !table.colour(state));
    }
}

/// Exchanges the outputs of a diagram, yes for no and no for yes, or the colours of a table with fraction states: it then accepts
/// exactly what it did not accept before. A weak table stays weak.
pub fn complement<C: Cells>(table: &mut Table<C>)
    ensures changed { IsDiagram table.old.table → table.new ≡ record table.old { table = negated table.old.table } }
    ensures canonical { IsCanonical table.old.table → IsCanonical table.new.table }
    ensures words { IsDiagram table.old.table → AcceptsOthers table.old.table table.new.table }
    ensures stands { (f : Formula) (s : List ℤ → List ℤ) → StandsForWhole table.old.table (set_of f s)
        → StandsForWhole table.new.table (λ ns d. set_of f s ns d → ⊥) }
    ensures recoloured { 0 < fracs table.old.table → table.new ≡ record table.old { table = opposite table.old.table } }
    ensures weak { 0 < fracs table.old.table → IsWeak (letters table.old.table) (fraction_graph table.old.table)
        → IsWeak (letters table.new.table) (fraction_graph table.new.table) }
    ensures lassos { 0 < fracs table.old.table → AcceptOtherLassos table.old.table table.new.table }
    ensures stands_mixed { (f : Formula) (s : List ℤ → List ℤ) → StandsForMixed table.old.table (set_of f s)
        → StandsForMixed table.new.table (λ ns d. set_of f s ns d → ⊥) }
    ensures table { IsTable table.new.table }
{
    if table.fracs() == 0 {
        exchange_outputs(table);
    } else {
        exchange_colours(table);
    }
}
