//! The canonical table of a weak table with fraction states (Löding 2001): fraction states get the colours of their ranks, those that
//! behave alike become one, and then the integer states whose outputs behave alike. Costs two refinements and two explorations.

ghost use Rattle.std.specs.Prelude.{◌≡◌, ◌<◌, ◌≤◌, ℕ, length, slice_index, All, IsTrue, IfOk};
ghost use Rattle.lash_model.specs.Tables.{letters, ints, fracs};
ghost use Rattle.part_laws.specs.Graphs.{IsWeak};
ghost use Rattle.part_laws.specs.Ranks.{IsRecolouring};
ghost use Rattle.part_laws.specs.CanonicalMixed.{fraction_graph, IsCanonicalMixed, AcceptSameLassos};
ghost use Rattle.part_laws.specs.ClassTables.{class_outs, named_outs};
ghost use Rattle.weak_min.specs.Quotients.{is_state};
ghost use Rattle.weak_min.specs.FractionClasses.{AreRanked, AreReachedInts, AreReachedFractions};

use crate::answers::ClassAnswers;
use crate::copies::{colours_of, roots_of, rows_of};
use crate::quotient::explored;
use components::{frac_rows_of, parts_of, rank_colours};
use lash_io::Memory;
use packed_cells::{Cells, Plain};
use state_classes::classes;
use std::alloc::Global;
use step_tables::{Explored, Table};

/// The fraction part of a table: its rows, the colours of the states' ranks, and the classes of the states by these colours.
#[derive(Drop)]
struct Ranked {
    rows: Vec<u32>,
    colours: Vec<u32>,
    classes: Vec<u32>,
}

/// The colours of the ranks of the fraction states, whose rows are given.
fn colours_by_rank<C: Cells>(
    alloc: Global,
    table: &Table<C>,
    rows: &[u32],
) -> Result<Vec<u32>, Memory>
    requires weak { IsWeak (letters table.now.table) (fraction_graph table.now.table) }
    requires rows { rows.now ≡ table.now.table.frac_rows }
    ensures { IfOk result (λ c. IsRecolouring (letters table.now.table) (fraction_graph table.now.table) c.items) }
{
    let letters = table.letters();
    let colours = match colours_of(alloc, table) {
        Ok(colours) => colours,
        Err(Memory) => return Err(Memory),
    };
    let parts = match parts_of(alloc, rows, letters, table.fracs()) {
        Ok(parts) => parts,
        Err(Memory) => return Err(Memory),
    };
    rank_colours(alloc, rows, letters, &colours, &parts)
}

/// The fraction part of a weak table with the colours of ranks, and its classes.
fn rank_part<C: Cells>(alloc: Global, table: &Table<C>) -> Result<Ranked, Memory>
    requires { IsWeak (letters table.now.table) (fraction_graph table.now.table) }
    ensures { IfOk result (λ r. AreRanked table.now.table r.rows.items r.colours.items r.classes.items) }
{
    let rows = match frac_rows_of(alloc, table) {
        Ok(rows) => rows,
        Err(Memory) => return Err(Memory),
    };
    let colours = match colours_by_rank(alloc, table, &rows) {
        Ok(colours) => colours,
        Err(Memory) => return Err(Memory),
    };
    let classes = match classes(alloc, &rows, table.letters(), &colours) {
        Ok(classes) => classes,
        Err(Memory) => return Err(Memory),
    };
    Ok(Ranked {
        rows,
        colours,
        classes,
    })
}

/// The class of each integer state's output.
fn outs_by_class<C: Cells>(
    alloc: Global,
    table: &Table<C>,
    fraction_classes: &[u32],
) -> Result<Vec<u32>, Memory>
    requires fractions { 0 < fracs table.now.table }
    requires classes { length fraction_classes.now ≡ fracs table.now.table }
    ensures { IfOk result (λ outs. outs.items ≡ class_outs table.now.table fraction_classes.now) }
{
    let mut outs = match Vec::with_capacity(alloc, table.ints() as usize) {
        Ok(outs) => outs,
        Err(_) => return Err(Memory),
    };
    for state in 0..table.ints() {
        match outs.push(fraction_classes[table.out(state) as usize]) {
            Ok(()) => {}
            Err(_) => return Err(Memory),
        }
    }
    Ok(outs)
}

/// The integer states that are reached, one for each class by the classes of their outputs. The rows are those of the integer part.
fn reached_ints<C: Cells>(
    alloc: Global,
    table: &Table<C>,
    rows: &[u32],
    fraction_classes: &[u32],
) -> Result<Explored, Memory>
    requires fractions { 0 < fracs table.now.table }
    requires rows { rows.now ≡ table.now.table.rows }
    requires classes { length fraction_classes.now ≡ fracs table.now.table }
    ensures { IfOk result (λ k. AreReachedInts table.now.table fraction_classes.now k) }
{
    let letters = table.letters();
    let outs = match outs_by_class(alloc, table, fraction_classes) {
        Ok(outs) => outs,
        Err(Memory) => return Err(Memory),
    };
    let names = match classes(alloc, rows, letters, &outs) {
        Ok(names) => names,
        Err(Memory) => return Err(Memory),
    };
    let roots = match roots_of(alloc, table) {
        Ok(roots) => roots,
        Err(Memory) => return Err(Memory),
    };
    explored(alloc, letters, rows, &names, &roots)
}

/// The same, with the rows of the integer part copied only if they do not stand as they are.
fn explored_ints<C: Cells>(
    alloc: Global,
    table: &Table<C>,
    fraction_classes: &[u32],
) -> Result<Explored, Memory>
    requires fractions { 0 < fracs table.now.table }
    requires classes { length fraction_classes.now ≡ fracs table.now.table }
    ensures { IfOk result (λ k. AreReachedInts table.now.table fraction_classes.now k) }
{
    if let Some(rows) = table.lent_rows() {
        return reached_ints(alloc, table, rows, fraction_classes);
    }
    let rows = match rows_of(alloc, table) {
        Ok(rows) => rows,
        Err(Memory) => return Err(Memory),
    };
    reached_ints(alloc, table, &rows, fraction_classes)
}

/// The outputs of the integer states that name the explored classes.
fn outs_of_names<C: Cells>(
    alloc: Global,
    table: &Table<C>,
    found: &Explored,
) -> Result<Vec<u32>, Memory>
    requires { All (λ k. IsTrue (is_state (ints table.now.table) k)) found.now.keys }
    ensures { IfOk result (λ outs. outs.items ≡ named_outs table.now.table found.now) }
{
    let mut outs = match Vec::with_capacity(alloc, found.len() as usize) {
        Ok(outs) => outs,
        Err(_) => return Err(Memory),
    };
    for at in 0..found.len() {
        match outs.push(table.out(found.key(at)[0])) {
            Ok(()) => {}
            Err(_) => return Err(Memory),
        }
    }
    Ok(outs)
}

/// The classes of fraction states that are reached from the outputs of the explored integer states.
fn explored_fractions<C: Cells>(
    alloc: Global,
    table: &Table<C>,
    rows: &[u32],
    fraction_classes: &[u32],
    found: &Explored,
) -> Result<Explored, Memory>
    requires fractions { 0 < fracs table.now.table }
    requires rows { rows.now ≡ table.now.table.frac_rows }
    requires classes { length fraction_classes.now ≡ fracs table.now.table }
    requires least { (q : ℕ) → q < fracs table.now.table → slice_index fraction_classes.now q ≤ q }
    requires found { AreReachedInts table.now.table fraction_classes.now found.now }
    ensures { IfOk result (λ m. AreReachedFractions table.now.table fraction_classes.now found.now m) }
{
    let outs = match outs_of_names(alloc, table, found) {
        Ok(outs) => outs,
        Err(Memory) => return Err(Memory),
    };
    explored(alloc, table.letters(), rows, fraction_classes, &outs)
}

/// The canonical table of a weak table with fraction states: of the same base and number of tracks, it accepts the same lassos. Fails
/// only if memory runs out.
pub(crate) fn canonical_fractions<C: Cells>(
    alloc: Global,
    table: &Table<C>,
) -> Result<Table<Plain>, Memory>
    requires fractions { 0 < fracs table.now.table }
    requires weak { IsWeak (letters table.now.table) (fraction_graph table.now.table) }
    ensures canonical { IfOk result (λ u. IsCanonicalMixed u.table) }
    ensures base { IfOk result (λ u. u.table.base ≡ table.now.table.base) }
    ensures tracks { IfOk result (λ u. u.table.tracks ≡ table.now.table.tracks) }
    ensures lassos { IfOk result (λ u. AcceptSameLassos table.now.table u.table) }
{
    let part = match rank_part(alloc, table) {
        Ok(part) => part,
        Err(Memory) => return Err(Memory),
    };
    let whole = match explored_ints(alloc, table, &part.classes) {
        Ok(whole) => whole,
        Err(Memory) => return Err(Memory),
    };
    let fractions = match explored_fractions(alloc, table, &part.rows, &part.classes, &whole) {
        Ok(fractions) => fractions,
        Err(Memory) => return Err(Memory),
    };
    let colours = ClassAnswers {
        bits: &part.colours,
    };
    match Table::of_two_explored(
        alloc,
        table.base(),
        table.tracks(),
        &whole,
        &fractions,
        &colours,
    ) {
        Ok(made) => Ok(made),
        Err(Memory) => Err(Memory),
    }
}
