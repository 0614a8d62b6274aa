//! The fixed solution of a canonical table, and membership. Of a diagram it is the least accepted word: states are numbered by their
//! least paths, so the first state whose output is yes has it. Costs one look at each cell.

ghost use Rattle.std.specs.Prelude.{◌≡◌, [], ◌∷◌, ◌<◌, IfOk, IfNone, IfSome};
ghost use Rattle.lash_model.specs.Acceptance.{accepts_word, accepts_lasso};
ghost use Rattle.lash_model.specs.Lassos.{IsLasso};
ghost use Rattle.lash_model.specs.Tables.{fracs, IsDiagram};
ghost use Rattle.canonical_laws.specs.Canonical.{IsCanonical};
ghost use Rattle.digit_codes.specs.Reading.{lasso_of};
ghost use Rattle.part_laws.specs.CanonicalMixed.{IsCanonicalTable};
ghost use Rattle.solution_pick.specs.FractionSolutions.{AcceptsNoLasso, IsFixedSolution};
ghost use Rattle.solution_pick.specs.Solutions.{AcceptsNothing, IsLeastAccepted};

use crate::fractions::fraction_solution;
use crate::scans::first_yes;
use digit_codes::{Lasso, Word};
use lash_io::Memory;
use least_paths::{Trail, least_path};
use packed_cells::Packed;
use std::alloc::Global;
use step_tables::Table;
use weak_min::Canon;

/// The word of these letters.
fn word_of(alloc: Global, letters: &[u32]) -> Result<Word, Memory>
    ensures { IfOk result (λ w. w ≡ letters.now) }
{
    let mut word = Word::empty(alloc);
    for letter in letters {
        match word.push(*letter) {
            Ok(()) => {}
            Err(Memory) => return Err(Memory),
        }
    }
    Ok(word)
}

/// The lasso of these words.
pub(crate) fn lasso(
    alloc: Global,
    sign: u32,
    whole: &[u32],
    stem: &[u32],
    cycle: &[u32],
) -> Result<Lasso, Memory>
    ensures { IfOk result (λ x. lasso_of x ≡ record { sign = sign; whole = whole.now; stem = stem.now; cycle = cycle.now }) }
{
    let whole = match word_of(alloc, whole) {
        Ok(whole) => whole,
        Err(Memory) => return Err(Memory),
    };
    let stem = match word_of(alloc, stem) {
        Ok(stem) => stem,
        Err(Memory) => return Err(Memory),
    };
    match word_of(alloc, cycle) {
        Ok(cycle) => Ok(Lasso {
            sign,
            whole,
            stem,
            cycle,
        }),
        Err(Memory) => Err(Memory),
    }
}

/// The solution of a table that is known to be canonical.
fn solution_of(alloc: Global, table: &Table<Packed>) -> Result<Option<Lasso>, Memory>
    requires { IsCanonical table.now.table }
    ensures none { IfOk result (λ found. IfNone found (AcceptsNothing table.now.table)) }
    ensures least { IfOk result (λ found. IfSome found (λ x. IsLeastAccepted table.now.table x.sign x.whole)) }
    ensures range { IfOk result (λ found. IfSome found (λ x. IsLasso table.now.table.base table.now.table.tracks (lasso_of x))) }
    ensures stem { IfOk result (λ found. IfSome found (λ x. x.stem ≡ [])) }
    ensures cycle { IfOk result (λ found. IfSome found (λ x. x.cycle ≡ 0 ∷ [])) }
{
    let state = match first_yes(table) {
        Some(state) => state,
        None => return Ok(None),
    };
    let Trail { start, letters } = match least_path(alloc, table, state) {
        Ok(trail) => trail,
        Err(Memory) => return Err(Memory),
    };
    match lasso(alloc, start, letters.as_slice(), &[], &[0]) {
        Ok(lasso) => Ok(Some(lasso)),
        Err(Memory) => Err(Memory),
    }
}

/// The same of either kind, for a table that is known to be canonical.
fn table_solution(alloc: Global, table: &Table<Packed>) -> Result<Option<Lasso>, Memory>
    requires { IsCanonicalTable table.now.table }
    ensures none { IsDiagram table.now.table → IfOk result (λ found. IfNone found (AcceptsNothing table.now.table)) }
    ensures least { IsDiagram table.now.table → IfOk result (λ found. IfSome found (λ x. IsLeastAccepted table.now.table x.sign x.whole)) }
    ensures range { IsDiagram table.now.table → IfOk result (λ found. IfSome found (λ x. IsLasso table.now.table.base table.now.table.tracks (lasso_of x))) }
    ensures stem { IsDiagram table.now.table → IfOk result (λ found. IfSome found (λ x. x.stem ≡ [])) }
    ensures cycle { IsDiagram table.now.table → IfOk result (λ found. IfSome found (λ x. x.cycle ≡ 0 ∷ [])) }
    ensures no_lasso { 0 < fracs table.now.table → IfOk result (λ found. IfNone found (AcceptsNoLasso table.now.table)) }
    ensures fixed { 0 < fracs table.now.table → IfOk result (λ found. IfSome found (λ x. IsFixedSolution table.now.table (lasso_of x))) }
{
    if table.fracs() == 0 {
        return solution_of(alloc, table);
    }
    fraction_solution(alloc, table)
}

/// The fixed solution of a canonical table, None exactly if it accepts nothing. Of a diagram it is a sign vector and a whole word that it
/// accepts, such that none is less, by length, then sign vector, then letters, with the fraction zero. Of a table with fraction states
/// it is the least such pair to an output from which some lasso is accepted, the least stem from there to a looping state of colour yes,
/// and the least cycle of that state. Fails only if memory runs out.
pub fn solution(alloc: Global, canon: &Canon) -> Result<Option<Lasso>, Memory>
    ensures none { IsDiagram canon.now.table → IfOk result (λ found. IfNone found (AcceptsNothing canon.now.table)) }
    ensures least { IsDiagram canon.now.table → IfOk result (λ found. IfSome found (λ x. IsLeastAccepted canon.now.table x.sign x.whole)) }
    ensures range { IsDiagram canon.now.table → IfOk result (λ found. IfSome found (λ x. IsLasso canon.now.table.base canon.now.table.tracks (lasso_of x))) }
    ensures stem { IsDiagram canon.now.table → IfOk result (λ found. IfSome found (λ x. x.stem ≡ [])) }
    ensures cycle { IsDiagram canon.now.table → IfOk result (λ found. IfSome found (λ x. x.cycle ≡ 0 ∷ [])) }
    ensures no_lasso { 0 < fracs canon.now.table → IfOk result (λ found. IfNone found (AcceptsNoLasso canon.now.table)) }
    ensures fixed { 0 < fracs canon.now.table → IfOk result (λ found. IfSome found (λ x. IsFixedSolution canon.now.table (lasso_of x))) }
{
    table_solution(alloc, canon.table())
}

/// Whether a canonical table accepts a lasso, which is in range. A diagram looks at its output after the sign vector and the whole word,
/// and not at the fraction. Takes no memory.
pub fn member(canon: &Canon, lasso: &Lasso) -> bool
    requires { IsLasso canon.now.table.base canon.now.table.tracks (lasso_of lasso.now) }
    ensures diagram { IsDiagram canon.now.table → result ≡ accepts_word canon.now.table lasso.now.sign lasso.now.whole }
    ensures fractions { 0 < fracs canon.now.table → result ≡ accepts_lasso canon.now.table (lasso_of lasso.now) }
{
    canon.table().accepts(lasso)
}
