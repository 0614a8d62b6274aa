//! The fixed solution of a canonical table with fraction states. Integer states are numbered by their least pairs, so the first one whose
//! output is not dead has the least pair; from that output the least stem is looked for, and from its end the least cycle. Costs a
//! few looks at each cell.

ghost use Rattle.std.specs.Prelude.{IfOk, IfNone, IfSome};
ghost use Rattle.part_laws.specs.CanonicalMixed.{IsCanonicalMixed};
ghost use Rattle.digit_codes.specs.Reading.{lasso_of};
ghost use Rattle.solution_pick.specs.FractionSolutions.{AcceptsNoLasso, IsFixedSolution};

use crate::picking::lasso;
use crate::scans::{first_live, fraction_out};
use crate::stems::{Ending, least_ending};
use digit_codes::Lasso;
use lash_io::Memory;
use least_paths::{Trail, least_path};
use packed_cells::Packed;
use std::alloc::Global;
use step_tables::Table;

/// The fixed solution of a canonical table with fraction states. Its sign vector and whole word are the least pair to an output from
/// which something is accepted, its stem is the least word from there to a looping state of colour yes, and its cycle is the least word
/// from that state back to it. None exactly if the table accepts no lasso. The one error is Memory: out of memory.
pub(crate) fn fraction_solution(
    alloc: Global,
    table: &Table<Packed>,
) -> Result<Option<Lasso>, Memory>
    requires { IsCanonicalMixed table.now.table }
    ensures none { IfOk result (λ found. IfNone found (AcceptsNoLasso table.now.table)) }
    ensures fixed { IfOk result (λ found. IfSome found (λ x. IsFixedSolution table.now.table (lasso_of x))) }
{
    let state = match first_live(table) {
        Some(state) => state,
        None => return Ok(None),
    };
    let Trail { start, letters } = match least_path(alloc, table, state) {
        Ok(trail) => trail,
        Err(Memory) => return Err(Memory),
    };
    let found = match least_ending(alloc, table, fraction_out(table, state)) {
        Ok(found) => found,
        Err(Memory) => return Err(Memory),
    };
    let Ending { stem, cycle } = match found {
        Some(ending) => ending,
        // Something is accepted from a state that is not dead.
        None => unreachable!(),
    };
    match lasso(
        alloc,
        start,
        letters.as_slice(),
        stem.as_slice(),
        cycle.as_slice(),
    ) {
        Ok(lasso) => Ok(Some(lasso)),
        Err(Memory) => Err(Memory),
    }
}
