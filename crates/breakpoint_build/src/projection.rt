//! The projection of a weak automaton with fraction states along a track.

ghost use Rattle.std.specs.Prelude.{◌≡◌, ◌+◌, ◌<◌, ◌≤◌, ℕ, ℤ, List, IfOk, IfErr};
ghost use Rattle.lash_model.specs.Formulas.{Formula};
ghost use Rattle.lash_model.specs.Sets.{set_of, bound_by_fraction, KeepsScale};
ghost use Rattle.lash_model.specs.Standing.{StandsForMixed};
ghost use Rattle.lash_model.specs.Tables.{IsTable, letters, fracs};
ghost use Rattle.part_laws.specs.CanonicalMixed.{fraction_graph};
ghost use Rattle.part_laws.specs.Graphs.{IsWeak};
ghost use Rattle.breakpoint_laws.specs.Breakpoints.{IsHeavyRealProjection, AcceptsSomeLasso};
ghost use Rattle.breakpoint_build.specs.RealProjections.{IsRealProjection, TellsTornProjection};

use crate::RealError;
use crate::marked::marked_table;
use packed_cells::{Cells, Plain};
use std::alloc::Global;
use step_tables::{BuildError, Table};
use weak_forms::{CoTable, WeakError, weaken};

/// The weak automaton that forgets a track: it accepts a lasso if the given automaton accepts some lasso of all tracks over it, with more
/// sign letters in front, the cycle turned further and repeated, and any sign and digits on the track. If the given automaton stands for a
/// set, the result stands for the set in which the track's variable is bound by a fraction.
///
/// The automaton has fraction states and is weak, the track is one of its tracks, and the limit of cells is at most 16,777,216. `Heavy`
/// comes exactly if the reached sets of integer states and the reached breakpoint states together have more cells than the limit: for each
/// the number of letters, one, and its members, and of a breakpoint state also those that owe. `NotWeak` comes exactly if they have not and
/// the breakpoint table is torn, with its words. `Memory` comes if the program is out of memory. The method is that of Miyano and Hayashi
/// (1984), for real numbers that of Boigelot, Jodogne and Wolper (2005).
pub fn project_real<C: Cells>(
    alloc: Global,
    table: &Table<C>,
    track: u32,
    limit: u64,
) -> Result<Table<Plain>, RealError>
    requires fractions { 0 < fracs table.now.table }
    requires weak { IsWeak (letters table.now.table) (fraction_graph table.now.table) }
    requires track { track < table.now.table.tracks }
    requires limit { limit ≤ 16777216 }
    ensures table { IfOk result (λ u. IsTable u.table) }
    ensures base { IfOk result (λ u. u.table.base ≡ table.now.table.base) }
    ensures tracks { IfOk result (λ u. u.table.tracks + 1 ≡ table.now.table.tracks) }
    ensures fractions { IfOk result (λ u. 0 < fracs u.table) }
    ensures weak { IfOk result (λ u. IsWeak (letters u.table) (fraction_graph u.table)) }
    ensures lassos { IfOk result (λ u. AcceptsSomeLasso table.now.table track u.table) }
    ensures stands { IfOk result (λ u. (f : Formula) (s : List ℤ → List ℤ) → KeepsScale s → StandsForMixed table.now.table (set_of f s)
        → StandsForMixed u.table (bound_by_fraction track (set_of f s))) }
    ensures projection { IfOk result (λ u. IsRealProjection table.now.table track limit u.table) }
    ensures heavy { IfErr result (λ e. e ≡ RealError.Heavy → IsHeavyRealProjection table.now.table track limit) }
    ensures torn { IfErr result (TellsTornProjection table.now.table track limit) }
{
    let _letters = table.letters();
    let marked = match marked_table(alloc, table, track, limit) {
        Ok(marked) => marked,
        Err(BuildError::Heavy) => return Err(RealError::Heavy),
        Err(BuildError::Memory) => return Err(RealError::Memory),
    };
    match weaken(alloc, CoTable::new(marked)) {
        Ok(form) => Ok(form),
        Err(
            WeakError::NotWeak {
                sign,
                whole,
                stem,
                accept,
                reject,
            },
        ) => Err(RealError::NotWeak {
            sign,
            whole,
            stem,
            accept,
            reject,
        }),
        Err(WeakError::Memory) => Err(RealError::Memory),
    }
}
