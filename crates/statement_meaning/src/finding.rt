//! Finding kept sets by the names of statements.

ghost use Rattle.std.specs.Prelude.{◌≡◌, ◌≤◌, length, map};
ghost use Rattle.formula_core.specs.Variables.{sort_of};
ghost use Rattle.script_names.specs.Kept.{sets_of};
ghost use Rattle.script_syntax.specs.Trees.{named_of};
ghost use Rattle.statement_meaning.specs.Judging.{same_sorts};
ghost use Rattle.statement_meaning.specs.Finding.{IsFound, IsFoundWith, AreFound};

use formula_core::Sort;
use script_names::{Defs, FaultAt, NameFault};
use script_syntax::NameAt;

/// The place of the set of a name, or that none is kept.
pub fn kept_at(defs: &Defs, name: &NameAt<'_>) -> Result<u32, FaultAt>
    ensures found { IsFound (sets_of defs.now) (named_of name.now) result }
{
    match defs.place(name.bytes) {
        Some(at) => Ok(at),
        None => Err(FaultAt {
            fault: NameFault::Unknown,
            place: name.place,
        }),
    }
}

/// The place of the set of a name that has so many variables, or why there is none.
pub fn kept_with(defs: &Defs, name: &NameAt<'_>, count: usize) -> Result<u32, FaultAt>
    ensures found { IsFoundWith (sets_of defs.now) (named_of name.now) count result }
{
    match defs.place(name.bytes) {
        Some(at) => {
            if count == defs.vars(at).sorts().len() {
                Ok(at)
            } else {
                Err(FaultAt {
                    fault: NameFault::Misused,
                    place: name.place,
                })
            }
        }
        None => Err(FaultAt {
            fault: NameFault::Unknown,
            place: name.place,
        }),
    }
}

// Whether the sorts are the same, one by one.
fn are_same(left: &[Sort], right: &[Sort]) -> bool
    ensures { result ≡ same_sorts (map sort_of left.now) (map sort_of right.now) }
{
    if left.len() != right.len() {
        return false;
    }
    for at in 0..left.len() {
        if left[at] != right[at] {
            return false;
        }
    }
    true
}

/// The places of the sets of two names that have the same sorts, or why there are none.
pub fn kept_pair(defs: &Defs, a: &NameAt<'_>, b: &NameAt<'_>) -> Result<(u32, u32), FaultAt>
    ensures found { AreFound (sets_of defs.now) (named_of a.now) (named_of b.now) result }
{
    let left = match defs.place(a.bytes) {
        Some(left) => left,
        None => {
            return Err(FaultAt {
                fault: NameFault::Unknown,
                place: a.place,
            });
        }
    };
    let right = match defs.place(b.bytes) {
        Some(right) => right,
        None => {
            return Err(FaultAt {
                fault: NameFault::Unknown,
                place: b.place,
            });
        }
    };
    if are_same(defs.vars(left).sorts(), defs.vars(right).sorts()) {
        Ok((left, right))
    } else {
        Err(FaultAt {
            fault: NameFault::Misused,
            place: b.place,
        })
    }
}
