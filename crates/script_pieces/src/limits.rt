//! How many bytes a statement and a script may have.

ghost use Rattle.std.specs.Prelude.{◌≤◌, MatchResult};
ghost use Rattle.script_pieces.specs.Limits.{IsWithin, IsRefused};

use crate::errors::PieceError;

/// How many bytes a statement may have.
const STATEMENT_BYTES: u64 = 65_536;

/// How many bytes a script may have.
pub(crate) const SCRIPT_BYTES: u64 = 16_777_216;

/// Whether a piece of so many bytes behind so many bytes of the script keeps within the limits, or which one it passes first.
pub(crate) fn within_limits(given: u64, size: usize) -> Result<(), PieceError>
    requires given { given ≤ 16777217 }
    requires size { size ≤ 131072 }
    ensures { MatchResult result (λ _. IsWithin given size) (λ e. IsRefused e given size) }
{
    let size = size as u64;
    if size > STATEMENT_BYTES && given + STATEMENT_BYTES <= SCRIPT_BYTES {
        return Err(PieceError::StatementBytes);
    }
    if given + size > SCRIPT_BYTES {
        return Err(PieceError::ScriptBytes);
    }
    Ok(())
}
