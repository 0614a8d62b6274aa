//! The search for the end of a statement, from where an earlier search stopped. Each byte is looked at once.

ghost use Rattle.std.specs.Prelude.{◌≡◌, ◌<◌, ◌≤◌, Bool, false, length, take, slice_index};
ghost use Rattle.script_pieces.specs.Cuts.{commented};
ghost use Rattle.script_pieces.specs.Searching.{Passes};

/// How many bytes were passed, and whether what follows them stands in a comment.
#[derive(Clone, Copy)]
pub(crate) struct Search {
    pub(crate) passed: usize,
    pub(crate) in_comment: bool,
}

/// Passes over bytes up to the first `;` outside comments. The bytes begin in a comment, or do not.
pub(crate) fn pass_over(bytes: &[u8], in_comment: bool) -> Search
    ensures within { result.passed ≤ length bytes.now }
    ensures passed { Passes in_comment (take result.passed bytes.now) result.in_comment }
    ensures end { result.passed < length bytes.now → (result.in_comment ≡ false) × (slice_index bytes.now result.passed ≡ 59) }
{
    let mut now = in_comment;
    for (passed, byte) in bytes.iter().enumerate() {
        if !now && *byte == b';' {
            return Search {
                passed,
                in_comment: now,
            };
        }
        now = goes_on(now, *byte);
    }
    Search {
        passed: bytes.len(),
        in_comment: now,
    }
}

// Whether a comment goes on behind a byte.
fn goes_on(in_comment: bool, byte: u8) -> bool
    ensures { result ≡ commented in_comment byte }
{
    if in_comment {
        byte != b'\n'
    } else {
        byte == b'#'
    }
}
