//! Flat rows: one entry for each state and letter, the rows one behind another.

ghost use Rattle.std.specs.Prelude.{◌≡◌, ◌+◌, ◌*◌, ◌<◌};

/// Where a state's entry for a letter stands.
pub(crate) fn entry_at(state: u32, letters: u32, letter: u32) -> usize
    requires { letter < letters }
    ensures { result ≡ state * letters + letter }
{
    state as usize * letters as usize + letter as usize
}
