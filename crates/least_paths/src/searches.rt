//! What a search of states has found: the state at each position.

ghost use Rattle.std.specs.Prelude.{◌≡◌, ℕ, ◌<◌, length, IfNone, IfSome};
ghost use Rattle.least_paths.specs.Searches.{HaveStates, state_at, IsFirstPlace};

use step_tables::Explored;

/// The state at a position. All keys are states below `states`.
pub fn place(states: u32, found: &Explored, at: u32) -> u32
    requires states { HaveStates states found.now }
    requires at { at < length found.now.keys }
    ensures value { result ≡ state_at found.now at }
    ensures below { result < states }
{
    found.key(at)[0]
}

/// The first position of a state. None if there is none. All keys are states below `states`.
pub fn first_place(states: u32, found: &Explored, state: u32) -> Option<u32>
    requires states { HaveStates states found.now }
    ensures none { IfNone result ((i : ℕ) → i < length found.now.keys → state_at found.now i ≡ state → ⊥) }
    ensures some { IfSome result (IsFirstPlace found.now state) }
{
    for at in 0..found.len() {
        if place(states, found, at) == state {
            return Some(at);
        }
    }
    None
}
