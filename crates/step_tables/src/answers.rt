//! What the keys of an exploration answer, yes or no: the outputs of a diagram's states, or the colours of fraction states.

ghost use Rattle.std.specs.Prelude.{◌≡◌, ℕ, List, Bool, All, IsTrue, IfOk, if◌then◌else◌};
ghost use Rattle.step_tables.specs.Kept.{answered};

use crate::Explored;
use lash_io::Memory;
use std::alloc::Global;

/// A yes or a no for each proper key.
pub trait Answers {
    ghost says_yes: { Self → List ℕ → Bool };

    ghost is_proper: { Self → List ℕ → Bool };

    /// Whether a proper key answers yes.
    fn is_yes(&self, key: &[u32]) -> bool
        requires { IsTrue (is_proper self.now key.now) }
        ensures { result ≡ says_yes self.now key.now };
}

/// 1 for yes, and 0 for no.
fn bit_of(yes: bool) -> u32
    ensures { result ≡ (if yes then 1 else 0) }
{
    if yes { 1 } else { 0 }
}

/// The answers of all keys, in order.
pub(crate) fn bits_of<A: Answers>(
    alloc: Global,
    answers: &A,
    found: &Explored,
) -> Result<Vec<u32>, Memory>
    requires { All (λ k. IsTrue (A.is_proper answers.now k)) found.now.keys }
    ensures { IfOk result (λ bits. bits.items ≡ answered (A.says_yes answers.now) found.now.keys) }
{
    let mut bits = match Vec::with_capacity(alloc, found.len() as usize) {
        Ok(bits) => bits,
        Err(_) => return Err(Memory),
    };
    for at in 0..found.len() {
        match bits.push(bit_of(answers.is_yes(found.key(at)))) {
            Ok(()) => {}
            Err(_) => return Err(Memory),
        }
    }
    Ok(bits)
}
