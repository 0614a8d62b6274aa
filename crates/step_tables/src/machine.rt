//! Machines whose states are named by keys, short lists of numbers.

ghost use Rattle.std.specs.Prelude.{◌≡◌, ◌<◌, List, ℕ, Bool, length, IsTrue, OnOk};
ghost use Rattle.graph_laws.specs.Exploring.{Steps, list_at};

use lash_io::Memory;
use smallvec::SmallVec;
use std::alloc::Global;

/// The key of a state. Up to 8 numbers stand in place.
pub type Key = SmallVec<u32, 8, Global>;

/// What can be explored: a number of letters, start keys, the key behind each key and letter, the weight of each key, and a test of
/// which keys are proper. All keys that are met are proper. The two calls that write a key may want memory: then the key that they
/// write has any content.
pub trait Machine {
    ghost meaning: { Self → Steps };

    /// The number of letters.
    fn letters(&self) -> u32
        ensures { result ≡ (meaning self.now).width };

    /// The number of starts.
    fn starts(&self) -> usize
        ensures { result ≡ length (meaning self.now).starts };

    /// Writes the key of a start.
    fn start(&mut self, at: usize, into: &mut Key) -> Result<(), Memory>
        requires { at < length (meaning self.old).starts }
        ensures key { OnOk result (into.new.items ≡ list_at (meaning self.old).starts at) }
        ensures proper { OnOk result (IsTrue ((meaning self.old).is_proper into.new.items)) }
        ensures kept { meaning self.new ≡ meaning self.old };

    /// Writes the key behind a proper key and a letter.
    fn step(&mut self, from: &Key, letter: u32, into: &mut Key) -> Result<(), Memory>
        requires proper { IsTrue ((meaning self.old).is_proper from.now.items) }
        requires letter { letter < (meaning self.old).width }
        ensures key { OnOk result (into.new.items ≡ (meaning self.old).step from.now.items letter) }
        ensures proper { OnOk result (IsTrue ((meaning self.old).is_proper into.new.items)) }
        ensures kept { meaning self.new ≡ meaning self.old };

    /// How many numbers keys have, or 0: that of one entry is the entry, and that of two the first times `radix` and the second. Where
    /// there are few, a key that was met is found by its number in place of its hash. It steers speed alone.
    fn numbers(&self) -> u64;

    /// The radix of the first of two entries.
    fn radix(&self) -> u32;

    /// The number of the key behind a proper key and a letter. It steers speed alone.
    fn number_behind(&self, from: &Key, letter: u32) -> u64
        requires proper { IsTrue ((meaning self.now).is_proper from.now.items) }
        requires letter { letter < (meaning self.now).width };

    /// Whether a key is the one behind a proper key and a letter. A machine that cannot tell without writing it may say no.
    fn is_behind(&self, from: &Key, letter: u32, key: &[u32]) -> bool
        requires proper { IsTrue ((meaning self.now).is_proper from.now.items) }
        requires letter { letter < (meaning self.now).width }
        ensures { IsTrue result → key.now ≡ (meaning self.now).step from.now.items letter };

    /// The weight of a proper key.
    fn weight(&self, key: &Key) -> u64
        requires { IsTrue ((meaning self.now).is_proper key.now.items) }
        ensures { result ≡ (meaning self.now).weight key.now.items };
}
