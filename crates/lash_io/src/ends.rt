//! The two traits of the outside and the answers of calls that fail. Own.
//!
//! A source gives bytes and a sink takes them, each call as many as it can and in order. Both
//! count their faults, so that a failed call is known to have a cause outside of the program.
ghost use Rattle.std.specs.Prelude.{◌≤◌, ℕ, List, Option, length, IfOk, OnErr};
ghost use Rattle.lash_io.specs.Faults.{IsFaultCounted};
ghost use Rattle.lash_io.specs.Sources.{Reads};
ghost use Rattle.lash_io.specs.Sinks.{Puts};

/// A read or a write met a fault.
#[derive(Clone, Copy, PartialEq, Eq, Debug)]
pub struct Failed;

/// There was not enough memory.
#[derive(Clone, Copy, PartialEq, Eq, Debug)]
pub struct Memory;

/// Where bytes come from.
pub trait Source {
    // The bytes that are left, where the source tells them.
    ghost left: { Self → Option (List ℕ) };

    // How many faults were counted.
    ghost faults: { Self → ℕ };

    /// Reads the next bytes into the front of `buf`, and returns how many. `Ok(0)` at a nonempty
    /// `buf` means that no byte is left. What stands in `buf` behind them is not said.
    ///
    /// Fails only at a fault, which is counted, and then takes no byte.
    fn read(&mut self, buf: &mut [u8]) -> Result<usize, Failed>
        ensures within { IfOk result (λ count. count ≤ length buf.new) }
        ensures bytes { Reads (left self.old) (left self.new) result buf.new }
        ensures count { faults self.old ≤ faults self.new }
        ensures cause { OnErr result (IsFaultCounted (faults self.old) (faults self.new)) };
}

/// Where bytes go.
pub trait Sink {
    // The bytes that the sink holds, where it tells them.
    ghost held: { Self → Option (List ℕ) };

    // How many faults were counted.
    ghost faults: { Self → ℕ };

    /// Appends all of `bytes`.
    ///
    /// Fails only at a fault, which is counted, and then a prefix of `bytes` was appended.
    fn put(&mut self, bytes: &[u8]) -> Result<(), Failed>
        ensures bytes { Puts (held self.old) (held self.new) result bytes.now }
        ensures count { faults self.old ≤ faults self.new }
        ensures cause { OnErr result (IsFaultCounted (faults self.old) (faults self.new)) };
}
