//! A buffer of fixed size with the bytes that were taken and not yet given, which stand between its start and its end. Own.
//!
//! Reads fill the room behind the end. Only once there is none are the bytes moved to the front, so a byte is moved about once.
ghost use Rattle.std.specs.Prelude.{◌≡◌, ◌≤◌, ◌<◌, ◌+◌, [], ◌++◌, length, take, drop, IfOk, OnErr};
ghost use Rattle.std.specs.Io.KnownBytes.{IsAtEnd};
ghost use Rattle.lash_io.specs.Faults.{IsFaultCounted};

use lash_io::{Failed, Memory, Source};
use std::alloc::Global;

/// How many bytes the buffer has.
const SIZE: usize = 131_072;

#[derive(Drop)]
pub(crate) struct Window {
    bytes: Vec<u8>,
    start: usize,
    end: usize,
    ghost size: { length bytes.items ≡ 131072 },
    ghost ordered: { start ≤ end },
    ghost within: { end ≤ 131072 },
}

impl Window {
    ghost use Rattle.script_pieces.specs.Windows.{items};
    ghost use Rattle.script_pieces.specs.Filling.{Fills};

    /// An empty buffer.
    pub(crate) fn new(alloc: Global) -> Result<Window, Memory>
        ensures { IfOk result (λ w. items w ≡ []) }
    {
        match vec![in alloc; 0; SIZE] {
            Ok(bytes) => Ok(Window {
                bytes,
                start: 0,
                end: 0,
            }),
            Err(_) => Err(Memory),
        }
    }

    /// The bytes held.
    pub(crate) fn held(&self) -> &[u8]
        ensures value { result.now ≡ items self.now }
        ensures within { length result.now ≤ 131072 }
    {
        &self.bytes[self.start..self.end]
    }

    /// Lets the first bytes go.
    pub(crate) fn give(&mut self, count: usize)
        requires { count ≤ length (items self.old) }
        ensures { items self.new ≡ drop count (items self.old) }
    {
        self.start += count;
    }

    /// Moves the bytes to the front where no room is left behind them.
    fn make_room(&mut self)
        requires { length (items self.old) ≤ 65536 }
        ensures items { items self.new ≡ items self.old }
        ensures room { self.new.end < 131072 }
    {
        if self.end == SIZE {
            self.move_to_front();
        }
    }

    fn move_to_front(&mut self)
        ensures items { items self.new ≡ items self.old }
        ensures end { self.new.end ≡ length (items self.old) }
    {
        let (start, end) = (self.start, self.end);
        self.bytes.copy_within(start..end, 0);
        self.start = 0;
        self.end = end - start;
    }

    /// One read of at most so many bytes, at least one, behind those held. 0 says that no byte is left.
    pub(crate) fn read_from<S: Source>(
        &mut self,
        source: &mut S,
        most: usize,
    ) -> Result<usize, Failed>
        requires few { length (items self.old) ≤ 65536 }
        requires some { 0 < most }
        ensures bytes { Fills (items self.old) (items self.new) (S.left source.old) (S.left source.new) result most }
        ensures room { length (items self.new) ≤ 131072 }
        ensures count { S.faults source.old ≤ S.faults source.new }
        ensures cause { OnErr result (IsFaultCounted (S.faults source.old) (S.faults source.new)) }
    {
        self.make_room();
        let end = self.end;
        let room = (SIZE - end).min(most);
        match source.read(&mut self.bytes[end..end + room]) {
            Ok(count) => {
                self.end = end + count;
                Ok(count)
            }
            Err(failed) => Err(failed),
        }
    }
}
