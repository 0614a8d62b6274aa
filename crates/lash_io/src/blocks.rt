//! Output in blocks: bytes are collected in a buffer of fixed size, which goes to a sink once it is
//! full. Own.
//!
//! Each byte is copied once, and a sink is called once for a few thousand bytes however small the
//! pieces are. The sink is passed to each call and is not kept. No call takes memory.
ghost use Rattle.std.specs.Prelude.{◌≡◌, ◌≤◌, ◌+◌, [], ◌++◌, length, OnErr};
ghost use Rattle.std.specs.Fmt.{decimal};
ghost use Rattle.lash_io.specs.Faults.{IsFaultCounted};
ghost use Rattle.lash_io.specs.Sinks.{Puts};
ghost use Rattle.lash_io.specs.Blocks.{Passes};

use crate::ends::{Failed, Sink};
use itoa::Buffer;
use std::marker::Model;

/// How many bytes a block has room for.
const BLOCK_SIZE: usize = 4096;

/// The bytes that are to be sent next, seen as their list.
#[derive(Drop)]
pub struct Block {
    bytes: [u8; BLOCK_SIZE],
    filled: usize,
}

impl Model for Block {
    ghost use Rattle.std.specs.Prelude.{ℕ, ◌≤◌, List, take};

    ghost Value = { List ℕ };

    ghost view = { λ b. take b.filled b.bytes };

    ghost invariant = { λ b. b.filled ≤ 4096 };
}

impl Block {
    /// A block with nothing in it.
    pub fn new() -> Block
        ensures { result ≡ [] }
    {
        Block {
            bytes: [0; BLOCK_SIZE],
            filled: 0,
        }
    }

    /// Puts `bytes` behind the pending ones. What does not fit makes room by sending the pending
    /// bytes to the sink first.
    ///
    /// Fails only at a fault of the sink, which then holds a prefix of all that was put; the rest
    /// is lost.
    pub fn put<K: Sink>(&mut self, sink: &mut K, bytes: &[u8]) -> Result<(), Failed>
        ensures bytes { Passes (K.held sink.old) self.old (K.held sink.new) self.new result bytes.now }
        ensures count { K.faults sink.old ≤ K.faults sink.new }
        ensures cause { OnErr result (IsFaultCounted (K.faults sink.old) (K.faults sink.new)) }
    {
        if bytes.len() <= BLOCK_SIZE - self.filled {
            self.keep(bytes);
            return Ok(());
        }
        match self.flush(sink) {
            Err(failed) => Err(failed),
            Ok(()) if bytes.len() <= BLOCK_SIZE => {
                self.keep(bytes);
                Ok(())
            }
            Ok(()) => sink.put(bytes),
        }
    }

    /// Puts the decimal text of `number`, as `put` does.
    pub fn put_number<K: Sink>(&mut self, sink: &mut K, number: u64) -> Result<(), Failed>
        ensures bytes { Passes (K.held sink.old) self.old (K.held sink.new) self.new result (decimal number) }
        ensures count { K.faults sink.old ≤ K.faults sink.new }
        ensures cause { OnErr result (IsFaultCounted (K.faults sink.old) (K.faults sink.new)) }
    {
        let mut buffer = Buffer::new();
        self.put(sink, buffer.format(number).as_bytes())
    }

    /// Sends the pending bytes to the sink in one call. Nothing is pending afterwards.
    ///
    /// Fails only at a fault of the sink, which then holds a prefix of the pending bytes; the rest
    /// is lost.
    pub fn flush<K: Sink>(&mut self, sink: &mut K) -> Result<(), Failed>
        ensures bytes { Puts (K.held sink.old) (K.held sink.new) result self.old }
        ensures empty { self.new ≡ [] }
        ensures count { K.faults sink.old ≤ K.faults sink.new }
        ensures cause { OnErr result (IsFaultCounted (K.faults sink.old) (K.faults sink.new)) }
    {
        let filled = self.filled;
        self.filled = 0;
        sink.put(&self.bytes[..filled])
    }

    /// Copies bytes that fit behind the pending ones.
    fn keep(&mut self, bytes: &[u8])
        requires { length self.old + length bytes.now ≤ 4096 }
        ensures { self.new ≡ self.old ++ bytes.now }
    {
        let end = self.filled + bytes.len();
        self.bytes[self.filled..end].copy_from_slice(bytes);
        self.filled = end;
    }
}
