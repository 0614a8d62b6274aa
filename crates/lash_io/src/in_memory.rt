//! A source and a sink in memory, with faults at calls that are named beforehand. Own.
//!
//! They stand for the outside world in tests: each call does what the numbers given to the
//! constructor say, and each meaning is told. A call looks through the list of faults, and copies
//! its bytes once.
ghost use Rattle.std.specs.Prelude.{◌≡◌, ◌≤◌, ◌+◌, ◌==◌, [], ◌++◌, length, IfOk, OnErr, Some, MatchResult, vec_capacity};
ghost use Rattle.std.specs.List.{find};
ghost use Rattle.std.specs.Option.{option_map};
ghost use Rattle.lash_io.specs.Faults.{IsFaultCounted};
ghost use Rattle.lash_io.specs.Sources.{Reads};
ghost use Rattle.lash_io.specs.Sinks.{Puts};
ghost use Rattle.lash_io.specs.InMemory.{Answered, Failing, Accepted, Refused};

use crate::ends::{Failed, Memory, Sink, Source};
use std::alloc::Global;
use std::marker::Model;

/// Bytes in memory, given a piece at a time.
#[derive(Drop)]
pub struct MemSource {
    bytes: Vec<u8>,
    /// The place of the first byte that is left.
    at: usize,
    piece: usize,
    fail_calls: Vec<u64>,
    call_count: u64,
    fault_count: u64,
}

impl Model for MemSource {
    ghost use Rattle.std.specs.Prelude.{◌≤◌, drop, length};
    ghost use Rattle.lash_io.specs.InMemory.{SourceState};

    ghost Value = { SourceState };

    ghost view = { λ s. record {
      left = drop s.at s.bytes.items;
      piece = s.piece;
      fails = s.fail_calls.items;
      calls = s.call_count;
      faults = s.fault_count;
    } };

    ghost invariant = { λ s. (s.at ≤ length s.bytes.items) × (1 ≤ s.piece) };
}

impl MemSource {
    /// A source of `bytes`. A call that does not fail gives as many bytes as the least of `piece`,
    /// which is at least 1, the length of its buffer and the number of bytes left. The calls are
    /// numbered from 1, and those whose numbers are in `fails` fail.
    pub fn new(bytes: Vec<u8>, piece: usize, fails: Vec<u64>) -> MemSource
        requires { 1 ≤ piece }
        ensures { result ≡ record {
          left = bytes.items;
          piece = piece;
          fails = fails.items;
          calls = 0;
          faults = 0;
        } }
    {
        MemSource {
            bytes,
            at: 0,
            piece,
            fail_calls: fails,
            call_count: 0,
            fault_count: 0,
        }
    }
}

impl Source for MemSource {
    ghost left = { λ s. Some s.left };

    ghost faults = { λ s. s.faults };

    fn read(&mut self, buf: &mut [u8]) -> Result<usize, Failed>
        ensures within { IfOk result (λ count. count ≤ length buf.new) }
        ensures bytes { Reads (Some self.old.left) (Some self.new.left) result buf.new }
        ensures count { self.old.faults ≤ self.new.faults }
        ensures cause { OnErr result (IsFaultCounted self.old.faults self.new.faults) }
        ensures state { MatchResult result
            (λ count. Answered self.old self.new (length buf.old) count)
            (λ _. Failing self.old self.new) }
    {
        self.call_count = self.call_count.saturating_add(1);
        if self.fail_calls.contains(&self.call_count) {
            self.fault_count = self.fault_count.saturating_add(1);
            return Err(Failed);
        }
        let left = &self.bytes[self.at..];
        let count = self.piece.min(buf.len()).min(left.len());
        buf[..count].copy_from_slice(&left[..count]);
        self.at += count;
        Ok(count)
    }
}

/// Bytes in memory, taken up to a given room.
#[derive(Drop)]
pub struct MemSink {
    bytes: Vec<u8>,
    room: usize,
    fail_calls: Vec<(u64, usize)>,
    call_count: u64,
    fault_count: u64,
}

impl Model for MemSink {
    ghost use Rattle.std.specs.Prelude.{◌≤◌, length, vec_capacity};
    ghost use Rattle.lash_io.specs.InMemory.{SinkState};

    ghost Value = { SinkState };

    ghost view = { λ s. record {
      held = s.bytes.items;
      room = s.room;
      fails = s.fail_calls.items;
      calls = s.call_count;
      faults = s.fault_count;
    } };

    ghost invariant = { λ s. (length s.bytes.items ≤ s.room) × (s.room ≤ vec_capacity s.bytes) };
}

impl MemSink {
    /// An empty sink with memory for `room` bytes. The calls are numbered from 1. Where `fails`
    /// has an entry for a call, the first such entry states how many bytes the call appends before
    /// it fails; all of them where there are fewer. A call whose bytes do not fit in the room
    /// appends those that fit, and fails.
    ///
    /// Fails only where memory is wanting.
    pub fn new(alloc: Global, room: usize, fails: Vec<(u64, usize)>) -> Result<MemSink, Memory>
        ensures { IfOk result (λ sink. sink ≡ record {
          held = [];
          room = room;
          fails = fails.items;
          calls = 0;
          faults = 0;
        }) }
    {
        match Vec::with_capacity(alloc, room) {
            Ok(bytes) => Ok(MemSink {
                bytes,
                room,
                fail_calls: fails,
                call_count: 0,
                fault_count: 0,
            }),
            Err(_) => Err(Memory),
        }
    }

    /// The bytes that the sink holds.
    pub fn bytes(&self) -> &[u8]
        ensures { result.now ≡ self.now.held }
    {
        &self.bytes
    }
}

impl Sink for MemSink {
    ghost held = { λ s. Some s.held };

    ghost faults = { λ s. s.faults };

    fn put(&mut self, bytes: &[u8]) -> Result<(), Failed>
        ensures bytes { Puts (Some self.old.held) (Some self.new.held) result bytes.now }
        ensures count { self.old.faults ≤ self.new.faults }
        ensures cause { OnErr result (IsFaultCounted self.old.faults self.new.faults) }
        ensures state { MatchResult result
            (λ _. Accepted self.old self.new bytes.now)
            (λ _. Refused self.old self.new bytes.now) }
    {
        self.call_count = self.call_count.saturating_add(1);
        let fitting = bytes.len().min(self.room - self.bytes.len());
        let stated = stated_for(&self.fail_calls, self.call_count);
        let count = stated.unwrap_or(bytes.len()).min(fitting);
        append(&mut self.bytes, &bytes[..count]);
        if stated.is_none() && count == bytes.len() {
            return Ok(());
        }
        self.fault_count = self.fault_count.saturating_add(1);
        Err(Failed)
    }
}

/// How many bytes the first entry for a call states, where there is one.
fn stated_for(fail_calls: &[(u64, usize)], call: u64) -> Option<usize>
    ensures { result ≡ option_map (λ entry. entry.1) (find (λ entry. entry.0 == call) fail_calls.now) }
{
    fail_calls
        .iter()
        .find(|entry| entry.0 == call)
        .map(|entry| entry.1)
}

/// Appends to a vector that has the capacity for it.
fn append(held: &mut Vec<u8>, bytes: &[u8])
    requires { length held.old.items + length bytes.now ≤ vec_capacity held.old }
    ensures items { held.new.items ≡ held.old.items ++ bytes.now }
    ensures capacity { vec_capacity held.old ≤ vec_capacity held.new }
{
    let _ = held.extend_from_slice(bytes);
}
