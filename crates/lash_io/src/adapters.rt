//! Std's readers and writers as a source and a sink. Own.
//!
//! They are the edge of what is proved: they tell no bytes, and hand on what std does, with each
//! error counted.
ghost use Rattle.std.specs.Prelude.{◌≡◌, ◌≤◌, ◌<◌, None, length, is_ok, IfOk, OnErr, MatchResult};
ghost use Rattle.std.specs.Io.KnownBytes.{ReadConsumes, WriteAppends};
ghost use Rattle.lash_io.specs.Faults.{IsFaultCounted};
ghost use Rattle.lash_io.specs.Counters.{counted};
ghost use Rattle.lash_io.specs.Sources.{Reads};
ghost use Rattle.lash_io.specs.Sinks.{Puts};
ghost use Rattle.lash_io.specs.Adapters.{Writes};

use crate::ends::{Failed, Sink, Source};
use std::io::{Read, Write};

/// A source over one of std's readers.
#[derive(Drop)]
pub struct StdSource<R> {
    inner: R,
    fault_count: u64,
}

impl<R: Read> StdSource<R> {
    /// A source of what `inner` reads, with no fault yet.
    pub fn new(inner: R) -> StdSource<R>
        ensures { result ≡ record { inner = inner; fault_count = 0 } }
    {
        StdSource {
            inner,
            fault_count: 0,
        }
    }
}

impl<R: Read> Source for StdSource<R> {
    ghost left = { λ _. None };

    ghost faults = { λ s. s.fault_count };

    fn read(&mut self, buf: &mut [u8]) -> Result<usize, Failed>
        ensures within { IfOk result (λ count. count ≤ length buf.new) }
        ensures bytes { Reads None None result buf.new }
        ensures count { self.old.fault_count ≤ self.new.fault_count }
        ensures cause { OnErr result (IsFaultCounted self.old.fault_count self.new.fault_count) }
        ensures faults { MatchResult result
            (λ _. self.new.fault_count ≡ self.old.fault_count)
            (λ _. self.new.fault_count ≡ counted self.old.fault_count) }
        ensures passed { ReadConsumes (R.remaining self.old.inner) (R.remaining self.new.inner) result buf.new }
    {
        match self.inner.read(buf) {
            Ok(count) => Ok(count),
            Err(_) => {
                self.fault_count = self.fault_count.saturating_add(1);
                Err(Failed)
            }
        }
    }
}

/// A sink over one of std's writers.
#[derive(Drop)]
pub struct StdSink<W> {
    inner: W,
    fault_count: u64,
}

impl<W: Write> StdSink<W> {
    /// A sink that writes to `inner`, with no fault yet.
    pub fn new(inner: W) -> StdSink<W>
        ensures { result ≡ record { inner = inner; fault_count = 0 } }
    {
        StdSink {
            inner,
            fault_count: 0,
        }
    }

    /// One write of some of the bytes, of which there are some. A write of none of them is a fault
    /// too.
    fn write_some(&mut self, bytes: &[u8]) -> Result<usize, Failed>
        requires { 0 < length bytes.now }
        ensures progress { IfOk result (λ count. (0 < count) × (count ≤ length bytes.now)) }
        ensures count { self.old.fault_count ≤ self.new.fault_count }
        ensures faults { MatchResult result
            (λ _. self.new.fault_count ≡ self.old.fault_count)
            (λ _. self.new.fault_count ≡ counted self.old.fault_count) }
        ensures passed { WriteAppends (W.contents self.old.inner) (W.contents self.new.inner) result bytes.now }
    {
        match self.inner.write(bytes) {
            Ok(count) if 0 < count => Ok(count),
            _ => {
                self.fault_count = self.fault_count.saturating_add(1);
                Err(Failed)
            }
        }
    }
}

impl<W: Write> Sink for StdSink<W> {
    ghost held = { λ _. None };

    ghost faults = { λ s. s.fault_count };

    fn put(&mut self, bytes: &[u8]) -> Result<(), Failed>
        ensures bytes { Puts None None result bytes.now }
        ensures count { self.old.fault_count ≤ self.new.fault_count }
        ensures cause { OnErr result (IsFaultCounted self.old.fault_count self.new.fault_count) }
        ensures faults { MatchResult result
            (λ _. self.new.fault_count ≡ self.old.fault_count)
            (λ _. self.new.fault_count ≡ counted self.old.fault_count) }
        ensures passed { Writes (W.contents self.old.inner) (W.contents self.new.inner) result bytes.now }
    {
        let mut rest = bytes;
        while !rest.is_empty() {
            match self.write_some(rest) {
                Ok(count) => rest = &rest[count..],
                Err(failed) => return Err(failed),
            }
        }
        Ok(())
    }
}
