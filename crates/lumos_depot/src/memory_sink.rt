// A sink into memory.
ghost use Rattle.std.specs.Prelude.{◌≡◌, ◌≤◌, ◌-◌, ◌++◌, [], List, ℕ, length, take, IfOk, OnOk, Option, Some, is_err, if◌then◌else◌};
ghost use Rattle.lumos_depot.specs.Causes.{HasCause};
ghost use Rattle.lumos_depot.specs.Memory.{SinkState, one_more, taken_by, write_fails};
ghost use Rattle.lumos_depot.specs.Streams.{Writes};

use crate::{Failed, Sink};
use lumos_base::NoMemory;
use std::alloc::{AllocError, Global};
use std::marker::Model;

/// A sink that holds at most so many bytes, tells them, and fails at the calls that it is told to.
#[derive(Drop)]
pub struct MemSink {
    bytes: Vec<u8>,
    capacity: usize,
    fails: Vec<u64>,
    calls: u64,
    faults: u64,
}

impl Model for MemSink {
    ghost use Rattle.std.specs.Prelude.{◌≤◌, vec_len};
    ghost use Rattle.std.specs.Vec.{vec_capacity};
    ghost use Rattle.lumos_depot.specs.Memory.{SinkState};

    ghost Value = { SinkState };

    ghost view = { λ s. record { written = s.bytes.items; capacity = s.capacity; fails = s.fails.items; calls = s.calls; faults = s.faults } };

    ghost invariant = { λ s. (vec_len s.bytes ≤ s.capacity) × (s.capacity ≤ vec_capacity s.bytes) };
}

impl MemSink {
    /// An empty sink with room for `capacity` bytes, which it takes at once. Its calls are numbered from 1, and those
    /// named in `fails` fail. `NoMemory` is want of memory.
    pub fn new(alloc: Global, capacity: usize, fails: &[u64]) -> Result<MemSink, NoMemory>
        ensures { IfOk result (λ s. s ≡ record { written = []; capacity = capacity; fails = fails.now; calls = 0; faults = 0 }) }
    {
        Ok(MemSink {
            bytes: Vec::with_capacity(alloc, capacity).map_err(|_| NoMemory)?,
            capacity,
            fails: fails.to_vec(alloc).map_err(|_| NoMemory)?,
            calls: 0,
            faults: 0,
        })
    }

    /// The bytes that were written.
    pub fn bytes(&self) -> &[u8]
        ensures { result.now ≡ self.now.written }
    {
        &self.bytes
    }
}

impl Sink for MemSink {
    ghost written = { λ s. Some s.written };

    ghost faults = { λ s. s.faults };

    /// Writes all the bytes where they fit and the call isn't one that fails. Otherwise it answers `Failed` and
    /// counts a fault: a call that is named appends nothing, one that doesn't fit the part that fits.
    fn write_all(&mut self, bytes: &[u8]) -> Result<(), Failed>
        ensures bytes { Writes (Some self.old.written) (Some self.new.written) result bytes.now }
        ensures cause { HasCause self.old.faults self.new.faults result }
        ensures fails { is_err result ≡ write_fails self.old (length bytes.now) }
        ensures after { self.new ≡ record self.old {
          written = self.old.written ++ take (taken_by self.old (length bytes.now)) bytes.now;
          calls = one_more self.old.calls;
          faults = if is_err result then one_more self.old.faults else self.old.faults;
        } }
    {
        self.calls = self.calls.saturating_add(1);
        if self.fails.contains(&self.calls) {
            self.faults = self.faults.saturating_add(1);
            return Err(Failed);
        }
        let count = bytes.len().min(self.capacity - self.bytes.len());
        if self.bytes.extend_from_slice(&bytes[..count]).is_err() {
            unreachable!()
        }
        if count < bytes.len() {
            self.faults = self.faults.saturating_add(1);
            return Err(Failed);
        }
        Ok(())
    }
}
