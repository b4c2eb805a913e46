// A source over bytes in memory.
ghost use Rattle.std.specs.Prelude.{◌≡◌, ◌≤◌, ◌<◌, ◌-◌, [], List, ℕ, length, drop, take, IfOk, OnErr, Option, Some, is_err, if◌then◌else◌};
ghost use Rattle.lumos_depot.specs.Causes.{HasCause};
ghost use Rattle.lumos_depot.specs.Memory.{SourceState, call_fails, given_by, one_more};
ghost use Rattle.lumos_depot.specs.Streams.{ReadGives};

use crate::{Failed, Source};
use lumos_base::NoMemory;
use std::alloc::{AllocError, Global};
use std::marker::Model;

/// A source of bytes in memory, which tells what is left, and fails at the calls that it is told to.
#[derive(Drop)]
pub struct MemSource {
    bytes: Vec<u8>,
    taken: usize,
    step: usize,
    fails: Vec<u64>,
    calls: u64,
    faults: u64,
}

impl Model for MemSource {
    ghost use Rattle.std.specs.Prelude.{◌≤◌, length, drop, vec_len};
    ghost use Rattle.lumos_depot.specs.Memory.{SourceState};

    ghost Value = { SourceState };

    ghost view = { λ s. record { left = drop s.taken s.bytes.items; step = s.step; fails = s.fails.items; calls = s.calls; faults = s.faults } };

    ghost invariant = { λ s. (s.taken ≤ length s.bytes.items) × (1 ≤ s.step) };
}

impl MemSource {
    /// A source of a copy of these bytes, which gives at most `step` of them, at least one, in one read. Its calls are
    /// numbered from 1, and those named in `fails` fail. `NoMemory` is want of memory.
    pub fn new(
        alloc: Global,
        bytes: &[u8],
        step: usize,
        fails: &[u64],
    ) -> Result<MemSource, NoMemory>
        requires { 1 ≤ step }
        ensures { IfOk result (λ s. s ≡ record { left = bytes.now; step = step; fails = fails.now; calls = 0; faults = 0 }) }
    {
        Ok(MemSource {
            bytes: bytes.to_vec(alloc).map_err(|_| NoMemory)?,
            taken: 0,
            step,
            fails: fails.to_vec(alloc).map_err(|_| NoMemory)?,
            calls: 0,
            faults: 0,
        })
    }
}

impl Source for MemSource {
    ghost left = { λ s. Some s.left };

    ghost faults = { λ s. s.faults };

    /// Gives as many bytes as the step, the buffer and the end of the bytes allow, and leaves what stands behind them in
    /// the buffer. A call that is named answers `Failed`, counts a fault, takes nothing, and leaves the buffer.
    fn read(&mut self, buf: &mut [u8]) -> Result<usize, Failed>
        requires { 0 < length buf.old }
        ensures bound { IfOk result (λ n. n ≤ length buf.old) }
        ensures bytes { ReadGives (Some self.old.left) (Some self.new.left) result buf.new }
        ensures cause { HasCause self.old.faults self.new.faults result }
        ensures fails { is_err result ≡ call_fails self.old.fails self.old.calls }
        ensures count { IfOk result (λ n. n ≡ given_by self.old (length buf.old)) }
        ensures behind { IfOk result (λ n. drop n buf.new ≡ drop n buf.old) }
        ensures buffer { OnErr result (buf.new ≡ buf.old) }
        ensures after { self.new ≡ record self.old {
          left = if is_err result then self.old.left else drop (given_by self.old (length buf.old)) self.old.left;
          calls = one_more self.old.calls;
          faults = if is_err result then one_more self.old.faults else self.old.faults;
        } }
    {
        self.calls = self.calls.saturating_add(1);
        if self.fails.contains(&self.calls) {
            self.faults = self.faults.saturating_add(1);
            return Err(Failed);
        }
        let left = &self.bytes[self.taken..];
        let count = self.step.min(buf.len().min(left.len()));
        buf[..count].copy_from_slice(&left[..count]);
        self.taken += count;
        Ok(count)
    }
}
