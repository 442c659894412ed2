// A sink in memory.
ghost use Rattle.std.specs.Prelude.{◌≡◌, ◌≤◌, ◌<◌, ◌+◌, ◌-◌, ◌^◌, ◌↔◌, ◌⊎◌, ◌++◌, [], List, ℕ, length, Some, vec_len, vec_capacity, IfOk, OnOk, OnErr, IsErr, Contains, min};
ghost use Rattle.io_edge.specs.Faults.{Rose, GrowsByPart};
ghost use Rattle.trials_stores.specs.Memory.{MemorySink, one_more};

use crate::failing::is_listed;
use io_edge::{Failed, Sink};
use std::alloc::{AllocError, Global};
use std::marker::Model;

/// A sink in memory with so much room, some of whose calls fail.
#[derive(Drop)]
pub struct MemSink {
    got: Vec<u8>,
    room: usize,
    fails: Vec<usize>,
    calls: usize,
    failures: u64,
}

impl Model for MemSink {
    ghost use Rattle.std.specs.Prelude.{◌≤◌, ◌-◌, ◌^◌, vec_len, vec_capacity};
    ghost use Rattle.trials_stores.specs.Memory.{MemorySink};

    ghost Value = { MemorySink };

    ghost view = { λ s. record { got = s.got.items; room = s.room; fails = s.fails.items; calls = s.calls; failures = s.failures } };

    ghost invariant = { λ s. (vec_len s.got ≤ s.room) × (s.room ≤ vec_capacity s.got) × (s.failures ≤ 2 ^ 64 - 1) };
}

impl MemSink {
    /// A sink with no bytes yet.
    pub fn with(alloc: Global, room: usize, fails: &[usize]) -> Result<MemSink, AllocError>
        ensures { IfOk result (λ s. s ≡ record { got = []; room = room; fails = fails.now; calls = 0; failures = 0 }) }
    {
        Ok(MemSink {
            got: Vec::with_capacity(alloc, room)?,
            room,
            fails: Vec::from_slice(alloc, fails)?,
            calls: 0,
            failures: 0,
        })
    }

    /// Adds the bytes, all or none.
    pub fn push(&mut self, bytes: &[u8]) -> Result<(), Failed>
        ensures ok { OnOk result (self.new ≡ record self.old { got = self.old.got ++ bytes.now; calls = one_more self.old.calls }) }
        ensures err { OnErr result (self.new ≡ record self.old { calls = one_more self.old.calls; failures = one_more self.old.failures }) }
        ensures failed { IsErr result ↔ (Contains self.old.fails self.new.calls ⊎ (self.old.room < length self.old.got + length bytes.now)) }
        ensures counted { self.old.failures ≤ 2 ^ 64 - 1 }
    {
        self.calls = self.calls.saturating_add(1);
        if is_listed(&self.fails, self.calls) || bytes.len() > self.room - self.got.len() {
            self.failures = self.failures.saturating_add(1);
            return Err(Failed);
        }
        match self.got.extend_from_slice(bytes) {
            Ok(()) => Ok(()),
            Err(_) => unreachable!(),
        }
    }

    /// The bytes that it got.
    pub fn seen(&self) -> &[u8]
        ensures { result.now ≡ self.now.got }
    {
        &self.got
    }
}

impl Sink for MemSink {
    ghost got = { λ s. Some s.got };

    ghost faults = { λ s. s.failures };

    fn put(&mut self, bytes: &[u8]) -> Result<(), Failed> {
        self.push(bytes)
    }
}
