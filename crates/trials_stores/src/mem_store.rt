// Files in memory.
ghost use Rattle.std.specs.Prelude.{◌≡◌, ◌≢◌, ◌≤◌, ◌<◌, ◌+◌, ◌-◌, ◌^◌, ◌↔◌, ◌⊎◌, ◌++◌, [], ◌∷◌, ℕ, List, length, Option, Some, None, IfOk, IfSome, IsSome, IsErrOf, IsErr, IsSomeAnd, IsOk, OnOk, OnErr, Contains, min, max, take, unwrap_or, option_map};
ghost use Rattle.io_edge.specs.Faults.{Rose, NoneFalls, Files, IsLonger, IsWritten, IsCutShort};
ghost use Rattle.trials_stores.specs.Memory.{MemoryStore, slot_at, files_of, rooms_of, after_write, HasRoom, HasCounts, one_more};
ghost use Rattle.trials_stores.specs.Failing.{keep_of};
ghost use Rattle.io_edge.specs.declared.store.ReadRefusal.TheVariants.{Failed as read_failed, Long as read_long};

use crate::entry::Entry;
use crate::failing::{FailingWrite, is_listed, keep_of};
use io_edge::{Failed, ReadRefusal, Store};
use std::alloc::{AllocError, Global};
use std::collections::BTreeMap;
use std::marker::Model;

/// A store in memory, some of whose calls fail. Its reads and its writes are numbered from 1.
#[derive(Drop)]
pub struct MemStore {
    alloc: Global,
    files: BTreeMap<String, Entry>,
    failing_reads: Vec<usize>,
    failing_writes: Vec<FailingWrite>,
    reads: usize,
    writes: usize,
    read_failures: u64,
    write_failures: u64,
}

impl Model for MemStore {
    ghost use Rattle.std.specs.Prelude.{◌≤◌, ◌-◌, ◌^◌, map, string_bytes};
    ghost use Rattle.trials_stores.specs.Memory.{MemoryStore};

    ghost Value = { MemoryStore };

    ghost view = { λ s. record {
      slots = map (λ e. (string_bytes e.0, e.1)) s.files.entries;
      failing_reads = s.failing_reads.items;
      failing_writes = s.failing_writes.items;
      reads = s.reads;
      writes = s.writes;
      read_failures = s.read_failures;
      write_failures = s.write_failures;
    } };

    ghost invariant = { λ s. (s.read_failures ≤ 2 ^ 64 - 1) × (s.write_failures ≤ 2 ^ 64 - 1) };
}

impl MemStore {
    /// No names, and no call that fails.
    pub fn empty(alloc: Global) -> MemStore
        ensures { result ≡ record { slots = []; failing_reads = []; failing_writes = []; reads = 0; writes = 0; read_failures = 0; write_failures = 0 } }
    {
        MemStore {
            alloc,
            files: BTreeMap::new(alloc),
            failing_reads: Vec::new(alloc),
            failing_writes: Vec::new(alloc),
            reads: 0,
            writes: 0,
            read_failures: 0,
            write_failures: 0,
        }
    }

    /// Holds the bytes under the name, and makes room for them.
    pub fn hold(&mut self, name: &str, bytes: &[u8]) -> Result<(), AllocError>
        ensures held { OnOk result (IsWritten (files_of self.old) (files_of self.new) name.now bytes.now) }
        ensures room { OnOk result (rooms_of self.new name.now ≡ Some (max (unwrap_or (rooms_of self.old name.now) 0) (length bytes.now))) }
        ensures rooms { OnOk result ((q : List ℕ) → q ≢ name.now → rooms_of self.new q ≡ rooms_of self.old q) }
        ensures same { self.new ≡ record self.old { slots = self.new.slots } }
        ensures err { OnErr result (self.new ≡ self.old) }
    {
        let room = match self.files.get(name) {
            Some(entry) => entry.room().max(bytes.len()),
            None => bytes.len(),
        };
        let entry = Entry::with(self.alloc, bytes, room)?;
        self.put(name, entry)
    }

    /// Makes room for writing so many bytes to the name. A name that has only room holds nothing.
    pub fn reserve(&mut self, name: &str, bytes: usize) -> Result<(), AllocError>
        ensures room { OnOk result (rooms_of self.new name.now ≡ Some (max (unwrap_or (rooms_of self.old name.now) 0) bytes)) }
        ensures rooms { OnOk result ((q : List ℕ) → q ≢ name.now → rooms_of self.new q ≡ rooms_of self.old q) }
        ensures files { OnOk result ((q : List ℕ) → files_of self.new q ≡ files_of self.old q) }
        ensures same { self.new ≡ record self.old { slots = self.new.slots } }
        ensures err { OnErr result (self.new ≡ self.old) }
    {
        if let Some(entry) = self.files.get_mut(name) {
            entry.reserve(bytes)?;
            return Ok(());
        }
        let entry = Entry::reserved(self.alloc, bytes)?;
        self.put(name, entry)
    }

    // Puts an entry under a name.
    fn put(&mut self, name: &str, entry: Entry) -> Result<(), AllocError>
        ensures slots { OnOk result ((slot_at self.new name.now ≡ Some entry)
            × ((q : List ℕ) → q ≢ name.now → slot_at self.new q ≡ slot_at self.old q)) }
        ensures same { self.new ≡ record self.old { slots = self.new.slots } }
        ensures err { OnErr result (self.new ≡ self.old) }
    {
        let name = String::from_str(self.alloc, name)?;
        self.files.insert(name, entry)?;
        Ok(())
    }

    /// Lists the read of that number as one that fails.
    pub fn fail_read(&mut self, call: usize) -> Result<(), AllocError>
        ensures ok { OnOk result (self.new ≡ record self.old { failing_reads = self.old.failing_reads ++ call ∷ [] }) }
        ensures err { OnErr result (self.new ≡ self.old) }
    {
        self.failing_reads.push(call)?;
        Ok(())
    }

    /// Lists the write of that number as one that fails and keeps so many bytes, and at most one less than are written. The first listing of a
    /// number counts.
    pub fn fail_write(&mut self, call: usize, keep: usize) -> Result<(), AllocError>
        ensures ok { OnOk result (self.new ≡ record self.old { failing_writes = self.old.failing_writes ++ record { call = call; keep = keep } ∷ [] }) }
        ensures err { OnErr result (self.new ≡ self.old) }
    {
        self.failing_writes.push(FailingWrite { call, keep })?;
        Ok(())
    }
}

impl MemStore {
    /// The bytes under a name.
    pub fn read(&mut self, alloc: Global, name: &str, limit: usize) -> Result<Vec<u8>, ReadRefusal>
        ensures ok { IfOk result (λ bytes. (files_of self.old name.now ≡ Some bytes.items) × (length bytes.items ≤ limit)) }
        ensures failed { IsErrOf result read_failed ↔ (Contains self.old.failing_reads self.new.reads ⊎ (files_of self.old name.now ≡ None)) }
        ensures long { IsErrOf result read_long → IsLonger (files_of self.old) name.now limit }
        ensures same { self.new ≡ record self.old { reads = one_more self.old.reads; read_failures = self.new.read_failures } }
        ensures counted { IsErrOf result read_failed → self.new.read_failures ≡ one_more self.old.read_failures }
        ensures uncounted { ¬ IsErrOf result read_failed → self.new.read_failures ≡ self.old.read_failures }
        ensures counts { HasCounts self.old }
    {
        self.reads = self.reads.saturating_add(1);
        let bytes = if is_listed(&self.failing_reads, self.reads) {
            None
        } else {
            self.held(name)
        };
        let Some(bytes) = bytes else {
            self.read_failures = self.read_failures.saturating_add(1);
            return Err(ReadRefusal::Failed);
        };
        if bytes.len() > limit {
            return Err(ReadRefusal::Long);
        }
        Ok(Vec::from_slice(alloc, bytes)?)
    }

    // The bytes that a name holds, where it holds any.
    fn held(&self, name: &str) -> Option<&[u8]>
        ensures { option_map (λ b. b.now) result ≡ files_of self.now name.now }
    {
        self.files.get(name)?.held()
    }

    /// Writes the bytes under a name, which wants room for them. A write that is listed fails and keeps some of them, if there is room.
    pub fn write(&mut self, name: &str, bytes: &[u8]) -> Result<(), Failed>
        ensures here { files_of self.new name.now
            ≡ after_write (files_of self.old name.now) (rooms_of self.old name.now) bytes.now (keep_of self.old.failing_writes self.new.writes) }
        ensures others { (q : List ℕ) → q ≢ name.now → files_of self.new q ≡ files_of self.old q }
        ensures rooms { (q : List ℕ) → rooms_of self.new q ≡ rooms_of self.old q }
        ensures ok { IsOk result ↔ (HasRoom (rooms_of self.old name.now) (length bytes.now) × (keep_of self.old.failing_writes self.new.writes ≡ None)) }
        ensures same { self.new ≡ record self.old { slots = self.new.slots; writes = one_more self.old.writes; write_failures = self.new.write_failures } }
        ensures counted { OnErr result (self.new.write_failures ≡ one_more self.old.write_failures) }
        ensures uncounted { OnOk result (self.new.write_failures ≡ self.old.write_failures) }
        ensures counts { HasCounts self.old }
    {
        self.writes = self.writes.saturating_add(1);
        let keep = keep_of(&self.failing_writes, self.writes);
        let written = match self.files.get_mut(name) {
            Some(entry) => entry.write(bytes, keep),
            None => false,
        };
        if written {
            return Ok(());
        }
        self.write_failures = self.write_failures.saturating_add(1);
        Err(Failed)
    }
}

impl Store for MemStore {
    ghost held = { λ s. Some (files_of s) };

    ghost read_faults = { λ s _. s.read_failures };

    ghost write_faults = { λ s _. s.write_failures };

    fn read_all(
        &mut self,
        alloc: Global,
        name: &str,
        limit: usize,
    ) -> Result<Vec<u8>, ReadRefusal> {
        self.read(alloc, name, limit)
    }

    fn write_all(&mut self, name: &str, bytes: &[u8]) -> Result<(), Failed> {
        self.write(name, bytes)
    }
}
