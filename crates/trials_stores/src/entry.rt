// What a store in memory keeps under a name.
ghost use Rattle.std.specs.Prelude.{◌≡◌, ◌≤◌, ◌↔◌, length, OnOk, OnErr, IfOk, IsTrue, max, Some, None, option_map};
ghost use Rattle.trials_stores.specs.Memory.{after_write, HasRoom};

use std::alloc::{AllocError, Global};
use std::marker::Model;

// The bytes under a name, where it holds any, and the room for writing them.
#[derive(Drop)]
pub struct Entry {
    bytes: Vec<u8>,
    room: usize,
    is_held: bool,
}

impl Model for Entry {
    ghost use Rattle.std.specs.Prelude.{◌≤◌, vec_len, vec_capacity, if◌then◌else◌, Some, None};
    ghost use Rattle.trials_stores.specs.Slot.{Slot};

    ghost Value = { Slot };

    ghost view = { λ e. record { held = if e.is_held then Some e.bytes.items else None; room = e.room } };

    ghost invariant = { λ e. (vec_len e.bytes ≤ e.room) × (e.room ≤ vec_capacity e.bytes) };
}

impl Entry {
    // These bytes, with room for more.
    pub fn with(alloc: Global, bytes: &[u8], room: usize) -> Result<Entry, AllocError>
        requires { length bytes.now ≤ room }
        ensures { IfOk result (λ e. e ≡ record { held = Some bytes.now; room = room }) }
    {
        let mut held = Vec::with_capacity(alloc, room)?;
        held.extend_from_slice(bytes)?;
        Ok(Entry {
            bytes: held,
            room,
            is_held: true,
        })
    }

    // Only room, and nothing held.
    pub fn reserved(alloc: Global, room: usize) -> Result<Entry, AllocError>
        ensures { IfOk result (λ e. e ≡ record { held = None; room = room }) }
    {
        Ok(Entry {
            bytes: Vec::with_capacity(alloc, room)?,
            room,
            is_held: false,
        })
    }

    // How many bytes may be written.
    pub fn room(&self) -> usize
        ensures { result ≡ self.now.room }
    {
        self.room
    }

    // The bytes, where any are held.
    pub fn held(&self) -> Option<&[u8]>
        ensures { option_map (λ b. b.now) result ≡ self.now.held }
    {
        if self.is_held {
            Some(&self.bytes)
        } else {
            None
        }
    }

    // Makes room for so many bytes in all.
    pub fn reserve(&mut self, room: usize) -> Result<(), AllocError>
        ensures ok { OnOk result (self.new ≡ record self.old { room = max self.old.room room }) }
        ensures err { OnErr result (self.new ≡ self.old) }
    {
        if room > self.room {
            let more = room - self.bytes.len();
            self.bytes.reserve_exact(more)?;
            self.room = room;
        }
        Ok(())
    }

    // Holds these bytes in place of the old ones.
    pub fn overwrite(&mut self, bytes: &[u8])
        requires { length bytes.now ≤ self.old.room }
        ensures { self.new ≡ record self.old { held = Some bytes.now } }
    {
        self.bytes.clear();
        match self.bytes.extend_from_slice(bytes) {
            Ok(()) => self.is_held = true,
            Err(_) => unreachable!(),
        }
    }

    // Writes the bytes, if there is room; a write that is to fail keeps at most so many, and not all of them.
    pub fn write(&mut self, bytes: &[u8], keep: Option<usize>) -> bool
        ensures put { self.new ≡ record self.old { held = after_write self.old.held (Some self.old.room) bytes.now keep } }
        ensures written { IsTrue result ↔ (HasRoom (Some self.old.room) (length bytes.now) × (keep ≡ None)) }
    {
        if bytes.len() > self.room {
            return false;
        }
        let Some(keep) = keep else {
            self.overwrite(bytes);
            return true;
        };
        if !bytes.is_empty() {
            self.overwrite(&bytes[..keep.min(bytes.len() - 1)]);
        }
        false
    }
}
