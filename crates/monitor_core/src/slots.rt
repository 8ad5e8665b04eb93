//! Entries in slots that have numbers.
ghost use Rattle.std.specs.Prelude.{◌≡◌, ◌≤◌, ◌+◌, IfOk, IsSome, OnOk, Some, None, []};
ghost use Rattle.std.specs.Option.{option_copied};
ghost use Rattle.monitor_core.specs.Slots.{held_at, Becomes};

use erl_term::Reference;
use std::alloc::{AllocError, Global};
use std::marker::Model;
use std::mem;

// The number of slots that have numbers.
const SLOTS: usize = 1 << 32;

/// Entries in slots. An entry stays in its slot until it is removed. Then another one may get the slot.
/// Contracts see the entry of each slot, if it has one, and the room: the number of entries that it can
/// still insert without memory.
#[derive(Drop)]
pub(crate) struct Slots<M> {
    held: Vec<Option<(Reference, M)>>,
    // The empty slots. The capacity is enough for all slots.
    free: Vec<u32>,
}

impl<M> Model for Slots<M> {
    ghost use Rattle.std.specs.Prelude.{min, ◌+◌, ◌-◌, ◌^◌};
    ghost use Rattle.std.specs.Vec.{vec_len, vec_capacity};
    ghost use Rattle.monitor_core.specs.Slots.{AreKept, Slotted, slotted_code};
    ghost use Rattle.erl_term.specs.contracts.term.Reference as reference;

    ghost Value = { Slotted M };

    ghost coded = { slotted_code reference.the_row.coded M.code };

    ghost view = { λ a. record {
      slots = a.held.items;
      room = vec_len a.free + (min (min (vec_capacity a.held) (vec_capacity a.free)) (2 ^ 32) - vec_len a.held);
    } };

    ghost invariant = { λ a. AreKept a.held.items a.free.items (vec_capacity a.free) };
}

impl<M: Drop> Slots<M> {
    /// Returns no slots. Never allocates.
    pub(crate) fn new(alloc: Global) -> Slots<M>
        ensures { result.slots ≡ [] }
    {
        Slots {
            held: Vec::new(alloc),
            free: Vec::new(alloc),
        }
    }

    /// Returns a copy with the same entries in the same slots. A clone of a monitor is the monitor again.
    ///
    /// # Errors
    /// If memory runs out.
    pub(crate) fn copy(&self, alloc: Global) -> Result<Slots<M>, AllocError>
    where
        M: Clone,
        requires { (monitor clone : M) → M.is_clone monitor clone → clone ≡ monitor }
        ensures { IfOk result (λ copy. copy.slots ≡ self.now.slots) }
    {
        let mut free = Vec::with_capacity(alloc, self.held.len())?;
        free.extend_from_slice(&self.free)?;
        Ok(Slots {
            held: Vec::from_clones(alloc, &self.held)?,
            free,
        })
    }

    /// Returns the entry of `slot`, if it holds one. Never allocates.
    pub(crate) fn get(&self, slot: u32) -> Option<&(Reference, M)>
        ensures { option_copied result ≡ held_at self.now.slots slot }
    {
        match self.held.get(slot as usize) {
            Some(Some(entry)) => Some(entry),
            _ => None,
        }
    }

    /// Reserves memory for `additional` further entries.
    ///
    /// # Errors
    /// If memory runs out, or the entries would be more than 2^32. On error no entry changes.
    pub(crate) fn reserve(&mut self, additional: usize) -> Result<(), AllocError>
        ensures slots { self.new.slots ≡ self.old.slots }
        ensures room { OnOk result (additional ≤ self.new.room) }
        ensures kept { self.old.room ≤ self.new.room }
    {
        let slots = self.held.len();
        let more = additional.saturating_sub(self.free.len());
        if more > SLOTS - slots {
            return Err(AllocError);
        }
        self.held.reserve(more)?;
        let all = slots + more;
        self.free.reserve(all.saturating_sub(self.free.len()))
    }

    /// Inserts an entry into an empty slot, and returns the slot. Never allocates.
    pub(crate) fn put(&mut self, reference: Reference, monitor: M) -> u32
        requires { 1 ≤ self.old.room }
        ensures empty { held_at self.old.slots result ≡ None }
        ensures slots { Becomes self.old.slots self.new.slots result (Some (reference, monitor)) }
        ensures room { self.old.room ≤ self.new.room + 1 }
    {
        let entry = Some((reference, monitor));
        match self.free.pop() {
            Some(slot) => {
                drop(mem::replace(&mut self.held[slot as usize], entry));
                slot
            }
            None => {
                let slot = self.held.len();
                self.held.push_reserved(entry);
                slot as u32
            }
        }
    }

    /// Removes the entry of `slot`. Never allocates.
    pub(crate) fn take(&mut self, slot: u32)
        requires { IsSome (held_at self.old.slots slot) }
        ensures slots { Becomes self.old.slots self.new.slots slot None }
        ensures room { self.old.room ≤ self.new.room }
    {
        drop(mem::replace(&mut self.held[slot as usize], None));
        self.free.push_reserved(slot);
    }
}
