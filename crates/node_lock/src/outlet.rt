//! A port, and how far the history has come into it.
ghost use Rattle.std.specs.Prelude.{◌≡◌, ◌≤◌, map, [], IfOk, OnErr, OnOk, Ok, false, true};
ghost use Rattle.node_lock.specs.Feeding.{Fed, KeepsFeeding};
ghost use Rattle.node_lock.specs.Passing.{IsStill, Puts, Takes, new_outlet, waits, with_piece};
ghost use Rattle.wire_core.specs.Spellings.{SpellsItem};

use crate::scanning::next_sent;
use erl_names::NodeName;
use node_frames::{Frame, same_name};
use node_history::Entry;
use std::alloc::{AllocError, Global};
use std::sync::Wait;
use wire_core::{CAPACITY, Direction, Offer, Parcel, Port, Spelling};

/// A node's end of a connection, and the place of the history up to which what was sent on it has come
/// into the end's outbox: so many entries, and so many of the effects of the next.
#[derive(Drop)]
pub struct Outlet {
    pub(crate) port: Port,
    pub(crate) entry: usize,
    pub(crate) effects: usize,
}

/// A length that pieces may have.
#[derive(Clone, Copy)]
pub(crate) struct PieceLength {
    pub(crate) bytes: usize,
    ghost some: { 1 ≤ bytes },
    ghost short: { bytes ≤ 512 },
}

// To which of the two nodes what is put at a port goes.
fn towards(port: &Port) -> Direction {
    if same_name(port.trunk().dialer.atom(), port.peer().atom()) {
        Direction::ToDialer
    } else {
        Direction::ToAcceptor
    }
}

// The next parcel that is put at a port.
fn parcel(alloc: Global, port: &Port, stamp: u64, frame: &Frame) -> Result<Parcel, AllocError>
    requires { SpellsItem frame.now.bytes }
    ensures stamp { IfOk result (λ parcel. parcel.stamp ≡ stamp) }
    ensures bytes { IfOk result (λ parcel. parcel.bytes ≡ frame.now.bytes) }
{
    let trunk = port.trunk().clone()?;
    let bytes = Vec::from_slice(alloc, frame.as_slice())?;
    Ok(Parcel {
        trunk,
        towards: towards(port),
        seq: port.put().len() as u64 + 1,
        stamp,
        bytes: Spelling::new(bytes),
    })
}

/// Pieces of so many bytes at most are put from now on at all of these ends.
pub(crate) fn set_all(outlets: &mut Vec<Outlet>, greatest: PieceLength)
    ensures { outlets.new.items ≡ map (with_piece greatest.bytes) outlets.old.items }
{
    for at in 0..outlets.len() {
        outlets[at].port.set_piece(greatest.bytes);
    }
}

impl Outlet {
    /// A new end of a connection to a peer, which the history feeds from an entry on. Takes no memory.
    pub(crate) fn new(
        alloc: Global,
        peer: NodeName,
        offer: Offer,
        greatest: PieceLength,
        entry: usize,
    ) -> Self
        ensures { result ≡ new_outlet greatest.bytes offer.trunk peer entry }
    {
        let mut port = Port::new(alloc, peer, offer);
        port.set_piece(greatest.bytes);
        Outlet {
            port,
            entry,
            effects: 0,
        }
    }

    // Where nothing waits to be put, what the history has sent next comes into the outbox, if anything
    // does.
    fn stage(&mut self, alloc: Global, entries: &[Entry]) -> Result<(), AllocError>
        requires { Fed entries.now self.old }
        ensures feeds { KeepsFeeding entries.now self.old self.new }
        ensures puts { Puts entries.now self.old self.new 0 }
        ensures ready { OnOk result (self.new.port.outbox ≡ [] → waits entries.now self.new ≡ []) }
    {
        if !self.port.is_idle() {
            return Ok(());
        }
        match next_sent(
            entries,
            self.entry,
            self.effects,
            self.port.trunk(),
            self.port.peer(),
        ) {
            Some(next) => {
                let parcel = parcel(alloc, &self.port, next.stamp, next.frame)?;
                self.port.send(parcel)?;
                self.entry = next.entry;
                self.effects = next.effects;
            }
            None => {
                self.entry = entries.len();
                self.effects = 0;
            }
        }
        Ok(())
    }

    // Puts the next piece on the wire, and says whether it did.
    fn put_one<R: Wait>(
        &mut self,
        rt: &R,
        alloc: Global,
        entries: &[Entry],
    ) -> Result<bool, AllocError>
        requires { Fed entries.now self.old }
        ensures feeds { KeepsFeeding entries.now self.old self.new }
        ensures puts { result ≡ Ok true → Puts entries.now self.old self.new 1 }
        ensures still { result ≡ Ok false → Puts entries.now self.old self.new 0 × IsStill entries.now self.new }
        ensures err { OnErr result (Puts entries.now self.old self.new 0) }
    {
        wire_core::ports_shift();
        self.stage(alloc, entries)?;
        self.port.flush(rt)
    }

    /// Puts what waits on the wire, as far as there is room, and tells how many pieces.
    ///
    /// # Errors
    /// Where there is no memory for the first.
    pub(crate) fn flush<R: Wait>(
        &mut self,
        rt: &R,
        alloc: Global,
        entries: &[Entry],
    ) -> Result<u64, AllocError>
        requires { Fed entries.now self.old }
        ensures feeds { KeepsFeeding entries.now self.old self.new }
        ensures puts { IfOk result (Puts entries.now self.old self.new) }
        ensures still { result ≡ Ok 0 → IsStill entries.now self.new }
        ensures err { OnErr result (Puts entries.now self.old self.new 0) }
    {
        for count in 0..CAPACITY {
            match self.put_one(rt, alloc, entries) {
                Ok(true) => {}
                Ok(false) => return Ok(count as u64),
                Err(e) => {
                    if count == 0 {
                        return Err(e);
                    }
                    return Ok(count as u64);
                }
            }
        }
        Ok(CAPACITY as u64)
    }

    /// Takes a piece off the wire, if the slot is empty, and says whether it did. With the last piece of an
    /// item that is in the slot.
    ///
    /// # Errors
    /// Where there is no memory for it.
    pub(crate) fn fetch<R: Wait>(&mut self, rt: &R, entries: &[Entry]) -> Result<bool, AllocError>
        ensures feeds { KeepsFeeding entries.now self.old self.new }
        ensures takes { result ≡ Ok true → Takes self.old self.new }
        ensures unchanged { result ≡ Ok false → self.new ≡ self.old }
        ensures err { OnErr result (self.new ≡ self.old) }
    {
        wire_core::ports_shift();
        let _ = entries;
        self.port.fetch(rt)
    }
}
