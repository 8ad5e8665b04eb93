//! A node's end of a connection.
ghost use Rattle.std.specs.Prelude.{◌≡◌, ◌⊎◌, ◌+◌, ◌<◌, ◌^◌, ◌≤◌, ◌↔◌, [], IfOk, IfSome, IsTrue, OnErr, Some, None, drop, length, take, is_none, true, false, Ok};
ghost use Rattle.std.specs.Option.{option_copied};
ghost use Rattle.wire_core.specs.Fetching.{Fetches, IsWhole};
ghost use Rattle.wire_core.specs.Ports.{EndsFull, behind_first, first_of, flushed, fresh, sending, with_greatest, with_slot};
ghost use Rattle.wire_core.specs.Streams.{IsNext};
ghost use Rattle.wire_core.specs.Pieces.{IsLength};

use crate::ends::{WireIn, WireOut};
use crate::front::front_length;
use crate::offer::Offer;
use crate::parcel::{Direction, Parcel};
use crate::piece::{LONGEST, Piece};
use crate::spelling::Spelling;
use erl_names::{NodeName, TrunkId};
use node_frames::same_name;
use std::alloc::{AllocError, Global};
use std::collections::VecDeque;
use std::marker::Model;
use std::mem::replace;
use std::sync::Wait;

/// A node's end of a connection. Contracts see the connection and the peer, what was put on the wire to
/// the peer, what waits before it (the outbox), what was taken off the wire from the peer, and what of
/// that hasn't come to the node yet (the slot, of at most one parcel). On the wires all this goes in
/// pieces: a parcel was put when its last byte was, and taken when its last byte was. So contracts see as
/// well the pieces that were put, how much of the first of the outbox they have, what was gathered of the
/// parcel that is to be taken next, and how long a piece may be. That the pieces have the bytes of what was
/// put and taken, and no others, the type keeps.
#[derive(Drop)]
pub struct Port {
    trunk: TrunkId,
    peer: NodeName,
    out: WireOut,
    into: WireIn,
    put: Vec<Parcel>,
    outbox: VecDeque<Parcel>,
    begun: usize,
    taken: Vec<Parcel>,
    gathered: Vec<u8>,
    handled: usize,
    greatest: usize,
    // A copy of the connection's name, for the parcel that is taken next.
    spare: Option<TrunkId>,
}

impl Model for Port {
    ghost use Rattle.std.specs.Prelude.{◌≤◌, drop, length};
    ghost use Rattle.wire_core.specs.Ports.{PortSeen};
    ghost use Rattle.wire_core.specs.Streams.{PutInPieces, TakenInPieces};
    ghost use Rattle.wire_core.specs.Pieces.{IsLength};

    ghost Value = { PortSeen };

    ghost view = { λ p. record {
      trunk = p.trunk;
      peer = p.peer;
      put = p.put.items;
      outbox = p.outbox.items;
      taken = p.taken.items;
      slot = drop p.handled p.taken.items;
      pieces = p.out.pieces;
      begun = p.begun;
      gathered = p.gathered.items;
      greatest = p.greatest;
    } };

    ghost invariant = { λ p. PutInPieces p.out.pieces p.put.items p.outbox.items p.begun × TakenInPieces p.into.pieces p.taken.items p.gathered.items
        × (p.handled ≤ length p.taken.items) × IsLength p.greatest };
}

// The next bytes, behind those that went: so many at most, and whether they are the last.
fn next_bytes(bytes: &[u8], begun: usize, greatest: usize) -> (&[u8], bool)
    requires { begun ≤ length bytes.now }
    ensures next { result.0.now ≡ take greatest (drop begun bytes.now) }
    ensures last { result.1 ≡ true → length bytes.now ≤ begun + greatest }
    ensures part { result.1 ≡ false → begun + greatest < length bytes.now }
    ensures fits { result.1 ≡ false → begun + greatest < 2 ^ 64 }
{
    let rest = &bytes[begun..];
    if rest.len() <= greatest {
        (rest, true)
    } else {
        (&rest[..greatest], false)
    }
}

// Whether these are all bytes of an item that begins so.
fn is_whole(bytes: &[u8]) -> bool
    ensures { IsTrue result ↔ IsWhole bytes.now }
{
    front_length(bytes) == Some(bytes.len())
}

// The bytes that were gathered, in no more room than they take. None are left: the bytes stay as long as
// the port.
fn take_all(gathered: &mut Vec<u8>) -> Vec<u8>
    ensures bytes { result.items ≡ gathered.old.items }
    ensures none { gathered.new.items ≡ [] }
{
    let alloc = *gathered.allocator();
    let mut bytes = replace(gathered, Vec::new(alloc));
    bytes.shrink_to_fit();
    bytes
}

// The copy of a name that was to spare, or another.
fn spare_or_copy(spare: &mut Option<TrunkId>, trunk: &TrunkId) -> Result<TrunkId, AllocError> {
    match spare.take() {
        Some(copy) => Ok(copy),
        None => trunk.clone(),
    }
}

// The copy is to spare.
fn put_back(spare: &mut Option<TrunkId>, copy: TrunkId) {
    *spare = Some(copy);
}

// To which node of a connection what comes from this one goes.
fn away_from(peer: &NodeName, trunk: &TrunkId) -> Direction {
    if same_name(trunk.dialer.atom(), peer.atom()) {
        Direction::ToAcceptor
    } else {
        Direction::ToDialer
    }
}

impl Port {
    /// The end of a new connection towards a peer. Takes no memory.
    pub fn new(alloc: Global, peer: NodeName, offer: Offer) -> Self
        ensures { result ≡ fresh offer.trunk peer }
    {
        let Offer { trunk, out, into } = offer;
        Port {
            trunk,
            peer,
            out,
            into,
            put: Vec::new(alloc),
            outbox: VecDeque::new(alloc),
            begun: 0,
            taken: Vec::new(alloc),
            gathered: Vec::new(alloc),
            handled: 0,
            greatest: LONGEST,
            spare: None,
        }
    }

    /// The connection.
    pub fn trunk(&self) -> &TrunkId
        ensures { result.now ≡ self.now.trunk }
    {
        &self.trunk
    }

    /// The node at its other end.
    pub fn peer(&self) -> &NodeName
        ensures { result.now ≡ self.now.peer }
    {
        &self.peer
    }

    /// Returns the parcels put on the wire to the peer, in order.
    pub fn put(&self) -> &[Parcel]
        ensures { result.now ≡ self.now.put }
    {
        self.put.as_slice()
    }

    /// Returns the parcels taken off the wire from the peer, in order.
    pub fn taken(&self) -> &[Parcel]
        ensures { result.now ≡ self.now.taken }
    {
        self.taken.as_slice()
    }

    /// From now on pieces of so many bytes at most are put, from 1 to 512. At first it is 512.
    pub fn set_piece(&mut self, greatest: usize)
        requires { IsLength greatest }
        ensures { self.new ≡ with_greatest self.old greatest }
    {
        self.greatest = greatest;
    }

    /// A parcel more waits to be put, behind the others.
    ///
    /// # Errors
    /// Where there is no memory for it. Then nothing has changed.
    pub fn send(&mut self, parcel: Parcel) -> Result<(), AllocError>
        ensures ok { IfOk result (λ _. self.new ≡ sending self.old parcel) }
        ensures err { OnErr result (self.new ≡ self.old) }
    {
        crate::laws::front_is_told();
        parcel.bytes.as_slice();
        self.outbox.push_back(parcel)?;
        Ok(())
    }

    /// Returns true if nothing waits to be put. Then nothing is begun.
    pub fn is_idle(&self) -> bool
        ensures idle { result ≡ is_none (first_of self.now.outbox) }
        ensures begun { self.now.outbox ≡ [] → self.now.begun ≡ 0 }
    {
        self.outbox.front().is_none()
    }

    /// Returns the parcel that comes to the node next, if there is one.
    pub fn first(&self) -> Option<&Parcel>
        ensures { option_copied result ≡ first_of self.now.slot }
    {
        self.taken.get(self.handled)
    }

    /// Drops the parcel that comes next, which has come, if there is one.
    pub fn drop_first(&mut self)
        ensures { self.new ≡ with_slot self.old (behind_first self.old.slot) }
    {
        if self.handled < self.taken.len() {
            self.handled += 1;
        }
    }

    // The next piece of the first parcel of the outbox, and whether it is its last.
    fn next_piece(&self) -> Result<Option<(Piece, bool)>, AllocError>
        ensures next { IfOk result (λ next. IfSome next (λ n. IsNext self.now n.0 n.1)) }
        ensures none { result ≡ Ok None → self.now.outbox ≡ [] }
    {
        crate::laws::front_is_told();
        let Some(first) = self.outbox.front() else {
            return Ok(None);
        };
        let (next, is_last) = next_bytes(first.bytes.as_slice(), self.begun, self.greatest);
        let bytes = Vec::from_slice(*self.put.allocator(), next)?;
        Ok(Some((Piece::new(first.stamp, bytes), is_last)))
    }

    /// Puts the next piece of the first parcel of the outbox on the wire, and says whether it did: as many
    /// bytes of that parcel as a piece may have, or those that are left. It doesn't where nothing waits, or
    /// where the wire was full at some moment: the last 64 pieces that were put weren't taken yet.
    ///
    /// # Errors
    /// Where there is no memory for the piece. Then nothing has changed.
    pub fn flush<R: Wait>(&mut self, rt: &R) -> Result<bool, AllocError>
        ensures put { result ≡ Ok true → self.new ≡ flushed self.old self.old.outbox }
        ensures some { result ≡ Ok true → self.old.outbox ≡ [] → ⊥ }
        ensures unchanged { result ≡ Ok false → self.new ≡ self.old }
        ensures full { result ≡ Ok false → (self.old.outbox ≡ []) ⊎ EndsFull self.old.pieces }
        ensures err { OnErr result (self.new ≡ self.old) }
    {
        crate::laws::front_is_told();
        let Some((piece, is_last)) = self.next_piece()? else {
            return Ok(false);
        };
        self.put.reserve(1)?;
        if self.out.put(rt, piece).is_err() {
            return Ok(false);
        }
        if is_last {
            self.begun = 0;
            match self.outbox.pop_front() {
                Some(first) => self.put.push_reserved(first),
                None => unreachable!(),
            }
        } else {
            self.begun += self.greatest;
        }
        Ok(true)
    }

    /// Takes a piece off the wire, where no parcel waits to come, and says whether it did. With the last
    /// piece of an item, which its first bytes tell, that comes next as a parcel.
    ///
    /// # Errors
    /// Where there is no memory for it. Then nothing has changed.
    pub fn fetch<R: Wait>(&mut self, rt: &R) -> Result<bool, AllocError>
        ensures taken { result ≡ Ok true → Fetches self.old self.new }
        ensures one { result ≡ Ok true → self.old.slot ≡ [] }
        ensures unchanged { result ≡ Ok false → self.new ≡ self.old }
        ensures err { OnErr result (self.new ≡ self.old) }
    {
        crate::laws::front_is_told();
        crate::laws::pieces_are_gathered();
        if self.handled < self.taken.len() {
            return Ok(false);
        }
        self.taken.reserve(1)?;
        self.gathered.reserve(LONGEST)?;
        let trunk = spare_or_copy(&mut self.spare, &self.trunk)?;
        let Some(piece) = self.into.take(rt) else {
            put_back(&mut self.spare, trunk);
            return Ok(false);
        };
        self.gathered.extend_from_slice(piece.as_slice())?;
        if is_whole(self.gathered.as_slice()) {
            let bytes = take_all(&mut self.gathered);
            self.taken.push_reserved(Parcel {
                towards: away_from(&self.peer, &trunk),
                trunk,
                seq: self.taken.len() as u64 + 1,
                stamp: piece.stamp(),
                bytes: Spelling::new(bytes),
            });
        } else {
            put_back(&mut self.spare, trunk);
            return Ok(true);
        }
        Ok(true)
    }
}
