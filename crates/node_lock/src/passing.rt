//! The connections of a book between two entries.
ghost use Rattle.std.specs.Prelude.{◌≡◌, ◌++◌, ◌∷◌, [], IfErr, IfOk, OnErr, OnOk, Ok, false, true};
ghost use Rattle.node_core.specs.Model.{model_of};
ghost use Rattle.node_lock.specs.Books.{Rests, wants, with_pieces};
ghost use Rattle.node_lock.specs.Passing.{AtOutlet, IsStillAt, Puts, PutsAt, Takes, fresh_outlet};
ghost use Rattle.wire_core.specs.Pieces.{IsLength};

use crate::book::Book;
use crate::dialing::Left;
use crate::names::{place_near, place_of};
use crate::outlet::{Outlet, PieceLength, set_all};
use erl_names::TrunkId;
use erl_term::Refusal;
use node_frames::same_name;
use std::alloc::Global;
use std::sync::Wait;
use wire_core::Offer;

impl Book {
    /// Sets the greatest length of a piece, in bytes: 1 to 512. It holds from now on, at the connections to
    /// come too. A new book has 512.
    pub fn set_piece(&mut self, greatest: usize)
        requires { IsLength greatest }
        ensures { self.new ≡ with_pieces greatest self.old }
    {
        self.greatest = PieceLength { bytes: greatest };
        set_all(&mut self.outlets, self.greatest);
    }

    /// Puts the frames that wait on a connection onto its wire in pieces, as far as there is room there.
    /// Returns the number of pieces. Looks for the connection at the place `near` of [`Book::outlets`]
    /// first.
    ///
    /// # Errors
    /// [`Refusal::OutOfMemory`] if there is no memory for the first piece. Then none was put.
    pub fn flush<R: Wait>(
        &mut self,
        rt: &R,
        alloc: Global,
        trunk: &TrunkId,
        near: usize,
    ) -> Result<u64, Refusal>
        ensures rests { Rests self.old self.new }
        ensures puts { IfOk result (PutsAt trunk.now self.old.history.entries.items self.old.outlets self.new.outlets) }
        ensures still { result ≡ Ok 0 → IsStillAt trunk.now self.old.history.entries.items self.old.outlets self.new.outlets }
        ensures err { OnErr result (AtOutlet trunk.now (λ old new. Puts self.old.history.entries.items old new 0) self.old.outlets self.new.outlets) }
    {
        dist_books::books_grow();
        match place_near(&self.outlets, trunk, near) {
            Some(at) => Ok(self.outlets[at].flush(rt, alloc, self.history.entries())?),
            None => Ok(0),
        }
    }

    /// Takes a piece off the wire of a connection, if no parcel waits to come. Returns true if it did. With
    /// the last piece of an item that comes next. Looks for the connection at the place `near` of
    /// [`Book::outlets`] first.
    ///
    /// # Errors
    /// [`Refusal::OutOfMemory`]. Then nothing has changed.
    pub fn fetch<R: Wait>(&mut self, rt: &R, trunk: &TrunkId, near: usize) -> Result<bool, Refusal>
        ensures rests { Rests self.old self.new }
        ensures takes { result ≡ Ok true → AtOutlet trunk.now Takes self.old.outlets self.new.outlets }
        ensures unchanged { result ≡ Ok false → self.new.outlets ≡ self.old.outlets }
        ensures err { OnErr result (self.new.outlets ≡ self.old.outlets) }
    {
        dist_books::books_grow();
        match place_near(&self.outlets, trunk, near) {
            Some(at) => Ok(self.outlets[at].fetch(rt, self.history.entries())?),
            None => Ok(false),
        }
    }

    /// Takes the half of a connection that this node has dialed and that another node is to take up, the
    /// oldest first.
    pub fn take_offer(&mut self) -> Option<Left>
        ensures rests { Rests self.old self.new }
        ensures outlets { self.new.outlets ≡ self.old.outlets }
    {
        if self.offers.is_empty() {
            return None;
        }
        Some(self.offers.remove(0))
    }

    /// Returns true if an offer can be installed: another node has dialed, and the book hasn't the
    /// connection yet.
    pub fn wants(&self, offer: &Offer) -> bool
        ensures { result ≡ wants (model_of self.now.history.node) offer.now.trunk self.now.outlets }
    {
        !same_name(offer.trunk.dialer.atom(), self.history.node().name().atom())
            && place_of(&self.outlets, &offer.trunk).is_none()
    }

    /// Takes up this node's half of a connection that another node has dialed.
    ///
    /// # Errors
    /// The offer, if the book doesn't want it, or if there is no memory. Then nothing has changed.
    pub fn install(&mut self, alloc: Global, offer: Offer) -> Result<(), Offer>
        ensures rests { Rests self.old self.new }
        ensures wanted { OnOk result (wants (model_of self.old.history.node) offer.trunk self.old.outlets ≡ true) }
        ensures ok { OnOk result (self.new.outlets ≡ self.old.outlets ++ fresh_outlet self.old.greatest self.old.history.entries.items offer.trunk ∷ []) }
        ensures err { IfErr result (λ back. (back.trunk ≡ offer.trunk) × (self.new.outlets ≡ self.old.outlets)) }
    {
        dist_books::books_grow();
        if !self.wants(&offer) || self.outlets.reserve(1).is_err() {
            return Err(offer);
        }
        let Ok(dialer) = offer.trunk.dialer.clone() else {
            return Err(offer);
        };
        let entry = self.history.entries().len();
        self.outlets
            .push_reserved(Outlet::new(alloc, dialer, offer, self.greatest, entry));
        Ok(())
    }
}
