//! The turns of a node.

use crate::books::{Hearing, has_local, has_lost, hearing_of};
use crate::desk::{Desk, Shared};
use crate::gate::Gate;
use crate::turn::{Step, Turn};
use crossbeam_channel::{Receiver, SendError};
use dist_model::Effect;
use erl_names::TrunkId;
use erl_term::Refusal;
use node_core::NodeEvent;
use node_history::Entry;
use node_lock::{Book, Left};
use std::alloc::{AllocError, Global};
use std::sync::Wait;
use std::sync::atomic::Ordering;
use wire_core::Offer;

/// The most turns that are taken before the node's lock is given up.
const TURNS: usize = 16;

// A connection at which something may still happen.
#[derive(Drop)]
struct Route {
    trunk: TrunkId,
    // The place of the node at the other end.
    peer: Option<usize>,
    // The place of the connection's outlet in the book.
    at: usize,
    // An item that the node has sent on it may wait to be put on its wire.
    is_waiting: bool,
    // A piece may be on the wire to the node, or a parcel may wait for its arrival.
    is_marked: bool,
}

/// The state in which turns are taken for a node.
#[derive(Drop)]
pub(crate) struct Worker {
    alloc: Global,
    node: usize,
    // Halves of connections that other nodes have dialed.
    offers: Receiver<Offer>,
    // The connections at which something may still happen, the oldest first.
    routes: Vec<Route>,
    // The number of the book's outlets that it has learned of.
    learned: usize,
    // The number of the book's entries of which it knows the connections on which they have sent.
    read: usize,
    // An item may wait to be put on the wire of a route.
    is_waiting: bool,
    // A piece may be on the wire of a route, or a parcel may wait for its arrival.
    is_marked: bool,
    // The place of the route that is next asked for its end.
    asked: usize,
    // Halves of connections for which there was no memory, on the way out and on the way in.
    unsent: Option<Left>,
    untaken: Option<Offer>,
    // The next challenge.
    word: u32,
    // No higher stamp is left.
    is_spent: bool,
    // The place of a node that has something to do now, and whose thread rests.
    owed: Option<usize>,
}

impl Worker {
    /// Returns the worker of the node at a place, which counts its challenges from a seed.
    pub(crate) fn new(alloc: Global, node: usize, offers: Receiver<Offer>, seed: u32) -> Worker {
        Worker {
            alloc,
            node,
            offers,
            routes: Vec::new(alloc),
            learned: 0,
            read: 0,
            is_waiting: false,
            is_marked: false,
            asked: 0,
            unsent: None,
            untaken: None,
            word: seed,
            is_spent: false,
            owed: None,
        }
    }

    // Notes that the thread of a node rests that has something to do. Wakes that of the one noted before.
    fn owe<G>(&mut self, shared: &Shared<G>, node: Option<usize>) {
        if node.is_none() || node == self.owed {
            return;
        }
        shared.wake(self.owed);
        self.owed = node;
    }

    // Sends the half of a connection that the node has dialed to the other node.
    fn hand_out<R: Wait, G>(&mut self, rt: &R, shared: &Shared<G>, book: &mut Book) -> Step {
        let next = match self.unsent.take() {
            Some(left) => Some(left),
            None => book.take_offer(),
        };
        let Some(Left { peer, offer }) = next else {
            return Step::Nothing;
        };
        let place = shared.place_of(&peer);
        let Some(desk) = place.and_then(|place| shared.desks.get(place)) else {
            drop(peer);
            drop(offer);
            return Step::Done;
        };
        match desk.box_for_offers.send(rt, offer) {
            Ok(()) => {
                drop(peer);
                if desk.count_ring() {
                    self.owe(shared, place);
                }
                Step::Done
            }
            Err(SendError::OutOfMemory(offer)) => {
                self.unsent = Some(Left { peer, offer });
                Step::Wanting
            }
            Err(SendError::Disconnected(offer)) => {
                drop(peer);
                drop(offer);
                Step::Done
            }
        }
    }

    // Takes up the half of a connection that another node has dialed, where the book wants it.
    fn take_up<R: Wait>(&mut self, rt: &R, book: &mut Book) -> Step {
        let next = match self.untaken.take() {
            Some(offer) => Some(offer),
            None => self.offers.try_recv(rt).ok(),
        };
        let Some(offer) = next else {
            return Step::Nothing;
        };
        if !book.wants(&offer) {
            drop(offer);
            return Step::Done;
        }
        match book.install(self.alloc, offer) {
            Ok(()) => Step::Done,
            Err(offer) => {
                self.untaken = Some(offer);
                Step::Wanting
            }
        }
    }

    // Adds a route for the next connection of the book, if there is one without a route.
    fn learn_one<G>(&mut self, shared: &Shared<G>, book: &Book) -> Result<bool, AllocError> {
        let Some(outlet) = book.outlets().get(self.learned) else {
            return Ok(false);
        };
        self.routes.reserve(1)?;
        self.routes.push_reserved(Route {
            trunk: outlet.port().trunk().clone()?,
            peer: shared.place_of(outlet.port().peer()),
            at: self.learned,
            is_waiting: true,
            is_marked: true,
        });
        self.is_waiting = true;
        self.is_marked = true;
        self.learned = self.learned.saturating_add(1);
        Ok(true)
    }

    // Adds routes for the connections that the book has opened.
    fn learn<G>(&mut self, shared: &Shared<G>, book: &Book) -> Step {
        for _ in self.learned..book.outlets().len() {
            match self.learn_one(shared, book) {
                Ok(true) => {}
                Ok(false) => return Step::Nothing,
                Err(_) => return Step::Wanting,
            }
        }
        Step::Nothing
    }

    // Notes that an item may wait to be put on the wire of a connection.
    fn note_waiting(&mut self, trunk: &TrunkId) {
        for route in &mut self.routes {
            if route.trunk.count == trunk.count && route.trunk == *trunk {
                route.is_waiting = true;
                self.is_waiting = true;
                break;
            }
        }
    }

    // Notes the connections on which an entry has sent.
    fn note_sent(&mut self, entry: &Entry) {
        let Ok(report) = &entry.answer else {
            return;
        };
        for effect in &report.effects {
            if let Effect::Sent {
                trunk: Some(trunk),
                ..
            } = effect
            {
                self.note_waiting(trunk);
            }
        }
    }

    // Reads the entries that have come since, for the connections on which they have sent.
    fn read_entries(&mut self, book: &Book) {
        for at in self.read..book.entries().len() {
            if let Some(entry) = book.entries().get(at) {
                self.note_sent(entry);
            }
        }
        self.read = book.entries().len();
    }

    // Marks the connections to the nodes that have put a piece on a wire to this one.
    fn take_marks<G>(&mut self, shared: &Shared<G>, desk: &Desk) {
        if !desk.take_marked() {
            return;
        }
        self.is_marked = true;
        for from in 0..shared.desks.len() {
            if desk.take_mark(from) {
                for route in &mut self.routes {
                    if route.peer == Some(from) {
                        route.is_marked = true;
                    }
                }
            }
        }
    }

    // Forgets one of its routes, if nothing can happen there any more. Asks another one each time, so that
    // a turn costs no more with many connections that are over.
    fn forget_one(&mut self, book: &Book) {
        if self.asked >= self.routes.len() {
            self.asked = 0;
            return;
        }
        let route = &self.routes[self.asked];
        let is_over = !route.is_waiting && hearing_of(book.node(), &route.trunk) == Hearing::Over;
        if is_over {
            drop(self.routes.remove(self.asked));
        } else {
            self.asked = self.asked.saturating_add(1);
        }
    }

    // Puts the items that wait on a connection on its wire, and rings the other node.
    fn flush<R: Wait, G>(
        &mut self,
        rt: &R,
        shared: &Shared<G>,
        book: &mut Book,
        number: usize,
    ) -> Step {
        let Some(route) = self.routes.get_mut(number) else {
            return Step::Nothing;
        };
        if !route.is_waiting {
            return Step::Nothing;
        }
        match book.flush(rt, self.alloc, &route.trunk, route.at) {
            Ok(0) => {
                route.is_waiting = !is_idle(book, route.at);
                Step::Nothing
            }
            Ok(_) => {
                let peer = route.peer;
                let node = self.node;
                self.owe(shared, peer.and_then(|peer| shared.tell_piece(peer, node)));
                Step::Done
            }
            Err(_) => Step::Wanting,
        }
    }

    // Takes a piece off a wire, and rings the other node if it waits for room.
    fn fetch<R: Wait, G>(
        &mut self,
        rt: &R,
        shared: &Shared<G>,
        book: &mut Book,
        number: usize,
    ) -> Step {
        let Some(route) = self.routes.get_mut(number) else {
            return Step::Nothing;
        };
        if !route.is_marked || !book.node().is_up() || has_parcel(book, route.at) {
            return Step::Nothing;
        }
        match book.fetch(rt, &route.trunk, route.at) {
            Ok(true) => {
                let peer = route.peer;
                self.owe(shared, peer.and_then(|peer| shared.tell_room(peer)));
                Step::Done
            }
            Ok(false) => {
                route.is_marked = false;
                Step::Nothing
            }
            Err(_) => Step::Wanting,
        }
    }

    // Returns the outcome of an event, and passes the gate. An event that the node has refused isn't tried
    // again at once.
    fn applied<G: Gate>(
        &mut self,
        shared: &Shared<G>,
        book: &Book,
        place: Result<usize, Refusal>,
    ) -> Step {
        match place {
            Ok(place) => {
                shared.gate.inside(self.node, book.entries().len() as u64);
                match book.entries().get(place) {
                    Some(entry) if entry.answer.is_ok() => Step::Done,
                    _ => Step::Nothing,
                }
            }
            Err(Refusal::IdsUsedUp) => {
                self.is_spent = true;
                Step::Nothing
            }
            Err(Refusal::OutOfMemory) => Step::Wanting,
            Err(_) => Step::Nothing,
        }
    }

    // Applies the arrival of the parcel that has come on a connection.
    fn arrive<G: Gate>(&mut self, shared: &Shared<G>, book: &mut Book, number: usize) -> Step {
        let Some(route) = self.routes.get(number) else {
            return Step::Nothing;
        };
        let at = route.at;
        if self.is_spent || !route.is_marked || !has_parcel(book, at) {
            return Step::Nothing;
        }
        let heard = hearing_of(book.node(), &route.trunk);
        if heard == Hearing::Down || heard == Hearing::Over {
            return Step::Nothing;
        }
        let Ok(trunk) = route.trunk.clone() else {
            return Step::Wanting;
        };
        let is_new = heard == Hearing::New;
        let word = if is_new { self.word } else { 0 };
        let place = book.arrive(self.alloc, trunk, word, at);
        let step = self.applied(shared, book, place);
        if is_new && step == Step::Done {
            self.word = self.word.wrapping_add(1);
        }
        step
    }

    // Applies the arrival of a signal of the node to itself.
    fn local<G: Gate>(&mut self, shared: &Shared<G>, book: &mut Book) -> Step {
        if self.is_spent || !has_local(book.node()) {
            return Step::Nothing;
        }
        let place = book.apply(self.alloc, NodeEvent::Local);
        self.applied(shared, book, place)
    }

    // Sweeps a record, once nothing is in flight from the node to itself: so a node alone does the same
    // with and without threads.
    fn sweep<G: Gate>(&mut self, shared: &Shared<G>, book: &mut Book) -> Step {
        if self.is_spent || has_local(book.node()) || !has_lost(book.node()) {
            return Step::Nothing;
        }
        let place = book.apply(self.alloc, NodeEvent::Sweep);
        self.applied(shared, book, place)
    }

    // Notes if an item of the node waits for room. From then on the other nodes ring it when they take a
    // piece. One turn more sees a piece that they have taken before.
    fn ask_for_room(&self, desk: &Desk) -> Step {
        let waits = self.is_waiting;
        let is_told = desk.wants_room.load(Ordering::SeqCst);
        if waits == is_told {
            return Step::Nothing;
        }
        desk.wants_room.store(waits, Ordering::SeqCst);
        if waits { Step::Done } else { Step::Nothing }
    }

    // Puts on all wires the items that wait, with those of the latest entries.
    fn flush_all<R: Wait, G>(&mut self, rt: &R, shared: &Shared<G>, book: &mut Book) -> Turn {
        let mut turn = Turn::new();
        self.read_entries(book);
        if self.is_waiting {
            for number in 0..self.routes.len() {
                turn.note(self.flush(rt, shared, book, number));
            }
            self.is_waiting = self.routes.iter().any(|route| route.is_waiting);
        }
        turn
    }

    // Takes a piece off each wire on which one may be, and applies the arrival of each parcel that has come.
    fn hear_all<R: Wait, G: Gate>(&mut self, rt: &R, shared: &Shared<G>, book: &mut Book) -> Turn {
        let mut turn = Turn::new();
        if self.is_marked {
            for number in 0..self.routes.len() {
                turn.note(self.fetch(rt, shared, book, number));
                turn.note(self.arrive(shared, book, number));
            }
            self.is_marked = self.routes.iter().any(|route| route.is_marked);
        }
        turn
    }

    // Does one thing of each kind that can be done now.
    fn turn_in<R: Wait, G: Gate>(
        &mut self,
        rt: &R,
        shared: &Shared<G>,
        desk: &Desk,
        book: &mut Book,
    ) -> Turn {
        let mut turn = Turn::new();
        turn.note(self.hand_out(rt, shared, book));
        turn.note(self.take_up(rt, book));
        turn.note(self.learn(shared, book));
        self.take_marks(shared, desk);
        turn.add(self.flush_all(rt, shared, book));
        turn.add(self.hear_all(rt, shared, book));
        turn.note(self.local(shared, book));
        turn.note(self.sweep(shared, book));
        turn.add(self.flush_all(rt, shared, book));
        if turn.is_done {
            self.forget_one(book);
        } else {
            turn.note(self.ask_for_room(desk));
        }
        turn
    }

    // Takes a turn. If something is done in it, wakes the thread of the node that was noted before it: that
    // waits no longer than one turn.
    fn one_turn<R: Wait, G: Gate>(
        &mut self,
        rt: &R,
        shared: &Shared<G>,
        desk: &Desk,
        book: &mut Book,
    ) -> Turn {
        let before = self.owed.take();
        let turn = self.turn_in(rt, shared, desk, book);
        if turn.is_done {
            shared.wake(before);
        } else {
            self.owe(shared, before);
        }
        turn
    }

    // Takes turns up to the first in which nothing is done, 16 at most.
    fn turns_in<R: Wait, G: Gate>(
        &mut self,
        rt: &R,
        shared: &Shared<G>,
        desk: &Desk,
        book: &mut Book,
    ) -> Turn {
        let mut all = Turn::new();
        for _ in 0..TURNS {
            let turn = self.one_turn(rt, shared, desk, book);
            all.follow(turn);
            if !turn.is_done {
                break;
            }
        }
        all
    }

    // Takes turns under the lock of the book.
    fn turns<R: Wait, G: Gate>(&mut self, rt: &R, shared: &Shared<G>, desk: &Desk) -> Turn {
        let turn = self.turns_in(rt, shared, desk, &mut desk.book.lock(rt));
        if turn.shortages > 0 {
            // Only who holds the worker's lock changes it.
            let before = desk.shortages.load(Ordering::SeqCst);
            let count = before.saturating_add(turn.shortages);
            desk.shortages.store(count, Ordering::SeqCst);
        }
        turn
    }

    /// Takes turns for its node up to the first in which nothing is done, 16 at most. Counts the rings that
    /// it has read before as idle, if nothing is left to do. Returns the outcome, and the place of a node
    /// that has something to do now, and whose thread rests.
    pub(crate) fn serve<R: Wait, G: Gate>(
        &mut self,
        rt: &R,
        shared: &Shared<G>,
        desk: &Desk,
    ) -> (Turn, Option<usize>) {
        let rings = desk.rings.load(Ordering::SeqCst);
        let turn = self.turns(rt, shared, desk);
        if turn.is_idle() {
            desk.idle.store(rings, Ordering::SeqCst);
        }
        (turn, self.owed.take())
    }
}

// Returns true if nothing that was sent waits at an outlet to be put on its wire.
fn is_idle(book: &Book, at: usize) -> bool {
    match book.outlets().get(at) {
        Some(outlet) => outlet.port().is_idle(),
        None => true,
    }
}

// Returns true if a parcel has come at an outlet and waits for its arrival.
fn has_parcel(book: &Book, at: usize) -> bool {
    match book.outlets().get(at) {
        Some(outlet) => outlet.port().first().is_some(),
        None => false,
    }
}
