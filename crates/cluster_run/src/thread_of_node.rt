//! The thread of a node.

use crate::desk::{Desk, Shared};
use crate::gate::Gate;
use crate::turn::Turn;
use node_lock::Book;
use std::sync::Wait;
use std::sync::atomic::Ordering;
use std::thread;
use wire_core::LONGEST;

/// The most nodes for which a thread takes turns in a row, before it looks at its own again.
const LONGEST_CHAIN: usize = 64;

// Sets the greatest length of the pieces that a book puts on its wires.
fn set_piece(book: &mut Book, asked: usize) {
    if asked == 0 || asked > LONGEST {
        book.set_piece(LONGEST);
    } else {
        book.set_piece(asked);
    }
}

// The same for the book of a desk.
fn set_piece_at<R: Wait, G: Gate>(rt: &R, shared: &Shared<G>, desk: &Desk) {
    let asked = shared.gate.greatest_piece();
    set_piece(&mut desk.book.lock(rt), asked);
}

// Takes turns for the node of a desk. Tells the callers that wait if the cluster may have come to rest.
fn serve<R: Wait, G: Gate>(rt: &R, shared: &Shared<G>, desk: &Desk) -> (Turn, Option<usize>) {
    let mut worker = desk.worker.lock(rt);
    let (turn, owed) = worker.serve(rt, shared, desk);
    drop(worker);
    if turn.is_idle() && owed.is_none() {
        shared.tell_rest();
    }
    (turn, owed)
}

// Takes the turns of a node whose thread rests, on this thread, and then of the node to which that has given
// something to do. Ends when a thread is awake that goes on, or when the own node was rung.
fn serve_others<R: Wait, G: Gate>(
    rt: &R,
    shared: &Shared<G>,
    own: &Desk,
    rings: u64,
    first: Option<usize>,
) {
    let mut owed = first;
    for _ in 0..LONGEST_CHAIN {
        let Some(desk) = owed.and_then(|place| shared.desks.get(place)) else {
            return;
        };
        if own.rings.load(Ordering::SeqCst) != rings {
            break;
        }
        if !desk.is_resting.load(Ordering::SeqCst) {
            return;
        }
        let (turn, next) = serve(rt, shared, desk);
        if !turn.is_idle() {
            desk.rings.wake_one();
        }
        owed = next;
    }
    shared.wake(owed);
}

/// Runs the thread of a node, until the cluster is over.
///
/// Before it rests, it takes the turns of a resting node to which its own has put a piece. So two nodes
/// that answer each other need one thread, and no wake-up for each message.
pub(crate) fn work<R: Wait, G: Gate>(rt: &R, shared: &Shared<G>, node: usize) {
    let Some(desk) = shared.desks.get(node) else {
        return;
    };
    set_piece_at(rt, shared, desk);
    for _ in rt.forever() {
        // Read first: whoever ends the cluster sets its flag, and wakes the thread then.
        let rings = desk.rings.load(Ordering::SeqCst);
        if shared.is_over.load(Ordering::SeqCst) {
            break;
        }
        let (turn, owed) = serve(rt, shared, desk);
        if !turn.is_idle() {
            shared.wake(owed);
        } else {
            serve_others(rt, shared, desk, rings, owed);
        }
        if turn.shortages > 0 {
            thread::yield_now();
        } else if !turn.is_done && desk.rings.load(Ordering::SeqCst) == rings {
            desk.rest(rt, rings);
        }
    }
}
