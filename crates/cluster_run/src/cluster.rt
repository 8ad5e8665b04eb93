//! The nodes of a world, and their callers.
ghost use Rattle.std.specs.Prelude.{◌≡◌, ◌≢◌, ◌<◌, ◌≤◌, ◌+◌, IfErr, IfOk, OnOk, [], length};
ghost use Rattle.std.specs.Arc.{arc_value};
ghost use Rattle.std.specs.Fn.{FnOnceReturnsAt};
ghost use Rattle.cluster_run.specs.Finishing.{IsFinished};
ghost use Rattle.cluster_run.specs.Starting.{IsNoThread, IsStarted, IsUnstarted};
ghost use Rattle.erl_term.specs.declared.refusal.Refusal.TheVariants.{NothingThere};
ghost use Rattle.joined_books.specs.Faults.{IsFault};
ghost use Rattle.joined_books.specs.declared.error.FinishError.TheVariants as fault;
ghost use Rattle.node_core.specs.declared.node.Node.{Node as TheNode};
ghost use Rattle.node_lock.specs.Calling.{Asks, IsCallRefusal, IsSameSeat};

use crate::desk::{Desk, Shared};
use crate::finished::{Finished, Unmerged};
use crate::gate::Gate;
use crate::settling::{Settled, wait};
use crate::thread_of_node::work;
use crate::worker::Worker;
use crossbeam_channel::{Receiver, Sender, bounded, unbounded};
use erl_handshake::Setup;
use erl_names::NodeName;
use erl_term::Refusal;
use joined_books::{FinishError, merge_books};
use node_core::Node;
use node_lock::{Act, Book, Seat, call};
use std::alloc::{AllocError, Global};
use std::sync::atomic::{AtomicBool, AtomicU64, Ordering};
use std::sync::{Arc, Mutex, Wait};
use std::thread;
use std::thread::Threads;
use wire_core::Offer;
use world_core::World;

// The state that a cluster shares with its threads. Dropped, it tells them to end.
struct Running<G> {
    shared: Arc<Shared<G>>,
}

impl<G: Drop> Drop for Running<G> {
    fn drop(self) {
        drop(self.end());
    }
}

impl<G> Running<G> {
    // Tells the threads to end, and returns the state.
    fn end(self) -> Arc<Shared<G>>
        ensures { result ≡ self.shared }
    {
        let Running { shared } = self;
        shared.end();
        shared
    }
}

/// The nodes of a world, each with a thread of its own. Any thread may call the nodes by a reference
/// to this.
///
/// The threads go on until [`Cluster::finish`]. A cluster that is dropped tells its threads to end, and
/// doesn't wait for them.
#[derive(Drop)]
pub struct Cluster<G> {
    alloc: Global,
    nodes: Vec<(NodeName, Setup)>,
    running: Running<G>,
    // The number of threads, and the channel on which each says that it has ended.
    started: usize,
    ended: Receiver<()>,
    ghost desk_each: { length (arc_value running.shared).desks.items ≡ length nodes.items },
}

// Returns a mark for each of so many nodes.
fn marks(alloc: Global, nodes: usize) -> Result<Vec<AtomicBool>, AllocError> {
    let mut marks = Vec::new(alloc);
    for _ in 0..nodes {
        marks.push(AtomicBool::new(false))?;
    }
    Ok(marks)
}

// Returns the desk of the node at a place, one of so many, whose challenges are counted from a seed.
fn desk(
    alloc: Global,
    book: Book,
    place: usize,
    nodes: usize,
    seed: u32,
) -> Result<Desk, AllocError> {
    let (box_for_offers, offers) = unbounded(alloc)?;
    Ok(Desk {
        book: Mutex::new(book),
        worker: Mutex::new(Worker::new(alloc, place, offers, seed)),
        box_for_offers,
        shortages: AtomicU64::new(0),
        calls: AtomicU64::new(0),
        rings: AtomicU64::new(0),
        idle: AtomicU64::new(u64::MAX),
        is_resting: AtomicBool::new(false),
        wants_room: AtomicBool::new(false),
        is_marked: AtomicBool::new(false),
        marks: marks(alloc, nodes)?,
    })
}

// Returns copies of the names of all nodes.
fn names_of(alloc: Global, nodes: &[(NodeName, Setup)]) -> Result<Vec<NodeName>, AllocError>
    ensures { IfOk result (λ names. length names.items ≡ length nodes.now) }
{
    let mut names = Vec::new(alloc);
    for (name, _) in nodes {
        names.push(name.clone()?)?;
    }
    Ok(names)
}

// Returns the desks of all nodes, whose challenges are counted from a seed.
fn desks(alloc: Global, nodes: &[(NodeName, Setup)], seed: u32) -> Result<Vec<Desk>, AllocError>
    ensures { IfOk result (λ desks. length desks.items ≡ length nodes.now) }
{
    let mut desks = Vec::new(alloc);
    for place in 0..nodes.len() {
        let names = names_of(alloc, nodes)?;
        let (_, setup) = &nodes[place];
        let book = Book::new(alloc, names, place, setup.clone()?)?;
        desks.push(desk(alloc, book, place, nodes.len(), seed)?)?;
    }
    Ok(desks)
}

// Starts the thread of a node.
fn start<R, G>(
    rt: &R,
    shared: &Arc<Shared<G>>,
    end: &Sender<()>,
    node: usize,
) -> Result<(), Refusal>
where
    R: Threads + Wait + Copy + Send + Drop + 'static,
    G: Gate + Send + Sync + Drop + 'static,
    ensures { IfErr result IsNoThread }
{
    let shared = Arc::try_clone(shared)?;
    let end = end.clone()?;
    let own = *rt;
    let thread = thread::spawn(rt, move || {
        work(&own, &shared, node);
        drop(shared);
        let _ = end.try_send(&own, ());
    });
    match thread {
        Ok(_) => Ok(()),
        Err(_) => Err(Refusal::NoThread),
    }
}

// Starts the threads of all nodes, up to the first that can't be started. Returns the number of threads.
fn start_all<R, G>(
    rt: &R,
    shared: &Arc<Shared<G>>,
    end: &Sender<()>,
) -> (usize, Result<(), Refusal>)
where
    R: Threads + Wait + Copy + Send + Drop + 'static,
    G: Gate + Send + Sync + Drop + 'static,
    ensures { IfErr result.1 IsNoThread }
{
    let nodes = shared.desks.len();
    for node in 0..nodes {
        if let Err(e) = start(rt, shared, end, node) {
            return (node, Err(e));
        }
    }
    (nodes, Ok(()))
}

impl<G: Gate + Send + Sync + Drop + 'static> Cluster<G> {
    /// Starts a node of each name and setup, and its thread. Each node runs, in its first incarnation. Each
    /// counts its challenges from 1. (Reference Manual, Distributed Erlang; ERTS User's Guide, Distribution
    /// Protocol.)
    ///
    /// # Errors
    /// [`Refusal::BadName`] where two nodes have one name; [`Refusal::OutOfMemory`]; and
    /// [`Refusal::NoThread`] where a thread can't be started. Then those that were are ended.
    pub fn new<R>(
        rt: &R,
        alloc: Global,
        nodes: Vec<(NodeName, Setup)>,
        gate: G,
    ) -> Result<Cluster<G>, Refusal>
    where
        R: Threads + Wait + Copy + Send + Drop + 'static,
        ensures ok { IfOk result (λ cluster. IsStarted nodes.items cluster.nodes.items) }
        ensures err { IfErr result (IsUnstarted nodes.items) }
    {
        Cluster::new_seeded(rt, alloc, nodes, gate, 1)
    }

    /// Starts the nodes as [`Cluster::new`] does, and has each count its challenges from `seed`. The first
    /// connection that another node dials gets `seed` as its challenge, and each later one gets one more,
    /// modulo 2^32.
    ///
    /// # Errors
    /// Those of [`Cluster::new`].
    pub fn new_seeded<R>(
        rt: &R,
        alloc: Global,
        nodes: Vec<(NodeName, Setup)>,
        gate: G,
        seed: u32,
    ) -> Result<Cluster<G>, Refusal>
    where
        R: Threads + Wait + Copy + Send + Drop + 'static,
        ensures ok { IfOk result (λ cluster. IsStarted nodes.items cluster.nodes.items) }
        ensures err { IfErr result (IsUnstarted nodes.items) }
    {
        if !World::can_open(&nodes) {
            return Err(Refusal::BadName);
        }
        let names = names_of(alloc, &nodes)?;
        let desks = desks(alloc, &nodes, seed)?;
        let shared = Arc::new(
            alloc,
            Shared {
                names,
                desks,
                is_over: AtomicBool::new(false),
                waiters: AtomicU64::new(0),
                rests: AtomicU64::new(0),
                gate,
            },
        )?;
        let (end, ended) = bounded(alloc, nodes.len())?;
        let (started, outcome) = start_all(rt, &shared, &end);
        drop(end);
        let cluster = Cluster {
            alloc,
            nodes,
            running: Running { shared },
            started,
            ended,
        };
        if let Err(e) = outcome {
            cluster.halt(rt);
            return Err(e);
        }
        Ok(cluster)
    }

    // Ends the threads, and waits until each has said that it has ended. It has let go of the state by then.
    fn halt<R: Wait>(self, rt: &R) -> (Vec<(NodeName, Setup)>, Arc<Shared<G>>)
        ensures nodes { result.0.items ≡ self.nodes.items }
        ensures shared { result.1 ≡ self.running.shared }
    {
        let Cluster {
            nodes,
            running,
            started,
            ended,
            ..
        } = self;
        let shared = running.end();
        for _ in 0..started {
            let _ = ended.recv(rt);
        }
        (nodes, shared)
    }

    /// Returns a new seat at a node. Never allocates.
    ///
    /// # Errors
    /// [`Refusal::NothingThere`] where there is no such node.
    pub fn seat(&self, node: usize) -> Result<Seat, Refusal>
        ensures node { IfOk result (λ seat. seat.node ≡ node) }
        ensures receipts { IfOk result (λ seat. seat.receipts.items ≡ []) }
        ensures above { IfOk result (λ seat. seat.above ≡ 0) }
        ensures there { IfOk result (λ _. node < length self.now.nodes.items) }
        ensures err { IfErr result (λ e. (e ≡ NothingThere) × (length self.now.nodes.items ≤ node)) }
    {
        if node < self.nodes.len() {
            Ok(Seat::new(self.alloc, node))
        } else {
            Err(Refusal::NothingThere)
        }
    }

    /// Runs `act` at the node of `seat`, and records it in the node's book. Returns the place of the receipt
    /// among those of `seat`. (Reference Manual, Processes; ERTS User's Guide, Distribution Protocol.)
    ///
    /// # Errors
    /// Those of [`call`]; and [`Refusal::StrangeSeat`] where there is no such node. On error the seat does
    /// not change.
    pub fn call<R: Wait>(&self, rt: &R, seat: &mut Seat, act: Act) -> Result<usize, Refusal>
        ensures ok { IfOk result (Asks act seat.old seat.new) }
        ensures err { IfErr result (λ _. IsSameSeat seat.old seat.new) }
        ensures why { IfErr result IsCallRefusal }
    {
        let Some(desk) = self.running.shared.desks.get(seat.node()) else {
            drop(act);
            return Err(Refusal::StrangeSeat);
        };
        desk.calls.fetch_add(1, Ordering::SeqCst);
        let place = call(self.alloc, &mut desk.book.lock(rt), seat, act);
        desk.ring();
        desk.calls.fetch_sub(1, Ordering::SeqCst);
        self.running.shared.tell_rest();
        place
    }

    /// Returns the result of `f` of a node as it then is. Holds the node's lock meanwhile.
    ///
    /// # Errors
    /// [`Refusal::NothingThere`] where there is no such node.
    pub fn look<R: Wait, A, F: FnOnce(&Node) -> A>(
        &self,
        rt: &R,
        node: usize,
        f: F,
    ) -> Result<A, Refusal>
        requires { F.IsAlwaysCallable f }
        ensures ok { IfOk result (λ said. (node : TheNode) × FnOnceReturnsAt F.FnOnce f node said) }
        ensures there { IfOk result (λ _. node < length self.now.nodes.items) }
        ensures err { IfErr result (λ e. (e ≡ NothingThere) × (length self.now.nodes.items ≤ node)) }
    {
        let Some(desk) = self.running.shared.desks.get(node) else {
            return Err(Refusal::NothingThere);
        };
        let book = desk.book.lock(rt);
        Ok(f(book.node()))
    }

    /// Returns the number of times that a turn of a node has found no memory, and was tried again later. The
    /// count stays at its highest, 2^64 - 1.
    ///
    /// # Errors
    /// [`Refusal::NothingThere`] where there is no such node.
    pub fn shortages(&self, node: usize) -> Result<u64, Refusal>
        ensures there { IfOk result (λ _. node < length self.now.nodes.items) }
        ensures err { IfErr result (λ e. (e ≡ NothingThere) × (length self.now.nodes.items ≤ node)) }
    {
        match self.running.shared.desks.get(node) {
            Some(desk) => Ok(desk.shortages.load(Ordering::SeqCst)),
            None => Err(Refusal::NothingThere),
        }
    }

    /// Waits until the cluster has come to rest: at one moment no call was in progress, and no node had
    /// anything to do. Looks at most `max_looks` times, and changes no node. Waits at most 100
    /// microseconds between two looks. Two looks in a row have to find so. Nothing is proved of this.
    pub fn settle<R: Wait>(&self, rt: &R, max_looks: u64) -> Settled {
        let shared = &self.running.shared;
        shared.waiters.fetch_add(1, Ordering::SeqCst);
        let settled = wait(rt, shared, max_looks);
        shared.waiters.fetch_sub(1, Ordering::SeqCst);
        settled
    }

    /// Ends the threads, and merges the books of all nodes, as [`merge_books`] does. The entries of all
    /// books, by stamp and then by node, are one safe run of the model's world of the cluster's nodes, from
    /// its opening. The receipts of the seats are the acts that were entered. Returns the books too.
    ///
    /// # Errors
    /// Those of [`merge_books`] (`fault`). The nodes, the books and the seats come back with it. The error is
    /// true of them, and each test that comes before it passes. Unless memory is wanting, there is a book for
    /// each node (`books`).
    pub fn finish<R: Threads + Wait>(self, rt: &R, seats: Vec<Seat>) -> Result<Finished, Unmerged>
        ensures ok { IfOk result (λ it. (it.nodes.items ≡ self.nodes.items) × IsFinished self.nodes.items it.books.items seats.items it.trace.entries.items) }
        ensures fault { IfErr result (λ it. (it.nodes.items ≡ self.nodes.items) × (it.seats.items ≡ seats.items) × IsFault self.nodes.items it.books.items seats.items it.fault) }
        ensures books { IfErr result (λ it. it.fault ≢ fault.OutOfMemory → length it.books.items ≡ length self.nodes.items) }
    {
        let alloc = self.alloc;
        let (nodes, shared) = self.halt(rt);
        let mut books = Vec::new(alloc);
        let merged = match take_books(unshared(rt, shared), &mut books) {
            Ok(()) => merge_books(alloc, &nodes, &books, &seats),
            Err(_) => Err(FinishError::OutOfMemory),
        };
        match merged {
            Ok(trace) => Ok(Finished {
                nodes,
                books,
                trace,
            }),
            Err(fault) => Err(Unmerged {
                fault,
                nodes,
                books,
                seats,
            }),
        }
    }
}

// Returns the state that threads have shared, once none of them has it any more.
fn unshared<R: Wait, G: Drop>(rt: &R, shared: Arc<Shared<G>>) -> Shared<G>
    ensures { result ≡ arc_value shared }
{
    let mut shared = shared;
    for _ in rt.forever() {
        match Arc::try_unwrap(shared) {
            Ok(state) => return state,
            Err(still_shared) => shared = still_shared,
        }
        thread::yield_now();
    }
    unreachable!()
}

// Moves the books out of their locks to the end of `books`, as far as there is memory.
fn take_books<G: Drop>(shared: Shared<G>, books: &mut Vec<Book>) -> Result<(), AllocError>
    ensures { OnOk result (length books.new.items ≡ length books.old.items + length shared.desks.items) }
{
    let Shared { desks, .. } = shared;
    for desk in desks {
        books.reserve(1)?;
        let Desk { book, .. } = desk;
        books.push_reserved(book.into_inner());
    }
    Ok(())
}
