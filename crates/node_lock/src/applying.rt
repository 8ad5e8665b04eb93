//! The entering of the events at a book's node.
ghost use Rattle.std.specs.Prelude.{◌≡◌, ◌<◌, IfErr, IfOk, length, true};
ghost use Rattle.node_core.specs.Model.{model_of};
ghost use Rattle.node_lock.specs.Answers.{is_plain};
ghost use Rattle.node_lock.specs.Books.{Applies, IsFreshBook, IsUnapplied, is_ready_on};
ghost use Rattle.node_history.specs.Acts.{is_act};
ghost use Rattle.node_history.specs.Telling.{IsTold, placed};
ghost use Rattle.node_core.specs.declared.node_event.NodeEvent.TheVariants as event;

use crate::arriving::{is_ready, take};
use crate::book::Book;
use crate::dialing::dial;
use crate::names::{has_name, place_near, place_of};
use crate::outlet::PieceLength;
use erl_handshake::Setup;
use erl_names::{NodeName, TrunkId};
use erl_term::Refusal;
use node_core::{Node, NodeEvent};
use node_history::{Entry, History, Told};
use std::alloc::{AllocError, Global};
use wire_core::LONGEST;

// The place that is told.
fn placed(told: Result<Told, Refusal>) -> Result<usize, Refusal>
    ensures { result ≡ placed told }
{
    match told {
        Ok(told) => Ok(told.place),
        Err(e) => Err(e),
    }
}

impl Book {
    /// The book of the node at that place among all nodes, with its setup. Nothing has happened to it
    /// yet.
    ///
    /// # Errors
    /// Where there is no memory for it.
    pub fn new(
        alloc: Global,
        names: Vec<NodeName>,
        place: usize,
        setup: Setup,
    ) -> Result<Book, AllocError>
        requires { place < length names.items }
        ensures { IfOk result (IsFreshBook names.items place setup) }
    {
        dist_books::books_grow();
        let name = names[place].clone()?;
        let node = Node::new(alloc, name, setup.clone()?)?;
        Ok(Book {
            names,
            place,
            setup,
            history: History::new(alloc, node),
            outlets: Vec::new(alloc),
            offers: Vec::new(alloc),
            greatest: PieceLength { bytes: LONGEST },
        })
    }

    /// The place of its node among all nodes, from 0.
    pub fn place(&self) -> usize
        ensures { result ≡ self.now.place }
    {
        self.place
    }

    /// The node.
    pub fn node(&self) -> &Node
        ensures { model_of result.now ≡ model_of self.now.history.node }
    {
        self.history.node()
    }

    /// Returns the entries of the events that have happened, the first event first.
    pub fn entries(&self) -> &[Entry]
        ensures { result.now ≡ self.now.history.entries.items }
    {
        self.history.entries()
    }

    /// Returns true if an item has come on a connection that the node may take, or has to refuse: an
    /// `Arrive` of it can be applied then.
    pub fn ready(&self, trunk: &TrunkId) -> bool
        ensures { result ≡ is_ready_on (model_of self.now.history.node) trunk.now self.now.outlets }
    {
        match place_of(&self.outlets, trunk) {
            Some(at) => is_ready(self.history.node(), trunk, self.outlets[at].port.first()),
            None => false,
        }
    }

    // The first signal that travels from the node to itself comes.
    fn local(&mut self, alloc: Global) -> Result<usize, Refusal>
        ensures ok { IfOk result (Applies event.Local 0 self.old self.new) }
        ensures err { IfErr result (IsUnapplied event.Local 0 self.old self.new) }
    {
        dist_books::books_grow();
        self.history.local(alloc)
    }

    // The least record of a lost connection is swept.
    fn sweep(&mut self, alloc: Global) -> Result<usize, Refusal>
        ensures ok { IfOk result (Applies event.Sweep 0 self.old self.new) }
        ensures err { IfErr result (IsUnapplied event.Sweep 0 self.old self.new) }
    {
        dist_books::books_grow();
        self.history.sweep(alloc)
    }

    /// Applies an `Arrive`, as [`Book::apply`] does. Looks for the connection at the place `near` of
    /// [`Book::outlets`] first.
    ///
    /// # Errors
    /// As those of [`Book::apply`].
    pub fn arrive(
        &mut self,
        alloc: Global,
        trunk: TrunkId,
        word: u32,
        near: usize,
    ) -> Result<usize, Refusal>
        ensures ok { IfOk result (Applies (event.Arrive trunk word) 0 self.old self.new) }
        ensures err { IfErr result (IsUnapplied (event.Arrive trunk word) 0 self.old self.new) }
    {
        dist_books::books_grow();
        match place_near(&self.outlets, &trunk, near) {
            Some(at) => take(alloc, &mut self.history, &mut self.outlets[at], trunk, word),
            None => Err(Refusal::NothingThere),
        }
    }

    // Enters an event that a caller asks for and that happens at the node alone.
    fn ask(&mut self, alloc: Global, event: NodeEvent, above: u64) -> Result<Told, Refusal>
        requires plain { is_plain event ≡ true }
        requires act { is_act event ≡ true }
        ensures ok { IfOk result (λ told. Applies event above self.old self.new told.place) }
        ensures told { IfOk result (IsTold self.new.history.entries.items) }
        ensures err { IfErr result (IsUnapplied event above self.old self.new) }
    {
        dist_books::books_grow();
        self.history.act(alloc, false, event, above)
    }

    // The node dials another.
    fn dial(
        &mut self,
        alloc: Global,
        peer: NodeName,
        word: u32,
        above: u64,
    ) -> Result<Told, Refusal>
        ensures ok { IfOk result (λ told. Applies (event.Dial peer word) above self.old self.new told.place) }
        ensures told { IfOk result (IsTold self.new.history.entries.items) }
        ensures err { IfErr result (IsUnapplied (event.Dial peer word) above self.old self.new) }
    {
        dist_books::books_grow();
        let is_known = has_name(&self.names, &peer);
        dial(
            alloc,
            &mut self.history,
            &mut self.outlets,
            &mut self.offers,
            self.greatest,
            is_known,
            peer,
            word,
            above,
        )
    }

    /// Enters an event that a caller asks for, as [`Book::apply`] does. The stamp of its entry is above `above`
    /// too. Returns the place of the entry, and its answer. (ERTS User's Guide, Distribution Protocol; Reference Manual, Processes.)
    ///
    /// # Errors
    /// [`Refusal::IdsUsedUp`] where no higher stamp is left, and then [`Refusal::OutOfMemory`], also
    /// where there is none for the answer that is told. Then nothing has changed.
    pub fn act(&mut self, alloc: Global, event: NodeEvent, above: u64) -> Result<Told, Refusal>
        requires { is_act event ≡ true }
        ensures ok { IfOk result (λ told. Applies event above self.old self.new told.place) }
        ensures told { IfOk result (IsTold self.new.history.entries.items) }
        ensures err { IfErr result (IsUnapplied event above self.old self.new) }
    {
        match event {
            NodeEvent::Call(command) => self.ask(alloc, NodeEvent::Call(command), above),
            NodeEvent::Lose(trunk) => self.ask(alloc, NodeEvent::Lose(trunk), above),
            NodeEvent::Dial { peer, word } => self.dial(alloc, peer, word, above),
            NodeEvent::Stop => self.ask(alloc, NodeEvent::Stop, above),
            NodeEvent::Start => self.ask(alloc, NodeEvent::Start, above),
            NodeEvent::Arrive { .. } => unreachable!(),
            NodeEvent::Local => unreachable!(),
            NodeEvent::Sweep => unreachable!(),
        }
    }

    /// Applies an event to the node. Returns the place of the entry that is added to the history. The
    /// entry has the node's answer, a refusal too. Its stamp is one more than the greater of the last
    /// stamp and of the one under which an item that has come was sent. The items that the node sends
    /// wait at its ends of the connections. (ERTS User's Guide, Distribution Protocol; Reference
    /// Manual, Processes.)
    ///
    /// # Errors
    /// [`Refusal::NothingThere`] at an `Arrive` for which the connection isn't [`Book::ready`];
    /// [`Refusal::IdsUsedUp`] where no higher stamp is left, and then [`Refusal::OutOfMemory`]. Then
    /// nothing has changed.
    pub fn apply(&mut self, alloc: Global, event: NodeEvent) -> Result<usize, Refusal>
        ensures ok { IfOk result (Applies event 0 self.old self.new) }
        ensures err { IfErr result (IsUnapplied event 0 self.old self.new) }
    {
        match event {
            NodeEvent::Call(command) => placed(self.act(alloc, NodeEvent::Call(command), 0)),
            NodeEvent::Arrive { trunk, word } => self.arrive(alloc, trunk, word, 0),
            NodeEvent::Local => self.local(alloc),
            NodeEvent::Lose(trunk) => placed(self.act(alloc, NodeEvent::Lose(trunk), 0)),
            NodeEvent::Sweep => self.sweep(alloc),
            NodeEvent::Dial { peer, word } => {
                placed(self.act(alloc, NodeEvent::Dial { peer, word }, 0))
            }
            NodeEvent::Stop => placed(self.act(alloc, NodeEvent::Stop, 0)),
            NodeEvent::Start => placed(self.act(alloc, NodeEvent::Start, 0)),
        }
    }
}
