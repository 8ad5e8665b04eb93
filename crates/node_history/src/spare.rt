//! The allocated parts of a node's answer, made before the event.
ghost use Rattle.std.specs.Prelude.{◌≡◌, IfErr, IfOk, List, None, OnOk, true};
ghost use Rattle.std.specs.FinMap as fm;
ghost use Rattle.dist_model.specs.Calls.{first_message};
ghost use Rattle.dist_model.specs.Names.{Name};
ghost use Rattle.dist_model.specs.NodeEvents.{at_node};
ghost use Rattle.dist_model.specs.declared.command.Command.TheVariants as asked;
ghost use Rattle.dist_model.specs.declared.report.Answer.TheVariants as said;
ghost use Rattle.erl_term.specs.declared.term.Pid.{Pid as ThePid};
ghost use Rattle.link_core.specs.declared.end.End.{End as TheEnd};
ghost use Rattle.erl_term.specs.declared.refusal.Refusal.TheVariants as refusal;
ghost use Rattle.node_core.specs.Model.{model_of};
ghost use Rattle.node_history.specs.Spares.{AreLinksFor, AreLinksOf, Fills, filled, holder_for, holder_of, message_for, message_of};
ghost use Rattle.node_history.specs.Acts.{is_act};
ghost use Rattle.node_core.specs.NodeEvents.{met};

use dist_model::{Answer, Command, Links};
use erl_names::{NodeName, TrunkId};
use erl_term::{Atom, Payload, Pid, Reference, ReferenceWords, Refusal};
use node_core::{Node, NodeEvent};
use node_tables::Life;
use std::alloc::{AllocError, Global};

/// The allocated parts of a node's answer to an act: the name of the node, the message that a process
/// receives, its links, and the process that has a name.
#[derive(Drop)]
pub(crate) struct Spare {
    atom: Atom,
    name: NodeName,
    message: Option<Payload>,
    links: Links,
    holder: Option<Pid>,
}

// Returns a copy of the oldest message of a process, if there is one.
fn first_message(alloc: Global, node: &Node, process: &Pid) -> Result<Option<Payload>, AllocError>
    ensures { IfOk result (λ m. m ≡ first_message (fm.get (model_of node.now).lives process.now)) }
{
    match node.life(process) {
        Some(Life::Living { process, .. }) => match process.mailbox.get(0) {
            Some(message) => Ok(Some(message.copy(alloc)?)),
            None => Ok(None),
        },
        Some(Life::Ended(_)) => Ok(None),
        None => Ok(None),
    }
}

fn message_of(alloc: Global, node: &Node, command: &Command) -> Result<Option<Payload>, AllocError>
    ensures { IfOk result (λ m. m ≡ message_of (model_of node.now) command.now) }
{
    match command {
        Command::Receive { process } => first_message(alloc, node, process),
        _ => Ok(None),
    }
}

// Returns a copy of the message that an act takes out of a mailbox, if it does.
fn message_for(alloc: Global, node: &Node, event: &NodeEvent) -> Result<Option<Payload>, AllocError>
    ensures { IfOk result (λ m. m ≡ message_for (model_of node.now) event.now) }
{
    match event {
        NodeEvent::Call(command) => message_of(alloc, node, command),
        _ => Ok(None),
    }
}

fn no_links(alloc: Global) -> Links {
    Links {
        entries: Vec::new(alloc),
    }
}

// Returns the links of an answer, or no links if it has none.
fn links_in(alloc: Global, answer: Answer) -> Links
    ensures { (links : List (ThePid × TheEnd)) → answer ≡ said.Links links → result ≡ links }
{
    match answer {
        Answer::Links(links) => links,
        other => {
            drop(other);
            no_links(alloc)
        }
    }
}

// Returns no links for a refused query, or an error if it was out of memory.
fn unless_wanting(alloc: Global, why: Refusal) -> Result<Links, Refusal>
    ensures ok { OnOk result (why ≡ refusal.OutOfMemory → ⊥) }
    ensures err { IfErr result (λ e. e ≡ refusal.OutOfMemory) }
{
    match why {
        Refusal::OutOfMemory => Err(Refusal::OutOfMemory),
        _ => Ok(no_links(alloc)),
    }
}

// Returns the links of a process. The node stays unchanged.
fn looked_up(alloc: Global, node: &mut Node, process: &Pid) -> Result<Links, Refusal>
    ensures same { model_of node.new ≡ model_of node.old }
    ensures links { IfOk result (λ links. AreLinksOf links (model_of node.old) (asked.LinksOf process.now)) }
    ensures err { IfErr result (λ e. e ≡ refusal.OutOfMemory) }
{
    let command = Command::LinksOf {
        process: process.clone()?,
    };
    match node.call(alloc, command) {
        Ok(report) => Ok(links_in(alloc, report.answer)),
        Err(e) => unless_wanting(alloc, e),
    }
}

fn links_of(alloc: Global, node: &mut Node, command: &Command) -> Result<Links, Refusal>
    ensures same { model_of node.new ≡ model_of node.old }
    ensures links { IfOk result (λ links. AreLinksOf links (model_of node.old) command.now) }
    ensures err { IfErr result (λ e. e ≡ refusal.OutOfMemory) }
{
    match command {
        Command::LinksOf { process } => looked_up(alloc, node, process),
        _ => Ok(no_links(alloc)),
    }
}

// Returns the links that an act asks for, if it does. The node stays unchanged.
fn links_for(alloc: Global, node: &mut Node, event: &NodeEvent) -> Result<Links, Refusal>
    ensures same { model_of node.new ≡ model_of node.old }
    ensures links { IfOk result (λ links. AreLinksFor links (model_of node.old) event.now) }
    ensures err { IfErr result (λ e. e ≡ refusal.OutOfMemory) }
{
    match event {
        NodeEvent::Call(command) => links_of(alloc, node, command),
        _ => Ok(no_links(alloc)),
    }
}

// Returns a copy of the process that has a name.
fn copied_holder(node: &Node, name: &Atom) -> Result<Option<Pid>, AllocError>
    ensures { IfOk result (λ holder. holder ≡ fm.get (model_of node.now).names name.now) }
{
    match node.holder(name) {
        Some(process) => Ok(Some(process.clone()?)),
        None => Ok(None),
    }
}

fn holder_of(node: &Node, command: &Command) -> Result<Option<Pid>, AllocError>
    ensures { IfOk result (λ holder. holder ≡ holder_of (model_of node.now) command.now) }
{
    match command {
        Command::WhereIs { name } => copied_holder(node, name),
        _ => Ok(None),
    }
}

// Returns a copy of the process that an act asks for by its name.
fn holder_for(node: &Node, event: &NodeEvent) -> Result<Option<Pid>, AllocError>
    ensures { IfOk result (λ holder. holder ≡ holder_for (model_of node.now) event.now) }
{
    match event {
        NodeEvent::Call(command) => holder_of(node, command),
        _ => Ok(None),
    }
}

fn words_again(words: &ReferenceWords) -> ReferenceWords
    ensures { result ≡ words.now }
{
    match ReferenceWords::new(words.as_slice()) {
        Some(same) => same,
        None => unreachable!(),
    }
}

impl Spare {
    /// Allocates the parts of the answer to the act `event`. The node stays unchanged.
    ///
    /// # Errors
    /// [`Refusal::OutOfMemory`] if out of memory.
    pub(crate) fn of(alloc: Global, node: &mut Node, event: &NodeEvent) -> Result<Spare, Refusal>
        requires { is_act event.now ≡ true }
        ensures same { model_of node.new ≡ model_of node.old }
        ensures fills { IfOk result (λ spare. (names : List Name) → Fills spare (at_node names (model_of node.old) (met event.now None))) }
        ensures err { IfErr result (λ e. e ≡ refusal.OutOfMemory) }
    {
        let atom = node.name().atom().clone()?;
        let name = node.name().clone()?;
        let message = message_for(alloc, node, event)?;
        let holder = holder_for(node, event)?;
        let links = links_for(alloc, node, event)?;
        Ok(Spare {
            atom,
            name,
            message,
            links,
            holder,
        })
    }

    /// Returns `answer` again, with its allocated parts taken from the spare. Never allocates.
    pub(crate) fn again(self, answer: &Answer) -> Answer
        ensures { result ≡ filled self answer.now }
    {
        match answer {
            Answer::Pid(pid) => Answer::Pid(Pid {
                node: self.into_atom(),
                creation: pid.creation,
                id: pid.id,
                serial: pid.serial,
            }),
            Answer::Reference(reference) => Answer::Reference(Reference {
                node: self.into_atom(),
                creation: reference.creation,
                words: words_again(&reference.words),
            }),
            Answer::Message(_) => Answer::Message(self.into_message()),
            Answer::Links(_) => Answer::Links(self.into_links()),
            Answer::Holder(_) => Answer::Holder(self.into_holder()),
            Answer::Trunk(trunk) => Answer::Trunk(TrunkId {
                dialer: self.into_name(),
                count: trunk.count,
            }),
            Answer::Done => self.unused(Answer::Done),
            Answer::Alive(is_living) => self.unused(Answer::Alive(*is_living)),
            Answer::Took(kind) => self.unused(Answer::Took(*kind)),
            Answer::Broken(fault) => self.unused(Answer::Broken(*fault)),
            Answer::Swept(what) => self.unused(Answer::Swept(*what)),
            Answer::Stopped => self.unused(Answer::Stopped),
            Answer::Started(creation) => self.unused(Answer::Started(*creation)),
        }
    }

    // Returns `answer`, and drops the spare.
    fn unused(self, answer: Answer) -> Answer
        ensures { result ≡ answer }
    {
        drop(self);
        answer
    }

    // Returns the name of the node as an atom, and drops the rest.
    fn into_atom(self) -> Atom
        ensures { result ≡ self.atom }
    {
        let Spare { atom, .. } = self;
        atom
    }

    fn into_name(self) -> NodeName
        ensures { result ≡ self.name }
    {
        let Spare { name, .. } = self;
        name
    }

    fn into_message(self) -> Option<Payload>
        ensures { result ≡ self.message }
    {
        let Spare { message, .. } = self;
        message
    }

    fn into_links(self) -> Links
        ensures { result ≡ self.links }
    {
        let Spare { links, .. } = self;
        links
    }

    fn into_holder(self) -> Option<Pid>
        ensures { result ≡ self.holder }
    {
        let Spare { holder, .. } = self;
        holder
    }
}
