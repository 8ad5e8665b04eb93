//! The rows of a table: events at a node, and their outcomes.
use crate::wire::Wire;
use dist_model::{Kind, Swept};
use erl_term::Refusal;

/// A process by its node, its creation and its id.
pub type Process = (&'static str, u32, u32);

/// A connection by the node that dialed it, and that node's count.
pub type Trunk = (&'static str, u64);

/// A message, or a reason.
#[derive(Clone, Copy)]
pub enum Said {
    /// An atom.
    Atom(&'static str),
    /// Tuples within tuples, with the number of levels.
    Nested(usize),
}

/// An event at a node.
#[derive(Clone, Copy)]
pub enum Event {
    Spawn,
    /// A process sends another a message.
    Send(Process, Process, Said),
    /// A process sends a message to a name: the node, and the name.
    SendName(Process, &'static str, &'static str, Said),
    Link(Process, Process),
    Unlink(Process, Process),
    /// A process monitors another.
    Monitor(Process, Process),
    /// A process monitors a name: the node, and the name.
    MonitorName(Process, &'static str, &'static str),
    /// A process ends its monitor whose reference has this first word.
    Demonitor(Process, u32),
    Trap(Process, bool),
    /// A process asks another to end.
    ExitTo(Process, Process, Said),
    ExitSelf(Process, Said),
    Receive(Process),
    LinksOf(Process),
    IsAlive(Process),
    /// A process takes a name.
    Register(Process, &'static str),
    /// A process gives its name up.
    Unregister(Process),
    /// A caller asks for the process that has a name.
    WhereIs(&'static str),
    /// The first signal in flight from the node to itself comes.
    Local,
    /// The node dials another. The flag is true if there is such a node.
    Dial(&'static str, bool),
    /// Bytes come on a connection.
    Arrive(Trunk, Wire),
    /// A connection is lost.
    Lose(Trunk),
    Sweep,
    Stop,
    Start,
}

/// The content of a message.
#[derive(Clone, Copy)]
pub enum Text {
    /// An atom.
    Atom(&'static str),
    /// {'EXIT',Pid,Reason}
    Exit(Process, &'static str),
    /// {'DOWN',Ref,process,Pid,Info}, with the first word of the reference.
    Down(u32, Process, &'static str),
    /// {'DOWN',Ref,process,{Name,Node},Info}, with the first word of the reference.
    DownOfName(u32, &'static str, &'static str, &'static str),
}

/// The answer of a node.
#[derive(Clone, Copy)]
pub enum Answered {
    Done,
    /// The id of the new process.
    Pid(u32),
    /// The reference's first word.
    Reference(u32),
    Message(Text),
    /// No message waits.
    Empty,
    /// Partners, each with the unlink id of a pending end, or with 0 for an active one.
    Links(&'static [(Process, u64)]),
    Alive(bool),
    /// The process that has the name.
    Holder(Process),
    /// No process has the name.
    Nobody,
    Connection(Trunk),
    Took(Kind),
    /// The number of the fault that broke the side.
    Broken(u8),
    Swept(Swept),
    Stopped,
    /// The node has started in this creation.
    Started(u32),
}

/// An effect of an event.
#[derive(Clone, Copy)]
pub enum Brought {
    /// A message comes into the mailbox of a process.
    Put(Process, Text),
    /// A process ends, for this reason.
    Ended(Process, &'static str),
    /// A process reacts to the exit of its link to the other, for this reason.
    LinkExit(Process, Process, &'static str),
    /// The node sends bytes on a connection.
    Sent(Trunk, Wire),
    /// The node sends a signal to itself.
    SentHome(Wire),
}

/// One row.
#[derive(Clone, Copy)]
pub enum Step {
    /// An event, with its answer and its effects.
    Does(Event, Answered, &'static [Brought]),
    /// An event, with its answer. Other rows tell its effects.
    Goes(Event, Answered),
    Refuses(Event, Refusal),
    /// All signals in flight from the node to itself come, until none is left.
    Settles,
    /// A process is living, and traps exits or doesn't.
    Lives(Process, bool),
    /// A process has ended, for this reason.
    HasEnded(Process, &'static str),
    /// There is no such process.
    IsUnknown(Process),
    /// The connection that is up to a node, if there is one.
    Routes(&'static str, Option<Trunk>),
    /// The creation of the node's incarnation, and the number of processes that it has spawned.
    HasSpawned(u32, u32),
    /// Two processes of the node, and true if something is in flight between them.
    Travels(Process, Process, bool),
}
