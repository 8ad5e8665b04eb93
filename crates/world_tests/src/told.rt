//! Events of a world and what comes of them, as plain data.
use dist_model::{Kind, Swept};
use erl_term::Refusal;
use link_core::End;

/// A node, by its place in the world.
pub type Place = usize;

/// A process, by its node's place, its creation and its id.
#[derive(Clone, Copy, Debug, PartialEq, Eq)]
pub struct Process {
    pub place: Place,
    pub creation: u32,
    pub id: u32,
}

/// A connection, by the place of the node that dialed it, and that node's count.
#[derive(Clone, Copy, Debug, PartialEq, Eq)]
pub struct Trunk {
    pub dialer: Place,
    pub count: u64,
}

/// An exit reason.
#[derive(Clone, Copy, Debug, PartialEq, Eq)]
pub enum Reason {
    Normal,
    Kill,
    Killed,
    NoProc,
    NoConnection,
    Boom,
}

/// Something happens at a node: at that of the first process, where a process acts.
#[derive(Clone, Copy, Debug)]
pub enum Step {
    Spawn(Place),
    /// A process sends another the atom hi.
    Send(Process, Process),
    Link(Process, Process),
    Unlink(Process, Process),
    Monitor(Process, Process),
    /// A process takes the monitor back whose reference has this first word.
    Demonitor(Process, u32),
    /// A process begins to trap exits.
    Trap(Process),
    ExitTo(Process, Process, Reason),
    Exit(Process, Reason),
    Receive(Process),
    HasLinks(Process),
    Dial(Place, Place),
    /// What comes next on a connection comes.
    Come(Place, Trunk),
    Local(Place),
    Lose(Place, Trunk),
    Sweep(Place),
    Stop(Place),
    Start(Place),
}

/// A message that a process has received.
#[derive(Clone, Copy, Debug, PartialEq, Eq)]
pub enum Message {
    Hi,
    /// {'EXIT',Pid,Reason}
    Exit(Process, Reason),
    /// {'DOWN',Ref,process,Pid,Info}, with the first word of the reference.
    Down(u32, Process, Reason),
}

/// What a node answers.
#[derive(Clone, Copy, Debug, PartialEq, Eq)]
pub enum Told {
    Done,
    /// The process of this id was spawned.
    Spawned(u32),
    /// The first word of the monitor's reference.
    Monitors(u32),
    /// No message waits.
    Empty,
    Received(Message),
    /// How many links the process has.
    Links(usize),
    /// The count of the connection that was dialed.
    Dialed(u64),
    Took(Kind),
    /// What came broke the side, by a fault of this number.
    Broken(u8),
    Swept(Swept),
    Stopped,
    /// The node has started in this creation.
    Started(u32),
    Refused(Refusal),
    /// None of these.
    Other,
}

/// A row of a story.
#[derive(Clone, Copy)]
pub enum Row {
    /// The event comes to this.
    Does(Step, Told),
    /// Whatever can happen without a caller does, until nothing can.
    Settles,
    /// The end that the first process has of its link with the second, and that of the second.
    Ends(Process, Process, End, End),
    /// Whether anything travels between two processes.
    Travels(Process, Process, bool),
    /// The connection of a node that is up to another.
    Routes(Place, Place, Option<Trunk>),
    /// Whether a process is living.
    Lives(Process, bool),
    /// A process has ended for this reason.
    HasEnded(Process, Reason),
    /// A process monitors another and takes the monitor back, so many times.
    MonitorsOften(Process, Process, u32),
}
