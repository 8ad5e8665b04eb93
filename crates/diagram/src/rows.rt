//! What a diagram shows.

/// A diagram: its lanes, the first at the left, and its rows, the first on top.
#[derive(Drop)]
pub struct Diagram {
    /// What the whole is, in a few words.
    pub title: String,
    pub lanes: Vec<Lane>,
    pub rows: Vec<Row>,
    /// The number of the first rows that aren't drawn. Items that are still on their way behind these come
    /// from the upper edge.
    pub hidden: usize,
}

/// A life line.
#[derive(Drop)]
pub struct Lane {
    pub name: String,
    /// What stands below the name, a line each.
    pub under: Vec<String>,
}

/// The marks and items of one moment. A row first takes an item, then its marks come, and then queues
/// are given up.
#[derive(Drop)]
pub struct Row {
    /// What stands at the left, a line each.
    pub words: Vec<String>,
    /// The last of these words in full, if they are shortened. Else empty.
    pub tooltip: String,
    /// Lines at which nothing happened. They stand at the left in one line, as their number if there are
    /// several, and need no room of their own.
    pub folded: Vec<String>,
    /// The queue from which an item is taken.
    pub took: Option<u32>,
    pub marks: Vec<Mark>,
    /// The queues from which nothing is taken any more.
    pub gave_up: Vec<u32>,
}

/// A mark on a lane.
#[derive(Drop)]
pub enum Mark {
    Note(Note),
    Sent(Item),
}

/// Words on a lane.
#[derive(Drop)]
pub struct Note {
    /// The number of the lane, from 0.
    pub lane: usize,
    pub tone: Tone,
    pub words: String,
    /// The words in full, if they are shortened. Else empty.
    pub tooltip: String,
}

/// How a note is coloured. The words of the note say the same.
#[derive(Clone, Copy, Debug, PartialEq, Eq)]
pub enum Tone {
    Plain,
    /// All is well.
    Calm,
    /// Something has still to come.
    Pending,
    /// Something has ended.
    Alarm,
}

/// An item that is sent from one lane to another.
#[derive(Drop)]
pub struct Item {
    pub label: String,
    /// What there is to say of it in full.
    pub tooltip: String,
    /// The lane that it is sent from.
    pub from: usize,
    /// The lane that it is sent to.
    pub to: usize,
    /// The queue on which it is sent.
    pub queue: u32,
}
