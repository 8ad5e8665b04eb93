//! The recorder of a run.

ghost use Rattle.std.specs.Prelude.{◌≡◌, [], None, IfOk, OnOk, length, nat_lt, true};
ghost use Rattle.run_diagrams.specs.Folding.{KeepsArrows};
ghost use Rattle.run_diagrams.specs.Recording.{IsPictureOf, IsShown, is_still, with_one, with_row};
ghost use Rattle.run_diagrams.specs.Scope.{has_room, hidden_at, reached};

use crate::names::ScriptNames;
use crate::notes::{Words, of_end};
use crate::queues::Ways;
use crate::row::{empty_row, is_still, put_folded, put_refusal, put_words};
use crate::scope::{LineRange, Scope};
use diagram::{Diagram, Lane, Row, Tone};
use erl_term::{Pid, Reference, Refusal};
use link_core::End;
use script_terms::put_pid;
use std::alloc::{AllocError, Global};

/// A run so far, as a diagram: a lane for each node, and a row for each event.
#[derive(Drop)]
pub struct Recorder {
    pub(crate) diagram: Diagram,
    pub(crate) ways: Ways,
    pub(crate) names: ScriptNames,
    pub(crate) scope: Scope,
    /// The words at the left of the next row.
    words: Vec<String>,
    /// The number of rows that had no room.
    left_out: u64,
}

/// Returns the place of a node's lane, or the one behind all if it has none.
pub(crate) fn place_of(lanes: &[Lane], node: &str) -> usize {
    for (place, lane) in lanes.iter().enumerate() {
        if lane.name.as_str() == node {
            return place;
        }
    }
    lanes.len()
}

// Adds a row that counts the rows that had no room, if there are any.
fn put_left_out(alloc: Global, rows: &mut Vec<Row>, left_out: u64) -> Result<(), AllocError>
    ensures { OnOk result (IsShown (nat_lt 0 left_out) rows.old.items rows.new.items) }
{
    if left_out > 0 {
        let mut words = Vec::new(alloc);
        words.push(format!(in alloc; "and {left_out} rows more")?)?;
        rows.push(empty_row(alloc, words))?;
    }
    Ok(())
}

impl Recorder {
    /// Creates a recorder with no rows. It draws those of these lines.
    ///
    /// # Errors
    /// [`AllocError`] if there is no memory for the title.
    pub fn new(alloc: Global, title: &str, lines: LineRange) -> Result<Recorder, AllocError>
        ensures rows { IfOk result (λ recorder. recorder.diagram.rows.items ≡ []) }
        ensures counted { IfOk result (λ recorder. recorder.left_out ≡ 0) }
    {
        Ok(Recorder {
            diagram: Diagram {
                title: String::from_str(alloc, title)?,
                lanes: Vec::new(alloc),
                rows: Vec::new(alloc),
                hidden: 0,
            },
            ways: Ways::new(alloc),
            names: ScriptNames::new(alloc),
            scope: Scope::new(lines),
            words: Vec::new(alloc),
            left_out: 0,
        })
    }

    /// Returns the diagram of the rows so far.
    pub fn diagram(&self) -> &Diagram {
        &self.diagram
    }

    /// Adds a lane for a node, at the right of those before it.
    ///
    /// # Errors
    /// [`AllocError`] if out of memory, as of each call below.
    pub fn add_node(&mut self, alloc: Global, name: &str) -> Result<(), AllocError> {
        let name = String::from_str(alloc, name)?;
        self.diagram.lanes.push(Lane {
            name,
            under: Vec::new(alloc),
        })?;
        Ok(())
    }

    /// Returns the place of a node's lane, or the one behind all if it has none.
    pub(crate) fn lane_of(&self, node: &str) -> usize {
        place_of(&self.diagram.lanes, node)
    }

    /// Gives a name to a process. It stands below the node's name, and in place of the process.
    pub fn add_process(
        &mut self,
        alloc: Global,
        process: &Pid,
        name: &str,
    ) -> Result<(), AllocError> {
        if !self.has_room() {
            return Ok(());
        }
        self.names.add(alloc, process, name)?;
        let mut text = String::from_str(alloc, name)?;
        text.push_str(" = ")?;
        put_pid(&mut text, process)?;
        let place = self.lane_of(process.node.text());
        if let Some(lane) = self.diagram.lanes.get_mut(place) {
            lane.under.push(text)?;
        }
        Ok(())
    }

    /// Begins the line of a number, counted from 1: later events are those of this line.
    pub fn reach(&mut self, line: u64)
        ensures scope { self.new.scope ≡ reached self.old.scope line (length self.old.diagram.rows.items) }
        ensures rows { self.new.diagram.rows.items ≡ self.old.diagram.rows.items }
    {
        self.scope = self.scope.reached(line, self.diagram.rows.len());
    }

    /// Gives a name to a reference. It stands in place of the reference in terms.
    pub fn add_reference(
        &mut self,
        alloc: Global,
        reference: &Reference,
        name: &str,
    ) -> Result<(), AllocError> {
        if !self.has_room() {
            return Ok(());
        }
        self.names.add_reference(alloc, reference, name)
    }

    /// Adds a line to the words at the left of the next row, if rows are drawn.
    pub fn say(&mut self, alloc: Global, text: &str) -> Result<(), AllocError> {
        if self.scope.is_before() {
            return Ok(());
        }
        self.words.push(String::from_str(alloc, text)?)?;
        Ok(())
    }

    /// Begins the line of a number, and adds its text to the words at the left of the next row.
    pub fn say_line(&mut self, alloc: Global, line: u64, text: &str) -> Result<(), AllocError> {
        self.reach(line);
        self.say(alloc, text)
    }

    /// Drops the words that were to stand at the left of the next row.
    pub fn hush(&mut self) {
        self.words.clear();
    }

    /// Adds a row of its own for the words that still wait for one.
    pub fn rest(&mut self, alloc: Global) -> Result<(), AllocError> {
        if self.words.is_empty() {
            return Ok(());
        }
        let row = self.begin(alloc);
        self.put(row)
    }

    /// Folds the words that still wait for a row: they stand with those of the lines right before at which
    /// nothing happened either.
    pub fn fold(&mut self, alloc: Global) -> Result<(), AllocError>
        ensures { OnOk result (KeepsArrows self.old.diagram.rows.items self.new.diagram.rows.items) }
    {
        if self.words.is_empty() {
            return Ok(());
        }
        let lines = std::mem::replace(&mut self.words, Vec::new(alloc));
        if !self.has_room() {
            self.left_out = self.left_out.saturating_add(1);
            drop(lines);
            return Ok(());
        }
        put_folded(alloc, &mut self.diagram.rows, lines)
    }

    /// Returns a row with the words that stand at its left.
    pub(crate) fn begin(&mut self, alloc: Global) -> Row
        ensures took { result.took ≡ None }
        ensures marks { result.marks.items ≡ [] }
        ensures rows { self.new.diagram.rows.items ≡ self.old.diagram.rows.items }
        ensures ways { self.new.ways.ways.items ≡ self.old.ways.ways.items }
        ensures scope { self.new.scope ≡ self.old.scope }
    {
        let words = std::mem::replace(&mut self.words, Vec::new(alloc));
        empty_row(alloc, words)
    }

    // Returns true if there is room for another row.
    fn has_room(&self) -> bool
        ensures { result ≡ has_room self.now.scope (length self.now.diagram.rows.items) }
    {
        self.scope.has_room(self.diagram.rows.len())
    }

    // Adds the row to the diagram if there is room, and else counts it.
    fn put(&mut self, row: Row) -> Result<(), AllocError>
        ensures rows { OnOk result (self.new.diagram.rows.items ≡ with_one self.old.scope self.old.diagram.rows.items row) }
        ensures ways { self.new.ways.ways.items ≡ self.old.ways.ways.items }
        ensures scope { self.new.scope ≡ self.old.scope }
    {
        if self.has_room() {
            self.diagram.rows.push(row)?;
        } else {
            self.left_out = self.left_out.saturating_add(1);
            drop(row);
        }
        Ok(())
    }

    /// Adds the row to the diagram, if something happens in it and there is room. If nothing happens, its
    /// words wait for the next row.
    pub(crate) fn end(&mut self, row: Row) -> Result<(), AllocError>
        ensures rows { OnOk result (self.new.diagram.rows.items ≡ with_row self.old.scope self.old.diagram.rows.items row) }
        ensures words { is_still row ≡ true → self.new.words.items ≡ row.words.items }
        ensures ways { self.new.ways.ways.items ≡ self.old.ways.ways.items }
        ensures scope { self.new.scope ≡ self.old.scope }
    {
        if !is_still(&row) {
            return self.put(row);
        }
        let Row { words, .. } = row;
        self.words = words;
        Ok(())
    }

    /// Returns the diagram of the recorded rows, and counts those that aren't drawn. If rows had no room, or are of
    /// lines behind, a last row has their number.
    pub fn finish(self, alloc: Global) -> Result<Diagram, AllocError>
        ensures rows { IfOk result (λ diagram. IsPictureOf self diagram) }
        ensures hidden { IfOk result (λ diagram. diagram.hidden ≡ hidden_at self.scope (length self.diagram.rows.items)) }
    {
        let Recorder {
            mut diagram,
            left_out,
            scope,
            ..
        } = self;
        diagram.hidden = scope.hidden_at(diagram.rows.len());
        put_left_out(alloc, &mut diagram.rows, left_out)?;
        Ok(diagram)
    }

    /// Records a refused request, at which nothing happened.
    pub fn refused(&mut self, alloc: Global, why: Refusal) -> Result<(), AllocError> {
        let mut row = self.begin(alloc);
        put_refusal(alloc, &mut row, why)?;
        self.end(row)
    }

    /// Records the ends of the link between two processes, each on the lane of its node.
    pub fn ends(
        &mut self,
        alloc: Global,
        first: (&Pid, End),
        second: (&Pid, End),
    ) -> Result<(), AllocError> {
        let mut row = self.begin(alloc);
        let (here, there) = (first.0.node.text(), second.0.node.text());
        put_words(
            &mut row,
            self.lane_of(here),
            of_end(alloc, &self.names, first.0, first.1)?,
        )?;
        put_words(
            &mut row,
            self.lane_of(there),
            of_end(alloc, &self.names, second.0, second.1)?,
        )?;
        self.end(row)
    }

    /// Something is noted on the lane of a node, in a row of its own.
    pub fn note(
        &mut self,
        alloc: Global,
        node: &str,
        tone: Tone,
        text: &str,
    ) -> Result<(), AllocError> {
        let mut row = self.begin(alloc);
        let words = Words::whole(alloc, tone, String::from_str(alloc, text)?);
        put_words(&mut row, self.lane_of(node), Some(words))?;
        self.end(row)
    }
}
