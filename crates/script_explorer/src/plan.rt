//! The plan of a script that is explored: its beginning, its blocks, and its questions.
use script_lines::split_line;
use std::alloc::{AllocError, Global};
use thiserror::Error;

/// A line of a script, and its number, from 1.
#[derive(Clone, Copy, Debug)]
pub struct Numbered<'a> {
    /// The number of the line in the script, from 1.
    pub number: u64,
    /// The bytes of the line, without its line break.
    pub text: &'a [u8],
}

/// A command of a block, and behind it the `expect` lines that test its reply.
#[derive(Debug, Drop)]
pub struct Step<'a> {
    /// The lines, of which the first is the command.
    pub lines: Vec<Numbered<'a>>,
}

/// A script with blocks. Lines with no word and comments are left out.
#[derive(Debug, Drop)]
pub struct Plan<'a> {
    /// The lines before the blocks.
    pub beginning: Vec<Numbered<'a>>,
    /// The steps of each block, in their order.
    pub blocks: Vec<Vec<Step<'a>>>,
    /// The lines behind the blocks.
    pub questions: Vec<Numbered<'a>>,
}

/// The reason why a line can't stand where it does in a script with blocks.
#[derive(Clone, Copy, Debug, PartialEq, Eq, Error)]
pub enum PlanFault {
    /// The script has no block.
    #[error("a script that is explored has blocks: 'par', their lines with 'and' between them, and 'end'")]
    NoBlock,
    /// Blocks begin a second time.
    #[error("'par' begins the blocks of a script, and stands once")]
    SecondPar,
    /// The line stands outside of the blocks.
    #[error("'and' and 'end' stand behind 'par'; 'and' parts two blocks, and 'end' ends the last")]
    OutsideOfBlocks,
    /// The last block has no end.
    #[error("the last block has no 'end'")]
    NoEnd,
    /// A block has no line.
    #[error("a block has a line at least")]
    EmptyBlock,
    /// A mark of blocks has words behind it.
    #[error("'par', 'and' and 'end' stand alone on their lines")]
    WordsBehindMark,
    /// A line for a node or a pair stands in a block, or behind the blocks.
    #[error("'node' and 'pair' lines stand before 'par'")]
    NodeBehindPar,
    /// An `expect` has no line before it in its block, or among the questions.
    #[error("an 'expect' stands behind the line whose reply it tests, in the same block")]
    ExpectFirst,
}

/// The reason why a plan can't be read.
#[derive(Clone, Copy, Debug, PartialEq, Eq)]
pub enum Unread {
    /// The line of this number, from 1, can't stand there.
    Bad(u64, PlanFault),
    /// Out of memory.
    OutOfMemory,
}

impl From<AllocError> for Unread {
    fn from(_: AllocError) -> Unread {
        Unread::OutOfMemory
    }
}

/// The part of a script that is being read.
#[derive(Clone, Copy, Debug, PartialEq, Eq)]
enum Part {
    Beginning,
    Blocks,
    Questions,
}

/// The meaning of a line for the plan.
#[derive(Clone, Copy, Debug, PartialEq, Eq)]
enum Mark {
    /// It has no word, or is a comment.
    Nothing,
    Par,
    And,
    End,
    /// It is one of these three, with words behind it.
    Unfit,
    Expect,
    /// It is for a node or a pair.
    Node,
    Command,
}

// Returns the meaning of a line for the plan.
fn mark_of(text: &[u8]) -> Mark {
    let Ok(text) = str::from_utf8(text) else {
        return Mark::Command;
    };
    let text = text.trim();
    let word = match text.split_once(' ') {
        Some((word, _)) => word,
        None => text,
    };
    match word {
        "" => Mark::Nothing,
        "expect" => Mark::Expect,
        _ if word.starts_with('#') => Mark::Nothing,
        "par" if text == word => Mark::Par,
        "and" if text == word => Mark::And,
        "end" if text == word => Mark::End,
        "par" | "and" | "end" => Mark::Unfit,
        "node" | "pair" => Mark::Node,
        _ => Mark::Command,
    }
}

// Returns the line of a number, if it is one of these.
fn line_in<'a>(lines: &[Numbered<'a>], number: u64) -> Option<&'a [u8]> {
    for line in lines {
        if line.number == number {
            return Some(line.text);
        }
    }
    None
}

// Adds the name that the command of a step gives to a process or a reference: its last word.
fn add_name<'a>(names: &mut Vec<&'a str>, step: &Step<'a>) -> Result<(), AllocError> {
    let Some(line) = step.lines.first() else {
        return Ok(());
    };
    let Ok(text) = str::from_utf8(line.text) else {
        return Ok(());
    };
    let text = text.trim();
    match (text.split_once(' '), text.rsplit_once(' ')) {
        (Some(("spawn" | "monitor" | "monitorname", _)), Some((_, name))) => Ok(names.push(name)?),
        _ => Ok(()),
    }
}

impl<'a> Step<'a> {
    // Creates a step of a command.
    fn of(alloc: Global, line: Numbered<'a>) -> Result<Step<'a>, AllocError> {
        let mut lines = Vec::new(alloc);
        lines.push(line)?;
        Ok(Step { lines })
    }
}

impl<'a> Plan<'a> {
    // Creates a plan of no lines.
    fn new(alloc: Global) -> Plan<'a> {
        Plan {
            beginning: Vec::new(alloc),
            blocks: Vec::new(alloc),
            questions: Vec::new(alloc),
        }
    }

    // Returns true if the last block has no line.
    fn has_empty_block(&self) -> bool {
        match self.blocks.last() {
            Some(block) => block.is_empty(),
            None => true,
        }
    }

    // Takes a command or an `expect` of the block that is being read.
    fn take_step(&mut self, alloc: Global, mark: Mark, line: Numbered<'a>) -> Result<(), Unread> {
        let bad = Err(Unread::Bad(line.number, PlanFault::ExpectFirst));
        let Some(block) = self.blocks.last_mut() else {
            return bad;
        };
        if mark == Mark::Command {
            let step = Step::of(alloc, line)?;
            block.push(step).map_err(AllocError::from)?;
            return Ok(());
        }
        match block.last_mut() {
            Some(step) => Ok(step.lines.push(line).map_err(AllocError::from)?),
            None => bad,
        }
    }

    // Begins a block, behind `par` or `and`.
    fn begin_block(&mut self, alloc: Global) -> Result<(), AllocError> {
        Ok(self.blocks.push(Vec::new(alloc))?)
    }

    // Takes a line that marks a block. Returns the part that comes behind it.
    fn take_mark(
        &mut self,
        alloc: Global,
        part: Part,
        mark: Mark,
        number: u64,
    ) -> Result<Part, Unread> {
        match (part, mark) {
            (_, Mark::Unfit) => Err(Unread::Bad(number, PlanFault::WordsBehindMark)),
            (_, Mark::Node) => Err(Unread::Bad(number, PlanFault::NodeBehindPar)),
            (Part::Beginning, Mark::Par) => {
                self.begin_block(alloc)?;
                Ok(Part::Blocks)
            }
            (_, Mark::Par) => Err(Unread::Bad(number, PlanFault::SecondPar)),
            (Part::Blocks, _) if self.has_empty_block() => {
                Err(Unread::Bad(number, PlanFault::EmptyBlock))
            }
            (Part::Blocks, Mark::And) => {
                self.begin_block(alloc)?;
                Ok(Part::Blocks)
            }
            (Part::Blocks, _) => Ok(Part::Questions),
            _ => Err(Unread::Bad(number, PlanFault::OutsideOfBlocks)),
        }
    }

    // Takes a command or an `expect`.
    fn take_line(
        &mut self,
        alloc: Global,
        part: Part,
        mark: Mark,
        line: Numbered<'a>,
    ) -> Result<(), Unread> {
        match part {
            Part::Beginning => Ok(self.beginning.push(line).map_err(AllocError::from)?),
            Part::Blocks => self.take_step(alloc, mark, line),
            Part::Questions if mark == Mark::Expect && self.questions.is_empty() => {
                Err(Unread::Bad(line.number, PlanFault::ExpectFirst))
            }
            Part::Questions => Ok(self.questions.push(line).map_err(AllocError::from)?),
        }
    }

    // Takes the next line. Returns the part that comes behind it.
    fn take(&mut self, alloc: Global, part: Part, line: Numbered<'a>) -> Result<Part, Unread> {
        match mark_of(line.text) {
            Mark::Nothing => Ok(part),
            mark @ (Mark::Expect | Mark::Command) => {
                self.take_line(alloc, part, mark, line)?;
                Ok(part)
            }
            mark @ Mark::Node if part == Part::Beginning => {
                self.take_line(alloc, part, mark, line)?;
                Ok(part)
            }
            mark => self.take_mark(alloc, part, mark, line.number),
        }
    }

    /// Returns a step of a block. Both are told by their places, from 0.
    pub(crate) fn step(&self, block: usize, place: usize) -> Option<&Step<'a>> {
        self.blocks.get(block)?.get(place)
    }

    /// Returns the line of a number, from 1, if it isn't left out.
    pub(crate) fn line(&self, number: u64) -> Option<&'a [u8]> {
        for block in &self.blocks {
            for step in block {
                if let Some(text) = line_in(&step.lines, number) {
                    return Some(text);
                }
            }
        }
        match line_in(&self.beginning, number) {
            Some(text) => Some(text),
            None => line_in(&self.questions, number),
        }
    }

    /// Returns the number of steps of each block that are taken before the first: none.
    ///
    /// # Errors
    /// [`AllocError`] if out of memory.
    pub(crate) fn starts(&self, alloc: Global) -> Result<Vec<usize>, AllocError> {
        let mut taken = Vec::new(alloc);
        taken.resize(self.blocks.len(), 0)?;
        Ok(taken)
    }

    /// Returns the names that lines of the blocks give to processes and references.
    ///
    /// # Errors
    /// [`AllocError`] if out of memory.
    pub(crate) fn names(&self, alloc: Global) -> Result<Vec<&'a str>, AllocError> {
        let mut names = Vec::new(alloc);
        for block in &self.blocks {
            for step in block {
                add_name(&mut names, step)?;
            }
        }
        Ok(names)
    }

    /// Reads a plan from the text of a script. Its lines are parts of the text, and read no further.
    ///
    /// # Errors
    /// [`Unread::Bad`] with the first line that can't stand where it does; [`Unread::OutOfMemory`].
    pub fn read(alloc: Global, input: &'a [u8]) -> Result<Plan<'a>, Unread> {
        let mut plan = Plan::new(alloc);
        let (mut part, mut number, mut rest) = (Part::Beginning, 1u64, input);
        while let Some((text, behind)) = split_line(rest) {
            part = plan.take(alloc, part, Numbered { number, text })?;
            number = number.saturating_add(1);
            rest = behind;
        }
        part = plan.take(alloc, part, Numbered { number, text: rest })?;
        let last = if rest.is_empty() {
            number.saturating_sub(1).max(1)
        } else {
            number
        };
        match part {
            Part::Beginning => Err(Unread::Bad(last, PlanFault::NoBlock)),
            Part::Blocks => Err(Unread::Bad(last, PlanFault::NoEnd)),
            Part::Questions => Ok(plan),
        }
    }
}
