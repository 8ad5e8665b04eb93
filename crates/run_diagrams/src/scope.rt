//! The lines of a script whose rows are drawn.
ghost use Rattle.std.specs.Prelude.{◌≡◌};
ghost use Rattle.run_diagrams.specs.Scope.{has_room, hidden_at, part_of, reached};

/// The lines of a script from one to another, both included. Lines count from 1.
#[derive(Clone, Copy, Debug, PartialEq, Eq)]
pub struct LineRange {
    /// The first of the lines.
    pub first: u64,
    /// The last of the lines.
    pub last: u64,
}

impl LineRange {
    /// Returns the range of all lines. It has line 0 too, where no line has run yet.
    pub fn all() -> LineRange
        ensures { result ≡ record { first = 0; last = 18446744073709551615 } }
    {
        LineRange {
            first: 0,
            last: u64::MAX,
        }
    }

    // Returns the part of a script in which a line lies.
    fn part_of(self, line: u64) -> Part
        ensures { result ≡ part_of self line }
    {
        if line < self.first {
            Part::Before
        } else if line > self.last {
            Part::Behind
        } else {
            Part::Within
        }
    }
}

/// A part of a script, beside a range of its lines.
#[derive(Clone, Copy)]
pub(crate) enum Part {
    Before,
    Within,
    Behind,
}

/// The most rows of a diagram that are drawn. Those behind them are counted.
const MOST_ROWS: usize = 10_000;

/// The lines whose rows are drawn, and the part of the script that is being run.
#[derive(Clone, Copy)]
pub(crate) struct Scope {
    lines: LineRange,
    /// The part in which the last line lies that has begun.
    part: Part,
    /// The number of rows when a line began last. It counts for the parts behind the first.
    hidden: usize,
}

impl Scope {
    /// Returns the scope before the first line.
    pub(crate) fn new(lines: LineRange) -> Scope {
        Scope {
            lines,
            part: lines.part_of(0),
            hidden: 0,
        }
    }

    /// Returns true if no line of the range has begun.
    pub(crate) fn is_before(self) -> bool {
        match self.part {
            Part::Before => true,
            Part::Within | Part::Behind => false,
        }
    }

    /// Returns the number of the first of so many rows that aren't drawn.
    pub(crate) fn hidden_at(self, rows: usize) -> usize
        ensures { result ≡ hidden_at self rows }
    {
        match self.part {
            Part::Before => rows,
            Part::Within | Part::Behind => self.hidden,
        }
    }

    /// Returns the scope when the line of a number begins, at so many rows.
    pub(crate) fn reached(self, line: u64, rows: usize) -> Scope
        ensures { result ≡ reached self line rows }
    {
        Scope {
            lines: self.lines,
            part: self.lines.part_of(line),
            hidden: self.hidden_at(rows),
        }
    }

    /// Returns true if there is room for a row behind so many. Rows that aren't drawn need none.
    pub(crate) fn has_room(self, rows: usize) -> bool
        ensures { result ≡ has_room self rows }
    {
        match self.part {
            Part::Before => true,
            Part::Within => rows.saturating_sub(self.hidden) < MOST_ROWS,
            Part::Behind => false,
        }
    }
}
