//! Where lanes and lines stand in a drawing, in pixels.

use diagram::{Arrow, Diagram, End, Lane, Layout};

// The room at the left, for the words of a row.
const LEFT: u64 = 340;
// The height of a line, and the room between two rows.
pub(crate) const LINE: u64 = 22;

const GAP: u64 = 10;
// The height of a lane's name, and of each line below it.
const HEAD: u64 = 56;

pub(crate) const UNDER: u64 = 15;
// The number of these lines for which there is room.
pub(crate) const MOST_UNDER: usize = 12;
// The names of the lanes stand again above each so many rows.
const ROWS_BELOW_HEAD: usize = 40;

/// The room of a lane: its width and that of the box of its name in pixels, and the most characters of
/// words there.
#[derive(Clone, Copy)]
pub(crate) struct Column {
    width: u64,
    pub(crate) head: u64,
    /// Of a lane's name.
    pub(crate) name: usize,
    /// Of a line below it.
    pub(crate) under: usize,
    /// Of a note.
    pub(crate) note: usize,
    /// Of the name of an item, and of that with its fate.
    pub(crate) label: usize,
    pub(crate) whole_label: usize,
}

const WIDE: Column = Column {
    width: 270,
    head: 180,
    name: 20,
    under: 35,
    note: 35,
    label: 24,
    whole_label: 30,
};

const NARROW: Column = Column {
    width: 160,
    head: 148,
    name: 16,
    under: 25,
    note: 19,
    label: 19,
    whole_label: 23,
};

// The most lanes that are wide.
const MOST_WIDE: usize = 6;

/// Where lanes and lines stand in a drawing.
#[derive(Clone, Copy)]
pub(crate) struct Frame {
    pub(crate) column: Column,
    lanes: usize,
    rows: usize,
    /// The number of the first rows that aren't drawn.
    hidden: usize,
    /// The number of the items that come from the upper edge.
    above: u64,
    /// The height of the names of the lanes, with the words below them.
    head: u64,
}

// Returns the greatest number of lines that stand below the name of a lane.
fn most_under(lanes: &[Lane]) -> usize {
    let mut most = 0;
    for lane in lanes {
        most = lane.under.len().max(most);
    }
    most.min(MOST_UNDER)
}

fn column_of(lanes: usize) -> Column {
    if lanes > MOST_WIDE { NARROW } else { WIDE }
}

// Returns true if an arrow ends above the rows that are drawn.
fn ends_above(arrow: Arrow, hidden: usize) -> bool {
    match arrow.end {
        End::Taken(row) | End::Lost(row) => row < hidden,
        End::OnItsWay => false,
    }
}

// Returns true if an arrow begins above the rows that are drawn, and doesn't end there.
fn comes_from_above(arrow: Arrow, hidden: usize) -> bool {
    arrow.row < hidden && !ends_above(arrow, hidden)
}

// Counts the arrows that come from above.
fn count_above(arrows: &[Arrow], hidden: usize) -> u64 {
    arrows
        .iter()
        .filter(|arrow| comes_from_above(**arrow, hidden))
        .count() as u64
}

// Counts those of all queues.
fn count_all_above(layout: &Layout, hidden: usize) -> u64 {
    let mut count: u64 = 0;
    for arrows in &layout.arrows {
        count = count.saturating_add(count_above(arrows, hidden));
    }
    count
}

/// Returns the frame of a diagram.
pub(crate) fn frame_of(diagram: &Diagram, layout: &Layout) -> Frame {
    let under = most_under(&diagram.lanes) as u64;
    Frame {
        column: column_of(diagram.lanes.len()),
        lanes: diagram.lanes.len(),
        rows: diagram.rows.len(),
        hidden: diagram.hidden,
        above: count_all_above(layout, diagram.hidden),
        head: under.saturating_mul(UNDER).saturating_add(HEAD + 30),
    }
}

// Returns the line on which a row begins.
fn top_of(layout: &Layout, row: usize) -> u64 {
    layout.tops.get(row).copied().unwrap_or(0) as u64
}

impl Frame {
    /// Returns the middle of a lane.
    pub(crate) fn lane(self, lane: usize) -> u64 {
        (lane as u64)
            .saturating_mul(self.column.width)
            .saturating_add(LEFT + self.column.width / 2)
    }

    /// Returns true if no lane is at the right of a lane.
    pub(crate) fn is_last(self, lane: usize) -> bool {
        lane.saturating_add(1) == self.lanes
    }

    /// Returns true if a row isn't drawn.
    pub(crate) fn is_hidden(self, row: usize) -> bool {
        row < self.hidden
    }

    /// Returns true if an arrow isn't drawn: it ends above the rows that are.
    pub(crate) fn is_over(self, arrow: Arrow) -> bool {
        ends_above(arrow, self.hidden)
    }

    /// Returns true if an arrow comes from the upper edge.
    pub(crate) fn comes_from_above(self, arrow: Arrow) -> bool {
        comes_from_above(arrow, self.hidden)
    }

    /// Counts the arrows that come from the upper edge.
    pub(crate) fn count_above(self, arrows: &[Arrow]) -> u64 {
        count_above(arrows, self.hidden)
    }

    /// Returns true if any arrow comes from the upper edge.
    pub(crate) fn has_above(self) -> bool {
        self.above > 0
    }

    /// Returns the place of an arrow that comes from the upper edge, by its number among those.
    pub(crate) fn edge(self, number: u64) -> u64 {
        number
            .saturating_mul(LINE)
            .saturating_add(self.head)
            .saturating_add(LINE / 2)
    }

    /// Returns the number of times that the names of the lanes stand above a row.
    pub(crate) fn heads(self, row: usize) -> usize {
        let row = row.min(self.rows.saturating_sub(1));
        row.saturating_sub(self.hidden) / ROWS_BELOW_HEAD
    }

    /// Returns the first row below the names of the lanes, which stand above it for the time of this number,
    /// from 0.
    pub(crate) fn row_below(self, head: usize) -> usize {
        head.saturating_mul(ROWS_BELOW_HEAD)
            .saturating_add(self.hidden)
    }

    /// Returns the number of times that the names of the lanes stand in the drawing.
    pub(crate) fn all_heads(self) -> usize {
        self.heads(self.rows).saturating_add(1)
    }

    // Returns the upper end of the first row.
    fn start(self) -> u64 {
        let gap = if self.has_above() { GAP } else { 0 };
        self.above
            .saturating_mul(LINE)
            .saturating_add(self.head)
            .saturating_add(gap)
    }

    /// Returns the upper end of a row, or below the last one the lower end of all.
    pub(crate) fn row(self, layout: &Layout, row: usize) -> u64 {
        let lines = top_of(layout, row).saturating_sub(top_of(layout, self.hidden));
        let gaps = row.saturating_sub(self.hidden) as u64;
        let heads = (self.heads(row) as u64).saturating_mul(self.head);
        lines
            .saturating_mul(LINE)
            .saturating_add(gaps.saturating_mul(GAP))
            .saturating_add(heads)
            .saturating_add(self.start())
    }

    /// Returns the lower end of a row.
    pub(crate) fn end(self, layout: &Layout, row: usize) -> u64 {
        let lines = top_of(layout, row.saturating_add(1)).saturating_sub(top_of(layout, row));
        lines
            .saturating_mul(LINE)
            .saturating_add(self.row(layout, row))
    }

    /// Returns the middle of a line of a row.
    pub(crate) fn line(self, layout: &Layout, row: usize, line: usize) -> u64 {
        (line as u64)
            .saturating_mul(LINE)
            .saturating_add(self.row(layout, row))
            .saturating_add(LINE / 2)
    }

    /// Returns the lower end of the rows.
    pub(crate) fn bottom(self, layout: &Layout) -> u64 {
        self.row(layout, self.rows)
    }

    /// Returns the upper end of the names of the lanes, for the time of this number, from 0.
    pub(crate) fn head(self, layout: &Layout, number: usize) -> u64 {
        if number == 0 {
            return 0;
        }
        self.row(layout, self.row_below(number))
            .saturating_sub(self.head)
    }

    /// Returns the lower end of the names of the lanes that begin at `head`.
    pub(crate) fn below_head(self, head: u64) -> u64 {
        head.saturating_add(self.head)
    }

    pub(crate) fn width(self) -> u64 {
        (self.lanes as u64)
            .saturating_mul(self.column.width)
            .saturating_add(LEFT + 110)
    }

    pub(crate) fn height(self, layout: &Layout) -> u64 {
        self.bottom(layout).saturating_add(40)
    }
}
