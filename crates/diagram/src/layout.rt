//! Where a diagram's rows, marks and arrows stand.
ghost use Rattle.std.specs.Prelude.{◌≡◌, ℕ, IfOk, map};
ghost use Rattle.diagram.specs.Arrows.{arrows_of};
ghost use Rattle.diagram.specs.Layout.{arrows_on};
ghost use Rattle.diagram.specs.Lines.{lines_of, tops_of};
ghost use Rattle.diagram.specs.Lists.{items_of};

use crate::arrows::{Arrow, all_arrows};
use crate::lines::{height, lines, sum};
use crate::queues::all_traffic;
use crate::rows::Row;
use std::alloc::{AllocError, Global};

/// Where a diagram's rows, marks and arrows stand. Lines are counted from the top of the first row.
#[derive(Drop)]
pub struct Layout {
    /// The line on which each row begins, and last the line below all rows.
    pub tops: Vec<usize>,
    /// For each row the line of each of its marks, from 0 in the row.
    pub lines: Vec<Vec<usize>>,
    /// For each queue the arrows of its items, in the order in which these were sent.
    pub arrows: Vec<Vec<Arrow>>,
}

// The rows by their lines.
#[derive(Drop)]
struct Placed {
    tops: Vec<usize>,
    lines: Vec<Vec<usize>>,
}

fn place(alloc: Global, rows: &[Row]) -> Result<Placed, AllocError>
    ensures tops { IfOk result (λ placed. placed.tops.items ≡ tops_of rows.now) }
    ensures lines { IfOk result (λ placed. map items_of placed.lines.items ≡ map lines_of rows.now) }
{
    let mut top = 0;
    let mut tops = Vec::new(alloc);
    let mut all_lines = Vec::new(alloc);
    for row in rows {
        let lines = lines(alloc, row)?;
        let height = height(row, &lines)?;
        tops.push(top)?;
        all_lines.push(lines)?;
        top = sum(top, height)?;
    }
    tops.push(top)?;
    Ok(Placed {
        tops,
        lines: all_lines,
    })
}

/// Where the rows of a diagram stand, their marks, and the arrows of all that is sent.
///
/// # Errors
/// Where memory is wanting.
pub fn lay_out(alloc: Global, rows: &[Row]) -> Result<Layout, AllocError>
    ensures arrows { IfOk result (λ layout. (queue : ℕ) → arrows_on queue layout ≡ arrows_of queue rows.now) }
    ensures tops { IfOk result (λ layout. layout.tops.items ≡ tops_of rows.now) }
    ensures lines { IfOk result (λ layout. map items_of layout.lines.items ≡ map lines_of rows.now) }
{
    let table = all_traffic(alloc, rows)?;
    let arrows = all_arrows(alloc, &table)?;
    let Placed { tops, lines } = place(alloc, rows)?;
    Ok(Layout {
        tops,
        lines,
        arrows,
    })
}
