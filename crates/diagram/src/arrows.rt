//! The arrows of a queue's items.
ghost use Rattle.std.specs.Prelude.{◌≡◌, IfOk, map};
ghost use Rattle.std.specs.Option.{option_copied};
ghost use Rattle.diagram.specs.Arrows.{ends_at, paired, untaken};
ghost use Rattle.diagram.specs.Lists.{items_of};
ghost use Rattle.diagram.specs.Queues.{seen_of};

use crate::queues::{Place, Traffic};
use std::alloc::{AllocError, Global};

/// The arrow of an item: the mark that sent it, and where it ends.
#[derive(Clone, Copy, Debug, PartialEq, Eq)]
pub struct Arrow {
    /// The row in which the item is sent, from 0.
    pub row: usize,
    /// The mark of that row which sends it, from 0.
    pub mark: usize,
    pub end: End,
}

/// Where an arrow ends.
#[derive(Clone, Copy, Debug, PartialEq, Eq)]
pub enum End {
    /// In the row that takes the item.
    Taken(usize),
    /// In the row in which the item is lost, as its queue is given up or has been.
    Lost(usize),
    /// Below all rows: the item is still on its way.
    OnItsWay,
}

// How an item ends that no row takes.
fn untaken(lost: Option<usize>, row: usize) -> End
    ensures { result ≡ untaken lost row }
{
    match lost {
        None => End::OnItsWay,
        Some(at) => End::Lost(at.max(row)),
    }
}

// How an item ends of which it is known which row takes it.
fn end_of(taken: Option<usize>, lost: Option<usize>, row: usize) -> End
    ensures { result ≡ ends_at taken lost row }
{
    match taken {
        Some(at) => End::Taken(at),
        None => untaken(lost, row),
    }
}

/// The arrows of the items of a queue, in the order in which they were sent.
///
/// # Errors
/// Where memory is wanting.
pub(crate) fn arrows(alloc: Global, traffic: &Traffic) -> Result<Vec<Arrow>, AllocError>
    ensures { IfOk result (λ arrows. arrows.items ≡ paired (seen_of traffic.now)) }
{
    let mut arrows = Vec::new(alloc);
    for (i, place) in traffic.sent.iter().enumerate() {
        let Place { row, mark } = *place;
        let end = end_of(traffic.taken.get(i).copied(), traffic.lost, row);
        arrows.push(Arrow { row, mark, end })?;
    }
    Ok(arrows)
}

/// The arrows of the items of each queue.
///
/// # Errors
/// Where memory is wanting.
pub(crate) fn all_arrows(alloc: Global, table: &[Traffic]) -> Result<Vec<Vec<Arrow>>, AllocError>
    ensures { IfOk result (λ queues. map items_of queues.items ≡ map (λ traffic. paired (seen_of traffic)) table.now) }
{
    let mut queues = Vec::new(alloc);
    for traffic in table {
        queues.push(arrows(alloc, traffic)?)?;
    }
    Ok(queues)
}
