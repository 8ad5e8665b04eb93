//! What each queue of a diagram sees, row by row.
ghost use Rattle.std.specs.Prelude.{◌≡◌, ◌==◌, ◌<◌, ◌^◌, ℕ, IfOk, OnOk, vec_len};
ghost use Rattle.diagram.specs.Queues.{Seen, after_row, changed, given_up, losing, sending, sent_at, sent_one, seen_at, seen_of, nothing, taking, took, traffic_of};

use crate::rows::{Mark, Row};
use std::alloc::{AllocError, Global};

/// Where a mark stands.
#[derive(Clone, Copy)]
pub(crate) struct Place {
    pub(crate) row: usize,
    pub(crate) mark: usize,
}

/// What a queue has seen: the places of the items that were sent on it, the rows that took one, and the
/// row that gave it up.
#[derive(Drop)]
pub(crate) struct Traffic {
    pub(crate) sent: Vec<Place>,
    pub(crate) taken: Vec<usize>,
    pub(crate) lost: Option<usize>,
}

impl Traffic {
    fn new(alloc: Global) -> Traffic
        ensures { seen_of result ≡ nothing }
    {
        Traffic {
            sent: Vec::new(alloc),
            taken: Vec::new(alloc),
            lost: None,
        }
    }

    // A row takes the first item that is on its way, if one is.
    fn take(&mut self, row: usize) -> Result<(), AllocError>
        ensures { OnOk result (seen_of self.new ≡ took row (seen_of self.old)) }
    {
        if self.lost.is_none() && self.taken.len() < self.sent.len() {
            self.taken.push(row)?;
        }
        Ok(())
    }

    fn send(&mut self, place: Place) -> Result<(), AllocError>
        ensures { OnOk result (seen_of self.new ≡ sent_at place.row place.mark (seen_of self.old)) }
    {
        self.sent.push(place)?;
        Ok(())
    }

    fn give_up(&mut self, row: usize)
        ensures { seen_of self.new ≡ given_up row (seen_of self.old) }
    {
        if self.lost.is_none() {
            self.lost = Some(row);
        }
    }
}

// There is a traffic of the queue from then on.
fn make_room(alloc: Global, table: &mut Vec<Traffic>, queue: usize) -> Result<(), AllocError>
    requires { queue < 2 ^ 32 }
    ensures room { OnOk result (queue < vec_len table.new) }
    ensures same { OnOk result ((q : ℕ) → seen_at table.new.items q ≡ seen_at table.old.items q) }
{
    'grow: while table.len() <= queue {
        table.push(Traffic::new(alloc))?;
    }
    Ok(())
}

fn take(
    alloc: Global,
    table: &mut Vec<Traffic>,
    row: usize,
    queue: Option<u32>,
) -> Result<(), AllocError>
    ensures { OnOk result ((q : ℕ) → seen_at table.new.items q ≡ taking q row queue (seen_at table.old.items q)) }
{
    if let Some(queue) = queue {
        let queue = queue as usize;
        make_room(alloc, table, queue)?;
        table[queue].take(row)?;
    }
    Ok(())
}

// A mark at a place, where it is an item.
fn send(
    alloc: Global,
    table: &mut Vec<Traffic>,
    place: Place,
    mark: &Mark,
) -> Result<(), AllocError>
    ensures { OnOk result ((q : ℕ) → seen_at table.new.items q ≡ sent_one q place.row place.mark mark.now (seen_at table.old.items q)) }
{
    match mark {
        Mark::Note(_) => Ok(()),
        Mark::Sent(item) => {
            let queue = item.queue as usize;
            make_room(alloc, table, queue)?;
            table[queue].send(place)
        }
    }
}

fn send_all(
    alloc: Global,
    table: &mut Vec<Traffic>,
    row: usize,
    marks: &[Mark],
) -> Result<(), AllocError>
    ensures { OnOk result ((q : ℕ) → seen_at table.new.items q ≡ sending q row 0 marks.now (seen_at table.old.items q)) }
{
    for (mark, it) in marks.iter().enumerate() {
        send(alloc, table, Place { row, mark }, it)?;
    }
    Ok(())
}

fn give_up(
    alloc: Global,
    table: &mut Vec<Traffic>,
    row: usize,
    queue: u32,
) -> Result<(), AllocError>
    ensures { OnOk result ((q : ℕ) → seen_at table.new.items q ≡ changed (given_up row) (queue == q) (seen_at table.old.items q)) }
{
    let queue = queue as usize;
    make_room(alloc, table, queue)?;
    table[queue].give_up(row);
    Ok(())
}

fn give_up_all(
    alloc: Global,
    table: &mut Vec<Traffic>,
    row: usize,
    queues: &[u32],
) -> Result<(), AllocError>
    ensures { OnOk result ((q : ℕ) → seen_at table.new.items q ≡ losing q row queues.now (seen_at table.old.items q)) }
{
    for queue in queues {
        give_up(alloc, table, row, *queue)?;
    }
    Ok(())
}

fn pass(alloc: Global, table: &mut Vec<Traffic>, at: usize, row: &Row) -> Result<(), AllocError>
    ensures { OnOk result ((q : ℕ) → seen_at table.new.items q ≡ after_row q at row.now (seen_at table.old.items q)) }
{
    take(alloc, table, at, row.took)?;
    send_all(alloc, table, at, &row.marks)?;
    give_up_all(alloc, table, at, &row.gave_up)
}

/// What each queue sees of the rows.
///
/// # Errors
/// Where memory is wanting.
pub(crate) fn all_traffic(alloc: Global, rows: &[Row]) -> Result<Vec<Traffic>, AllocError>
    ensures { IfOk result (λ table. (q : ℕ) → seen_at table.items q ≡ traffic_of q rows.now) }
{
    let mut table = Vec::new(alloc);
    for (at, row) in rows.iter().enumerate() {
        pass(alloc, &mut table, at, row)?;
    }
    Ok(table)
}
