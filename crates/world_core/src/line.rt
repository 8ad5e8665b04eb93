//! The frames in flight to one node.
ghost use Rattle.std.specs.Prelude.{◌≡◌, ◌++◌, ◌∷◌, [], IfOk, List, OnErr, OnOk, T, if◌then◌else◌};
ghost use Rattle.std.specs.FinMap.{find, is_sorted};
ghost use Rattle.std.specs.Option.{option_copied};
ghost use Rattle.std.specs.Ordering.{eq_by_cmp};
ghost use Rattle.erl_names.specs.Order.{trunk_cmp};
ghost use Rattle.erl_names.specs.declared.trunk.TrunkId.{TrunkId as TheTrunk};
ghost use Rattle.node_frames.specs.Frames.{Framed};
ghost use Rattle.world_core.specs.Lists.{HoldsAll, behind_first, in_line, with_queue};

use crate::queue::Queue;
use erl_names::TrunkId;
use node_frames::Frame;
use sorted_map::SortedMap;
use std::alloc::{AllocError, Global};
use std::marker::Model;
use std::mem;

/// The frames that travel to a node, by the connection on which they travel. A connection has an entry
/// only while something travels on it. Contracts see the entries.
#[derive(Drop)]
pub(crate) struct Line {
    queues: SortedMap<TrunkId, Queue>,
    // An empty queue, with the memory of one that became empty.
    spare: Queue,
}

impl Model for Line {
    ghost use Rattle.std.specs.Coded.{coded×, coded_list};
    ghost use Rattle.erl_names.specs.contracts.trunk.TrunkId as trunk;
    ghost use Rattle.node_frames.specs.contracts.frame.Frame as frame;
    ghost use Rattle.std.specs.Prelude.{◌≡◌, []};
    ghost use Rattle.world_core.specs.Lists.{HoldsAll, Line as TheLine};

    ghost Value = { TheLine };

    ghost coded = { coded_list (coded× trunk.the_row.coded (coded_list frame.the_row.coded)) };

    ghost view = { λ l. l.queues.entries };

    ghost invariant = { λ l. HoldsAll l.queues.entries × (l.spare ≡ []) };
}

// Puts a queue in place of the one on its connection. If it is empty, takes the entry out and keeps the
// queue as the spare.
fn put_back(
    queues: &mut SortedMap<TrunkId, Queue>,
    spare: &mut Queue,
    trunk: &TrunkId,
    queue: Queue,
)
    ensures queues { queues.new.entries ≡ with_queue trunk.now queue queues.old.entries }
    ensures spare { spare.old ≡ [] → spare.new ≡ [] }
{
    if queue.first().is_some() {
        drop(queues.change(trunk, queue));
    } else {
        drop(queues.remove(trunk));
        drop(mem::replace(spare, queue));
    }
}

// Appends a copy of an entry, whose connection comes behind the others.
fn push_copy(
    alloc: Global,
    queues: &mut SortedMap<TrunkId, Queue>,
    trunk: &TrunkId,
    queue: &Queue,
) -> Result<(), AllocError>
    requires { T (is_sorted trunk_cmp (queues.old.entries ++ (trunk.now, queue.now) ∷ [])) }
    ensures { OnOk result (queues.new.entries ≡ queues.old.entries ++ (trunk.now, queue.now) ∷ []) }
{
    queues.push(trunk.clone()?, queue.copy(alloc)?)
}

impl Line {
    /// Nothing. Takes no memory.
    pub(crate) fn new(alloc: Global) -> Line
        ensures { result ≡ [] }
    {
        Line {
            queues: SortedMap::new(alloc),
            spare: Queue::new(alloc),
        }
    }

    /// Returns a copy with the same entries.
    pub(crate) fn copy(&self, alloc: Global) -> Result<Line, AllocError>
        ensures { IfOk result (λ copy. copy ≡ self.now) }
    {
        let mut queues = SortedMap::new(alloc);
        queues.reserve(self.entries().len())?;
        for (trunk, queue) in self.entries() {
            push_copy(alloc, &mut queues, trunk, queue)?;
        }
        Ok(Line {
            queues,
            spare: Queue::new(alloc),
        })
    }

    /// The entries, in the order of the connections.
    pub(crate) fn entries(&self) -> &[(TrunkId, Queue)]
        ensures entries { result.now ≡ self.now }
        ensures sorted { T (is_sorted trunk_cmp self.now) }
        ensures full { HoldsAll self.now }
    {
        self.queues.entries()
    }

    /// Returns the queue of a connection, if something travels on it.
    pub(crate) fn queue(&self, trunk: &TrunkId) -> Option<&Queue>
        ensures { option_copied result ≡ find trunk_cmp trunk.now self.now }
    {
        self.queues.get(trunk)
    }

    /// One frame more on a connection, behind the others.
    pub(crate) fn push(
        &mut self,
        alloc: Global,
        trunk: &TrunkId,
        frame: Frame,
    ) -> Result<(), AllocError>
        ensures ok { OnOk result ((t : TheTrunk) → in_line self.new t ≡ in_line self.old t ++ (if eq_by_cmp trunk_cmp t trunk.now then frame ∷ [] else [])) }
        ensures err { OnErr result ((t : TheTrunk) → in_line self.new t ≡ in_line self.old t) }
    {
        match self.queues.change(trunk, Queue::new(alloc)) {
            Some(mut queue) => {
                let pushed = queue.push(frame);
                put_back(&mut self.queues, &mut self.spare, trunk, queue);
                pushed
            }
            None => {
                let mut queue = mem::replace(&mut self.spare, Queue::new(alloc));
                queue.push(frame)?;
                drop(self.queues.insert(trunk.clone()?, queue)?);
                Ok(())
            }
        }
    }

    /// The first on a connection is taken out, if there is one.
    pub(crate) fn drop_first(&mut self, alloc: Global, trunk: &TrunkId)
        ensures { (t : TheTrunk) → in_line self.new t ≡ (if eq_by_cmp trunk_cmp t trunk.now then behind_first (in_line self.old t) else in_line self.old t) }
    {
        if let Some(mut queue) = self.queues.change(trunk, Queue::new(alloc)) {
            queue.drop_first();
            put_back(&mut self.queues, &mut self.spare, trunk, queue);
        }
    }

    /// The last on a connection is taken out, if there is one.
    pub(crate) fn drop_last(&mut self, alloc: Global, trunk: &TrunkId)
        ensures { (rest : TheTrunk → List Framed) (frame : Framed) →
            ((t : TheTrunk) → in_line self.old t ≡ rest t ++ (if eq_by_cmp trunk_cmp t trunk.now then frame ∷ [] else [])) →
            (t : TheTrunk) → in_line self.new t ≡ rest t }
    {
        if let Some(mut queue) = self.queues.change(trunk, Queue::new(alloc)) {
            queue.drop_last();
            put_back(&mut self.queues, &mut self.spare, trunk, queue);
        }
    }

    /// Takes the entry of a connection out, if there is one.
    pub(crate) fn drop_queue(&mut self, trunk: &TrunkId)
        ensures { (t : TheTrunk) → in_line self.new t ≡ (if eq_by_cmp trunk_cmp t trunk.now then [] else in_line self.old t) }
    {
        drop(self.queues.remove(trunk));
    }
}
