//! The frames in flight between nodes.
ghost use Rattle.std.specs.Prelude.{◌≡◌, ◌++◌, ◌∷◌, [], IfOk, List, OnErr, OnOk, T, if◌then◌else◌};
ghost use Rattle.std.specs.FinMap.{is_sorted};
ghost use Rattle.std.specs.Option.{option_copied};
ghost use Rattle.std.specs.Ordering.{eq_by_cmp};
ghost use Rattle.dist_model.specs.Names.{Name, place_cmp};
ghost use Rattle.erl_names.specs.Order.{name_cmp, trunk_cmp};
ghost use Rattle.erl_names.specs.declared.trunk.TrunkId.{TrunkId as TheTrunk};
ghost use Rattle.node_frames.specs.Frames.{Framed};
ghost use Rattle.world_core.specs.Lists.{HoldsAll, at, behind_first, first_of, line_to, nothing_between};
ghost use Rattle.node_core.specs.SentAt.{one_at};

use crate::line::Line;
use crate::queue::Queue;
use erl_names::{NodeName, TrunkId};
use erl_term::Pid;
use node_frames::Frame;
use sorted_map::SortedMap;
use std::alloc::{AllocError, Global};
use std::marker::Model;

/// The frames in flight between the nodes of a world: to each node on each of its connections, the first to
/// come first. Contracts see the entries, by node and by connection. (Reference Manual, Processes, Delivery
/// of Signals.)
#[derive(Drop)]
pub struct Lists {
    lines: SortedMap<NodeName, Line>,
}

impl Model for Lists {
    ghost use Rattle.std.specs.Coded.{coded×, coded_list, coded_ℕ};
    ghost use Rattle.world_core.specs.Lists.{Lines};
    ghost use Rattle.world_core.specs.contracts.line.Line as line;

    ghost Value = { Lines };

    ghost coded = { coded_list (coded× (coded_list coded_ℕ) line.the_row.coded) };

    ghost view = { λ l. l.lines.entries };
}

// Appends a copy of the entry of a node, whose name comes behind the others.
fn push_copy(
    alloc: Global,
    lines: &mut SortedMap<NodeName, Line>,
    to: &NodeName,
    line: &Line,
) -> Result<(), AllocError>
    requires { T (is_sorted name_cmp (lines.old.entries ++ (to.now, line.now) ∷ [])) }
    ensures { OnOk result (lines.new.entries ≡ lines.old.entries ++ (to.now, line.now) ∷ []) }
{
    lines.push(to.clone()?, line.copy(alloc)?)
}

impl Lists {
    /// Nothing travels. Takes no memory.
    pub fn new(alloc: Global) -> Lists
        ensures { result ≡ [] }
    {
        Lists {
            lines: SortedMap::new(alloc),
        }
    }

    /// Returns a copy with the same frames in flight.
    ///
    /// # Errors
    /// [`AllocError`] if out of memory.
    pub fn copy(&self, alloc: Global) -> Result<Lists, AllocError>
        ensures { IfOk result (λ copy. copy ≡ self.now) }
    {
        let mut lines = SortedMap::new(alloc);
        lines.reserve(self.lines.entries().len())?;
        for (to, line) in self.lines.entries() {
            push_copy(alloc, &mut lines, to, line)?;
        }
        Ok(Lists { lines })
    }

    /// Returns the frames that travel to a node, by connection, in the order of connections. A connection
    /// has an entry only while something travels on it. Takes no memory.
    pub fn line(&self, to: &NodeName) -> &[(TrunkId, Queue)]
        ensures line { result.now ≡ line_to self.now to.now }
        ensures sorted { T (is_sorted trunk_cmp result.now) }
        ensures full { HoldsAll result.now }
    {
        match self.lines.get(to) {
            Some(line) => line.entries(),
            None => &[],
        }
    }

    /// Returns the next frame on a connection to a node. Allocates nothing.
    pub fn first(&self, trunk: &TrunkId, to: &NodeName) -> Option<&Frame>
        ensures { option_copied result ≡ first_of (at self.now trunk.now to.now) }
    {
        self.lines.get(to)?.queue(trunk)?.first()
    }

    /// Returns true if no signal of one of two processes to the other is in flight on a connection to a
    /// node. Allocates nothing.
    pub fn has_nothing_between(&self, trunk: &TrunkId, to: &NodeName, p: &Pid, q: &Pid) -> bool
        ensures { result ≡ nothing_between p.now q.now (at self.now trunk.now to.now) }
    {
        let Some(line) = self.lines.get(to) else {
            return true;
        };
        match line.queue(trunk) {
            Some(queue) => queue.has_nothing_between(p, q),
            None => true,
        }
    }

    /// Sends a frame on a connection to a node: it comes behind the frames in flight there already.
    ///
    /// # Errors
    /// [`AllocError`] if out of memory. Then the frames in flight are as they were.
    pub(crate) fn push(
        &mut self,
        alloc: Global,
        trunk: &TrunkId,
        to: &NodeName,
        frame: Frame,
    ) -> Result<(), AllocError>
        ensures ok { OnOk result ((t : TheTrunk) (x : Name) → at self.new t x ≡ at self.old t x ++ one_at (t, x) (trunk.now, to.now) frame) }
        ensures err { OnErr result ((t : TheTrunk) (x : Name) → at self.new t x ≡ at self.old t x) }
    {
        match self.lines.change(to, Line::new(alloc)) {
            Some(mut line) => {
                let pushed = line.push(alloc, trunk, frame);
                drop(self.lines.change(to, line));
                pushed
            }
            None => {
                let mut line = Line::new(alloc);
                line.push(alloc, trunk, frame)?;
                drop(self.lines.insert(to.clone()?, line)?);
                Ok(())
            }
        }
    }

    /// Drops the next frame on a connection to a node, which has come, if there is one. Allocates nothing.
    pub fn drop_first(&mut self, alloc: Global, trunk: &TrunkId, to: &NodeName)
        ensures { (t : TheTrunk) (x : Name) → at self.new t x ≡ (if eq_by_cmp place_cmp (t, x) (trunk.now, to.now) then behind_first (at self.old t x) else at self.old t x) }
    {
        if let Some(mut line) = self.lines.change(to, Line::new(alloc)) {
            line.drop_first(alloc, trunk);
            drop(self.lines.change(to, line));
        }
    }

    /// Drops all frames that travel on a connection to a node. Takes no memory.
    pub fn drop_queue(&mut self, alloc: Global, trunk: &TrunkId, to: &NodeName)
        ensures { (t : TheTrunk) (x : Name) → at self.new t x ≡ (if eq_by_cmp place_cmp (t, x) (trunk.now, to.now) then [] else at self.old t x) }
    {
        if let Some(mut line) = self.lines.change(to, Line::new(alloc)) {
            line.drop_queue(trunk);
            drop(self.lines.change(to, line));
        }
    }

    /// Takes back the frame that was sent last on a connection to a node. Allocates nothing.
    pub(crate) fn drop_last(&mut self, alloc: Global, trunk: &TrunkId, to: &NodeName)
        ensures { (rest : TheTrunk → Name → List Framed) (frame : Framed) →
            ((t : TheTrunk) (x : Name) → at self.old t x ≡ rest t x ++ one_at (t, x) (trunk.now, to.now) frame) →
            (t : TheTrunk) (x : Name) → at self.new t x ≡ rest t x }
    {
        if let Some(mut line) = self.lines.change(to, Line::new(alloc)) {
            line.drop_last(alloc, trunk);
            drop(self.lines.change(to, line));
        }
    }
}
