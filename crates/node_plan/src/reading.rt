//! The queries of a node and its processes.
ghost use Rattle.std.specs.Prelude.{◌≡◌, ◌<◌, IfNone, IfSome, Some, T, false, map, true};
ghost use Rattle.std.specs.FinMap as fm;
ghost use Rattle.std.specs.Option.{is_some, option_copied, option_map};
ghost use Rattle.std.specs.Ordering.{is_lt};
ghost use Rattle.sorted_map.specs.Entries.{next};
ghost use Rattle.dist_model.specs.Handshake.{identity};
ghost use Rattle.dist_model.specs.Losses.{any_side};
ghost use Rattle.dist_model.specs.Names.{pair_cmp, same_name};
ghost use Rattle.dist_model.specs.Naming.{name_of};
ghost use Rattle.dist_model.specs.Sides.{is_gone, is_losing};
ghost use Rattle.erl_names.specs.Ids.{pid_of};
ghost use Rattle.erl_term.specs.Order.{pid_cmp};
ghost use Rattle.erl_term.specs.declared.term.Pid.{Pid as ThePid};
ghost use Rattle.link_core.specs.declared.end.End.{End as TheEnd};
ghost use Rattle.node_tables.specs.Passing.{passes};
ghost use Rattle.node_tables.specs.Standings.{entry_of, is_settled, side_of, state_of};
ghost use Rattle.dist_model.specs.Node as model;
ghost use Rattle.dist_model.specs.World.{first_of as first_in};
ghost use Rattle.node_frames.specs.Sendable.{is_sendable};
ghost use Rattle.node_tables.specs.Lives.{life_of};
ghost use Rattle.node_plan.specs.OwnList.{own_item};
ghost use Rattle.node_plan.specs.Seen.{seen};

use crate::node::Node;
use conn_core::Side;
use erl_control::Signal;
use erl_handshake::Identity;
use erl_names::{Mint, NodeName, TrunkId};
use erl_term::{Atom, Pid};
use link_core::End;
use monitor_core::{Watchers, Watches};
use node_frames::same_name;
use node_tables::{FoundLink, Life, Which};
use std::collections::VecDeque;

impl Node {
    /// Returns the name of the node.
    pub fn name(&self) -> &NodeName
        ensures { result.now ≡ (seen self.now).mint.name }
    {
        self.incarnation.mint().name()
    }

    /// Returns the mint of its incarnation.
    pub fn mint(&self) -> &Mint
        ensures { result.now ≡ (seen self.now).mint }
    {
        self.incarnation.mint()
    }

    /// Returns true if the node runs.
    pub fn is_up(&self) -> bool
        ensures { result ≡ (seen self.now).up }
    {
        self.incarnation.is_up()
    }

    /// Returns the identity by which the node introduces itself. (ERTS User's Guide, Distribution Protocol,
    /// Distribution Handshake.)
    pub fn identity(&self) -> &Identity
        ensures { result.now ≡ identity (seen self.now) }
    {
        &self.own
    }

    /// Returns the number of connections that it has ever dialed.
    pub fn dialed(&self) -> u64
        ensures { result ≡ (seen self.now).dialed }
    {
        self.dialed
    }

    /// Returns the side of the connection `trunk`. A side that is gone may stand for several connections, so
    /// its own `trunk` may be another one that is gone.
    pub fn side(&self, trunk: &TrunkId) -> Option<&Side>
        ensures side { option_map side_of (option_copied result) ≡ fm.get (seen self.now).sides trunk.now }
        ensures trunk { IfSome (option_copied result) (λ side. is_gone (state_of side.standing) ≡ false → side.trunk ≡ trunk.now) }
        ensures settled { IfSome (option_copied result) (λ side. is_settled side.standing ≡ true) }
    {
        self.sides.get(trunk)
    }

    /// Returns the first side towards `peer` that passes `which`.
    pub fn first_towards(&self, peer: &Atom, which: Which) -> Option<&Side>
        ensures { option_map entry_of (option_copied result) ≡ model.side_where (passes which) peer.now (fm.entries (seen self.now).sides) }
    {
        self.sides.first_towards(peer, which)
    }

    /// Returns the first side that is losing: its connection is lost, and its records aren't swept yet.
    pub fn first_losing(&self) -> Option<&Side>
        ensures { option_map entry_of (option_copied result) ≡ any_side is_losing (fm.entries (seen self.now).sides) }
    {
        self.sides.first_losing()
    }

    /// Returns the first signal in flight from the node to itself.
    pub fn first_local(&self) -> Option<&Signal>
        ensures first { first_in (seen self.now).local ≡ option_map own_item (option_copied result) }
        ensures sendable { IfSome (option_copied result) (λ signal. is_sendable signal ≡ true) }
    {
        self.local.front()
    }

    /// Returns the signals in flight from the node to itself, the first to come first. (Reference Manual,
    /// Processes, Delivery of Signals.)
    pub fn local(&self) -> &VecDeque<Signal>
        ensures { map own_item result.now.items ≡ (seen self.now).local }
    {
        &self.local
    }

    /// Returns the monitors that its processes own.
    pub fn watches(&self) -> &Watches
        ensures { result.now.monitors ≡ (seen self.now).watches }
    {
        &self.watches
    }

    /// Returns the monitors that others have of its processes.
    pub fn watchers(&self) -> &Watchers
        ensures { result.now.monitors ≡ (seen self.now).registered }
    {
        &self.watchers
    }

    /// Returns the life of a process, living or ended. [`None`] if there is none.
    pub fn life(&self, process: &Pid) -> Option<&Life>
        ensures { fm.get (seen self.now).lives process.now ≡ option_map life_of (option_copied result) }
    {
        self.incarnation.life(process)
    }

    /// Returns true if a process is living here.
    pub fn is_living(&self, process: &Pid) -> bool
        ensures { result ≡ model.living (seen self.now) process.now }
    {
        self.incarnation.is_living(process)
    }

    /// Returns the process that has a name. (Reference Manual, Processes, Registered Processes.)
    pub fn holder(&self, name: &Atom) -> Option<&Pid>
        ensures { option_copied result ≡ fm.get (seen self.now).names name.now }
    {
        self.names.holder(name)
    }

    /// Returns the registered name of a process, if it has one. (Reference Manual, Processes, Registered
    /// Processes.)
    pub fn name_of(&self, process: &Pid) -> Option<&Atom>
        ensures { option_copied result ≡ option_map (λ entry. entry.0) (name_of (seen self.now).names process.now) }
    {
        self.names.name_of(process)
    }

    /// Returns true if a process has a name. (Reference Manual, Processes, Registered Processes.)
    pub fn has_name(&self, process: &Pid) -> bool
        ensures { result ≡ is_some (name_of (seen self.now).names process.now) }
    {
        self.names.name_of(process).is_some()
    }

    /// Returns true if no process of the node has had the pid `process`. (Reference Manual, Processes.)
    pub fn is_stranger(&self, process: &Pid) -> bool
        ensures { result ≡ model.is_stranger (seen self.now) process.now }
    {
        let mint = self.mint();
        !same_name(&process.node, mint.name().atom())
            || mint.creation().number() < process.creation
            || (process.creation == mint.creation().number() && mint.pids() < process.id)
            || process.id == 0
            || process.serial != 0
    }

    /// Returns true if a process is living here and traps exits. (Reference Manual, Processes,
    /// Receiving Exit Signals.)
    pub fn traps(&self, process: &Pid) -> bool
        ensures { result ≡ model.traps (seen self.now) process.now }
    {
        self.incarnation.traps(process)
    }

    /// Returns the end that a process has of its link to a partner.
    pub fn end(&self, process: &Pid, partner: &Pid) -> End
        ensures { result ≡ model.end_of (seen self.now) process.now partner.now }
    {
        self.incarnation.end(process, partner)
    }

    /// Returns the connection that is up to a peer, if there is one.
    pub fn route(&self, peer: &Atom) -> Option<&TrunkId>
        ensures { option_copied result ≡ model.route (seen self.now) peer.now }
    {
        self.sides.route(peer)
    }

    /// Returns the first link to a process at `node`, of the processes here whose ids are greater than
    /// `after`, in the order of the ids. Those before it have no links to `node`. (Reference Manual,
    /// Processes, Links.)
    pub fn first_link_towards(&self, node: &Atom, after: u32) -> Option<FoundLink<'_>>
        requires { (seen self.now).up ≡ true }
        ensures found { let m = seen self.now in IfSome result (λ f. fm.get m.ends (pid_of m.mint f.id, f.partner.now) ≡ Some f.end) }
        ensures towards { IfSome result (λ f. same_name f.partner.now.node node.now ≡ true) }
        ensures behind { IfSome result (λ f. after < f.id) }
        // no link before it is to a process at the node
        ensures least { let m = seen self.now in IfSome result (λ f. (p q : ThePid) (e : TheEnd) → fm.get m.ends (p, q) ≡ Some e → after < p.id
            → same_name q.node node.now ≡ true → is_lt (pair_cmp (p, q) (pid_of m.mint f.id, f.partner.now)) ≡ false) }
        ensures none { let m = seen self.now in IfNone result ((p q : ThePid) (e : TheEnd) → fm.get m.ends (p, q) ≡ Some e → after < p.id → same_name q.node node.now ≡ false) }
    {
        self.incarnation.first_link_towards(node, after)
    }

    /// Returns true if a process has a link to one at `node` that is behind `partner` in the order of pids.
    /// Takes time logarithmic in the number of its links. (Reference Manual, Processes, Links.)
    pub fn has_link_behind(&self, process: &Pid, node: &Atom, partner: &Pid) -> bool
        ensures has { let m = seen self.now in result ≡ true → (q : ThePid) × (e : TheEnd) × (fm.get m.ends (process.now, q) ≡ Some e)
            × (same_name q.node node.now ≡ true) × (is_lt (pid_cmp partner.now q) ≡ true) }
        ensures none { let m = seen self.now in result ≡ false → (q : ThePid) (e : TheEnd) → fm.get m.ends (process.now, q) ≡ Some e
            → is_lt (pid_cmp partner.now q) ≡ true → same_name q.node node.now ≡ false }
    {
        self.incarnation.has_link_behind(process, node, partner)
    }

    /// Returns the first partner of a process behind the partner `behind`, in the order of the partners, and
    /// the end towards it. [`None`] if there is none, or if the process isn't living. Takes time logarithmic
    /// in the number of its links.
    pub fn next_link(&self, process: &Pid, behind: Option<&Pid>) -> Option<&(Pid, End)>
        ensures link { option_copied result ≡ next pid_cmp (option_copied behind.entry) (model.ends_of (seen self.now) process.now) }
        ensures sorted { T (fm.is_sorted pid_cmp (model.ends_of (seen self.now) process.now)) }
    {
        self.incarnation.next_link(process, behind)
    }
}
