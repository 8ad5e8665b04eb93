//! Links to processes at another node.
ghost use Rattle.std.specs.Prelude.{◌≡◌, ◌<◌, ◌+◌, None, Some, true, false, IfSome, IfNone, length};
ghost use Rattle.std.specs.FinMap as fm;
ghost use Rattle.std.specs.Ordering.{is_lt};
ghost use Rattle.std.specs.Option.{option_copied};
ghost use Rattle.dist_model.specs.Names.{pair_cmp, same_name};
ghost use Rattle.erl_names.specs.Ids.{pid_of};
ghost use Rattle.erl_term.specs.Order.{pid_cmp};
ghost use Rattle.erl_term.specs.declared.term.Pid.{Pid as ThePid};
ghost use Rattle.link_core.specs.declared.end.End.{End as TheEnd};
ghost use Rattle.node_tables.specs.Held.{ends};
ghost use Rattle.node_tables.specs.Linked.{IsFirstLinked, NoneLinked, link_at, link_behind};

use crate::incarnation::Incarnation;
use crate::life::Life;
use crate::lookup::life_in;
use erl_names::Mint;
use erl_term::{Atom, Pid};
use link_core::End;

/// A link of a process here to a partner at another node.
#[derive(Clone, Copy, Debug)]
pub struct FoundLink<'a> {
    /// The id of the process.
    pub id: u32,
    /// Its partner.
    pub partner: &'a Pid,
    /// The end that it has.
    pub end: End,
}

impl Life {
    /// Returns the first of its links to a process at a node, in the order of the partners.
    pub(crate) fn first_towards(&self, node: &Atom) -> Option<&(Pid, End)>
        ensures { option_copied result ≡ link_at node.now self.now }
    {
        match self {
            Life::Living { ends, .. } => ends.first_towards(node),
            Life::Ended(_) => None,
        }
    }

    // Returns the first of its links to a process at a node, of those behind a partner.
    fn next_towards(&self, node: &Atom, partner: &Pid) -> Option<&(Pid, End)>
        ensures { option_copied result ≡ link_behind partner.now node.now self.now }
    {
        match self {
            Life::Living { ends, .. } => ends.next_towards(node, partner),
            Life::Ended(_) => None,
        }
    }
}

// Returns the place of the first of these processes that is linked to one at a node.
fn first_of(lives: &[Life], node: &Atom) -> Option<usize>
    ensures at { IfSome result (IsFirstLinked node.now lives.now 0) }
    ensures none { IfNone result (NoneLinked node.now lives.now 0 (length lives.now)) }
{
    lives
        .iter()
        .position(|life| life.first_towards(node).is_some())
}

// Returns the place of the first such process from a place on.
fn first_from(lives: &[Life], node: &Atom, from: usize) -> Option<usize>
    ensures at { IfSome result (IsFirstLinked node.now lives.now from) }
    ensures within { IfSome result (λ place. place < length lives.now) }
    ensures none { IfNone result (NoneLinked node.now lives.now from (length lives.now)) }
{
    let rest = lives.get(from..)?;
    let at = first_of(rest, node)?;
    Some(from + at)
}

// Returns the id of the process at a place, counted back from the last: ids are 32 bits wide.
fn id_at(mint: &Mint, place: usize) -> u32
    requires { place < mint.now.pids }
    ensures { result ≡ place + 1 }
{
    let last = mint.pids();
    last - (last as usize - 1 - place) as u32
}

impl Incarnation {
    /// Returns the first link to a process at a node, of the processes here whose ids are greater than `after`,
    /// in the order of the ids. Those that are passed have no links to it. (Reference Manual, Processes,
    /// Links.)
    pub fn first_link_towards(&self, node: &Atom, after: u32) -> Option<FoundLink<'_>>
        requires { self.now.up ≡ true }
        ensures found { IfSome result (λ f. fm.get (ends self.now) (pid_of self.now.mint f.id, f.partner.now) ≡ Some f.end) }
        ensures towards { IfSome result (λ f. same_name f.partner.now.node node.now ≡ true) }
        ensures behind { IfSome result (λ f. after < f.id) }
        // none that would come before it is to one at the node
        ensures least { IfSome result (λ f. (p q : ThePid) (e : TheEnd) → fm.get (ends self.now) (p, q) ≡ Some e → after < p.id
            → same_name q.node node.now ≡ true → is_lt (pair_cmp (p, q) (pid_of self.now.mint f.id, f.partner.now)) ≡ false) }
        ensures none { IfNone result ((p q : ThePid) (e : TheEnd) → fm.get (ends self.now) (p, q) ≡ Some e → after < p.id → same_name q.node node.now ≡ false) }
    {
        let place = first_from(&self.held, node, after as usize)?;
        let (partner, end) = self.held[place].first_towards(node)?;
        Some(FoundLink {
            id: id_at(&self.mint, place),
            partner,
            end: *end,
        })
    }

    /// Returns true if a process has a link to one at a node that is behind `partner` in the order of pids.
    /// Costs the logarithm of its links. (Reference Manual, Processes, Links.)
    pub fn has_link_behind(&self, process: &Pid, node: &Atom, partner: &Pid) -> bool
        ensures has { result ≡ true → (q : ThePid) × (e : TheEnd) × (fm.get (ends self.now) (process.now, q) ≡ Some e)
            × (same_name q.node node.now ≡ true) × (is_lt (pid_cmp partner.now q) ≡ true) }
        ensures none { result ≡ false → (q : ThePid) (e : TheEnd) → fm.get (ends self.now) (process.now, q) ≡ Some e
            → is_lt (pid_cmp partner.now q) ≡ true → same_name q.node node.now ≡ false }
    {
        match life_in(&self.mint, &self.held, process) {
            Some(life) => life.next_towards(node, partner).is_some(),
            None => false,
        }
    }
}
