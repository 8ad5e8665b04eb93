//! The link records of one process.

ghost use Rattle.std.specs.Prelude.{◌≡◌, ◌≢◌, ◌≤◌, ◌+◌, ◌&&◌, IfOk, OnOk, OnErr, IsOk, Some};
ghost use Rattle.std.specs.FinMap as map;
ghost use Rattle.std.specs.Option.{option_copied};
ghost use Rattle.std.specs.List.{slice_get};
ghost use Rattle.std.specs.Ordering.{nat_cmp, eq_by_cmp, is_lt};
ghost use Rattle.std.specs.Cmp.Lexicographic.{slice_cmp};
ghost use Rattle.sorted_map.specs.Entries.{first_where};
ghost use Rattle.link_core.specs.Table.{linked, link_sent, unlinked, unlink_sent, received, exited, is_active, answered};
ghost use Rattle.link_core.specs.Ends.{end_of, with_end};
ghost use Rattle.erl_term.specs.Order.{pid_cmp};
ghost use Rattle.link_core.specs.Records.{IsLink};

use crate::end::{End, LinkSignal};
use erl_term::{Atom, Pid};
use sorted_map::TreeMap;
use std::alloc::{AllocError, Global};
use std::cmp::Ordering;
use std::marker::Model;

/// The ends of the links of one process, by partner. Contracts see the finite map from pids to
/// ends, in the order of pids, and the room: how many more partners may come without memory. A
/// partner that isn't there has the end [`End::None`].
#[derive(Drop)]
pub struct Ends {
    records: TreeMap<Pid, End>,
}

impl Model for Ends {
    ghost use Rattle.std.specs.FinMap as map;
    ghost use Rattle.link_core.specs.Ends.{Held, held_code};
    ghost use Rattle.link_core.specs.Records.{AreRecords};
    ghost use Rattle.erl_term.specs.contracts.term.Pid as pid;
    ghost use Rattle.link_core.specs.contracts.end.End as end;

    ghost Value = { Held };

    ghost coded = { held_code pid.the_row.coded end.the_row.coded };

    ghost view = { λ a. record { ends = map.from_sorted a.records.entries; room = a.records.room } };

    ghost invariant = { λ a. AreRecords a.records.entries };
}

impl Ends {
    /// No links. Takes no memory.
    pub fn new(alloc: Global) -> Ends
        ensures { result.ends ≡ map.empty }
    {
        Ends {
            records: TreeMap::new(alloc),
        }
    }

    /// Returns a copy with the same ends, and no room. Takes as many steps as there are partners.
    ///
    /// # Errors
    /// If memory runs out.
    pub fn copy(&self, alloc: Global) -> Result<Ends, AllocError>
        ensures { IfOk result (λ copy. copy.ends ≡ self.now.ends) }
    {
        Ok(Ends {
            records: self.records.copy(alloc)?,
        })
    }

    /// Returns the end towards a partner.
    pub fn end(&self, partner: &Pid) -> End
        ensures end { result ≡ end_of self.now.ends partner.now }
        // the end that a partner has, set again, changes nothing
        ensures set_again { with_end self.now.ends partner.now result ≡ self.now.ends }
    {
        self.records.get(partner).copied().unwrap_or(End::None)
    }

    /// Makes room for so many more partners: as many LINKs, made or taken, can't be refused
    /// afterwards.
    ///
    /// # Errors
    /// Where there is no memory for it. Then nothing has changed.
    pub fn reserve(&mut self, additional: usize) -> Result<(), AllocError>
        ensures ends { self.new.ends ≡ self.old.ends }
        ensures room { OnOk result (additional ≤ self.new.room) }
        ensures kept { self.old.room ≤ self.new.room }
        ensures err { OnErr result (self.new ≡ self.old) }
        ensures succeeds { additional ≤ self.old.room → IsOk result }
    {
        self.records.reserve(additional)
    }

    /// Links the process to a partner. Returns the signal to be sent to it, if any. (ERTS
    /// User's Guide, Distribution Protocol, New Link Protocol.)
    ///
    /// # Errors
    /// Where there was no link, and neither room nor memory. Then nothing has changed.
    pub fn link(&mut self, partner: Pid) -> Result<Option<LinkSignal>, AllocError>
        ensures end { let was = end_of self.old.ends partner in
            OnOk result (self.new.ends ≡ with_end self.old.ends partner (linked was)) }
        ensures unchanged { let was = end_of self.old.ends partner in
            linked was ≡ was → self.new.ends ≡ self.old.ends }
        ensures sent { IfOk result (λ sent. sent ≡ link_sent (end_of self.old.ends partner)) }
        ensures room { self.old.room ≤ self.new.room + 1 }
        ensures err { OnErr result (self.new ≡ self.old) }
        ensures only_new { OnErr result (end_of self.old.ends partner ≡ End.None) }
        ensures succeeds { 1 ≤ self.old.room → IsOk result }
    {
        if self.end(&partner) == End::Active {
            return Ok(None);
        }
        self.put(partner, End::Active)?;
        Ok(Some(LinkSignal::Link))
    }

    /// Takes the link to a partner back, under a new unlink id. Returns the signal to
    /// be sent to the partner, if any. Takes no memory. (ERTS User's Guide, Distribution Protocol,
    /// New Link Protocol.)
    pub fn unlink(&mut self, partner: &Pid, id: u64) -> Option<LinkSignal>
        ensures end { let was = end_of self.old.ends partner.now in
            self.new.ends ≡ with_end self.old.ends partner.now (unlinked was id) }
        ensures unchanged { let was = end_of self.old.ends partner.now in
            unlinked was id ≡ was → self.new.ends ≡ self.old.ends }
        ensures room { self.old.room ≤ self.new.room }
        ensures sent { result ≡ unlink_sent (end_of self.old.ends partner.now) id }
    {
        match self.end(partner) {
            End::Active => {
                self.set(partner, End::Pending(id));
                Some(LinkSignal::Unlink(id))
            }
            End::None | End::Pending(_) => None,
        }
    }

    /// LINK came from a partner. (ERTS User's Guide, Distribution Protocol, New Link Protocol.)
    ///
    /// # Errors
    /// Where there was no link, and neither room nor memory. Then nothing has changed.
    pub fn on_link(&mut self, partner: Pid) -> Result<(), AllocError>
        ensures end { let was = end_of self.old.ends partner in
            OnOk result (self.new.ends ≡ with_end self.old.ends partner (received was LinkSignal.Link)) }
        ensures unchanged { let was = end_of self.old.ends partner in
            received was LinkSignal.Link ≡ was → self.new.ends ≡ self.old.ends }
        ensures room { self.old.room ≤ self.new.room + 1 }
        ensures err { OnErr result (self.new ≡ self.old) }
        ensures only_new { OnErr result (end_of self.old.ends partner ≡ End.None) }
        ensures succeeds { 1 ≤ self.old.room → IsOk result }
    {
        if self.end(&partner) == End::None {
            self.put(partner, End::Active)?;
        }
        Ok(())
    }

    /// UNLINK_ID came from a partner, under this id. Answers the acknowledgement to be sent to it
    /// before any other signal. Takes no memory. (ERTS User's Guide, Distribution Protocol, New
    /// Link Protocol.)
    pub fn on_unlink(&mut self, partner: &Pid, id: u64) -> LinkSignal
        ensures end { let was = end_of self.old.ends partner.now in
            self.new.ends ≡ with_end self.old.ends partner.now (received was (LinkSignal.Unlink id)) }
        ensures unchanged { let was = end_of self.old.ends partner.now in
            received was (LinkSignal.Unlink id) ≡ was → self.new.ends ≡ self.old.ends }
        ensures room { self.old.room ≤ self.new.room }
        ensures answer { Some result ≡ answered (LinkSignal.Unlink id) }
    {
        if self.end(partner) == End::Active {
            self.remove(partner);
        }
        LinkSignal::Ack(id)
    }

    /// UNLINK_ID_ACK came from a partner, for this id. Takes no memory. (ERTS User's Guide,
    /// Distribution Protocol, New Link Protocol.)
    pub fn on_ack(&mut self, partner: &Pid, id: u64)
        ensures end { let was = end_of self.old.ends partner.now in
            self.new.ends ≡ with_end self.old.ends partner.now (received was (LinkSignal.Ack id)) }
        ensures unchanged { let was = end_of self.old.ends partner.now in
            received was (LinkSignal.Ack id) ≡ was → self.new.ends ≡ self.old.ends }
        ensures room { self.old.room ≤ self.new.room }
    {
        if self.end(partner) == End::Pending(id) {
            self.remove(partner);
        }
    }

    /// EXIT came from a partner, or the connection to it was lost: the link is gone. Answers whether
    /// the end was active: only then does the process react. Takes no memory. (ERTS User's Guide,
    /// Distribution Protocol, New Link Protocol; Reference Manual, Processes, Links.)
    pub fn on_exit(&mut self, partner: &Pid) -> bool
        ensures end { let was = end_of self.old.ends partner.now in
            self.new.ends ≡ with_end self.old.ends partner.now (exited was) }
        ensures unchanged { let was = end_of self.old.ends partner.now in
            exited was ≡ was → self.new.ends ≡ self.old.ends }
        ensures room { self.old.room ≤ self.new.room }
        ensures active { result ≡ is_active (end_of self.old.ends partner.now) }
    {
        let was_active = self.end(partner) == End::Active;
        self.remove(partner);
        was_active
    }

    /// Returns the first partner to which there is a link, active or pending, in the order of pids, and
    /// the end towards it. Takes no memory.
    pub fn first(&self) -> Option<&(Pid, End)>
        ensures { option_copied result ≡ slice_get (map.entries self.now.ends) 0 }
    {
        self.records.first()
    }

    /// Returns the least partner that is greater than this one, of those to which there is a link, active
    /// or pending, and the end towards it. Takes no memory.
    pub fn next_behind(&self, partner: &Pid) -> Option<&(Pid, End)>
        ensures { option_copied result ≡ first_where (λ held end. is_lt (pid_cmp partner.now held)) (map.entries self.now.ends) }
    {
        self.records.next_behind(partner)
    }

    /// Returns the first partner at the node of this name, in the order of pids, and the end towards it.
    /// The partners at one node lie beside one another, so the search doesn't go over the others. Takes
    /// no memory.
    pub fn first_towards(&self, node: &Atom) -> Option<&(Pid, End)>
        ensures { option_copied result ≡ first_where (λ partner end. eq_by_cmp (slice_cmp nat_cmp) partner.node node.now) (map.entries self.now.ends) }
    {
        let record = self.records.first_at(|partner| partner.node.cmp(node))?;
        if record.0.node.cmp(node).is_eq() {
            Some(record)
        } else {
            None
        }
    }

    /// Returns the first partner at the node of this name, of those that are greater than a partner, in
    /// the order of pids, and the end towards it. Takes no memory.
    pub fn next_towards(&self, node: &Atom, partner: &Pid) -> Option<&(Pid, End)>
        ensures { option_copied result ≡ first_where (λ held end. is_lt (pid_cmp partner.now held) && eq_by_cmp (slice_cmp nat_cmp) held.node node.now) (map.entries self.now.ends) }
    {
        let record = self.records.first_at(|held| {
            if held.cmp(partner).is_le() || held.node.cmp(node).is_lt() {
                Ordering::Less
            } else {
                Ordering::Equal
            }
        })?;
        if record.0.node.cmp(node).is_eq() {
            Some(record)
        } else {
            None
        }
    }

    // Puts the record of a link, at a partner that has one or as a new one.
    fn put(&mut self, partner: Pid, end: End) -> Result<(), AllocError>
        requires { IsLink end }
        ensures ok { OnOk result (self.new.ends ≡ with_end self.old.ends partner end) }
        ensures room { self.old.room ≤ self.new.room + 1 }
        ensures err { OnErr result (self.new ≡ self.old) }
        ensures only_new { OnErr result (end_of self.old.ends partner ≡ End.None) }
        ensures succeeds { 1 ≤ self.old.room → IsOk result }
    {
        self.records.insert(partner, end)?;
        Ok(())
    }

    // Changes the record of a partner that has one.
    fn set(&mut self, partner: &Pid, end: End)
        requires was { end_of self.old.ends partner.now ≢ End.None }
        requires is { IsLink end }
        ensures ends { self.new.ends ≡ with_end self.old.ends partner.now end }
        ensures room { self.new.room ≡ self.old.room }
    {
        self.records.change(partner, end);
    }

    // Drops the record, if there is one.
    fn remove(&mut self, partner: &Pid)
        ensures ends { self.new.ends ≡ with_end self.old.ends partner.now End.None }
        ensures room { self.old.room ≤ self.new.room }
    {
        self.records.remove(partner);
    }
}
