//! What becomes of a process, by its pid.
ghost use Rattle.std.specs.Prelude.{◌≡◌, true, OnOk, IsOk};
ghost use Rattle.std.specs.FinMap as fm;
ghost use Rattle.dist_model.specs.Calls.{first_message, trapping, without_first};
ghost use Rattle.dist_model.specs.Node.{is_living_life};
ghost use Rattle.dist_model.specs.Work.{delivered};
ghost use Rattle.node_tables.specs.Held.{ends, held, lives};
ghost use Rattle.node_tables.specs.Lives.{changed, ending, without_ends};
ghost use Rattle.node_tables.specs.Becomes.{end_changed};
ghost use Rattle.node_tables.specs.Room.{LinkFits, MessageFits};
ghost use Rattle.node_tables.specs.declared.end_change.EndChange.{EndChange as TheChange};
ghost use Rattle.node_tables.specs.declared.end_change.EndChange.TheVariants as change;

use crate::at_place::{
    change_end_at, end_at, put_at, reserve_link_at, reserve_message_at, take_at, trap_at,
};
use crate::end_change::EndChange;
use crate::incarnation::Incarnation;
use crate::lookup::place_in;
use erl_term::{Payload, Pid};
use std::alloc::AllocError;

impl Incarnation {
    /// Makes room for one more message to a process that is living. Nothing else changes.
    ///
    /// # Errors
    /// Where there is no memory for it.
    pub fn reserve_message(&mut self, process: &Pid) -> Result<(), AllocError>
        ensures mint { self.new.mint ≡ self.old.mint }
        ensures up { self.new.up ≡ self.old.up }
        ensures lives { lives self.new ≡ lives self.old }
        ensures ends { ends self.new ≡ ends self.old }
        ensures fits { is_living_life (fm.get (lives self.old) process.now) ≡ true → OnOk result (MessageFits (held self.new process.now)) }
        ensures succeeds { MessageFits (held self.old process.now) → IsOk result }
        ensures kept { (change : TheChange) → LinkFits change (held self.old process.now) → LinkFits change (held self.new process.now) }
    {
        match place_in(&self.mint, &self.held, process) {
            Some(place) => reserve_message_at(&self.mint, &mut self.held, place),
            None => Ok(()),
        }
    }

    /// Makes room for one more partner of a process that is living: then any change of an end fits.
    /// Nothing else changes.
    ///
    /// # Errors
    /// Where there is no memory for it.
    pub fn reserve_link(&mut self, process: &Pid) -> Result<(), AllocError>
        ensures mint { self.new.mint ≡ self.old.mint }
        ensures up { self.new.up ≡ self.old.up }
        ensures lives { lives self.new ≡ lives self.old }
        ensures ends { ends self.new ≡ ends self.old }
        ensures fits { is_living_life (fm.get (lives self.old) process.now) ≡ true → (change : TheChange) → OnOk result (LinkFits change (held self.new process.now)) }
        ensures succeeds { LinkFits change.Links (held self.old process.now) → IsOk result }
        ensures kept { MessageFits (held self.old process.now) → MessageFits (held self.new process.now) }
    {
        match place_in(&self.mint, &self.held, process) {
            Some(place) => reserve_link_at(&self.mint, &mut self.held, place),
            None => Ok(()),
        }
    }

    /// The end that a process has towards a partner changes, where there is room for it. Takes no
    /// memory. (ERTS User's Guide, Distribution Protocol, New Link Protocol.)
    pub fn change_end(&mut self, process: &Pid, partner: Pid, change: EndChange)
        requires { LinkFits change (held self.old process.now) }
        ensures mint { self.new.mint ≡ self.old.mint }
        ensures up { self.new.up ≡ self.old.up }
        ensures lives { lives self.new ≡ lives self.old }
        ensures ends { ends self.new ≡ end_changed (ends self.old) (process.now, partner) change }
        ensures kept { MessageFits (held self.old process.now) → MessageFits (held self.new process.now) }
    {
        if let Some(place) = place_in(&self.mint, &self.held, process) {
            change_end_at(&self.mint, &mut self.held, place, partner, change);
        }
    }

    /// A message comes to a process that has room for it. Takes no memory. (Reference Manual,
    /// Processes, Delivery of Signals.)
    pub fn put(&mut self, process: &Pid, message: Payload)
        requires { MessageFits (held self.old process.now) }
        ensures mint { self.new.mint ≡ self.old.mint }
        ensures up { self.new.up ≡ self.old.up }
        ensures lives { lives self.new ≡ changed (lives self.old) process.now (λ life. delivered life message) }
        ensures ends { ends self.new ≡ ends self.old }
    {
        if let Some(place) = place_in(&self.mint, &self.held, process) {
            put_at(&self.mint, &mut self.held, place, message);
        }
    }

    /// A process traps exits from now on, or doesn't, where it is living. Takes no memory.
    /// (Reference Manual, Processes, Receiving Exit Signals.)
    pub fn trap(&mut self, process: &Pid, on: bool)
        ensures mint { self.new.mint ≡ self.old.mint }
        ensures up { self.new.up ≡ self.old.up }
        ensures lives { lives self.new ≡ changed (lives self.old) process.now (λ life. trapping life on) }
        ensures ends { ends self.new ≡ ends self.old }
    {
        if let Some(place) = place_in(&self.mint, &self.held, process) {
            trap_at(&self.mint, &mut self.held, place, on);
        }
    }

    /// Takes the oldest message of a process out of its mailbox, where it is living and one waits.
    /// Takes no memory. (Reference Manual, Processes, Delivery of Signals.)
    pub fn take(&mut self, process: &Pid) -> Option<Payload>
        ensures message { result ≡ first_message (fm.get (lives self.old) process.now) }
        ensures mint { self.new.mint ≡ self.old.mint }
        ensures up { self.new.up ≡ self.old.up }
        ensures lives { lives self.new ≡ changed (lives self.old) process.now without_first }
        ensures ends { ends self.new ≡ ends self.old }
    {
        match place_in(&self.mint, &self.held, process) {
            Some(place) => take_at(&self.mint, &mut self.held, place),
            None => None,
        }
    }

    /// A process ends for this reason, where there is one: its messages and its links go. Takes no
    /// memory. (Reference Manual, Processes, Process Termination.)
    pub fn finish(&mut self, process: &Pid, reason: Payload)
        ensures mint { self.new.mint ≡ self.old.mint }
        ensures up { self.new.up ≡ self.old.up }
        ensures lives { lives self.new ≡ changed (lives self.old) process.now (ending reason) }
        ensures ends { ends self.new ≡ without_ends (ends self.old) process.now }
    {
        if let Some(place) = place_in(&self.mint, &self.held, process) {
            end_at(&self.mint, &mut self.held, place, reason);
        }
    }
}
