//! What becomes of one process.
ghost use Rattle.std.specs.Prelude.{◌≡◌, true, Some, OnOk, IsOk};
ghost use Rattle.std.specs.FinMap as fm;
ghost use Rattle.dist_model.specs.Calls.{first_message, trapping, without_first};
ghost use Rattle.dist_model.specs.Node as model;
ghost use Rattle.dist_model.specs.Work.{delivered};
ghost use Rattle.node_tables.specs.Lives.{life_of, links_of};
ghost use Rattle.link_core.specs.Ends.{end_of, with_end};
ghost use Rattle.node_tables.specs.Becomes.{becomes};
ghost use Rattle.node_tables.specs.Room.{LinkFits, MessageFits};
ghost use Rattle.node_tables.specs.declared.end_change.EndChange.{EndChange};
ghost use Rattle.node_tables.specs.declared.end_change.EndChange.TheVariants as end;

use crate::end_change::EndChange;
use crate::life::Life;
use erl_term::{Payload, Pid};
use std::alloc::AllocError;

impl Life {
    /// Makes room for one more message, where it is living.
    pub(crate) fn reserve_message(&mut self) -> Result<(), AllocError>
        ensures life { life_of self.new ≡ life_of self.old }
        ensures links { links_of self.new ≡ links_of self.old }
        ensures fits { model.is_living_life (Some (life_of self.old)) ≡ true → OnOk result (MessageFits (Some self.new)) }
        ensures succeeds { MessageFits (Some self.old) → IsOk result }
        ensures kept { (change : EndChange) → LinkFits change (Some self.old) → LinkFits change (Some self.new) }
    {
        match self {
            Life::Living { process, .. } => process.mailbox.reserve(1),
            Life::Ended(_) => Ok(()),
        }
    }

    /// A message comes, where there is room for it.
    pub(crate) fn put(&mut self, message: Payload)
        requires { MessageFits (Some self.old) }
        ensures life { Some (life_of self.new) ≡ delivered (Some (life_of self.old)) message }
        ensures links { links_of self.new ≡ links_of self.old }
    {
        match self {
            Life::Living { process, .. } => match process.mailbox.put(message) {
                Ok(()) => {}
                Err(_) => unreachable!(),
            },
            Life::Ended(_) => unreachable!(),
        }
    }

    /// Makes room for one more partner, where it is living.
    pub(crate) fn reserve_link(&mut self) -> Result<(), AllocError>
        ensures life { life_of self.new ≡ life_of self.old }
        ensures links { links_of self.new ≡ links_of self.old }
        ensures fits { model.is_living_life (Some (life_of self.old)) ≡ true → (change : EndChange) → OnOk result (LinkFits change (Some self.new)) }
        ensures succeeds { LinkFits end.Links (Some self.old) → IsOk result }
        ensures kept { MessageFits (Some self.old) → MessageFits (Some self.new) }
    {
        match self {
            Life::Living { ends, .. } => ends.reserve(1),
            Life::Ended(_) => Ok(()),
        }
    }

    /// Its end towards a partner changes, where there is room for it.
    pub(crate) fn change_end(&mut self, partner: Pid, change: EndChange)
        requires { LinkFits change (Some self.old) }
        ensures life { life_of self.new ≡ life_of self.old }
        ensures links { links_of self.new ≡ with_end (links_of self.old) partner (becomes change (end_of (links_of self.old) partner)) }
        ensures kept { MessageFits (Some self.old) → MessageFits (Some self.new) }
    {
        match self {
            Life::Living { ends, .. } => change.make(ends, partner),
            Life::Ended(_) => unreachable!(),
        }
    }

    /// It traps exits from now on, or doesn't.
    pub(crate) fn trap(&mut self, on: bool)
        ensures life { Some (life_of self.new) ≡ trapping (Some (life_of self.old)) on }
        ensures links { links_of self.new ≡ links_of self.old }
    {
        match self {
            Life::Living { process, .. } => process.trap = on,
            Life::Ended(_) => {}
        }
    }

    /// Its oldest message is taken out, if there is one.
    pub(crate) fn take(&mut self) -> Option<Payload>
        ensures message { result ≡ first_message (Some (life_of self.old)) }
        ensures life { Some (life_of self.new) ≡ without_first (Some (life_of self.old)) }
        ensures links { links_of self.new ≡ links_of self.old }
    {
        match self {
            Life::Living { process, .. } => process.mailbox.take(),
            Life::Ended(_) => None,
        }
    }

    /// It ends for this reason: its messages and links go.
    pub(crate) fn end_for(&mut self, reason: Payload)
        ensures life { life_of self.new ≡ model.Ended reason }
        ensures links { links_of self.new ≡ fm.empty }
    {
        *self = Life::Ended(reason);
    }
}
