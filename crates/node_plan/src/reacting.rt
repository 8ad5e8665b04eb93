//! A message comes to a process, or the exit of a link.
ghost use Rattle.std.specs.Prelude.{◌≡◌, true};
ghost use Rattle.dist_model.specs.Node.{Node as TheNode, living};
ghost use Rattle.dist_model.specs.Work.{Work, put, report};
ghost use Rattle.dist_model.specs.declared.report.Effect.TheVariants as effect;
ghost use Rattle.node_plan.specs.Carried.{Carries, CarriesOut, IsFree};
ghost use Rattle.node_plan.specs.Plans.{told};
ghost use Rattle.node_plan.specs.declared.change.LinkChange.TheVariants as link;

use crate::change::LifeChange;
use crate::plan::Plan;
use crate::processes::{push_link_exit, push_put};
use erl_term::{Payload, Pid};
use std::alloc::{AllocError, Global};

impl Plan {
    /// A message comes into the mailbox of a process. (Reference Manual, Processes, Delivery of
    /// Signals.)
    ///
    /// # Errors
    /// Where there is no memory for it.
    pub fn put(&mut self, alloc: Global, process: &Pid, message: Payload) -> Result<(), AllocError>
        requires { IsFree self.old.change process.now }
        ensures carries { (m : TheNode) (work : Work) → living m process.now ≡ true → CarriesOut self.old m work → Carries m (put process.now message work) self.new result }
        ensures answer { self.new.answer ≡ self.old.answer }
        ensures told { (m : TheNode) → told self.new m ≡ told self.old m }
        ensures watches { self.new.watches ≡ self.old.watches }
        ensures watchers { self.new.watchers ≡ self.old.watchers }
    {
        match push_put(&mut self.effects, alloc, process, &message) {
            Ok(()) => self.change.set_life(process, LifeChange::Gets(message)),
            Err(wanting) => {
                drop(message);
                Err(wanting)
            }
        }
    }

    /// A process has reacted to the exit of its link with a partner.
    ///
    /// # Errors
    /// Where there is no memory for it.
    pub fn reacted(
        &mut self,
        alloc: Global,
        process: &Pid,
        partner: &Pid,
        reason: &Payload,
    ) -> Result<(), AllocError>
        ensures carries { (m : TheNode) (work : Work) → CarriesOut self.old m work → Carries m (report (effect.LinkExit process.now partner.now reason.now) work) self.new result }
        ensures answer { self.new.answer ≡ self.old.answer }
        ensures change { self.new.change ≡ self.old.change }
        ensures watches { self.new.watches ≡ self.old.watches }
        ensures watchers { self.new.watchers ≡ self.old.watchers }
    {
        push_link_exit(&mut self.effects, alloc, process, partner, reason)
    }
}
