//! What becomes of a process that ends.
ghost use Rattle.std.specs.Prelude.{◌≡◌, true};
ghost use Rattle.dist_model.specs.Exits.{buried};
ghost use Rattle.dist_model.specs.Node.{Node as TheNode, living};
ghost use Rattle.dist_model.specs.Work.{Work};
ghost use Rattle.node_plan.specs.Carried.{Carries, CarriesOut, IsFree};
ghost use Rattle.node_plan.specs.Parts.{link_in};
ghost use Rattle.node_plan.specs.Gone.{is_gone};
ghost use Rattle.node_plan.specs.Plans.{told};

use crate::change::{Change, LifeChange, LinkChange};
use crate::plan::Plan;
use crate::processes::push_ended;
use erl_term::{Payload, Pid};
use node_frames::same_pid;
use node_tables::EndChange;
use std::alloc::{AllocError, Global};

impl Plan {
    /// Returns true if the plan lets the link to a partner be gone. (Reference Manual, Processes,
    /// Links.)
    pub fn is_gone(&self, partner: &Pid) -> bool
        ensures { result ≡ is_gone (link_in self.now.change) partner.now }
    {
        match &self.change {
            Change::Of {
                link: LinkChange::Becomes(gone, EndChange::Exits),
                ..
            } => same_pid(partner, gone),
            _ => false,
        }
    }

    /// The mailbox and the records of a process go, and it keeps its reason. (Reference Manual,
    /// Processes, Process Termination.)
    ///
    /// # Errors
    /// Where there is no memory for it.
    pub fn bury(&mut self, alloc: Global, process: &Pid, reason: Payload) -> Result<(), AllocError>
        requires { IsFree self.old.change process.now }
        ensures carries { (m : TheNode) (work : Work) → living m process.now ≡ true → CarriesOut self.old m work → Carries m (buried process.now reason work) self.new result }
        ensures answer { self.new.answer ≡ self.old.answer }
        ensures told { (m : TheNode) → told self.new m ≡ told self.old m }
        ensures watches { self.new.watches ≡ self.old.watches }
        ensures watchers { self.new.watchers ≡ self.old.watchers }
    {
        match push_ended(&mut self.effects, alloc, process, &reason) {
            Ok(()) => self.change.set_life(process, LifeChange::Ends(reason)),
            Err(wanting) => {
                drop(reason);
                Err(wanting)
            }
        }
    }
}
