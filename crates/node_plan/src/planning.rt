//! The plans of one process's change, of draws and of monitors.
ghost use Rattle.std.specs.Prelude.{◌≡◌, ◌+◌, ◌-◌, ◌<◌, ◌^◌, true, false, None, List, ◌∷◌, OnOk};
ghost use Rattle.std.specs.FinMap as fm;
ghost use Rattle.dist_model.specs.Calls.{first_message, spawn_life, trapping, with_life, with_names, without_first};
ghost use Rattle.dist_model.specs.Items.{Item as TheItem};
ghost use Rattle.dist_model.specs.Monitoring as monitoring;
ghost use Rattle.dist_model.specs.Naming.{name_of, without_holder};
ghost use Rattle.dist_model.specs.Node.{Node as TheNode, end_of, living};
ghost use Rattle.dist_model.specs.Work.{Work, at_work, draw, set_end};
ghost use Rattle.dist_model.specs.declared.report.Answer.TheVariants as the_answer;
ghost use Rattle.erl_names.specs.Draw as kind;
ghost use Rattle.erl_names.specs.Ids.{pid_of, reference_of};
ghost use Rattle.node_tables.specs.Becomes.{becomes};
ghost use Rattle.node_plan.specs.Carried.{Carries, CarriesOut, IsBlank, Makes};
ghost use Rattle.node_plan.specs.Plans.{told};
ghost use Rattle.node_plan.specs.declared.change.Change.TheVariants as change;
ghost use Rattle.node_plan.specs.declared.change.Draws.TheVariants as the_draws;
ghost use Rattle.node_plan.specs.declared.change.LifeChange.TheVariants as life;
ghost use Rattle.node_plan.specs.declared.change.LinkChange.TheVariants as link;
ghost use Rattle.node_plan.specs.declared.change.MonitorChange.TheVariants as monitor;

use crate::change::{Change, Draws, LifeChange, LinkChange, MonitorChange};
use crate::plan::Plan;
use dist_model::Answer;
use erl_term::{Pid, Reference};
use monitor_core::{Registration, Watch};
use node_tables::{EndChange, Naming};
use std::alloc::{AllocError, Global};
use std::mem;

impl Plan {
    /// Returns a plan of no changes. If `pops`, its commit removes the first signal in flight from the node
    /// to itself. Never allocates.
    pub fn new(alloc: Global, pops: bool) -> Plan
        ensures told { (m : TheNode) → told result m ≡ the_answer.Done }
        ensures blank { IsBlank result }
        ensures carries { pops ≡ false → (m : TheNode) → CarriesOut result m (at_work m) }
        ensures taken { pops ≡ true → (m : TheNode) (first : TheItem) (rest : List TheItem) → m.local ≡ first ∷ rest → CarriesOut result m (at_work (record m { local = rest })) }
    {
        Plan {
            draws: Draws::Nothing,
            change: Change::None,
            watches: MonitorChange::Stays,
            watchers: MonitorChange::Stays,
            pops,
            local: Vec::new(alloc),
            sides: Vec::new(alloc),
            dials: false,
            answer: Answer::Done,
            effects: Vec::new(alloc),
        }
    }

    /// Plans `answer` as the answer to the event. Never allocates.
    pub fn answers(&mut self, answer: Answer)
        requires { self.old.change ≡ change.None }
        ensures told { (m : TheNode) → told self.new m ≡ answer }
        ensures dials { self.new.dials ≡ self.old.dials }
        ensures draws { self.new.draws ≡ self.old.draws }
        ensures change { self.new.change ≡ self.old.change }
        ensures watches { self.new.watches ≡ self.old.watches }
        ensures watchers { self.new.watchers ≡ self.old.watchers }
        ensures carries { (m : TheNode) (work : Work) → CarriesOut self.old m work → CarriesOut self.new m work }
        ensures makes { (m : TheNode) (work : Work) → Makes self.old m work → Makes self.new m work }
    {
        drop(mem::replace(&mut self.answer, answer));
    }

    /// Plans a new process. Never allocates. (Reference Manual, Processes, Process Creation.)
    pub fn spawn(&mut self)
        requires { self.old.change ≡ change.None }
        ensures carries { (m : TheNode) → m.up ≡ true → m.mint.pids < 2 ^ 32 - 1 → CarriesOut self.old m (at_work m) → CarriesOut self.new m (spawn_life m (pid_of m.mint (m.mint.pids + 1))) }
        ensures told { (m : TheNode) → told self.new m ≡ told self.old m }
        ensures change { self.new.change ≡ change.Spawns }
    {
        self.change.set(Change::Spawns);
    }

    /// Plans that a process takes a name, as `naming` says. Never allocates. (Reference Manual, Processes,
    /// Registered Processes.)
    pub fn take_name(&mut self, naming: Naming)
        requires { self.old.change ≡ change.None }
        ensures carries { (m : TheNode) → fm.get m.names naming.name ≡ None → name_of m.names naming.process ≡ None → CarriesOut self.old m (at_work m) → CarriesOut self.new m (with_names m (fm.insert m.names naming.name naming.process)) }
        ensures told { (m : TheNode) → told self.new m ≡ told self.old m }
    {
        self.change.set(Change::TakesName(naming));
    }

    /// Plans that `process` gives its name up. Never allocates. (Reference Manual, Processes, Registered
    /// Processes.)
    pub fn give_name(&mut self, process: Pid)
        requires { self.old.change ≡ change.None }
        ensures carries { (m : TheNode) → CarriesOut self.old m (at_work m) → CarriesOut self.new m (with_names m (without_holder m.names process)) }
        ensures told { (m : TheNode) → told self.new m ≡ told self.old m }
    {
        self.change.set(Change::GivesName(process));
    }

    /// Plans that a living process traps exits if `on`, and doesn't otherwise. Never allocates. (Reference
    /// Manual, Processes, Receiving Exit Signals.)
    pub fn trap(&mut self, process: Pid, on: bool)
        requires { self.old.change ≡ change.None }
        ensures carries { (m : TheNode) → living m process ≡ true → CarriesOut self.old m (at_work m) → CarriesOut self.new m (with_life m process (trapping (fm.get m.lives process) on)) }
        ensures told { (m : TheNode) → told self.new m ≡ told self.old m }
        ensures change { self.new.change ≡ change.Of process link.Stays (life.Traps on) }
    {
        self.change.set(Change::Of {
            process,
            link: LinkChange::Stays,
            life: LifeChange::Traps(on),
        });
    }

    /// Plans that a living process takes its oldest message out of its mailbox, if there is one. That message
    /// is the answer. Never allocates. (Reference Manual, Processes, Delivery of Signals.)
    pub fn take_first(&mut self, process: Pid)
        requires { self.old.change ≡ change.None }
        ensures carries { (m : TheNode) → living m process ≡ true → CarriesOut self.old m (at_work m) → CarriesOut self.new m (with_life m process (without_first (fm.get m.lives process))) }
        ensures told { (m : TheNode) → told self.new m ≡ the_answer.Message (first_message (fm.get m.lives process)) }
    {
        self.change.set(Change::Of {
            process,
            link: LinkChange::Stays,
            life: LifeChange::TakesFirst,
        });
    }

    /// Plans the change `how` of the end of a living process towards `partner`. (ERTS User's Guide,
    /// Distribution Protocol, New Link Protocol.)
    ///
    /// # Errors
    /// [`AllocError`] if out of memory.
    pub fn change_end(
        &mut self,
        process: &Pid,
        partner: &Pid,
        how: EndChange,
    ) -> Result<(), AllocError>
        requires { self.old.change ≡ change.None }
        ensures carries { (m : TheNode) (work : Work) → living m process.now ≡ true → CarriesOut self.old m work → Carries m (set_end process.now partner.now (becomes how (end_of m process.now partner.now)) work) self.new result }
        ensures told { (m : TheNode) → told self.new m ≡ told self.old m }
        ensures change { OnOk result (self.new.change ≡ change.Of process.now (link.Becomes partner.now how) life.Stays) }
        ensures watches { self.new.watches ≡ self.old.watches }
        ensures watchers { self.new.watchers ≡ self.old.watchers }
    {
        self.change.set_end(process, partner, how)
    }

    /// Plans to draw an unlink id. Never allocates. (ERTS User's Guide, Distribution Protocol, New Link
    /// Protocol.)
    pub fn draw_unlink_id(&mut self)
        requires draws { self.old.draws ≡ the_draws.Nothing }
        requires watches { self.old.watches ≡ monitor.Stays }
        ensures carries { (m : TheNode) (work : Work) → CarriesOut self.old m work → CarriesOut self.new m (draw kind.UnlinkId work) }
        ensures told { (m : TheNode) → told self.new m ≡ told self.old m }
        ensures change { self.new.change ≡ self.old.change }
    {
        self.draws = Draws::UnlinkId;
    }

    /// Plans to draw the count of a reference. Never allocates. (ERTS User's Guide, External Term Format,
    /// NEWER_REFERENCE_EXT.)
    pub fn draw_reference(&mut self)
        requires draws { self.old.draws ≡ the_draws.Nothing }
        requires watches { self.old.watches ≡ monitor.Stays }
        ensures carries { (m : TheNode) (work : Work) → CarriesOut self.old m work → CarriesOut self.new m (draw kind.Reference work) }
        ensures told { (m : TheNode) → told self.new m ≡ told self.old m }
        ensures change { self.new.change ≡ self.old.change }
        ensures draws { self.new.draws ≡ the_draws.Reference }
        ensures watches { self.new.watches ≡ self.old.watches }
        ensures watchers { self.new.watchers ≡ self.old.watchers }
    {
        self.draws = Draws::Reference;
    }
}

impl Plan {
    /// Plans to add `owned`, a monitor that a process here owns. Its `reference` is the one that the plan
    /// draws. Never allocates. (Reference Manual, Processes, Monitors.)
    pub fn watch(&mut self, reference: Reference, owned: Watch)
        requires draws { self.old.draws ≡ the_draws.Reference }
        requires change { self.old.change ≡ change.None }
        requires watches { self.old.watches ≡ monitor.Stays }
        ensures carries { (m : TheNode) (work : Work) → reference ≡ reference_of m.mint (m.mint.references + 1) → m.mint.references < 2 ^ 18 - 1 → CarriesOut self.old m work → CarriesOut self.new m (monitoring.watch reference owned work) }
        ensures told { (m : TheNode) → told self.new m ≡ told self.old m }
        ensures change { self.new.change ≡ self.old.change }
    {
        self.watches.set(MonitorChange::Adds(reference, owned));
    }

    /// Plans to remove the monitor of `reference` that a process here owns. Never allocates. (Reference
    /// Manual, Processes, Monitors.)
    pub fn unwatch(&mut self, reference: Reference)
        requires change { self.old.change ≡ change.None }
        requires watches { self.old.watches ≡ monitor.Stays }
        ensures carries { (m : TheNode) (work : Work) → CarriesOut self.old m work → CarriesOut self.new m (monitoring.unwatch reference work) }
        ensures told { (m : TheNode) → told self.new m ≡ told self.old m }
        ensures change { self.new.change ≡ self.old.change }
    {
        self.watches.set(MonitorChange::Removes(reference));
    }

    /// Plans to add `owned`, a monitor that another has of a process here, under `reference`. Never
    /// allocates. (Reference Manual, Processes, Monitors.)
    pub fn register(&mut self, reference: Reference, owned: Registration)
        requires change { self.old.change ≡ change.None }
        requires watchers { self.old.watchers ≡ monitor.Stays }
        ensures carries { (m : TheNode) (work : Work) → CarriesOut self.old m work → CarriesOut self.new m (monitoring.register reference owned work) }
        ensures told { (m : TheNode) → told self.new m ≡ told self.old m }
    {
        self.watchers.set(MonitorChange::Adds(reference, owned));
    }

    /// Plans to remove the monitor of `reference` that another has of a process here. Never allocates.
    /// (Reference Manual, Processes, Monitors.)
    pub fn unregister(&mut self, reference: Reference)
        requires change { self.old.change ≡ change.None }
        requires watchers { self.old.watchers ≡ monitor.Stays }
        ensures carries { (m : TheNode) (work : Work) → CarriesOut self.old m work → CarriesOut self.new m (monitoring.unregister reference work) }
        ensures told { (m : TheNode) → told self.new m ≡ told self.old m }
    {
        self.watchers.set(MonitorChange::Removes(reference));
    }
}
