//! The signals by which a process tells another of their link, or of a monitor.
ghost use Rattle.std.specs.Prelude.{◌≡◌, true};
ghost use Rattle.dist_model.specs.Items.{telling};
ghost use Rattle.dist_model.specs.Node.{Node as TheNode};
ghost use Rattle.dist_model.specs.Linking.{told_to};
ghost use Rattle.dist_model.specs.Telling.{asked, taken_back, told_end};
ghost use Rattle.dist_model.specs.Work.{Work, post};
ghost use Rattle.erl_control.specs.Fits.{fits};
ghost use Rattle.link_core.specs.News.{Signals};
ghost use Rattle.node_plan.specs.Carried.{Carries, CarriesOut};
ghost use Rattle.node_frames.specs.Sendable.{is_sendable};
ghost use Rattle.node_plan.specs.Plans.{told};
ghost use Rattle.node_plan.specs.Seen.{seen};
ghost use Rattle.node_plan.specs.Targets.{target_of};

use crate::node::Node;
use crate::plan::Plan;
use crate::signals::{
    demonitor_name_signal, demonitor_signal, link_signal, monitor_exit_signal,
    monitor_name_exit_signal, monitor_name_signal, monitor_signal,
};
use crate::target::TargetParts;
use erl_term::{Payload, Pid, Reference};
use link_core::LinkSignal;
use std::alloc::{AllocError, Global};

impl Plan {
    /// Posts MONITOR_P of a process to the target of its monitor. (ERTS User's Guide, Distribution Protocol,
    /// Protocol between Connected Nodes.)
    ///
    /// # Errors
    /// Where there is no memory for it.
    pub fn tell_monitor(
        &mut self,
        alloc: Global,
        node: &Node,
        from: &Pid,
        target: TargetParts<'_>,
        reference: &Reference,
    ) -> Result<(), AllocError>
        ensures carries { (work : Work) → CarriesOut self.old (seen node.now) work → Carries (seen node.now) (post (asked from.now (target_of target.entry) reference.now) work) self.new result }
        ensures told { (m : TheNode) → told self.new m ≡ told self.old m }
    {
        match target {
            TargetParts::Pid(to) => {
                let signal = monitor_signal(from, to, reference)?;
                self.post(alloc, node, &to.node, signal)
            }
            TargetParts::Name { name, node: at } => {
                let signal = monitor_name_signal(from, name, reference)?;
                self.post(alloc, node, at, signal)
            }
        }
    }

    /// Posts DEMONITOR_P of a process to the target of its monitor. (ERTS User's Guide, Distribution Protocol,
    /// Protocol between Connected Nodes.)
    ///
    /// # Errors
    /// Where there is no memory for it.
    pub fn tell_demonitor(
        &mut self,
        alloc: Global,
        node: &Node,
        from: &Pid,
        target: TargetParts<'_>,
        reference: &Reference,
    ) -> Result<(), AllocError>
        ensures carries { (work : Work) → CarriesOut self.old (seen node.now) work → Carries (seen node.now) (post (taken_back from.now (target_of target.entry) reference.now) work) self.new result }
        ensures told { (m : TheNode) → told self.new m ≡ told self.old m }
        ensures answer { self.new.answer ≡ self.old.answer }
        ensures change { self.new.change ≡ self.old.change }
        ensures watches { self.new.watches ≡ self.old.watches }
        ensures watchers { self.new.watchers ≡ self.old.watchers }
    {
        match target {
            TargetParts::Pid(to) => {
                let signal = demonitor_signal(from, to, reference)?;
                self.post(alloc, node, &to.node, signal)
            }
            TargetParts::Name { name, node: at } => {
                let signal = demonitor_name_signal(from, name, reference)?;
                self.post(alloc, node, at, signal)
            }
        }
    }

    /// Posts MONITOR_P_EXIT of the target of a monitor to its owner. (ERTS User's Guide, Distribution Protocol,
    /// Protocol between Connected Nodes.)
    ///
    /// # Errors
    /// Where there is no memory for it.
    pub fn tell_end(
        &mut self,
        alloc: Global,
        node: &Node,
        target: TargetParts<'_>,
        owner: &Pid,
        reference: &Reference,
        reason: Payload,
    ) -> Result<(), AllocError>
        requires { fits reason ≡ true }
        ensures carries { (work : Work) → CarriesOut self.old (seen node.now) work → Carries (seen node.now) (post (told_end (target_of target.entry) owner.now reference.now reason) work) self.new result }
        ensures told { (m : TheNode) → told self.new m ≡ told self.old m }
        ensures answer { self.new.answer ≡ self.old.answer }
        ensures change { self.new.change ≡ self.old.change }
        ensures watches { self.new.watches ≡ self.old.watches }
        ensures watchers { self.new.watchers ≡ self.old.watchers }
    {
        match target {
            TargetParts::Pid(from) => {
                let signal = monitor_exit_signal(from, owner, reference, reason)?;
                self.post(alloc, node, &owner.node, signal)
            }
            TargetParts::Name { name, .. } => {
                let signal = monitor_name_exit_signal(name, owner, reference, reason)?;
                self.post(alloc, node, &owner.node, signal)
            }
        }
    }

    /// Posts a signal of the New Link Protocol from a process to its partner. (ERTS User's Guide, Distribution
    /// Protocol, New Link Protocol.)
    ///
    /// # Errors
    /// Where there is no memory for it.
    pub fn tell(
        &mut self,
        alloc: Global,
        node: &Node,
        from: &Pid,
        to: &Pid,
        signal: LinkSignal,
    ) -> Result<(), AllocError>
        requires { is_sendable (telling from.now to.now (Signals signal)) ≡ true }
        ensures carries { (work : Work) → CarriesOut self.old (seen node.now) work → Carries (seen node.now) (post (told_to from.now to.now (Signals signal)) work) self.new result }
        ensures told { (m : TheNode) → told self.new m ≡ told self.old m }
        ensures change { self.new.change ≡ self.old.change }
        ensures watches { self.new.watches ≡ self.old.watches }
        ensures watchers { self.new.watchers ≡ self.old.watchers }
    {
        self.post(alloc, node, &to.node, link_signal(from, to, signal)?)
    }
}
