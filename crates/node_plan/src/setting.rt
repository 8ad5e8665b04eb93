//! The replacement of a planned change.
ghost use Rattle.std.specs.Prelude.{◌≡◌, OnErr, OnOk};
ghost use Rattle.node_plan.specs.Parts.{link_in};
ghost use Rattle.node_plan.specs.declared.change.Change.TheVariants as the_change;
ghost use Rattle.node_plan.specs.declared.change.LifeChange.TheVariants as the_life;
ghost use Rattle.node_plan.specs.declared.change.LinkChange.TheVariants as the_link;

use crate::change::{Change, LifeChange, LinkChange, MonitorChange};
use erl_term::Pid;
use node_tables::EndChange;
use std::alloc::AllocError;
use std::mem;

impl Change {
    /// Replaces the planned change of the processes by `change`. Never allocates.
    pub fn set(&mut self, change: Change)
        ensures { self.new ≡ change }
    {
        drop(mem::replace(self, change));
    }

    /// Replaces the planned change by the change `how` of the end of a process towards `partner`. (ERTS
    /// User's Guide, Distribution Protocol, New Link Protocol.)
    ///
    /// # Errors
    /// [`AllocError`] if out of memory. On error nothing changes.
    pub fn set_end(
        &mut self,
        process: &Pid,
        partner: &Pid,
        how: EndChange,
    ) -> Result<(), AllocError>
        ensures ok { OnOk result (self.new ≡ the_change.Of process.now (the_link.Becomes partner.now how) the_life.Stays) }
        ensures err { OnErr result (self.new ≡ self.old) }
    {
        let changed = Change::Of {
            process: process.clone()?,
            link: LinkChange::Becomes(partner.clone()?, how),
            life: LifeChange::Stays,
        };
        self.set(changed);
        Ok(())
    }

    // Returns the planned change of an end, and leaves no change.
    fn take_link(&mut self) -> LinkChange
        ensures { result ≡ link_in self.old }
    {
        match mem::replace(self, Change::None) {
            Change::Of {
                process,
                link,
                life,
            } => {
                drop(process);
                drop(life);
                link
            }
            Change::None | Change::Spawns | Change::TakesName(_) | Change::GivesName(_) => {
                LinkChange::Stays
            }
        }
    }

    fn set_owned_life(&mut self, process: Pid, life: LifeChange)
        ensures { self.new ≡ the_change.Of process (link_in self.old) life }
    {
        let link = self.take_link();
        self.set(Change::Of {
            process,
            link,
            life,
        });
    }

    /// Plans the change `life` of a process, and keeps the planned change of an end.
    ///
    /// # Errors
    /// [`AllocError`] if out of memory. On error nothing changes.
    pub fn set_life(&mut self, process: &Pid, life: LifeChange) -> Result<(), AllocError>
        ensures ok { OnOk result (self.new ≡ the_change.Of process.now (link_in self.old) life) }
        ensures err { OnErr result (self.new ≡ self.old) }
    {
        match process.clone() {
            Ok(process) => {
                self.set_owned_life(process, life);
                Ok(())
            }
            Err(wanting) => {
                drop(life);
                Err(wanting)
            }
        }
    }
}

impl<M: Drop> MonitorChange<M> {
    /// Replaces the planned change of the monitors by `change`. Never allocates.
    pub fn set(&mut self, change: MonitorChange<M>)
        ensures { self.new ≡ change }
    {
        drop(mem::replace(self, change));
    }
}
