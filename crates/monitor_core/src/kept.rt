//! The monitors that a table keeps.
ghost use Rattle.std.specs.Prelude.{◌≡◌, ℕ, List};
ghost use Rattle.erl_term.specs.declared.term.Pid.{Pid as Process};
ghost use Rattle.monitor_core.specs.declared.monitor.Watch.{Watch as Seen};
ghost use Rattle.monitor_core.specs.Monitors.{as_watch, itself, target_node};

use crate::monitor::{Registration, Target, Watch};
use erl_term::{Atom, Pid};

/// A monitor in a table. A search finds it by its process, or by the name of its node. `seen_as` gives its
/// owner and its target.
pub(crate) trait Kept: Drop {
    ghost process_of: { Self → Process };

    ghost node_of: { Self → List ℕ };

    ghost seen_as: { Self → Seen };

    /// Returns the process by which a search finds the monitor.
    fn process(&self) -> &Pid
        ensures { result.now ≡ process_of self.now };

    /// Returns the name of the node by which a search finds the monitor.
    fn node(&self) -> &Atom
        ensures { result.now ≡ node_of self.now };

    /// Returns the owner.
    fn owner(&self) -> &Pid
        ensures { result.now ≡ (seen_as self.now).owner };

    /// Returns the target, as the call named it.
    fn target(&self) -> &Target
        ensures { result.now ≡ (seen_as self.now).target };
}

impl Kept for Watch {
    ghost process_of = { λ watch. watch.owner };

    ghost node_of = { λ watch. target_node watch.target };

    ghost seen_as = { itself };

    fn process(&self) -> &Pid {
        self.owner()
    }

    fn node(&self) -> &Atom {
        self.target.node()
    }

    fn owner(&self) -> &Pid {
        &self.owner
    }

    fn target(&self) -> &Target {
        &self.target
    }
}

impl Kept for Registration {
    ghost process_of = { λ registration. registration.held };

    ghost node_of = { λ registration. registration.owner.node };

    ghost seen_as = { as_watch };

    fn process(&self) -> &Pid {
        &self.held
    }

    fn node(&self) -> &Atom {
        &self.owner.node
    }

    fn owner(&self) -> &Pid {
        &self.owner
    }

    fn target(&self) -> &Target {
        &self.target
    }
}
