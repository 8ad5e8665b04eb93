//! The changes of monitors.
ghost use Rattle.std.specs.Prelude.{◌≡◌, OnOk};
ghost use Rattle.node_plan.specs.Changed as after;
ghost use Rattle.node_plan.specs.Fresh.{IsFresh};
ghost use Rattle.node_plan.specs.RoomForChanges.{MonitorFits};

use crate::change::{Change, LifeChange, MonitorChange};
use monitor_core::{Registration, Watch, Watchers, Watches};
use std::alloc::AllocError;

/// Applies the change of a monitor that a process here owns. Then removes those of a process that ends. Takes
/// no memory. (Reference Manual, Processes, Monitors.)
#[inline(always)]
pub fn change_watches(watches: &mut Watches, own: MonitorChange<Watch>, change: &Change)
    requires room { MonitorFits own watches.old }
    requires fresh { IsFresh own watches.old.monitors }
    ensures { watches.new.monitors ≡ after.watches_left change.now (after.watched own watches.old.monitors) }
{
    match own {
        MonitorChange::Stays => {}
        MonitorChange::Adds(reference, monitor) => match watches.add(reference, monitor) {
            Ok(()) => {}
            Err(_) => unreachable!(),
        },
        MonitorChange::Removes(reference) => {
            watches.remove(&reference);
        }
    }
    if let Change::Of {
        process,
        life: LifeChange::Ends(_),
        ..
    } = change
    {
        watches.remove_owned_by(process);
    }
}

/// Applies the change of a monitor that another has. Then removes those that are bound to a process that ends.
/// Takes no memory. (Reference Manual, Processes, Monitors.)
#[inline(always)]
pub fn change_watchers(
    watchers: &mut Watchers,
    others: MonitorChange<Registration>,
    change: &Change,
)
    requires { MonitorFits others watchers.old }
    ensures { watchers.new.monitors ≡ after.watchers_left change.now (after.registered others watchers.old.monitors) }
{
    match others {
        MonitorChange::Stays => {}
        MonitorChange::Adds(reference, monitor) => match watchers.on_monitor(reference, monitor) {
            Ok(()) => {}
            Err(_) => unreachable!(),
        },
        MonitorChange::Removes(reference) => {
            watchers.remove(&reference);
        }
    }
    if let Change::Of {
        process,
        life: LifeChange::Ends(_),
        ..
    } = change
    {
        watchers.remove_held(process);
    }
}

/// Reserves memory for a monitor that comes.
///
/// # Errors
/// Where there is no memory for it.
pub fn reserve_watches(
    watches: &mut Watches,
    change: &MonitorChange<Watch>,
) -> Result<(), AllocError>
    ensures monitors { watches.new.monitors ≡ watches.old.monitors }
    ensures fits { OnOk result (MonitorFits change.now watches.new) }
{
    match change {
        MonitorChange::Adds(_, _) => watches.reserve(1),
        MonitorChange::Stays | MonitorChange::Removes(_) => Ok(()),
    }
}

/// Reserves memory for a monitor that comes from another.
///
/// # Errors
/// Where there is no memory for it.
pub fn reserve_watchers(
    watchers: &mut Watchers,
    change: &MonitorChange<Registration>,
) -> Result<(), AllocError>
    ensures monitors { watchers.new.monitors ≡ watchers.old.monitors }
    ensures fits { OnOk result (MonitorFits change.now watchers.new) }
{
    match change {
        MonitorChange::Adds(_, _) => watchers.reserve(1),
        MonitorChange::Stays | MonitorChange::Removes(_) => Ok(()),
    }
}
