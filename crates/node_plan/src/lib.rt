//! A node, and the plan of the changes that an event makes.
//!
//! [`Plan`] lists the effects of an event, each behind those before it, and the changes of the node's
//! processes, monitors, own signals and connections. A node stays as it is while an event is planned. Memory
//! is reserved last. Then nothing can be refused, and the plan is carried out.
#![tactic(auto)]

mod adding;
mod change;
mod changing_processes;
mod commit;
mod copying;
mod copying_node;
mod ending;
mod monitors;
mod node;
mod opening;
mod own_list;
mod plan;
mod planning;
mod posting;
mod processes;
mod pushing;
mod quiet;
mod reacting;
mod reading;
mod refusing;
mod registering;
mod reserving;
mod restarting;
mod sending;
mod setting;
mod sides;
mod siding;
mod signals;
mod target;
mod telling;

pub use change::{Change, Draws, LifeChange, LinkChange, MonitorChange};
pub use changing_processes::{change_processes, draw, reserve_processes};
pub use copying::{copied, registration_between, watch_between};
pub use monitors::{change_watchers, change_watches, reserve_watchers, reserve_watches};
pub use node::Node;
pub use own_list::keep;
pub use plan::Plan;
pub use processes::{push_ended, push_link_exit, push_put};
pub use refusing::or_refuse;
pub use registering::{changes_towards, registers_towards, watches_towards};
pub use sending::{push_message, push_signal_here, push_signal_there};
pub use sides::change_sides;
pub use signals::{
    demonitor_name_signal, demonitor_signal, link_signal, monitor_exit_signal,
    monitor_name_exit_signal, monitor_name_signal, monitor_signal,
};
pub use target::TargetParts;
