//! The abstract world of nodes, processes, links, monitors and connections, and its laws.
//!
//! The definitions in `specs/` give a node's answer to each event, the world of all nodes, and the
//! claims about it. [`every_run_is_safe`] is the sum of the laws [`agreement`], [`pending`],
//! [`no_link_to_the_dead`], [`reactions`], [`monitors`], [`one_trunk`], [`connected_by_cookie`] and
//! [`peers_are_known`]. This crate has no code: the crates of the node and of the world are proved
//! equal to this model. `docs/MODEL.md` tells it in prose.
#![tactic(auto)]

mod command;
mod laws;
mod links;
mod report;

pub use command::Command;
pub use laws::{
    agreement, arrival_is_taken, calls_follow_the_table, connected_by_cookie,
    connection_comes_again, dead_partner, dial_waits, dials_cross, downs_are_told, due_first,
    event_is_local, events_run, every_report_is_safe, every_run_is_safe, exit_comes, late_down,
    late_exit, link_comes_about, link_is_taken_back, links_need_a_connection, living_means,
    moments, monitor_tells, monitors, monitors_know_their_node, name_is_passed_on,
    names_are_of_the_living, news_is_told, no_link_to_the_dead, node_keeps_its_bearings,
    nodes_stay_steady, one_trunk, order_is_kept, own_trunks_are_counted, peers_are_known, pending,
    quiet_test, reactions, refused_changes_nothing, restart_tells, travelling_signals_fit,
};
pub use links::Links;
pub use report::{Answer, Effect, Kind, Report, Swept};
