//! Connections that are gone, in runs of their counts.
//!
//! A node keeps two things of a connection that is gone: its name and its peer. The counts of one dialer's
//! connections to one peer mostly come one after the other, so one run stands for many.
ghost use Rattle.std.specs.Prelude.{◌≡◌, ◌≤◌, ◌<◌, ◌+◌, None, true, false, length};
ghost use Rattle.std.specs.List.Sorted.{IsPartitionPoint};
ghost use Rattle.std.specs.Option.{option_copied, option_map};
ghost use Rattle.std.specs.Ordering.{is_lt};
ghost use Rattle.std.specs.Vec.{vec_capacity, vec_len};
ghost use Rattle.conn_core.specs.declared.standing.Standing.TheVariants as standing;
ghost use Rattle.erl_names.specs.Order.{trunk_cmp};
ghost use Rattle.erl_names.specs.declared.trunk.TrunkId.{TrunkId as TheTrunkId};
ghost use Rattle.node_tables.specs.Runs.{gone_at, has, is_followed, is_rising, side_in, IsBuried};

use crate::run::Run;
use conn_core::Side;
use erl_names::TrunkId;

/// Returns the run that has a connection, if one has it.
pub(crate) fn run_of<'a>(runs: &'a [Run], trunk: &TrunkId) -> Option<&'a Run>
    requires { is_rising runs.now ≡ true }
    ensures { option_map side_in (option_copied result) ≡ gone_at runs.now trunk.now }
{
    match runs.get(place_among(runs, trunk)) {
        Some(run) => { if has(run, trunk) { Some(run) } else { None } }
        None => None,
    }
}

/// Adds a connection that is gone and that no run has yet. It joins the run that it follows, and the run
/// that follows it. Takes no memory.
pub(crate) fn bury(runs: &mut Vec<Run>, side: Side)
    requires gone { side.standing ≡ standing.Gone }
    requires none { gone_at runs.old.items side.trunk ≡ None }
    requires rising { is_rising runs.old.items ≡ true }
    requires room { vec_len runs.old < vec_capacity runs.old }
    ensures rising { is_rising runs.new.items ≡ true }
    ensures adds { IsBuried side runs.old.items runs.new.items }
    ensures len { vec_len runs.new ≤ vec_len runs.old + 1 }
    ensures capacity { vec_capacity runs.new ≡ vec_capacity runs.old }
{
    let at = place_among(runs, &side.trunk);
    let first = side.trunk.count;
    match runs.insert(at, Run { last: side, first }) {
        Ok(()) => {}
        Err(_) => unreachable!(),
    }
    join(runs, at);
    if at > 0 {
        join(runs, at - 1);
    }
}

// Joins the run at a place with the one behind it, if that one follows it.
fn join(runs: &mut Vec<Run>, at: usize)
    requires rising { is_rising runs.old.items ≡ true }
    ensures rising { is_rising runs.new.items ≡ true }
    ensures same { (trunk : TheTrunkId) → gone_at runs.new.items trunk ≡ gone_at runs.old.items trunk }
    ensures len { vec_len runs.new ≤ vec_len runs.old }
    ensures capacity { vec_capacity runs.new ≡ vec_capacity runs.old }
{
    if at >= runs.len() || at + 1 >= runs.len() || !is_followed(&runs[at], &runs[at + 1]) {
        return;
    }
    let Run { last, .. } = runs.remove(at + 1);
    let first = runs[at].first;
    runs[at] = Run { last, first };
}

// Returns the place of the first run that doesn't end in front of a connection.
fn place_among(runs: &[Run], trunk: &TrunkId) -> usize
    requires { is_rising runs.now ≡ true }
    ensures bound { result ≤ length runs.now }
    ensures parts { IsPartitionPoint (λ run. is_lt (trunk_cmp run.last.trunk trunk.now) ≡ true) (λ run. is_lt (trunk_cmp run.last.trunk trunk.now) ≡ false) runs.now result }
{
    runs.partition_point(|run| run.last.trunk.cmp(trunk).is_lt())
}

// Returns true if a connection is one of the run's.
fn has(run: &Run, trunk: &TrunkId) -> bool
    ensures { result ≡ has run.now trunk.now }
{
    trunk.dialer.cmp(&run.last.trunk.dialer).is_eq()
        && trunk.count >= run.first
        && run.last.trunk.count >= trunk.count
}

// Returns true if another run begins right behind the last connection of a run, with the same dialer and peer.
fn is_followed(run: &Run, next: &Run) -> bool
    ensures { result ≡ is_followed run.now next.now }
{
    run.last.trunk.dialer.cmp(&next.last.trunk.dialer).is_eq()
        && run.last.peer.cmp(&next.last.peer).is_eq()
        && run.last.trunk.count < next.first
        && next.first - run.last.trunk.count == 1
}
