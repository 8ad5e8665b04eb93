//! Laws of the definitions, for any kind of monitor. `seen_as` gives its owner and its target: `itself`
//! those of a watch, and `as_watch` those of a registration.
ghost use Rattle.std.specs.Prelude.{◌≡◌, ◌≢◌, ◌≤◌, ◌↔◌, IsTrue, Bool, ℕ, List, None, Some, take, drop};
ghost use Rattle.std.specs.FinMap as map;
ghost use Rattle.std.specs.Option.{option_map};
ghost use Rattle.erl_term.specs.declared.term.Reference.{Reference};
ghost use Rattle.monitor_core.specs.declared.monitor.Watch.{Watch};
ghost use Rattle.sorted_map.specs.Entries.{first_where};
ghost use Rattle.monitor_core.specs.Monitors.{MonitorMap, IsFirst};
ghost use Rattle.monitor_core.specs.Runs.{Call, Adds, Removes, Ends, takes, called, reference_of, additions, departures};

/// Proves that a call inserts one monitor or removes one at most, and all others stay.
pub fn one_entry<M>()
    ensures added { (seen_as : M → Watch) (monitors : MonitorMap M) (reference : Reference) (monitor : M) →
        map.get monitors reference ≡ None → map.get (called seen_as monitors (Adds reference monitor)) reference ≡ Some monitor }
    ensures kept { (seen_as : M → Watch) (monitors : MonitorMap M) (reference : Reference) (monitor held : M) →
        map.get monitors reference ≡ Some held → called seen_as monitors (Adds reference monitor) ≡ monitors }
    ensures removed { (seen_as : M → Watch) (monitors : MonitorMap M) (reference : Reference) →
        map.get (called seen_as monitors (Removes reference)) reference ≡ None }
    ensures ended { (seen_as : M → Watch) (monitors : MonitorMap M) (reference : Reference) (watch : Watch) →
        option_map seen_as (map.get monitors reference) ≡ Some watch → called seen_as monitors (Ends reference watch) ≡ called seen_as monitors (Removes reference) }
    ensures not_ended { (seen_as : M → Watch) (monitors : MonitorMap M) (reference : Reference) (watch : Watch) →
        option_map seen_as (map.get monitors reference) ≢ Some watch → called seen_as monitors (Ends reference watch) ≡ monitors }
    ensures taken { (seen_as : M → Watch) (monitors : MonitorMap M) (reference : Reference) (watch : Watch) →
        IsTrue (takes seen_as monitors (Ends reference watch)) ↔ (option_map seen_as (map.get monitors reference) ≡ Some watch) }
    ensures others { (seen_as : M → Watch) (monitors : MonitorMap M) (call : Call M) (other : Reference) → other ≢ reference_of call →
        map.get (called seen_as monitors call) other ≡ map.get monitors other }
{}

/// Proves that a reference leaves no more often than it was added, whichever calls are made. Once it has
/// left, no later call removes it again, unless it was added again. (Reference Manual, Processes,
/// Monitors.)
pub fn leaves_once<M>()
    ensures once { (seen_as : M → Watch) (calls : List (Call M)) (reference : Reference) →
        additions reference calls ≤ 1 → departures seen_as reference calls map.empty ≤ 1 }
    ensures no_more_than_added { (seen_as : M → Watch) (calls : List (Call M)) (reference : Reference) →
        departures seen_as reference calls map.empty ≤ additions reference calls }
    ensures removed { (seen_as : M → Watch) (monitors : MonitorMap M) (reference : Reference) (calls : List (Call M)) →
        additions reference calls ≡ 0 → departures seen_as reference calls (called seen_as monitors (Removes reference)) ≡ 0 }
    ensures ended { (seen_as : M → Watch) (monitors : MonitorMap M) (reference : Reference) (watch : Watch) (calls : List (Call M)) →
        IsTrue (takes seen_as monitors (Ends reference watch)) → additions reference calls ≡ 0 →
        departures seen_as reference calls (called seen_as monitors (Ends reference watch)) ≡ 0 }
{}

/// Proves that the first entry that passes is the first among the others, if none of the first `from` passes.
pub fn search_goes_on<M>()
    ensures { (monitors : MonitorMap M) (passes : M → Bool) (from : ℕ) → let entries = map.entries monitors in
        first_where (λ reference monitor. passes monitor) (take from entries) ≡ None →
        first_where (λ reference monitor. passes monitor) entries ≡ first_where (λ reference monitor. passes monitor) (drop from entries) }
{}

/// Proves that the first entry that passes, in their order, is the one of the least reference.
pub fn first_is_least<M>()
    ensures { (monitors : MonitorMap M) (passes : M → Bool) →
        IsFirst monitors passes (first_where (λ reference monitor. passes monitor) (map.entries monitors)) }
{}
