//! Monitors of processes, put in and taken out call by call.
use crate::processes::{Process, atom, pid, reference};
use erl_term::{Atom, Pid, Reference, Refusal};
use monitor_core::{Registration, Target, Watch, Watchers, Watches};
use std::alloc::{AllocError, Global};
use std::test::*;

const OWNER: Process = ("a@h", 1, 1);

const OTHER: Process = ("a@h", 1, 2);

const TARGET: Process = ("b@h", 1, 2);

const TARGET_OF_THE_NEXT: Process = ("b@h", 2, 2);

const OWNER_OF_THE_NEXT: Process = ("a@h", 2, 1);

/// A name, and its node.
type Name = (&'static str, &'static str);

const NAME: Name = ("q", "b@h");

const ANOTHER_NAME: Name = ("r", "b@h");

const NAME_ELSEWHERE: Name = ("q", "a@h");

/// A call of a table of monitors. A reference is given by its word.
#[derive(Clone, Copy)]
enum Call {
    /// Puts in the monitor of a reference, with its owner and its target.
    Put(u32, Process, Process),
    /// Puts in the monitor of a reference, with its owner and its target. One of others is bound to the
    /// process.
    PutNamed(u32, Process, Name, Process),
    /// A DOWN or a DEMONITOR_P for a reference, with the owner and the target.
    Ends(u32, Process, Process),
    /// The same for a target that is a name.
    EndsNamed(u32, Process, Name),
    Has(u32),
    Remove(u32),
    /// Takes those of a process out: of its own monitors, or of those that are bound to it.
    RemoveAll(Process),
    /// The first of a process: of its own monitors, or of those that are bound to it.
    First(Process),
    /// The number that a process has: of its own monitors, or of those that are bound to it.
    CountOf(Process),
    /// The last of those.
    LastOf(Process),
    /// The first whose other end is on the node of this process.
    FirstTowards(Process),
    /// The number of such monitors.
    CountTowards(Process),
    /// The last of all.
    Last,
}

/// The answer of a call.
#[derive(Clone, Copy, Debug, PartialEq, Eq)]
enum Answer {
    Done,
    Count(usize),
    Yes,
    No,
    /// The word of the reference that was found.
    Found(u32),
    NotFound,
}

fn yes_or_no(is_so: bool) -> Answer {
    if is_so { Answer::Yes } else { Answer::No }
}

fn found(reference: Option<&Reference>) -> Answer {
    match reference {
        Some(reference) => match reference.words.as_slice() {
            [word, ..] => Answer::Found(*word),
            [] => Answer::NotFound,
        },
        None => Answer::NotFound,
    }
}

/// A walk has no more entries than that here.
const MOST: usize = 100;

/// Returns the reference of a watch.
fn of_watch<'a>(entry: Option<&'a (Reference, Watch)>) -> Option<&'a Reference> {
    match entry {
        Some((reference, _)) => Some(reference),
        None => None,
    }
}

/// Returns the reference of a registration.
fn of_registration<'a>(entry: Option<&'a (Reference, Registration)>) -> Option<&'a Reference> {
    match entry {
        Some((reference, _)) => Some(reference),
        None => None,
    }
}

/// Returns the number that a process owns, each found behind the one before, and the last of them.
fn all_owned(watches: &Watches, owner: &Pid) -> (usize, Answer) {
    let mut last: Option<&Reference> = None;
    for count in 0..MOST {
        match of_watch(watches.next_owned_by(owner, last)) {
            Some(reference) => last = Some(reference),
            None => return (count, found(last)),
        }
    }
    (MOST, found(last))
}

/// Returns the number that are bound to a process, and the last of them.
fn all_held(watchers: &Watchers, held: &Pid) -> (usize, Answer) {
    let mut last: Option<&Reference> = None;
    for count in 0..MOST {
        match of_registration(watchers.next_held(held, last)) {
            Some(reference) => last = Some(reference),
            None => return (count, found(last)),
        }
    }
    (MOST, found(last))
}

/// Returns the number of those whose targets are on the node.
fn count_of_targets(watches: &Watches, node: &Atom) -> usize {
    let mut last: Option<&Reference> = None;
    for count in 0..MOST {
        match of_watch(watches.next_towards(node, last)) {
            Some(reference) => last = Some(reference),
            None => return count,
        }
    }
    MOST
}

/// Returns the number of those whose owners are on the node.
fn count_of_owners(watchers: &Watchers, node: &Atom) -> usize {
    let mut last: Option<&Reference> = None;
    for count in 0..MOST {
        match of_registration(watchers.next_towards(node, last)) {
            Some(reference) => last = Some(reference),
            None => return count,
        }
    }
    MOST
}

fn watch_of(owner: Pid, target: Target) -> Watch {
    Watch { owner, target }
}

fn registration_of(owner: Pid, target: Target, held: Pid) -> Registration {
    Registration {
        owner,
        target,
        held,
    }
}

fn name(alloc: Global, name: Name) -> Result<Target, Refusal> {
    let (name, node) = name;
    let name = atom(alloc, name)?;
    Ok(Target::Name {
        name,
        node: atom(alloc, node)?,
    })
}

fn watch(alloc: Global, owner: Process, target: Process) -> Result<Watch, Refusal> {
    let owner = pid(alloc, owner)?;
    Ok(watch_of(owner, Target::Pid(pid(alloc, target)?)))
}

fn watch_by_name(alloc: Global, owner: Process, target: Name) -> Result<Watch, Refusal> {
    let owner = pid(alloc, owner)?;
    Ok(watch_of(owner, name(alloc, target)?))
}

fn add(watches: &mut Watches, reference: Reference, watch: Watch) -> Result<(), AllocError> {
    watches.add(reference, watch)
}

fn puts_own(
    alloc: Global,
    watches: &mut Watches,
    call: (u32, Process, Process),
) -> Result<Answer, Refusal> {
    let (word, owner, target) = call;
    add(
        watches,
        reference(alloc, word)?,
        watch(alloc, owner, target)?,
    )?;
    Ok(Answer::Done)
}

fn puts_own_by_name(
    alloc: Global,
    watches: &mut Watches,
    call: (u32, Process, Name),
) -> Result<Answer, Refusal> {
    let (word, owner, target) = call;
    add(
        watches,
        reference(alloc, word)?,
        watch_by_name(alloc, owner, target)?,
    )?;
    Ok(Answer::Done)
}

fn ends_own(
    alloc: Global,
    watches: &mut Watches,
    call: (u32, Process, Process),
) -> Result<Answer, Refusal> {
    let (word, owner, target) = call;
    let reference = reference(alloc, word)?;
    let watch = watch(alloc, owner, target)?;
    Ok(yes_or_no(watches.on_down(&reference, &watch)))
}

fn ends_own_by_name(
    alloc: Global,
    watches: &mut Watches,
    call: (u32, Process, Name),
) -> Result<Answer, Refusal> {
    let (word, owner, target) = call;
    let reference = reference(alloc, word)?;
    let watch = watch_by_name(alloc, owner, target)?;
    Ok(yes_or_no(watches.on_down(&reference, &watch)))
}

fn removes_own(alloc: Global, watches: &mut Watches, process: Process) -> Result<Answer, Refusal> {
    watches.remove_owned_by(&pid(alloc, process)?);
    Ok(Answer::Done)
}

/// Makes the call with the monitors that processes of the node own.
fn call_own(alloc: Global, watches: &mut Watches, call: Call) -> Result<Answer, Refusal> {
    Ok(match call {
        Call::Put(word, owner, target) => puts_own(alloc, watches, (word, owner, target))?,
        Call::PutNamed(word, owner, target, _) => puts_own_by_name(
            alloc,
            watches,
            (word, owner, target),
        )?,
        Call::Ends(word, owner, target) => ends_own(alloc, watches, (word, owner, target))?,
        Call::EndsNamed(word, owner, target) => ends_own_by_name(
            alloc,
            watches,
            (word, owner, target),
        )?,
        Call::Has(word) => yes_or_no(watches.get(&reference(alloc, word)?).is_some()),
        Call::Remove(word) => yes_or_no(watches.remove(&reference(alloc, word)?)),
        Call::First(process) => found(of_watch(watches.first_owned_by(&pid(alloc, process)?))),
        Call::CountOf(process) => Answer::Count(all_owned(watches, &pid(alloc, process)?).0),
        Call::LastOf(process) => all_owned(watches, &pid(alloc, process)?).1,
        Call::RemoveAll(process) => removes_own(alloc, watches, process)?,
        Call::FirstTowards(process) => found(of_watch(watches.first_towards(
            &pid(alloc, process)?.node,
        ))),
        Call::CountTowards(process) => Answer::Count(count_of_targets(
            watches,
            &pid(alloc, process)?.node,
        )),
        Call::Last => found(of_watch(watches.last())),
    })
}

fn registration(alloc: Global, owner: Process, target: Process) -> Result<Registration, Refusal> {
    let owner = pid(alloc, owner)?;
    let held = pid(alloc, target)?;
    Ok(registration_of(owner, Target::Pid(pid(alloc, target)?), held))
}

fn registration_by_name(
    alloc: Global,
    owner: Process,
    target: Name,
    held: Process,
) -> Result<Registration, Refusal> {
    let owner = pid(alloc, owner)?;
    let held = pid(alloc, held)?;
    Ok(registration_of(owner, name(alloc, target)?, held))
}

fn puts(
    alloc: Global,
    watchers: &mut Watchers,
    call: (u32, Process, Process),
) -> Result<Answer, Refusal> {
    let (word, owner, target) = call;
    watchers.on_monitor(reference(alloc, word)?, registration(alloc, owner, target)?)?;
    Ok(Answer::Done)
}

fn puts_by_name(
    alloc: Global,
    watchers: &mut Watchers,
    call: (u32, Process, Name),
    held: Process,
) -> Result<Answer, Refusal> {
    let (word, owner, target) = call;
    watchers.on_monitor(
        reference(alloc, word)?,
        registration_by_name(alloc, owner, target, held)?,
    )?;
    Ok(Answer::Done)
}

fn ends(
    alloc: Global,
    watchers: &mut Watchers,
    call: (u32, Process, Process),
) -> Result<Answer, Refusal> {
    let (word, owner, target) = call;
    let reference = reference(alloc, word)?;
    let watch = watch(alloc, owner, target)?;
    Ok(yes_or_no(watchers.on_demonitor(&reference, &watch)))
}

fn ends_by_name(
    alloc: Global,
    watchers: &mut Watchers,
    call: (u32, Process, Name),
) -> Result<Answer, Refusal> {
    let (word, owner, target) = call;
    let reference = reference(alloc, word)?;
    let watch = watch_by_name(alloc, owner, target)?;
    Ok(yes_or_no(watchers.on_demonitor(&reference, &watch)))
}

fn removes(alloc: Global, watchers: &mut Watchers, process: Process) -> Result<Answer, Refusal> {
    watchers.remove_held(&pid(alloc, process)?);
    Ok(Answer::Done)
}

/// Makes the call with the monitors that others have of processes of the node.
fn call_of_others(alloc: Global, watchers: &mut Watchers, call: Call) -> Result<Answer, Refusal> {
    Ok(match call {
        Call::Put(word, owner, target) => puts(alloc, watchers, (word, owner, target))?,
        Call::PutNamed(word, owner, target, held) => puts_by_name(
            alloc,
            watchers,
            (word, owner, target),
            held,
        )?,
        Call::Ends(word, owner, target) => ends(alloc, watchers, (word, owner, target))?,
        Call::EndsNamed(word, owner, target) => ends_by_name(
            alloc,
            watchers,
            (word, owner, target),
        )?,
        Call::Has(word) => yes_or_no(watchers.get(&reference(alloc, word)?).is_some()),
        Call::Remove(word) => yes_or_no(watchers.remove(&reference(alloc, word)?)),
        Call::First(process) => found(of_registration(watchers.first_held(&pid(alloc, process)?))),
        Call::CountOf(process) => Answer::Count(all_held(watchers, &pid(alloc, process)?).0),
        Call::LastOf(process) => all_held(watchers, &pid(alloc, process)?).1,
        Call::RemoveAll(process) => removes(alloc, watchers, process)?,
        Call::FirstTowards(process) => found(of_registration(watchers.first_towards(
            &pid(alloc, process)?.node,
        ))),
        Call::CountTowards(process) => Answer::Count(count_of_owners(
            watchers,
            &pid(alloc, process)?.node,
        )),
        Call::Last => found(of_registration(watchers.last())),
    })
}

/// A reference that has a monitor keeps it, and a DOWN ends the monitor that it names whole, once.
const OWN: &[(Call, Answer)] = &[
    (Call::Put(2, OWNER, TARGET), Answer::Done),
    (Call::Put(1, OWNER, TARGET), Answer::Done),
    (Call::Put(1, TARGET, OWNER), Answer::Done),
    (Call::Ends(1, OWNER, TARGET_OF_THE_NEXT), Answer::No),
    (Call::Ends(1, OTHER, TARGET), Answer::No),
    (Call::Has(1), Answer::Yes),
    (Call::Ends(1, OWNER, TARGET), Answer::Yes),
    (Call::Ends(1, OWNER, TARGET), Answer::No),
    (Call::Has(1), Answer::No),
    (Call::Remove(2), Answer::Yes),
    (Call::Ends(2, OWNER, TARGET), Answer::No),
];

/// The least reference comes first. A process that ends takes all its own with it.
const OWN_IN_ORDER: &[(Call, Answer)] = &[
    (Call::Put(3, OWNER, TARGET), Answer::Done),
    (Call::Put(1, OTHER, OWNER), Answer::Done),
    (Call::Put(2, OWNER, TARGET), Answer::Done),
    (Call::Put(4, OWNER, OTHER), Answer::Done),
    (Call::First(OWNER), Answer::Found(2)),
    (Call::First(OTHER), Answer::Found(1)),
    (Call::FirstTowards(TARGET), Answer::Found(2)),
    (Call::CountTowards(TARGET), Answer::Count(2)),
    (Call::Last, Answer::Found(4)),
    (Call::Remove(2), Answer::Yes),
    (Call::FirstTowards(TARGET), Answer::Found(3)),
    (Call::RemoveAll(OWNER), Answer::Done),
    (Call::First(OWNER), Answer::NotFound),
    (Call::FirstTowards(TARGET), Answer::NotFound),
    (Call::FirstTowards(OWNER), Answer::Found(1)),
    (Call::CountTowards(OWNER), Answer::Count(1)),
    (Call::Last, Answer::Found(1)),
];

/// A process is found with all that it has, whatever came or went before them.
const OWN_OF_EACH: &[(Call, Answer)] = &[
    (Call::Put(5, OWNER, TARGET), Answer::Done),
    (Call::Put(3, OTHER, TARGET), Answer::Done),
    (Call::Put(4, OWNER, OTHER), Answer::Done),
    (Call::Put(1, OWNER_OF_THE_NEXT, TARGET), Answer::Done),
    (Call::Put(2, OWNER, TARGET), Answer::Done),
    (Call::Put(4, OTHER, OWNER), Answer::Done),
    (Call::CountOf(OWNER), Answer::Count(3)),
    (Call::LastOf(OWNER), Answer::Found(5)),
    (Call::LastOf(OTHER), Answer::Found(3)),
    (Call::LastOf(OWNER_OF_THE_NEXT), Answer::Found(1)),
    (Call::CountOf(TARGET), Answer::Count(0)),
    (Call::Remove(2), Answer::Yes),
    (Call::RemoveAll(OWNER_OF_THE_NEXT), Answer::Done),
    (Call::CountOf(OWNER), Answer::Count(2)),
    (Call::LastOf(OTHER), Answer::Found(3)),
    (Call::RemoveAll(OWNER), Answer::Done),
    (Call::LastOf(OTHER), Answer::Found(3)),
];

/// A DOWN ends the monitor of a name only if it names the same name on the same node.
const OWN_BY_NAME: &[(Call, Answer)] = &[
    (Call::PutNamed(1, OWNER, NAME, TARGET), Answer::Done),
    (Call::Put(2, OWNER, TARGET), Answer::Done),
    (
        Call::PutNamed(3, OWNER, NAME_ELSEWHERE, OTHER),
        Answer::Done,
    ),
    (Call::FirstTowards(TARGET), Answer::Found(1)),
    (Call::CountTowards(TARGET), Answer::Count(2)),
    (Call::CountTowards(OWNER), Answer::Count(1)),
    (Call::Ends(1, OWNER, TARGET), Answer::No),
    (Call::EndsNamed(1, OWNER, ANOTHER_NAME), Answer::No),
    (Call::EndsNamed(1, OWNER, NAME_ELSEWHERE), Answer::No),
    (Call::EndsNamed(1, OTHER, NAME), Answer::No),
    (Call::EndsNamed(2, OWNER, NAME), Answer::No),
    (Call::EndsNamed(1, OWNER, NAME), Answer::Yes),
    (Call::EndsNamed(1, OWNER, NAME), Answer::No),
    (Call::CountOf(OWNER), Answer::Count(2)),
];

const OF_OTHERS: &[(Call, Answer)] = &[
    (Call::Put(3, OWNER, TARGET), Answer::Done),
    (Call::Put(1, OWNER, TARGET), Answer::Done),
    (Call::Put(2, OWNER, TARGET), Answer::Done),
    (Call::Put(1, TARGET, OWNER), Answer::Done),
    (Call::Put(4, TARGET, OTHER), Answer::Done),
    (Call::Ends(1, OWNER_OF_THE_NEXT, TARGET), Answer::No),
    (Call::Has(1), Answer::Yes),
    (Call::First(TARGET), Answer::Found(1)),
    (Call::CountOf(TARGET), Answer::Count(3)),
    (Call::LastOf(TARGET), Answer::Found(3)),
    (Call::LastOf(OTHER), Answer::Found(4)),
    (Call::FirstTowards(OWNER), Answer::Found(1)),
    (Call::CountTowards(OWNER), Answer::Count(3)),
    (Call::Ends(1, OWNER, TARGET), Answer::Yes),
    (Call::Remove(1), Answer::No),
    (Call::FirstTowards(OWNER), Answer::Found(2)),
    (Call::RemoveAll(TARGET), Answer::Done),
    (Call::First(TARGET), Answer::NotFound),
    (Call::LastOf(OTHER), Answer::Found(4)),
    (Call::FirstTowards(OWNER), Answer::NotFound),
    (Call::CountTowards(TARGET), Answer::Count(1)),
    (Call::Last, Answer::Found(4)),
];

/// A monitor by name is found by the process that it is bound to. A DEMONITOR_P names the name.
const OF_OTHERS_BY_NAME: &[(Call, Answer)] = &[
    (Call::PutNamed(1, OWNER, NAME, TARGET), Answer::Done),
    (
        Call::PutNamed(2, OWNER, NAME, TARGET_OF_THE_NEXT),
        Answer::Done,
    ),
    (Call::Put(3, OWNER, TARGET), Answer::Done),
    (Call::CountOf(TARGET), Answer::Count(2)),
    (Call::First(TARGET_OF_THE_NEXT), Answer::Found(2)),
    (Call::CountTowards(OWNER), Answer::Count(3)),
    (Call::Ends(1, OWNER, TARGET), Answer::No),
    (Call::EndsNamed(3, OWNER, NAME), Answer::No),
    (Call::EndsNamed(2, OWNER, ANOTHER_NAME), Answer::No),
    (Call::EndsNamed(2, OTHER, NAME), Answer::No),
    (Call::EndsNamed(2, OWNER, NAME), Answer::Yes),
    (Call::RemoveAll(TARGET), Answer::Done),
    (Call::Last, Answer::NotFound),
];

/// The place of the first row that doesn't hold.
fn first_wrong_own(alloc: Global, rows: &[(Call, Answer)]) -> Option<usize> {
    let mut watches = Watches::new(alloc);
    rows.iter().position(|(call, wanted)| call_own(alloc, &mut watches, *call) != Ok(*wanted))
}

fn first_wrong(alloc: Global, rows: &[(Call, Answer)]) -> Option<usize> {
    let mut watchers = Watchers::new(alloc);
    rows.iter().position(|(call, wanted)| call_of_others(alloc, &mut watchers, *call)
        != Ok(*wanted))
}

#[test]
fn own_monitors(rt: HostRuntime) {
    for rows in [OWN, OWN_IN_ORDER, OWN_OF_EACH, OWN_BY_NAME] {
        assert_eq!(rt; first_wrong_own(rt.alloc(), rows), None);
    }
}

#[test]
fn monitors_of_others(rt: HostRuntime) {
    for rows in [OF_OTHERS, OF_OTHERS_BY_NAME] {
        assert_eq!(rt; first_wrong(rt.alloc(), rows), None);
    }
}

/// Puts in a monitor. Returns true if its reference has one exactly where it was not refused.
fn is_put_or_not(alloc: Global, watches: &mut Watches, word: u32) -> Result<bool, Refusal> {
    let put = puts_own(alloc, watches, (word, OWNER, TARGET));
    let has = call_own(alloc, watches, Call::Has(word))?;
    Ok(has == yes_or_no(put.is_ok()) && put? == Answer::Done)
}

fn comes_or_not(alloc: Global, watchers: &mut Watchers, word: u32) -> Result<bool, Refusal> {
    let came = puts(alloc, watchers, (word, OWNER, TARGET));
    let has = call_of_others(alloc, watchers, Call::Has(word))?;
    Ok(has == yes_or_no(came.is_ok()) && came? == Answer::Done)
}

/// Run by the script fail-allocations too, with each allocation refused in turn: where a monitor is
/// refused, its reference has none.
#[test]
fn monitor_allocations(rt: HostRuntime) -> Result<(), Fail> {
    let mut watches = Watches::new(rt.alloc());
    for word in [7, 3, 8, 1, 6, 2, 5, 4] {
        assert!(rt; is_put_or_not(rt.alloc(), &mut watches, word)?);
    }
    Ok(())
}

/// The same of the monitors of others.
#[test]
fn registration_allocations(rt: HostRuntime) -> Result<(), Fail> {
    let mut watchers = Watchers::new(rt.alloc());
    for word in [7, 3, 8, 1, 6, 2, 5, 4] {
        assert!(rt; comes_or_not(rt.alloc(), &mut watchers, word)?);
    }
    Ok(())
}
