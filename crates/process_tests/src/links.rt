//! Ends of links of one process with several. Two processes link and unlink in the examples and in tests/pairs.md.
use crate::processes::{Process, pid};
use erl_term::Refusal;
use link_core::{End, Ends, LinkSignal};
use std::alloc::Global;
use std::test::*;

fn link(alloc: Global, ends: &mut Ends, partner: Process) -> Result<(), Refusal> {
    ends.link(pid(alloc, partner)?)?;
    Ok(())
}

fn end(alloc: Global, ends: &Ends, partner: Process) -> Result<End, Refusal> {
    Ok(ends.end(&pid(alloc, partner)?))
}

fn unlinked(alloc: Global, ends: &mut Ends, partner: Process) -> Result<LinkSignal, Refusal> {
    Ok(ends.on_unlink(&pid(alloc, partner)?, 6))
}

/// Links one process to several, in no order, and ends the second of these links.
fn links_to_five(alloc: Global, ends: &mut Ends) -> Result<LinkSignal, Refusal> {
    for id in [4, 1, 5, 2, 3] {
        link(alloc, ends, ("b@h", 1, id))?;
        link(alloc, ends, ("a@h", 1, id))?;
    }
    unlinked(alloc, ends, ("b@h", 1, 2))
}

const FIVE: &[(Process, End)] = &[
    (("b@h", 1, 1), End::Active),
    (("b@h", 1, 2), End::None),
    (("b@h", 1, 3), End::Active),
    (("b@h", 1, 4), End::Active),
    (("b@h", 1, 5), End::Active),
    (("b@h", 1, 6), End::None),
    (("a@h", 1, 1), End::Active),
    (("a@h", 1, 2), End::Active),
    (("a@h", 1, 3), End::Active),
    (("a@h", 1, 4), End::Active),
    (("a@h", 1, 5), End::Active),
];

// Counts the partners, each behind the one before.
fn partners(ends: &Ends) -> usize {
    let mut found = ends.first();
    for count in 0..100 {
        match found {
            Some((partner, _)) => found = ends.next_behind(partner),
            None => return count,
        }
    }
    100
}

/// Each partner has an end of its own.
#[test]
fn several_partners(rt: HostRuntime) -> Result<(), Fail> {
    let mut ends = Ends::new(rt.alloc());
    assert_eq!(rt; links_to_five(rt.alloc(), &mut ends)?, LinkSignal::Ack(6));
    assert_eq!(rt; partners(&ends), 9);
    for (partner, wanted) in FIVE {
        assert_eq!(rt; end(rt.alloc(), &ends, *partner), Ok(*wanted));
    }
    Ok(())
}

/// Links to a partner, or takes its LINK. Returns true if the end is as it has to be.
fn is_linked_or_not(alloc: Global, ends: &mut Ends, id: u32) -> Result<bool, Refusal> {
    let partner = pid(alloc, ("b@h", 1, id))?;
    let linked = if id % 2 == 0 {
        ends.link(partner.clone()?).map(|_| ())
    } else {
        ends.on_link(partner.clone()?)
    };
    let wanted = if linked.is_ok() {
        End::Active
    } else {
        End::None
    };
    let is_right = ends.end(&partner) == wanted;
    linked?;
    Ok(is_right)
}

/// Run by the script fail-allocations too, with each allocation refused in turn: where a link is
/// refused, its end is as it was.
#[test]
fn link_allocations(rt: HostRuntime) -> Result<(), Fail> {
    let mut ends = Ends::new(rt.alloc());
    for id in [7, 3, 8, 1, 6, 2, 5, 4] {
        assert!(rt; is_linked_or_not(rt.alloc(), &mut ends, id)?);
    }
    Ok(())
}
