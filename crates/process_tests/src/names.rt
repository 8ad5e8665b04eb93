//! Incarnations, and the numbers that one draws. Names of nodes are vectors, in messages of the handshake.
use erl_names::{Creation, Mint, NodeName, TrunkId};
use erl_term::Refusal;
use std::alloc::Global;
use std::cmp::Ordering;
use std::test::*;

/// A name, of whose text the proof knows nothing more.
fn name(alloc: Global, text: &str) -> Result<NodeName, Refusal> {
    NodeName::read(alloc, text)
}

fn mint(alloc: Global, creation: Creation) -> Result<Mint, Refusal> {
    match name(alloc, "a@h") {
        Ok(name) => Ok(Mint::new(name, creation)),
        Err(why) => Err(why),
    }
}

fn mint_of_second(alloc: Global) -> Result<Mint, Refusal> {
    mint(alloc, Creation::first().next()?)
}

/// Returns the number of references that are drawn before they are used up, if each is the number of the draw.
fn references(mint: &mut Mint) -> Option<u32> {
    for count in 0..300_000 {
        match mint.next_reference() {
            Ok(number) if number == count + 1 => {}
            Ok(_) => return None,
            Err(_) => return Some(count),
        }
    }
    None
}

/// Used up for good, and the other numbers aren't.
#[test]
fn references_used_up(rt: HostRuntime) -> Result<(), Fail> {
    let mut mint = mint(rt.alloc(), Creation::first())?;
    assert_eq!(rt; references(&mut mint), Some(262_143));
    assert_eq!(rt; mint.next_reference(), Err(Refusal::IdsUsedUp));
    assert_eq!(rt; mint.next_pid(), Ok(1));
    assert_eq!(rt; mint.next_unlink_id(), Ok(1));
    Ok(())
}

/// Returns the creation, the id and the serial of the pid of this number, if its node is a@h.
fn pid_of(mint: &Mint, number: u32) -> Result<(u32, u32, u32), Refusal> {
    let pid = mint.pid(number)?;
    if pid.node.text() != "a@h" {
        return Err(Refusal::BadName);
    }
    Ok((pid.creation, pid.id, pid.serial))
}

/// Returns true if the reference of this number has these words, and its node is a@h in its second incarnation.
fn is_reference(mint: &Mint, number: u32, words: &[u32]) -> Result<bool, Refusal> {
    let reference = mint.reference(number)?;
    Ok(
        reference.node.text() == "a@h"
            && reference.creation == 2
            && reference.words.as_slice() == words,
    )
}

#[test]
fn draws(rt: HostRuntime) -> Result<(), Fail> {
    let second = Creation::first().next()?;
    let mut mint = mint(rt.alloc(), second)?;
    assert!(rt; mint.name().text() == "a@h");
    assert_eq!(rt; mint.creation(), second);
    assert_eq!(rt; (mint.next_pid(), mint.next_pid()), (Ok(1), Ok(2)));
    assert_eq!(rt; mint.pids(), 2);
    assert_eq!(rt; mint.next_unlink_id(), Ok(1));
    assert_eq!(rt; pid_of(&mint, 7)?, (2, 7, 0));
    assert!(rt; is_reference(&mint, 8, &[8, 0, 0])?);
    Ok(())
}

fn trunk(alloc: Global, dialer: &str, count: u64) -> Result<TrunkId, Refusal> {
    match name(alloc, dialer) {
        Ok(dialer) => Ok(TrunkId { dialer, count }),
        Err(why) => Err(why),
    }
}

/// A connection by the dialer's name and its count.
type Trunk = (&'static str, u64);

/// Two connections with their order: by the dialer's name, and then by its count. A copy is the same.
const TRUNKS: &[(Trunk, Trunk, Ordering)] = &[
    (("a@h", 2), ("b@h", 1), Ordering::Less),
    (("b@h", 1), ("b@h", 2), Ordering::Less),
    (("b@h", 1), ("b@h", 1), Ordering::Equal),
];

#[test]
fn trunks_in_order(rt: HostRuntime) -> Result<(), Fail> {
    for (one, other, wanted) in TRUNKS {
        let order = order_of(rt.alloc(), *one, *other)?;
        assert_eq!(rt;
            order,
            *wanted,
            "{} {}, {} {}",
            one.0, one.1, other.0, other.1
        );
    }
    Ok(())
}

fn order_of(alloc: Global, one: Trunk, other: Trunk) -> Result<Ordering, Refusal> {
    let one = trunk(alloc, one.0, one.1)?;
    let other = trunk(alloc, other.0, other.1)?.clone()?;
    Ok(one.cmp(&other))
}

/// Returns the number of the incarnation that is made of this number.
fn number_of(number: u32) -> Option<u32> {
    match Creation::new(number) {
        Some(creation) => Some(creation.number()),
        None => None,
    }
}

/// Returns the number of the incarnation behind the one of this number.
fn next_of(number: u32) -> Result<u32, Refusal> {
    let creation = Creation::new(number).ok_or(Refusal::BadName)?;
    let next = creation.next()?;
    Ok(next.number())
}

#[test]
fn incarnations_by_number(rt: HostRuntime) {
    assert_eq!(rt; Creation::first().number(), 1);
    for (number, wanted) in [(0, None), (1, Some(1)), (u32::MAX, Some(4_294_967_295))] {
        assert_eq!(rt; number_of(number), wanted);
    }
    for (number, wanted) in [(1, Ok(2)), (u32::MAX, Err(Refusal::IdsUsedUp))] {
        assert_eq!(rt; next_of(number), wanted);
    }
}

/// Returns true if a copy of the node's name is its name.
fn is_named_again(mint: &Mint) -> Result<bool, Refusal> {
    let name = mint.name().clone()?;
    Ok(name == *mint.name())
}

/// Returns true if a pid and a reference draw nothing, made or refused.
fn draws_nothing(mint: &mut Mint) -> Result<bool, Refusal> {
    let drawn = mint.next_pid()?;
    let pid = pid_of(mint, drawn);
    let reference = is_reference(mint, 1, &[1, 0, 0]);
    let draws_nothing = mint.pids() == 1 && mint.next_reference() == Ok(1);
    Ok(draws_nothing && pid? == (2, 1, 0) && reference?)
}

/// Run by the script fail-allocations too, with each allocation refused in turn.
#[test]
fn name_allocations(rt: HostRuntime) -> Result<(), Fail> {
    let mut mint = mint_of_second(rt.alloc())?;
    let is_named_again = is_named_again(&mint);
    let draws_nothing = draws_nothing(&mut mint);
    drop(mint);
    assert!(rt; is_named_again?);
    assert!(rt; draws_nothing?);
    Ok(())
}
