//! Terms that can't be written, sizes and orders of terms, and the texts of errors. The spellings that are read,
//! and their faults, are vectors.

use crate::bytes::joined;
use erl_term::{
    Atom, Pid, Reference, ReferenceWords, Refusal, TERM_LIMIT, Term, TermError, TermRef, decode,
    encode, term_at,
};
use std::alloc::{AllocError, Global};
use std::cmp::Ordering;
use std::test::*;

/// 6 bytes, and 2 for each element: the most.
const LONGEST: &str = "83 690007FFFD 524285*6100";

const _: () = prove!(TERM_LIMIT == 6 + 2 * 524_285);

/// Spellings, with the number of bytes of the canonical one behind the version byte, which counts too, and how many
/// levels that has.
const SIZES: &[(&str, usize, u32)] = &[
    ("6107", 3, 1),
    ("6200000007", 3, 1),
    ("6C00000000 6C00000000 6107", 3, 1),
    // 256 is no byte.
    ("6C00000001 6200000100 6A", 12, 2),
    ("6C0000FFFF 65535*6100 6A", 65_539, 1),
    ("6C00010000 65536*6100 6A", 131_079, 2),
    // A tail lies below its list.
    ("6C00000001 6101 6102", 10, 2),
    ("6C00000001 6101 6801 6800", 12, 3),
    // A list in the tail, proper and improper.
    ("6C00000001 6101 6B000102", 6, 1),
    ("6C00000000 6C00000001 6101 6102", 10, 2),
    ("6C00000001 6800 6C00000001 6800 6A", 11, 2),
    ("6C00000001 620000012C 6B00026162", 16, 2),
    ("6801 6B000107", 7, 2),
    ("690007FFFD 524285*6100", 1_048_576, 2),
    ("61*6801 6800", 125, 62),
    ("63*6801 6800", 129, 64),
    ("63*6801 6900000000", 129, 64),
    ("63*6801 6A", 128, 64),
    ("63*6801 6B000107", 131, 64),
    // A pid and a reference.
    ("6802 A REFERENCE", 45, 2),
];

/// Returns true if the canonical spelling has just so many levels and bytes.
fn has_size(term: &TermRef, levels: u32, len: usize) -> bool {
    let fewer = levels.saturating_sub(1);
    let shorter = len.saturating_sub(1);
    term.is_within(levels, len) && !term.is_within(fewer, len) && !term.is_within(levels, shorter)
}

fn is_of_size(alloc: Global, spelling: &str, len: usize, levels: u32) -> Result<bool, Fail> {
    let bytes = joined(alloc, &[spelling])?;
    match term_at(64, &bytes) {
        Some((term, [])) => Ok(has_size(&term, levels, len)),
        _ => Ok(false),
    }
}

#[test]
fn sizes(rt: HostRuntime) -> Result<(), Fail> {
    for &(spelling, len, levels) in SIZES {
        assert!(rt;
            is_of_size(rt.alloc(), spelling, len, levels)?,
            "{spelling}"
        );
    }
    Ok(())
}

/// A term that can't be written.
#[derive(Clone, Copy)]
enum Unwritable {
    /// A tuple of the term that is spelled.
    TupleOf(&'static str),
    /// A list without items whose tail is 1.
    NothingBeforeTail,
    /// A list of 1 whose tail is the empty list.
    ListInTail,
}

const UNWRITABLE: &[(Unwritable, TermError)] = &[
    (Unwritable::TupleOf("83 63*6801 6800"), TermError::TooDeep),
    (Unwritable::TupleOf(LONGEST), TermError::TooLong),
    (Unwritable::NothingBeforeTail, TermError::Malformed),
    (Unwritable::ListInTail, TermError::Malformed),
];

fn refusal(alloc: Global, term: Term) -> Option<TermError> {
    let refused = encode(alloc, &term).err();
    drop(term);
    refused
}

fn tuple_of(alloc: Global, bytes: &[u8]) -> Result<Term, Fail> {
    let (term, _) = decode(alloc, bytes)?;
    Ok(Term::Tuple(vec![in alloc; term]?))
}

fn refusal_of_tuple(alloc: Global, spelling: &str) -> Result<Option<TermError>, Fail> {
    let bytes = joined(alloc, &[spelling])?;
    let term = tuple_of(alloc, &bytes)?;
    Ok(refusal(alloc, term))
}

fn refusal_of_list(alloc: Global, items: Vec<Term>, tail: Term) -> Result<Option<TermError>, Fail> {
    let tail = Some(Box::new(alloc, tail)?);
    Ok(refusal(alloc, Term::List { items, tail }))
}

fn refusal_of(alloc: Global, term: Unwritable) -> Result<Option<TermError>, Fail> {
    match term {
        Unwritable::TupleOf(spelling) => refusal_of_tuple(alloc, spelling),
        Unwritable::NothingBeforeTail => refusal_of_list(alloc, Vec::new(alloc), Term::Int(1)),
        Unwritable::ListInTail => {
            let items = vec![in alloc; Term::Int(1)]?;
            refusal_of_list(alloc, items, Term::list(Vec::new(alloc)))
        }
    }
}

#[test]
fn unwritable_terms(rt: HostRuntime) -> Result<(), Fail> {
    for &(term, wanted) in UNWRITABLE {
        assert_eq!(rt; refusal_of(rt.alloc(), term)?, Some(wanted));
    }
    Ok(())
}

/// The name of the node, and then creation, id and serial.
type PidFields = (&'static str, u32, u32, u32);

const FIRST_PID: PidFields = ("a@h", 1, 1, 0);

/// The words of the first reference.
const FIRST_WORDS: &[u32] = &[1, 0, 0];

fn atom(alloc: Global, text: &str) -> Result<Atom, Fail> {
    let text = String::from_str(alloc, text)?;
    if !Atom::fits(text.as_str()) {
        return Err(Fail::from("no atom"));
    }
    Ok(Atom::new(text)?)
}

fn pid(alloc: Global, (node, creation, id, serial): PidFields) -> Result<Pid, Fail> {
    let node = atom(alloc, node)?;
    Ok(Pid {
        node,
        creation,
        id,
        serial,
    })
}

fn reference(alloc: Global, words: &[u32]) -> Result<Reference, Fail> {
    let words = ReferenceWords::new(words).ok_or("no words of a reference")?;
    let node = atom(alloc, "a@h")?;
    Ok(Reference {
        node,
        creation: 1,
        words,
    })
}

/// Two pids, and the order of the first to the second: by the name of the node first, and then by creation, id and
/// serial.
const PIDS: &[(PidFields, PidFields, Ordering)] = &[
    (FIRST_PID, FIRST_PID, Ordering::Equal),
    (FIRST_PID, ("b@h", 0, 0, 0), Ordering::Less),
    (FIRST_PID, ("a@h", 2, 0, 0), Ordering::Less),
    (("a@h", 1, 2, 0), FIRST_PID, Ordering::Greater),
];

fn are_in_order(one: &Pid, other: &Pid, order: Ordering) -> bool {
    let orders = (one.cmp(other), one.partial_cmp(other), one == other);
    orders == (order, Some(order), order == Ordering::Equal)
}

fn pids_are(
    alloc: Global,
    one: PidFields,
    other: PidFields,
    order: Ordering,
) -> Result<bool, Fail> {
    let one = pid(alloc, one)?;
    let other = pid(alloc, other)?;
    Ok(are_in_order(&one, &other, order))
}

fn references_are(
    alloc: Global,
    one: &[u32],
    other: &[u32],
    order: Ordering,
) -> Result<bool, Fail> {
    let one = reference(alloc, one)?;
    let other = reference(alloc, other)?;
    Ok((one.cmp(&other), one == other) == (order, order == Ordering::Equal))
}

fn are_words(words: &[u32]) -> bool {
    ReferenceWords::new(words).is_some()
}

#[test]
fn orders(rt: HostRuntime) -> Result<(), Fail> {
    for &(one, other, order) in PIDS {
        assert!(rt; pids_are(rt.alloc(), one, other, order)?, "{order:?}");
    }
    assert!(rt; references_are(rt.alloc(), FIRST_WORDS, &[1, 0, 1], Ordering::Less)?);
    assert!(rt; !are_words(&[]) && !are_words(&[0; 6]));
    Ok(())
}

const ERRORS: &[(TermError, u8, &str, &str)] = &[
    (TermError::Cut, 1, "Cut", "1 Cut"),
    (TermError::Malformed, 2, "Malformed", "2 Malformed"),
    (
        TermError::OutOfProfile(70),
        3,
        "OutOfProfile",
        "3 OutOfProfile(70)",
    ),
    (TermError::TooDeep, 4, "TooDeep", "4 TooDeep"),
    (TermError::TooLong, 5, "TooLong", "5 TooLong"),
    (TermError::OutOfMemory, 12, "OutOfMemory", "12 OutOfMemory"),
];

const REFUSALS: &[(Refusal, u8, &str)] = &[
    (Refusal::BadName, 1, "1 BadName"),
    (Refusal::NodeDown, 2, "2 NodeDown"),
    (Refusal::NoSuchProcess, 3, "3 NoSuchProcess"),
    (Refusal::IdsUsedUp, 4, "4 IdsUsedUp"),
    (Refusal::NotTheOwner, 5, "5 NotTheOwner"),
    (Refusal::TooLong, 8, "8 TooLong"),
    (Refusal::BadMessage, 10, "10 BadMessage"),
    (Refusal::FlagsMissing, 11, "11 FlagsMissing"),
    (Refusal::OutOfMemory, 12, "12 OutOfMemory"),
    (Refusal::BadDigest, 13, "13 BadDigest"),
    (Refusal::Nok, 14, "14 Nok"),
    (Refusal::Superseded, 15, "15 Superseded"),
    (Refusal::Busy, 16, "16 Busy"),
    (Refusal::SelfDial, 17, "17 SelfDial"),
    (Refusal::NotLive, 18, "18 NotLive"),
    (Refusal::NothingThere, 19, "19 NothingThere"),
    (Refusal::Forged, 20, "20 Forged"),
    (Refusal::NodeUp, 23, "23 NodeUp"),
    (Refusal::StrangeSeat, 29, "29 StrangeSeat"),
    (Refusal::NoThread, 30, "30 NoThread"),
];

fn has_parts(error: TermError, number: u8, name: &str) -> bool {
    let parts = (error.number(), error.name(), error.is_out_of_memory());
    parts == (number, name, number == 12)
}

fn is_error(
    alloc: Global,
    error: TermError,
    number: u8,
    name: &str,
    text: &str,
) -> Result<bool, AllocError> {
    let printed = format!(in alloc; "{error}")?;
    let is_text = printed.as_str() == text;
    drop(printed);
    Ok(is_text && has_parts(error, number, name))
}

fn is_refusal(alloc: Global, refusal: Refusal, number: u8, text: &str) -> Result<bool, AllocError> {
    let printed = format!(in alloc; "{refusal}")?;
    Ok((printed.as_str(), refusal.number()) == (text, number))
}

#[test]
fn errors_have_numbers_and_texts(rt: HostRuntime) -> Result<(), Fail> {
    for &(error, number, name, text) in ERRORS {
        assert!(rt; is_error(rt.alloc(), error, number, name, text)?, "{text}");
    }
    for &(refusal, number, text) in REFUSALS {
        assert!(rt; is_refusal(rt.alloc(), refusal, number, text)?, "{text}");
    }
    Ok(())
}

fn pid_is_cloned(alloc: Global) -> Result<bool, Fail> {
    let one = pid(alloc, FIRST_PID)?;
    let copy = one.clone()?;
    Ok(one.is_same(&copy))
}

fn reference_is_cloned(alloc: Global) -> Result<bool, Fail> {
    let one = reference(alloc, FIRST_WORDS)?;
    let copy = one.clone()?;
    Ok(one == copy)
}

/// Run by the script fail-allocations too, with each allocation refused in turn.
#[test]
fn term_allocations(rt: HostRuntime) -> Result<(), Fail> {
    assert!(rt; pid_is_cloned(rt.alloc())? && reference_is_cloned(rt.alloc())?);
    Ok(())
}
