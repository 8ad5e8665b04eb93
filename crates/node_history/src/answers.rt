//! The comparison of two answers.
ghost use Rattle.std.specs.Prelude.{◌≡◌, ◌↔◌, IsTrue};
ghost use Rattle.std.specs.Option.{option_copied};

use crate::faults::is_same_fault;
use crate::same_events::is_same_trunk;
use crate::terms::{is_same_payload, is_same_reference};
use dist_model::{Answer, Kind, Links, Swept};
use erl_term::{Payload, Pid};
use link_core::End;

fn is_same_end(a: End, b: End) -> bool
    ensures { IsTrue result ↔ (a ≡ b) }
{
    match (a, b) {
        (End::None, End::None) => true,
        (End::Active, End::Active) => true,
        (End::Pending(id), End::Pending(other)) => id == other,
        _ => false,
    }
}

fn is_same_kind(a: Kind, b: Kind) -> bool
    ensures { IsTrue result ↔ (a ≡ b) }
{
    a == b
}

fn is_same_sweep(a: Swept, b: Swept) -> bool
    ensures { IsTrue result ↔ (a ≡ b) }
{
    a == b
}

fn is_same_link(a: &(Pid, End), b: &(Pid, End)) -> bool
    ensures { IsTrue result ↔ (a.now ≡ b.now) }
{
    a.0.is_same(&b.0) && is_same_end(a.1, b.1)
}

fn are_same_entries(a: &[(Pid, End)], b: &[(Pid, End)]) -> bool
    ensures { IsTrue result ↔ (a.now ≡ b.now) }
{
    if a.len() != b.len() {
        return false;
    }
    for place in 0..a.len() {
        if !is_same_link(&a[place], &b[place]) {
            return false;
        }
    }
    true
}

fn are_same_links(a: &Links, b: &Links) -> bool
    ensures { IsTrue result ↔ (a.now ≡ b.now) }
{
    are_same_entries(a.entries.as_slice(), b.entries.as_slice())
}

fn is_same_message(a: Option<&Payload>, b: Option<&Payload>) -> bool
    ensures { IsTrue result ↔ (option_copied a.entry ≡ option_copied b.entry) }
{
    match (a, b) {
        (None, None) => true,
        (Some(a), Some(b)) => is_same_payload(a, b),
        _ => false,
    }
}

fn is_same_holder(a: Option<&Pid>, b: Option<&Pid>) -> bool
    ensures { IsTrue result ↔ (option_copied a.entry ≡ option_copied b.entry) }
{
    match (a, b) {
        (None, None) => true,
        (Some(a), Some(b)) => a.is_same(b),
        _ => false,
    }
}

pub(crate) fn is_same_said(a: &Answer, b: &Answer) -> bool
    ensures { IsTrue result ↔ (a.now ≡ b.now) }
{
    match (a, b) {
        (Answer::Done, Answer::Done) => true,
        (Answer::Pid(pid), Answer::Pid(other)) => pid.is_same(other),
        (Answer::Reference(reference), Answer::Reference(other)) => {
            is_same_reference(reference, other)
        }
        (Answer::Message(message), Answer::Message(other)) => {
            is_same_message(message.as_ref(), other.as_ref())
        }
        (Answer::Links(links), Answer::Links(other)) => are_same_links(links, other),
        (Answer::Alive(is_living), Answer::Alive(other)) => is_living == other,
        (Answer::Holder(holder), Answer::Holder(other)) => {
            is_same_holder(holder.as_ref(), other.as_ref())
        }
        (Answer::Trunk(trunk), Answer::Trunk(other)) => is_same_trunk(trunk, other),
        (Answer::Took(kind), Answer::Took(other)) => is_same_kind(*kind, *other),
        (Answer::Broken(fault), Answer::Broken(other)) => is_same_fault(*fault, *other),
        (Answer::Swept(what), Answer::Swept(other)) => is_same_sweep(*what, *other),
        (Answer::Stopped, Answer::Stopped) => true,
        (Answer::Started(creation), Answer::Started(other)) => creation == other,
        _ => false,
    }
}
