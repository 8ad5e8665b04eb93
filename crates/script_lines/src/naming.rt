//! The things that the words of a line name.
ghost use Rattle.std.specs.Prelude.{◌≡◌, ◌&&◌};
ghost use Rattle.std.specs.Option.{option_copied};
ghost use Rattle.script_lines.specs.Naming.{all_in, atom_read, begins_atom, demonitor_named, formed, free_in, is_cookie, is_cookie_length, is_printable, monitor_named, names_bound, node_formed, nodes_formed, owner_named, process_in, process_named, processes_named, profile_in, profile_named, reference_in, sender_named, spawn_formed, switch_named, term_read};
ghost use Rattle.script_lines.specs.Words.{Answers};
ghost use Rattle.script_terms.specs.Binding.{Look, Knows};
ghost use Rattle.script_terms.specs.declared.names.Named.{Named};

use crate::reason::Reason;
use erl_handshake::Profile;
use erl_names::NodeName;
use erl_term::{Pid, Reference};
use script_terms::{Named, Names, check_term, has_unbound, is_name};

/// Refuses words as [`Reason::BadName`] unless `is_formed`.
pub(crate) fn formed(is_formed: bool) -> Result<(), Reason>
    ensures { result ≡ formed is_formed }
{
    if is_formed {
        Ok(())
    } else {
        Err(Reason::BadName)
    }
}

// Returns true if a cookie may have `len` characters.
fn is_cookie_len(len: usize) -> bool
    ensures { result ≡ is_cookie_length len }
{
    1 <= len && len <= 255
}

fn is_cookie(word: &[u8]) -> bool
    ensures { result ≡ is_cookie word.now }
{
    is_cookie_len(word.len()) && word.iter().all(|c| is_printable(*c))
}

fn is_printable(c: u8) -> bool
    ensures { result ≡ is_printable c }
{
    b'!' <= c && c <= b'~'
}

fn process_in<'a>(names: &'a Names, word: &str) -> Result<&'a Pid, Reason>
    ensures { (look : Look) → Knows names.now look → Answers (λ p. p.now) result (process_in (look word.now)) }
{
    match names.get(word) {
        Some(Named::Process(process)) => Ok(process),
        _ => Err(Reason::UnknownName),
    }
}

fn reference_in<'a>(names: &'a Names, word: &str) -> Result<&'a Reference, Reason>
    ensures { (look : Look) → Knows names.now look → Answers (λ r. r.now) result (reference_in (look word.now)) }
{
    match names.get(word) {
        Some(Named::Monitor(reference)) => Ok(reference),
        _ => Err(Reason::UnknownName),
    }
}

fn free_in(names: &Names, word: &str) -> Result<(), Reason>
    ensures { (look : Look) → Knows names.now look → result ≡ free_in (look word.now) }
{
    match names.get(word) {
        None => Ok(()),
        Some(_) => Err(Reason::NameTaken),
    }
}

/// Returns the process that `word` names.
pub(crate) fn process_named<'a>(names: &'a Names, word: &str) -> Result<&'a Pid, Reason>
    ensures { (look : Look) → Knows names.now look → Answers (λ p. p.now) result (process_named look word.now) }
{
    formed(is_name(word))?;
    process_in(names, word)
}

/// Returns the process that `process` names. Checks that `node` has the form of a node's name.
pub(crate) fn sender_named<'a>(
    names: &'a Names,
    process: &str,
    node: &str,
) -> Result<&'a Pid, Reason>
    ensures { (look : Look) → Knows names.now look → Answers (λ p. p.now) result (sender_named look process.now node.now) }
{
    formed(is_name(process) && NodeName::fits(node))?;
    process_in(names, process)
}

/// Returns the processes that `first` and `second` name.
pub(crate) fn processes_named<'a>(
    names: &'a Names,
    first: &str,
    second: &str,
) -> Result<(&'a Pid, &'a Pid), Reason>
    ensures { (look : Look) → Knows names.now look → Answers (λ pids. (pids.0.now, pids.1.now)) result (processes_named look first.now second.now) }
{
    formed(is_name(first) && is_name(second))?;
    let first = process_in(names, first)?;
    let second = process_in(names, second)?;
    Ok((first, second))
}

/// Returns the owner and the target of a monitor. Refuses a `name` for it that isn't free.
pub(crate) fn monitor_named<'a>(
    names: &'a Names,
    owner: &str,
    target: &str,
    name: &str,
) -> Result<(&'a Pid, &'a Pid), Reason>
    ensures { (look : Look) → Knows names.now look → Answers (λ pids. (pids.0.now, pids.1.now)) result (monitor_named look owner.now target.now name.now) }
{
    formed(is_name(owner) && is_name(target) && is_name(name))?;
    let owner = process_in(names, owner)?;
    let target = process_in(names, target)?;
    free_in(names, name)?;
    Ok((owner, target))
}

/// Returns the owner of a monitor by a registered name at `node`. Checks that `node` has the form of a
/// node's name. Refuses a `name` for the monitor that isn't free.
pub(crate) fn owner_named<'a>(
    names: &'a Names,
    owner: &str,
    node: &str,
    name: &str,
) -> Result<&'a Pid, Reason>
    ensures { (look : Look) → Knows names.now look → Answers (λ p. p.now) result (owner_named look owner.now node.now name.now) }
{
    formed(is_name(owner) && NodeName::fits(node) && is_name(name))?;
    let owner = process_in(names, owner)?;
    free_in(names, name)?;
    Ok(owner)
}

/// Returns the process that `owner` names, and the reference that `reference` names.
pub(crate) fn demonitor_named<'a>(
    names: &'a Names,
    owner: &str,
    reference: &str,
) -> Result<(&'a Pid, &'a Reference), Reason>
    ensures { (look : Look) → Knows names.now look → Answers (λ ids. (ids.0.now, ids.1.now)) result (demonitor_named look owner.now reference.now) }
{
    formed(is_name(owner) && is_name(reference))?;
    let owner = process_in(names, owner)?;
    let reference = reference_in(names, reference)?;
    Ok((owner, reference))
}

/// Checks that two words have the form of a node's name.
pub(crate) fn nodes_formed(node: &str, peer: &str) -> Result<(), Reason>
    ensures { result ≡ nodes_formed node.now peer.now }
{
    formed(NodeName::fits(node) && NodeName::fits(peer))
}

/// Checks that `node` has the form of a node's name, and that `name` is a free name.
pub(crate) fn spawn_formed(names: &Names, node: &str, name: &str) -> Result<(), Reason>
    ensures { (look : Look) → Knows names.now look → result ≡ spawn_formed look node.now name.now }
{
    formed(NodeName::fits(node) && is_name(name))?;
    free_in(names, name)
}

/// Checks that two words have the form of a node's name and that of a cookie.
pub(crate) fn node_formed(name: &str, cookie: &str) -> Result<(), Reason>
    ensures { result ≡ node_formed name.now cookie.now }
{
    formed(NodeName::fits(name) && is_cookie(cookie.as_bytes()))
}

/// Returns true for the word `on`, and false for `off`.
pub(crate) fn switch_named(word: &str) -> Result<bool, Reason>
    ensures { result ≡ switch_named word.now }
{
    match word {
        "on" => Ok(true),
        "off" => Ok(false),
        _ => Err(Reason::WrongWords),
    }
}

/// Returns true for the word `all`, and false if there is no word.
pub(crate) fn all_in(word: Option<&str>) -> Result<bool, Reason>
    ensures { result ≡ all_in (option_copied word.entry) }
{
    match word {
        Some("all") => Ok(true),
        Some(_) => Err(Reason::WrongWords),
        None => Ok(false),
    }
}

fn profile_named(word: &str) -> Result<Profile, Reason>
    ensures { result ≡ profile_named word.now }
{
    match word {
        "1" => Ok(Profile::One),
        "2" => Ok(Profile::Two),
        "3" => Ok(Profile::Three),
        _ => Err(Reason::WrongWords),
    }
}

/// Returns the profile that `word` names, `1`, `2` or `3`, or [`Profile::Three`] if there is no word.
pub(crate) fn profile_in(word: Option<&str>) -> Result<Profile, Reason>
    ensures { result ≡ profile_in (option_copied word.entry) }
{
    match word {
        Some(word) => profile_named(word),
        None => Ok(Profile::Three),
    }
}

/// Checks that `text` is a term. Reports an unbound name before any other fault of the text.
pub(crate) fn term_read(names: &Names, text: &str) -> Result<(), Reason>
    ensures { (look : Look) → Knows names.now look → result ≡ term_read look text.now }
{
    match check_term(names, text) {
        Ok(()) => Ok(()),
        Err(_) if has_unbound(names, text) => Err(Reason::UnknownName),
        Err(fault) => Err(Reason::of(fault)),
    }
}

/// Checks that each name behind a `$` outside of quotes is bound.
pub(crate) fn names_bound(names: &Names, text: &str) -> Result<(), Reason>
    ensures { (look : Look) → Knows names.now look → result ≡ names_bound look text.now }
{
    if has_unbound(names, text) {
        return Err(Reason::UnknownName);
    }
    Ok(())
}

/// Returns true if `text` begins as an atom does, and no other term.
pub(crate) fn begins_atom(text: &[u8]) -> bool
    ensures { result ≡ begins_atom text.now }
{
    match text {
        [first, ..] => *first == b'\'' || first.is_ascii_lowercase(),
        [] => false,
    }
}

/// Checks that `text` is an atom, bare or between quotes. Any other text is [`Reason::BadTerm`].
pub(crate) fn atom_read(names: &Names, text: &str) -> Result<(), Reason>
    ensures { (look : Look) → Knows names.now look → result ≡ atom_read look text.now }
{
    if !begins_atom(text.as_bytes()) {
        return Err(Reason::BadTerm);
    }
    match check_term(names, text) {
        Ok(()) => Ok(()),
        Err(_) => Err(Reason::BadTerm),
    }
}
