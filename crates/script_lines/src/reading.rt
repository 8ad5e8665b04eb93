//! The reading of lines.
ghost use Rattle.std.specs.Prelude.{◌≡◌};
ghost use Rattle.std.specs.Option.{option_map};
ghost use Rattle.script_lines.specs.Lines.{Reads, ReadsSome, line_says, node_in, nodes_and_trunk_in, nodes_in, placed, process_and_term_in, process_in, processes_and_term_in, processes_in, verb_in, verb_says, words_say};
ghost use Rattle.script_lines.specs.Said.{trunk_of};
ghost use Rattle.script_lines.specs.Words.{Answers, behind_word, word_of};
ghost use Rattle.script_lines.specs.declared.command.Verb.TheVariants as verb;
ghost use Rattle.script_terms.specs.Binding.{Look, Knows};

use crate::command::Verb;
use crate::connections::{connection_in, number_in};
use crate::line::{Connection, Line};
use crate::naming::{
    all_in, atom_read, demonitor_named, formed, monitor_named, names_bound, node_formed,
    nodes_formed, owner_named, process_named, processes_named, profile_in, sender_named,
    spawn_formed, switch_named, term_read,
};
use crate::reason::Reason;
use crate::words::{
    atom_and_text, atom_and_word, first_word, no_words, one_word, text_at, three_words, two_words,
    two_words_or_three, word_and_text, word_or_none, words_and_text,
};
use erl_names::NodeName;
use erl_term::Pid;
use script_terms::Names;

/// The most bytes of a line, without its line break.
pub const LINE_LIMIT: usize = 65_536;

/// The kinds of line that stand only at the beginning of a script: true for each that may still come.
#[derive(Clone, Copy, Debug, PartialEq, Eq)]
pub struct MayCome {
    /// A `pair` line, which is the first of all.
    pub pair: bool,
    /// A `node` line.
    pub node: bool,
}

fn placed(is_placed: bool) -> Result<(), Reason>
    ensures { result ≡ placed is_placed }
{
    if is_placed {
        Ok(())
    } else {
        Err(Reason::WrongWords)
    }
}

// The words behind a verb, in forms that several verbs share.

fn nodes_in(rest: &str) -> Result<(&str, &str), Reason>
    ensures { Answers (λ nodes. (nodes.0.now, nodes.1.now)) result (nodes_in rest.now) }
{
    let (node, peer) = two_words(rest)?;
    nodes_formed(node, peer)?;
    Ok((node, peer))
}

fn nodes_and_connection_in(rest: &str) -> Result<(&str, &str, Option<Connection<'_>>), Reason>
    ensures { Answers (λ it. (it.0.now, it.1.now, option_map trunk_of it.2)) result (nodes_and_trunk_in rest.now) }
{
    let (node, peer, word) = two_words_or_three(rest)?;
    nodes_formed(node, peer)?;
    let connection = connection_in(word)?;
    Ok((node, peer, connection))
}

fn node_in(rest: &str) -> Result<&str, Reason>
    ensures { Answers (λ node. node.now) result (node_in rest.now) }
{
    let node = one_word(rest)?;
    formed(NodeName::fits(node))?;
    Ok(node)
}

fn processes_in<'a>(names: &'a Names, rest: &str) -> Result<(&'a Pid, &'a Pid), Reason>
    ensures { (look : Look) → Knows names.now look → Answers (λ pids. (pids.0.now, pids.1.now)) result (processes_in look rest.now) }
{
    let (first, second) = two_words(rest)?;
    processes_named(names, first, second)
}

fn process_in<'a>(names: &'a Names, rest: &str) -> Result<&'a Pid, Reason>
    ensures { (look : Look) → Knows names.now look → Answers (λ p. p.now) result (process_in look rest.now) }
{
    let word = one_word(rest)?;
    process_named(names, word)
}

fn processes_and_term_in<'a>(
    names: &'a Names,
    rest: &'a str,
) -> Result<(&'a Pid, &'a Pid, &'a str), Reason>
    ensures { (look : Look) → Knows names.now look → Answers (λ it. (it.0.now, it.1.now, it.2.now)) result (processes_and_term_in look rest.now) }
{
    let (first, second, term) = words_and_text(rest)?;
    let (first, second) = processes_named(names, first, second)?;
    term_read(names, term)?;
    Ok((first, second, term))
}

fn process_and_term_in<'a>(names: &'a Names, rest: &'a str) -> Result<(&'a Pid, &'a str), Reason>
    ensures { (look : Look) → Knows names.now look → Answers (λ it. (it.0.now, it.1.now)) result (process_and_term_in look rest.now) }
{
    let (process, term) = word_and_text(rest)?;
    let process = process_named(names, process)?;
    term_read(names, term)?;
    Ok((process, term))
}

// The words behind a verb, in forms of one verb alone.

fn node_line(may_come: MayCome, rest: &str) -> Result<Line<'_>, Reason>
    ensures { (look : Look) → Reads (verb_says may_come look verb.Node rest.now) result }
{
    let (name, cookie, profile) = two_words_or_three(rest)?;
    let profile = profile_in(profile)?;
    placed(may_come.node)?;
    node_formed(name, cookie)?;
    Ok(Line::Node {
        name,
        cookie,
        profile,
    })
}

fn pair_line(may_come: MayCome, rest: &str) -> Result<Line<'_>, Reason>
    ensures { (look : Look) → Reads (verb_says may_come look verb.Pair rest.now) result }
{
    no_words(rest)?;
    placed(may_come.pair)?;
    Ok(Line::Pair)
}

fn spawn_line<'a>(names: &Names, rest: &'a str) -> Result<Line<'a>, Reason>
    ensures { (may_come : MayCome) (look : Look) → Knows names.now look → Reads (verb_says may_come look verb.Spawn rest.now) result }
{
    let (node, name) = two_words(rest)?;
    spawn_formed(names, node, name)?;
    Ok(Line::Spawn { node, name })
}

fn monitor_line<'a>(names: &'a Names, rest: &'a str) -> Result<Line<'a>, Reason>
    ensures { (may_come : MayCome) (look : Look) → Knows names.now look → Reads (verb_says may_come look verb.Monitor rest.now) result }
{
    let (owner, target, name) = three_words(rest)?;
    let (owner, target) = monitor_named(names, owner, target, name)?;
    Ok(Line::Monitor {
        owner,
        target,
        name,
    })
}

fn demonitor_line<'a>(names: &'a Names, rest: &str) -> Result<Line<'a>, Reason>
    ensures { (may_come : MayCome) (look : Look) → Knows names.now look → Reads (verb_says may_come look verb.Demonitor rest.now) result }
{
    let (owner, reference) = two_words(rest)?;
    let (owner, reference) = demonitor_named(names, owner, reference)?;
    Ok(Line::Demonitor { owner, reference })
}

fn trap_line<'a>(names: &'a Names, rest: &str) -> Result<Line<'a>, Reason>
    ensures { (may_come : MayCome) (look : Look) → Knows names.now look → Reads (verb_says may_come look verb.Trap rest.now) result }
{
    let (process, switch) = two_words(rest)?;
    let on = switch_named(switch)?;
    let process = process_named(names, process)?;
    Ok(Line::Trap { process, on })
}

fn register_line<'a>(names: &'a Names, rest: &'a str) -> Result<Line<'a>, Reason>
    ensures { (may_come : MayCome) (look : Look) → Knows names.now look → Reads (verb_says may_come look verb.Register rest.now) result }
{
    let (process, name) = word_and_text(rest)?;
    let process = process_named(names, process)?;
    atom_read(names, name)?;
    Ok(Line::Register { process, name })
}

fn whereis_line<'a>(names: &Names, rest: &'a str) -> Result<Line<'a>, Reason>
    ensures { (may_come : MayCome) (look : Look) → Knows names.now look → Reads (verb_says may_come look verb.WhereIs rest.now) result }
{
    let (node, name) = word_and_text(rest)?;
    formed(NodeName::fits(node))?;
    atom_read(names, name)?;
    Ok(Line::WhereIs { node, name })
}

fn sendname_line<'a>(names: &'a Names, rest: &'a str) -> Result<Line<'a>, Reason>
    ensures { (may_come : MayCome) (look : Look) → Knows names.now look → Reads (verb_says may_come look verb.SendName rest.now) result }
{
    let (from, node, text) = words_and_text(rest)?;
    let (name, term) = atom_and_text(text)?;
    let from = sender_named(names, from, node)?;
    term_read(names, term)?;
    atom_read(names, name)?;
    Ok(Line::SendName {
        from,
        node,
        name,
        term,
    })
}

fn monitorname_line<'a>(names: &'a Names, rest: &'a str) -> Result<Line<'a>, Reason>
    ensures { (may_come : MayCome) (look : Look) → Knows names.now look → Reads (verb_says may_come look verb.MonitorName rest.now) result }
{
    let (owner, node, text) = words_and_text(rest)?;
    let (atom, name) = atom_and_word(text)?;
    let owner = owner_named(names, owner, node, name)?;
    atom_read(names, atom)?;
    Ok(Line::MonitorName {
        owner,
        node,
        atom,
        name,
    })
}

fn lose_line(rest: &str) -> Result<Line<'_>, Reason>
    ensures { (may_come : MayCome) (look : Look) → Reads (verb_says may_come look verb.Lose rest.now) result }
{
    let (node, peer, connection) = nodes_and_connection_in(rest)?;
    Ok(Line::Lose {
        node,
        peer,
        connection,
    })
}

fn deliver_line(rest: &str) -> Result<Line<'_>, Reason>
    ensures { (may_come : MayCome) (look : Look) → Reads (verb_says may_come look verb.Deliver rest.now) result }
{
    let (node, peer, connection) = nodes_and_connection_in(rest)?;
    Ok(Line::Deliver {
        node,
        peer,
        connection,
    })
}

fn challenge_line(rest: &str) -> Result<Line<'_>, Reason>
    ensures { (may_come : MayCome) (look : Look) → Reads (verb_says may_come look verb.Challenge rest.now) result }
{
    let word = one_word(rest)?;
    let number = number_in(word)?;
    Ok(Line::Challenge { number })
}

fn show_line(rest: &str) -> Result<Line<'_>, Reason>
    ensures { (may_come : MayCome) (look : Look) → Reads (verb_says may_come look verb.Show rest.now) result }
{
    let word = word_or_none(rest)?;
    let all = all_in(word)?;
    Ok(Line::Show { all })
}

fn expect_line<'a>(names: &Names, rest: &'a str) -> Result<Line<'a>, Reason>
    ensures { (may_come : MayCome) (look : Look) → Knows names.now look → Reads (verb_says may_come look verb.Expect rest.now) result }
{
    let words = text_at(rest)?;
    names_bound(names, words)?;
    Ok(Line::Expect { words })
}

// Reads the words behind `verb`.
fn read_verb<'a>(
    may_come: MayCome,
    names: &'a Names,
    verb: Verb,
    rest: &'a str,
) -> Result<Line<'a>, Reason>
    ensures { (look : Look) → Knows names.now look → Reads (verb_says may_come look verb rest.now) result }
{
    match verb {
        Verb::Node => node_line(may_come, rest),
        Verb::Pair => pair_line(may_come, rest),
        Verb::Spawn => spawn_line(names, rest),
        Verb::Monitor => monitor_line(names, rest),
        Verb::Demonitor => demonitor_line(names, rest),
        Verb::Trap => trap_line(names, rest),
        Verb::Register => register_line(names, rest),
        Verb::WhereIs => whereis_line(names, rest),
        Verb::SendName => sendname_line(names, rest),
        Verb::MonitorName => monitorname_line(names, rest),
        Verb::Send => processes_and_term_in(names, rest).map(|(from, to, term)| Line::Send {
            from,
            to,
            term,
        }),
        Verb::Exit => processes_and_term_in(names, rest).map(|(from, to, term)| Line::Exit {
            from,
            to,
            term,
        }),
        Verb::Die => process_and_term_in(names, rest).map(|(process, term)| Line::Die {
            process,
            term,
        }),
        Verb::Link => processes_in(names, rest).map(|(from, to)| Line::Link { from, to }),
        Verb::Unlink => processes_in(names, rest).map(|(from, to)| Line::Unlink { from, to }),
        Verb::Ends => processes_in(names, rest).map(|(first, second)| Line::Ends { first, second }),
        Verb::Receive => process_in(names, rest).map(|process| Line::Receive { process }),
        Verb::Links => process_in(names, rest).map(|process| Line::Links { process }),
        Verb::Alive => process_in(names, rest).map(|process| Line::Alive { process }),
        Verb::Monitors => process_in(names, rest).map(|process| Line::Monitors { process }),
        Verb::Unregister => process_in(names, rest).map(|process| Line::Unregister { process }),
        Verb::Dial => nodes_in(rest).map(|(node, peer)| Line::Dial { node, peer }),
        Verb::Route => nodes_in(rest).map(|(node, peer)| Line::Route { node, peer }),
        Verb::Travels => nodes_in(rest).map(|(node, peer)| Line::Travels { node, peer }),
        Verb::Why => nodes_in(rest).map(|(node, peer)| Line::Why { node, peer }),
        Verb::Lose => lose_line(rest),
        Verb::Cut => nodes_in(rest).map(|(node, peer)| Line::Cut { node, peer }),
        Verb::Deliver => deliver_line(rest),
        Verb::Stop => node_in(rest).map(|node| Line::Stop { node }),
        Verb::Start => node_in(rest).map(|node| Line::Start { node }),
        Verb::Local => node_in(rest).map(|node| Line::Local { node }),
        Verb::Sweep => node_in(rest).map(|node| Line::Sweep { node }),
        Verb::Settle => no_words(rest).map(|()| Line::Settle),
        Verb::Challenge => challenge_line(rest),
        Verb::Show => show_line(rest),
        Verb::Expect => expect_line(names, rest),
    }
}

// Reads a line that is short enough, and text.
fn read_words<'a>(
    may_come: MayCome,
    names: &'a Names,
    text: &'a str,
) -> Result<Option<Line<'a>>, Reason>
    ensures { (look : Look) → Knows names.now look → ReadsSome (words_say may_come look (word_of text.now) (behind_word text.now)) result }
{
    let (word, rest) = first_word(text);
    if word.is_empty() || word.starts_with('#') {
        return Ok(None);
    }
    let Some(verb) = Verb::named(word) else {
        return Err(Reason::UnknownCommand);
    };
    let line = read_verb(may_come, names, verb, rest)?;
    Ok(Some(line))
}

/// Returns the verb that `line` begins with. [`None`] if it begins with no verb, is too long or isn't
/// UTF-8. Never allocates.
pub fn verb_in(line: &[u8]) -> Option<Verb>
    ensures { result ≡ verb_in line.now }
{
    if line.len() > LINE_LIMIT {
        return None;
    }
    match str::from_utf8(line) {
        Ok(text) => Verb::named(first_word(text).0),
        Err(_) => None,
    }
}

/// Returns the meaning of `line`, or [`None`] if it is a comment or has no words. Never allocates.
///
/// # Errors
/// The first [`Reason`] that fits, if the line is a bad one.
pub fn read_line<'a>(
    may_come: MayCome,
    names: &'a Names,
    line: &'a [u8],
) -> Result<Option<Line<'a>>, Reason>
    ensures { (look : Look) → Knows names.now look → ReadsSome (line_says may_come look line.now) result }
{
    if line.len() > LINE_LIMIT {
        return Err(Reason::TooLong);
    }
    match str::from_utf8(line) {
        Ok(text) => read_words(may_come, names, text),
        Err(_) => Err(Reason::NotText),
    }
}
