//! The diagrams of runs of two nodes.
//!
//! A story is told by its events, each `NODE EVENT`: `dial`, `stop`, `start`, `spawn` and `turn`, which is what
//! may happen next of its own accord at the node.

use diagram::{Arrow, Diagram, End, Mark, lay_out};
use dist_model::Command;
use erl_handshake::{Cookie, Profile, Setup};
use erl_names::{NodeName, TrunkId};
use erl_term::Refusal;
use run_diagrams::{LineRange, Recorder};
use std::alloc::Global;
use std::test::Fail;
use world_core::{NodeEvent, World};

/// The events of each story, and its items: what each is called, and where its arrow ends.
const STORIES: &[(&[&str], &str)] = &[
    // The five messages of a handshake, each taken in its turn. (ERTS User's Guide, Distribution Handshake.)
    (
        &["a dial", "b turn", "a turn", "a turn", "b turn", "a turn"],
        "send_name taken 1,challenge_reply taken 4,status taken 2,challenge taken 3,challenge_ack taken 5",
    ),
    // What travels to a node that stops is lost, and what travels from it is on its way.
    (
        &["a dial", "b turn", "a turn", "a turn", "a stop", "a start"],
        "send_name taken 1,challenge_reply way,status taken 2,challenge taken 3",
    ),
    (
        &["a dial", "b turn", "a stop"],
        "send_name taken 1,status lost 2,challenge lost 2",
    ),
    // What is refused sends nothing.
    (&["a stop", "a dial", "a spawn"], ""),
];

fn name(alloc: Global, word: &str) -> Result<NodeName, Fail> {
    let text = if word == "a" { "a@h" } else { "b@h" };
    Ok(NodeName::read(alloc, text)?)
}

fn setup(alloc: Global) -> Result<Setup, Fail> {
    Ok(Setup {
        cookie: Cookie::new(Vec::from_slice(alloc, b"c")?),
        profile: Profile::One,
    })
}

fn opened(alloc: Global) -> Result<World, Fail> {
    let mut nodes = Vec::new(alloc);
    nodes.push((name(alloc, "a")?, setup(alloc)?))?;
    nodes.push((name(alloc, "b")?, setup(alloc)?))?;
    if !World::can_open(&nodes) {
        return Err(Fail::from("one name twice"));
    }
    Ok(World::new(alloc, nodes)?)
}

// The connection on which something comes next to a node.
fn coming(world: &World, node: &NodeName) -> Result<TrunkId, Fail> {
    let Some(it) = world.node(node.atom()) else {
        return Err(Fail::from("no such node"));
    };
    match world.next_arrival(it, None) {
        Some(trunk) => Ok(trunk.clone()?),
        None => Err(Fail::from("nothing comes")),
    }
}

fn event(alloc: Global, word: &str) -> Result<NodeEvent, Fail> {
    match word {
        "dial" => Ok(NodeEvent::Dial {
            peer: name(alloc, "b")?,
            word: 1,
        }),
        "stop" => Ok(NodeEvent::Stop),
        "start" => Ok(NodeEvent::Start),
        _ => Ok(NodeEvent::Call(Command::Spawn)),
    }
}

fn arrive(
    alloc: Global,
    world: &mut World,
    recorder: &mut Recorder,
    node: &NodeName,
) -> Result<(), Fail> {
    let trunk = coming(world, node)?;
    let event = NodeEvent::Arrive {
        trunk: trunk.clone()?,
        word: 2,
    };
    let came = world.apply_at(alloc, node.atom(), event);
    recorder.happened(alloc, node.text(), Some(&trunk), &came)?;
    Ok(())
}

fn step(alloc: Global, world: &mut World, recorder: &mut Recorder, text: &str) -> Result<(), Fail> {
    let (node, word) = text.split_once(' ').unwrap_or(("a", text));
    let node = name(alloc, node)?;
    recorder.say(alloc, text)?;
    if word == "turn" {
        return arrive(alloc, world, recorder, &node);
    }
    let came = world.apply_at(alloc, node.atom(), event(alloc, word)?);
    recorder.happened(alloc, node.text(), None, &came)?;
    Ok(())
}

fn play(
    alloc: Global,
    world: &mut World,
    recorder: &mut Recorder,
    story: &[&str],
) -> Result<(), Fail> {
    for text in story {
        step(alloc, world, recorder, text)?;
    }
    Ok(())
}

fn put_arrow(out: &mut String, diagram: &Diagram, arrow: Arrow) -> Result<(), Fail> {
    let Some(row) = diagram.rows.get(arrow.row) else {
        return Err(Fail::from("no such row"));
    };
    let Some(Mark::Sent(item)) = row.marks.get(arrow.mark) else {
        return Err(Fail::from("no item"));
    };
    if !out.is_empty() {
        out.push_str(",")?;
    }
    out.push_str(item.label.as_str())?;
    match arrow.end {
        End::Taken(row) => write!(out, " taken {row}")?,
        End::Lost(row) => write!(out, " lost {row}")?,
        End::OnItsWay => out.push_str(" way")?,
    }
    Ok(())
}

fn put_arrows(out: &mut String, diagram: &Diagram, arrows: &[Arrow]) -> Result<(), Fail> {
    for arrow in arrows {
        put_arrow(out, diagram, *arrow)?;
    }
    Ok(())
}

fn told(alloc: Global, diagram: &Diagram) -> Result<String, Fail> {
    let layout = lay_out(alloc, &diagram.rows)?;
    let mut out = String::new(alloc);
    for arrows in &layout.arrows {
        put_arrows(&mut out, diagram, arrows)?;
    }
    Ok(out)
}

fn recorded(alloc: Global, story: &[&str]) -> Result<String, Fail> {
    let mut world = opened(alloc)?;
    let mut recorder = Recorder::new(alloc, "Two nodes", LineRange::all())?;
    recorder.add_node(alloc, "a@h")?;
    recorder.add_node(alloc, "b@h")?;
    play(alloc, &mut world, &mut recorder, story)?;
    told(alloc, recorder.diagram())
}

#[test]
fn runs_are_recorded(rt: HostRuntime) -> Result<(), Fail> {
    for (story, wanted) in STORIES {
        let found = recorded(rt.alloc(), story)?;
        assert_eq!(rt; found.as_str(), *wanted, "of {story:?}");
    }
    Ok(())
}

/// Rows that have no room are counted in a last one.
#[test]
fn many_rows(rt: HostRuntime) -> Result<(), Fail> {
    let alloc = rt.alloc();
    let mut recorder = Recorder::new(alloc, "many", LineRange::all())?;
    for _ in 0..10_003 {
        recorder.say(alloc, "local a@h")?;
        recorder.refused(alloc, Refusal::NothingThere)?;
    }
    let rows = recorder.finish(alloc)?.rows;
    assert_eq!(rt; rows.len(), 10_001);
    let last = rows.last().and_then(|row| row.words.first());
    assert_eq!(rt; last.map(|words| words.as_str()), Some("and 3 rows more"));
    Ok(())
}
