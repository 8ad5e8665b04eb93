//! The events of nodes are recorded.
ghost use Rattle.std.specs.Prelude.{◌≡◌, ◌∷◌, [], IfOk, OnOk, None};
ghost use Rattle.std.specs.Option.{option_copied};
ghost use Rattle.run_diagrams.specs.Numbers.{AreApart, way_of};
ghost use Rattle.run_diagrams.specs.Recording.{Adds, IsRecorded, IsRowFor, IsRowOf, IsTaken, KeepsNumbers, queues_of, taken, took_on, way_in, ways_of};

use crate::labels::put_label;
use crate::names::ScriptNames;
use crate::notes::{Words, lost, of_answer, of_effect};
use crate::queues::Ways;
use crate::recorder::{Recorder, place_of};
use crate::row::{put_refusal, put_reply, put_words};
use diagram::{Item, Lane, Mark, Row};
use dist_model::{Answer, Effect, Report};
use erl_handshake::Role;
use erl_names::{NodeName, TrunkId};
use erl_term::Refusal;
use node_frames::Frame;
use std::alloc::{AllocError, Global};

// Where an event happens: at the node of this name, and on that lane.
#[derive(Clone, Copy)]
struct Spot<'a> {
    node: &'a str,
    lane: usize,
    lanes: &'a [Lane],
    names: &'a ScriptNames,
}

// The role of the node at the other end of a connection.
fn role_beyond(trunk: &TrunkId, node: &str) -> Role {
    if trunk.dialer.text() == node {
        Role::Acceptor
    } else {
        Role::Dialer
    }
}

// Appends the bytes of an item in hex, behind its name without names of the script if that differs.
fn put_tooltip(
    alloc: Global,
    out: &mut String,
    label: &str,
    role: Role,
    bytes: &[u8],
) -> Result<(), AllocError> {
    let mut full = String::new(alloc);
    put_label(alloc, &mut full, &ScriptNames::new(alloc), role, bytes)?;
    if full.as_str() != label {
        out.push_str(full.as_str())?;
        out.push_str("\n")?;
    }
    let hex = hex::encode_upper(alloc, bytes)?;
    out.push_str(hex.as_str())
}

// Returns the name of an item that a node sends, and its tooltip.
fn named(
    alloc: Global,
    spot: Spot,
    trunk: &TrunkId,
    bytes: &[u8],
) -> Result<(String, String), AllocError> {
    let role = role_beyond(trunk, spot.node);
    let mut label = String::new(alloc);
    put_label(alloc, &mut label, spot.names, role, bytes)?;
    let mut tooltip = String::new(alloc);
    put_tooltip(alloc, &mut tooltip, label.as_str(), role, bytes)?;
    Ok((label, tooltip))
}

// An item that is sent on a connection.
fn put_item(
    alloc: Global,
    ways: &mut Ways,
    row: &mut Row,
    spot: Spot,
    trunk: &TrunkId,
    peer: &NodeName,
    bytes: &[u8],
) -> Result<(), AllocError>
    ensures adds { OnOk result (Adds ways.new.ways.items (way_of trunk.now peer.now ∷ []) row.old row.new) }
    ensures kept { KeepsNumbers ways.old.ways.items ways.new.ways.items }
    ensures apart { AreApart ways.old.ways.items → AreApart ways.new.ways.items }
{
    let queue = ways.number(alloc, trunk, peer)?;
    let (label, tooltip) = named(alloc, spot, trunk, bytes)?;
    row.marks.push(Mark::Sent(Item {
        label,
        tooltip,
        from: spot.lane,
        to: place_of(spot.lanes, peer.text()),
        queue,
    }))?;
    Ok(())
}

// An item that is sent, where it is sent on a connection.
fn put_sent(
    alloc: Global,
    ways: &mut Ways,
    row: &mut Row,
    spot: Spot,
    effect: &Effect<Frame>,
) -> Result<(), AllocError>
    ensures adds { OnOk result (Adds ways.new.ways.items (way_in effect.now) row.old row.new) }
    ensures kept { KeepsNumbers ways.old.ways.items ways.new.ways.items }
    ensures apart { AreApart ways.old.ways.items → AreApart ways.new.ways.items }
{
    match effect {
        Effect::Sent {
            trunk: Some(trunk),
            peer,
            item,
        } => put_item(alloc, ways, row, spot, trunk, peer, item.as_slice()),
        _ => Ok(()),
    }
}

// Puts the words of an effect on the lane of the node, and the item that it sends on its queue.
fn put_effect(
    alloc: Global,
    ways: &mut Ways,
    row: &mut Row,
    spot: Spot,
    effect: &Effect<Frame>,
) -> Result<(), AllocError>
    ensures adds { OnOk result (Adds ways.new.ways.items (way_in effect.now) row.old row.new) }
    ensures kept { KeepsNumbers ways.old.ways.items ways.new.ways.items }
    ensures apart { AreApart ways.old.ways.items → AreApart ways.new.ways.items }
{
    put_words(row, spot.lane, of_effect(alloc, spot.names, effect)?)?;
    put_sent(alloc, ways, row, spot, effect)
}

// Puts the words and the items of all effects of an event.
fn put_effects(
    alloc: Global,
    ways: &mut Ways,
    row: &mut Row,
    spot: Spot,
    effects: &[Effect<Frame>],
) -> Result<(), AllocError>
    ensures adds { OnOk result (Adds ways.new.ways.items (ways_of effects.now) row.old row.new) }
    ensures kept { KeepsNumbers ways.old.ways.items ways.new.ways.items }
    ensures apart { AreApart ways.old.ways.items → AreApart ways.new.ways.items }
{
    for effect in effects {
        put_effect(alloc, ways, row, spot, effect)?;
    }
    Ok(())
}

// Takes the item that came on a connection. A connection that broke or was lost takes no more.
fn put_taken(
    alloc: Global,
    row: &mut Row,
    lane: usize,
    queue: u32,
    answer: &Answer,
) -> Result<(), AllocError>
    requires { row.old.took ≡ None }
    ensures took { OnOk result (row.new.took ≡ taken answer.now queue) }
    ensures queues { OnOk result (queues_of row.new.marks.items ≡ queues_of row.old.marks.items) }
{
    match answer {
        Answer::Took(_) => row.took = Some(queue),
        Answer::Broken(_) => {
            row.took = Some(queue);
            row.gave_up.push(queue)?;
        }
        _ => {
            row.gave_up.push(queue)?;
            put_words(row, lane, lost(alloc)?)?;
        }
    }
    Ok(())
}

// The connection of an arrival or of a loss.
fn put_connection(
    alloc: Global,
    ways: &mut Ways,
    row: &mut Row,
    spot: Spot,
    trunk: Option<&TrunkId>,
    answer: &Answer,
) -> Result<(), AllocError>
    requires { row.old.took ≡ None }
    ensures took { OnOk result (IsTaken ways.new.ways.items row.new.took (took_on spot.entry.node.now (option_copied trunk.entry) answer.now)) }
    ensures queues { OnOk result (queues_of row.new.marks.items ≡ queues_of row.old.marks.items) }
    ensures kept { KeepsNumbers ways.old.ways.items ways.new.ways.items }
    ensures apart { AreApart ways.old.ways.items → AreApart ways.new.ways.items }
{
    let Some(trunk) = trunk else {
        return Ok(());
    };
    let node = NodeName::read(alloc, spot.node).map_err(|_| AllocError)?;
    let queue = ways.number(alloc, trunk, &node)?;
    put_taken(alloc, row, spot.lane, queue, answer)
}

// A node that stops takes nothing any more.
fn give_up(
    alloc: Global,
    ways: &Ways,
    row: &mut Row,
    node: &str,
    answer: &Answer,
) -> Result<(), AllocError>
    ensures marks { row.new.marks.items ≡ row.old.marks.items }
    ensures took { row.new.took ≡ row.old.took }
{
    match answer {
        Answer::Stopped => {
            row.gave_up = ways.all_to(alloc, node)?;
            Ok(())
        }
        _ => Ok(()),
    }
}

// Returns the words for the answer of a node about a connection, or about itself.
fn answered(
    alloc: Global,
    ways: &Ways,
    node: &str,
    trunk: Option<&TrunkId>,
    answer: &Answer,
) -> Result<Option<Words>, AllocError> {
    let peer = match trunk {
        Some(trunk) => ways.peer_on(trunk, node),
        None => None,
    };
    of_answer(alloc, peer, answer)
}

// Puts the words of a report on the lane of the node.
fn put_report(
    alloc: Global,
    ways: &mut Ways,
    row: &mut Row,
    spot: Spot,
    trunk: Option<&TrunkId>,
    report: &Report<Frame>,
) -> Result<(), AllocError>
    requires took { row.old.took ≡ None }
    requires queues { queues_of row.old.marks.items ≡ [] }
    ensures row { OnOk result (IsRowOf spot.entry.node.now (option_copied trunk.entry) report.now ways.new.ways.items row.new) }
    ensures kept { KeepsNumbers ways.old.ways.items ways.new.ways.items }
    ensures apart { AreApart ways.old.ways.items → AreApart ways.new.ways.items }
{
    put_reply(alloc, row, spot.names, spot.node, &report.answer)?;
    put_connection(alloc, ways, row, spot, trunk, &report.answer)?;
    put_words(
        row,
        spot.lane,
        answered(alloc, ways, spot.node, trunk, &report.answer)?,
    )?;
    give_up(alloc, ways, row, spot.node, &report.answer)?;
    put_effects(alloc, ways, row, spot, &report.effects)
}

impl Recorder {
    // The row of an event.
    fn row_of(
        &mut self,
        alloc: Global,
        node: &str,
        trunk: Option<&TrunkId>,
        came: &Result<Report<Frame>, Refusal>,
    ) -> Result<Row, AllocError>
        ensures row { IfOk result (IsRowFor node.now (option_copied trunk.entry) came.now self.new.ways.ways.items) }
        ensures rows { self.new.diagram.rows.items ≡ self.old.diagram.rows.items }
        ensures scope { self.new.scope ≡ self.old.scope }
        ensures kept { KeepsNumbers self.old.ways.ways.items self.new.ways.ways.items }
        ensures apart { AreApart self.old.ways.ways.items → AreApart self.new.ways.ways.items }
    {
        let mut row = self.begin(alloc);
        let report = match came {
            Ok(report) => report,
            Err(why) => {
                put_refusal(alloc, &mut row, *why)?;
                return Ok(row);
            }
        };
        let spot = Spot {
            node,
            lane: self.lane_of(node),
            lanes: &self.diagram.lanes,
            names: &self.names,
        };
        put_report(alloc, &mut self.ways, &mut row, spot, trunk, report)?;
        Ok(row)
    }

    /// An event happened at the node of a name, or was refused there. Where it was an arrival or a loss,
    /// the connection is that on which something came or that was lost.
    ///
    /// # Errors
    /// Where memory is wanting.
    pub fn happened(
        &mut self,
        alloc: Global,
        node: &str,
        trunk: Option<&TrunkId>,
        came: &Result<Report<Frame>, Refusal>,
    ) -> Result<(), AllocError>
        ensures row { OnOk result (IsRecorded node.now (option_copied trunk.entry) came.now self.old.scope self.old.diagram.rows.items self.new.diagram.rows.items self.new.ways.ways.items) }
        ensures scope { self.new.scope ≡ self.old.scope }
        ensures kept { KeepsNumbers self.old.ways.ways.items self.new.ways.ways.items }
        ensures apart { AreApart self.old.ways.ways.items → AreApart self.new.ways.ways.items }
    {
        let row = self.row_of(alloc, node, trunk, came)?;
        self.end(row)
    }
}
