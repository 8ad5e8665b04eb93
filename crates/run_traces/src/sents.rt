//! The lines of the items that an event sends.
ghost use Rattle.std.specs.Prelude.{◌≡◌, ◌++◌, List, OnOk, map, string_bytes};
ghost use Rattle.std.specs.List.{flat_map};
ghost use Rattle.dist_model.specs.Items.{Item};
ghost use Rattle.dist_model.specs.declared.report.Effect.{Effect as TheEffect};
ghost use Rattle.node_frames.specs.Frames.{shown};
ghost use Rattle.run_traces.specs.Traces.{AreSentSpelled, IsSentSpelled, sent_in, sents, words_in};

use crate::trace::Trace;
use dist_model::Effect;
use item_texts::put_sent_words;
use node_frames::Frame;
use script_texts::put_sent;
use std::alloc::{AllocError, Global};

// Appends the line of the item that an effect sends on a connection, if it sends one.
fn put_sent_in(
    alloc: Global,
    out: &mut String,
    node: &str,
    effect: &Effect<Frame>,
) -> Result<(), AllocError>
    ensures { OnOk result (string_bytes out.new ≡ string_bytes out.old ++ sent_in node.now effect.now) }
{
    match effect {
        Effect::Sent {
            trunk: Some(_),
            peer,
            item,
        } => put_sent(alloc, out, node, peer.text(), item.as_slice()),
        _ => Ok(()),
    }
}

/// Appends a line for each item that an event at the node of this name sends: the names of the two nodes, and
/// the bytes in hex. (ERTS User's Guide, Distribution Protocol.)
///
/// # Errors
/// [`AllocError`] if out of memory.
pub fn put_sents(
    alloc: Global,
    out: &mut String,
    node: &str,
    effects: &[Effect<Frame>],
) -> Result<(), AllocError>
    ensures { OnOk result (string_bytes out.new ≡ string_bytes out.old ++ flat_map (sent_in node.now) effects.now) }
{
    for effect in effects {
        put_sent_in(alloc, out, node, effect)?;
    }
    Ok(())
}

// Appends the line of the item that an effect sends on a connection, with its words, if it sends one.
fn put_words_in(
    alloc: Global,
    out: &mut String,
    node: &str,
    effect: &Effect<Frame>,
) -> Result<(), AllocError>
    ensures { (it : TheEffect Item) → effect.now ≡ shown it → IsSentSpelled it →
        OnOk result (string_bytes out.new ≡ string_bytes out.old ++ words_in node.now it) }
{
    match effect {
        Effect::Sent {
            trunk: Some(_),
            peer,
            item,
        } => put_sent_words(alloc, out, node, peer.text(), item.as_slice()),
        _ => Ok(()),
    }
}

// Appends a line with words for each item that an event at the node of this name sends.
fn put_words(
    alloc: Global,
    out: &mut String,
    node: &str,
    effects: &[Effect<Frame>],
) -> Result<(), AllocError>
    ensures { (items : List (TheEffect Item)) → effects.now ≡ map shown items → AreSentSpelled items →
        OnOk result (string_bytes out.new ≡ string_bytes out.old ++ flat_map (words_in node.now) items) }
{
    for effect in effects {
        put_words_in(alloc, out, node, effect)?;
    }
    Ok(())
}

/// Appends the lines of the items that an event at the node of this name sends, in the form of the trace.
///
/// # Errors
/// [`AllocError`] if out of memory.
pub(crate) fn put_sents_in(
    alloc: Global,
    out: &mut String,
    trace: Trace,
    node: &str,
    effects: &[Effect<Frame>],
) -> Result<(), AllocError>
    ensures { (items : List (TheEffect Item)) → effects.now ≡ map shown items → AreSentSpelled items →
        OnOk result (string_bytes out.new ≡ string_bytes out.old ++ sents trace node.now items) }
{
    match trace {
        Trace::Off => Ok(()),
        Trace::Frames => put_sents(alloc, out, node, effects),
        Trace::Words => put_words(alloc, out, node, effects),
    }
}
