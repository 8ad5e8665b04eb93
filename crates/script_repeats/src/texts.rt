//! The lines of events that no line of a script has asked for.

use erl_names::{NodeName, TrunkId};
use node_core::NodeEvent;
use script_session::Session;
use script_texts::put_trunk;
use std::alloc::{AllocError, Global};

// Returns a line of a connection of a node: a command's word, the node, its peer, and the connection.
fn line_on(
    alloc: Global,
    session: &Session,
    word: &str,
    node: &NodeName,
    trunk: &TrunkId,
) -> Result<String, AllocError> {
    let peer = session.world().peer_on(node.atom(), trunk).text();
    let name = node.text();
    let mut line = String::new(alloc);
    write!(line, "{word} {name} {peer} ")?;
    put_trunk(&mut line, trunk)?;
    Ok(line)
}

// Returns a line of a node: a command's word, and the node.
fn line_at(alloc: Global, word: &str, node: &NodeName) -> Result<String, AllocError> {
    let name = node.text();
    let mut line = String::new(alloc);
    write!(line, "{word} {name}")?;
    Ok(line)
}

/// Returns the line of an event for which the node's thread or several lines may stand: an arrival, a local signal, a
/// sweep, or a loss. Returns [`None`] for an event that one line of a script asks for.
///
/// # Errors
/// [`AllocError`] if out of memory.
pub(crate) fn line_for(
    alloc: Global,
    session: &Session,
    node: &NodeName,
    event: &NodeEvent,
) -> Result<Option<String>, AllocError> {
    match event {
        NodeEvent::Arrive { trunk, .. } => {
            Ok(Some(line_on(alloc, session, "deliver", node, trunk)?))
        }
        NodeEvent::Lose(trunk) => Ok(Some(line_on(alloc, session, "lose", node, trunk)?)),
        NodeEvent::Local => Ok(Some(line_at(alloc, "local", node)?)),
        NodeEvent::Sweep => Ok(Some(line_at(alloc, "sweep", node)?)),
        _ => Ok(None),
    }
}

/// Returns the line that sets the next challenge.
///
/// # Errors
/// [`AllocError`] if out of memory.
pub(crate) fn challenge_line(alloc: Global, word: u32) -> Result<String, AllocError> {
    let mut line = String::new(alloc);
    write!(line, "challenge {word}")?;
    Ok(line)
}

/// Returns the challenge that an event takes, or [`None`] if it takes none.
pub(crate) fn challenge_of(session: &Session, node: &NodeName, event: &NodeEvent) -> Option<u32> {
    match event {
        NodeEvent::Dial { word, .. } => Some(*word),
        NodeEvent::Arrive { trunk, word } => match session.world().node(node.atom()) {
            Some(own) if own.side(trunk).is_some() => None,
            _ => Some(*word),
        },
        _ => None,
    }
}
