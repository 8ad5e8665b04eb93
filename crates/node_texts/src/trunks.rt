//! The text of the connections to a peer.
ghost use Rattle.std.specs.Prelude.{◌≡◌, ◌++◌, OnOk, string_bytes};
ghost use Rattle.node_core.specs.Model.{model_of};
ghost use Rattle.node_tables.specs.Passing.{passes};
ghost use Rattle.node_texts.specs.Trunks.{first_trunk, side_line, trunks_text};

use erl_term::Atom;
use node_core::Node;
use node_tables::Which;
use script_texts::put_trunk;
use std::alloc::AllocError;

// Appends the line of the first connection to a peer that passes `which`, if there is one.
fn put_side(
    out: &mut String,
    node: &Node,
    peer: &Atom,
    which: Which,
    word: &str,
) -> Result<(), AllocError>
    ensures { OnOk result (string_bytes out.new ≡ string_bytes out.old ++ side_line word.now peer.now (first_trunk (passes which) (model_of node.now) peer.now)) }
{
    let Some(trunk) = node.first_towards(peer, which) else {
        return Ok(());
    };
    let name = peer.text();
    out.push_str("trunk ")?;
    put_trunk(out, trunk)?;
    writeln!(out, " {name} {word}")
}

/// Appends the connections to a peer, and the attempts at one, a line each. It shows the first that the node
/// dials, then the first that the peer dials, the first that is up, and the first that is lost. A lost
/// one isn't swept yet. (ERTS User's Guide, Distribution Protocol, Distribution Handshake.)
///
/// # Errors
/// [`AllocError`] if out of memory.
pub fn put_trunks(out: &mut String, node: &Node, peer: &Atom) -> Result<(), AllocError>
    ensures { OnOk result (string_bytes out.new ≡ string_bytes out.old ++ trunks_text (model_of node.now) peer.now) }
{
    put_side(out, node, peer, Which::Dialing, "dialing")?;
    put_side(out, node, peer, Which::Waiting, "waiting")?;
    put_side(out, node, peer, Which::Up, "up")?;
    put_side(out, node, peer, Which::Losing, "lost")
}
