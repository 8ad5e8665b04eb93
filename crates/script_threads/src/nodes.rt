//! The nodes that a script has named.
ghost use Rattle.std.specs.Prelude.{◌≡◌, IfOk, position};
ghost use Rattle.std.specs.List.{list_any};
ghost use Rattle.std.specs.Str.{bytes_eq};
ghost use Rattle.dist_books.specs.Acting.{names_of};
ghost use Rattle.dist_model.specs.Dialing.{has_name};

use erl_handshake::Setup;
use erl_names::NodeName;
use std::alloc::{AllocError, Global};

// Returns true if one of them has the name that a text spells.
fn is_one_named(nodes: &[(NodeName, Setup)], name: &str) -> bool
    ensures { result ≡ list_any (λ node. bytes_eq name.now node.0) nodes.now }
{
    nodes.iter().any(|(node, _)| name == node.text())
}

/// Returns true if one of them has the name that a text spells.
pub(crate) fn has_name(nodes: &[(NodeName, Setup)], name: &str) -> bool
    ensures { result ≡ has_name name.now (names_of nodes.now) }
{
    is_one_named(nodes, name)
}

/// The place of the first that has the name that a text spells.
pub(crate) fn place_of(nodes: &[(NodeName, Setup)], name: &str) -> Option<usize>
    ensures { result ≡ position (λ node. bytes_eq name.now node.0) nodes.now }
{
    nodes.iter().position(|(node, _)| name == node.text())
}

/// Copies of the names and cookies.
///
/// # Errors
/// [`AllocError`] if out of memory.
pub(crate) fn copies(
    alloc: Global,
    nodes: &[(NodeName, Setup)],
) -> Result<Vec<(NodeName, Setup)>, AllocError>
    ensures { IfOk result (λ copies. copies.items ≡ nodes.now) }
{
    let mut copies = Vec::new(alloc);
    for (name, setup) in nodes {
        copies.push((name.clone()?, setup.clone()?))?;
    }
    Ok(copies)
}
