//! What becomes of the sides.

use conn_core::{Side, Standing};
use erl_handshake::Introduction;
use erl_names::TrunkId;
use erl_term::Atom;

/// A change of the sides of a node. (ERTS User's Guide, Distribution Protocol, Distribution Handshake.)
#[derive(Debug, Drop)]
pub enum SideChange {
    /// A side comes that isn't up.
    Adds {
        /// The side.
        side: Side,
    },
    /// A side stands so, and isn't up.
    Stands {
        /// Its connection.
        trunk: TrunkId,
        /// How it stands.
        standing: Standing,
    },
    /// A side is up.
    ComesUp {
        /// Its connection.
        trunk: TrunkId,
        /// The other node's name.
        peer: Atom,
        /// The other node's creation and flags.
        introduction: Introduction,
    },
}
