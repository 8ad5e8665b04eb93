//! The wires of a new connection.
ghost use Rattle.std.specs.Prelude.{◌≡◌, [], IfOk};

use crate::ends::{WireIn, WireOut, wire};
use erl_names::TrunkId;
use std::alloc::{AllocError, Global};

/// One half of a new connection: the ends that its two wires have at one node. Nothing went through
/// either yet, which the type keeps. So an offer can be sent to the node's thread, or stay in a list,
/// and is as new when that takes it up.
#[derive(Drop)]
pub struct Offer {
    /// The connection.
    pub trunk: TrunkId,
    /// Where the node puts what it sends.
    pub out: WireOut,
    /// Where the node takes what comes.
    pub into: WireIn,
    ghost nothing_put: { out.pieces ≡ [] },
    ghost nothing_taken: { into.pieces ≡ [] },
}

/// The two halves of a new connection, the dialer's and the acceptor's: what is put at the one is taken
/// at the other.
///
/// # Errors
/// Where there is no memory for them.
pub fn connect(alloc: Global, trunk: TrunkId) -> Result<(Offer, Offer), AllocError>
    ensures dialer { IfOk result (λ halves. halves.0.trunk ≡ trunk) }
    ensures acceptor { IfOk result (λ halves. halves.1.trunk ≡ trunk) }
    ensures there { IfOk result (λ halves. halves.0.out.wire ≡ halves.1.into.wire) }
    ensures back { IfOk result (λ halves. halves.1.out.wire ≡ halves.0.into.wire) }
{
    let copy = trunk.clone()?;
    let (there, from_here) = wire(alloc)?;
    let (back, from_there) = wire(alloc)?;
    Ok((
        Offer {
            trunk,
            out: there,
            into: from_there,
        },
        Offer {
            trunk: copy,
            out: back,
            into: from_here,
        },
    ))
}
