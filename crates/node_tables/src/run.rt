//! A run of connections that are gone.
ghost use Rattle.std.specs.Prelude.{◌≡◌, ◌≤◌};
ghost use Rattle.conn_core.specs.declared.standing.Standing.TheVariants as standing;

use conn_core::Side;

/// Connections that are gone, of one dialer and towards one peer. Their counts come one after the other.
#[derive(Drop)]
pub(crate) struct Run {
    /// The side of the last one.
    pub(crate) last: Side,
    /// The count of the first one.
    pub(crate) first: u64,
    ghost gone: { last.standing ≡ standing.Gone },
    ghost rises: { first ≤ last.trunk.count },
}
