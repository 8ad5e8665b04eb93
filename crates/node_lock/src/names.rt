//! Connections and names compared.
ghost use Rattle.std.specs.Prelude.{◌≡◌, position};
ghost use Rattle.node_lock.specs.Standing.{AreApart};
ghost use Rattle.std.specs.List.{list_any};
ghost use Rattle.std.specs.Ordering.{eq_by_cmp};
ghost use Rattle.dist_model.specs.Dialing.{has_name};
ghost use Rattle.dist_model.specs.Names.{same_name};
ghost use Rattle.erl_names.specs.Order.{trunk_cmp};

use crate::outlet::Outlet;
use erl_names::{NodeName, TrunkId};
use node_frames::same_name;

/// Returns true if the two are one connection.
pub(crate) fn same_trunk(a: &TrunkId, b: &TrunkId) -> bool
    ensures { result ≡ eq_by_cmp trunk_cmp a.now b.now }
{
    a.cmp(b).is_eq()
}

/// Returns true if one of the names is this one.
pub(crate) fn has_name(names: &[NodeName], name: &NodeName) -> bool
    ensures { result ≡ list_any (same_name name.now) names.now }
{
    names
        .iter()
        .any(|other| same_name(name.atom(), other.atom()))
}

/// Returns the place of a connection's outlet. Looks at the place `near` first, and then at all.
pub(crate) fn place_near(outlets: &[Outlet], trunk: &TrunkId, near: usize) -> Option<usize>
    requires { AreApart outlets.now }
    ensures { result ≡ position (λ outlet. eq_by_cmp trunk_cmp trunk.now outlet.port.trunk) outlets.now }
{
    match outlets.get(near) {
        Some(outlet) if same_trunk(trunk, outlet.port.trunk()) => Some(near),
        _ => place_of(outlets, trunk),
    }
}

/// Returns the place of a connection's outlet.
pub(crate) fn place_of(outlets: &[Outlet], trunk: &TrunkId) -> Option<usize>
    ensures { result ≡ position (λ outlet. eq_by_cmp trunk_cmp trunk.now outlet.port.trunk) outlets.now }
{
    outlets
        .iter()
        .position(|outlet| same_trunk(trunk, outlet.port.trunk()))
}
