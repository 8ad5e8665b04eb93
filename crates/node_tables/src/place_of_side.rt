//! Where the side of a connection is.
ghost use Rattle.std.specs.Prelude.{◌≡◌, true, IfOk, IfErr};
ghost use Rattle.std.specs.FinMap.{is_sorted};
ghost use Rattle.sorted_map.specs.Entries.{IsFoundAt, IsGapAt};
ghost use Rattle.erl_names.specs.Order.{trunk_cmp};
ghost use Rattle.node_tables.specs.Standings.{entries_of};

use conn_core::Side;
use erl_names::TrunkId;

/// Where the side of a connection is, or where it would go.
pub(crate) fn place_in(held: &[Side], trunk: &TrunkId) -> Result<usize, usize>
    requires { is_sorted trunk_cmp (entries_of held.now) ≡ true }
    ensures found { IfOk result (IsFoundAt trunk_cmp (entries_of held.now) trunk.now) }
    ensures gap { IfErr result (IsGapAt trunk_cmp (entries_of held.now) trunk.now) }
{
    held.binary_search_by(|side| side.trunk.cmp(trunk))
}
