//! Laws of the definitions.
ghost use Rattle.std.specs.Prelude.{◌≡◌, ◌≢◌, ℕ, List, AllPairs};
ghost use Rattle.std.specs.Ordering.{nat_cmp};
ghost use Rattle.erl_names.specs.declared.trunk.TrunkId.{TrunkId};
ghost use Rattle.erl_names.specs.Draw.{Draw};
ghost use Rattle.erl_names.specs.Minted.{Minted, drawn, id_of, ids, nothing_drawn};
ghost use Rattle.erl_names.specs.Order.{name_cmp, trunk_cmp, names_compared, creations_compared, trunks_compared};

/// Whatever one incarnation of a node draws, no number of a kind comes twice.
pub fn no_id_twice()
    ensures { (name : List ℕ) (creation : ℕ) (draws : List Draw) →
        AllPairs (λ id later. id ≢ later) (ids draws (nothing_drawn name creation)) }
{}

/// A kind of number that is used up stays used up, whatever else the incarnation draws.
pub fn used_up_for_good()
    ensures { (m : Minted) (kind other : Draw) → id_of m kind ≡ None → id_of (drawn m other) kind ≡ None }
{}

/// Names are ordered by their bytes, incarnations by their numbers, and connections by the name of
/// their dialer and then by their count.
pub fn orders()
    ensures names { (a b : List ℕ) → names_compared a b ≡ name_cmp a b }
    ensures creations { (a b : ℕ) → creations_compared a b ≡ nat_cmp a b }
    ensures trunks { (a b : TrunkId) → trunks_compared a b ≡ trunk_cmp a b }
{}
