//! The numbers of queues. A queue has the items in flight on a connection to one of its two nodes.
ghost use Rattle.std.specs.Prelude.{◌≡◌, ◌↔◌, ◌++◌, ◌∷◌, [], ℕ, IfNone, IfOk, IfSome, IsTrue, OnErr, OnOk};
ghost use Rattle.run_diagrams.specs.Numbers.{AreApart, IsNumber, way_of};
ghost use Rattle.run_diagrams.specs.declared.queues.Way.{Way as TheWay};

use erl_names::{NodeName, TrunkId};
use std::alloc::{AllocError, Global};

/// The direction of a connection to one of its two nodes.
#[derive(Debug, Drop, PartialEq, Eq)]
pub(crate) struct Way {
    pub(crate) trunk: TrunkId,
    pub(crate) to: NodeName,
}

impl Way {
    // Returns true if it is the direction of this connection to this node.
    fn is(&self, trunk: &TrunkId, to: &NodeName) -> bool
        ensures { IsTrue result ↔ (self.now ≡ way_of trunk.now to.now) }
    {
        self.trunk == *trunk && self.to == *to
    }
}

// The number of a way that was met.
fn place_of(ways: &[Way], trunk: &TrunkId, to: &NodeName) -> Option<usize>
    ensures found { IfSome result (λ place. IsNumber ways.now place (way_of trunk.now to.now)) }
    ensures none { IfNone result ((place : ℕ) → ¬ (IsNumber ways.now place (way_of trunk.now to.now))) }
{
    for (place, way) in ways.iter().enumerate() {
        if way.is(trunk, to) {
            return Some(place);
        }
    }
    None
}

/// The ways that were met, the first as number 0.
#[derive(Drop)]
pub(crate) struct Ways {
    pub(crate) ways: Vec<Way>,
}

impl Ways {
    pub(crate) fn new(alloc: Global) -> Ways
        ensures { AreApart result.ways.items }
    {
        Ways {
            ways: Vec::new(alloc),
        }
    }

    // A way more.
    fn add(&mut self, alloc: Global, trunk: &TrunkId, to: &NodeName) -> Result<(), AllocError>
        ensures ok { OnOk result (self.new.ways.items ≡ self.old.ways.items ++ way_of trunk.now to.now ∷ []) }
        ensures err { OnErr result (self.new.ways.items ≡ self.old.ways.items) }
    {
        let trunk = trunk.clone()?;
        let to = NodeName::read(alloc, to.text()).map_err(|_| AllocError)?;
        self.ways.push(Way { trunk, to })?;
        Ok(())
    }

    /// The number of a way, which it keeps: no two ways have one number, and no way has two.
    ///
    /// # Errors
    /// Where memory is wanting, as for more than 2^32 ways.
    pub(crate) fn number(
        &mut self,
        alloc: Global,
        trunk: &TrunkId,
        to: &NodeName,
    ) -> Result<u32, AllocError>
        ensures number { IfOk result (λ number. IsNumber self.new.ways.items number (way_of trunk.now to.now)) }
        ensures kept { (number : ℕ) (way : TheWay) → IsNumber self.old.ways.items number way → IsNumber self.new.ways.items number way }
        ensures apart { AreApart self.old.ways.items → AreApart self.new.ways.items }
    {
        let place = match place_of(&self.ways, trunk, to) {
            Some(place) => place,
            None => {
                let place = self.ways.len();
                self.add(alloc, trunk, to)?;
                place
            }
        };
        u32::try_from(place).map_err(|_| AllocError)
    }

    /// Returns the node at the other end of a connection of the node of this name, if an item was sent to it.
    pub(crate) fn peer_on(&self, trunk: &TrunkId, node: &str) -> Option<&NodeName> {
        self.ways
            .iter()
            .find(|way| way.trunk == *trunk && way.to.text() != node)
            .map(|way| &way.to)
    }

    /// The numbers of all ways to a node.
    ///
    /// # Errors
    /// Where memory is wanting.
    pub(crate) fn all_to(&self, alloc: Global, node: &str) -> Result<Vec<u32>, AllocError> {
        let mut numbers = Vec::new(alloc);
        for (place, way) in self.ways.iter().enumerate() {
            if way.to.text() == node {
                numbers.push(u32::try_from(place).map_err(|_| AllocError)?)?;
            }
        }
        Ok(numbers)
    }
}
