//! Room is made for what was planned.
ghost use Rattle.std.specs.Prelude.{◌≡◌, Err, OnOk};
ghost use Rattle.dist_model.specs.Commands.{Outcome};
ghost use Rattle.erl_term.specs.declared.refusal.Refusal.{Refusal as TheRefusal};
ghost use Rattle.node_core.specs.Staying.{Stays};
ghost use Rattle.node_core.specs.Suiting.{IsAheadIfAny, Suits};
ghost use Rattle.node_plan.specs.Planned.{Plans};
ghost use Rattle.node_plan.specs.Seen.{seen};

use crate::planned::Planned;
use erl_term::Refusal;
use node_plan::Node;

/// Makes room at a node for what was planned, where it was. The node stays as it is but for its room.
///
/// # Errors
/// Why nothing was planned, and [`Refusal::OutOfMemory`].
#[inline(always)]
pub fn settle(node: &mut Node, planned: &Planned, made: Result<(), Refusal>) -> Result<(), Refusal>
    requires stays { OnOk made (Stays planned.now.plan (seen node.old)) }
    requires ahead { IsAheadIfAny planned.now.sweeping (seen node.old) }
    ensures same { seen node.new ≡ seen node.old }
    ensures plan { (due : Outcome) → Plans (seen node.old) due planned.now.plan made → Plans (seen node.old) due planned.now.plan result }
    ensures refused { (e : TheRefusal) → made ≡ Err e → result ≡ Err e }
    ensures suits { OnOk result (Suits node.new planned.now) }
{
    match made {
        Ok(()) => {}
        Err(e) => return Err(e),
    }
    match node.reserve(&planned.plan) {
        Ok(()) => Ok(()),
        Err(_) => Err(Refusal::OutOfMemory),
    }
}
