//! Whether a process may act.
ghost use Rattle.std.specs.Prelude.{◌≡◌, MatchResult, OnOk, true};
ghost use Rattle.dist_model.specs.Calls as calls;
ghost use Rattle.dist_model.specs.Commands.{Outcome, Refuses};
ghost use Rattle.dist_model.specs.Node as model;
ghost use Rattle.erl_control.specs.Fits.{fits};
ghost use Rattle.node_plan.specs.Seen.{seen};

use erl_term::{Atom, Payload, Pid, Refusal};
use node_frames::same_name;
use node_plan::Node;

/// The process that acts has to be living here.
pub(crate) fn acts(node: &Node, process: &Pid) -> Result<(), Refusal>
    ensures living { OnOk result (model.living (seen node.now) process.now ≡ true) }
    ensures due { (outcome : Outcome) → let due = calls.acting (seen node.now) process.now outcome in
        MatchResult result (λ _. due ≡ outcome) (λ e. due ≡ Refuses e) }
{
    if node.is_living(process) {
        Ok(())
    } else {
        Err(Refusal::NoSuchProcess)
    }
}

/// What it acts on may not be a pid of this node that it never spawned.
pub(crate) fn aims_at(node: &Node, target: &Pid) -> Result<(), Refusal>
    ensures { (outcome : Outcome) → let due = calls.toward (seen node.now) target.now outcome in
        MatchResult result (λ _. due ≡ outcome) (λ e. due ≡ Refuses e) }
{
    if same_name(&target.node, node.name().atom()) && node.is_stranger(target) {
        Err(Refusal::Forged)
    } else {
        Ok(())
    }
}

/// A signal has to be able to carry it.
pub(crate) fn fits_in(payload: &Payload) -> Result<(), Refusal>
    ensures fits { OnOk result (fits payload.now ≡ true) }
    ensures due { (outcome : Outcome) → let due = calls.fitting payload.now outcome in
        MatchResult result (λ _. due ≡ outcome) (λ e. due ≡ Refuses e) }
{
    erl_control::fits_test();
    if erl_control::fits(payload.term()) {
        Ok(())
    } else {
        Err(Refusal::TooLong)
    }
}

/// Returns an error if a process may not monitor one of this node by its name.
pub(crate) fn offers(node: &Node, name: &Atom) -> Result<(), Refusal>
    ensures { (outcome : Outcome) → let due = calls.offering (seen node.now) name.now outcome in
        MatchResult result (λ _. due ≡ outcome) (λ e. due ≡ Refuses e) }
{
    if node.offers_names(name) {
        Ok(())
    } else {
        Err(Refusal::NotOffered)
    }
}

/// Whether a signal to a process of that name's node goes anywhere.
pub(crate) fn reaches(node: &Node, name: &Atom) -> bool
    ensures { result ≡ model.reaches (seen node.now) name.now }
{
    same_name(name, node.name().atom()) || node.route(name).is_some()
}
