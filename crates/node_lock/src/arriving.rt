//! What has come on a connection comes to the node.
ghost use Rattle.std.specs.Prelude.{◌≡◌, IfErr, IfOk, slice_get};
ghost use Rattle.std.specs.Option.{option_copied};
ghost use Rattle.node_core.specs.Model.{model_of};
ghost use Rattle.node_lock.specs.Answers.{is_accepted};
ghost use Rattle.node_lock.specs.Applying.{Takes, TakesNothing, is_ready};

use crate::outlet::Outlet;
use erl_names::TrunkId;
use erl_term::Refusal;
use node_core::Node;
use node_history::{Entry, History, is_read, what_is_read_is_whole};
use std::alloc::Global;
use wire_core::Parcel;

/// The entry at a place.
pub(crate) fn entry_at(entries: &[Entry], place: usize) -> Option<&Entry>
    ensures { option_copied result ≡ slice_get entries.now place }
{
    entries.get(place)
}

// Whether an event was accepted.
fn is_accepted(entry: Option<&Entry>) -> bool
    ensures { result ≡ is_accepted (option_copied entry.entry) }
{
    match entry {
        Some(entry) => entry.answer.is_ok(),
        None => false,
    }
}

/// Whether a parcel is there, whole, and the node reads it.
pub(crate) fn is_ready(node: &Node, trunk: &TrunkId, parcel: Option<&Parcel>) -> bool
    ensures { result ≡ is_ready (model_of node.now) trunk.now (option_copied parcel.entry) }
{
    match parcel {
        Some(parcel) => {
            let bytes = parcel.bytes.as_slice();
            what_is_read_is_whole(bytes);
            is_read(node, trunk, bytes) && node.whole(trunk, bytes)
        }
        None => false,
    }
}

/// What is in the slot of an outlet comes to the node. It leaves the slot where the node takes it. The
/// place of the entry is told.
///
/// # Errors
/// [`Refusal::NothingThere`] where nothing is there that the node reads; and then as those of
/// [`History::arrive`]. Then nothing has changed.
pub(crate) fn take(
    alloc: Global,
    history: &mut History,
    outlet: &mut Outlet,
    trunk: TrunkId,
    word: u32,
) -> Result<usize, Refusal>
    ensures ok { IfOk result (Takes trunk word history.old history.new outlet.old outlet.new) }
    ensures err { IfErr result (TakesNothing trunk history.old history.new outlet.old outlet.new) }
{
    let Some(parcel) = outlet.port.first() else {
        return Err(Refusal::NothingThere);
    };
    if !is_read(history.node(), &trunk, parcel.bytes.as_slice()) {
        return Err(Refusal::NothingThere);
    }
    let bytes = parcel.bytes.as_slice();
    let place = match history.arrive(alloc, trunk, bytes, word, parcel.stamp) {
        Ok(place) => place,
        Err(e) => return Err(e),
    };
    if is_accepted(entry_at(history.entries(), place)) {
        outlet.port.drop_first();
    }
    Ok(place)
}
