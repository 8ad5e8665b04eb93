//! The process at a place changes.
ghost use Rattle.std.specs.Prelude.{◌≡◌, ◌<◌, true, OnOk, IsOk, length};
ghost use Rattle.std.specs.FinMap as fm;
ghost use Rattle.std.specs.List.{slice_get};
ghost use Rattle.dist_model.specs.Calls.{first_message, trapping, without_first};
ghost use Rattle.dist_model.specs.Node as model;
ghost use Rattle.dist_model.specs.Work.{delivered};
ghost use Rattle.node_tables.specs.Lives.{changed, pid_at, ending, ends_in, lives_in, without_ends};
ghost use Rattle.node_tables.specs.Becomes.{end_changed};
ghost use Rattle.node_tables.specs.Room.{LinkFits, MessageFits};
ghost use Rattle.node_tables.specs.declared.end_change.EndChange.{EndChange};
ghost use Rattle.node_tables.specs.declared.end_change.EndChange.TheVariants as end;

use crate::end_change::EndChange;
use crate::life::Life;
use erl_names::Mint;
use erl_term::{Payload, Pid};
use std::alloc::AllocError;

pub(crate) fn put_at(mint: &Mint, held: &mut Vec<Life>, place: usize, message: Payload)
    requires within { place < length held.old.items }
    requires fits { MessageFits (slice_get held.old.items place) }
    ensures lives { lives_in mint.now held.new.items ≡ changed (lives_in mint.now held.old.items) (pid_at mint.now place) (λ life. delivered life message) }
    ensures ends { ends_in mint.now held.new.items ≡ ends_in mint.now held.old.items }
    ensures len { length held.new.items ≡ length held.old.items }
{
    held[place].put(message);
}

pub(crate) fn trap_at(mint: &Mint, held: &mut Vec<Life>, place: usize, on: bool)
    requires { place < length held.old.items }
    ensures lives { lives_in mint.now held.new.items ≡ changed (lives_in mint.now held.old.items) (pid_at mint.now place) (λ life. trapping life on) }
    ensures ends { ends_in mint.now held.new.items ≡ ends_in mint.now held.old.items }
    ensures len { length held.new.items ≡ length held.old.items }
{
    held[place].trap(on);
}

pub(crate) fn end_at(mint: &Mint, held: &mut Vec<Life>, place: usize, reason: Payload)
    requires { place < length held.old.items }
    ensures lives { lives_in mint.now held.new.items ≡ changed (lives_in mint.now held.old.items) (pid_at mint.now place) (ending reason) }
    ensures ends { ends_in mint.now held.new.items ≡ without_ends (ends_in mint.now held.old.items) (pid_at mint.now place) }
    ensures len { length held.new.items ≡ length held.old.items }
{
    held[place].end_for(reason);
}

pub(crate) fn take_at(mint: &Mint, held: &mut Vec<Life>, place: usize) -> Option<Payload>
    requires { place < length held.old.items }
    ensures message { result ≡ first_message (fm.get (lives_in mint.now held.old.items) (pid_at mint.now place)) }
    ensures lives { lives_in mint.now held.new.items ≡ changed (lives_in mint.now held.old.items) (pid_at mint.now place) without_first }
    ensures ends { ends_in mint.now held.new.items ≡ ends_in mint.now held.old.items }
    ensures len { length held.new.items ≡ length held.old.items }
{
    held[place].take()
}

pub(crate) fn reserve_message_at(
    mint: &Mint,
    held: &mut Vec<Life>,
    place: usize,
) -> Result<(), AllocError>
    requires { place < length held.old.items }
    ensures lives { lives_in mint.now held.new.items ≡ lives_in mint.now held.old.items }
    ensures ends { ends_in mint.now held.new.items ≡ ends_in mint.now held.old.items }
    ensures len { length held.new.items ≡ length held.old.items }
    ensures fits { model.is_living_life (fm.get (lives_in mint.now held.old.items) (pid_at mint.now place)) ≡ true → OnOk result (MessageFits (slice_get held.new.items place)) }
    ensures succeeds { MessageFits (slice_get held.old.items place) → IsOk result }
    ensures kept { (change : EndChange) → LinkFits change (slice_get held.old.items place) → LinkFits change (slice_get held.new.items place) }
{
    held[place].reserve_message()
}

pub(crate) fn change_end_at(
    mint: &Mint,
    held: &mut Vec<Life>,
    place: usize,
    partner: Pid,
    change: EndChange,
)
    requires within { place < length held.old.items }
    requires fits { LinkFits change (slice_get held.old.items place) }
    ensures lives { lives_in mint.now held.new.items ≡ lives_in mint.now held.old.items }
    ensures ends { ends_in mint.now held.new.items ≡ end_changed (ends_in mint.now held.old.items) (pid_at mint.now place, partner) change }
    ensures kept { MessageFits (slice_get held.old.items place) → MessageFits (slice_get held.new.items place) }
    ensures len { length held.new.items ≡ length held.old.items }
{
    held[place].change_end(partner, change);
}

pub(crate) fn reserve_link_at(
    mint: &Mint,
    held: &mut Vec<Life>,
    place: usize,
) -> Result<(), AllocError>
    requires { place < length held.old.items }
    ensures lives { lives_in mint.now held.new.items ≡ lives_in mint.now held.old.items }
    ensures ends { ends_in mint.now held.new.items ≡ ends_in mint.now held.old.items }
    ensures len { length held.new.items ≡ length held.old.items }
    ensures fits { model.is_living_life (fm.get (lives_in mint.now held.old.items) (pid_at mint.now place)) ≡ true → (change : EndChange) → OnOk result (LinkFits change (slice_get held.new.items place)) }
    ensures succeeds { LinkFits end.Links (slice_get held.old.items place) → IsOk result }
    ensures kept { MessageFits (slice_get held.old.items place) → MessageFits (slice_get held.new.items place) }
{
    held[place].reserve_link()
}
