//! The changes of the processes.
ghost use Rattle.std.specs.Prelude.{◌≡◌, OnOk, true};
ghost use Rattle.std.specs.FinMap as fm;
ghost use Rattle.dist_model.specs.Node.{is_living_life};
ghost use Rattle.node_tables.specs.Held.{ends, held, lives};
ghost use Rattle.node_tables.specs.Registered as table;
ghost use Rattle.node_plan.specs.Changed as after;
ghost use Rattle.node_plan.specs.RoomForChanges.{ChangeFits, EndFits, LifeFits, NameFits};
ghost use Rattle.node_plan.specs.Suits.{NameSuits, Suits};
ghost use Rattle.node_plan.specs.declared.change.Change.TheVariants as the_change;
ghost use Rattle.node_plan.specs.declared.change.LinkChange.TheVariants as link;
ghost use Rattle.node_plan.specs.declared.change.LifeChange.{LifeChange as TheLifeChange};
ghost use Rattle.node_plan.specs.declared.change.LinkChange.{LinkChange as TheLinkChange};

use crate::change::{Change, Draws, LifeChange, LinkChange};
use dist_model::Answer;
use erl_term::Pid;
use node_tables::{Incarnation, Names};
use std::alloc::{AllocError, Global};

/// Draws the number that `draws` names, if any, unless all are used up. Never allocates. (ERTS User's Guide,
/// External Term Format, NEWER_REFERENCE_EXT; Distribution Protocol, New Link Protocol.)
pub fn draw(incarnation: &mut Incarnation, draws: Draws)
    ensures mint { incarnation.new.mint ≡ after.drawn_by draws incarnation.old.mint }
    ensures up { incarnation.new.up ≡ incarnation.old.up }
    ensures lives { lives incarnation.new ≡ lives incarnation.old }
    ensures ends { ends incarnation.new ≡ ends incarnation.old }
{
    match draws {
        Draws::Nothing => {}
        Draws::Reference => {
            let _ = incarnation.next_reference();
        }
        Draws::UnlinkId => {
            let _ = incarnation.next_unlink_id();
        }
    }
}

#[inline(always)]
fn change_link(incarnation: &mut Incarnation, process: &Pid, change: LinkChange)
    requires { EndFits change (held incarnation.old process.now) }
    ensures mint { incarnation.new.mint ≡ incarnation.old.mint }
    ensures up { incarnation.new.up ≡ incarnation.old.up }
    ensures lives { lives incarnation.new ≡ lives incarnation.old }
    ensures ends { ends incarnation.new ≡ after.end_after change process.now (ends incarnation.old) }
    ensures kept { (life : TheLifeChange) → LifeFits life (held incarnation.old process.now) → LifeFits life (held incarnation.new process.now) }
{
    match change {
        LinkChange::Stays => {}
        LinkChange::Becomes(partner, how) => incarnation.change_end(process, partner, how),
    }
}

// Applies `change` to a process. Returns the message of [`LifeChange::TakesFirst`], if there is one, or
// `answer` for any other change.
#[inline(always)]
fn change_life(
    incarnation: &mut Incarnation,
    process: &Pid,
    change: LifeChange,
    answer: Answer,
) -> Answer
    requires { LifeFits change (held incarnation.old process.now) }
    ensures mint { incarnation.new.mint ≡ incarnation.old.mint }
    ensures up { incarnation.new.up ≡ incarnation.old.up }
    ensures lives { lives incarnation.new ≡ after.life_after change process.now (lives incarnation.old) }
    ensures ends { ends incarnation.new ≡ after.ends_left change process.now (ends incarnation.old) }
    ensures answer { result ≡ after.told_by (the_change.Of process.now link.Stays change) (lives incarnation.old) answer }
{
    match change {
        LifeChange::Stays => {}
        LifeChange::Gets(message) => incarnation.put(process, message),
        LifeChange::Ends(reason) => incarnation.finish(process, reason),
        LifeChange::Traps(on) => incarnation.trap(process, on),
        LifeChange::TakesFirst => return Answer::Message(incarnation.take(process)),
    }
    answer
}

// Removes the name of a process that ends.
#[inline(always)]
fn change_name(names: &mut Names, process: &Pid, change: &LifeChange)
    ensures { table.names names.new ≡ after.names_left change.now process.now (table.names names.old) }
{
    if let LifeChange::Ends(_) = change {
        names.remove_of(process);
    }
}

/// Applies `change` to the processes and their names, in reserved memory. Returns the message of
/// [`LifeChange::TakesFirst`], if there is one, or `answer` for any other change. Never allocates. (Reference
/// Manual, Processes.)
#[inline(always)]
pub fn change_processes(
    alloc: Global,
    incarnation: &mut Incarnation,
    names: &mut Names,
    change: Change,
    answer: Answer,
) -> Answer
    requires fits { ChangeFits change incarnation.old }
    requires room { NameFits change names.old }
    requires suits { NameSuits change (table.names names.old) }
    ensures mint { incarnation.new.mint ≡ after.spawned_by change incarnation.old.mint }
    ensures up { incarnation.new.up ≡ incarnation.old.up }
    ensures lives { lives incarnation.new ≡ after.lives_after change incarnation.old.mint (lives incarnation.old) }
    ensures ends { ends incarnation.new ≡ after.ends_after change (ends incarnation.old) }
    ensures names { table.names names.new ≡ after.names_after change (table.names names.old) }
    ensures answer { result ≡ after.told_by change (lives incarnation.old) answer }
{
    match change {
        Change::None => answer,
        Change::Spawns => {
            incarnation.spawn(alloc);
            answer
        }
        Change::Of {
            process,
            link,
            life,
        } => {
            change_name(names, &process, &life);
            change_link(incarnation, &process, link);
            change_life(incarnation, &process, life, answer)
        }
        Change::TakesName(naming) => {
            names.register(naming);
            answer
        }
        Change::GivesName(process) => {
            names.remove_of(&process);
            answer
        }
    }
}

fn reserve_link(
    incarnation: &mut Incarnation,
    process: &Pid,
    change: &LinkChange,
) -> Result<(), AllocError>
    requires { is_living_life (fm.get (lives incarnation.old) process.now) ≡ true }
    ensures mint { incarnation.new.mint ≡ incarnation.old.mint }
    ensures up { incarnation.new.up ≡ incarnation.old.up }
    ensures lives { lives incarnation.new ≡ lives incarnation.old }
    ensures ends { ends incarnation.new ≡ ends incarnation.old }
    ensures fits { OnOk result (EndFits change.now (held incarnation.new process.now)) }
{
    match change {
        LinkChange::Stays => Ok(()),
        LinkChange::Becomes(_, _) => incarnation.reserve_link(process),
    }
}

fn reserve_life(
    incarnation: &mut Incarnation,
    process: &Pid,
    change: &LifeChange,
) -> Result<(), AllocError>
    requires { is_living_life (fm.get (lives incarnation.old) process.now) ≡ true }
    ensures mint { incarnation.new.mint ≡ incarnation.old.mint }
    ensures up { incarnation.new.up ≡ incarnation.old.up }
    ensures lives { lives incarnation.new ≡ lives incarnation.old }
    ensures ends { ends incarnation.new ≡ ends incarnation.old }
    ensures fits { OnOk result (LifeFits change.now (held incarnation.new process.now)) }
    ensures kept { (link : TheLinkChange) → EndFits link (held incarnation.old process.now) → EndFits link (held incarnation.new process.now) }
{
    match change {
        LifeChange::Gets(_) => incarnation.reserve_message(process),
        LifeChange::Stays | LifeChange::Ends(_) | LifeChange::Traps(_) | LifeChange::TakesFirst =>
            Ok(()),
    }
}

/// Reserves memory for `change` of the processes and their names, and changes nothing else.
///
/// # Errors
/// [`AllocError`] if out of memory.
pub fn reserve_processes(
    incarnation: &mut Incarnation,
    names: &mut Names,
    change: &Change,
) -> Result<(), AllocError>
    requires { Suits change.now incarnation.old.up incarnation.old.mint (lives incarnation.old) }
    ensures mint { incarnation.new.mint ≡ incarnation.old.mint }
    ensures up { incarnation.new.up ≡ incarnation.old.up }
    ensures lives { lives incarnation.new ≡ lives incarnation.old }
    ensures ends { ends incarnation.new ≡ ends incarnation.old }
    ensures names { table.names names.new ≡ table.names names.old }
    ensures fits { OnOk result (ChangeFits change.now incarnation.new) }
    ensures room { OnOk result (NameFits change.now names.new) }
{
    match change {
        Change::None => Ok(()),
        Change::Spawns => incarnation.reserve(),
        Change::Of {
            process,
            link,
            life,
        } => {
            reserve_link(incarnation, process, link)?;
            reserve_life(incarnation, process, life)
        }
        Change::TakesName(_) => names.reserve(),
        Change::GivesName(_) => Ok(()),
    }
}
