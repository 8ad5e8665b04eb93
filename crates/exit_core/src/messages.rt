//! The messages of exits and of ended monitors.
ghost use Rattle.std.specs.Prelude.{◌≡◌, ◌≤◌, IfOk, length};
ghost use Rattle.std.specs.Str.{chars};
ghost use Rattle.erl_term.specs.Data.{atom, pid};
ghost use Rattle.erl_term.specs.View.{view};
ghost use Rattle.exit_core.specs.Messages.{exit_term, down_term, named_term};

use erl_term::{Atom, Payload, Pid, Reference, Term};
use std::alloc::{AllocError, Global};

/// Returns {'EXIT',Sender,Reason}, the message to a process that traps exits. (Reference Manual, Processes,
/// Receiving Exit Signals.)
///
/// # Errors
/// If out of memory.
pub fn exit_message(alloc: Global, sender: Pid, reason: Payload) -> Result<Payload, AllocError>
    ensures { IfOk result (λ m. m ≡ exit_term sender reason) }
{
    let name = atom_of(alloc, "EXIT")?;
    let elements = vec![in alloc; name, Term::Pid(sender), reason.into_term()]?;
    Ok(Payload::new(Term::Tuple(elements)))
}

/// Returns {'DOWN',Ref,process,Object,Info}.
fn down(
    alloc: Global,
    reference: Reference,
    object: Term,
    info: Payload,
) -> Result<Payload, AllocError>
    ensures { IfOk result (λ m. m ≡ down_term reference (view object) info) }
{
    let name = atom_of(alloc, "DOWN")?;
    let reference = Term::Reference(reference);
    let kind = atom_of(alloc, "process")?;
    let elements = vec![in alloc; name, reference, kind, object, info.into_term()]?;
    Ok(Payload::new(Term::Tuple(elements)))
}

/// Returns {'DOWN',Ref,process,Pid,Info}, the message to the owner of a monitor whose target, a process, has
/// ended or can't be reached. (Reference Manual, Processes, Monitors.)
///
/// # Errors
/// If out of memory.
pub fn down_message(
    alloc: Global,
    reference: Reference,
    target: Pid,
    info: Payload,
) -> Result<Payload, AllocError>
    ensures { IfOk result (λ m. m ≡ down_term reference (pid target) info) }
{
    down(alloc, reference, Term::Pid(target), info)
}

/// Returns {'DOWN',Ref,process,{Name,Node},Info}, the message to the owner of a monitor whose target is the
/// process that has a name on a node. (Reference Manual, Processes, Monitors.)
///
/// # Errors
/// If out of memory.
pub fn named_down_message(
    alloc: Global,
    reference: Reference,
    name: Atom,
    node: Atom,
    info: Payload,
) -> Result<Payload, AllocError>
    ensures { IfOk result (λ m. m ≡ down_term reference (named_term name node) info) }
{
    let elements = vec![in alloc; Term::Atom(name), Term::Atom(node)]?;
    down(alloc, reference, Term::Tuple(elements), info)
}

/// Returns the payload that is the atom of this name of at most 255 characters, as noproc or noconnection,
/// for which a process ends or a monitor's target is gone. (Reference Manual, Processes, Links and
/// Monitors.)
///
/// # Errors
/// If out of memory.
pub fn named(alloc: Global, name: &str) -> Result<Payload, AllocError>
    requires { length (chars name.now) ≤ 255 }
    ensures { IfOk result (λ p. p ≡ atom name.now) }
{
    Ok(Payload::new(atom_of(alloc, name)?))
}

fn atom_of(alloc: Global, name: &str) -> Result<Term, AllocError>
    requires { length (chars name.now) ≤ 255 }
    ensures { IfOk result (λ t. view t ≡ atom name.now) }
{
    Ok(Term::Atom(Atom::new(String::from_str(alloc, name)?)?))
}
