//! The texts of processes, monitors, atoms, terms and connections, as scripts print them.
ghost use Rattle.std.specs.Prelude.{◌≡◌, IfOk, string_bytes};
ghost use Rattle.script_terms.specs.Printing.{atom_text, pid_text, reference_text, term_text};
ghost use Rattle.script_texts.specs.Texts.{trunk_text};

use erl_names::TrunkId;
use erl_term::{Atom, Payload, Pid, Reference, Term};
use script_terms::{put_pid, put_reference, put_term};
use script_texts::put_trunk;
use std::alloc::{AllocError, Global};

pub(crate) fn printed_pid(alloc: Global, pid: &Pid) -> Result<String, AllocError>
    ensures { IfOk result (λ text. string_bytes text ≡ pid_text pid.now) }
{
    let mut text = String::new(alloc);
    put_pid(&mut text, pid)?;
    Ok(text)
}

pub(crate) fn printed_reference(alloc: Global, reference: &Reference) -> Result<String, AllocError>
    ensures { IfOk result (λ text. string_bytes text ≡ reference_text reference.now) }
{
    let mut text = String::new(alloc);
    put_reference(&mut text, reference)?;
    Ok(text)
}

pub(crate) fn printed_atom(alloc: Global, atom: &Atom) -> Result<String, AllocError>
    ensures { IfOk result (λ text. string_bytes text ≡ atom_text atom.now) }
{
    let mut text = String::new(alloc);
    put_term(&mut text, &Term::Atom(atom.clone()?))?;
    Ok(text)
}

pub(crate) fn printed_term(alloc: Global, payload: &Payload) -> Result<String, AllocError>
    ensures { IfOk result (λ text. string_bytes text ≡ term_text payload.now) }
{
    let mut text = String::new(alloc);
    put_term(&mut text, payload.term())?;
    Ok(text)
}

pub(crate) fn printed_trunk(alloc: Global, trunk: &TrunkId) -> Result<String, AllocError>
    ensures { IfOk result (λ text. string_bytes text ≡ trunk_text trunk.now) }
{
    let mut text = String::new(alloc);
    put_trunk(&mut text, trunk)?;
    Ok(text)
}
