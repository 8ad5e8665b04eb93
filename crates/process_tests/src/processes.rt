//! Processes and references for the rows of a table.
use erl_term::{Atom, Pid, Reference, ReferenceWords, Refusal};
use std::alloc::Global;

/// A process by its node, its incarnation and its id.
pub type Process = (&'static str, u32, u32);

pub fn atom(alloc: Global, text: &str) -> Result<Atom, Refusal> {
    let text = String::from_str(alloc, text)?;
    if !Atom::fits(text.as_str()) {
        return Err(Refusal::BadName);
    }
    Ok(Atom::new(text)?)
}

pub fn pid(alloc: Global, process: Process) -> Result<Pid, Refusal> {
    let (node, creation, id) = process;
    Ok(Pid {
        node: atom(alloc, node)?,
        creation,
        id,
        serial: 0,
    })
}

/// The reference of a@h in its first incarnation that has this word, 0 and 0.
pub fn reference(alloc: Global, word: u32) -> Result<Reference, Refusal> {
    let words = ReferenceWords::new(&[word, 0, 0]).ok_or(Refusal::BadName)?;
    Ok(Reference {
        node: atom(alloc, "a@h")?,
        creation: 1,
        words,
    })
}
