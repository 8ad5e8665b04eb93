//! The names of a script, and texts with them in place of processes and references.

use erl_term::{Pid, Reference, Term};
use script_terms::{put_pid, put_reference, put_term};
use std::alloc::{AllocError, Global};

/// A process with its name.
#[derive(Drop)]
struct NamedProcess {
    process: Pid,
    name: String,
}

/// A reference with its name.
#[derive(Drop)]
struct NamedReference {
    reference: Reference,
    name: String,
}

/// The names of processes and of references, the first one given first.
#[derive(Drop)]
pub(crate) struct ScriptNames {
    processes: Vec<NamedProcess>,
    references: Vec<NamedReference>,
}

impl ScriptNames {
    /// Returns no names. Never allocates.
    pub(crate) fn new(alloc: Global) -> ScriptNames {
        ScriptNames {
            processes: Vec::new(alloc),
            references: Vec::new(alloc),
        }
    }

    /// Gives a name to a process, unless it has one.
    ///
    /// # Errors
    /// [`AllocError`] if out of memory, as of each call below.
    pub(crate) fn add(
        &mut self,
        alloc: Global,
        process: &Pid,
        name: &str,
    ) -> Result<(), AllocError> {
        let process = process.clone()?;
        let name = String::from_str(alloc, name)?;
        self.processes.push(NamedProcess { process, name })?;
        Ok(())
    }

    /// Gives a name to a reference, unless it has one.
    pub(crate) fn add_reference(
        &mut self,
        alloc: Global,
        reference: &Reference,
        name: &str,
    ) -> Result<(), AllocError> {
        let reference = reference.clone()?;
        let name = String::from_str(alloc, name)?;
        self.references.push(NamedReference { reference, name })?;
        Ok(())
    }

    fn name_of(&self, process: &Pid) -> Option<&str> {
        for named in &self.processes {
            if named.process == *process {
                return Some(named.name.as_str());
            }
        }
        None
    }

    fn name_of_reference(&self, reference: &Reference) -> Option<&str> {
        for named in &self.references {
            if named.reference == *reference {
                return Some(named.name.as_str());
            }
        }
        None
    }

    /// Appends the name of a process, or the process itself if it has none.
    pub(crate) fn put(&self, out: &mut String, process: &Pid) -> Result<(), AllocError> {
        match self.name_of(process) {
            Some(name) => out.push_str(name),
            None => put_pid(out, process),
        }
    }

    // Appends a process within a term: `$` and its name, or the process itself if it has none.
    fn put_process(&self, out: &mut String, process: &Pid) -> Result<(), AllocError> {
        match self.name_of(process) {
            Some(name) => put_dollar(out, name),
            None => put_pid(out, process),
        }
    }

    // Appends a reference within a term: `$` and its name, or the reference itself if it has none.
    fn put_reference(&self, out: &mut String, reference: &Reference) -> Result<(), AllocError> {
        match self.name_of_reference(reference) {
            Some(name) => put_dollar(out, name),
            None => put_reference(out, reference),
        }
    }
}

// Appends a name as a script writes it in a term.
fn put_dollar(out: &mut String, name: &str) -> Result<(), AllocError> {
    out.push_str("$")?;
    out.push_str(name)
}

/// Appends a term as a script writes it, with `$name` in place of each process and reference that has a name.
///
/// # Errors
/// [`AllocError`] if out of memory.
#[cycle(put)]
pub(crate) fn put_named(
    out: &mut String,
    names: &ScriptNames,
    term: &Term,
) -> Result<(), AllocError> {
    match term {
        Term::Tuple(items) => {
            out.push_str("{")?;
            put_items(out, names, items)?;
            out.push_str("}")
        }
        Term::List { items, tail } => {
            out.push_str("[")?;
            put_items(out, names, items)?;
            match tail {
                None => out.push_str("]"),
                Some(tail) => {
                    out.push_str("|")?;
                    put_named(out, names, tail)?;
                    out.push_str("]")
                }
            }
        }
        Term::Pid(process) => names.put_process(out, process),
        Term::Reference(reference) => names.put_reference(out, reference),
        Term::Int(_) | Term::Atom(_) | Term::Binary(_) => put_term(out, term),
    }
}

// Appends the items, with commas between them.
#[cycle(put)]
fn put_items(out: &mut String, names: &ScriptNames, items: &[Term]) -> Result<(), AllocError> {
    for (place, item) in items.iter().enumerate() {
        put_comma(out, place)?;
        put_named(out, names, item)?;
    }
    Ok(())
}

// Appends the comma before an item, unless it is the first.
fn put_comma(out: &mut String, place: usize) -> Result<(), AllocError> {
    if place == 0 {
        return Ok(());
    }
    out.push_str(",")
}
