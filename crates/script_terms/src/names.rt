//! The names of a script.
ghost use Rattle.std.specs.Prelude.{◌≡◌, ◌≤◌, ◌<◌, None, IfOk, OnOk, OnErr, option_copied};
ghost use Rattle.std.specs.String.{string_bytes};
ghost use Rattle.script_terms.specs.Binding.{Look, Knows, with_name, room};
ghost use Rattle.script_terms.specs.Reading.{Answers, named_at};

use crate::fault::TermFault;
use crate::words::{Kind, is_name_word, word_of};
use erl_term::{Pid, Reference};
use indexmap::IndexMap;
use std::alloc::{AllocError, Global};

/// The value of a name of a script.
#[derive(Debug, Drop)]
pub enum Named {
    /// A process.
    Process(Pid),
    /// A reference, as that of a monitor.
    Monitor(Reference),
}

impl Clone for Named {
    ghost is_clone = { λ named copy. copy ≡ named };

    fn clone(&self) -> Result<Named, AllocError> {
        match self {
            Named::Process(process) => Ok(Named::Process(process.clone()?)),
            Named::Monitor(reference) => Ok(Named::Monitor(reference.clone()?)),
        }
    }
}

/// The names that a script has bound.
#[derive(Drop)]
pub struct Names {
    bound: IndexMap<String, Named>,
}

impl Names {
    /// Before any name is bound.
    pub fn new(alloc: Global) -> Names
        ensures { Knows result (λ name. None) }
    {
        Names {
            bound: IndexMap::new(alloc),
        }
    }

    /// Returns a copy in which each name has the same value. It has memory of its own.
    ///
    /// # Errors
    /// [`AllocError`] if out of memory.
    pub fn copy(&self, alloc: Global) -> Result<Names, AllocError>
        ensures { (look : Look) → Knows self.now look → IfOk result (λ copy. Knows copy look) }
    {
        let mut copy = Names::new(alloc);
        for (name, named) in self.bound.iter().rev() {
            copy.bind(alloc, name.as_str(), named.clone()?)?;
        }
        Ok(copy)
    }

    /// Returns the value of the name, if it is bound.
    pub fn get(&self, name: &str) -> Option<&Named>
        ensures { (look : Look) → Knows self.now look → option_copied result ≡ look name.now }
    {
        self.bound.get(name)
    }

    /// Makes room for one more name, so that the next [`put`](Names::put) asks for no memory.
    pub fn reserve(&mut self) -> Result<(), AllocError>
        ensures names { (look : Look) → Knows self.old look → Knows self.new look }
        ensures room { OnOk result (1 ≤ room self.new) }
    {
        self.bound.reserve(1)
    }

    /// Binds a name for which there is [room](Names::reserve). It can't fail.
    pub fn put(&mut self, name: String, named: Named)
        requires { 1 ≤ room self.old }
        ensures { (look : Look) → Knows self.old look → Knows self.new (with_name look (string_bytes name) named) }
    {
        self.bound.insert(name, named).unwrap();
    }

    /// Binds a name, and changes nothing where memory is wanting.
    pub fn bind(&mut self, alloc: Global, name: &str, named: Named) -> Result<(), AllocError>
        ensures ok { OnOk result ((look : Look) → Knows self.old look → Knows self.new (with_name look name.now named)) }
        ensures err { OnErr result ((look : Look) → Knows self.old look → Knows self.new look) }
    {
        let name = String::from_str(alloc, name)?;
        self.reserve()?;
        self.put(name, named);
        Ok(())
    }
}

/// Returns the thing that the name at the front names, and the bytes after the name.
#[tactic(auto, unfolding(crate::specs::Reading::named_at))]
pub(crate) fn named_of<'a, 'b>(
    names: &'a Names,
    bytes: &'b [u8],
) -> Result<(&'a Named, &'b [u8]), TermFault>
    ensures { (look : Look) → Knows names.now look → Answers (λ x. (x.0.now, x.1.now)) result (named_at look bytes.now) }
{
    let (word, rest) = word_of(Kind::Name, bytes);
    if !is_name_word(word) {
        return Err(TermFault::BadTerm);
    }
    let Ok(name) = str::from_utf8(word) else {
        return Err(TermFault::BadTerm);
    };
    match names.get(name) {
        Some(named) => Ok((named, rest)),
        None => Err(TermFault::UnknownName),
    }
}
