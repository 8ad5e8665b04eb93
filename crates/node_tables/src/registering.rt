//! Look-ups and registrations of names.
ghost use Rattle.std.specs.Prelude.{◌≡◌, ◌≢◌, ◌↔◌, OnOk, IsOk, None, Some};
ghost use Rattle.std.specs.FinMap as fm;
ghost use Rattle.std.specs.Option.{option_copied, option_map};
ghost use Rattle.dist_model.specs.Names.{Name};
ghost use Rattle.erl_term.specs.declared.term.Pid.{Pid};
ghost use Rattle.dist_model.specs.Naming.{name_of, without_holder, IsOneToOne, NameMap};
ghost use Rattle.node_tables.specs.Registered.{names, HasRoom};

use crate::names::Names;
use crate::naming::Naming;
use erl_term::{Atom, Pid};
use sorted_map::TreeMap;
use std::alloc::{AllocError, Global};

impl Names {
    /// Returns a table with no names. Takes no memory.
    pub fn new(alloc: Global) -> Names
        ensures { names result ≡ fm.empty }
    {
        Names {
            by_name: TreeMap::new(alloc),
            by_holder: TreeMap::new(alloc),
        }
    }

    /// Returns the process that has a name. (Reference Manual, Processes, Registered Processes.)
    pub fn holder(&self, name: &Atom) -> Option<&Pid>
        ensures { option_copied result ≡ fm.get (names self.now) name.now }
    {
        self.by_name.get(name)
    }

    /// Returns the name of a process. (Reference Manual, Processes, Registered Processes.)
    pub fn name_of(&self, process: &Pid) -> Option<&Atom>
        ensures { option_copied result ≡ option_map (λ entry. entry.0) (name_of (names self.now) process.now) }
    {
        self.by_holder.get(process)
    }

    /// Reserves room for one more name. (Reference Manual, Processes, Registered Processes.)
    ///
    /// # Errors
    /// [`AllocError`] if out of memory. Then no name has changed.
    pub fn reserve(&mut self) -> Result<(), AllocError>
        ensures names { names self.new ≡ names self.old }
        ensures room { OnOk result (HasRoom self.new) }
        ensures kept { HasRoom self.old → HasRoom self.new }
        ensures succeeds { HasRoom self.old → IsOk result }
    {
        self.by_name.reserve(1)?;
        self.by_holder.reserve(1)
    }

    /// Registers a name that no process has, for a process that has no name. Takes no memory.
    /// (Reference Manual, Processes, Registered Processes.)
    pub fn register(&mut self, naming: Naming)
        requires room { HasRoom self.old }
        requires free { fm.get (names self.old) naming.name ≡ None }
        requires nameless { name_of (names self.old) naming.process ≡ None }
        ensures { names self.new ≡ fm.insert (names self.old) naming.name naming.process }
    {
        let Naming {
            name,
            process,
            name_again,
            process_again,
        } = naming;
        match (
            self.by_name.insert(name, process),
            self.by_holder.insert(process_again, name_again),
        ) {
            (Ok(_), Ok(_)) => {}
            (Err(_), _) | (_, Err(_)) => unreachable!(),
        }
    }

    /// Removes the name of a process, if it has one. Takes no memory. (Reference Manual, Processes,
    /// Registered Processes.)
    pub fn remove_of(&mut self, process: &Pid)
        ensures names { names self.new ≡ without_holder (names self.old) process.now }
        ensures room { HasRoom self.old → HasRoom self.new }
    {
        if let Some(name) = self.by_holder.remove(process) {
            drop(self.by_name.remove(&name));
        }
    }
}

/// Shows that a process has one name at most, and that both look-ups agree. (Reference Manual, Processes,
/// Registered Processes.)
pub fn one_name_each(table: &Names)
    ensures one_to_one { IsOneToOne (names table.now) }
    ensures same { (name : Name) (process : Pid) →
        (fm.get (names table.now) name ≡ Some process) ↔ (option_map (λ entry. entry.0) (name_of (names table.now) process) ≡ Some name) }
{}

/// Shows that a process whose name is removed has none, and that every other keeps its own. (Reference
/// Manual, Processes, Registered Processes.)
pub fn others_keep_their_names()
    ensures gone { (names : NameMap) (process : Pid) (name : Name) → fm.get (without_holder names process) name ≢ Some process }
    ensures kept { (names : NameMap) (process other : Pid) (name : Name) → other ≢ process →
        (fm.get (without_holder names process) name ≡ Some other) ↔ (fm.get names name ≡ Some other) }
{}
