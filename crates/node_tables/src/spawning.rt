//! An incarnation: what it draws and spawns.
ghost use Rattle.std.specs.Prelude.{◌≡◌, ◌<◌, ◌-◌, ◌^◌, ◌+◌, OnOk, OnErr, IsOk, [], false, true};
ghost use Rattle.std.specs.Option.{ok_or};
ghost use Rattle.std.specs.FinMap as fm;
ghost use Rattle.dist_model.specs.Node as model;
ghost use Rattle.erl_names.specs.Draw as draw;
ghost use Rattle.erl_names.specs.Ids.{pid_of};
ghost use Rattle.erl_names.specs.Minted.{drawn, id_of, nothing_drawn};
ghost use Rattle.erl_term.specs.declared.term.Pid.{Pid as ThePid};
ghost use Rattle.node_tables.specs.Held.{ends, held, lives, HasRoom};

use crate::adding::add;
use crate::incarnation::Incarnation;
use erl_names::{Creation, Mint, NodeName};
use erl_term::Refusal;
use std::alloc::{AllocError, Global};

impl Incarnation {
    /// A running incarnation that has drawn nothing and has no processes. Takes no memory.
    pub fn new(alloc: Global, name: NodeName, creation: Creation) -> Incarnation
        ensures mint { result.mint ≡ nothing_drawn name creation }
        ensures up { result.up ≡ true }
        ensures lives { lives result ≡ fm.empty }
        ensures ends { ends result ≡ fm.empty }
    {
        Incarnation {
            mint: Mint::new(name, creation),
            up: true,
            held: Vec::new(alloc),
        }
    }

    /// Makes room for one more process.
    ///
    /// # Errors
    /// Where there is no memory for it. Then nothing has changed.
    pub fn reserve(&mut self) -> Result<(), AllocError>
        ensures mint { self.new.mint ≡ self.old.mint }
        ensures up { self.new.up ≡ self.old.up }
        ensures lives { lives self.new ≡ lives self.old }
        ensures ends { ends self.new ≡ ends self.old }
        ensures held { (p : ThePid) → held self.new p ≡ held self.old p }
        ensures room { OnOk result (HasRoom self.new) }
        ensures succeeds { HasRoom self.old → IsOk result }
    {
        self.held.reserve(1)
    }

    /// A process is spawned where there is room for it: it has no links and no messages, and doesn't
    /// trap exits. Takes no memory. (Reference Manual, Processes, Process Creation.)
    pub fn spawn(&mut self, alloc: Global)
        requires up { self.old.up ≡ true }
        requires room { HasRoom self.old }
        requires ids { self.old.mint.pids < 2 ^ 32 - 1 }
        ensures mint { self.new.mint ≡ drawn self.old.mint draw.Pid }
        ensures up { self.new.up ≡ true }
        ensures lives { lives self.new ≡ fm.insert (lives self.old) (pid_of self.old.mint (self.old.mint.pids + 1)) (model.Living false []) }
        ensures ends { ends self.new ≡ ends self.old }
    {
        add(alloc, &mut self.mint, &mut self.held);
    }

    /// Draws the count of a reference. Takes no memory, and a refused draw changes nothing. (ERTS
    /// User's Guide, External Term Format, NEWER_REFERENCE_EXT.)
    ///
    /// # Errors
    /// [`Refusal::IdsUsedUp`] behind the last one, 262,143.
    pub fn next_reference(&mut self) -> Result<u32, Refusal>
        ensures count { result ≡ ok_or (id_of self.old.mint draw.Reference) Refusal.IdsUsedUp }
        ensures mint { self.new.mint ≡ drawn self.old.mint draw.Reference }
        ensures err { OnErr result (self.new.mint ≡ self.old.mint) }
        ensures up { self.new.up ≡ self.old.up }
        ensures lives { lives self.new ≡ lives self.old }
        ensures ends { ends self.new ≡ ends self.old }
    {
        self.mint.next_reference()
    }

    /// Draws an unlink id. Takes no memory, and a refused draw changes nothing. (ERTS User's Guide,
    /// Distribution Protocol, New Link Protocol.)
    ///
    /// # Errors
    /// [`Refusal::IdsUsedUp`] behind the last one, 2^64 - 1.
    pub fn next_unlink_id(&mut self) -> Result<u64, Refusal>
        ensures id { result ≡ ok_or (id_of self.old.mint draw.UnlinkId) Refusal.IdsUsedUp }
        ensures mint { self.new.mint ≡ drawn self.old.mint draw.UnlinkId }
        ensures err { OnErr result (self.new.mint ≡ self.old.mint) }
        ensures up { self.new.up ≡ self.old.up }
        ensures lives { lives self.new ≡ lives self.old }
        ensures ends { ends self.new ≡ ends self.old }
    {
        self.mint.next_unlink_id()
    }
}
