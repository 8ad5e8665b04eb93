//! An incarnation stops, and the next one starts.
ghost use Rattle.std.specs.Prelude.{◌≡◌, ◌+◌, ◌-◌, ◌^◌, ◌↔◌, true, false, OnOk, OnErr, IsErr, IsOkUnless};
ghost use Rattle.std.specs.FinMap as fm;
ghost use Rattle.erl_names.specs.Minted.{nothing_drawn};
ghost use Rattle.node_tables.specs.Held.{ends, lives};

use crate::incarnation::Incarnation;
use erl_term::Refusal;

impl Incarnation {
    /// It stops: no process is left, and what it has drawn stays. Takes no memory.
    pub fn stop(&mut self)
        ensures mint { self.new.mint ≡ self.old.mint }
        ensures up { self.new.up ≡ false }
        ensures lives { lives self.new ≡ fm.empty }
        ensures ends { ends self.new ≡ fm.empty }
    {
        self.up = false;
        self.held.clear();
    }

    /// The node starts again after it has stopped, in its next incarnation. Takes no memory. (ERTS
    /// User's Guide, Distribution Protocol, Distribution Handshake, on creations.)
    ///
    /// # Errors
    /// [`Refusal::IdsUsedUp`] behind the last incarnation, 2^32 - 1. Then nothing has changed.
    pub fn start(&mut self) -> Result<(), Refusal>
        requires { self.old.up ≡ false }
        ensures mint { OnOk result (self.new.mint ≡ nothing_drawn self.old.mint.name (self.old.mint.creation + 1)) }
        ensures up { OnOk result (self.new.up ≡ true) }
        ensures lives { OnOk result (lives self.new ≡ fm.empty) }
        ensures ends { OnOk result (ends self.new ≡ fm.empty) }
        ensures last { IsErr result ↔ (self.old.mint.creation ≡ 2 ^ 32 - 1) }
        ensures err { OnErr result (self.new ≡ self.old) }
        ensures only { IsOkUnless result Refusal.IdsUsedUp }
    {
        self.mint.restart()?;
        self.held.clear();
        self.up = true;
        Ok(())
    }
}
