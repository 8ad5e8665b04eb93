//! Laws of the definitions. Each function does nothing: its contract is the law.
ghost use Rattle.std.specs.Prelude.{◌≡◌, ◌⊎◌, Bool, true, false, codes};
ghost use Rattle.erl_term.specs.Data.{Data, atom};
ghost use Rattle.exit_core.specs.declared.reaction.ExitSignal.{ExitSignal};
ghost use Rattle.exit_core.specs.declared.reaction.Reaction.TheVariants.{Ignore, Put, End};
ghost use Rattle.exit_core.specs.Messages.{exit_term};
ghost use Rattle.exit_core.specs.Reaction.{is_atom, reaction};

/// A process reacts to a link's exit only where its link is active.
pub fn only_active_links()
    ensures { (trap : Bool) (signal : ExitSignal) → signal.link ≡ true → signal.is_active ≡ false → reaction trap signal ≡ Ignore }
{}

/// A process that traps exits ends only by kill, and not of a link; else an exit ends a process with
/// its own reason.
pub fn ways_to_end()
    ensures trapping { (signal : ExitSignal) (reason : Data) → reaction true signal ≡ End reason → (signal.link ≡ false) × (is_atom (codes "kill") signal.reason ≡ true) × (reason ≡ atom (codes "killed")) }
    ensures plain { (signal : ExitSignal) (reason : Data) → reaction false signal ≡ End reason → (reason ≡ signal.reason) ⊎ ((is_atom (codes "kill") signal.reason ≡ true) × (reason ≡ atom (codes "killed"))) }
    ensures message { (trap : Bool) (signal : ExitSignal) (message : Data) → reaction trap signal ≡ Put message → (trap ≡ true) × (message ≡ exit_term signal.sender signal.reason) }
{}
