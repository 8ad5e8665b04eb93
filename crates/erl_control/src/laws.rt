//! Laws of the definitions.
ghost use Rattle.std.specs.Prelude.{◌≡◌, ◌↔◌, ◌++◌, Bool, true, List, [], ℕ, length, Option, Some, Result, Ok};
ghost use Rattle.erl_term.specs.Data.{Data, atom};
ghost use Rattle.erl_term.specs.Numbers.{AreBytes};
ghost use Rattle.erl_control.specs.declared.signal.Item.{Item};
ghost use Rattle.erl_control.specs.declared.error.FrameError.{FrameError};
ghost use Rattle.erl_control.specs.declared.signal.Signal.{Signal};
ghost use Rattle.erl_term.specs.Canonical.{IsInRange};
ghost use Rattle.erl_control.specs.Control.{control_in, Fits, IsSendable};
ghost use Rattle.erl_control.specs.Canonical.{canonical_frame};
ghost use Rattle.erl_control.specs.Fits.{fits};
ghost use Rattle.erl_control.specs.Frame.{IsFramed};
ghost use Rattle.erl_control.specs.Answer.{IsFrameDue};

/// To any bytes one answer is due.
pub fn one_answer()
    ensures { (bytes : List ℕ) → AreBytes bytes → (due : Result (Option (Item × ℕ)) FrameError) × IsFrameDue bytes due × ((other : Result (Option (Item × ℕ)) FrameError) → IsFrameDue bytes other → other ≡ due) }
{
    erl_term::one_answer();
    erl_term::one_spelling();
}

/// No frame begins another.
pub fn one_frame()
    ensures { (i j : Item) (a b x y : List ℕ) → IsFramed i a → IsFramed j b → a ++ x ≡ b ++ y → (i ≡ j) × (a ≡ b) }
{
    erl_term::one_spelling();
}

/// A frame is read again, whatever follows it.
pub fn read_again()
    ensures { (item : Item) (frame rest : List ℕ) → IsFramed item frame → IsFrameDue (frame ++ rest) (Ok (Some (item, length frame))) }
{}

/// The frame that is written is a frame of its signal.
pub fn canonical_is_framed()
    ensures { (signal : Signal) (payload : Bool) → IsSendable signal → IsInRange (control_in (atom []) signal payload) → IsFramed (Item.Signal signal) (canonical_frame signal payload) }
{
    erl_term::canonical_is_spelling();
    erl_term::short_parts();
}

/// Proves that a test decides if a signal can carry a term.
pub fn fits_test()
    ensures test { (term : Data) → (fits term ≡ true) ↔ Fits term }
{}
