//! A law of the definitions. The function does nothing: its contract is the law.
ghost use Rattle.std.specs.Prelude.{◌≡◌, List, ℕ, Err};
ghost use Rattle.script_lines.specs.Lines.{line_says};
ghost use Rattle.script_lines.specs.declared.reading.MayCome.{MayCome};
ghost use Rattle.script_lines.specs.declared.reason.Reason.{Reason};
ghost use Rattle.script_terms.specs.Binding.{Look};

/// Reading a line never gives [`Reason::Unmet`](crate::Reason::Unmet). Only a comparison with a reply does.
pub fn words_are_never_unmet()
    ensures { (may : MayCome) (look : Look) (line : List ℕ) → line_says may look line ≡ Err Reason.Unmet → ⊥ }
{}
