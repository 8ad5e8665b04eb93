//! Laws of reading and printing. Each function does nothing: its contract is the law, for proofs above to cite.
ghost use Rattle.std.specs.Prelude.{◌≡◌, ◌≤◌, true, List, ℕ, Ok};
ghost use Rattle.erl_term.specs.declared.term.Pid.{Pid};
ghost use Rattle.erl_term.specs.declared.term.Reference.{Reference};
ghost use Rattle.erl_term.specs.Data.{Data};
ghost use Rattle.erl_term.specs.Canonical.{levels_of};
ghost use Rattle.script_terms.specs.Binding.{Look};
ghost use Rattle.script_terms.specs.Reading.{term_of};
ghost use Rattle.script_terms.specs.Printing.{term_text, pid_text, reference_text};
ghost use Rattle.script_terms.specs.OneLine.{IsOneLine, IsPrintable, NamesArePrintable};
ghost use Rattle.script_terms.specs.Values.{IsValue, is_literal};

/// Proves that a printed value stands on one line. The name of a node is printed as it is, and so has
/// to be one line by itself.
pub fn one_line()
    ensures term { (t : Data) → IsPrintable t → IsOneLine (term_text t) }
    ensures pid { (p : Pid) → IsOneLine p.node → IsOneLine (pid_text p) }
    ensures reference { (r : Reference) → IsOneLine r.node → IsOneLine (reference_text r) }
{}

/// Proves that a term that is read is a value of at most 64 levels. It is printed on one line if the
/// bound names are.
pub fn read_values()
    ensures value { (look : Look) (text : List ℕ) (t : Data) → term_of look text ≡ Ok t → IsValue t × (levels_of t ≤ 64) }
    ensures line { (look : Look) (text : List ℕ) (t : Data) → NamesArePrintable look → term_of look text ≡ Ok t → IsPrintable t }
{}

/// A value that is printed is read again, whatever names are bound, unless a pid or a reference
/// stands in it: these are printed in a form that isn't read.
pub fn read_again()
    ensures value { (look : Look) (t : Data) → IsValue t → levels_of t ≤ 64 → is_literal t ≡ true → term_of look (term_text t) ≡ Ok t }
    ensures text { (look other : Look) (text : List ℕ) (t : Data) → term_of look text ≡ Ok t → is_literal t ≡ true → term_of other (term_text t) ≡ Ok t }
{}
