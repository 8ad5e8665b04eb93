//! Laws of the definitions. Each function does nothing: its contract is the law, for proofs above to cite.
ghost use Rattle.std.specs.Prelude.{◌≡◌, ◌≤◌, ◌↔◌, ◌++◌, List, ℕ, ℤ, length, Result, Ok};
ghost use Rattle.erl_term.specs.declared.error.TermError.{TermError};
ghost use Rattle.erl_term.specs.declared.term.Pid.{Pid};
ghost use Rattle.erl_term.specs.declared.term.Reference.{Reference};
ghost use Rattle.erl_term.specs.Data.{Data};
ghost use Rattle.erl_term.specs.Numbers.{AreBytes};
ghost use Rattle.erl_term.specs.Spelling.{IsSpelling};
ghost use Rattle.erl_term.specs.Answer.{IsDue};
ghost use Rattle.erl_term.specs.Order.{compared, pid_cmp};
ghost use Rattle.erl_term.specs.Canonical.{canonical, canonical_int, canonical_pid, canonical_reference, levels_of, IsInRange, IsPidInRange, IsReferenceInRange, IsWritable};

/// No spelling begins another, so what was written is read again, whatever follows it.
pub fn one_spelling()
    ensures { (t u : Data) (a b x y : List ℕ) → IsSpelling 64 t a → IsSpelling 64 u b → a ++ x ≡ b ++ y → (t ≡ u) × (a ≡ b) }
{}

/// The canonical spelling of a value is a spelling of it, and has exactly its levels.
pub fn canonical_is_spelling()
    ensures { (t : Data) (levels : ℕ) → IsInRange t → (IsSpelling levels t (canonical t) ↔ (levels_of t ≤ levels)) }
{}

/// Proves that `decode` reads the bytes that `encode` writes, whatever follows them.
pub fn read_again()
    ensures { (t : Data) (rest : List ℕ) → IsWritable t → IsDue (canonical t ++ rest) (Ok (t, length (canonical t))) }
{}

/// To any bytes one answer is due.
pub fn one_answer()
    ensures { (bytes : List ℕ) → AreBytes bytes → (due : Result (Data × ℕ) TermError) × IsDue bytes due × ((other : Result (Data × ℕ) TermError) → IsDue bytes other → other ≡ due) }
{}

/// Pids are ordered by the name of the node, then by creation, id and serial.
pub fn order_of_pids()
    ensures { (p q : Pid) → compared p q ≡ pid_cmp p q }
{}

/// The canonical spellings of integers, pids and references are short.
pub fn short_parts()
    ensures integer { (z : ℤ) → length (canonical_int z) ≤ 19 }
    ensures pid { (p : Pid) → IsPidInRange p → length (canonical_pid p) ≤ 1036 }
    ensures reference { (r : Reference) → IsReferenceInRange r → length (canonical_reference r) ≤ 1050 }
{}
