//! The length of a term.
ghost use Rattle.std.specs.Prelude.{◌≡◌, ℕ, Result};
ghost use Rattle.erl_term.specs.declared.error.TermError.{TermError};
ghost use Rattle.erl_term.specs.Data.{Data};
ghost use Rattle.erl_term.specs.Answer.{IsDue};
ghost use Rattle.c_library.specs.Numbers.{term_numbers};

use erl_term::{one_answer, term_len};

/// Returns 0, and writes the length of the term at the front to `length`, version byte included.
/// Returns the number of the fault, 1 to 5, if there is none, and writes 0. Never allocates. (ERTS
/// User's Guide, External Term Format.)
#[unsafe(no_mangle)]
pub extern "C" fn erldist_term_len(bytes: &[u8], length: &mut usize) -> u32
    ensures due { (due : Result (Data × ℕ) TermError) × IsDue bytes.now due × (term_numbers due ≡ (result, length.new)) }
    ensures only { (due : Result (Data × ℕ) TermError) → IsDue bytes.now due → term_numbers due ≡ (result, length.new) }
{
    one_answer();
    match term_len(bytes) {
        Ok(taken) => {
            *length = taken;
            0
        }
        Err(why) => {
            *length = 0;
            u32::from(why.number())
        }
    }
}
