//! The law of places. The function does nothing: its contract is the law.
ghost use Rattle.std.specs.Prelude.{◌≡◌, List, ℕ};
ghost use Rattle.fault_places.specs.Places.{IsPlace};
ghost use Rattle.fault_places.specs.declared.places.Reader.{Reader};

use erl_term::one_spelling;

/// Proves that the first fault of an item has one place.
pub fn one_place()
    ensures { (reader : Reader) (bytes : List ℕ) (n m : ℕ) → IsPlace reader bytes n → IsPlace reader bytes m → n ≡ m }
{
    one_spelling();
}
