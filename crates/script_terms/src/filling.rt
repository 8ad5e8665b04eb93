//! A text in which each name behind a mark is replaced by the printed form of the thing that it names.
ghost use Rattle.std.specs.Prelude.{◌≡◌, ◌++◌, ◌-◌, length, IfOk, OnOk, string_bytes};
ghost use Rattle.script_terms.specs.Binding.{Look, Knows};
ghost use Rattle.script_terms.specs.Filling.{filled, marked_text, name_length, named_text};
ghost use Rattle.script_terms.specs.Reading.{named_at};

use crate::names::{Named, Names, named_of};
use crate::printing::{put_pid, put_reference};
use crate::unbound::Place;
use std::alloc::{AllocError, Global};

// Appends the printed form of a process or a reference.
fn put_named(alloc: Global, out: &mut Vec<u8>, named: &Named) -> Result<(), AllocError>
    ensures { OnOk result (out.new.items ≡ out.old.items ++ named_text named.now) }
{
    let mut text = String::new(alloc);
    match named {
        Named::Process(process) => put_pid(&mut text, process)?,
        Named::Monitor(reference) => put_reference(&mut text, reference)?,
    }
    out.extend_from_slice(text.as_bytes())
}

// Appends the printed form of the thing that the name at the front of `behind` names, or a `$` if no
// bound name stands there. Returns the length of the name.
fn put_marked(
    alloc: Global,
    names: &Names,
    out: &mut Vec<u8>,
    behind: &[u8],
) -> Result<usize, AllocError>
    ensures text { (look : Look) → Knows names.now look → OnOk result (out.new.items ≡ out.old.items ++ marked_text (named_at look behind.now)) }
    ensures len { (look : Look) → Knows names.now look → IfOk result (λ len. len ≡ name_length behind.now (named_at look behind.now)) }
{
    match named_of(names, behind) {
        Ok((named, rest)) => {
            put_named(alloc, out, named)?;
            Ok(behind.len().saturating_sub(rest.len()))
        }
        Err(_) => {
            out.push(b'$')?;
            Ok(0)
        }
    }
}

/// Returns `text` with the printed form of the process or reference in the place of each `$name` that is
/// bound and stands outside of quotes. All other bytes stay.
///
/// # Errors
/// [`AllocError`] if out of memory.
#[tactic(auto, unfolding(crate::specs::Filling::filled_from))]
pub fn filled(alloc: Global, names: &Names, text: &str) -> Result<Vec<u8>, AllocError>
    ensures { (look : Look) → Knows names.now look → IfOk result (λ bytes. bytes.items ≡ filled look text.now) }
{
    let mut out = Vec::new(alloc);
    let mut place = Place::Outside;
    let mut left_out = 0usize;
    let mut rest = text.as_bytes();
    for _ in 0..text.len() {
        let [first, behind @ ..] = rest else {
            break;
        };
        if left_out > 0 {
            left_out -= 1;
        } else if place.is_mark(*first) {
            left_out = put_marked(alloc, names, &mut out, behind)?;
        } else {
            out.push(*first)?;
        }
        place = place.behind(*first);
        rest = behind;
    }
    Ok(out)
}
