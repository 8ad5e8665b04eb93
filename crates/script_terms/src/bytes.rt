//! The next byte of a text.
ghost use Rattle.script_terms.specs.Reading.{Answers, next_at, mark_at};

use crate::fault::TermFault;

/// The next byte, and the bytes after it.
pub(crate) fn next_of(bytes: &[u8]) -> Result<(u8, &[u8]), TermFault>
    ensures { Answers (λ x. (x.0, x.1.now)) result (next_at bytes.now) }
{
    match bytes {
        [first, rest @ ..] => Ok((*first, rest)),
        [] => Err(TermFault::BadTerm),
    }
}

/// The bytes after this one, which comes next.
pub(crate) fn after_mark(mark: u8, bytes: &[u8]) -> Result<&[u8], TermFault>
    ensures { Answers (λ x. (mark, x.now)) result (mark_at mark bytes.now) }
{
    let (first, rest) = next_of(bytes)?;
    if first != mark {
        return Err(TermFault::BadTerm);
    }
    Ok(rest)
}
