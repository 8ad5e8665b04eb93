//! Lists: what stands behind an item.
ghost use Rattle.script_terms.specs.Reading.{Answers};
ghost use Rattle.script_terms.specs.Steps.{step_at, tail_step_at, marks_at};

use crate::bytes::{after_mark, next_of};
use crate::fault::TermFault;

/// How a list goes on behind an item.
#[derive(Clone, Copy, Debug, PartialEq, Eq)]
pub(crate) enum Step {
    /// Behind a comma, with its next item.
    Item,
    /// Behind `|[`, with the first item of the list that is its tail.
    List,
    /// With the bracket that closes it: it has no tail, or the empty list.
    End,
    /// Behind a `|`, with a tail that is no list.
    Tail,
}

/// How a list goes on behind an item, and the bytes with which it does.
#[tactic(auto, unfolding(crate::specs::Steps::step_at))]
pub(crate) fn step_of(bytes: &[u8]) -> Result<(Step, &[u8]), TermFault>
    ensures { Answers (λ x. (x.0, x.1.now)) result (step_at bytes.now) }
{
    let (mark, rest) = next_of(bytes)?;
    match mark {
        b',' => Ok((Step::Item, rest)),
        b']' => Ok((Step::End, bytes)),
        b'|' => tail_step_of(rest),
        _ => Err(TermFault::BadTerm),
    }
}

#[tactic(auto, unfolding(crate::specs::Steps::tail_step_at))]
fn tail_step_of(bytes: &[u8]) -> Result<(Step, &[u8]), TermFault>
    ensures { Answers (λ x. (x.0, x.1.now)) result (tail_step_at bytes.now) }
{
    let (first, rest) = next_of(bytes)?;
    if first != b'[' {
        return Ok((Step::Tail, bytes));
    }
    let (second, after) = next_of(rest)?;
    if second == b']' {
        return Ok((Step::End, after));
    }
    Ok((Step::List, rest))
}

/// The bytes after so many of this byte, which come next.
pub(crate) fn after_marks(mark: u8, count: usize, bytes: &[u8]) -> Result<&[u8], TermFault>
    ensures { Answers (λ x. x.now) result (marks_at mark count bytes.now) }
{
    let mut rest = bytes;
    for _ in 0..count {
        rest = after_mark(mark, rest)?;
    }
    Ok(rest)
}
