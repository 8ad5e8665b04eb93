//! The fields of a message, read from the front of the bytes.
ghost use Rattle.std.specs.Prelude.{◌≡◌, ◌++◌, ◌<◌, MatchOption, length};
ghost use Rattle.std.specs.Int.{to_be_bytes, w32, w64};
ghost use Rattle.erl_handshake.specs.Answer.{HasBody, IsBegun};
ghost use Rattle.erl_handshake.specs.Reading.{Decides, BeginsWithName};

use erl_names::NodeName;
use erl_term::Refusal;
use std::alloc::Global;

/// A number of 64 bits, and what follows it.
pub(crate) fn u64_at(bytes: &[u8]) -> Option<(u64, &[u8])>
    ensures { MatchOption result (length bytes.now < 8) (λ x. bytes.now ≡ to_be_bytes w64 x.0 ++ x.1.now) }
{
    let (field, rest) = bytes.split_first_chunk::<8>()?;
    Some((u64::from_be_bytes(*field), rest))
}

/// A number of 32 bits, and what follows it.
pub(crate) fn u32_at(bytes: &[u8]) -> Option<(u32, &[u8])>
    ensures { MatchOption result (length bytes.now < 4) (λ x. bytes.now ≡ to_be_bytes w32 x.0 ++ x.1.now) }
{
    let (field, rest) = bytes.split_first_chunk::<4>()?;
    Some((u32::from_be_bytes(*field), rest))
}

/// The bytes behind their length of two bytes, where so many are there. What follows them is passed
/// over.
pub(crate) fn counted_at(bytes: &[u8]) -> Option<&[u8]>
    ensures { MatchOption result (IsBegun bytes.now) (λ body. HasBody bytes.now body.now) }
{
    let (field, rest) = bytes.split_first_chunk::<2>()?;
    rest.get(..usize::from(u16::from_be_bytes(*field)))
}

/// The name behind its length. What follows it is passed over.
pub(crate) fn name_of(alloc: Global, bytes: &[u8]) -> Result<NodeName, Refusal>
    ensures { Decides (BeginsWithName bytes.now) result }
{
    let Some(text) = counted_at(bytes) else {
        return Err(Refusal::BadMessage);
    };
    let Ok(text) = str::from_utf8(text) else {
        return Err(Refusal::BadMessage);
    };
    match NodeName::read(alloc, text) {
        Err(Refusal::BadName) => Err(Refusal::BadMessage),
        answer => answer,
    }
}
