//! The lines of a text.
ghost use Rattle.std.specs.Prelude.{◌≡◌, ◌<◌, ◌+◌, ◌++◌, ◌∷◌, IfNone, IfSome, drop, length, take};
ghost use Rattle.script_lines.specs.Breaks.{IsOneLine, last_line, later};

use memchr::memchr;

// Returns the index of the first line break.
fn break_in(bytes: &[u8]) -> Option<usize>
    ensures line { IfSome result (λ at. IsOneLine (take at bytes.now)) }
    ensures ends { IfSome result (λ at. bytes.now ≡ take at bytes.now ++ (10 ∷ drop (at + 1) bytes.now)) }
    ensures within { IfSome result (λ at. at < length bytes.now) }
    ensures none { IfNone result (IsOneLine bytes.now) }
{
    memchr(b'\n', bytes)
}

/// Returns the bytes before the first line break, byte 10, and those behind it. [`None`] if there is no
/// line break.
pub fn split_line(bytes: &[u8]) -> Option<(&[u8], &[u8])>
    ensures line { IfSome result (λ parts. IsOneLine parts.0.now) }
    ensures parts { IfSome result (λ parts. bytes.now ≡ parts.0.now ++ (10 ∷ parts.1.now)) }
    ensures none { IfNone result (IsOneLine bytes.now) }
{
    match break_in(bytes) {
        Some(at) => Some((&bytes[..at], &bytes[at + 1..])),
        None => None,
    }
}

// Returns the second line, or the first if the second is empty.
fn later<'a>(first: &'a [u8], second: &'a [u8]) -> &'a [u8]
    ensures { result.now ≡ later first.now second.now }
{
    match second {
        [] => first,
        [..] => second,
    }
}

/// Returns the last line of `text` that isn't empty, without its line break, or an empty one if there is
/// none.
pub(crate) fn last_line(text: &[u8]) -> &[u8]
    ensures { result.now ≡ last_line text.now }
{
    let mut last: &[u8] = &[];
    let mut rest = text;
    while let Some((line, behind)) = split_line(rest) {
        last = later(last, line);
        rest = behind;
    }
    later(last, rest)
}
