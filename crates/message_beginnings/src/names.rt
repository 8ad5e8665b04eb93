//! The beginnings of names.
ghost use Rattle.std.specs.Prelude.{◌≡◌, ◌≤◌, ◌↔◌, ◌==◌, IsTrue, length, position};
ghost use Rattle.std.specs.List.{AllPass};
ghost use Rattle.readers.specs.Places.{Begins};
ghost use Rattle.erl_names.specs.Name.{is_name_byte, is_host_byte};
ghost use Rattle.message_beginnings.specs.Parts.{IsNameOf, IsNameInFront, IsCountedName, IsNameBehind};

/// The number of bytes of the shortest names.
const FEWEST: usize = 3;

/// The number of bytes of the longest names.
pub(crate) const MOST: usize = 64;

/// Returns true if the first word of a name may have the byte.
fn is_name_byte(b: u8) -> bool
    ensures { result ≡ is_name_byte b }
{
    b.is_ascii_alphanumeric() || b == b'_' || b == b'-'
}

/// Returns true if the first word of a name may have all the bytes.
fn are_name_bytes(bytes: &[u8]) -> bool
    ensures { IsTrue result ↔ AllPass is_name_byte bytes.now }
{
    bytes.iter().all(|b| is_name_byte(*b))
}

/// Returns true if the second word of a name may have all the bytes.
fn are_host_bytes(bytes: &[u8]) -> bool
    ensures { IsTrue result ↔ AllPass is_host_byte bytes.now }
{
    bytes.iter().all(|b| is_name_byte(*b) || *b == b'.')
}

/// Returns the place of the first `@`.
fn first_at(text: &[u8]) -> Option<usize>
    ensures { result ≡ position (λ b. b == 64) text.now }
{
    text.iter().position(|b| *b == b'@')
}

/// Returns true if a name of exactly `len` bytes begins with the text.
fn whole_name_begins(len: usize, text: &[u8]) -> bool
    requires long { 3 ≤ len }
    requires short { len ≤ 64 }
    requires within { length text.now ≤ len }
    ensures { IsTrue result ↔ Begins (IsNameOf len) text.now }
{
    match first_at(text) {
        Some(at) => {
            at > 0 && at + 1 < len && are_name_bytes(&text[..at]) && are_host_bytes(&text[at + 1..])
        }
        None => text.len() + 2 <= len && are_name_bytes(text),
    }
}

/// Returns true if a name of exactly `len` bytes, and then anything, begins with the text.
fn name_begins(len: usize, text: &[u8]) -> bool
    ensures { IsTrue result ↔ Begins (IsNameInFront len) text.now }
{
    if len < FEWEST || len > MOST {
        return false;
    }
    whole_name_begins(len, text.get(..len).unwrap_or(text))
}

/// Returns true if a name of at most `most` bytes behind its length begins with the bytes.
fn counted_name_begins(most: usize, bytes: &[u8]) -> bool
    ensures { IsTrue result ↔ Begins (IsCountedName most) bytes.now }
{
    let Some((high, bytes)) = bytes.split_first() else {
        return FEWEST <= most;
    };
    if *high != 0 {
        return false;
    }
    let Some((low, text)) = bytes.split_first() else {
        return FEWEST <= most;
    };
    let len = usize::from(*low);
    len <= most && name_begins(len, text)
}

/// Returns true if `before` bytes, and then a name of at most `most` bytes behind its length, begin with
/// the bytes.
pub(crate) fn name_begins_behind(before: usize, most: usize, bytes: &[u8]) -> bool
    ensures { IsTrue result ↔ Begins (IsNameBehind before most) bytes.now }
{
    match bytes.get(before..) {
        Some(counted) => counted_name_begins(most, counted),
        None => FEWEST <= most,
    }
}
