//! Words: the runs of letters and digits in a term.
ghost use Rattle.std.specs.Prelude.{◌≡◌, drop};
ghost use Rattle.std.specs.List.{take_while, prefix_len};
ghost use Rattle.script_terms.specs.Words.{is_of_kind, is_name_byte, is_atom_byte, is_name, is_bare};

/// The bytes that make a word.
#[derive(Clone, Copy, Debug)]
pub(crate) enum Kind {
    /// Decimal digits.
    Digits,
    /// Hexadecimal digits, in lower case.
    HexDigits,
    /// Lower-case letters, digits and `_`.
    Name,
    /// Letters, digits, `_` and `@`.
    Atom,
}

impl Kind {
    fn has(self, c: u8) -> bool
        ensures { result ≡ is_of_kind self c }
    {
        match self {
            Kind::Digits => c.is_ascii_digit(),
            Kind::HexDigits => c.is_ascii_digit() || (b'a' <= c && c <= b'f'),
            Kind::Name => is_name_byte(c),
            Kind::Atom => is_atom_byte(c),
        }
    }
}

/// Returns the bytes of that kind at the front, and the bytes after them.
pub(crate) fn word_of(kind: Kind, bytes: &[u8]) -> (&[u8], &[u8])
    ensures word { result.0.now ≡ take_while (is_of_kind kind) bytes.now }
    ensures rest { result.1.now ≡ drop (prefix_len (is_of_kind kind) bytes.now) bytes.now }
{
    for (i, c) in bytes.iter().enumerate() {
        if !kind.has(*c) {
            return bytes.split_at(i);
        }
    }
    bytes.split_at(bytes.len())
}

/// Returns true if a word has the form of a name of a script: a lower-case ASCII letter, and then
/// lower-case letters, digits and `_`.
pub fn is_name(word: &str) -> bool
    ensures { result ≡ is_name word.now }
{
    is_name_word(word.as_bytes())
}

pub(crate) fn is_name_word(word: &[u8]) -> bool
    ensures { result ≡ is_name word.now }
{
    match word {
        [first, rest @ ..] => first.is_ascii_lowercase() && rest.iter().all(|c| is_name_byte(*c)),
        [] => false,
    }
}

/// Returns true if an atom of this text is written without quotes.
pub(crate) fn is_bare(text: &str) -> bool
    ensures { result ≡ is_bare text.now }
{
    match text.as_bytes() {
        [first, rest @ ..] => first.is_ascii_lowercase() && rest.iter().all(|c| is_atom_byte(*c)),
        [] => false,
    }
}

fn is_name_byte(c: u8) -> bool
    ensures { result ≡ is_name_byte c }
{
    c.is_ascii_lowercase() || c.is_ascii_digit() || c == b'_'
}

fn is_atom_byte(c: u8) -> bool
    ensures { result ≡ is_atom_byte c }
{
    c.is_ascii_lowercase() || c.is_ascii_uppercase() || c.is_ascii_digit() || c == b'_' || c == b'@'
}
