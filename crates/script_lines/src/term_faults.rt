//! The first fault of a text that is no term: its column, its cause and the remedy.
use crate::naming::begins_atom;
use crate::term_scan::{Mark, Opened, Part, TermScan, is_atom_letter};
use std::fmt;
use thiserror::Error;

/// The forms of a term, for a text that is none.
pub(crate) const TERMS: &str =
    "a term is an integer, an atom, '{..}', '[..]', '<<..>>' or '$name', with no spaces outside quotes";

/// The most characters of a text in double quotes that are shown as numbers.
const MOST_SHOWN: usize = 8;

/// The first fault of a text that is no term.
#[derive(Clone, Copy, Debug, Error)]
#[error("column {column}: {cause}")]
pub(crate) struct Fault<'a> {
    /// The column of the first character with which no term goes on, or that behind the last character if
    /// the text ends too early.
    pub(crate) column: usize,
    cause: Cause<'a>,
}

/// The cause of a fault, with the remedy.
#[derive(Clone, Copy, Debug, Error)]
enum Cause<'a> {
    #[error("a space: leave spaces out, or put the atom in quotes")]
    Space,
    #[error("a tab: leave tabs out, or put the atom in quotes")]
    Tab,
    #[error("text in double quotes is none of the terms: write {0}")]
    Text(TextRemedy<'a>),
    #[error("floats are none of the terms: write an integer")]
    Float,
    #[error("maps are none of the terms: write a list of tuples")]
    Map,
    #[error("records are none of the terms: write a tuple")]
    Record,
    #[error("funs are none of the terms: write an atom in place of it")]
    Fun,
    #[error("ports are none of the terms: write an atom in place of it")]
    Port,
    #[error("calls are none of the terms: write the value")]
    Call,
    #[error("variables are none of the terms: write $name, or an atom as 'Foo' in quotes")]
    Variable,
    #[error("a pid is written $name, with the name that 'spawn' gave it")]
    Pid,
    #[error("a reference is written $name, with the name that 'monitor' gave it")]
    Reference,
    #[error("a name behind '$' is a lower-case letter, then lower-case letters, digits and '_'")]
    Name,
    #[error("an integer is -2^127 to 2^127 - 1")]
    Integer,
    #[error("an integer is decimal digits alone: write 255 for 16#ff, and 1000 for 1_000")]
    Decimal,
    #[error("an integer has no '+': leave it out")]
    Plus,
    #[error("a digit is due behind '-'")]
    Minus,
    #[error("a byte is 0 to 255")]
    Byte,
    #[error("a binary begins with '<<'")]
    Angle,
    #[error("an atom has at most 255 characters")]
    LongAtom,
    #[error("an atom with other characters than letters, digits, '_' and '@' stands in quotes, as 'two-words'")]
    BareAtom,
    #[error(r"an escape is \', \\ or \x{{H}}, with a number in lower-case hexadecimal")]
    Escape,
    #[error(r"no character has this number: the last is \x{{10ffff}}, and \x{{d800}} to \x{{dfff}} are none")]
    Character,
    #[error("a term has at most 64 levels")]
    Levels,
    #[error("an item is missing before '{0}': write one, or leave the ',' or '|' out")]
    Missing(char),
    #[error("the quote of column {0} isn't closed: write ' behind the atom")]
    OpenQuote(usize),
    #[error("'{open}' of column {column} isn't closed: write '{close}'")]
    Open {
        open: &'static str,
        column: usize,
        close: &'static str,
    },
    #[error("'{open}' of column {column} is closed by '{close}'")]
    Close {
        open: &'static str,
        column: usize,
        close: &'static str,
    },
    #[error("{due} is due here, in the '{open}' of column {column}")]
    Due {
        due: &'static str,
        open: &'static str,
        column: usize,
    },
    #[error("the term has ended: nothing stands behind it")]
    Ended,
    #[error("{terms}", terms = TERMS)]
    NoTerm,
}

/// The remedy for text in double quotes.
#[derive(Clone, Copy, Debug)]
struct TextRemedy<'a> {
    /// The rest of the line, from the first double quote on.
    rest: &'a str,
    is_in_binary: bool,
}

impl<'a> TextRemedy<'a> {
    /// Returns the text between the quotes, if it is short and plain ASCII.
    fn plain(&self) -> Option<&'a str> {
        let (text, _) = self.rest.strip_prefix('"')?.split_once('"')?;
        let is_plain = text
            .bytes()
            .all(|c| (c.is_ascii_graphic() || c == b' ') && c != b'\\');
        (is_plain && text.len() <= MOST_SHOWN).then_some(text)
    }
}

impl fmt::Display for TextRemedy<'_> {
    fn fmt<W: fmt::Write>(&self, f: &mut fmt::Formatter<W>) -> fmt::Result {
        match self.plain() {
            Some(text) if self.is_in_binary && !text.is_empty() => write!(f, "{}", Numbers(text)),
            Some(text) if !self.is_in_binary => {
                write!(f, "[{}] or <<{}>>", Numbers(text), Numbers(text))
            }
            _ => write!(
                f,
                "the numbers of its characters, as [104,105] or <<104,105>> for \"hi\""
            ),
        }
    }
}

/// The numbers of the characters of an ASCII text, with commas between them.
#[derive(Clone, Copy, Debug)]
struct Numbers<'a>(&'a str);

impl fmt::Display for Numbers<'_> {
    fn fmt<W: fmt::Write>(&self, f: &mut fmt::Formatter<W>) -> fmt::Result {
        for (place, number) in self.0.bytes().enumerate() {
            if place > 0 {
                write!(f, ",")?;
            }
            write!(f, "{number}")?;
        }
        Ok(())
    }
}

impl Mark {
    /// Returns the mark and the one that closes it.
    fn texts(self) -> (&'static str, &'static str) {
        match self {
            Mark::Quote => ("'", "'"),
            Mark::Brace => ("{", "}"),
            Mark::Angles => ("<<", ">>"),
            Mark::Bracket { .. } => ("[", "]"),
        }
    }

    /// Returns the marks that may stand behind a term inside of this one.
    fn due(self) -> &'static str {
        match self {
            Mark::Quote => "'",
            Mark::Brace => "',' or '}'",
            Mark::Angles => "',' or '>>'",
            Mark::Bracket { is_ending, .. } if is_ending => "']'",
            Mark::Bracket { .. } => "',', '|' or ']'",
        }
    }
}

impl Cause<'_> {
    fn open(opened: Opened) -> Self {
        let (open, close) = opened.mark.texts();
        let column = opened.column;
        match opened.mark {
            Mark::Quote => Cause::OpenQuote(column),
            _ => Cause::Open {
                open,
                column,
                close,
            },
        }
    }

    fn close(opened: Opened) -> Self {
        let (open, close) = opened.mark.texts();
        let column = opened.column;
        Cause::Close {
            open,
            column,
            close,
        }
    }

    /// Returns the cause if `c` stands behind a term inside of a mark.
    fn behind_item(opened: Opened, c: char) -> Self {
        if is_other_closing(opened.mark, c) {
            return Cause::close(opened);
        }
        let (open, _) = opened.mark.texts();
        let (column, due) = (opened.column, opened.mark.due());
        Cause::Due { due, open, column }
    }
}

/// Returns true if `c` closes another mark than this one.
fn is_other_closing(mark: Mark, c: char) -> bool {
    let (_, close) = mark.texts();
    matches!(c, '}' | ']' | ')' | '>') && !close.starts_with(c)
}

/// Returns true if the second character of `rest` is a digit.
fn has_digit_behind(rest: &str) -> bool {
    rest.chars().nth(1).is_some_and(|c| c.is_ascii_digit())
}

/// Returns true if `c` makes an atom one that stands in quotes.
fn is_other_letter(c: char) -> bool {
    "-.:/+*!?%&=~'".contains(c) || !c.is_ascii() && c.is_alphanumeric()
}

/// Returns the cause if `rest` begins with a `#` where a term is due.
fn cause_of_hash<'a>(rest: &str) -> Cause<'a> {
    match rest {
        _ if rest.starts_with("#{") => Cause::Map,
        _ if rest.starts_with("#Ref<") => Cause::Reference,
        _ if rest.starts_with("#Fun<") => Cause::Fun,
        _ if rest.starts_with("#Port<") => Cause::Port,
        _ if rest.chars().nth(1).is_some_and(|c| c.is_ascii_lowercase()) => Cause::Record,
        _ => Cause::NoTerm,
    }
}

/// Returns the cause if the digits of an integer write too much.
fn cause_of_magnitude<'a>(scan: &TermScan, most: u128) -> Cause<'a> {
    if most > 255 {
        Cause::Integer
    } else if scan.is_in_binary() {
        Cause::Byte
    } else {
        Cause::Levels
    }
}

/// Returns the cause if `c` stands where a term is due, and isn't the front of one that may stand there.
fn cause_of_mark<'a>(scan: &TermScan, c: char) -> Cause<'a> {
    match scan.innermost() {
        None => Cause::NoTerm,
        Some(opened) if is_other_closing(opened.mark, c) => Cause::close(opened),
        Some(_) => Cause::Missing(c),
    }
}

/// Returns the cause if no term that may stand here begins with `c`, the first character of `rest`.
fn cause_of_item<'a>(scan: &TermScan, rest: &'a str, c: char) -> Cause<'a> {
    let is_in_binary = scan.is_in_binary();
    match c {
        '"' => Cause::Text(TextRemedy { rest, is_in_binary }),
        ',' | '|' | '}' | ']' | ')' | '>' => cause_of_mark(scan, c),
        '+' if has_digit_behind(rest) => Cause::Plus,
        '.' if has_digit_behind(rest) => Cause::Float,
        _ if is_in_binary => Cause::Byte,
        '#' => cause_of_hash(rest),
        'A'..='Z' | '_' => Cause::Variable,
        '{' | '[' | '\'' | '$' | '<' | '-' | '0'..='9' | 'a'..='z' => Cause::Levels,
        _ if !c.is_ascii() && c.is_alphanumeric() => Cause::BareAtom,
        _ => Cause::NoTerm,
    }
}

/// Returns the cause if `c`, the first character of `rest`, stands behind a term.
fn cause_behind_term<'a>(scan: &TermScan, rest: &'a str, c: char) -> Cause<'a> {
    match (scan.part(), c) {
        (Part::Bare(_), '(') => Cause::Call,
        (Part::Bare(_), c) if is_other_letter(c) => Cause::BareAtom,
        (Part::Name, c) if c.is_alphanumeric() => Cause::Name,
        (Part::Digits { .. }, '.') if has_digit_behind(rest) => Cause::Float,
        (Part::Digits { .. }, '#' | '_') => Cause::Decimal,
        _ => match scan.innermost() {
            Some(opened) if scan.part() == Part::LastAngle => Cause::close(opened),
            Some(opened) => Cause::behind_item(opened, c),
            None => Cause::Ended,
        },
    }
}

/// Returns true if `before` ends with the atom `fun`, and with `rest` a fun follows.
fn is_fun(scan: &TermScan, before: &str, rest: &str) -> bool {
    let is_head = rest.starts_with('(') || rest.starts_with(' ') && rest.contains('/');
    scan.part() == Part::Bare(3) && before.ends_with("fun") && is_head
}

/// Returns the cause if no term goes on with `c`, the first character of `rest`, behind `before`.
fn cause_of<'a>(scan: &TermScan, before: &str, rest: &'a str, c: char) -> Cause<'a> {
    match (scan.part(), c) {
        (Part::Quoted(_), _) => Cause::LongAtom,
        (Part::Bare(_), c) if is_atom_letter(c) => Cause::LongAtom,
        (Part::CodeDigits(_, Some(_)), '}' | '0'..='9' | 'a'..='f') => Cause::Character,
        (Part::Escape(_) | Part::Code(_) | Part::CodeDigits(..), _) => Cause::Escape,
        _ if is_fun(scan, before, rest) => Cause::Fun,
        (_, ' ') => Cause::Space,
        (_, '\t') => Cause::Tab,
        (Part::Dollar, _) => Cause::Name,
        (Part::Minus(most) | Part::Digits { most, .. }, '0'..='9') => {
            cause_of_magnitude(scan, most)
        }
        (Part::Minus(_), _) => Cause::Minus,
        (Part::Angle, c) if c.is_ascii_alphanumeric() => Cause::Pid,
        (Part::Angle, _) => Cause::Angle,
        (Part::Item | Part::First | Part::Tail, _) => cause_of_item(scan, rest, c),
        _ => cause_behind_term(scan, rest, c),
    }
}

/// Returns the cause if the text ends too early.
fn cause_at_end<'a>(scan: &TermScan) -> Option<Cause<'a>> {
    match (scan.part(), scan.innermost()) {
        _ if scan.is_term() => None,
        (Part::Minus(_), _) => Some(Cause::Minus),
        (Part::Dollar, _) => Some(Cause::Name),
        (Part::Angle, _) => Some(Cause::Angle),
        (_, Some(opened)) => Some(Cause::open(opened)),
        (_, None) => Some(Cause::NoTerm),
    }
}

/// Returns the first fault of `text`, which begins in this column. [`None`] if it is a term, each name behind
/// a `$` taken for a known one.
pub(crate) fn fault_in(text: &str, column: usize) -> Option<Fault<'_>> {
    let mut scan = TermScan::new();
    let mut column = column;
    for (place, c) in text.char_indices() {
        if !scan.push(column, c) {
            let (before, rest) = text.split_at_checked(place)?;
            let cause = cause_of(&scan, before, rest, c);
            return Some(Fault { column, cause });
        }
        column = column.saturating_add(1);
    }
    let cause = cause_at_end(&scan)?;
    Some(Fault { column, cause })
}

/// Returns the column of the first fault of `text`, which is no atom, and begins in this column.
pub(crate) fn atom_fault_in(text: &str, column: usize) -> usize {
    if !begins_atom(text.as_bytes()) {
        return column;
    }
    match fault_in(text, column) {
        Some(fault) => fault.column,
        None => column,
    }
}
