//! The characters with which the text of a term goes on.
use arrayvec::ArrayVec;

/// The most brackets, `{` or `[`, that open one inside another, and the most levels of a term.
const LEVELS: usize = 64;

/// The most characters of an atom.
const LONGEST: usize = 255;

/// The last character.
const LAST: u32 = 0x10_ffff;

/// The greatest magnitudes of an integer: of one without a `-`, and of one with it.
const INTEGERS: (u128, u128) = (i128::MAX as u128, 1 << 127);

/// The greatest magnitudes of an integer of a byte, likewise.
const BYTES: (u128, u128) = (255, 0);

/// A mark that another one has to close.
#[derive(Clone, Copy, Debug, Default, PartialEq, Eq)]
pub(crate) enum Mark {
    /// `'`
    #[default]
    Quote,
    /// `{`
    Brace,
    /// `<<`
    Angles,
    /// `[`
    Bracket {
        /// The number of lists that have begun as tails of this one, and are open.
        tails: usize,
        /// True if no item may come, since the tail has.
        is_ending: bool,
    },
}

/// A mark that is open.
#[derive(Clone, Copy, Debug, Default, PartialEq, Eq)]
pub(crate) struct Opened {
    pub(crate) mark: Mark,
    /// The column of the mark, or of the first `[` if lists have begun as tails.
    pub(crate) column: usize,
}

/// The part of a term in which the next character stands.
#[derive(Clone, Copy, Debug, PartialEq, Eq)]
pub(crate) enum Part {
    /// The front of a term.
    Item,
    /// The front of a term, right behind a mark that may be closed at once.
    First,
    /// The front of the tail of a list.
    Tail,
    /// The digits behind a `-`, of this magnitude at most.
    Minus(u128),
    /// An integer, behind a digit.
    Digits {
        /// The greatest magnitude.
        most: u128,
        /// The magnitude of the digits so far.
        value: u128,
    },
    /// The first letter behind a `$`.
    Dollar,
    /// A name behind a `$`.
    Name,
    /// A bare atom, behind so many characters.
    Bare(usize),
    /// An atom between quotes, behind so many characters.
    Quoted(usize),
    /// An escape in such an atom, behind the `\`.
    Escape(usize),
    /// An escape in such an atom, behind the `x`.
    Code(usize),
    /// An escape in such an atom, behind the `{` and the digits of a number.
    CodeDigits(usize, Option<u32>),
    /// The second `<` of a binary.
    Angle,
    /// The second `>` of a binary.
    LastAngle,
    /// The character behind a term whose last one has come.
    Behind,
}

/// A text that some term begins with.
#[derive(Drop)]
pub(crate) struct TermScan {
    part: Part,
    open: ArrayVec<Opened, LEVELS>,
}

impl TermScan {
    /// Returns the empty text.
    pub(crate) fn new() -> TermScan {
        TermScan {
            part: Part::Item,
            open: ArrayVec::new(),
        }
    }

    /// Returns the part of a term in which the next character stands.
    pub(crate) fn part(&self) -> Part {
        self.part
    }

    /// Returns the innermost mark that is open.
    pub(crate) fn innermost(&self) -> Option<Opened> {
        self.open.last().copied()
    }

    /// Returns true if the next character stands in a binary.
    pub(crate) fn is_in_binary(&self) -> bool {
        matches!(self.innermost(), Some(opened) if opened.mark == Mark::Angles)
    }

    /// Returns true if no more brackets may open.
    pub(crate) fn is_full(&self) -> bool {
        self.open.is_full()
    }

    /// Returns true if the text is a term.
    pub(crate) fn is_term(&self) -> bool {
        let is_end = matches!(
            self.part,
            Part::Digits { .. } | Part::Name | Part::Bare(_) | Part::Behind
        );
        is_end && self.open.is_empty()
    }

    /// Appends `c`, which stands in this column. Returns false if no term goes on with it. The text is then
    /// used up.
    pub(crate) fn push(&mut self, column: usize, c: char) -> bool {
        match self.part_behind(column, c) {
            Some(part) => {
                self.part = part;
                true
            }
            None => false,
        }
    }

    /// Returns the part behind `c`, or [`None`] if no term goes on with it.
    fn part_behind(&mut self, column: usize, c: char) -> Option<Part> {
        match self.part {
            Part::Item => self.item(column, c),
            Part::First => self.first(column, c),
            Part::Tail => self.tail(column, c),
            Part::Minus(most) => digit(most, 0, c),
            Part::Digits { most, value } if c.is_ascii_digit() => digit(most, value, c),
            Part::Dollar => c.is_ascii_lowercase().then_some(Part::Name),
            Part::Name if is_name_letter(c) => Some(Part::Name),
            Part::Bare(length) if is_atom_letter(c) => longer(length).map(Part::Bare),
            Part::Quoted(length) => self.quoted(length, c),
            Part::Escape(length) => escape(length, c),
            Part::Code(length) => (c == '{').then_some(Part::CodeDigits(length, None)),
            Part::CodeDigits(length, code) => code_digit(length, code, c),
            Part::Angle if c == '<' => self.open(Mark::Angles, column.saturating_sub(1)),
            Part::LastAngle if c == '>' => self.close_innermost(),
            Part::Angle | Part::LastAngle => None,
            Part::Digits { .. } | Part::Name | Part::Bare(_) | Part::Behind => self.behind_term(c),
        }
    }

    fn open(&mut self, mark: Mark, column: usize) -> Option<Part> {
        self.open.try_push(Opened { mark, column }).ok()?;
        Some(Part::First)
    }

    fn close_innermost(&mut self) -> Option<Part> {
        self.open.pop()?;
        Some(Part::Behind)
    }

    /// Puts a bracket with this state in place of the innermost mark.
    fn replace(&mut self, tails: usize, is_ending: bool) -> Option<Part> {
        let Opened { column, .. } = self.open.pop()?;
        self.open(Mark::Bracket { tails, is_ending }, column)
    }

    /// Returns the greatest magnitudes of an integer here, or [`None`] if none may stand here. Inside of 64
    /// brackets stand the bytes of a list alone.
    fn magnitudes(&self) -> Option<(u128, u128)> {
        let mark = self.innermost().map(|opened| opened.mark);
        match mark {
            Some(Mark::Angles) => Some(BYTES),
            _ if !self.is_full() => Some(INTEGERS),
            Some(Mark::Bracket { is_ending, .. }) if !is_ending => Some(BYTES),
            _ => None,
        }
    }

    fn item(&mut self, column: usize, c: char) -> Option<Part> {
        match c {
            '{' if !self.is_in_binary() => self.open(Mark::Brace, column),
            '[' if !self.is_in_binary() => {
                let (tails, is_ending) = (0, false);
                self.open(Mark::Bracket { tails, is_ending }, column)
            }
            '0'..='9' => digit(self.magnitudes()?.0, 0, c),
            '-' => Some(Part::Minus(self.magnitudes()?.1)),
            _ if self.is_full() || self.is_in_binary() => None,
            '\'' => {
                self.open(Mark::Quote, column)?;
                Some(Part::Quoted(0))
            }
            '$' => Some(Part::Dollar),
            '<' => Some(Part::Angle),
            'a'..='z' => Some(Part::Bare(1)),
            _ => None,
        }
    }

    fn first(&mut self, column: usize, c: char) -> Option<Part> {
        match self.close(c) {
            Some(part) => Some(part),
            None => self.item(column, c),
        }
    }

    fn tail(&mut self, column: usize, c: char) -> Option<Part> {
        let Mark::Bracket { tails, .. } = self.innermost()?.mark else {
            return None;
        };
        if c == '[' {
            return self.replace(tails.saturating_add(1), false);
        }
        self.replace(tails, true)?;
        self.item(column, c)
    }

    /// Closes the innermost mark if `c` closes it.
    fn close(&mut self, c: char) -> Option<Part> {
        match (self.innermost()?.mark, c) {
            (Mark::Brace, '}') => self.close_innermost(),
            (Mark::Bracket { tails: 0, .. }, ']') => self.close_innermost(),
            (Mark::Bracket { tails, .. }, ']') => {
                self.replace(tails - 1, true)?;
                Some(Part::Behind)
            }
            (Mark::Angles, '>') => Some(Part::LastAngle),
            _ => None,
        }
    }

    fn behind_term(&mut self, c: char) -> Option<Part> {
        match (self.innermost()?.mark, c) {
            (Mark::Brace | Mark::Angles, ',') => Some(Part::Item),
            (Mark::Bracket { is_ending, .. }, ',') if !is_ending => Some(Part::Item),
            (Mark::Bracket { is_ending, .. }, '|') if !is_ending => Some(Part::Tail),
            _ => self.close(c),
        }
    }

    fn quoted(&mut self, length: usize, c: char) -> Option<Part> {
        match c {
            '\'' => self.close_innermost(),
            '\\' => longer(length).map(|_| Part::Escape(length)),
            _ => longer(length).map(Part::Quoted),
        }
    }
}

/// Returns the part behind the digit `c`, which follows digits of this magnitude.
fn digit(most: u128, value: u128, c: char) -> Option<Part> {
    let digit = c.to_digit(10)?;
    let value = value.checked_mul(10)?.checked_add(u128::from(digit))?;
    (value <= most).then_some(Part::Digits { most, value })
}

/// Returns the length of an atom with one more character, if an atom has that many.
fn longer(length: usize) -> Option<usize> {
    (length < LONGEST).then_some(length.saturating_add(1))
}

fn escape(length: usize, c: char) -> Option<Part> {
    match c {
        '\'' | '\\' => longer(length).map(Part::Quoted),
        'x' => Some(Part::Code(length)),
        _ => None,
    }
}

/// Returns the part behind `c`, a lower-case hexadecimal digit or a `}`. Behind `}` the number is that of a
/// character.
fn code_digit(length: usize, code: Option<u32>, c: char) -> Option<Part> {
    if c == '}' {
        char::from_u32(code?)?;
        return longer(length).map(Part::Quoted);
    }
    if c.is_ascii_uppercase() {
        return None;
    }
    let digit = c.to_digit(16)?;
    let code = code.unwrap_or(0).checked_mul(16)?.checked_add(digit)?;
    (code <= LAST).then_some(Part::CodeDigits(length, Some(code)))
}

fn is_name_letter(c: char) -> bool {
    c.is_ascii_lowercase() || c.is_ascii_digit() || c == '_'
}

/// Returns true if `c` is a letter, a digit, `_` or `@`, as the characters of a bare atom are.
pub(crate) fn is_atom_letter(c: char) -> bool {
    c.is_ascii_alphanumeric() || c == '_' || c == '@'
}
