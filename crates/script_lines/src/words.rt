//! The words of a line: what stands between spaces, byte 32.
ghost use Rattle.std.specs.Prelude.{◌≡◌};
ghost use Rattle.std.specs.Option.{option_copied};
ghost use Rattle.script_lines.specs.Words.{Answers, atom_and_text, atom_and_word, behind_word, from_word, no_words, one_word, three_words, trimmed, two_words, two_words_or_three, word_at, word_of, words_and_text, word_and_text, word_or_none, text_at};

use crate::reason::Reason;
use script_terms::split_at_space;

// Without the spaces at the front.
fn from_word(text: &str) -> &str
    ensures { result.now ≡ from_word text.now }
{
    let mut rest = text;
    while let Some(behind) = rest.strip_prefix(' ') {
        rest = behind;
    }
    rest
}

// Without the spaces at the end.
fn trimmed(text: &str) -> &str
    ensures { result.now ≡ trimmed text.now }
{
    let mut rest = text;
    while let Some(before) = rest.strip_suffix(' ') {
        rest = before;
    }
    rest
}

/// The first word, which is empty where there is none, and what stands behind it.
pub(crate) fn first_word(text: &str) -> (&str, &str)
    ensures word { result.0.now ≡ word_of text.now }
    ensures rest { result.1.now ≡ behind_word text.now }
{
    let text = from_word(text);
    match text.split_once(' ') {
        Some((word, rest)) => (word, rest),
        None => (text, ""),
    }
}

// The first word, of a text that has one, and what stands behind it.
fn word_at(text: &str) -> Result<(&str, &str), Reason>
    ensures { Answers (λ words. (words.0.now, words.1.now)) result (word_at text.now) }
{
    let (word, rest) = first_word(text);
    if word.is_empty() {
        return Err(Reason::WrongWords);
    }
    Ok((word, rest))
}

/// A text of no words.
pub(crate) fn no_words(text: &str) -> Result<(), Reason>
    ensures { Answers (λ none. none) result (no_words text.now) }
{
    if from_word(text).is_empty() {
        return Ok(());
    }
    Err(Reason::WrongWords)
}

/// A text of one word.
pub(crate) fn one_word(text: &str) -> Result<&str, Reason>
    ensures { Answers (λ word. word.now) result (one_word text.now) }
{
    let (word, rest) = word_at(text)?;
    no_words(rest)?;
    Ok(word)
}

/// A text of two words.
pub(crate) fn two_words(text: &str) -> Result<(&str, &str), Reason>
    ensures { Answers (λ words. (words.0.now, words.1.now)) result (two_words text.now) }
{
    let (first, rest) = word_at(text)?;
    let second = one_word(rest)?;
    Ok((first, second))
}

/// Returns the word of a text, or [`None`] if the text has no word.
pub(crate) fn word_or_none(text: &str) -> Result<Option<&str>, Reason>
    ensures { Answers (λ word. option_copied word) result (word_or_none text.now) }
{
    let (word, rest) = first_word(text);
    if word.is_empty() {
        return Ok(None);
    }
    no_words(rest)?;
    Ok(Some(word))
}

/// Returns the words of a text of two words or three.
pub(crate) fn two_words_or_three(text: &str) -> Result<(&str, &str, Option<&str>), Reason>
    ensures { Answers (λ words. (words.0.now, words.1.now, option_copied words.2)) result (two_words_or_three text.now) }
{
    let (first, rest) = word_at(text)?;
    let (second, rest) = word_at(rest)?;
    let third = word_or_none(rest)?;
    Ok((first, second, third))
}

/// A text of three words.
pub(crate) fn three_words(text: &str) -> Result<(&str, &str, &str), Reason>
    ensures { Answers (λ words. (words.0.now, words.1.now, words.2.now)) result (three_words text.now) }
{
    let (first, rest) = word_at(text)?;
    let (second, third) = two_words(rest)?;
    Ok((first, second, third))
}

/// Returns a text without the spaces around it. Refuses a text with no other character.
pub(crate) fn text_at(text: &str) -> Result<&str, Reason>
    ensures { Answers (λ word. word.now) result (text_at text.now) }
{
    let text = trimmed(from_word(text));
    if text.is_empty() {
        return Err(Reason::WrongWords);
    }
    Ok(text)
}

/// A word, and then a text.
pub(crate) fn word_and_text(text: &str) -> Result<(&str, &str), Reason>
    ensures { Answers (λ words. (words.0.now, words.1.now)) result (word_and_text text.now) }
{
    let (word, rest) = word_at(text)?;
    let text = text_at(rest)?;
    Ok((word, text))
}

/// Two words, and then a text.
pub(crate) fn words_and_text(text: &str) -> Result<(&str, &str, &str), Reason>
    ensures { Answers (λ words. (words.0.now, words.1.now, words.2.now)) result (words_and_text text.now) }
{
    let (first, rest) = word_at(text)?;
    let (second, text) = word_and_text(rest)?;
    Ok((first, second, text))
}

/// Returns an atom, and the text behind it. No space between the atom's quotes parts them.
pub(crate) fn atom_and_text(text: &str) -> Result<(&str, &str), Reason>
    ensures { Answers (λ words. (words.0.now, words.1.now)) result (atom_and_text text.now) }
{
    let (atom, rest) = split_at_space(text);
    let text = text_at(rest)?;
    Ok((atom, text))
}

/// Returns an atom, and the word behind it. No space between the atom's quotes parts them.
pub(crate) fn atom_and_word(text: &str) -> Result<(&str, &str), Reason>
    ensures { Answers (λ words. (words.0.now, words.1.now)) result (atom_and_word text.now) }
{
    let (atom, rest) = split_at_space(text);
    let word = one_word(rest)?;
    Ok((atom, word))
}
