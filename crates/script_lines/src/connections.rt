//! The words for a connection and for a number.
ghost use Rattle.std.specs.Prelude.{◌≡◌, ◌^◌};
ghost use Rattle.std.specs.Option.{option_copied, option_map};
ghost use Rattle.script_lines.specs.Connections.{is_numeral, number_in, trunk_in, trunk_named, trunk_with};
ghost use Rattle.script_lines.specs.Said.{trunk_of};
ghost use Rattle.script_lines.specs.Words.{Answers};

use crate::line::Connection;
use crate::reason::Reason;
use erl_names::NodeName;

// Returns true if a word has one decimal digit or more, and nothing else.
fn is_numeral(word: &[u8]) -> bool
    ensures { result ≡ is_numeral word.now }
{
    !word.is_empty() && word.iter().all(|c| c.is_ascii_digit())
}

// Returns the number of 64 bits that a word writes.
fn long_number(word: &str) -> Result<u64, Reason>
    ensures { result ≡ number_in (2 ^ 64) word.now }
{
    if !is_numeral(word.as_bytes()) {
        return Err(Reason::WrongWords);
    }
    match word.parse::<u64>() {
        Ok(number) => Ok(number),
        Err(_) => Err(Reason::WrongWords),
    }
}

/// Returns the number of 32 bits that a word writes in decimal digits.
pub(crate) fn number_in(word: &str) -> Result<u32, Reason>
    ensures { result ≡ number_in (2 ^ 32) word.now }
{
    let number = long_number(word)?;
    match u32::try_from(number) {
        Ok(number) => Ok(number),
        Err(_) => Err(Reason::WrongWords),
    }
}

// Returns the connection of a dialer that has a number.
fn connection_with<'a>(dialer: &'a str, count: &str) -> Result<Connection<'a>, Reason>
    ensures { Answers trunk_of result (trunk_with dialer.now count.now) }
{
    if !NodeName::fits(dialer) {
        return Err(Reason::WrongWords);
    }
    let count = long_number(count)?;
    Ok(Connection { dialer, count })
}

// Returns the connection that a word names: its dialer, a slash, and its number.
fn connection_named(word: &str) -> Result<Connection<'_>, Reason>
    ensures { Answers trunk_of result (trunk_named word.now) }
{
    match word.split_once('/') {
        Some((dialer, count)) => connection_with(dialer, count),
        None => connection_with(word, ""),
    }
}

/// Returns the connection that a word names, or [`None`] if there is no word.
pub(crate) fn connection_in(word: Option<&str>) -> Result<Option<Connection<'_>>, Reason>
    ensures { Answers (option_map trunk_of) result (trunk_in (option_copied word.entry)) }
{
    match word {
        Some(word) => Ok(Some(connection_named(word)?)),
        None => Ok(None),
    }
}

/// Returns true if a word has the form of a connection's name.
pub(crate) fn is_connection(word: &str) -> bool {
    connection_named(word).is_ok()
}
