//! The lines of a script that are drawn, as words of a command line.

use run_diagrams::LineRange;

/// The remedy for a text that is no range of lines.
const NO_RANGE: &str =
    "'--picture=' takes lines, as '--picture=10-40', '--picture=10-', '--picture=-40' or '--picture=12'; it takes no file, and writes to standard output: './erldist --picture SCRIPT > FILE'";

/// The remedy for line 0.
const NO_LINE: &str = "lines count from 1: write '--picture=1-40', or '--picture=-40'";

/// The remedy for a range whose ends are swapped.
const SWAPPED: &str = "the first line comes before the last: write '--picture=10-40'";

// Returns the number of a line, or `else_line` for no text.
fn line_of(text: &str, else_line: u64) -> Result<u64, &'static str> {
    if text.is_empty() {
        return Ok(else_line);
    }
    match text.parse::<u64>() {
        Ok(0) => Err(NO_LINE),
        Ok(line) => Ok(line),
        Err(_) => Err(NO_RANGE),
    }
}

// Returns the lines between two, both included, if there are any.
fn between(first: u64, last: u64) -> Result<LineRange, &'static str> {
    if first > last {
        return Err(SWAPPED);
    }
    Ok(LineRange { first, last })
}

/// Returns the lines of `FIRST-LAST`, `FIRST-`, `-LAST` or `LINE`, or the remedy for any other text.
pub(crate) fn range_of(text: &str) -> Result<LineRange, &'static str> {
    match text.split_once('-') {
        Some(("", "")) => Err(NO_RANGE),
        Some((first, last)) => between(line_of(first, 1)?, line_of(last, u64::MAX)?),
        None if text.is_empty() => Err(NO_RANGE),
        None => {
            let line = line_of(text, 1)?;
            between(line, line)
        }
    }
}
