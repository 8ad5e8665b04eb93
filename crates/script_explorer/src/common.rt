//! The lines that scripts have in common.
ghost use Rattle.std.specs.Prelude.{◌≡◌};
ghost use Rattle.script_explorer.specs.Common.{BeginAlike, all_have, has_line};

// Returns true if a script has this line at a place, counted from 0.
fn has_line(script: &[Vec<u8>], place: usize, line: &[u8]) -> bool
    ensures { result ≡ has_line place line.now script.now }
{
    match script.get(place) {
        Some(other) => other.as_slice() == line,
        None => false,
    }
}

// Returns true if each script has this line at a place.
fn all_have(scripts: &[&[Vec<u8>]], place: usize, line: &[u8]) -> bool
    ensures { result ≡ all_have place line.now scripts.now }
{
    for script in scripts {
        if !has_line(script, place, line) {
            return false;
        }
    }
    true
}

/// Returns the number of the lines with which both the first script and all others begin. The next line of the
/// first isn't in the same place of all others, if it has one.
pub(crate) fn common_lines(first: &[Vec<u8>], others: &[&[Vec<u8>]]) -> usize
    ensures { BeginAlike result first.now others.now }
{
    for (place, line) in first.iter().enumerate() {
        if !all_have(others, place, line) {
            return place;
        }
    }
    first.len()
}
