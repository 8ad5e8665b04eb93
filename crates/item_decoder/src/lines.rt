//! The lines about all items of some bytes.
ghost use Rattle.std.specs.Prelude.{◌≡◌, ◌<◌, ◌+◌, ◌^◌, ◌++◌, OnOk, string_bytes};
ghost use Rattle.item_decoder.specs.Lines.{cut_line, fault_line, told_line, why_name, why_number};

use crate::answers::{Answer, Why};
use crate::told::Told;
use crate::words::put_found;
use erl_control::FrameFault;
use std::alloc::{AllocError, Global};

impl Why {
    /// Returns the number of the fault, as docs/STANDARD.md has it.
    pub fn number(self) -> u8
        ensures { result ≡ why_number self }
    {
        match self {
            Why::Term(error) => error.number(),
            Why::Frame(fault) => fault.number(),
            Why::Message => 10,
        }
    }

    /// Returns the name of the fault.
    pub fn name(self) -> &'static str
        ensures { result.now ≡ why_name self }
    {
        match self {
            Why::Term(error) => error.name(),
            Why::Frame(FrameFault::NotPassThrough) => "NotPassThrough",
            Why::Frame(FrameFault::BadControl) => "BadControl",
            Why::Frame(FrameFault::TooLong) => "TooLong",
            Why::Frame(FrameFault::Term(_)) => "Term",
            Why::Message => "BadMessage",
        }
    }
}

// Appends the line of bytes that end inside an item.
fn put_cut(out: &mut String, place: u64, words: &str) -> Result<(), AllocError>
    ensures { OnOk result (string_bytes out.new ≡ string_bytes out.old ++ cut_line place words.now) }
{
    writeln!(out, "cut {place}: {words}")
}

// Appends the line of a fault.
fn put_fault(out: &mut String, place: u64, why: Why, words: &str) -> Result<(), AllocError>
    ensures { OnOk result (string_bytes out.new ≡ string_bytes out.old ++ fault_line place why words.now) }
{
    let (number, name) = (why.number(), why.name());
    writeln!(out, "fault {place} {number} {name}: {words}")
}

/// Appends the line of all that is told of an item, whose first byte is at this place.
pub(crate) fn put_told(
    alloc: Global,
    out: &mut String,
    at: u64,
    told: &Told,
) -> Result<(), AllocError>
    requires { at + told.now.place < 2 ^ 64 }
    ensures { OnOk result (string_bytes out.new ≡ string_bytes out.old ++ told_line at told.now) }
{
    let place = at + told.place as u64;
    match &told.answer {
        Answer::Found(found, _) => {
            put_found(alloc, out, found)?;
            out.push_str("\n")
        }
        Answer::Begun => put_cut(out, place, told.why.as_str()),
        Answer::Refused(why) => put_fault(out, place, *why, told.why.as_str()),
    }
}
