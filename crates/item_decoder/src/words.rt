//! The words for terms and items that were read.
ghost use Rattle.std.specs.Prelude.{◌≡◌, ◌≤◌, ◌++◌, OnOk, string_bytes};
ghost use Rattle.item_decoder.specs.Words.{flag_name, flag_text, flag_words, found_text, message_words, one_flag};
ghost use Rattle.item_texts.specs.Words.{field};

use crate::answers::Found;
use erl_handshake::{Flags, ShakeMsg};
use item_texts::{ReadItem, put_message, put_signal};
use script_terms::put_term;
use std::alloc::{AllocError, Global};

/// Returns the name of the flag with this bit. (ERTS User's Guide, Distribution Protocol, Distribution Flags.)
pub(crate) fn flag_name(bit: u32) -> &'static str
    ensures { result.now ≡ flag_name bit }
{
    match bit {
        0 => "PUBLISHED",
        1 => "ATOM_CACHE",
        2 => "EXTENDED_REFERENCES",
        3 => "DIST_MONITOR",
        4 => "FUN_TAGS",
        5 => "DIST_MONITOR_NAME",
        6 => "HIDDEN_ATOM_CACHE",
        7 => "NEW_FUN_TAGS",
        8 => "EXTENDED_PIDS_PORTS",
        9 => "EXPORT_PTR_TAG",
        10 => "BIT_BINARIES",
        11 => "NEW_FLOATS",
        12 => "UNICODE_IO",
        13 => "DIST_HDR_ATOM_CACHE",
        14 => "SMALL_ATOM_TAGS",
        16 => "UTF8_ATOMS",
        17 => "MAP_TAG",
        18 => "BIG_CREATION",
        19 => "SEND_SENDER",
        20 => "BIG_SEQTRACE_LABELS",
        22 => "EXIT_PAYLOAD",
        23 => "FRAGMENTS",
        24 => "HANDSHAKE_23",
        25 => "UNLINK_ID",
        26 => "MANDATORY_25_DIGEST",
        32 => "SPAWN",
        33 => "NAME_ME",
        34 => "V4_NC",
        35 => "ALIAS",
        _ => "",
    }
}

// Appends the name of the flag with this bit, or `bit` and its number if the standard names none.
fn put_flag(out: &mut String, bit: u32) -> Result<(), AllocError>
    ensures { OnOk result (string_bytes out.new ≡ string_bytes out.old ++ field (flag_text bit)) }
{
    let name = flag_name(bit);
    if name.is_empty() {
        return write!(out, " bit{bit}");
    }
    write!(out, " {name}")
}

// Appends the name of the flag, if its bit is the lowest and is set.
fn put_lowest_flag(out: &mut String, flag: u32, bits: u64) -> Result<(), AllocError>
    ensures { OnOk result (string_bytes out.new ≡ string_bytes out.old ++ one_flag flag bits) }
{
    if bits % 2 == 1 {
        return put_flag(out, flag);
    }
    Ok(())
}

// Appends the names of the flags in these bits. So many bits of 64 are left, and the lowest is that of the next flag.
fn put_flags(out: &mut String, left: u32, bits: u64) -> Result<(), AllocError>
    requires { left ≤ 64 }
    ensures { OnOk result (string_bytes out.new ≡ string_bytes out.old ++ flag_words left bits) }
{
    if left == 0 {
        return Ok(());
    }
    put_lowest_flag(out, 64 - left, bits)?;
    put_flags(out, left - 1, bits / 2)
}

// Appends the names of all flags of a message.
fn put_message_flags(out: &mut String, flags: Flags) -> Result<(), AllocError>
    ensures { OnOk result (string_bytes out.new ≡ string_bytes out.old ++ flag_words 64 flags) }
{
    put_flags(out, 64, flags.bits())
}

// Appends the words of a message, and the names of its flags.
fn put_message_words(alloc: Global, out: &mut String, message: &ShakeMsg) -> Result<(), AllocError>
    ensures { OnOk result (string_bytes out.new ≡ string_bytes out.old ++ message_words message.now) }
{
    put_message(alloc, out, message)?;
    match message {
        ShakeMsg::SendName { flags, .. } | ShakeMsg::Challenge { flags, .. } => {
            put_message_flags(out, *flags)
        }
        _ => Ok(()),
    }
}

/// Appends the words for a term or an item that was read. A term is `term` and its text, and a signal its operation and its
/// fields. A message is its name and its fields, and behind these the name of each of its flags.
///
/// # Errors
/// [`AllocError`] if out of memory.
pub fn put_found(alloc: Global, out: &mut String, found: &Found) -> Result<(), AllocError>
    ensures { OnOk result (string_bytes out.new ≡ string_bytes out.old ++ found_text found.now) }
{
    match found {
        Found::Term(term) => {
            out.push_str("term ")?;
            put_term(out, term)
        }
        Found::Item(ReadItem::Signal(signal)) => put_signal(out, signal),
        Found::Item(ReadItem::Message(message)) => put_message_words(alloc, out, message),
        Found::Item(ReadItem::Tick) => out.push_str("tick"),
    }
}
