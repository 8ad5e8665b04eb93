//! Writing frames of links.
ghost use Rattle.std.specs.Prelude.{◌≡◌, ◌↔◌, ◌≤◌, ◌<◌, ◌+◌, ◌^◌, ◌∷◌, ◌++◌, [], suc, IsTrue, false, length, pos};
ghost use Rattle.byteorder.specs.Endian.{big_bytes};
ghost use Rattle.erl_term.specs.Text.{IsAtomText};
ghost use Rattle.erl_term.specs.Canonical.{canonical_int, canonical_pid};
ghost use Rattle.erl_control.specs.declared.signal.Signal.TheVariants as signal;
ghost use Rattle.erl_control.specs.Canonical.{canonical_frame};
ghost use Rattle.c_library.specs.Pids.{pid_on};
ghost use Rattle.c_library.specs.Putting.{IsPut};
ghost use Rattle.c_library.specs.Rows.{sender, receiver, link_text, unlink_text, unlink_of, unlink_tag, row_frame};
ghost use Rattle.c_library.specs.Written.{IsWritten};

use crate::buffers::{ErldistPid, pid_len, put_bytes, put_integer, put_pid};
use erl_control::canonical_is_framed;
use erl_term::{Atom, integer_len};

/// A node's name is no atom.
pub(crate) const MALFORMED: u32 = 2;

/// The Id is 0.
const BAD_CONTROL: u32 = 7;

/// The buffer is too small.
pub(crate) const NO_ROOM: u32 = 100;

/// Returns true if the bytes are the text of an atom.
fn is_atom(text: &[u8]) -> bool
    ensures atom { IsTrue result ↔ IsAtomText text.now }
    ensures short { IsTrue result → length text.now ≤ 1020 }
{
    match str::from_utf8(text) {
        Ok(text) => Atom::fits(text),
        Err(_) => false,
    }
}

/// The sender and the receiver of a signal.
#[derive(Clone, Copy)]
pub(crate) struct Pids<'a> {
    from_node: &'a [u8],
    from: ErldistPid,
    to_node: &'a [u8],
    to: ErldistPid,
}

/// Returns the number of bytes of both pids.
fn pids_len(pids: Pids<'_>) -> usize
    requires from { length pids.from_node.now ≤ 1020 }
    requires to { length pids.to_node.now ≤ 1020 }
    ensures len { result ≡ length (canonical_pid (sender pids.entry)) + length (canonical_pid (receiver pids.entry)) }
    ensures bound { result < 2 ^ 18 }
{
    pid_len(pids.from_node, pids.from) + pid_len(pids.to_node, pids.to)
}

/// Returns the number of bytes of LINK behind the byte 112.
fn link_len(pids: Pids<'_>) -> usize
    requires from { length pids.from_node.now ≤ 1020 }
    requires to { length pids.to_node.now ≤ 1020 }
    ensures len { result ≡ length (link_text pids.entry) }
    ensures bound { result < 2 ^ 19 }
{
    pids_len(pids) + 5
}

/// Returns the number of bytes of UNLINK_ID and UNLINK_ID_ACK behind the byte 112.
fn unlink_len(tag: u8, id: u64, pids: Pids<'_>) -> usize
    requires from { length pids.from_node.now ≤ 1020 }
    requires to { length pids.to_node.now ≤ 1020 }
    ensures len { result ≡ length (unlink_text tag id pids.entry) }
    ensures bound { result < 2 ^ 19 }
{
    pids_len(pids) + integer_len(i128::from(id)) + 5
}

/// Writes both pids from `start` on, and returns the offset behind them.
fn put_pids(out: &mut [u8], start: usize, pids: Pids<'_>) -> usize
    requires from { length pids.from_node.now ≤ 1020 }
    requires to { length pids.to_node.now ≤ 1020 }
    requires room { start + (length (canonical_pid (sender pids)) + length (canonical_pid (receiver pids))) ≤ length out.old }
    ensures { IsWritten start (canonical_pid (sender pids.entry) ++ canonical_pid (receiver pids.entry)) out.old result out.new }
{
    let middle = put_pid(out, start, pids.from_node, pids.from);
    put_pid(out, middle, pids.to_node, pids.to)
}

/// Writes the first bytes of a frame, up to the tag of its control term.
fn put_opening(out: &mut [u8], len: usize, arity: u8, tag: u8) -> usize
    requires len { len < 2 ^ 19 }
    requires room { 10 ≤ length out.old }
    ensures { IsWritten 0 (big_bytes 4 (suc len) ++ 112 ∷ 131 ∷ 104 ∷ arity ∷ 97 ∷ tag ∷ []) out.old result out.new }
{
    let [first, second, third, fourth] = (len as u32 + 1).to_be_bytes();
    let bytes = [first, second, third, fourth, 112, 131, 104, arity, 97, tag];
    put_bytes(out, 0, &bytes)
}

/// Writes a frame with LINK, and returns its length.
fn put_link(out: &mut [u8], pids: Pids<'_>) -> usize
    requires from { length pids.from_node.now ≤ 1020 }
    requires to { length pids.to_node.now ≤ 1020 }
    requires room { 5 + length (link_text pids) ≤ length out.old }
    ensures { IsWritten 0 (row_frame (link_text pids.entry)) out.old result out.new }
{
    let fields = put_opening(out, link_len(pids), 3, 1);
    put_pids(out, fields, pids)
}

/// Writes a frame with UNLINK_ID or UNLINK_ID_ACK, and returns its length.
fn put_unlink(out: &mut [u8], tag: u8, id: u64, pids: Pids<'_>) -> usize
    requires from { length pids.from_node.now ≤ 1020 }
    requires to { length pids.to_node.now ≤ 1020 }
    requires room { 5 + length (unlink_text tag id pids) ≤ length out.old }
    ensures { IsWritten 0 (row_frame (unlink_text tag id pids.entry)) out.old result out.new }
{
    let fields = put_opening(out, unlink_len(tag, id, pids), 4, tag);
    let behind = put_integer(out, fields, id);
    put_pids(out, behind, pids)
}

/// Writes a frame with LINK to `out`, and its length to `length`. Returns 0. Returns 2 if the name of a
/// node is no atom, and writes 0 to `length`. Returns 100 if `out` is shorter than the frame. Unless it
/// returns 0, `out` stays as it was. Never allocates. (ERTS User's Guide, Distribution Protocol,
/// Protocol between Connected Nodes.)
#[unsafe(no_mangle)]
pub extern "C" fn erldist_put_link(
    from_node: &[u8],
    from: &ErldistPid,
    to_node: &[u8],
    to: &ErldistPid,
    out: &mut [u8],
    length: &mut usize,
) -> u32
    ensures { IsPut from_node.now to_node.now (signal.Link (pid_on from_node.now from.now) (pid_on to_node.now to.now)) out.old result length.new out.new }
{
    if !is_atom(from_node) || !is_atom(to_node) {
        *length = 0;
        return MALFORMED;
    }
    let pids = Pids {
        from_node,
        from: *from,
        to_node,
        to: *to,
    };
    let size = link_len(pids) + 5;
    *length = size;
    if out.len() < size {
        return NO_ROOM;
    }
    canonical_is_framed();
    put_link(out, pids);
    0
}

/// Returns the tag of UNLINK_ID, or of its acknowledgement.
fn unlink_tag(ack: bool) -> u8
    ensures { result ≡ unlink_tag ack }
{
    if ack { 36 } else { 35 }
}

/// Writes a frame with UNLINK_ID or UNLINK_ID_ACK, or returns the number of the fault.
fn unlink(ack: bool, id: u64, pids: Pids<'_>, out: &mut [u8], length: &mut usize) -> u32
    ensures { IsPut pids.entry.from_node.now pids.entry.to_node.now (unlink_of ack id (sender pids.entry) (receiver pids.entry)) out.old result length.new out.new }
{
    if !is_atom(pids.from_node) || !is_atom(pids.to_node) {
        *length = 0;
        return MALFORMED;
    }
    if id == 0 {
        *length = 0;
        return BAD_CONTROL;
    }
    let tag = unlink_tag(ack);
    let size = unlink_len(tag, id, pids) + 5;
    *length = size;
    if out.len() < size {
        return NO_ROOM;
    }
    canonical_is_framed();
    put_unlink(out, tag, id, pids);
    0
}

/// Writes a frame with UNLINK_ID to `out`, and its length to `length`. Returns 0. Returns 2 if the name
/// of a node is no atom, and 7 if `id` is 0, and writes 0 to `length`. Returns 100 if `out` is shorter
/// than the frame. Unless it returns 0, `out` stays as it was. Never allocates. (ERTS User's Guide,
/// Distribution Protocol, New Link Protocol.)
#[unsafe(no_mangle)]
pub extern "C" fn erldist_put_unlink_id(
    id: u64,
    from_node: &[u8],
    from: &ErldistPid,
    to_node: &[u8],
    to: &ErldistPid,
    out: &mut [u8],
    length: &mut usize,
) -> u32
    ensures { IsPut from_node.now to_node.now (signal.UnlinkId id (pid_on from_node.now from.now) (pid_on to_node.now to.now)) out.old result length.new out.new }
{
    let pids = Pids {
        from_node,
        from: *from,
        to_node,
        to: *to,
    };
    unlink(false, id, pids, out, length)
}

/// Writes a frame with UNLINK_ID_ACK, as [`erldist_put_unlink_id`] does with UNLINK_ID. (ERTS User's
/// Guide, Distribution Protocol, New Link Protocol.)
#[unsafe(no_mangle)]
pub extern "C" fn erldist_put_unlink_id_ack(
    id: u64,
    from_node: &[u8],
    from: &ErldistPid,
    to_node: &[u8],
    to: &ErldistPid,
    out: &mut [u8],
    length: &mut usize,
) -> u32
    ensures { IsPut from_node.now to_node.now (signal.UnlinkIdAck id (pid_on from_node.now from.now) (pid_on to_node.now to.now)) out.old result length.new out.new }
{
    let pids = Pids {
        from_node,
        from: *from,
        to_node,
        to: *to,
    };
    unlink(true, id, pids, out, length)
}
