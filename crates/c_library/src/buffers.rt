//! Writing into a buffer from an offset on. Each function returns the offset behind the last byte.
ghost use Rattle.std.specs.Prelude.{◌≡◌, ◌∷◌, ◌++◌, ◌≤◌, ◌<◌, ◌+◌, ◌^◌, length, pos};
ghost use Rattle.byteorder.specs.Endian.{big_bytes};
ghost use Rattle.erl_term.specs.Canonical.{canonical_atom, canonical_int, canonical_big, canonical_pid, digits};
ghost use Rattle.c_library.specs.Written.{IsWritten};
ghost use Rattle.c_library.specs.Pids.{pid_on};

use erl_term::integer_len;

/// Writes the bytes.
pub(crate) fn put_bytes(out: &mut [u8], start: usize, bytes: &[u8]) -> usize
    requires { start + length bytes.now ≤ length out.old }
    ensures { IsWritten start bytes.now out.old result out.new }
{
    let stop = start + bytes.len();
    out[start..stop].copy_from_slice(bytes);
    stop
}

/// Writes a tag, and a number of 32 bits with its highest byte first.
fn put_word(out: &mut [u8], start: usize, tag: u8, n: u32) -> usize
    requires { start + 5 ≤ length out.old }
    ensures { IsWritten start (tag ∷ big_bytes 4 n) out.old result out.new }
{
    let [first, second, third, fourth] = n.to_be_bytes();
    put_bytes(out, start, &[tag, first, second, third, fourth])
}

/// Writes a SMALL_BIG of the number.
#[tactic(auto, unfolding(erl_term::specs::Canonical::canonical_int, erl_term::specs::Canonical::magnitude), using(crate::proofs::Written::both))]
fn put_big(out: &mut [u8], start: usize, n: u64) -> usize
    requires large { 2 ^ 31 ≤ n }
    requires room { start + length (canonical_big 0 n) ≤ length out.old }
    ensures { IsWritten start (canonical_big 0 n) out.old result out.new }
{
    let len = integer_len(i128::from(n)) - 3;
    let digits = put_bytes(out, start, &[110, len as u8, 0]);
    put_digits(out, digits, 16, n)
}

/// Writes the canonical spelling of the integer.
#[tactic(auto, unfolding(erl_term::specs::Canonical::canonical_int))]
pub(crate) fn put_integer(out: &mut [u8], start: usize, n: u64) -> usize
    requires { start + length (canonical_int (pos n)) ≤ length out.old }
    ensures { IsWritten start (canonical_int (pos n)) out.old result out.new }
{
    if n < 256 {
        return put_bytes(out, start, &[97, n as u8]);
    }
    if n < 2_147_483_648 {
        return put_word(out, start, 98, n as u32);
    }
    put_big(out, start, n)
}

/// Writes a SMALL_ATOM_UTF8 of the text.
fn put_small_atom(out: &mut [u8], start: usize, text: &[u8]) -> usize
    requires short { length text.now < 256 }
    requires room { start + length (119 ∷ length text.now ∷ text.now) ≤ length out.old }
    ensures { IsWritten start (119 ∷ length text.now ∷ text.now) out.old result out.new }
{
    let behind = put_bytes(out, start, &[119, text.len() as u8]);
    put_bytes(out, behind, text)
}

/// Writes an ATOM_UTF8 of the text.
fn put_large_atom(out: &mut [u8], start: usize, text: &[u8]) -> usize
    requires short { length text.now < 2 ^ 16 }
    requires room { start + length (118 ∷ (big_bytes 2 (length text.now) ++ text.now)) ≤ length out.old }
    ensures { IsWritten start (118 ∷ (big_bytes 2 (length text.now) ++ text.now)) out.old result out.new }
{
    let [high, low] = (text.len() as u16).to_be_bytes();
    let behind = put_bytes(out, start, &[118, high, low]);
    put_bytes(out, behind, text)
}

/// Writes the canonical spelling of the atom with this text.
#[tactic(auto, unfolding(erl_term::specs::Canonical::canonical_atom))]
fn put_atom(out: &mut [u8], start: usize, text: &[u8]) -> usize
    requires short { length text.now < 2 ^ 16 }
    requires room { start + length (canonical_atom text.now) ≤ length out.old }
    ensures { IsWritten start (canonical_atom text.now) out.old result out.new }
{
    if text.len() < 256 {
        return put_small_atom(out, start, text);
    }
    put_large_atom(out, start, text)
}

/// The numbers of a process identifier. (ERTS User's Guide, External Term Format, NEW_PID_EXT.)
#[repr(C)]
#[derive(Clone, Copy, Debug)]
pub struct ErldistPid {
    /// The number of the process within the incarnation of its node.
    pub id: u32,
    /// A further number that tells processes of one id apart.
    pub serial: u32,
    /// The incarnation of the node.
    pub creation: u32,
}

/// Writes the canonical spelling of the pid on the node with this name.
#[tactic(auto, unfolding(erl_term::specs::Canonical::canonical_pid), using(crate::proofs::Written::both))]
pub(crate) fn put_pid(out: &mut [u8], start: usize, node: &[u8], pid: ErldistPid) -> usize
    requires short { length node.now < 2 ^ 16 }
    requires room { start + length (canonical_pid (pid_on node.now pid)) ≤ length out.old }
    ensures { IsWritten start (canonical_pid (pid_on node.now pid)) out.old result out.new }
{
    let tag = put_bytes(out, start, &[88]);
    let node = put_atom(out, tag, node);
    let id = put_u32(out, node, pid.id);
    let serial = put_u32(out, id, pid.serial);
    put_u32(out, serial, pid.creation)
}

/// Returns the number of bytes that [`put_pid`] writes.
#[tactic(auto, unfolding(erl_term::specs::Canonical::canonical_atom, erl_term::specs::Canonical::canonical_pid))]
pub(crate) fn pid_len(node: &[u8], pid: ErldistPid) -> usize
    requires { length node.now < 2 ^ 16 }
    ensures len { result ≡ length (canonical_pid (pid_on node.now pid)) }
    ensures bound { result < 2 ^ 17 }
{
    let len = node.len();
    if len < 256 { len + 15 } else { len + 16 }
}

/// Writes a number of 32 bits, its highest byte first.
pub(crate) fn put_u32(out: &mut [u8], start: usize, n: u32) -> usize
    requires { start + 4 ≤ length out.old }
    ensures { IsWritten start (big_bytes 4 n) out.old result out.new }
{
    let [first, second, third, fourth] = n.to_be_bytes();
    put_bytes(out, start, &[first, second, third, fourth])
}

/// Writes the bytes of a number, the lowest first, but for the zeros above them.
fn put_digits(out: &mut [u8], start: usize, most: u32, n: u64) -> usize
    requires { start + length (digits most n) ≤ length out.old }
    ensures { IsWritten start (digits most n) out.old result out.new }
{
    let Some(fewer) = most.checked_sub(1) else {
        return put_bytes(out, start, &[]);
    };
    if n == 0 {
        return put_bytes(out, start, &[]);
    }
    let next = put_bytes(out, start, &[(n % 256) as u8]);
    put_digits(out, next, fewer, n / 256)
}
