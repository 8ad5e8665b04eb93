//! Reading a pid at its place.
ghost use Rattle.std.specs.Prelude.{◌≡◌, ◌≢◌, ◌++◌, ◌∷◌, ◌≤◌, MatchOption, length};
ghost use Rattle.erl_term.specs.declared.term.Pid.{Pid};
ghost use Rattle.erl_term.specs.Spelling.{IsPid};
ghost use Rattle.c_library.specs.Reading.{latin_of, head_len, IsSeen};

use crate::parts::ErldistPlace;
use crate::writing::MALFORMED;
use byteorder::{BigEndian, ByteOrder};
use erl_term::atom_at;

/// The numbers of a pid, and the place of its node's name. (ERTS User's Guide, External Term Format,
/// NEW_PID_EXT.)
#[repr(C)]
#[derive(Clone, Copy, Debug)]
pub struct ErldistSeenPid {
    /// The place of the name.
    pub node: ErldistPlace,
    /// 0 for a name in UTF-8, and 1 for a name in letters of Latin-1.
    pub latin1: u32,
    /// The number of the process within the incarnation of its node.
    pub id: u32,
    /// A further number that tells processes of one id apart.
    pub serial: u32,
    /// The incarnation of the node.
    pub creation: u32,
}

/// Returns 1 if the tag is that of an atom in Latin-1, and else 0, and the number of bytes before the text.
fn head_of(tag: u8) -> (u32, usize)
    ensures latin { result.0 ≡ latin_of tag }
    ensures length { result.1 ≡ head_len tag }
{
    match tag {
        115 => (1, 2),
        100 => (1, 3),
        118 => (0, 3),
        _ => (0, 2),
    }
}

/// Returns the pid of which these are the bytes behind the tag.
fn fields_at(bytes: &[u8]) -> Option<ErldistSeenPid>
    ensures { MatchOption result ((p : Pid) → ¬ IsPid p (88 ∷ bytes.now)) (λ seen. (p : Pid) × IsPid p (88 ∷ bytes.now) × IsSeen (88 ∷ bytes.now) p seen) }
{
    let (_, numbers) = atom_at(1, bytes)?;
    if numbers.len() != 12 {
        return None;
    }
    let (id, others) = numbers.split_at(4);
    let (serial, creation) = others.split_at(4);
    let (latin1, head) = head_of(bytes.first().copied().unwrap_or(0));
    let node = ErldistPlace {
        offset: head + 1,
        length: (bytes.len() - 12).saturating_sub(head),
    };
    Some(ErldistSeenPid {
        node,
        latin1,
        id: BigEndian::read_u32(id),
        serial: BigEndian::read_u32(serial),
        creation: BigEndian::read_u32(creation),
    })
}

/// Returns the pid of which these are all bytes, without a version byte.
fn pid_in(bytes: &[u8]) -> Option<ErldistSeenPid>
    ensures { MatchOption result ((p : Pid) → ¬ IsPid p bytes.now) (λ seen. (p : Pid) × IsPid p bytes.now × IsSeen bytes.now p seen) }
{
    match bytes {
        [88, fields @ ..] => fields_at(fields),
        _ => None,
    }
}

/// Returns 0, and writes the numbers of the pid at a place to `pid`, with the place of its node's name.
/// `bytes` are the bytes of the place. Returns 2 if they are no NEW_PID_EXT, and leaves `pid` as it was.
/// Never allocates. (ERTS User's Guide, External Term Format, NEW_PID_EXT.)
#[unsafe(no_mangle)]
pub extern "C" fn erldist_read_pid(bytes: &[u8], pid: &mut ErldistSeenPid) -> u32
    ensures ok { result ≡ 0 → (p : Pid) × IsPid p bytes.now × IsSeen bytes.now p pid.new }
    ensures fault { result ≢ 0 → (result ≡ 2) × ((p : Pid) → ¬ IsPid p bytes.now) }
    ensures err { result ≢ 0 → pid.new ≡ pid.old }
{
    match pid_in(bytes) {
        Some(seen) => {
            *pid = seen;
            0
        }
        None => MALFORMED,
    }
}
