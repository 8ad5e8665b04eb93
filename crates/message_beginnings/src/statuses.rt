//! The beginnings of statuses.
ghost use Rattle.std.specs.Prelude.{◌≡◌, ◌↔◌, IsTrue};
ghost use Rattle.readers.specs.Places.{Begins};
ghost use Rattle.message_beginnings.specs.Parts.{IsStatusText, IsStatusTextOf, for_some, is_begun, is_begun_of};

use erl_handshake::Status;

/// Returns true if the text of the status begins with the bytes.
fn begins(status: Status, bytes: &[u8]) -> bool
    ensures { result ≡ is_begun bytes.now status }
{
    status.text().as_bytes().starts_with(bytes)
}

/// Returns true if one of the seven texts begins with the bytes.
fn one_begins(bytes: &[u8]) -> bool
    ensures { result ≡ for_some (is_begun bytes.now) }
{
    begins(Status::Ok, bytes)
        || begins(Status::OkSimultaneous, bytes)
        || begins(Status::Nok, bytes)
        || begins(Status::NotAllowed, bytes)
        || begins(Status::Alive, bytes)
        || begins(Status::True, bytes)
        || begins(Status::False, bytes)
}

/// Returns true if the text of a status begins with the bytes.
pub(crate) fn status_begins(bytes: &[u8]) -> bool
    ensures { IsTrue result ↔ Begins IsStatusText bytes.now }
{
    one_begins(bytes)
}

/// Returns true if the text of the status begins with the bytes, and makes a body of `len` bytes.
fn begins_of(len: usize, status: Status, bytes: &[u8]) -> bool
    ensures { result ≡ is_begun_of len bytes.now status }
{
    status.text().len() + 1 == len && begins(status, bytes)
}

/// Returns true if one of the seven texts begins with the bytes, and makes a body of `len` bytes.
fn one_begins_of(len: usize, bytes: &[u8]) -> bool
    ensures { result ≡ for_some (is_begun_of len bytes.now) }
{
    begins_of(len, Status::Ok, bytes)
        || begins_of(len, Status::OkSimultaneous, bytes)
        || begins_of(len, Status::Nok, bytes)
        || begins_of(len, Status::NotAllowed, bytes)
        || begins_of(len, Status::Alive, bytes)
        || begins_of(len, Status::True, bytes)
        || begins_of(len, Status::False, bytes)
}

/// Returns true if the text of a status begins with the bytes, and makes a body of `len` bytes.
pub(crate) fn status_of_length_begins(len: usize, bytes: &[u8]) -> bool
    ensures { IsTrue result ↔ Begins (IsStatusTextOf len) bytes.now }
{
    one_begins_of(len, bytes)
}
