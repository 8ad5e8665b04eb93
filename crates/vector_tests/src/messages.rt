//! Messages of the handshake, by erl_handshake.

use crate::texts::{begins, fault, front, reads};
use anyhow::Result;
use erl_handshake::{Role, ShakeMsg, read, write};
use erl_term::Refusal;
use fault_places::Reader;
use item_texts::put_message;
use std::alloc::Global;

/// Returns the answer to the message at the front of the bytes, for a reader of this role.
pub fn answer(alloc: Global, role: Role, bytes: &[u8]) -> Result<String> {
    match read(alloc, role, bytes) {
        Ok(None) => begins(alloc),
        Ok(Some((message, taken))) => heard(alloc, front(bytes, taken), &message),
        Err(Refusal::OutOfMemory) => Err(Refusal::OutOfMemory.into()),
        Err(e) => fault(alloc, Reader::Message(role).place(alloc, bytes)?, &e),
    }
}

fn heard(alloc: Global, bytes: &[u8], message: &ShakeMsg) -> Result<String> {
    let mut words = String::new(alloc);
    put_message(alloc, &mut words, message)?;
    let written = write(alloc, message)?;
    reads(alloc, bytes, written.as_slice(), words.as_str())
}
