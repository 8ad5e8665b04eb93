//! The answer to a line.

use crate::{frames, handshakes, messages, terms};
use anyhow::{Context, Result};
use erl_handshake::Role;
use std::alloc::Global;

/// Returns the answer to a line: a role and what it reads.
///
/// # Errors
/// An error if the line has another form, or if memory is wanting.
pub fn answer(alloc: Global, line: &str) -> Result<String> {
    let (role, rest) = line.split_once(' ').context("a role and a space")?;
    match role {
        "term" => terms::answer(alloc, bytes(alloc, rest)?.as_slice()),
        "frame" => frames::answer(alloc, bytes(alloc, rest)?.as_slice()),
        "dialer" => messages::answer(alloc, Role::Dialer, bytes(alloc, rest)?.as_slice()),
        "acceptor" => messages::answer(alloc, Role::Acceptor, bytes(alloc, rest)?.as_slice()),
        "dials" => handshakes::answer_dialing(alloc, rest),
        "accepts" => handshakes::answer_accepting(alloc, rest),
        _ => Err(anyhow::anyhow!("no role")),
    }
}

/// Returns the bytes of hexadecimal digits.
pub fn bytes(alloc: Global, digits: &str) -> Result<Vec<u8>> {
    Ok(hex::decode(alloc, digits).context("hexadecimal digits")?)
}
