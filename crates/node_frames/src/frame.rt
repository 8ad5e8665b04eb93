//! Items as they are sent.
ghost use Rattle.std.specs.Prelude.{◌≡◌, ◌<◌, ◌^◌, ◌&&◌, IfOk, length, true};
ghost use Rattle.std.specs.Option.{option_copied};
ghost use Rattle.dist_model.specs.Items.{Handshake, Signalled, has_reason};
ghost use Rattle.erl_handshake.specs.Messages.{HasFields};
ghost use Rattle.node_frames.specs.Frames.{IsSpelled, framed, named};
ghost use Rattle.node_frames.specs.Sendable.{is_sendable};

use crate::names::{receiver, sender};
use erl_control::{FrameError, Signal, frame};
use erl_handshake::{ShakeMsg, write};
use erl_term::Pid;
use std::alloc::{AllocError, Global};
use std::marker::Model;

/// An item in flight: its bytes, and the sender and receiver of a signal that names both. Contracts see
/// the bytes and the two. (ERTS User's Guide, Distribution Protocol.)
#[derive(Debug, Drop)]
pub struct Frame {
    bytes: Vec<u8>,
    between: Option<(Pid, Pid)>,
}

impl Model for Frame {
    ghost use Rattle.node_frames.specs.Frames.{Framed, framed_code};
    ghost use Rattle.erl_term.specs.contracts.term.Pid as pid;

    ghost Value = { Framed };

    ghost coded = { framed_code pid.the_row.coded };

    ghost view = { λ f. record { bytes = f.bytes.items; between = f.between } };
}

// Returns copies of the two, if both are named.
fn named(from: Option<&Pid>, to: Option<&Pid>) -> Result<Option<(Pid, Pid)>, AllocError>
    ensures { IfOk result (λ b. b ≡ named (option_copied from.entry) (option_copied to.entry)) }
{
    match (from, to) {
        (Some(from), Some(to)) => Ok(Some((from.clone()?, to.clone()?))),
        (Some(_), None) => Ok(None),
        (None, _) => Ok(None),
    }
}

// Returns true if the signal has a reason. Only a reason may follow the control term.
fn has_reason(signal: &Signal) -> bool
    ensures { result ≡ has_reason signal.now }
{
    matches!(
        signal,
        Signal::Exit { .. }
            | Signal::Exit2 { .. }
            | Signal::MonitorExit { .. }
            | Signal::MonitorNameExit { .. }
    )
}

fn is_of_32_bits(number: u32)
    ensures { number < 2 ^ 32 }
{}

fn is_of_64_bits(number: u64)
    ensures { number < 2 ^ 64 }
{}

fn is_a_digest(digest: [u8; 16])
    ensures { length digest ≡ 16 }
{}

// Shows that the parts of a message fit its fields.
fn has_fields(message: &ShakeMsg)
    ensures { HasFields message.now }
{
    match message {
        ShakeMsg::SendName {
            flags,
            creation,
            name,
        } => {
            is_of_64_bits(flags.bits());
            is_of_32_bits(*creation);
            name.text();
        }
        ShakeMsg::Challenge {
            flags,
            challenge,
            creation,
            name,
        } => {
            is_of_64_bits(flags.bits());
            is_of_32_bits(*challenge);
            is_of_32_bits(*creation);
            name.text();
        }
        ShakeMsg::Status(_) => {}
        ShakeMsg::ChallengeReply { challenge, digest } => {
            is_of_32_bits(*challenge);
            is_a_digest(*digest);
        }
        ShakeMsg::ChallengeAck { digest } => is_a_digest(*digest),
    }
}

impl Frame {
    /// Returns the frame of a signal. With `payload` its reason, if it has one,
    /// follows the control term. (ERTS User's Guide, Distribution Protocol, Protocol between Connected
    /// Nodes.)
    ///
    /// # Errors
    /// Where there is no memory for it.
    pub fn of(alloc: Global, signal: &Signal, payload: bool) -> Result<Frame, AllocError>
        requires { is_sendable signal.now ≡ true }
        ensures frame { IfOk result (λ f. f ≡ framed (Signalled signal.now (has_reason signal.now && payload))) }
        ensures spelled { IfOk result (λ _. IsSpelled (Signalled signal.now (has_reason signal.now && payload))) }
    {
        let between = named(sender(signal), receiver(signal))?;
        let payload = has_reason(signal) && payload;
        match frame(alloc, signal, payload) {
            Ok(bytes) => Ok(Frame { bytes, between }),
            Err(FrameError::OutOfMemory) => Err(AllocError),
            Err(_) => unreachable!(),
        }
    }

    /// Returns the bytes of a message of the handshake. (ERTS User's Guide, Distribution Protocol,
    /// Distribution Handshake.)
    ///
    /// # Errors
    /// Where there is no memory for it.
    pub fn of_message(alloc: Global, message: &ShakeMsg) -> Result<Frame, AllocError>
        ensures frame { IfOk result (λ f. f ≡ framed (Handshake message.now)) }
        ensures spelled { IfOk result (λ _. IsSpelled (Handshake message.now)) }
    {
        has_fields(message);
        Ok(Frame {
            bytes: write(alloc, message)?,
            between: None,
        })
    }

    /// Returns a copy.
    ///
    /// # Errors
    /// Where there is no memory for it.
    pub fn copy(&self, alloc: Global) -> Result<Frame, AllocError>
        ensures { IfOk result (λ f. f ≡ self.now) }
    {
        let between = match &self.between {
            Some((from, to)) => named(Some(from), Some(to))?,
            None => None,
        };
        Ok(Frame {
            bytes: Vec::from_slice(alloc, &self.bytes)?,
            between,
        })
    }

    /// Returns the bytes.
    pub fn as_slice(&self) -> &[u8]
        ensures { result.now ≡ self.now.bytes }
    {
        &self.bytes
    }

    /// Returns the sender and the receiver of a signal that names both.
    pub fn between(&self) -> Option<&(Pid, Pid)>
        ensures { option_copied result ≡ self.now.between }
    {
        self.between.as_ref()
    }
}
