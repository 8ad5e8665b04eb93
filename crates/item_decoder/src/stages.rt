//! The reader of the next bytes of a connection, or of any bytes.
ghost use Rattle.std.specs.Prelude.{◌≡◌};
ghost use Rattle.item_decoder.specs.Stages.{after, after_message, any_reader, message_reader, opening_reader, reader_of, stream_reader};
ghost use Rattle.node_frames.specs.Beginnings.{begins_message};

use crate::answers::{Answer, Found};
use dist_model::Kind as MessageKind;
use erl_handshake::{Role, ShakeMsg};
use fault_places::Reader;
use item_texts::ReadItem;
use node_frames::{begins_message, kind_in};

/// The form of bytes.
#[derive(Clone, Copy, Debug, PartialEq, Eq)]
pub enum Form {
    /// Terms behind the version byte.
    Terms,
    /// Frames between connected nodes.
    Frames,
    /// Messages of the handshake, as the node that dials reads them.
    ToDialer,
    /// Messages of the handshake, as the dialed node reads them.
    ToAcceptor,
    /// One direction of a connection, from its first byte on: messages of the handshake, and then frames. Or from
    /// the first byte of a frame on.
    Stream,
    /// Any of these, told by its first bytes.
    Any,
}

/// The stage of one direction of a connection.
#[derive(Clone, Copy, Debug, PartialEq, Eq)]
pub enum Stage {
    /// Nothing was read yet.
    Opening,
    /// The node that dials sends the bytes, in the handshake.
    FromDialer,
    /// The dialed node sends them, in the handshake.
    FromAcceptor,
    /// The sender has sent its last message of the handshake.
    Connected,
}

/// The bytes that come next: their form, and the stage of the connection if it is a stream.
#[derive(Clone, Copy, Debug, PartialEq, Eq)]
pub struct Next {
    pub form: Form,
    pub stage: Stage,
}

// Returns the reader of a message of the handshake: of a challenge the node that dials, and of all others the dialed
// node, which reads each of them.
fn message_reader(bytes: &[u8]) -> Reader
    ensures { result ≡ message_reader bytes.now }
{
    match kind_in(bytes) {
        Some(MessageKind::Challenge) => Reader::Message(Role::Dialer),
        _ => Reader::Message(Role::Acceptor),
    }
}

// Returns the reader of bytes of any form.
fn any_reader(bytes: &[u8]) -> Reader
    ensures { result ≡ any_reader bytes.now }
{
    if let [131, ..] = bytes {
        return Reader::Term;
    }
    match begins_message(bytes) {
        Some(true) => message_reader(bytes),
        _ => Reader::Frame,
    }
}

// Returns the reader of the first bytes of a stream: those of a handshake, or of a frame behind it.
fn opening_reader(bytes: &[u8]) -> Reader
    ensures { result ≡ opening_reader (begins_message bytes.now) }
{
    match begins_message(bytes) {
        Some(true) => Reader::Message(Role::Acceptor),
        Some(false) => Reader::Frame,
        None => Reader::Message(Role::Acceptor),
    }
}

impl Stage {
    // Returns the reader of these bytes, which come next. A stream can begin behind its handshake.
    fn reader(self, bytes: &[u8]) -> Reader
        ensures { result ≡ stream_reader self bytes.now }
    {
        match self {
            Stage::Opening => opening_reader(bytes),
            Stage::FromDialer => Reader::Message(Role::Acceptor),
            Stage::FromAcceptor => Reader::Message(Role::Dialer),
            Stage::Connected => Reader::Frame,
        }
    }

    // Returns the stage behind a message.
    fn after_message(self, message: &ShakeMsg) -> Stage
        ensures { result ≡ after_message self message.now }
    {
        match message {
            ShakeMsg::SendName { .. } => Stage::FromDialer,
            ShakeMsg::Status(_) if self == Stage::Opening => Stage::FromAcceptor,
            ShakeMsg::ChallengeReply { .. } | ShakeMsg::ChallengeAck { .. } => Stage::Connected,
            _ => self,
        }
    }
}

impl Next {
    /// Returns the start of bytes of this form.
    pub fn new(form: Form) -> Next
        ensures { result ≡ record { form = form; stage = Stage.Opening } }
    {
        Next {
            form,
            stage: Stage::Opening,
        }
    }

    /// Returns the reader of these bytes, which come next.
    pub fn reader(self, bytes: &[u8]) -> Reader
        ensures { result ≡ reader_of self bytes.now }
    {
        match self.form {
            Form::Terms => Reader::Term,
            Form::Frames => Reader::Frame,
            Form::ToDialer => Reader::Message(Role::Dialer),
            Form::ToAcceptor => Reader::Message(Role::Acceptor),
            Form::Stream => self.stage.reader(bytes),
            Form::Any => any_reader(bytes),
        }
    }

    /// Returns the form and the stage of the bytes behind this answer.
    pub fn after(self, answer: &Answer) -> Next
        ensures { result ≡ after self answer.now }
    {
        match answer {
            Answer::Found(Found::Item(ReadItem::Message(message)), _) => Next {
                form: self.form,
                stage: self.stage.after_message(message),
            },
            Answer::Found(Found::Item(_), _) => Next {
                form: self.form,
                stage: Stage::Connected,
            },
            _ => self,
        }
    }
}
