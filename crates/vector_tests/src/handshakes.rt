//! Whole handshakes, by the side of one node.

use crate::answers::bytes;
use anyhow::{Context, Result};
use conn_core::{Arrival, Fault, Side, Standing, Taken};
use erl_handshake::{
    Cookie, Flags, Identity, Introduction, OtherConnections, Progress, ShakeFault, ShakeMsg, put,
};
use erl_names::{Creation, NodeName, TrunkId};
use erl_term::Refusal;
use std::alloc::{AllocError, Global};

/// The words of a line: the node's name and its peer's, the cookie, the node's challenge, and the rest.
#[derive(Clone, Copy)]
struct Line<'a> {
    own: &'a str,
    peer: &'a str,
    cookie: &'a str,
    challenge: u32,
    rest: &'a str,
}

/// The outcome of a handshake.
#[derive(Clone, Copy)]
enum Outcome {
    /// The nodes are connected.
    Up(Introduction),
    /// More bytes are needed.
    Begins,
    Fails(ShakeFault),
}

/// A node in a handshake.
#[derive(Drop)]
struct Shaking {
    own: Identity,
    side: Side,
    /// The node's challenge.
    challenge: u32,
    /// The other connections with the peer, beside which an acceptor decides.
    others: OtherConnections,
    /// The bytes that it has sent.
    sent: Vec<u8>,
    /// The number of bytes that it has taken.
    taken: usize,
}

/// Returns the answer to a line of a node that dials: its words, and all bytes that its peer sends.
pub fn answer_dialing(alloc: Global, line: &str) -> Result<String> {
    let line = line_of(line)?;
    let heard = bytes(alloc, line.rest)?;
    let mut shaking = dialing(alloc, &line)?;
    let outcome = shaking.go_on(alloc, heard.as_slice())?;
    answer(alloc, &shaking, outcome)
}

/// Returns the answer to a line of a node that is dialed: its words, the other connection with the peer, and
/// all bytes that its peer sends.
pub fn answer_accepting(alloc: Global, line: &str) -> Result<String> {
    let line = line_of(line)?;
    let (beside, digits) = next_word(line.rest)?;
    let heard = bytes(alloc, digits)?;
    let mut shaking = accepting(alloc, &line, others_of(beside))?;
    let outcome = shaking.go_on(alloc, heard.as_slice())?;
    answer(alloc, &shaking, outcome)
}

fn next_word(text: &str) -> Result<(&str, &str)> {
    text.split_once(' ').context("a word and a space")
}

fn line_of(text: &str) -> Result<Line<'_>> {
    let (own, text) = next_word(text)?;
    let (peer, text) = next_word(text)?;
    let (cookie, text) = next_word(text)?;
    let (challenge, rest) = next_word(text)?;
    Ok(Line {
        own,
        peer,
        cookie,
        challenge: challenge.parse::<u32>().context("a challenge")?,
        rest,
    })
}

/// Returns the other connections of a word.
fn others_of(word: &str) -> OtherConnections {
    OtherConnections {
        waiting: None,
        connected: word == "connection",
        dialing: word == "dial",
    }
}

fn identity(alloc: Global, line: &Line<'_>) -> Result<Identity, Refusal> {
    let cookie = Cookie::new(Vec::from_slice(alloc, line.cookie.as_bytes())?);
    let name = NodeName::read(alloc, line.own)?;
    Ok(Identity {
        name,
        creation: Creation::first(),
        flags: Flags::mandatory(),
        cookie,
    })
}

fn dialing(alloc: Global, line: &Line<'_>) -> Result<Shaking, Refusal> {
    let own = identity(alloc, line)?;
    let dialer = NodeName::read(alloc, line.own)?;
    let peer = NodeName::read(alloc, line.peer)?;
    let mut sent = Vec::new(alloc);
    put(&mut sent, &own.send_name()?)?;
    Ok(Shaking {
        own,
        side: Side::dial(TrunkId { dialer, count: 1 }, peer, line.challenge),
        challenge: line.challenge,
        others: others_of("nothing"),
        sent,
        taken: 0,
    })
}

fn accepting(alloc: Global, line: &Line<'_>, others: OtherConnections) -> Result<Shaking, Refusal> {
    let own = identity(alloc, line)?;
    let dialer = NodeName::read(alloc, line.peer)?;
    Ok(Shaking {
        own,
        side: Side::fresh(TrunkId { dialer, count: 1 })?,
        challenge: line.challenge,
        others,
        sent: Vec::new(alloc),
        taken: 0,
    })
}

impl Shaking {
    /// Takes messages until the handshake ends, or more bytes are needed.
    fn go_on(&mut self, alloc: Global, heard: &[u8]) -> Result<Outcome, Refusal> {
        for _ in 0..heard.len() {
            let rest = heard.get(self.taken..).unwrap_or(&[]);
            if let Some(outcome) = self.hear(alloc, rest)? {
                return Ok(outcome);
            }
        }
        Ok(Outcome::Begins)
    }

    /// Takes the message at the front, and returns the outcome if the handshake has ended.
    fn hear(&mut self, alloc: Global, bytes: &[u8]) -> Result<Option<Outcome>, Refusal> {
        let arrival = self.side.judge(alloc, &self.own, bytes, self.challenge)?;
        let outcome = self.take(&arrival);
        drop(arrival);
        match outcome? {
            Some(outcome) => Ok(Some(outcome)),
            None => self.decide(),
        }
    }

    fn take(&mut self, arrival: &Option<Arrival>) -> Result<Option<Outcome>, AllocError> {
        let Some(arrival) = arrival else {
            return Ok(Some(Outcome::Begins));
        };
        self.side.standing = arrival.standing;
        self.taken = self.taken.saturating_add(arrival.len);
        match &arrival.was {
            Taken::Message { send, .. } => self.send(send)?,
            Taken::Broken(fault) => return Ok(Some(self.failed(*fault, arrival.len))),
            Taken::Item(_) => return Ok(Some(Outcome::Begins)),
        }
        Ok(up(arrival.standing))
    }

    /// Returns the outcome of a fault. The message that ends the handshake counts as taken by none.
    fn failed(&mut self, fault: Fault, len: usize) -> Outcome {
        self.taken = self.taken.saturating_sub(len);
        match fault {
            Fault::Shake(why) => Outcome::Fails(why),
            Fault::Frame(_) | Fault::Forged => Outcome::Begins,
        }
    }

    fn send(&mut self, message: &Option<ShakeMsg>) -> Result<(), AllocError> {
        match message {
            Some(message) => put(&mut self.sent, message),
            None => Ok(()),
        }
    }

    /// Decides on the attempt, and sends the challenge, where either is due.
    fn decide(&mut self) -> Result<Option<Outcome>, Refusal> {
        if let Some((standing, admission)) = self.side.admit(&self.own.name, self.others) {
            self.side.standing = standing;
            self.send(&Some(ShakeMsg::Status(admission.status)))?;
            if let Progress::Ended(why) = admission.progress {
                return Ok(Some(Outcome::Fails(why)));
            }
        }
        self.challenge_if_due()?;
        Ok(None)
    }

    fn challenge_if_due(&mut self) -> Result<(), AllocError> {
        let Some((standing, message)) = self.side.send_challenge(&self.own)? else {
            return Ok(());
        };
        self.side.standing = standing;
        let sent = put(&mut self.sent, &message);
        drop(message);
        sent
    }
}

/// Returns the outcome of a side that is up.
fn up(standing: Standing) -> Option<Outcome> {
    match standing {
        Standing::Up { introduction } => Some(Outcome::Up(introduction)),
        _ => None,
    }
}

/// Returns the answer of an outcome: with all bytes that the node has sent.
fn answer(alloc: Global, shaking: &Shaking, outcome: Outcome) -> Result<String> {
    let sent = hex::encode_upper(alloc, shaking.sent.as_slice())?;
    let taken = shaking.taken;
    match outcome {
        Outcome::Up(Introduction { flags, creation }) => {
            Ok(format!(in alloc; "reads {taken} up {flags:X} {creation} {sent}")?)
        }
        Outcome::Begins => Ok(format!(in alloc; "begins {sent}")?),
        Outcome::Fails(why) => {
            let (number, name) = (why.number(), why.name());
            Ok(format!(in alloc; "fault {taken} {number} {name} {sent}")?)
        }
    }
}
