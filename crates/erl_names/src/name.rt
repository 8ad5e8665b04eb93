//! The names of nodes.
ghost use Rattle.std.specs.Prelude.{◌≡◌, ◌⊎◌, ◌↔◌, IsTrue, IfOk, OnOk, IfErr, IsErrOf, ◌==◌, position};
ghost use Rattle.erl_names.specs.Name.{IsNodeName, IsWord, is_name_byte, is_host_byte, is_node_name, is_word};

use erl_term::{Atom, Refusal};
use std::alloc::{AllocError, Global};
use std::marker::Model;

/// The name of a node: a word, `@` and a word, of 3 to 64 characters in all. Contracts see its
/// UTF-8 bytes.
///
/// Each word is one or more ASCII letters, digits, `_` and `-`, and the second may have dots too.
/// Names are ordered by their bytes. (Reference Manual, Distributed Erlang, Nodes.)
#[derive(Debug, Drop, PartialEq, Eq, PartialOrd, Ord)]
pub struct NodeName {
    atom: Atom,
}

impl Model for NodeName {
    ghost use Rattle.std.specs.Prelude.{List, ℕ};
    ghost use Rattle.erl_names.specs.Name.{IsNodeName};

    ghost Value = { List ℕ };

    ghost view = { λ n. n.atom };

    ghost invariant = { λ n. IsNodeName n.atom };

    ghost inverse = { λ bytes. record { atom = bytes } };
}

impl NodeName {
    /// Returns true if a text has the form of a name. It takes no memory. (Reference Manual,
    /// Distributed Erlang, Nodes.)
    pub fn fits(text: &str) -> bool
        ensures form { IsTrue result ↔ IsNodeName text.now }
        ensures test { result ≡ is_node_name text.now }
    {
        has_form(text.as_bytes())
    }

    /// The name that a text spells.
    ///
    /// Refused with [`Refusal::BadName`] where the text hasn't the form of a name, and with
    /// [`Refusal::OutOfMemory`] only where it has. (Reference Manual, Distributed Erlang, Nodes.)
    pub fn read(alloc: Global, text: &str) -> Result<NodeName, Refusal>
        ensures name { IfOk result (λ name. name ≡ text.now) }
        ensures form { OnOk result (IsNodeName text.now) }
        ensures bad { IsErrOf result Refusal.BadName → ¬ (IsNodeName text.now) }
        ensures memory { IsErrOf result Refusal.OutOfMemory → IsNodeName text.now }
        ensures only { IfErr result (λ e. (e ≡ Refusal.BadName) ⊎ (e ≡ Refusal.OutOfMemory)) }
    {
        if !NodeName::fits(text) {
            return Err(Refusal::BadName);
        }
        Ok(NodeName {
            atom: Atom::new(String::from_str(alloc, text)?)?,
        })
    }

    /// The text of the name.
    pub fn text(&self) -> &str
        ensures text { result.now ≡ self.now }
        ensures form { IsNodeName self.now }
    {
        self.atom.text()
    }

    /// The name as an atom, as terms have it.
    pub fn atom(&self) -> &Atom
        ensures { result.now ≡ self.now }
    {
        &self.atom
    }
}

impl Clone for NodeName {
    ghost is_clone = { λ name copy. copy ≡ name };

    fn clone(&self) -> Result<NodeName, AllocError> {
        Ok(NodeName {
            atom: self.atom.clone()?,
        })
    }
}

// Whether the text has the form of a name.
fn has_form(text: &[u8]) -> bool
    ensures form { IsTrue result ↔ IsNodeName text.now }
    ensures test { result ≡ is_node_name text.now }
{
    if text.len() > 64 {
        return false;
    }
    match first_at(text) {
        Some(at) => is_name(&text[..at]) && is_host(&text[at + 1..]),
        None => false,
    }
}

// Where the first `@` is.
fn first_at(text: &[u8]) -> Option<usize>
    ensures { result ≡ position (λ b. b == 64) text.now }
{
    text.iter().position(|b| *b == b'@')
}

// Whether these are the bytes of a first word.
fn is_name(word: &[u8]) -> bool
    ensures word { IsTrue result ↔ IsWord is_name_byte word.now }
    ensures test { result ≡ is_word is_name_byte word.now }
{
    !word.is_empty() && word.iter().all(|b| is_name_byte(*b))
}

// Whether these are the bytes of a second word.
fn is_host(word: &[u8]) -> bool
    ensures word { IsTrue result ↔ IsWord is_host_byte word.now }
    ensures test { result ≡ is_word is_host_byte word.now }
{
    !word.is_empty() && word.iter().all(|b| is_name_byte(*b) || *b == b'.')
}

// Whether a first word may have the byte: a letter, a digit, `_` or `-`.
fn is_name_byte(b: u8) -> bool
    ensures { result ≡ is_name_byte b }
{
    b.is_ascii_alphanumeric() || b == b'_' || b == b'-'
}
