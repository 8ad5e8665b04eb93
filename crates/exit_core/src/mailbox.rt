//! The messages that wait for a process.
ghost use Rattle.std.specs.Prelude.{◌≡◌, ◌↔◌, ◌≤◌, ◌+◌, ◌++◌, ◌∷◌, [], length, IsTrue, IfOk, OnOk, OnErr, IsOk, MatchOption};
ghost use Rattle.std.specs.List.{slice_get};
ghost use Rattle.std.specs.Option.{option_copied};

use erl_term::Payload;
use std::alloc::{AllocError, Global};
use std::collections::VecDeque;
use std::marker::Model;

/// The messages that wait for a process, the oldest first. Contracts see the list of them, and the
/// room: how many more may come without memory. (Reference Manual, Processes, Delivery of Signals.)
#[derive(Debug, Drop)]
pub struct Mailbox {
    messages: VecDeque<Payload>,
}

impl Model for Mailbox {
    ghost use Rattle.std.specs.Prelude.{◌-◌};
    ghost use Rattle.std.specs.VecDeque.{deque_len, deque_capacity};
    ghost use Rattle.exit_core.specs.Waiting.{Waiting, waiting_code};

    ghost Value = { Waiting };

    ghost coded = { waiting_code };

    ghost view = { λ m. record { messages = m.messages.items; room = deque_capacity m.messages - deque_len m.messages } };
}

// Appends copies of messages.
fn push_copies(
    alloc: Global,
    copies: &mut Vec<Payload>,
    messages: &[Payload],
) -> Result<(), AllocError>
    ensures { OnOk result (copies.new.items ≡ copies.old.items ++ messages.now) }
{
    for message in messages {
        copies.push(message.copy(alloc)?)?;
    }
    Ok(())
}

impl Mailbox {
    /// No messages. Takes no memory.
    pub fn new(alloc: Global) -> Mailbox
        ensures { result.messages ≡ [] }
    {
        Mailbox {
            messages: VecDeque::new(alloc),
        }
    }

    /// Returns a copy with the same messages.
    ///
    /// # Errors
    /// If memory runs out.
    pub fn copy(&self, alloc: Global) -> Result<Mailbox, AllocError>
        ensures { IfOk result (λ copy. copy.messages ≡ self.now.messages) }
    {
        let (older, newer) = self.messages.as_slices();
        let mut copies = Vec::with_capacity(alloc, self.messages.len())?;
        push_copies(alloc, &mut copies, older)?;
        push_copies(alloc, &mut copies, newer)?;
        Ok(Mailbox {
            messages: VecDeque::from(copies),
        })
    }

    /// Makes room for so many more messages: that many can be put without a refusal afterwards.
    ///
    /// # Errors
    /// Where there is no memory for it. Then nothing has changed.
    pub fn reserve(&mut self, additional: usize) -> Result<(), AllocError>
        ensures messages { self.new.messages ≡ self.old.messages }
        ensures room { OnOk result (additional ≤ self.new.room) }
        ensures kept { self.old.room ≤ self.new.room }
        ensures succeeds { additional ≤ self.old.room → IsOk result }
    {
        self.messages.reserve(additional)
    }

    /// Puts a message behind the others.
    ///
    /// # Errors
    /// Where there is neither room nor memory. Then nothing has changed.
    pub fn put(&mut self, message: Payload) -> Result<(), AllocError>
        ensures ok { OnOk result (self.new.messages ≡ self.old.messages ++ message ∷ []) }
        ensures room { self.old.room ≤ self.new.room + 1 }
        ensures err { OnErr result (self.new.messages ≡ self.old.messages) }
        ensures succeeds { 1 ≤ self.old.room → IsOk result }
    {
        self.messages.push_back(message)?;
        Ok(())
    }

    /// Takes the oldest message out, if there is one. Takes no memory.
    pub fn take(&mut self) -> Option<Payload>
        ensures messages { MatchOption result ((self.old.messages ≡ []) × (self.new.messages ≡ []))
            (λ m. self.old.messages ≡ m ∷ self.new.messages) }
        ensures room { self.old.room ≤ self.new.room }
    {
        self.messages.pop_front()
    }

    /// How many messages wait.
    pub fn len(&self) -> usize
        ensures { result ≡ length self.now.messages }
    {
        self.messages.len()
    }

    /// Returns true if no message waits.
    pub fn is_empty(&self) -> bool
        ensures { IsTrue result ↔ (self.now.messages ≡ []) }
    {
        self.messages.is_empty()
    }

    /// The message at a place, from the oldest on, counted from 0.
    pub fn get(&self, place: usize) -> Option<&Payload>
        ensures { option_copied result ≡ slice_get self.now.messages place }
    {
        self.messages.get(place)
    }
}
