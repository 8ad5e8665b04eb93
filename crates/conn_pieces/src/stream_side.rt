//! A side of a connection that reads a stream.
ghost use Rattle.std.specs.Prelude.{◌≡◌, ◌↔◌, ◌⊎◌, ◌++◌, ◌∷◌, [], false, true, List, IfErr, IfOk, IsErrOf, OnErr, OnOk};
ghost use Rattle.conn_core.specs.Arrivals.{ArrivalDue, TakesMemory};
ghost use Rattle.conn_core.specs.Side.{listens, state_of};
ghost use Rattle.conn_pieces.specs.Streams.{behind, standing_as, Gives, IsAtRest};
ghost use Rattle.conn_core.specs.declared.arrival.Arrival.{Arrival};
ghost use Rattle.erl_term.specs.declared.refusal.Refusal.TheVariants.{NotLive, OutOfMemory};

use conn_core::{Arrival, Side};
use erl_handshake::Identity;
use erl_term::Refusal;
use std::alloc::{AllocError, Global};

/// A side of a connection, and the bytes that have come from the peer, in any pieces, and that the
/// side hasn't taken yet. (ERTS User's Guide, Distribution Protocol, Distribution Handshake and
/// Protocol between Connected Nodes.)
#[derive(Debug, Drop)]
pub struct StreamSide {
    /// The side. Its node may set its standing at any time.
    pub side: Side,
    kept: Vec<u8>,
}

impl StreamSide {
    /// Creates a side to which no byte has come yet. Allocates nothing.
    pub fn new(alloc: Global, side: Side) -> Self
        ensures side { result.side ≡ side }
        ensures kept { result.kept.items ≡ [] }
    {
        StreamSide {
            side,
            kept: Vec::new(alloc),
        }
    }

    /// Returns the bytes that the side hasn't taken yet.
    pub fn kept(&self) -> &[u8]
        ensures { result.now ≡ self.now.kept.items }
    {
        self.kept.as_slice()
    }

    /// Appends a piece of any length.
    ///
    /// # Errors
    /// [`AllocError`] if there is no memory for it. On error nothing changes.
    pub fn feed(&mut self, piece: &[u8]) -> Result<(), AllocError>
        ensures ok { OnOk result (self.new.kept.items ≡ self.old.kept.items ++ piece.now) }
        ensures err { OnErr result (self.new.kept.items ≡ self.old.kept.items) }
        ensures side { self.new.side ≡ self.old.side }
    {
        self.kept.extend_from_slice(piece)
    }

    /// Takes the item at the front, as [`Side::judge`] reads it, and sets the side's standing.
    /// Returns `None` if more bytes are needed. Malformed bytes break the side, and stay.
    ///
    /// # Errors
    /// [`Refusal::NotLive`] exactly if the side takes nothing more, else [`Refusal::OutOfMemory`]
    /// at a whole message or signal. On error nothing changes.
    pub fn next(
        &mut self,
        alloc: Global,
        own: &Identity,
        word: u32,
    ) -> Result<Option<Arrival>, Refusal>
        ensures due { IfOk result (λ due. ArrivalDue own.now self.old.side self.old.kept.items word due) }
        ensures left { IfOk result (λ due. self.new.kept.items ≡ behind due self.old.kept.items) }
        ensures stands { IfOk result (λ due. self.new.side ≡ standing_as due self.old.side) }
        ensures not_live { IsErrOf result NotLive ↔ (listens (state_of self.old.side.standing) ≡ false) }
        ensures memory { IsErrOf result OutOfMemory → TakesMemory self.old.side.standing self.old.kept.items }
        ensures only { IfErr result (λ e. (e ≡ NotLive) ⊎ (e ≡ OutOfMemory)) }
        ensures err { OnErr result (self.new ≡ self.old) }
    {
        let due = self.side.judge(alloc, own, self.kept.as_slice(), word)?;
        if let Some(arrival) = &due {
            self.kept.drain(..arrival.len);
            self.side.standing = arrival.standing;
        }
        Ok(due)
    }

    /// Takes every whole item, in order, as [`StreamSide::next`] does, until more bytes are needed
    /// or the side takes nothing more. Appends the items to `arrivals`.
    ///
    /// # Errors
    /// [`Refusal::OutOfMemory`]. On error the items taken so far stand in `arrivals`, and the rest
    /// of the bytes waits.
    pub fn take_all(
        &mut self,
        alloc: Global,
        own: &Identity,
        word: u32,
        arrivals: &mut Vec<Arrival>,
    ) -> Result<(), Refusal>
        ensures gives { (given : List Arrival) × (arrivals.new.items ≡ arrivals.old.items ++ given) × Gives own.now word self.old.side self.old.kept.items given self.new.side self.new.kept.items }
        ensures all { IfOk result (λ _. IsAtRest own.now word self.new.side self.new.kept.items) }
        ensures only { IfErr result (λ e. e ≡ OutOfMemory) }
    {
        'each: while self.take_one(alloc, own, word, arrivals)? {}
        Ok(())
    }

    // Takes the item at the front, and returns true if there was one.
    fn take_one(
        &mut self,
        alloc: Global,
        own: &Identity,
        word: u32,
        arrivals: &mut Vec<Arrival>,
    ) -> Result<bool, Refusal>
        ensures took { IfOk result (λ took. took ≡ true → (arrival : Arrival) × (arrivals.new.items ≡ arrivals.old.items ++ arrival ∷ []) × Gives own.now word self.old.side self.old.kept.items (arrival ∷ []) self.new.side self.new.kept.items) }
        ensures none { IfOk result (λ took. took ≡ false → IsAtRest own.now word self.new.side self.new.kept.items × (self.new.side ≡ self.old.side) × (self.new.kept.items ≡ self.old.kept.items)) }
        ensures unread { IfOk result (λ took. took ≡ false → arrivals.new.items ≡ arrivals.old.items) }
        ensures err { IfErr result (λ e. (e ≡ OutOfMemory) × (self.new ≡ self.old) × (arrivals.new.items ≡ arrivals.old.items)) }
    {
        if !self.side.standing.state().listens() {
            return Ok(false);
        }
        arrivals.reserve(1)?;
        let Some(arrival) = self.next(alloc, own, word)? else {
            return Ok(false);
        };
        arrivals.push(arrival)?;
        Ok(true)
    }
}
