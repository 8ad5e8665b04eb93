//! The two ends of a wire. Each shares the queue, and has a pass of it.
ghost use Rattle.std.specs.Prelude.{◌≡◌, List, [], ◌∷◌, ◌++◌, length, IfOk, IfErr, OnErr, IfSome, IfNone, OnOk};
ghost use Rattle.wire_core.specs.Cuts.{AreCut};
ghost use Rattle.wire_core.specs.Pieces.{PieceSeen};

use crate::piece::Piece;
use crate::rule::{Ends, Left, Line, Put, Taken, WirePass};
use std::alloc::{AllocError, Global};
use std::marker::Model;
use std::sync::{Arc, Wait};

/// How many pieces a wire holds.
pub const CAPACITY: usize = 64;

/// The end at which pieces are put. Contracts see of which wire it is, and all that was put, in order.
#[derive(Drop)]
pub struct WireOut {
    line: Arc<Line>,
    pass: WirePass,
}

impl Model for WireOut {
    ghost use Rattle.wire_core.specs.Ends.{WireEnd};
    ghost use Rattle.wire_core.specs.Passing.{known, giver};

    ghost Value = { WireEnd };

    ghost view = { λ end. record { wire = end.pass.table_id; pieces = (known end.pass).put } };

    ghost use Rattle.std.specs.Prelude.{◌≡◌};
    ghost use Rattle.std.specs.Arc.{arc_value};
    ghost use Rattle.crossbeam_queue.specs.Passes.{IsPassOf, ruled_capacity};

    ghost invariant = { λ end. IsPassOf (arc_value end.line) end.pass × (ruled_capacity (arc_value end.line) ≡ 64)
        × (known end.pass ≡ giver (known end.pass).put) };
}

/// The end at which pieces are taken. Contracts see of which wire it is, and all that was taken, in
/// order.
#[derive(Drop)]
pub struct WireIn {
    line: Arc<Line>,
    pass: WirePass,
}

impl Model for WireIn {
    ghost use Rattle.wire_core.specs.Ends.{WireEnd};
    ghost use Rattle.wire_core.specs.Passing.{known, taker};

    ghost Value = { WireEnd };

    ghost view = { λ end. record { wire = end.pass.table_id; pieces = (known end.pass).taken } };

    ghost use Rattle.std.specs.Prelude.{◌≡◌};
    ghost use Rattle.std.specs.Arc.{arc_value};
    ghost use Rattle.crossbeam_queue.specs.Passes.{IsPassOf, ruled_capacity};

    ghost invariant = { λ end. IsPassOf (arc_value end.line) end.pass × (ruled_capacity (arc_value end.line) ≡ 64)
        × (known end.pass ≡ taker (known end.pass).taken) };
}

/// Both ends of a new wire, through which nothing went yet.
///
/// # Errors
/// Where there is no memory for it.
pub fn wire(alloc: Global) -> Result<(WireOut, WireIn), AllocError>
    ensures one { IfOk result (λ ends. ends.0.wire ≡ ends.1.wire) }
    ensures put { IfOk result (λ ends. ends.0.pieces ≡ []) }
    ensures taken { IfOk result (λ ends. ends.1.pieces ≡ []) }
{
    let (line, mut pass) = Line::ruled(alloc, CAPACITY)?;
    let other = line.another::<Ends>(&mut pass);
    let line = Arc::new(alloc, line)?;
    let far = Arc::try_clone(&line)?;
    Ok((
        WireOut { line, pass },
        WireIn {
            line: far,
            pass: other,
        },
    ))
}

impl WireOut {
    /// Puts a piece behind those that were put. With it they have to be cut from items: the taker puts
    /// these together again.
    ///
    /// # Errors
    /// The piece comes back where the wire was full at some moment of the call: so many of those that
    /// were put weren't taken yet. Then nothing has changed.
    pub fn put<R: Wait>(&mut self, rt: &R, piece: Piece) -> Result<(), Piece>
        requires { AreCut (self.old.pieces ++ piece ∷ []) }
        ensures wire { self.new.wire ≡ self.old.wire }
        ensures put { OnOk result (self.new.pieces ≡ self.old.pieces ++ piece ∷ []) }
        ensures back { IfErr result (λ back. back ≡ piece) }
        ensures unchanged { OnErr result (self.new.pieces ≡ self.old.pieces) }
        ensures full { OnErr result ((taken held : List PieceSeen) × (self.old.pieces ≡ taken ++ held) × (length held ≡ CAPACITY)) }
    {
        self.line.push_as::<Put, R>(rt, &mut self.pass, piece)
    }
}

impl WireIn {
    /// Takes the first piece of the wire, if it holds one. Where there is none nothing has changed.
    pub fn take<R: Wait>(&mut self, rt: &R) -> Option<Piece>
        ensures wire { self.new.wire ≡ self.old.wire }
        ensures taken { IfSome result (λ piece. self.new.pieces ≡ self.old.pieces ++ piece ∷ []) }
        ensures cut { IfSome result (λ piece. AreCut self.new.pieces) }
        ensures unchanged { IfNone result (self.new.pieces ≡ self.old.pieces) }
    {
        self.line.pop_as::<Taken, R>(rt, &mut self.pass)
    }
}

/// How many pieces the wire of these two ends still holds: what was put is what was taken, and then
/// so many more.
pub fn audit<R: Wait>(rt: &R, out: WireOut, into: WireIn) -> u64
    requires { out.wire ≡ into.wire }
    ensures { (held : List PieceSeen) × (out.pieces ≡ into.pieces ++ held) × (length held ≡ result) }
{
    let WireOut { line, mut pass } = out;
    let WireIn {
        line: far,
        pass: other,
    } = into;
    drop(far);
    line.absorb::<Ends>(&mut pass, other);
    line.len_as::<Left, R>(rt, &mut pass) as u64
}
