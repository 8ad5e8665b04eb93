//! What the passes of a wire know, and what each step tells. (`specs/Passing` has the rule.)

use crate::piece::Piece;
use crossbeam_queue::protocol::{Join, Lesson, Outcome, Protocol, Split};
use crossbeam_queue::{Pass, RuledArrayQueue};
use std::collections::LinkedList;

/// The rights of a pass to put and to take, and the pieces that it has put and taken. No value of it is
/// made.
pub struct View {
    pub puts: bool,
    pub takes: bool,
    pub put: LinkedList<Piece>,
    pub taken: LinkedList<Piece>,
}

pub(crate) struct InOrder;

impl Protocol<Piece, View> for InOrder {
    ghost use Rattle.wire_core.specs.Passing.{Passes, whole};

    ghost holds = { Passes };

    ghost first = { whole };
}

/// The first pass is cut in two, one for each end, and these are put together again.
pub(crate) struct Ends;

impl Split<View> for Ends {
    ghost use Rattle.wire_core.specs.Passing.{giver, taker};

    ghost left = { λ view. giver view.put };

    ghost right = { λ view. taker view.taken };
}

impl Join<View> for Ends {
    ghost use Rattle.std.specs.Prelude.{true};
    ghost use Rattle.wire_core.specs.Passing.{knowing, spent};

    ghost both = { λ giver taker. knowing true true giver.put taker.taken };

    ghost spent = { spent };
}

/// A piece was put. Where it wasn't, what was put and not yet taken filled the wire.
pub(crate) struct Put;

impl Outcome<Piece, View> for Put {
    ghost use Rattle.std.specs.Prelude.{◌≡◌, [], ◌∷◌, ◌++◌};
    ghost use Rattle.wire_core.specs.Passing.{knowing};

    ghost then = { λ view piece new. new ≡ knowing view.puts view.takes (view.put ++ piece ∷ []) view.taken };
}

impl Lesson<Piece, View> for Put {
    ghost use Rattle.std.specs.Prelude.{◌≡◌, List, ◌++◌};
    ghost use Rattle.wire_core.specs.Pieces.{PieceSeen};

    ghost fact = { λ view held. (taken : List PieceSeen) × (view.put ≡ taken ++ held) };
}

/// A piece was taken, and what was taken is cut from items.
pub(crate) struct Taken;

impl Outcome<Piece, View> for Taken {
    ghost use Rattle.std.specs.Prelude.{◌≡◌, [], ◌∷◌, ◌++◌};
    ghost use Rattle.wire_core.specs.Cuts.{AreCut};
    ghost use Rattle.wire_core.specs.Passing.{knowing};

    ghost then = { λ view piece new. (new ≡ knowing view.puts view.takes view.put (view.taken ++ piece ∷ [])) × AreCut (view.taken ++ piece ∷ []) };
}

impl Lesson<Piece, View> for Taken {
    ghost use Rattle.std.specs.Prelude.{⊤};

    ghost fact = { λ view held. ⊤ };
}

/// What the wire still holds, to who has both passes.
pub(crate) struct Left;

impl Lesson<Piece, View> for Left {
    ghost use Rattle.std.specs.Prelude.{◌≡◌, ◌++◌};

    ghost fact = { λ view held. view.put ≡ view.taken ++ held };
}

pub(crate) type Line = RuledArrayQueue<Piece, View, InOrder>;

pub(crate) type WirePass = Pass<Piece, View>;
