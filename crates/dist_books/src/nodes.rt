//! What the laws speak of: nodes, and what each does.
ghost use Rattle.std.specs.Prelude.{Bool, List, Option, ℕ};

/// Nodes, each with a state of its own, and the channels between them.
pub trait Nodes {
    /// What a node is.
    type State;
    /// What happens at a node.
    type Event;
    /// What a node says of an event.
    type Answer;
    /// What leads from one node to another.
    type Channel;
    /// What travels on a channel.
    type Symbol;

    /// Whether two are one channel.
    ghost same: { Self.Channel → Self.Channel → Bool };

    /// What the node of a number does in a state at an event, with the symbols that it takes off a
    /// channel, if it takes any: its answer, its next state, and what it puts on channels.
    ghost acts: { ℕ → Self.State → Self.Event → Option (Self.Channel × List Self.Symbol) → Self.Answer → Self.State
        → List (Self.Channel × List Self.Symbol) → Type 0 };
}
