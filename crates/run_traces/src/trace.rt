//! The forms of a trace.
ghost use Rattle.std.specs.Prelude.{◌≡◌};
ghost use Rattle.run_traces.specs.Traces.{is_on, louder};

/// The form of the trace of a run.
#[derive(Clone, Copy, Debug, PartialEq, Eq)]
pub enum Trace {
    /// No line for any item.
    Off,
    /// Each item in hex.
    Frames,
    /// Each item in hex, and behind that in words.
    Words,
}

impl Trace {
    /// Returns true unless no item has a line.
    pub fn is_on(self) -> bool
        ensures { result ≡ is_on self }
    {
        match self {
            Trace::Off => false,
            Trace::Frames => true,
            Trace::Words => true,
        }
    }

    /// Returns the form in which each item has a line: this one, or else [`Trace::Frames`].
    pub fn louder(self) -> Trace
        ensures { result ≡ louder self }
    {
        match self {
            Trace::Off => Trace::Frames,
            Trace::Frames => Trace::Frames,
            Trace::Words => Trace::Words,
        }
    }
}
