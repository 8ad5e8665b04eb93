//! What the canonical spelling of a term takes, told from its parts.
//!
//! A term may have been read in another spelling. A sum that is too large for its type stays at the
//! greatest number.
ghost use Rattle.std.specs.Prelude.{◌≡◌};
ghost use Rattle.erl_term.specs.Data.{Data, Items, int, atom, tuple, list, improper, binary, pid, reference, no_items, item, append_items, joined};
ghost use Rattle.erl_term.specs.Spelling.{byte_items};
ghost use Rattle.erl_term.specs.Size.{size_of, run_of, measure_of};

use crate::lists::is_byte;
use crate::part_len::{integer_len, tuple_head_len};
use crate::parts::{AtomRef, PidRef, ReferenceRef};

/// The size of the canonical spelling of a term.
#[derive(Clone, Copy, Debug, Drop)]
pub struct Size {
    /// Its bytes.
    pub len: usize,
    /// Its levels.
    pub levels: usize,
}

/// The size of the canonical spellings of items.
#[derive(Clone, Copy, Debug, Drop)]
pub struct Run {
    /// How many items there are.
    count: usize,
    /// Whether each is an integer of a byte.
    are_bytes: bool,
    /// Their bytes.
    len: usize,
    /// The most levels of an item.
    levels: usize,
}

/// The part of a term that decides the size of a term that holds it.
#[derive(Clone, Copy, Debug, Drop)]
pub enum Measure {
    /// Of an integer of a byte.
    Byte,
    /// Of a term that is neither such an integer nor a list.
    Other(Size),
    /// Of a proper list.
    Proper(Run),
    /// Of a list with a tail: its items and the tail.
    Improper(Run, Size),
}

impl Measure {
    // The measures of what holds no other term.

    pub(crate) fn of_integer(n: i128) -> Measure
        ensures { result ≡ measure_of (int n) }
    {
        if is_byte(n) {
            return Measure::Byte;
        }
        Measure::Other(Size {
            len: integer_len(n),
            levels: 1,
        })
    }

    pub(crate) fn of_atom(name: &AtomRef<'_>) -> Measure
        ensures { result ≡ measure_of (atom name.now) }
    {
        Measure::Other(Size {
            len: name.written_len(),
            levels: 1,
        })
    }

    pub(crate) fn of_pid(process: &PidRef<'_>) -> Measure
        ensures { result ≡ measure_of (pid process.now) }
    {
        Measure::Other(Size {
            len: process.written_len(),
            levels: 1,
        })
    }

    pub(crate) fn of_reference(made: &ReferenceRef<'_>) -> Measure
        ensures { result ≡ measure_of (reference made.now) }
    {
        Measure::Other(Size {
            len: made.written_len(),
            levels: 1,
        })
    }

    pub(crate) fn of_binary(bytes: &[u8]) -> Measure
        ensures { result ≡ measure_of (binary bytes.now) }
    {
        Measure::Other(Size {
            len: bytes.len().saturating_add(5),
            levels: 1,
        })
    }

    /// The measure of the list of the integers that the bytes are.
    pub(crate) fn of_bytes(bytes: &[u8]) -> Measure
        ensures { result ≡ measure_of (list (byte_items bytes.now)) }
    {
        Measure::Proper(Run {
            count: bytes.len(),
            are_bytes: true,
            len: bytes.len().saturating_add(bytes.len()),
            levels: bytes.len().min(1),
        })
    }

    /// What the spelling of the term takes.
    pub(crate) fn size(self) -> Size
        ensures { (t : Data) → self ≡ measure_of t → result ≡ size_of t }
    {
        match self {
            Measure::Byte => Size { len: 2, levels: 1 },
            Measure::Other(size) => size,
            Measure::Proper(run) => run.list_size(),
            Measure::Improper(run, tail) => run.improper_size(tail),
        }
    }

    /// The term as the only item.
    pub(crate) fn alone(self) -> Run
        ensures { (t : Data) → self ≡ measure_of t → result ≡ run_of (item t no_items) }
    {
        let size = self.size();
        Run {
            count: 1,
            are_bytes: matches!(self, Measure::Byte),
            len: size.len,
            levels: size.levels,
        }
    }
}

impl Run {
    /// No items.
    pub(crate) fn empty() -> Run
        ensures { result ≡ run_of no_items }
    {
        Run {
            count: 0,
            are_bytes: true,
            len: 0,
            levels: 0,
        }
    }

    /// The items, and then these.
    pub(crate) fn then(self, more: Run) -> Run
        ensures { (ts us : Items) → self ≡ run_of ts → more ≡ run_of us → result ≡ run_of (append_items ts us) }
    {
        Run {
            count: self.count.saturating_add(more.count),
            are_bytes: self.are_bytes && more.are_bytes,
            len: self.len.saturating_add(more.len),
            levels: self.levels.max(more.levels),
        }
    }

    /// The tuple of the items.
    pub(crate) fn tuple(self) -> Measure
        ensures { (ts : Items) → self ≡ run_of ts → result ≡ measure_of (tuple ts) }
    {
        Measure::Other(Size {
            len: self.len.saturating_add(tuple_head_len(self.count)),
            levels: self.levels.saturating_add(1),
        })
    }

    /// The items with the tail behind them. A list in the tail goes on with its own items, and no
    /// items leave the tail alone.
    pub(crate) fn join(self, tail: Measure) -> Measure
        ensures { (ts : Items) (t : Data) → self ≡ run_of ts → tail ≡ measure_of t → result ≡ measure_of (joined ts t) }
    {
        match tail {
            Measure::Proper(more) => Measure::Proper(self.then(more)),
            Measure::Improper(more, last) => Measure::Improper(self.then(more), last),
            tail => {
                if self.count == 0 {
                    return tail;
                }
                Measure::Improper(self, tail.size())
            }
        }
    }

    /// What the spelling of the proper list of the items takes.
    fn list_size(self) -> Size
        ensures { (ts : Items) → self ≡ run_of ts → result ≡ size_of (list ts) }
    {
        if self.count == 0 {
            return Size { len: 1, levels: 1 };
        }
        if self.are_bytes && self.count < 65536 {
            return Size {
                len: self.count + 3,
                levels: 1,
            };
        }
        Size {
            len: self.len.saturating_add(6),
            levels: self.levels.saturating_add(1),
        }
    }

    /// What the spelling of the items and the tail behind them takes.
    fn improper_size(self, tail: Size) -> Size
        ensures { (ts : Items) (t : Data) → self ≡ run_of ts → tail ≡ size_of t → result ≡ size_of (improper ts t) }
    {
        Size {
            len: self.len.saturating_add(tail.len).saturating_add(5),
            levels: self.levels.max(tail.levels).saturating_add(1),
        }
    }
}
