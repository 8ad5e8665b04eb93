//! What travels on one connection to one node.
ghost use Rattle.std.specs.Prelude.{◌≡◌, ◌++◌, ◌∷◌, [], IfOk, List, OnErr, OnOk, not};
ghost use Rattle.std.specs.List.{list_all};
ghost use Rattle.std.specs.Option.{option_copied};
ghost use Rattle.node_frames.specs.Frames.{Framed};
ghost use Rattle.world_core.specs.Lists.{behind_first, first_of, is_between, joins};

use erl_term::Pid;
use node_frames::{Frame, same_pid};
use std::alloc::{AllocError, Global};
use std::collections::VecDeque;
use std::marker::Model;

/// The frames in flight on a connection to one of its nodes, the first to come first. Contracts see the
/// list.
#[derive(Drop)]
pub struct Queue {
    frames: VecDeque<Frame>,
}

impl Model for Queue {
    ghost use Rattle.std.specs.Prelude.{List};
    ghost use Rattle.std.specs.Coded.{coded_list};
    ghost use Rattle.node_frames.specs.Frames.{Framed};
    ghost use Rattle.node_frames.specs.contracts.frame.Frame as frame;

    ghost Value = { List Framed };

    ghost coded = { coded_list frame.the_row.coded };

    ghost view = { λ q. q.frames.items };
}

// Whether a frame is a signal of the one process to the other.
fn joins(p: &Pid, q: &Pid, between: Option<&(Pid, Pid)>) -> bool
    ensures { result ≡ joins p.now q.now (option_copied between.entry) }
{
    match between {
        Some((from, to)) => same_pid(from, p) && same_pid(to, q),
        None => false,
    }
}

// Whether it is one of one of the two to the other.
fn is_between(p: &Pid, q: &Pid, frame: &Frame) -> bool
    ensures { result ≡ is_between p.now q.now frame.now }
{
    joins(p, q, frame.between()) || joins(q, p, frame.between())
}

// Appends copies of frames.
fn push_copies(alloc: Global, copies: &mut Vec<Frame>, frames: &[Frame]) -> Result<(), AllocError>
    ensures { OnOk result (copies.new.items ≡ copies.old.items ++ frames.now) }
{
    for frame in frames {
        copies.push(frame.copy(alloc)?)?;
    }
    Ok(())
}

impl Queue {
    /// Nothing. Takes no memory.
    pub(crate) fn new(alloc: Global) -> Queue
        ensures { result ≡ [] }
    {
        Queue {
            frames: VecDeque::new(alloc),
        }
    }

    /// Returns copies of the frames, the first to come first.
    ///
    /// # Errors
    /// [`AllocError`] if out of memory.
    pub fn frames(&self, alloc: Global) -> Result<Vec<Frame>, AllocError>
        ensures { IfOk result (λ frames. frames.items ≡ self.now) }
    {
        let (older, newer) = self.frames.as_slices();
        let mut copies = Vec::with_capacity(alloc, self.frames.len())?;
        push_copies(alloc, &mut copies, older)?;
        push_copies(alloc, &mut copies, newer)?;
        Ok(copies)
    }

    /// Returns a copy with the same frames.
    pub(crate) fn copy(&self, alloc: Global) -> Result<Queue, AllocError>
        ensures { IfOk result (λ copy. copy ≡ self.now) }
    {
        let copies = self.frames(alloc)?;
        Ok(Queue {
            frames: VecDeque::from(copies),
        })
    }

    /// Returns the frame that comes next. Takes no memory.
    pub fn first(&self) -> Option<&Frame>
        ensures { option_copied result ≡ first_of self.now }
    {
        self.frames.front()
    }

    /// One frame more, behind the others.
    pub(crate) fn push(&mut self, frame: Frame) -> Result<(), AllocError>
        ensures ok { OnOk result (self.new ≡ self.old ++ frame ∷ []) }
        ensures err { OnErr result (self.new ≡ self.old) }
    {
        self.frames.push_back(frame)?;
        Ok(())
    }

    /// The first is taken out, if there is one.
    pub(crate) fn drop_first(&mut self)
        ensures { self.new ≡ behind_first self.old }
    {
        self.frames.pop_front();
    }

    /// The last is taken out, if there is one.
    pub(crate) fn drop_last(&mut self)
        ensures { (rest : List Framed) (last : Framed) → self.old ≡ rest ++ last ∷ [] → self.new ≡ rest }
    {
        self.frames.pop_back();
    }

    /// Whether no signal of one of the two processes to the other is among them.
    pub(crate) fn has_nothing_between(&self, p: &Pid, q: &Pid) -> bool
        ensures { result ≡ list_all (λ frame. not (is_between p.now q.now frame)) self.now }
    {
        self.frames.iter().all(|frame| !is_between(p, q, frame))
    }
}
