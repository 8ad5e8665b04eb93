//! Lists of events.
ghost use Rattle.std.specs.Prelude.{◌≡◌, ◌≤◌, List, [], ℕ, IfOk, OnErr, length};
ghost use Rattle.std.specs.Vec.{vec_capacity};
ghost use Rattle.dist_model.specs.Names.{Name};
ghost use Rattle.erl_handshake.specs.declared.setup.Setup.{Setup};
ghost use Rattle.dist_model.specs.Runs.{opening};
ghost use Rattle.dist_model.specs.World.{World as TheWorld};
ghost use Rattle.world_core.specs.Ran.{Ran, RanSafely, events_in};
ghost use Rattle.world_core.specs.Stands.{StandsFor};

use crate::event::Event;
use crate::world::World;
use dist_model::Report;
use erl_term::Refusal;
use node_frames::Frame;
use std::alloc::{AllocError, Global};

/// The result of an event: the node's report with the frames that it sent, or its refusal.
pub type Answered = Result<Report<Frame>, Refusal>;

impl World {
    // Applies each event, and appends its answer within the capacity.
    fn apply_all(&mut self, alloc: Global, answers: &mut Vec<Answered>, events: Vec<Event>)
        requires empty { answers.old.items ≡ [] }
        requires room { length events.items ≤ vec_capacity answers.old }
        ensures { (m : TheWorld) → StandsFor self.old m → Ran self.new m (events_in m.names events.items) answers.new.items }
    {
        for event in events {
            answers.push_reserved(self.apply(alloc, event));
        }
    }

    /// Applies `events` in order, and returns their answers in the same order. From an opening
    /// world no list of events leads to an unsafe moment, and each report tells only true exits
    /// and DOWNs: clause `safe`.
    ///
    /// # Errors
    /// [`AllocError`] if there is no memory for the answers. On error nothing changes. An event
    /// for which memory is wanting is answered by `OutOfMemory`, and the later events go on.
    pub fn run(&mut self, alloc: Global, events: Vec<Event>) -> Result<Vec<Answered>, AllocError>
        ensures ran { (m : TheWorld) → StandsFor self.old m → IfOk result (λ answers. Ran self.new m (events_in m.names events.items) answers.items) }
        ensures safe { (nodes : List (Name × Setup)) → let m = opening nodes in StandsFor self.old m →
            IfOk result (λ answers. RanSafely self.new m (events_in m.names events.items) answers.items) }
        ensures err { OnErr result (self.new ≡ self.old) }
    {
        dist_model::every_run_is_safe();
        dist_model::every_report_is_safe();
        let mut answers = match Vec::with_capacity(alloc, events.len()) {
            Ok(answers) => answers,
            Err(e) => {
                drop(events);
                return Err(e);
            }
        };
        self.apply_all(alloc, &mut answers, events);
        Ok(answers)
    }
}
