//! What a caller asks for is written down, and answered.
ghost use Rattle.std.specs.Prelude.{◌≡◌, IfErr, IfOk, List, None, OnOk, true};
ghost use Rattle.dist_model.specs.Commands.{Outcome};
ghost use Rattle.dist_model.specs.Names.{Name};
ghost use Rattle.dist_model.specs.NodeEvents.{at_node};
ghost use Rattle.erl_term.specs.declared.refusal.Refusal.TheVariants as refusal;
ghost use Rattle.node_core.specs.Model.{IsFor, model_of};
ghost use Rattle.node_history.specs.Acts.{Knows, is_act};
ghost use Rattle.node_history.specs.Entering.{Tries};
ghost use Rattle.node_history.specs.Spares.{Fills};
ghost use Rattle.node_history.specs.Telling.{IsPlainCopy, IsTold, IsTwice, placed};
ghost use Rattle.node_plan.specs.Planned.{Plans};
ghost use Rattle.node_core.specs.NodeEvents.{met};

use crate::copying::{copied, copied_effects};
use crate::entry::{Answered, Told};
use crate::history::History;
use crate::spare::Spare;
use dist_model::Report;
use erl_term::Refusal;
use node_core::{Node, NodeEvent, Planned};
use std::alloc::{AllocError, Global};

/// Returns true if a caller has asked for the event: a command, a dial, a loss, a stop or a start. All
/// else is the doing of the node's thread.
pub fn is_act(event: &NodeEvent) -> bool
    ensures { result ≡ is_act event.now }
{
    match event {
        NodeEvent::Call(_) => true,
        NodeEvent::Dial { .. } => true,
        NodeEvent::Lose(_) => true,
        NodeEvent::Stop => true,
        NodeEvent::Start => true,
        NodeEvent::Arrive { .. } => false,
        NodeEvent::Local => false,
        NodeEvent::Sweep => false,
    }
}

// What a node answers, twice.
#[derive(Drop)]
struct Twice {
    answer: Answered,
    copy: Answered,
}

// What was planned is carried out. All memory is taken before the node changes.
fn carry_out(
    alloc: Global,
    node: &mut Node,
    spare: Spare,
    planned: Planned,
    made: Result<(), Refusal>,
) -> Result<Twice, AllocError>
    requires { OnOk made (IsFor node.old planned) }
    ensures ok { (due : Outcome) → Fills spare due → Plans (model_of node.old) due planned.plan made →
        IfOk result (IsTwice due (model_of node.old) (model_of node.new)) }
    ensures err { IfErr result (λ _. model_of node.new ≡ model_of node.old) }
{
    match made {
        Ok(()) => match copied_effects(alloc, planned.effects()) {
            Ok(effects) => {
                let report = node.commit(alloc, planned);
                let answer = spare.again(&report.answer);
                Ok(Twice {
                    answer: Ok(report),
                    copy: Ok(Report { answer, effects }),
                })
            }
            Err(e) => {
                drop(spare);
                drop(planned);
                Err(e)
            }
        },
        Err(e) => {
            drop(spare);
            drop(planned);
            Ok(Twice {
                answer: Err(e),
                copy: Err(e),
            })
        }
    }
}

// The answer of an event that brings nothing about, twice. Takes no memory.
fn told_twice(alloc: Global, spare: Spare, answer: Answered) -> Twice
    ensures answer { result.answer ≡ answer }
    ensures copy { IsPlainCopy spare answer result.copy }
{
    let copy = match &answer {
        Ok(report) => Ok(Report {
            answer: spare.again(&report.answer),
            effects: Vec::new(alloc),
        }),
        Err(e) => {
            drop(spare);
            Err(*e)
        }
    };
    Twice { answer, copy }
}

// An act happens at a node, which answers it twice.
fn act_twice(
    alloc: Global,
    node: &mut Node,
    is_known: bool,
    event: &NodeEvent,
) -> Result<Twice, Refusal>
    requires { is_act event.now ≡ true }
    ensures ok { IfOk result (λ t. (names : List Name) → Knows names event.now is_known →
        IsTwice (at_node names (model_of node.old) (met event.now None)) (model_of node.old) (model_of node.new) t) }
    ensures same { IfErr result (λ _. model_of node.new ≡ model_of node.old) }
    ensures err { IfErr result (λ e. e ≡ refusal.OutOfMemory) }
{
    let spare = Spare::of(alloc, node, event)?;
    match event {
        NodeEvent::Call(command) => {
            let copy = copied(alloc, command)?;
            let mut planned = Planned::new(alloc);
            let made = node.plan_call(alloc, &mut planned, copy);
            Ok(carry_out(alloc, node, spare, planned, made)?)
        }
        NodeEvent::Lose(trunk) => {
            let mut planned = Planned::new(alloc);
            let made = node.plan_loss(&mut planned, trunk);
            Ok(carry_out(alloc, node, spare, planned, made)?)
        }
        NodeEvent::Dial { peer, word } => {
            let mut planned = Planned::new(alloc);
            let made = node.plan_dial(alloc, &mut planned, is_known, peer, *word);
            Ok(carry_out(alloc, node, spare, planned, made)?)
        }
        NodeEvent::Stop => Ok(told_twice(alloc, spare, node.stop(alloc))),
        NodeEvent::Start => Ok(told_twice(alloc, spare, node.start(alloc))),
        NodeEvent::Arrive { .. } => unreachable!(),
        NodeEvent::Local => unreachable!(),
        NodeEvent::Sweep => unreachable!(),
    }
}

impl History {
    /// Applies a request of a caller: a command, a dial, a loss, a stop or a start. Appends its entry, whose
    /// stamp is above the last one and above `above`. Returns the place of the entry, and a copy of its
    /// answer. `is_known` tells of a dial: true if there is a node of the peer's name. (ERTS User's Guide,
    /// Distribution Protocol; Reference Manual, Processes.)
    ///
    /// # Errors
    /// [`Refusal::IdsUsedUp`] where no higher stamp is left, and then [`Refusal::OutOfMemory`], also
    /// where there is none for the answer that is told. Then nothing has changed.
    pub fn act(
        &mut self,
        alloc: Global,
        is_known: bool,
        event: NodeEvent,
        above: u64,
    ) -> Result<Told, Refusal>
        requires { is_act event ≡ true }
        ensures tries { (names : List Name) → Knows names event is_known →
            Tries (at_node names (model_of self.old.node) (met event None)) event above self.old self.new (placed result) }
        ensures told { IfOk result (IsTold self.new.entries.items) }
    {
        let stamp = self.next_stamp(above)?;
        let Twice { answer, copy } = match act_twice(alloc, &mut self.node, is_known, &event) {
            Ok(both) => both,
            Err(e) => {
                drop(event);
                return Err(e);
            }
        };
        match self.write(stamp, event, answer) {
            Ok(place) => Ok(Told {
                place,
                answer: copy,
            }),
            Err(e) => {
                drop(copy);
                Err(e)
            }
        }
    }
}
