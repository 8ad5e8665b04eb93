//! The things that a command makes and that a name may be bound to.
ghost use Rattle.std.specs.Prelude.{◌≡◌, List};
ghost use Rattle.dist_model.specs.Items.{Item};
ghost use Rattle.dist_model.specs.World.{Report as TheReport, Reported};
ghost use Rattle.dist_model.specs.declared.report.Effect.{Effect};
ghost use Rattle.script_session.specs.Stage.{made_by};
ghost use Rattle.node_core.specs.Told.{Tells};

use dist_model::{Answer, Report};
use script_terms::Named;
use world_core::Answered;

/// The thing that a command makes and that a name may be bound to.
#[derive(Debug, Drop)]
pub enum Made {
    /// Nothing.
    Nothing,
    /// A process, or a monitor.
    One(Named),
    /// The two processes of a pair.
    Pair,
}

// Returns the thing that an event with this answer has made.
fn made_of(answer: Answer) -> Made
    ensures { (effects : List (Effect Item)) → result ≡ made_by (Reported answer effects) }
{
    match answer {
        Answer::Pid(process) => Made::One(Named::Process(process)),
        Answer::Reference(reference) => Made::One(Named::Monitor(reference)),
        _ => Made::Nothing,
    }
}

/// Returns the thing that an event has made.
pub(crate) fn made_by(came: Answered) -> Made
    ensures { (report : TheReport) → Tells came report → result ≡ made_by report }
{
    match came {
        Ok(Report { answer, effects }) => {
            drop(effects);
            made_of(answer)
        }
        Err(_) => Made::Nothing,
    }
}
