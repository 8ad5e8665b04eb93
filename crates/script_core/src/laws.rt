//! Laws of the definitions. Each function does nothing: its contract is the law.

ghost use Rattle.std.specs.Prelude.{◌≡◌, List, ℕ, []};
ghost use Rattle.dist_model.specs.Names.{Name};
ghost use Rattle.dist_model.specs.Runs.{Runs, opening};
ghost use Rattle.dist_model.specs.Safety.{Safe};
ghost use Rattle.dist_model.specs.Traces.{traced};
ghost use Rattle.dist_model.specs.World.{Event, Report};
ghost use Rattle.erl_handshake.specs.declared.setup.Setup.{Setup};
ghost use Rattle.run_traces.specs.declared.trace.Trace.{Trace};
ghost use Rattle.script_core.specs.Expected.{AreMet, FirstUnmet};
ghost use Rattle.script_core.specs.Script.{AtBadLine, Whole, lines_of, script};
ghost use Rattle.script_lines.specs.declared.reason.Reason.{Reason};
ghost use Rattle.script_session.specs.Session.{fresh_state};

use dist_model::every_run_is_safe;
use script_lines::words_are_never_unmet;
use script_session::events_lead_to_every_line;

/// Whatever the script, the world at its end is one to which some events lead from an opening world,
/// and the run that leads to it is safe: agreement, pending, no link to the dead, reactions, monitors
/// and one trunk. A beginning of a script is a script, so this holds after each of its lines.
pub fn every_script()
    ensures safe { (trace : Trace) (seed : ℕ) (input : List ℕ) → let world = (script trace seed input).state.stage.world in
        (nodes : List (Name × Setup)) × (events : List Event) × (reports : List Report) ×
        Runs (opening nodes) events reports world × Safe (traced (opening nodes) events reports []) world }
{
    every_run_is_safe();
    events_lead_to_every_line();
}

/// A script runs through only if each line that it expects was the last that was printed. It ends with
/// [`Unmet`](script_lines::Reason::Unmet) only at the first line whose words were not.
pub fn every_expectation()
    ensures whole { (trace : Trace) (seed : ℕ) (input : List ℕ) → (script trace seed input).verdict ≡ Whole →
        AreMet (fresh_state trace seed) (lines_of input) }
    ensures unmet { (trace : Trace) (seed : ℕ) (input : List ℕ) (number : ℕ) → (script trace seed input).verdict ≡ AtBadLine number Reason.Unmet →
        FirstUnmet (fresh_state trace seed) (lines_of input) number }
{
    words_are_never_unmet();
}
