//! Laws of the definitions. Each function does nothing: its contract is the law.
ghost use Rattle.std.specs.Prelude.{List, ℕ, IfOk};
ghost use Rattle.run_traces.specs.declared.trace.Trace.{Trace};
ghost use Rattle.script_session.specs.Session.{State, fresh_state, line_does};
ghost use Rattle.script_session.specs.Stands.{IsLed};

/// Has no effect. Its contract is a law: some events lead to the world after each line, if some led to the world before
/// it. No event leads to the world before the first line. So a property of every run holds after each line of every
/// script.
pub fn events_lead_to_every_line()
    ensures fresh { (trace : Trace) (word : ℕ) → IsLed (fresh_state trace word) }
    ensures line { (state : State) (line : List ℕ) → IsLed state → IfOk (line_does state line) (λ step. IsLed step.state) }
{}
