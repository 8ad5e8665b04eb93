//! Laws of the definitions.
ghost use Rattle.std.specs.Prelude.{◌≡◌, ◌≢◌, ◌↔◌, List, [], ◌∷◌, ◌++◌};
ghost use Rattle.std.specs.FinMap as map;
ghost use Rattle.std.specs.List.{list_any};
ghost use Rattle.erl_term.specs.Data.{Data};
ghost use Rattle.erl_term.specs.declared.term.Pid.{Pid};
ghost use Rattle.link_core.specs.declared.end.End.{End};
ghost use Rattle.link_core.specs.declared.end.End.TheVariants as End;
ghost use Rattle.link_core.specs.Ends.{EndMap, end_of, with_end};
ghost use Rattle.link_core.specs.News.{Exited, noproc};
ghost use Rattle.link_core.specs.Pair.{Event, Here, There, Takes, Pair, ends_here, ends_there, happens, run, start};
ghost use Rattle.link_core.specs.Claims.{Agree, PendingTravels, LinkTravels, NoLink, ExitOfEnded, IsAtRest};
ghost use Rattle.link_core.specs.Schedules as schedule;

/// A new end at one partner is that partner's end, and all others stay.
pub fn end_by_partner()
    ensures none { (partner : Pid) → end_of map.empty partner ≡ End.None }
    ensures this { (ends : EndMap) (partner : Pid) (end : End) → end_of (with_end ends partner end) partner ≡ end }
    ensures others { (ends : EndMap) (partner : Pid) (end : End) (other : Pid) → other ≢ partner →
        end_of (with_end ends partner end) other ≡ end_of ends other }
{}

/// Whatever two processes do, also where one of them ends, and whenever what they tell each other
/// comes: a process has ended exactly where an event has ended it; where neither has ended the two
/// ends agree once all has come; a pending end has its answer to come; a process that is to be linked
/// to one that has ended has a LINK on its way, which EXIT will answer; one that has ended has no
/// link, and only from such a one EXIT travels; and at rest both are linked or neither is. (ERTS
/// User's Guide, Distribution Protocol, New Link Protocol; Reference Manual, Processes, Links.)
pub fn two_processes()
    ensures gone_here { (events : List Event) → (run events start).here.gone ≡ list_any ends_here events }
    ensures gone_there { (events : List Event) → (run events start).there.gone ≡ list_any ends_there events }
    ensures agreement { (events : List Event) → let w = run events start in Agree w.here w.there }
    ensures pending_here { (events : List Event) → let w = run events start in PendingTravels w.here w.there }
    ensures pending_there { (events : List Event) → let w = run events start in PendingTravels w.there w.here }
    ensures link_here { (events : List Event) → let w = run events start in LinkTravels w.here w.there }
    ensures link_there { (events : List Event) → let w = run events start in LinkTravels w.there w.here }
    ensures ended_here { (events : List Event) → let w = run events start in NoLink w.here }
    ensures ended_there { (events : List Event) → let w = run events start in NoLink w.there }
    ensures exit_here { (events : List Event) → let w = run events start in ExitOfEnded w.here }
    ensures exit_there { (events : List Event) → let w = run events start in ExitOfEnded w.there }
    ensures rest { (events : List Event) → let w = run events start in
        IsAtRest w → ((w.here.end ≡ End.Active) ↔ (w.there.end ≡ End.Active)) }
{}

/// A run goes on by one event.
pub fn run_goes_on()
    ensures { (events : List Event) (event : Event) (w : Pair) →
        run (events ++ event ∷ []) w ≡ happens (run events w) event }
{}

/// Two processes become linked.
pub fn link_comes_about()
    ensures here { (run schedule.made_link start).here.end ≡ End.Active }
    ensures there { (run schedule.made_link start).there.end ≡ End.Active }
    ensures rest { IsAtRest (run schedule.made_link start) }
{}

/// An old acknowledgement doesn't end the wait for a newer one.
pub fn old_acknowledgement()
    ensures here { (run schedule.old_acknowledgement start).here.end ≡ End.None }
    ensures there { (run schedule.old_acknowledgement start).there.end ≡ End.None }
    ensures rest { IsAtRest (run schedule.old_acknowledgement start) }
{}

/// A link that is made again while the partner takes it back is taken back at both ends.
pub fn crossed_unlinks()
    ensures here { (run schedule.crossed_unlinks start).here.end ≡ End.None }
    ensures there { (run schedule.crossed_unlinks start).there.end ≡ End.None }
    ensures rest { IsAtRest (run schedule.crossed_unlinks start) }
{}

/// A process that ends tells its partner why, and there the link is gone.
pub fn ended_partner()
    ensures told { (reason : Data) → (run (schedule.ended_partner reason) start).here.sent ≡ Exited reason ∷ [] }
    ensures there { (reason : Data) → (run (schedule.ended_partner reason ++ There Takes ∷ []) start).there.end ≡ End.None }
    ensures rest { (reason : Data) → IsAtRest (run (schedule.ended_partner reason ++ There Takes ∷ []) start) }
{}

/// A link to a process that has ended is answered by EXIT with noproc, and is gone then.
pub fn late_link()
    ensures told { (reason : Data) → (run (schedule.late_link reason) start).there.sent ≡ Exited noproc ∷ [] }
    ensures here { (reason : Data) → (run (schedule.late_link reason ++ Here Takes ∷ []) start).here.end ≡ End.None }
    ensures rest { (reason : Data) → IsAtRest (run (schedule.late_link reason ++ Here Takes ∷ []) start) }
{}
