//! Laws of the abstract world. Each function has an empty body: its contract is the law.
//!
//! `Always` speaks of every world to which any list of events leads, from any opening world, with or
//! without memory. A run's beginning is a run, so `Always` covers each moment of every run.
//! `Throughout` adds the events and reports before that moment, and `ThroughoutTraced` their worlds
//! too. The other laws are about all worlds, or about the definitions themselves.
ghost use Rattle.std.specs.Prelude.{Bool, ◌≡◌, ◌↔◌, ℕ, List, [], ◌∷◌, ◌++◌, length, true, false, Some, None};
ghost use Rattle.std.specs.FinMap as fm;
ghost use Rattle.erl_term.specs.declared.term.Pid.{Pid};
ghost use Rattle.erl_term.specs.declared.term.Reference.{Reference};
ghost use Rattle.exit_core.specs.Messages.{down_term};
ghost use Rattle.dist_model.specs.Telling.{object};
ghost use Rattle.monitor_core.specs.declared.monitor.Target.{Target};
ghost use Rattle.dist_model.specs.Downs.{Down, down_in, downs};
ghost use Rattle.erl_term.specs.Data.{Data};
ghost use Rattle.erl_term.specs.declared.refusal.Refusal.{Refusal};
ghost use Rattle.erl_control.specs.Control.{Fits};
ghost use Rattle.erl_control.specs.declared.signal.Signal.{Signal};
ghost use Rattle.erl_control.specs.Fits.{fits};
ghost use Rattle.dist_model.specs.Items.{Signalled, telling, news_in, Item};
ghost use Rattle.link_core.specs.News.{LinkNews, noproc};
ghost use Rattle.link_core.specs.declared.end.End.{End};
ghost use Rattle.link_core.specs.Table.{is_active, linked, unlinked};
ghost use Rattle.dist_model.specs.Commands.{Accepts, Accepts, Refuses};
ghost use Rattle.dist_model.specs.declared.report.Answer.{Answer};
ghost use Rattle.dist_model.specs.declared.report.Kind.{Kind};
ghost use Rattle.dist_model.specs.Linking.{link_by, unlink_by};
ghost use Rattle.dist_model.specs.Tabled.{links_by_table, unlinks_by_table};
ghost use Rattle.erl_names.specs.Draw as draw;
ghost use Rattle.erl_names.specs.Minted.{id_of};
ghost use Rattle.dist_model.specs.World.{World, Event, Report, Refused, Reported, Arrive, Local, step};
ghost use Rattle.dist_model.specs.Quiet.{Quiet, is_quiet};
ghost use Rattle.dist_model.specs.Runs.{Goes, Runs, run, Always, opening, new_node};
ghost use Rattle.erl_handshake.specs.declared.setup.Setup.{Setup};
ghost use Rattle.erl_names.specs.declared.trunk.TrunkId.{TrunkId};
ghost use Rattle.dist_model.specs.Names.{Name, same_pid};
ghost use Rattle.dist_model.specs.Node.{Node, end_of, reaches};
ghost use Rattle.dist_model.specs.Sides.{is_gone, is_parked, TrunkSide, is_over};
ghost use Rattle.dist_model.specs.Work.{at_work, Work};
ghost use Rattle.dist_model.specs.Seen.{end_between, AreConnected, HasSide};
ghost use Rattle.dist_model.specs.NodeEvents as event;
ghost use Rattle.dist_model.specs.NodeEvents.{at_node};
ghost use Rattle.dist_model.specs.Commands.{Accepts};
ghost use Rattle.dist_model.specs.declared.report.Answer.{Answer};
ghost use Rattle.dist_model.specs.Keeping.{Bearings, ComesOfOthers, CountsOwn, IsAccepted, Steady, Towards};
ghost use Rattle.dist_model.specs.Work.{Work, at_work};
ghost use Rattle.dist_model.specs.Seen.{end_between, AreConnected};
ghost use Rattle.dist_model.specs.Schedules as schedule;
ghost use Rattle.dist_model.specs.Claims.{Agreement, AgreementWithin, AgreementInQuiet, PendingOnItsWay, PendingWithin, NoLinkToTheDead, NoLinkToItself, LinkNeedsConnection, LivingMeans, NamesAreOfTheLiving, SpawnedLivesOrEnded, DownHoldsNothing, OneTrunk, NoUpBesideLosing, IntroductionsAreTold, IntroductionsAreKnown, ConnectedKnow, PayloadIsAgreed, NoneOfTheFuture, KnownForGood, EventIsLocal, KeepsOrder, KeepsOwnOrder, EverySignalFits, EverySignalFitsWithin};
ghost use Rattle.dist_model.specs.Histories.{Throughout, told, history};
ghost use Rattle.dist_model.specs.Causes.{Reacts};
ghost use Rattle.dist_model.specs.Fates.{ReactsRightly, DownsRightly, ReactsForTrueCause, ExitsTellTrueCause, ExitsTellTrueCauseWithin, AnsweredOnce, DownOnce, DownToTheOwner, NoDownWhereDemonitored, DownsTellTrueCause, DownOrRegistered};
ghost use Rattle.dist_model.specs.Due.{DueFirst};
ghost use Rattle.dist_model.specs.Cookies.{ChallengesAreDrawn, ConnectedByCookie, OneChallenge, StrangersStayApart};
ghost use Rattle.dist_model.specs.Traces.{MonitorsAreTakenAsCalled, MonitorsComeOnce, MonitorsKnowTheirNode, MonitorsKnowTheirOwnNode, ThroughoutTraced, traced};
ghost use Rattle.dist_model.specs.Safety.{Safe};

/// Proves agreement: two living processes both hold their link active, or neither does, once
/// everything in flight between them has been delivered. The clauses cover connected nodes
/// (`connected`), one node (`within`), and any two processes between which nothing is in flight
/// (`quiet`). (Reference Manual, Processes, Links; ERTS User's Guide, Distribution Protocol, New
/// Link Protocol.)
pub fn agreement()
    ensures connected { Always Agreement }
    ensures within { Always AgreementWithin }
    ensures quiet { Always AgreementInQuiet }
{}

/// Proves the state of a pending end: its UNLINK_ID is the last LINK or UNLINK_ID in flight to the
/// partner, or the acknowledgement is in flight back. (ERTS User's Guide, Distribution Protocol,
/// New Link Protocol.)
pub fn pending()
    ensures connected { Always PendingOnItsWay }
    ensures within { Always PendingWithin }
{}

/// Proves that no living process holds a link to a dead one while nothing is in flight between
/// them, and that no process is ever linked to itself. (Reference Manual, Processes, Links.)
pub fn no_link_to_the_dead()
    ensures quiet { Always NoLinkToTheDead }
    ensures itself { Always NoLinkToItself }
{}

/// Proves that each link end, pending ones included, belongs to a living process. Its partner is on
/// the same node, or on a node with a connection that is up or not yet swept. (Reference Manual,
/// Processes, Links; Distributed Erlang.)
pub fn links_need_a_connection()
    ensures connected { Always LinkNeedsConnection }
{}

/// Proves the bookkeeping of processes. A living process was spawned by the running incarnation of
/// a node that is up. Each process that this incarnation spawned is alive, or the node keeps its
/// exit reason. A node that is down keeps no processes, links or monitors. (Reference Manual,
/// Processes, Process Creation and Termination; ERTS User's Guide, External Term Format,
/// NEW_PID_EXT.)
pub fn living_means()
    ensures living { Always LivingMeans }
    ensures spawned { Always SpawnedLivesOrEnded }
    ensures down { Always DownHoldsNothing }
{}

/// Proves that two nodes are connected by at most one trunk, and by none while records of a lost
/// connection between them remain. (ERTS User's Guide, Distribution Protocol, Distribution
/// Handshake.)
pub fn one_trunk()
    ensures one { Always OneTrunk }
    ensures swept { Always NoUpBesideLosing }
{}

/// Proves that a connected peer knows the cookie. Take a node whose side is up, or lost and not yet
/// swept. It drew a challenge for this trunk and sent it to the peer. After that the peer sent the
/// digest of the node's cookie over this challenge, which equals the digest of the peer's own
/// cookie. A node draws at most one challenge for a trunk, and sends only challenges that it drew.
/// Nodes whose digests differ for every challenge are never connected. (ERTS User's Guide,
/// Distribution Protocol, Distribution Handshake.)
pub fn connected_by_cookie()
    ensures shown { Throughout ConnectedByCookie }
    ensures drawn { Throughout ChallengesAreDrawn }
    ensures one { Throughout OneChallenge }
    ensures apart { Always StrangersStayApart }
{}

/// Proves that the first item in flight to a side is due there: signals and ticks at a side that is
/// up, handshake messages for its role at one that is not up yet. (ERTS User's Guide, Distribution
/// Protocol, Distribution Handshake.)
pub fn due_first()
    ensures first { Always DueFirst }
{}

/// Proves that a side knows its peer's creation and flags. While a node's side is not gone, each
/// creation that it told on the trunk, in flight or received, is that of its running incarnation,
/// and each flag word its own. Connected nodes therefore know each other's creation and flags, and
/// accept no signal from a process of a later incarnation. The known introduction stays right while
/// the peer's side is not gone, in any later world too. (ERTS User's Guide, Distribution Protocol, Distribution Handshake.)
pub fn peers_are_known()
    ensures told { Always IntroductionsAreTold }
    ensures known { Always IntroductionsAreKnown }
    ensures connected { Always ConnectedKnow }
    ensures payload { Always PayloadIsAgreed }
    ensures future { Always NoneOfTheFuture }
    ensures lasting { Always KnownForGood }
{}

/// Proves that a MONITOR_P, of a pid or of a name, reaches the incarnation that its caller's node
/// knew. Take a MONITOR_P in flight to a node whose side is not gone. When its owner called for the
/// monitor, the owner's node knew the target's node by the creation and flags that it still has.
/// The same holds within one node, and for each MONITOR_P at the moment of its delivery. At most
/// one MONITOR_P of a reference is ever delivered. (ERTS User's Guide, Distribution Protocol,
/// Distribution Handshake; Reference Manual, Processes, Monitors.)
pub fn monitors_know_their_node()
    ensures travelling { ThroughoutTraced MonitorsKnowTheirNode }
    ensures within { ThroughoutTraced MonitorsKnowTheirOwnNode }
    ensures taken { ThroughoutTraced MonitorsAreTakenAsCalled }
    ensures once { ThroughoutTraced MonitorsComeOnce }
{}

/// Proves that each signal in flight, on a trunk or within a node, is one that erl_control can
/// frame: its message or reason fits, and its id is 1 to 2^64 - 1. (ERTS User's Guide, Distribution
/// Protocol, Protocol between Connected Nodes; New Link Protocol.)
pub fn travelling_signals_fit()
    ensures travelling { Always EverySignalFits }
    ensures within { Always EverySignalFitsWithin }
{}

/// Proves that a process reacts to the exit of a link only if it held that link active, or if it
/// links in this very event to a node that is not reachable. The reason that it sees is true: the
/// partner ended with it, no such process exists, or no connection exists. Each EXIT in flight
/// carries such a reason. (Reference Manual, Processes, Links and Receiving Exit Signals.)
pub fn reactions()
    ensures cause { Throughout ReactsForTrueCause }
    ensures travelling { Throughout ExitsTellTrueCause }
    ensures within { Throughout ExitsTellTrueCauseWithin }
{}

/// Proves the promises of monitors. A reference answers at most one Monitor call. At most one DOWN
/// carries it: to the process that made the call, for the incarnation that the call named, with a
/// true reason. A monitor of a name tells of the process that had the name as MONITOR_P came,
/// whoever has it later, or `noproc` where none had it, or `noconnection`. No DOWN comes once
/// Demonitor succeeded. Otherwise, while nothing is in flight between a living owner and its target
/// process, the DOWN was delivered, or the target is alive and registered. (Reference Manual,
/// Processes, Monitors.)
pub fn monitors()
    ensures answered { Throughout AnsweredOnce }
    ensures once { Throughout DownOnce }
    ensures owner { Throughout DownToTheOwner }
    ensures demonitored { Throughout NoDownWhereDemonitored }
    ensures cause { ThroughoutTraced DownsTellTrueCause }
    ensures quiet { Throughout DownOrRegistered }
{}

/// Proves the safety of every run, `Safe`: agreement, pending, no link to the dead, reactions,
/// monitors, one trunk, the cookie, and creations. It holds at each moment of whatever happens,
/// from any opening world, with or without memory.
pub fn every_run_is_safe()
    ensures safe { ThroughoutTraced Safe }
{}

/// Proves each report of a run right. The events before it lead to a world. Each exit of a link or
/// DOWN in the report has a true cause in that world and its history. A report of `OutOfMemory` has
/// none. (Reference Manual, Processes, Links and Monitors.)
pub fn every_report_is_safe()
    ensures told { (nodes : List (Name × Setup)) (before behind : List Event) (event : Event)
        (earlier later : List Report) (report : Report) (world : World) →
        length before ≡ length earlier → Runs (opening nodes) (before ++ event ∷ behind) (earlier ++ report ∷ later) world →
        (now : World) × Runs (opening nodes) before earlier now ×
        ReactsRightly (told before earlier []) now event report ×
        DownsRightly (traced (opening nodes) before earlier []) now event report }
{}

/// Proves that `is_quiet` decides `Quiet`.
pub fn quiet_test()
    ensures test { (world : World) (p q : Pid) → (is_quiet world p q ≡ true) ↔ Quiet world p q }
{}

/// Proves that every list of events runs: with ample memory it leads to the world of its steps.
pub fn events_run()
    ensures runs { (events : List Event) (world : World) → (reports : List Report) × Runs world events reports (run events world) }
{}

/// Proves that Link and Unlink follow link_core's table, for any end: the end becomes the table's,
/// and the signal sent is the table's. Unlink of an end that is not active sends nothing and draws
/// no id. (ERTS User's Guide, Distribution Protocol, New Link Protocol.)
pub fn calls_follow_the_table()
    ensures link { (node : Node) (p q : Pid) → reaches node q.node ≡ true →
        link_by (end_of node p q) p q (at_work node) ≡ links_by_table (end_of node p q) p q (at_work node) }
    ensures linked { (node : Node) (p q : Pid) →
        end_of ((links_by_table (end_of node p q) p q (at_work node)).node) p q ≡ linked (end_of node p q) }
    ensures unlink { (node : Node) (p q : Pid) (id : ℕ) → id_of node.mint draw.UnlinkId ≡ Some id →
        unlink_by (end_of node p q) p q (at_work node) ≡ Accepts Answer.Done (unlinks_by_table (end_of node p q) id p q (at_work node)) }
    ensures unlinked { (node : Node) (p q : Pid) (id : ℕ) →
        end_of ((unlinks_by_table (end_of node p q) id p q (at_work node)).node) p q ≡ unlinked (end_of node p q) id }
    ensures used_up { (node : Node) (p q : Pid) → end_of node p q ≡ End.Active → id_of node.mint draw.UnlinkId ≡ None →
        unlink_by (end_of node p q) p q (at_work node) ≡ Refuses Refusal.IdsUsedUp }
    ensures inactive { (node : Node) (p q : Pid) → is_active (end_of node p q) ≡ false →
        unlink_by (end_of node p q) p q (at_work node) ≡ Accepts Answer.Done (at_work node) }
{}

/// Proves that an event changes only its own node. The new node depends on the old one, the names,
/// and the first item in flight. (own)
pub fn event_is_local()
    ensures local { (world : World) → EventIsLocal world }
{}

/// Proves that items to a node keep their order, on a trunk and from itself. (Reference Manual,
/// Processes, Delivery of Signals.)
pub fn order_is_kept()
    ensures kept { (world : World) → KeepsOrder world }
    ensures own { (world : World) → KeepsOwnOrder world }
{}

/// Proves that a refused event changes nothing.
pub fn refused_changes_nothing()
    ensures unchanged { (world new : World) (event : Event) (refusal : Refusal) → Goes world event (Refused refusal) new → new ≡ world }
{}

/// Shows a link: two nodes of one cookie connect, a process of each holds the link active, and then
/// nothing is in flight between them.
pub fn link_comes_about()
    ensures here { (cookie : List ℕ) (own other : ℕ) → let w = run (schedule.linked_over_a_trunk own other) (schedule.two_nodes cookie) in
        end_between w schedule.here schedule.there ≡ End.Active }
    ensures there { (cookie : List ℕ) (own other : ℕ) → let w = run (schedule.linked_over_a_trunk own other) (schedule.two_nodes cookie) in
        end_between w schedule.there schedule.here ≡ End.Active }
    ensures quiet { (cookie : List ℕ) (own other : ℕ) → let w = run (schedule.linked_over_a_trunk own other) (schedule.two_nodes cookie) in
        Quiet w schedule.here schedule.there }
{}

/// Shows an unlink: one of the two takes the link back, and neither holds it.
pub fn link_is_taken_back()
    ensures here { (cookie : List ℕ) (own other : ℕ) → let w = run (schedule.unlinked_over_a_trunk own other) (schedule.two_nodes cookie) in
        end_between w schedule.here schedule.there ≡ End.None }
    ensures there { (cookie : List ℕ) (own other : ℕ) → let w = run (schedule.unlinked_over_a_trunk own other) (schedule.two_nodes cookie) in
        end_between w schedule.there schedule.here ≡ End.None }
{}

/// Shows a new connection: the old one is lost and swept together with its link, and another comes
/// up with nothing in flight between the two processes.
pub fn connection_comes_again()
    ensures connected { (cookie : List ℕ) (own other : ℕ) → let w = run (schedule.connected_again own other) (schedule.two_nodes cookie) in
        AreConnected w schedule.first (schedule.trunk 2) schedule.second }
    ensures here { (cookie : List ℕ) (own other : ℕ) → let w = run (schedule.connected_again own other) (schedule.two_nodes cookie) in
        end_between w schedule.here schedule.there ≡ End.None }
    ensures there { (cookie : List ℕ) (own other : ℕ) → let w = run (schedule.connected_again own other) (schedule.two_nodes cookie) in
        end_between w schedule.there schedule.here ≡ End.None }
    ensures quiet { (cookie : List ℕ) (own other : ℕ) → let w = run (schedule.connected_again own other) (schedule.two_nodes cookie) in
        Quiet w schedule.here schedule.there }
{}

/// Shows an exit signal: one of two linked processes ends with any reason, and the other reacts
/// with that reason.
pub fn exit_comes()
    ensures reacts { (cookie : List ℕ) (own other : ℕ) (reason : Data) → fits reason ≡ true →
        let w = run (schedule.linked_to_the_end own other reason) (schedule.two_nodes cookie) in
        Reacts schedule.here schedule.there reason ((step w (Arrive (schedule.trunk 1) schedule.first 0)).report) }
{}

/// Shows a monitor: a process monitors one of another node, which ends with any reason. One DOWN
/// with that reason is delivered.
pub fn monitor_tells()
    ensures down { (cookie : List ℕ) (own other : ℕ) (reason : Data) → fits reason ≡ true →
        downs schedule.reference (history (schedule.monitored_to_the_end own other reason) (schedule.two_nodes cookie)) ≡
        (record { owner = schedule.here; target = Target.Pid schedule.there; info = reason }) ∷ [] }
{}

/// Shows a restart: a node stops, starts, spawns a process, and is dialed again. A monitor of the
/// process with the same id in the earlier incarnation gives one DOWN with noproc.
pub fn restart_tells()
    ensures down { (cookie : List ℕ) (own other : ℕ) →
        downs schedule.reference (history (schedule.monitored_after_a_restart own other) (schedule.two_nodes cookie)) ≡
        (record { owner = schedule.here; target = Target.Pid schedule.there; info = noproc }) ∷ [] }
{}

/// Shows a late EXIT: a process takes its link back, and its partner ends before it hears of it.
/// The partner's EXIT is delivered and ignored.
pub fn late_exit()
    ensures waiting { (cookie : List ℕ) (reason : Data) → fits reason ≡ true →
        let w = run (schedule.unlinked_before_the_end reason) (schedule.two_nodes cookie) in
        end_between w schedule.here schedule.beside ≡ End.Pending 1 }
    ensures ignored { (cookie : List ℕ) (reason : Data) → fits reason ≡ true →
        let w = run (schedule.unlinked_before_the_end reason) (schedule.two_nodes cookie) in
        (step w (Local schedule.first)).report ≡ Reported (Answer.Took Kind.Exit) [] }
{}

/// Shows a link to a process of the same node that has ended: the caller reacts to an exit with
/// noproc.
pub fn dead_partner()
    ensures reacts { (cookie : List ℕ) (reason : Data) → fits reason ≡ true →
        let w = run (schedule.linked_to_the_dead reason) (schedule.two_nodes cookie) in
        Reacts schedule.here schedule.beside noproc ((step w (Local schedule.first)).report) }
{}

/// Shows a late MONITOR_P_EXIT: a process ends, and its monitor is taken back before the news is
/// delivered. No DOWN is put.
pub fn late_down()
    ensures none { (cookie : List ℕ) (reason : Data) → fits reason ≡ true →
        let w = run (schedule.demonitored_after_the_end reason) (schedule.two_nodes cookie) in
        (step w (Local schedule.first)).report ≡
        Reported (Answer.Took Kind.MonitorExit) [] }
{}

/// Shows a name that is passed on: a process gives up the name by which it is monitored, another
/// registers and ends, and then the former ends. One DOWN is put, with the reason of the former.
/// (Reference Manual, Processes, Monitors and Registered Processes.)
pub fn name_is_passed_on()
    ensures tells { (cookie : List ℕ) (reason other : Data) → fits reason ≡ true → fits other ≡ true →
        downs schedule.reference (history (schedule.name_passed_on reason other ++ Local schedule.first ∷ []) (schedule.two_nodes cookie)) ≡
        (record { owner = schedule.here; target = Target.Name schedule.service schedule.first; info = reason }) ∷ [] }
{}

/// Shows two crossing dials: the attempt of the node with the greater name comes up, and the other
/// is gone at both nodes.
pub fn dials_cross()
    ensures connected { (cookie : List ℕ) (own other word : ℕ) →
        let w = run (schedule.crossing own other word) (schedule.two_nodes cookie) in
        AreConnected w schedule.first (schedule.other_trunk 1) schedule.second }
    ensures here { (cookie : List ℕ) (own other word : ℕ) → let w = run (schedule.crossing own other word) (schedule.two_nodes cookie) in
        HasSide w schedule.first (schedule.trunk 1) schedule.second is_gone }
    ensures there { (cookie : List ℕ) (own other word : ℕ) → let w = run (schedule.crossing own other word) (schedule.two_nodes cookie) in
        HasSide w schedule.second (schedule.trunk 1) schedule.first is_gone }
{}

/// Shows a waiting dial: a node that alone noticed a loss dials again. The peer's side waits while
/// it still holds the old connection's link. Once that is swept, the connection comes up.
pub fn dial_waits()
    ensures parked { (cookie : List ℕ) (own other : ℕ) →
        let w = run (schedule.waiting_over_a_trunk own other) (schedule.two_nodes cookie) in
        HasSide w schedule.second (schedule.trunk 2) schedule.first is_parked }
    ensures held { (cookie : List ℕ) (own other : ℕ) → let w = run (schedule.waiting_over_a_trunk own other) (schedule.two_nodes cookie) in
        end_between w schedule.there schedule.here ≡ End.Active }
    ensures connected { (cookie : List ℕ) (own other : ℕ) →
        let w = run (schedule.gone_on_over_a_trunk own other) (schedule.two_nodes cookie) in
        AreConnected w schedule.first (schedule.trunk 2) schedule.second }
{}

/// Proves that a DOWN message yields its owner, target and reason, and that only such a message
/// does. (Reference Manual, Processes, Monitors.)
pub fn downs_are_told()
    ensures told { (r : Reference) (owner : Pid) (target : Target) (info : Data) →
        down_in r owner (down_term r (object target) info) ≡ (record { owner = owner; target = target; info = info }) ∷ [] }
    ensures read { (r : Reference) (owner : Pid) (message : Data) (down : Down) (more : List Down) → down_in r owner message ≡ down ∷ more →
        (down.owner ≡ owner) × (message ≡ down_term r (object down.target) down.info) }
{}

/// Proves that a beginning of a run is a run: between any two of its events lies a world, to which
/// the earlier events lead, and from which the later events start.
pub fn moments()
    ensures between { (before behind : List Event) (reports : List Report) (world new : World) → Runs world (before ++ behind) reports new →
        (earlier : List Report) × (later : List Report) × (now : World) × (reports ≡ earlier ++ later) × Runs world before earlier now × Runs now behind later new }
{}

/// Proves that a signal between two processes tells their link news, and that a signal between
/// others tells none.
pub fn news_is_told()
    ensures told { (p q : Pid) (told : LinkNews) (payload : Bool) → news_in p q (Signalled (telling p q told) payload) ≡ told ∷ [] }
    ensures others { (p q from to : Pid) (told : LinkNews) (payload : Bool) → ((from ≡ p) × (to ≡ q) → ⊥) → news_in p q (Signalled (telling from to told) payload) ≡ [] }
{}

/// Proves that a node keeps its name, its sides and their peers at every event, unless it dials on
/// a trunk that it already has a side of. It sends on a trunk only to the peer of that trunk's
/// side. A new side is one on which an item arrives, towards the trunk's dialer, or one that the
/// node dials, towards another node. (ERTS User's Guide, Distribution Protocol, Distribution
/// Handshake.)
pub fn node_keeps_its_bearings()
    ensures kept { (names : List Name) (node : Node) (now : event.NodeEvent) (answer : Answer) (work : Work) →
        at_node names node now ≡ Accepts answer work → Bearings node now work }
{}

/// Proves that a node that is up never refuses an item that arrives at a side that is not over: it
/// takes the item, or the side breaks.
pub fn arrival_is_taken()
    ensures taken { (names : List Name) (node : Node) (trunk : TrunkId) (side : TrunkSide) (item : Item) (word : ℕ) →
        node.up ≡ true → fm.get node.sides trunk ≡ Some side → is_over side.state ≡ false →
        IsAccepted (at_node names node (event.Arrive trunk (Some item) word)) }
{}

/// Proves that each registered name is of a living process of its node, and that no process has two
/// names. (Reference Manual, Processes, Registered Processes.)
pub fn names_are_of_the_living()
    ensures { Always NamesAreOfTheLiving }
{}

/// Proves that a new node is steady and that every event keeps it so. Of its sides towards one
/// peer, at most one dials, has accepted, is up or is losing, and at most one is an attempt that is
/// not up yet. Its links, its monitors and its names belong to living processes, and a process has at
/// most one name. (ERTS User's Guide, Distribution Protocol, Distribution Handshake; Reference Manual,
/// Processes, Registered Processes, Links and Monitors.)
pub fn nodes_stay_steady()
    ensures new { (name : Name) (setup : Setup) → Steady (new_node name setup) }
    ensures kept { (names : List Name) (node : Node) (now : event.NodeEvent) (answer : Answer) (work : Work) →
        Steady node → at_node names node now ≡ Accepts answer work → Steady work.node }
{}

/// Proves that the next trunk that a node dials is new to it, so all its sides keep their peers.
/// The premise is that the node dialed each trunk of its own that it has a side of. A new node
/// meets it. Every event keeps it, except an arrival on a trunk of the node's own that it has no
/// side of. (own)
pub fn own_trunks_are_counted()
    ensures new { (name : Name) (setup : Setup) → CountsOwn (new_node name setup) }
    ensures kept { (names : List Name) (node : Node) (now : event.NodeEvent) (answer : Answer) (work : Work) →
        CountsOwn node → ComesOfOthers node now → at_node names node now ≡ Accepts answer work → CountsOwn work.node }
    ensures stays { (names : List Name) (node : Node) (now : event.NodeEvent) (answer : Answer) (work : Work) →
        CountsOwn node → at_node names node now ≡ Accepts answer work →
        (trunk : TrunkId) (peer : Name) → Towards node trunk peer → Towards work.node trunk peer }
{}
