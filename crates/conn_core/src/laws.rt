//! Laws of sides. Each function does nothing: its contract is the law.
ghost use Rattle.std.specs.Prelude.{◌≡◌, ◌<◌, ◌^◌, true, ℕ, List, Option};
ghost use Rattle.readers.specs.Reading.{AreBytes};
ghost use Rattle.erl_names.specs.declared.trunk.TrunkId.{TrunkId};
ghost use Rattle.erl_handshake.specs.Roles.{introduction_of};
ghost use Rattle.erl_handshake.specs.declared.identity.Identity.{Identity};
ghost use Rattle.erl_handshake.specs.declared.introduction.Introduction.{Introduction};
ghost use Rattle.conn_core.specs.declared.arrival.Arrival.{Arrival};
ghost use Rattle.conn_core.specs.declared.side.Side.{Side};
ghost use Rattle.conn_core.specs.declared.standing.Standing.TheVariants.{Up};
ghost use Rattle.conn_core.specs.Side.{state_of, listens};
ghost use Rattle.conn_core.specs.Arrivals.{ArrivalDue};
ghost use Rattle.conn_core.specs.Meeting.{CanConnect, Meeting};
ghost use Rattle.conn_core.specs.Happenings.{Happening, after, dialed, unheard, IsAcknowledged, IsReplied};

/// Of any bytes at a side that takes anything, exactly one thing becomes: more are needed, or what
/// they were, and how the side stands after them.
pub fn one_arrival()
    ensures { (own : Identity) (side : Side) (bytes : List ℕ) (word : ℕ) → AreBytes bytes → listens (state_of side.standing) ≡ true →
        (due : Option Arrival) × ArrivalDue own side bytes word due × ((other : Option Arrival) → ArrivalDue own side bytes word other → other ≡ due) }
{
    erl_handshake::one_answer();
    erl_control::one_answer();
}

/// Whatever happens to a side, in whatever order, it is up only after its peer has shown that it
/// knows the cookie: by the digest of the side's own cookie and its own challenge.
pub fn up_only_by_digest()
    ensures dialer { (own : Identity) (trunk : TrunkId) (peer : List ℕ) (challenge : ℕ) (introduction : Introduction) (happenings : List Happening) →
        (after own happenings (dialed trunk peer challenge)).standing ≡ Up introduction → IsAcknowledged own challenge happenings }
    ensures acceptor { (own : Identity) (trunk : TrunkId) (introduction : Introduction) (happenings : List Happening) →
        (after own happenings (unheard trunk)).standing ≡ Up introduction → IsReplied own trunk.dialer happenings }
{}

/// Two nodes that share a cookie and have nothing else between them connect: where each side takes
/// the bytes that the other sends, both are up at the end. Each then knows the other's incarnation and
/// flags. By [`one_arrival`] nothing else becomes of those bytes.
pub fn two_sides_come_up()
    ensures { (dialing accepting : Identity) (count challenge word : ℕ) → CanConnect dialing → CanConnect accepting → dialing.cookie ≡ accepting.cookie → challenge < 2 ^ 32 → word < 2 ^ 32 →
        Meeting dialing accepting count challenge word (Up (introduction_of accepting)) (Up (introduction_of dialing)) }
{
    erl_handshake::written_is_shake();
    erl_handshake::read_again();
    erl_handshake::digests();
    erl_handshake::right_peers_pass();
}
