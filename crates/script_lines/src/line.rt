//! The meaning of a line, once its names are looked up.

use erl_handshake::Profile;
use erl_term::{Pid, Reference};

/// A connection, as a line names it: `DIALER/COUNT`.
#[derive(Clone, Copy, Debug, PartialEq, Eq)]
pub struct Connection<'a> {
    /// The name of the node that dialed.
    pub dialer: &'a str,
    /// The number of the connection among those that the node dialed.
    pub count: u64,
}

/// The meaning of a line. Words and terms are as they stand in the line. Nodes may be unknown. The text of
/// a TERM is a term, and that of an ATOM an atom.
#[derive(Clone, Copy, Debug)]
pub enum Line<'a> {
    /// `node NAME COOKIE [PROFILE]`
    Node {
        name: &'a str,
        cookie: &'a str,
        profile: Profile,
    },
    /// `pair`
    Pair,
    /// `spawn NODE name`, with a free name.
    Spawn {
        node: &'a str,
        name: &'a str,
    },
    /// `send from to TERM`
    Send {
        from: &'a Pid,
        to: &'a Pid,
        term: &'a str,
    },
    /// `link p q`
    Link {
        from: &'a Pid,
        to: &'a Pid,
    },
    /// `unlink p q`
    Unlink {
        from: &'a Pid,
        to: &'a Pid,
    },
    /// `monitor p q ref`, with a free name.
    Monitor {
        owner: &'a Pid,
        target: &'a Pid,
        name: &'a str,
    },
    /// `demonitor p ref`
    Demonitor {
        owner: &'a Pid,
        reference: &'a Reference,
    },
    /// `trap p on` and `trap p off`
    Trap {
        process: &'a Pid,
        on: bool,
    },
    /// `exit from to TERM`
    Exit {
        from: &'a Pid,
        to: &'a Pid,
        term: &'a str,
    },
    /// `die p TERM`
    Die {
        process: &'a Pid,
        term: &'a str,
    },
    /// `receive p`
    Receive {
        process: &'a Pid,
    },
    /// `links p`
    Links {
        process: &'a Pid,
    },
    /// `alive p`
    Alive {
        process: &'a Pid,
    },
    /// `monitors p`
    Monitors {
        process: &'a Pid,
    },
    /// `register p ATOM`
    Register {
        process: &'a Pid,
        name: &'a str,
    },
    /// `unregister p`
    Unregister {
        process: &'a Pid,
    },
    /// `whereis NODE ATOM`
    WhereIs {
        node: &'a str,
        name: &'a str,
    },
    /// `sendname from NODE ATOM TERM`
    SendName {
        from: &'a Pid,
        node: &'a str,
        name: &'a str,
        term: &'a str,
    },
    /// `monitorname p NODE ATOM ref`, with a free name.
    MonitorName {
        owner: &'a Pid,
        node: &'a str,
        atom: &'a str,
        name: &'a str,
    },
    /// `ends p q`
    Ends {
        first: &'a Pid,
        second: &'a Pid,
    },
    /// `dial NODE PEER`
    Dial {
        node: &'a str,
        peer: &'a str,
    },
    /// `route NODE PEER`
    Route {
        node: &'a str,
        peer: &'a str,
    },
    /// `travels NODE PEER`
    Travels {
        node: &'a str,
        peer: &'a str,
    },
    /// `why NODE PEER`
    Why {
        node: &'a str,
        peer: &'a str,
    },
    /// `lose NODE PEER [CONNECTION]`
    Lose {
        node: &'a str,
        peer: &'a str,
        connection: Option<Connection<'a>>,
    },
    /// `cut NODE PEER`
    Cut {
        node: &'a str,
        peer: &'a str,
    },
    /// `stop NODE`
    Stop {
        node: &'a str,
    },
    /// `start NODE`
    Start {
        node: &'a str,
    },
    /// `deliver NODE PEER [CONNECTION]`
    Deliver {
        node: &'a str,
        peer: &'a str,
        connection: Option<Connection<'a>>,
    },
    /// `local NODE`
    Local {
        node: &'a str,
    },
    /// `sweep NODE`
    Sweep {
        node: &'a str,
    },
    /// `settle`
    Settle,
    /// `challenge NUMBER`
    Challenge {
        number: u32,
    },
    /// `show`, and `show all`
    Show {
        all: bool,
    },
    /// `expect WORDS`, with a bound name behind each `$` outside of quotes.
    Expect {
        words: &'a str,
    },
}
