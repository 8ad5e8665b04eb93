//! The words that commands begin with.
ghost use Rattle.std.specs.Prelude.{◌≡◌};
ghost use Rattle.script_lines.specs.Commands.{verb_named};

/// The first word of a line.
#[derive(Clone, Copy, Debug, PartialEq, Eq)]
pub enum Verb {
    /// `node`
    Node,
    /// `pair`
    Pair,
    /// `spawn`
    Spawn,
    /// `send`
    Send,
    /// `link`
    Link,
    /// `unlink`
    Unlink,
    /// `monitor`
    Monitor,
    /// `demonitor`
    Demonitor,
    /// `trap`
    Trap,
    /// `exit`
    Exit,
    /// `die`
    Die,
    /// `receive`
    Receive,
    /// `links`
    Links,
    /// `alive`
    Alive,
    /// `monitors`
    Monitors,
    /// `register`
    Register,
    /// `unregister`
    Unregister,
    /// `whereis`
    WhereIs,
    /// `sendname`
    SendName,
    /// `monitorname`
    MonitorName,
    /// `ends`
    Ends,
    /// `dial`
    Dial,
    /// `route`
    Route,
    /// `travels`
    Travels,
    /// `why`
    Why,
    /// `lose`
    Lose,
    /// `cut`
    Cut,
    /// `stop`
    Stop,
    /// `start`
    Start,
    /// `deliver`
    Deliver,
    /// `local`
    Local,
    /// `sweep`
    Sweep,
    /// `settle`
    Settle,
    /// `challenge`
    Challenge,
    /// `show`
    Show,
    /// `expect`
    Expect,
}

impl Verb {
    /// Returns the verb that `word` spells, if it spells one.
    pub fn named(word: &str) -> Option<Verb>
        ensures { result ≡ verb_named word.now }
    {
        match word {
            "node" => Some(Verb::Node),
            "pair" => Some(Verb::Pair),
            "spawn" => Some(Verb::Spawn),
            "send" => Some(Verb::Send),
            "link" => Some(Verb::Link),
            "unlink" => Some(Verb::Unlink),
            "monitor" => Some(Verb::Monitor),
            "demonitor" => Some(Verb::Demonitor),
            "trap" => Some(Verb::Trap),
            "exit" => Some(Verb::Exit),
            "die" => Some(Verb::Die),
            "receive" => Some(Verb::Receive),
            "links" => Some(Verb::Links),
            "alive" => Some(Verb::Alive),
            "monitors" => Some(Verb::Monitors),
            "register" => Some(Verb::Register),
            "unregister" => Some(Verb::Unregister),
            "whereis" => Some(Verb::WhereIs),
            "sendname" => Some(Verb::SendName),
            "monitorname" => Some(Verb::MonitorName),
            "ends" => Some(Verb::Ends),
            "dial" => Some(Verb::Dial),
            "route" => Some(Verb::Route),
            "travels" => Some(Verb::Travels),
            "why" => Some(Verb::Why),
            "lose" => Some(Verb::Lose),
            "cut" => Some(Verb::Cut),
            "stop" => Some(Verb::Stop),
            "start" => Some(Verb::Start),
            "deliver" => Some(Verb::Deliver),
            "local" => Some(Verb::Local),
            "sweep" => Some(Verb::Sweep),
            "settle" => Some(Verb::Settle),
            "challenge" => Some(Verb::Challenge),
            "show" => Some(Verb::Show),
            "expect" => Some(Verb::Expect),
            _ => None,
        }
    }
}
