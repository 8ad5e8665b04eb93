//! What there is of an incarnation.
ghost use Rattle.std.specs.Prelude.{◌≡◌, T, unwrap_or};
ghost use Rattle.std.specs.FinMap as fm;
ghost use Rattle.std.specs.Option.{option_copied, option_map, option_and_then};
ghost use Rattle.sorted_map.specs.Entries.{next};
ghost use Rattle.dist_model.specs.Node.{is_living_life, links_in, traps_life};
ghost use Rattle.erl_term.specs.Order.{pid_cmp};
ghost use Rattle.erl_term.specs.declared.term.Pid.{Pid as ThePid};
ghost use Rattle.link_core.specs.declared.end.End.TheVariants as end;
ghost use Rattle.node_tables.specs.Lives.{end_at, life_of};
ghost use Rattle.node_tables.specs.Held.{ends, lives};

use crate::incarnation::Incarnation;
use crate::life::Life;
use crate::lookup::life_in;
use erl_names::Mint;
use erl_term::Pid;
use link_core::End;

impl Incarnation {
    /// Returns the mint of the incarnation.
    pub fn mint(&self) -> &Mint
        ensures { result.now ≡ self.now.mint }
    {
        &self.mint
    }

    /// Returns true if the node runs.
    pub fn is_up(&self) -> bool
        ensures { result ≡ self.now.up }
    {
        self.up
    }

    /// Returns the life of a process, if there is one.
    pub fn life(&self, process: &Pid) -> Option<&Life>
        ensures life { fm.get (lives self.now) process.now ≡ option_map life_of (option_copied result) }
        ensures ends { (q : ThePid) → fm.get (ends self.now) (process.now, q) ≡ option_and_then (end_at q) (option_copied result) }
    {
        life_in(&self.mint, &self.held, process)
    }

    /// Returns true if a process is living here.
    pub fn is_living(&self, process: &Pid) -> bool
        ensures { result ≡ is_living_life (fm.get (lives self.now) process.now) }
    {
        match self.life(process) {
            Some(life) => life.is_living(),
            None => false,
        }
    }

    /// Returns true if a process is living here and traps exits. (Reference Manual, Processes, Receiving Exit
    /// Signals.)
    pub fn traps(&self, process: &Pid) -> bool
        ensures { result ≡ traps_life (fm.get (lives self.now) process.now) }
    {
        match self.life(process) {
            Some(life) => life.traps(),
            None => false,
        }
    }

    /// Returns the end that a process has of its link to a partner.
    pub fn end(&self, process: &Pid, partner: &Pid) -> End
        ensures { result ≡ unwrap_or (fm.get (ends self.now) (process.now, partner.now)) end.None }
    {
        match self.life(process) {
            Some(life) => life.end(partner),
            None => End::None,
        }
    }

    /// Returns the first partner of a process behind the one that is given, in the order of the partners,
    /// and the end towards it. None where the process isn't living. Costs the logarithm of its links.
    pub fn next_link(&self, process: &Pid, behind: Option<&Pid>) -> Option<&(Pid, End)>
        ensures link { option_copied result ≡ next pid_cmp (option_copied behind.entry) (links_in (fm.entries (ends self.now)) process.now) }
        ensures sorted { T (fm.is_sorted pid_cmp (links_in (fm.entries (ends self.now)) process.now)) }
    {
        match life_in(&self.mint, &self.held, process) {
            Some(life) => life.next_link(behind),
            None => None,
        }
    }
}
