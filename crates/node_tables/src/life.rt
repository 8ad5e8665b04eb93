//! A process of the running incarnation.
ghost use Rattle.std.specs.Prelude.{◌≡◌, Some};
ghost use Rattle.std.specs.FinMap as fm;
ghost use Rattle.std.specs.Option.{option_copied};
ghost use Rattle.dist_model.specs.Node.{is_living_life, traps_life};
ghost use Rattle.sorted_map.specs.Entries.{next};
ghost use Rattle.erl_term.specs.Order.{pid_cmp};
ghost use Rattle.link_core.specs.Ends.{end_of};
ghost use Rattle.node_tables.specs.Lives.{life_of, links_of};

use erl_term::{Payload, Pid};
use exit_core::Proc;
use link_core::{End, Ends};

/// The life of a process that the running incarnation has spawned. (Reference Manual,
/// Processes.)
#[derive(Drop)]
pub enum Life {
    /// It lives.
    Living {
        /// What exits and messages find of it.
        process: Proc,
        /// The ends of its links.
        ends: Ends,
    },
    /// It has ended, for this reason.
    Ended(Payload),
}

impl Life {
    /// Returns true if it is living.
    pub fn is_living(&self) -> bool
        ensures { result ≡ is_living_life (Some (life_of self.now)) }
    {
        match self {
            Life::Living { .. } => true,
            Life::Ended(_) => false,
        }
    }

    /// Returns true if it is living and traps exits. (Reference Manual, Processes, Receiving Exit Signals.)
    pub fn traps(&self) -> bool
        ensures { result ≡ traps_life (Some (life_of self.now)) }
    {
        match self {
            Life::Living { process, .. } => process.trap,
            Life::Ended(_) => false,
        }
    }

    /// Returns the end of its link to a partner. One that has ended has no links.
    pub fn end(&self, partner: &Pid) -> End
        ensures { result ≡ end_of (links_of self.now) partner.now }
    {
        match self {
            Life::Living { ends, .. } => ends.end(partner),
            Life::Ended(_) => End::None,
        }
    }

    /// Returns the first of its partners behind the one that is given, in the order of the partners, and
    /// the end towards it. One that has ended has no links. Costs the logarithm of its links.
    pub fn next_link(&self, behind: Option<&Pid>) -> Option<&(Pid, End)>
        ensures { option_copied result ≡ next pid_cmp (option_copied behind.entry) (fm.entries (links_of self.now)) }
    {
        match self {
            Life::Living { ends, .. } => match behind {
                None => ends.first(),
                Some(partner) => ends.next_behind(partner),
            },
            Life::Ended(_) => None,
        }
    }
}
