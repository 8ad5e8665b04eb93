//! What becomes of the end of a link.
ghost use Rattle.std.specs.Prelude.{◌≡◌};
ghost use Rattle.link_core.specs.Ends.{end_of, with_end};
ghost use Rattle.node_tables.specs.Becomes.{becomes};
ghost use Rattle.node_tables.specs.Room.{EndFits};

use erl_term::Pid;
use link_core::{Ends, LinkSignal};

/// A change of a process's end of a link. (ERTS User's Guide, Distribution Protocol, New Link
/// Protocol.)
#[derive(Clone, Copy, Debug, PartialEq, Eq)]
pub enum EndChange {
    /// The process links itself to its partner.
    Links,
    /// The process takes its link back, under this new unlink id.
    Unlinks(u64),
    /// A signal of the partner comes.
    Receives(LinkSignal),
    /// The partner's EXIT comes, or the connection to it is lost.
    Exits,
}

impl EndChange {
    /// Makes it of the end towards a partner, where there is room for it. Takes no memory.
    pub(crate) fn make(self, ends: &mut Ends, partner: Pid)
        requires { EndFits self ends.old }
        ensures { ends.new.ends ≡ with_end ends.old.ends partner (becomes self (end_of ends.old.ends partner)) }
    {
        match self {
            EndChange::Links => match ends.link(partner) {
                Ok(_) => {}
                Err(_) => unreachable!(),
            },
            EndChange::Unlinks(id) => {
                ends.unlink(&partner, id);
            }
            EndChange::Receives(LinkSignal::Link) => match ends.on_link(partner) {
                Ok(()) => {}
                Err(_) => unreachable!(),
            },
            EndChange::Receives(LinkSignal::Unlink(id)) => {
                ends.on_unlink(&partner, id);
            }
            EndChange::Receives(LinkSignal::Ack(id)) => ends.on_ack(&partner, id),
            EndChange::Exits => {
                ends.on_exit(&partner);
            }
        }
    }
}
