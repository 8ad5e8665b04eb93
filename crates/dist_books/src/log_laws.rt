//! The laws. Each function does nothing: its contract is the law.
ghost use Rattle.std.specs.Prelude.{ℕ};
ghost use Rattle.dist_books.specs.Logs.{LeadGrows, SentGrows, TookGrows};
ghost use Rattle.dist_books.specs.Runs.{LogsAreARun};
ghost use Rattle.dist_books.specs.Sorting.{SortMerges};
ghost use Rattle.dist_books.specs.Unsorted.{LeadByStamp, LeadNowhereByNode};

use crate::nodes::Nodes;

/// Each node keeps a log of its events, and a clock for their stamps, so that whatever an event takes
/// was sent under an earlier stamp. Where on each channel one node sends and one takes, and what this
/// one took begins what that one sent, all entries in the order of their stamps are one run of all
/// nodes, in which every channel gives its symbols in the order in which they were put on it. The run
/// ends in the states that the logs lead to, with what wasn't taken on the channels.
pub fn logs_are_a_run<N: Nodes>()
    ensures { LogsAreARun N.same N.acts }
{}

/// A line that a node adds to its log leads on from where the log led, and what it sends and takes comes
/// behind what the log sent and took.
pub fn log_grows<N: Nodes>()
    ensures leads { LeadGrows N.acts }
    ensures sent { SentGrows N.Event N.Answer N.Channel N.Symbol N.same }
    ensures took { TookGrows N.Event N.Answer N.Channel N.Symbol N.same }
{}

/// All entries of several histories, in each of which the stamps rise, sorted by their stamps and then
/// by the numbers of their nodes: of each node they are its history, in its order, and each comes before
/// those that it precedes.
pub fn sort_merges<T>()
    ensures { (stamp : T → ℕ) → SortMerges stamp }
{}

/// The order of the stamps is needed. Where one node sends a symbol and another takes it, the two
/// entries are a run by their stamps, and none where they stand by the numbers of their nodes.
pub fn order_of_stamps_is_needed()
    ensures by_stamp { LeadByStamp }
    ensures by_node { LeadNowhereByNode }
{}
