//! The end of a script.
ghost use Rattle.std.specs.Prelude.{◌≡◌, ◌<◌, ◌++◌, IfErr, IfOk, OnOk, false, length, string_bytes, true};
ghost use Rattle.std.specs.List.{flat_map};
ghost use Rattle.std.specs.Option.{option_copied};
ghost use Rattle.script_texts.specs.Texts.{merged_text};
ghost use Rattle.script_threads.specs.Merged.{AreMerged, Ends, IsUnfinished, sents_at, sents_with, trace_text, unfinished_by};
ghost use Rattle.script_threads.specs.Scripts.{AreRepeated, EndsAsScript, unrepeated_by};
ghost use Rattle.script_threads.specs.Standing.{has_started, is_idle, nodes_of};
ghost use Rattle.script_threads.specs.declared.finishing.Unfinished.TheVariants as unfinished;
ghost use Rattle.script_threads.specs.declared.threads.Cast.TheVariants as cast;

use crate::running::{Machine, Running};
use crate::session::ThreadedSession;
use crate::threads::{Cast, NodeThreads};
use cluster_run::Finished;
use erl_handshake::Setup;
use erl_names::NodeName;
use joined_books::{FinishError, Placed};
use node_history::Entry;
use node_lock::Book;
use run_traces::put_sents;
use script_repeats::{OwnLines, Unrepeated, repeat};
use script_texts::put_merged;
use std::alloc::{AllocError, Global};

/// The reason why the nodes of a script weren't merged, or have no script.
#[derive(Clone, Copy, Debug, PartialEq, Eq)]
pub enum Unfinished {
    /// Out of memory, or of threads.
    OutOfMemory,
    /// The histories of the nodes don't fit together, or to the answers that were given.
    Unmerged,
    /// No script repeats the merged run: it has more events than a script has lines, or the lines weren't kept.
    Unrepeated,
}

impl From<AllocError> for Unfinished {
    ghost from_gives = { λ _ e. e ≡ unfinished.OutOfMemory };

    fn from(_e: AllocError) -> Unfinished {
        Unfinished::OutOfMemory
    }
}

impl From<FinishError> for Unfinished {
    ghost from_gives = { λ fault e. e ≡ unfinished_by fault };

    fn from(e: FinishError) -> Unfinished {
        match e {
            FinishError::OutOfMemory => Unfinished::OutOfMemory,
            _ => Unfinished::Unmerged,
        }
    }
}

impl From<Unrepeated> for Unfinished {
    ghost from_gives = { λ why e. e ≡ unrepeated_by why };

    fn from(e: Unrepeated) -> Unfinished {
        match e {
            Unrepeated::OutOfMemory => Unfinished::OutOfMemory,
            Unrepeated::Unlike => Unfinished::Unrepeated,
        }
    }
}

// Prints the items that a node of this name sent with an entry, if there is one.
fn put_entry(
    alloc: Global,
    out: &mut String,
    node: &str,
    entry: Option<&Entry>,
) -> Result<(), AllocError>
    ensures { OnOk result (string_bytes out.new ≡ string_bytes out.old ++ sents_with node.now (option_copied entry.entry)) }
{
    match entry {
        Some(
            Entry {
                answer: Ok(report),
                ..
            },
        ) => put_sents(alloc, out, node, &report.effects),
        _ => Ok(()),
    }
}

// Prints the items that were sent with the entry at a place.
fn put_placed(
    alloc: Global,
    out: &mut String,
    nodes: &[(NodeName, Setup)],
    books: &[Book],
    placed: &Placed,
) -> Result<(), AllocError>
    ensures { OnOk result (string_bytes out.new ≡ string_bytes out.old ++ sents_at nodes.now books.now placed.now) }
{
    match (nodes.get(placed.node), books.get(placed.node)) {
        (Some((name, _)), Some(book)) => {
            put_entry(alloc, out, name.text(), book.entries().get(placed.position))
        }
        _ => Ok(()),
    }
}

// Prints the items that were sent with all entries, in their order.
fn put_trace(
    alloc: Global,
    out: &mut String,
    nodes: &[(NodeName, Setup)],
    books: &[Book],
    entries: &[Placed],
) -> Result<(), AllocError>
    ensures { OnOk result (string_bytes out.new ≡ string_bytes out.old ++ flat_map (sents_at nodes.now books.now) entries.now) }
{
    for placed in entries {
        put_placed(alloc, out, nodes, books, placed)?;
    }
    Ok(())
}

// Prints that the nodes have merged, behind the items that were sent with all entries, if these are asked for.
fn put_end(
    alloc: Global,
    out: &mut String,
    trace: bool,
    nodes: &[(NodeName, Setup)],
    finished: &Finished,
) -> Result<(), AllocError>
    ensures { OnOk result (string_bytes out.new ≡ string_bytes out.old
        ++ trace_text trace nodes.now finished.now.books.items finished.now.trace.entries.items ++ merged_text) }
{
    if trace {
        put_trace(alloc, out, nodes, &finished.books, &finished.trace.entries)?;
    }
    put_merged(out)
}

// Ends the threads, and prints that the nodes have merged.
fn finish_running<R: Machine>(
    rt: &R,
    alloc: Global,
    trace: bool,
    running: Running,
    out: &mut String,
) -> Result<(), Unfinished>
    ensures merged { OnOk result (AreMerged trace (cast.Running running) (string_bytes out.old) (string_bytes out.new)) }
    ensures some { 0 < length running.nodes.items }
    ensures err { IfErr result (IsUnfinished (cast.Running running)) }
{
    let Running {
        nodes,
        cluster,
        seats,
        ..
    } = running;
    match cluster.finish(rt, seats) {
        Ok(finished) => Ok(put_end(alloc, out, trace, &nodes, &finished)?),
        Err(unmerged) => Err(Unfinished::from(unmerged.fault)),
    }
}

// Ends the threads, and returns a plain script that repeats their merged run.
fn repeat_running<R: Machine>(
    rt: &R,
    alloc: Global,
    seed: u32,
    running: Running,
    own: &OwnLines,
) -> Result<Vec<u8>, Unfinished>
    ensures repeated { IfOk result (λ script. AreRepeated seed (cast.Running running) script.items) }
    ensures some { 0 < length running.nodes.items }
    ensures err { IfErr result (IsUnfinished (cast.Running running)) }
{
    let Running {
        nodes,
        cluster,
        seats,
        ..
    } = running;
    match cluster.finish(rt, seats) {
        Ok(finished) => Ok(repeat(
            alloc,
            seed,
            own,
            &nodes,
            &finished.books,
            &finished.trace.entries,
        )?),
        Err(unmerged) => Err(Unfinished::from(unmerged.fault)),
    }
}

// Returns the nodes with their threads, which it starts unless they are.
fn started<R: Machine>(
    rt: &R,
    alloc: Global,
    mut threads: NodeThreads,
) -> Result<NodeThreads, AllocError>
    ensures nodes { IfOk result (λ it. nodes_of it.cast ≡ nodes_of threads.cast) }
    ensures started { IfOk result (λ it. has_started it.cast ≡ true) }
    ensures same { IfOk result (λ it. is_idle threads.cast ≡ false → it.cast ≡ threads.cast) }
{
    threads.start(rt, alloc)?;
    Ok(threads)
}

impl ThreadedSession {
    /// Ends the threads of a script that has run through, and merges the histories of its nodes. If it has named
    /// nodes, these are one safe run, and a line says so. The frames that were sent stand before it in the order of
    /// the run, if they are asked for. Prints nothing if it has named no node.
    ///
    /// # Errors
    /// [`Unfinished::OutOfMemory`]; [`Unfinished::Unmerged`] only if the script has named nodes, and books of these
    /// don't fit together, or to the receipts of its seats.
    pub fn finish<R: Machine>(
        self,
        rt: &R,
        alloc: Global,
        trace: bool,
        out: &mut String,
    ) -> Result<(), Unfinished>
        ensures ok { OnOk result (Ends trace self.threads.cast (string_bytes out.old) (string_bytes out.new)) }
        ensures err { IfErr result (IsUnfinished self.threads.cast) }
    {
        let NodeThreads { cast, .. } = started(rt, alloc, self.threads)?;
        match cast {
            Cast::Running(running) => finish_running(rt, alloc, trace, running, out),
            Cast::Named(_) => Ok(()),
        }
    }

    /// Ends the threads of a script that has run through, and merges the histories of its nodes. Returns a plain
    /// script that repeats the merged run: from this seed on its lines bring about the events of all entries, in the
    /// order of the run. It is empty if the script has named no node.
    ///
    /// # Errors
    /// As [`ThreadedSession::finish`]; and [`Unfinished::Unrepeated`] if no script repeats the run.
    pub fn finish_as_script<R: Machine>(
        self,
        rt: &R,
        alloc: Global,
        seed: u32,
    ) -> Result<Vec<u8>, Unfinished>
        ensures ok { IfOk result (λ script. EndsAsScript seed self.threads.cast script.items) }
        ensures err { IfErr result (IsUnfinished self.threads.cast) }
    {
        let ThreadedSession { threads, own, .. } = self;
        let NodeThreads { cast, .. } = started(rt, alloc, threads)?;
        match cast {
            Cast::Running(running) => repeat_running(rt, alloc, seed, running, &own),
            Cast::Named(_) => Ok(Vec::new(alloc)),
        }
    }

    /// Ends the threads of a script that hasn't run through.
    pub fn abandon<R: Machine>(self, rt: &R) {
        let ThreadedSession { threads, .. } = self;
        let NodeThreads { cast, .. } = threads;
        if let Cast::Running(running) = cast {
            let Running { cluster, seats, .. } = running;
            drop(cluster.finish(rt, seats));
        }
    }
}
