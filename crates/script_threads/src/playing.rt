//! The effect of a line's command at nodes in threads.
ghost use Rattle.std.specs.Prelude.{◌≡◌, IfOk};
ghost use Rattle.script_lines.specs.Said.{said};
ghost use Rattle.script_terms.specs.Binding.{Knows, Look};
ghost use Rattle.script_threads.specs.Standing.{MayCome, is_idle, nodes_after, nodes_of};

use crate::running::Machine;
use crate::threads::NodeThreads;
use dist_model::Command;
use node_lock::Act;
use script_lines::Line;
use script_session::{Made, asked};
use script_terms::Names;
use std::alloc::{AllocError, Global};

impl NodeThreads {
    // Carries out a line that asks nothing of a process's node.
    fn moves<R: Machine>(
        &mut self,
        rt: &R,
        alloc: Global,
        line: Line,
        out: &mut String,
    ) -> Result<Made, AllocError>
        ensures nodes { MayCome (said line.entry) self.old.cast → IfOk result (λ _. nodes_of self.new.cast ≡ nodes_after (said line.entry) (nodes_of self.old.cast)) }
        ensures idle { is_idle self.new.cast ≡ is_idle self.old.cast }
    {
        match line {
            Line::Node {
                name,
                cookie,
                profile,
            } => self
                .join(alloc, name, cookie, profile, out)
                .map(|()| Made::Nothing),
            Line::Spawn { node, .. } => self.act(rt, node, Act::Run(Command::Spawn), out),
            Line::Ends { first, second } => self
                .ends(rt, first, second, out)
                .map(|()| Made::Nothing),
            Line::Dial { node, peer } => self.dial(rt, alloc, node, peer, out),
            Line::Route { node, peer } => self
                .route(rt, alloc, node, peer, out)
                .map(|()| Made::Nothing),
            Line::Lose {
                node,
                peer,
                connection,
            } => self.lose_line(rt, alloc, node, peer, connection, out),
            Line::Cut { node, peer } => self
                .cut(rt, alloc, node, peer, out)
                .map(|()| Made::Nothing),
            Line::Stop { node } => self.act(rt, node, Act::Stop, out),
            Line::Start { node } => self.act(rt, node, Act::Start, out),
            Line::Settle => self.settle(rt, out).map(|()| Made::Nothing),
            Line::Show { all } => self.show(rt, alloc, all, out).map(|()| Made::Nothing),
            Line::Monitors { process } => self
                .monitors(rt, alloc, process, out)
                .map(|()| Made::Nothing),
            // `read` refuses these lines
            Line::Pair => Ok(Made::Nothing),
            Line::Deliver { .. } => Ok(Made::Nothing),
            Line::Local { .. } => Ok(Made::Nothing),
            Line::Sweep { .. } => Ok(Made::Nothing),
            Line::Challenge { .. } => Ok(Made::Nothing),
            Line::Travels { .. } => Ok(Made::Nothing),
            Line::Why { .. } => Ok(Made::Nothing),
            // `play` carries these out at their node, and leaves nothing to do here
            Line::Send { .. } => Ok(Made::Nothing),
            Line::Link { .. } => Ok(Made::Nothing),
            Line::Unlink { .. } => Ok(Made::Nothing),
            Line::Monitor { .. } => Ok(Made::Nothing),
            Line::Demonitor { .. } => Ok(Made::Nothing),
            Line::Trap { .. } => Ok(Made::Nothing),
            Line::Exit { .. } => Ok(Made::Nothing),
            Line::Die { .. } => Ok(Made::Nothing),
            Line::Receive { .. } => Ok(Made::Nothing),
            Line::Links { .. } => Ok(Made::Nothing),
            Line::Alive { .. } => Ok(Made::Nothing),
            Line::Register { .. } => Ok(Made::Nothing),
            Line::Unregister { .. } => Ok(Made::Nothing),
            Line::WhereIs { .. } => Ok(Made::Nothing),
            Line::SendName { .. } => Ok(Made::Nothing),
            Line::MonitorName { .. } => Ok(Made::Nothing),
            // `ThreadedSession::line` compares the last reply, and plays no such line
            Line::Expect { .. } => Ok(Made::Nothing),
        }
    }

    /// Carries out a line's command.
    ///
    /// # Errors
    /// [`AllocError`] if out of memory.
    pub(crate) fn play<R: Machine>(
        &mut self,
        rt: &R,
        alloc: Global,
        names: &Names,
        line: Line,
        out: &mut String,
    ) -> Result<Made, AllocError>
        ensures nodes { (look : Look) → Knows names.now look → MayCome (said line.entry) self.old.cast →
            IfOk result (λ _. nodes_of self.new.cast ≡ nodes_after (said line.entry) (nodes_of self.old.cast)) }
        ensures idle { is_idle self.new.cast ≡ is_idle self.old.cast }
    {
        match asked(alloc, names, line)? {
            Some((node, command)) => self.act(rt, node.text(), Act::Run(command), out),
            None => self.moves(rt, alloc, line, out),
        }
    }
}
