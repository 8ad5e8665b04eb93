//! The comparison of two commands.
ghost use Rattle.std.specs.Prelude.{◌≡◌, ◌↔◌, IsTrue};

use crate::terms::{is_same_payload, is_same_reference};
use dist_model::Command;

/// Returns true if `a` and `b` are the same command.
pub(crate) fn is_same_command(a: &Command, b: &Command) -> bool
    ensures { IsTrue result ↔ (a.now ≡ b.now) }
{
    match (a, b) {
        (Command::Spawn, Command::Spawn) => true,
        (
            Command::Send { from, to, message },
            Command::Send {
                from: sender,
                to: receiver,
                message: other,
            },
        ) => from.is_same(sender) && to.is_same(receiver) && is_same_payload(message, other),
        (
            Command::SendName {
                from,
                node,
                name,
                message,
            },
            Command::SendName {
                from: sender,
                node: target,
                name: holder,
                message: other,
            },
        ) => {
            from.is_same(sender)
                && node == target
                && name == holder
                && is_same_payload(message, other)
        }
        (
            Command::Link { from, to },
            Command::Link {
                from: other,
                to: partner,
            },
        ) => { from.is_same(other) && to.is_same(partner) }
        (
            Command::Unlink { from, to },
            Command::Unlink {
                from: other,
                to: partner,
            },
        ) => { from.is_same(other) && to.is_same(partner) }
        (
            Command::Monitor { owner, target },
            Command::Monitor {
                owner: other,
                target: watched,
            },
        ) => owner.is_same(other) && target.is_same(watched),
        (
            Command::MonitorName { owner, node, name },
            Command::MonitorName {
                owner: other,
                node: target,
                name: watched,
            },
        ) => owner.is_same(other) && node == target && name == watched,
        (
            Command::Demonitor { owner, reference },
            Command::Demonitor {
                owner: other,
                reference: ended,
            },
        ) => owner.is_same(other) && is_same_reference(reference, ended),
        (
            Command::Trap { process, on },
            Command::Trap {
                process: other,
                on: is_on,
            },
        ) => { process.is_same(other) && on == is_on }
        (
            Command::ExitTo { from, to, reason },
            Command::ExitTo {
                from: sender,
                to: receiver,
                reason: why,
            },
        ) => from.is_same(sender) && to.is_same(receiver) && is_same_payload(reason, why),
        (
            Command::ExitSelf { process, reason },
            Command::ExitSelf {
                process: other,
                reason: why,
            },
        ) => process.is_same(other) && is_same_payload(reason, why),
        (Command::Receive { process }, Command::Receive { process: other }) => {
            process.is_same(other)
        }
        (Command::LinksOf { process }, Command::LinksOf { process: other }) => {
            process.is_same(other)
        }
        (Command::IsAlive { process }, Command::IsAlive { process: other }) => {
            process.is_same(other)
        }
        (
            Command::Register { process, name },
            Command::Register {
                process: other,
                name: taken,
            },
        ) => process.is_same(other) && name == taken,
        (Command::Unregister { process }, Command::Unregister { process: other }) => {
            process.is_same(other)
        }
        (Command::WhereIs { name }, Command::WhereIs { name: other }) => name == other,
        _ => false,
    }
}
