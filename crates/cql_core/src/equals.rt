// Whether two commands are the same.
ghost use Rattle.std.specs.Prelude.{◌≡◌, ◌↔◌, IsTrue};
ghost use Rattle.cql_core.specs.Prepared.{command_of};

use crate::prepared::CheckedCommand;
use cql_value::Equals;

/// Whether both are of one command: what was checked of it follows from it.
pub(crate) fn is_equal_command(one: &CheckedCommand, other: &CheckedCommand) -> bool
    ensures { IsTrue result ↔ (command_of one.now ≡ command_of other.now) }
{
    match one {
        CheckedCommand::Stream { name, columns, .. } => match other {
            CheckedCommand::Stream {
                name: n,
                columns: c,
                ..
            } => name.as_str() == n.as_str() && columns.is_equal(c),
            _ => false,
        },
        CheckedCommand::Grant {
            stream,
            to,
            columns,
        } => match other {
            CheckedCommand::Grant {
                stream: s,
                to: t,
                columns: c,
            } => {
                stream.as_str() == s.as_str() && to.as_str() == t.as_str() && columns.is_equal(c)
            }
            _ => false,
        },
        CheckedCommand::Revoke { stream, to } => match other {
            CheckedCommand::Revoke { stream: s, to: t } => {
                stream.as_str() == s.as_str() && to.as_str() == t.as_str()
            }
            _ => false,
        },
        CheckedCommand::Put { stream, element } => match other {
            CheckedCommand::Put {
                stream: s,
                element: e,
            } => stream.as_str() == s.as_str() && element.is_equal(e),
            _ => false,
        },
        CheckedCommand::Beat { stream, at } => match other {
            CheckedCommand::Beat { stream: s, at: a } => stream.as_str() == s.as_str() && *at == *a,
            _ => false,
        },
        CheckedCommand::Query { name, text, .. } => match other {
            CheckedCommand::Query {
                name: n,
                text: t,
                ..
            } => name.as_str() == n.as_str() && text.as_str() == t.as_str(),
            _ => false,
        },
        CheckedCommand::Fetch { name, until } => match other {
            CheckedCommand::Fetch { name: n, until: u } => name.as_str() == n.as_str()
                && *until == *u,
            _ => false,
        },
        CheckedCommand::Ack { name, to } => match other {
            CheckedCommand::Ack { name: n, to: t } => name.as_str() == n.as_str() && *to == *t,
            _ => false,
        },
        CheckedCommand::Drop { name } => match other {
            CheckedCommand::Drop { name: n } => name.as_str() == n.as_str(),
            _ => false,
        },
        CheckedCommand::List => matches!(other, CheckedCommand::List),
    }
}
