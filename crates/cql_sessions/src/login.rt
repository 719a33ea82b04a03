// The login of a session.
ghost use Rattle.std.specs.Prelude.{◌≡◌, [], IfOk, IfNone};
ghost use Rattle.cql_sessions.specs.Request.{logged_in};
ghost use Rattle.cql_asked.specs.Login.{LogsIn};
ghost use Rattle.cql_lines.specs.Next.{text_of};

use cql_core::{Reply, TenantId, TenantTable};
use cql_wire::{Line, LineFault, ReplyBuffer, ScriptError, Watched, named_tenant, read_login};
use std::alloc::Global;
use std::io::Write;

// Whose login the line is.
fn tenant_of(alloc: Global, table: &TenantTable, line: Line<'_>) -> Result<TenantId, LineFault>
    ensures { LogsIn (logged_in table.now (text_of line.entry)) result }
{
    match line {
        Line::Whole(bytes) => read_login(alloc, bytes, table),
        Line::TooLong => Err(LineFault::WrongKey),
    }
}

/// The tenant that a refused login names, if it names one of the table, for those who look at
/// logins; none where there was no memory.
pub(crate) fn named_in(alloc: Global, table: &TenantTable, line: Line<'_>) -> Option<TenantId> {
    match line {
        Line::Whole(bytes) => named_tenant(alloc, bytes, table).unwrap_or(None),
        Line::TooLong => None,
    }
}

/// Answers the login: whose it is, or `None` where it was refused and told so (13), which is
/// written at once. Where memory is refused nothing is told.
pub(crate) fn answer_login<W: Write>(
    alloc: Global,
    table: &TenantTable,
    line: Line<'_>,
    buffer: &mut ReplyBuffer,
    writer: &mut Watched<W>,
) -> Result<Option<TenantId>, ScriptError>
    ensures whose { IfOk result (λ tenant. tenant ≡ logged_in table.now (text_of line.entry)) }
    ensures told { IfOk result (λ tenant. IfNone tenant (buffer.new ≡ [])) }
{
    match tenant_of(alloc, table, line) {
        Ok(tenant) => {
            buffer.put_reply(writer, &Reply::Ok)?;
            Ok(Some(tenant))
        }
        Err(LineFault::NoMemory) => Err(ScriptError::NoMemory),
        Err(fault) => {
            buffer.put_fault(writer, &fault)?;
            buffer.flush(writer)?;
            Ok(None)
        }
    }
}
