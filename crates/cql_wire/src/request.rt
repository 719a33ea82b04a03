//! What a line of a script asks.
ghost use Rattle.std.specs.Prelude.{◌≡◌, true, Some};
ghost use Rattle.cql_tenants.specs.Tenants.{index_of};
ghost use Rattle.cql_wire.specs.Request.{request_of};
ghost use Rattle.cql_asked.specs.Fault.{Means};
ghost use Rattle.cql_lines.specs.Next.{text_of};

use cql_asked::{LineFault, Scratch, read_addressed};
use cql_core::{Command, TenantId, TenantTable};
use cql_lines::Line;
use std::alloc::Global;

// Whether the tenant at an index of the table has the name.
fn is_named(table: &TenantTable, tenant: TenantId, name: &str) -> bool
    ensures { result ≡ true → index_of table.now name.now ≡ Some tenant }
{
    let Some(known) = table.tenants().get(tenant.index()) else {
        return false;
    };
    known.name.as_str() == name
}

// The tenant of that name. That of the line before is looked at first: of many lines in a row it is the same.
fn tenant_of(table: &TenantTable, last: &mut Option<TenantId>, name: &str) -> Option<TenantId>
    ensures { result ≡ index_of table.now name.now }
{
    let before = *last;
    if let Some(tenant) = before {
        if is_named(table, tenant, name) {
            return Some(tenant);
        }
    }
    let tenant = table.find(name)?;
    *last = Some(tenant);
    Some(tenant)
}

/// The command of a line, and the tenant of the table that it is for. The tenant of the line before, if any, is
/// kept from line to line.
///
/// In this order: `BadLine` (10) where the line is too long, the fault of its command (10, 11 or
/// 12), `BadKey` (12) where it names no tenant, `UnknownTenant` (31) where the table doesn't have
/// the tenant. `NoMemory` (70) may be told of any line.
pub(crate) fn call_of(
    alloc: Global,
    table: &TenantTable,
    last: &mut Option<TenantId>,
    line: Line<'_>,
    scratch: &mut Scratch,
) -> Result<(TenantId, Command), LineFault>
    ensures { Means (request_of table.now (text_of line.entry)) result }
{
    let Line::Whole(bytes) = line else {
        return Err(LineFault::BadLine);
    };
    match read_addressed(alloc, bytes, scratch) {
        Ok((name, command)) => match name {
            Some(name) => match tenant_of(table, last, name.as_str()) {
                Some(tenant) => Ok((tenant, command)),
                None => Err(LineFault::UnknownTenant),
            },
            None => Err(LineFault::BadKey),
        },
        Err(fault) => Err(fault),
    }
}
