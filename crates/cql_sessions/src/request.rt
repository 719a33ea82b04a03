// What a line of a session asks.
ghost use Rattle.std.specs.Prelude.{◌≡◌, Ok, Err, IfOk, IfErr};
ghost use Rattle.std.specs.Arc.{arc_value};
ghost use Rattle.cql_sessions.specs.Request.{request_of};
ghost use Rattle.cql_asked.specs.Fault.{Means};
ghost use Rattle.cql_lines.specs.Next.{text_of};

use cql_core::Prepared;
use cql_hall::Kind;
use cql_wire::{Line, LineFault, Scratch, read_call};
use std::alloc::Global;
use std::sync::Arc;

/// What a line asks, prepared for a call.
#[derive(Drop)]
pub(crate) struct Request<'a> {
    pub prepared: Arc<Prepared>,
    pub kind: Kind,
    pub line: &'a [u8],
}

// What a line asks. In this order: `BadLine` (10) where the line is too long, the fault of its command (10, 11
// or 12), `BadKey` (12) where it names a tenant. `NoMemory` (70) may be told of any line.
pub(crate) fn prepared_of<'a>(
    alloc: Global,
    line: Line<'a>,
    scratch: &mut Scratch,
) -> Result<Request<'a>, LineFault>
    ensures ok { IfOk result (λ request. request_of (text_of line.entry) ≡ Ok (arc_value request.prepared)) }
    ensures err { IfErr result (λ fault. Means (request_of (text_of line.entry)) (Err fault)) }
{
    let Line::Whole(line) = line else {
        return Err(LineFault::BadLine);
    };
    let (kind, prepared) = read_call(alloc, line, scratch)?;
    Ok(Request {
        prepared,
        kind,
        line,
    })
}
