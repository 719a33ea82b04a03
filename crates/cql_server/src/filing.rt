// Sessions over what a journal's file leads to.
ghost use Rattle.std.specs.Prelude.{◌≡◌, ◌⊎◌, IfErr};
ghost use Rattle.cql_server.specs.declared.failure.Failure.TheVariants as failure;
ghost use Rattle.cql_server.specs.declared.journal_file.JournalFault.TheVariants as fault;

use crate::callers::{audit_told, ends_over};
use crate::failure::Failure;
use crate::journal_file::Opened;
use crate::serving::Serving;
use cql_core::{Operator, TenantTable};
use cql_hall::{Bare, Book, Gate, Hall, Kept};
use cql_sessions::Ending;
use std::alloc::Global;
use std::io::Write;
use std::sync::Wait;
use std::thread::Threads;
use std::time::Clock;

/// Serves the callers of a listener over a book that a journal's file leads to: so many sessions, or without an
/// end where that is 0. What changes it is written to that file, and no reply goes that rests on what isn't
/// durable there; changes are gathered for so long. Else it is as `serve` without an audit.
///
/// Where a write or a sync of the file fails, no more is served (`Journal`, 9).
pub(crate) fn serve_filing<R, G, O>(
    rt: &R,
    alloc: Global,
    table: &TenantTable,
    serving: Serving<'_, O>,
    opened: Opened<Book<Bare>>,
    gate: &G,
) -> Result<(), Failure>
where
    R: Threads + Wait + Clock + Sync,
    G: Gate + Sync,
    O: Operator + Send,
    ensures { IfErr result (λ f. (f ≡ failure.NoMemory) ⊎ (f ≡ failure.Journal fault.Writing)) }
{
    let (book, file) = opened.into_parts();
    let hall = Hall::filing(alloc, book);
    let _ends = ends_over(rt, alloc, table, &hall, serving, Some(file), gate)?;
    Ok(())
}

/// As `serve_filing`, and keeps each call with what it was told, also those of the file. At the end all is
/// checked, as `serve` does under an audit: the journal begins at the table's opening, and its first entries
/// are the file's.
pub(crate) fn serve_filing_kept<R, W, G, O>(
    rt: &R,
    alloc: Global,
    table: &TenantTable,
    serving: Serving<'_, O>,
    opened: Opened<Book<Kept>>,
    out: &mut W,
    gate: &G,
) -> Result<(), Failure>
where
    R: Threads + Wait + Clock + Sync,
    W: Write,
    G: Gate + Sync,
    O: Operator + Send,
{
    let (book, file) = opened.into_parts();
    let past = book.past(alloc)?;
    let hall = Hall::filing(alloc, book);
    let mut ends = ends_over(rt, alloc, table, &hall, serving, Some(file), gate)?;
    if let Some((seat, receipts)) = past {
        ends.push(Ending {
            seat: Some(seat),
            receipts,
        })?;
    }
    audit_told(out, alloc, table, hall, ends)
}
