// One session.
ghost use Rattle.std.specs.Prelude.{◌≡◌, ◌++◌, ◌<◌, List, ℕ, [], true, false, Some, None, IfSome, OnOk, All, is_ok, vec_len};
ghost use Rattle.cql_lines.specs.Text.{lines_of};
ghost use Rattle.cql_lines.specs.Watched.{inner_of};
ghost use Rattle.cql_sessions.specs.Seating.{login_among, behind_login, Asks, Served, ServedOf, IsNew, HasReached, Reads, account_of};
ghost use Rattle.cql_hall.specs.Audit.{placed};

use crate::callable::Callable;
use crate::caller::Service;
use crate::session_buffers::SessionBuffers;
use crate::session_state::SessionState;
use cql_core::{Evaluator, TenantTable};
use cql_hall::{Gate, Hall, Journal, Receipt, Seat};
use cql_lines::Intake;
use cql_wire::{LineFault, ReplyBuffer, Scratch, ScriptError, Watched, write_fault};
use std::alloc::Global;
use std::io::{Read, Write};
use std::sync::Wait;

/// What is left of a session: the seat of its caller, if that has logged in; where calls are kept
/// a receipt of each call, in order; and the fault that ended it, if one did.
#[derive(Drop)]
pub struct SessionEnd {
    pub seat: Option<Seat>,
    pub receipts: Vec<Receipt>,
    pub fault: Option<ScriptError>,
}

// The most reads of one session.
const MAX_READS: u64 = 1 << 40;

/// Serves one caller to the end of its input. Lines that are blank are passed over.
///
/// The first line is the login: it is told `{"ok":true}`, or 13, and then the session ends. Each
/// later line is answered with one line: that of its fault (10, 11 or 12), or of the reply to its
/// command, which is a call of the hall by the login's tenant and may not name one (12). A line
/// that finds no memory is answered 70; where that was so before its call, no call is made.
///
/// Replies are buffered, up to 65,536 bytes. All that are buffered are written before a fetch,
/// before a read, which may wait, and at the end. A session ends with the first fault: of the reader, after which
/// nothing of a line that isn't whole runs; of the writer; or want of memory before the login is
/// answered, of which the line of 70 is told.
pub fn session<H, R, W, J, E, G>(
    rt: &H,
    alloc: Global,
    reader: R,
    writer: W,
    hall: &Hall<J>,
    table: &TenantTable,
    bench: &mut E,
    gate: &G,
) -> SessionEnd
where
    H: Wait,
    R: Read + Drop,
    W: Write + Drop,
    J: Journal,
    E: Evaluator,
    G: Gate,
    ensures counted { J.keeps ≡ true → IfSome result.seat (λ s. placed result.receipts.items ≡ s.count) }
    ensures whose { IfSome result.seat (λ s. All (λ r. r.tenant ≡ s.tenant) result.receipts.items) }
    ensures bare { J.keeps ≡ false → result.receipts.items ≡ [] }
    ensures nobody { result.seat ≡ None → result.receipts.items ≡ [] }
    ensures login { IfSome result.seat (λ s. IfSome (R.remaining reader) (λ input. login_among table.now (lines_of input) ≡ Some s.tenant)) }
    ensures request { IfSome result.seat (λ s. IfSome (R.remaining reader) (λ input. Asks (behind_login (lines_of input)) result.receipts.items)) }
{
    let mut reader = Watched::new(reader);
    let mut writer = Watched::new(writer);
    let service = Service {
        rt,
        alloc,
        hall,
        table,
        gate,
    };
    let mut state = SessionState::new(alloc, J::is_kept(), false);
    let served = attend(&service, bench, &mut state, &mut reader, &mut writer);
    if served == Err(ScriptError::NoMemory) && state.tenant().is_none() {
        let _ = write_fault(&mut writer, &LineFault::NoMemory);
    }
    state.into_end(alloc, served.err())
}

// Serves a caller of whom nothing has come.
fn attend<H: Wait, C: Callable<H, G>, E: Evaluator, G: Gate, R: Read, W: Write>(
    service: &Service<'_, H, C, G>,
    bench: &mut E,
    state: &mut SessionState,
    reader: &mut Watched<R>,
    writer: &mut Watched<W>,
) -> Result<(), ScriptError>
    requires { state.old.is_held ≡ false }
    ensures kept { state.new.is_kept ≡ state.old.is_kept }
    ensures served { IsNew state.old → ServedOf service.now.table.now (R.remaining (inner_of reader.old)) (account_of state.new.caller) }
{
    state.intake = Intake::with_room(service.alloc)?;
    let mut buffers = SessionBuffers::new(service.alloc)?;
    for _ in 0..MAX_READS {
        read_once(service, bench, state, &mut buffers, reader, writer)?;
        if state.is_over {
            buffers.buffer.flush(writer)?;
            return Ok(());
        }
    }
    Err(ScriptError::Read)
}

// Writes all that is buffered, reads once, and answers what came: at the end of the input the line
// that no line feed has ended.
fn read_once<H: Wait, C: Callable<H, G>, E: Evaluator, G: Gate, R: Read, W: Write>(
    service: &Service<'_, H, C, G>,
    bench: &mut E,
    state: &mut SessionState,
    buffers: &mut SessionBuffers,
    reader: &mut Watched<R>,
    writer: &mut Watched<W>,
) -> Result<(), ScriptError>
    requires going { state.old.is_held ≡ false }
    requires room { 0 < vec_len buffers.old.chunk }
    ensures kept { state.new.is_kept ≡ state.old.is_kept }
    ensures going { OnOk result (state.new.is_held ≡ false) }
    ensures room { vec_len buffers.new.chunk ≡ vec_len buffers.old.chunk }
    ensures reads { state.old.is_over ≡ false → Reads service.now.table.now state.old state.new
        (R.remaining (inner_of reader.old)) (R.remaining (inner_of reader.new)) (is_ok result) }
{
    let SessionBuffers {
        chunk,
        buffer,
        scratch,
        spare: _,
    } = buffers;
    buffer.flush(writer)?;
    let count = reader.read(chunk)?;
    if count == 0 {
        state.is_ended = true;
        state.answer_whole(service, bench, true, buffer, scratch, writer)?;
        return Ok(());
    }
    take_lines(
        service,
        bench,
        state,
        &chunk[..count],
        buffer,
        scratch,
        writer,
    )
}

// Answers each line that is whole in the bytes.
fn take_lines<H: Wait, C: Callable<H, G>, E: Evaluator, G: Gate, W: Write>(
    service: &Service<'_, H, C, G>,
    bench: &mut E,
    state: &mut SessionState,
    bytes: &[u8],
    buffer: &mut ReplyBuffer,
    scratch: &mut Scratch,
    writer: &mut Watched<W>,
) -> Result<(), ScriptError>
    requires { state.old.is_held ≡ false }
    ensures same { (state.new.is_kept ≡ state.old.is_kept) × (state.new.is_ended ≡ state.old.is_ended) }
    ensures going { OnOk result (state.new.is_held ≡ false) }
    ensures served { state.old.is_ended ≡ false → (came : List ℕ) → HasReached service.now.table.now came state.old
        → Served service.now.table.now false (came ++ bytes.now) (account_of state.new.caller) }
    ensures seats { OnOk result (state.new.is_over ≡ false → (came : List ℕ)
        → HasReached service.now.table.now came state.old → HasReached service.now.table.now (came ++ bytes.now) state.new) }
{
    let mut rest = bytes;
    while !rest.is_empty() && !state.is_over {
        let step = state.take_line(service, bench, rest, true, buffer, scratch, writer)?;
        rest = &rest[step.count..];
    }
    Ok(())
}
