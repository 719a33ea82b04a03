// A caller who has logged in.
ghost use Rattle.std.specs.Prelude.{◌≡◌, ◌≢◌, ◌++◌, [], true, None, Some, Ok, IfOk, is_none};
ghost use Rattle.cql_sessions.specs.Tallies.{Tallies};

use crate::callable::Callable;
use crate::in_hand::Taking;
use crate::request::{Request, prepared_of};
use crate::sessions::SessionEnd;
use cql_core::{Evaluator, Reply, TenantId, TenantTable};
use cql_hall::{Gate, Kind, Point, Receipt, Seat};
use cql_wire::{Line, LineFault, ReplyBuffer, Scratch, ScriptError, Watched, WriteFault};
use std::alloc::Global;
use std::io::Write;
use std::sync::Wait;

/// What sessions are served by: a hall, what that is called with, and whose logins are known. What is
/// proved of sessions is over any such hall.
#[derive(Drop)]
pub struct Service<'a, H, C, G> {
    pub rt: &'a H,
    pub alloc: Global,
    pub hall: &'a C,
    pub table: &'a TenantTable,
    pub gate: &'a G,
}

/// What was done with a line.
#[derive(Clone, Copy, PartialEq, Eq, Drop)]
pub(crate) enum LineOutcome {
    /// It was answered, or it was blank.
    Short,
    /// It was answered and is the last of its turn: the login, a fetch, which may have taken long, or a list
    /// of which something is to come.
    Last,
    /// Nothing: it is a fetch, and fetches have to wait.
    Held,
}

/// A seat, the receipts of its calls where calls are kept, and the reply that is being told.
pub(crate) struct Caller {
    pub seat: Seat,
    receipts: Vec<Receipt>,
    is_kept: bool,
    // the reply that is being told, which is the last receipt's where calls are kept
    taking: Taking,
    // how many records of a journal's file what he was told rests on
    due: u64,
    ghost tallies: { Tallies is_kept seat receipts.items },
}

impl Drop for Caller {
    fn drop(self) {
        let Caller {
            seat: _,
            receipts: _,
            is_kept: _,
            taking: _,
            due: _,
        } = self;
    }
}

impl Caller {
    ghost use Rattle.std.specs.Arc.{arc_value};
    ghost use Rattle.cql_lines.specs.Next.{text_of};
    ghost use Rattle.cql_lines.specs.Watched.{inner_of};
    ghost use Rattle.cql_sessions.specs.Answering.{Calls};
    ghost use Rattle.cql_sessions.specs.InHand.{caller_to_come, TellsLine};
    ghost use Rattle.cql_sessions.specs.Request.{request_of};
    ghost use Rattle.cql_sessions.specs.Seating.{of_caller};

    /// A caller of the tenant, who has made no call. What is told of his fetches is told bit by bit, or at
    /// once.
    pub(crate) fn new<H: Wait, C: Callable<H, G>, G: Gate>(
        service: &Service<'_, H, C, G>,
        tenant: TenantId,
        is_kept: bool,
        is_bitwise: bool,
    ) -> Caller
        ensures kept { result.is_kept ≡ is_kept }
        ensures nothing { caller_to_come result ≡ [] }
        ensures whose { result.seat.tenant ≡ tenant }
        ensures none { result.receipts.items ≡ [] }
    {
        Caller {
            seat: service.hall.seat(tenant),
            receipts: Vec::new(service.alloc),
            is_kept,
            taking: Taking::new(is_bitwise),
            due: 0,
        }
    }

    /// How many records of a journal's file what he was told rests on.
    pub(crate) fn due(&self) -> u64
        ensures { result ≡ self.now.due }
    {
        self.due
    }

    /// Whether nothing is to come of the last reply.
    pub(crate) fn is_told(&self) -> bool
        ensures { result ≡ is_none self.now.taking.held }
    {
        self.taking.is_done()
    }

    /// Moves what is to come of the last reply behind what is buffered, as far as there is room.
    pub(crate) fn fill(&mut self, buffer: &mut ReplyBuffer)
        ensures told { buffer.new ++ caller_to_come self.new ≡ buffer.old ++ caller_to_come self.old }
        ensures same { (self.new.is_kept ≡ self.old.is_kept) × (of_caller self.new ≡ of_caller self.old) }
    {
        let lent = match self.receipts.last() {
            Some(receipt) => Some(&receipt.reply),
            None => None,
        };
        self.taking.fill(lent, buffer);
    }

    /// What the reply weighs that is being told, in bytes.
    pub(crate) fn weight(&self) -> usize {
        self.taking.weight()
    }

    /// How its session ends.
    pub(crate) fn into_end(self, fault: Option<ScriptError>) -> SessionEnd
        ensures seat { result.seat ≡ Some self.seat }
        ensures receipts { result.receipts ≡ self.receipts }
    {
        let Caller {
            seat,
            receipts,
            is_kept: _,
            taking: _,
            due: _,
        } = self;
        SessionEnd {
            seat: Some(seat),
            receipts,
            fault,
        }
    }

    // Makes a call, tells its reply as far as that is told at once, and keeps its receipt where calls are
    // kept. Without room for the receipt no call is made, and the line is told so (70).
    fn call<H: Wait, C: Callable<H, G>, E: Evaluator, G: Gate, W: Write>(
        &mut self,
        service: &Service<'_, H, C, G>,
        bench: &mut E,
        request: Request<'_>,
        buffer: &mut ReplyBuffer,
        writer: &mut Watched<W>,
    ) -> Result<(), WriteFault>
        ensures kept { self.new.is_kept ≡ self.old.is_kept }
        ensures calls { Calls (Ok (arc_value request.entry.prepared)) (of_caller self.old) (of_caller self.new) }
        ensures told { self.old.taking.held ≡ None → TellsLine self.old.is_kept (of_caller self.old) (of_caller self.new) (Ok (arc_value request.entry.prepared))
            (W.contents (inner_of writer.old)) (W.contents (inner_of writer.new)) buffer.old (buffer.new ++ caller_to_come self.new) result }
    {
        let tenant = self.seat.tenant();
        if self.is_kept && self.receipts.reserve(1).is_err() {
            service
                .gate
                .at(Point::Refused(tenant, LineFault::NoMemory.number()));
            return buffer.put_fault(writer, &LineFault::NoMemory);
        }
        let Request {
            prepared,
            kind,
            line,
        } = request;
        let gate = service.gate;
        let begun = begin(gate, tenant, kind);
        let pending = service
            .hall
            .call(service.rt, gate, &mut self.seat, prepared, line);
        self.due = pending.due().max(self.due);
        let mut receipt = pending.finish(service.alloc, bench, gate);
        tell(gate, tenant, kind, begun, &receipt.reply);
        if !self.is_kept {
            return self.taking.begin(writer, &mut receipt.reply, buffer);
        }
        let told = self.taking.begin_lent(writer, &receipt.reply, buffer);
        self.receipts.push_reserved(receipt);
        told
    }

    /// Answers one line. One that gives no command makes no call. All that is buffered is written
    /// before a fetch, so that no more is computed for a caller who has left. Where no fetch may
    /// be answered now, nothing is done with one.
    pub(crate) fn answer<H: Wait, C: Callable<H, G>, E: Evaluator, G: Gate, W: Write>(
        &mut self,
        service: &Service<'_, H, C, G>,
        bench: &mut E,
        line: Line<'_>,
        may_fetch: bool,
        buffer: &mut ReplyBuffer,
        scratch: &mut Scratch,
        writer: &mut Watched<W>,
    ) -> Result<LineOutcome, WriteFault>
        ensures kept { self.new.is_kept ≡ self.old.is_kept }
        ensures calls { Calls (request_of (text_of line.entry)) (of_caller self.old) (of_caller self.new) }
        ensures waits { IfOk result (λ outcome. (may_fetch ≡ true → outcome ≢ LineOutcome.Held)
            × (outcome ≡ LineOutcome.Held → of_caller self.new ≡ of_caller self.old)) }
    {
        let request = match prepared_of(service.alloc, line, scratch) {
            Ok(request) => request,
            Err(fault) => {
                service
                    .gate
                    .at(Point::Refused(self.seat.tenant(), fault.number()));
                buffer.put_fault(writer, &fault)?;
                return Ok(LineOutcome::Short);
            }
        };
        let outcome = match request.kind {
            Kind::Fetch if !may_fetch => return Ok(LineOutcome::Held),
            Kind::Fetch => {
                buffer.flush(writer)?;
                LineOutcome::Last
            }
            _ => LineOutcome::Short,
        };
        self.call(service, bench, request, buffer, writer)?;
        if self.is_told() {
            Ok(outcome)
        } else {
            Ok(LineOutcome::Last)
        }
    }
}

// A call of a tenant begins; when by the gate's clock, of a fetch.
fn begin<G: Gate>(gate: &G, tenant: TenantId, kind: Kind) -> u64 {
    gate.at(Point::Asked(tenant, kind));
    if kind == Kind::Fetch { gate.nanos() } else { 0 }
}

// The reply of a call of a tenant is made. Inlined, since of most replies nothing is told.
#[inline(always)]
fn tell<G: Gate>(gate: &G, tenant: TenantId, kind: Kind, begun: u64, reply: &Reply) {
    if kind == Kind::Fetch {
        gate.at(Point::Fetched(begun));
        if reply.is_no_memory() {
            gate.at(Point::GivenUp(tenant));
        }
    }
    match reply {
        // Where no instant is asked for no bench began.
        Reply::Blocks(answer) if answer.turns() > 0 => gate.at(Point::Computed(answer.went_on())),
        Reply::Refused(refusal) => gate.at(Point::Refused(tenant, refusal.number())),
        _ => {}
    }
}
