// Sessions of a listener's callers.
ghost use Rattle.std.specs.Prelude.{◌≡◌, ◌⊎◌, IfErr, true, false, Err, is_some};
ghost use Rattle.cql_server.specs.declared.failure.Failure.TheVariants as failure;
ghost use Rattle.cql_server.specs.declared.journal_file.JournalFault.TheVariants as fault;

use crate::auditing::{Audited, audit_sessions};
use crate::failure::Failure;
use crate::journal_file::{JournalFault, JournalFile};
use crate::journal_writer::{JournalWriter, start_journal_writer};
use crate::listener::Listener;
use crate::serving::Serving;
use crate::sweeper::start_sweeper;
use crate::workers::start_all;
use cql_benches::SharedPool;
use cql_connections::{ConnectionTable, Limits, Scheduler};
use cql_core::{BenchOf, Operator, TenantTable};
use cql_hall::{Bare, Gate, Hall, Journal, Kept};
use cql_sessions::{Callable, Connection, Ending, Service};
use std::alloc::Global;
use std::io::Write;
use std::sync::Wait;
use std::sync::atomic::{AtomicBool, Ordering};
use std::thread;
use std::thread::Threads;
use std::time::{Clock, Duration};

/// Serves the callers of a listener: so many sessions, or for ever where that is 0; a connection
/// that can't be had counts as a session too. As many callers are connected at once as the limits
/// allow, and further ones as others leave. This thread waits for what they send, and a thread for
/// each bench of its own gives one caller after another a turn, as does one more that computes no
/// answers. Callers are tenants of the table, over one core. An answer is made by a shared bench, or
/// where all are lent by the thread's own; what a shared one keeps of a query is let go of once
/// nobody has used it for 40 seconds, a second after the query was dropped, where there is no room for it,
/// and where a request for memory is refused.
///
/// A session ends, as at a read or write that fails, where its caller takes longer than the limits
/// allow: where the login line isn't whole in time, whatever has come of it; and where a read, or
/// a write of which nothing is taken, has waited for too long.
///
/// An answer that takes longer than the limits allow, or weighs more, is given up, and its fetch is told
/// `NoMemory` (70), as where a request for memory is refused.
///
/// Under `audit` each call and what it was told is kept. At the end the calls that the seats have
/// counted have to be those of the journal, and all that was told has to agree with it: then the
/// line `audit: E entries, R receipts, agreed` is written, of the entries of the journal and the
/// receipts that have a place in it; else the failure is `Audit` (7). Without a number
/// of sessions an audit is refused (`NoSessions`, 2).
///
/// The gate is told what is done, and each second that has passed. Once the threads stand it is asked
/// whether callers are let in: where it says no, no session is served, as where none was asked for.
///
/// Where there is no memory, the clock can't be read or a thread can't be made, no session is
/// served (`NoMemory`, 5).
pub fn serve<R, W, G, O>(
    rt: &R,
    alloc: Global,
    table: &TenantTable,
    serving: Serving<'_, O>,
    out: &mut W,
    gate: &G,
) -> Result<(), Failure>
where
    R: Threads + Wait + Clock + Sync,
    W: Write,
    G: Gate + Sync,
    O: Operator + Send,
    ensures ends { serving.entry.audit ≡ true → serving.entry.sessions ≡ 0 → result ≡ Err failure.NoSessions }
    ensures bare { serving.entry.audit ≡ false → IfErr result (λ f. f ≡ failure.NoMemory) }
{
    let is_audited = serving.audit;
    if is_audited && serving.sessions == 0 {
        return Err(Failure::NoSessions);
    }
    let copy = table.try_clone(alloc)?;
    if is_audited {
        let hall: Hall<Kept> = Hall::new(alloc, copy)?;
        let ends = ends_over(rt, alloc, table, &hall, serving, None, gate)?;
        audit_told(out, alloc, table, hall, ends)
    } else {
        let hall: Hall<Bare> = Hall::new(alloc, copy)?;
        let _ends = ends_over(rt, alloc, table, &hall, serving, None, gate)?;
        Ok(())
    }
}

/// Serves sessions over a hall, and gives their ends. Where there is a journal's file, a thread writes what
/// changes to it, and no more is served once a write or a sync of it has failed (`Journal`, 9).
pub(crate) fn ends_over<J, R, G, O>(
    rt: &R,
    alloc: Global,
    table: &TenantTable,
    hall: &Hall<J>,
    serving: Serving<'_, O>,
    file: Option<JournalFile>,
    gate: &G,
) -> Result<Vec<Ending>, Failure>
where
    J: Journal + Send,
    R: Threads + Wait + Clock + Sync,
    G: Gate + Sync,
    O: Operator + Send,
    ensures { IfErr result (λ f. (f ≡ failure.NoMemory) ⊎ ((is_some file ≡ true) × (f ≡ failure.Journal fault.Writing))) }
{
    let (setup, pool) = serving.worker_setup(rt, alloc, J::is_kept())?;
    let service = Service {
        rt,
        alloc,
        hall,
        table,
        gate,
    };
    let has_failed = AtomicBool::new(false);
    let Some(file) = file else {
        return setup.serve(&service, &pool, None);
    };
    let writer = JournalWriter {
        file,
        count: 0,
        gather: setup.gather,
        has_failed: &has_failed,
    };
    let ends = setup.serve(&service, &pool, Some(writer))?;
    if has_failed.load(Ordering::SeqCst) {
        return Err(Failure::from(JournalFault::Writing));
    }
    Ok(ends)
}

// Audits what sessions were told by a hall that has kept its calls, and tells what that has counted.
pub(crate) fn audit_told<W: Write>(
    out: &mut W,
    alloc: Global,
    table: &TenantTable,
    hall: Hall<Kept>,
    ends: Vec<Ending>,
) -> Result<(), Failure> {
    let Audited { entries, receipts } = audit_sessions(alloc, table, hall, ends)?;
    let told = writeln!(out, "audit: {entries} entries, {receipts} receipts, agreed");
    if told.is_ok() && out.flush().is_ok() {
        Ok(())
    } else {
        Err(Failure::Writing)
    }
}

/// What threads serve callers by: each has a bench of its own.
pub(crate) struct WorkerSetup<'a, O: Operator> {
    pub bound: Listener<'a>,
    pub own: Vec<BenchOf<O>>,
    pub limits: Limits,
    pub gather: Duration,
    pub sessions: u16,
    /// Whether each call is kept.
    pub is_kept: bool,
}

impl<O: Operator> Drop for WorkerSetup<'_, O> {
    fn drop(self) {
        let WorkerSetup {
            bound: _,
            own: _,
            limits: _,
            gather: _,
            sessions: _,
            is_kept: _,
        } = self;
    }
}

impl<O: Operator> WorkerSetup<'_, O> {
    // Serves the sessions by a thread for each bench while this one lets callers in. Gives their ends once
    // all have left, for which there is room where calls are kept. Where there is a writer, a thread writes what
    // changes.
    pub(crate) fn serve<R, C, G>(
        self,
        service: &Service<'_, R, C, G>,
        pool: &SharedPool<O>,
        writer: Option<JournalWriter<'_>>,
    ) -> Result<Vec<Ending>, Failure>
    where
        R: Threads + Wait + Clock + Sync,
        C: Callable<R, G> + Sync,
        G: Gate + Sync,
        O: Send,
        ensures { IfErr result (λ f. f ≡ failure.NoMemory) }
    {
        let WorkerSetup {
            bound,
            own,
            limits,
            gather: _,
            sessions,
            is_kept,
        } = self;
        let alloc = service.alloc;
        let owners = service.table.tenants().len().saturating_add(1);
        let room = if is_kept { usize::from(sessions) } else { 0 };
        let connections: ConnectionTable<Connection, Ending> = ConnectionTable::new(
            alloc,
            limits,
            owners,
            own.len(),
            room,
        )?;
        let (stop, stopped) = crossbeam_channel::bounded(alloc, 1)?;
        let (acceptor, driver) = bound.into_parts();
        let scheduler = Scheduler::new(alloc, pool.answers(), is_kept, connections, driver);
        let shared = &scheduler;
        let rt = service.rt;
        thread::scope(
            thread::scope_env(),
            rt,
            move |scope| -> Result<(), Failure>
                ensures { IfErr result (λ f. f ≡ failure.NoMemory) }
            {
                start_sweeper(scope, service, pool, stopped)?;
                if let Err(_error) = start_all(scope, service, shared, own, pool) {
                    shared.close(rt);
                    return Err(Failure::NoMemory);
                }
                if let Err(failure) = start_journal_writer(scope, service, shared, writer) {
                    shared.close(rt);
                    return Err(failure);
                }
                if service.gate.opens() {
                    acceptor.attend(rt, shared, service.gate, sessions);
                } else {
                    shared.close(rt);
                }
                service.hall.durability().end_taking(rt);
                drop(stop);
                Ok(())
            },
        )?;
        Ok(scheduler.into_ends()?)
    }
}
