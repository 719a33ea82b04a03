// The thread that writes what changes to the journal's file, and lets replies go that rest on it.
ghost use Rattle.std.specs.Prelude.{◌≡◌, OnOk, IfErr};
ghost use Rattle.cql_server.specs.Filed.{PutsBehind};
ghost use Rattle.cql_server.specs.declared.failure.Failure.TheVariants as failure;

use crate::failure::Failure;
use crate::journal_file::{JournalFault, JournalFile};
use cql_connections::Scheduler;
use cql_core::{TenantId, TenantTable};
use cql_hall::{Demanded, Filings, Gate};
use cql_journal::{Batch, Record};
use cql_sessions::{Callable, Connected, Service};
use std::sync::Wait;
use std::sync::atomic::{AtomicBool, Ordering};
use std::thread::{self, Builder, Scope};
use std::time::{Clock, Duration};

// A batch ends behind so many bytes of records.
const BATCH: usize = 4 << 20;

/// What writes what changes to the journal's file.
pub(crate) struct JournalWriter<'a> {
    pub file: JournalFile,
    // of how many calls its batch has the records
    pub count: u64,
    // for so long changes are gathered
    pub gather: Duration,
    // set where a write or a sync has failed
    pub has_failed: &'a AtomicBool,
}

impl Drop for JournalWriter<'_> {
    fn drop(self) {
        let JournalWriter {
            file: _,
            count: _,
            gather: _,
            has_failed: _,
        } = self;
    }
}

// Puts the record of a call behind those of a batch.
fn put_behind(
    table: &TenantTable,
    batch: &mut Batch,
    tenant: TenantId,
    line: &[u8],
) -> Result<(), JournalFault>
    ensures { OnOk result (PutsBehind table.now (record { tenant = tenant; line = line.now }) batch.old batch.new) }
{
    let Some(tenant) = table.tenants().get(tenant.index()) else {
        return Err(JournalFault::Writing);
    };
    let given = Record {
        tenant: tenant.name.as_str().as_bytes(),
        line,
    };
    match batch.push(given) {
        Ok(()) => Ok(()),
        Err(_) => Err(JournalFault::Writing),
    }
}

impl JournalWriter<'_> {
    // Writes the batch, if it has records, and has replies go that rest on them.
    fn commit<R, C, G, T, D>(
        &mut self,
        service: &Service<'_, R, C, G>,
        scheduler: &Scheduler<'_, T, D>,
    ) -> Result<(), JournalFault>
    where
        R: Wait + Clock,
        C: Callable<R, G>,
        G: Gate,
        T: Connected<End = D>,
        D: Drop,
    {
        if self.count == 0 {
            return Ok(());
        }
        self.file.write()?;
        let durability = service.hall.durability();
        let durable = durability.durable().saturating_add(self.count);
        self.count = 0;
        durability.make_durable(durable);
        scheduler.make_durable(service.rt, service.gate, durable);
        Ok(())
    }

    // Puts what is queued into the batch, and writes it where somebody waits for that or it gets long. Whether
    // more may come.
    fn go_on<R, C, G, T, D>(
        &mut self,
        service: &Service<'_, R, C, G>,
        scheduler: &Scheduler<'_, T, D>,
        taken: &mut Filings,
    ) -> Result<bool, JournalFault>
    where
        R: Wait + Clock,
        C: Callable<R, G>,
        G: Gate,
        T: Connected<End = D>,
        D: Drop,
    {
        let need = service.hall.take_queued(service.rt, taken);
        let mut calls = taken.iter();
        for _ in 0..taken.len() {
            let Some(call) = calls.next_call() else {
                break;
            };
            put_behind(service.table, &mut self.file.batch, call.tenant, call.line)?;
            self.count = self.count.saturating_add(1);
            if self.file.batch.len() >= BATCH {
                self.commit(service, scheduler)?;
            }
        }
        self.file.batch.hash();
        match need {
            Demanded::Ended => {
                self.commit(service, scheduler)?;
                return Ok(false);
            }
            Demanded::Wanted => {
                self.commit(service, scheduler)?;
                if !self.gather.is_zero() {
                    thread::sleep(service.rt, self.gather);
                }
            }
            Demanded::Unwanted => {}
        }
        Ok(true)
    }

    // Writes what is queued until no more is taken. Where that fails, nobody is let in any more, and no
    // reply goes that rests on what isn't durable.
    fn write_on<R, C, G, T, D>(
        self,
        service: &Service<'_, R, C, G>,
        scheduler: &Scheduler<'_, T, D>,
    )
    where
        R: Wait + Clock,
        C: Callable<R, G>,
        G: Gate,
        T: Connected<End = D>,
        D: Drop,
    {
        let mut writer = self;
        let mut taken = Filings::new(service.alloc);
        for _ in service.rt.forever() {
            match writer.go_on(service, scheduler, &mut taken) {
                Ok(true) => {}
                Ok(false) => return,
                Err(_fault) => {
                    writer.has_failed.store(true, Ordering::SeqCst);
                    scheduler.give_up();
                    return;
                }
            }
        }
    }
}

/// Starts the thread that writes what changes to the journal's file, if there is one; or it can't be made.
pub(crate) fn start_journal_writer<'s, 'a: 's, O, R, C, G, T, D>(
    scope: &Scope<'s, O>,
    service: &'s Service<'a, R, C, G>,
    scheduler: &'s Scheduler<'a, T, D>,
    writer: Option<JournalWriter<'s>>,
) -> Result<(), Failure>
where
    R: Wait + Clock + Sync + 's,
    C: Callable<R, G> + Sync + 's,
    G: Gate + Sync + 's,
    T: Connected<End = D> + Send + 's,
    D: Drop + Send + 's,
    ensures { IfErr result (λ f. f ≡ failure.NoMemory) }
{
    let Some(writer) = writer else {
        return Ok(());
    };
    let started = Builder::new().spawn_scoped(scope, move || writer.write_on(service, scheduler));
    match started {
        Ok(_handle) => Ok(()),
        Err(_refused) => Err(Failure::NoMemory),
    }
}
