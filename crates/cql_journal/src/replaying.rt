//! Records that are stepped on a machine.
ghost use Rattle.std.specs.Prelude.{◌≡◌, ◌⊎◌, IfSome, IfNone, MatchResult, Some, None, true};
ghost use Rattle.std.specs.Arc.{arc_value};
ghost use Rattle.std.specs.Str.{IsUtf8};
ghost use Rattle.cql_journal.specs.Record.{IsChain};
ghost use Rattle.cql_journal.specs.Taken.{entry_of};
ghost use Rattle.cql_journal.specs.Recovery.{AreLines, Misfits, ReplaysLines, Replays, StopsInLines, Told, is_change, said_by, unfit_name};
ghost use Rattle.cql_tenants.specs.Tenants.{index_of};
ghost use Rattle.cql_core.specs.Steps.{stepped_of};

use crate::record::{Chain, Record, record_in, split_line};
use crate::state_machine::StateMachine;
use cql_asked::{LineFault, Scratch, read_call};
use cql_core::{Prepared, Refusal, Reply, Step, TenantId, TenantTable};
use std::alloc::Global;
use std::sync::Arc;

/// Why a record leads nowhere.
#[derive(Clone, Copy)]
pub enum Unfit {
    /// No tenant of the table has its name.
    UnknownTenant,
    /// Its line is no command, or names a tenant.
    NoCommand,
    /// The command is refused there.
    Refused(Refusal),
    /// The command is a fetch or a list, and changes nothing.
    Unchanged,
    /// There was no memory.
    NoMemory,
}

impl Unfit {
    /// The name by which it is told: that of a refusal is its own.
    pub fn name(self) -> &'static str
        ensures { result.now ≡ unfit_name self }
    {
        match self {
            Unfit::UnknownTenant => "UnknownTenant",
            Unfit::NoCommand => "NoCommand",
            Unfit::Refused(refusal) => refusal.name(),
            Unfit::Unchanged => "Unchanged",
            Unfit::NoMemory => "NoMemory",
        }
    }
}

/// A record that leads nowhere.
#[derive(Clone, Copy)]
pub struct UnfitRecord {
    /// How many records stand before it. The count stops at 2^64 - 1.
    pub at: u64,
    /// Why it leads nowhere.
    pub unfit: Unfit,
}

// What a record's line asks, prepared.
#[tactic(auto, unfolding(crate::specs::Recovery::said_by))]
fn prepared_in(alloc: Global, line: &[u8], scratch: &mut Scratch) -> Result<Arc<Prepared>, Unfit>
    ensures { MatchResult result (λ prepared. said_by line.now ≡ Some (arc_value prepared)) (λ e. (e ≡ Unfit.NoMemory) ⊎ ((e ≡ Unfit.NoCommand) × (said_by line.now ≡ None))) }
{
    match read_call(alloc, line, scratch) {
        Ok((_kind, prepared)) => Ok(prepared),
        Err(LineFault::NoMemory) => Err(Unfit::NoMemory),
        Err(_) => Err(Unfit::NoCommand),
    }
}

// The tenant of a record's name.
fn tenant_in(table: &TenantTable, name: &[u8]) -> Option<TenantId>
    ensures some { IfSome result (λ tenant. index_of table.now name.now ≡ Some tenant) }
    ensures none { IfNone result ((IsUtf8 name.now → ⊥) ⊎ (index_of table.now name.now ≡ None)) }
{
    match std::str::from_utf8(name) {
        Ok(name) => table.find(name),
        Err(_) => None,
    }
}

// Whether what was told tells that the core may have changed, and else why not.
fn outcome_of(step: &Step) -> Result<(), Unfit>
    ensures { MatchResult result (λ done. is_change (stepped_of step.now) ≡ true) (Told (stepped_of step.now)) }
{
    match step {
        Step::Done(Reply::Ok) => Ok(()),
        Step::Done(Reply::Base(_)) => Ok(()),
        Step::Done(Reply::Refused(Refusal::NoMemory)) => Err(Unfit::NoMemory),
        Step::Done(Reply::Refused(refusal)) => Err(Unfit::Refused(*refusal)),
        _ => Err(Unfit::Unchanged),
    }
}

// One record more.
fn replay_record<M: StateMachine>(
    alloc: Global,
    table: &TenantTable,
    machine: &mut M,
    given: Record<'_>,
    scratch: &mut Scratch,
) -> Result<(), Unfit>
    ensures { MatchResult result (λ done. Replays table.now (M.state machine.old) (entry_of given.entry) (M.state machine.new)) (Misfits table.now (M.state machine.old) (entry_of given.entry)) }
{
    let Some(tenant) = tenant_in(table, given.tenant) else {
        return Err(Unfit::UnknownTenant);
    };
    match prepared_in(alloc, given.line, scratch) {
        Ok(prepared) => {
            let step = machine.step(alloc, tenant, &prepared);
            outcome_of(&step)
        }
        Err(unfit) => Err(unfit),
    }
}

/// Steps the records of a batch behind a chain, and gives how many there are with those before. After an `Err` the machine is of no use.
pub(crate) fn replay_lines<M: StateMachine>(
    alloc: Global,
    table: &TenantTable,
    machine: &mut M,
    chain: &Chain,
    lines: &[u8],
    count: u64,
    scratch: &mut Scratch,
) -> Result<u64, UnfitRecord>
    requires chain { IsChain chain.now }
    requires lines { AreLines chain.now lines.now }
    ensures { MatchResult result (ReplaysLines table.now chain.now lines.now (M.state machine.old) (M.state machine.new) count) (λ stop. StopsInLines table.now chain.now lines.now (M.state machine.old) count stop.at stop.unfit) }
{
    let mut rest = lines;
    let mut counts = count;
    while let Some((line, behind)) = split_line(rest) {
        let Some(given) = record_in(chain, line) else {
            return Ok(counts);
        };
        if let Err(unfit) = replay_record(alloc, table, machine, given, scratch) {
            return Err(UnfitRecord { at: counts, unfit });
        }
        counts = counts.saturating_add(1);
        rest = behind;
    }
    Ok(counts)
}
