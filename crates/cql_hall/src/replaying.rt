// Whether a journal's entries, stepped again, are told what receipts say.
ghost use Rattle.std.specs.Prelude.{◌≡◌, ◌&&◌, map, option_map, length, false, Some, IfOk, IfErr, IfSome};
ghost use Rattle.std.specs.Arc.{arc_value};
ghost use Rattle.std.specs.Bool.{Decides};
ghost use Rattle.cql_core.specs.Machine.{State};
ghost use Rattle.cql_core.specs.Journal.{is_unsent, after};
ghost use Rattle.cql_core.specs.Steps.{stepped_of, answered_by};
ghost use Rattle.cql_hall.specs.Entering.{noted};
ghost use Rattle.cql_hall.specs.Audit.{called, is_want, told, IsCall};
ghost use Rattle.cql_hall.specs.Tracks.{claim_model, AreRight};
ghost use Rattle.cql_hall.specs.declared.audits.AuditError.TheVariants as error;

use crate::audits::AuditError;
use crate::hall::Receipt;
use crate::journal::Entry;
use cql_core::{Core, Mark, Refusal, Reply, Step, TenantTable};
use std::alloc::Global;

/// Of each entry whether it is the call that claims it and is told that call's reply, when all are
/// stepped on a core that opens for the table. One that was marked as told of no memory is left
/// out, and is told nothing. No step is kept.
pub(crate) fn replay(
    alloc: Global,
    table: &TenantTable,
    entries: &[Entry],
    claims: &[Option<&Receipt>],
) -> Result<Vec<bool>, AuditError>
    requires { length claims.now ≡ length entries.now }
    ensures ok { IfOk result (λ right. length right.items ≡ length entries.now) }
    ensures right { IfOk result (λ right. AreRight (record { table = table.now; entries = map noted entries.now }) (length entries.now) (map claim_model claims.now) right.items) }
    ensures err { IfErr result (λ e. e ≡ error.NoMemory) }
{
    let mut core = Core::new(alloc, table)?;
    let mut right = Vec::new(alloc);
    for i in 0..entries.len() {
        let holds = judge(alloc, &mut core, &entries[i], claims[i])?;
        right.push(holds)?;
    }
    Ok(right)
}

// Steps an entry again. Whether it is the call that claims it, if one does.
fn judge(
    alloc: Global,
    core: &mut Core,
    entry: &Entry,
    claim: Option<&Receipt>,
) -> Result<bool, AuditError>
    ensures right { IfOk result (λ right. IfSome (claim_model claim.entry) (λ call. Decides right (IsCall core.old call (noted entry.now)))) }
    ensures core { IfOk result (λ right. core.new ≡ after core.old (noted entry.now)) }
    ensures err { IfErr result (λ e. e ≡ error.NoMemory) }
{
    let step = step_again(alloc, core, entry)?;
    match claim {
        Some(receipt) => Ok(is_call(entry, &step, receipt)),
        None => Ok(true),
    }
}

fn is_call(entry: &Entry, step: &Option<Step>, receipt: &Receipt) -> bool
    ensures { (s : State) → option_map stepped_of step.now ≡ told s (noted entry.now) → Decides result (IsCall s (called receipt.now) (noted entry.now)) }
{
    let asked = is_asked(entry, receipt);
    let told = is_told(step, &receipt.reply);
    both(asked, told)
}

fn is_asked(entry: &Entry, receipt: &Receipt) -> bool
    ensures { Decides result ((entry.now.tenant ≡ receipt.now.tenant) × (arc_value entry.now.prepared ≡ arc_value receipt.now.prepared)) }
{
    entry.tenant == receipt.tenant && entry.prepared.is_equal(&receipt.prepared)
}

fn is_told(step: &Option<Step>, reply: &Reply) -> bool
    ensures { Decides result (is_want (answered_by reply.now) ≡ false → option_map stepped_of step.now ≡ Some (answered_by reply.now)) }
{
    if reply.is_no_memory() {
        return true;
    }
    is_reply_of(step, reply)
}

/// Whether there is a step, and it tells the reply.
pub(crate) fn is_reply_of(step: &Option<Step>, reply: &Reply) -> bool
    ensures { Decides result (option_map stepped_of step.now ≡ Some (answered_by reply.now)) }
{
    match step {
        Some(step) => reply.is_of(step),
        None => false,
    }
}

fn both(one: bool, other: bool) -> bool
    ensures { result ≡ (one && other) }
{
    one && other
}

/// Steps an entry again, unless it is left out.
pub(crate) fn step_again(
    alloc: Global,
    core: &mut Core,
    entry: &Entry,
) -> Result<Option<Step>, AuditError>
    ensures told { IfOk result (λ step. option_map stepped_of step ≡ told core.old (noted entry.now)) }
    ensures core { IfOk result (λ step. core.new ≡ after core.old (noted entry.now)) }
    ensures err { IfErr result (λ e. e ≡ error.NoMemory) }
{
    if is_left_out(entry.mark) {
        return Ok(None);
    }
    let step = core.step(alloc, entry.tenant, &entry.prepared);
    if is_want(&step) {
        return Err(AuditError::NoMemory);
    }
    Ok(Some(step))
}

fn is_left_out(mark: Mark) -> bool
    ensures { result ≡ is_unsent mark }
{
    matches!(mark, Mark::Refused(Refusal::NoMemory))
}

// Whether the step tells that there was no memory.
fn is_want(step: &Step) -> bool
    ensures { result ≡ is_want (stepped_of step.now) }
{
    match step {
        Step::Done(reply) => reply.is_no_memory(),
        Step::Pinned(_) => false,
    }
}
