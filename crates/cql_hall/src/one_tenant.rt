// Whether what one tenant was told is what a journal tells it alone.
ghost use Rattle.std.specs.Prelude.{◌≡◌, [], ◌<◌, map, option_map, length, All, IfOk, IfErr};
ghost use Rattle.cql_core.specs.Steps.{stepped_of};
ghost use Rattle.cql_hall.specs.Entering.{noted};
ghost use Rattle.cql_hall.specs.Audit.{in_order, AllAgree};
ghost use Rattle.cql_hall.specs.Alone.{AuditsAlone, IsNoMismatch};
ghost use Rattle.cql_hall.specs.Tells.{told_to, after_alone};
ghost use Rattle.cql_hall.specs.Sent.{sent_as, is_before, FailsFirst, FailsAmong};
ghost use Rattle.cql_hall.specs.declared.audits.AuditError.TheVariants as error;

use crate::audits::AuditError;
use crate::hall::Receipt;
use crate::journal::Entry;
use crate::replaying::{is_reply_of, step_again};
use crate::sent::{by_place, sent_by, unplaced};
use cql_core::{Core, Step, TenantId, TenantTable};
use std::alloc::Global;

/// Whether a tenant's receipts agree with what it is told alone: on a server that opens for the
/// table and makes the journal's calls, but for those that were told of no memory (70) and other
/// tenants' registrations, fetches, acknowledgements and drops.
///
/// A receipt of the tenant agrees where its place holds an entry of the tenant that is told its
/// reply there, which of an answer is its pin; or where it was told of no memory. Other tenants'
/// receipts are passed over. Where all receipts agree with the journal, none fails here.
///
/// Costs one step of the core for each entry that isn't left out, and at most one comparison for
/// each receipt of the tenant; takes memory for a number and a reference for each of these, and for
/// a list for each entry. No step is kept.
pub fn audit_alone(
    alloc: Global,
    table: &TenantTable,
    entries: &[Entry],
    tenant: TenantId,
    receipts: &[Vec<Receipt>],
) -> Result<(), AuditError>
    ensures audits { AuditsAlone tenant (record { table = table.now; entries = map noted entries.now }) (in_order 0 (map (λ list. list.items) receipts.now)) result }
    ensures agreed { AllAgree (record { table = table.now; entries = map noted entries.now }) [] (in_order 0 (map (λ list. list.items) receipts.now)) → IsNoMismatch result }
{
    let sent = sent_by(alloc, tenant, receipts)?;
    let Some(number) = first_failing(alloc, table, entries, tenant, &sent)? else {
        return Ok(());
    };
    let place = sent[number].place.unwrap_or(0);
    Err(AuditError::Mismatch { place })
}

// The number of the tenant's first receipt that isn't what it is told alone.
fn first_failing(
    alloc: Global,
    table: &TenantTable,
    entries: &[Entry],
    tenant: TenantId,
    sent: &[&Receipt],
) -> Result<Option<usize>, AuditError>
    ensures ok { IfOk result (λ first. FailsFirst tenant (record { table = table.now; entries = map noted entries.now }) (map sent_as sent.now) first) }
    ensures err { IfErr result (λ e. e ≡ error.NoMemory) }
{
    let numbers = by_place(alloc, sent, entries.len())?;
    let mut first = unplaced(sent, entries.len());
    let mut core = Core::new(alloc, table)?;
    for i in 0..entries.len() {
        let step = step_alone(alloc, &mut core, &entries[i], tenant)?;
        first = first_among(sent, &step, &numbers[i], first);
    }
    Ok(first)
}

// Steps an entry again, unless it is left out. What the tenant is told, if it is its own.
fn step_alone(
    alloc: Global,
    core: &mut Core,
    entry: &Entry,
    tenant: TenantId,
) -> Result<Option<Step>, AuditError>
    ensures told { IfOk result (λ step. option_map stepped_of step ≡ told_to tenant core.old (noted entry.now)) }
    ensures core { IfOk result (λ step. core.new ≡ after_alone tenant core.old (noted entry.now)) }
    ensures err { IfErr result (λ e. e ≡ error.NoMemory) }
{
    if entry.tenant == tenant {
        return step_again(alloc, core, entry);
    }
    if !entry.prepared.is_on_query() {
        let _step = step_again(alloc, core, entry)?;
    }
    Ok(None)
}

// The number of the first receipt that fails, of the one so far and those of an entry, at which the
// tenant is told this step.
fn first_among(
    sent: &[&Receipt],
    step: &Option<Step>,
    numbers: &[usize],
    first: Option<usize>,
) -> Option<usize>
    requires { All (λ number. number < length sent.now) numbers.now }
    ensures { FailsAmong (map sent_as sent.now) (option_map stepped_of step.now) numbers.now first result }
{
    let mut least = first;
    for number in numbers {
        if is_before(*number, least) && !is_reply_of(step, &sent[*number].reply) {
            least = Some(*number);
        }
    }
    least
}

fn is_before(number: usize, first: Option<usize>) -> bool
    ensures { result ≡ is_before number first }
{
    match first {
        Some(first) => number < first,
        None => true,
    }
}
