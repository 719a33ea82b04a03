// The receipts of one tenant, each under its number in their order, and which of them have a place.
ghost use Rattle.std.specs.Prelude.{◌≡◌, ℕ, ◌<◌, ◌++◌, [], map, vec_len, MatchOption, IfOk, IfErr, OnOk, Some};
ghost use Rattle.cql_hall.specs.Audit.{called, heard, in_order};
ghost use Rattle.cql_hall.specs.Sent.{sent_as, is_sent, sent_by, IsWithin, MissesFirst, AreNumbers, AddsNumber};
ghost use Rattle.cql_hall.specs.declared.audits.AuditError.TheVariants as error;

use crate::audits::AuditError;
use crate::hall::Receipt;
use cql_core::TenantId;
use std::alloc::Global;

/// A tenant's receipts, but for those that were told of no memory: lists in order, each from its
/// front. Looks at each receipt once.
pub(crate) fn sent_by<'a>(
    alloc: Global,
    tenant: TenantId,
    receipts: &'a [Vec<Receipt>],
) -> Result<Vec<&'a Receipt>, AuditError>
    ensures ok { IfOk result (λ sent. map sent_as sent.items ≡ sent_by tenant (in_order 0 (map (λ list. list.items) receipts.now))) }
    ensures err { IfErr result (λ e. e ≡ error.NoMemory) }
{
    let mut sent = Vec::new(alloc);
    for list in receipts {
        add_sent(&mut sent, tenant, list)?;
    }
    Ok(sent)
}

fn add_sent<'a>(
    sent: &mut Vec<&'a Receipt>,
    tenant: TenantId,
    receipts: &'a [Receipt],
) -> Result<(), AuditError>
    ensures ok { OnOk result ((caller : ℕ) → map sent_as sent.new.items ≡ map sent_as sent.old.items ++ sent_by tenant (map (heard caller) receipts.now)) }
    ensures err { IfErr result (λ e. e ≡ error.NoMemory) }
{
    for receipt in receipts {
        if is_sent(tenant, receipt) {
            sent.push(receipt)?;
        }
    }
    Ok(())
}

fn is_sent(tenant: TenantId, receipt: &Receipt) -> bool
    ensures { result ≡ is_sent tenant (called receipt.now) }
{
    receipt.tenant == tenant && !receipt.reply.is_no_memory()
}

/// The number of the first receipt whose place is none of so many.
pub(crate) fn unplaced(sent: &[&Receipt], count: usize) -> Option<usize>
    ensures { MissesFirst count (map sent_as sent.now) result }
{
    for number in 0..sent.len() {
        if place_in(sent[number], count).is_none() {
            return Some(number);
        }
    }
    None
}

/// Of each of so many places the numbers of the receipts that have it, in order. Looks at each
/// receipt once.
pub(crate) fn by_place(
    alloc: Global,
    sent: &[&Receipt],
    count: usize,
) -> Result<Vec<Vec<usize>>, AuditError>
    ensures room { IfOk result (λ numbers. vec_len numbers ≡ count) }
    ensures ok { IfOk result (λ numbers. AreNumbers count (map sent_as sent.now) (map (λ list. list.items) numbers.items)) }
    ensures err { IfErr result (λ e. e ≡ error.NoMemory) }
{
    let mut numbers = no_numbers(alloc, count)?;
    for number in 0..sent.len() {
        add_number(&mut numbers, sent[number], number)?;
    }
    Ok(numbers)
}

fn no_numbers(alloc: Global, count: usize) -> Result<Vec<Vec<usize>>, AuditError>
    ensures room { IfOk result (λ numbers. vec_len numbers ≡ count) }
    ensures ok { IfOk result (λ numbers. AreNumbers count [] (map (λ list. list.items) numbers.items)) }
    ensures err { IfErr result (λ e. e ≡ error.NoMemory) }
{
    let mut numbers = Vec::new(alloc);
    for _ in 0..count {
        numbers.push(Vec::new(alloc))?;
    }
    Ok(numbers)
}

fn add_number(
    numbers: &mut Vec<Vec<usize>>,
    receipt: &Receipt,
    number: usize,
) -> Result<(), AuditError>
    ensures room { vec_len numbers.new ≡ vec_len numbers.old }
    ensures ok { OnOk result (AddsNumber (vec_len numbers.old) receipt.now.place number
        (map (λ list. list.items) numbers.old.items) (map (λ list. list.items) numbers.new.items)) }
    ensures err { IfErr result (λ e. e ≡ error.NoMemory) }
{
    let Some(place) = place_in(receipt, numbers.len()) else {
        return Ok(());
    };
    numbers[place].push(number)?;
    Ok(())
}

// The receipt's place, if it is one of so many.
fn place_in(receipt: &Receipt, count: usize) -> Option<usize>
    ensures { MatchOption result (¬ IsWithin count receipt.now.place) (λ place. (receipt.now.place ≡ Some place) × (place < count)) }
{
    let place = receipt.place?;
    if place < count as u64 {
        Some(place as usize)
    } else {
        None
    }
}
