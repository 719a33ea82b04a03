//! The state that the records of a journal lead to.
ghost use Rattle.std.specs.Prelude.{List, ℕ, Option, ◌≡◌, ◌⊎◌, ◌+◌, ◌^◌, ◌≤◌, length, take, IfErr, IfOk, IfSome, IfNone, MatchResult};
ghost use Rattle.std.specs.Io.KnownBytes.{Consumes, prepend_known};
ghost use Rattle.cql_lines.specs.Watched.{inner_of, has_failed};
ghost use Rattle.cql_core.specs.Machine.{opening};
ghost use Rattle.cql_journal.specs.Record.{IsChain, heading};
ghost use Rattle.cql_journal.specs.Recovered.{Fails, IsFirst, Opens, Recovers, StopsIn, Takes};

use crate::reading::{ReadAhead, front_at};
use crate::record::{CHAIN, COMMIT, Chain, FIRST};
use crate::replaying::{UnfitRecord, replay_lines};
use crate::searching::hides_batch;
use crate::starting::{HEADING, take_heading};
use crate::state_machine::StateMachine;
use cql_asked::Scratch;
use cql_core::TenantTable;
use cql_lines::Watched;
use std::alloc::Global;
use std::io::Read;

/// Why a journal leads to no state.
#[derive(Clone, Copy)]
pub enum RecoveryFault {
    /// The first line is another one: this is no journal of this format.
    OtherFormat,
    /// A record of a whole batch leads nowhere.
    Record(UnfitRecord),
    /// Behind so many bytes stands something that is no whole batch, and behind that a whole batch.
    Damaged(u64),
    /// The reader has failed.
    Failed,
    /// There was no memory.
    NoMemory,
    /// The file has 2^64 - 1 bytes or more.
    TooMany,
}

/// Is told how far a recovery is, behind each batch.
pub trait Onlooker {
    /// So many records were replayed, of so many bytes of the file.
    fn tell(&mut self, count: u64, bytes: u64);
}

/// Nobody is told.
#[derive(Clone, Copy, Drop)]
pub struct Untold;

impl Onlooker for Untold {
    fn tell(&mut self, _count: u64, _bytes: u64) {}
}

/// How far the whole batches of a journal go.
#[derive(Clone, Copy)]
pub struct Recovered {
    /// The chain of the last batch: the next one is written behind it.
    pub chain: Chain,
    /// How many whole batches there are.
    pub batches: u64,
    /// How many records there are. The count stops at 2^64 - 1.
    pub count: u64,
    /// How many bytes the first line and the whole batches have. The file is to be cut off there, and
    /// the next batch written there. None where the first line isn't whole.
    pub bytes: u64,
}

/// Where a recovery is.
#[derive(Clone, Copy)]
pub(crate) struct Place {
    pub(crate) chain: Chain,
    pub(crate) count: u64,
    pub(crate) bytes: u64,
}

// Behind the first line.
fn first_place() -> Place
    ensures { IsFirst result }
{
    Place {
        chain: FIRST,
        count: 0,
        bytes: HEADING.len() as u64,
    }
}

// The place behind a batch, of whose commit line and more these are the bytes; none from 2^64 bytes on.
fn place_behind(place: &Place, count: u64, size: usize, rest: &[u8]) -> Option<Place>
    requires { CHAIN ≤ length rest.now }
    ensures some { IfSome result (λ next. (next.chain ≡ take CHAIN rest.now) × (next.count ≡ count) × (next.bytes ≡ place.now.bytes + size)) }
    ensures none { IfNone result (2 ^ 64 ≤ place.now.bytes + size) }
{
    let bytes = place.bytes.checked_add(size as u64)?;
    let mut chain = FIRST;
    chain.copy_from_slice(&rest[..CHAIN]);
    Some(Place {
        chain,
        count,
        bytes,
    })
}

// One batch more, where a whole one stands there. After an `Err` the machine is of no use.
fn take_batch<R: Read, M: StateMachine>(
    alloc: Global,
    table: &TenantTable,
    machine: &mut M,
    place: &mut Place,
    scratch: &mut Scratch,
    ahead: &mut ReadAhead,
    reader: &mut Watched<R>,
) -> Result<bool, RecoveryFault>
    requires { IsChain place.old.chain }
    ensures { MatchResult result (Takes table.now (prepend_known ahead.old (R.remaining (inner_of reader.old))) (prepend_known ahead.new (R.remaining (inner_of reader.new))) (M.state machine.old) (M.state machine.new) place.old place.new) (StopsIn table.now (prepend_known ahead.old (R.remaining (inner_of reader.old))) (M.state machine.old) place.old (has_failed reader.new)) }
{
    let front = match front_at(ahead, reader, &place.chain) {
        Ok(front) => front,
        Err(fault) => return Err(fault),
    };
    if !front.is_batch {
        return Ok(false);
    }
    let (lines, rest) = ahead.as_slice().split_at(front.size);
    match replay_lines(
        alloc,
        table,
        machine,
        &place.chain,
        lines,
        place.count,
        scratch,
    ) {
        Err(stop) => Err(RecoveryFault::Record(stop)),
        Ok(count) => match place_behind(place, count, front.size + COMMIT, rest) {
            None => Err(RecoveryFault::TooMany),
            Some(next) => {
                *place = next;
                ahead.consume(front.size + COMMIT);
                Ok(true)
            }
        },
    }
}

// Steps the records of the whole batches behind the first line.
fn recover_batches<R: Read, M: StateMachine, P: Onlooker>(
    alloc: Global,
    table: &TenantTable,
    machine: &mut M,
    ahead: &mut ReadAhead,
    reader: &mut Watched<R>,
    onlooker: &mut P,
) -> Result<Recovered, RecoveryFault>
    requires { M.state machine.old ≡ opening table.now }
    ensures { (file : Option (List ℕ)) → Consumes file (prepend_known ahead.old (R.remaining (inner_of reader.old))) heading → MatchResult result (Recovers table.now file (M.state machine.new)) (Fails table.now file (has_failed reader.new)) }
{
    let mut scratch = Scratch::new(alloc);
    let mut place = first_place();
    for batches in 0..u64::MAX {
        match take_batch(
            alloc,
            table,
            machine,
            &mut place,
            &mut scratch,
            ahead,
            reader,
        ) {
            Err(fault) => return Err(fault),
            Ok(true) => onlooker.tell(place.count, place.bytes),
            Ok(false) => match hides_batch(ahead, reader) {
                Err(fault) => return Err(fault),
                Ok(true) => return Err(RecoveryFault::Damaged(place.bytes)),
                Ok(false) => {
                    return Ok(Recovered {
                        chain: place.chain,
                        batches,
                        count: place.count,
                        bytes: place.bytes,
                    });
                }
            },
        }
    }
    Err(RecoveryFault::TooMany)
}

/// Steps the records of the whole batches of a journal on a machine that is as the table opens, and tells how
/// far they go. The reader stands at the file's beginning. Where a batch isn't whole, the journal ends in front
/// of it; but where a whole one stands behind that, it is damaged. After an `Err` the machine is of no use.
pub fn recover<R: Read, M: StateMachine, P: Onlooker>(
    alloc: Global,
    table: &TenantTable,
    machine: &mut M,
    reader: &mut Watched<R>,
    onlooker: &mut P,
) -> Result<Recovered, RecoveryFault>
    requires { M.state machine.old ≡ opening table.now }
    ensures ok { IfOk result (λ r. Recovers table.now (R.remaining (inner_of reader.old)) (M.state machine.new) r ⊎ Opens table.now (R.remaining (inner_of reader.old)) (M.state machine.new) r) }
    ensures err { IfErr result (λ fault. Fails table.now (R.remaining (inner_of reader.old)) (has_failed reader.new) fault) }
{
    let Ok(mut ahead) = ReadAhead::new(alloc) else {
        return Err(RecoveryFault::NoMemory);
    };
    match take_heading(&mut ahead, reader) {
        Err(fault) => Err(fault),
        Ok(false) => Ok(Recovered {
            chain: FIRST,
            batches: 0,
            count: 0,
            bytes: 0,
        }),
        Ok(true) => recover_batches(alloc, table, machine, &mut ahead, reader, onlooker),
    }
}
