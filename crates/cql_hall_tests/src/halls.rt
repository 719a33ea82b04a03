// Halls of two threads. What each test looks at doesn't depend on the schedule.
use crate::holding::Holding;
use crate::made::{Unmade, table, table_at_last};
use cql_core::{ColumnText, Command, Core, Mark, Refusal, Reply, TenantId, TenantTable, prepare};
use cql_hall::{Bare, Ended, Entry, Gate, Hall, Journal, Kept, OpenGate, Pending, Receipt, Seat};
use cql_plain::plain_bench;
use cql_value::{Items, Row, Text, Value};
use std::alloc::{AllocError, Global};
use std::sync::Wait;
use std::test::Fail;
use std::thread;
use std::thread::Threads;
use std::time::Clock;

const PUTS: u64 = 50;

fn columns(alloc: Global) -> Result<Items<ColumnText>, AllocError> {
    let name = Text::new(alloc, "v")?;
    let kind = Text::new(alloc, "int")?;
    Ok(Items::from_vec(Vec::from_array(alloc, [ColumnText { name, kind }])?))
}

fn stream(alloc: Global, name: &str) -> Result<Command, AllocError> {
    let columns = columns(alloc)?;
    let name = Text::new(alloc, name)?;
    Ok(Command::Stream { name, columns })
}

fn put(alloc: Global, stream: &str, at: u64) -> Result<Command, AllocError> {
    let row = Row::new(alloc, Vec::from_array(alloc, [Value::Number(1)])?)?;
    let stream = Text::new(alloc, stream)?;
    Ok(Command::Put { stream, at, row })
}

fn query(alloc: Global) -> Result<Command, AllocError> {
    let name = Text::new(alloc, "q")?;
    let text = Text::new(alloc, "Select Istream(*) From s [Rows 2]")?;
    Ok(Command::Query { name, text })
}

fn fetch(alloc: Global) -> Result<Command, AllocError> {
    let name = Text::new(alloc, "q")?;
    Ok(Command::Fetch { name, until: None })
}

// A call that is finished with a bench of its own.
fn finish(alloc: Global, pending: Pending, gate: &impl Gate) -> Receipt {
    pending.finish(alloc, &mut plain_bench(alloc), gate)
}

pub(crate) fn receipt<J: Journal>(
    rt: &impl Wait,
    alloc: Global,
    hall: &Hall<J>,
    seat: &mut Seat,
    gate: &impl Gate,
    command: Command,
) -> Result<Receipt, AllocError> {
    let prepared = prepare(alloc, command)?;
    let pending = hall.call(rt, gate, seat, prepared, &[]);
    Ok(finish(alloc, pending, gate))
}

// What a caller says.
#[derive(Clone, Copy)]
enum Said {
    // Two streams are made.
    Streams,
    // And a query.
    Query,
    // Rows come to a stream, one at each instant.
    Puts(&'static str),
    // One row comes.
    Put,
    Fetch,
}

fn streams(alloc: Global) -> Result<Vec<Command>, AllocError> {
    let mut commands = Vec::new(alloc);
    for name in &["s", "u"] {
        commands.push(stream(alloc, name)?)?;
    }
    Ok(commands)
}

fn puts(alloc: Global, stream: &str) -> Result<Vec<Command>, AllocError> {
    let mut commands = Vec::new(alloc);
    for at in 0..PUTS {
        commands.push(put(alloc, stream, at)?)?;
    }
    Ok(commands)
}

fn one(alloc: Global, command: Command) -> Result<Vec<Command>, AllocError> {
    Ok(Vec::from_array(alloc, [command])?)
}

fn commands(alloc: Global, said: Said) -> Result<Vec<Command>, AllocError> {
    match said {
        Said::Streams => streams(alloc),
        Said::Query => {
            let mut commands = streams(alloc)?;
            commands.push(query(alloc)?)?;
            Ok(commands)
        }
        Said::Puts(stream) => puts(alloc, stream),
        Said::Put => one(alloc, put(alloc, "s", 7)?),
        Said::Fetch => one(alloc, fetch(alloc)?),
    }
}

fn say(
    rt: &impl Wait,
    alloc: Global,
    hall: &Hall<Kept>,
    seat: &mut Seat,
    gate: &impl Gate,
    said: Said,
) -> Result<(), AllocError> {
    for command in commands(alloc, said)? {
        let _receipt = receipt(rt, alloc, hall, seat, gate, command)?;
    }
    Ok(())
}

// A hall and its first tenant.
fn open<J: Journal>(alloc: Global, table: TenantTable) -> Result<(Hall<J>, TenantId), Unmade> {
    let tenant = table.find("a").ok_or(Unmade::Wrong)?;
    let hall = Hall::new(alloc, table)?;
    Ok((hall, tenant))
}

pub(crate) fn hall(alloc: Global) -> Result<(Hall<Kept>, TenantId), Unmade> {
    open(alloc, table(alloc)?)
}

// Whether a core tells each entry its mark, from the opening of the table.
fn is_replayed(alloc: Global, table: &TenantTable, entries: &[Entry]) -> Result<bool, AllocError> {
    let mut core = Core::new(alloc, table)?;
    for entry in entries {
        let step = core.step(alloc, entry.tenant, &entry.prepared);
        if step.mark() != entry.mark {
            return Ok(false);
        }
    }
    Ok(true)
}

fn are_all_done(entries: &[Entry]) -> bool {
    entries.iter().all(|entry| entry.mark == Mark::Ok)
}

// Two callers at once, each on a stream of its own.
fn put_by_two<R: Threads + Wait + Sync>(
    rt: &R,
    alloc: Global,
    hall: &Hall<Kept>,
    one: &mut Seat,
    two: &mut Seat,
) -> Result<(), AllocError> {
    let (first, second) = thread::join(
        rt,
        || say(rt, alloc, hall, one, &OpenGate, Said::Puts("s")),
        || say(rt, alloc, hall, two, &OpenGate, Said::Puts("u")),
    );
    first?;
    second
}

// How many calls the first of two seats made, and how many were kept; whether all were done, and a
// core tells the same.
fn two_at_once<R: Threads + Wait + Sync>(
    rt: &R,
    alloc: Global,
) -> Result<(u64, usize, bool, bool), Unmade> {
    let (hall, tenant) = hall(alloc)?;
    let (mut one, mut two) = (hall.seat(tenant), hall.seat(tenant));
    say(rt, alloc, &hall, &mut one, &OpenGate, Said::Streams)?;
    put_by_two(rt, alloc, &hall, &mut one, &mut two)?;
    let count = one.count();
    let Ended { table, entries } = hall.close(&[one, two]).map_err(|_| Unmade::Wrong)?;
    let is_replayed = is_replayed(alloc, &table, &entries)?;
    Ok((count, entries.len(), are_all_done(&entries), is_replayed))
}

// The puts of each seat have rising times on a stream of their own, and all are accepted: so they
// stand in the entries in the order in which they were made.
#[test]
fn two_seats(rt: HostRuntime) -> Result<(), Fail> {
    assert!(rt; two_at_once(&rt, rt.alloc())? == (52, 102, true, true));
    Ok(())
}

// What is told where a hall is closed without one of its seats, and how many calls it kept.
fn left_out(rt: &impl Wait, alloc: Global) -> Result<(String, usize), Unmade> {
    let (hall, tenant) = hall(alloc)?;
    let (mut one, mut two) = (hall.seat(tenant), hall.seat(tenant));
    say(rt, alloc, &hall, &mut one, &OpenGate, Said::Streams)?;
    say(rt, alloc, &hall, &mut one, &OpenGate, Said::Puts("s"))?;
    say(rt, alloc, &hall, &mut two, &OpenGate, Said::Puts("u"))?;
    match hall.close(&[one]) {
        Ok(_ended) => Err(Unmade::Wrong),
        Err(missing) => Ok((format!(in alloc; "{missing}")?, missing.entries.len())),
    }
}

#[test]
fn a_seat_is_left_out(rt: HostRuntime) -> Result<(), Fail> {
    let (told, kept) = left_out(&rt, rt.alloc())?;
    assert_eq!(rt;
        told.as_str(),
        "the seats counted 52 calls, and 102 were kept"
    );
    assert_eq!(rt; kept, 102);
    Ok(())
}

// A put and a fetch, once the other seat's fetch is pinned. The fetch isn't answered: what the gate
// was told before is noted where it would be.
fn pass_by<C: Clock + Sync>(
    rt: &impl Wait,
    alloc: Global,
    hall: &Hall<Kept>,
    seat: &mut Seat,
    gate: &Holding<C>,
) -> Result<(), AllocError> {
    gate.wait_for_pinned();
    say(rt, alloc, hall, seat, gate, Said::Put)?;
    let prepared = prepare(alloc, fetch(alloc)?)?;
    let pending = hall.call(rt, gate, seat, prepared, &[]);
    let _given_up = pending.finish(alloc, &mut gate.looker(), gate);
    Ok(())
}

// What is kept of the first seat's streams, query and held fetch, and behind it of the other's put
// and fetch, which sees the put.
const MARKS: &[Mark] = &[
    Mark::Ok,
    Mark::Ok,
    Mark::Base(0),
    Mark::Pinned { from: 0, next: 0 },
    Mark::Ok,
    Mark::Pinned { from: 0, next: 7 },
];

fn have_marks(entries: &[Entry], marks: &[Mark]) -> bool {
    entries
        .iter()
        .map(|entry| entry.mark)
        .eq(marks.iter().copied())
}

// The fetch that is held, and beside it the other seat.
fn fetch_beside<R: Threads + Wait + Sync, C: Clock + Sync>(
    rt: &R,
    alloc: Global,
    hall: &Hall<Kept>,
    one: &mut Seat,
    two: &mut Seat,
    gate: &Holding<C>,
) -> Result<(), AllocError> {
    let (first, second) = thread::join(
        rt,
        || say(rt, alloc, hall, one, gate, Said::Fetch),
        || pass_by(rt, alloc, hall, two, gate),
    );
    first?;
    second
}

// Whether the gate wasn't held too long, what it was told, and whether the right calls were kept.
fn held<R: Threads + Wait + Clock + Copy + Sync>(
    rt: R,
    alloc: Global,
) -> Result<(bool, (u64, u64), bool), Unmade> {
    let (hall, tenant) = hall(alloc)?;
    let gate = Holding::new(rt, 2);
    let (mut one, mut two) = (hall.seat(tenant), hall.seat(tenant));
    say(&rt, alloc, &hall, &mut one, &OpenGate, Said::Query)?;
    fetch_beside(&rt, alloc, &hall, &mut one, &mut two, &gate)?;
    let ended = hall.close(&[one, two]).map_err(|_| Unmade::Wrong)?;
    let are_kept = have_marks(&ended.entries, MARKS);
    Ok((!gate.is_expired(), gate.seen(), are_kept))
}

#[test]
fn a_fetch_is_held(rt: HostRuntime) -> Result<(), Fail> {
    // Both fetches, and the put.
    assert!(rt; held(rt, rt.alloc())? == (true, (2, 1), true));
    Ok(())
}

fn hall_at_last(alloc: Global) -> Result<(Hall<Kept>, TenantId), Unmade> {
    match open(alloc, table_at_last(alloc)?) {
        Ok(made) => Ok(made),
        Err(_why) => hall(alloc),
    }
}

fn stream_at_last(alloc: Global, name: &str) -> Result<Command, AllocError> {
    match stream(alloc, name) {
        Ok(command) => Ok(command),
        Err(_why) => stream(alloc, name),
    }
}

// Whether the call was done and has a place, or was told that there was no memory.
fn is_done_or_refused(receipt: &Receipt) -> bool {
    match &receipt.reply {
        Reply::Ok => receipt.place.is_some(),
        Reply::Refused(Refusal::NoMemory) => true,
        _ => false,
    }
}

const NAMES: &[&str] = &["s", "t", "u", "v", "w"];

// Whether five streams are made; or there was no memory for a command, for its entry, or for its
// step.
fn makes_all(
    rt: &impl Wait,
    alloc: Global,
    hall: &Hall<Kept>,
    seat: &mut Seat,
) -> Result<bool, AllocError> {
    let mut are_made = true;
    for name in NAMES {
        let command = stream_at_last(alloc, name)?;
        if let Ok(prepared) = prepare(alloc, command) {
            let pending = hall.call(rt, &OpenGate, seat, prepared, &[]);
            let told = finish(alloc, pending, &OpenGate);
            are_made = are_made && is_done_or_refused(&told);
        }
    }
    Ok(are_made)
}

// Whether the calls are done or refused, how many were made, and whether the hall then closes.
fn without_memory(rt: &impl Wait, alloc: Global) -> Result<(bool, u64, bool), Unmade> {
    let (hall, tenant) = hall_at_last(alloc)?;
    let mut seat = hall.seat(tenant);
    let are_made = makes_all(rt, alloc, &hall, &mut seat)?;
    let count = seat.count();
    Ok((are_made, count, hall.close(&[seat]).is_ok()))
}

// Where one request for memory is refused, at most one call is told so. Without room for its entry
// it has no place, and the hall still closes: `tests/memory` refuses each request in turn.
#[test]
fn a_call_without_memory(rt: HostRuntime) -> Result<(), Fail> {
    let (are_made, count, closes) = without_memory(&rt, rt.alloc())?;
    assert!(rt; are_made && count >= 4 && closes);
    Ok(())
}

// Whether a call is done and has no place, and how many are kept.
fn bare(rt: &impl Wait, alloc: Global) -> Result<(bool, usize), Unmade> {
    let (hall, tenant): (Hall<Bare>, TenantId) = open(alloc, table(alloc)?)?;
    let mut seat = hall.seat(tenant);
    let command = stream(alloc, "s")?;
    let made = receipt(rt, alloc, &hall, &mut seat, &OpenGate, command)?;
    let is_bare = matches!(&made.reply, Reply::Ok) && made.place.is_none();
    let ended = hall.close(&[seat]).map_err(|_| Unmade::Wrong)?;
    Ok((is_bare, ended.entries.len()))
}

#[test]
fn nothing_is_kept(rt: HostRuntime) -> Result<(), Fail> {
    assert!(rt; bare(&rt, rt.alloc())? == (true, 0));
    Ok(())
}
