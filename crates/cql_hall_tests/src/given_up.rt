// Answers that another thread gives up: what is joined has 8,000,000,000 combinations of rows, and the
// same bench answers the next pin.

use crate::made::{Unmade, many_table};
use cql_core::{
    BenchOf, Block, Command, Core, Operator, Output, Pin, Step, TenantId, Warm, prepare,
};
use cql_groups::GroupShape;
use cql_joins::KeyedJoin;
use cql_ops::{Cancellation, mixed_bench};
use cql_plain::plain_bench;
use cql_value::{Row, Text, Value};
use cql_wire::{Scratch, read_command};
use std::alloc::Global;
use std::sync::atomic::{AtomicBool, Ordering};
use std::test::Fail;
use std::thread;
use std::thread::Threads;
use std::time::{Clock, Duration};

const ROWS: i64 = 2000;

const STREAM: &str =
    "{\"columns\":[[\"k\",\"int\"],[\"v\",\"int\"]],\"do\":\"stream\",\"name\":\"s\"}";

// No row meets it, which each pair of rows tells only with a third one.
const NO_EQUAL_COLUMNS: &str = "{\"do\":\"query\",\"name\":\"q\",\"text\":\
\"Select Istream(x.v) From s x, s y, s z Where x.v < y.v And y.v < z.v And z.v < x.v\"}";

const ONE_KEY: &str = "{\"do\":\"query\",\"name\":\"q\",\"text\":\
\"Select Istream(x.v) From s x, s y, s z Where x.k = y.k And y.k = z.k \
And x.v < y.v And y.v < z.v And z.v < x.v\"}";

const NEXT: &str = "{\"do\":\"query\",\"name\":\"n\",\"text\":\
\"Select Istream(x.v) From s x, s y Where x.v = y.v And x.v = 7\"}";

const BEAT: &str = "{\"at\":9,\"do\":\"beat\",\"stream\":\"s\"}";

const FETCH: &str = "{\"do\":\"fetch\",\"name\":\"q\"}";

const FETCH_NEXT: &str = "{\"do\":\"fetch\",\"name\":\"n\"}";

fn step(alloc: Global, core: &mut Core, tenant: TenantId, line: &str) -> Result<Step, Unmade> {
    let mut scratch = Scratch::new(alloc);
    let (_tenant, command) = read_command(alloc, line.as_bytes(), &mut scratch)?;
    let prepared = prepare(alloc, command)?;
    Ok(core.step(alloc, tenant, &prepared))
}

fn put(alloc: Global, core: &mut Core, tenant: TenantId, number: i64) -> Result<(), Unmade> {
    let values = Vec::from_array(alloc, [Value::Number(1), Value::Number(number)])?;
    let row = Row::new(alloc, values)?;
    let stream = Text::new(alloc, "s")?;
    let command = Command::Put { stream, at: 5, row };
    let prepared = prepare(alloc, command)?;
    let _step = core.step(alloc, tenant, &prepared);
    Ok(())
}

// A core with the rows of one key and of one instant, and two queries over them.
fn core_of(alloc: Global, text: &str) -> Result<(Core, TenantId), Unmade> {
    let table = many_table(alloc)?;
    let tenant = table.find("a").ok_or(Unmade::Wrong)?;
    let mut core = Core::new(alloc, &table)?;
    for line in &[STREAM, text, NEXT] {
        let _step = step(alloc, &mut core, tenant, line)?;
    }
    for number in 0..ROWS {
        put(alloc, &mut core, tenant, number)?;
    }
    let _step = step(alloc, &mut core, tenant, BEAT)?;
    Ok((core, tenant))
}

fn pin_of(alloc: Global, core: &mut Core, tenant: TenantId, line: &str) -> Result<Pin, Unmade> {
    match step(alloc, core, tenant, line)? {
        Step::Pinned(pin) => Ok(pin),
        _ => Err(Unmade::Wrong),
    }
}

// Sets the flag again and again until it's told that all is done.
fn set_until(clock: &impl Clock, flag: &Cancellation, done: &AtomicBool) {
    for _ in 0..60_000u64 {
        if done.load(Ordering::SeqCst) {
            return;
        }
        thread::sleep(clock, Duration::from_millis(1));
        flag.set();
    }
}

// Whether an answer is given up by the other thread, and the bench.
fn give_up<R: Threads + Clock + Sync, O: Operator>(
    rt: &R,
    alloc: Global,
    bench: Warm<O>,
    flag: &Cancellation,
    pin: Pin,
) -> (Warm<O>, bool) {
    let done = AtomicBool::new(false);
    let told = &done;
    let (_, answered) = thread::join(
        rt,
        || set_until(rt, flag, told),
        move || {
            let mut bench = bench;
            let is_given_up = bench.answer(alloc, pin).is_err();
            told.store(true, Ordering::SeqCst);
            (bench, is_given_up)
        },
    );
    answered
}

// Whether they are one row, of the number 7, at the instant 5.
fn are_seven(blocks: &[Block]) -> bool {
    let mut count = 0u64;
    let mut found = false;
    for block in blocks {
        if let Output::Rows(rows) = &block.output {
            for row in rows.as_slice() {
                count = count.saturating_add(1);
                found = block.from == 5 && block.to == 5 && is_seven(row);
            }
        }
    }
    found && count == 1
}

fn is_seven(row: &Row) -> bool {
    match row.values() {
        [Value::Number(number)] => *number == 7,
        _ => false,
    }
}

// Whether an answer of this bench is given up, and the next one isn't.
fn goes_on<R: Threads + Clock + Sync, O: Operator>(
    rt: &R,
    alloc: Global,
    bench: BenchOf<O>,
    text: &str,
) -> Result<bool, Unmade> {
    let (mut core, tenant) = core_of(alloc, text)?;
    let flag = Cancellation::new(alloc)?;
    let mut bench = bench;
    bench.heed(flag.share()?)?;
    let pin = pin_of(alloc, &mut core, tenant, FETCH)?;
    let (mut bench, is_given_up) = give_up(rt, alloc, Warm::new(bench), &flag, pin);
    let next = pin_of(alloc, &mut core, tenant, FETCH_NEXT)?;
    let answer = bench.answer(alloc, next)?;
    Ok(is_given_up && are_seven(answer.blocks()))
}

#[test]
fn plain_operators_give_up(rt: HostRuntime) -> Result<(), Fail> {
    let alloc = rt.alloc();
    assert!(rt; goes_on(&rt, alloc, plain_bench(alloc), NO_EQUAL_COLUMNS)?);
    assert!(rt; goes_on(&rt, alloc, plain_bench(alloc), ONE_KEY)?);
    Ok(())
}

#[test]
fn keyed_operators_give_up(rt: HostRuntime) -> Result<(), Fail> {
    let alloc = rt.alloc();
    let joins = (KeyedJoin::new(alloc), KeyedJoin::new(alloc));
    let shapes = (GroupShape::new(alloc), GroupShape::new(alloc));
    let bench = mixed_bench(alloc, joins, shapes);
    assert!(rt; goes_on(&rt, alloc, bench, ONE_KEY)?);
    Ok(())
}
