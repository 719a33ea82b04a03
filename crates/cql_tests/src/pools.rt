// Benches that are handed out and put back: what stands for a query is taken out once it is old, once nobody
// has the query, and where there is no room for what another one keeps.
use crate::pins::{PinRequest, pin_of_query};
use cql_eval::{Lender, Pin, Pool, QueryKey};
use cql_ops::Operator;
use cql_plain::{PlainOperator, plain_bench};
use cql_plan::Plan;
use std::alloc::{AllocError, Global};
use std::sync::Arc;
use std::test::Fail;

const ASKED: PinRequest = PinRequest {
    text: "Select Rstream(*) From s [Range 5]",
    rows: &[(1, 1), (2, 2)],
    settled: 0,
    base: 0,
    from: 1,
    next: 3,
    limit: 10,
};

// What a bench keeps behind an answer is less.
const ROOM: u64 = 5_000;

fn one_bench(alloc: Global, room: u64) -> Result<Pool<PlainOperator>, AllocError> {
    Pool::new(alloc, vec![in alloc; plain_bench(alloc)]?, room)
}

fn two_benches(alloc: Global, room: u64) -> Result<Pool<PlainOperator>, AllocError> {
    Pool::new(
        alloc,
        vec![in alloc; plain_bench(alloc), plain_bench(alloc)]?,
        room,
    )
}

fn three_benches(alloc: Global, room: u64) -> Result<Pool<PlainOperator>, AllocError> {
    Pool::new(
        alloc,
        vec![in alloc; plain_bench(alloc), plain_bench(alloc), plain_bench(alloc)]?,
        room,
    )
}

// The query that a bench of the pool answers, where one does. The bench is put back at the time, where there
// is room for it.
fn answers<O: Operator>(
    alloc: Global,
    pool: &mut Pool<O>,
    now: u64,
) -> Result<Option<Arc<Plan>>, Fail> {
    let (pin, query) = pin_of_query(alloc, &ASKED)?;
    let Some(mut bench) = pool.take(&pin) else {
        return Ok(None);
    };
    let is_answered = bench.answer(alloc, pin).is_ok();
    if is_answered && pool.put(bench, now).is_none() {
        return Ok(Some(query));
    }
    Ok(None)
}

// Whether a bench that was put back before the time stands for a query. It then stands for none.
fn lets_go<O: Operator>(alloc: Global, pool: &mut Pool<O>, since: u64) -> bool {
    let Some(mut bench) = pool.take_unused(since) else {
        return false;
    };
    bench.clear(alloc);
    pool.put(bench, since).is_none()
}

// Whether benches are let go that were put back before a time, or whose query is gone, and no others.
fn lets_old_go<O: Operator>(alloc: Global, pool: &mut Pool<O>) -> Result<bool, Fail> {
    let is_unused = !lets_go(alloc, pool, 9);
    let first = answers(alloc, pool, 5)?;
    let is_kept = !lets_go(alloc, pool, 5);
    let is_old = lets_go(alloc, pool, 6);
    let is_gone = !lets_go(alloc, pool, 9);
    let is_first = first.is_some();
    let again = answers(alloc, pool, 9)?;
    let is_still_kept = !lets_go(alloc, pool, 9);
    let is_again = again.is_some();
    drop(again);
    let is_dropped = lets_go(alloc, pool, 0);
    Ok(
        is_unused
            && is_first
            && is_kept
            && is_old
            && is_gone
            && is_again
            && is_still_kept
            && is_dropped,
    )
}

#[test]
fn what_is_old_is_let_go(rt: HostRuntime) -> Result<(), Fail> {
    let mut pool = one_bench(rt.alloc(), ROOM)?;
    assert!(rt; lets_old_go(rt.alloc(), &mut pool)?);
    Ok(())
}

// Whether one of two benches that have answered one query is given back.
fn gives_one_back<O: Operator>(alloc: Global, pool: &mut Pool<O>) -> Result<bool, Fail> {
    let (pin, query) = pin_of_query(alloc, &ASKED)?;
    let (pin_too, query_too) = pin_of_query(alloc, &ASKED)?;
    let Some(mut first) = pool.take(&pin) else {
        return Ok(false);
    };
    let Some(mut second) = pool.take(&pin_too) else {
        return Ok(false);
    };
    let are_answered = first.answer(alloc, pin).is_ok() && second.answer(alloc, pin_too).is_ok();
    let is_kept = pool.put(first, 1).is_none();
    let is_given_back = pool.put(second, 1).is_some();
    drop((query, query_too));
    Ok(are_answered && is_kept && is_given_back)
}

#[test]
fn one_bench_stands_for_a_query(rt: HostRuntime) -> Result<(), Fail> {
    let alloc = rt.alloc();
    let mut pool = two_benches(alloc, 1 << 20)?;
    assert!(rt; gives_one_back(alloc, &mut pool)?);
    Ok(())
}

// A pin of one of several queries, by its number.
fn pin_of(alloc: Global, number: usize) -> Result<(Pin, Arc<Plan>), Fail> {
    let (pin, query) = pin_of_query(alloc, &ASKED)?;
    let key = QueryKey {
        owner: 0,
        stream: 0,
        stub: number,
    };
    Ok((pin.of_query(key, 1), query))
}

// How many bytes the bench keeps that has answered a query and was put back; 0 where it wasn't kept.
fn kept_of<O: Operator>(alloc: Global, pool: &mut Pool<O>, number: usize) -> Result<u64, Fail> {
    let (pin, query) = pin_of(alloc, number)?;
    let Some(mut bench) = pool.take(&pin) else {
        return Ok(0);
    };
    let is_answered = bench.answer(alloc, pin).is_ok();
    drop(query);
    let weight = bench.weight();
    if is_answered && pool.put(bench, 1).is_none() {
        return Ok(weight);
    }
    Ok(0)
}

// Whether the bench that is taken out for a query goes on with it. It isn't put back.
fn goes_on<O: Operator>(alloc: Global, pool: &mut Pool<O>, number: usize) -> Result<bool, Fail> {
    let (pin, query) = pin_of(alloc, number)?;
    let goes_on = match pool.take(&pin) {
        Some(bench) => bench.goes_on(),
        None => false,
    };
    drop(query);
    Ok(goes_on)
}

#[test]
fn each_query_has_its_own_bench(rt: HostRuntime) -> Result<(), Fail> {
    let alloc = rt.alloc();
    let mut pool = two_benches(alloc, 1 << 20)?;
    assert!(rt; kept_of(alloc, &mut pool, 1)? > 0);
    assert!(rt; kept_of(alloc, &mut pool, 2)? > 0);
    assert!(rt; goes_on(alloc, &mut pool, 1)?);
    // the other one lets go of what it stood for
    assert!(rt; !goes_on(alloc, &mut pool, 3)?);
    Ok(())
}

// Whether the first query's bench is kept where two have answered the second query at once.
fn keeps_others<O: Operator>(alloc: Global, pool: &mut Pool<O>) -> Result<bool, Fail> {
    let (pin, query) = pin_of(alloc, 2)?;
    let (pin_too, query_too) = pin_of(alloc, 2)?;
    let Some(mut first) = pool.take(&pin) else {
        return Ok(false);
    };
    let Some(mut second) = pool.take(&pin_too) else {
        return Ok(false);
    };
    let are_answered = first.answer(alloc, pin).is_ok() && second.answer(alloc, pin_too).is_ok();
    pool.take_back(alloc, first);
    pool.take_back(alloc, second);
    drop((query, query_too));
    Ok(are_answered && goes_on(alloc, pool, 1)?)
}

#[test]
fn a_bench_without_a_place_wants_no_room(rt: HostRuntime) -> Result<(), Fail> {
    let alloc = rt.alloc();
    let weight = kept_of(alloc, &mut one_bench(alloc, ROOM)?, 1)?;
    // what two keep has room, and not what three do
    let mut pool = three_benches(alloc, weight.saturating_mul(2))?;
    assert!(rt; weight > 0 && kept_of(alloc, &mut pool, 1)? == weight);
    assert!(rt; keeps_others(alloc, &mut pool)?);
    Ok(())
}

#[test]
fn what_was_used_longest_ago_makes_room(rt: HostRuntime) -> Result<(), Fail> {
    let mut pool = one_bench(rt.alloc(), ROOM)?;
    assert!(rt; answers(rt.alloc(), &mut pool, 5)?.is_some());
    assert!(rt; pool.take_excess(ROOM + 1).is_none());
    assert!(rt; pool.take_excess(ROOM).is_some());
    let mut small = one_bench(rt.alloc(), 1)?;
    assert!(rt; answers(rt.alloc(), &mut small, 5)?.is_none());
    Ok(())
}
