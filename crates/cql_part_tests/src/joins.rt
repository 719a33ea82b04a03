// Joins: what they have to do, and how often they then asked their condition. Of those that are looked
// up by equal values, under `rt try --test --fail-alloc` one that had no memory must answer rightly once
// it is started again.
use crate::made::{holds, is_row};
use crate::operators::{Case, Rows, Shown, Tells, feed_at_last, gives_up, run, told};
use cql_bag::Change;
use cql_joins::KeyedJoin;
use cql_ops::{OpError, Operator};
use cql_plain::PlainJoin;
use std::alloc::Global;
use std::test::Fail;

/// What a join has to do.
#[derive(Clone, Copy)]
pub(crate) enum Does {
    /// It tells so many rows.
    Tell(usize),
    /// It has no memory while its flag is set, and else tells so many rows.
    GiveUp(usize),
    /// It tells the numbers from 1 to 100, each with itself.
    TellPairs,
    /// It finds more rows than the limit.
    FindTooMany,
}

// Whether each number from 1 to 100 was told with itself.
fn are_told(out: &[Change]) -> bool {
    if out.len() != 100 {
        return false;
    }
    let mut n = 0i64;
    for change in out {
        if n == 100 {
            return false;
        }
        n += 1;
        if !is_row(change, true, &[n, n]) {
            return false;
        }
    }
    true
}

// Whether the pairs are told; once more where memory was refused.
fn tells_pairs<O: Operator>(alloc: Global, op: &mut O, case: &Case) -> Result<bool, OpError> {
    let feed = feed_at_last(alloc, case)?;
    let told = match run(alloc, op, &feed) {
        Err(OpError::NoMemory) => run(alloc, op, &feed),
        told => told,
    };
    Ok(are_told(&told?))
}

fn is_done<O: Operator>(
    alloc: Global,
    op: &mut O,
    case: &Case,
    does: Does,
) -> Result<bool, OpError> {
    match does {
        Does::Tell(rows) => Ok(told(alloc, op, case)?.len() == rows),
        Does::GiveUp(rows) => gives_up(alloc, op, case, rows),
        Does::TellPairs => tells_pairs(alloc, op, case),
        Does::FindTooMany => Ok(tells_pairs(alloc, op, case) == Err(OpError::Oversize)),
    }
}

/// Whether a new keyed join does it, and has then asked its condition so often.
pub(crate) fn keyed(alloc: Global, case: &Case, does: Does, asked: u64) -> Result<bool, OpError> {
    let mut join = KeyedJoin::new(alloc);
    let before = join.tried();
    let is_done = is_done(alloc, &mut join, case, does)?;
    Ok(is_done && before == 0 && join.tried() == asked)
}

/// Whether a new plain join does.
pub(crate) fn plain(alloc: Global, case: &Case, does: Does, asked: u64) -> Result<bool, OpError> {
    let mut join = PlainJoin::new(alloc);
    let is_done = is_done(alloc, &mut join, case, does)?;
    Ok(is_done && join.tried() == asked)
}

// The same hundred rows in both ports.
const TWO_PORTS: Case = Case {
    shown: Shown::Pairs,
    rows: &[Rows::Both(0, 1, 101), Rows::Both(1, 1, 101)],
    limit: 1000,
    tells: Tells::AtLast,
};

static PAIRS: Case = TWO_PORTS;

#[test]
fn equal_rows_are_looked_up(rt: HostRuntime) -> Result<(), Fail> {
    holds(keyed(rt.alloc(), &PAIRS, Does::TellPairs, 100))
}

static TOO_MANY: Case = Case {
    limit: 9,
    ..TWO_PORTS
};

#[test]
fn few_are_found_past_the_limit(rt: HostRuntime) -> Result<(), Fail> {
    // The rows are counted on past the limit, and nothing is looked up anew.
    holds(keyed(rt.alloc(), &TOO_MANY, Does::FindTooMany, 100))
}
