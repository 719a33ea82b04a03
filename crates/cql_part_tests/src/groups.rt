// Shapes whose groups are kept by their keys. Under `rt try --test --fail-alloc` an operator that
// had no memory must be spent, and its next start must answer rightly.
ghost use Rattle.std.specs.Prelude.{◌≡◌, false};
ghost use Rattle.std.specs.List.{All};
ghost use Rattle.cql_part_tests.specs.Numbers.{IsOver, IsComing};

use crate::made::{holds, is_row};
use crate::operators::{
    Case, Feed, Rows, Shown, Tells, begin, count_told, feed_at_last, feed_of, flag_of, run, told,
};
use cql_bag::Change;
use cql_groups::GroupShape;
use cql_ops::{Cancellation, OpError, Operator};
use cql_plain::PlainShape;
use std::alloc::Global;
use std::test::Fail;

// Whether it answers that it has to be started.
fn is_spent<O: Operator>(alloc: Global, op: &mut O, feed: &Feed) -> bool
    requires { (O.model_of op.old).running ≡ false }
{
    let Some(put) = feed.puts.first() else {
        return false;
    };
    let mut out = Vec::new(alloc);
    op.push(put.port, &put.change) == Err(OpError::Spent)
        && op.emit(&mut out) == Err(OpError::Spent)
}

// Whether each number from 1 to 100 was told once, and then the 1 anew.
fn are_told(out: &[Change]) -> bool {
    let mut key = 0i64;
    let mut left = out;
    while let Some((change, rest)) = left.split_first() {
        if key == 100 {
            break;
        }
        key += 1;
        if !is_row(change, true, &[key, 1]) {
            return false;
        }
        left = rest;
    }
    match left {
        [old, new] => is_row(old, false, &[1, 1]) && is_row(new, true, &[1, 2]),
        _ => false,
    }
}

// Rows of the numbers from 1 to 100, and then one more of the 1.
static HUNDRED_AND_ONE: Case = Case {
    shown: Shown::Counts,
    rows: &[Rows::Both(0, 1, 101), Rows::Ones(0, 1)],
    limit: 1000,
    tells: Tells::Behind(100),
};

// Whether each of a hundred groups is told, and then the one that has a row more. A shape that had no
// memory has to be started, and then tells.
fn tells_one_anew<O: Operator>(alloc: Global, op: &mut O) -> Result<bool, OpError> {
    let feed = feed_at_last(alloc, &HUNDRED_AND_ONE)?;
    let told = match run(alloc, op, &feed) {
        Err(OpError::NoMemory) if is_spent(alloc, op, &feed) => run(alloc, op, &feed),
        told => told,
    };
    Ok(are_told(&told?))
}

// Rows of 4,000 numbers, and then 6,000 more of the 1.
static MANY: Case = Case {
    shown: Shown::Counts,
    rows: &[Rows::Both(0, 0, 4000), Rows::Ones(0, 6000)],
    limit: 1000,
    tells: Tells::AtLast,
};

// Whether 4,000 groups are told, of which one has 6,001 rows.
fn tells_many<O: Operator>(alloc: Global, op: &mut O) -> Result<bool, OpError> {
    let out = told(alloc, op, &MANY)?;
    match out.get(1) {
        Some(one) => Ok(out.len() == 4000 && is_row(one, true, &[1, 6001])),
        None => Ok(false),
    }
}

static HUNDRED: Case = Case {
    shown: Shown::SumAndEnds,
    rows: &[Rows::Both(0, 1, 101)],
    limit: 1000,
    tells: Tells::BehindEach,
};

// Whether 199 rows are told of one group that goes on a hundred times, and its last rows are right.
fn tells_one<O: Operator>(alloc: Global, op: &mut O) -> Result<bool, OpError> {
    let out = told(alloc, op, &HUNDRED)?;
    match out.as_slice() {
        [.., old, new] => Ok(
            out.len() == 199
                && is_row(old, false, &[4950, 1, 4950, 99, 1])
                && is_row(new, true, &[5050, 1, 5050, 100, 1]),
        ),
        _ => Ok(false),
    }
}

static ELEVEN_HUNDRED: Case = Case {
    shown: Shown::Counts,
    rows: &[Rows::Both(0, 0, 1100)],
    limit: 1000,
    tells: Tells::AtLast,
};

// Started anew, the operator is asked to tell of the rows, behind which the flag is set.
fn tell_under<O: Operator>(
    alloc: Global,
    op: &mut O,
    feed: &Feed,
    flag: &Cancellation,
) -> Result<(), OpError>
    requires base { IsOver feed.now.base.ports feed.now.base.wide feed.now.base.node }
    requires rows { All (λ put. IsComing feed.now.base.wide put.change) feed.now.puts.items }
{
    let mut out = Vec::new(alloc);
    flag.clear();
    begin(op, feed, &mut out)?;
    flag.set();
    op.emit(&mut out)
}

// Whether the operator has no memory where the flag is set behind 1,100 rows, and before them; and
// else tells as many rows.
fn gives_up<O: Operator>(alloc: Global, op: &mut O) -> Result<bool, OpError> {
    let feed = feed_of(alloc, &ELEVEN_HUNDRED)?;
    let flag = flag_of(alloc, op)?;
    let behind = tell_under(alloc, op, &feed, &flag) == Err(OpError::NoMemory);
    let before = count_told(alloc, op, &feed) == Err(OpError::NoMemory);
    flag.clear();
    Ok(behind && before && count_told(alloc, op, &feed) == Ok(1100))
}

// What a shape has to do.
#[derive(Clone, Copy)]
enum Does {
    TellOneAnew,
    TellMany,
    TellOne,
    GiveUp,
}

fn is_done<O: Operator>(alloc: Global, op: &mut O, does: Does) -> Result<bool, OpError> {
    match does {
        Does::TellOneAnew => tells_one_anew(alloc, op),
        Does::TellMany => tells_many(alloc, op),
        Does::TellOne => tells_one(alloc, op),
        Does::GiveUp => gives_up(alloc, op),
    }
}

// Whether a new shape does it, and has then computed so many groups.
fn computes(alloc: Global, does: Does, groups: u64) -> Result<bool, OpError> {
    let mut shape = GroupShape::new(alloc);
    let before = shape.remade();
    let is_done = is_done(alloc, &mut shape, does)?;
    Ok(is_done && before == 0 && shape.remade() == groups)
}

#[test]
fn one_group_is_computed_anew(rt: HostRuntime) -> Result<(), Fail> {
    holds(computes(rt.alloc(), Does::TellOneAnew, 101))
}

#[test]
fn many_groups_and_many_rows_of_one(rt: HostRuntime) -> Result<(), Fail> {
    holds(computes(rt.alloc(), Does::TellMany, 4000))
}

#[test]
fn a_shape_without_columns_is_one_group(rt: HostRuntime) -> Result<(), Fail> {
    holds(computes(rt.alloc(), Does::TellOne, 100))
}

#[test]
fn a_keyed_shape_is_given_up(rt: HostRuntime) -> Result<(), Fail> {
    holds(computes(rt.alloc(), Does::GiveUp, 1100))
}

#[test]
fn a_plain_shape_is_given_up(rt: HostRuntime) -> Result<(), Fail> {
    let alloc = rt.alloc();
    holds(gives_up(alloc, &mut PlainShape::new(alloc)))
}
