// DISTINCT and set operations look at the flag by which an answer is given up.
use crate::made::holds;
use crate::operators::{Case, Rows, Shown, Tells, gives_up};
use cql_ops::{DistinctOp, SetOperation};
use std::test::Fail;

// Each row is pushed, looked at as it is told, and told: more steps than stand between two looks, and
// fewer without any of the three.
const OF_ONE_PORT: Case = Case {
    shown: Shown::Distinct,
    rows: &[Rows::Both(0, 0, 400)],
    limit: 1000,
    tells: Tells::AtLast,
};

static DISTINCT: Case = OF_ONE_PORT;

static UNION: Case = Case {
    shown: Shown::UnionAll,
    ..OF_ONE_PORT
};

#[test]
fn distinct_is_given_up(rt: HostRuntime) -> Result<(), Fail> {
    let alloc = rt.alloc();
    holds(gives_up(alloc, &mut DistinctOp::new(alloc), &DISTINCT, 400))
}

#[test]
fn a_set_operation_is_given_up(rt: HostRuntime) -> Result<(), Fail> {
    let alloc = rt.alloc();
    holds(gives_up(alloc, &mut SetOperation::new(alloc), &UNION, 400))
}
