// The operators of benches, by how joins and groups are computed.
use cql_groups::GroupShape;
use cql_joins::KeyedJoin;
use cql_ops::{DistinctOp, Mixed, SetOperation};
use cql_plain::{PlainJoin, PlainOperator, PlainShape};
use std::alloc::{AllocError, Global};

/// One of the operators that compute what changes.
pub(crate) type KeyedOperator = Mixed<KeyedJoin, GroupShape>;

// The operators of a bench, in its order. Operators of the caller's own may stand in the place of these.
fn operators<J: Drop, S: Drop>(
    alloc: Global,
    joins: (J, J),
    shapes: (S, S),
) -> Result<Vec<Mixed<J, S>>, AllocError> {
    let (left_join, right_join) = joins;
    let (left_shape, right_shape) = shapes;
    let mut operators = Vec::with_capacity(alloc, 7)?;
    operators.push_reserved(Mixed::Join(left_join));
    operators.push_reserved(Mixed::Shape(left_shape));
    operators.push_reserved(Mixed::Distinct(DistinctOp::new(alloc)));
    operators.push_reserved(Mixed::Join(right_join));
    operators.push_reserved(Mixed::Shape(right_shape));
    operators.push_reserved(Mixed::Distinct(DistinctOp::new(alloc)));
    operators.push_reserved(Mixed::SetOp(SetOperation::new(alloc)));
    Ok(operators)
}

/// The operators of so many benches, which compute all rows anew.
pub(crate) fn plain_lists(
    alloc: Global,
    count: u16,
) -> Result<Vec<Vec<PlainOperator>>, AllocError> {
    let mut lists = Vec::with_capacity(alloc, usize::from(count))?;
    for _ in 0..count {
        let joins = (PlainJoin::new(alloc), PlainJoin::new(alloc));
        let shapes = (PlainShape::new(alloc), PlainShape::new(alloc));
        lists.push(operators(alloc, joins, shapes)?)?;
    }
    Ok(lists)
}

/// The operators of so many benches, which compute what changes.
pub(crate) fn keyed_lists(
    alloc: Global,
    count: u16,
) -> Result<Vec<Vec<KeyedOperator>>, AllocError> {
    let mut lists = Vec::with_capacity(alloc, usize::from(count))?;
    for _ in 0..count {
        let joins = (KeyedJoin::new(alloc), KeyedJoin::new(alloc));
        let shapes = (GroupShape::new(alloc), GroupShape::new(alloc));
        lists.push(operators(alloc, joins, shapes)?)?;
    }
    Ok(lists)
}
