// The bench of the plain operators.

use crate::plain_join::PlainJoin;
use crate::plain_shape::PlainShape;
use cql_ops::{BenchOf, Mixed, mixed_bench};
use std::alloc::Global;

/// One of the plain operators.
pub type PlainOperator = Mixed<PlainJoin, PlainShape>;

/// A bench of the plain operators. Takes no memory.
pub fn plain_bench(alloc: Global) -> BenchOf<PlainOperator> {
    mixed_bench(
        alloc,
        (PlainJoin::new(alloc), PlainJoin::new(alloc)),
        (PlainShape::new(alloc), PlainShape::new(alloc)),
    )
}
