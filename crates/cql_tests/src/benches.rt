// Benches that no line can make.
use cql_ops::{BenchOf, DistinctOp, Operator, SetOperation};
use cql_plain::{PlainJoin, PlainShape};
use cql_plan::OperatorKind;
use cql_plan::OperatorKind::{Distinct, Join, SetOp, Shape};
use std::alloc::Global;
use std::test::Fail;

const SHORTER: [OperatorKind; 6] = [Join, Shape, Distinct, Join, Shape, Distinct];

const TURNED: [OperatorKind; 7] = [Shape, Join, Distinct, Join, Shape, Distinct, SetOp];

const LONGER: [OperatorKind; 8] = [Join, Shape, Distinct, Join, Shape, Distinct, SetOp, SetOp];

// Operators of some kinds in boxes, and the first index at which they are no bench.
const CASES: [(&[OperatorKind], usize); 4] = [(&SHORTER, 6), (&TURNED, 0), (&LONGER, 7), (&[], 0)];

type Boxes = Vec<Box<dyn Operator + Send>>;

fn push_operator(alloc: Global, boxes: &mut Boxes, kind: OperatorKind) -> Result<(), Fail> {
    match kind {
        Join => boxes.push(Box::new(alloc, PlainJoin::new(alloc))?)?,
        Shape => boxes.push(Box::new(alloc, PlainShape::new(alloc))?)?,
        Distinct => boxes.push(Box::new(alloc, DistinctOp::new(alloc))?)?,
        SetOp => boxes.push(Box::new(alloc, SetOperation::new(alloc))?)?,
    }
    Ok(())
}

fn operators(alloc: Global, kinds: &[OperatorKind]) -> Result<Boxes, Fail> {
    let mut boxes = Vec::new(alloc);
    for kind in kinds {
        push_operator(alloc, &mut boxes, *kind)?;
    }
    Ok(boxes)
}

// Whether the operators are refused at that index, and given back in their order.
fn is_no_bench<O: Operator>(boxes: Vec<O>, kinds: &[OperatorKind], wrong: usize) -> bool {
    let Err(found) = BenchOf::new(boxes) else {
        return false;
    };
    found.index == wrong
        && found.boxes.len() == kinds.len()
        && found
            .boxes
            .iter()
            .zip(kinds)
            .all(|(operator, kind)| operator.kind() == *kind)
}

#[test]
fn operators_that_are_no_bench(rt: HostRuntime) -> Result<(), Fail> {
    for (kinds, wrong) in CASES {
        let boxes = operators(rt.alloc(), kinds)?;
        assert!(rt; is_no_bench(boxes, kinds, wrong), "{wrong}");
    }
    Ok(())
}
