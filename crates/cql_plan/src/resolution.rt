// The plan of a query.
ghost use Rattle.std.specs.Prelude.{◌≡◌, IfOk, IfErr, IfSome, Ok};
ghost use Rattle.std.specs.List.{list_all, zip};
ghost use Rattle.cql_plan.specs.Outcome.{Answers, Tells};
ghost use Rattle.cql_plan.specs.Sources.{AreBounded};
ghost use Rattle.cql_plan.specs.Typing as spec;
ghost use Rattle.cql_plan.specs.Typing.{typing};

use crate::block::{Checked, block_of};
use crate::error::{PlanError, PlanFault};
use crate::lookup::Lookup;
use crate::node::{Node, SetOp};
use crate::plan::{Combined, OutputKind, Plan, Planned};
use crate::typed::same_kind;
use cql_syntax::syntax::{Query, Second, SetOperator, StreamOperator};
use cql_text::Syntax;
use cql_value::ColumnType;
use std::alloc::{AllocError, Global};

// Without a stream operator the changes are told with their signs.
fn output_of(written: Option<StreamOperator>) -> OutputKind
    ensures { result ≡ spec.output_of written }
{
    match written {
        None => OutputKind::Signed,
        Some(StreamOperator::Istream) => OutputKind::Istream,
        Some(StreamOperator::Dstream) => OutputKind::Dstream,
        Some(StreamOperator::Rstream) => OutputKind::Rstream,
    }
}

// Whether each type is the one beside it.
fn agree(left: &[ColumnType], right: &[ColumnType]) -> bool
    ensures { result ≡ list_all (λ p. spec.same_kind p.0 p.1) (zip left.now right.now) }
{
    left.iter()
        .zip(right)
        .all(|(left, right)| same_kind(*left, *right))
}

// Whether there are as many types, and the same, column by column.
fn same_kinds(left: &[ColumnType], right: &[ColumnType]) -> bool
    ensures { result ≡ spec.same_kinds left.now right.now }
{
    left.len() == right.len() && agree(left, right)
}

// A query of one block.
fn alone(output: OutputKind, first: Checked) -> Planned
    ensures { result ≡ spec.alone output first }
{
    Planned {
        inputs: first.inputs,
        first: first.branch,
        combined: None,
        output,
    }
}

// A query of two blocks.
fn combined(
    output: OutputKind,
    operator: SetOperator,
    first: Checked,
    second: Checked,
) -> Result<Planned, AllocError>
    ensures { IfOk result (λ p. p ≡ spec.combined output operator first second) }
{
    let mut inputs = first.inputs;
    inputs.append(second.inputs)?;
    Ok(Planned {
        inputs,
        first: first.branch,
        combined: Some(Combined {
            branch: second.branch,
            set_op: Node::SetOp(SetOp {
                kind: operator,
                columns: first.kinds,
            }),
        }),
        output,
    })
}

// Two blocks have the same number of columns with the same types.
#[tactic(auto, unfolding(crate::specs::Typing::with_second))]
fn with_second<L: Lookup>(
    alloc: Global,
    lookup: &L,
    output: OutputKind,
    first: Checked,
    written: &Option<Second>,
) -> Result<Planned, PlanError>
    requires { IfSome written.now (λ s. AreBounded s.block.inputs) }
    ensures { Answers (spec.with_second (L.readable lookup.now) output first written.now) result }
{
    match written {
        None => Ok(alone(output, first)),
        Some(written) => {
            let second = block_of(alloc, lookup, &written.block)?;
            if !same_kinds(first.kinds.as_slice(), second.kinds.as_slice()) {
                return Err(PlanError::Refused(PlanFault::TypeMismatch));
            }
            Ok(combined(output, written.operator, first, second)?)
        }
    }
}

#[tactic(auto, unfolding(crate::specs::Typing::typing))]
fn planned<L: Lookup>(alloc: Global, query: &Query, lookup: &L) -> Result<Planned, PlanError>
    requires first { AreBounded query.now.first.inputs }
    requires second { IfSome query.now.second (λ s. AreBounded s.block.inputs) }
    ensures { Answers (typing (L.readable lookup.now) query.now) result }
{
    let first = block_of(alloc, lookup, &query.first)?;
    with_second(alloc, lookup, output_of(query.output), first, &query.second)
}

/// The plan of a query for a caller who may read the streams that `lookup` answers, or its first
/// fault.
pub fn resolve<L: Lookup>(alloc: Global, syntax: &Syntax, lookup: &L) -> Result<Plan, PlanError>
    // What is planned is the typing's.
    ensures found { IfOk result (λ plan. typing (L.readable lookup.now) syntax.now ≡ Ok plan) }
    // What it refuses has the typing's first fault.
    ensures refused { IfErr result (Tells (typing (L.readable lookup.now) syntax.now)) }
{
    let planned = planned(alloc, syntax.query(), lookup)?;
    Ok(Plan::new(planned))
}
