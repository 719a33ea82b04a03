// Blocks.
ghost use Rattle.std.specs.Prelude.{◌≡◌, IfOk};
ghost use Rattle.cql_plan.specs.Outcome.{Answers};
ghost use Rattle.cql_plan.specs.Sources.{AreBounded};
ghost use Rattle.cql_plan.specs.Typing as spec;

use crate::error::{PlanError, PlanFault};
use crate::item::{TypedItem, groups_of, is_grouped, items_of};
use crate::lookup::Lookup;
use crate::node::{Item, Join, Node, Shape};
use crate::plan::{Branch, Input};
use crate::row::{Field, kinds_of};
use crate::source::{BlockInput, are_apart, joined_of, sources};
use crate::typed::where_of;
use cql_syntax::syntax::SelectBlock;
use cql_value::{ColumnType, Items};
use cql_window::once_each;
use std::alloc::{AllocError, Global};

/// What a block gives that passed its checks: its inputs, its nodes and the types of its columns.
#[derive(Drop)]
pub(crate) struct Checked {
    pub(crate) inputs: Items<Input>,
    pub(crate) branch: Branch,
    pub(crate) kinds: Items<ColumnType>,
}

/// What the items of a block show, and what each gives.
#[derive(Drop)]
pub(crate) struct Selected {
    pub(crate) items: Items<Item>,
    pub(crate) kinds: Items<ColumnType>,
}

fn selected_of(alloc: Global, typed: Vec<TypedItem>) -> Result<Selected, AllocError>
    ensures { IfOk result (λ s. s ≡ spec.selected_of typed.items) }
{
    let mut items = Items::new(alloc);
    let mut kinds = Items::new(alloc);
    for typed in typed {
        kinds.push(typed.kind)?;
        items.push(typed.item)?;
    }
    Ok(Selected { items, kinds })
}

fn distinct_of(
    alloc: Global,
    distinct: bool,
    kinds: &[ColumnType],
) -> Result<Option<Node>, AllocError>
    ensures { IfOk result (λ n. n ≡ spec.distinct_of distinct kinds.now) }
{
    if distinct {
        Ok(Some(Node::Distinct(Items::from_slice(alloc, kinds)?)))
    } else {
        Ok(None)
    }
}

// What a block gives that passed its checks.
fn checked_of(
    alloc: Global,
    block: &SelectBlock,
    inputs: Items<Input>,
    join: Node,
    row: &[Field],
    groups: Items<usize>,
    typed: Vec<TypedItem>,
) -> Result<Checked, AllocError>
    ensures { IfOk result (λ c. c ≡ spec.checked_of block.now.distinct inputs join row.now groups typed.items) }
{
    let columns = kinds_of(alloc, row)?;
    let groups = once_each(alloc, groups.as_slice())?;
    let Selected { items, kinds } = selected_of(alloc, typed)?;
    let shape = Node::Shape(Shape {
        columns,
        items,
        groups,
    });
    let distinct = distinct_of(alloc, block.distinct, kinds.as_slice())?;
    let branch = Branch {
        join,
        shape,
        distinct,
    };
    Ok(Checked {
        inputs,
        branch,
        kinds,
    })
}

// WHERE, then GROUP BY, then the items, each from the left, over the columns of the inputs.
#[tactic(auto, unfolding(crate::specs::Typing::body_of))]
fn body_of(
    alloc: Global,
    sources: Vec<BlockInput>,
    block: &SelectBlock,
) -> Result<Checked, PlanError>
    ensures { Answers (spec.body_of sources.items block.now) result }
{
    let (inputs, ports, row) = joined_of(alloc, sources)?.into_parts();
    let row = row.as_slice();
    let condition = where_of(alloc, row, &block.condition)?;
    let join = Node::Join(Join { ports, condition });
    let groups = groups_of(alloc, row, block.groups.as_slice())?;
    let grouped = is_grouped(block);
    let items = items_of(alloc, row, grouped, groups.as_slice(), &block.selection)?;
    Ok(checked_of(alloc, block, inputs, join, row, groups, items)?)
}

/// A block: its inputs from the left, then their aliases, then the rest.
#[tactic(auto, unfolding(crate::specs::Typing::block_of))]
pub(crate) fn block_of<L: Lookup>(
    alloc: Global,
    lookup: &L,
    block: &SelectBlock,
) -> Result<Checked, PlanError>
    requires { AreBounded block.now.inputs }
    ensures { Answers (spec.block_of (L.readable lookup.now) block.now) result }
{
    let sources = sources(alloc, lookup, block.inputs.as_slice())?;
    if !are_apart(&sources) {
        return Err(PlanError::Refused(PlanFault::AmbiguousColumn));
    }
    body_of(alloc, sources, block)
}
