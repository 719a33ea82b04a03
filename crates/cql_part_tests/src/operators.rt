// What operators are started with and told: nodes over ports of one or two columns of numbers, and
// the rows that come into them.
ghost use Rattle.std.specs.Prelude.{◌≡◌, false, replicate, IfOk, OnOk, OnErr};
ghost use Rattle.std.specs.List.{All};
ghost use Rattle.cql_value.specs.Schema.{HasTypes};
ghost use Rattle.cql_part_tests.specs.Numbers.{columns_of, IsOver, IsComing};

use crate::made::number_row;
use cql_bag::Change;
use cql_ops::{Cancellation, OpError, Operator};
use cql_plan::{Condition, Expr, Item, Join, Node, Operand, SetOp, Shape};
use cql_syntax::syntax::{Comparison, SetOperator};
use cql_value::{Boxed, ColumnType, Items, Row, Value};
use std::alloc::{AllocError, Global};

/// What has to hold of the joined row, whose columns are counted from 0.
#[derive(Clone, Copy)]
pub(crate) enum Has {
    Equal(usize, usize),
    Less(usize, usize),
    Number(usize, i64),
}

/// A node.
#[derive(Clone, Copy)]
pub(crate) enum Shown {
    /// That of `Select v, Count(*) From s Group By v`.
    Counts,
    /// That of `Select Sum(v), Min(v), Sum(v), Max(v), Min(v) From s`.
    SumAndEnds,
    /// DISTINCT of rows of one number.
    Distinct,
    /// UNION ALL of such rows.
    UnionAll,
    /// The join of `x.v = y.v`.
    Pairs,
    /// A join of so many ports of two columns.
    Join(usize, &'static [Has]),
}

/// Rows that come into a port.
#[derive(Clone, Copy)]
pub(crate) enum Rows {
    /// They have one number in all columns, from the first to below the last.
    Both(usize, i64, i64),
    /// The same in the second column, and the number 1 in the first.
    OneKey(usize, i64, i64),
    /// The same in the first column, and the number 1 in the second.
    OneEnd(usize, i64, i64),
    /// So many have the number 1 in all columns.
    Ones(usize, i64),
}

/// When the operator tells, beside behind the last row.
#[derive(Clone, Copy)]
pub(crate) enum Tells {
    AtLast,
    BehindEach,
    /// Behind a row of this number in its first column.
    Behind(i64),
}

/// What an operator is started with, and the rows that come. Tests name a static one: one that a test made
/// anew would be followed, part by part, through the test's proof.
#[derive(Clone, Copy)]
pub(crate) struct Case {
    pub(crate) shown: Shown,
    pub(crate) rows: &'static [Rows],
    pub(crate) limit: u64,
    pub(crate) tells: Tells,
}

/// A node, how many ports it has, and whether they have two columns.
#[derive(Drop)]
pub(crate) struct Base {
    pub(crate) node: Node,
    pub(crate) ports: usize,
    pub(crate) wide: bool,
}

/// A row that comes into a port, and whether the operator tells behind it.
#[derive(Drop)]
pub(crate) struct Put {
    pub(crate) port: usize,
    pub(crate) change: Change,
    pub(crate) tells: bool,
}

/// What a case says, made: the node, and its rows.
#[derive(Drop)]
pub(crate) struct Feed {
    pub(crate) base: Base,
    pub(crate) limit: u64,
    pub(crate) puts: Vec<Put>,
}

fn condition(has: Has) -> Condition {
    let (left, comparison, right) = match has {
        Has::Equal(left, right) => (left, Comparison::Equal, Operand::Column(right)),
        Has::Less(left, right) => (left, Comparison::Less, Operand::Column(right)),
        Has::Number(left, number) => {
            let constant = Operand::Constant(Value::Number(number));
            (left, Comparison::Equal, constant)
        }
    };
    Condition::Compare(Operand::Column(left), comparison, right)
}

fn both(alloc: Global, left: Condition, right: Condition) -> Result<Condition, AllocError> {
    let right = Boxed::new(alloc, right)?;
    Ok(Condition::And(Boxed::new(alloc, left)?, right))
}

fn condition_of(alloc: Global, all: &[Has]) -> Result<Condition, AllocError> {
    let Some((last, others)) = all.split_last() else {
        return Ok(Condition::Always);
    };
    let mut later = condition(*last);
    for one in others.iter().rev() {
        later = both(alloc, condition(*one), later)?;
    }
    Ok(later)
}

fn columns(alloc: Global, wide: bool) -> Result<Items<ColumnType>, AllocError>
    ensures { IfOk result (λ columns. columns ≡ columns_of wide) }
{
    if wide {
        Items::from_slice(alloc, &[ColumnType::Number, ColumnType::Number])
    } else {
        Items::from_slice(alloc, &[ColumnType::Number])
    }
}

fn ports_of(alloc: Global, count: usize, wide: bool) -> Result<Items<Items<ColumnType>>, AllocError>
    ensures { IfOk result (λ ports. ports ≡ replicate count (columns_of wide)) }
{
    let mut ports = Vec::new(alloc);
    for done in 0..count {
        ports.push(columns(alloc, wide)?)?;
    }
    Ok(Items::from_vec(ports))
}

fn join(alloc: Global, ports: usize, wide: bool, all: &[Has]) -> Result<Base, AllocError>
    ensures { IfOk result (λ base. IsOver base.ports base.wide base.node) }
{
    let condition = condition_of(alloc, all)?;
    let columns = ports_of(alloc, ports, wide)?;
    let node = Node::Join(Join {
        ports: columns,
        condition,
    });
    Ok(Base { node, ports, wide })
}

fn shape(alloc: Global, items: Vec<Item>, groups: &[usize]) -> Result<Base, AllocError>
    ensures { IfOk result (λ base. IsOver base.ports base.wide base.node) }
{
    let items = Items::from_vec(items);
    let groups = Items::from_slice(alloc, groups)?;
    let node = Node::Shape(Shape {
        columns: columns(alloc, false)?,
        items,
        groups,
    });
    Ok(Base {
        node,
        ports: 1,
        wide: false,
    })
}

// The node that is meant.
fn base_of(alloc: Global, shown: Shown) -> Result<Base, AllocError>
    ensures { IfOk result (λ base. IsOver base.ports base.wide base.node) }
{
    match shown {
        Shown::Counts => {
            let items = vec![in alloc; Item::Value(Expr::Column(0)), Item::Count]?;
            shape(alloc, items, &[0])
        }
        Shown::SumAndEnds => {
            let items = vec![in alloc;
                Item::Sum(0),
                Item::Min(0),
                Item::Sum(0),
                Item::Max(0),
                Item::Min(0),
            ]?;
            shape(alloc, items, &[])
        }
        Shown::Distinct => Ok(Base {
            node: Node::Distinct(columns(alloc, false)?),
            ports: 1,
            wide: false,
        }),
        Shown::UnionAll => {
            let columns = columns(alloc, false)?;
            let kind = SetOperator::UnionAll;
            Ok(Base {
                node: Node::SetOp(SetOp { kind, columns }),
                ports: 2,
                wide: false,
            })
        }
        Shown::Pairs => join(alloc, 2, false, &[Has::Equal(0, 1)]),
        Shown::Join(ports, all) => join(alloc, ports, true, all),
    }
}

fn row(alloc: Global, wide: bool, first: i64, second: i64) -> Result<Row, AllocError>
    ensures { IfOk result (HasTypes (columns_of wide)) }
{
    if wide {
        let values = vec![in alloc; Value::Number(first), Value::Number(second)]?;
        Row::new(alloc, values)
    } else {
        number_row(alloc, first)
    }
}

// A row of these numbers, of which the second is left out in a port of one column, comes.
fn coming(alloc: Global, wide: bool, first: i64, second: i64) -> Result<Change, AllocError>
    ensures { IfOk result (IsComing wide) }
{
    let row = row(alloc, wide, first, second)?;
    Ok(Change { plus: true, row })
}

impl Tells {
    // Whether it tells behind a row of this number in its first column.
    fn is_behind(self, first: i64) -> bool {
        match self {
            Tells::AtLast => false,
            Tells::BehindEach => true,
            Tells::Behind(number) => first == number,
        }
    }
}

fn put_of(
    alloc: Global,
    wide: bool,
    port: usize,
    first: i64,
    second: i64,
    tells: Tells,
) -> Result<Put, AllocError>
    ensures { IfOk result (λ put. IsComing wide put.change) }
{
    let change = coming(alloc, wide, first, second)?;
    let tells = tells.is_behind(first);
    Ok(Put {
        port,
        change,
        tells,
    })
}

fn add_rows(
    alloc: Global,
    wide: bool,
    rows: Rows,
    tells: Tells,
    puts: &mut Vec<Put>,
) -> Result<(), AllocError>
    requires { All (λ put. IsComing wide put.change) puts.old.items }
    ensures { OnOk result (All (λ put. IsComing wide put.change) puts.new.items) }
{
    let (port, from, end, each_first, each_second) = match rows {
        Rows::Both(port, from, end) => (port, from, end, true, true),
        Rows::OneKey(port, from, end) => (port, from, end, false, true),
        Rows::OneEnd(port, from, end) => (port, from, end, true, false),
        Rows::Ones(port, times) => (port, 0, times, false, false),
    };
    for n in from..end {
        let first = if each_first { n } else { 1 };
        let second = if each_second { n } else { 1 };
        puts.push(put_of(alloc, wide, port, first, second, tells)?)?;
    }
    Ok(())
}

fn puts_of(alloc: Global, wide: bool, case: &Case) -> Result<Vec<Put>, AllocError>
    ensures { IfOk result (λ puts. All (λ put. IsComing wide put.change) puts.items) }
{
    let mut puts = Vec::new(alloc);
    for rows in case.rows {
        add_rows(alloc, wide, *rows, case.tells, &mut puts)?;
    }
    Ok(puts)
}

/// What the case says, made.
pub(crate) fn feed_of(alloc: Global, case: &Case) -> Result<Feed, AllocError>
    ensures base { IfOk result (λ feed. IsOver feed.base.ports feed.base.wide feed.base.node) }
    ensures rows { IfOk result (λ feed. All (λ put. IsComing feed.base.wide put.change) feed.puts.items) }
{
    let base = base_of(alloc, case.shown)?;
    let puts = puts_of(alloc, base.wide, case)?;
    Ok(Feed {
        base,
        limit: case.limit,
        puts,
    })
}

/// The same, made once more where memory was refused.
pub(crate) fn feed_at_last(alloc: Global, case: &Case) -> Result<Feed, AllocError>
    ensures base { IfOk result (λ feed. IsOver feed.base.ports feed.base.wide feed.base.node) }
    ensures rows { IfOk result (λ feed. All (λ put. IsComing feed.base.wide put.change) feed.puts.items) }
{
    match feed_of(alloc, case) {
        Ok(feed) => Ok(feed),
        Err(_why) => feed_of(alloc, case),
    }
}

/// Started anew, the operator is pushed the rows, and tells behind those that say so. One of another
/// kind isn't started, so no caller has to show its kind.
#[tactic(auto, using(crate::proofs::Numbers::can_push, crate::proofs::Numbers::has_pushed, crate::proofs::Numbers::has_started, crate::proofs::Numbers::has_emitted))]
pub(crate) fn begin<O: Operator>(
    op: &mut O,
    feed: &Feed,
    out: &mut Vec<Change>,
) -> Result<(), OpError>
    requires base { IsOver feed.now.base.ports feed.now.base.wide feed.now.base.node }
    requires rows { All (λ put. IsComing feed.now.base.wide put.change) feed.now.puts.items }
    ensures { OnErr result ((O.model_of op.new).running ≡ false) }
{
    let base = &feed.base;
    if base.node.kind() != op.kind() {
        return Ok(());
    }
    op.start(&base.node, feed.limit)?;
    for put in &feed.puts {
        if put.port < base.ports {
            op.push(put.port, &put.change)?;
            if put.tells {
                op.emit(out)?;
            }
        }
    }
    Ok(())
}

/// What it tells so, and at last.
pub(crate) fn run<O: Operator>(
    alloc: Global,
    op: &mut O,
    feed: &Feed,
) -> Result<Vec<Change>, OpError>
    requires base { IsOver feed.now.base.ports feed.now.base.wide feed.now.base.node }
    requires rows { All (λ put. IsComing feed.now.base.wide put.change) feed.now.puts.items }
    ensures { OnErr result ((O.model_of op.new).running ≡ false) }
{
    let mut out = Vec::new(alloc);
    begin(op, feed, &mut out)?;
    op.emit(&mut out)?;
    Ok(out)
}

/// What the operator tells of the case.
pub(crate) fn told<O: Operator>(
    alloc: Global,
    op: &mut O,
    case: &Case,
) -> Result<Vec<Change>, OpError> {
    let feed = feed_of(alloc, case)?;
    run(alloc, op, &feed)
}

/// How many rows it tells.
pub(crate) fn count_told<O: Operator>(
    alloc: Global,
    op: &mut O,
    feed: &Feed,
) -> Result<usize, OpError>
    requires base { IsOver feed.now.base.ports feed.now.base.wide feed.now.base.node }
    requires rows { All (λ put. IsComing feed.now.base.wide put.change) feed.now.puts.items }
{
    Ok(run(alloc, op, feed)?.len())
}

/// A flag that the operator heeds.
pub(crate) fn flag_of<O: Operator>(alloc: Global, op: &mut O) -> Result<Cancellation, AllocError> {
    let flag = Cancellation::new(alloc)?;
    op.heed(flag.share()?);
    Ok(flag)
}

/// Whether the operator has no memory while its flag is set, and else tells so many rows.
pub(crate) fn gives_up<O: Operator>(
    alloc: Global,
    op: &mut O,
    case: &Case,
    rows: usize,
) -> Result<bool, OpError> {
    let feed = feed_of(alloc, case)?;
    let flag = flag_of(alloc, op)?;
    flag.set();
    let is_given_up = count_told(alloc, op, &feed) == Err(OpError::NoMemory);
    flag.clear();
    Ok(is_given_up && count_told(alloc, op, &feed) == Ok(rows))
}
