// What a query text says.
use cql_value::{Boxed, Items, Name, Text};

/// What a query tells of each change: what came, what went, or all that is there.
#[derive(Clone, Copy, PartialEq, Eq)]
pub enum StreamOperator {
    Istream,
    Dstream,
    Rstream,
}

/// What stands between two blocks.
#[derive(Clone, Copy, PartialEq, Eq)]
pub enum SetOperator {
    UnionAll,
    ExceptAll,
}

/// A name, perhaps with another before it and a dot between: a column with the alias of its
/// input, or a stream with its owner.
pub struct QualifiedName {
    pub qualifier: Option<Name>,
    pub name: Name,
}

impl Drop for QualifiedName {
    fn drop(self) {
        let QualifiedName {
            qualifier: _,
            name: _,
        } = self;
    }
}

/// A number of 64 bits with a sign, or a text.
pub enum Constant {
    Number(i64),
    Text(Text),
}

impl Drop for Constant {
    fn drop(self) {
        match self {
            Constant::Number(_a) => {}
            Constant::Text(_a) => {}
        }
    }
}

/// What an expression does with two numbers.
#[derive(Clone, Copy, PartialEq, Eq)]
pub enum Operation {
    Add,
    Subtract,
    Multiply,
}

/// An expression, with its brackets as they are written.
pub enum Expression {
    Constant(Constant),
    Column(QualifiedName),
    Bracket(Boxed<Expression>),
    Binary(Operation, Boxed<Expression>, Boxed<Expression>),
}

// A sum of thousands of terms is as many levels deep on the left, hence a loop.
impl Drop for Expression {
    fn drop(mut self) {
        loop {
            match self {
                Expression::Constant(_constant) => return,
                Expression::Column(_column) => return,
                Expression::Bracket(inner) => self = inner.into_inner(),
                Expression::Binary(_, left, right) => {
                    let _right = right.into_inner();
                    self = left.into_inner();
                }
            }
        }
    }
}

/// An aggregate of one column.
#[derive(Clone, Copy)]
pub enum Function {
    Sum,
    Min,
    Max,
}

/// `COUNT(*)`, or a function of a column.
pub enum Aggregate {
    Count,
    Over(Function, QualifiedName),
}

impl Drop for Aggregate {
    fn drop(self) {
        match self {
            Aggregate::Count => {}
            Aggregate::Over(_a, _b) => {}
        }
    }
}

/// What an item shows.
pub enum Shown {
    Expression(Expression),
    Aggregate(Aggregate),
}

impl Drop for Shown {
    fn drop(self) {
        match self {
            Shown::Expression(_a) => {}
            Shown::Aggregate(_a) => {}
        }
    }
}

/// An item of a block, and the name that it is given.
pub struct Item {
    pub shown: Shown,
    pub alias: Option<Name>,
}

impl Drop for Item {
    fn drop(self) {
        let Item { shown: _, alias: _ } = self;
    }
}

/// What a block shows: `*`, or one item and more.
pub enum Selection {
    All,
    List(Items<Item>),
}

impl Drop for Selection {
    fn drop(self) {
        match self {
            Selection::All => {}
            Selection::List(_a) => {}
        }
    }
}

/// A side of a comparison.
pub enum Operand {
    Constant(Constant),
    Column(QualifiedName),
}

impl Drop for Operand {
    fn drop(self) {
        match self {
            Operand::Constant(_a) => {}
            Operand::Column(_a) => {}
        }
    }
}

/// How two operands are compared.
#[derive(Clone, Copy, PartialEq, Eq)]
pub enum Comparison {
    Equal,
    Unequal,
    Less,
    LessOrEqual,
    Greater,
    GreaterOrEqual,
}

/// A condition, with its brackets as they are written.
pub enum Condition {
    Compare(Operand, Comparison, Operand),
    Not(Boxed<Condition>),
    Bracket(Boxed<Condition>),
    And(Boxed<Condition>, Boxed<Condition>),
    Or(Boxed<Condition>, Boxed<Condition>),
}

// Hundreds of comparisons with OR between are as many levels deep on the left, hence a loop.
impl Drop for Condition {
    fn drop(mut self) {
        loop {
            match self {
                Condition::Compare(_left, _how, _right) => return,
                Condition::Not(inner) | Condition::Bracket(inner) => self = inner.into_inner(),
                Condition::And(left, right) | Condition::Or(left, right) => {
                    let _right = right.into_inner();
                    self = left.into_inner();
                }
            }
        }
    }
}

/// Which rows of an input count. A slide of 1 is no slide.
pub enum WrittenWindow {
    /// The last ticks, moved on each so many ticks: 0 to 2^62 - 1, and 1 to 2^62 - 1.
    Range(u64, u64),
    /// The last rows, moved on each so many rows: both 1 to 2^62 - 1.
    Rows(u64, u64),
    /// All rows.
    Unbounded,
    /// The last rows, 1 to 2^62 - 1, of each combination of values of the columns.
    Partition(Items<Name>, u64),
}

impl Drop for WrittenWindow {
    fn drop(self) {
        match self {
            WrittenWindow::Range(_a, _b) => {}
            WrittenWindow::Rows(_a, _b) => {}
            WrittenWindow::Unbounded => {}
            WrittenWindow::Partition(_a, _b) => {}
        }
    }
}

/// A stream that a block reads, its window, and the name that it is given.
pub struct Input {
    pub stream: QualifiedName,
    pub window: WrittenWindow,
    pub alias: Option<Name>,
}

impl Drop for Input {
    fn drop(self) {
        let Input {
            stream: _,
            window: _,
            alias: _,
        } = self;
    }
}

/// One SELECT. It has 1 to 3 inputs, and no column to group by where GROUP BY is missing.
pub struct SelectBlock {
    pub distinct: bool,
    pub selection: Selection,
    pub inputs: Items<Input>,
    pub condition: Option<Condition>,
    pub groups: Items<QualifiedName>,
}

impl Drop for SelectBlock {
    fn drop(self) {
        let SelectBlock {
            distinct: _,
            selection: _,
            inputs: _,
            condition: _,
            groups: _,
        } = self;
    }
}

/// A second block and what stands before it.
pub struct Second {
    pub operator: SetOperator,
    pub block: SelectBlock,
}

impl Drop for Second {
    fn drop(self) {
        let Second {
            operator: _,
            block: _,
        } = self;
    }
}

/// A whole query.
pub struct Query {
    pub output: Option<StreamOperator>,
    pub first: SelectBlock,
    pub second: Option<Second>,
}

impl Drop for Query {
    fn drop(self) {
        let Query {
            output: _,
            first: _,
            second: _,
        } = self;
    }
}
