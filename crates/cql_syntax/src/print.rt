// Prints a query in its canonical spelling.
ghost use Rattle.std.specs.Prelude.{◌≡◌, ◌==◌, ◌&&◌, OnOk, IfOk, string_bytes};
ghost use Rattle.cql_syntax.specs.Spelling as spec;

use crate::printer::Printer;
use crate::syntax::{
    Aggregate, Comparison, Condition, Constant, Expression, Function, Input, Item, Operand,
    Operation, QualifiedName, Query, Second, SelectBlock, Selection, SetOperator, Shown,
    StreamOperator, WrittenWindow,
};
use crate::token::Fixed;
use cql_value::Name;
use std::alloc::{AllocError, Global};

fn put_name(out: &mut Printer, name: &QualifiedName) -> Result<(), AllocError>
    ensures { OnOk result (out.new ≡ spec.put_all out.old (spec.spell_name name.now)) }
{
    if let Some(qualifier) = &name.qualifier {
        out.name(qualifier.as_str())?;
        out.symbol(Fixed::Dot)?;
    }
    out.name(name.name.as_str())
}

fn put_constant(out: &mut Printer, constant: &Constant) -> Result<(), AllocError>
    ensures { OnOk result (out.new ≡ spec.put_all out.old (spec.spell_constant constant.now)) }
{
    match constant {
        Constant::Number(n) => out.signed(*n),
        Constant::Text(text) => out.quoted(text.as_str()),
    }
}

fn operation_sign(operation: Operation) -> Fixed
    ensures { result ≡ spec.operation_sign operation }
{
    match operation {
        Operation::Add => Fixed::Plus,
        Operation::Subtract => Fixed::Minus,
        Operation::Multiply => Fixed::Star,
    }
}

#[tactic(auto, using(crate::proofs::Pieces::spellings))]
fn put_expression(out: &mut Printer, expression: &Expression) -> Result<(), AllocError>
    ensures { OnOk result (out.new ≡ spec.put_all out.old (spec.spell_expression expression.now)) }
{
    match expression {
        Expression::Constant(constant) => put_constant(out, constant),
        Expression::Column(name) => put_name(out, name),
        Expression::Bracket(inner) => {
            out.symbol(Fixed::Open)?;
            put_expression(out, inner.get())?;
            out.symbol(Fixed::Close)
        }
        Expression::Binary(operation, left, right) => {
            put_expression(out, left.get())?;
            out.symbol(operation_sign(*operation))?;
            put_expression(out, right.get())
        }
    }
}

fn put_operand(out: &mut Printer, operand: &Operand) -> Result<(), AllocError>
    ensures { OnOk result (out.new ≡ spec.put_all out.old (spec.spell_operand operand.now)) }
{
    match operand {
        Operand::Constant(constant) => put_constant(out, constant),
        Operand::Column(name) => put_name(out, name),
    }
}

fn comparison_sign(comparison: Comparison) -> Fixed
    ensures { result ≡ spec.comparison_sign comparison }
{
    match comparison {
        Comparison::Equal => Fixed::Equal,
        Comparison::Unequal => Fixed::Unequal,
        Comparison::Less => Fixed::Less,
        Comparison::LessOrEqual => Fixed::LessOrEqual,
        Comparison::Greater => Fixed::Greater,
        Comparison::GreaterOrEqual => Fixed::GreaterOrEqual,
    }
}

#[tactic(auto, using(crate::proofs::Pieces::spellings))]
fn put_condition(out: &mut Printer, condition: &Condition) -> Result<(), AllocError>
    ensures { OnOk result (out.new ≡ spec.put_all out.old (spec.spell_condition condition.now)) }
{
    match condition {
        Condition::Compare(left, how, right) => {
            put_operand(out, left)?;
            out.symbol(comparison_sign(*how))?;
            put_operand(out, right)
        }
        Condition::Not(inner) => {
            out.symbol(Fixed::Not)?;
            put_condition(out, inner.get())
        }
        Condition::Bracket(inner) => {
            out.symbol(Fixed::Open)?;
            put_condition(out, inner.get())?;
            out.symbol(Fixed::Close)
        }
        Condition::And(left, right) => {
            put_condition(out, left.get())?;
            out.symbol(Fixed::And)?;
            put_condition(out, right.get())
        }
        Condition::Or(left, right) => {
            put_condition(out, left.get())?;
            out.symbol(Fixed::Or)?;
            put_condition(out, right.get())
        }
    }
}

fn function_word(function: Function) -> Fixed
    ensures { result ≡ spec.function_word function }
{
    match function {
        Function::Sum => Fixed::Sum,
        Function::Min => Fixed::Min,
        Function::Max => Fixed::Max,
    }
}

#[tactic(auto, using(crate::proofs::Pieces::put_append))]
fn put_aggregate(out: &mut Printer, aggregate: &Aggregate) -> Result<(), AllocError>
    ensures { OnOk result (out.new ≡ spec.put_all out.old (spec.spell_aggregate aggregate.now)) }
{
    match aggregate {
        Aggregate::Count => {
            out.call(Fixed::Count)?;
            out.symbol(Fixed::Star)?;
        }
        Aggregate::Over(function, column) => {
            out.call(function_word(*function))?;
            put_name(out, column)?;
        }
    }
    out.symbol(Fixed::Close)
}

fn put_alias(out: &mut Printer, alias: &Option<Name>) -> Result<(), AllocError>
    ensures { OnOk result (out.new ≡ spec.put_all out.old (spec.spell_alias alias.now)) }
{
    if let Some(alias) = alias {
        out.symbol(Fixed::As)?;
        out.name(alias.as_str())?;
    }
    Ok(())
}

#[tactic(auto, using(crate::proofs::Pieces::put_append), unfolding(crate::specs::Spelling::spell_item))]
fn put_item(out: &mut Printer, item: &Item) -> Result<(), AllocError>
    ensures { OnOk result (out.new ≡ spec.put_all out.old (spec.spell_item item.now)) }
{
    match &item.shown {
        Shown::Expression(expression) => put_expression(out, expression)?,
        Shown::Aggregate(aggregate) => put_aggregate(out, aggregate)?,
    }
    put_alias(out, &item.alias)
}

// The items, each behind a comma.
#[tactic(auto, using(crate::proofs::Pieces::put_append))]
fn put_further_items(out: &mut Printer, mut rest: &[Item]) -> Result<(), AllocError>
    ensures { OnOk result (out.new ≡ spec.put_all out.old (spec.following spec.spell_item rest.entry.now)) }
{
    while let [item, more @ ..] = rest {
        out.symbol(Fixed::Comma)?;
        put_item(out, item)?;
        rest = more;
    }
    Ok(())
}

#[tactic(auto, using(crate::proofs::Pieces::put_append))]
fn put_items(out: &mut Printer, items: &[Item]) -> Result<(), AllocError>
    ensures { OnOk result (out.new ≡ spec.put_all out.old (spec.separated spec.spell_item items.now)) }
{
    if let [first, rest @ ..] = items {
        put_item(out, first)?;
        put_further_items(out, rest)?;
    }
    Ok(())
}

fn put_selection(out: &mut Printer, selection: &Selection) -> Result<(), AllocError>
    ensures { OnOk result (out.new ≡ spec.put_all out.old (spec.spell_selection selection.now)) }
{
    match selection {
        Selection::All => out.symbol(Fixed::Star),
        Selection::List(items) => put_items(out, items.as_slice()),
    }
}

fn put_slide(out: &mut Printer, slide: u64) -> Result<(), AllocError>
    ensures { OnOk result (out.new ≡ spec.put_all out.old (spec.spell_slide slide)) }
{
    if slide != 1 {
        out.symbol(Fixed::Slide)?;
        out.number(slide)?;
    }
    Ok(())
}

#[tactic(auto, using(crate::proofs::Pieces::put_append))]
fn put_range(out: &mut Printer, length: u64, slide: u64) -> Result<(), AllocError>
    ensures { OnOk result (out.new ≡ spec.put_all out.old (spec.spell_range (length == 0 && slide == 1) length slide)) }
{
    if length == 0 && slide == 1 {
        return out.symbol(Fixed::Now);
    }
    out.symbol(Fixed::Range)?;
    out.number(length)?;
    put_slide(out, slide)
}

// The names, each behind a comma.
#[tactic(auto, using(crate::proofs::Pieces::put_append))]
fn put_further_names(out: &mut Printer, mut rest: &[Name]) -> Result<(), AllocError>
    ensures { OnOk result (out.new ≡ spec.put_all out.old (spec.following spec.spell_plain rest.entry.now)) }
{
    while let [name, more @ ..] = rest {
        out.symbol(Fixed::Comma)?;
        out.name(name.as_str())?;
        rest = more;
    }
    Ok(())
}

#[tactic(auto, using(crate::proofs::Pieces::put_append))]
fn put_names(out: &mut Printer, names: &[Name]) -> Result<(), AllocError>
    ensures { OnOk result (out.new ≡ spec.put_all out.old (spec.separated spec.spell_plain names.now)) }
{
    if let [first, rest @ ..] = names {
        out.name(first.as_str())?;
        put_further_names(out, rest)?;
    }
    Ok(())
}

#[tactic(auto, using(crate::proofs::Pieces::put_append))]
fn put_partition(out: &mut Printer, columns: &[Name], count: u64) -> Result<(), AllocError>
    ensures { OnOk result (out.new ≡ spec.put_all out.old (spec.spell_partition columns.now count)) }
{
    out.symbol(Fixed::Partition)?;
    out.symbol(Fixed::By)?;
    put_names(out, columns)?;
    out.symbol(Fixed::Rows)?;
    out.number(count)
}

#[tactic(auto, using(crate::proofs::Pieces::put_append), unfolding(crate::specs::Spelling::spell_window))]
fn put_window(out: &mut Printer, window: &WrittenWindow) -> Result<(), AllocError>
    ensures { OnOk result (out.new ≡ spec.put_all out.old (spec.spell_window window.now)) }
{
    match window {
        WrittenWindow::Range(length, slide) => put_range(out, *length, *slide),
        WrittenWindow::Rows(count, slide) => {
            out.symbol(Fixed::Rows)?;
            out.number(*count)?;
            put_slide(out, *slide)
        }
        WrittenWindow::Unbounded => {
            out.symbol(Fixed::Range)?;
            out.symbol(Fixed::Unbounded)
        }
        WrittenWindow::Partition(columns, count) => put_partition(out, columns.as_slice(), *count),
    }
}

#[tactic(auto, using(crate::proofs::Pieces::put_append), unfolding(crate::specs::Spelling::spell_input))]
fn put_input(out: &mut Printer, input: &Input) -> Result<(), AllocError>
    ensures { OnOk result (out.new ≡ spec.put_all out.old (spec.spell_input input.now)) }
{
    put_name(out, &input.stream)?;
    out.symbol(Fixed::OpenSquare)?;
    put_window(out, &input.window)?;
    out.symbol(Fixed::CloseSquare)?;
    put_alias(out, &input.alias)
}

// The inputs, each behind a comma.
#[tactic(auto, using(crate::proofs::Pieces::put_append))]
fn put_further_inputs(out: &mut Printer, mut rest: &[Input]) -> Result<(), AllocError>
    ensures { OnOk result (out.new ≡ spec.put_all out.old (spec.following spec.spell_input rest.entry.now)) }
{
    while let [input, more @ ..] = rest {
        out.symbol(Fixed::Comma)?;
        put_input(out, input)?;
        rest = more;
    }
    Ok(())
}

#[tactic(auto, using(crate::proofs::Pieces::put_append))]
fn put_inputs(out: &mut Printer, inputs: &[Input]) -> Result<(), AllocError>
    ensures { OnOk result (out.new ≡ spec.put_all out.old (spec.separated spec.spell_input inputs.now)) }
{
    if let [first, rest @ ..] = inputs {
        put_input(out, first)?;
        put_further_inputs(out, rest)?;
    }
    Ok(())
}

fn put_where(out: &mut Printer, condition: &Option<Condition>) -> Result<(), AllocError>
    ensures { OnOk result (out.new ≡ spec.put_all out.old (spec.spell_where condition.now)) }
{
    if let Some(condition) = condition {
        out.symbol(Fixed::Where)?;
        put_condition(out, condition)?;
    }
    Ok(())
}

// The columns, each behind a comma.
#[tactic(auto, using(crate::proofs::Pieces::put_append))]
fn put_further_columns(out: &mut Printer, mut rest: &[QualifiedName]) -> Result<(), AllocError>
    ensures { OnOk result (out.new ≡ spec.put_all out.old (spec.following spec.spell_name rest.entry.now)) }
{
    while let [column, more @ ..] = rest {
        out.symbol(Fixed::Comma)?;
        put_name(out, column)?;
        rest = more;
    }
    Ok(())
}

#[tactic(auto, using(crate::proofs::Pieces::put_append))]
fn put_groups(out: &mut Printer, groups: &[QualifiedName]) -> Result<(), AllocError>
    ensures { OnOk result (out.new ≡ spec.put_all out.old (spec.spell_groups groups.now)) }
{
    if let [first, rest @ ..] = groups {
        out.symbol(Fixed::Group)?;
        out.symbol(Fixed::By)?;
        put_name(out, first)?;
        put_further_columns(out, rest)?;
    }
    Ok(())
}

fn put_distinct(out: &mut Printer, distinct: bool) -> Result<(), AllocError>
    ensures { OnOk result (out.new ≡ spec.put_all out.old (spec.spell_distinct distinct)) }
{
    if distinct {
        out.symbol(Fixed::Distinct)?;
    }
    Ok(())
}

#[tactic(auto, using(crate::proofs::Pieces::put_append), unfolding(crate::specs::Spelling::spell_block))]
fn put_block(out: &mut Printer, block: &SelectBlock) -> Result<(), AllocError>
    ensures { OnOk result (out.new ≡ spec.put_all out.old (spec.spell_block block.now)) }
{
    out.symbol(Fixed::Select)?;
    put_distinct(out, block.distinct)?;
    put_selection(out, &block.selection)?;
    out.symbol(Fixed::From)?;
    put_inputs(out, block.inputs.as_slice())?;
    put_where(out, &block.condition)?;
    put_groups(out, block.groups.as_slice())
}

fn set_word(operator: SetOperator) -> Fixed
    ensures { result ≡ spec.set_word operator }
{
    match operator {
        SetOperator::UnionAll => Fixed::Union,
        SetOperator::ExceptAll => Fixed::Except,
    }
}

#[tactic(auto, using(crate::proofs::Pieces::put_append))]
fn put_second(out: &mut Printer, second: &Option<Second>) -> Result<(), AllocError>
    ensures { OnOk result (out.new ≡ spec.put_all out.old (spec.spell_second second.now)) }
{
    if let Some(second) = second {
        out.symbol(set_word(second.operator))?;
        out.symbol(Fixed::All)?;
        put_block(out, &second.block)?;
    }
    Ok(())
}

fn stream_word(operator: StreamOperator) -> Fixed
    ensures { result ≡ spec.stream_word operator }
{
    match operator {
        StreamOperator::Istream => Fixed::Istream,
        StreamOperator::Dstream => Fixed::Dstream,
        StreamOperator::Rstream => Fixed::Rstream,
    }
}

#[tactic(auto, using(crate::proofs::Pieces::put_append))]
fn put_blocks(out: &mut Printer, query: &Query) -> Result<(), AllocError>
    ensures { OnOk result (out.new ≡ spec.put_all out.old (spec.spell_blocks query.now)) }
{
    put_block(out, &query.first)?;
    put_second(out, &query.second)
}

#[tactic(auto, using(crate::proofs::Pieces::put_append))]
fn put_query(out: &mut Printer, query: &Query) -> Result<(), AllocError>
    ensures { OnOk result (out.new ≡ spec.put_all out.old (spec.spell_query query.now)) }
{
    let Some(output) = query.output else {
        return put_blocks(out, query);
    };
    out.call(stream_word(output))?;
    put_blocks(out, query)?;
    out.symbol(Fixed::Close)
}

/// The canonical spelling of the query.
#[tactic(auto, using(crate::proofs::Pieces::all_printed))]
pub fn text_of(alloc: Global, query: &Query) -> Result<String, AllocError>
    ensures { IfOk result (λ s. string_bytes s ≡ spec.canonical query.now) }
{
    let mut out = Printer::new(alloc);
    put_query(&mut out, query)?;
    Ok(out.into_text())
}
