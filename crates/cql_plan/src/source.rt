// The inputs of a block.
ghost use Rattle.std.specs.Prelude.{◌≡◌, ◌<◌, ◌^◌, ◌++◌, ◌∷◌, [], IfOk, OnOk, Some, option_copied};
ghost use Rattle.std.specs.List.{list_any};
ghost use Rattle.std.specs.Str.{bytes_eq};
ghost use Rattle.cql_plan.specs.Outcome.{Answers, AnswersList, each};
ghost use Rattle.cql_plan.specs.Columns.{kinds_of};
ghost use Rattle.cql_plan.specs.Sources as spec;
ghost use Rattle.cql_plan.specs.VisibleColumns.{visible_of};

use crate::error::{PlanError, PlanFault};
use crate::lookup::{Lookup, Readable};
use crate::plan::Input;
use crate::row::{Field, column_named, fields_of, kinds_of};
use cql_syntax::syntax;
use cql_value::{ColumnType, Items, Name};
use cql_window::{Count, Length, Window, once_each, wide_window};
use std::alloc::{AllocError, Global};

/// An input of a block: what the plan keeps of it, its alias and its columns.
pub(crate) struct BlockInput {
    pub(crate) input: Input,
    pub(crate) alias: Name,
    pub(crate) fields: Items<Field>,
}

impl Drop for BlockInput {
    fn drop(self) {
        let BlockInput {
            input: _,
            alias: _,
            fields: _,
        } = self;
    }
}

impl BlockInput {
    // What the plan keeps of it, and its columns.
    fn into_parts(self) -> (Input, Items<Field>)
        ensures input { result.0 ≡ self.input }
        ensures fields { result.1 ≡ self.fields }
    {
        let BlockInput {
            input,
            alias: _,
            fields,
        } = self;
        (input, fields)
    }
}

/// The inputs of a block, put together.
pub(crate) struct Joined {
    /// What the plan keeps of each input.
    pub(crate) inputs: Items<Input>,
    /// The types of each input's columns.
    pub(crate) ports: Items<Items<ColumnType>>,
    /// The columns of all inputs, in order.
    pub(crate) row: Items<Field>,
}

impl Drop for Joined {
    fn drop(self) {
        let Joined {
            inputs: _,
            ports: _,
            row: _,
        } = self;
    }
}

impl Joined {
    // Of no input.
    #[tactic(auto, unfolding(crate::specs::Sources::joined_row))]
    fn new(alloc: Global) -> Joined
        ensures { result ≡ spec.joined_of [] }
    {
        Joined {
            inputs: Items::new(alloc),
            ports: Items::new(alloc),
            row: Items::new(alloc),
        }
    }

    // With one input more.
    fn push(&mut self, alloc: Global, source: BlockInput) -> Result<(), AllocError>
        ensures inputs { OnOk result (self.new.inputs ≡ self.old.inputs ++ source.input ∷ []) }
        ensures ports { OnOk result (self.new.ports ≡ self.old.ports ++ kinds_of source.fields ∷ []) }
        ensures row { OnOk result (self.new.row ≡ self.old.row ++ source.fields) }
    {
        let (input, fields) = source.into_parts();
        self.ports.push(kinds_of(alloc, fields.as_slice())?)?;
        self.row.append(fields)?;
        self.inputs.push(input)?;
        Ok(())
    }

    /// What the plan keeps of each input, the types of their columns, and all columns.
    pub(crate) fn into_parts(self) -> (Items<Input>, Items<Items<ColumnType>>, Items<Field>)
        ensures inputs { result.0 ≡ self.inputs }
        ensures ports { result.1 ≡ self.ports }
        ensures row { result.2 ≡ self.row }
    {
        let Joined { inputs, ports, row } = self;
        (inputs, ports, row)
    }
}

// A column by which an input is parted: its index among those that are seen.
fn part_column(fields: &[Field], name: &Name) -> Result<usize, PlanFault>
    ensures { result ≡ spec.part_column fields.now name.now }
{
    let found = column_named(fields, &None, name)?;
    Ok(found.column)
}

#[tactic(auto, using(crate::proofs::Each::stops, crate::proofs::Each::goes_on, crate::proofs::Each::ends))]
fn part_columns(alloc: Global, fields: &[Field], names: &[Name]) -> Result<Items<usize>, PlanError>
    ensures { Answers (each (spec.part_column fields.now) names.now) result }
{
    let mut columns = Items::new(alloc);
    for name in names {
        columns.push(part_column(fields, name)?)?;
    }
    Ok(columns)
}

// The length of so many ticks.
fn length_of(ticks: u64) -> Length
    requires { ticks < 2 ^ 62 }
    ensures { result ≡ ticks }
{
    match Length::new(ticks) {
        Some(length) => length,
        None => unreachable!(),
    }
}

// The count of this number.
fn count_of(count: u64) -> Count
    requires some { 0 < count }
    requires bound { count < 2 ^ 62 }
    ensures { result ≡ count }
{
    match Count::new(count) {
        Some(count) => count,
        None => unreachable!(),
    }
}

#[tactic(auto, unfolding(crate::specs::Sources::window_of))]
fn window_of(
    alloc: Global,
    fields: &[Field],
    window: &syntax::WrittenWindow,
) -> Result<Window, PlanError>
    requires { spec.HasBounds window.now }
    ensures { Answers (spec.window_of fields.now window.now) result }
{
    match window {
        syntax::WrittenWindow::Range(length, slide) => Ok(Window::Range {
            length: length_of(*length),
            slide: count_of(*slide),
        }),
        syntax::WrittenWindow::Rows(count, slide) => Ok(Window::Rows {
            count: count_of(*count),
            slide: count_of(*slide),
        }),
        syntax::WrittenWindow::Unbounded => Ok(Window::All),
        syntax::WrittenWindow::Partition(names, count) => {
            let columns = part_columns(alloc, fields, names.as_slice())?;
            Ok(Window::Parts {
                columns: once_each(alloc, columns.as_slice())?,
                count: count_of(*count),
            })
        }
    }
}

// The written alias, else the stream's name without its owner.
fn alias_of(input: &syntax::Input) -> Result<Name, AllocError>
    ensures { IfOk result (λ a. a ≡ spec.alias_of input.now) }
{
    match &input.alias {
        None => input.stream.name.try_clone(),
        Some(alias) => alias.try_clone(),
    }
}

// What the plan keeps of an input, whose window is over the whole rows.
fn input_of(
    alloc: Global,
    input: &syntax::Input,
    projection: &[usize],
    window: Window,
) -> Result<Input, AllocError>
    ensures { IfOk result (λ i. i ≡ record { owner = input.now.stream.qualifier; stream = input.now.stream.name; window = window; projection = projection.now }) }
{
    let projection = Items::from_slice(alloc, projection)?;
    let stream = input.stream.name.try_clone()?;
    let owner = input
        .stream
        .qualifier
        .as_ref()
        .map(|owner| owner.try_clone())
        .transpose()?;
    Ok(Input {
        owner,
        stream,
        window,
        projection,
    })
}

// An input of a stream of which this is seen.
fn source_with(
    alloc: Global,
    input: &syntax::Input,
    readable: Readable<'_>,
) -> Result<BlockInput, PlanError>
    requires { spec.HasBounds input.now.window }
    ensures { Answers (spec.source_with input.now (Some (visible_of readable.entry))) result }
{
    let alias = alias_of(input)?;
    let fields = fields_of(alloc, &alias, readable.schema.columns())?;
    let window = window_of(alloc, fields.as_slice(), &input.window)?;
    let window = wide_window(alloc, readable.places, window)?;
    let input = input_of(alloc, input, readable.places, window)?;
    Ok(BlockInput {
        input,
        alias,
        fields,
    })
}

// The owner that is written before a stream, if any.
fn owner_of(input: &syntax::Input) -> Option<&str>
    ensures { option_copied result ≡ input.now.stream.qualifier }
{
    match &input.stream.qualifier {
        None => None,
        Some(owner) => Some(owner.as_str()),
    }
}

// An input: its stream can be read, and has the columns by which it is parted.
#[tactic(auto, unfolding(crate::specs::Sources::source_of))]
fn source_of<L: Lookup>(
    alloc: Global,
    lookup: &L,
    input: &syntax::Input,
) -> Result<BlockInput, PlanError>
    requires { spec.HasBounds input.now.window }
    ensures { Answers (spec.source_of (L.readable lookup.now) input.now) result }
{
    match lookup.schema(owner_of(input), input.stream.name.as_str()) {
        None => Err(PlanError::Refused(PlanFault::UnknownStream)),
        Some(readable) => source_with(alloc, input, readable),
    }
}

/// The inputs of a block, from the left.
#[tactic(auto, using(crate::proofs::Each::stops, crate::proofs::Each::goes_on, crate::proofs::Each::ends))]
pub(crate) fn sources<L: Lookup>(
    alloc: Global,
    lookup: &L,
    inputs: &[syntax::Input],
) -> Result<Vec<BlockInput>, PlanError>
    requires { spec.AreBounded inputs.now }
    ensures { AnswersList (each (spec.source_of (L.readable lookup.now)) inputs.now) result }
{
    let mut sources = Vec::new(alloc);
    for input in inputs {
        sources.push(source_of(alloc, lookup, input)?)?;
    }
    Ok(sources)
}

// Whether an input has the alias.
fn has_alias(sources: &[BlockInput], alias: &Name) -> bool
    ensures { result ≡ list_any (λ other. bytes_eq alias.now other.alias) sources.now }
{
    sources.iter().any(|source| *alias == source.alias)
}

/// Whether no two inputs have one alias.
#[tactic(auto, unfolding(crate::specs::Sources::are_apart))]
pub(crate) fn are_apart(sources: &[BlockInput]) -> bool
    ensures { result ≡ spec.are_apart sources.now }
{
    let mut rest = sources;
    while let Some((first, later)) = rest.split_first() {
        if has_alias(later, &first.alias) {
            return false;
        }
        rest = later;
    }
    true
}

/// The inputs of a block, put together.
pub(crate) fn joined_of(alloc: Global, sources: Vec<BlockInput>) -> Result<Joined, AllocError>
    ensures { IfOk result (λ joined. joined ≡ spec.joined_of sources.items) }
{
    let mut joined = Joined::new(alloc);
    for source in sources {
        joined.push(alloc, source)?;
    }
    Ok(joined)
}
