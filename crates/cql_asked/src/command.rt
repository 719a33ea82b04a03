//! The command of a line.
ghost use Rattle.std.specs.Arc.{arc_value};
ghost use Rattle.std.specs.Prelude.{◌≡◌, map, Some, IfOk, IfErr, Ok, Err, ok_or, codes};
ghost use Rattle.cql_lines.specs.View.{view, items_view};
ghost use Rattle.serde_json.specs.Find.{as_str};
ghost use Rattle.serde_json.specs.Read.{read};
ghost use Rattle.cql_lines.specs.Tree.{text_at, optional_text, all_of};
ghost use Rattle.cql_asked.specs.Command.{verb_of, keys_of, value_of, column_of, stream_of, named_columns_of, grant_of, revoke_of, put_of, beat_of, query_of, fetch_of, ack_of, drop_of, of_verb, of_keys, of_data, command_of, own_command};
ghost use Rattle.cql_asked.specs.Fault.{Means};

use crate::fault::LineFault;
use crate::kind::Kind;
use crate::named::Named;
use crate::plain::{NoCommand, read_plain};
use cql_core::{ColumnText, Command, Prepared, prepare};
use cql_lines::reading::{line_text, read_tree};
use cql_lines::tree::{
    Tree, array_at, has_only, optional_array, optional_text, optional_whole, text_at, whole_at,
};
use cql_value::{Items, Row, Text, Value};
use json::Scratch;
use std::alloc::Global;
use std::sync::Arc;

/// The word of a command: what stands at the key `do`.
#[derive(Clone, Copy)]
pub(crate) enum Verb {
    Stream,
    Grant,
    Revoke,
    Put,
    Beat,
    Query,
    Fetch,
    Ack,
    Drop,
    List,
}

impl Verb {
    // Puts are most of the lines.
    pub(crate) fn read(text: &str) -> Option<Verb>
        ensures { result ≡ verb_of text.now }
    {
        match text {
            "put" => Some(Verb::Put),
            "stream" => Some(Verb::Stream),
            "grant" => Some(Verb::Grant),
            "revoke" => Some(Verb::Revoke),
            "beat" => Some(Verb::Beat),
            "query" => Some(Verb::Query),
            "fetch" => Some(Verb::Fetch),
            "ack" => Some(Verb::Ack),
            "drop" => Some(Verb::Drop),
            "list" => Some(Verb::List),
            _ => None,
        }
    }

    // The keys that may stand in its line.
    fn keys(self) -> &'static [&'static str]
        ensures { map (λ k. k.now) result.now ≡ keys_of self }
    {
        match self {
            Verb::Stream => &["do", "tenant", "name", "columns"],
            Verb::Grant => &["do", "tenant", "stream", "to", "columns"],
            Verb::Revoke => &["do", "tenant", "stream", "to"],
            Verb::Put => &["do", "tenant", "stream", "at", "row"],
            Verb::Beat => &["do", "tenant", "stream", "at"],
            Verb::Query => &["do", "tenant", "name", "text"],
            Verb::Fetch => &["do", "tenant", "name", "until"],
            Verb::Ack => &["do", "tenant", "name", "to"],
            Verb::Drop => &["do", "tenant", "name"],
            Verb::List => &["do", "tenant"],
        }
    }
}

// A copy of the text at a key.
fn text_of(alloc: Global, tree: &Tree<'_>, key: &str) -> Result<Text, LineFault>
    ensures { Means (ok_or (text_at key.now (view tree.now)) LineFault.BadKey) result }
{
    let Some(text) = text_at(tree, key) else {
        return Err(LineFault::BadKey);
    };
    let text = Text::new(alloc, text)?;
    Ok(text)
}

// A whole number of 64 bits with a sign, or a text.
fn value_of(alloc: Global, tree: &Tree<'_>) -> Result<Value, LineFault>
    ensures { Means (ok_or (value_of (view tree.now)) LineFault.BadKey) result }
{
    if let Some(number) = tree.as_i64() {
        return Ok(Value::Number(number));
    }
    let Some(text) = tree.as_str() else {
        return Err(LineFault::BadKey);
    };
    let text = Text::new(alloc, text)?;
    Ok(Value::Text(text))
}

fn row_of(alloc: Global, items: &[Tree<'_>]) -> Result<Row, LineFault>
    ensures { Means (ok_or (all_of value_of (items_view items.now)) LineFault.BadKey) result }
{
    let mut values = Vec::with_capacity(alloc, items.len())?;
    for item in items {
        values.push(value_of(alloc, item)?)?;
    }
    Ok(Row::new(alloc, values)?)
}

// A list of exactly two texts: the name and the type of a column.
fn column_of(alloc: Global, tree: &Tree<'_>) -> Result<ColumnText, LineFault>
    ensures { Means (ok_or (column_of (view tree.now)) LineFault.BadKey) result }
{
    let Some(texts) = tree.as_array() else {
        return Err(LineFault::BadKey);
    };
    let [name, kind] = texts.as_slice() else {
        return Err(LineFault::BadKey);
    };
    let Some(name) = name.as_str() else {
        return Err(LineFault::BadKey);
    };
    let Some(kind) = kind.as_str() else {
        return Err(LineFault::BadKey);
    };
    let name = Text::new(alloc, name)?;
    let kind = Text::new(alloc, kind)?;
    Ok(ColumnText { name, kind })
}

fn columns_of(alloc: Global, items: &[Tree<'_>]) -> Result<Items<ColumnText>, LineFault>
    ensures { Means (ok_or (all_of column_of (items_view items.now)) LineFault.BadKey) result }
{
    let mut columns = Vec::new(alloc);
    for item in items {
        columns.push(column_of(alloc, item)?)?;
    }
    Ok(Items::from_vec(columns))
}

fn stream_of(alloc: Global, tree: &Tree<'_>) -> Result<Command, LineFault>
    ensures { Means (ok_or (stream_of (view tree.now)) LineFault.BadKey) result }
{
    let name = text_of(alloc, tree, "name")?;
    let Some(columns) = array_at(tree, "columns") else {
        return Err(LineFault::BadKey);
    };
    let columns = columns_of(alloc, columns)?;
    Ok(Command::Stream { name, columns })
}

// Names of columns: a list of texts.
fn names_of(alloc: Global, items: &[Tree<'_>]) -> Result<Items<Text>, LineFault>
    ensures { Means (ok_or (all_of as_str (items_view items.now)) LineFault.BadKey) result }
{
    let mut names = Vec::new(alloc);
    for item in items {
        let Some(name) = item.as_str() else {
            return Err(LineFault::BadKey);
        };
        names.push(Text::new(alloc, name)?)?;
    }
    Ok(Items::from_vec(names))
}

// The names of the columns that a grant shows, if it names them.
fn named_columns_of(alloc: Global, tree: &Tree<'_>) -> Result<Option<Items<Text>>, LineFault>
    ensures { Means (ok_or (named_columns_of (view tree.now)) LineFault.BadKey) result }
{
    match optional_array(tree, "columns") {
        None => Err(LineFault::BadKey),
        Some(None) => Ok(None),
        Some(Some(items)) => {
            let names = names_of(alloc, items)?;
            Ok(Some(names))
        }
    }
}

fn grant_of(alloc: Global, tree: &Tree<'_>) -> Result<Command, LineFault>
    ensures { Means (ok_or (grant_of (view tree.now)) LineFault.BadKey) result }
{
    let stream = text_of(alloc, tree, "stream")?;
    let to = text_of(alloc, tree, "to")?;
    let columns = named_columns_of(alloc, tree)?;
    Ok(Command::Grant {
        stream,
        to,
        columns,
    })
}

fn revoke_of(alloc: Global, tree: &Tree<'_>) -> Result<Command, LineFault>
    ensures { Means (ok_or (revoke_of (view tree.now)) LineFault.BadKey) result }
{
    let stream = text_of(alloc, tree, "stream")?;
    let to = text_of(alloc, tree, "to")?;
    Ok(Command::Revoke { stream, to })
}

fn put_of(alloc: Global, tree: &Tree<'_>) -> Result<Command, LineFault>
    ensures { Means (ok_or (put_of (view tree.now)) LineFault.BadKey) result }
{
    let stream = text_of(alloc, tree, "stream")?;
    let Some(at) = whole_at(tree, "at") else {
        return Err(LineFault::BadKey);
    };
    let Some(row) = array_at(tree, "row") else {
        return Err(LineFault::BadKey);
    };
    let row = row_of(alloc, row)?;
    Ok(Command::Put { stream, at, row })
}

fn beat_of(alloc: Global, tree: &Tree<'_>) -> Result<Command, LineFault>
    ensures { Means (ok_or (beat_of (view tree.now)) LineFault.BadKey) result }
{
    let stream = text_of(alloc, tree, "stream")?;
    let Some(at) = whole_at(tree, "at") else {
        return Err(LineFault::BadKey);
    };
    Ok(Command::Beat { stream, at })
}

fn query_of(alloc: Global, tree: &Tree<'_>) -> Result<Command, LineFault>
    ensures { Means (ok_or (query_of (view tree.now)) LineFault.BadKey) result }
{
    let name = text_of(alloc, tree, "name")?;
    let text = text_of(alloc, tree, "text")?;
    Ok(Command::Query { name, text })
}

fn fetch_of(alloc: Global, tree: &Tree<'_>) -> Result<Command, LineFault>
    ensures { Means (ok_or (fetch_of (view tree.now)) LineFault.BadKey) result }
{
    let name = text_of(alloc, tree, "name")?;
    let Some(until) = optional_whole(tree, "until") else {
        return Err(LineFault::BadKey);
    };
    Ok(Command::Fetch { name, until })
}

fn ack_of(alloc: Global, tree: &Tree<'_>) -> Result<Command, LineFault>
    ensures { Means (ok_or (ack_of (view tree.now)) LineFault.BadKey) result }
{
    let name = text_of(alloc, tree, "name")?;
    let Some(to) = whole_at(tree, "to") else {
        return Err(LineFault::BadKey);
    };
    Ok(Command::Ack { name, to })
}

fn drop_of(alloc: Global, tree: &Tree<'_>) -> Result<Command, LineFault>
    ensures { Means (ok_or (drop_of (view tree.now)) LineFault.BadKey) result }
{
    let name = text_of(alloc, tree, "name")?;
    Ok(Command::Drop { name })
}

// The command of a word.
fn of_verb(alloc: Global, verb: Verb, tree: &Tree<'_>) -> Result<Command, LineFault>
    ensures { Means (ok_or (of_verb verb (view tree.now)) LineFault.BadKey) result }
{
    match verb {
        Verb::Stream => stream_of(alloc, tree),
        Verb::Grant => grant_of(alloc, tree),
        Verb::Revoke => revoke_of(alloc, tree),
        Verb::Put => put_of(alloc, tree),
        Verb::Beat => beat_of(alloc, tree),
        Verb::Query => query_of(alloc, tree),
        Verb::Fetch => fetch_of(alloc, tree),
        Verb::Ack => ack_of(alloc, tree),
        Verb::Drop => drop_of(alloc, tree),
        Verb::List => Ok(Command::List),
    }
}

// The tenant that the line names, if it names one.
fn tenant_of<'a>(alloc: Global, tree: &Tree<'_>) -> Result<Option<Named<'a>>, LineFault>
    ensures { Means (ok_or (optional_text (codes "tenant") (view tree.now)) LineFault.BadKey) result }
{
    match optional_text(tree, "tenant") {
        None => Err(LineFault::BadKey),
        Some(None) => Ok(None),
        Some(Some(text)) => {
            let name = Text::new(alloc, text)?;
            Ok(Some(Named::of_copy(name)))
        }
    }
}

fn of_keys<'a>(
    alloc: Global,
    verb: Verb,
    tree: &Tree<'_>,
) -> Result<(Option<Named<'a>>, Command), LineFault>
    ensures { Means (of_keys verb (view tree.now)) result }
{
    if !has_only(tree, verb.keys()) {
        return Err(LineFault::BadKey);
    }
    let tenant = tenant_of(alloc, tree)?;
    let command = of_verb(alloc, verb, tree)?;
    Ok((tenant, command))
}

fn of_tree<'a>(alloc: Global, tree: &Tree<'_>) -> Result<(Option<Named<'a>>, Command), LineFault>
    ensures { Means (of_data (Some (view tree.now))) result }
{
    if !tree.is_object() {
        return Err(LineFault::BadLine);
    }
    let text = text_at(tree, "do").ok_or(LineFault::BadCommand)?;
    let Some(verb) = Verb::read(text) else {
        return Err(LineFault::BadCommand);
    };
    of_keys(alloc, verb, tree)
}

// The command of a text, by its tree.
fn by_tree<'a>(
    alloc: Global,
    text: &str,
    scratch: &mut Scratch,
) -> Result<(Option<Named<'a>>, Command), LineFault>
    ensures { Means (of_data (read text.now)) result }
{
    let Some(tree) = read_tree(alloc, text, scratch)? else {
        return Err(LineFault::BadLine);
    };
    of_tree(alloc, &tree)
}

/// As `read_command`, but a name that stands in the line isn't copied.
#[tactic(auto, unfolding(crate::specs::Command::command_of))]
pub fn read_addressed<'a>(
    alloc: Global,
    line: &'a [u8],
    scratch: &mut Scratch,
) -> Result<(Option<Named<'a>>, Command), LineFault>
    ensures { Means (command_of line.now) result }
{
    let Some(text) = line_text(line) else {
        return Err(LineFault::BadLine);
    };
    match read_plain(alloc, text) {
        Ok(call) => Ok(call),
        Err(NoCommand::Other) => by_tree(alloc, text, scratch),
        Err(NoCommand::NoMemory) => Err(LineFault::NoMemory),
    }
}

/// The command of a line, without its line feed, and the tenant that the line names, if any. What
/// reading takes beside the command is kept in the scratch, which serves one line after another.
///
/// In this order: `BadLine` (10) where the line isn't the UTF-8 text of one JSON object,
/// `BadCommand` (11) where its key `do` is missing or no word of a command, `BadKey` (12) where
/// another key is missing, unknown or of another kind. `NoMemory` (70) may be told of any line.
pub fn read_command(
    alloc: Global,
    line: &[u8],
    scratch: &mut Scratch,
) -> Result<(Option<Text>, Command), LineFault>
    ensures { Means (command_of line.now) result }
{
    match read_addressed(alloc, line, scratch) {
        Ok((tenant, command)) => {
            let tenant = match tenant {
                Some(name) => Some(name.into_text(alloc)?),
                None => None,
            };
            Ok((tenant, command))
        }
        Err(fault) => Err(fault),
    }
}

/// What a line asks that may name no tenant (`BadKey`, 12), prepared for a call, with its kind; else its fault is
/// that of `read_command`. Sessions and journals share this function, so what reads a line is there once, and
/// has what it calls in itself.
#[inline(never)]
pub fn read_call(
    alloc: Global,
    line: &[u8],
    scratch: &mut Scratch,
) -> Result<(Kind, Arc<Prepared>), LineFault>
    ensures ok { IfOk result (λ call. own_command (command_of line.now) ≡ Ok (arc_value call.1)) }
    ensures err { IfErr result (λ fault. Means (own_command (command_of line.now)) (Err fault)) }
{
    let command = own_command(alloc, line, scratch)?;
    let kind = Kind::of(&command);
    let prepared = prepare(alloc, command)?;
    Ok((kind, prepared))
}

// The command of a line that may name no tenant.
fn own_command(alloc: Global, line: &[u8], scratch: &mut Scratch) -> Result<Command, LineFault>
    ensures { Means (own_command (command_of line.now)) result }
{
    let (tenant, command) = read_command(alloc, line, scratch)?;
    if tenant.is_some() {
        return Err(LineFault::BadKey);
    }
    Ok(command)
}
