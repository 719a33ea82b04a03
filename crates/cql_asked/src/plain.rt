//! A command whose keys hold texts and whole numbers, and a put's its row, read straight off its line.
//!
//! Most lines are such: put, beat, fetch, ack, drop and list. One that has its command's keys and no others,
//! and is written plainly, is read in one pass, with no index and no tree. Whatever else a line is, and
//! why it is refused, is told by its tree.
ghost use Rattle.std.specs.Prelude.{◌≡◌, ◌<◌, length, Some, Ok, option_map, reverse, IfOk, OnOk};
ghost use Rattle.serde_json.specs.Data.{string, number, unsigned, no_members};
ghost use Rattle.serde_json.specs.Read.{number_of, read};
ghost use Rattle.cql_asked.specs.Command.{of_data};
ghost use Rattle.cql_asked.specs.Plain.{Reads, ReadsValue, ReadsRow, ReadsRest, ReadsItems, ReadsMembers, Holds, Adds, Takes, IsCall};

use crate::command::Verb;
use crate::named::Named;
use cql_core::Command;
use cql_lines::reading::read_number;
use cql_lines::tree::Number;
use cql_lines::{NotPlain, Reader};
use cql_value::{Row, Text, Value};
use json::Token;
use std::alloc::{AllocError, AllocFailed, Global};

// A row of more values is read by its line's tree: no stream takes it.
const MOST_VALUES: usize = 16;

/// Why no command was read.
#[derive(Clone, Copy, Drop)]
pub(crate) enum NoCommand {
    /// The line isn't such a command's, or it is to be refused.
    Other,
    /// There was no memory.
    NoMemory,
}

impl From<NotPlain> for NoCommand {
    ghost use Rattle.cql_asked.specs.declared.plain.NoCommand.TheVariants.{Other};

    ghost from_gives = { λ _ e. e ≡ Other };

    fn from(_refused: NotPlain) -> NoCommand {
        NoCommand::Other
    }
}

impl From<AllocError> for NoCommand {
    ghost use Rattle.cql_asked.specs.declared.plain.NoCommand.TheVariants.{NoMemory};

    ghost from_gives = { λ _ e. e ≡ NoMemory };

    fn from(_error: AllocError) -> NoCommand {
        NoCommand::NoMemory
    }
}

impl<T: Drop> From<AllocFailed<T>> for NoCommand {
    ghost use Rattle.cql_asked.specs.declared.plain.NoCommand.TheVariants.{NoMemory};

    ghost from_gives = { λ _ e. e ≡ NoMemory };

    fn from(_error: AllocFailed<T>) -> NoCommand {
        NoCommand::NoMemory
    }
}

// The whole number from 0 up that a text writes.
fn whole(text: &str) -> Result<u64, NoCommand>
    ensures { IfOk result (λ n. number_of text.now ≡ Some (unsigned n)) }
{
    match read_number(text) {
        Some(Number::Unsigned(n)) => Ok(n),
        _ => Err(NoCommand::Other),
    }
}

// The value of a row that is next.
fn next_value(alloc: Global, reader: &mut Reader<'_>) -> Result<Value, NoCommand>
    ensures ok { IfOk result (λ v. ReadsValue 125 reader.old v reader.new) }
    ensures shorter { OnOk result (length reader.new < length reader.old) }
{
    let token = reader.scalar()?;
    match token {
        Token::Number(text) => {
            let Some(number) = read_number(text) else {
                return Err(NoCommand::Other);
            };
            let Some(number) = number.as_i64() else {
                return Err(NoCommand::Other);
            };
            Ok(Value::Number(number))
        }
        Token::String(text) => {
            let text = Text::new(alloc, text)?;
            Ok(Value::Text(text))
        }
        _ => Err(NoCommand::Other),
    }
}

// The values up to the bracket that closes their row, the last one first, where so many stand before them
// already: what is known at the bracket is how many there are in all, so that they get as much room and no more.
#[cycle(values)]
#[inline(always)]
fn last_values(
    alloc: Global,
    reader: &mut Reader<'_>,
    before: usize,
) -> Result<Vec<Value>, NoCommand>
    ensures ok { IfOk result (λ v. ReadsRest 125 reader.old (reverse v.items) reader.new) }
    ensures shorter { OnOk result (length reader.new < length reader.old) }
{
    if reader.take_end_array() {
        let values = Vec::with_capacity(alloc, before)?;
        return Ok(values);
    }
    if before >= MOST_VALUES {
        return Err(NoCommand::Other);
    }
    values_from(alloc, reader, before)
}

// The same, where a value is next.
#[cycle(values)]
fn values_from(
    alloc: Global,
    reader: &mut Reader<'_>,
    before: usize,
) -> Result<Vec<Value>, NoCommand>
    requires { before < MOST_VALUES }
    ensures ok { IfOk result (λ v. ReadsRest 125 reader.old (reverse v.items) reader.new) }
    ensures shorter { OnOk result (length reader.new < length reader.old) }
{
    let value = next_value(alloc, reader)?;
    let mut values = last_values(alloc, reader, before + 1)?;
    values.push(value)?;
    Ok(values)
}

// The values up to the bracket that closes their row.
fn next_values(alloc: Global, reader: &mut Reader<'_>) -> Result<Vec<Value>, NoCommand>
    ensures ok { IfOk result (λ v. ReadsItems 125 reader.old v.items reader.new) }
    ensures shorter { OnOk result (length reader.new < length reader.old) }
{
    let mut values = last_values(alloc, reader, 0)?;
    values.reverse();
    Ok(values)
}

// The row that is next.
fn next_row(alloc: Global, reader: &mut Reader<'_>) -> Result<Vec<Value>, NoCommand>
    ensures ok { IfOk result (λ v. ReadsRow 126 reader.old v.items reader.new) }
    ensures shorter { OnOk result (length reader.new < length reader.old) }
{
    reader.begin_array()?;
    next_values(alloc, reader)
}

/// What is read of a line so far.
struct PlainLine<'a> {
    verb: Option<Verb>,
    tenant: Option<&'a str>,
    stream: Option<&'a str>,
    name: Option<&'a str>,
    at: Option<u64>,
    to: Option<u64>,
    until: Option<u64>,
    row: Option<Vec<Value>>,
}

impl Drop for PlainLine<'_> {
    fn drop(self) {
        let PlainLine {
            verb: _,
            tenant: _,
            stream: _,
            name: _,
            at: _,
            to: _,
            until: _,
            row: _,
        } = self;
    }
}

impl<'a> PlainLine<'a> {
    fn new() -> PlainLine<'a>
        ensures { Holds result no_members }
    {
        PlainLine {
            verb: None,
            tenant: None,
            stream: None,
            name: None,
            at: None,
            to: None,
            until: None,
            row: None,
        }
    }

    // Takes a text that stands at a key.
    fn take_text(&mut self, key: &str, text: &'a str) -> Result<(), NoCommand>
        ensures { OnOk result (Adds self.old self.new key.now (string text.now)) }
    {
        match key {
            "do" => self.verb = Verb::read(text),
            "stream" => self.stream = Some(text),
            "tenant" => self.tenant = Some(text),
            "name" => self.name = Some(text),
            _ => return Err(NoCommand::Other),
        }
        Ok(())
    }

    // Takes a whole number that stands at a key.
    fn take_whole(&mut self, key: &str, n: u64) -> Result<(), NoCommand>
        ensures { OnOk result (Adds self.old self.new key.now (number (unsigned n))) }
    {
        match key {
            "at" => self.at = Some(n),
            "to" => self.to = Some(n),
            "until" => self.until = Some(n),
            _ => return Err(NoCommand::Other),
        }
        Ok(())
    }

    // Takes what stands at a key, where it is no list.
    fn take_scalar(&mut self, reader: &mut Reader<'a>, key: &str) -> Result<(), NoCommand>
        ensures ok { OnOk result (Takes self.old self.new key.now reader.old reader.new) }
        ensures shorter { OnOk result (length reader.new < length reader.old) }
    {
        let token = reader.scalar()?;
        match token {
            Token::String(text) => self.take_text(key, text),
            Token::Number(text) => {
                let n = whole(text)?;
                self.take_whole(key, n)
            }
            _ => Err(NoCommand::Other),
        }
    }

    // Takes what stands at a key.
    fn take(&mut self, alloc: Global, reader: &mut Reader<'a>, key: &str) -> Result<(), NoCommand>
        ensures ok { OnOk result (Takes self.old self.new key.now reader.old reader.new) }
        ensures shorter { OnOk result (length reader.new < length reader.old) }
    {
        // A look at the length costs less than one at the bytes, and most keys have another.
        if key.len() == 3 && key == "row" {
            self.row = Some(next_row(alloc, reader)?);
            return Ok(());
        }
        self.take_scalar(reader, key)
    }

    fn into_put(self, alloc: Global) -> Result<(Option<Named<'a>>, Command), NoCommand>
        requires { self.verb ≡ Some Verb.Put }
        ensures { IfOk result (λ call. IsCall self.entry call) }
    {
        let PlainLine {
            verb: _,
            tenant,
            stream: Some(stream),
            name: None,
            at: Some(at),
            to: None,
            until: None,
            row: Some(row),
        } = self
        else {
            return Err(NoCommand::Other);
        };
        let row = Row::new(alloc, row)?;
        let stream = Text::new(alloc, stream)?;
        Ok((named(tenant), Command::Put { stream, at, row }))
    }

    fn into_beat(self, alloc: Global) -> Result<(Option<Named<'a>>, Command), NoCommand>
        requires { self.verb ≡ Some Verb.Beat }
        ensures { IfOk result (λ call. IsCall self.entry call) }
    {
        let PlainLine {
            verb: _,
            tenant,
            stream: Some(stream),
            name: None,
            at: Some(at),
            to: None,
            until: None,
            row: None,
        } = self
        else {
            return Err(NoCommand::Other);
        };
        let stream = Text::new(alloc, stream)?;
        Ok((named(tenant), Command::Beat { stream, at }))
    }

    fn into_fetch(self, alloc: Global) -> Result<(Option<Named<'a>>, Command), NoCommand>
        requires { self.verb ≡ Some Verb.Fetch }
        ensures { IfOk result (λ call. IsCall self.entry call) }
    {
        let PlainLine {
            verb: _,
            tenant,
            stream: None,
            name: Some(name),
            at: None,
            to: None,
            until,
            row: None,
        } = self
        else {
            return Err(NoCommand::Other);
        };
        let name = Text::new(alloc, name)?;
        Ok((named(tenant), Command::Fetch { name, until }))
    }

    fn into_ack(self, alloc: Global) -> Result<(Option<Named<'a>>, Command), NoCommand>
        requires { self.verb ≡ Some Verb.Ack }
        ensures { IfOk result (λ call. IsCall self.entry call) }
    {
        let PlainLine {
            verb: _,
            tenant,
            stream: None,
            name: Some(name),
            at: None,
            to: Some(to),
            until: None,
            row: None,
        } = self
        else {
            return Err(NoCommand::Other);
        };
        let name = Text::new(alloc, name)?;
        Ok((named(tenant), Command::Ack { name, to }))
    }

    fn into_drop(self, alloc: Global) -> Result<(Option<Named<'a>>, Command), NoCommand>
        requires { self.verb ≡ Some Verb.Drop }
        ensures { IfOk result (λ call. IsCall self.entry call) }
    {
        let PlainLine {
            verb: _,
            tenant,
            stream: None,
            name: Some(name),
            at: None,
            to: None,
            until: None,
            row: None,
        } = self
        else {
            return Err(NoCommand::Other);
        };
        let name = Text::new(alloc, name)?;
        Ok((named(tenant), Command::Drop { name }))
    }

    fn into_list(self, alloc: Global) -> Result<(Option<Named<'a>>, Command), NoCommand>
        requires { self.verb ≡ Some Verb.List }
        ensures { IfOk result (λ call. IsCall self.entry call) }
    {
        let PlainLine {
            verb: _,
            tenant,
            stream: None,
            name: None,
            at: None,
            to: None,
            until: None,
            row: None,
        } = self
        else {
            return Err(NoCommand::Other);
        };
        Ok((named(tenant), Command::List))
    }

    // The command, where its keys are there and no others.
    fn into_command(self, alloc: Global) -> Result<(Option<Named<'a>>, Command), NoCommand>
        ensures { IfOk result (λ call. IsCall self.entry call) }
    {
        match self.verb {
            Some(Verb::Put) => self.into_put(alloc),
            Some(Verb::Beat) => self.into_beat(alloc),
            Some(Verb::Fetch) => self.into_fetch(alloc),
            Some(Verb::Ack) => self.into_ack(alloc),
            Some(Verb::Drop) => self.into_drop(alloc),
            Some(Verb::List) => self.into_list(alloc),
            _ => Err(NoCommand::Other),
        }
    }
}

fn named<'a>(text: Option<&'a str>) -> Option<Named<'a>>
    ensures { result ≡ option_map (λ s. s.now) text.entry }
{
    match text {
        Some(text) => Some(Named::of_line(text)),
        None => None,
    }
}

// What the rest of an object says.
fn next_members<'a>(alloc: Global, reader: &mut Reader<'a>) -> Result<PlainLine<'a>, NoCommand>
    ensures { IfOk result (λ line. ReadsMembers reader.old line reader.new) }
{
    let mut line = PlainLine::new();
    'members: while let Some(key) = reader.next_key()? {
        line.take(alloc, reader, key)?;
    }
    Ok(line)
}

// The command that a text is, if it is such a one.
pub(crate) fn read_plain<'a>(
    alloc: Global,
    text: &'a str,
) -> Result<(Option<Named<'a>>, Command), NoCommand>
    ensures { IfOk result (λ call. of_data (read text.now) ≡ Ok call) }
{
    let mut reader = Reader::new(text);
    reader.begin_object()?;
    let line = next_members(alloc, &mut reader)?;
    if !reader.is_at_end() {
        return Err(NoCommand::Other);
    }
    line.into_command(alloc)
}
