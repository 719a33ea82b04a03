// Runs each script that lies in the program's folder by benches of every make, which begin each answer
// anew or go on with the last one, and tells where its replies aren't the expected ones.

use cql_core::{Evaluator, Warm};
use cql_groups::GroupShape;
use cql_joins::KeyedJoin;
use cql_ops::{BenchOf, Operator, mixed_bench};
use cql_plain::{PlainJoin, PlainShape, plain_bench};
use cql_wire::{Watched, program};
use std::alloc::{AllocError, Global};
use std::process::ExitCode;
use std::{fs, io};

// The replies to a script, or what keeps it from its end.
fn replies<E: Evaluator>(
    alloc: Global,
    text: &[u8],
    bench: &mut E,
) -> Result<Vec<u8>, &'static str> {
    let mut reader = Watched::new(text);
    let mut writer = Watched::new(Vec::new(alloc));
    let told = program(alloc, &[], &mut reader, &mut writer, bench);
    match told.status {
        0 => Ok(writer.into_inner()),
        _ => Err(told.text),
    }
}

// The same by a bench that goes on with its last answer, or by one that begins each answer anew.
fn replies_by<O: Operator>(
    alloc: Global,
    text: &[u8],
    goes_on: bool,
    bench: BenchOf<O>,
) -> Result<Vec<u8>, &'static str> {
    if goes_on {
        replies(alloc, text, &mut Warm::new(bench))
    } else {
        let mut bench = bench;
        replies(alloc, text, &mut bench)
    }
}

// The makes of a bench's joins and shapes.
#[derive(Clone, Copy)]
enum Mix {
    Plain,
    KeyedJoins,
    GroupShapes,
    Keyed,
}

const MIXES: [Mix; 4] = [Mix::Plain, Mix::KeyedJoins, Mix::GroupShapes, Mix::Keyed];

impl Mix {
    fn name(self) -> &'static str {
        match self {
            Mix::Plain => "plain operators",
            Mix::KeyedJoins => "keyed joins",
            Mix::GroupShapes => "kept groups",
            Mix::Keyed => "keyed joins and kept groups",
        }
    }

    fn replies(self, alloc: Global, text: &[u8], goes_on: bool) -> Result<Vec<u8>, &'static str> {
        match self {
            Mix::Plain => replies_by(alloc, text, goes_on, plain_bench(alloc)),
            Mix::KeyedJoins => {
                let joins = (KeyedJoin::new(alloc), KeyedJoin::new(alloc));
                let shapes = (PlainShape::new(alloc), PlainShape::new(alloc));
                replies_by(alloc, text, goes_on, mixed_bench(alloc, joins, shapes))
            }
            Mix::GroupShapes => {
                let joins = (PlainJoin::new(alloc), PlainJoin::new(alloc));
                let shapes = (GroupShape::new(alloc), GroupShape::new(alloc));
                replies_by(alloc, text, goes_on, mixed_bench(alloc, joins, shapes))
            }
            Mix::Keyed => {
                let joins = (KeyedJoin::new(alloc), KeyedJoin::new(alloc));
                let shapes = (GroupShape::new(alloc), GroupShape::new(alloc));
                replies_by(alloc, text, goes_on, mixed_bench(alloc, joins, shapes))
            }
        }
    }
}

// The number of the first line at which two different texts differ, and what the first has there.
fn first_difference<'a>(written: &'a str, wanted: &str) -> (u64, &'a str) {
    let mut expected = wanted.split('\n');
    let mut number = 1u64;
    for line in written.split('\n') {
        if expected.next() != Some(line) {
            return (number, line);
        }
        number = number.saturating_add(1);
    }
    (number, "")
}

// What is wrong with the replies by a bench of these makes, if anything.
fn fault_by(
    alloc: Global,
    mix: Mix,
    goes_on: bool,
    text: &[u8],
    wanted: &str,
) -> Result<Option<String>, AllocError> {
    let by = mix.name();
    let how = if goes_on { "going on" } else { "anew" };
    let written = match mix.replies(alloc, text, goes_on) {
        Ok(written) => String::from_utf8_lossy(alloc, written.as_slice())?,
        Err(fault) => return Ok(Some(format!(in alloc; "by {by}, {how}: {fault}")?)),
    };
    if written.as_str() == wanted {
        return Ok(None);
    }
    let (number, line) = first_difference(written.as_str(), wanted);
    Ok(Some(format!(in alloc; "by {by}, {how}, first at line {number}: {line}")?))
}

// What is wrong with the replies to the script of that name, if anything.
fn fault_of(rt: &HostRuntime, name: &str) -> io::Result<Option<String>> {
    let alloc = rt.alloc();
    let text = fs::read(rt, format!(in alloc; "{name}.in")?)?;
    let wanted = fs::read_to_string(rt, format!(in alloc; "{name}.out")?)?;
    for mix in MIXES {
        for goes_on in [false, true] {
            if let Some(fault) = fault_by(alloc, mix, goes_on, text.as_slice(), wanted.as_str())? {
                return Ok(Some(fault));
            }
        }
    }
    Ok(None)
}

/// Runs the scripts that the file `list` names.
pub fn run(rt: &HostRuntime) -> io::Result<ExitCode> {
    let list = fs::read_to_string(rt, "list")?;
    let mut right = 0u64;
    let mut all = 0u64;
    for name in list.lines() {
        all = all.saturating_add(1);
        match fault_of(rt, name)? {
            Some(fault) => println!(rt; "{name} wrong, {fault}")?,
            None => {
                println!(rt; "{name} right")?;
                right = right.saturating_add(1);
            }
        }
    }
    println!(rt; "{right} of {all} scripts are right")?;
    Ok(if right == all {
        ExitCode::SUCCESS
    } else {
        ExitCode::FAILURE
    })
}
