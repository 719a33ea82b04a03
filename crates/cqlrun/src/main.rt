//! Runs a script: a tenants line and commands on standard input, replies on standard output.
#![tactic(auto)]

use cql_core::{Pool, Pooled};
use cql_plain::plain_bench;
use cql_wire::{ExitReport, RunEnd, Watched, program};
use std::alloc::AllocError;
use std::process::ExitCode;
use std::{env, io};

// So many bytes benches may keep together while they aren't used.
const WARM: u64 = 256 << 20;

fn main(rt: HostRuntime) -> ExitCode {
    let outcome = match outcome(&rt) {
        Ok(outcome) => outcome,
        Err(AllocError) => RunEnd::NoMemory.outcome(),
    };
    tell(&rt, outcome);
    ExitCode::from(outcome.status)
}

// Tells how the run ended, where there is something to tell.
fn tell(rt: &impl Eprint, outcome: ExitReport) {
    if !outcome.text.is_empty() {
        let _ = rt.eprintln(outcome.text);
    }
}

fn outcome(rt: &HostRuntime) -> Result<ExitReport, AllocError> {
    let alloc = rt.alloc();
    let Ok(args) = env::args(rt) else {
        return Ok(RunEnd::Words.outcome());
    };
    // Benches of the caller's own operators may stand in the place of these.
    let benches = vec![in alloc;
        plain_bench(alloc),
        plain_bench(alloc),
        plain_bench(alloc),
        plain_bench(alloc),
    ]?;
    let mut bench = Pooled::new(plain_bench(alloc), Pool::new(alloc, benches, WARM)?);
    let words = args.skip(1).collect::<Vec<String>>(alloc)?;
    let mut reader = Watched::new(rt.reader());
    let mut writer = Watched::new(io::writer(rt));
    Ok(program(
        alloc,
        words.as_slice(),
        &mut reader,
        &mut writer,
        &mut bench,
    ))
}
