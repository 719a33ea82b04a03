//! Serves continuous queries to callers on 127.0.0.1.
#![tactic(auto)]

use cql_server::program;
use std::process::ExitCode;

fn main(rt: HostRuntime) -> ExitCode {
    ExitCode::from(program(&rt))
}
