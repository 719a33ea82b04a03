// What `cqld` does.

use crate::failure::Failure;
use crate::files::callers_with_files;
use crate::forms::{keyed_lists, plain_lists};
use crate::listener::Listener;
use crate::log::{LogLines, Stamp};
use crate::serving::{Benches, Serving};
use crate::start::Start;
use crate::watch::Watch;
use cql_benches::{Rooms, benches_of};
use cql_connections::Limits;
use cql_core::{Operator, TenantTable};
use cql_hall::Gate;
use cql_wire::{Config, JoinForm, NoConfig, TableFault, Watched, config_of, given_table};
use std::alloc::{AllocError, Global};
use std::env::Env;
use std::fs::{File, Files};
use std::net::{Ipv4Addr, Net, TcpListener, TcpStream};
use std::sync::Wait;
use std::thread::{Builder, Scope, Threads};
use std::time::{Clock, Duration};
use std::{io, thread};

/// The program `cqld`: reads its words, and the tenants line on standard input; and tells that this is
/// right, or serves callers as the words say, at 127.0.0.1 or where they say. What is wrong is told on standard error.
///
/// Gives the status: 0 where all is well or the words ask for help, 2 where the words are wrong, else
/// that of the failure.
pub fn program<R>(rt: &R) -> u8
where
    R: Env
        + Alloc<A = Global>
        + Threads
        + Wait
        + Clock
        + Net<Listener = TcpListener, Stream = TcpStream>
        + Files<File = File>
        + Input
        + Print
        + Eprint
        + Sync,
{
    let config = match config_of(rt) {
        Ok(config) => config,
        Err(NoConfig::NoMemory) => return told(rt, Failure::NoMemory),
        Err(NoConfig::Told(status)) => return status,
    };
    match run(rt, rt.alloc(), config) {
        Ok(()) => 0,
        Err(failure) => told(rt, failure),
    }
}

// Tells a failure, and gives its status.
fn told(rt: &impl Eprint, failure: Failure) -> u8 {
    let _ = eprintln!(rt; "cqld: {failure}");
    failure.status()
}

// Reads the tenants, and serves them, or tells that they are right.
fn run<R>(rt: &R, alloc: Global, config: Config) -> Result<(), Failure>
where
    R: Threads
        + Wait
        + Clock
        + Net<Listener = TcpListener, Stream = TcpStream>
        + Files<File = File>
        + Input
        + Print
        + Eprint
        + Sync,
{
    if config.audit && config.sessions == 0 {
        return Err(Failure::NoSessions);
    }
    let given = given_table(alloc, &mut Watched::new(rt.reader()));
    if config.check {
        tell_checked(rt, given)
    } else {
        outcome(rt, alloc, config, &given?)
    }
}

// Tells that the tenants are right, or which rule they break.
fn tell_checked(rt: &impl Print, given: Result<TenantTable, TableFault>) -> Result<(), Failure> {
    let table = match given {
        Ok(table) => table,
        Err(TableFault::Refused(rule)) => return Err(Failure::Rule(rule)),
        Err(fault) => return Err(Failure::from(fault)),
    };
    let many = table.tenants().len();
    if println!(rt; "the tenants line is right, tenants: {many}").is_err() {
        return Err(Failure::Writing);
    }
    Ok(())
}

// Makes the operators of a bench for each worker, of one for answers that take little, and of those that all
// borrow, and serves by them.
fn outcome<R>(rt: &R, alloc: Global, config: Config, table: &TenantTable) -> Result<(), Failure>
where
    R: Threads
        + Wait
        + Clock
        + Net<Listener = TcpListener, Stream = TcpStream>
        + Files<File = File>
        + Print
        + Eprint
        + Sync,
{
    let threads = u16::from(config.workers) + 1;
    // Operators of the caller's own may stand in the place of these.
    match config.join {
        JoinForm::Plain => {
            let own = plain_lists(alloc, threads)?;
            let shared = plain_lists(alloc, config.warm)?;
            listen(rt, alloc, config, table, own, shared)
        }
        JoinForm::Keyed => {
            let own = keyed_lists(alloc, threads)?;
            let shared = keyed_lists(alloc, config.warm)?;
            listen(rt, alloc, config, table, own, shared)
        }
    }
}

// What came of a step to listen as the words say; where it can't be done the log is told so too.
fn listened<T, R: Clock + Eprint>(
    rt: &R,
    config: &Config,
    done: io::Result<T>,
) -> Result<T, Failure> {
    let error = match done {
        Ok(value) => return Ok(value),
        Err(error) => error,
    };
    let (ip, port, why) = (config.listen, config.port, error.kind());
    if config.log > 0 {
        let stamp = Stamp::now(rt);
        let _ = eprintln!(rt;
            "{{{stamp},\"cannot_listen\":{port},\"address\":\"{ip}\",\"why\":\"{why}\"}}"
        );
    }
    Err(Failure::Listening { ip, port, why })
}

// Warns where others than programs of this machine may come in: nothing is encrypted.
fn warn_of_keys(rt: &impl Eprint, listen: Ipv4Addr) {
    if listen != Ipv4Addr::LOCALHOST {
        let _ = eprintln!(rt;
            "cqld: it listens at {listen}: keys and rows go in the clear, unless a proxy that encrypts stands before it"
        );
    }
}

// A bench of each list of operators, and how much they may keep.
fn benches_by<O: Operator>(
    alloc: Global,
    config: &Config,
    own: Vec<Vec<O>>,
    shared: Vec<Vec<O>>,
) -> Result<Benches<O>, AllocError> {
    let own = benches_of(alloc, own)?;
    let shared = benches_of(alloc, shared)?;
    let rooms = Rooms {
        warm: u64::from(config.warm_room) << 20,
        answer: u64::from(config.room) << 20,
    };
    Ok(Benches { own, shared, rooms })
}

// Makes a bench of each list of operators, and serves at the port. Tells where fewer callers than were asked
// for have files.
fn listen<R, O>(
    rt: &R,
    alloc: Global,
    config: Config,
    table: &TenantTable,
    own: Vec<Vec<O>>,
    shared: Vec<Vec<O>>,
) -> Result<(), Failure>
where
    O: Operator + Send,
    R: Threads
        + Wait
        + Clock
        + Net<Listener = TcpListener, Stream = TcpStream>
        + Files<File = File>
        + Print
        + Eprint
        + Sync,
{
    let benches = benches_by(alloc, &config, own, shared)?;
    let start = Start::of(rt, alloc, &config, table)?;
    warn_of_keys(rt, config.listen);
    let address = (config.listen, config.port);
    let listener = listened(rt, &config, TcpListener::bind(rt, address))?;
    let port = listened(rt, &config, listener.local_addr())?.port();
    let bound = listened(rt, &config, Listener::new(rt, alloc, &listener))?;
    let callers = callers_with_files(rt, config.callers.max(1));
    let limits = Limits::of_seconds(config.login, config.idle)
        .with_callers(callers)
        .with_answer(config.answer);
    let serving = Serving {
        bound,
        benches,
        limits,
        gather: Duration::from_millis(u64::from(config.sync)),
        sessions: config.sessions,
        audit: config.audit,
    };
    serve_logged(rt, alloc, &config, port, table, start, serving)
}

// Serves, and tells the log of it.
fn serve_logged<R, O>(
    rt: &R,
    alloc: Global,
    config: &Config,
    port: u16,
    table: &TenantTable,
    start: Start,
    serving: Serving<'_, O>,
) -> Result<(), Failure>
where
    O: Operator + Send,
    R: Threads + Wait + Clock + Print + Eprint + Sync,
{
    let log = LogLines::new(alloc);
    let Some(watch) = Watch::new(rt, alloc, table, &log, config.log, config.listen, port) else {
        return Err(Failure::NoMemory);
    };
    let is_told = config.log > 0;
    attend(rt, alloc, table, start, serving, is_told, &log, &watch)?;
    if watch.has_opened() {
        Ok(())
    } else {
        Err(Failure::Writing)
    }
}

// Serves, while a thread writes what the log is told, if it is told anything. The gate tells the port once
// the threads stand.
fn attend<R, G, O>(
    rt: &R,
    alloc: Global,
    table: &TenantTable,
    start: Start,
    serving: Serving<'_, O>,
    is_told: bool,
    log: &LogLines,
    gate: &G,
) -> Result<(), Failure>
where
    R: Threads + Wait + Clock + Print + Eprint + Sync,
    G: Gate + Sync,
    O: Operator + Send,
{
    thread::scope(
        thread::scope_env(),
        rt,
        move |scope| -> Result<(), Failure> {
            start_writer(scope, rt, log, is_told)?;
            let served = start.serve(rt, alloc, table, serving, gate);
            log.close(rt);
            served
        },
    )
}

// Starts the thread that writes the log until it is closed, if the log is told anything; or it can't be
// made.
fn start_writer<'s, T, R: Wait + Clock + Eprint + Sync + 's>(
    scope: &Scope<'s, T>,
    rt: &'s R,
    log: &'s LogLines,
    is_told: bool,
) -> Result<(), Failure> {
    if !is_told {
        return Ok(());
    }
    let started = Builder::new().spawn_scoped(scope, move || log.write_on(rt));
    match started {
        Ok(_handle) => Ok(()),
        Err(_refused) => Err(Failure::NoMemory),
    }
}
