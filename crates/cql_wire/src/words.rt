//! What the words of `cqld`'s command line say.
ghost use Rattle.std.specs.Prelude.{◌≤◌, IfOk};
ghost use Rattle.std.specs.Net.Grammar.{Parses, IsIpv4Text};
ghost use Rattle.cql_wire.specs.Words.{IsInRange};

use clap::builder::ValueParser;
use clap::error::ErrorKind;
use clap::{Arg, ArgAction, ArgMatches, Command, Error, value_parser};
use std::alloc::{AllocError, Global};
use std::env::{self, Env};
use std::io;
use std::net::{AddrParseError, Ipv4Addr};

/// The version, which is that of the top entry of CHANGELOG.md that has a number.
pub const VERSION: &str = "0.1.0";

const JOIN_FORMS: &[&str] = &["plain", "keyed"];

const NO_ADDRESS: &str =
    "invalid value for '--listen <ADDRESS>': an address is four numbers up to 255, as 127.0.0.1";

/// The operators by which joins and groups are computed.
#[derive(Clone, Copy)]
pub enum JoinForm {
    /// All rows anew at each instant.
    Plain,
    /// What the changes of an instant change, by look-ups of equal values.
    Keyed,
}

/// What is served, and how.
#[derive(Drop)]
pub struct Config {
    /// The address that is listened at, of this machine; 0.0.0.0 for all that it has.
    pub listen: Ipv4Addr,
    /// The port there; at 0 the system chooses one.
    pub port: u16,
    /// How many threads serve callers, 1 to 64.
    pub workers: u8,
    /// How many callers are connected at once, 1 to 65,536; further ones wait to be accepted.
    pub callers: u32,
    /// How many sessions are served in all; at 0 there is no end.
    pub sessions: u16,
    /// By how many seconds of a session its login line has to be whole, up to 3,600; at 0 it need
    /// never be.
    pub login: u16,
    /// For how many seconds a session waits for its caller, up to 86,400; at 0 there is no end.
    pub idle: u32,
    /// For how many seconds an answer is computed before it is given up, up to 86,400; at 0 there is
    /// no end.
    pub answer: u32,
    /// How joins and groups are computed.
    pub join: JoinForm,
    /// How many benches go on with the queries that they answered last, up to 1,024; at 0 each
    /// answer begins anew.
    pub warm: u16,
    /// How many MiB benches may keep together while nobody uses them, 1 to 65,536.
    pub warm_room: u32,
    /// How many MiB an answer may weigh, with what its bench keeps for it, 1 to 65,536.
    pub room: u32,
    /// Every how many seconds what was done is told, up to 86,400; at 0 never.
    pub log: u32,
    /// The file that the calls are written to that change something, and read from at the start.
    pub journal: Option<String>,
    /// For how many milliseconds such calls are gathered before they are made durable, up to 60,000; at 0
    /// for as long as the last ones took.
    pub sync: u16,
    /// Whether each call is kept, and checked after the last session.
    pub audit: bool,
    /// Whether the tenants are looked at, and nobody is served.
    pub check: bool,
}

/// Why the words ask for no serving.
#[derive(Clone, Copy)]
pub enum NoConfig {
    /// There was no memory to read them.
    NoMemory,
    /// Their fault was told on standard error (2), or the help or the version that they ask for on
    /// standard output (0): the program's status.
    Told(u8),
}

/// What the words of the program's command line ask for. Their fault, the help and the version are told.
pub fn config_of<R>(rt: &R) -> Result<Config, NoConfig>
where
    R: Env + Alloc<A = Global> + Print + Eprint,
    ensures { IfOk result IsInRange }
{
    let words = match words_of(rt) {
        Ok(words) => words,
        Err(error) if error.kind() == io::ErrorKind::OutOfMemory => {
            return Err(NoConfig::NoMemory);
        }
        Err(_) => {
            let _ = rt.eprintln("cqld: a word is no text");
            return Err(NoConfig::Told(2));
        }
    };
    match read_words(rt.alloc(), words.as_slice()) {
        Ok(config) => Ok(config),
        Err(error) if error.kind() == ErrorKind::OutOfMemory => Err(NoConfig::NoMemory),
        Err(error) => {
            let _ = error.print(rt);
            Err(NoConfig::Told(if error.use_stderr() { 2 } else { 0 }))
        }
    }
}

// The words, of which the first is the program's name.
fn words_of<R: Env + Alloc<A = Global>>(rt: &R) -> io::Result<Vec<String>> {
    let words = env::args(rt)?.collect::<Vec<String>>(rt.alloc())?;
    Ok(words)
}

// Reads the words, of which the first is the program's name.
fn read_words(alloc: Global, words: &[String]) -> Result<Config, Error>
    ensures { IfOk result IsInRange }
{
    let matches = command(alloc)?.try_get_matches_from(words)?;
    let Ok(listen) = address_of(matches.get_str("listen").unwrap_or("")) else {
        return Err(command(alloc)?.error(ErrorKind::ValueValidation, NO_ADDRESS)?);
    };
    Ok(Config {
        listen,
        port: number(&matches, "port", 0, 65_535) as u16,
        workers: number(&matches, "workers", 1, 64) as u8,
        callers: number(&matches, "callers", 1, 65_536),
        sessions: number(&matches, "sessions", 0, 65_535) as u16,
        login: number(&matches, "login", 0, 3600) as u16,
        idle: number(&matches, "idle", 0, 86_400),
        answer: number(&matches, "answer", 0, 86_400),
        join: join_form(matches.get_str("join")),
        warm: number(&matches, "warm", 0, 1024) as u16,
        warm_room: number(&matches, "warm-room", 1, 65_536),
        room: number(&matches, "room", 1, 65_536),
        log: number(&matches, "log", 0, 86_400),
        journal: text_of(alloc, matches.get_str("journal"))?,
        sync: number(&matches, "sync", 0, 60_000) as u16,
        audit: matches.get_flag("audit"),
        check: matches.get_flag("check"),
    })
}

// The IPv4 address that a text writes: four numbers below 256 without leading zeros, with dots between them.
fn address_of(text: &str) -> Result<Ipv4Addr, AddrParseError>
    ensures { Parses IsIpv4Text text.now result }
{
    text.parse()
}

// The number of a word, which lies between these by its parser.
fn number(matches: &ArgMatches, word: &str, least: u32, most: u32) -> u32
    requires { least ≤ most }
    ensures least { least ≤ result }
    ensures most { result ≤ most }
{
    matches
        .get_one::<u32>(word)
        .unwrap_or(least)
        .clamp(least, most)
}

// A copy of a text, if there is one.
fn text_of(alloc: Global, text: Option<&str>) -> Result<Option<String>, AllocError> {
    match text {
        Some(text) => Ok(Some(String::from_str(alloc, text)?)),
        None => Ok(None),
    }
}

// The form of that name; keyed where none is named.
fn join_form(name: Option<&str>) -> JoinForm {
    match name {
        Some("plain") => JoinForm::Plain,
        _ => JoinForm::Keyed,
    }
}

// What stands behind a word.
#[derive(Clone, Copy)]
enum Takes {
    // A number: what it is where none is given, the least and the most.
    Count(&'static str, i64, i64),
    // A number of seconds: what it is where none is given, and the most.
    Seconds(&'static str, i64),
    // A number of MiB: what it is where none is given, the least and the most.
    Mebibytes(&'static str, i64, i64),
    // A number of milliseconds: what it is where none is given, and the most.
    Milliseconds(&'static str, i64),
    // A form of joins.
    Form,
    // A file, of which none need be given.
    File,
    // An IPv4 address: what it is where none is given.
    Address(&'static str),
    Nothing,
}

// A word: its name, what it takes, and what the help says of it.
struct Word(&'static str, Takes, &'static str);

const WORDS: &[Word] = &[
    Word(
        "listen",
        Takes::Address("127.0.0.1"),
        "The address of this machine at which callers are let in, or 0.0.0.0 for all",
    ),
    Word(
        "port",
        Takes::Count("0", 0, 65_535),
        "The port there, or 0 for one that the system chooses",
    ),
    Word(
        "workers",
        Takes::Count("4", 1, 64),
        "How many threads serve callers, 1 to 64",
    ),
    Word(
        "callers",
        Takes::Count("1024", 1, 65_536),
        "How many callers are connected at once, 1 to 65536; further ones wait",
    ),
    Word(
        "sessions",
        Takes::Count("0", 0, 65_535),
        "How many sessions are served in all, or 0 for no end",
    ),
    Word(
        "login",
        Takes::Seconds("10", 3600),
        "By when a session's login line has to be whole, or 0 for never",
    ),
    Word(
        "idle",
        Takes::Seconds("0", 86_400),
        "How long a session waits for its caller, or 0 for no end",
    ),
    Word(
        "answer",
        Takes::Seconds("60", 86_400),
        "How long an answer is computed before it is given up, or 0 for no end",
    ),
    Word(
        "join",
        Takes::Form,
        "How joins and groups are computed: plain, all rows anew, or keyed, what changes",
    ),
    Word(
        "warm",
        Takes::Count("64", 0, 1024),
        "How many answers are kept to go on from, or 0 for none",
    ),
    Word(
        "warm-room",
        Takes::Mebibytes("256", 1, 65_536),
        "How much answers that are kept may take together, 1 to 65536",
    ),
    Word(
        "room",
        Takes::Mebibytes("256", 1, 65_536),
        "How much one answer may take before it is given up, 1 to 65536",
    ),
    Word(
        "log",
        Takes::Seconds("0", 86_400),
        "How often counts are told on standard error, with who comes and leaves, or 0 for nothing",
    ),
    Word(
        "journal",
        Takes::File,
        "The file that keeps what changes for the next start; without it nothing is kept",
    ),
    Word(
        "sync",
        Takes::Milliseconds("0", 60_000),
        "How long changes are gathered before the file has them for good",
    ),
    Word(
        "audit",
        Takes::Nothing,
        "Keep each call, and check them after the last session",
    ),
    Word(
        "check",
        Takes::Nothing,
        "Tell whether the tenants are right, and serve nobody",
    ),
];

fn command<'a>(alloc: Global) -> Result<Command<'a>, Error> {
    let mut words = Vec::with_capacity(alloc, WORDS.len())?;
    for word in WORDS {
        words.push(argument(alloc, word)?)?;
    }
    let command = Command::new(alloc, "cqld").version(VERSION).about(
        "Serves continuous queries to the tenants that standard input names",
    );
    Ok(command.args(words)?)
}

fn argument<'a>(alloc: Global, word: &'static Word) -> Result<Arg<'a>, AllocError> {
    let Word(name, takes, help) = word;
    let argument = Arg::new(alloc, *name).long(*name).help(*help);
    let argument = match *takes {
        Takes::Count(default, least, most) => {
            valued(
                argument,
                "N",
                default,
                value_parser!(u32).range(least..=most),
            )
        }
        Takes::Mebibytes(default, least, most) => {
            valued(
                argument,
                "MIB",
                default,
                value_parser!(u32).range(least..=most),
            )
        }
        Takes::Seconds(default, most) => {
            valued(
                argument,
                "SECONDS",
                default,
                value_parser!(u32).range(0..=most),
            )
        }
        Takes::Milliseconds(default, most) => {
            valued(argument, "MS", default, value_parser!(u32).range(0..=most))
        }
        Takes::File => argument
            .value_name("FILE")
            .value_parser(ValueParser::string()),
        Takes::Form => valued(argument, "FORM", "keyed", JOIN_FORMS.into()),
        Takes::Address(default) => valued(argument, "ADDRESS", default, ValueParser::string()),
        Takes::Nothing => argument.action(ArgAction::SetTrue),
    };
    Ok(argument)
}

// One that takes a value: what the value is called, what it is where none is given, and how it is read.
fn valued<'a>(
    argument: Arg<'a>,
    called: &'a str,
    default: &'a str,
    parser: ValueParser<'a>,
) -> Arg<'a> {
    argument
        .value_name(called)
        .default_value(default)
        .value_parser(parser)
}
