// Commands written short, and what each is told.
use crate::outputs::{Numbers, Told, are_blocks};
use crate::tenants::Unmade;
use cql_core::{Block, ColumnText, Command, Reply};
use cql_value::{Equals, Items, Row, Text, Value};
use std::alloc::Global;

/// A command.
#[derive(Clone, Copy)]
pub(crate) enum Say {
    /// A stream of this name, with the column `v int`.
    Stream(&'static str),
    /// A stream of this name, with the columns `h int` and `v int`.
    WideStream(&'static str),
    /// A stream, granted to a tenant.
    Grant(&'static str, &'static str),
    /// A stream, of which these columns are granted to a tenant.
    GrantColumns(&'static str, &'static [&'static str], &'static str),
    /// A stream, whose grant is taken back from a tenant.
    Revoke(&'static str, &'static str),
    /// A stream of one column, an instant and a number.
    Put(&'static str, u64, i64),
    /// A stream of two columns, an instant and their numbers.
    PutBoth(&'static str, u64, i64, i64),
    /// A stream and an instant.
    Beat(&'static str, u64),
    /// A name and a text.
    Query(&'static str, &'static str),
    /// A query, fetched up to what is final.
    Fetch(&'static str),
    /// A query and an instant.
    Ack(&'static str, u64),
    /// A query.
    Drop(&'static str),
    /// A list of all.
    List,
}

/// What a command is told.
#[derive(Clone, Copy)]
pub(crate) enum Want {
    /// It is done.
    Done,
    /// The base of a query.
    Base(u64),
    /// Blocks, and the instant after the last that is final.
    Blocks(&'static [Told], u64),
    /// A list with so many own streams, streams granted, and queries.
    Listed(usize, usize, usize),
    /// A refusal's number.
    Refused(u64),
}

/// A tenant, its command, what that is told, and how many rows are held of the stream `s` of `a`
/// after it.
pub(crate) type Call = (&'static str, Say, Want, u64);

fn columns(alloc: Global, names: &[&str]) -> Result<Items<ColumnText>, Unmade> {
    let mut columns = Items::new(alloc);
    for name in names {
        let name = Text::new(alloc, name)?;
        let kind = Text::new(alloc, "int")?;
        columns.push(ColumnText { name, kind })?;
    }
    Ok(columns)
}

fn stream(alloc: Global, name: &str, columns: &[&str]) -> Result<Command, Unmade> {
    let columns = self::columns(alloc, columns)?;
    Ok(Command::Stream {
        name: Text::new(alloc, name)?,
        columns,
    })
}

fn grant(
    alloc: Global,
    stream: &str,
    to: &str,
    columns: Option<Items<Text>>,
) -> Result<Command, Unmade> {
    let stream = Text::new(alloc, stream)?;
    Ok(Command::Grant {
        stream,
        to: Text::new(alloc, to)?,
        columns,
    })
}

fn texts(alloc: Global, names: &[&str]) -> Result<Items<Text>, Unmade> {
    let mut texts = Items::new(alloc);
    for name in names {
        texts.push(Text::new(alloc, name)?)?;
    }
    Ok(texts)
}

fn revoke(alloc: Global, stream: &str, to: &str) -> Result<Command, Unmade> {
    let stream = Text::new(alloc, stream)?;
    Ok(Command::Revoke {
        stream,
        to: Text::new(alloc, to)?,
    })
}

fn put(alloc: Global, stream: &str, at: u64, values: Vec<Value>) -> Result<Command, Unmade> {
    let row = Row::new(alloc, values)?;
    Ok(Command::Put {
        stream: Text::new(alloc, stream)?,
        at,
        row,
    })
}

fn query(alloc: Global, name: &str, text: &str) -> Result<Command, Unmade> {
    let name = Text::new(alloc, name)?;
    Ok(Command::Query {
        name,
        text: Text::new(alloc, text)?,
    })
}

/// The command that is meant.
pub(crate) fn command(alloc: Global, say: Say) -> Result<Command, Unmade> {
    match say {
        Say::Stream(name) => stream(alloc, name, &["v"]),
        Say::WideStream(name) => stream(alloc, name, &["h", "v"]),
        Say::Grant(name, to) => grant(alloc, name, to, None),
        Say::GrantColumns(name, columns, to) => {
            let columns = texts(alloc, columns)?;
            grant(alloc, name, to, Some(columns))
        }
        Say::Revoke(name, to) => revoke(alloc, name, to),
        Say::Put(name, at, number) => {
            put(alloc, name, at, vec![in alloc; Value::Number(number)]?)
        }
        Say::PutBoth(name, at, first, second) => {
            let values = vec![in alloc; Value::Number(first), Value::Number(second)]?;
            put(alloc, name, at, values)
        }
        Say::Beat(name, at) => Ok(Command::Beat {
            stream: Text::new(alloc, name)?,
            at,
        }),
        Say::Query(name, text) => query(alloc, name, text),
        Say::Fetch(name) => Ok(Command::Fetch {
            name: Text::new(alloc, name)?,
            until: None,
        }),
        Say::Ack(name, to) => Ok(Command::Ack {
            name: Text::new(alloc, name)?,
            to,
        }),
        Say::Drop(name) => Ok(Command::Drop {
            name: Text::new(alloc, name)?,
        }),
        Say::List => Ok(Command::List),
    }
}

/// Whether a reply is what is wanted.
pub(crate) fn is_told(alloc: Global, reply: &Reply, want: Want) -> Result<bool, Unmade> {
    match (reply, want) {
        (Reply::Ok, Want::Done) => Ok(true),
        (Reply::Base(base), Want::Base(wanted)) => Ok(*base == wanted),
        (Reply::Blocks(answer), Want::Blocks(blocks, next)) => {
            Ok(answer.next() == next && are_blocks(alloc, answer.blocks(), blocks)?)
        }
        (Reply::Listing(listing), Want::Listed(streams, readable, queries)) => {
            Ok(
                listing.streams.as_slice().len() == streams
                    && listing.readable.as_slice().len() == readable
                    && listing.queries.as_slice().len() == queries,
            )
        }
        (Reply::Refused(refusal), Want::Refused(number)) => Ok(refusal.number() == number),
        _ => Ok(false),
    }
}

fn are_equal_blocks(all: &[Block], others: &[Block]) -> bool {
    for (one, other) in all.iter().zip(others) {
        if one.from != other.from || one.to != other.to || !one.output.is(&other.output) {
            return false;
        }
    }
    all.len() == others.len()
}

/// Whether two replies tell the same.
pub(crate) fn is_equal_reply(one: &Reply, other: &Reply) -> bool {
    match (one, other) {
        (Reply::Ok, Reply::Ok) => true,
        (Reply::Base(base), Reply::Base(other)) => base == other,
        (Reply::Blocks(answer), Reply::Blocks(other)) => {
            answer.next() == other.next() && are_equal_blocks(answer.blocks(), other.blocks())
        }
        (Reply::Listing(listing), Reply::Listing(other)) => listing.is_equal(other),
        (Reply::Refused(refusal), Reply::Refused(other)) => refusal.number() == other.number(),
        _ => false,
    }
}

// A query that is there before its rows, and its first fetch.
const FIRST: &[Call] = &[
    ("a", Say::Stream("s"), Want::Done, 0),
    (
        "a",
        Say::Query("q", "Select Istream(*) From s [Range 2]"),
        Want::Base(0),
        0,
    ),
    ("a", Say::Put("s", 5, 1), Want::Done, 1),
    ("a", Say::Beat("s", 8), Want::Done, 1),
    (
        "a",
        Say::Fetch("q"),
        Want::Blocks(&[(5, 5, Numbers::Rows(&[1]))], 9),
        1,
    ),
];

// Queries of two tenants on one stream, by a grant: rows are held for the one that is behind.
const SHARED: &[Call] = &[
    ("a", Say::Stream("s"), Want::Done, 0),
    ("a", Say::Grant("s", "b"), Want::Done, 0),
    (
        "a",
        Say::Query("p", "Select Istream(*) From s [Range 2]"),
        Want::Base(0),
        0,
    ),
    (
        "b",
        Say::Query("q", "Select Istream(*) From a.s [Range 2]"),
        Want::Base(0),
        0,
    ),
    ("a", Say::Put("s", 1, 1), Want::Done, 1),
    ("a", Say::Put("s", 5, 2), Want::Done, 2),
    ("a", Say::Put("s", 8, 3), Want::Done, 3),
    ("a", Say::Beat("s", 9), Want::Done, 3),
    ("a", Say::Ack("p", 9), Want::Done, 3),
    ("b", Say::Ack("q", 9), Want::Done, 1),
    ("b", Say::List, Want::Listed(0, 1, 1), 1),
    ("a", Say::Drop("p"), Want::Done, 1),
    ("b", Say::Drop("q"), Want::Done, 0),
];

// The newest row of each part is kept by the window itself.
const PARTS: &[Call] = &[
    ("a", Say::Stream("s"), Want::Done, 0),
    (
        "a",
        Say::Query("q", "Select Rstream(*) From s [Partition By v Rows 1]"),
        Want::Base(0),
        0,
    ),
    ("a", Say::Put("s", 1, 1), Want::Done, 1),
    ("a", Say::Put("s", 2, 2), Want::Done, 2),
    ("a", Say::Put("s", 3, 1), Want::Done, 3),
    ("a", Say::Beat("s", 4), Want::Done, 3),
    ("a", Say::Ack("q", 5), Want::Done, 0),
    ("a", Say::Put("s", 6, 2), Want::Done, 1),
    ("a", Say::Beat("s", 6), Want::Done, 1),
    (
        "a",
        Say::Fetch("q"),
        Want::Blocks(&[(5, 6, Numbers::Rows(&[1, 2]))], 7),
        1,
    ),
    ("a", Say::List, Want::Listed(1, 0, 1), 1),
];

// A range that slides by five ticks.
const SLIDING: &[Call] = &[
    ("a", Say::Stream("s"), Want::Done, 0),
    (
        "a",
        Say::Query("q", "Select Istream(*) From s [Range 3 Slide 5]"),
        Want::Base(0),
        0,
    ),
    ("a", Say::Put("s", 1, 1), Want::Done, 1),
    ("a", Say::Put("s", 4, 2), Want::Done, 2),
    ("a", Say::Put("s", 6, 3), Want::Done, 3),
    ("a", Say::Beat("s", 10), Want::Done, 3),
    ("a", Say::Ack("q", 10), Want::Done, 2),
    ("a", Say::Ack("q", 11), Want::Done, 0),
];

// With a quota of two rows the third lets all go.
const OVERRUN: &[Call] = &[
    ("a", Say::Stream("s"), Want::Done, 0),
    (
        "a",
        Say::Query("q", "Select Istream(*) From s"),
        Want::Base(0),
        0,
    ),
    ("a", Say::Put("s", 1, 1), Want::Done, 1),
    ("a", Say::Put("s", 2, 2), Want::Done, 2),
    ("a", Say::Put("s", 3, 3), Want::Done, 0),
    ("a", Say::Fetch("q"), Want::Refused(60), 0),
    ("a", Say::Drop("q"), Want::Done, 0),
];

// A revoked query lets its rows go, and no new grant wakes it.
const REVOKED: &[Call] = &[
    ("a", Say::Stream("s"), Want::Done, 0),
    ("a", Say::Grant("s", "b"), Want::Done, 0),
    (
        "b",
        Say::Query("q", "Select Rstream(*) From a.s"),
        Want::Base(0),
        0,
    ),
    ("a", Say::Put("s", 1, 1), Want::Done, 1),
    ("a", Say::Beat("s", 1), Want::Done, 1),
    ("a", Say::Revoke("s", "b"), Want::Done, 0),
    ("b", Say::Fetch("q"), Want::Refused(63), 0),
    ("b", Say::Ack("q", 1), Want::Refused(63), 0),
    ("b", Say::List, Want::Listed(0, 0, 1), 0),
    ("a", Say::Revoke("s", "b"), Want::Refused(35), 0),
    ("a", Say::Grant("s", "b"), Want::Done, 0),
    ("b", Say::Fetch("q"), Want::Refused(63), 0),
    ("a", Say::Put("s", 2, 2), Want::Done, 0),
    ("b", Say::List, Want::Listed(0, 1, 1), 0),
    ("b", Say::Drop("q"), Want::Done, 0),
    (
        "b",
        Say::Query("q", "Select Rstream(*) From a.s"),
        Want::Base(2),
        0,
    ),
];

// Chosen columns are granted, taken back, and others granted: a query sees those that were granted
// when it was registered.
const COLUMNS: &[Call] = &[
    ("a", Say::WideStream("s"), Want::Done, 0),
    ("a", Say::GrantColumns("s", &["v"], "b"), Want::Done, 0),
    (
        "b",
        Say::Query("q", "Select Rstream(*) From a.s [Partition By v Rows 1]"),
        Want::Base(0),
        0,
    ),
    ("a", Say::PutBoth("s", 1, 7, 1), Want::Done, 1),
    ("a", Say::PutBoth("s", 1, 8, 1), Want::Done, 2),
    ("a", Say::Beat("s", 1), Want::Done, 2),
    (
        "b",
        Say::Fetch("q"),
        Want::Blocks(&[(1, 1, Numbers::Rows(&[1]))], 2),
        2,
    ),
    ("b", Say::Ack("q", 2), Want::Done, 0),
    ("a", Say::PutBoth("s", 2, 9, 3), Want::Done, 1),
    (
        "a",
        Say::GrantColumns("s", &["h"], "b"),
        Want::Refused(32),
        1,
    ),
    ("a", Say::Revoke("s", "b"), Want::Done, 0),
    ("b", Say::Fetch("q"), Want::Refused(63), 0),
    (
        "a",
        Say::GrantColumns("s", &["v", "v"], "b"),
        Want::Refused(34),
        0,
    ),
    ("a", Say::GrantColumns("s", &["v", "h"], "b"), Want::Done, 0),
    (
        "b",
        Say::Query("r", "Select Istream(h) From a.s"),
        Want::Base(2),
        0,
    ),
    ("b", Say::List, Want::Listed(0, 1, 2), 0),
    ("a", Say::PutBoth("s", 3, 4, 5), Want::Done, 1),
    ("a", Say::Beat("s", 3), Want::Done, 1),
    (
        "b",
        Say::Fetch("r"),
        Want::Blocks(&[(3, 3, Numbers::Rows(&[4]))], 4),
        1,
    ),
];

// A query over streams of two owners, of which one takes its grant back: it lets the rows of both
// go, and the owner's other query keeps its own.
const TWO_OWNERS: &[Call] = &[
    ("a", Say::Stream("s"), Want::Done, 0),
    ("b", Say::Stream("t"), Want::Done, 0),
    ("b", Say::Grant("t", "a"), Want::Done, 0),
    (
        "a",
        Say::Query("p", "Select Istream(*) From s [Range 2]"),
        Want::Base(0),
        0,
    ),
    (
        "a",
        Say::Query("q", "Select Rstream(*) From s x, b.t y Where x.v = y.v"),
        Want::Base(0),
        0,
    ),
    ("a", Say::Put("s", 1, 1), Want::Done, 1),
    ("a", Say::Put("s", 7, 2), Want::Done, 2),
    ("a", Say::Ack("p", 7), Want::Done, 2),
    ("b", Say::Revoke("t", "a"), Want::Done, 1),
    ("a", Say::Fetch("q"), Want::Refused(63), 1),
    ("a", Say::Put("s", 8, 3), Want::Done, 2),
    ("a", Say::Drop("q"), Want::Done, 2),
    ("a", Say::Drop("p"), Want::Done, 0),
];

// Six inputs of one stream, three of them by parts: two joins and a set operation.
const SIX_INPUTS: &[Call] = &[
    ("a", Say::Stream("s"), Want::Done, 0),
    (
        "a",
        Say::Query(
            "q",
            "Rstream(Select Count(*) From s [Partition By v Rows 1] a, s [Partition By v Rows 1] b, \
             s [Now] c Union All Select Count(*) From s [Partition By v Rows 2] a, s [Rows 2] b, \
             s [Range 3] c)",
        ),
        Want::Base(0),
        0,
    ),
    ("a", Say::Put("s", 1, 1), Want::Done, 1),
    ("a", Say::Put("s", 2, 2), Want::Done, 2),
    ("a", Say::Beat("s", 3), Want::Done, 2),
    (
        "a",
        Say::Fetch("q"),
        Want::Blocks(
            &[
                (0, 0, Numbers::Rows(&[0, 0])),
                (1, 1, Numbers::Rows(&[1, 1])),
                (2, 2, Numbers::Rows(&[4, 8])),
                (3, 3, Numbers::Rows(&[0, 8])),
            ],
            4,
        ),
        2,
    ),
    ("a", Say::Ack("q", 3), Want::Done, 2),
    (
        "a",
        Say::Fetch("q"),
        Want::Blocks(&[(3, 3, Numbers::Rows(&[0, 8]))], 4),
        2,
    ),
    ("a", Say::Drop("q"), Want::Done, 0),
];

// A join, groups, DISTINCT and a set operation, in one query.
const OPERATORS: &[Call] = &[
    ("a", Say::Stream("s"), Want::Done, 0),
    (
        "a",
        Say::Query(
            "q",
            "Rstream(Select Distinct v From s [Rows 3] Except All Select Max(x.v) From \
             s [Rows 1] x, s [Rows 1] y Where x.v = y.v Group By x.v)",
        ),
        Want::Base(0),
        0,
    ),
    ("a", Say::Put("s", 1, 1), Want::Done, 1),
    ("a", Say::Put("s", 2, 1), Want::Done, 2),
    ("a", Say::Put("s", 3, 2), Want::Done, 3),
    ("a", Say::Beat("s", 3), Want::Done, 3),
    (
        "a",
        Say::Fetch("q"),
        Want::Blocks(&[(3, 3, Numbers::Rows(&[1]))], 4),
        3,
    ),
];

/// Commands in order, under a quota of rows.
#[derive(Clone, Copy)]
pub(crate) struct Script {
    pub(crate) what: &'static str,
    pub(crate) hold: u64,
    pub(crate) calls: &'static [Call],
}

const SCRIPTS: &[Script] = &[
    Script {
        what: "a first fetch",
        hold: 100,
        calls: FIRST,
    },
    Script {
        what: "two tenants",
        hold: 100,
        calls: SHARED,
    },
    Script {
        what: "parts",
        hold: 100,
        calls: PARTS,
    },
    Script {
        what: "a sliding range",
        hold: 100,
        calls: SLIDING,
    },
    Script {
        what: "an overrun",
        hold: 2,
        calls: OVERRUN,
    },
    Script {
        what: "a revoke",
        hold: 100,
        calls: REVOKED,
    },
    Script {
        what: "chosen columns",
        hold: 100,
        calls: COLUMNS,
    },
    Script {
        what: "two owners",
        hold: 100,
        calls: TWO_OWNERS,
    },
    Script {
        what: "six inputs",
        hold: 100,
        calls: SIX_INPUTS,
    },
    Script {
        what: "every operator",
        hold: 100,
        calls: OPERATORS,
    },
];

/// The scripts.
pub(crate) fn scripts() -> &'static [Script] {
    SCRIPTS
}
