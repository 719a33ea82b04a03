// Answers over rows from before the base, in the content of the window or behind it, which no script
// of lines can ask for; how often the relation is computed, and whose pin an answer has, which no
// line tells.
use crate::outputs::Numbers::{Rows, Signed};
use crate::outputs::{Told, are_blocks};
use crate::pins::{GREATEST, PinRequest, pin};
use cql_eval::{Answer, Pin, answer};
use cql_plain::plain_bench;
use std::alloc::Global;
use std::test::Fail;

// The rows 1 at 1 and 2 at 4, which are in the content, and 3 at 6, which isn't.
const LATER: PinRequest = PinRequest {
    text: "Select Istream(*) From s [Range 3]",
    rows: &[(1, 1), (4, 2), (6, 3)],
    settled: 2,
    base: 0,
    from: 5,
    next: 12,
    limit: 100,
};

// The same rows, where 1 comes again in the place of 3.
const AGAIN: PinRequest = PinRequest {
    rows: &[(1, 1), (4, 2), (6, 1)],
    ..LATER
};

// Rows from before the base, none in the content.
const BEFORE: PinRequest = PinRequest {
    text: "Select Istream(*) From s [Range 2]",
    rows: &[(5, 1), (7, 2)],
    settled: 0,
    base: 6,
    from: 6,
    next: 12,
    limit: 100,
};

// What is asked is told these blocks.
struct Case {
    what: &'static str,
    request: PinRequest,
    blocks: &'static [Told],
}

const CASES: &[Case] = &[
    Case {
        what: "what is there at the base comes there",
        request: PinRequest { base: 5, ..LATER },
        blocks: &[(5, 5, Rows(&[2])), (6, 6, Rows(&[3]))],
    },
    Case {
        what: "nothing goes at the base",
        request: PinRequest {
            text: "Select Dstream(*) From s [Range 3]",
            base: 5,
            ..LATER
        },
        blocks: &[(8, 8, Rows(&[2])), (10, 10, Rows(&[3]))],
    },
    Case {
        what: "what is there from the base on",
        request: PinRequest {
            text: "Select Rstream(*) From s [Range 3]",
            base: 5,
            ..LATER
        },
        blocks: &[
            (5, 5, Rows(&[2])),
            (6, 7, Rows(&[2, 3])),
            (8, 9, Rows(&[3])),
        ],
    },
    Case {
        what: "what comes and goes from the base on",
        request: PinRequest {
            text: "Select * From s [Range 3]",
            base: 5,
            ..LATER
        },
        blocks: &[
            (5, 5, Signed(&[2], &[])),
            (6, 6, Signed(&[3], &[])),
            (8, 8, Signed(&[], &[2])),
            (10, 10, Signed(&[], &[3])),
        ],
    },
    Case {
        what: "a row goes and an equal one comes, from the base on",
        request: PinRequest {
            text: "Select Rstream(*) From s [Rows 2]",
            base: 5,
            ..AGAIN
        },
        blocks: &[(5, 11, Rows(&[1, 2]))],
    },
    Case {
        what: "an equal row comes, from the base on",
        request: PinRequest {
            text: "Select Rstream(*) From s",
            base: 5,
            ..AGAIN
        },
        blocks: &[(5, 5, Rows(&[1, 2])), (6, 11, Rows(&[1, 1, 2]))],
    },
    Case {
        what: "the row of a part goes and an equal one comes, from the base on",
        request: PinRequest {
            text: "Select Rstream(*) From s [Partition By v Rows 1]",
            base: 5,
            ..AGAIN
        },
        blocks: &[(5, 11, Rows(&[1, 2]))],
    },
    Case {
        what: "a row from before the base comes at the base",
        request: BEFORE,
        blocks: &[(6, 6, Rows(&[1])), (7, 7, Rows(&[2]))],
    },
    Case {
        what: "what was there at the base doesn't come later",
        request: PinRequest { from: 7, ..BEFORE },
        blocks: &[(7, 7, Rows(&[2]))],
    },
    Case {
        what: "a base later than the rows",
        request: PinRequest {
            rows: &[(5, 1)],
            base: 8,
            from: 8,
            ..BEFORE
        },
        blocks: &[],
    },
];

// At how many instants the relation is computed.
struct Computed {
    what: &'static str,
    request: PinRequest,
    least: u64,
    most: u64,
}

const TURNS: &[Computed] = &[
    Computed {
        what: "no row comes or goes",
        request: PinRequest {
            text: "Select Istream(*) From s [Now]",
            rows: &[],
            settled: 0,
            from: 0,
            next: GREATEST + 1,
            ..LATER
        },
        least: 1,
        most: 1,
    },
    Computed {
        what: "a row comes at the first instant and goes at the last",
        request: PinRequest {
            text: "Select Istream(*) From s [Range 0 Slide 4611686018427387903]",
            rows: &[(0, 1)],
            settled: 0,
            from: 0,
            next: GREATEST + 1,
            ..LATER
        },
        least: 2,
        most: 3,
    },
    Computed {
        what: "no instant is asked for",
        request: PinRequest { next: 5, ..LATER },
        least: 0,
        most: 0,
    },
    Computed {
        what: "1 goes at 5, 3 comes at 6, 2 goes at 8, and 3 at 10",
        request: LATER,
        least: 5,
        most: 5,
    },
    Computed {
        what: "each of three rows comes and goes at instants of its own",
        request: PinRequest {
            rows: &[(11, 1), (21, 2), (31, 3)],
            settled: 0,
            next: 41,
            ..LATER
        },
        least: 7,
        most: 7,
    },
    Computed {
        what: "each of three rows comes and goes once",
        request: PinRequest {
            text: "Select Rstream(*) From s [Partition By v Rows 1]",
            from: 0,
            settled: 1,
            ..AGAIN
        },
        least: 1,
        most: 7,
    },
];

// What differs from LATER in one thing.
struct Other {
    what: &'static str,
    request: PinRequest,
}

const OTHERS: &[Other] = &[
    Other {
        what: "the plan",
        request: PinRequest {
            text: "Select Dstream(*) From s [Range 3]",
            ..LATER
        },
    },
    Other {
        what: "the window",
        request: PinRequest {
            text: "Select Istream(*) From s [Range 4]",
            ..LATER
        },
    },
    Other {
        what: "the base",
        request: PinRequest { base: 1, ..LATER },
    },
    Other {
        what: "the first instant",
        request: PinRequest { from: 6, ..LATER },
    },
    Other {
        what: "the end",
        request: PinRequest { next: 11, ..LATER },
    },
    Other {
        what: "the limit",
        request: PinRequest {
            limit: 101,
            ..LATER
        },
    },
    Other {
        what: "a row of the content",
        request: PinRequest {
            rows: &[(1, 1), (4, 4), (6, 3)],
            ..LATER
        },
    },
    Other {
        what: "the time of a row of the content",
        request: PinRequest {
            rows: &[(1, 1), (3, 2), (6, 3)],
            ..LATER
        },
    },
    Other {
        what: "a row behind the content",
        request: AGAIN,
    },
    Other {
        what: "how many rows are in the content",
        request: PinRequest {
            settled: 1,
            ..LATER
        },
    },
];

fn cases() -> &'static [Case] {
    CASES
}

fn turns() -> &'static [Computed] {
    TURNS
}

fn others() -> &'static [Other] {
    OTHERS
}

fn answered(alloc: Global, request: &PinRequest) -> Result<Answer, Fail> {
    let pin = pin(alloc, request)?;
    Ok(answer(alloc, &mut plain_bench(alloc), pin)?)
}

fn is_told(alloc: Global, case: &Case) -> Result<bool, Fail> {
    let answer = answered(alloc, &case.request)?;
    Ok(answer.next() == case.request.next && are_blocks(alloc, answer.blocks(), case.blocks)?)
}

fn takes(alloc: Global, turns: &Computed) -> Result<bool, Fail> {
    let taken = answered(alloc, &turns.request)?.turns();
    Ok(turns.least <= taken && taken <= turns.most)
}

// Whether the answer to LATER has the pin of what is asked.
fn has_pin(alloc: Global, request: &PinRequest) -> Result<bool, Fail> {
    let answer = answered(alloc, &LATER)?;
    Ok(answer.has_pin(&pin(alloc, request)?))
}

#[test]
fn what_is_told(rt: HostRuntime) -> Result<(), Fail> {
    for case in cases() {
        assert!(rt; is_told(rt.alloc(), case)?, "{}", case.what);
    }
    Ok(())
}

#[test]
fn how_often_it_is_computed(rt: HostRuntime) -> Result<(), Fail> {
    for turns in turns() {
        assert!(rt; takes(rt.alloc(), turns)?, "{}", turns.what);
    }
    Ok(())
}

// A pin that is made anew is the same.
#[test]
fn whose_pin_it_is(rt: HostRuntime) -> Result<(), Fail> {
    assert!(rt; has_pin(rt.alloc(), &LATER)?);
    for other in others() {
        assert!(rt; !has_pin(rt.alloc(), &other.request)?, "{}", other.what);
    }
    Ok(())
}
