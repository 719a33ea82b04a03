// Fetches that are held while queries are dropped and made anew, and audits of one tenant alone.
use crate::audits::failing_here;
use crate::callers::{Meeting, Ran, Turn, meet, replies};
use crate::made::Unmade;
use cql_core::{Reply, TenantId};
use cql_hall::{AuditError, Receipt, audit_alone};
use std::alloc::Global;
use std::sync::Wait;
use std::test::Fail;
use std::thread::Threads;
use std::time::Clock;

// The place at which an audit of one tenant alone fails.
fn failing_alone(alloc: Global, ran: &Ran, tenant: TenantId) -> Result<Option<u64>, Unmade> {
    match audit_alone(
        alloc,
        &ran.ended.table,
        &ran.ended.entries,
        tenant,
        &ran.lists,
    ) {
        Ok(()) => Ok(None),
        Err(AuditError::Mismatch { place }) => Ok(Some(place)),
        Err(AuditError::NoMemory) => Err(Unmade::NoMemory),
    }
}

const MADE: &[&str] = &[
    r#"{"columns":[["v","int"]],"do":"stream","name":"s"}"#,
    r#"{"do":"query","name":"q","text":"Select Rstream(*) From s"}"#,
    r#"{"at":1,"do":"put","row":[1],"stream":"s"}"#,
    r#"{"at":1,"do":"beat","stream":"s"}"#,
];

const MADE_ANEW: &[&str] = &[
    r#"{"do":"drop","name":"q"}"#,
    r#"{"do":"query","name":"q","text":"Select Rstream(*) From s"}"#,
    r#"{"at":2,"do":"put","row":[2],"stream":"s"}"#,
];

const OF_THE_HELD: &[u8] = b"{\"ok\":true}\n{\"base\":0}\n{\"ok\":true}\n{\"ok\":true}\n\
{\"blocks\":[{\"from\":1,\"rows\":[[1]],\"to\":1}],\"next\":2}\n";

const OF_THE_OTHER: &[u8] = b"{\"ok\":true}\n{\"base\":2}\n{\"ok\":true}\n";

// Where an audit of all fails, and where one of the first and of the second tenant does.
type Failing = (Option<u64>, Option<u64>, Option<u64>);

const NOWHERE: Failing = (None, None, None);

fn failing(alloc: Global, ran: &Ran) -> Result<Failing, Unmade> {
    let all = failing_here(alloc, ran)?;
    let first = failing_alone(alloc, ran, ran.tenants.0)?;
    Ok((all, first, failing_alone(alloc, ran, ran.tenants.1)?))
}

// The second caller's last reply is another.
fn replace_last(ran: &mut Ran) -> Result<(), Unmade> {
    let list = ran.lists.last_mut().ok_or(Unmade::Wrong)?;
    let last = list.last_mut().ok_or(Unmade::Wrong)?;
    last.reply = Reply::Base(0);
    Ok(())
}

// The places of the last call of the first caller and of the first of the second.
fn last_and_first(lists: &[Vec<Receipt>]) -> Option<(u64, u64)> {
    let last = lists.first()?.last()?.place?;
    let first = lists.last()?.first()?.place?;
    Some((last, first))
}

// What becomes of a meeting: what each caller was told, and what audits find.
#[derive(Drop)]
struct Outcome {
    // What the first caller was told, and what the second.
    first: Vec<u8>,
    second: Vec<u8>,
    last_and_first: Option<(u64, u64)>,
    // Where audits fail, and where they do once the second caller's last reply is replaced.
    failing: Failing,
    replaced: Failing,
}

fn outcome_of<R: Threads + Wait + Clock + Copy + Sync>(
    rt: R,
    alloc: Global,
    meeting: &Meeting,
) -> Result<Outcome, Unmade> {
    let mut ran = meet(rt, alloc, meeting)?;
    let last_and_first = last_and_first(&ran.lists);
    let failing = self::failing(alloc, &ran)?;
    let first = replies(alloc, ran.lists.first().ok_or(Unmade::Wrong)?)?;
    let second = replies(alloc, ran.lists.last().ok_or(Unmade::Wrong)?)?;
    replace_last(&mut ran)?;
    Ok(Outcome {
        first,
        second,
        last_and_first,
        failing,
        replaced: self::failing(alloc, &ran)?,
    })
}

// Two callers of a tenant, of which one makes the query of the other's held fetch anew.
const MAKE_ANEW: Meeting = Meeting {
    second: "a",
    others: 3,
    turns: &[Turn::First(MADE), Turn::FirstFetches(MADE_ANEW)],
};

// A fetch tells what was there when it was pinned, though its query is dropped and made anew
// before it is answered; and its place is before the drop's.
#[test]
fn a_query_is_made_anew_beside_its_fetch(rt: HostRuntime) -> Result<(), Fail> {
    let outcome = outcome_of(rt, rt.alloc(), &MAKE_ANEW)?;
    assert!(rt;
        outcome.first.as_slice() == OF_THE_HELD && outcome.second.as_slice() == OF_THE_OTHER
    );
    assert!(rt; outcome.last_and_first == Some((4, 5)) && outcome.failing == NOWHERE);
    Ok(())
}

const OWNERS: &[&str] = &[
    r#"{"columns":[["v","int"]],"do":"stream","name":"s"}"#,
    r#"{"do":"grant","stream":"s","to":"b"}"#,
    r#"{"do":"query","name":"p","text":"Select Rstream(*) From s"}"#,
];

const READERS: &[&str] = &[
    r#"{"do":"query","name":"q","text":"Select Rstream(*) From a.s [Rows 1]"}"#,
];

const PUT: &[&str] = &[r#"{"at":1,"do":"put","row":[4],"stream":"s"}"#];

// What the owner does while the reader's fetch is held.
const BESIDE: &[&str] = &[
    r#"{"do":"fetch","name":"p"}"#,
    r#"{"at":2,"do":"put","row":[5],"stream":"s"}"#,
    r#"{"do":"ack","name":"p","to":1}"#,
    r#"{"do":"drop","name":"p"}"#,
];

const FETCH: &[&str] = &[r#"{"do":"fetch","name":"q"}"#];

const BEAT: &[&str] = &[r#"{"at":2,"do":"beat","stream":"s"}"#];

const OF_THE_READER: &[u8] = b"{\"base\":0}\n{\"blocks\":[],\"next\":1}\n\
{\"blocks\":[{\"from\":1,\"rows\":[[4]],\"to\":1},{\"from\":2,\"rows\":[[5]],\"to\":2}],\"next\":3}\n";

// An owner and a reader, whose last fetch has place 11.
const CALL_ALL: Meeting = Meeting {
    second: "b",
    others: 4,
    turns: &[
        Turn::First(OWNERS),
        Turn::Second(READERS),
        Turn::First(PUT),
        Turn::SecondFetches(BESIDE),
        Turn::First(BEAT),
        Turn::Second(FETCH),
    ],
};

// What each of two tenants was told agrees by itself; and a reply that wasn't told is found in all
// that was told and in what its tenant was, but not in what the other was.
#[test]
fn two_tenants_each_alone(rt: HostRuntime) -> Result<(), Fail> {
    let outcome = outcome_of(rt, rt.alloc(), &CALL_ALL)?;
    assert!(rt; outcome.second.as_slice() == OF_THE_READER && outcome.failing == NOWHERE);
    assert!(rt; outcome.replaced == (Some(11), None, Some(11)));
    Ok(())
}

const SHARED: &[&str] = &[
    r#"{"columns":[["v","int"]],"do":"stream","name":"s"}"#,
    r#"{"do":"grant","stream":"s","to":"b"}"#,
];

const ALL: &[&str] = &[r#"{"do":"query","name":"q","text":"Select Rstream(*) From a.s"}"#];

const ONE_ROW: &[&str] = &[
    r#"{"at":1,"do":"put","row":[1],"stream":"s"}"#,
    r#"{"at":1,"do":"beat","stream":"s"}"#,
];

const REVOKE: &[&str] = &[r#"{"do":"revoke","stream":"s","to":"b"}"#];

const OF_THE_REVOKED: &[u8] = b"{\"base\":0}\n\
{\"blocks\":[{\"from\":1,\"rows\":[[1]],\"to\":1}],\"next\":2}\n\
{\"name\":\"Revoked\",\"refused\":63}\n";

// The reader's first fetch is held until the grant is taken back.
const REVOKE_BESIDE: Meeting = Meeting {
    second: "b",
    others: 1,
    turns: &[
        Turn::First(SHARED),
        Turn::Second(ALL),
        Turn::First(ONE_ROW),
        Turn::SecondFetches(REVOKE),
        Turn::Second(FETCH),
    ],
};

// A fetch that was pinned before a revoke keeps its answer, and the next one is refused.
#[test]
fn a_grant_is_taken_back_beside_a_fetch(rt: HostRuntime) -> Result<(), Fail> {
    let outcome = outcome_of(rt, rt.alloc(), &REVOKE_BESIDE)?;
    assert!(rt; outcome.second.as_slice() == OF_THE_REVOKED && outcome.failing == NOWHERE);
    Ok(())
}
