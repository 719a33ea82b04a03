// Receipts that agree with the entries of a hall, and some that don't.
use crate::callers::{Meeting, Ran, Turn, meet};
use crate::made::{Unmade, other_table};
use cql_core::TenantTable;
use cql_hall::{AuditError, Receipt, audit};
use std::alloc::Global;
use std::mem::swap;
use std::sync::Wait;
use std::test::Fail;
use std::thread::Threads;
use std::time::Clock;

const STREAM: &str = r#"{"columns":[["v","int"]],"do":"stream","name":"s"}"#;

const QUERY: &str = r#"{"do":"query","name":"q","text":"Select Istream(*) From s [Rows 2]"}"#;

const PUT: &str = r#"{"at":7,"do":"put","row":[1],"stream":"s"}"#;

const LATER_PUT: &str = r#"{"at":9,"do":"put","row":[1],"stream":"s"}"#;

const FETCH: &str = r#"{"do":"fetch","name":"q"}"#;

// The places are 0, 1, 3 and 5 of the first caller, 2 and 4 of the second.
const CALLS: Meeting = Meeting {
    second: "a",
    others: 0,
    turns: &[
        Turn::First(&[STREAM, QUERY]),
        Turn::Second(&[PUT]),
        Turn::First(&[FETCH]),
        Turn::Second(&[LATER_PUT]),
        Turn::First(&[FETCH]),
    ],
};

// The place at which an audit over the table fails.
fn failing(alloc: Global, table: &TenantTable, ran: &Ran) -> Result<Option<u64>, Unmade> {
    match audit(alloc, table, &ran.ended.entries, &ran.lists) {
        Ok(()) => Ok(None),
        Err(AuditError::Mismatch { place }) => Ok(Some(place)),
        Err(AuditError::NoMemory) => Err(Unmade::NoMemory),
    }
}

pub(crate) fn failing_here(alloc: Global, ran: &Ran) -> Result<Option<u64>, Unmade> {
    failing(alloc, &ran.ended.table, ran)
}

// What is done before an audit.
#[derive(Clone, Copy)]
enum Twist {
    Nothing,
    // The replies of the first caller's fetches are exchanged.
    Answers,
    // The second and third receipt of the first caller are exchanged.
    Neighbours,
    // Its table has another limit.
    Table,
}

fn exchange(lists: &mut Vec<Vec<Receipt>>, twist: Twist) -> Result<(), Unmade> {
    let list = lists.first_mut().ok_or(Unmade::Wrong)?;
    let [_, second, third, fourth] = list.as_mut_slice() else {
        return Err(Unmade::Wrong);
    };
    match twist {
        Twist::Answers => swap(&mut third.reply, &mut fourth.reply),
        Twist::Neighbours => swap(second, third),
        Twist::Nothing | Twist::Table => {}
    }
    Ok(())
}

// The place at which an audit of the calls fails then.
fn failing_behind<R: Threads + Wait + Clock + Copy + Sync>(
    rt: R,
    alloc: Global,
    twist: Twist,
) -> Result<Option<u64>, Unmade> {
    let mut ran = meet(rt, alloc, &CALLS)?;
    exchange(&mut ran.lists, twist)?;
    match twist {
        Twist::Table => failing(alloc, &other_table(alloc)?, &ran),
        _ => failing_here(alloc, &ran),
    }
}

#[test]
fn receipts_agree(rt: HostRuntime) -> Result<(), Fail> {
    assert_eq!(rt; failing_behind(rt, rt.alloc(), Twist::Nothing)?, None);
    Ok(())
}

// The pins of the answers differ.
#[test]
fn a_reply_is_replaced(rt: HostRuntime) -> Result<(), Fail> {
    assert_eq!(rt; failing_behind(rt, rt.alloc(), Twist::Answers)?, Some(3));
    Ok(())
}

#[test]
fn neighbours_are_exchanged(rt: HostRuntime) -> Result<(), Fail> {
    assert_eq!(rt; failing_behind(rt, rt.alloc(), Twist::Neighbours)?, Some(1));
    Ok(())
}

// The first fetch is pinned with another limit.
#[test]
fn another_table(rt: HostRuntime) -> Result<(), Fail> {
    assert_eq!(rt; failing_behind(rt, rt.alloc(), Twist::Table)?, Some(3));
    Ok(())
}
