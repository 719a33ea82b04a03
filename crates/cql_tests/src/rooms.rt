// What an answer may weigh: the list that it tells at its first instant counts too.
use crate::scripts::{Say, command};
use crate::tenants::{Unmade, table};
use cql_core::{Reply, run};
use cql_plain::plain_bench;
use std::alloc::Global;
use std::test::Fail;

// Three rows are there before the instants that are fetched, at which nothing changes.
const BEFORE: [Say; 6] = [
    Say::Put("s", 1, 1),
    Say::Put("s", 1, 2),
    Say::Put("s", 2, 3),
    Say::Beat("s", 4),
    Say::Ack("q", 3),
    Say::Fetch("q"),
];

// What the list takes: 8 bytes for each row.
const LIST: u64 = 24;

// An answer takes less.
const MOST: u64 = 5_000;

// Whether a query is answered in so much room.
fn is_answered(alloc: Global, text: &'static str, room: u64) -> Result<bool, Unmade> {
    let table = table(alloc, &["a"])?;
    let by = table.find("a").ok_or(Unmade::Wrong)?;
    let mut commands = Vec::new(alloc);
    for say in [Say::Stream("s"), Say::Query("q", text)] {
        commands.push((by, command(alloc, say)?))?;
    }
    for say in BEFORE {
        commands.push((by, command(alloc, say)?))?;
    }
    let mut bench = plain_bench(alloc);
    bench.bound(room);
    let replies = run(alloc, &table, commands, &mut bench)?;
    Ok(matches!(replies.last(), Some(Reply::Blocks(_))))
}

// The least room in which it is answered.
fn least_room(alloc: Global, text: &'static str) -> Result<u64, Unmade> {
    for room in 0..MOST {
        if is_answered(alloc, text, room)? {
            return Ok(room);
        }
    }
    Err(Unmade::Wrong)
}

#[test]
fn a_list_at_the_first_instant_weighs(rt: HostRuntime) -> Result<(), Fail> {
    let came = least_room(rt.alloc(), "Select Istream(v) From s Where v > 0")?;
    let listed = least_room(rt.alloc(), "Select Rstream(v) From s Where v > 0")?;
    assert!(rt; listed.saturating_sub(came) == LIST, "{came} and {listed}");
    Ok(())
}
