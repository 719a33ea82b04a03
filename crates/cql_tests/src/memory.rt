// Commands, also where memory may run out: `rt try --test --fail-alloc` passes here with every number;
// and how many rows a stream holds as its queries go on, and are dropped.
use crate::scripts::{Call, Say, Script, Want, command, is_equal_reply, is_told, scripts};
use crate::tenants::{Unmade, table_with};
use cql_core::{Command, Core, Evaluator, Refusal, Reply, TenantId, TenantTable, run, serve};
use cql_groups::GroupShape;
use cql_joins::KeyedJoin;
use cql_ops::mixed_bench;
use cql_plain::plain_bench;
use std::alloc::Global;
use std::test::Fail;

// By which operators joins and groups are computed.
#[derive(Clone, Copy)]
enum Makes {
    Plain,
    Keyed,
}

fn table_of(alloc: Global, script: &Script) -> Result<TenantTable, Unmade> {
    table_with(alloc, &["a", "b"], script.hold)
}

// The same, made once more where there was no memory.
fn table_at_last(alloc: Global, script: &Script) -> Result<TenantTable, Unmade> {
    match table_of(alloc, script) {
        Ok(table) => Ok(table),
        Err(_why) => table_of(alloc, script),
    }
}

fn core_of(alloc: Global, script: &Script) -> Result<Core, Unmade> {
    let table = table_of(alloc, script)?;
    Ok(Core::new(alloc, &table)?)
}

// What is shown of a core: the lists of both tenants, and how many rows are held of `s` of `a` and
// of `t` of `b`.
#[derive(Drop)]
struct Shown {
    first: Reply,
    second: Reply,
    held: (Option<u64>, Option<u64>),
}

impl Shown {
    fn is_equal(&self, other: &Shown) -> bool {
        self.held == other.held
            && is_equal_reply(&self.first, &other.first)
            && is_equal_reply(&self.second, &other.second)
    }
}

fn list_of<E: Evaluator>(
    alloc: Global,
    core: &mut Core,
    bench: &mut E,
    by: TenantId,
) -> Result<Reply, Unmade> {
    let list = serve(alloc, core, bench, by, Command::List);
    if matches!(&list, Reply::Listing(_)) {
        Ok(list)
    } else {
        Err(Unmade::Wrong)
    }
}

fn shown_of<E: Evaluator>(
    alloc: Global,
    core: &mut Core,
    bench: &mut E,
    table: &TenantTable,
) -> Result<Shown, Unmade> {
    let a = table.find("a").ok_or(Unmade::Wrong)?;
    let b = table.find("b").ok_or(Unmade::Wrong)?;
    let held = (core.rows_held(a, "s"), core.rows_held(b, "t"));
    let first = list_of(alloc, core, bench, a)?;
    let second = list_of(alloc, core, bench, b)?;
    Ok(Shown {
        first,
        second,
        held,
    })
}

fn command_at_last(alloc: Global, say: Say) -> Result<Command, Unmade> {
    match command(alloc, say) {
        Ok(command) => Ok(command),
        Err(_why) => command(alloc, say),
    }
}

// Whether a reply is what is wanted, looked at once more where there was no memory to do so.
fn is_told_at_last(alloc: Global, reply: &Reply, want: Want) -> Result<bool, Unmade> {
    match is_told(alloc, reply, want) {
        Ok(is) => Ok(is),
        Err(_why) => is_told(alloc, reply, want),
    }
}

// Whether a command is told what it is to be told. One that was told of no memory must have changed
// nothing, and is sent once more.
fn is_served<E: Evaluator>(
    alloc: Global,
    core: &mut Core,
    bench: &mut E,
    table: &TenantTable,
    call: &Call,
) -> Result<bool, Unmade> {
    let (by, say, told, _) = *call;
    let by = table.find(by).ok_or(Unmade::Wrong)?;
    let before = match shown_of(alloc, core, bench, table) {
        Ok(shown) => shown,
        Err(_why) => shown_of(alloc, core, bench, table)?,
    };
    let reply = serve(alloc, core, bench, by, command_at_last(alloc, say)?);
    let Reply::Refused(Refusal::NoMemory) = &reply else {
        return is_told_at_last(alloc, &reply, told);
    };
    let after = shown_of(alloc, core, bench, table)?;
    let again = serve(alloc, core, bench, by, command(alloc, say)?);
    Ok(before.is_equal(&after) && is_told(alloc, &again, told)?)
}

// Whether each command is served so, and as many rows are held of `s` of `a` behind it as are to be.
// A stream that isn't there holds none.
fn are_all_served<E: Evaluator>(
    alloc: Global,
    bench: &mut E,
    script: &Script,
) -> Result<bool, Unmade> {
    let table = table_at_last(alloc, script)?;
    let owner = table.find("a").ok_or(Unmade::Wrong)?;
    let mut core = match core_of(alloc, script) {
        Ok(core) => core,
        Err(_why) => core_of(alloc, script)?,
    };
    let mut are_right = core.rows_held(owner, "s").is_none();
    for call in script.calls {
        let is_served = is_served(alloc, &mut core, bench, &table, call)?;
        are_right = are_right && is_served && core.rows_held(owner, "s") == Some(call.3);
    }
    Ok(are_right)
}

// The commands of a script but the one at an index.
fn commands(
    alloc: Global,
    table: &TenantTable,
    script: &Script,
    without: Option<usize>,
) -> Result<Vec<(TenantId, Command)>, Unmade> {
    let mut commands = Vec::new(alloc);
    for (index, (by, say, _, _)) in script.calls.iter().enumerate() {
        if Some(index) != without {
            let by = table.find(by).ok_or(Unmade::Wrong)?;
            commands.push((by, command(alloc, *say)?))?;
        }
    }
    Ok(commands)
}

fn replies_to<E: Evaluator>(
    alloc: Global,
    bench: &mut E,
    script: &Script,
    without: Option<usize>,
) -> Result<Vec<Reply>, Unmade> {
    let table = table_of(alloc, script)?;
    let commands = commands(alloc, &table, script, without)?;
    Ok(run(alloc, &table, commands, bench)?)
}

fn has_no_memory(reply: &Reply) -> bool {
    matches!(reply, Reply::Refused(Refusal::NoMemory))
}

// Whether the others are these replies without the one at an index.
fn are_those_without(replies: &[Reply], without: usize, others: &[Reply]) -> bool {
    let mut left = others;
    for (index, reply) in replies.iter().enumerate() {
        if index != without {
            let Some((other, more)) = left.split_first() else {
                return false;
            };
            if !is_equal_reply(reply, other) {
                return false;
            }
            left = more;
        }
    }
    left.is_empty()
}

fn are_all_told(alloc: Global, script: &Script, replies: &[Reply]) -> Result<bool, Unmade> {
    for (reply, (_, _, told, _)) in replies.iter().zip(script.calls) {
        if !is_told_at_last(alloc, reply, *told)? {
            return Ok(false);
        }
    }
    Ok(replies.len() == script.calls.len())
}

// Whether each command of a run is told what it is to be told, or one that there was no memory, and
// the others what they are told in a run without it. The run is made once more where it had no memory
// itself.
fn is_run<E: Evaluator>(alloc: Global, bench: &mut E, script: &Script) -> Result<bool, Unmade> {
    let replies = match replies_to(alloc, bench, script, None) {
        Ok(replies) => replies,
        Err(_why) => replies_to(alloc, bench, script, None)?,
    };
    let Some(without) = replies.iter().position(has_no_memory) else {
        return are_all_told(alloc, script, &replies);
    };
    let others = replies_to(alloc, bench, script, Some(without))?;
    Ok(are_those_without(&replies, without, &others))
}

// How the commands of a script are sent.
#[derive(Clone, Copy)]
enum Sent {
    OneByOne,
    AsAList,
}

fn is_right<E: Evaluator>(
    alloc: Global,
    bench: &mut E,
    sent: Sent,
    script: &Script,
) -> Result<bool, Unmade> {
    match sent {
        Sent::OneByOne => are_all_served(alloc, bench, script),
        Sent::AsAList => is_run(alloc, bench, script),
    }
}

// Whether the script is right with a bench of its own.
fn is_right_by(alloc: Global, makes: Makes, sent: Sent, script: &Script) -> Result<bool, Unmade> {
    match makes {
        Makes::Plain => is_right(alloc, &mut plain_bench(alloc), sent, script),
        Makes::Keyed => {
            let joins = (KeyedJoin::new(alloc), KeyedJoin::new(alloc));
            let shapes = (GroupShape::new(alloc), GroupShape::new(alloc));
            is_right(alloc, &mut mixed_bench(alloc, joins, shapes), sent, script)
        }
    }
}

// The first script that isn't right, if there is one.
fn first_wrong(alloc: Global, makes: Makes, sent: Sent) -> Result<Option<&'static str>, Unmade> {
    for script in scripts() {
        if !is_right_by(alloc, makes, sent, script)? {
            return Ok(Some(script.what));
        }
    }
    Ok(None)
}

// Where one allocation fails, at most one command is told so. It has changed nothing, also one
// that registers or acknowledges a query over parts: sent once more, it and all later ones are
// told what they are told with ample memory. And rows are held while a query needs them.
#[test]
fn a_command_without_memory_changes_nothing(rt: HostRuntime) -> Result<(), Fail> {
    assert_eq!(rt;
        first_wrong(rt.alloc(), Makes::Plain, Sent::OneByOne)?,
        None
    );
    Ok(())
}

// The same with keyed joins and kept groups.
#[test]
fn a_keyed_command_without_memory_changes_nothing(rt: HostRuntime) -> Result<(), Fail> {
    assert_eq!(rt;
        first_wrong(rt.alloc(), Makes::Keyed, Sent::OneByOne)?,
        None
    );
    Ok(())
}

// With ample memory each command is told what it is to be told. Where one allocation fails, at most
// one is told of no memory, and the others what they are told in a run without it.
#[test]
fn a_list_of_commands(rt: HostRuntime) -> Result<(), Fail> {
    assert_eq!(rt; first_wrong(rt.alloc(), Makes::Plain, Sent::AsAList)?, None);
    Ok(())
}

// The same with keyed joins and kept groups.
#[test]
fn a_keyed_list_of_commands(rt: HostRuntime) -> Result<(), Fail> {
    assert_eq!(rt; first_wrong(rt.alloc(), Makes::Keyed, Sent::AsAList)?, None);
    Ok(())
}
