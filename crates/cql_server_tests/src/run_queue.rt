// Whose turn it is, over numbers in the place of callers.

use cql_connections::RunQueue;
use std::alloc::{AllocError, Global};
use std::test::Fail;

// A short turn waits.
fn short(run_queue: &mut RunQueue<u32>, owner: usize, item: u32) -> Result<(), AllocError> {
    run_queue.push_short(owner, item).map_err(|_| AllocError)
}

// An answer waits.
fn answer(run_queue: &mut RunQueue<u32>, owner: usize, item: u32) -> Result<(), AllocError> {
    run_queue.push_answer(owner, item).map_err(|_| AllocError)
}

// Whether these are done next, in this order, and then nothing can be.
fn gives(run_queue: &mut RunQueue<u32>, wanted: &[u32]) -> bool {
    for item in wanted {
        match run_queue.take(true) {
            Some(task) if task.item == *item => {}
            _ => return false,
        }
    }
    run_queue.take(true).is_none()
}

fn three_owners(alloc: Global, threads: usize) -> Result<RunQueue<u32>, AllocError> {
    RunQueue::new(alloc, 3, threads)
}

#[test]
fn owners_take_turns(rt: HostRuntime) -> Result<(), Fail> {
    let mut run_queue = three_owners(rt.alloc(), 4)?;
    for (owner, item) in [(0, 1), (0, 2), (0, 3), (1, 4), (2, 5), (1, 6)] {
        short(&mut run_queue, owner, item)?;
    }
    assert_eq!(rt; run_queue.waiting(), 6);
    assert!(rt; gives(&mut run_queue, &[1, 4, 5, 2, 6, 3]));
    assert_eq!(rt; run_queue.waiting(), 0);
    Ok(())
}

#[test]
fn short_ones_go_first(rt: HostRuntime) -> Result<(), Fail> {
    let mut run_queue = three_owners(rt.alloc(), 4)?;
    answer(&mut run_queue, 0, 1)?;
    short(&mut run_queue, 0, 2)?;
    short(&mut run_queue, 1, 3)?;
    assert!(rt; gives(&mut run_queue, &[2, 3, 1]));
    Ok(())
}

// After sixteen short turns in a row an answer has its turn.
#[test]
fn answers_are_not_starved(rt: HostRuntime) -> Result<(), Fail> {
    let mut run_queue = three_owners(rt.alloc(), 4)?;
    answer(&mut run_queue, 0, 100)?;
    for item in 1..19 {
        short(&mut run_queue, 1, item)?;
    }
    let wanted = [
        1, 2, 3, 4, 5, 6, 7, 8, 9, 10, 11, 12, 13, 14, 15, 16, 100, 17, 18,
    ];
    assert!(rt; gives(&mut run_queue, &wanted));
    Ok(())
}

// Of three threads two compute answers of one owner, and no more are computed.
#[test]
fn workers_compute_answers(rt: HostRuntime) -> Result<(), Fail> {
    let mut run_queue = three_owners(rt.alloc(), 3)?;
    for item in [1, 2, 3] {
        answer(&mut run_queue, 0, item)?;
    }
    assert!(rt; gives(&mut run_queue, &[1, 2]));
    assert_eq!(rt;
        run_queue.waiting(),
        0,
        "what can't be done now doesn't count"
    );
    run_queue.end_answer(0, 0);
    assert_eq!(rt; run_queue.waiting(), 1);
    assert!(rt; gives(&mut run_queue, &[3]));
    Ok(())
}

// A thread that computes no answers takes short turns alone.
#[test]
fn short_turns_alone(rt: HostRuntime) -> Result<(), Fail> {
    let mut run_queue = three_owners(rt.alloc(), 4)?;
    answer(&mut run_queue, 0, 1)?;
    short(&mut run_queue, 0, 2)?;
    assert!(rt;
        run_queue
            .take(false)
            .is_some_and(|task| task.item == 2 && !task.is_answer)
    );
    assert!(rt; run_queue.take(false).is_none());
    assert!(rt;
        run_queue
            .take(true)
            .is_some_and(|task| task.item == 1 && task.is_answer)
    );
    Ok(())
}

#[test]
fn one_thread_does_both(rt: HostRuntime) -> Result<(), Fail> {
    let mut run_queue = three_owners(rt.alloc(), 1)?;
    answer(&mut run_queue, 0, 1)?;
    answer(&mut run_queue, 0, 2)?;
    short(&mut run_queue, 0, 3)?;
    assert!(rt; gives(&mut run_queue, &[3, 1]));
    run_queue.end_answer(0, 0);
    assert!(rt; gives(&mut run_queue, &[2]));
    Ok(())
}

// The last thread begins an answer of an owner of whom none is computed, and whose answers took little.
#[test]
fn one_thread_is_left(rt: HostRuntime) -> Result<(), Fail> {
    let mut run_queue = three_owners(rt.alloc(), 3)?;
    for item in [1, 2, 3] {
        answer(&mut run_queue, 0, item)?;
    }
    assert!(rt; gives(&mut run_queue, &[1, 2]));
    answer(&mut run_queue, 1, 4)?;
    answer(&mut run_queue, 1, 5)?;
    assert!(rt; gives(&mut run_queue, &[4]), "the last one is his");
    run_queue.end_answer(1, 49_999_999);
    assert!(rt; gives(&mut run_queue, &[5]));
    run_queue.end_answer(1, 1);
    answer(&mut run_queue, 1, 6)?;
    assert!(rt; gives(&mut run_queue, &[]), "his took 50 milliseconds");
    run_queue.end_answer(0, 1_000_000_000);
    assert!(rt; gives(&mut run_queue, &[6]), "what all share");
    Ok(())
}

// One owner has all four threads that are shared while nobody else waits; once another one waits it gets none
// before it holds less than two.
#[test]
fn half_is_left_to_others(rt: HostRuntime) -> Result<(), Fail> {
    let mut run_queue = three_owners(rt.alloc(), 5)?;
    run_queue.end_answer(1, 60_000_000);
    for item in [1, 2, 3, 4, 5, 6] {
        answer(&mut run_queue, 0, item)?;
    }
    assert!(rt; gives(&mut run_queue, &[1, 2, 3, 4]));
    for item in [7, 8, 9] {
        answer(&mut run_queue, 1, item)?;
    }
    run_queue.end_answer(0, 0);
    run_queue.end_answer(0, 0);
    assert!(rt; gives(&mut run_queue, &[7, 8]));
    run_queue.end_answer(0, 0);
    assert!(rt;
        gives(&mut run_queue, &[5]),
        "each holds two of four by then"
    );
    Ok(())
}

// An answer that needn't wait begins at once, and else it has to.
#[test]
fn answers_begin_at_once(rt: HostRuntime) -> Result<(), Fail> {
    let mut run_queue = three_owners(rt.alloc(), 3)?;
    assert!(rt; run_queue.begin_answer(0));
    assert!(rt; run_queue.begin_answer(0));
    assert!(rt; !run_queue.begin_answer(0), "two are computed");
    assert!(rt; run_queue.begin_answer(1), "it is his only one");
    assert!(rt; !run_queue.begin_answer(1), "three are computed");
    answer(&mut run_queue, 1, 1)?;
    run_queue.end_answer(0, 0);
    run_queue.end_answer(0, 0);
    assert!(rt; !run_queue.begin_answer(0), "another one waits");
    assert!(rt; gives(&mut run_queue, &[1]));
    Ok(())
}

// However many of one owner wait, each has its turn.
#[test]
fn as_many_wait_as_come(rt: HostRuntime) -> Result<(), Fail> {
    let mut run_queue = three_owners(rt.alloc(), 4)?;
    for item in 0..2_000 {
        short(&mut run_queue, 1, item)?;
        answer(&mut run_queue, 2, item)?;
    }
    assert_eq!(rt; run_queue.waiting(), 4_000);
    for item in 0..2_000 {
        let next = run_queue.take(false).map(|task| task.item);
        assert_eq!(rt; next, Some(item));
    }
    for item in 0..2_000 {
        let next = run_queue.take(true).map(|task| task.item);
        run_queue.end_answer(2, 0);
        assert_eq!(rt; next, Some(item));
    }
    assert_eq!(rt; run_queue.waiting(), 0);
    Ok(())
}
