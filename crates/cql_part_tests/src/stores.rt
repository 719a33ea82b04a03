// Stores on which every call is right, where memory may run out, and as they go on.
ghost use Rattle.std.specs.Prelude.{◌≡◌, IfOk, length};
ghost use Rattle.cql_store.specs.Next.{FitsWindow};

use crate::made::{holds, number_row};
use cql_chunks::Chunks;
use cql_store::{Store, StubId};
use cql_value::{Items, Timed, slices_equal};
use cql_window::{Count, Length, Window, WindowPin};
use std::alloc::{AllocError, AllocFailed, Global};
use std::marker::Model;
use std::test::Fail;

const GREATEST: u64 = 4611686018427387903;

// Why a call wasn't made.
#[derive(Debug, Drop)]
enum Refused {
    NoMemory,
    Wrong,
}

impl From<AllocError> for Refused {
    fn from(_error: AllocError) -> Refused {
        Refused::NoMemory
    }
}

impl<T: Drop> From<AllocFailed<T>> for Refused {
    fn from(_failed: AllocFailed<T>) -> Refused {
        Refused::NoMemory
    }
}

// What is made, tried twice, for one request for memory may be refused.
macro_rules! at_last {
    ($make:expr) => {
        match $make {
            Ok(made) => made,
            Err(_why) => $make?,
        }
    };
}

// A store to which rows of one number come, none before `opened`.
#[derive(Drop)]
struct Tried {
    store: Store,
    opened: u64,
}

impl Model for Tried {
    ghost use Rattle.std.specs.Prelude.{◌≡◌, length};
    ghost use Rattle.cql_store.specs.Held.{Stubs};
    ghost use Rattle.cql_store.specs.Next.{TakesFrom};

    ghost Value = { Stubs };

    ghost view = { λ t. t.store };

    ghost invariant = { λ t. TakesFrom (λ row. length row ≡ 1) t.opened t.store };
}

impl Tried {
    fn new(alloc: Global) -> Tried {
        Tried {
            store: Store::new(alloc),
            opened: 0,
        }
    }

    fn attach(&mut self, window: Window, hold: u64) -> Result<StubId, Refused>
        requires { FitsWindow (λ row. length row ≡ 1) window }
    {
        let base = self.opened;
        Ok(self.store.attach(window, base, hold)?)
    }

    fn put(&mut self, row: Timed) -> Result<(), Refused>
        requires { length row.row ≡ 1 }
    {
        let at = row.at();
        if at < self.opened || GREATEST < at {
            return Err(Refused::Wrong);
        }
        self.store.append(row)?;
        self.opened = at;
        Ok(())
    }

    fn go(&mut self, id: StubId, to: u64) -> Result<(), Refused> {
        if !self.store.may_advance(id, to) {
            return Err(Refused::Wrong);
        }
        let ready = self.store.ready(id, to)?;
        self.store.advance(ready);
        self.opened = self.opened.max(to);
        Ok(())
    }
}

// A window over rows of one number.
#[derive(Clone, Copy)]
enum Span {
    // A length and a slide, in ticks.
    Range(u64, u64),
    // So many rows, and a slide.
    Rows(u64, u64),
    All,
    // So many rows of each part, by the number.
    Parts(u64),
}

// The window that is meant.
fn window(alloc: Global, span: Span) -> Result<Window, Refused>
    ensures { IfOk result (λ w. FitsWindow (λ row. length row ≡ 1) w) }
{
    match span {
        Span::Range(length, slide) => match (Length::new(length), Count::new(slide)) {
            (Some(length), Some(slide)) => Ok(Window::Range { length, slide }),
            _ => Err(Refused::Wrong),
        },
        Span::Rows(count, slide) => match (Count::new(count), Count::new(slide)) {
            (Some(count), Some(slide)) => Ok(Window::Rows { count, slide }),
            _ => Err(Refused::Wrong),
        },
        Span::All => Ok(Window::All),
        Span::Parts(count) => match Count::new(count) {
            Some(count) => {
                let columns = Items::from_slice(alloc, &[0])?;
                Ok(Window::Parts { columns, count })
            }
            None => Err(Refused::Wrong),
        },
    }
}

// So many stubs of each of these windows.
fn attach_all(
    alloc: Global,
    tried: &mut Tried,
    spans: &[Span],
    times: u64,
    hold: u64,
) -> Result<Vec<StubId>, Refused> {
    let mut ids = Vec::new(alloc);
    for span in spans {
        for _ in 0..times {
            ids.push(tried.attach(window(alloc, *span)?, hold)?)?;
        }
    }
    Ok(ids)
}

fn put(alloc: Global, tried: &mut Tried, at: u64, number: i64) -> Result<(), Refused> {
    let row = number_row(alloc, number)?;
    tried.put(Timed::new(at, row))
}

fn pins_of(alloc: Global, tried: &Tried, ids: &[StubId]) -> Result<Vec<WindowPin>, Refused> {
    let mut pins = Vec::new(alloc);
    for id in ids {
        if !tried.store.may_advance(*id, GREATEST) {
            return Err(Refused::Wrong);
        }
        pins.push(tried.store.pin(*id, GREATEST)?)?;
    }
    Ok(pins)
}

fn go_all(tried: &mut Tried, ids: &[StubId], to: u64) -> Result<(), Refused> {
    for id in ids {
        tried.go(*id, to)?;
    }
    Ok(())
}

// A call that takes memory.
#[derive(Drop)]
enum Call {
    Put(u64),
    Go(StubId, u64),
}

fn make(alloc: Global, tried: &mut Tried, call: &Call) -> Result<(), Refused> {
    match call {
        Call::Put(at) => put(alloc, tried, *at, 7),
        Call::Go(id, to) => tried.go(*id, *to),
    }
}

// Makes a call, and where it is refused, tells whether all stubs are as before. It is then made
// once more.
fn make_or_same(
    alloc: Global,
    tried: &mut Tried,
    ids: &[StubId],
    call: &Call,
) -> Result<bool, Refused> {
    let before = at_last!(pins_of(alloc, tried, ids));
    let Err(_why) = make(alloc, tried, call) else {
        return Ok(true);
    };
    let after = pins_of(alloc, tried, ids)?;
    make(alloc, tried, call)?;
    Ok(slices_equal(&before, &after))
}

// Rows of the instants from 1 to this one, and behind each of them each stub goes to the instant after
// it.
fn rounds_or_same(
    alloc: Global,
    tried: &mut Tried,
    ids: &[StubId],
    last: u64,
) -> Result<bool, Refused> {
    let mut same = true;
    for at in 0..last {
        same = make_or_same(alloc, tried, ids, &Call::Put(at + 1))? && same;
        for id in ids {
            let call = Call::Go(*id, at.saturating_add(2));
            same = make_or_same(alloc, tried, ids, &call)? && same;
        }
    }
    Ok(same)
}

// Whether all stubs are as before, whatever is refused, and then as many rows are held as came.
fn calls_or_same(alloc: Global, tried: &mut Tried, ids: &[StubId]) -> Result<bool, Refused> {
    let same = rounds_or_same(alloc, tried, ids, 6)?;
    Ok(same && tried.store.rows_held() == 6)
}

const PARTS: i64 = 24;

// A row of each part, of the first instant, and the stubs go behind them. What is refused is done once
// more.
fn fill(alloc: Global, tried: &mut Tried, ids: &[StubId]) -> Result<(), Refused> {
    for number in 0..PARTS {
        at_last!(put(alloc, tried, 0, number));
    }
    at_last!(go_all(tried, ids, 1));
    Ok(())
}

// Whether the last row is of that instant, and all others, which are as many as the other parts,
// are of the first.
fn is_newest(content: &Chunks, at: u64) -> bool {
    let mut left = content.len();
    for row in content.iter() {
        left = left.saturating_sub(1);
        if row.at() != if left == 0 { at } else { 0 } {
            return false;
        }
    }
    content.len() == 24
}

// Whether the first stub has such rows.
fn has_newest(alloc: Global, tried: &Tried, ids: &[StubId], at: u64) -> Result<bool, Refused> {
    let pins = at_last!(pins_of(alloc, tried, ids));
    match pins.first() {
        Some(pin) => Ok(is_newest(pin.content(), at)),
        None => Ok(false),
    }
}

// Whether all stubs are as before, whatever is refused, as one part of many has rows more.
fn acks_or_same(alloc: Global, tried: &mut Tried, ids: &[StubId]) -> Result<bool, Refused> {
    fill(alloc, tried, ids)?;
    let same = rounds_or_same(alloc, tried, ids, 4)?;
    Ok(has_newest(alloc, tried, ids, 4)? && same)
}

// Whether one row is held behind so many, which are all one shared row.
fn rounds_hold_one(
    alloc: Global,
    tried: &mut Tried,
    ids: &[StubId],
    number: u64,
) -> Result<bool, Refused> {
    let row = number_row(alloc, 7)?;
    for at in 0..number {
        tried.put(Timed::new(at, row.share()?))?;
        go_all(tried, ids, at.saturating_add(1))?;
    }
    Ok(tried.store.rows_held() == 1)
}

const STUBS: u64 = 301;

// Whether the stub at an index is one of so many, which are spread over all.
fn is_early(index: usize, few: u64) -> bool {
    (index as u64 % STUBS * 10) % STUBS < few
}

// All but so many let go of the row of the first instant.
fn pass_first(tried: &mut Tried, ids: &[StubId], few: u64) -> Result<(), Refused> {
    for (index, id) in ids.iter().enumerate() {
        if !is_early(index, few) {
            tried.go(*id, 2)?;
        }
    }
    Ok(())
}

// Whether just these live: of so many, and of the others.
fn are_live(tried: &Tried, ids: &[StubId], few: u64, early: bool, others: bool) -> bool {
    for (index, id) in ids.iter().enumerate() {
        let lives = if is_early(index, few) { early } else { others };
        if tried.store.may_advance(*id, 2) != lives {
            return false;
        }
    }
    true
}

// Whether behind a row of this instant the right ones live, and the store holds what these need.
fn live_behind(
    alloc: Global,
    tried: &mut Tried,
    ids: &[StubId],
    few: u64,
    at: u64,
) -> Result<bool, Refused> {
    put(alloc, tried, at, 7)?;
    let held = tried.store.rows_held();
    Ok(match at {
        2 => are_live(tried, ids, few, true, true) && held == 2,
        3 => are_live(tried, ids, few, false, true) && held == 2,
        _ => are_live(tried, ids, few, false, false) && held == 0,
    })
}

// Of all stubs, which are of the last instant and hold two rows at most, so many have a row more than
// the others, and are overrun by the row for which the others still have room; the next one overruns
// these.
fn are_overrun(
    alloc: Global,
    tried: &mut Tried,
    ids: &[StubId],
    few: u64,
) -> Result<bool, Refused> {
    put(alloc, tried, 0, 7)?;
    pass_first(tried, ids, few)?;
    let mut right = true;
    for at in 2..5 {
        right = live_behind(alloc, tried, ids, few, at)? && right;
    }
    Ok(right)
}

// What a store has to do.
#[derive(Clone, Copy)]
enum Does {
    // Calls of six instants, of which one that is refused changes nothing.
    Call,
    // The same as few of many rows are passed.
    PassFew,
    // It holds one row after so many rounds.
    HoldOne(u64),
    // One row overruns so many stubs at once, and the next one all others.
    OverrunAtOnce(u64),
}

fn is_done(alloc: Global, tried: &mut Tried, ids: &[StubId], does: Does) -> Result<bool, Refused> {
    match does {
        Does::Call => calls_or_same(alloc, tried, ids),
        Does::PassFew => acks_or_same(alloc, tried, ids),
        Does::HoldOne(number) => rounds_hold_one(alloc, tried, ids, number),
        Does::OverrunAtOnce(few) => are_overrun(alloc, tried, ids, few),
    }
}

// Whether a new store does it, with so many stubs of each of these windows.
fn new_store_does(
    alloc: Global,
    spans: &[Span],
    times: u64,
    hold: u64,
    does: Does,
) -> Result<bool, Refused> {
    let mut tried = Tried::new(alloc);
    let ids = at_last!(attach_all(alloc, &mut tried, spans, times, hold));
    is_done(alloc, &mut tried, &ids, does)
}

static EACH: [Span; 6] = [
    Span::Range(2, 1),
    Span::Range(1, 3),
    Span::Rows(2, 1),
    Span::Rows(1, 2),
    Span::All,
    Span::Parts(1),
];

// With one allocation refused, whichever it is, the call that needed it has changed nothing:
// `rt try --test --fail-alloc` passes here with every number.
#[test]
fn a_refused_call(rt: HostRuntime) -> Result<(), Fail> {
    holds(new_store_does(rt.alloc(), &EACH, 1, 100, Does::Call))
}

static LAST_OF_PARTS: [Span; 1] = [Span::Parts(1)];

// Of many parts one has a row more, and the stub passes it: with one allocation refused, whichever
// it is, the call that needed it has changed nothing.
#[test]
fn a_refused_ack_of_few_rows(rt: HostRuntime) -> Result<(), Fail> {
    holds(new_store_does(rt.alloc(), &LAST_OF_PARTS, 1, 100, Does::PassFew))
}

static LAST_INSTANT: [Span; 1] = [Span::Range(0, 1)];

// Many rounds ask for memory no more often than few: `rt try --test --fail-alloc` with a number
// above that passes.
#[test]
fn many_rounds(rt: HostRuntime) -> Result<(), Fail> {
    for number in [1_000, 11_000] {
        assert!(rt;
            new_store_does(rt.alloc(), &LAST_INSTANT, 64, 100, Does::HoldOne(number))?,
            "{number}"
        );
    }
    Ok(())
}

// Of 301 stubs one append overruns so many, which are marked one by one or in one walk.
#[test]
fn many_overrun_at_once(rt: HostRuntime) -> Result<(), Fail> {
    for few in [63, 64, 65, 300] {
        assert!(rt;
            new_store_does(
                rt.alloc(),
                &LAST_INSTANT,
                STUBS,
                2,
                Does::OverrunAtOnce(few)
            )?,
            "{few}"
        );
    }
    Ok(())
}
