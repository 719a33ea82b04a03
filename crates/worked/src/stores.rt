// Works the store of one stream with some stubs on it, and tells how many rows it holds then. The
// words behind the first are how many stubs, how many times, and at what:
//
// - `rows` (what it does without a word): a row comes, behind stubs that all lag alike.
// - `near`: a row comes that fills the last stub, which then goes on; the others lag.
// - `overrun`: a row comes, behind stubs of which all but the first are overrun.
// - `rounds`: a row comes, and then each stub, all of the last instant, goes on.
// - `pins`: a pin is taken of one stub, which has as many rows as there would be stubs.
// - `scans`: the same, and the pin's rows are looked at for changes of the first instant.
// - `walks`: the same, and a walk goes over all rows of the pin.
// - `parts`: one stub of a window of parts, which has a row of as many parts as there would be stubs;
//   then so many times some rows of them come, as many as a fourth word says, and the stub goes on.
// - `slides`: one stub of the last row at each slide of as many rows as there would be stubs, of which
//   half wait; then a row comes, and the stub goes on.
// - `detach`: a stub goes, and another comes; the stubs go in turn.
//
// Without these words it is 1 stub and 1000 rows.
ghost use Rattle.std.specs.Prelude.{◌≡◌, [], ◌∷◌, IfOk};
ghost use Rattle.cql_value.specs.Schema.{HasTypes};
ghost use Rattle.cql_store.specs.Next.{FitsWindow};
ghost use Rattle.cql_value.specs.declared.schema.ColumnType.TheVariants.{Number};

use cql_chunks::Budget;
use cql_store::law::next_law;
use cql_store::{Store, StubId};
use cql_value::{Items, Row, Timed, Value};
use cql_window::{Count, Length, Walk, Window, changes};
use std::alloc::{AllocError, Global};
use std::collections::VecDeque;
use std::io;
use std::marker::Model;
use std::process::ExitCode;

/// The greatest instant, and a number of rows that no stub has.
const GREATEST: u64 = 4_611_686_018_427_387_903;

// How much is let go behind each call.
const UNITS: usize = 1024;

// What is done with a pin before it is let go.
#[derive(Clone, Copy)]
enum Look {
    Pin,
    // Its rows are looked at for changes of the first instant.
    Scan,
    // A walk goes over all its rows.
    Walk,
}

// A store of rows of one number, and the least time that it takes.
#[derive(Drop)]
struct Fed {
    store: Store,
    opened: u64,
}

impl Model for Fed {
    ghost use Rattle.std.specs.Prelude.{[], ◌∷◌};
    ghost use Rattle.cql_value.specs.Schema.{HasTypes};
    ghost use Rattle.cql_value.specs.declared.schema.ColumnType.TheVariants.{Number};
    ghost use Rattle.cql_store.specs.Held.{Stubs};
    ghost use Rattle.cql_store.specs.Next.{TakesFrom};

    ghost Value = { Stubs };

    ghost view = { λ l. l.store };

    ghost invariant = { λ l. TakesFrom (HasTypes (Number ∷ [])) l.opened l.store };
}

impl Fed {
    fn new(alloc: Global) -> Fed {
        next_law();
        Fed {
            store: Store::new(alloc),
            opened: 0,
        }
    }

    // One more stub, at the instant 0.
    fn attach(&mut self, window: Window, hold: u64) -> Result<StubId, AllocError>
        requires { FitsWindow (HasTypes (Number ∷ [])) window }
    {
        next_law();
        let id = self.store.attach(window, 0, hold)?;
        Ok(id)
    }

    // Lets go of some of what no stub needs any more.
    fn settle(&mut self)
        ensures { self.new ≡ self.old }
    {
        let mut budget = Budget { units: UNITS };
        self.store.settle(&mut budget);
    }

    // One more row, unless it is too early or too late.
    fn put(&mut self, row: Timed) -> Result<(), AllocError>
        requires { HasTypes (Number ∷ []) row.row }
    {
        next_law();
        let at = row.at();
        if self.opened <= at && at <= GREATEST {
            self.store.append(row)?;
            self.opened = at;
            self.settle();
        }
        Ok(())
    }

    // The stub goes, unless it is overrun.
    fn detach(&mut self, id: StubId) {
        next_law();
        if self.store.may_advance(id, self.opened) {
            self.store.detach(id);
            self.settle();
        }
    }

    // Takes a pin of the stub, unless it is overrun, and looks at it.
    fn look(&self, alloc: Global, id: StubId, look: Look) -> Result<(), AllocError> {
        if !self.store.may_advance(id, self.opened) {
            return Ok(());
        }
        let pin = self.store.pin(id, GREATEST)?;
        match look {
            Look::Pin => {}
            Look::Scan => {
                changes(alloc, &pin, 0, 1)?;
            }
            Look::Walk => {
                let mut walk = Walk::new(alloc, &pin);
                walk.advance(alloc, GREATEST)?;
            }
        }
        Ok(())
    }

    // A stub goes to a later cursor, unless it is overrun.
    fn go(&mut self, id: StubId, to: u64) -> Result<(), AllocError> {
        next_law();
        if self.store.may_advance(id, to) {
            let ready = self.store.ready(id, to)?;
            self.store.advance(ready);
            self.opened = self.opened.max(to);
            self.settle();
        }
        Ok(())
    }
}

// A row of one number.
fn numbered(alloc: Global, number: i64) -> Result<Row, AllocError>
    ensures { IfOk result (λ row. HasTypes (Number ∷ []) row) }
{
    Ok(Row::new(alloc, vec![in alloc; Value::Number(number)]?)?)
}

// A stub of all rows that comes in the way of none.
fn lag(fed: &mut Fed) -> Result<StubId, AllocError> {
    fed.attach(Window::All, GREATEST)
}

// So many stubs of all rows.
fn lag_all(fed: &mut Fed, stubs: u64) -> Result<(), AllocError> {
    for _ in 0..stubs {
        lag(fed)?;
    }
    Ok(())
}

// A stub of the last instant, with a hold.
fn stub_of_now(fed: &mut Fed, hold: u64) -> Result<StubId, AllocError> {
    let (Some(length), Some(slide)) = (Length::new(0), Count::new(1)) else {
        unreachable!()
    };
    fed.attach(Window::Range { length, slide }, hold)
}

// So many stubs of the last instant, each with a hold of 100.
fn stubs_of_now(alloc: Global, fed: &mut Fed, stubs: u64) -> Result<Vec<StubId>, AllocError> {
    let mut ids = Vec::new(alloc);
    for _ in 0..stubs {
        ids.push(stub_of_now(fed, 100)?)?;
    }
    Ok(ids)
}

// Each stub goes to the cursor.
fn go_all(fed: &mut Fed, ids: &[StubId], to: u64) -> Result<(), AllocError> {
    for id in ids {
        fed.go(*id, to)?;
    }
    Ok(())
}

// So many rows come, of the instants from 0 on.
fn put_all(alloc: Global, fed: &mut Fed, rows: u64) -> Result<(), AllocError> {
    for at in 0..rows {
        let row = numbered(alloc, i64::try_from(at).unwrap_or(0))?;
        fed.put(Timed::new(at, row))?;
    }
    Ok(())
}

fn rows(alloc: Global, fed: &mut Fed, stubs: u64, times: u64) -> Result<(), AllocError> {
    lag_all(fed, stubs)?;
    put_all(alloc, fed, times)
}

fn near(alloc: Global, fed: &mut Fed, stubs: u64, times: u64) -> Result<(), AllocError> {
    lag_all(fed, stubs.saturating_sub(1))?;
    let last = stub_of_now(fed, 1)?;
    let row = numbered(alloc, 7)?;
    for at in 0..times {
        fed.put(Timed::new(at, row.share()?))?;
        fed.go(last, at.saturating_add(2))?;
    }
    Ok(())
}

fn overrun(alloc: Global, fed: &mut Fed, stubs: u64, times: u64) -> Result<(), AllocError> {
    lag(fed)?;
    for _ in 1..stubs {
        fed.attach(Window::All, 0)?;
    }
    put_all(alloc, fed, times)
}

fn rounds(alloc: Global, fed: &mut Fed, stubs: u64, times: u64) -> Result<(), AllocError> {
    let ids = stubs_of_now(alloc, fed, stubs)?;
    let row = numbered(alloc, 7)?;
    for at in 0..times {
        fed.put(Timed::new(at, row.share()?))?;
        go_all(fed, &ids, at.saturating_add(1))?;
    }
    Ok(())
}

fn detach(alloc: Global, fed: &mut Fed, stubs: u64, times: u64) -> Result<(), AllocError> {
    let mut ids = VecDeque::new(alloc);
    for _ in 0..stubs {
        ids.push_back(lag(fed)?)?;
    }
    for _ in 0..times {
        if let Some(id) = ids.pop_front() {
            fed.detach(id);
            ids.push_back(lag(fed)?)?;
        }
    }
    Ok(())
}

// A row of each of so many parts comes.
fn fill(alloc: Global, fed: &mut Fed, parts: u64) -> Result<(), AllocError> {
    for number in 0..parts {
        let row = numbered(alloc, i64::try_from(number).unwrap_or(0))?;
        fed.put(Timed::new(0, row))?;
    }
    Ok(())
}

// So many rows come, of parts that are far from one another.
fn put_far(alloc: Global, fed: &mut Fed, at: u64, parts: u64, rows: u64) -> Result<(), AllocError> {
    for number in 0..rows {
        let far = at
            .wrapping_mul(rows)
            .wrapping_add(number)
            .wrapping_mul(7919)
            % parts.max(1);
        let row = numbered(alloc, i64::try_from(far).unwrap_or(0))?;
        fed.put(Timed::new(at, row))?;
    }
    Ok(())
}

fn parts(
    alloc: Global,
    fed: &mut Fed,
    parts: u64,
    times: u64,
    rows: u64,
) -> Result<(), AllocError> {
    let Some(count) = Count::new(1) else {
        unreachable!()
    };
    let columns = Items::from_slice(alloc, &[0])?;
    let id = fed.attach(Window::Parts { columns, count }, GREATEST)?;
    fill(alloc, fed, parts)?;
    fed.go(id, 1)?;
    for at in 1..times.saturating_add(1) {
        put_far(alloc, fed, at, parts, rows)?;
        fed.go(id, at.saturating_add(1))?;
    }
    Ok(())
}

fn slides(alloc: Global, fed: &mut Fed, slide: u64, times: u64) -> Result<(), AllocError> {
    let (Some(count), Some(slide)) = (Count::new(1), Count::new(slide)) else {
        return Ok(());
    };
    let id = fed.attach(Window::Rows { count, slide }, GREATEST)?;
    let waiting = slide.get() / 2;
    put_all(alloc, fed, waiting)?;
    fed.go(id, waiting)?;
    let row = numbered(alloc, 7)?;
    for at in waiting..waiting.saturating_add(times) {
        fed.put(Timed::new(at, row.share()?))?;
        fed.go(id, at.saturating_add(1))?;
    }
    Ok(())
}

fn looks(
    alloc: Global,
    fed: &mut Fed,
    rows: u64,
    times: u64,
    look: Look,
) -> Result<(), AllocError> {
    let id = lag(fed)?;
    put_all(alloc, fed, rows)?;
    for _ in 0..times {
        fed.look(alloc, id, look)?;
    }
    Ok(())
}

// What is done to the store.
#[derive(Clone, Copy)]
enum Work {
    Rows,
    Near,
    Overrun,
    Rounds,
    Detach,
    Looks(Look),
    Parts,
    Slides,
}

// The work of a word, if it names one.
fn work_of(word: &str) -> Option<Work> {
    match word {
        "rows" => Some(Work::Rows),
        "near" => Some(Work::Near),
        "overrun" => Some(Work::Overrun),
        "rounds" => Some(Work::Rounds),
        "detach" => Some(Work::Detach),
        "pins" => Some(Work::Looks(Look::Pin)),
        "scans" => Some(Work::Looks(Look::Scan)),
        "walks" => Some(Work::Looks(Look::Walk)),
        "parts" => Some(Work::Parts),
        "slides" => Some(Work::Slides),
        _ => None,
    }
}

// Does the work, and tells how many rows the store then holds.
fn held_after(
    alloc: Global,
    work: Work,
    stubs: u64,
    times: u64,
    more: u64,
) -> Result<u64, AllocError> {
    let mut fed = Fed::new(alloc);
    match work {
        Work::Rows => rows(alloc, &mut fed, stubs, times)?,
        Work::Near => near(alloc, &mut fed, stubs, times)?,
        Work::Overrun => overrun(alloc, &mut fed, stubs, times)?,
        Work::Rounds => rounds(alloc, &mut fed, stubs, times)?,
        Work::Detach => detach(alloc, &mut fed, stubs, times)?,
        Work::Looks(look) => looks(alloc, &mut fed, stubs, times, look)?,
        Work::Parts => parts(alloc, &mut fed, stubs, times, more)?,
        Work::Slides => slides(alloc, &mut fed, stubs, times)?,
    }
    Ok(fed.store.rows_held())
}

// The number of a word, or another where there is none.
fn number(words: &[String], index: usize, other: u64) -> u64 {
    match words.get(index) {
        Some(word) => word.as_str().parse().unwrap_or(other),
        None => other,
    }
}

/// Does the work of the words, of which the first is `stores`.
pub fn run(rt: &HostRuntime, words: &[String]) -> io::Result<ExitCode> {
    let stubs = number(words, 1, 1);
    let times = number(words, 2, 1000);
    let work = match words.get(3) {
        Some(word) => work_of(word.as_str()),
        None => Some(Work::Rows),
    };
    let Some(work) = work else {
        eprintln!(rt;
            "worked stores STUBS TIMES [rows|near|overrun|rounds|detach|pins|scans|walks|parts|slides] [ROWS]"
        )?;
        return Ok(ExitCode::FAILURE);
    };
    let held = held_after(rt.alloc(), work, stubs, times, number(words, 4, 0))?;
    println!(rt; "{held}")?;
    Ok(ExitCode::SUCCESS)
}
