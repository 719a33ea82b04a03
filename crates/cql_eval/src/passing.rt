// The answer to a fetch whose plan shows all rows of one window, by what comes and leaves there: no
// operator is told of them.
ghost use Rattle.std.specs.Prelude.{◌≡◌, ◌≢◌, ◌≤◌, ◌+◌, length, IfOk, OnOk};
ghost use Rattle.cql_bag.specs.Bag.{Counts, bag_of};
ghost use Rattle.cql_algebra.specs.ByKind.{output_of, output_of_bags};
ghost use Rattle.cql_algebra.specs.Runs.{StandFor};
ghost use Rattle.cql_plan.specs.Ports.{IsPlain};
ghost use Rattle.cql_plan.specs.declared.plan.OutputKind.TheVariants.{Rstream};
ghost use Rattle.cql_eval.specs.Answer.{IsAnswer};
ghost use Rattle.cql_eval.specs.Relation.{output_at};
ghost use Rattle.cql_eval.specs.Projected.{projected_by, projected_content, IsMove};
ghost use Rattle.cql_eval.specs.Shown.{rows_of, fault_or, IsStill, first_change};
ghost use Rattle.cql_eval.specs.Passing.{HasPassed, fault_over};

use crate::evaluate::{hold, later_changes, next_of, nothing_asked};
use crate::pin::Pin;
use crate::projected_walk::ProjectedWalk;
use crate::shown::{LastTold, told_of_rows};
use crate::warm::walks_at;
use cql_algebra::law::change_types_law;
use cql_algebra::{Block, Output, Runs};
use cql_bag::law::{minus_counts, own_entries, put_all_counts, same_counts};
use cql_bag::{Bag, Room};
use cql_ops::Cancellation;
use cql_plan::{Fault, OutputKind};
use cql_value::Row;
use cql_window::{Moved, Part};
use std::alloc::{AllocError, Global};

// A walk over the window, how many rows it holds, and what is kept of the relation there.
struct Passing<'a> {
    walk: ProjectedWalk<'a>,
    held: u64,
    last: LastTold,
}

impl<'a> Drop for Passing<'a> {
    fn drop(self) {
        let Passing {
            walk: _,
            held: _,
            last: _,
        } = self;
    }
}

impl<'a> Passing<'a> {
    // Goes on to a cursor, where the relation is a fault if the window holds more rows than the limit.
    fn advance(&mut self, alloc: Global, cursor: u64, limit: u64) -> Result<Moved, AllocError>
        requires cursor { self.old.walk.cursor ≤ cursor }
        requires many { self.old.held ≡ length self.old.walk.held }
        ensures pin { self.new.walk.pin ≡ self.old.walk.pin }
        ensures cursor { OnOk result (self.new.walk.cursor ≡ cursor) }
        ensures held { OnOk result (self.new.walk.held ≡ projected_content cursor self.old.walk.pin) }
        ensures moved { IfOk result (λ m. IsMove self.old.walk.held m self.new.walk) }
        ensures many { OnOk result (self.new.held ≡ length self.new.walk.held) }
        ensures fault { OnOk result (self.new.last.fault ≡ fault_over limit self.new.held) }
    {
        let moved = self.walk.advance(alloc, cursor)?;
        let came = (moved.came.to - moved.came.from) as u64;
        let left = (moved.left.to - moved.left.from) as u64;
        let all = self.held.checked_add(came).ok_or(AllocError)?;
        self.held = all - left - moved.gone.len() as u64;
        self.last.fault = if self.held > limit {
            Some(Fault::Oversize)
        } else {
            None
        };
        Ok(moved)
    }
}

// The rows as the walk shows them take the place of those in the list, which gets no room to spare.
#[inline(always)]
fn list_rows(
    alloc: Global,
    walk: &ProjectedWalk<'_>,
    rows: Part<'_>,
    many: usize,
    list: &mut Vec<Row>,
) -> Result<(), AllocError>
    ensures { OnOk result (list.new.items ≡ rows_of (projected_by walk.now rows.entry)) }
{
    list.clear();
    list.reserve_exact(many)?;
    for element in rows {
        list.push(walk.project(alloc, element.row())?)?;
    }
    Ok(())
}

// What is told where these rows came and left, by the fault there and the one of the instant before.
fn told_of_moved(
    alloc: Global,
    kind: OutputKind,
    before: Option<Fault>,
    now: Option<Fault>,
    rows: &mut Room,
) -> Result<Output, AllocError>
    ensures { IfOk result (λ o. kind ≢ Rstream → (was is : Counts) → output_of_bags kind (bag_of rows.old.left.items) (bag_of rows.old.came.items) ≡ output_of_bags kind was is → o ≡ output_of kind (fault_or before was) (fault_or now is)) }
{
    match (now, before) {
        (Some(fault), _) | (None, Some(fault)) => Ok(Output::Fault(fault)),
        (None, None) => {
            same_counts();
            put_all_counts();
            rows.sort();
            told_of_rows(alloc, kind, rows)
        }
    }
}

// Something may change at the next instant, and then nothing before a later one. `rows` is room, of which
// nothing is said.
#[inline(always)]
fn pass_instant<'a>(
    alloc: Global,
    pin: &'a Pin,
    passing: &mut Passing<'a>,
    runs: &mut Runs,
    rows: &mut Room,
    until: u64,
) -> Result<(), AllocError>
    requires plain { IsPlain pin.now.plan }
    requires kind { pin.now.plan.output ≢ Rstream }
    requires passed { HasPassed pin.now runs.old.next runs.old passing.old }
    requires still { IsStill pin.now (runs.old.next + 1) until }
    ensures { OnOk result (HasPassed pin.now until runs.new passing.new) }
{
    same_counts();
    put_all_counts();
    minus_counts();
    own_entries();
    change_types_law();
    let at = runs.next();
    let before = passing.last.fault;
    let moved = passing.advance(alloc, at + 1, pin.limit())?;
    let walk = &passing.walk;
    let came = moved.came.to - moved.came.from;
    list_rows(
        alloc,
        walk,
        walk.rows(&[], moved.came),
        came,
        &mut rows.came,
    )?;
    let left = (moved.left.to - moved.left.from).saturating_add(moved.gone.len());
    list_rows(
        alloc,
        walk,
        walk.rows(&moved.gone, moved.left),
        left,
        &mut rows.left,
    )?;
    let kind = pin.plan().output();
    let told = told_of_moved(alloc, kind, before, passing.last.fault, rows)?;
    runs.push(at, at, told)?;
    hold(alloc, pin, &passing.last, runs, until)
}

// Before the first instant that may change something: the relation before the first that is asked for,
// which stays up to a later one. At the base there is none, and the base itself comes first.
fn begin<'a>(
    alloc: Global,
    pin: &'a Pin,
    runs: &mut Runs,
    rows: &mut Room,
    until: u64,
) -> Result<Passing<'a>, AllocError>
    requires plain { IsPlain pin.now.plan }
    requires kind { pin.now.plan.output ≢ Rstream }
    requires next { runs.old.next ≡ pin.now.from }
    requires still { IsStill pin.now (first_change pin.now) until }
    requires stand { StandFor (output_at pin.now) pin.now.from runs.old }
    ensures { IfOk result (λ s. HasPassed pin.now until runs.new s) }
{
    put_all_counts();
    own_entries();
    change_types_law();
    let _ = pin.windows();
    let mut walks = walks_at(alloc, pin, None)?;
    let Some(walk) = walks.pop() else {
        unreachable!()
    };
    let last = LastTold {
        bag: Bag::new(alloc),
        fault: None,
    };
    let mut passing = Passing {
        walk,
        held: 0,
        last,
    };
    if pin.base() < pin.from() {
        passing.advance(alloc, pin.from(), pin.limit())?;
        hold(alloc, pin, &passing.last, runs, until)?;
        return Ok(passing);
    }
    pass_instant(alloc, pin, &mut passing, runs, rows, until)?;
    Ok(passing)
}

/// The blocks of a pin, and at how many instants the relation was computed. No row is looked at that
/// neither comes nor leaves: what the window holds at the first instant is only counted, and over a window
/// of parts filed by its part. Without memory the pin is given up, and where the flag is set.
pub(crate) fn pass(
    alloc: Global,
    pin: &Pin,
    cancellation: &Cancellation,
) -> Result<(Vec<Block>, u64), AllocError>
    requires plain { IsPlain pin.now.plan }
    requires kind { pin.now.plan.output ≢ Rstream }
    ensures { IfOk result (λ r. IsAnswer (record { pin = pin.now; blocks = r.0.items; turns = r.1 })) }
{
    let end = pin.next();
    if pin.from() == end {
        return Ok((nothing_asked(alloc, pin), 0));
    }
    let mut runs = Runs::new(alloc, pin.from());
    let instants = later_changes(alloc, pin)?;
    let mut left = instants.as_slice();
    let mut rows = Room::new(alloc);
    let mut passing = begin(alloc, pin, &mut runs, &mut rows, next_of(left, end))?;
    while let Some((_, later)) = left.split_first() {
        cancellation.look()?;
        left = later;
        let until = next_of(left, end);
        pass_instant(alloc, pin, &mut passing, &mut runs, &mut rows, until)?;
    }
    Ok((runs.finish(), 1 + instants.len() as u64))
}
