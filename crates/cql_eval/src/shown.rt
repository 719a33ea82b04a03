// What is shown of a pin.
ghost use Rattle.std.specs.Prelude.{◌≡◌, ◌≢◌, ◌≤◌, ◌<◌, ℕ, IfOk, OnOk};
ghost use Rattle.std.specs.List.Sorted.{IsSorted};
ghost use Rattle.cql_value.specs.Order.{row_cmp};
ghost use Rattle.cql_bag.specs.Bag.{Counts, IsBag, bag_of};
ghost use Rattle.cql_bag.specs.Changes.{changed_by, CanChangeBy};
ghost use Rattle.cql_ops.specs.Running.{told_of};
ghost use Rattle.cql_algebra.specs.declared.relation.Relation.{Relation as relation};
ghost use Rattle.cql_algebra.specs.declared.relation.Relation.TheVariants.{Bag as bag};
ghost use Rattle.cql_algebra.specs.ByKind.{output_of, output_of_bags};
ghost use Rattle.cql_plan.specs.declared.plan.OutputKind.TheVariants.{Rstream};
ghost use Rattle.cql_eval.specs.Relation.{bags_at, relation_at};
ghost use Rattle.cql_eval.specs.Projected.{projected_windows};
ghost use Rattle.cql_eval.specs.Shown.{StandsFor, LeadsTo, Tells, bags_held, IsReady, IsShown};

use crate::pin::Pin;
use crate::projected_walk::ProjectedWalk;
use crate::walks::{advance, restart};
use crate::warm::walks_at;
use cql_algebra::Output;
use cql_bag::law::{minus_counts, put_all_counts, same_counts, take_counts};
use cql_bag::{Bag, Change, Room, add_rows, parted, rest_from, rest_of, take_rows};
use cql_ops::{BenchOf, Operator, Outcome};
use cql_plan::{Fault, OutputKind};
use std::alloc::{AllocError, Global};
use std::mem;

/// What is kept of a relation: its fault, where it is one; and for Rstream, which tells the whole
/// relation, the bag that the bench has told, which is the relation where that is no fault. The
/// other kinds tell only what came and left, and keep a bag of no account.
#[derive(Drop)]
pub(crate) struct LastTold {
    pub(crate) bag: Bag,
    pub(crate) fault: Option<Fault>,
}

/// Walks over the windows, and what is kept of the relation.
pub(crate) struct WalkState<'a> {
    pub(crate) walks: Vec<ProjectedWalk<'a>>,
    pub(crate) last: LastTold,
}

impl<'a> Drop for WalkState<'a> {
    fn drop(self) {
        let WalkState { walks: _, last: _ } = self;
    }
}

impl<'a> WalkState<'a> {
    pub(crate) fn into_parts(self) -> (Vec<ProjectedWalk<'a>>, LastTold)
        ensures walks { result.0.items ≡ self.entry.walks.items }
        ensures last { result.1 ≡ self.entry.last }
    {
        let WalkState { walks, last } = self;
        (walks, last)
    }
}

/// Before the first row, on a bench started anew. What it held of another plan is let go.
pub(crate) fn nothing_shown<'a, O: Operator>(
    alloc: Global,
    bench: &mut BenchOf<O>,
    pin: &'a Pin,
) -> Result<WalkState<'a>, AllocError>
    ensures { IfOk result (λ s. (c : ℕ) → c ≤ pin.now.base → IsShown pin.now c s.walks.items s.last bench.new) }
{
    bench.clear(alloc);
    bench.start(pin.plan(), pin.limit())?;
    let walks = walks_at(alloc, pin, None)?;
    let last = LastTold {
        bag: Bag::new(alloc),
        fault: None,
    };
    Ok(WalkState { walks, last })
}

// What Rstream keeps and tells after changes. Here and in what calls it they are handed over in `rows`,
// which is else room, of which nothing is said.
fn list_changes(alloc: Global, last: &mut LastTold, rows: &mut Room) -> Result<Output, AllocError>
    ensures { IfOk result (λ o. (told : Counts) (before : relation) → StandsFor Rstream last.old told before → CanChangeBy rows.old.changes.items told → StandsFor Rstream last.new (changed_by rows.old.changes.items told) (bag (changed_by rows.old.changes.items told)) × (o ≡ output_of Rstream before (bag (changed_by rows.old.changes.items told)))) }
{
    same_counts();
    put_all_counts();
    take_counts();
    parted(rows)?;
    add_rows(&mut last.bag, &mut rows.came)?;
    take_rows(&mut last.bag, &rows.left);
    last.fault = None;
    Ok(Output::Rows(last.bag.listing(alloc)?))
}

// What the other kinds tell of rows that came and rows that left, each ascending. A list that is told
// is handed over, and the other one keeps its room.
pub(crate) fn told_of_rows(
    alloc: Global,
    kind: OutputKind,
    rows: &mut Room,
) -> Result<Output, AllocError>
    requires came { IsSorted row_cmp rows.old.came.items }
    requires left { IsSorted row_cmp rows.old.left.items }
    ensures { IfOk result (λ o. kind ≢ Rstream → o ≡ output_of_bags kind (bag_of rows.old.left.items) (bag_of rows.old.came.items)) }
{
    match kind {
        OutputKind::Istream => {
            let came = mem::replace(&mut rows.came, Vec::new(alloc));
            Ok(Output::Rows(rest_from(alloc, came, &rows.left)?))
        }
        OutputKind::Dstream => {
            let left = mem::replace(&mut rows.left, Vec::new(alloc));
            Ok(Output::Rows(rest_from(alloc, left, &rows.came)?))
        }
        _ => {
            let minus = rest_of(alloc, &rows.left, &rows.came)?;
            let came = mem::replace(&mut rows.came, Vec::new(alloc));
            let plus = rest_from(alloc, came, &rows.left)?;
            Ok(Output::Signed { plus, minus })
        }
    }
}

// What the other kinds tell of changes of a bag.
fn difference(alloc: Global, kind: OutputKind, rows: &mut Room) -> Result<Output, AllocError>
    ensures { IfOk result (λ o. kind ≢ Rstream → (before : Counts) → IsBag before → CanChangeBy rows.old.changes.items before → o ≡ output_of kind (bag before) (bag (changed_by rows.old.changes.items before))) }
{
    same_counts();
    put_all_counts();
    take_counts();
    minus_counts();
    parted(rows)?;
    told_of_rows(alloc, kind, rows)
}

// What the other kinds keep and tell after changes: a fault of the instant before comes first.
fn tell_changes(
    alloc: Global,
    kind: OutputKind,
    last: &mut LastTold,
    rows: &mut Room,
) -> Result<Output, AllocError>
    ensures { IfOk result (λ o. kind ≢ Rstream → (told : Counts) (before : relation) → StandsFor kind last.old told before → CanChangeBy rows.old.changes.items told → StandsFor kind last.new (changed_by rows.old.changes.items told) (bag (changed_by rows.old.changes.items told)) × (o ≡ output_of kind before (bag (changed_by rows.old.changes.items told)))) }
{
    put_all_counts();
    take_counts();
    let told = match last.fault {
        None => difference(alloc, kind, rows)?,
        Some(fault) => Output::Fault(fault),
    };
    last.fault = None;
    Ok(told)
}

// What is kept and told after changes: nothing new where there are none and there was no fault.
fn tell_all(
    alloc: Global,
    kind: OutputKind,
    last: &mut LastTold,
    rows: &mut Room,
) -> Result<Option<Output>, AllocError>
    ensures { IfOk result (λ o. (told : Counts) (before : relation) → StandsFor kind last.old told before → CanChangeBy rows.old.changes.items told → StandsFor kind last.new (changed_by rows.old.changes.items told) (bag (changed_by rows.old.changes.items told)) × Tells kind o before (bag (changed_by rows.old.changes.items told))) }
{
    if rows.changes.is_empty() && last.fault.is_none() {
        return Ok(None);
    }
    let told = match kind {
        OutputKind::Rstream => list_changes(alloc, last, rows)?,
        _ => tell_changes(alloc, kind, last, rows)?,
    };
    Ok(Some(told))
}

// What is kept after changes, where nothing is told.
fn keep_changes(
    alloc: Global,
    kind: OutputKind,
    last: &mut LastTold,
    rows: &mut Room,
) -> Result<(), AllocError>
    ensures { OnOk result ((told : Counts) (before : relation) → StandsFor kind last.old told before → CanChangeBy rows.old.changes.items told → StandsFor kind last.new (changed_by rows.old.changes.items told) (bag (changed_by rows.old.changes.items told))) }
{
    put_all_counts();
    take_counts();
    match kind {
        OutputKind::Rstream => {
            list_changes(alloc, last, rows)?;
            Ok(())
        }
        _ => {
            last.fault = None;
            Ok(())
        }
    }
}

/// What is kept and told after a bench answered, and put its changes into `rows`.
pub(crate) fn tell(
    alloc: Global,
    kind: OutputKind,
    last: &mut LastTold,
    outcome: Outcome,
    rows: &mut Room,
) -> Result<Option<Output>, AllocError>
    ensures { IfOk result (λ o. (told after : Counts) (before now : relation) → StandsFor kind last.old told before → LeadsTo outcome rows.old.changes.items told after now → StandsFor kind last.new after now × Tells kind o before now) }
{
    match outcome {
        Outcome::Changed => tell_all(alloc, kind, last, rows),
        Outcome::Held(fault) => {
            last.fault = Some(fault);
            Ok(Some(Output::Fault(fault)))
        }
        Outcome::Faulty(fault) => {
            last.bag = Bag::new(alloc);
            last.fault = Some(fault);
            Ok(Some(Output::Fault(fault)))
        }
    }
}

/// What is kept after a bench answered, and put its changes into `rows`, where nothing is told.
pub(crate) fn keep(
    alloc: Global,
    kind: OutputKind,
    last: &mut LastTold,
    outcome: Outcome,
    rows: &mut Room,
) -> Result<(), AllocError>
    ensures { OnOk result ((told after : Counts) (before now : relation) → StandsFor kind last.old told before → LeadsTo outcome rows.old.changes.items told after now → StandsFor kind last.new after now) }
{
    match outcome {
        Outcome::Changed => keep_changes(alloc, kind, last, rows),
        Outcome::Held(fault) => {
            last.fault = Some(fault);
            Ok(())
        }
        Outcome::Faulty(fault) => {
            last.bag = Bag::new(alloc);
            last.fault = Some(fault);
            Ok(())
        }
    }
}

/// Asks the bench what it tells at a cursor that the walks have reached: its changes take the place of
/// what is in the list. Where a fault left an operator spent the bench is started anew, over what the
/// walks hold.
pub(crate) fn ask<O: Operator>(
    alloc: Global,
    bench: &mut BenchOf<O>,
    pin: &Pin,
    walks: &[ProjectedWalk<'_>],
    cursor: u64,
    changes: &mut Vec<Change>,
) -> Result<Outcome, AllocError>
    requires based { pin.now.base < cursor }
    requires ready { IsReady pin.now cursor walks.now bench.old }
    requires bags { bags_held walks.now ≡ bags_at cursor (projected_windows pin.now) }
    ensures ready { OnOk result (IsReady pin.now cursor walks.now bench.new) }
    ensures leads { IfOk result (λ r. LeadsTo r changes.new.items (told_of pin.now.plan bench.old) (told_of pin.now.plan bench.new) (relation_at pin.now cursor)) }
{
    let outcome = bench.emit(pin.plan(), pin.limit(), changes)?;
    match outcome {
        Outcome::Faulty(fault) => {
            restart(alloc, bench, pin, walks)?;
            Ok(Outcome::Faulty(fault))
        }
        outcome => Ok(outcome),
    }
}

/// Goes on to a cursor with every walk, and asks the bench what it tells there: its changes take the
/// place of what is in the list.
pub(crate) fn reach<'a, O: Operator>(
    alloc: Global,
    bench: &mut BenchOf<O>,
    pin: &'a Pin,
    walks: &mut Vec<ProjectedWalk<'a>>,
    cursor: u64,
    changes: &mut Vec<Change>,
) -> Result<Outcome, AllocError>
    requires based { pin.now.base < cursor }
    requires ready { IsReady pin.now cursor walks.old.items bench.old }
    ensures ready { OnOk result (IsReady pin.now cursor walks.new.items bench.new) }
    ensures leads { IfOk result (λ r. LeadsTo r changes.new.items (told_of pin.now.plan bench.old) (told_of pin.now.plan bench.new) (relation_at pin.now cursor)) }
{
    advance(alloc, bench, pin, walks, cursor)?;
    ask(alloc, bench, pin, walks, cursor, changes)
}

/// What is shown at a later cursor, where nothing is told: the opening of an answer. Its changes may be
/// many, and get room that goes with them.
pub(crate) fn open<'a, O: Operator>(
    alloc: Global,
    bench: &mut BenchOf<O>,
    pin: &'a Pin,
    shown: &mut WalkState<'a>,
    cursor: u64,
) -> Result<(), AllocError>
    requires based { pin.now.base < cursor }
    requires shown { (c : ℕ) × (c ≤ cursor) × IsShown pin.now c shown.old.walks.items shown.old.last bench.old }
    ensures { OnOk result (IsShown pin.now cursor shown.new.walks.items shown.new.last bench.new) }
{
    let mut rows = Room::new(alloc);
    let walks = &mut shown.walks;
    let outcome = reach(alloc, bench, pin, walks, cursor, &mut rows.changes)?;
    keep(
        alloc,
        pin.plan().output(),
        &mut shown.last,
        outcome,
        &mut rows,
    )
}

/// The output where nothing changed since the instant before.
pub(crate) fn same_output(
    alloc: Global,
    kind: OutputKind,
    last: &LastTold,
) -> Result<Output, AllocError>
    ensures { IfOk result (λ o. (told : Counts) (now : relation) → StandsFor kind last.now told now → o ≡ output_of kind now now) }
{
    match (last.fault, kind) {
        (Some(fault), _) => Ok(Output::Fault(fault)),
        (None, OutputKind::Rstream) => Ok(Output::Rows(last.bag.listing(alloc)?)),
        (None, _) => {
            let mut rows = Room::new(alloc);
            difference(alloc, kind, &mut rows)
        }
    }
}
