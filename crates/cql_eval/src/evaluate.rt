// The answer to a fetch.
ghost use Rattle.std.specs.Prelude.{◌≡◌, ◌↔◌, ◌⊎◌, ◌≤◌, ◌<◌, ◌+◌, ◌*◌, ℕ, length, IfOk, IfSome, OnOk, IsTrue};
ghost use Rattle.std.specs.Arc.{arc_value};
ghost use Rattle.std.specs.List.{All, Contains};
ghost use Rattle.cql_bag.specs.Bag.{Counts};
ghost use Rattle.cql_algebra.specs.Runs.{StandFor};
ghost use Rattle.cql_plan.specs.declared.plan.OutputKind.TheVariants.{Rstream};
ghost use Rattle.cql_eval.specs.Answer.{IsAnswer, rows_in};
ghost use Rattle.cql_eval.specs.Relation.{relation_at, output_at};
ghost use Rattle.cql_eval.specs.Shown.{StandsFor, Tells, HasCome, IsStill, AreLeft, AreSame, first_change, next_of};
ghost use Rattle.cql_eval.specs.Warm.{IsKept, StandsBehind};

use crate::answered::Answer;
use crate::passing::pass;
use crate::pin::Pin;
use crate::shown::{LastTold, WalkState, nothing_shown, open, reach, same_output, tell};
use crate::warm::{LastAnswer, remember, resume};
use cql_algebra::{Block, Output, Runs};
use cql_bag::Room;
use cql_ops::{BenchOf, Operator};
use cql_plan::OutputKind;
use cql_value::{Items, Row};
use cql_window::changes;
use std::alloc::{AllocError, Global};
use std::mem::size_of;
use std::sync::Arc;

/// The blocks of a pin, in one walk over its rows: the bench is started anew, and the relation is
/// computed at one instant and where it may change, by the rows that come into the windows and
/// leave them there. Without memory the pin is given up, and so it is where the bench's flag is set
/// meanwhile: it is cleared first, and looked at between two instants. Behind it the bench holds no row.
/// Where the plan shows the rows of one window as they are, what comes and leaves is told as it is: the
/// bench is left alone but for its flag; and so it is where the pin asks for no instant.
pub fn answer<O: Operator>(
    alloc: Global,
    bench: &mut BenchOf<O>,
    pin: Pin,
) -> Result<Answer, AllocError>
    ensures { IfOk result (λ a. a.pin ≡ pin) }
{
    let pin = Arc::new(alloc, pin)?;
    answer_shared(alloc, bench, pin)
}

/// As `answer`, of a pin that may be shared.
pub(crate) fn answer_shared<O: Operator>(
    alloc: Global,
    bench: &mut BenchOf<O>,
    pin: Arc<Pin>,
) -> Result<Answer, AllocError>
    ensures { IfOk result (λ a. a.pin ≡ arc_value pin) }
{
    bench.cancellation().clear();
    if pin.asks_nothing() {
        let blocks = nothing_asked(alloc, &pin);
        return Ok(Answer::new(pin, Items::from_vec(blocks), 0, false));
    }
    if pin.is_passing() {
        let (blocks, turns) = pass(alloc, &pin, bench.cancellation())?;
        return Ok(Answer::new(pin, Items::from_vec(blocks), turns, true));
    }
    let evaluated = evaluate(alloc, bench, &pin, None);
    bench.clear(alloc);
    let (blocks, turns, went_on, _) = evaluated?;
    Ok(Answer::new(pin, Items::from_vec(blocks), turns, went_on))
}

/// The blocks of a pin that asks for no instant.
pub(crate) fn nothing_asked(alloc: Global, pin: &Pin) -> Vec<Block>
    requires { pin.now.from ≡ pin.now.next }
    ensures { IsAnswer (record { pin = pin.now; blocks = result.items; turns = 0 }) }
{
    let _ = pin.windows();
    Runs::new(alloc, pin.from()).finish()
}

/// The blocks of a pin that asks for an instant, at how many instants the relation was computed, whether
/// the bench went on, and what is kept of the relation for a later pin. The bench stands for what was kept
/// of an earlier one, if anything was.
pub(crate) fn evaluate<O: Operator>(
    alloc: Global,
    bench: &mut BenchOf<O>,
    pin: &Pin,
    kept: Option<LastAnswer>,
) -> Result<(Vec<Block>, u64, bool, Option<LastTold>), AllocError>
    requires asked { pin.now.from < pin.now.next }
    requires kept { IfSome kept (λ k. StandsBehind k bench.old) }
    ensures answer { IfOk result (λ r. IsAnswer (record { pin = pin.now; blocks = r.0.items; turns = r.1 })) }
    ensures kept { IfOk result (λ r. IfSome r.3 (λ last. IsKept pin.now last bench.new)) }
{
    let end = pin.next();
    let mut runs = Runs::new(alloc, pin.from());
    let instants = later_changes(alloc, pin)?;
    let mut left = instants.as_slice();
    let mut rows = Room::new(alloc);
    let until = next_of(left, end);
    let told_before = bench.told();
    let (mut shown, went_on) = begin(alloc, bench, pin, kept, &mut runs, &mut rows, until)?;
    let mut lists = first_list(pin, &runs, &shown.last);
    bench.look(told_before, lists, left.len())?;
    while let Some((_, later)) = left.split_first() {
        left = later;
        let until = next_of(left, end);
        change(alloc, bench, pin, &mut shown, &mut runs, &mut rows, until)?;
        lists = lists.saturating_add(bench.listed(shown.last.bag.size()));
        bench.look(told_before, lists, left.len())?;
    }
    let last = remember(alloc, bench, pin, shown);
    Ok((runs.finish(), 1 + instants.len() as u64, went_on, last))
}

// How many bytes the list takes that is told at the first instant, if one is. Kinds that tell no relation
// whole keep no rows.
fn first_list(pin: &Pin, runs: &Runs, last: &LastTold) -> u64 {
    if runs.next() == pin.from() || last.fault.is_some() {
        return 0;
    }
    last.bag.size().saturating_mul(size_of::<Row>() as u64)
}

// The instants from the first one at which a window's content may change, in whatever order.
fn candidates(alloc: Global, pin: &Pin) -> Result<Vec<u64>, AllocError>
    ensures within { IfOk result (λ v. All (λ t. (first_change pin.now ≤ t) × (t < pin.now.next)) v.items) }
    ensures few { IfOk result (λ v. length v.items ≤ 2 * rows_in pin.now.windows) }
    ensures every { IfOk result (λ v. (t : ℕ) → first_change pin.now ≤ t → t < pin.now.next → Contains v.items t ⊎ AreSame t pin.now.windows) }
{
    let first = pin.from().max(pin.base() + 1);
    let mut instants = Vec::new(alloc);
    for window in pin.windows() {
        let mut more = changes(alloc, window, first, pin.next())?;
        instants.append(&mut more)?;
    }
    Ok(instants)
}

// The instants at which the relation may change after it was computed once.
pub(crate) fn later_changes(alloc: Global, pin: &Pin) -> Result<Vec<u64>, AllocError>
    ensures few { IfOk result (λ v. length v.items ≤ 2 * rows_in pin.now.windows) }
    ensures left { IfOk result (λ v. AreLeft pin.now (first_change pin.now) v.items) }
{
    let mut instants = candidates(alloc, pin)?;
    instants.sort()?;
    instants.dedup();
    Ok(instants)
}

// The next of some instants, or the end.
pub(crate) fn next_of(left: &[u64], end: u64) -> u64
    ensures { result ≡ next_of left.now end }
{
    match left.first() {
        Some(instant) => *instant,
        None => end,
    }
}

// Whether the whole relation is told at each instant.
fn tells_whole(kind: OutputKind) -> bool
    ensures { IsTrue result ↔ (kind ≡ Rstream) }
{
    matches!(kind, OutputKind::Rstream)
}

// Nothing changes before an instant. Rstream then tells what it told, with nothing made anew.
pub(crate) fn hold(
    alloc: Global,
    pin: &Pin,
    last: &LastTold,
    runs: &mut Runs,
    until: u64,
) -> Result<(), AllocError>
    requires { IsStill pin.now runs.old.next until }
    ensures next { OnOk result (runs.new.next ≡ until) }
    ensures stand { OnOk result ((told : Counts) → StandsFor pin.now.plan.output last.now told (relation_at pin.now runs.old.next) → StandFor (output_at pin.now) pin.now.from runs.old → StandFor (output_at pin.now) pin.now.from runs.new) }
{
    let next = runs.next();
    let kind = pin.plan().output();
    if next >= until {
        return Ok(());
    }
    if tells_whole(kind) && pin.from() < next {
        runs.lengthen(until - 1);
        return Ok(());
    }
    let told = same_output(alloc, kind, last)?;
    runs.push(next, until - 1, told)?;
    Ok(())
}

// Takes what was told at the next instant, if anything was; else nothing changes there either.
fn take_told(pin: &Pin, runs: &mut Runs, told: Option<Output>, until: u64) -> Result<(), AllocError>
    requires still { IsStill pin.now (runs.old.next + 1) until }
    requires told { Tells pin.now.plan.output told (relation_at pin.now runs.old.next) (relation_at pin.now (runs.old.next + 1)) }
    requires stand { StandFor (output_at pin.now) pin.now.from runs.old }
    ensures still { OnOk result (IsStill pin.now runs.new.next until) }
    ensures same { OnOk result (relation_at pin.now runs.new.next ≡ relation_at pin.now (runs.old.next + 1)) }
    ensures stand { OnOk result (StandFor (output_at pin.now) pin.now.from runs.new) }
{
    let at = runs.next();
    let kind = pin.plan().output();
    let Some(told) = told else {
        return Ok(());
    };
    // Rstream tells the same at each later instant too.
    let to = match kind {
        OutputKind::Rstream => until - 1,
        _ => at,
    };
    runs.push(at, to, told)?;
    Ok(())
}

// Something may change at the next instant, and then nothing before a later one. `rows` is room, of which
// nothing is said.
#[inline(always)]
fn change<'a, O: Operator>(
    alloc: Global,
    bench: &mut BenchOf<O>,
    pin: &'a Pin,
    shown: &mut WalkState<'a>,
    runs: &mut Runs,
    rows: &mut Room,
    until: u64,
) -> Result<(), AllocError>
    requires come { HasCome pin.now runs.old.next runs.old shown.old.walks.items shown.old.last bench.old }
    requires still { IsStill pin.now (runs.old.next + 1) until }
    ensures { OnOk result (HasCome pin.now until runs.new shown.new.walks.items shown.new.last bench.new) }
{
    let at = runs.next();
    let walks = &mut shown.walks;
    let outcome = reach(alloc, bench, pin, walks, at + 1, &mut rows.changes)?;
    let told = tell(alloc, pin.plan().output(), &mut shown.last, outcome, rows)?;
    take_told(pin, runs, told, until)?;
    hold(alloc, pin, &shown.last, runs, until)
}

// The relation before the first instant that is asked for, which stays up to a later one, and whether
// the bench goes on: it does where it stands for that relation, and is started anew else. At the base
// there is none, and the base itself comes first.
fn begin<'a, O: Operator>(
    alloc: Global,
    bench: &mut BenchOf<O>,
    pin: &'a Pin,
    kept: Option<LastAnswer>,
    runs: &mut Runs,
    rows: &mut Room,
    until: u64,
) -> Result<(WalkState<'a>, bool), AllocError>
    requires kept { IfSome kept (λ k. StandsBehind k bench.old) }
    requires next { runs.old.next ≡ pin.now.from }
    requires still { IsStill pin.now (first_change pin.now) until }
    requires stand { StandFor (output_at pin.now) pin.now.from runs.old }
    ensures { IfOk result (λ r. HasCome pin.now until runs.new r.0.walks.items r.0.last bench.new) }
{
    if let Some(kept) = kept {
        if let Some(resumed) = resume(alloc, bench, pin, kept)? {
            hold(alloc, pin, &resumed.last, runs, until)?;
            return Ok((resumed, true));
        }
    }
    let mut shown = nothing_shown(alloc, bench, pin)?;
    if pin.base() < pin.from() {
        open(alloc, bench, pin, &mut shown, pin.from())?;
        hold(alloc, pin, &shown.last, runs, until)?;
        return Ok((shown, false));
    }
    change(alloc, bench, pin, &mut shown, runs, rows, until)?;
    Ok((shown, false))
}
