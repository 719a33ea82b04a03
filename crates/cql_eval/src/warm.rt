// A bench that goes on from its last answer.
ghost use Rattle.std.specs.Prelude.{◌≡◌, ◌<◌, IfOk, IfSome, IsTrue, map};
ghost use Rattle.std.specs.Arc.{arc_value};
ghost use Rattle.cql_ops.specs.Bench.{BenchModel};
ghost use Rattle.cql_eval.specs.Projected.{reached, started, projected_windows};
ghost use Rattle.cql_eval.specs.Shown.{bags_held, IsShown};
ghost use Rattle.cql_eval.specs.Warm.{IsKept, StandsBehind, Meets};

use crate::answered::Answer;
use crate::evaluate::{evaluate, nothing_asked};
use crate::pin::Pin;
use crate::projected_walk::ProjectedWalk;
use crate::query_key::QueryKey;
use crate::shown::{LastTold, WalkState, ask, keep};
use crate::walks::{advance, retreat};
use cql_bag::Room;
use cql_ops::{BenchOf, Cancellation, Operator, PLACE};
use cql_value::Items;
use cql_window::Window;
use std::alloc::{AllocError, Global};
use std::marker::Model;
use std::sync::Arc;

/// Of windows with more rows in all nothing is kept.
pub const MOST: usize = 1 << 18;

// So many rows are always pushed before a bench is started anew.
const FEW: usize = 4096;

// So many rows are always taken back, since a start costs something, too.
const FEW_BACK: usize = 64;

/// What is kept of an answer: its pin, which the answer shares, and what is kept of the relation at
/// the pin's end.
pub struct LastAnswer {
    pin: Arc<Pin>,
    last: LastTold,
}

impl Drop for LastAnswer {
    fn drop(self) {
        let LastAnswer { pin: _, last: _ } = self;
    }
}

impl Model for LastAnswer {
    ghost use Rattle.cql_plan.specs.contracts.expr.Expr as expr;
    ghost use Rattle.cql_plan.specs.contracts.condition.Condition as condition;
    ghost use Rattle.std.specs.Coded.{codes};
    ghost use Rattle.std.specs.Arc.{arc_value};
    ghost use Rattle.cql_eval.specs.Kept.{LastAnswerModel};

    ghost Value = { LastAnswerModel };

    ghost coded = { Prim.hlevel (codes, expr.the_row.coded, condition.the_row.coded) };

    ghost view = { λ k. record { pin = arc_value k.pin; last = k.last } };
}

impl LastAnswer {
    fn pin(&self) -> &Pin
        ensures { result.now ≡ self.now.pin }
    {
        &self.pin
    }

    // How many times at most rows come or leave as a bench is taken back to where a pin begins.
    fn rows_back(&self, pin: &Pin) -> usize {
        if pin.from() < self.pin.next() {
            self.pin.counts().1.saturating_mul(2)
        } else {
            0
        }
    }

    fn into_last(self) -> LastTold
        ensures { result ≡ self.last }
    {
        let LastAnswer { pin: _, last } = self;
        last
    }
}

/// A bench that answers pins in turn. Where a pin begins on the last one's way, that is where its
/// windows hold at its first cursor what those of the last one held there, the bench goes on, taken
/// back from the last one's end, unless that costs more than what the windows hold; else it is started
/// anew. Contracts see what it keeps of its last answer, which the bench stands for, and what that weighs.
pub struct Warm<O: Operator> {
    bench: BenchOf<O>,
    kept: Option<LastAnswer>,
    // About how many bytes it keeps since it was put back last.
    weight: u64,
    // No more rows were pushed since the operators were started.
    pushed: usize,
    // When it was put back, in seconds.
    used: u64,
}

impl<O: Operator> Drop for Warm<O> {
    fn drop(self) {
        let Warm {
            bench: _,
            kept: _,
            weight: _,
            pushed: _,
            used: _,
        } = self;
    }
}

impl<O: Operator> Model for Warm<O> {
    ghost use Rattle.cql_plan.specs.contracts.expr.Expr as expr;
    ghost use Rattle.cql_plan.specs.contracts.condition.Condition as condition;
    ghost use Rattle.std.specs.Coded.{codes};
    ghost use Rattle.std.specs.Prelude.{IfSome};
    ghost use Rattle.cql_eval.specs.Warm.{WarmModel, StandsBehind};

    ghost Value = { WarmModel };

    ghost coded = { Prim.hlevel (codes, expr.the_row.coded, condition.the_row.coded) };

    ghost view = { λ w. record { bench = w.bench; kept = w.kept; weight = w.weight } };

    ghost invariant = { λ w. IfSome w.kept (λ k. StandsBehind k w.bench) };
}

impl<O: Operator> Warm<O> {
    /// A bench that stands for nothing.
    pub fn new(bench: BenchOf<O>) -> Warm<O> {
        Warm {
            bench,
            kept: None,
            weight: 0,
            pushed: 0,
            used: 0,
        }
    }

    /// About how many bytes it keeps since it was put back last.
    pub fn weight(&self) -> u64
        ensures { result ≡ self.now.weight }
    {
        self.weight
    }

    /// Whether it stands for what is kept of an answer.
    pub fn goes_on(&self) -> bool {
        self.kept.is_some()
    }

    /// The flag by which an answer of its is given up.
    pub fn cancellation(&self) -> &Cancellation {
        self.bench.cancellation()
    }

    // It is put back at a time, in seconds.
    pub(crate) fn used_at(&mut self, now: u64)
        ensures { self.new ≡ self.old }
    {
        self.used = now;
    }

    // What is kept is forgotten, and the operators hold on to their rows: it stands for nothing.
    pub(crate) fn forget(&mut self) {
        self.kept = None;
    }

    // The key of the query that it stands for, if it stands for a pin: benches of pins of no query have one key.
    pub(crate) fn key(&self) -> Option<QueryKey> {
        match &self.kept {
            Some(kept) => Some(kept.pin().key()),
            None => None,
        }
    }

    // Whether it was put back before the time.
    pub(crate) fn is_older(&self, since: u64) -> bool {
        self.used < since
    }

    // Whether the query that it stands for is gone.
    pub(crate) fn is_forsaken(&self) -> bool {
        matches!(&self.kept, Some(kept) if kept.pin().is_forsaken())
    }

    /// Lets go of what is kept, and of the rows that the operators hold.
    pub fn clear(&mut self, alloc: Global) {
        self.kept = None;
        self.weight = 0;
        self.bench.clear(alloc);
    }

    // Keeps what stands for the relation at the end of a pin, where that isn't too large; else the
    // operators let go of their rows.
    fn keep(&mut self, alloc: Global, pin: &Arc<Pin>, last: Option<LastTold>)
        requires { IfSome last (λ r. IsKept (arc_value pin.now) r self.old.bench) }
    {
        self.kept = kept_of(pin, last, self.pushed, self.bench.is_past());
        let Some(kept) = &self.kept else {
            self.weight = 0;
            self.bench.clear(alloc);
            return;
        };
        let places = kept.last.bag.size().saturating_mul(PLACE);
        let rows = self.bench.weight().saturating_add(pin.weight_to_come());
        // what is kept weighs something, whatever is counted
        self.weight = rows.saturating_add(places).max(1);
    }

    /// The blocks of a pin, as `answer` gives them. Without memory the pin is given up, and what was
    /// kept too; and so they are where the bench's flag is set meanwhile, as by `answer`.
    pub fn answer(&mut self, alloc: Global, pin: Pin) -> Result<Answer, AllocError>
        ensures { IfOk result (λ a. a.pin ≡ pin) }
    {
        let pin = Arc::new(alloc, pin)?;
        self.answer_shared(alloc, pin)
    }

    // As `answer`, of a pin that may be shared.
    pub(crate) fn answer_shared(
        &mut self,
        alloc: Global,
        pin: Arc<Pin>,
    ) -> Result<Answer, AllocError>
        ensures { IfOk result (λ a. a.pin ≡ arc_value pin) }
    {
        self.bench.cancellation().clear();
        let asked: &Pin = &pin;
        if asked.asks_nothing() {
            let blocks = nothing_asked(alloc, asked);
            return Ok(Answer::new(pin, Items::from_vec(blocks), 0, false));
        }
        let kept = match self.kept.take() {
            Some(kept) if kept.rows_back(asked) <= asked.counts().0.max(FEW_BACK) => Some(kept),
            _ => None,
        };
        let before = match &kept {
            Some(kept) => self.pushed.saturating_add(kept.rows_back(asked)),
            None => 0,
        };
        let (held, unseen) = asked.counts();
        // of the rows that are held the bench has those already
        let held = if kept.is_some() { 0 } else { held };
        self.pushed = before
            .saturating_add(held)
            .saturating_add(unseen.saturating_mul(2));
        match evaluate(alloc, &mut self.bench, asked, kept) {
            Ok((blocks, turns, went_on, last)) => {
                self.keep(alloc, &pin, last);
                Ok(Answer::new(pin, Items::from_vec(blocks), turns, went_on))
            }
            Err(AllocError) => {
                self.keep(alloc, &pin, None);
                Err(AllocError)
            }
        }
    }
}

// What is kept of a pin and the relation at its end, where no window is one of parts, with which no
// pin goes on, where its windows have no more rows than `MOST`, and where no more were pushed than a start
// over these would be worth, in rows and in bytes: operators may keep a change for each.
fn kept_of(
    pin: &Arc<Pin>,
    last: Option<LastTold>,
    pushed: usize,
    is_past: bool,
) -> Option<LastAnswer>
    ensures { IfSome result (λ k. (o : BenchModel) → IfSome last (λ r. IsKept (arc_value pin.now) r o) → StandsBehind k o) }
{
    let last = last?;
    if is_past {
        return None;
    }
    for window in pin.windows() {
        if matches!(window.window(), Window::Parts { .. }) {
            return None;
        }
    }
    let (held, unseen) = pin.counts();
    let rows = held.saturating_add(unseen);
    if rows > MOST || pushed > rows.saturating_mul(4).saturating_add(FEW) {
        return None;
    }
    match Arc::try_clone(pin) {
        Ok(pin) => Some(LastAnswer { pin, last }),
        Err(AllocError) => None,
    }
}

// A walk over each window, at a cursor or before the first row.
pub(crate) fn walks_at<'a>(
    alloc: Global,
    pin: &'a Pin,
    cursor: Option<u64>,
) -> Result<Vec<ProjectedWalk<'a>>, AllocError>
    ensures { IfOk result (λ v. v.items ≡ map (started cursor) (projected_windows pin.now)) }
{
    let inputs = pin.plan().inputs();
    let windows = pin.windows();
    let mut walks = Vec::new(alloc);
    for input in 0..windows.len() {
        let projection = inputs[input].projection.as_slice();
        let walk = ProjectedWalk::at(alloc, &windows[input], projection, cursor)?;
        walks.push(walk)?;
    }
    Ok(walks)
}

// Whether walks hold what others do, each in its place.
fn are_held_same<'a, 'b>(first: &[ProjectedWalk<'a>], second: &[ProjectedWalk<'b>]) -> bool
    ensures { IsTrue result → bags_held first.now ≡ bags_held second.now }
{
    if first.len() != second.len() {
        return false;
    }
    for input in 0..first.len() {
        if !first[input].holds_same(&second[input]) {
            return false;
        }
    }
    true
}

// The walks over a pin at its first cursor, where the kept one holds the same there, on its way or at
// its end.
fn walks_from<'a>(
    alloc: Global,
    pin: &'a Pin,
    kept: &LastAnswer,
) -> Result<Option<Vec<ProjectedWalk<'a>>>, AllocError>
    ensures meets { IfOk result (λ r. IfSome r (λ walks. Meets kept.now pin.now)) }
    ensures walks { IfOk result (λ r. IfSome r (λ walks. walks.items ≡ map (reached pin.now.from) (projected_windows pin.now))) }
{
    let before = kept.pin();
    let begins = pin.from();
    if begins <= pin.base() || !before.has(begins) || !before.has_plan_of(pin) {
        return Ok(None);
    }
    let held = walks_at(alloc, before, Some(begins))?;
    let walks = walks_at(alloc, pin, Some(begins))?;
    if are_held_same(&held, &walks) {
        Ok(Some(walks))
    } else {
        Ok(None)
    }
}

// What is kept of the relation before a pin's first instant, on the way of the kept one: the bench is
// taken back there from that one's end.
fn go_back<O: Operator>(
    alloc: Global,
    bench: &mut BenchOf<O>,
    pin: &Pin,
    walks: &[ProjectedWalk<'_>],
    kept: LastAnswer,
) -> Result<LastTold, AllocError>
    requires kept { StandsBehind kept bench.old }
    requires meets { Meets kept pin.now }
    requires walks { walks.now ≡ map (reached pin.now.from) (projected_windows pin.now) }
    ensures { IfOk result (λ last. IsShown pin.now pin.now.from walks.now last bench.new) }
{
    let begins = pin.from();
    let before = kept.pin();
    if begins == before.next() {
        return Ok(kept.into_last());
    }
    retreat(alloc, bench, before, begins)?;
    let mut rows = Room::new(alloc);
    let outcome = ask(alloc, bench, pin, walks, begins, &mut rows.changes)?;
    let mut last = kept.into_last();
    keep(alloc, pin.plan().output(), &mut last, outcome, &mut rows)?;
    Ok(last)
}

/// What is shown of a pin before the first instant that is asked for, where the bench stands for an
/// earlier pin that holds the same there, on its way or at its end.
pub(crate) fn resume<'a, O: Operator>(
    alloc: Global,
    bench: &mut BenchOf<O>,
    pin: &'a Pin,
    kept: LastAnswer,
) -> Result<Option<WalkState<'a>>, AllocError>
    requires kept { StandsBehind kept bench.old }
    ensures based { IfOk result (λ r. IfSome r (λ s. pin.now.base < pin.now.from)) }
    ensures shown { IfOk result (λ r. IfSome r (λ s. IsShown pin.now pin.now.from s.walks.items s.last bench.new)) }
{
    let Some(walks) = walks_from(alloc, pin, &kept)? else {
        return Ok(None);
    };
    let last = go_back(alloc, bench, pin, &walks, kept)?;
    Ok(Some(WalkState { walks, last }))
}

/// What is kept of the relation, once all instants of a pin were gone through: the walks go on to
/// the pin's end, where nothing more comes. None where that finds no memory.
pub(crate) fn remember<O: Operator>(
    alloc: Global,
    bench: &mut BenchOf<O>,
    pin: &Pin,
    shown: WalkState<'_>,
) -> Option<LastTold>
    requires based { pin.now.base < pin.now.next }
    requires shown { IsShown pin.now pin.now.next shown.walks.items shown.last bench.old }
    ensures { IfSome result (λ last. IsKept pin.now last bench.new) }
{
    let (mut walks, last) = shown.into_parts();
    match advance(alloc, bench, pin, &mut walks, pin.next()) {
        Ok(()) => Some(last),
        Err(AllocError) => None,
    }
}
