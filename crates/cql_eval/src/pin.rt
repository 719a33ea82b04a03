// What an answer is made of.
ghost use Rattle.std.specs.Prelude.{◌≡◌, ◌≢◌, ◌↔◌, ◌<◌, ◌≤◌, ◌^◌, false, IsTrue};
ghost use Rattle.std.specs.Arc.{arc_value};
ghost use Rattle.cql_plan.specs.Ports.{IsPlain};
ghost use Rattle.cql_plan.specs.declared.plan.OutputKind.TheVariants.{Rstream};
ghost use Rattle.cql_eval.specs.Pin.{IsPin};

use crate::query_key::{NO_QUERY, QueryKey};
use cql_ops::element_weight;
use cql_plan::{OutputKind, Plan};
use cql_value::slices_equal;
use cql_window::WindowPin;
use std::marker::Model;
use std::sync::Arc;

// So many rows at most are weighed one by one: the others are taken to be as these.
const WEIGHED: usize = 1024;

/// A query with the rows of its inputs that its windows need, and the instants that are asked for.
/// It shares its plan and its rows with what it was taken out of.
pub struct Pin {
    plan: Arc<Plan>,
    base: u64,
    from: u64,
    next: u64,
    limit: u64,
    windows: Vec<WindowPin>,
    // what tells its query from others, and how many others hold its plan as long as that can be fetched
    key: QueryKey,
    holders: usize,
}

impl Drop for Pin {
    fn drop(self) {
        let Pin {
            plan: _,
            base: _,
            from: _,
            next: _,
            limit: _,
            windows: _,
            key: _,
            holders: _,
        } = self;
    }
}

impl Model for Pin {
    ghost use Rattle.cql_plan.specs.contracts.expr.Expr as expr;
    ghost use Rattle.cql_plan.specs.contracts.condition.Condition as condition;
    ghost use Rattle.std.specs.Coded.{codes};
    ghost use Rattle.std.specs.Arc.{arc_value};
    ghost use Rattle.cql_eval.specs.Pin.{PinModel, IsPin};

    ghost Value = { PinModel };

    ghost coded = { Prim.hlevel (codes, expr.the_row.coded, condition.the_row.coded) };

    ghost view = { λ p. record { plan = arc_value p.plan; base = p.base; from = p.from; next = p.next; limit = p.limit; windows = p.windows.items } };

    ghost invariant = { λ p. IsPin (record { plan = arc_value p.plan; base = p.base; from = p.from; next = p.next; limit = p.limit; windows = p.windows.items }) };
}

impl Pin {
    /// The query of this plan, whose relation is empty before the instant `base` and whose joined
    /// bags have at most `limit` rows, asked for the instants from `from` to before `next`, over
    /// one window for each input of the plan. Instants are in ticks.
    pub fn new(
        plan: Arc<Plan>,
        base: u64,
        from: u64,
        next: u64,
        limit: u64,
        windows: Vec<WindowPin>,
    ) -> Pin
        requires { IsPin (record { plan = arc_value plan; base = base; from = from; next = next; limit = limit; windows = windows.items }) }
        ensures { result ≡ record { plan = arc_value plan; base = base; from = from; next = next; limit = limit; windows = windows.items } }
    {
        Pin {
            plan,
            base,
            from,
            next,
            limit,
            windows,
            key: NO_QUERY,
            holders: 1,
        }
    }

    /// The same, of the query of this key. So many others hold its plan as long as that can be fetched, and fewer
    /// from then on. A new pin is of no query, and one other holds its plan.
    pub fn of_query(self, key: QueryKey, holders: usize) -> Pin
        ensures { result ≡ self }
    {
        let mut pin = self;
        pin.key = key;
        pin.holders = holders;
        pin
    }

    // What tells its query from others.
    pub(crate) fn key(&self) -> QueryKey {
        self.key
    }

    /// What the query computes.
    pub fn plan(&self) -> &Plan
        ensures value { result.now ≡ self.now.plan }
        ensures pin { IsPin self.now }
    {
        &self.plan
    }

    /// The first instant of the query's relation, in ticks.
    pub fn base(&self) -> u64
        ensures { result ≡ self.now.base }
    {
        self.base
    }

    /// The first instant that is asked for, in ticks.
    pub fn from(&self) -> u64
        ensures value { result ≡ self.now.from }
        ensures pin { IsPin self.now }
    {
        self.from
    }

    // Whether its plan tells what comes into one window and leaves it, row for row: then nothing of an
    // earlier answer is needed.
    pub(crate) fn is_passing(&self) -> bool
        ensures { IsTrue result → IsPlain self.now.plan × (self.now.plan.output ≢ Rstream) }
    {
        !matches!(self.plan.output(), OutputKind::Rstream) && self.plan.is_plain()
    }

    // Whether it asks for no instant.
    pub(crate) fn asks_nothing(&self) -> bool
        ensures nothing { IsTrue result → self.now.from ≡ self.now.next }
        ensures some { result ≡ false → self.now.from < self.now.next }
    {
        self.from == self.next
    }

    // Whether a bench answers it that may go on: where something is asked that no window tells as it is.
    pub(crate) fn needs_bench(&self) -> bool {
        !self.asks_nothing() && !self.is_passing()
    }

    // Whether a cursor is from the first instant on, up to behind the last.
    pub(crate) fn has(&self, cursor: u64) -> bool
        ensures { IsTrue result → cursor ≤ self.now.next }
    {
        self.from <= cursor && cursor <= self.next
    }

    /// The instant after the last that is asked for, in ticks.
    pub fn next(&self) -> u64
        ensures value { result ≡ self.now.next }
        ensures bound { result ≤ 2 ^ 62 }
    {
        self.next
    }

    /// How many rows a joined bag of the query may have.
    pub fn limit(&self) -> u64
        ensures { result ≡ self.now.limit }
    {
        self.limit
    }

    /// The windows, one for each input of the plan, in order.
    pub fn windows(&self) -> &[WindowPin]
        ensures value { result.now ≡ self.now.windows }
        ensures pin { IsPin self.now }
    {
        self.windows.as_slice()
    }

    /// How many rows its windows hold before the first instant that is asked for, and how many come
    /// after these.
    pub(crate) fn counts(&self) -> (usize, usize) {
        let mut held: usize = 0;
        let mut unseen: usize = 0;
        for window in self.windows() {
            held = held.saturating_add(window.content().len());
            unseen = unseen.saturating_add(window.unseen().len());
        }
        (held, unseen)
    }

    /// About how many bytes the rows have that are in its windows from its end on, and that no bench was
    /// told.
    pub(crate) fn weight_to_come(&self) -> u64 {
        let mut bytes: u64 = 0;
        for window in self.windows() {
            bytes = bytes.saturating_add(weight_from(window, self.next));
        }
        bytes
    }

    /// Whether fewer others hold its plan: then its query was dropped, or lost a stream. Of one that was
    /// taken out twice it isn't known.
    pub(crate) fn is_forsaken(&self) -> bool {
        Arc::strong_count(&self.plan) <= self.holders
    }

    /// Whether another pin is of the same plan, with the same limit. Takes no memory.
    pub(crate) fn has_plan_of(&self, other: &Pin) -> bool
        ensures { IsTrue result → (self.now.plan ≡ other.now.plan) × (self.now.limit ≡ other.now.limit) }
    {
        self.limit == other.limit && self.plan.is_equal(&other.plan)
    }

    /// Whether it is that pin: the same plan, instants and limit, over the same windows. Takes no
    /// memory.
    pub fn is_equal(&self, other: &Pin) -> bool
        ensures { IsTrue result ↔ (self.now ≡ other.now) }
    {
        self.base == other.base
            && self.from == other.from
            && self.next == other.next
            && self.limit == other.limit
            && slices_equal(&self.windows, &other.windows)
            && self.plan.is_equal(&other.plan)
    }
}

// About how many bytes the rows of a window have that come at an instant or later. They are looked at from
// the last one on.
fn weight_from(window: &WindowPin, instant: u64) -> u64 {
    let rows = window.unseen();
    let many = rows.len();
    let few = many.min(WEIGHED);
    let mut bytes: u64 = 0;
    for back in 0..few {
        let element = rows.get(many - 1 - back);
        if element.at() < instant {
            return bytes;
        }
        bytes = bytes.saturating_add(element_weight(element.row()));
    }
    if few == many {
        return bytes;
    }
    (bytes / WEIGHED as u64).saturating_mul(many as u64)
}
