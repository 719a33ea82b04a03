// A walk over the rows of a pin.
ghost use Rattle.std.specs.Prelude.{◌≡◌, ◌≤◌, ◌+◌, ◌++◌, List, [], take, length, IfOk, IfSome, IsTrue, OnOk};
ghost use Rattle.std.specs.List.{AllByRecursion};
ghost use Rattle.std.specs.List.Sorted.{IsPermutation};
ghost use Rattle.cql_value.specs.Element.{Element};
ghost use Rattle.cql_window.specs.declared.window.Window.TheVariants.{Parts};
ghost use Rattle.cql_window.specs.Laws.{between};
ghost use Rattle.cql_window.specs.Pin.{HasColumns, IsPinned};
ghost use Rattle.cql_window.specs.Bounds.{AreUpTo, HasQueues, held_between};
ghost use Rattle.cql_window.specs.Queues.{AreQueued};
ghost use Rattle.cql_window.specs.Span.{rows_of, rows_in, rows_left, IsWithin};
ghost use Rattle.cql_window.specs.Window.{content, last_of_parts};
ghost use Rattle.cql_window.specs.Walk.{IsExchange};

use crate::amount::Count;
use crate::bounds::{Ahead, Bounds, segment};
use crate::queues::Queues;
use crate::span::{Moved, Part, Span};
use crate::window::Window;
use crate::window_pin::WindowPin;
use cql_chunks::{Stretch, are_joined_equal};
use cql_value::{Equals, Timed};
use std::alloc::{AllocError, Global};
use std::marker::Model;

/// Goes from cursor to cursor over the rows of a pin: each row comes once and leaves once.
pub struct Walk<'a> {
    pin: &'a WindowPin,
    cursor: u64,
    bounds: Bounds,
    queues: Queues,
    ahead: Ahead<'a>,
}

impl<'a> Drop for Walk<'a> {
    fn drop(self) {
        let Walk {
            pin: _,
            cursor: _,
            bounds: _,
            queues: _,
            ahead: _,
        } = self;
    }
}

impl<'a> Model for Walk<'a> {
    ghost use Rattle.std.specs.Prelude.{◌++◌};
    ghost use Rattle.cql_window.specs.Walk.{Walked};
    ghost use Rattle.cql_window.specs.Bounds.{held_between, IsReached, HasAhead};

    ghost Value = { Walked };

    ghost view = { λ w. record { pin = w.pin.now; cursor = w.cursor; held = held_between w.pin.now.window w.bounds (w.pin.now.content ++ w.pin.now.unseen) } };

    ghost invariant = { λ w. IsReached w.pin.now w.cursor w.bounds w.queues × HasAhead w.pin.now w.bounds w.ahead.coming.now w.ahead.staying.now };
}

impl<'a> Walk<'a> {
    /// Before the first row.
    pub fn new(alloc: Global, pin: &'a WindowPin) -> Walk<'a>
        ensures { result ≡ record { pin = pin.now; cursor = 0; held = [] } }
    {
        let _rows = pin.content().len() + pin.unseen().len();
        Walk {
            pin,
            cursor: 0,
            bounds: Bounds::start(),
            queues: Queues::new(alloc),
            ahead: Ahead::none(),
        }
    }

    /// Goes on to a cursor that isn't below the one that was reached, and gives the rows that came and
    /// left on the way: the window then holds its content at the cursor. A row that came and left on
    /// the way may be among both. Without parts no row is copied, and no memory is taken. Without
    /// memory the walk is before its first row again.
    pub fn advance(&mut self, alloc: Global, cursor: u64) -> Result<Moved, AllocError>
        requires { self.old.cursor ≤ cursor }
        ensures pin { self.new.pin ≡ self.old.pin }
        ensures cursor { OnOk result (self.new.cursor ≡ cursor) }
        ensures held { OnOk result (self.new.held ≡ content self.old.pin.window cursor self.old.pin.content self.old.pin.unseen) }
        ensures moved { IfOk result (λ m. IsExchange self.old.held (rows_in m.came (rows_of self.old.pin)) (rows_left m (rows_of self.old.pin)) self.new.held) }
        ensures came { IfOk result (λ m. IsWithin m.came (rows_of self.old.pin)) }
        ensures left { IfOk result (λ m. IsWithin m.left (rows_of self.old.pin)) }
    {
        let (to, ahead) = self.bounds.at(self.pin, self.ahead, cursor);
        match move_on(alloc, self.pin, &mut self.queues, self.bounds, to) {
            Ok(moved) => {
                self.cursor = cursor;
                self.bounds = to;
                self.ahead = ahead;
                Ok(moved)
            }
            Err(AllocError) => {
                self.cursor = 0;
                self.bounds = Bounds::start();
                self.queues = Queues::new(alloc);
                self.ahead = Ahead::none();
                Err(AllocError)
            }
        }
    }

    // What the window holds where it has no parts, as one part of the rows and the next.
    fn parts_held(&self) -> Option<(Stretch<'_>, Stretch<'_>)>
        ensures { IfSome result (λ r. r.0 ++ r.1 ≡ self.now.held) }
    {
        match self.pin.window() {
            Window::Parts { .. } => None,
            _ => Some(segment(
                self.pin.content(),
                self.pin.unseen(),
                self.bounds.low,
                self.bounds.high,
            )),
        }
    }

    /// Whether both hold the same rows, in order. It may say no of windows with parts. Takes no
    /// memory.
    pub fn holds_same(&self, other: &Walk<'_>) -> bool
        ensures { IsTrue result → self.now.held ≡ other.now.held }
    {
        match (self.parts_held(), other.parts_held()) {
            (Some(held), Some(others)) => are_joined_equal(held, others),
            _ => false,
        }
    }

    /// A list's rows, and then those between two indices of the pin. None is copied.
    pub fn rows<'b>(&'b self, near: &'b [Timed], span: Span) -> Part<'b>
        requires { IsWithin span (rows_of self.now.pin) }
        ensures { result ≡ near.now ++ rows_in span (rows_of self.now.pin) }
    {
        Part::new(near, self.pin, span)
    }

    /// What the window holds at the cursor, in some order. The rows are shared. Takes as many steps
    /// as there are.
    pub fn held(&self, alloc: Global) -> Result<Vec<Timed>, AllocError>
        ensures { IfOk result (λ r. IsPermutation r.items self.now.held) }
    {
        match self.pin.window() {
            Window::Parts { .. } => self.queues.rows(alloc),
            _ => rows_between(alloc, self.pin, self.bounds.low, self.bounds.high),
        }
    }
}

// The rows from one index to another. They are shared.
fn rows_between(
    alloc: Global,
    pin: &WindowPin,
    from: usize,
    to: usize,
) -> Result<Vec<Timed>, AllocError>
    requires order { from ≤ to }
    requires within { to ≤ length pin.now.content + length pin.now.unseen }
    ensures rows { IfOk result (λ r. r.items ≡ between from to (pin.now.content ++ pin.now.unseen)) }
    ensures pinned { IsPinned pin.now }
{
    let _ = pin.window();
    let mut rows = Vec::with_capacity(alloc, to - from)?;
    for row in Part::new(&[], pin, Span { from, to }) {
        rows.push(row.try_clone()?)?;
    }
    Ok(rows)
}

// What comes and leaves where a window goes from some bounds to later ones: the queues of one of parts
// are then those of the rows that came.
fn move_on(
    alloc: Global,
    pin: &WindowPin,
    queues: &mut Queues,
    from: Bounds,
    to: Bounds,
) -> Result<Moved, AllocError>
    requires rising { AreUpTo from to }
    requires order { from.low ≤ from.high }
    requires order_then { to.low ≤ to.high }
    requires within { to.high ≤ length pin.now.content + length pin.now.unseen }
    requires queued { HasQueues pin.now.window (take from.high (pin.now.content ++ pin.now.unseen)) queues.old }
    ensures pinned { IsPinned pin.now }
    ensures queued { OnOk result (HasQueues pin.now.window (take to.high (pin.now.content ++ pin.now.unseen)) queues.new) }
    ensures came { IfOk result (λ m. IsWithin m.came (rows_of pin.now)) }
    ensures left { IfOk result (λ m. IsWithin m.left (rows_of pin.now)) }
    ensures moved { IfOk result (λ m. IsExchange (held_between pin.now.window from (rows_of pin.now)) (rows_in m.came (rows_of pin.now)) (rows_left m (rows_of pin.now)) (held_between pin.now.window to (rows_of pin.now))) }
{
    match pin.window() {
        Window::Parts { columns, count } => {
            let columns = columns.as_slice();
            come(alloc, pin, columns, *count, queues, from.high, to.high)
        }
        _ => Ok(slide(alloc, pin, from, to)),
    }
}

// What comes and leaves where a window without parts goes from some bounds to later ones.
fn slide(alloc: Global, _pin: &WindowPin, from: Bounds, to: Bounds) -> Moved
    requires rising { AreUpTo from to }
    requires order { from.low ≤ from.high }
    requires order_then { to.low ≤ to.high }
    requires within { to.high ≤ length _pin.now.content + length _pin.now.unseen }
    ensures came { IsWithin result.came (rows_of _pin.now) }
    ensures left { IsWithin result.left (rows_of _pin.now) }
    ensures moved { IsExchange (between from.low from.high (rows_of _pin.now)) (rows_in result.came (rows_of _pin.now)) (rows_left result (rows_of _pin.now)) (between to.low to.high (rows_of _pin.now)) }
{
    let came = Span {
        from: to.low.max(from.high),
        to: to.high,
    };
    let left = Span {
        from: from.low,
        to: to.low.min(from.high),
    };
    Moved {
        came,
        left,
        gone: Vec::new(alloc),
    }
}

// The rows that leave a window of parts where these rows come, one after another.
fn pushed_out(
    alloc: Global,
    columns: &[usize],
    count: Count,
    queues: &mut Queues,
    rows: &[Timed],
) -> Result<Vec<Timed>, AllocError>
    requires { AllByRecursion (HasColumns (Parts columns.now count)) rows.now }
    ensures queued { OnOk result ((came : List Element) → AreQueued columns.now count came queues.old → AreQueued columns.now count (came ++ rows.now) queues.new) }
    ensures left { IfOk result (λ left. (came : List Element) → AreQueued columns.now count came queues.old → IsExchange (last_of_parts columns.now count came) rows.now left.items (last_of_parts columns.now count (came ++ rows.now))) }
{
    let mut left = Vec::new(alloc);
    for row in rows {
        if let Some(gone) = queues.come(alloc, columns, count, row)? {
            left.push(gone)?;
        }
    }
    Ok(left)
}

// What comes and leaves where a window of parts goes from one index to another: its queues are then
// those of the rows that came.
fn come(
    alloc: Global,
    pin: &WindowPin,
    columns: &[usize],
    count: Count,
    queues: &mut Queues,
    from: usize,
    to: usize,
) -> Result<Moved, AllocError>
    requires window { pin.now.window ≡ Parts columns.now count }
    requires queued { AreQueued columns.now count (take from (pin.now.content ++ pin.now.unseen)) queues.old }
    requires order { from ≤ to }
    requires within { to ≤ length pin.now.content + length pin.now.unseen }
    ensures queued { OnOk result (AreQueued columns.now count (take to (pin.now.content ++ pin.now.unseen)) queues.new) }
    ensures came { IfOk result (λ m. IsWithin m.came (rows_of pin.now)) }
    ensures left { IfOk result (λ m. IsWithin m.left (rows_of pin.now)) }
    ensures moved { IfOk result (λ m. IsExchange (last_of_parts columns.now count (take from (rows_of pin.now))) (rows_in m.came (rows_of pin.now)) (rows_left m (rows_of pin.now)) (last_of_parts columns.now count (take to (rows_of pin.now)))) }
{
    let came = rows_between(alloc, pin, from, to)?;
    let gone = pushed_out(alloc, columns, count, queues, &came)?;
    Ok(Moved {
        came: Span { from, to },
        left: Span::none(),
        gone,
    })
}
