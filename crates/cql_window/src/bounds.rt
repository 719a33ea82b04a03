// How far a walk over the rows of a pin has gone. A row's index counts the content and then the
// unseen rows.
ghost use Rattle.std.specs.Prelude.{◌≡◌, ◌≤◌, ◌<◌, ◌+◌, ◌^◌, ◌++◌, [], nat_le, drop, length};
ghost use Rattle.std.specs.List.{prefix_len};
ghost use Rattle.cql_window.specs.Laws.{between};
ghost use Rattle.cql_window.specs.Bounds.{bounds_at, AreUpTo, HasAhead, IsFront};
ghost use Rattle.cql_window.specs.Span.{rows_of};
ghost use Rattle.cql_window.specs.Window.{count_before};

use crate::content::{end_in, rows_before, whole_slides};
use crate::span::{Part, Span};
use crate::window::Window;
use crate::window_pin::WindowPin;
use cql_chunks::{Chunks, Stretch};
use cql_value::Timed;

/// The bounds that were reached. They only rise.
#[derive(Clone, Copy)]
pub(crate) struct Bounds {
    /// How many of the unseen rows came before the end.
    pub(crate) seen: usize,
    /// The index before which rows have left.
    pub(crate) low: usize,
    /// The index before which rows have come.
    pub(crate) high: usize,
}

impl Bounds {
    /// Before the first row.
    pub(crate) fn start() -> Bounds
        ensures { result ≡ record { seen = 0; low = 0; high = 0 } }
    {
        Bounds {
            seen: 0,
            low: 0,
            high: 0,
        }
    }

    /// The bounds at a cursor, where these are not behind them, and rows ahead of them: only rows from
    /// these on are looked at, and first those that are known.
    pub(crate) fn at<'a>(
        self,
        pin: &'a WindowPin,
        ahead: Ahead<'a>,
        cursor: u64,
    ) -> (Bounds, Ahead<'a>)
        requires later { AreUpTo self (bounds_at pin.now cursor) }
        requires ahead { HasAhead pin.now self ahead.coming.now ahead.staying.now }
        ensures value { result.0 ≡ bounds_at pin.now cursor }
        ensures ahead { HasAhead pin.now result.0 result.1.coming.now result.1.staying.now }
    {
        let window = pin.window();
        let end = end_in(window, cursor);
        let (seen, coming) = seen_before(pin, ahead.coming, self.seen, end);
        let high = pin.content().len() + whole_slides(window, seen);
        let none: &'a [Timed] = &[];
        let (low, staying) = match window {
            Window::Range { length, .. } => {
                past_before(pin, ahead.staying, self.low, length.get(), end)
            }
            Window::Rows { count, .. } => (high.saturating_sub(count.get() as usize), none),
            _ => (0, none),
        };
        (Bounds { seen, low, high }, Ahead { coming, staying })
    }
}

/// Rows ahead of the bounds, known before they are needed: so most steps of a walk look none up.
#[derive(Clone, Copy)]
pub(crate) struct Ahead<'a> {
    /// Unseen ones that haven't come.
    pub(crate) coming: &'a [Timed],
    /// Some that haven't left.
    pub(crate) staying: &'a [Timed],
}

impl<'a> Ahead<'a> {
    /// None is known.
    pub(crate) fn none() -> Ahead<'a>
        ensures coming { result.coming.now ≡ [] }
        ensures staying { result.staying.now ≡ [] }
    {
        Ahead {
            coming: &[],
            staying: &[],
        }
    }
}

/// The rows of the content and the unseen ones after them, from one index to another, as the part
/// of each.
pub(crate) fn segment<'a>(
    content: &'a Chunks,
    unseen: &'a Chunks,
    from: usize,
    to: usize,
) -> (Stretch<'a>, Stretch<'a>)
    requires order { from ≤ to }
    requires within { to ≤ length content.now + length unseen.now }
    ensures rows { result.0 ++ result.1 ≡ between from to (content.now ++ unseen.now) }
    ensures size { from + (length result.0 + length result.1) ≡ to }
{
    let settled = content.len();
    let first = content.range(from.min(settled), to.min(settled));
    let second = unseen.range(from.saturating_sub(settled), to.saturating_sub(settled));
    (first, second)
}

// How many of the rows came before the end.
fn came_before(rows: Part<'_>, end: u64) -> usize
    requires { length rows < 2 ^ 64 }
    ensures { result ≡ count_before end rows.entry }
{
    rows.take_while(|row| row.at() < end).count()
}

// The same of the rows from an index on.
fn came_from(pin: &WindowPin, from: usize, end: u64) -> usize
    requires { from ≤ length (rows_of pin.now) }
    ensures { result ≡ count_before end (drop from (rows_of pin.now)) }
{
    let to = pin.content().len() + pin.unseen().len();
    came_before(Part::new(&[], pin, Span { from, to }), end)
}

// Rows from an index on.
fn front_at(pin: &WindowPin, from: usize) -> &[Timed]
    requires { from ≤ length (rows_of pin.now) }
    ensures { IsFront from result.now (rows_of pin.now) }
{
    let to = pin.content().len() + pin.unseen().len();
    if from < to { pin.near(from, to) } else { &[] }
}

// The index behind the rows from an index on that came before the end, and rows from there on, where
// such rows are known, and more are behind them.
fn go_beyond(pin: &WindowPin, from: usize, end: u64) -> (usize, &[Timed])
    requires from { from ≤ length (rows_of pin.now) }
    requires few { length (rows_of pin.now) < 2 ^ 64 }
    ensures index { result.0 ≡ from + count_before end (drop from (rows_of pin.now)) }
    ensures front { IsFront result.0 result.1.now (rows_of pin.now) }
{
    let to = from + came_from(pin, from, end);
    (to, front_at(pin, to))
}

// The same, where some of the rows from the index on are known.
#[inline(always)]
fn go_on<'a>(pin: &'a WindowPin, front: &'a [Timed], from: usize, end: u64) -> (usize, &'a [Timed])
    requires from { from ≤ length (rows_of pin.now) }
    requires front { IsFront from front.now (rows_of pin.now) }
    requires few { length (rows_of pin.now) < 2 ^ 64 }
    ensures index { result.0 ≡ from + count_before end (drop from (rows_of pin.now)) }
    ensures front { IsFront result.0 result.1.now (rows_of pin.now) }
{
    let count = rows_before(front, end);
    if count < front.len() {
        (from + count, &front[count..])
    } else {
        go_beyond(pin, from + count, end)
    }
}

// How many rows a range of so many ticks, seen up to before the end, no longer reaches, where there
// are so many at least, and rows from there on.
fn past_before<'a>(
    pin: &'a WindowPin,
    front: &'a [Timed],
    least: usize,
    ticks: u64,
    end: u64,
) -> (usize, &'a [Timed])
    requires short { ticks < 2 ^ 62 }
    requires least { least ≤ prefix_len (λ x. nat_le (x.at + ticks + 2) end) (rows_of pin.now) }
    requires front { IsFront least front.now (rows_of pin.now) }
    requires few { length (rows_of pin.now) < 2 ^ 64 }
    ensures value { result.0 ≡ prefix_len (λ x. nat_le (x.at + ticks + 2) end) (rows_of pin.now) }
    ensures front { IsFront result.0 result.1.now (rows_of pin.now) }
{
    go_on(pin, front, least, end.saturating_sub(ticks + 1))
}

// How many of the unseen rows came before the end, where so many did at least, and rows from there on.
fn seen_before<'a>(
    pin: &'a WindowPin,
    front: &'a [Timed],
    least: usize,
    end: u64,
) -> (usize, &'a [Timed])
    requires least { least ≤ count_before end pin.now.unseen }
    requires front { IsFront (length pin.now.content + least) front.now (rows_of pin.now) }
    requires few { length (rows_of pin.now) < 2 ^ 64 }
    ensures value { result.0 ≡ count_before end pin.now.unseen }
    ensures within { result.0 ≤ length pin.now.unseen }
    ensures front { IsFront (length pin.now.content + result.0) result.1.now (rows_of pin.now) }
{
    let settled = pin.content().len();
    let (index, front) = go_on(pin, front, settled + least, end);
    (index - settled, front)
}
