// A stub goes to a later cursor.
ghost use Rattle.std.specs.Prelude.{◌≡◌, ◌⊎◌, [], ◌≤◌, ◌<◌, ◌+◌, ◌-◌, ◌^◌, ◌++◌, IfOk, OnErr, length, drop, take, nat_le, false};
ghost use Rattle.std.specs.List.{prefix_len};
ghost use Rattle.cql_window.specs.Coming.{with_all};
ghost use Rattle.cql_window.specs.Laws.{HasNoParts};
ghost use Rattle.cql_window.specs.Bounds.{end_in};
ghost use Rattle.cql_window.specs.Window.{AreAscending, count_before, front_len, kept, last_of_parts};
ghost use Rattle.cql_store.specs.Held.{advanced, HasParts, CanAdvance, IsReady, pinned};
ghost use Rattle.cql_store.specs.Sequence.{shown, shifted, greatest, IsSound, IsSoundAfter};

use crate::kept_parts::KeptParts;
use crate::stub::{Stub, StubRows};
use cql_chunks::Chunks;
use cql_value::{Timed, TryClone};
use cql_window::{Count, Window, WindowPin, end_in, newest_of_parts, whole_slides};
use std::alloc::{AllocError, Global};

// All rows are made anew where more come than such a share of those that are kept.
const SHARE: usize = 10;

// How many rows of a stretch came before the end. They are in the order of their times: it looks at
// a few rows alone.
fn rows_between(rows: &Chunks, from: usize, to: usize, end: u64) -> usize
    requires order { from ≤ to }
    requires within { to ≤ length rows.now }
    requires ascending { AreAscending (drop from rows.now) }
    ensures value { result ≡ count_before end (take (to - from) (drop from rows.now)) }
    ensures within { from + result ≤ to }
{
    let mut low = from;
    let mut high = to;
    while low < high {
        let middle = low + (high - low) / 2;
        if rows.get(middle).at() < end {
            low = middle + 1;
        } else {
            high = middle;
        }
    }
    low - from
}

// How many rows from an index on came before the end.
fn rows_before(rows: &Chunks, from: usize, end: u64) -> usize
    requires within { from ≤ length rows.now }
    requires ascending { AreAscending (drop from rows.now) }
    ensures value { result ≡ count_before end (drop from rows.now) }
    ensures small { from + result < 2 ^ 63 }
{
    rows_between(rows, from, rows.len(), end)
}

// How many of the rows between two indices are older than what a range of so many ticks reaches,
// which is seen up to before the end.
fn rows_past(rows: &Chunks, from: usize, to: usize, ticks: u64, end: u64) -> usize
    requires order { from ≤ to }
    requires within { to ≤ length rows.now }
    requires ascending { AreAscending (drop from rows.now) }
    requires short { ticks < 2 ^ 62 }
    ensures { result ≡ prefix_len (λ x. nat_le (x.at + ticks + 2) end) (take (to - from) (drop from rows.now)) }
{
    rows_between(rows, from, to, end.saturating_sub(ticks + 1))
}

// The index of the first row that the window doesn't look at yet at the cursor, by the rows' times.
// Only rows from where it was counted to are looked at.
fn counted_at(stub: &Stub, rows: &Chunks, gone: usize, to: u64) -> usize
    requires sound { IsSound rows.now (shifted gone stub.now) }
    requires later { stub.now.cursor ≤ to }
    ensures value { let read_to = stub.now.read_to - gone in result ≡ read_to + count_before (end_in stub.now.window to) (drop read_to rows.now) }
    ensures order { stub.now.read_to - gone ≤ result }
    ensures within { result ≤ length rows.now }
{
    let end = end_in(&stub.window, to);
    let counted = stub.counted.saturating_sub(gone);
    counted + rows_before(rows, counted, end)
}

// How many rows more the window sees at the cursor, where it sees them up to an index, and they are
// counted to another.
fn ahead_of(window: &Window, rows: &Chunks, read_to: usize, counted: usize, to: u64) -> usize
    requires order { read_to ≤ counted }
    requires within { counted ≤ length rows.now }
    requires counted { counted ≡ read_to + count_before (end_in window.now to) (drop read_to rows.now) }
    ensures value { result ≡ front_len window.now to (drop read_to rows.now) }
    ensures within { read_to + result ≤ counted }
{
    whole_slides(window, counted - read_to)
}

// How many rows of a stretch a window keeps no more at the cursor.
fn passed(window: &Window, rows: &Chunks, first: usize, read_to: usize, to: u64) -> usize
    requires order { first ≤ read_to }
    requires within { read_to ≤ length rows.now }
    requires ascending { AreAscending (drop first rows.now) }
    ensures value { let held = take (read_to - first) (drop first rows.now) in HasNoParts window.now → kept window.now to held ≡ drop result held }
    ensures parts { HasParts window.now → result ≡ read_to - first }
    ensures bound { result ≤ read_to - first }
{
    match window {
        Window::Range { length, .. } => {
            let end = end_in(window, to);
            rows_past(rows, first, read_to, length.get(), end)
        }
        Window::Rows { count, .. } => (read_to - first).saturating_sub(count.get() as usize),
        Window::All => 0,
        Window::Parts { .. } => read_to - first,
    }
}

/// The stub's sequence numbers at a later cursor, with the rows that it is to keep itself.
pub(crate) fn go_to(stub: &mut Stub, rows: &Chunks, gone: usize, to: u64, kept: StubRows)
    requires sound { IsSound rows.now (shifted gone stub.old) }
    requires ready { IsReady to kept (shown rows.now (shifted gone stub.old)) }
    requires fits { gone + length rows.now ≤ greatest }
    ensures content { shown rows.now (shifted gone stub.new) ≡ advanced to (shown rows.now (shifted gone stub.old)) }
    ensures sound { IsSoundAfter rows.now gone stub.new }
    ensures live { stub.new.overrun ≡ false }
{
    let counted = counted_at(stub, rows, gone, to);
    let read_to = stub.read_to.saturating_sub(gone);
    let read_to = read_to + ahead_of(&stub.window, rows, read_to, counted, to);
    let first = stub.first.saturating_sub(gone);
    let first = first + passed(&stub.window, rows, first, read_to, to);
    stub.kept = kept;
    stub.cursor = to;
    stub.counted = gone + counted;
    stub.read_to = gone + read_to;
    stub.first = gone + first;
}

// The kept rows after so many of the store's, from an index on. They are made beside the kept ones,
// with which they share all but a few nodes for each row that comes.
fn after(
    alloc: Global,
    kept: &StubRows,
    columns: &[usize],
    count: Count,
    rows: &Chunks,
    from: usize,
    ahead: usize,
) -> Result<KeptParts, AllocError>
    requires within { from + ahead ≤ length rows.now }
    requires fits { from + ahead < 2 ^ 64 }
    ensures { IfOk result (λ k. k ≡ with_all columns.now count kept.now (take ahead (drop from rows.now))) }
{
    let mut own = kept.parts(alloc, columns)?;
    for row in rows.range(from, from + ahead) {
        own = own.come(alloc, columns, count, row)?;
    }
    Ok(own)
}

// The kept rows, and then so many of the store's. All are shared.
fn joined(
    alloc: Global,
    kept: &StubRows,
    rows: &Chunks,
    from: usize,
    ahead: usize,
) -> Result<Vec<Timed>, AllocError>
    requires within { from + ahead ≤ length rows.now }
    requires fits { from + ahead < 2 ^ 64 }
    ensures { IfOk result (λ r. r.items ≡ kept.now ++ take ahead (drop from rows.now)) }
{
    let mut all = Vec::new(alloc);
    kept.push_rows(&mut all)?;
    for row in rows.range(from, from + ahead) {
        all.push(row.try_clone()?)?;
    }
    Ok(all)
}

// The newest of the kept rows and so many of the store's, by a look at all of them.
fn anew(
    alloc: Global,
    kept: &StubRows,
    columns: &[usize],
    count: Count,
    rows: &Chunks,
    from: usize,
    ahead: usize,
) -> Result<KeptParts, AllocError>
    requires within { from + ahead ≤ length rows.now }
    requires fits { from + ahead < 2 ^ 64 }
    ensures { IfOk result (λ k. k ≡ last_of_parts columns.now count (kept.now ++ take ahead (drop from rows.now))) }
{
    let all = joined(alloc, kept, rows, from, ahead)?;
    let newest = newest_of_parts(alloc, columns, count, &all)?;
    KeptParts::of(alloc, columns, newest)
}

// The kept rows after so many more: one by one, or all anew where that takes less time.
fn behind(
    alloc: Global,
    kept: &StubRows,
    columns: &[usize],
    count: Count,
    rows: &Chunks,
    from: usize,
    ahead: usize,
) -> Result<KeptParts, AllocError>
    requires within { from + ahead ≤ length rows.now }
    requires fits { from + ahead < 2 ^ 64 }
    requires newest { last_of_parts columns.now count kept.now ≡ kept.now }
    requires some { 0 < count }
    ensures { IfOk result (λ k. k ≡ with_all columns.now count kept.now (take ahead (drop from rows.now))) }
{
    if ahead <= kept.len() / SHARE {
        after(alloc, kept, columns, count, rows, from, ahead)
    } else {
        anew(alloc, kept, columns, count, rows, from, ahead)
    }
}

/// The rows that a stub is to keep itself at a later cursor. Where it passes none they are those
/// that it has, and none is looked at.
pub(crate) fn kept_at(
    alloc: Global,
    stub: &Stub,
    rows: &Chunks,
    gone: usize,
    to: u64,
) -> Result<StubRows, AllocError>
    requires sound { IsSound rows.now (shifted gone stub.now) }
    requires can { CanAdvance to (shown rows.now (shifted gone stub.now)) }
    ensures ok { IfOk result (λ kept. IsReady to kept (shown rows.now (shifted gone stub.now))) }
    ensures err { OnErr result (HasParts stub.now.window) }
{
    match &stub.window {
        Window::Parts { columns, count } => {
            let counted = counted_at(stub, rows, gone, to);
            let read_to = stub.read_to.saturating_sub(gone);
            let ahead = ahead_of(&stub.window, rows, read_to, counted, to);
            if ahead == 0 {
                return stub.kept.share();
            }
            stub.window.keeps_bounds();
            let columns = columns.as_slice();
            let kept = behind(alloc, &stub.kept, columns, *count, rows, read_to, ahead)?;
            Ok(StubRows::of(kept))
        }
        _ => Ok(StubRows::new()),
    }
}

// What a stub that isn't overrun holds of the content: the rows that it keeps itself, or the
// store's.
fn settled_of(
    alloc: Global,
    kept: &StubRows,
    rows: &Chunks,
    first: usize,
    read_to: usize,
) -> Result<Chunks, AllocError>
    requires order { first ≤ read_to }
    requires within { read_to ≤ length rows.now }
    requires either { (kept.now ≡ []) ⊎ (first ≡ read_to) }
    ensures { IfOk result (λ r. r ≡ kept.now ++ take (read_to - first) (drop first rows.now)) }
{
    if kept.len() == 0 {
        rows.part(alloc, first, read_to)
    } else {
        kept.rows(alloc)
    }
}

/// The stub's content, and its unseen rows before an instant.
pub(crate) fn pin_of(
    alloc: Global,
    stub: &Stub,
    rows: &Chunks,
    gone: usize,
    until: u64,
) -> Result<WindowPin, AllocError>
    requires sound { IsSound rows.now (shifted gone stub.now) }
    requires live { stub.now.overrun ≡ false }
    ensures { IfOk result (λ p. p ≡ pinned until (shown rows.now (shifted gone stub.now))) }
{
    let window = stub.window.try_clone(alloc)?;
    let first = stub.first.saturating_sub(gone);
    let read_to = stub.read_to.saturating_sub(gone);
    let content = settled_of(alloc, &stub.kept, rows, first, read_to)?;
    let ahead = rows_before(rows, read_to, until);
    let unseen = rows.part(alloc, read_to, read_to + ahead)?;
    Ok(WindowPin::new(window, content, unseen))
}
