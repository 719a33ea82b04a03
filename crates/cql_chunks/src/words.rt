// The times and numbers of rows, side by side.
ghost use Rattle.std.specs.Prelude.{◌≡◌, ◌↔◌, ◌++◌, IfSome, IsTrue};
ghost use Rattle.cql_chunks.specs.Beside.{words_in, AreNumbers, IsBeside};

use cql_value::{Timed, Value};
use std::alloc::Global;

// Rows with more words than these have none beside them: so many take half of what a row of as many numbers takes
// by itself, and of wider ones the words would weigh more than what is saved where they are compared.
const MOST_WORDS: usize = 4;

/// Whether both have the same words. All of them are looked at, several at a time.
pub(crate) fn are_equal(a: &[i64], b: &[i64]) -> bool
    ensures { IsTrue result ↔ (a.now ≡ b.now) }
{
    if a.len() != b.len() {
        return false;
    }
    let mut same = true;
    for i in 0..a.len() {
        same &= a[i] == b[i];
    }
    same
}

// Adds a row's words, if all its values are numbers, its time is below 2^63 and there is memory.
fn push_words(words: &mut Vec<i64>, row: &Timed) -> Option<()>
    ensures numbers { IfSome result (λ _. AreNumbers row.now.row) }
    ensures words { IfSome result (λ _. words.new.items ≡ words.old.items ++ words_in row.now) }
{
    let at = i64::try_from(row.at()).ok()?;
    words.push(at).ok()?;
    for value in row.row().values() {
        let Value::Number(number) = value else {
            return None;
        };
        words.push(*number).ok()?;
    }
    Some(())
}

/// How many words each of the rows has, and all of their words, if they have as many each. There are
/// none where a value is a text or a time isn't below 2^63, where rows have more than three values, where
/// there are no rows, and without memory.
pub(crate) fn words_of(alloc: Global, rows: &[Timed]) -> Option<(usize, Vec<i64>)>
    ensures { IfSome result (λ r. IsBeside r.0 r.1.items rows.now) }
{
    let values = rows.first()?.row().len();
    if values >= MOST_WORDS {
        return None;
    }
    let width = values + 1;
    let mut words = Vec::with_capacity(alloc, width.checked_mul(rows.len())?).ok()?;
    for row in rows {
        if row.row().len() != values {
            return None;
        }
        push_words(&mut words, row)?;
    }
    Some((width, words))
}
