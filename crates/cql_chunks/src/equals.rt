// Whether two lists of rows are the same.
ghost use Rattle.std.specs.Prelude.{◌≡◌, ◌↔◌, [], ◌++◌, IsTrue};

use crate::run::Run;
use crate::stretch::Stretch;

// The next rows that lie together of a run, and of two stretches after it: none only where no row
// is left.
fn next_run<'a>(run: Run<'a>, first: &mut Stretch<'a>, second: &mut Stretch<'a>) -> Run<'a>
    ensures rows { result ++ (first.new ++ second.new) ≡ run.entry ++ (first.old ++ second.old) }
    ensures none { result ≡ [] → first.new ++ second.new ≡ [] }
{
    if !run.is_empty() {
        return run;
    }
    let run = first.take_run();
    if !run.is_empty() {
        return run;
    }
    second.take_run()
}

/// Whether two stretches after one another have the same rows, in order, as two others. Takes no
/// memory.
pub fn are_joined_equal<'a, 'b>(
    one: (Stretch<'a>, Stretch<'a>),
    other: (Stretch<'b>, Stretch<'b>),
) -> bool
    ensures { IsTrue result ↔ (one.entry.0 ++ one.entry.1 ≡ other.entry.0 ++ other.entry.1) }
{
    let (mut first, mut second) = one;
    let (mut third, mut fourth) = other;
    let mut left: Run<'a> = Run::plain(&[]);
    let mut right: Run<'b> = Run::plain(&[]);
    loop {
        left = next_run(left, &mut first, &mut second);
        right = next_run(right, &mut third, &mut fourth);
        let count = left.len().min(right.len());
        if count == 0 {
            return left.is_empty() && right.is_empty();
        }
        if !left.begins_as(&right, count) {
            return false;
        }
        left = left.behind(count);
        right = right.behind(count);
    }
}
