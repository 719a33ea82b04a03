// Windows split at a cursor, which no line asks for: a store moves its stubs row by row.
use cql_value::{Items, Row, Text, Timed, Value};
use cql_window::{Count, Length, Window, charge, split};
use std::alloc::Global;
use std::test::Fail;

const GREATEST: u64 = 4611686018427387903;

fn range(length: u64, slide: u64) -> Option<Window> {
    Some(Window::Range {
        length: Length::new(length)?,
        slide: Count::new(slide)?,
    })
}

fn rows(count: u64, slide: u64) -> Option<Window> {
    Some(Window::Rows {
        count: Count::new(count)?,
        slide: Count::new(slide)?,
    })
}

// A row of its number and its key.
fn row(alloc: Global, number: i64, key: &str) -> Result<Row, Fail> {
    let key = Value::Text(Text::new(alloc, key)?);
    Ok(Row::new(alloc, vec![in alloc; Value::Number(number), key]?)?)
}

// A row for each time and key, numbered from 0.
fn numbered(alloc: Global, elements: &[(u64, &str)]) -> Result<Vec<Timed>, Fail> {
    let mut rows = Vec::new(alloc);
    let mut number = 0i64;
    for (time, key) in elements {
        let row = row(alloc, number, key)?;
        rows.push(Timed::new(*time, row))?;
        number = number.saturating_add(1);
    }
    Ok(rows)
}

// Whether the rows have these numbers, in this order.
fn are(rows: &[Timed], numbers: &[i64]) -> bool {
    let mut left = numbers;
    for row in rows {
        let Some((number, more)) = left.split_first() else {
            return false;
        };
        match row.row().values().first() {
            Some(Value::Number(n)) if n == number => {}
            _ => return false,
        }
        left = more;
    }
    left.is_empty()
}

// Whether the window has this content and these rows beyond its front, by their numbers.
fn splits(
    alloc: Global,
    window: Option<Window>,
    elements: &[(u64, &str)],
    cursor: u64,
    content: &[i64],
    unseen: &[i64],
) -> Result<bool, Fail> {
    let Some(window) = window else {
        return Ok(false);
    };
    let rows = numbered(alloc, elements)?;
    let (held, rest) = split(alloc, &window, Vec::new(alloc), rows, cursor)?;
    let size = content.len() as u64 + unseen.len() as u64;
    Ok(are(&held, content) && are(&rest, unseen) && charge(&held, &rest) == size)
}

#[test]
fn slides_split(rt: HostRuntime) -> Result<(), Fail> {
    let alloc = rt.alloc();
    let elements = [(1, "a"), (4, "a"), (6, "a")];
    assert!(rt; splits(alloc, range(3, 5), &elements, 10, &[1], &[2])?);
    let elements = [(1, "a"), (2, "a"), (3, "a")];
    assert!(rt; splits(alloc, rows(2, 2), &elements, 4, &[0, 1], &[2])?);
    let elements = [(3, "a"), (3, "a")];
    assert!(rt; splits(alloc, rows(1, 1), &elements, 4, &[1], &[])?);
    Ok(())
}

#[test]
fn the_greatest_numbers_split(rt: HostRuntime) -> Result<(), Fail> {
    let alloc = rt.alloc();
    let end = GREATEST + 1;
    let elements = [(0, "a"), (GREATEST - 1, "a"), (GREATEST, "a")];
    assert!(rt; splits(alloc, range(0, 1), &elements, end, &[2], &[])?);
    let steady = range(GREATEST, GREATEST);
    assert!(rt; splits(alloc, steady, &elements, end, &[0, 1, 2], &[])?);
    let steady = range(GREATEST, GREATEST);
    assert!(rt; splits(alloc, steady, &elements, GREATEST, &[0], &[1, 2])?);
    let steps = rows(GREATEST, GREATEST);
    assert!(rt; splits(alloc, steps, &elements, end, &[], &[0, 1, 2])?);
    assert!(rt; splits(alloc, Some(Window::All), &elements, GREATEST, &[0, 1], &[2])?);
    Ok(())
}

#[test]
fn parts_of_a_text_split(rt: HostRuntime) -> Result<(), Fail> {
    let alloc = rt.alloc();
    let elements = [(1, "x"), (1, "y"), (2, "x"), (3, "y")];
    let columns = Items::from_slice(alloc, &[1])?;
    let window = Count::new(1).map(|count| Window::Parts { columns, count });
    assert!(rt; splits(alloc, window, &elements, 3, &[1, 2], &[3])?);
    Ok(())
}
