// Calls of the crates below the core that no line reaches, and values that none brings there.
use cql_bag::Bag;
use cql_value::{Items, Name, Row, Text, TryClone, Value};
use std::alloc::Global;
use std::test::Fail;

// A value of a table.
#[derive(Clone, Copy)]
enum Cell {
    Number(i64),
    Text(&'static str),
}

fn value(alloc: Global, cell: Cell) -> Result<Value, Fail> {
    match cell {
        Cell::Number(number) => Ok(Value::Number(number)),
        Cell::Text(text) => Ok(Value::Text(Text::new(alloc, text)?)),
    }
}

fn row(alloc: Global, cells: &[Cell]) -> Result<Row, Fail> {
    let mut values = Vec::new(alloc);
    for cell in cells {
        values.push(value(alloc, *cell)?)?;
    }
    Ok(Row::new(alloc, values)?)
}

// Rows in ascending order. Those of a stream are all of its columns' types.
fn ascending() -> &'static [&'static [Cell]] {
    &[
        &[],
        &[Cell::Number(-3)],
        &[Cell::Number(2), Cell::Text("")],
        &[Cell::Number(10), Cell::Number(7)],
        &[Cell::Number(10), Cell::Text("b")],
        &[Cell::Text("a")],
        &[Cell::Text("ab")],
    ]
}

fn rows(alloc: Global, table: &[&[Cell]]) -> Result<Vec<Row>, Fail> {
    let mut rows = Vec::new(alloc);
    for cells in table {
        rows.push(row(alloc, cells)?)?;
    }
    Ok(rows)
}

#[test]
fn order_of_rows(rt: HostRuntime) -> Result<(), Fail> {
    let rows = rows(rt.alloc(), ascending())?;
    for (i, a) in rows.iter().enumerate() {
        for (j, b) in rows.iter().enumerate() {
            assert_eq!(rt; a.cmp(b), i.cmp(&j));
            assert_eq!(rt; a == b, i == j);
        }
    }
    Ok(())
}

fn names(alloc: Global) -> Result<Items<Option<Name>>, Fail> {
    let name = Name::read(alloc, "k")?;
    Ok(Items::from_vec(vec![in alloc; None, Some(name)]?))
}

#[test]
fn copies_of_names(rt: HostRuntime) -> Result<(), Fail> {
    let alloc = rt.alloc();
    assert_eq!(rt; names(alloc)?.try_clone(alloc)?.len(), 2);
    Ok(())
}

fn row_of(alloc: Global, number: i64) -> Result<Row, Fail> {
    row(alloc, &[Cell::Number(number)])
}

// The bag of rows of one number each.
fn bag(alloc: Global, numbers: &[i64]) -> Result<Bag, Fail> {
    let mut bag = Bag::new(alloc);
    for number in numbers {
        bag.add(row_of(alloc, *number)?)?;
    }
    Ok(bag)
}

// Whether the bag has rows of these numbers, each so often, and no others.
fn has(alloc: Global, bag: &Bag, wanted: &[(i64, u64)]) -> Result<bool, Fail> {
    let mut size = 0u64;
    for (number, times) in wanted {
        if bag.count(&row_of(alloc, *number)?) != *times {
            return Ok(false);
        }
        size = size.saturating_add(*times);
    }
    Ok(bag.size() == size)
}

#[test]
fn bags_of_bags(rt: HostRuntime) -> Result<(), Fail> {
    let alloc = rt.alloc();
    let bag = bag(alloc, &[1, 1, 2, 5])?;
    let other = self::bag(alloc, &[1, 3, 5, 5])?;
    let copy = bag.try_clone(alloc)?;
    assert!(rt; has(alloc, &copy, &[(1, 2), (2, 1), (5, 1)])?);
    let once = bag.distinct(alloc)?;
    assert!(rt; has(alloc, &once, &[(1, 1), (2, 1), (5, 1)])?);
    let sum = bag.plus(alloc, &other)?;
    assert!(rt; has(alloc, &sum, &[(1, 3), (2, 1), (3, 1), (5, 3)])?);
    Ok(())
}

// A bag has room for 2^63 - 1 rows and not for one more.
#[test]
fn a_full_bag(rt: HostRuntime) -> Result<(), Fail> {
    let alloc = rt.alloc();
    let mut bag = Bag::new(alloc);
    bag.add_times(row_of(alloc, 1)?, 9_223_372_036_854_775_807)?;
    assert!(rt; bag.add(row_of(alloc, 2)?).is_err());
    assert!(rt; has(alloc, &bag, &[(1, 9_223_372_036_854_775_807), (2, 0)])?);
    Ok(())
}
