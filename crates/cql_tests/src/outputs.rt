// Outputs of rows of numbers, and blocks of them.
use cql_core::{Block, Output};
use cql_value::{Items, Row, Value};
use std::alloc::{AllocError, Global};

/// An output of rows of one number each.
#[derive(Clone, Copy)]
pub(crate) enum Numbers {
    /// Rows.
    Rows(&'static [i64]),
    /// The rows that came, and those that went.
    Signed(&'static [i64], &'static [i64]),
}

/// A block: its ends, and the numbers of its rows.
pub(crate) type Told = (u64, u64, Numbers);

fn rows(alloc: Global, numbers: &[i64]) -> Result<Items<Row>, AllocError> {
    let mut rows = Vec::new(alloc);
    for number in numbers {
        rows.push(Row::new(alloc, vec![in alloc; Value::Number(*number)]?)?)?;
    }
    Ok(Items::from_vec(rows))
}

fn output(alloc: Global, numbers: Numbers) -> Result<Output, AllocError> {
    match numbers {
        Numbers::Rows(numbers) => Ok(Output::Rows(rows(alloc, numbers)?)),
        Numbers::Signed(plus, minus) => {
            let plus = rows(alloc, plus)?;
            let minus = rows(alloc, minus)?;
            Ok(Output::Signed { plus, minus })
        }
    }
}

fn is_block(alloc: Global, block: &Block, told: &Told) -> Result<bool, AllocError> {
    let wanted = output(alloc, told.2)?;
    Ok(block.from == told.0 && block.to == told.1 && block.output.is(&wanted))
}

pub(crate) fn are_blocks(
    alloc: Global,
    blocks: &[Block],
    told: &[Told],
) -> Result<bool, AllocError> {
    for (block, told) in blocks.iter().zip(told) {
        if !is_block(alloc, block, told)? {
            return Ok(false);
        }
    }
    Ok(blocks.len() == told.len())
}
