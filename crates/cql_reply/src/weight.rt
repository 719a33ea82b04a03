//! What blocks weigh.

use cql_algebra::{Block, Output};
use cql_value::{Row, Value};

// So many bytes are counted at most: the walk over blocks is short, however many rows they have.
const MOST: usize = 64 << 20;

// The bytes of a block, of a row beside its values, and of a value.
const BLOCK: usize = 64;

const ROW: usize = 64;

const VALUE: usize = 16;

// The most bytes of a row's texts: those of a line. A text that a row tells several times is there once.
const TEXTS: usize = 65_536;

/// How many bytes of memory blocks keep, at most and about: rows, their values and texts, counted up to
/// 64 MiB.
pub fn weight_of(blocks: &[Block]) -> usize {
    let mut weight: usize = 0;
    for block in blocks {
        if weight >= MOST {
            return weight;
        }
        weight = weight.saturating_add(BLOCK);
        match &block.output {
            Output::Rows(rows) => weight = with_rows(weight, rows.as_slice()),
            Output::Signed { plus, minus } => {
                weight = with_rows(with_rows(weight, plus.as_slice()), minus.as_slice());
            }
            Output::Fault(_) => {}
        }
    }
    weight
}

// What rows add to what was counted.
fn with_rows(counted: usize, rows: &[Row]) -> usize {
    let mut weight = counted;
    for row in rows {
        if weight >= MOST {
            return weight;
        }
        weight = weight
            .saturating_add(ROW)
            .saturating_add(weight_of_values(row.values()));
    }
    weight
}

fn weight_of_values(values: &[Value]) -> usize {
    let mut texts: usize = 0;
    for value in values {
        if let Value::Text(text) = value {
            texts = texts.saturating_add(text.len());
        }
    }
    values
        .len()
        .saturating_mul(VALUE)
        .saturating_add(texts.min(TEXTS))
}
