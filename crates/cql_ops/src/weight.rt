// What is kept weighs about so many bytes.

use cql_bag::Change;
use cql_value::{Row, Value};

// A row by itself, and a value of it without the bytes of a text.
const ROW: u64 = 64;

const VALUE: u64 = 16;

// What a text takes beside its bytes.
const TEXT: u64 = 48;

// A row of a stream stands in a list with its time.
const ELEMENT: u64 = 64;

/// A place in a list or in a tree, in bytes, for a row that something else holds.
pub const PLACE: u64 = 48;

/// So many things of so many bytes each; 2^64 - 1 where that is more.
pub fn weight_of_all(many: usize, each: u64) -> u64 {
    (many as u64).saturating_mul(each)
}

/// A row of so many values in bytes, without its texts, which are those of other rows.
pub fn row_weight(columns: usize) -> u64 {
    weight_of_all(columns, VALUE).saturating_add(ROW)
}

/// A row of a stream in bytes, with its texts.
pub fn element_weight(row: &Row) -> u64 {
    let mut bytes = row_weight(row.len()).saturating_add(ELEMENT);
    for value in row.values() {
        if let Value::Text(text) = value {
            let text = TEXT.saturating_add(text.len() as u64);
            bytes = bytes.saturating_add(text);
        }
    }
    bytes
}

// A place in a list of rows that is told.
const LISTED: u64 = 8;

/// About how many bytes an operator keeps.
#[derive(Clone, Copy)]
pub struct Weight {
    /// The rows that it made, and places of rows in lists and trees.
    pub own: u64,
    /// The rows that it was told, without their texts. Others may hold them, too.
    pub told: u64,
}

impl Weight {
    /// So much of its own, and of what it was told.
    pub fn new(own: u64, told: u64) -> Weight {
        Weight { own, told }
    }
}

/// What came into a bench's windows since it was started, what of that is still there, and what it told
/// since then, in bytes; and whether it told anything when it was last asked.
#[derive(Clone, Copy)]
pub(crate) struct Load {
    pub came: u64,
    pub there: u64,
    pub told: u64,
    pub is_changed: bool,
    // whether the plan has a join of several inputs
    pub is_joined: bool,
}

// So many bytes may always have come more than are there.
const SLACK: u64 = 1 << 20;

impl Load {
    /// Nothing came.
    pub fn none() -> Load {
        Load {
            came: 0,
            there: 0,
            told: 0,
            is_changed: false,
            is_joined: false,
        }
    }

    /// These changes were told.
    pub fn tell(&mut self, changes: &[Change]) {
        let row = match changes.first() {
            Some(change) => row_weight(change.row.len()).saturating_add(PLACE),
            None => 0,
        };
        self.is_changed = !changes.is_empty();
        self.told = self.told.saturating_add(weight_of_all(changes.len(), row));
    }

    /// What a list of so many rows takes that is told with the last changes, if there were any.
    pub fn listed(&self, rows: u64) -> u64 {
        if self.is_changed {
            rows.saturating_mul(LISTED)
        } else {
            0
        }
    }

    /// A row of so many bytes comes, or one that is there goes.
    pub fn add(&mut self, plus: bool, bytes: u64) {
        if plus {
            self.came = self.came.saturating_add(bytes);
            self.there = self.there.saturating_add(bytes);
        } else {
            self.there = self.there.saturating_sub(bytes);
        }
    }

    /// Whether much more came than is there.
    pub fn is_past(&self) -> bool {
        self.came > self.there.saturating_mul(4).saturating_add(SLACK)
    }
}
