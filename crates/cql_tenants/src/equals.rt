// Whether two lists show the same streams.
ghost use Rattle.std.specs.Prelude.{◌≡◌, ◌↔◌, IsTrue, map, option_map};
ghost use Rattle.cql_value.specs.declared.schema.Column.{Column as column};

use crate::readable::{GrantedStream, OwnStream};
use cql_value::{Column, Equals};

impl Equals for OwnStream {
    fn is_equal(&self, other: &OwnStream) -> bool {
        self.name.as_str() == other.name.as_str() && self.opened == other.opened
    }
}

// Whether both are columns of the same names, in order.
fn have_same_names(a: &[Column], b: &[Column]) -> bool
    ensures { IsTrue result ↔ (map (λ (c : column). c.name) a.now ≡ map (λ (c : column). c.name) b.now) }
{
    let mut left = a;
    let mut right = b;
    while let Some((x, more)) = left.split_first() {
        let Some((y, others)) = right.split_first() else {
            return false;
        };
        if !x.name.is_equal(&y.name) {
            return false;
        }
        left = more;
        right = others;
    }
    right.is_empty()
}

// Whether both name the same columns, or neither names any.
fn are_named_same(a: Option<&[Column]>, b: Option<&[Column]>) -> bool
    ensures { IsTrue result ↔ (option_map (λ cs. map (λ (c : column). c.name) cs.now) a.entry ≡ option_map (λ cs. map (λ (c : column). c.name) cs.now) b.entry) }
{
    match (a, b) {
        (None, None) => true,
        (Some(a), Some(b)) => have_same_names(a, b),
        _ => false,
    }
}

impl Equals for GrantedStream {
    fn is_equal(&self, other: &GrantedStream) -> bool {
        self.owner() == other.owner()
            && self.stream() == other.stream()
            && are_named_same(self.columns(), other.columns())
            && self.opened() == other.opened()
    }
}
