// Whether two values are the same.
ghost use Rattle.std.specs.Prelude.{◌≡◌, ◌↔◌, IsTrue};

use crate::name::Name;
use crate::row::Row;
use crate::schema::ColumnType;
use crate::text::Text;
use crate::timed::Timed;
use crate::value::Value;
use sqlite_items::{Boxed, Items};

/// A value of which it can be told whether it is another.
pub trait Equals {
    /// Whether both are the same. Takes no memory.
    fn is_equal(&self, other: &Self) -> bool
        ensures { IsTrue result ↔ (self.now ≡ other.now) };
}

impl Equals for usize {
    fn is_equal(&self, other: &usize) -> bool {
        *self == *other
    }
}

impl Equals for ColumnType {
    fn is_equal(&self, other: &ColumnType) -> bool {
        *self == *other
    }
}

impl Equals for Name {
    fn is_equal(&self, other: &Name) -> bool {
        *self == *other
    }
}

impl Equals for Text {
    fn is_equal(&self, other: &Text) -> bool {
        self.as_str() == other.as_str()
    }
}

impl Equals for Value {
    fn is_equal(&self, other: &Value) -> bool {
        match (self, other) {
            (Value::Number(m), Value::Number(n)) => *m == *n,
            (Value::Text(s), Value::Text(t)) => s.is_equal(t),
            _ => false,
        }
    }
}

impl Equals for Row {
    fn is_equal(&self, other: &Row) -> bool {
        slices_equal(self.values(), other.values())
    }
}

impl Equals for Timed {
    fn is_equal(&self, other: &Timed) -> bool {
        self.at() == other.at() && self.row().is_equal(other.row())
    }
}

impl<T: Equals> Equals for Option<T> {
    fn is_equal(&self, other: &Option<T>) -> bool {
        match (self, other) {
            (None, None) => true,
            (Some(a), Some(b)) => a.is_equal(b),
            _ => false,
        }
    }
}

impl<T: Equals> Equals for Boxed<T> {
    fn is_equal(&self, other: &Boxed<T>) -> bool {
        self.get().is_equal(other.get())
    }
}

impl<T: Equals> Equals for Items<T> {
    fn is_equal(&self, other: &Items<T>) -> bool {
        slices_equal(self.as_slice(), other.as_slice())
    }
}

/// Whether both have the same values, in order. Takes no memory.
pub fn slices_equal<T: Equals>(a: &[T], b: &[T]) -> bool
    ensures { IsTrue result ↔ (a.now ≡ b.now) }
{
    if a.len() != b.len() {
        return false;
    }
    for i in 0..a.len() {
        if !a[i].is_equal(&b[i]) {
            return false;
        }
    }
    true
}
