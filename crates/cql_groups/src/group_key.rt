// The key of a group: what its rows have in the grouped columns.
ghost use Rattle.std.specs.Prelude.{◌≡◌, ◌<◌, [], ◌∷◌, IfOk, IfSome, OnOk, refl};
ghost use Rattle.std.specs.Ordering.{eq_by_cmp, as_partial_cmp};
ghost use Rattle.std.specs.Cmp.{partial_equiv_from_equiv, eq_by_cmp_equiv, partial_order_from_total};
ghost use Rattle.cql_value.specs.Order.{row_cmp, row_cmp_total};
ghost use Rattle.cql_value.specs.declared.value.Value.TheVariants.{Number};
ghost use Rattle.cql_algebra.specs.Shape.{key_of};

use cql_plain::{choose, key};
use cql_value::{Row, Value};
use sqlite_items::at;
use std::alloc::{AllocError, Global};
use std::cmp::Ordering;
use std::marker::Model;

/// One number, or the values of a row.
pub(crate) enum KeyForm {
    Number(i64),
    Row(Row),
}

impl Drop for KeyForm {
    fn drop(self) {
        match self {
            KeyForm::Number(_number) => {}
            KeyForm::Row(_row) => {}
        }
    }
}

/// A key, seen as the list of its values. One that is a single number takes no memory, and is found
/// by the number.
#[derive(Drop)]
pub(crate) struct GroupKey {
    form: KeyForm,
}

impl Model for GroupKey {
    ghost use Rattle.std.specs.Prelude.{List};
    ghost use Rattle.cql_value.specs.declared.value.Value.{Value as CqlValue};
    ghost use Rattle.cql_groups.specs.GroupKey.{values_of};

    ghost Value = { List CqlValue };

    ghost view = { λ k. values_of k.form };
}

// The number that is the whole key of a row.
fn number_of(columns: &[usize], row: &[Value]) -> Option<i64>
    ensures { IfSome result (λ n. key_of columns.now row.now ≡ Number n ∷ []) }
{
    if columns.len() != 1 {
        return None;
    }
    match at(row, columns[0]) {
        Some(Value::Number(number)) => Some(*number),
        _ => None,
    }
}

// A single number and a key, as rows.
fn number_cmp(number: i64, key: &GroupKey) -> Ordering
    ensures { result ≡ row_cmp (Number number ∷ []) key.now }
{
    match &key.form {
        KeyForm::Number(other) => number.cmp(other),
        KeyForm::Row(row) => [Value::Number(number)].as_slice().cmp(row.values()),
    }
}

// As rows, where not both are single numbers. It stands apart so that `cmp` is short.
fn values_cmp(a: &GroupKey, b: &GroupKey) -> Ordering
    ensures { result ≡ row_cmp a.now b.now }
{
    match (&a.form, &b.form) {
        (KeyForm::Number(number), _) => number_cmp(*number, b),
        (KeyForm::Row(_), KeyForm::Number(number)) => number_cmp(*number, a).reverse(),
        (KeyForm::Row(row), KeyForm::Row(other)) => row.cmp(other),
    }
}

impl GroupKey {
    /// The key of a single number.
    pub fn of_number(number: i64) -> GroupKey
        ensures { result ≡ Number number ∷ [] }
    {
        GroupKey {
            form: KeyForm::Number(number),
        }
    }

    /// Becomes the key of a row, in the room of the one before where no other row shares it.
    pub fn set(&mut self, alloc: Global, columns: &[usize], row: &[Value]) -> Result<(), AllocError>
        ensures { OnOk result (self.new ≡ key_of columns.now row.now) }
    {
        if let Some(number) = number_of(columns, row) {
            self.form = KeyForm::Number(number);
            return Ok(());
        }
        match &mut self.form {
            KeyForm::Row(old) => {
                let mut values = old.take_room(alloc);
                choose(alloc, columns, row, &mut values)?;
                old.refill(alloc, values)
            }
            KeyForm::Number(_) => {
                self.form = KeyForm::Row(key(alloc, columns, row)?);
                Ok(())
            }
        }
    }

    /// Which of so many places is the key's, where it is a single number and there are any. Other keys
    /// may have the same.
    pub fn place(&self, places: usize) -> Option<usize>
        ensures { IfSome result (λ at. at < places) }
    {
        match &self.form {
            KeyForm::Number(number) if places > 0 => {
                Some((number.unsigned_abs() % places as u64) as usize)
            }
            _ => None,
        }
    }

    /// The same key with one more holder. Takes no memory.
    pub fn share(&self) -> Result<GroupKey, AllocError>
        ensures { IfOk result (λ k. k ≡ self.now) }
    {
        let form = match &self.form {
            KeyForm::Number(number) => KeyForm::Number(*number),
            KeyForm::Row(row) => KeyForm::Row(row.share()?),
        };
        Ok(GroupKey { form })
    }
}

impl PartialEq for GroupKey {
    ghost eq = { eq_by_cmp row_cmp };

    ghost laws = { partial_equiv_from_equiv (eq_by_cmp_equiv row_cmp_total) };

    fn eq(&self, other: &GroupKey) -> bool {
        self.cmp(other).is_eq()
    }
}

impl Eq for GroupKey {
    ghost laws = { eq_by_cmp_equiv row_cmp_total };
}

impl PartialOrd for GroupKey {
    ghost partial_cmp = { as_partial_cmp row_cmp };

    ghost laws = { partial_order_from_total row_cmp_total };

    fn partial_cmp(&self, other: &GroupKey) -> Option<Ordering> {
        Some(self.cmp(other))
    }
}

/// As rows of their values. Takes no memory.
impl Ord for GroupKey {
    ghost cmp = { row_cmp };

    ghost total = { row_cmp_total };

    ghost matches_partial_cmp = { λ x y. refl };

    ghost matches_eq = { λ x y. refl };

    fn cmp(&self, other: &GroupKey) -> Ordering {
        if let KeyForm::Number(m) = &self.form {
            if let KeyForm::Number(n) = &other.form {
                return m.cmp(n);
            }
        }
        values_cmp(self, other)
    }
}
