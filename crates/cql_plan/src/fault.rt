// Why a node has no value.

/// Why a node has no value at an instant.
#[derive(Clone, Copy, PartialEq, Eq)]
pub enum Fault {
    /// The joined bag has more rows than the tenant's quota `result` allows.
    Oversize,
    /// An operation or a SUM is outside i64.
    Overflow,
}
