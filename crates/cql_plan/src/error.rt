// Why a query gives no plan.

use std::alloc::{AllocError, AllocFailed};
use thiserror::Error;

/// What is wrong with a query.
#[derive(Clone, Copy, Debug, PartialEq, Eq, Drop, Error)]
pub enum PlanFault {
    /// There is no such stream, or it can't be read.
    #[error("unknown stream")]
    UnknownStream,
    /// No input has the column.
    #[error("unknown column")]
    UnknownColumn,
    /// More than one input has the column, or two inputs have one alias.
    #[error("ambiguous column")]
    AmbiguousColumn,
    /// A number stands where a text belongs or a text where a number does, an item isn't allowed
    /// in a grouped block, or two blocks have other columns.
    #[error("type mismatch")]
    TypeMismatch,
}

/// Why a query gives no plan.
#[derive(Clone, Copy, Debug, PartialEq, Eq, Drop, Error)]
pub enum PlanError {
    /// It has this fault, its first.
    #[error("{0}")]
    Refused(PlanFault),
    /// There was no memory.
    #[error("no memory")]
    NoMemory,
}

impl From<PlanFault> for PlanError {
    ghost use Rattle.std.specs.Prelude.{◌≡◌};
    ghost use Rattle.cql_plan.specs.declared.error.PlanError.TheVariants.{Refused};

    ghost from_gives = { λ fault e. e ≡ Refused fault };

    fn from(fault: PlanFault) -> PlanError {
        PlanError::Refused(fault)
    }
}

impl From<AllocError> for PlanError {
    ghost use Rattle.std.specs.Prelude.{◌≡◌};
    ghost use Rattle.cql_plan.specs.declared.error.PlanError.TheVariants.{NoMemory};

    ghost from_gives = { λ _ e. e ≡ NoMemory };

    fn from(_error: AllocError) -> PlanError {
        PlanError::NoMemory
    }
}

impl<T: Drop> From<AllocFailed<T>> for PlanError {
    ghost use Rattle.std.specs.Prelude.{◌≡◌};
    ghost use Rattle.cql_plan.specs.declared.error.PlanError.TheVariants.{NoMemory};

    ghost from_gives = { λ _ e. e ≡ NoMemory };

    fn from(_error: AllocFailed<T>) -> PlanError {
        PlanError::NoMemory
    }
}
