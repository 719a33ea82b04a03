//! Tables of tenants, and why a value of a test wasn't made.
use cql_core::TenantTable;
use cql_wire::{LineFault, TenantsFault, read_tenants};
use std::alloc::{AllocError, AllocFailed, Global};

const TENANTS: &[u8] = b"{\"tenants\":[\
{\"hold\":100,\"key\":\"ka\",\"name\":\"a\",\"queries\":8,\"result\":1000,\"streams\":8},\
{\"hold\":100,\"key\":\"kb\",\"name\":\"b\",\"queries\":8,\"result\":1000,\"streams\":8}]}";

// Its joined bags may have fewer rows.
const OTHERS: &[u8] = b"{\"tenants\":[\
{\"hold\":100,\"key\":\"ka\",\"name\":\"a\",\"queries\":8,\"result\":10,\"streams\":8}]}";

// Its windows may have many rows.
const MANY: &[u8] = b"{\"tenants\":[\
{\"hold\":4000,\"key\":\"ka\",\"name\":\"a\",\"queries\":8,\"result\":1000,\"streams\":8}]}";

/// Why a value of a test wasn't made.
#[derive(Debug, Drop)]
pub enum Unmade {
    /// There was no memory.
    NoMemory,
    /// It isn't what the test means.
    Wrong,
}

impl From<AllocError> for Unmade {
    fn from(_error: AllocError) -> Unmade {
        Unmade::NoMemory
    }
}

impl<T: Drop> From<AllocFailed<T>> for Unmade {
    fn from(_failed: AllocFailed<T>) -> Unmade {
        Unmade::NoMemory
    }
}

impl From<TenantsFault> for Unmade {
    fn from(fault: TenantsFault) -> Unmade {
        match fault {
            TenantsFault::Refused(_) => Unmade::Wrong,
            TenantsFault::NoMemory => Unmade::NoMemory,
        }
    }
}

impl From<LineFault> for Unmade {
    fn from(fault: LineFault) -> Unmade {
        match fault {
            LineFault::NoMemory => Unmade::NoMemory,
            _ => Unmade::Wrong,
        }
    }
}

/// The tenants a and b, whose keys are ka and kb.
pub fn table(alloc: Global) -> Result<TenantTable, Unmade> {
    Ok(read_tenants(alloc, TENANTS)?)
}

/// The tenants a and b, tried twice, for one request for memory may be refused.
pub fn table_at_last(alloc: Global) -> Result<TenantTable, Unmade> {
    match table(alloc) {
        Ok(table) => Ok(table),
        Err(_why) => table(alloc),
    }
}

/// The tenant a alone, whose joined bags may have fewer rows.
pub fn other_table(alloc: Global) -> Result<TenantTable, Unmade> {
    Ok(read_tenants(alloc, OTHERS)?)
}

/// The tenant a alone, whose windows may have many rows.
pub fn many_table(alloc: Global) -> Result<TenantTable, Unmade> {
    Ok(read_tenants(alloc, MANY)?)
}
