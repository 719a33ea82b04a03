// Tables of tenants, what each of them reads, and the one refusal that no command can be brought to.
use cql_core::{BadTenants, Quotas, Refusal, Tenant, TenantId, TenantTable};
use cql_tenants::Directory;
use cql_value::{Column, ColumnType, Name, NameError, Schema, Text};
use std::alloc::{AllocError, AllocFailed, Global};
use std::test::Fail;

pub(crate) const USUAL: Quotas = Quotas {
    streams: 8,
    queries: 8,
    hold: 100,
    result: 1000,
};

/// Why a value of a test wasn't made.
#[derive(Debug, Drop)]
pub(crate) enum Unmade {
    NoMemory,
    Wrong,
}

impl From<AllocError> for Unmade {
    fn from(_error: AllocError) -> Unmade {
        Unmade::NoMemory
    }
}

impl<T: Drop> From<AllocFailed<T>> for Unmade {
    fn from(_failed: AllocFailed<T>) -> Unmade {
        Unmade::NoMemory
    }
}

impl From<NameError> for Unmade {
    fn from(_error: NameError) -> Unmade {
        Unmade::Wrong
    }
}

impl From<BadTenants> for Unmade {
    fn from(_error: BadTenants) -> Unmade {
        Unmade::Wrong
    }
}

fn tenant(alloc: Global, name: &str, hold: u64) -> Result<Tenant, Unmade> {
    let name = Name::read(alloc, name)?;
    Ok(Tenant {
        name,
        key: Text::new(alloc, "key")?,
        quotas: Quotas { hold, ..USUAL },
    })
}

/// A table of tenants with the usual quotas, but for that of rows.
pub(crate) fn table_with(alloc: Global, names: &[&str], hold: u64) -> Result<TenantTable, Unmade> {
    let mut tenants = Vec::new(alloc);
    for name in names {
        tenants.push(tenant(alloc, name, hold)?)?;
    }
    Ok(TenantTable::new(tenants)?)
}

pub(crate) fn table(alloc: Global, names: &[&str]) -> Result<TenantTable, Unmade> {
    table_with(alloc, names, USUAL.hold)
}

#[test]
fn no_memory(rt: HostRuntime) {
    assert_eq!(rt; Refusal::NoMemory.number(), 70);
    assert_eq!(rt; Refusal::NoMemory.name(), "NoMemory");
}

fn schema(alloc: Global) -> Result<Schema, Fail> {
    let name = Name::read(alloc, "v")?;
    let kind = ColumnType::Number;
    Ok(Schema::new(vec![in alloc; Column { name, kind }]?)?)
}

fn id_of(table: &TenantTable, name: &str) -> Result<TenantId, Fail> {
    match table.find(name) {
        Some(tenant) => Ok(tenant),
        None => Err(Fail::new("no such tenant")),
    }
}

// A directory of the table, in which the first tenant has granted a stream to the second.
fn directory_of(alloc: Global, table: &TenantTable, first: TenantId) -> Result<Directory, Fail> {
    let schema = schema(alloc)?;
    let mut directory = Directory::new(alloc, table)?;
    let schema = directory.may_make(first, "s", Some(&schema))?;
    directory.make_stream(alloc, first, "s", schema)?;
    directory.grant(alloc, first, "s", None, "b")??;
    Ok(directory)
}

// How many streams a tenant reads, if it is one of the directory's.
fn reads(alloc: Global, directory: &Directory, tenant: TenantId) -> Result<Option<usize>, Fail> {
    match directory.readable(alloc, tenant)? {
        Ok(streams) => Ok(Some(streams.len())),
        Err(_refusal) => Ok(None),
    }
}

// What each of two tenants reads, of which the first has granted its stream to the second, and a
// tenant of another table.
fn readable(alloc: Global) -> Result<(Option<usize>, Option<usize>, Option<usize>), Fail> {
    let table = table(alloc, &["a", "b"])?;
    let (a, b) = (id_of(&table, "a")?, id_of(&table, "b")?);
    let stranger = id_of(&self::table(alloc, &["a", "b", "c"])?, "c")?;
    let directory = directory_of(alloc, &table, a)?;
    let (first, second) = (reads(alloc, &directory, a)?, reads(alloc, &directory, b)?);
    Ok((first, second, reads(alloc, &directory, stranger)?))
}

#[test]
fn readable_streams(rt: HostRuntime) -> Result<(), Fail> {
    assert_eq!(rt; readable(rt.alloc())?, (Some(1), Some(1), None));
    Ok(())
}
