// How each tenant stands.
use cql_hall::Gate;
use cql_sessions::{Callable, Service};
use std::sync::Wait;

/// Tells the gate how one tenant after another stands, of whom the hall has those of the table.
pub(crate) fn tell_standing<R: Wait, C: Callable<R, G>, G: Gate>(service: &Service<'_, R, C, G>) {
    for tenant in service.table.tenants() {
        if let Some(id) = service.table.find(tenant.name.as_str())
            && let Ok(standing) = service.hall.standing(service.rt, id)
        {
            service.gate.standing(id, &standing);
        }
    }
}
