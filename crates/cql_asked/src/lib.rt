//! What a line of JSON asks: a command, a login or a table of tenants; and why it asks none.
#![tactic(auto)]

mod command;
mod fault;
mod kind;
mod login;
mod named;
mod plain;
mod rules;
mod tenants;

pub use command::{read_addressed, read_call, read_command};
pub use fault::LineFault;
pub use json::Scratch;
pub use kind::Kind;
pub use login::{named_tenant, read_login};
pub use named::Named;
pub use rules::{BrokenRule, TenantKey, TenantRule};
pub use tenants::{TenantsFault, read_tenants};
