//! Tests of the hall through its public items: callers on threads, audits, and want of memory. What
//! they share with those of sessions and of the server is public.
#![tactic(auto)]

#[cfg(test)]
mod alone;
#[cfg(test)]
mod audits;
#[cfg(test)]
mod callers;
#[cfg(test)]
mod given_up;
#[cfg(test)]
mod halls;
pub mod holding;
pub mod made;
