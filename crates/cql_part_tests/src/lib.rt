//! Tests of the operators and of stores through their public items: calls that no script of lines
//! reaches, and values that none brings there.
#![tactic(auto)]

#[cfg(test)]
mod groups;
#[cfg(test)]
mod joins;
#[cfg(test)]
mod looks;
#[cfg(test)]
mod lookups;
#[cfg(test)]
mod made;
#[cfg(test)]
mod operators;
#[cfg(test)]
mod stores;
