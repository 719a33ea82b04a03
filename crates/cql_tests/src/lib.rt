//! Tests of values, bags and benches, of answers, of the directory and of the core through their public
//! items: what no script of lines can show.
#![tactic(auto)]

#[cfg(test)]
mod answers;
#[cfg(test)]
mod benches;
#[cfg(test)]
mod memory;
#[cfg(test)]
mod outputs;
#[cfg(test)]
mod parts;
#[cfg(test)]
mod pins;
#[cfg(test)]
mod pools;
#[cfg(test)]
mod rooms;
#[cfg(test)]
mod scripts;
#[cfg(test)]
mod splits;
#[cfg(test)]
mod tenants;
