// Maximal runs of equal output.
ghost use Rattle.std.specs.Prelude.{◌≡◌, ◌↔◌, ◌≤◌, ◌<◌, ◌+◌, ◌-◌, ◌^◌, ℕ, [], IsTrue, OnOk, OnErr};
ghost use Rattle.cql_algebra.specs.Runs.{StandFor, IsStretch, Extends, GoesOn, Adjoins};
ghost use Rattle.cql_algebra.specs.Blocks.{AreBlocks};
ghost use Rattle.cql_algebra.specs.declared.told.Output.{Output};

use crate::told::{Block, Output};
use std::alloc::{AllocError, Global};
use std::marker::Model;

/// Takes adjoining stretches of instants in rising order, and builds the blocks.
#[derive(Drop)]
pub struct Runs {
    next: u64,
    blocks: Vec<Block>,
}

impl Model for Runs {
    ghost use Rattle.cql_algebra.specs.Runs.{RunsModel};

    ghost Value = { RunsModel };

    ghost view = { λ r. record { next = r.next; blocks = r.blocks.items } };
}

impl Runs {
    /// No stretch yet; the first is to begin at the instant `from`, in ticks.
    pub fn new(alloc: Global, from: u64) -> Runs
        ensures next { result.next ≡ from }
        ensures blocks { result.blocks ≡ [] }
        ensures stand { (O : ℕ → Output) → StandFor O from result }
    {
        Runs {
            next: from,
            blocks: Vec::new(alloc),
        }
    }

    /// Every instant from `from` to `to`, both among them, has this output. Without memory nothing
    /// changes.
    pub fn push(&mut self, from: u64, to: u64, output: Output) -> Result<(), AllocError>
        requires adjoins { from ≡ self.old.next }
        requires forward { from ≤ to }
        requires bound { to < 2 ^ 62 }
        ensures next { OnOk result (self.new.next ≡ to + 1) }
        ensures stand { OnOk result ((O : ℕ → Output) (c : ℕ) → StandFor O c self.old → IsStretch O from to output → StandFor O c self.new) }
        ensures err { OnErr result (self.new ≡ self.old) }
    {
        extend(&mut self.blocks, from, to, output)?;
        self.next = to + 1;
        Ok(())
    }

    /// Every instant from the next one to `to` has the output of the instant before it. Takes no
    /// memory.
    pub fn lengthen(&mut self, to: u64)
        requires forward { self.old.next ≤ to }
        requires bound { to < 2 ^ 62 }
        ensures next { self.new.next ≡ to + 1 }
        ensures stand { (O : ℕ → Output) (c : ℕ) → c < self.old.next → StandFor O c self.old → IsStretch O self.old.next to (O (self.old.next - 1)) → StandFor O c self.new }
    {
        go_on(&mut self.blocks, self.next, to);
        self.next = to + 1;
    }

    /// The instant, in ticks, at which the next stretch is to begin.
    pub fn next(&self) -> u64
        ensures { result ≡ self.now.next }
    {
        self.next
    }

    /// The blocks of all stretches.
    pub fn finish(self) -> Vec<Block>
        ensures { result.items ≡ self.blocks }
    {
        self.blocks
    }
}

// Whether the last block goes on with this output.
fn goes_on(blocks: &[Block], from: u64, output: &Output) -> bool
    ensures { IsTrue result ↔ GoesOn blocks.now from output.now }
{
    match blocks.split_last() {
        None => false,
        Some((last, _)) => last.to < from && from - last.to == 1 && last.output.is(output),
    }
}

// Whether the last block ends just before an instant.
fn adjoins(blocks: &[Block], from: u64) -> bool
    ensures { IsTrue result ↔ Adjoins blocks.now from }
{
    match blocks.split_last() {
        None => false,
        Some((last, _)) => last.to < from && from - last.to == 1,
    }
}

// Each instant of a stretch has the output of the instant before it.
fn go_on(blocks: &mut Vec<Block>, from: u64, to: u64)
    requires forward { from ≤ to }
    ensures { (O : ℕ → Output) (c : ℕ) → c < from → IsStretch O from to (O (from - 1)) → AreBlocks O c from blocks.old.items → AreBlocks O c (to + 1) blocks.new.items }
{
    if adjoins(blocks.as_slice(), from) {
        let last = blocks.len() - 1;
        blocks[last].to = to;
    }
}

fn extend(blocks: &mut Vec<Block>, from: u64, to: u64, output: Output) -> Result<(), AllocError>
    requires forward { from ≤ to }
    ensures ok { OnOk result (Extends from to output blocks.old.items blocks.new.items) }
    ensures err { OnErr result (blocks.new.items ≡ blocks.old.items) }
{
    if output.is_empty() {
        return Ok(());
    }
    if goes_on(blocks.as_slice(), from, &output) {
        let last = blocks.len() - 1;
        blocks[last].to = to;
        return Ok(());
    }
    blocks.push(Block { from, to, output })?;
    Ok(())
}
