//! A batch that is made record by record.
ghost use Rattle.std.specs.Prelude.{◌≡◌, ◌≤◌, ◌+◌, ℕ, List, ◌↔◌, ◌++◌, ◌∷◌, [], length, take, IsTrue, IfErr, OnOk, OnErr, vec_len, vec_capacity};
ghost use Rattle.md5.specs.Md5.{Holds};
ghost use Rattle.cql_journal.specs.Record.{Fits, chain_after, record_lines};
ghost use Rattle.cql_journal.specs.Taken.{entry_of};
ghost use Rattle.cql_journal.specs.Making.{Making, AreRecords, IsHashed, LeavesOut, WritesBatch};

use crate::reading::MAX_BATCH;
use crate::record::{
    CHAIN, COMMIT, Chain, Record, append_ended, append_record, digits_of, has_byte,
};
use md5::{Digest, Md5};
use std::alloc::{AllocError, Global};
use std::marker::Model;

/// Why a record joins no batch.
#[derive(Clone, Copy)]
pub enum BatchFault {
    /// Its tenant's name has a space or a line feed, or its line has a line feed.
    Unfit,
    /// The batch would have more than `MAX_BATCH` bytes.
    TooLong,
    /// There was no memory.
    NoMemory,
}

impl From<AllocError> for BatchFault {
    ghost use Rattle.cql_journal.specs.declared.batch.BatchFault.TheVariants.{NoMemory};

    ghost from_gives = { λ _ e. e ≡ NoMemory };

    fn from(_error: AllocError) -> BatchFault {
        BatchFault::NoMemory
    }
}

/// The records of a batch that isn't ended yet, and the chain behind which they stand.
pub struct Batch {
    chain: Chain,
    text: Vec<u8>,
    // of the chain and so many bytes of the text
    hasher: Md5,
    hashed: usize,
}

impl Drop for Batch {
    fn drop(self) {
        let Batch {
            chain: _,
            text: _,
            hasher: _,
            hashed: _,
        } = self;
    }
}

impl Model for Batch {
    ghost Value = { Making };

    ghost view = { λ b. record { chain = b.chain; text = b.text.items } };

    ghost invariant = { λ b. AreRecords b.chain b.text.items × IsHashed b.chain b.text.items b.hasher b.hashed };
}

// Whether a name has no space, and neither it nor the line has a line feed.
fn fits(given: Record<'_>) -> bool
    ensures { IsTrue result ↔ Fits (entry_of given.entry) }
{
    !has_byte(b' ', given.tenant) && !has_byte(b'\n', given.tenant) && !has_byte(b'\n', given.line)
}

// A hasher that has taken in something and so many bytes of a text takes in the rest.
fn hash_rest(hasher: &mut Md5, hashed: usize, text: &[u8])
    requires { hashed ≤ length text.now }
    ensures { (front : List ℕ) → Holds hasher.old (front ++ take hashed text.now) → Holds hasher.new (front ++ text.now) }
{
    hasher.update(&text[hashed..]);
}

// The chain that ends a text, of which a hasher has taken in so many bytes behind a front; the hasher begins anew.
fn chain_behind(hasher: &mut Md5, hashed: usize, text: &[u8]) -> Chain
    requires { hashed ≤ length text.now }
    ensures chain { (front : List ℕ) → Holds hasher.old (front ++ take hashed text.now) → result ≡ chain_after front text.now }
    ensures anew { Holds hasher.new [] }
{
    hash_rest(hasher, hashed, text);
    digits_of(&hasher.finalize_reset())
}

impl Batch {
    /// No record stands behind the chain yet. Takes no memory.
    pub fn new(alloc: Global, chain: Chain) -> Batch
        ensures { result ≡ record { chain = chain; text = [] } }
    {
        let mut hasher = Md5::new();
        hasher.update(chain.as_slice());
        Batch {
            chain,
            text: Vec::new(alloc),
            hasher,
            hashed: 0,
        }
    }

    /// How many bytes its records have.
    pub fn len(&self) -> usize
        ensures { result ≡ length self.now.text }
    {
        self.text.len()
    }

    /// Puts a record behind the others. An `Err` changes nothing.
    pub fn push(&mut self, given: Record<'_>) -> Result<(), BatchFault>
        ensures ok { OnOk result (self.new ≡ record { chain = self.old.chain; text = self.old.text ++ record_lines self.old.chain (entry_of given.entry ∷ []) }) }
        ensures err { OnErr result (self.new ≡ self.old) }
        ensures fault { IfErr result (λ fault. LeavesOut self.old (entry_of given.entry) fault) }
    {
        if !fits(given) {
            return Err(BatchFault::Unfit);
        }
        let room = MAX_BATCH - COMMIT - self.text.len();
        let size = (given.tenant.len() + given.line.len()).saturating_add(CHAIN + 3);
        if size > room {
            return Err(BatchFault::TooLong);
        }
        self.text.reserve(size)?;
        append_record(&mut self.text, &self.chain, given);
        Ok(())
    }

    /// Takes the records' bytes into the batch's digest ahead of its end, which then takes less time.
    pub fn hash(&mut self)
        ensures { self.new ≡ self.old }
    {
        hash_rest(&mut self.hasher, self.hashed, &self.text);
        self.hashed = self.text.len();
    }

    /// Ends the batch, whose bytes with its commit line are put in the place of these; the next one begins
    /// behind its chain, in their memory. An `Err` changes nothing.
    pub fn close(&mut self, bytes: &mut Vec<u8>) -> Result<(), AllocError>
        ensures ok { OnOk result (WritesBatch self.old bytes.new.items self.new) }
        ensures err { OnErr result ((self.new ≡ self.old) × (bytes.new ≡ bytes.old)) }
    {
        self.text.reserve(COMMIT)?;
        self.chain = chain_behind(&mut self.hasher, self.hashed, &self.text);
        append_ended(&mut self.text, self.chain.as_slice(), b'\n');
        self.hasher.update(self.chain.as_slice());
        self.hashed = 0;
        bytes.clear();
        std::mem::swap(&mut self.text, bytes);
        Ok(())
    }
}
