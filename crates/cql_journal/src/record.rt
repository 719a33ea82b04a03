//! A record: the chain behind which its batch stands, a tenant's name and the line of a caller. A
//! commit line: the chain of a batch's records.
//!
//! A chain is 16 digits of an MD5 digest, one a batch. It tells what was torn, lost or exchanged by
//! accident; of the digests at hand MD5 takes the fewest instructions a byte. Of 64 bits none tells
//! more: two texts with equal ones are found by trying 2^32, and a second text to a given one by
//! 2^64, whichever digest they are of.
ghost use Rattle.std.specs.Prelude.{◌≡◌, ◌≢◌, ◌≤◌, ◌+◌, ◌++◌, ◌∷◌, ◌↔◌, IsFalse, IfSome, IfNone, List, ℕ, [], length, take, vec_len, vec_capacity};
ghost use Rattle.hex.specs.Hex.{encode_lower};
ghost use Rattle.cql_journal.specs.Record.{Entry, Fits, Lacks, chain_after, record_line, record_lines};
ghost use Rattle.cql_journal.specs.Taken.{entry_of};

use md5::{Digest, Md5};
use memchr::memchr;
use std::alloc::Global;

/// How many bytes a chain has.
pub const CHAIN: usize = 16;

/// How many bytes a commit line has, with its line feed.
pub(crate) const COMMIT: usize = 17;

/// The chain behind which a batch stands: that of the batch before it.
pub type Chain = [u8; 16];

/// The chain before the first batch: the format's number, which is a file's first line.
pub const FIRST: Chain = *b"0000000000000001";

/// What a record says.
#[derive(Clone, Copy)]
pub struct Record<'a> {
    /// The name of a tenant.
    pub tenant: &'a [u8],
    /// The line that its caller sent.
    pub line: &'a [u8],
}

/// The chain of a batch's records behind a chain.
#[tactic(auto, unfolding(crate::specs::Record::chain_after))]
pub fn chain_after(chain: &Chain, bytes: &[u8]) -> Chain
    ensures { result ≡ chain_after chain.now bytes.now }
{
    let mut hasher = Md5::new();
    hasher.update(chain.as_slice());
    hasher.update(bytes);
    digits_of(&hasher.finalize())
}

/// The chain that a digest gives: the digits of its first 8 bytes.
pub(crate) fn digits_of(digest: &[u8; 16]) -> Chain
    ensures { result ≡ encode_lower (take 8 digest.now) }
{
    let mut text = [0; CHAIN];
    let _ = hex::encode_to_slice(&digest[..8], &mut text);
    text
}

/// Whether a byte is among these.
pub(crate) fn has_byte(byte: u8, bytes: &[u8]) -> bool
    ensures { IsFalse result ↔ Lacks byte bytes.now }
{
    match cut_at(byte, bytes) {
        Some(_) => true,
        None => false,
    }
}

// The bytes before the first of this kind, and those behind it; none where there is none.
fn cut_at(byte: u8, bytes: &[u8]) -> Option<(&[u8], &[u8])>
    ensures cut { IfSome result (λ p. bytes.now ≡ p.0.now ++ byte ∷ p.1.now) }
    ensures first { IfSome result (λ p. Lacks byte p.0.now) }
    ensures none { IfNone result (Lacks byte bytes.now) }
{
    let Some(at) = memchr(byte, bytes) else {
        return None;
    };
    Some((&bytes[..at], &bytes[at + 1..]))
}

/// The line at the front and what is behind its line feed; none where there is no line feed.
pub(crate) fn split_line(text: &[u8]) -> Option<(&[u8], &[u8])>
    ensures cut { IfSome result (λ p. text.now ≡ p.0.now ++ 10 ∷ p.1.now) }
    ensures first { IfSome result (λ p. Lacks 10 p.0.now) }
    ensures none { IfNone result (Lacks 10 text.now) }
{
    cut_at(b'\n', text)
}

// What is behind a chain and a space at the front.
fn behind_chain<'a>(chain: &Chain, line: &'a [u8]) -> Option<&'a [u8]>
    ensures some { IfSome result (λ rest. line.now ≡ chain.now ++ 32 ∷ rest.now) }
    ensures none { IfNone result ((rest : List ℕ) → line.now ≢ chain.now ++ 32 ∷ rest) }
{
    let Some(spaced) = line.strip_prefix(chain.as_slice()) else {
        return None;
    };
    spaced.strip_prefix(b" ".as_slice())
}

/// The record that a line of a batch behind a chain is; none where it is no such record.
pub fn record_in<'a>(chain: &Chain, line: &'a [u8]) -> Option<Record<'a>>
    requires { Lacks 10 line.now }
    ensures some { IfSome result (λ r. line.now ≡ record_line chain.now (entry_of r)) }
    ensures fits { IfSome result (λ r. Fits (entry_of r)) }
    ensures none { IfNone result ((e : Entry) → Fits e → line.now ≢ record_line chain.now e) }
{
    let Some(bytes) = behind_chain(chain, line) else {
        return None;
    };
    let Some((tenant, line)) = cut_at(b' ', bytes) else {
        return None;
    };
    Some(Record { tenant, line })
}

/// Appends some bytes and one that ends them. There is room for them, so it takes no memory.
pub(crate) fn append_ended(text: &mut Vec<u8>, bytes: &[u8], end: u8)
    requires { vec_len text.old + length bytes.now + 1 ≤ vec_capacity text.old }
    ensures items { text.new.items ≡ text.old.items ++ (bytes.now ++ end ∷ []) }
    ensures len { vec_len text.new ≡ vec_len text.old + length bytes.now + 1 }
    ensures capacity { vec_capacity text.old ≤ vec_capacity text.new }
{
    let _ = text.extend_from_slice(bytes);
    let _ = text.push(end);
}

/// Appends a record of a batch behind a chain, with its line feed. There is room for it, so it takes no
/// memory.
pub(crate) fn append_record(text: &mut Vec<u8>, chain: &Chain, given: Record<'_>)
    requires { vec_len text.old + length (record_lines chain.now (entry_of given ∷ [])) ≤ vec_capacity text.old }
    ensures { text.new.items ≡ text.old.items ++ record_lines chain.now (entry_of given.entry ∷ []) }
{
    append_ended(text, chain.as_slice(), b' ');
    append_ended(text, given.tenant, b' ');
    append_ended(text, given.line, b'\n');
}
