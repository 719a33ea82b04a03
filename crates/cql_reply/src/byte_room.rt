//! Bytes that are yet to be written, of which there is room for so many and no more.
ghost use Rattle.std.specs.Prelude.{◌||◌, is_err, OnOk, OnErr, ◌≡◌, ◌≢◌, ◌+◌, ◌<◌, ◌≤◌, ◌↔◌, ◌++◌, [], ◌∷◌, length, decimal, IfOk, IsTrue};
ghost use Rattle.std.specs.Fmt.{signed_decimal};
ghost use Rattle.std.specs.Io.KnownBytes.{Appends};
ghost use Rattle.cql_lines.specs.Watched.{inner_of, has_failed, Grows};
ghost use Rattle.cql_reply.specs.Buffered.{Buffers};
ghost use Rattle.cql_reply.specs.Line.{blocks_line};

use crate::line_place::LinePlace;
use cql_algebra::Block;
use cql_lines::{Watched, WriteFault};
use std::alloc::{AllocError, Global};
use std::io::Write;
use std::marker::Model;

/// The longest part of a line that isn't cut, and so the room that any step has.
pub const PIECE: usize = 64;

/// Bytes that are yet to be written: room for so many is taken once.
#[derive(Drop)]
pub struct ByteRoom {
    bytes: Vec<u8>,
    size: usize,
}

impl Model for ByteRoom {
    ghost use Rattle.std.specs.Prelude.{◌≤◌, length, vec_capacity};
    ghost use Rattle.cql_reply.specs.Held.{Held};

    ghost Value = { Held };

    ghost view = { λ r. record { bytes = r.bytes.items; size = r.size } };

    ghost invariant = { λ r. (length r.bytes.items ≤ r.size) × (r.size ≤ vec_capacity r.bytes) };
}

impl ByteRoom {
    /// ByteRoom for so many bytes.
    pub fn new(alloc: Global, size: usize) -> Result<Self, AllocError>
        ensures { IfOk result (λ room. room ≡ record { bytes = []; size = size }) }
    {
        let bytes = Vec::with_capacity(alloc, size)?;
        Ok(ByteRoom { bytes, size })
    }

    /// Lets go what it holds.
    pub fn clear(&mut self)
        ensures { self.new ≡ record { bytes = []; size = self.old.size } }
    {
        self.bytes.clear();
    }

    /// Whether there is room for any step.
    pub fn has_room(&self) -> bool
        ensures { IsTrue result ↔ (length self.now.bytes + PIECE ≤ self.now.size) }
    {
        self.size - self.bytes.len() >= PIECE
    }

    /// How many more bytes there is room for.
    pub fn left(&self) -> usize
        ensures { result + length self.now.bytes ≡ self.now.size }
    {
        self.size - self.bytes.len()
    }

    /// Holds one byte more. Takes no memory.
    pub fn push(&mut self, byte: u8)
        requires { length self.old.bytes < self.old.size }
        ensures bytes { self.new.bytes ≡ self.old.bytes ++ byte ∷ [] }
        ensures len { length self.new.bytes ≡ length self.old.bytes + 1 }
        ensures size { self.new.size ≡ self.old.size }
    {
        self.bytes.push_reserved(byte);
    }

    /// Holds these bytes too. Takes no memory.
    pub fn put(&mut self, bytes: &[u8])
        requires { length self.old.bytes + length bytes.now ≤ self.old.size }
        ensures bytes { self.new.bytes ≡ self.old.bytes ++ bytes.now }
        ensures len { length self.new.bytes ≡ length self.old.bytes + length bytes.now }
        ensures size { self.new.size ≡ self.old.size }
    {
        let _ = self.bytes.extend_from_slice(bytes);
    }

    /// The same, one by one: few bytes are held sooner so.
    pub(crate) fn put_few(&mut self, bytes: &[u8])
        requires { length self.old.bytes + length bytes.now ≤ self.old.size }
        ensures bytes { self.new.bytes ≡ self.old.bytes ++ bytes.now }
        ensures within { (length self.new.bytes ≡ length self.old.bytes + length bytes.now) × (self.new.size ≡ self.old.size) }
    {
        for byte in bytes {
            self.push(*byte);
        }
    }

    /// Holds the digits of a number too. Takes no memory.
    pub fn put_number(&mut self, number: u64)
        requires { length self.old.bytes + 20 ≤ self.old.size }
        ensures bytes { self.new.bytes ≡ self.old.bytes ++ decimal number }
        ensures len { length self.new.bytes ≤ length self.old.bytes + 20 }
        ensures size { self.new.size ≡ self.old.size }
    {
        let mut digits = itoa::Buffer::new();
        self.put(digits.format(number).as_bytes());
    }

    /// Holds the digits of a number with a sign too. Takes no memory.
    pub(crate) fn put_signed(&mut self, number: i64)
        requires { length self.old.bytes + 20 ≤ self.old.size }
        ensures bytes { self.new.bytes ≡ self.old.bytes ++ signed_decimal number }
        ensures within { (length self.new.bytes ≤ length self.old.bytes + 20) × (self.new.size ≡ self.old.size) }
    {
        let mut digits = itoa::Buffer::new();
        self.put(digits.format(number).as_bytes());
    }

    /// Writes what it holds. After a fault some front of it was written. Where it holds nothing, the
    /// writer is not called.
    pub fn flush<W: Write>(&mut self, writer: &mut Watched<W>) -> Result<(), WriteFault>
        ensures ok { OnOk result (Appends (W.contents (inner_of writer.old)) (W.contents (inner_of writer.new)) self.old.bytes) }
        ensures emptied { OnOk result (self.new.bytes ≡ []) }
        ensures err { OnErr result (Grows (W.contents (inner_of writer.old)) (W.contents (inner_of writer.new)) self.old.bytes) }
        ensures cause { OnErr result (self.old.bytes ≢ []) }
        ensures size { self.new.size ≡ self.old.size }
        ensures failed { has_failed writer.new ≡ (has_failed writer.old || is_err result) }
    {
        if self.bytes.is_empty() {
            return Ok(());
        }
        let written = writer.write_all(self.bytes.as_slice());
        self.bytes.clear();
        written
    }

    /// Holds the line of these blocks and of the instant from which the next ones count, behind what
    /// it holds; where that is too much, what it holds is written, and it goes on. Takes no memory.
    pub fn put_blocks<W: Write>(
        &mut self,
        writer: &mut Watched<W>,
        blocks: &[Block],
        next: u64,
    ) -> Result<(), WriteFault>
        requires { PIECE ≤ self.old.size }
        ensures buffers { Buffers (W.contents (inner_of writer.old)) (W.contents (inner_of writer.new)) (self.old.bytes ++ blocks_line blocks.now next) self.new.bytes result }
        ensures size { self.new.size ≡ self.old.size }
        ensures failed { has_failed writer.new ≡ (has_failed writer.old || is_err result) }
    {
        let mut place = LinePlace::start();
        'rooms: while !place.fill(blocks, next, self) {
            self.flush(writer)?;
        }
        Ok(())
    }
}
