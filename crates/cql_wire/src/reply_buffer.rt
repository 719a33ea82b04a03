//! Replies that are buffered and then written together.
ghost use Rattle.std.specs.Prelude.{◌≡◌, ◌≢◌, ◌+◌, ◌<◌, ◌≤◌, ◌++◌, ◌||◌, [], true, false, length, is_err, IfOk, OnOk, OnErr};
ghost use Rattle.std.specs.Io.KnownBytes.{Appends};
ghost use Rattle.cql_core.specs.Steps.{reply_model};
ghost use Rattle.cql_reply.specs.Place.{line_rest};
ghost use Rattle.cql_wire.specs.Buffered.{Buffers, BuffersReply};
ghost use Rattle.cql_wire.specs.Line.{fault_line};
ghost use Rattle.cql_wire.specs.Listing.{listing_rest};
ghost use Rattle.cql_wire.specs.Short.{short_line};
ghost use Rattle.cql_lines.specs.Watched.{inner_of, has_failed, Grows};
ghost use Rattle.cql_reply.specs.declared.byte_room.TheConstants.{PIECE};

use crate::listing_place::{ListingPlace, put_listing};
use crate::reply::{ShortReply, write_short};
use arrayvec::ArrayVec;
use cql_asked::LineFault;
use cql_core::{Answer, Listing, Reply};
use cql_lines::{Watched, WriteFault};
use cql_reply::{ByteRoom, LinePlace};
use std::alloc::{AllocError, Global};
use std::io::Write;
use std::marker::Model;

/// How many bytes are buffered at most.
pub const ROOM: usize = 65_536;

/// The line of a command that did what it asks for: mostly it is told this.
const DONE: &[u8] = b"{\"ok\":true}\n";

/// How many bytes a reply without blocks or a list may have.
const SHORT: usize = 128;

/// A reply without blocks or a list.
type ShortLine = ArrayVec<u8, SHORT>;

/// The bytes that were buffered and are not yet written, at most 65,536.
#[derive(Drop)]
pub struct ReplyBuffer {
    room: ByteRoom,
}

impl Model for ReplyBuffer {
    ghost use Rattle.std.specs.Prelude.{List, ℕ, ◌≡◌};
    ghost use Rattle.cql_wire.specs.declared.reply_buffer.TheConstants.{ROOM};

    ghost Value = { List ℕ };

    ghost view = { λ g. g.room.bytes };

    ghost invariant = { λ g. g.room.size ≡ ROOM };
}

impl ReplyBuffer {
    /// Takes all the memory that buffering needs.
    pub fn new(alloc: Global) -> Result<Self, AllocError>
        ensures { IfOk result (λ buffer. buffer ≡ []) }
    {
        Ok(ReplyBuffer {
            room: ByteRoom::new(alloc, ROOM)?,
        })
    }

    /// Writes what is buffered. After a fault some front of it was written. Where nothing is
    /// buffered, the writer is not called.
    pub fn flush<W: Write>(&mut self, writer: &mut Watched<W>) -> Result<(), WriteFault>
        ensures ok { OnOk result (Appends (W.contents (inner_of writer.old)) (W.contents (inner_of writer.new)) self.old) }
        ensures emptied { OnOk result (self.new ≡ []) }
        ensures err { OnErr result (Grows (W.contents (inner_of writer.old)) (W.contents (inner_of writer.new)) self.old) }
        ensures cause { OnErr result (self.old ≢ []) }
        ensures failed { has_failed writer.new ≡ (has_failed writer.old || is_err result) }
    {
        self.room.flush(writer)
    }

    /// Lets go what is buffered.
    pub fn clear(&mut self)
        ensures { self.new ≡ [] }
    {
        self.room.clear();
    }

    /// Buffers bytes, without memory. Where they don't fit, what is buffered is written, and then
    /// they are.
    pub fn put<W: Write>(&mut self, writer: &mut Watched<W>, bytes: &[u8]) -> Result<(), WriteFault>
        ensures buffers { Buffers (W.contents (inner_of writer.old)) (W.contents (inner_of writer.new)) (self.old ++ bytes.now) self.new result }
        ensures fits { length (self.old ++ bytes.now) ≤ ROOM → (writer.new ≡ writer.old) × (self.new ≡ self.old ++ bytes.now) }
        ensures failed { has_failed writer.new ≡ (has_failed writer.old || is_err result) }
    {
        if bytes.len() > self.room.left() {
            self.flush(writer)?;
            return writer.write_all(bytes);
        }
        self.room.put(bytes);
        Ok(())
    }

    // Buffers a short line.
    fn put_short<W: Write>(
        &mut self,
        writer: &mut Watched<W>,
        reply: ShortReply,
    ) -> Result<(), WriteFault>
        ensures buffers { Buffers (W.contents (inner_of writer.old)) (W.contents (inner_of writer.new)) (self.old ++ short_line reply) self.new result }
        ensures failed { has_failed writer.new ≡ (has_failed writer.old || is_err result) }
    {
        let mut line = Watched::new(ShortLine::new());
        match write_short(&mut line, reply) {
            Ok(()) => self.put(writer, line.inner().as_slice()),
            // doesn't come, since no such line is longer than `SHORT`; but no clause says so
            Err(_) => {
                self.flush(writer)?;
                write_short(writer, reply)
            }
        }
    }

    /// Buffers the refusal of a line that is no command. Takes no memory.
    pub fn put_fault<W: Write>(
        &mut self,
        writer: &mut Watched<W>,
        fault: &LineFault,
    ) -> Result<(), WriteFault>
        ensures buffers { Buffers (W.contents (inner_of writer.old)) (W.contents (inner_of writer.new)) (self.old ++ fault_line fault.now) self.new result }
        ensures failed { has_failed writer.new ≡ (has_failed writer.old || is_err result) }
    {
        self.put_short(writer, ShortReply::Fault(*fault))
    }

    /// Buffers the line of a reply. That of blocks or of a list goes through the buffer as it is written,
    /// and is nowhere whole. Takes no memory.
    pub fn put_reply<W: Write>(
        &mut self,
        writer: &mut Watched<W>,
        reply: &Reply,
    ) -> Result<(), WriteFault>
        ensures buffers { BuffersReply (W.contents (inner_of writer.old)) (W.contents (inner_of writer.new)) self.old (reply_model reply.now) self.new result }
        ensures failed { has_failed writer.new ≡ (has_failed writer.old || is_err result) }
    {
        match reply {
            Reply::Ok => self.put(writer, DONE),
            Reply::Base(base) => self.put_short(writer, ShortReply::Base(*base)),
            Reply::Blocks(answer) => self.room.put_blocks(writer, answer.blocks(), answer.next()),
            Reply::Listing(listing) => put_listing(&mut self.room, writer, listing),
            Reply::Refused(refusal) => self.put_short(writer, ShortReply::Refused(*refusal)),
        }
    }

    /// Moves what is to come of an answer's line behind what is buffered, as far as there is room;
    /// whether all of it has come. Takes no memory. Unless all has, less than 64 bytes of room are
    /// left.
    pub fn fill(&mut self, answer: &Answer, place: &mut LinePlace) -> bool
        ensures told { self.new ++ line_rest answer.now.blocks answer.now.pin.next place.new ≡ self.old ++ line_rest answer.now.blocks answer.now.pin.next place.old }
        ensures grows { length self.old ≤ length self.new }
        ensures done { result ≡ true → line_rest answer.now.blocks answer.now.pin.next place.new ≡ [] }
        ensures full { result ≡ false → ROOM < length self.new + PIECE }
    {
        place.fill(answer.blocks(), answer.next(), &mut self.room)
    }

    /// The same of a list.
    pub fn fill_listing(&mut self, listing: &Listing, place: &mut ListingPlace) -> bool
        ensures told { self.new ++ listing_rest listing.now place.new ≡ self.old ++ listing_rest listing.now place.old }
        ensures grows { length self.old ≤ length self.new }
        ensures done { result ≡ true → listing_rest listing.now place.new ≡ [] }
        ensures full { result ≡ false → ROOM < length self.new + PIECE }
    {
        place.fill(listing, &mut self.room)
    }
}
