//! A reply whose line its caller takes bit by bit.
ghost use Rattle.std.specs.Prelude.{◌≡◌, ◌+◌, ◌<◌, ◌++◌, [], true, false, length, option_copied};
ghost use Rattle.cql_core.specs.declared.reply.Reply.{Reply as reply_type};
ghost use Rattle.cql_wire.specs.Held.{held_line, reply_rest, reply_in_hand, rest_in_hand};
ghost use Rattle.cql_reply.specs.declared.byte_room.TheConstants.{PIECE};
ghost use Rattle.cql_wire.specs.declared.reply_buffer.TheConstants.{ROOM};

use crate::listing_place::ListingPlace;
use crate::reply_buffer::ReplyBuffer;
use cql_core::{Listing, Reply};
use cql_reply::{LinePlace, weight_of};

// The bytes of a query or a stream in a list, beside its name and its text.
const ITEM: usize = 64;

/// A place in the line of a reply: in that of an answer, or in that of a list.
#[derive(Clone, Copy)]
pub struct ReplyPlace {
    blocks: LinePlace,
    listing: ListingPlace,
}

/// The reply to a fetch or a list whose line is told as its caller takes it, and how far it is told. No
/// text of the line is held. The reply is its own, or somebody else's, who lends it at each call.
pub struct HeldReply {
    reply: Option<Reply>,
    place: ReplyPlace,
    // what it weighs, in bytes, once that was asked
    weight: usize,
}

impl Drop for HeldReply {
    fn drop(self) {
        let HeldReply {
            reply: _,
            place: _,
            weight: _,
        } = self;
    }
}

impl HeldReply {
    /// One of which nothing is told yet: its own, or a lent one.
    pub fn new(reply: Option<Reply>) -> HeldReply
        ensures reply { result.reply ≡ reply }
        ensures begins { (known : reply_type) → reply_rest known result.place ≡ held_line known }
    {
        HeldReply {
            reply,
            place: ReplyPlace {
                blocks: LinePlace::start(),
                listing: ListingPlace::start(),
            },
            weight: 0,
        }
    }

    /// Moves what is to come of the line behind what is buffered, as far as there is room; whether all of
    /// it has come. Unless all has, less than `PIECE` bytes of room are left. A reply of another kind has no
    /// line here. Takes no memory.
    pub fn fill(&mut self, lent: Option<&Reply>, buffer: &mut ReplyBuffer) -> bool
        ensures told { buffer.new ++ rest_in_hand (reply_in_hand self.new.reply (option_copied lent.entry)) self.new.place ≡ buffer.old ++ rest_in_hand (reply_in_hand self.old.reply (option_copied lent.entry)) self.old.place }
        ensures done { result ≡ true → rest_in_hand (reply_in_hand self.new.reply (option_copied lent.entry)) self.new.place ≡ [] }
        ensures full { result ≡ false → ROOM < length buffer.new + PIECE }
    {
        match in_hand(&self.reply, lent) {
            Some(Reply::Blocks(answer)) => buffer.fill(answer, &mut self.place.blocks),
            Some(Reply::Listing(listing)) => buffer.fill_listing(listing, &mut self.place.listing),
            _ => true,
        }
    }

    /// Asks what it weighs, where that wasn't asked before.
    pub fn weigh(&mut self, lent: Option<&Reply>)
        ensures same { (self.new.reply ≡ self.old.reply) × (self.new.place ≡ self.old.place) }
    {
        if self.weight > 0 {
            return;
        }
        let weight = match in_hand(&self.reply, lent) {
            Some(Reply::Blocks(answer)) => weight_of(answer.blocks()),
            Some(Reply::Listing(listing)) => weight_of_listing(listing),
            _ => 0,
        };
        self.weight = weight;
    }

    /// What it weighs, in bytes; 0 where that wasn't asked for.
    pub fn weight(&self) -> usize {
        self.weight
    }
}

// A reply of its own, or else the one that is lent.
fn in_hand<'a, R>(own: &'a Option<R>, lent: Option<&'a R>) -> Option<&'a R>
    ensures { option_copied result ≡ reply_in_hand own.now (option_copied lent.entry) }
{
    match own {
        Some(own) => Some(own),
        None => lent,
    }
}

// What a list keeps: of granted streams it shares the texts with the grants.
fn weight_of_listing(listing: &Listing) -> usize {
    let mut weight = listing.readable.as_slice().len().saturating_mul(ITEM);
    for stream in listing.streams.as_slice() {
        weight = weight
            .saturating_add(ITEM)
            .saturating_add(stream.name.len());
    }
    for query in listing.queries.as_slice() {
        weight = weight
            .saturating_add(ITEM)
            .saturating_add(query.name.len())
            .saturating_add(query.text.len());
    }
    weight
}
