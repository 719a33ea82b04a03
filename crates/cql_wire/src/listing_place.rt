// A place in the line of a list.
ghost use Rattle.std.specs.Prelude.{◌≡◌, ◌||◌, ◌+◌, ◌<◌, ◌≤◌, ◌++◌, [], true, false, length, is_err};
ghost use Rattle.cql_core.specs.declared.listing.Listing.{Listing as listing};
ghost use Rattle.cql_lines.specs.Watched.{inner_of, has_failed};
ghost use Rattle.cql_wire.specs.Buffered.{Buffers};
ghost use Rattle.cql_wire.specs.Line.{query_text, readable_text, stream_text, listing_line};
ghost use Rattle.cql_reply.specs.Place.{list_rest};
ghost use Rattle.cql_wire.specs.Listing.{query_rest, readable_rest, stream_rest, listing_rest};
ghost use Rattle.cql_reply.specs.declared.byte_room.TheConstants.{PIECE};

use cql_core::{GrantedStream, Listing, OwnQuery, OwnStream};
use cql_lines::{Watched, WriteFault};
use cql_reply::{ByteRoom, ListPlace, Piece, PiecesPlace, TextPlace};
use std::io::Write;

/// A place in what a list tells of a query.
#[derive(Clone, Copy)]
pub struct QueryPlace {
    pieces: PiecesPlace,
}

impl TextPlace for QueryPlace {
    type Whole = OwnQuery;

    ghost text = { query_text };

    ghost rest = { query_rest };

    fn start() -> Self {
        QueryPlace {
            pieces: PiecesPlace::start(),
        }
    }

    fn put_short(_whole: &OwnQuery, _room: &mut ByteRoom) -> bool {
        false
    }

    fn fill(&mut self, whole: &OwnQuery, room: &mut ByteRoom) -> bool {
        self.pieces.fill(
            &[
                Piece::Plain(b"{\"base\":"),
                Piece::Number(whole.base),
                Piece::Plain(b",\"name\":\""),
                Piece::Escaped(whole.name.as_str().as_bytes()),
                Piece::Plain(b"\",\"next\":"),
                Piece::Number(whole.next),
                Piece::Plain(b",\"text\":\""),
                Piece::Escaped(whole.text.as_str().as_bytes()),
                Piece::Plain(b"\"}"),
            ],
            room,
        )
    }
}

/// A place in what a list tells of a stream that was granted.
#[derive(Clone, Copy)]
pub struct ReadablePlace {
    pieces: PiecesPlace,
}

impl TextPlace for ReadablePlace {
    type Whole = GrantedStream;

    ghost text = { readable_text };

    ghost rest = { readable_rest };

    fn start() -> Self {
        ReadablePlace {
            pieces: PiecesPlace::start(),
        }
    }

    fn put_short(_whole: &GrantedStream, _room: &mut ByteRoom) -> bool {
        false
    }

    fn fill(&mut self, whole: &GrantedStream, room: &mut ByteRoom) -> bool {
        let opened = Piece::Number(whole.opened());
        let owner = Piece::Escaped(whole.owner().as_bytes());
        let stream = Piece::Escaped(whole.stream().as_bytes());
        match whole.columns() {
            Some(columns) => self.pieces.fill(
                &[
                    Piece::Plain(b"{\"columns\":"),
                    Piece::Names(columns),
                    Piece::Plain(b",\"open\":"),
                    opened,
                    Piece::Plain(b",\"stream\":\""),
                    owner,
                    Piece::Plain(b"."),
                    stream,
                    Piece::Plain(b"\"}"),
                ],
                room,
            ),
            None => self.pieces.fill(
                &[
                    Piece::Plain(b"{\"open\":"),
                    opened,
                    Piece::Plain(b",\"stream\":\""),
                    owner,
                    Piece::Plain(b"."),
                    stream,
                    Piece::Plain(b"\"}"),
                ],
                room,
            ),
        }
    }
}

/// A place in what a list tells of a stream of the tenant's own.
#[derive(Clone, Copy)]
pub struct StreamPlace {
    pieces: PiecesPlace,
}

impl TextPlace for StreamPlace {
    type Whole = OwnStream;

    ghost text = { stream_text };

    ghost rest = { stream_rest };

    fn start() -> Self {
        StreamPlace {
            pieces: PiecesPlace::start(),
        }
    }

    fn put_short(_whole: &OwnStream, _room: &mut ByteRoom) -> bool {
        false
    }

    fn fill(&mut self, whole: &OwnStream, room: &mut ByteRoom) -> bool {
        self.pieces.fill(
            &[
                Piece::Plain(b"{\"name\":\""),
                Piece::Escaped(whole.name.as_str().as_bytes()),
                Piece::Plain(b"\",\"open\":"),
                Piece::Number(whole.opened),
                Piece::Plain(b"}"),
            ],
            room,
        )
    }
}

/// A place in the line of a list.
#[derive(Clone, Copy)]
pub enum ListingPlace {
    /// Before all of it.
    Beginning,
    /// In its queries.
    Queries(ListPlace<QueryPlace>),
    /// In the streams that were granted.
    Readable(ListPlace<ReadablePlace>),
    /// In the tenant's own streams.
    Streams(ListPlace<StreamPlace>),
    /// Behind all of it.
    Ended,
}

impl ListingPlace {
    /// The place before all of any line.
    pub fn start() -> Self
        ensures { (l : listing) → listing_rest l result ≡ listing_line l }
    {
        ListingPlace::Beginning
    }

    /// Tells what is behind the place, as far as there is room for it; whether all is told. Takes no
    /// memory.
    pub fn fill(&mut self, listing: &Listing, room: &mut ByteRoom) -> bool
        ensures told { room.new.bytes ++ listing_rest listing.now self.new ≡ room.old.bytes ++ listing_rest listing.now self.old }
        ensures grows { length room.old.bytes ≤ length room.new.bytes }
        ensures size { room.new.size ≡ room.old.size }
        ensures done { result ≡ true → listing_rest listing.now self.new ≡ [] }
        ensures full { result ≡ false → room.new.size < length room.new.bytes + PIECE }
    {
        'parts: loop {
            match self {
                ListingPlace::Beginning => {
                    if !room.has_room() {
                        return false;
                    }
                    room.put(b"{\"queries\":");
                    *self = ListingPlace::Queries(ListPlace::start());
                }
                ListingPlace::Queries(place) => {
                    if !fill_list(place, listing.queries.as_slice(), b",\"readable\":", room) {
                        return false;
                    }
                    *self = ListingPlace::Readable(ListPlace::start());
                }
                ListingPlace::Readable(place) => {
                    if !fill_list(place, listing.readable.as_slice(), b",\"streams\":", room) {
                        return false;
                    }
                    *self = ListingPlace::Streams(ListPlace::start());
                }
                ListingPlace::Streams(place) => {
                    if !fill_list(place, listing.streams.as_slice(), b"}\n", room) {
                        return false;
                    }
                    *self = ListingPlace::Ended;
                }
                ListingPlace::Ended => return true,
            }
        }
    }
}

// Tells what is behind a place in a list, as far as there is room for it, and then what stands behind the
// list; whether both are told.
fn fill_list<P: TextPlace>(
    place: &mut ListPlace<P>,
    wholes: &[P::Whole],
    behind: &[u8],
    room: &mut ByteRoom,
) -> bool
    requires { length behind.now ≤ PIECE }
    ensures told { result ≡ true → room.new.bytes ≡ room.old.bytes ++ (list_rest P.text P.rest wholes.now place.old ++ behind.now) }
    ensures left { result ≡ false → room.new.bytes ++ list_rest P.text P.rest wholes.now place.new ≡ room.old.bytes ++ list_rest P.text P.rest wholes.now place.old }
    ensures within { (length room.old.bytes ≤ length room.new.bytes) × (room.new.size ≡ room.old.size) × (result ≡ false → room.new.size < length room.new.bytes + PIECE) }
{
    if !place.fill(wholes, room) || !room.has_room() {
        return false;
    }
    room.put(behind);
    true
}

/// Holds the line of a list behind what a room holds; where that is too much, what it holds is written,
/// and it goes on. Takes no memory.
pub(crate) fn put_listing<W: Write>(
    room: &mut ByteRoom,
    writer: &mut Watched<W>,
    listing: &Listing,
) -> Result<(), WriteFault>
    requires { PIECE ≤ room.old.size }
    ensures buffers { Buffers (W.contents (inner_of writer.old)) (W.contents (inner_of writer.new)) (room.old.bytes ++ listing_line listing.now) room.new.bytes result }
    ensures size { room.new.size ≡ room.old.size }
    ensures failed { has_failed writer.new ≡ (has_failed writer.old || is_err result) }
{
    let mut place = ListingPlace::start();
    'rooms: while !place.fill(listing, room) {
        room.flush(writer)?;
    }
    Ok(())
}
