// A place in a text that is made of pieces, one behind the other.
ghost use Rattle.std.specs.Prelude.{◌≡◌, ◌+◌, ◌<◌, ◌≤◌, ◌++◌, List, [], true, false, length, map, drop, ◌⊎◌};
ghost use Rattle.cql_reply.specs.Pieces.{PieceText, column_text, column_rest, piece_of, piece_text, pieces_text, piece_rest, pieces_rest};
ghost use Rattle.cql_reply.specs.declared.byte_room.TheConstants.{PIECE};

use crate::byte_room::ByteRoom;
use crate::list_place::ListPlace;
use crate::text_place::TextPlace;
use crate::value_place::{ValuePlace, put_escaped};
use cql_value::Column;

/// A piece of a text.
#[derive(Clone, Copy)]
pub enum Piece<'a> {
    /// Bytes as they stand.
    Plain(&'a [u8]),
    /// The digits of a number.
    Number(u64),
    /// A text, escaped, without its quotes.
    Escaped(&'a [u8]),
    /// The names of columns, as a list of texts.
    Names(&'a [Column]),
}

/// A place in the name of a column, as a text.
#[derive(Clone, Copy)]
pub struct NamePlace {
    text: ValuePlace,
}

impl TextPlace for NamePlace {
    type Whole = Column;

    ghost text = { column_text };

    ghost rest = { column_rest };

    fn start() -> Self {
        NamePlace {
            text: ValuePlace::Opening,
        }
    }

    fn put_short(_whole: &Column, _room: &mut ByteRoom) -> bool {
        false
    }

    fn fill(&mut self, whole: &Column, room: &mut ByteRoom) -> bool {
        self.text.fill_text(whole.name.as_str().as_bytes(), room)
    }
}

/// A place in a piece.
#[derive(Clone, Copy)]
pub struct PiecePlace {
    // how many of its bytes are told
    at: usize,
    // the place in its names
    names: ListPlace<NamePlace>,
}

impl PiecePlace {
    // The place before all of any piece.
    fn start() -> Self
        ensures { (piece : PieceText) → piece_rest piece result ≡ piece_text piece }
    {
        PiecePlace {
            at: 0,
            names: ListPlace::start(),
        }
    }

    // Tells what is behind the place, as far as there is room for it; whether all is told.
    fn fill(&mut self, piece: &Piece<'_>, room: &mut ByteRoom) -> bool
        ensures told { room.new.bytes ++ piece_rest (piece_of piece.now) self.new ≡ room.old.bytes ++ piece_rest (piece_of piece.now) self.old }
        ensures within { (length room.old.bytes ≤ length room.new.bytes) × (room.new.size ≡ room.old.size) × (result ≡ false → room.new.size < length room.new.bytes + PIECE) }
        ensures done { result ≡ true → piece_rest (piece_of piece.now) self.new ≡ [] }
    {
        match piece {
            Piece::Plain(bytes) => {
                self.at = put_plain(bytes, self.at, room);
                self.at >= bytes.len()
            }
            Piece::Number(number) => {
                let mut digits = itoa::Buffer::new();
                let bytes = digits.format(*number).as_bytes();
                self.at = put_plain(bytes, self.at, room);
                self.at >= bytes.len()
            }
            Piece::Escaped(text) => {
                self.at = put_escaped(text, self.at, room);
                self.at >= text.len()
            }
            Piece::Names(columns) => self.names.fill(columns, room),
        }
    }
}

// Tells bytes from one on, as far as there is room for them; the byte that comes next.
#[tactic(auto, using(crate::proofs::Pieces::told_plain))]
fn put_plain(bytes: &[u8], from: usize, room: &mut ByteRoom) -> usize
    ensures told { room.new.bytes ++ drop result bytes.now ≡ room.old.bytes ++ drop from bytes.now }
    ensures within { (length room.old.bytes ≤ length room.new.bytes) × (room.new.size ≡ room.old.size) × ((length bytes.now ≤ result) ⊎ (room.new.size < length room.new.bytes + PIECE)) }
{
    if from >= bytes.len() {
        return from;
    }
    let rest = &bytes[from..];
    let count = rest.len().min(room.left());
    room.put(&rest[..count]);
    from + count
}

/// A place in a text that is made of pieces.
#[derive(Clone, Copy)]
pub struct PiecesPlace {
    // the piece that comes next, or in which the place is
    index: usize,
    // the place in that piece
    inner: PiecePlace,
}

impl PiecesPlace {
    /// The place before all of any pieces.
    pub fn start() -> Self
        ensures { (pieces : List PieceText) → pieces_rest pieces result ≡ pieces_text pieces }
    {
        PiecesPlace {
            index: 0,
            inner: PiecePlace::start(),
        }
    }

    /// Tells what is behind the place, as far as there is room for it; whether all is told. Takes no
    /// memory.
    pub fn fill(&mut self, pieces: &[Piece<'_>], room: &mut ByteRoom) -> bool
        ensures told { room.new.bytes ++ pieces_rest (map piece_of pieces.now) self.new ≡ room.old.bytes ++ pieces_rest (map piece_of pieces.now) self.old }
        ensures grows { length room.old.bytes ≤ length room.new.bytes }
        ensures size { room.new.size ≡ room.old.size }
        ensures done { result ≡ true → pieces_rest (map piece_of pieces.now) self.new ≡ [] }
        ensures full { result ≡ false → room.new.size < length room.new.bytes + PIECE }
    {
        while let Some(piece) = pieces.get(self.index) {
            if !self.inner.fill(piece, room) {
                return false;
            }
            self.index += 1;
            self.inner = PiecePlace::start();
        }
        true
    }
}
