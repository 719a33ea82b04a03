// Room that a connection borrows for a turn, so that none is asked for behind what is done in it.
ghost use Rattle.std.specs.Prelude.{◌≡◌, ◌+◌, ◌≤◌, [], true, length, IfOk, IsOk, OnOk, vec_len, vec_capacity};

use std::alloc::{AllocError, Global};
use std::mem;

/// How many bytes one read may give.
pub(crate) const CHUNK: usize = 8192;

// So many bytes of replies a turn has at most for a caller who takes none: 64 KiB are passed before its last
// line, which may be a fetch behind as many more, whose reply has as many at once.
const TURN: usize = 192 << 10;

// So many bytes of a reply are told in a turn that goes on with it.
const PIECE: usize = 64 << 10;

// So many bytes are enough for replies that wait for a moment, ..
const FEW: usize = 4 << 10;

// .. and so many for one of them, which is asked for and let go of sooner.
const LEAST: usize = 128;

/// Room that a worker lends to connections.
#[derive(Drop)]
pub(crate) struct SpareRoom {
    // for what is read and not used yet
    unread: Vec<u8>,
    // for all that a turn may have for a caller who takes none
    whole: Vec<u8>,
    // for what is held back between turns: of a long reply, or few bytes, or the least
    piece: Vec<u8>,
    few: Vec<u8>,
    least: Vec<u8>,
}

impl SpareRoom {
    /// None yet: what is lent is asked for then.
    pub(crate) fn new(alloc: Global) -> SpareRoom {
        SpareRoom {
            unread: Vec::new(alloc),
            whole: Vec::new(alloc),
            piece: Vec::new(alloc),
            few: Vec::new(alloc),
            least: Vec::new(alloc),
        }
    }

    /// Has a connection hold what it holds in room for all that one turn may add; and has room at hand
    /// for what it is to keep behind that turn.
    pub(crate) fn lend(&mut self, held: &mut Vec<u8>) -> Result<(), AllocError>
        ensures same { held.new.items ≡ held.old.items }
        ensures room { OnOk result (vec_len held.new + TURN ≤ vec_capacity held.new) }
        ensures unread { OnOk result (CHUNK ≤ vec_capacity self.new.unread) }
    {
        self.unread.reserve_exact(CHUNK)?;
        self.piece.reserve_exact(PIECE)?;
        self.few.reserve_exact(FEW)?;
        self.least.reserve_exact(LEAST)?;
        self.whole.clear();
        self.whole.extend_from_slice(held.as_slice())?;
        self.whole.reserve_exact(TURN)?;
        mem::swap(&mut self.whole, held);
        Ok(())
    }

    /// Has a connection keep what it holds behind a turn in no more room than that needs, and that for a
    /// piece while more of a reply is to come. Asks for no memory.
    pub(crate) fn take_back(&mut self, alloc: Global, held: &mut Vec<u8>, is_telling: bool)
        ensures same { held.new.items ≡ held.old.items }
        ensures room { is_telling ≡ true → PIECE ≤ vec_capacity held.old → PIECE ≤ vec_capacity held.new }
    {
        let whole = &mut self.whole;
        if is_telling || held.len() > FEW {
            keep_in(alloc, held, &mut self.piece, whole, PIECE);
        } else if held.is_empty() {
            let mut room = mem::replace(held, Vec::new(alloc));
            give_back(alloc, &mut room, whole);
        } else if held.len() > LEAST {
            keep_in(alloc, held, &mut self.few, whole, FEW);
        } else {
            keep_in(alloc, held, &mut self.least, whole, LEAST);
        }
    }

    /// A copy of what is read and not used yet, in the room for it.
    pub(crate) fn keep_unread(&mut self, alloc: Global, bytes: &[u8]) -> Result<Vec<u8>, AllocError>
        ensures kept { IfOk result (λ kept. kept.items ≡ bytes.now) }
        ensures room { length bytes.now ≤ vec_capacity self.old.unread → IsOk result }
    {
        let mut kept = Vec::new(alloc);
        if !bytes.is_empty() {
            mem::swap(&mut kept, &mut self.unread);
            kept.clear();
            kept.extend_from_slice(bytes)?;
        }
        Ok(kept)
    }
}

// Has the bytes kept in another room, of at least this size, and gives theirs back; unless they don't fit there,
// or theirs is as large.
fn keep_in(alloc: Global, held: &mut Vec<u8>, room: &mut Vec<u8>, whole: &mut Vec<u8>, size: usize)
    ensures same { held.new.items ≡ held.old.items }
    ensures size { size ≤ vec_capacity held.old → size ≤ vec_capacity held.new }
{
    let capacity = room.capacity();
    if capacity < size || capacity < held.len() || capacity == held.capacity() {
        return;
    }
    room.clear();
    if room.extend_from_slice(held.as_slice()).is_ok() {
        mem::swap(held, room);
        give_back(alloc, room, whole);
    }
}

// Gives room back that was borrowed: it is the whole one again, where it is larger; else it is let go.
fn give_back(alloc: Global, room: &mut Vec<u8>, whole: &mut Vec<u8>) {
    if room.capacity() > whole.capacity() {
        mem::swap(room, whole);
    }
    *room = Vec::new(alloc);
}
