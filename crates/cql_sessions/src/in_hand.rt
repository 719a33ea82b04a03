// The reply that a caller takes bit by bit.
ghost use Rattle.std.specs.Prelude.{◌≡◌, ◌≢◌, ◌+◌, ◌<◌, ◌≤◌, ◌++◌, [], Option, Some, None, true, false, length, is_none, option_copied};
ghost use Rattle.cql_core.specs.declared.reply.Reply.{Reply as reply_type};
ghost use Rattle.cql_core.specs.Steps.{reply_model};
ghost use Rattle.cql_lines.specs.Watched.{inner_of};
ghost use Rattle.cql_wire.specs.Buffered.{BuffersReply};
ghost use Rattle.cql_sessions.specs.InHand.{to_come, line_in_hand, is_long};
ghost use Rattle.cql_reply.specs.declared.byte_room.TheConstants.{PIECE};
ghost use Rattle.cql_wire.specs.declared.reply_buffer.TheConstants.{ROOM};

use cql_core::Reply;
use cql_wire::{HeldReply, ReplyBuffer, Watched, WriteFault};
use std::io::Write;
use std::mem;

/// How a caller is told replies, and what is in hand: the reply to a fetch or a list of which something is
/// still to come, and a place in its line. No bytes of the line are kept here.
pub(crate) struct Taking {
    // whether a long reply is told as its caller takes it, and not all at once
    is_bitwise: bool,
    held: Option<HeldReply>,
}

impl Drop for Taking {
    fn drop(self) {
        let Taking {
            is_bitwise: _,
            held: _,
        } = self;
    }
}

impl Taking {
    /// Nothing is in hand. Replies are told bit by bit, or at once.
    pub(crate) fn new(is_bitwise: bool) -> Taking
        ensures { result.held ≡ None }
    {
        Taking {
            is_bitwise,
            held: None,
        }
    }

    /// Whether nothing is in hand.
    pub(crate) fn is_done(&self) -> bool
        ensures { result ≡ is_none self.now.held }
    {
        self.held.is_none()
    }

    /// Tells a reply behind what is buffered: a long one as far as there is room, where it is told bit by
    /// bit, and then it is taken, and the rest of it is in hand; else all of it, where it is.
    pub(crate) fn begin<W: Write>(
        &mut self,
        writer: &mut Watched<W>,
        reply: &mut Reply,
        buffer: &mut ReplyBuffer,
    ) -> Result<(), WriteFault>
        ensures told { BuffersReply (W.contents (inner_of writer.old)) (W.contents (inner_of writer.new)) buffer.old (reply_model reply.old) (buffer.new ++ to_come self.new.held None) result }
    {
        if self.is_bitwise && is_long(reply) {
            self.hold(Some(mem::replace(reply, Reply::Ok)));
            self.fill(None, buffer);
            return Ok(());
        }
        self.let_go();
        buffer.put_reply(writer, reply)
    }

    /// The same of a reply that is lent, now and at each call.
    pub(crate) fn begin_lent<W: Write>(
        &mut self,
        writer: &mut Watched<W>,
        reply: &Reply,
        buffer: &mut ReplyBuffer,
    ) -> Result<(), WriteFault>
        ensures told { BuffersReply (W.contents (inner_of writer.old)) (W.contents (inner_of writer.new)) buffer.old (reply_model reply.now) (buffer.new ++ to_come self.new.held (Some reply.now)) result }
    {
        if self.is_bitwise && is_long(reply) {
            self.hold(None);
            self.fill(Some(reply), buffer);
            return Ok(());
        }
        self.let_go();
        buffer.put_reply(writer, reply)
    }

    // Nothing is in hand. No place is written where none was: that is the usual case, and a place is large.
    fn let_go(&mut self)
        ensures { self.new.held ≡ None }
    {
        if self.held.is_some() {
            self.held = None;
        }
    }

    // A reply is in hand of which nothing is told yet: its own, or one that is lent. Not inlined: the place
    // is large, and room for it would be made ready for short replies too.
    #[inline(never)]
    fn hold(&mut self, own: Option<Reply>)
        ensures begins { (lent : Option reply_type) → to_come self.new.held lent ≡ line_in_hand own lent }
    {
        self.held = Some(HeldReply::new(own));
    }

    /// Moves what is to come of the reply in hand behind what is buffered, as far as there is room. Takes
    /// no memory. Unless all has come, less than `PIECE` bytes of room are left.
    pub(crate) fn fill(&mut self, lent: Option<&Reply>, buffer: &mut ReplyBuffer)
        ensures told { buffer.new ++ to_come self.new.held (option_copied lent.entry) ≡ buffer.old ++ to_come self.old.held (option_copied lent.entry) }
        ensures full { self.new.held ≢ None → ROOM < length buffer.new + PIECE }
    {
        let Some(held) = &mut self.held else {
            return;
        };
        if held.fill(lent, buffer) {
            self.held = None;
        } else {
            held.weigh(lent);
        }
    }

    /// What the reply in hand weighs, in bytes, as far as that is counted: up to some 64 MiB.
    pub(crate) fn weight(&self) -> usize {
        match &self.held {
            Some(held) => held.weight(),
            None => 0,
        }
    }
}

// Whether it is the reply to a fetch that was answered, or to a list.
fn is_long(reply: &Reply) -> bool
    ensures { result ≡ is_long reply.now }
{
    matches!(reply, Reply::Blocks(_) | Reply::Listing(_))
}
