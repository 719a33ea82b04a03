// What a thread needs for the sessions that it serves.
ghost use Rattle.std.specs.Prelude.{◌≡◌, [], IfOk, vec_len};

use crate::spare_room::{CHUNK, SpareRoom};
use cql_wire::{ReplyBuffer, Scratch};
use std::alloc::{AllocError, Global};

/// Room for a read, for reading lines, and for replies, and room that is lent.
pub struct SessionBuffers {
    pub chunk: Vec<u8>,
    pub scratch: Scratch,
    pub buffer: ReplyBuffer,
    pub(crate) spare: SpareRoom,
}

impl Drop for SessionBuffers {
    fn drop(self) {
        let SessionBuffers {
            chunk: _,
            scratch: _,
            buffer: _,
            spare: _,
        } = self;
    }
}

impl SessionBuffers {
    /// Nothing is buffered.
    pub fn new(alloc: Global) -> Result<SessionBuffers, AllocError>
        ensures buffer { IfOk result (λ buffers. buffers.buffer ≡ []) }
        ensures room { IfOk result (λ buffers. vec_len buffers.chunk ≡ CHUNK) }
    {
        let chunk = vec![in alloc; 0; CHUNK]?;
        let buffer = ReplyBuffer::new(alloc)?;
        Ok(SessionBuffers {
            chunk,
            scratch: Scratch::new(alloc),
            buffer,
            spare: SpareRoom::new(alloc),
        })
    }
}
