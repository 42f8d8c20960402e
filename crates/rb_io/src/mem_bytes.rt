// Bytes that are kept in memory, which both sinks in memory are made of.
ghost use Rattle.std.specs.Prelude.{◌≡◌, ◌≤◌, ◌-◌, [], ◌++◌, length, take, IfOk, vec_capacity};
ghost use Rattle.rb_io.specs.Pieces.{moved as moved_of};

use crate::pieces::moved;
use std::alloc::{AllocError, Global};

/// Bytes that are kept, up to a room, which was reserved.
#[derive(Drop)]
pub(crate) struct MemBytes {
    pub(crate) kept: Vec<u8>,
    pub(crate) room: usize,
    /// The most bytes that a call takes.
    pub(crate) piece: usize,
    ghost positive: { 1 ≤ piece },
    ghost fits: { length kept.items ≤ room },
    ghost reserved: { room ≤ vec_capacity kept },
}

impl MemBytes {
    ghost use Rattle.rb_io.specs.MemBytes.{put_of, spare_of, HasSameRoom};

    /// With no byte.
    pub(crate) fn new(alloc: Global, room: usize, piece: usize) -> Result<Self, AllocError>
        requires { 1 ≤ piece }
        ensures empty { IfOk result (λ held. put_of held ≡ []) }
        ensures room { IfOk result (λ held. held.room ≡ room) }
        ensures piece { IfOk result (λ held. held.piece ≡ piece) }
    {
        Ok(MemBytes {
            kept: Vec::with_capacity(alloc, room)?,
            room,
            piece,
        })
    }

    /// Keeps what there is room for, from the front, at most `piece` bytes, and tells how many.
    pub(crate) fn put(&mut self, bytes: &[u8]) -> usize
        ensures setup { HasSameRoom self.old self.new }
        ensures count { result ≡ moved_of (length bytes.now) self.old.piece (spare_of self.old) }
        ensures puts { put_of self.new ≡ put_of self.old ++ take result bytes.now }
    {
        let count = moved(bytes.len(), self.piece, self.room - self.kept.len());
        self.kept.extend_from_slice(&bytes[..count]).unwrap();
        count
    }
}
