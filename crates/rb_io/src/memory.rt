// Sinks in memory: they keep what is put, in pieces, up to a room.
ghost use Rattle.std.specs.Prelude.{◌≡◌, ◌≤◌, ◌<◌, ◌-◌, ◌+◌, [], ◌++◌, true, IsTrue, length, take, IfOk, OnErr, IsOk, IsErr, ◌↔◌, ◌⊎◌, Contains};
ghost use Rattle.rb_io.specs.Outside.{HasCause, counted};
ghost use Rattle.rb_io.specs.Pieces.{moved};

use crate::mem_bytes::MemBytes;
use crate::tally::Tally;
use crate::{Failed, Sink};
use std::alloc::{AllocError, Global};

/// A sink in memory, some of whose calls are to fail.
#[derive(Drop)]
pub struct MemSink {
    held: MemBytes,
    tally: Tally,
}

impl MemSink {
    ghost use Rattle.rb_io.specs.MemBytes.{put_of};
    ghost use Rattle.rb_io.specs.Tally.{IsUnused};

    /// With no byte, and room for `room`. A write takes at most `piece` bytes. Of the calls of
    /// `Sink` on it, counted from 1, those whose numbers are in `fail` are to fail.
    pub fn new(alloc: Global, room: usize, piece: usize, fail: &[u64]) -> Result<Self, AllocError>
        requires { 1 ≤ piece }
        ensures empty { IfOk result (λ sink. put_of sink.held ≡ []) }
        ensures room { IfOk result (λ sink. sink.held.room ≡ room) }
        ensures piece { IfOk result (λ sink. sink.held.piece ≡ piece) }
        ensures unused { IfOk result (λ sink. IsUnused sink.tally fail.now) }
    {
        Ok(MemSink {
            held: MemBytes::new(alloc, room, piece)?,
            tally: Tally::new(alloc, fail)?,
        })
    }

    /// What was put.
    pub fn bytes(&self) -> &[u8]
        ensures { result.now ≡ put_of self.now.held }
    {
        self.held.kept.as_slice()
    }
}

impl Sink for MemSink {
    ghost use Rattle.rb_io.specs.MemBytes.{put_of, spare_of, IsFull, HasSameRoom};

    ghost tells = { λ _. true };

    ghost put = { λ s. put_of s.held };

    ghost faults = { λ s. s.tally.faults };

    fn write(&mut self, bytes: &[u8]) -> Result<usize, Failed>
        ensures bound { IfOk result (λ n. n ≤ length bytes.now) }
        ensures some { 0 < length bytes.now → IfOk result (λ n. 0 < n) }
        ensures puts { IfOk result (λ n. put_of self.new.held ≡ put_of self.old.held ++ take n bytes.now) }
        ensures stays { OnErr result (put_of self.new.held ≡ put_of self.old.held) }
        ensures cause { HasCause self.old.tally.faults self.new.tally.faults result }

        // The call is counted, and fails exactly where its number is listed or no room is left
        // for a piece that is not empty. It takes all that fits.
        ensures setup { HasSameRoom self.old.held self.new.held }
        ensures fail { self.new.tally.fail.items ≡ self.old.tally.fail.items }
        ensures calls { self.new.tally.calls ≡ counted self.old.tally.calls 1 }
        ensures fails { IsErr result
            ↔ (Contains self.old.tally.fail.items self.new.tally.calls ⊎ (IsFull self.old.held × (0 < length bytes.now))) }
        ensures raised { OnErr result (self.new.tally.faults ≡ counted self.old.tally.faults 1) }
        ensures count { IfOk result (λ n. n ≡ moved (length bytes.now) self.old.held.piece (spare_of self.old.held)) }
    {
        self.tally.call()?;
        let count = self.held.put(bytes);
        if count == 0 && !bytes.is_empty() {
            return Err(self.tally.fault());
        }
        Ok(count)
    }
}

/// A sink in memory none of whose calls fails: its count of faults is 0. Once its room is used up
/// it keeps nothing, and tells no bytes from then on.
#[derive(Drop)]
pub struct NoFaultsSink {
    held: MemBytes,
    tells: bool,
}

impl NoFaultsSink {
    ghost use Rattle.rb_io.specs.MemBytes.{put_of};

    /// With no byte, and room for `room`. A write takes at most `piece` bytes.
    pub fn new(alloc: Global, room: usize, piece: usize) -> Result<Self, AllocError>
        requires { 1 ≤ piece }
        ensures empty { IfOk result (λ sink. put_of sink.held ≡ []) }
        ensures tells { IfOk result (λ sink. IsTrue sink.tells) }
        ensures room { IfOk result (λ sink. sink.held.room ≡ room) }
        ensures piece { IfOk result (λ sink. sink.held.piece ≡ piece) }
    {
        Ok(NoFaultsSink {
            held: MemBytes::new(alloc, room, piece)?,
            tells: true,
        })
    }

    /// What was kept.
    pub fn bytes(&self) -> &[u8]
        ensures { result.now ≡ put_of self.now.held }
    {
        self.held.kept.as_slice()
    }
}

impl Sink for NoFaultsSink {
    ghost use Rattle.rb_io.specs.MemBytes.{put_of, spare_of, IsFull, HasSameRoom};

    ghost tells = { λ s. s.tells };

    ghost put = { λ s. put_of s.held };

    ghost faults = { λ _. 0 };

    fn write(&mut self, bytes: &[u8]) -> Result<usize, Failed>
        ensures tells { IsTrue self.new.tells → IsTrue self.old.tells }
        ensures bound { IfOk result (λ n. n ≤ length bytes.now) }
        ensures some { 0 < length bytes.now → IfOk result (λ n. 0 < n) }
        ensures puts { IsTrue self.new.tells → IfOk result (λ n. put_of self.new.held ≡ put_of self.old.held ++ take n bytes.now) }
        ensures stays { OnErr result (put_of self.new.held ≡ put_of self.old.held) }
        ensures cause { HasCause 0 0 result }

        // No call fails. One that finds no room for a piece that is not empty keeps nothing, and no
        // bytes are told from then on.
        ensures setup { HasSameRoom self.old.held self.new.held }
        ensures ok { IsOk result }
        ensures full { IsFull self.old.held → 0 < length bytes.now → put_of self.new.held ≡ put_of self.old.held }
        ensures told { IsTrue self.new.tells ↔ (IsTrue self.old.tells × (IsFull self.old.held → length bytes.now ≡ 0)) }
        ensures count { IsTrue self.new.tells
            → IfOk result (λ n. n ≡ moved (length bytes.now) self.old.held.piece (spare_of self.old.held)) }
    {
        let count = self.held.put(bytes);
        if count == 0 && !bytes.is_empty() {
            self.tells = false;
            return Ok(1);
        }
        Ok(count)
    }
}
