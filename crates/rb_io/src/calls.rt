// Names read whole, and pieces put whole.
ghost use Rattle.std.specs.Prelude.{◌≡◌, ◌≤◌, ◌<◌, ℕ, List, [], ◌++◌, IsTrue, length, Some, IfOk, OnOk, IsErrOf};
ghost use Rattle.rb_io.specs.Outside.{HasCause, Rose};
ghost use Rattle.rb_io.specs.Calls.{PutsPart, fault_word};

use crate::{Failed, Inputs, Sink};
use std::alloc::{AllocError, AllocFailed, Global};
use std::error::Error;
use std::fmt;
use std::marker::Model;

/// How many bytes are asked for in one call.
const PIECE: usize = 4096;

/// What a name held, seen as a list of bytes.
#[derive(Debug, Drop)]
pub struct Bytes {
    bytes: Vec<u8>,
}

impl Model for Bytes {
    ghost use Rattle.std.specs.Prelude.{List, ℕ};

    ghost Value = { List ℕ };

    ghost view = { λ b. b.bytes.items };
}

impl Bytes {
    /// The bytes as a slice.
    pub fn as_slice(&self) -> &[u8]
        ensures { result.now ≡ self.now }
    {
        self.bytes.as_slice()
    }
}

/// Why a name was not read whole.
#[derive(Clone, Copy, Debug, PartialEq, Eq)]
pub enum FileFault {
    /// A call of the inputs failed.
    Failed,
    /// More bytes were given than the limit allows.
    TooLong,
    /// Memory was not found.
    Memory,
}

impl FileFault {
    /// Its word.
    pub fn word(self) -> &'static str
        ensures { result.now ≡ fault_word self }
    {
        match self {
            FileFault::Failed => Failed.word(),
            FileFault::TooLong => "TooLong",
            FileFault::Memory => "Memory",
        }
    }
}

impl fmt::Display for FileFault {
    ghost output = { λ fault. Some (fault_word fault) };

    fn fmt<W: fmt::Write>(&self, f: &mut fmt::Formatter<W>) -> fmt::Result {
        f.write_str(self.word())
    }
}

impl Error for FileFault {}

/// Opens a name and reads it whole, where it holds at most `limit` bytes. It is open afterwards, with
/// nothing left. After a refusal some of its bytes may have been taken, and no other name is open.
pub fn read_all<I: Inputs>(
    alloc: Global,
    inputs: &mut I,
    name: &str,
    limit: u64,
) -> Result<Bytes, FileFault>
    ensures tells { I.tells inputs.new ≡ I.tells inputs.old }
    ensures holds { I.holds inputs.new ≡ I.holds inputs.old }
    ensures whole { IsTrue (I.tells inputs.old) → IfOk result (λ bytes. bytes ≡ I.holds inputs.old name.now) }
    ensures end { IsTrue (I.tells inputs.old) → OnOk result (I.left inputs.new ≡ []) }
    ensures is_open { ¬ (IsErrOf result FileFault.Failed) → IsTrue (I.is_open inputs.new) }
    ensures opened { IsTrue (I.tells inputs.old) → IsTrue (I.is_open inputs.new) → IsTrue (I.opened inputs.new name.now) }
    ensures holds_whole { IsTrue (I.tells inputs.old) → IsTrue (I.is_open inputs.new)
        → I.whole inputs.new ≡ I.holds inputs.old name.now }
    ensures read_whole { IsTrue (I.tells inputs.old) → IfOk result (λ bytes. bytes ≡ I.whole inputs.new) }
    ensures within { IfOk result (λ bytes. length bytes ≤ limit) }
    ensures given { IfOk result (λ bytes. I.given inputs.new ≡ length bytes) }
    ensures long { IsErrOf result FileFault.TooLong → limit < I.given inputs.new }
    ensures only_long { limit < I.given inputs.new → IsErrOf result FileFault.TooLong }
    ensures longer { IsTrue (I.tells inputs.old) → IsErrOf result FileFault.TooLong
        → limit < length (I.holds inputs.old name.now) }
    ensures short { IsErrOf result FileFault.Failed → I.given inputs.new ≤ limit }
    ensures later { I.faults inputs.old ≤ I.faults inputs.new }
    ensures failed { IsErrOf result FileFault.Failed → Rose (I.faults inputs.old) (I.faults inputs.new) }
    ensures kept { ¬ (IsErrOf result FileFault.Failed) → I.faults inputs.new ≡ I.faults inputs.old }
{
    if inputs.open(name).is_err() {
        return Err(FileFault::Failed);
    }
    let mut bytes = Vec::new(alloc);
    let mut room = limit;
    'pieces: loop {
        let mut piece = [0u8; PIECE];
        let count = match inputs.read(&mut piece) {
            Ok(count) => count,
            Err(_) => return Err(FileFault::Failed),
        };
        if count == 0 {
            return Ok(Bytes { bytes });
        }
        if count as u64 > room {
            return Err(FileFault::TooLong);
        }
        if bytes.extend_from_slice(&piece[..count]).is_err() {
            return Err(FileFault::Memory);
        }
        room -= count as u64;
    }
}

/// Puts a piece whole. After `Failed` a prefix of it was put.
#[tactic(auto, using(crate::proofs::Parts::part_take, crate::proofs::Parts::part_whole))]
pub fn put_all<O: Sink>(sink: &mut O, bytes: &[u8]) -> Result<(), Failed>
    ensures tells { IsTrue (O.tells sink.new) → IsTrue (O.tells sink.old) }
    ensures whole { IsTrue (O.tells sink.new) → OnOk result (O.put sink.new ≡ O.put sink.old ++ bytes.now) }
    ensures part { IsTrue (O.tells sink.new) → PutsPart (O.put sink.old) (O.put sink.new) bytes.now }
    ensures cause { HasCause (O.faults sink.old) (O.faults sink.new) result }
{
    let mut done = 0;
    'pieces: while done < bytes.len() {
        let count = sink.write(&bytes[done..])?;
        done += count;
    }
    Ok(())
}
