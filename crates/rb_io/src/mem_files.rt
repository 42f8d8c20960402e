// Named bytes in memory, which both inputs in memory are made of.
ghost use Rattle.std.specs.Prelude.{◌≡◌, ◌≤◌, ◌<◌, ◌-◌, ◌+◌, [], ◌++◌, None, Some, length, take, drop, false};
ghost use Rattle.rb_io.specs.MemFile.{held_in, place_in};
ghost use Rattle.rb_io.specs.Pieces.{moved as moved_of};

use crate::mem_file::MemFile;
use crate::pieces::moved;
use std::alloc::{AllocError, Global};

/// The place of a name, or the number of files where there is none.
fn place_of(files: &[MemFile], name: &str) -> usize
    ensures bound { result ≤ length files.now }
    ensures place { result ≡ place_in files.now name.now }
{
    match files {
        [] => 0,
        [first, others @ ..] => {
            if first.name.as_str() == name {
                0
            } else {
                1 + place_of(others, name)
            }
        }
    }
}

/// What is held at a place.
fn held(files: &[MemFile], place: Option<usize>) -> &[u8]
    ensures { result.now ≡ held_in files.now place }
{
    let Some(place) = place else {
        return &[];
    };
    match files.get(place) {
        Some(file) => file.held.as_slice(),
        None => &[],
    }
}

/// Copies at most `most` bytes, from `at` on, to the front of a buffer.
fn give(held: &[u8], at: usize, most: usize, buf: &mut [u8]) -> usize
    requires { at ≤ length held.now }
    ensures count { result ≡ moved_of (length buf.new) most (length held.now - at) }
    ensures takes { drop at held.now ≡ take result buf.new ++ drop (at + result) held.now }
{
    let count = moved(buf.len(), most, held.len() - at);
    buf[..count].copy_from_slice(&held[at..at + count]);
    count
}

/// Names in memory with what they hold, one of which may be open.
#[derive(Drop)]
pub(crate) struct MemFiles {
    alloc: Global,
    pub(crate) files: Vec<MemFile>,
    /// The place of the open name.
    pub(crate) place: Option<usize>,
    /// How many of its bytes were given.
    pub(crate) at: usize,
    /// The most bytes that a call gives.
    pub(crate) piece: usize,
    ghost positive: { 1 ≤ piece },
    ghost in_range: { at ≤ length (held_in files.items place) },
}

impl MemFiles {
    ghost use Rattle.rb_io.specs.MemFiles.{has_open, given_of, HasSameFiles, IsEmpty, IsAdded, IsOpened, IsClosed, IsRead, IsSameOpen};

    /// With no name.
    pub(crate) fn new(alloc: Global, piece: usize) -> Self
        requires { 1 ≤ piece }
        ensures empty { IsEmpty result }
        ensures piece { result.piece ≡ piece }
    {
        MemFiles {
            alloc,
            files: Vec::new(alloc),
            place: None,
            at: 0,
            piece,
        }
    }

    /// Adds a name and what it holds.
    #[tactic(auto, using(crate::proofs::Held::held_of_added, crate::proofs::Held::held_of_others))]
    pub(crate) fn add(&mut self, name: &str, held: &[u8]) -> Result<(), AllocError>
        requires closed { has_open self.old ≡ false }
        ensures added { IsAdded self.old self.new name.now held.now result }
    {
        let name = String::from_str(self.alloc, name)?;
        let held = held.to_vec(self.alloc)?;
        self.files.insert(0, MemFile { name, held })?;
        Ok(())
    }

    /// Closes what is open.
    pub(crate) fn close(&mut self)
        ensures setup { HasSameFiles self.old self.new }
        ensures given { given_of self.new ≡ 0 }
        ensures closed { IsClosed self.new }
    {
        self.at = 0;
        self.place = None;
    }

    /// Opens a name.
    #[tactic(auto, using(crate::proofs::Held::held_of_absent))]
    pub(crate) fn open(&mut self, name: &str)
        ensures setup { HasSameFiles self.old self.new }
        ensures given { given_of self.new ≡ 0 }
        ensures opened { IsOpened self.old self.new name.now }
    {
        let place = place_of(self.files.as_slice(), name);
        self.at = 0;
        self.place = Some(place);
    }

    /// Gives at most `piece` bytes of the open name.
    pub(crate) fn read(&mut self, buf: &mut [u8]) -> usize
        ensures setup { HasSameFiles self.old self.new }
        ensures same_open { IsSameOpen self.old self.new }
        ensures read { IsRead self.old self.new result buf.new }
    {
        let held = held(self.files.as_slice(), self.place);
        let count = give(held, self.at, self.piece, buf);
        self.at += count;
        count
    }
}
