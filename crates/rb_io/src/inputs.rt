// Inputs in memory: names with what they hold, given in pieces, with or without calls that fail.
ghost use Rattle.std.specs.Prelude.{◌≡◌, ◌≤◌, true, false, IsOk, Contains, IfOk, OnOk, OnErr};
ghost use Rattle.std.proofs.Common.{rules};
ghost use Rattle.std.proofs.lemmas.Grind.{common_steps};
ghost use Rattle.rb_io.specs.Outside.{HasCause, made_up};

use crate::mem_files::MemFiles;
use crate::tally::Tally;
use crate::{Failed, Inputs};
use std::alloc::{AllocError, Global};

/// Inputs in memory, some of whose calls are to fail.
#[derive(Drop)]
pub struct MemInputs {
    held: MemFiles,
    tally: Tally,
}

impl MemInputs {
    ghost use Rattle.rb_io.specs.MemFiles.{names_of, has_open, IsEmpty, IsAdded};
    ghost use Rattle.rb_io.specs.Tally.{IsUnused};

    /// With no name. A read gives at most `piece` bytes. Of the calls of `Inputs` on it, counted
    /// from 1, those whose numbers are in `fail` are to fail.
    pub fn new(alloc: Global, piece: usize, fail: &[u64]) -> Result<Self, AllocError>
        requires { 1 ≤ piece }
        ensures empty { IfOk result (λ inputs. IsEmpty inputs.held) }
        ensures piece { IfOk result (λ inputs. inputs.held.piece ≡ piece) }
        ensures unused { IfOk result (λ inputs. IsUnused inputs.tally fail.now) }
    {
        Ok(MemInputs {
            held: MemFiles::new(alloc, piece),
            tally: Tally::new(alloc, fail)?,
        })
    }

    /// Adds a name and what it holds. A name that was not added holds no byte.
    pub fn add(&mut self, name: &str, held: &[u8]) -> Result<(), AllocError>
        requires new { ¬ (Contains (names_of self.old.held) name.now) }
        requires closed { has_open self.old.held ≡ false }
        ensures added { IsAdded self.old.held self.new.held name.now held.now result }
        ensures tally { self.new.tally ≡ self.old.tally }
    {
        self.held.add(name, held)
    }
}

impl Inputs for MemInputs {
    ghost use Rattle.rb_io.specs.MemFiles.{holds_of, has_open, is_opened, whole_of, left_of, given_of, HasSameFiles, IsOpened, IsClosed, IsRead, IsSameOpen};
    ghost use Rattle.rb_io.specs.Tally.{IsCounted};

    ghost tells = { λ _. true };

    ghost holds = { λ s name. holds_of s.held name };

    ghost is_open = { λ s. has_open s.held };

    ghost opened = { λ s name. is_opened s.held name };

    ghost whole = { λ s. whole_of s.held };

    ghost left = { λ s. left_of s.held };

    ghost given = { λ s. given_of s.held };

    ghost faults = { λ s. s.tally.faults };

    // The call is counted, and fails exactly where its number is listed.
    fn open(&mut self, name: &str) -> Result<(), Failed>
        ensures setup { HasSameFiles self.old.held self.new.held }
        ensures given { given_of self.new.held ≡ 0 }
        ensures opened { OnOk result (IsOpened self.old.held self.new.held name.now) }
        ensures closed { OnErr result (IsClosed self.new.held) }
        ensures counted { IsCounted self.old.tally self.new.tally result }
        ensures cause { HasCause self.old.tally.faults self.new.tally.faults result }
    {
        self.held.close();
        self.tally.call()?;
        self.held.open(name);
        Ok(())
    }

    // The call is counted, and fails exactly where its number is listed. It gives all that fits.
    fn read(&mut self, buf: &mut [u8]) -> Result<usize, Failed>
        ensures setup { HasSameFiles self.old.held self.new.held }
        ensures same_open { IsSameOpen self.old.held self.new.held }
        ensures read { IfOk result (λ n. IsRead self.old.held self.new.held n buf.new) }
        ensures stays { OnErr result (self.new.held ≡ self.old.held) }
        ensures counted { IsCounted self.old.tally self.new.tally result }
        ensures cause { HasCause self.old.tally.faults self.new.tally.faults result }
    {
        self.tally.call()?;
        Ok(self.held.read(buf))
    }

    ghost makes_up = { λ s told. made_up s.held.at (whole_of s.held) s.held.in_range };

    ghost when_closed = { λ s told closed. Prim.search (rules, common_steps) };

    ghost when_opened = { λ s name told opened. Prim.search (rules, common_steps) };
}

/// Inputs in memory none of whose calls fails: their count of faults is 0.
#[derive(Drop)]
pub struct NoFaultsInputs {
    held: MemFiles,
}

impl NoFaultsInputs {
    ghost use Rattle.rb_io.specs.MemFiles.{names_of, has_open, IsEmpty, IsAdded};

    /// With no name. A read gives at most `piece` bytes.
    pub fn new(alloc: Global, piece: usize) -> Result<Self, AllocError>
        requires { 1 ≤ piece }
        ensures empty { IfOk result (λ inputs. IsEmpty inputs.held) }
        ensures piece { IfOk result (λ inputs. inputs.held.piece ≡ piece) }
    {
        Ok(NoFaultsInputs {
            held: MemFiles::new(alloc, piece),
        })
    }

    /// Adds a name and what it holds. A name that was not added holds no byte.
    pub fn add(&mut self, name: &str, held: &[u8]) -> Result<(), AllocError>
        requires new { ¬ (Contains (names_of self.old.held) name.now) }
        requires closed { has_open self.old.held ≡ false }
        ensures added { IsAdded self.old.held self.new.held name.now held.now result }
    {
        self.held.add(name, held)
    }
}

impl Inputs for NoFaultsInputs {
    ghost use Rattle.rb_io.specs.MemFiles.{holds_of, has_open, is_opened, whole_of, left_of, given_of, HasSameFiles, IsOpened, IsRead, IsSameOpen};

    ghost tells = { λ _. true };

    ghost holds = { λ s name. holds_of s.held name };

    ghost is_open = { λ s. has_open s.held };

    ghost opened = { λ s name. is_opened s.held name };

    ghost whole = { λ s. whole_of s.held };

    ghost left = { λ s. left_of s.held };

    ghost given = { λ s. given_of s.held };

    ghost faults = { λ _. 0 };

    // No call fails.
    fn open(&mut self, name: &str) -> Result<(), Failed>
        ensures ok { IsOk result }
        ensures setup { HasSameFiles self.old.held self.new.held }
        ensures given { given_of self.new.held ≡ 0 }
        ensures opened { IsOpened self.old.held self.new.held name.now }
    {
        self.held.open(name);
        Ok(())
    }

    // No call fails. It gives all that fits.
    fn read(&mut self, buf: &mut [u8]) -> Result<usize, Failed>
        ensures ok { IsOk result }
        ensures setup { HasSameFiles self.old.held self.new.held }
        ensures same_open { IsSameOpen self.old.held self.new.held }
        ensures read { IfOk result (λ n. IsRead self.old.held self.new.held n buf.new) }
    {
        Ok(self.held.read(buf))
    }

    ghost makes_up = { λ s told. made_up s.held.at (whole_of s.held) s.held.in_range };

    ghost when_closed = { λ s told closed. Prim.search (rules, common_steps) };

    ghost when_opened = { λ s name told opened. Prim.search (rules, common_steps) };
}
