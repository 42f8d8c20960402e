// The count of the calls on an object in memory.
ghost use Rattle.std.specs.Prelude.{◌≡◌, ◌≤◌, IfOk};
ghost use Rattle.rb_io.specs.Outside.{counted};

use crate::Failed;
use std::alloc::{AllocError, Global};

/// The calls on an object in memory: which are to fail, how many were made, and how many failed.
#[derive(Drop)]
pub(crate) struct Tally {
    pub(crate) fail: Vec<u64>,
    pub(crate) calls: u64,
    pub(crate) faults: u64,
}

impl Tally {
    ghost use Rattle.rb_io.specs.Tally.{IsUnused, IsCounted};

    /// Before the first call. Those calls whose numbers, from 1, are in `fail` are to fail.
    pub(crate) fn new(alloc: Global, fail: &[u64]) -> Result<Self, AllocError>
        ensures unused { IfOk result (λ tally. IsUnused tally fail.now) }
    {
        Ok(Tally {
            fail: fail.to_vec(alloc)?,
            calls: 0,
            faults: 0,
        })
    }

    /// Counts a call, which fails where its number is in `fail`.
    pub(crate) fn call(&mut self) -> Result<(), Failed>
        ensures counted { IsCounted self.old self.new result }
    {
        self.calls = self.calls.saturating_add(1);
        if self.fail.contains(&self.calls) {
            return Err(self.fault());
        }
        Ok(())
    }

    /// Counts a fault.
    pub(crate) fn fault(&mut self) -> Failed
        ensures fail { self.new.fail.items ≡ self.old.fail.items }
        ensures calls { self.new.calls ≡ self.old.calls }
        ensures later { self.old.faults ≤ self.new.faults }
        ensures faults { self.new.faults ≡ counted self.old.faults 1 }
    {
        self.faults = self.faults.saturating_add(1);
        Failed
    }
}
