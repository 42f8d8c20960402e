// What is read from and written to. The bytes may be untold; the counts are always told.
ghost use Rattle.std.specs.Prelude.{◌≡◌, ◌≤◌, ◌<◌, ℕ, List, [], ◌++◌, Bool, false, IsTrue, length, take, Some, IfOk, OnOk, OnErr, MatchResult};
ghost use Rattle.rb_io.specs.Outside.{HasCause, MakesUp, counted, failed_word};

use std::error::Error;
use std::fmt;

/// A call failed, and the object's count of faults rose.
#[derive(Clone, Copy, Debug, PartialEq, Eq)]
pub struct Failed;

impl Failed {
    /// Its word.
    pub fn word(self) -> &'static str
        ensures { result.now ≡ failed_word }
    {
        "Failed"
    }
}

impl fmt::Display for Failed {
    ghost output = { λ _. Some failed_word };

    fn fmt<W: fmt::Write>(&self, f: &mut fmt::Formatter<W>) -> fmt::Result {
        f.write_str(self.word())
    }
}

impl Error for Failed {}

/// Named inputs, one of which may be open. Before the first `open` none is.
pub trait Inputs {
    /// Whether the bytes are told. Where they are not, `holds`, `opened`, `whole` and `left` mean
    /// nothing.
    ghost tells: { Self → Bool };

    /// What each name holds.
    ghost holds: { Self → List ℕ → List ℕ };

    /// Whether some name is open, also where the bytes are untold.
    ghost is_open: { Self → Bool };

    /// Whether a name may be the open one.
    ghost opened: { Self → List ℕ → Bool };

    /// What the open name holds: nothing, where none is open.
    ghost whole: { Self → List ℕ };

    /// What is left of the open name.
    ghost left: { Self → List ℕ };

    /// How many bytes were given since the last `open`, up to 2^64 - 1.
    ghost given: { Self → ℕ };

    /// How often a call failed. It never falls, and stays at its last value, 2^64 - 1.
    ghost faults: { Self → ℕ };

    /// Opens a name. Where it fails, none is open. Either way no byte was given yet.
    fn open(&mut self, name: &str) -> Result<(), Failed>
        ensures tells { tells self.new ≡ tells self.old }
        ensures holds { holds self.new ≡ holds self.old }
        ensures is_open { OnOk result (IsTrue (is_open self.new)) }
        ensures is_closed { OnErr result (is_open self.new ≡ false) }
        ensures opened { IsTrue (tells self.old) → OnOk result (IsTrue (opened self.new name.now)) }
        ensures whole { IsTrue (tells self.old) → OnOk result (whole self.new ≡ holds self.old name.now) }
        ensures left { IsTrue (tells self.old) → OnOk result (left self.new ≡ holds self.old name.now) }
        ensures closed { IsTrue (tells self.old)
            → OnErr result ((left self.new ≡ []) × ((other : List ℕ) → opened self.new other ≡ false)) }
        ensures closed_whole { IsTrue (tells self.old) → OnErr result (whole self.new ≡ []) }
        ensures given { given self.new ≡ 0 }
        ensures cause { HasCause (faults self.old) (faults self.new) result };

    /// Gives the next bytes of the open name, at the front of a buffer, and tells how many: 0
    /// where none is open. Where it fails, it gives none.
    fn read(&mut self, buf: &mut [u8]) -> Result<usize, Failed>
        ensures tells { tells self.new ≡ tells self.old }
        ensures holds { holds self.new ≡ holds self.old }
        ensures is_open { is_open self.new ≡ is_open self.old }
        ensures none_open { is_open self.old ≡ false → IfOk result (λ n. n ≡ 0) }
        ensures opened { IsTrue (tells self.old) → opened self.new ≡ opened self.old }
        ensures whole { IsTrue (tells self.old) → whole self.new ≡ whole self.old }
        ensures bound { IfOk result (λ n. n ≤ length buf.new) }
        ensures takes { IsTrue (tells self.old) → IfOk result (λ n. left self.old ≡ take n buf.new ++ left self.new) }
        ensures stays { IsTrue (tells self.old) → OnErr result (left self.new ≡ left self.old) }
        // A read of 0 into a buffer that is not empty is the end.
        ensures end { IsTrue (tells self.old)
            → IfOk result (λ n. n ≡ 0 → 0 < length buf.new → left self.new ≡ []) }
        ensures given { MatchResult result
            (λ n. given self.new ≡ counted (given self.old) n)
            (λ _. given self.new ≡ given self.old) }
        ensures cause { HasCause (faults self.old) (faults self.new) result };

    // At every time: what was given and what is left make up what the open name holds.
    ghost makes_up: { (s : Self) → IsTrue (tells s) → MakesUp (whole s) (given s) (left s) };

    // Where none is open, nothing is held open.
    ghost when_closed: { (s : Self) → IsTrue (tells s) → is_open s ≡ false → whole s ≡ [] };

    // Where a name may be the open one, one is open, and it holds what this name holds.
    ghost when_opened: { (s : Self) (name : List ℕ) → IsTrue (tells s) → IsTrue (opened s name)
        → IsTrue (is_open s) × (whole s ≡ holds s name) };
}

/// A place that bytes are put to.
pub trait Sink {
    /// Whether the bytes are told. A call may stop telling them, and none begins to.
    ghost tells: { Self → Bool };

    /// The bytes that were put.
    ghost put: { Self → List ℕ };

    /// How often a call failed. It never falls, and stays at its last value, 2^64 - 1.
    ghost faults: { Self → ℕ };

    /// Puts bytes from the front of a piece, and tells how many: at least one, where there is one.
    /// Where it fails, it puts none.
    fn write(&mut self, bytes: &[u8]) -> Result<usize, Failed>
        ensures tells { IsTrue (tells self.new) → IsTrue (tells self.old) }
        ensures bound { IfOk result (λ n. n ≤ length bytes.now) }
        ensures some { 0 < length bytes.now → IfOk result (λ n. 0 < n) }
        ensures puts { IsTrue (tells self.new) → IfOk result (λ n. put self.new ≡ put self.old ++ take n bytes.now) }
        ensures stays { IsTrue (tells self.new) → OnErr result (put self.new ≡ put self.old) }
        ensures cause { HasCause (faults self.old) (faults self.new) result };
}
