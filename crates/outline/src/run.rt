//! A run: from the name of a file to the outline of its robot.
ghost use Rattle.std.specs.Prelude.{◌≡◌, IsTrue, map, string_bytes, Some, None, OnOk, IfErr, IsErrOf, MatchResult};
ghost use Rattle.rb_io.specs.Outside.{Rose};
ghost use Rattle.outline.specs.declared.faults.Fault.TheVariants as Is;
ghost use Rattle.outline.specs.Run.{file_of, PutsOutline, Leaves, IsFault, IfOutput};

use crate::faults::Fault;
use crate::outline::outline;
use crate::reading::robot_in;
use rb_io::{FileFault, Inputs, Sink, put_all, read_all};
use std::alloc::Global;

/// The most bytes of a robot's file.
const MOST_BYTES: u64 = 8_388_608;

/// The name of the file, which stands behind that of the program.
fn file_in(words: &[String]) -> Result<&str, Fault>
    ensures { MatchResult result
        (λ file. file_of (map string_bytes words.now) ≡ Some file.now)
        (λ fault. (fault ≡ Is.Usage) × (file_of (map string_bytes words.now) ≡ None)) }
{
    match words {
        [_, file] => Ok(file.as_str()),
        _ => Err(Fault::Usage),
    }
}

/// Puts the outline of the robot that the named file holds. Where it fails, nothing was put, but for a front of it where the output fails.
pub(crate) fn run<I: Inputs, O: Sink>(
    alloc: Global,
    words: &[String],
    inputs: &mut I,
    out: &mut O,
) -> Result<(), Fault>
    ensures outline { IsTrue (I.tells inputs.old) → IsTrue (O.tells out.new)
        → OnOk result (PutsOutline (map string_bytes words.now) (I.holds inputs.old) (O.put out.old) (O.put out.new)) }
    ensures fault { IsTrue (I.tells inputs.old) → IfErr result (IsFault (map string_bytes words.now) (I.holds inputs.old)) }
    ensures left { IsTrue (I.tells inputs.old) → IsTrue (O.tells out.new)
        → IfErr result (Leaves (map string_bytes words.now) (I.holds inputs.old) (O.put out.old) (O.put out.new)) }
    ensures input { IsErrOf result (Fault.File FileFault.Failed) → Rose (I.faults inputs.old) (I.faults inputs.new) }
    ensures output { IfErr result (IfOutput (Rose (O.faults out.old) (O.faults out.new))) }
{
    let file = file_in(words)?;
    let bytes = read_all(alloc, inputs, file, MOST_BYTES)?;
    let robot = robot_in(alloc, bytes.as_slice())?;
    let text = outline(alloc, &robot)?;
    put_all(out, text.as_str().as_bytes())?;
    Ok(())
}
