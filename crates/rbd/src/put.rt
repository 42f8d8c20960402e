//! Putting bytes to the output.
ghost use Rattle.std.specs.Prelude.{◌≡◌, ◌++◌, IsTrue, IsErrOf, IfErr, OnOk};
ghost use Rattle.rb_io.specs.Outside.{Rose};
ghost use Rattle.rb_io.specs.Calls.{PutsPart};

use crate::stop::RowsStop;
use rb_io::{Sink, put_all};

/// Puts bytes.
pub(crate) fn put<O: Sink>(bytes: &[u8], out: &mut O) -> Result<(), RowsStop>
    ensures tells { IsTrue (O.tells out.new) → IsTrue (O.tells out.old) }
    ensures whole { IsTrue (O.tells out.new) → OnOk result (O.put out.new ≡ O.put out.old ++ bytes.now) }
    ensures part { IsTrue (O.tells out.new) → PutsPart (O.put out.old) (O.put out.new) bytes.now }
    ensures only { IfErr result (λ stop. stop ≡ RowsStop.Output) }
    ensures rose { IsErrOf result RowsStop.Output → Rose (O.faults out.old) (O.faults out.new) }
    ensures kept { ¬ (IsErrOf result RowsStop.Output) → O.faults out.new ≡ O.faults out.old }
{
    match put_all(out, bytes) {
        Ok(()) => Ok(()),
        Err(_) => Err(RowsStop::Output),
    }
}
