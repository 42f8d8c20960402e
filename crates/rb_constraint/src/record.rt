// The fields of a line.
ghost use Rattle.std.specs.Prelude.{◌≡◌, IfOk, Some, is_some, true};
ghost use Rattle.csv.specs.Records.{fields_of};
ghost use Rattle.rb_constraint.specs.Read.{is_whole, record_of};

use csv::ByteRecord;
use rb_record::{are_text, field, read_line};
use std::alloc::{AllocError, Global};

/// How many fields a constraint has.
const FIELDS: usize = 12;

/// Whether fields are as many as a constraint has, in UTF-8, and the first is not empty.
#[tactic(auto, unfolding(crate::specs::Read::is_whole))]
fn is_whole(fields: &ByteRecord) -> bool
    ensures { result ≡ is_whole (fields_of fields.now) }
{
    fields.len() == FIELDS && are_text(fields) && !field(fields, 0).is_empty()
}

/// Reads a line, and tells whether it is a record of a constraint, which then has its fields.
pub(crate) fn read_record(
    alloc: Global,
    line: &[u8],
    fields: &mut ByteRecord,
) -> Result<bool, AllocError>
    ensures one { IfOk result (λ one. one ≡ is_some (record_of line.now)) }
    ensures fields { IfOk result (λ one. one ≡ true → record_of line.now ≡ Some (fields_of fields.new)) }
{
    let one = read_line(alloc, line, fields)?;
    Ok(one && is_whole(fields))
}
