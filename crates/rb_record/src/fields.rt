// Lines of comma-separated values.
ghost use Rattle.std.specs.Prelude.{◌≡◌, ◌≤◌, ◌+◌, [], length, get_or, IfOk, Some, is_some, true};
ghost use Rattle.std.specs.List.{list_all};
ghost use Rattle.std.specs.Str.{is_utf8};
ghost use Rattle.csv.specs.Records.{fields_of};
ghost use Rattle.rb_record.specs.Record.{fields_in};

use csv::{ByteRecord, ReaderBuilder};
use std::alloc::{AllocError, Global};

/// Reads a line, and tells whether it is exactly one record, which then has its fields.
///
/// A reader of bytes in memory does not fail, but its contract does not say so: that would be answered as want of memory.
pub fn read_line(alloc: Global, line: &[u8], fields: &mut ByteRecord) -> Result<bool, AllocError>
    ensures one { IfOk result (λ one. one ≡ is_some (fields_in line.now)) }
    ensures fields { IfOk result (λ one. one ≡ true → fields_in line.now ≡ Some (fields_of fields.new)) }
    ensures few { IfOk result (λ one. one ≡ true → length (fields_of fields.new) ≤ length line.now + 1) }
{
    let mut reader = ReaderBuilder::new()
        .has_headers(false)
        .flexible(true)
        .from_reader(alloc, line);
    let Ok(found) = reader.read_byte_record(fields) else {
        return Err(AllocError);
    };
    if !found {
        return Ok(false);
    }
    let mut more = ByteRecord::new(alloc);
    match reader.read_byte_record(&mut more) {
        Ok(found) => Ok(!found),
        Err(_) => Err(AllocError),
    }
}

/// The field of this number from 0, or an empty one where there is none.
pub fn field(fields: &ByteRecord, k: usize) -> &[u8]
    ensures { result.now ≡ get_or (fields_of fields.now) k [] }
{
    fields.get(k).unwrap_or(b"")
}

/// Whether a text is in UTF-8.
fn is_utf8(text: &[u8]) -> bool
    ensures { result ≡ is_utf8 text.now }
{
    std::str::from_utf8(text).is_ok()
}

/// Whether each field is in UTF-8.
pub fn are_text(fields: &ByteRecord) -> bool
    ensures { result ≡ list_all is_utf8 (fields_of fields.now) }
{
    for k in 0..fields.len() {
        if !is_utf8(field(fields, k)) {
            return false;
        }
    }
    true
}
