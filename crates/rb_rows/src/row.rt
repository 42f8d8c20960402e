ghost use Rattle.std.specs.Prelude.{◌≡◌, ◌<◌, ◌≤◌, ◌+◌, ℕ, List, [], length, get_or, OnOk, IfErr, Ok, Err, Some, None, true, if◌then◌else◌};
ghost use Rattle.csv.specs.Records.{fields_of};
ghost use Rattle.rb_io.specs.declared.lines.TheConstants.{MOST_LINE};
ghost use Rattle.rb_tree.specs.Robot.{Tree};
ghost use Rattle.rb_tree.specs.State.{Fits};
ghost use Rattle.rb_rows.specs.declared.faults.FieldFault.{FieldFault};
ghost use Rattle.rb_rows.specs.declared.faults.LineFault.TheVariants as LineFault;
ghost use Rattle.rb_rows.specs.Header.{HasPlace, HasPlaces};
ghost use Rattle.rb_rows.specs.Plain.{parts_of};
ghost use Rattle.rb_rows.specs.Row.{with_number, told, filled, filled_from, row_told, row_of, IsAlike};

use crate::faults::{FieldFault, FieldKind, LineFault, kind_of};
use crate::header::{Header, Target};
use crate::plain::{field_count, first_field, is_plain};
use csv::ByteRecord;
use rb_num::Iv;
use rb_record::read_line;
use rb_text::read_bracket;
use rb_tree::State;
use std::alloc::Global;

/// Sets a number of a state.
fn set_number(state: &mut State, target: Target, iv: Iv)
    requires { HasPlace state.old target }
    ensures exact { state.new ≡ with_number target iv state.old }
    ensures alike { IsAlike state.old state.new }
{
    match target {
        Target::Remark => {}
        Target::Entry(k) => state.set_q(k, iv),
        Target::Speed(k) => state.set_v(k, iv),
        Target::Acceleration(k) => state.set_a(k, iv),
        Target::Torque(k) => state.set_tau(k, iv),
    }
}

/// Reads the field of this number into a state. A remark tells nothing, nor does an empty field.
fn read_field(
    state: &mut State,
    target: Target,
    number: u32,
    field: &[u8],
) -> Result<(), FieldFault>
    requires { HasPlace state.old target }
    ensures ok { OnOk result (told target number field.now state.old ≡ Ok state.new) }
    ensures err { IfErr result (λ fault. told target number field.now state.old ≡ Err fault) }
    ensures alike { IsAlike state.old state.new }
{
    if field.is_empty() || target == Target::Remark {
        return Ok(());
    }
    match read_bracket(field) {
        Ok(iv) => {
            set_number(state, target, iv);
            Ok(())
        }
        Err(fault) => Err(FieldFault {
            kind: kind_of(fault),
            field: number,
        }),
    }
}

/// Reads the field at a place of a record into a state.
fn read_at(header: &Header, index: usize, field: &[u8], into: &mut State) -> Result<(), FieldFault>
    requires places { HasPlaces header.now into.old }
    requires within { index < length header.now }
    requires few { index ≤ MOST_LINE }
    ensures ok { (fields : List (List ℕ)) → index < length fields → get_or fields index [] ≡ field.now → OnOk result (filled_from header.now fields index into.old ≡ filled_from header.now fields (index + 1) into.new) }
    ensures err { (fields : List (List ℕ)) → index < length fields → get_or fields index [] ≡ field.now → IfErr result (λ fault. filled_from header.now fields index into.old ≡ Err fault) }
    ensures alike { IsAlike into.old into.new }
{
    read_field(into, header.targets()[index], index as u32 + 1, field)
}

/// Reads the fields of a record into a state.
fn read_fields(header: &Header, fields: &ByteRecord, into: &mut State) -> Result<(), FieldFault>
    requires places { HasPlaces header.now into.old }
    requires few { length (fields_of fields.now) ≤ MOST_LINE + 1 }
    requires count { length (fields_of fields.now) ≡ length header.now }
    ensures ok { OnOk result (filled 1 header.now (fields_of fields.now) into.old ≡ Ok into.new) }
    ensures err { IfErr result (λ fault. filled 1 header.now (fields_of fields.now) into.old ≡ Err fault) }
    ensures alike { IsAlike into.old into.new }
{
    for index in 0..header.targets().len() {
        let field = fields.get(index).unwrap_or(b"");
        read_at(header, index, field, into)?;
    }
    Ok(())
}

/// Reads a record, if there is one, into a state.
fn read_record(
    header: &Header,
    one: bool,
    fields: &ByteRecord,
    into: &mut State,
) -> Result<(), FieldFault>
    requires places { HasPlaces header.now into.old }
    requires few { one ≡ true → length (fields_of fields.now) ≤ MOST_LINE + 1 }
    ensures ok { OnOk result (row_told header.now (if one then Some (fields_of fields.now) else None) into.old ≡ Ok into.new) }
    ensures err { IfErr result (λ fault. row_told header.now (if one then Some (fields_of fields.now) else None) into.old ≡ Err fault) }
    ensures alike { IsAlike into.old into.new }
{
    let count = if one { fields.len() } else { 0 };
    if !one || count != header.targets().len() {
        return Err(FieldFault {
            kind: FieldKind::Count,
            field: count as u32,
        });
    }
    read_fields(header, fields, into)
}

/// Reads a line by a reader of comma-separated values into a state.
fn read_any_line(
    alloc: Global,
    header: &Header,
    line: &[u8],
    into: &mut State,
) -> Result<(), LineFault>
    requires places { HasPlaces header.now into.old }
    requires short { length line.now ≤ MOST_LINE }
    ensures ok { OnOk result (row_of header.now line.now into.old ≡ Ok into.new) }
    ensures err { (fault : FieldFault) → result ≡ Err (LineFault.Field fault) → row_of header.now line.now into.old ≡ Err fault }
    ensures memory { result ≡ Err LineFault.Memory → into.new ≡ into.old }
    ensures alike { IsAlike into.old into.new }
{
    let mut fields = ByteRecord::new(alloc);
    let one = read_line(alloc, line, &mut fields)?;
    read_record(header, one, &fields, into)?;
    Ok(())
}

/// Reads the fields of a plain line into a state.
fn read_parts(header: &Header, line: &[u8], into: &mut State) -> Result<(), FieldFault>
    requires places { HasPlaces header.now into.old }
    requires few { length (parts_of line.now) ≤ MOST_LINE + 1 }
    requires count { length (parts_of line.now) ≡ length header.now }
    ensures ok { OnOk result (filled 1 header.now (parts_of line.now) into.old ≡ Ok into.new) }
    ensures err { IfErr result (λ fault. filled 1 header.now (parts_of line.now) into.old ≡ Err fault) }
    ensures alike { IsAlike into.old into.new }
{
    let mut rest = line;
    for index in 0..header.targets().len() {
        let (part, others) = first_field(rest);
        read_at(header, index, part, into)?;
        rest = others;
    }
    Ok(())
}

/// Reads a plain line into a state.
fn read_plain_line(header: &Header, line: &[u8], into: &mut State) -> Result<(), FieldFault>
    requires places { HasPlaces header.now into.old }
    requires short { length line.now ≤ MOST_LINE }
    ensures ok { OnOk result (row_told header.now (Some (parts_of line.now)) into.old ≡ Ok into.new) }
    ensures err { IfErr result (λ fault. row_told header.now (Some (parts_of line.now)) into.old ≡ Err fault) }
    ensures alike { IsAlike into.old into.new }
{
    let count = field_count(line);
    if count != header.targets().len() {
        return Err(FieldFault {
            kind: FieldKind::Count,
            field: count as u32,
        });
    }
    read_parts(header, line, into)
}

/// Reads a line into a state: a number for each field of the header. A remark, an empty field, and what the header does not name leave what the state has.
///
/// It is refused with `Count` where the line has not one field for each of the header's, and else for its first bad field. The state then has any numbers.
pub fn read_row(
    alloc: Global,
    header: &Header,
    line: &[u8],
    into: &mut State,
) -> Result<(), LineFault>
    requires places { HasPlaces header.now into.old }
    requires short { length line.now ≤ MOST_LINE }
    ensures ok { OnOk result (row_of header.now line.now into.old ≡ Ok into.new) }
    ensures err { (fault : FieldFault) → result ≡ Err (LineFault.Field fault) → row_of header.now line.now into.old ≡ Err fault }
    ensures memory { result ≡ Err LineFault.Memory → into.new ≡ into.old }
    ensures alike { IsAlike into.old into.new }
    ensures fits { (tree : Tree) → Fits tree into.old → Fits tree into.new }
{
    if !is_plain(line) {
        return read_any_line(alloc, header, line, into);
    }
    read_plain_line(header, line, into)?;
    Ok(())
}
