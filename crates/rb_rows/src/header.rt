ghost use Rattle.std.specs.Prelude.{◌≡◌, ◌≤◌, ◌<◌, ◌+◌, ◌⊎◌, ℕ, List, [], not, length, slice_get, IfOk, IfErr, IfSome, Ok, Err, Some, None, true, if◌then◌else◌};
ghost use Rattle.std.specs.Str.{is_utf8};
ghost use Rattle.csv.specs.Records.{fields_of};
ghost use Rattle.rb_io.specs.declared.lines.TheConstants.{MOST_LINE};
ghost use Rattle.rb_tree.specs.State.{Fits, Row};
ghost use Rattle.rb_tree.specs.Robot.{AreBodies};
ghost use Rattle.rb_rows.specs.Columns.{state_columns, state_targets};
ghost use Rattle.rb_rows.specs.Faults.{no_memory};
ghost use Rattle.rb_rows.specs.Header.{is_remark, is_among, target_named, target_after, targets_after, targets_of, header_of, HasPlaces};

use crate::columns::{column_texts, names_of};
use crate::faults::{HeaderFault, HeaderKind};
use crate::names::Names;
use csv::ByteRecord;
use rb_record::read_line;
use rb_tree::Robot;
use std::alloc::Global;
use std::marker::Model;

/// What a field of a row stands for: nothing, or a number of the state by its place from 0.
#[derive(Clone, Copy, Debug, PartialEq, Eq)]
pub enum Target {
    /// A remark, which is passed over.
    Remark,
    /// An entry of the position.
    Entry(usize),
    /// The speed of a column.
    Speed(usize),
    /// The acceleration of a column.
    Acceleration(usize),
    /// The torque of a column.
    Torque(usize),
}

/// What the fields of each row of a table stand for, in their order.
#[derive(Debug, Drop)]
pub struct Header {
    targets: Vec<Target>,
}

impl Model for Header {
    ghost use Rattle.std.specs.Prelude.{List};
    ghost use Rattle.rb_rows.specs.declared.header.Target.{Target};

    ghost Value = { List Target };

    ghost view = { λ h. h.targets.items };
}

/// What the number of this place among those of a state is.
fn target_at(robot: &Robot, number: usize) -> Target
    requires kept { AreBodies robot.now.bodies }
    requires there { number < length (state_targets robot.now) }
    ensures { slice_get (state_targets robot.now) number ≡ Some result }
{
    let (entries, columns) = (robot.nq() as usize, robot.nv() as usize);
    if number < entries {
        return Target::Entry(number);
    }
    let behind = number - entries;
    if behind < columns {
        Target::Speed(behind)
    } else if behind - columns < columns {
        Target::Acceleration(behind - columns)
    } else {
        Target::Torque(behind - columns - columns)
    }
}

/// What a name stands for, if it is that of a column.
fn target_named(names: &Names<'_>, robot: &Robot, name: &[u8]) -> Option<Target>
    requires kept { AreBodies robot.now.bodies }
    requires columns { names.now ≡ state_columns robot.now }
    ensures { result ≡ target_named robot.now name.now }
{
    match names.number_of(name) {
        Some(number) => Some(target_at(robot, number)),
        None => None,
    }
}

fn is_remark(field: &[u8]) -> bool
    ensures { result ≡ is_remark field.now }
{
    matches!(field, [b'#', ..])
}

/// What a field of this number stands for, which none of those before it is or one is.
fn target_of(
    names: &Names<'_>,
    robot: &Robot,
    field: &[u8],
    is_new: bool,
    number: u32,
) -> Result<Target, HeaderFault>
    requires kept { AreBodies robot.now.bodies }
    requires columns { names.now ≡ state_columns robot.now }
    ensures { (before : List (List ℕ)) → is_new ≡ not (is_among before field.now) → result ≡ target_after robot.now before number field.now }
{
    if is_remark(field) {
        return Ok(Target::Remark);
    }
    let Some(target) = target_named(names, robot, field) else {
        return Err(HeaderFault {
            kind: HeaderKind::UnknownColumn,
            field: number,
        });
    };
    if is_new {
        Ok(target)
    } else {
        Err(HeaderFault {
            kind: HeaderKind::ColumnTwice,
            field: number,
        })
    }
}

/// What the fields of a record stand for.
fn targets_of(
    alloc: Global,
    names: &Names<'_>,
    robot: &Robot,
    fields: &ByteRecord,
) -> Result<Vec<Target>, HeaderFault>
    requires kept { AreBodies robot.now.bodies }
    requires columns { names.now ≡ state_columns robot.now }
    requires few { length (fields_of fields.now) ≤ MOST_LINE + 1 }
    ensures ok { IfOk result (λ targets. targets_after robot.now [] (fields_of fields.now) ≡ Ok targets.items) }
    ensures err { IfErr result (λ fault. (fault ≡ no_memory) ⊎ (targets_after robot.now [] (fields_of fields.now) ≡ Err fault)) }
{
    let mut seen = Names::new(alloc);
    let mut targets = Vec::new(alloc);
    for index in 0..fields.len() {
        let field = fields.get(index).unwrap_or(b"");
        let is_new = seen.add(field)?;
        targets.push(target_of(names, robot, field, is_new, index as u32 + 1)?)?;
    }
    Ok(targets)
}

/// What the fields of a record stand for, if there is one.
fn read_record(
    alloc: Global,
    robot: &Robot,
    one: bool,
    fields: &ByteRecord,
) -> Result<Header, HeaderFault>
    requires few { one ≡ true → length (fields_of fields.now) ≤ MOST_LINE + 1 }
    ensures ok { IfOk result (λ header. targets_of robot.now (if one then Some (fields_of fields.now) else None) ≡ Ok header) }
    ensures places { IfOk result (λ header. (row : Row) → Fits robot.now row → HasPlaces header row) }
    ensures err { IfErr result (λ fault. (fault ≡ no_memory) ⊎ (targets_of robot.now (if one then Some (fields_of fields.now) else None) ≡ Err fault)) }
{
    if !one {
        return Err(HeaderFault {
            kind: HeaderKind::BadHeader,
            field: 0,
        });
    }
    let texts = column_texts(alloc, robot)?;
    let names = names_of(alloc, texts.as_slice())?;
    let targets = targets_of(alloc, &names, robot, fields)?;
    Ok(Header { targets })
}

/// Whether a line is text.
fn is_utf8(line: &[u8]) -> bool
    ensures { result ≡ is_utf8 line.now }
{
    std::str::from_utf8(line).is_ok()
}

impl Header {
    /// Reads the first line of a table: one record, in UTF-8, of the names of columns of the robot's states, each once, in any order. A field that begins
    /// with `#` is a remark.
    pub fn read(alloc: Global, robot: &Robot, line: &[u8]) -> Result<Header, HeaderFault>
        requires { length line.now ≤ MOST_LINE }
        ensures ok { IfOk result (λ header. header_of robot.now line.now ≡ Ok header) }
        ensures places { IfOk result (λ header. (row : Row) → Fits robot.now row → HasPlaces header row) }
        ensures err { IfErr result (λ fault. (fault ≡ no_memory) ⊎ (header_of robot.now line.now ≡ Err fault)) }
        ensures memory { IfErr result (λ fault. fault ≡ no_memory → is_utf8 line.now ≡ true) }
    {
        if !is_utf8(line) {
            return Err(HeaderFault {
                kind: HeaderKind::BadHeader,
                field: 0,
            });
        }
        let mut fields = ByteRecord::new(alloc);
        let one = read_line(alloc, line, &mut fields)?;
        read_record(alloc, robot, one, &fields)
    }

    /// What the fields stand for.
    pub fn targets(&self) -> &[Target]
        ensures { result.now ≡ self.now }
    {
        self.targets.as_slice()
    }
}
