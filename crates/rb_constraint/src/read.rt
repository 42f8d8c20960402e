// The constraints of a file.
ghost use Rattle.std.specs.Prelude.{◌≡◌, ◌≢◌, ◌⊎◌, ◌≤◌, ◌<◌, ◌+◌, ◌-◌, ◌^◌, ◌∷◌, [], length, IfOk, IfErr, OnOk, Ok, Err, true};
ghost use Rattle.csv.specs.Records.{fields_of};
ghost use Rattle.rb_result.specs.Steps.{Gives};
ghost use Rattle.rb_flat.specs.Contact.{RowsFit};
ghost use Rattle.rb_tree.specs.Robot.{Tree};
ghost use Rattle.rb_tree.specs.Shape.{shape_of};
ghost use Rattle.rb_constraint.specs.declared.faults.ConKind.TheVariants.{Memory};
ghost use Rattle.rb_constraint.specs.Faults.{no_memory};
ghost use Rattle.rb_constraint.specs.Constraints.{rows_of, constraints_of, numbers_of, AreNumbersOrdered, AreAllOrdered};
ghost use Rattle.rb_constraint.specs.File.{numbered_line, lines_from, name_in, HasHeader, IsFile};
ghost use Rattle.rb_constraint.specs.Refusals.{HasFault};
ghost use Rattle.rb_constraint.specs.Read.{is_named, is_whole, constraint_of, constraint_in, added, constraints_in, file_of};

use crate::axes::read_axes;
use crate::constraints::{Constraint, Constraints, MAX_ROWS, Made};
use crate::faults::{ConFault, ConKind, fault};
use crate::lines::{Kept, next_kept};
use crate::links::read_links;
use crate::numbers::read_numbers;
use crate::record::read_record;
use csv::ByteRecord;
use rb_record::field;
use rb_tags::Text;
use rb_tree::Robot;
use std::alloc::{AllocError, Global};
use std::str::from_utf8;

const HEADER: &[u8] = b"name,axes,link1,x1,y1,z1,link2,x2,y2,z2,mu,e";

/// Whether a constraint has this name.
fn is_named(made: &[Constraint], name: &[u8]) -> bool
    ensures { result ≡ is_named made.now name.now }
{
    made.iter().any(|c| c.name.as_str().as_bytes() == name)
}

/// The name in the fields of a record.
fn name_of(alloc: Global, fields: &ByteRecord) -> Result<Text, AllocError>
    requires { is_whole (fields_of fields.now) ≡ true }
    ensures { IfOk result (λ name. name ≡ name_in (fields_of fields.now)) }
{
    Text::copy(alloc, from_utf8(field(fields, 0)).unwrap())
}

/// The constraint in the fields of a record, behind those that were made.
#[tactic(auto, unfolding(crate::specs::Read::constraint_of))]
fn constraint_of(
    alloc: Global,
    robot: &Robot,
    made: &Made,
    fields: &ByteRecord,
) -> Result<Constraint, ConKind>
    requires rows { made.now.rows.items ≡ rows_of made.now.list.items }
    requires whole { is_whole (fields_of fields.now) ≡ true }
    ensures gives { Gives Memory (λ c. c) result (constraint_of robot.now made.now.list.items (fields_of fields.now)) }
    ensures ordered { IfOk result (λ c. AreNumbersOrdered (numbers_of c)) }
{
    if is_named(made.list.as_slice(), field(fields, 0)) {
        return Err(ConKind::NameTwice);
    }
    let letters = field(fields, 1);
    let axes = read_axes(letters).ok_or(ConKind::BadRows)?;
    let (body1, body2) = read_links(robot, fields).ok_or(ConKind::UnknownLink)?;
    let numbers = read_numbers(fields).ok_or(ConKind::BadNumber)?;
    if MAX_ROWS < made.rows.len() + letters.len() {
        return Err(ConKind::TooMany);
    }
    numbers.in_order();
    Ok(Constraint {
        name: name_of(alloc, fields)?,
        axes,
        body1,
        at1: numbers.at1,
        body2,
        at2: numbers.at2,
        mu: numbers.mu,
        e: numbers.e,
    })
}

/// The constraint of a line, behind those that were made.
#[tactic(auto, unfolding(crate::specs::Read::constraint_in))]
fn constraint_in(
    alloc: Global,
    robot: &Robot,
    made: &Made,
    line: &[u8],
) -> Result<Constraint, ConKind>
    requires { made.now.rows.items ≡ rows_of made.now.list.items }
    ensures gives { Gives Memory (λ c. c) result (constraint_in robot.now made.now.list.items line.now) }
    ensures ordered { IfOk result (λ c. AreNumbersOrdered (numbers_of c)) }
{
    let mut fields = ByteRecord::new(alloc);
    if !read_record(alloc, line, &mut fields)? {
        return Err(ConKind::BadLine);
    }
    constraint_of(alloc, robot, made, &fields)
}

/// Adds the constraint of a line to those that were made.
#[tactic(auto, unfolding(crate::specs::Read::added))]
fn add_line(
    alloc: Global,
    robot: &Robot,
    made: &mut Made,
    line: &[u8],
    number: u64,
) -> Result<(), ConFault>
    requires { made.old.rows.items ≡ rows_of made.old.list.items }
    ensures gives { Gives no_memory (λ _. made.new.list.items) result (added robot.now made.old.list.items (numbered_line number line.now)) }
    ensures rows { OnOk result (made.new.rows.items ≡ rows_of made.new.list.items) }
    ensures ordered { OnOk result (AreAllOrdered made.old.list.items → AreAllOrdered made.new.list.items) }
{
    match constraint_in(alloc, robot, made, line) {
        Ok(c) => Ok(made.add(c)?),
        Err(kind) => Err(fault(kind, number)),
    }
}

/// The constraints of the lines of a text, which begins with the line of this number.
#[tactic(auto, unfolding(crate::specs::Read::constraints_in))]
fn read_lines(alloc: Global, robot: &Robot, text: &[u8], number: u64) -> Result<Made, ConFault>
    requires { number + length text.now ≤ 2 ^ 64 - 1 }
    ensures gives { Gives no_memory (λ made. made.list.items) result (constraints_in robot.now [] (lines_from number text.now)) }
    ensures rows { IfOk result (λ made. made.rows.items ≡ rows_of made.list.items) }
    ensures ordered { IfOk result (λ made. AreAllOrdered made.list.items) }
{
    let mut made = Made::new(alloc);
    let mut rest = text;
    let mut at = number;
    'lines: while let Some(line) = next_kept(rest, at) {
        add_line(alloc, robot, &mut made, line.content, line.number)?;
        rest = line.rest;
        at = line.number + 1;
    }
    Ok(made)
}

/// The header, which is the first line that is left.
fn read_header(text: &[u8]) -> Result<Kept<'_>, ConFault>
    ensures ok { IfOk result (λ kept. (tree : Tree) → file_of tree text.now ≡ constraints_in tree [] (lines_from (kept.number + 1) kept.rest.now)) }
    ensures header { IfOk result (λ kept. HasHeader text.now) }
    ensures room { IfOk result (λ kept. kept.number + 1 + length kept.rest.now ≤ 2 ^ 64 - 1) }
    ensures err { IfErr result (λ fault. (tree : Tree) → file_of tree text.now ≡ Err fault) }
    ensures memory { IfErr result (λ fault. fault ≢ no_memory) }
{
    let Some(first) = next_kept(text, 1) else {
        return Err(fault(ConKind::BadHeader, 0));
    };
    if first.content != HEADER {
        return Err(fault(ConKind::BadHeader, first.number));
    }
    Ok(first)
}

/// The constraints of a file for a robot, or its first fault.
///
/// The lines of the file are cut at each LF, and a CR before it is dropped. Empty lines and those that begin with `#` are passed over. The first line that
/// is left is the header, and each further one is a record of twelve fields of comma-separated values: a name, the axes that are held, by `x`, `y`, `z` along
/// the axes of the world and `a`, `b`, `c` about them, a link and a point in it, a second link, which is empty for the world, and a point in it, the
/// compliance and the restitution. A number that is empty is 0. Want of memory is told only where the first line is the header.
pub fn read_constraints(alloc: Global, text: &[u8], robot: &Robot) -> Result<Constraints, ConFault>
    ensures ok { IfOk result (IsFile robot.now text.now) }
    ensures fits { IfOk result (λ k. RowsFit (shape_of robot.now) (constraints_of k)) }
    ensures err { IfErr result (λ fault. (fault ≡ no_memory) ⊎ HasFault robot.now text.now fault) }
    ensures memory { result ≡ Err no_memory → HasHeader text.now }
{
    let header = read_header(text)?;
    let made = read_lines(alloc, robot, header.rest, header.number + 1)?;
    let constraints = Constraints::of(alloc, made)?;
    Ok(constraints)
}
