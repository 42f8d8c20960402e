//! The lines of names: the columns of a state, and the first line of the output.
ghost use Rattle.std.specs.Prelude.{◌≡◌, ◌≤◌, ◌++◌, ◌∷◌, [], map, IfOk, OnOk, codes, string_bytes};
ghost use Rattle.std.specs.Str.{IsUtf8};
ghost use Rattle.csv.specs.Writing.{default_writer, row_text};
ghost use Rattle.rb_tree.specs.Columns.{column_count};
ghost use Rattle.rb_constraint.specs.Axes.{where_held};
ghost use Rattle.rb_tree.specs.declared.sizes.TheConstants.{MAX_COLUMNS};
ghost use Rattle.rb_rows.specs.Columns.{behind, columns_behind, state_columns};
ghost use Rattle.rb_rows.specs.Head.{line_of, pairs_at, mass_name, mass_names, row_name, own_names, row_names, value_names, echoed_names, head_fields};

use crate::columns::{column_texts, put_columns};
use crate::task::Task;
use csv::WriterBuilder;
use itoa::Buffer;
use rb_constraint::{Constraint, Constraints, Direction};
use rb_tags::Text;
use rb_tree::Robot;
use std::alloc::{AllocError, Global};
use std::str::from_utf8;

/// The texts, as slices.
fn slices_of<'a>(alloc: Global, texts: &'a [String]) -> Result<Vec<&'a [u8]>, AllocError>
    ensures { IfOk result (λ slices. map (λ s. s.now) slices.items ≡ map string_bytes texts.now) }
{
    let mut slices = Vec::new(alloc);
    for text in texts {
        slices.push(text.as_bytes())?;
    }
    Ok(slices)
}

/// Fields as a record.
///
/// A writer to memory fails for want of memory alone, but its contract does not say so.
fn record_of(alloc: Global, fields: &[&[u8]]) -> Result<Vec<u8>, AllocError>
    ensures { IfOk result (λ line. line.items ≡ row_text default_writer (map (λ f. f.now) fields.now)) }
{
    let mut writer = WriterBuilder::new().from_writer(Vec::new(alloc));
    if writer.write_fields(fields).is_err() {
        return Err(AllocError);
    }
    match writer.into_inner() {
        Ok(line) => Ok(line),
        Err(_) => Err(AllocError),
    }
}

/// Texts as a record of comma-separated values, ended by LF. Its one refusal is for want of memory.
pub fn record_line(alloc: Global, texts: &[String]) -> Result<Vec<u8>, AllocError>
    ensures { IfOk result (λ line. line.items ≡ row_text default_writer (map string_bytes texts.now)) }
{
    let fields = slices_of(alloc, texts)?;
    record_of(alloc, fields.as_slice())
}

/// Bytes in UTF-8 as a text.
fn text_of(alloc: Global, bytes: Vec<u8>) -> Result<Text, AllocError>
    requires { IsUtf8 bytes.items }
    ensures { IfOk result (λ text. text ≡ bytes.items) }
{
    Text::copy(alloc, from_utf8(bytes.as_slice()).unwrap())
}

/// Names as a line.
fn line_of(alloc: Global, names: &[String]) -> Result<Text, AllocError>
    ensures { IfOk result (λ line. line ≡ line_of (map string_bytes names.now)) }
{
    if names.is_empty() {
        return Text::copy(alloc, "\n");
    }
    let line = record_line(alloc, names)?;
    text_of(alloc, line)
}

/// The line of all columns of a state, ended by LF: where there are none, the LF alone. Its one refusal is for want of memory.
pub fn column_line(alloc: Global, robot: &Robot) -> Result<Text, AllocError>
    ensures { IfOk result (λ line. line ≡ line_of (state_columns robot.now)) }
{
    let names = column_texts(alloc, robot)?;
    line_of(alloc, names.as_slice())
}

/// The name of the entry of the inertia matrix at two columns.
fn mass_name(alloc: Global, c: u32, d: u32) -> Result<String, AllocError>
    ensures { IfOk result (λ name. string_bytes name ≡ mass_name (c, d)) }
{
    let mut buffer = Buffer::new();
    let mut name = String::from_str(alloc, "M.")?;
    name.push_str(buffer.format(c))?;
    name.push_str(".")?;
    name.push_str(buffer.format(d))?;
    Ok(name)
}

/// Puts the names of the entries at column c and each from it on.
fn put_mass_row(
    alloc: Global,
    texts: &mut Vec<String>,
    c: u32,
    count: u32,
) -> Result<(), AllocError>
    requires within { c ≤ count }
    requires few { count ≤ MAX_COLUMNS }
    ensures { OnOk result (map string_bytes texts.new.items ≡ map string_bytes texts.old.items ++ map mass_name (pairs_at count c)) }
{
    for d in c..count + 1 {
        let name = mass_name(alloc, c, d)?;
        texts.push(name)?;
    }
    Ok(())
}

/// Puts the names of the entries at each two columns, the lower one first.
fn put_mass_names(alloc: Global, texts: &mut Vec<String>, count: u32) -> Result<(), AllocError>
    requires { count ≤ MAX_COLUMNS }
    ensures { OnOk result (map string_bytes texts.new.items ≡ map string_bytes texts.old.items ++ mass_names count) }
{
    for c in 1..count + 1 {
        put_mass_row(alloc, texts, c, count)?;
    }
    Ok(())
}

/// Puts names, each behind a prefix.
fn put_behind(
    alloc: Global,
    texts: &mut Vec<String>,
    prefix: &str,
    names: &[String],
) -> Result<(), AllocError>
    ensures { OnOk result (map string_bytes texts.new.items ≡ map string_bytes texts.old.items ++ behind prefix.now (map string_bytes names.now)) }
{
    for name in names {
        let mut text = String::from_str(alloc, prefix)?;
        text.push_str(name.as_str())?;
        texts.push(text)?;
    }
    Ok(())
}

/// The name of the row of a constraint in a direction.
fn row_name(alloc: Global, c: &Constraint, direction: Direction) -> Result<String, AllocError>
    ensures { IfOk result (λ name. string_bytes name ≡ row_name c.now direction) }
{
    let mut name = String::from_str(alloc, c.name.as_str())?;
    name.push_str(".")?;
    name.push_str(direction.letter())?;
    Ok(name)
}

/// Puts the name of the row of a constraint in a direction, where it is held.
fn put_row_name(
    alloc: Global,
    texts: &mut Vec<String>,
    held: bool,
    c: &Constraint,
    direction: Direction,
) -> Result<(), AllocError>
    ensures { OnOk result (map string_bytes texts.new.items ≡ map string_bytes texts.old.items ++ map (row_name c.now) (where_held held direction [])) }
{
    if held {
        texts.push(row_name(alloc, c, direction)?)?;
    }
    Ok(())
}

/// Puts the names of the rows of a constraint.
fn put_own_names(alloc: Global, texts: &mut Vec<String>, c: &Constraint) -> Result<(), AllocError>
    ensures { OnOk result (map string_bytes texts.new.items ≡ map string_bytes texts.old.items ++ own_names c.now) }
{
    put_row_name(alloc, texts, c.axes.x, c, Direction::AlongX)?;
    put_row_name(alloc, texts, c.axes.y, c, Direction::AlongY)?;
    put_row_name(alloc, texts, c.axes.z, c, Direction::AlongZ)?;
    put_row_name(alloc, texts, c.axes.a, c, Direction::AboutX)?;
    put_row_name(alloc, texts, c.axes.b, c, Direction::AboutY)?;
    put_row_name(alloc, texts, c.axes.c, c, Direction::AboutZ)?;
    Ok(())
}

/// The names of the rows of all constraints.
fn row_texts(alloc: Global, cons: &Constraints) -> Result<Vec<String>, AllocError>
    ensures { IfOk result (λ texts. map string_bytes texts.items ≡ row_names cons.now) }
{
    let mut texts = Vec::new(alloc);
    for c in cons.as_slice() {
        put_own_names(alloc, &mut texts, c)?;
    }
    Ok(texts)
}

/// Puts the names of the rows of all constraints, each behind a prefix.
fn put_row_names(
    alloc: Global,
    texts: &mut Vec<String>,
    prefix: &str,
    cons: &Constraints,
) -> Result<(), AllocError>
    ensures { OnOk result (map string_bytes texts.new.items ≡ map string_bytes texts.old.items ++ behind prefix.now (row_names cons.now)) }
{
    let names = row_texts(alloc, cons)?;
    put_behind(alloc, texts, prefix, names.as_slice())
}

/// Puts the names of columns behind one prefix, and then those of rows of constraints behind another.
fn put_columns_and_rows(
    alloc: Global,
    texts: &mut Vec<String>,
    of_columns: &str,
    robot: &Robot,
    of_rows: &str,
    cons: &Constraints,
) -> Result<(), AllocError>
    ensures { OnOk result (map string_bytes texts.new.items ≡ map string_bytes texts.old.items ++ (columns_behind of_columns.now robot.now ++ behind of_rows.now (row_names cons.now))) }
{
    put_columns(alloc, texts, of_columns, robot)?;
    put_row_names(alloc, texts, of_rows, cons)
}

/// Puts the names of a task's values.
fn put_value_names(
    alloc: Global,
    texts: &mut Vec<String>,
    robot: &Robot,
    cons: &Constraints,
    task: Task,
) -> Result<(), AllocError>
    ensures { OnOk result (map string_bytes texts.new.items ≡ map string_bytes texts.old.items ++ value_names robot.now cons.now task) }
{
    match task {
        Task::Rnea => put_columns(alloc, texts, "tau.", robot),
        Task::Crba => put_mass_names(alloc, texts, robot.nv()),
        Task::Fd | Task::Aba => put_columns(alloc, texts, "a.", robot),
        Task::Contact => put_columns_and_rows(alloc, texts, "a.", robot, "lam.", cons),
        Task::Impulse => put_columns_and_rows(alloc, texts, "v.", robot, "imp.", cons),
    }
}

/// Puts the columns of the state, where they are given again.
fn put_echoed_names(
    alloc: Global,
    texts: &mut Vec<String>,
    robot: &Robot,
    echo: bool,
) -> Result<(), AllocError>
    ensures { OnOk result (map string_bytes texts.new.items ≡ map string_bytes texts.old.items ++ echoed_names robot.now echo) }
{
    if !echo {
        return Ok(());
    }
    let names = column_texts(alloc, robot)?;
    put_behind(alloc, texts, "in.", names.as_slice())
}

/// The first names of the output.
fn leading_names(alloc: Global) -> Result<Vec<String>, AllocError>
    ensures { IfOk result (λ texts. map string_bytes texts.items ≡ codes "row" ∷ codes "answer" ∷ codes "cause" ∷ []) }
{
    let mut texts = Vec::new(alloc);
    texts.push(String::from_str(alloc, "row")?)?;
    texts.push(String::from_str(alloc, "answer")?)?;
    texts.push(String::from_str(alloc, "cause")?)?;
    Ok(texts)
}

/// The names of the output.
#[tactic(auto, unfolding(crate::specs::Head::head_fields))]
fn head_names(
    alloc: Global,
    robot: &Robot,
    cons: &Constraints,
    task: Task,
    echo: bool,
) -> Result<Vec<String>, AllocError>
    ensures { IfOk result (λ texts. map string_bytes texts.items ≡ head_fields robot.now cons.now task echo) }
{
    let mut texts = leading_names(alloc)?;
    put_echoed_names(alloc, &mut texts, robot, echo)?;
    put_value_names(alloc, &mut texts, robot, cons, task)?;
    Ok(texts)
}

/// The first line of the output, ended by LF. Its one refusal is for want of memory.
pub fn head_line(
    alloc: Global,
    robot: &Robot,
    cons: &Constraints,
    task: Task,
    echo: bool,
) -> Result<Text, AllocError>
    ensures { IfOk result (λ line. line ≡ line_of (head_fields robot.now cons.now task echo)) }
{
    let names = head_names(alloc, robot, cons, task, echo)?;
    line_of(alloc, names.as_slice())
}
