// The names of the columns of a robot's states.
ghost use Rattle.std.specs.Prelude.{◌≡◌, ◌++◌, map, flat_map, codes, IfOk, OnOk, IsSomeAnd, string_bytes};
ghost use Rattle.rb_tree.specs.Columns.{body_at};
ghost use Rattle.rb_tree.specs.Names.{names_by};
ghost use Rattle.rb_tree.specs.Robot.{HasBody, AreBodies};
ghost use Rattle.rb_tags.specs.Names.{AreDifferent};
ghost use Rattle.rb_rows.specs.Columns.{behind, entries_of, columns_of, entry_columns, columns_behind, state_columns};

use crate::names::Names;
use rb_tree::{Robot, column_suffixes, entry_suffixes};
use std::alloc::{AllocError, Global};
use std::str::from_utf8;

/// The name of a column: a prefix, the joint's name, a suffix.
fn column_name(alloc: Global, prefix: &str, name: &str, suffix: &str) -> Result<String, AllocError>
    ensures { IfOk result (λ text. string_bytes text ≡ prefix.now ++ (name.now ++ suffix.now)) }
{
    let mut text = String::from_str(alloc, prefix)?;
    text.push_str(name)?;
    text.push_str(suffix)?;
    Ok(text)
}

/// Puts the names of a joint's columns.
fn put_names(
    alloc: Global,
    texts: &mut Vec<String>,
    prefix: &str,
    name: &str,
    suffixes: &[&str],
) -> Result<(), AllocError>
    ensures { OnOk result (map string_bytes texts.new.items ≡ map string_bytes texts.old.items ++ behind prefix.now (names_by name.now (map (λ s. s.now) suffixes.now))) }
{
    for suffix in suffixes {
        texts.push(column_name(alloc, prefix, name, suffix)?)?;
    }
    Ok(())
}

/// The name of the joint of body i.
fn joint_name(robot: &Robot, i: u32) -> &str
    requires { HasBody robot.now i }
    ensures { IsSomeAnd (body_at robot.now.bodies i) (λ body. body.joint_name ≡ result.now) }
{
    from_utf8(robot.joint_name(i)).unwrap()
}

/// Puts the columns of the position of body i.
fn put_entries_of(
    alloc: Global,
    texts: &mut Vec<String>,
    robot: &Robot,
    i: u32,
) -> Result<(), AllocError>
    requires { HasBody robot.now i }
    ensures { OnOk result (IsSomeAnd (body_at robot.now.bodies i) (λ body. map string_bytes texts.new.items ≡ map string_bytes texts.old.items ++ behind (codes "q.") (entries_of body))) }
{
    if robot.mimic_of(i).is_some() {
        return Ok(());
    }
    let kind = robot.joint_raw(i).kind;
    put_names(
        alloc,
        texts,
        "q.",
        joint_name(robot, i),
        entry_suffixes(kind),
    )
}

/// Puts the columns of the position.
fn put_entries(alloc: Global, texts: &mut Vec<String>, robot: &Robot) -> Result<(), AllocError>
    ensures names { OnOk result (map string_bytes texts.new.items ≡ map string_bytes texts.old.items ++ entry_columns robot.now) }
    ensures kept { AreBodies robot.now.bodies }
{
    for i in 1..robot.bodies() + 1 {
        put_entries_of(alloc, texts, robot, i)?;
    }
    Ok(())
}

/// Puts the columns of the speeds, accelerations or torques of body i.
fn put_columns_of(
    alloc: Global,
    texts: &mut Vec<String>,
    prefix: &str,
    robot: &Robot,
    i: u32,
) -> Result<(), AllocError>
    requires { HasBody robot.now i }
    ensures { OnOk result (IsSomeAnd (body_at robot.now.bodies i) (λ body. map string_bytes texts.new.items ≡ map string_bytes texts.old.items ++ behind prefix.now (columns_of body))) }
{
    if robot.mimic_of(i).is_some() {
        return Ok(());
    }
    let kind = robot.joint_raw(i).kind;
    put_names(
        alloc,
        texts,
        prefix,
        joint_name(robot, i),
        column_suffixes(kind),
    )
}

/// Puts the columns of speeds, accelerations or torques, whose names have this prefix.
pub(crate) fn put_columns(
    alloc: Global,
    texts: &mut Vec<String>,
    prefix: &str,
    robot: &Robot,
) -> Result<(), AllocError>
    ensures { OnOk result (map string_bytes texts.new.items ≡ map string_bytes texts.old.items ++ columns_behind prefix.now robot.now) }
{
    for i in 1..robot.bodies() + 1 {
        put_columns_of(alloc, texts, prefix, robot, i)?;
    }
    Ok(())
}

/// The names of the columns of a state.
#[tactic(auto, unfolding(crate::specs::Columns::state_columns))]
pub(crate) fn column_texts(alloc: Global, robot: &Robot) -> Result<Vec<String>, AllocError>
    ensures names { IfOk result (λ texts. map string_bytes texts.items ≡ state_columns robot.now) }
    ensures kept { AreBodies robot.now.bodies }
{
    let mut texts = Vec::new(alloc);
    put_entries(alloc, &mut texts, robot)?;
    put_columns(alloc, &mut texts, "v.", robot)?;
    put_columns(alloc, &mut texts, "a.", robot)?;
    put_columns(alloc, &mut texts, "tau.", robot)?;
    Ok(texts)
}

/// These names, which differ, as a set.
pub(crate) fn names_of<'a>(alloc: Global, texts: &'a [String]) -> Result<Names<'a>, AllocError>
    requires { AreDifferent (map string_bytes texts.now) }
    ensures { IfOk result (λ names. names ≡ map string_bytes texts.now) }
{
    let mut names = Names::new(alloc);
    for text in texts {
        names.add(text.as_bytes())?;
    }
    Ok(names)
}
