// The lines of bodies, of groups and of a position.
ghost use Rattle.std.specs.Prelude.{◌≡◌, ◌<◌, ◌++◌, ◌∷◌, [], length, map, codes, decimal, slice_get, IfOk, OnOk, IsSomeAnd, string_bytes};
ghost use Rattle.std.specs.List.{join_with_byte};
ghost use Rattle.rb_tree.specs.Columns.{body_at};
ghost use Rattle.rb_tree.specs.Robot.{HasBody};
ghost use Rattle.rb_tree.specs.State.{Fits};
ghost use Rattle.rb_model.specs.Model.{kind_word, axis_fields, joint_raw_fields, link_raw_fields, mimic_fields, joint_fields, link_fields, body_lines, group_fields, entry_fields, position_fields, lines_text};

use crate::fields::Fields;
use rb_body::{JointRaw, LinkRaw};
use rb_tree::{Mimic, Robot, State};
use rb_urdf::UrdfKind;
use std::alloc::{AllocError, Global};

/// The word of a kind of joint (URDF `type`).
fn kind_word(kind: UrdfKind) -> &'static str
    ensures { result.now ≡ kind_word kind }
{
    match kind {
        UrdfKind::Fixed => "fixed",
        UrdfKind::Revolute => "revolute",
        UrdfKind::Prismatic => "prismatic",
        UrdfKind::Continuous => "continuous",
        UrdfKind::Planar => "planar",
        UrdfKind::Floating => "floating",
    }
}

/// Puts the axis of a joint and its factor, where its kind has them.
#[tactic(auto, using(std::proofs::Common::append_assoc))]
fn put_axis(fields: &mut Fields, raw: &JointRaw) -> Result<(), AllocError>
    ensures { OnOk result (fields.new ≡ fields.old ++ axis_fields raw.now) }
{
    match raw.kind {
        UrdfKind::Revolute | UrdfKind::Continuous | UrdfKind::Prismatic => {
            fields.put_ivs(&raw.axis)?;
            fields.put_iv(raw.factor)
        }
        UrdfKind::Fixed | UrdfKind::Planar | UrdfKind::Floating => fields.put_blanks(4),
    }
}

/// Puts what a joint follows, if it follows another.
#[tactic(auto, using(std::proofs::Common::append_assoc))]
fn put_mimic(fields: &mut Fields, mimic: Option<Mimic>) -> Result<(), AllocError>
    ensures { OnOk result (fields.new ≡ fields.old ++ mimic_fields mimic) }
{
    match mimic {
        None => fields.put_blanks(3),
        Some(mimic) => {
            fields.put_number(mimic.master)?;
            fields.put_iv(mimic.multiplier)?;
            fields.put_iv(mimic.offset)
        }
    }
}

/// Puts the kind of a joint and its brackets.
#[tactic(auto, using(std::proofs::Common::append_assoc))]
fn put_joint(fields: &mut Fields, raw: &JointRaw) -> Result<(), AllocError>
    ensures { OnOk result (fields.new ≡ fields.old ++ joint_raw_fields raw.now) }
{
    fields.put(kind_word(raw.kind))?;
    fields.put_ivs(&raw.xyz)?;
    fields.put_ivs(&raw.rpy)?;
    put_axis(fields, raw)
}

/// Puts the brackets of a link.
#[tactic(auto, using(std::proofs::Common::append_assoc))]
fn put_link(fields: &mut Fields, raw: &LinkRaw) -> Result<(), AllocError>
    ensures { OnOk result (fields.new ≡ fields.old ++ link_raw_fields raw.now) }
{
    fields.put_iv(raw.mass)?;
    fields.put_ivs(&raw.com)?;
    fields.put_ivs(&raw.rpy)?;
    fields.put_ivs(&raw.six)
}

/// The line of the joint of body i.
fn joint_fields(alloc: Global, robot: &Robot, i: u32) -> Result<Fields, AllocError>
    requires { HasBody robot.now i }
    ensures { IfOk result (λ fields. IsSomeAnd (body_at robot.now.bodies i) (λ body. fields ≡ joint_fields i body)) }
{
    let mut fields = Fields::new(alloc);
    fields.put("joint")?;
    fields.put_number(i)?;
    fields.put_number(robot.parent(i))?;
    fields.put_name(robot.joint_name(i))?;
    put_joint(&mut fields, robot.joint_raw(i))?;
    put_mimic(&mut fields, robot.mimic_of(i))?;
    Ok(fields)
}

/// The line of the link of body i.
fn link_fields(alloc: Global, robot: &Robot, i: u32) -> Result<Fields, AllocError>
    requires { HasBody robot.now i }
    ensures { IfOk result (λ fields. IsSomeAnd (body_at robot.now.bodies i) (λ body. fields ≡ link_fields i body)) }
{
    let mut fields = Fields::new(alloc);
    fields.put("link")?;
    fields.put_number(i)?;
    fields.put_name(robot.link_name(i))?;
    put_link(&mut fields, robot.link_raw(i))?;
    Ok(fields)
}

/// Numbers with a space between each two.
fn numbers_text(alloc: Global, numbers: &[u32]) -> Result<String, AllocError>
    ensures { IfOk result (λ text. string_bytes text ≡ join_with_byte 32 (map decimal numbers.now)) }
{
    let mut text = String::new(alloc);
    for (k, number) in numbers.iter().enumerate() {
        let between = if k == 0 { "" } else { " " };
        write!(text, "{between}{number}")?;
    }
    Ok(text)
}

/// The line of the group of a number, from 0.
pub(crate) fn group_fields(alloc: Global, robot: &Robot, k: u32) -> Result<Fields, AllocError>
    requires { k < length robot.now.groups }
    ensures { IfOk result (λ fields. IsSomeAnd (slice_get robot.now.groups k) (λ group. fields ≡ group_fields group)) }
{
    let numbers = numbers_text(alloc, robot.group_bodies(k))?;
    let mut fields = Fields::new(alloc);
    fields.put("group")?;
    fields.put_name(robot.group_name(k))?;
    fields.put(numbers.as_str())?;
    Ok(fields)
}

/// Puts the entries of the position, or an empty field where there are none.
fn put_entries(fields: &mut Fields, count: usize, start: &State) -> Result<(), AllocError>
    requires { count ≡ length start.now.q }
    ensures { OnOk result (fields.new ≡ fields.old ++ entry_fields start.now.q) }
{
    if count == 0 {
        return fields.put_blanks(1);
    }
    for place in 0..count {
        fields.put_iv(start.q(place))?;
    }
    Ok(())
}

/// The line of the position of a state.
#[tactic(auto, unfolding(crate::specs::Model::position_fields))]
pub(crate) fn position_fields(
    alloc: Global,
    robot: &Robot,
    start: &State,
) -> Result<Fields, AllocError>
    requires { Fits robot.now start.now }
    ensures { IfOk result (λ fields. fields ≡ position_fields start.now.q) }
{
    let mut fields = Fields::new(alloc);
    fields.put("state")?;
    put_entries(&mut fields, robot.nq() as usize, start)?;
    Ok(fields)
}

/// The line of the name of a robot.
pub(crate) fn name_fields(alloc: Global, robot: &Robot) -> Result<Fields, AllocError>
    ensures { IfOk result (λ fields. fields ≡ codes "robot" ∷ robot.now.name ∷ []) }
{
    let mut fields = Fields::new(alloc);
    fields.put("robot")?;
    fields.put_name(robot.name())?;
    Ok(fields)
}

/// Puts the lines of body i behind a text.
pub(crate) fn put_body(
    alloc: Global,
    text: &mut Vec<u8>,
    robot: &Robot,
    i: u32,
) -> Result<(), AllocError>
    requires { HasBody robot.now i }
    ensures { OnOk result (IsSomeAnd (body_at robot.now.bodies i) (λ body. text.new.items ≡ text.old.items ++ lines_text (body_lines (i, body)))) }
{
    joint_fields(alloc, robot, i)?.put_line(text)?;
    link_fields(alloc, robot, i)?.put_line(text)
}
