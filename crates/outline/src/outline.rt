//! The text of an outline.
ghost use Rattle.std.specs.Prelude.{◌≡◌, IfOk, IfErr, IsSomeAnd, string_bytes};
ghost use Rattle.rb_tree.specs.Columns.{body_at};
ghost use Rattle.rb_tree.specs.Robot.{HasBody, AreBodies};
ghost use Rattle.outline.specs.Outline.{depth_of, body_text as body_text_of, last_text as last_text_of, line_of, mass_of as mass_of_tree, outline_of, EnclosesMasses, IsOutline, HasNoMass};

use crate::faults::Fault;
use rb_num::{Iv, NumFault};
use rb_tree::Robot;
use std::alloc::{AllocError, Global};
use std::str::from_utf8;

/// The depth of body i: 1 where the world bears it, else 1 more than that of its parent.
#[tactic(auto, using(crate::proofs::Depths::one_more, crate::proofs::Depths::at_world))]
fn depth(robot: &Robot, i: u32) -> u32
    requires there { HasBody robot.now i }
    requires kept { AreBodies robot.now.bodies }
    ensures { result ≡ depth_of robot.now.bodies i }
{
    let mut depth = 0;
    let mut at = i;
    while at > 0 {
        at = robot.parent(at);
        depth += 1;
    }
    depth
}

#[tactic(auto, unfolding(crate::specs::Outline::body_text))]
fn body_text(
    alloc: Global,
    i: u32,
    depth: u32,
    link: &str,
    joint: &str,
    columns: usize,
) -> Result<String, AllocError>
    ensures { IfOk result (λ text. string_bytes text ≡ body_text_of i depth link.now joint.now columns) }
{
    format!(in alloc; "{i}: depth {depth}, link {link}, joint {joint}, columns {columns}\n")
}

#[tactic(auto, unfolding(crate::specs::Outline::last_text))]
fn last_text(alloc: Global, bodies: u32, columns: u32, mass: Iv) -> Result<String, AllocError>
    ensures { IfOk result (λ text. string_bytes text ≡ last_text_of bodies columns mass) }
{
    format!(in alloc; "bodies {bodies}, columns {columns}, mass {mass}\n")
}

/// The line of body i.
fn line(alloc: Global, robot: &Robot, i: u32) -> Result<String, AllocError>
    requires there { HasBody robot.now i }
    requires kept { AreBodies robot.now.bodies }
    ensures { IfOk result (λ line. IsSomeAnd (body_at robot.now.bodies i) (λ body. string_bytes line ≡ line_of robot.now.bodies i body)) }
{
    let link = from_utf8(robot.link_name(i)).unwrap();
    let joint = from_utf8(robot.joint_name(i)).unwrap();
    let columns = robot.joint(i).nv();
    body_text(alloc, i, depth(robot, i), link, joint, columns)
}

/// The mass of all bodies. It is refused where a sum of the first ones passes the limit of the numbers.
fn mass_of(robot: &Robot) -> Result<Iv, NumFault>
    ensures exact { result ≡ mass_of_tree robot.now }
    ensures encloses { IfOk result (EnclosesMasses robot.now) }
{
    let mut mass = Iv::ZERO;
    let end = robot.bodies() + 1;
    for i in 1..end {
        mass = mass.add(robot.link_raw(i).mass)?;
    }
    Ok(mass)
}

/// The outline of a robot of this mass: a line for each body, and the last line.
fn lines(alloc: Global, robot: &Robot, mass: Iv) -> Result<String, AllocError>
    ensures { IfOk result (λ text. string_bytes text ≡ outline_of robot.now mass) }
{
    let mut text = String::new(alloc);
    let end = robot.bodies() + 1;
    for i in 1..end {
        text.push_str(line(alloc, robot, i)?.as_str())?;
    }
    let last = last_text(alloc, robot.bodies(), robot.full(), mass)?;
    text.push_str(last.as_str())?;
    Ok(text)
}

/// The outline of a robot.
pub(crate) fn outline(alloc: Global, robot: &Robot) -> Result<String, Fault>
    ensures ok { IfOk result (λ text. IsOutline robot.now (string_bytes text)) }
    ensures err { IfErr result (HasNoMass robot.now) }
{
    let mass = mass_of(robot)?;
    Ok(lines(alloc, robot, mass)?)
}
