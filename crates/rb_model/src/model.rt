// The text of the model of a robot.
ghost use Rattle.std.specs.Prelude.{◌≡◌, ◌++◌, map, flat_map, IfOk, OnOk};
ghost use Rattle.std.specs.List.{enumerate_from};
ghost use Rattle.rb_tree.specs.State.{Fits};
ghost use Rattle.rb_model.specs.Model.{body_lines, group_fields, lines_text, model_text};

use crate::lines::{group_fields, name_fields, position_fields, put_body};
use rb_tree::{Robot, State};
use std::alloc::{AllocError, Global};

/// Puts the lines of the bodies behind a text.
fn put_bodies(alloc: Global, text: &mut Vec<u8>, robot: &Robot) -> Result<(), AllocError>
    ensures { OnOk result (text.new.items ≡ text.old.items ++ lines_text (flat_map body_lines (enumerate_from 1 robot.now.bodies))) }
{
    for i in 1..robot.bodies() + 1 {
        put_body(alloc, text, robot, i)?;
    }
    Ok(())
}

/// Puts the lines of the groups behind a text.
fn put_groups(alloc: Global, text: &mut Vec<u8>, robot: &Robot) -> Result<(), AllocError>
    ensures { OnOk result (text.new.items ≡ text.old.items ++ lines_text (map group_fields robot.now.groups)) }
{
    for k in 0..robot.groups() {
        group_fields(alloc, robot, k)?.put_line(text)?;
    }
    Ok(())
}

/// The robot as lines of comma-separated values, each ended by LF, with both ends of each bracket. The first is `robot` and the robot's name. For
/// each body, numbered from 1, come two lines: `joint`, the number of the body, that of its parent or 0 for the world, the name of its joint, the
/// kind (URDF `type`), the origin in metres, roll, pitch and yaw in radians, the axis and the factor that makes it one unit long, and for a joint
/// that follows another the number of that joint's body, the multiplier and the offset; and `link`, the number of the body, the name of its link,
/// the mass in kilograms, the centre of mass in metres, roll, pitch and yaw of the axes of its inertia in radians, and ixx, ixy, ixz, iyy, iyz, izz
/// in kg m². What a joint does not have is an empty field: only revolute, continuous and prismatic joints have an axis and a factor. For each group, in file
/// order, comes `group`, its name, and the numbers of its bodies with spaces between them. The last line is `state` and the entries of the position
/// of the state, or one empty field where the robot has none. The one refusal is for want of memory.
pub fn model_text(alloc: Global, robot: &Robot, start: &State) -> Result<Vec<u8>, AllocError>
    requires { Fits robot.now start.now }
    ensures { IfOk result (λ text. text.items ≡ model_text robot.now start.now.q) }
{
    let mut text = Vec::new(alloc);
    name_fields(alloc, robot)?.put_line(&mut text)?;
    put_bodies(alloc, &mut text, robot)?;
    put_groups(alloc, &mut text, robot)?;
    position_fields(alloc, robot, start)?.put_line(&mut text)?;
    Ok(text)
}
