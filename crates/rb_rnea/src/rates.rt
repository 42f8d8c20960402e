//! The rates of a joint, and the motion over it.

ghost use Rattle.std.specs.Prelude.{◌≡◌, ◌<◌, ◌-◌, [], ◌∷◌, length, None, IfErr};
ghost use Rattle.rb_flat.specs.Choice.{items_from};
ghost use Rattle.rb_tree.specs.Columns.{column_count, first_column};
ghost use Rattle.rb_tree.specs.Numbers.{mimic_at};
ghost use Rattle.rb_tree.specs.Robot.{HasBody};
ghost use Rattle.rb_tree.specs.State.{at_place};
ghost use Rattle.rb_tree.specs.Places.{padded};
ghost use Rattle.rb_rnea.specs.Rates.{joint_columns, rates_of, motion_of, motion_by};

use rb_num::{Iv, NumFault, dot};
use rb_spatial::Motion;
use rb_tree::Robot;

// The number at a place.
fn number_at(numbers: &[Iv], place: usize) -> Iv
    requires { place < length numbers.now }
    ensures { result ≡ at_place numbers.now place }
{
    numbers[place]
}

// The rates of a joint that follows no other.
fn own_rates(robot: &Robot, numbers: &[Iv], i: u32) -> [Iv; 6]
    requires long { length numbers.now ≡ column_count robot.now.bodies }
    requires there { HasBody robot.now i }
    requires leads { mimic_at robot.now.bodies i ≡ None }
    ensures { result ≡ padded 6 (items_from (at_place numbers.now) (first_column robot.now.bodies i - 1) (joint_columns robot.now.bodies i)) }
{
    let _columns = robot.nv();
    let mut rates = [Iv::ZERO; 6];
    let first = robot.first_column(i) as usize - 1;
    let count = robot.joint(i).nv();
    for k in 0..count {
        rates[k] = number_at(numbers, first + k);
    }
    rates
}

// One rate, and zeros behind it.
fn one_rate(x: Iv) -> [Iv; 6]
    ensures { result ≡ padded 6 (x ∷ []) }
{
    [x, Iv::ZERO, Iv::ZERO, Iv::ZERO, Iv::ZERO, Iv::ZERO]
}

// The rates of the joint of a body, of the numbers of the columns.
#[tactic(auto, unfolding(crate::specs::Rates::rates_of))]
pub(crate) fn rates_at(robot: &Robot, numbers: &[Iv], i: u32) -> Result<[Iv; 6], NumFault>
    requires long { length numbers.now ≡ column_count robot.now.bodies }
    requires there { HasBody robot.now i }
    ensures exact { result ≡ rates_of robot.now.bodies numbers.now i }
    ensures size { IfErr result (λ e. e ≡ NumFault.Size) }
{
    match robot.mimic_of(i) {
        None => Ok(own_rates(robot, numbers, i)),
        Some(mimic) => {
            let leading = number_at(numbers, robot.first_column(i) as usize - 1);
            let x = dot(&[(mimic.multiplier, leading)])?;
            Ok(one_rate(x))
        }
    }
}

// The motion over the joint of a body at these rates.
#[inline]
#[tactic(auto, unfolding(crate::specs::Rates::motion_of))]
pub(crate) fn motion_at(robot: &Robot, i: u32, rates: &[Iv; 6]) -> Result<Motion, NumFault>
    requires there { HasBody robot.now i }
    ensures exact { result ≡ motion_of robot.now.bodies i rates.now }
    ensures size { IfErr result (λ e. e ≡ NumFault.Size) }
{
    let joint = robot.joint(i);
    joint.motion(&rates[..joint.nv()])
}

// The motion over the joint of a body that follows no other, at the numbers of its own columns.
#[inline]
fn own_motion(robot: &Robot, numbers: &[Iv], i: u32) -> Result<Motion, NumFault>
    requires long { length numbers.now ≡ column_count robot.now.bodies }
    requires there { HasBody robot.now i }
    requires leads { mimic_at robot.now.bodies i ≡ None }
    ensures exact { result ≡ motion_by robot.now.bodies numbers.now i }
    ensures size { IfErr result (λ e. e ≡ NumFault.Size) }
{
    let _columns = robot.nv();
    let joint = robot.joint(i);
    let first = robot.first_column(i) as usize - 1;
    joint.motion(&numbers[first..first + joint.nv()])
}

// The motion over the joint of a body, at the numbers of the columns.
#[tactic(auto, unfolding(crate::specs::Rates::motion_by))]
pub(crate) fn motion_by(robot: &Robot, numbers: &[Iv], i: u32) -> Result<Motion, NumFault>
    requires long { length numbers.now ≡ column_count robot.now.bodies }
    requires there { HasBody robot.now i }
    ensures exact { result ≡ motion_by robot.now.bodies numbers.now i }
    ensures size { IfErr result (λ e. e ≡ NumFault.Size) }
{
    match robot.mimic_of(i) {
        None => own_motion(robot, numbers, i),
        Some(_) => {
            let rates = rates_at(robot, numbers, i)?;
            motion_at(robot, i, &rates)
        }
    }
}
