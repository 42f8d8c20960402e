//! The inertias of bodies with all that they bear.

ghost use Rattle.std.specs.Prelude.{◌≡◌, ◌+◌, ◌≤◌, length, IfErr};
ghost use Rattle.rb_num.specs.Arith.{intervals};
ghost use Rattle.rb_spatial.specs.Inertias.{table as table_of};
ghost use Rattle.rb_sweep.specs.Sweep.{Answers, sweep, downward};
ghost use Rattle.rb_tree.specs.Numbers.{inertia_at as inertia_of};
ghost use Rattle.rb_tree.specs.Robot.{HasBody};
ghost use Rattle.rb_mass.specs.Inertias.{bear, add_child};
ghost use Rattle.rb_mass.specs.Steps.{inertia_step, inertias_of};

use rb_num::NumFault;
use rb_spatial::{Inertia6, carry, sum, table};
use rb_tree::Robot;
use rb_work::{Capitals, Name, NameKind, RowFault, Work, named};

// The inertia of body j with all that it bears is added.
#[tactic(auto, unfolding(crate::specs::Inertias::bear))]
fn borne(j: u32, total: &Inertia6, work: &Work) -> Result<Inertia6, NumFault>
    requires room { j ≤ work.now.bodies }
    ensures exact { result ≡ bear work.now j total.now }
    ensures size { IfErr result (λ e. e ≡ NumFault.Size) }
{
    let carried = carry(work.X(j), work.I(j))?;
    sum(total, &carried)
}

// The inertia of a body, with its children's.
#[tactic(auto, using(rb_sweep::proofs::SweepSteps::sweeps_down, crate::proofs::Ways::children))]
fn inertia_at(robot: &Robot, i: u32, work: &Work) -> Result<Inertia6, NumFault>
    requires room { work.now.bodies ≡ length robot.now.bodies }
    requires there { HasBody robot.now i }
    ensures exact { result ≡ sweep (add_child robot.now.bodies work.now i) (downward (i + 1) (length robot.now.bodies + 1)) (table_of intervals (inertia_of robot.now.bodies i)) }
    ensures size { IfErr result (λ e. e ≡ NumFault.Size) }
{
    let end = robot.bodies() + 1;
    let mut total = table(robot.inertia(i));
    for j in (i + 1..end).rev() {
        if robot.parent(j) == i {
            total = borne(j, &total, work)?;
        }
    }
    Ok(total)
}

// The name of one body.
#[tactic(auto, unfolding(crate::specs::Inertias::I_rule, crate::specs::Steps::inertia_step))]
fn body_inertia(robot: &Robot, i: u32, work: &mut Work) -> Result<(), RowFault>
    requires room { work.old.bodies ≡ length robot.now.bodies }
    requires there { HasBody robot.now i }
    ensures step { Answers result (inertia_step robot.now i work.old) work.new }
    ensures others { work.new ≡ record work.old { I = work.new.I } }
{
    let inertia = named(inertia_at(robot, i, work), Name::one(NameKind::I, i))?;
    work.set_I(i, inertia);
    Ok(())
}

// The sweep over the bodies.
#[tactic(auto, using(rb_sweep::proofs::SweepSteps::sweeps_down))]
pub(crate) fn sweep_inertias(robot: &Robot, work: &mut Work) -> Result<(), RowFault>
    requires room { work.old.bodies ≡ length robot.now.bodies }
    ensures exact { Answers result (inertias_of robot.now work.old) work.new }
    ensures others { work.new ≡ record work.old { I = work.new.I } }
{
    let end = robot.bodies() + 1;
    for i in (1..end).rev() {
        body_inertia(robot, i, work)?;
    }
    Ok(())
}
