ghost use Rattle.std.specs.Prelude.{◌≡◌, ◌≤◌, ◌+◌, ◌-◌, ◌*◌, ◌/◌, ◌++◌, length, map, replicate, take, IfOk};
ghost use Rattle.rb_num.specs.Interval.{zero_interval};
ghost use Rattle.rb_tree.specs.Columns.{column_count};
ghost use Rattle.rb_tree.specs.Places.{IsFor};
ghost use Rattle.rb_work.specs.View.{columns_of};
ghost use Rattle.rb_rnea.specs.Dynamics.{torques_in};
ghost use Rattle.rb_constraint.specs.Constraints.{constraints_of};
ghost use Rattle.rb_contact.specs.Forward.{accelerations_in};
ghost use Rattle.rb_contact.specs.Contact.{forces_in};
ghost use Rattle.rb_impact.specs.Impact.{speeds_in, impulses_in};
ghost use Rattle.rb_rows.specs.Head.{pairs_at};
ghost use Rattle.rb_run.specs.Answers.{mass_of_pair, masses_in, values_in};
ghost use Rattle.rb_run.specs.Jobs.{IsJob, IsWorkOf};
ghost use Rattle.rb_run.specs.Slots.{value_count};

use crate::job::Job;
use rb_constraint::Constraints;
use rb_num::Iv;
use rb_rows::Task;
use rb_tree::Robot;
use rb_work::Work;
use std::alloc::{AllocError, Global};
use std::marker::Model;

/// How many pairs there are of so many columns.
fn pair_count(columns: usize) -> usize
    requires { columns ≤ 64 }
    ensures count { result ≡ columns * (columns + 1) / 2 }
    ensures few { result ≤ 2080 }
{
    columns * (columns + 1) / 2
}

/// How many values the answer of a row has.
pub(crate) fn value_count(job: &Job) -> usize
    ensures count { result ≡ value_count job.now.robot job.now.cons job.now.task }
    ensures few { result ≤ 2080 }
{
    let columns = job.robot.nv() as usize;
    match job.task {
        Task::Crba => pair_count(columns),
        Task::Rnea | Task::Fd | Task::Aba => columns,
        Task::Contact | Task::Impulse => columns + job.cons.rows() as usize,
    }
}

/// Puts the torques of a work.
fn put_torques(robot: &Robot, work: &Work, torques: &mut [Iv])
    requires work { IsFor robot.now work.now }
    requires length { length torques.old ≡ column_count robot.now.bodies }
    ensures torques { torques.new ≡ torques_in robot.now work.now }
    ensures length { length torques.new ≡ length torques.old }
{
    for c in 1..robot.nv() + 1 {
        torques[c as usize - 1] = work.torque(c);
    }
}

/// Puts the accelerations of a work.
fn put_accelerations(robot: &Robot, work: &Work, accelerations: &mut [Iv])
    requires work { IsFor robot.now work.now }
    requires length { length accelerations.old ≡ column_count robot.now.bodies }
    ensures accelerations { accelerations.new ≡ accelerations_in robot.now work.now }
    ensures length { length accelerations.new ≡ length accelerations.old }
{
    for c in 1..robot.nv() + 1 {
        accelerations[c as usize - 1] = work.accel(c);
    }
}

/// Puts the entries of the mass table at column `c` and each from it on, behind so many others.
fn put_mass_row(work: &Work, c: u32, behind: usize, masses: &mut [Iv])
    requires column { 1 ≤ c }
    requires to { c ≤ columns_of work.now }
    requires room { behind + (columns_of work.now + 1 - c) ≤ length masses.old }
    ensures row { take (behind + (columns_of work.now + 1 - c)) masses.new ≡ take behind masses.old ++ map (mass_of_pair work.now) (pairs_at (columns_of work.now) c) }
    ensures length { length masses.new ≡ length masses.old }
{
    for d in c..work.columns() + 1 {
        masses[behind + (d - c) as usize] = work.mass(c, d);
    }
}

/// Puts the entries of the mass table of a work at each two columns, by rows.
fn put_masses(robot: &Robot, work: &Work, masses: &mut [Iv])
    requires work { IsFor robot.now work.now }
    requires length { length masses.old ≡ column_count robot.now.bodies * (column_count robot.now.bodies + 1) / 2 }
    ensures masses { masses.new ≡ masses_in robot.now work.now }
    ensures length { length masses.new ≡ length masses.old }
{
    let columns = work.columns();
    let mut behind = 0;
    for c in 1..columns + 1 {
        put_mass_row(work, c, behind, masses);
        behind += (columns + 1 - c) as usize;
    }
}

/// Puts the speeds after an impact of a work.
fn put_speeds(robot: &Robot, work: &Work, speeds: &mut [Iv])
    requires work { IsFor robot.now work.now }
    requires length { length speeds.old ≡ column_count robot.now.bodies }
    ensures speeds { speeds.new ≡ speeds_in robot.now work.now }
    ensures length { length speeds.new ≡ length speeds.old }
{
    for c in 1..robot.nv() + 1 {
        speeds[c as usize - 1] = work.speed_after(c);
    }
}

/// Puts the forces of the rows of a work; after an impact, their impulses.
fn put_forces(cons: &Constraints, work: &Work, forces: &mut [Iv])
    requires work { (constraints_of cons.now).rows ≤ work.now.rows }
    requires length { length forces.old ≡ (constraints_of cons.now).rows }
    ensures forces { forces.new ≡ forces_in (constraints_of cons.now) work.now }
    ensures length { length forces.new ≡ length forces.old }
{
    for r in 1..cons.rows() + 1 {
        forces[r as usize - 1] = work.row_force(r);
    }
}

/// Puts the accelerations of a work, and the forces of the rows behind them.
fn put_contact(robot: &Robot, cons: &Constraints, work: &Work, values: &mut [Iv])
    requires work { IsFor robot.now work.now }
    requires rows { (constraints_of cons.now).rows ≤ work.now.rows }
    requires length { length values.old ≡ column_count robot.now.bodies + (constraints_of cons.now).rows }
    ensures values { values.new ≡ accelerations_in robot.now work.now ++ forces_in (constraints_of cons.now) work.now }
    ensures length { length values.new ≡ length values.old }
{
    let (accelerations, forces) = values.split_at_mut(robot.nv() as usize);
    put_accelerations(robot, work, accelerations);
    put_forces(cons, work, forces);
}

/// Puts the speeds after an impact of a work, and the impulses of the rows behind them.
fn put_impact(robot: &Robot, cons: &Constraints, work: &Work, values: &mut [Iv])
    requires work { IsFor robot.now work.now }
    requires rows { (constraints_of cons.now).rows ≤ work.now.rows }
    requires length { length values.old ≡ column_count robot.now.bodies + (constraints_of cons.now).rows }
    ensures values { values.new ≡ speeds_in robot.now work.now ++ impulses_in (constraints_of cons.now) work.now }
    ensures length { length values.new ≡ length values.old }
{
    let (speeds, impulses) = values.split_at_mut(robot.nv() as usize);
    put_speeds(robot, work, speeds);
    put_forces(cons, work, impulses);
}

/// Puts what a work holds for the values of a row.
fn put_values(job: &Job, work: &Work, values: &mut [Iv])
    requires task { IsJob job.now }
    requires work { IsWorkOf job.now work.now }
    requires length { length values.old ≡ value_count job.now.robot job.now.cons job.now.task }
    ensures values { values.new ≡ values_in job.now.task job.now.robot job.now.cons work.now }
    ensures length { length values.new ≡ length values.old }
{
    match job.task {
        Task::Rnea => put_torques(&job.robot, work, values),
        Task::Crba => put_masses(&job.robot, work, values),
        Task::Fd | Task::Aba => put_accelerations(&job.robot, work, values),
        Task::Contact => put_contact(&job.robot, &job.cons, work, values),
        Task::Impulse => put_impact(&job.robot, &job.cons, work, values),
    }
}

/// The values of the answer of a row: the torques, the accelerations or the speeds after an impact from column 1 on, under constraints the forces or the
/// impulses of their rows behind them, or the entries of the mass table at each two columns, by rows.
#[derive(Debug, Drop)]
pub struct Values {
    items: Vec<Iv>,
}

impl Model for Values {
    ghost use Rattle.std.specs.Prelude.{List};
    ghost use Rattle.rb_num.specs.Interval.{Interval};

    ghost Value = { List Interval };

    ghost view = { λ v. v.items.items };
}

impl Values {
    /// So many zeros.
    pub(crate) fn zeros(alloc: Global, count: usize) -> Result<Values, AllocError>
        ensures { IfOk result (λ values. values ≡ replicate count zero_interval) }
    {
        let mut items = Vec::new(alloc);
        items.resize(count, Iv::ZERO)?;
        Ok(Values { items })
    }

    /// The values, in their order.
    #[inline]
    pub fn as_slice(&self) -> &[Iv]
        ensures { result.now ≡ self.now }
    {
        self.items.as_slice()
    }

    /// Takes what a work holds for them.
    pub(crate) fn take(&mut self, job: &Job, work: &Work)
        requires task { IsJob job.now }
        requires work { IsWorkOf job.now work.now }
        requires length { length self.old ≡ value_count job.now.robot job.now.cons job.now.task }
        ensures values { self.new ≡ values_in job.now.task job.now.robot job.now.cons work.now }
        ensures length { length self.new ≡ length self.old }
    {
        put_values(job, work, self.items.as_mut_slice());
    }
}
