//! Lines of rows, worked out by hand.
ghost use Rattle.std.specs.Prelude.{◌≡◌, ◌≤◌, IfOk, IfSome, length};
ghost use Rattle.rb_tree.specs.State.{Fits};
ghost use Rattle.rb_run.specs.Jobs.{IsJob, IsWorkOf};
ghost use Rattle.rb_run.specs.Slots.{IsSlotOf};
ghost use Rattle.rb_run.specs.declared.slot.Answer.TheVariants.{Idle};

use crate::robots::{LIFT, robot_on};
use rb_constraint::Constraints;
use rb_num::Iv;
use rb_rows::{FieldFault, FieldKind};
use rb_run::{Answer, Job, Slot, SlotInput, Task, answer_slot, line_room, put_line};
use rb_text::Out;
use rb_tree::{Robot, State};
use rb_work::Work;
use std::alloc::{AllocError, Global};

const ONE: i128 = 1_000_000_000_000;

// A car of 10^12 kg.
const HEAVY: &str =
    "<robot name='lift'><link name='base'/><link name='car'><inertial><mass value='1e12'/></inertial></link><joint name='lift' type='prismatic'><parent link='base'/><child link='car'/><axis xyz='0 0 1'/></joint></robot>";

// Two sliders of 1 kg along x, the second on the first.
const STACK: &str =
    "<robot name='stack'><link name='base'/><link name='l1'><inertial><mass value='1'/></inertial></link><link name='l2'><inertial><mass value='1'/></inertial></link><joint name='one' type='prismatic'><parent link='base'/><child link='l1'/><axis xyz='1 0 0'/></joint><joint name='two' type='prismatic'><parent link='l1'/><child link='l2'/><axis xyz='1 0 0'/></joint></robot>";

// A hinge that nothing hangs on.
const LEAF: &str =
    "<robot name='leaf'><link name='base'/><link name='tip'/><joint name='hinge' type='revolute'><parent link='base'/><child link='tip'/><axis xyz='0 1 0'/></joint></robot>";

// This task for the robot of a file, of which no joint follows another, without constraints; nothing if the file holds none.
fn job_of(alloc: Global, text: &str, task: Task, echo: bool) -> Option<Job>
    ensures { IfSome result IsJob }
{
    let Some(robot) = robot_on(alloc, text, None) else {
        return None;
    };
    if robot.has_mimic() {
        return None;
    }
    let cons = Constraints::none(alloc);
    Some(Job {
        robot,
        cons,
        task,
        echo,
    })
}

fn work_for(alloc: Global, job: &Job) -> Result<Work, AllocError>
    ensures { IfOk result (IsWorkOf job.now) }
{
    Work::new(
        alloc,
        job.robot.bodies(),
        job.robot.full(),
        job.robot.ups(),
        job.cons.rows(),
    )
}

// The line of a slot.
fn line_of(alloc: Global, job: &Job, slot: &Slot) -> Result<Out, AllocError>
    requires slot { IsSlotOf job.now slot.now }
    requires answered { ¬ slot.now.answer ≡ Idle }
{
    let mut out = Out::with_room(alloc, line_room(job))?;
    put_line(job, slot, &mut out);
    Ok(out)
}

fn accelerate(robot: &Robot, state: &mut State, up: Iv)
    requires { Fits robot.now state.old }
    ensures { Fits robot.now state.new }
{
    if robot.nv() != 0 {
        state.set_a(0, up);
    }
}

// A slot of the row of this number in which the first column has this acceleration.
fn slot_of(alloc: Global, job: &Job, row: u64, up: Iv) -> Result<Slot, AllocError>
    ensures { IfOk result (IsSlotOf job.now) }
{
    let mut slot = Slot::new(alloc, job)?;
    slot.row = row;
    accelerate(&job.robot, &mut slot.state, up);
    Ok(slot)
}

// The line of the row of this number in which the first column has this acceleration.
fn lifted(alloc: Global, job: &Job, row: u64, up: Iv) -> Result<Out, AllocError>
    requires { IsJob job.now }
{
    let mut slot = slot_of(alloc, job, row, up)?;
    slot.input = SlotInput::Row;
    let mut work = work_for(alloc, job)?;
    answer_slot(job, &mut slot, &mut work);
    line_of(alloc, job, &slot)
}

// Whether the row of this number of a job in which the first column has this acceleration has this line.
fn is_lifted(alloc: Global, job: &Job, row: u64, up: Iv, line: &[u8]) -> bool
    requires { IsJob job.now }
{
    let lifted = lifted(alloc, job, row, up);
    matches!(&lifted, Ok(out) if out.bytes() == line)
}

// The same of inverse dynamics of the lift at 1.5 m/s².
fn is_raised(alloc: Global, echo: bool, row: u64, line: &[u8]) -> bool {
    let Some(job) = job_of(alloc, LIFT, Task::Rnea, echo) else {
        return false;
    };
    let up = Iv::new(1_500_000_000_000, 1_500_000_000_000);
    is_lifted(alloc, &job, row, up, line)
}

// 2 (9.81 + 1.5)
#[test]
fn a_lift_is_answered(rt: HostRuntime) {
    let line = b"1,ok,,22.620000000000..22.620000000000\n";
    assert!(rt; is_raised(rt.alloc(), false, 1, line));
}

fn drive(robot: &Robot, state: &mut State, k: usize, acceleration: Iv, torque: Iv)
    requires { Fits robot.now state.old }
    ensures { Fits robot.now state.new }
{
    if k < robot.nv() as usize {
        state.set_a(k, acceleration);
        state.set_tau(k, torque);
    }
}

// The line of row 1, with 2 and -1 as the first accelerations, and 3 and 1 as the first torques.
fn driven(alloc: Global, job: &Job) -> Result<Out, AllocError>
    requires { IsJob job.now }
{
    let mut slot = Slot::new(alloc, job)?;
    slot.row = 1;
    slot.input = SlotInput::Row;
    drive(
        &job.robot,
        &mut slot.state,
        0,
        Iv::new(2 * ONE, 2 * ONE),
        Iv::new(3 * ONE, 3 * ONE),
    );
    drive(&job.robot, &mut slot.state, 1, Iv::new(-ONE, -ONE), Iv::ONE);
    let mut work = work_for(alloc, job)?;
    answer_slot(job, &mut slot, &mut work);
    line_of(alloc, job, &slot)
}

// Whether this is the line of row 1 of a robot for a task.
fn is_driven(alloc: Global, text: &str, task: Task, line: &[u8]) -> bool {
    let Some(job) = job_of(alloc, text, task, false) else {
        return false;
    };
    let driven = driven(alloc, &job);
    matches!(&driven, Ok(out) if out.bytes() == line)
}

// The first joint moves both bodies, so the mass table is 2 1, 1 1; 2 * 2 - 1 = 3, and 2 - 1 = 1. Nothing is held, so nothing is struck.
#[test]
fn each_task_has_its_values(rt: HostRuntime) {
    let alloc = rt.alloc();
    let torques = b"1,ok,,3.000000000000..3.000000000000,1.000000000000..1.000000000000\n";
    let masses =
        b"1,ok,,2.000000000000..2.000000000000,1.000000000000..1.000000000000,1.000000000000..1.000000000000\n";
    let accelerations = b"1,ok,,2.000000000000..2.000000000000,-1.000000000000..-1.000000000000\n";
    let rest = b"1,ok,,0.000000000000..0.000000000000,0.000000000000..0.000000000000\n";
    assert!(rt;
        is_driven(alloc, STACK, Task::Rnea, torques)
            && is_driven(alloc, STACK, Task::Crba, masses)
            && is_driven(alloc, STACK, Task::Fd, accelerations)
            && is_driven(alloc, STACK, Task::Aba, accelerations)
            && is_driven(alloc, STACK, Task::Contact, accelerations)
            && is_driven(alloc, STACK, Task::Impulse, rest)
    );
}

// Nothing tells how a joint moves that nothing hangs on.
#[test]
fn pivots_are_refused(rt: HostRuntime) {
    let line = b"1,pivot,D[1]=0.000000000000..0.000000000000,\n";
    assert!(rt; is_driven(rt.alloc(), LEAF, Task::Fd, line));
}

#[test]
fn numbers_are_told_with_the_answer(rt: HostRuntime) {
    let line =
        b"2,ok,,0.000000000000..0.000000000000,0.000000000000..0.000000000000,1.500000000000..1.500000000000,0.000000000000..0.000000000000,22.620000000000..22.620000000000\n";
    assert!(rt; is_raised(rt.alloc(), true, 2, line));
}

// Whether the force of a car of 10^12 kg at 10^12 m/s² is refused.
fn is_too_large(alloc: Global) -> bool {
    let Some(job) = job_of(alloc, HEAVY, Task::Rnea, false) else {
        return false;
    };
    let up = Iv::new(ONE * ONE, ONE * ONE);
    is_lifted(alloc, &job, 1, up, b"1,size,b[2],\n")
}

#[test]
fn sizes_are_refused(rt: HostRuntime) {
    assert!(rt; is_too_large(rt.alloc()));
}

// Whether a slot is idle that nothing was read into, and refused where a bad row was.
fn is_answered_without_state(job: &Job, slot: &mut Slot, work: &mut Work) -> bool
    requires job { IsJob job.now }
    requires slot { IsSlotOf job.now slot.old }
    requires work { IsWorkOf job.now work.old }
{
    answer_slot(job, slot, work);
    let idle = matches!(slot.answer, Answer::Idle);
    let fault = FieldFault {
        kind: FieldKind::Count,
        field: 3,
    };
    slot.input = SlotInput::Bad(fault);
    answer_slot(job, slot, work);
    idle && slot.answer == Answer::Bad(fault) && slot.is_refused()
}

fn answers_slots(alloc: Global) -> bool {
    let Some(job) = job_of(alloc, LIFT, Task::Rnea, false) else {
        return false;
    };
    let Ok(mut slot) = Slot::new(alloc, &job) else {
        return false;
    };
    let Ok(mut work) = work_for(alloc, &job) else {
        return false;
    };
    is_answered_without_state(&job, &mut slot, &mut work)
}

#[test]
fn slots_without_a_state_are_answered(rt: HostRuntime) {
    assert!(rt; answers_slots(rt.alloc()));
}
