ghost use Rattle.std.specs.Prelude.{◌≡◌, length, OnOk, IfErr};
ghost use Rattle.rb_sweep.specs.Sweep.{Answers};
ghost use Rattle.rb_tree.specs.State.{Fits};
ghost use Rattle.rb_run.specs.Answers.{IsAnsweredBy, answer_for, values_in};
ghost use Rattle.rb_run.specs.Jobs.{IsJob, IsWorkOf};
ghost use Rattle.rb_run.specs.Meaning.{Encloses, IsRefusedFor};
ghost use Rattle.rb_run.specs.Slots.{value_count, IsSlotOf};

use crate::job::Job;
use crate::slot::{Answer, Slot, SlotInput};
use crate::values::Values;
use rb_aba::aba;
use rb_contact::{contact, forward};
use rb_impact::impulse;
use rb_mass::crba;
use rb_rnea::rnea;
use rb_rows::Task;
use rb_tree::State;
use rb_work::{RowFault, Work};

/// Finds the values of a row: a work then holds them.
fn find(job: &Job, state: &State, work: &mut Work) -> Result<(), RowFault>
    requires task { IsJob job.now }
    requires state { Fits job.now.robot state.now }
    requires work { IsWorkOf job.now work.old }
    ensures exact { Answers result (answer_for job.now.task job.now.robot job.now.cons state.now) (values_in job.now.task job.now.robot job.now.cons work.new) }
    ensures headline { OnOk result (Encloses job.now.task job.now.robot job.now.cons state.now (values_in job.now.task job.now.robot job.now.cons work.new)) }
    ensures refused { IfErr result (IsRefusedFor job.now.task job.now.robot job.now.cons state.now) }
    ensures work { IsWorkOf job.now work.new }
{
    let _tree = job.robot.bodies();
    match job.task {
        Task::Rnea => rnea(&job.robot, state, work),
        Task::Crba => crba(&job.robot, state, work),
        Task::Fd => forward(&job.robot, state, work),
        Task::Aba => aba(&job.robot, state, work),
        Task::Contact => contact(&job.robot, &job.cons, state, work),
        Task::Impulse => impulse(&job.robot, &job.cons, state, work),
    }
}

/// Answers a row: the values are then what is asked for. It takes no memory.
///
/// A refusal is that of the first quantity that is refused, and leaves the values.
pub fn answer_row(
    job: &Job,
    state: &State,
    work: &mut Work,
    values: &mut Values,
) -> Result<(), RowFault>
    requires task { IsJob job.now }
    requires state { Fits job.now.robot state.now }
    requires work { IsWorkOf job.now work.old }
    requires length { length values.old ≡ value_count job.now.robot job.now.cons job.now.task }

    // the values, or the refusal, that are defined
    ensures exact { Answers result (answer_for job.now.task job.now.robot job.now.cons state.now) values.new }

    // for each choice within the brackets of the robot, the constraints and the row the equations of the task have exactly one solution, and it lies in the values
    ensures headline { OnOk result (Encloses job.now.task job.now.robot job.now.cons state.now values.new) }

    // there are values in which each name before one is what its rule gives, and the rule of that one refuses so
    ensures refused { IfErr result (IsRefusedFor job.now.task job.now.robot job.now.cons state.now) }

    // and then the values are as they were
    ensures kept { IfErr result (λ _. values.new ≡ values.old) }

    ensures length { length values.new ≡ length values.old }
    ensures work { IsWorkOf job.now work.new }
{
    find(job, state, work)?;
    values.take(job, work);
    Ok(())
}

/// Answers the row of a slot, if it holds one. It takes no memory.
///
/// A slot without a row has no answer, and a row of which a field is wrong tells which. The row's number, what it told and its state stay.
pub fn answer_slot(job: &Job, slot: &mut Slot, work: &mut Work)
    requires task { IsJob job.now }
    requires slot { IsSlotOf job.now slot.old }
    requires work { IsWorkOf job.now work.old }
    ensures exact { IsAnsweredBy job.now slot.old.input slot.old slot.new }
    ensures slot { IsSlotOf job.now slot.new }
    ensures work { IsWorkOf job.now work.new }
{
    slot.answer = match slot.input {
        SlotInput::Idle => Answer::Idle,
        SlotInput::Bad(fault) => Answer::Bad(fault),
        SlotInput::Row => match answer_row(job, &slot.state, work, &mut slot.values) {
            Ok(()) => Answer::Done,
            Err(fault) => Answer::Refused(fault),
        },
    };
}
