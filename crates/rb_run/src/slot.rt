ghost use Rattle.std.specs.Prelude.{◌≡◌, IfOk};
ghost use Rattle.rb_run.specs.Answers.{is_refused};
ghost use Rattle.rb_run.specs.Slots.{new_slot, IsSlotOf};

use crate::job::Job;
use crate::values::{Values, value_count};
use rb_rows::FieldFault;
use rb_tree::State;
use rb_work::RowFault;
use std::alloc::{AllocError, Global};

/// What a row told.
#[derive(Clone, Copy, Debug, PartialEq, Eq)]
pub enum SlotInput {
    /// Nothing yet.
    Idle,
    /// A field of it is wrong.
    Bad(FieldFault),
    /// The state of the slot.
    Row,
}

/// What is answered to a row.
#[derive(Clone, Copy, Debug, PartialEq, Eq)]
pub enum Answer {
    /// Nothing yet.
    Idle,
    /// The values of the slot.
    Done,
    /// A field of the row is wrong.
    Bad(FieldFault),
    /// A quantity on the way to the values is refused.
    Refused(RowFault),
}

/// One row: its number, what it told, and its answer. All memory is taken when it is made.
#[derive(Debug, Drop)]
pub struct Slot {
    pub row: u64,
    pub input: SlotInput,
    pub state: State,
    pub values: Values,
    pub answer: Answer,
}

impl Slot {
    /// A slot of no row, with the neutral state, and zero for each value that is asked for.
    pub fn new(alloc: Global, job: &Job) -> Result<Slot, AllocError>
        ensures exact { IfOk result (λ slot. slot ≡ new_slot job.now) }
        ensures fits { IfOk result (IsSlotOf job.now) }
    {
        let state = State::new(alloc, &job.robot)?;
        let values = Values::zeros(alloc, value_count(job))?;
        Ok(Slot {
            row: 0,
            input: SlotInput::Idle,
            state,
            values,
            answer: Answer::Idle,
        })
    }

    /// Whether it has no values.
    pub fn is_refused(&self) -> bool
        ensures { result ≡ is_refused self.now }
    {
        !matches!(self.answer, Answer::Done)
    }
}
