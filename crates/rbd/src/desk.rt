//! The buffers in which rows are answered, one after the other.
ghost use Rattle.std.specs.Prelude.{◌≡◌, ◌≤◌, length, OnOk, IfOk};
ghost use Rattle.rb_io.specs.declared.lines.TheConstants.{MOST_LINE};
ghost use Rattle.rb_tree.specs.State.{Fits};
ghost use Rattle.rb_rows.specs.Header.{HasPlaces};
ghost use Rattle.rb_rows.specs.Row.{row_of};
ghost use Rattle.rb_run.specs.Answers.{Holds, slot_of, is_refused};
ghost use Rattle.rb_run.specs.Jobs.{IsJob, IsWorkOf};
ghost use Rattle.rb_run.specs.Line.{line_of};
ghost use Rattle.rbd.specs.Desk.{IsDeskOf};

use rb_rows::{Header, LineFault, read_row};
use rb_run::{Job, Slot, SlotInput, answer_slot, line_room, put_line};
use rb_text::Out;
use rb_tree::State;
use rb_work::Work;
use std::alloc::{AllocError, Global};

/// Room for one row of a job, for the quantities of its robot and its constraints, and for a line.
#[derive(Drop)]
pub(crate) struct Desk {
    pub(crate) slot: Slot,
    pub(crate) work: Work,
    pub(crate) line: Out,
}

/// A work for the rows of a job.
fn work_for(alloc: Global, job: &Job) -> Result<Work, AllocError>
    ensures { IfOk result (IsWorkOf job.now) }
{
    let robot = &job.robot;
    let rows = job.cons.rows();
    Work::new(alloc, robot.bodies(), robot.full(), robot.ups(), rows)
}

impl Desk {
    /// A desk for the rows of a job. Its one refusal is for want of memory; only the reading of a row takes any later.
    pub(crate) fn new(alloc: Global, job: &Job) -> Result<Desk, AllocError>
        ensures { IfOk result (IsDeskOf job.now) }
    {
        let slot = Slot::new(alloc, job)?;
        let work = work_for(alloc, job)?;
        let line = Out::with_room(alloc, line_room(job))?;
        Ok(Desk { slot, work, line })
    }

    /// Takes in the row of this number. Its one refusal is for want of memory.
    fn take(
        &mut self,
        alloc: Global,
        job: &Job,
        start: &State,
        header: &Header,
        number: u64,
        row: &[u8],
    ) -> Result<(), AllocError>
        requires desk { IsDeskOf job.now self.old }
        requires start { Fits job.now.robot start.now }
        requires places { HasPlaces header.now start.now }
        requires short { length row.now ≤ MOST_LINE }
        ensures told { OnOk result (Holds self.new.slot number (row_of header.now row.now start.now)) }
        ensures desk { IsDeskOf job.now self.new }
    {
        self.slot.row = number;
        self.slot.state.set_to(start);
        self.slot.input = match read_row(alloc, header, row, &mut self.slot.state) {
            Ok(()) => SlotInput::Row,
            Err(LineFault::Field(fault)) => SlotInput::Bad(fault),
            Err(LineFault::Memory) => return Err(AllocError),
        };
        Ok(())
    }

    /// Makes the line of the row of this number, and tells whether the row is refused. Its one refusal is for want of memory.
    pub(crate) fn make_line(
        &mut self,
        alloc: Global,
        job: &Job,
        start: &State,
        header: &Header,
        number: u64,
        row: &[u8],
    ) -> Result<bool, AllocError>
        requires task { IsJob job.now }
        requires desk { IsDeskOf job.now self.old }
        requires start { Fits job.now.robot start.now }
        requires places { HasPlaces header.now start.now }
        requires short { length row.now ≤ MOST_LINE }
        ensures bytes { OnOk result (self.new.line.bytes ≡ line_of job.now.echo (slot_of job.now number (row_of header.now row.now start.now))) }
        ensures refused { IfOk result (λ refused. refused ≡ is_refused (slot_of job.now number (row_of header.now row.now start.now))) }
        ensures desk { IsDeskOf job.now self.new }
    {
        self.take(alloc, job, start, header, number, row)?;
        answer_slot(job, &mut self.slot, &mut self.work);
        self.line.clear();
        put_line(job, &self.slot, &mut self.line);
        Ok(self.slot.is_refused())
    }

    /// The line that was made last.
    pub(crate) fn line(&self) -> &[u8]
        ensures { result.now ≡ self.now.line.bytes }
    {
        self.line.bytes()
    }
}
