//! A run: the words, the robot's files, its constraints, and what is asked of the robot.
ghost use Rattle.std.specs.Prelude.{◌≡◌, ◌⊎◌, ◌++◌, [], Bool, true, false, IsTrue, IsErrOf, map, string_bytes, Result};
ghost use Rattle.rb_io.specs.Outside.{Rose};
ghost use Rattle.rb_io.specs.Calls.{PutsPart};
ghost use Rattle.rb_result.specs.Steps.{told_as};
ghost use Rattle.rb_flat.specs.Contact.{RowsFit};
ghost use Rattle.rb_constraint.specs.Constraints.{constraints_of};
ghost use Rattle.rb_model.specs.Model.{model_text};
ghost use Rattle.rb_rows.specs.Columns.{state_columns};
ghost use Rattle.rb_rows.specs.Head.{line_of as text_of_names};
ghost use Rattle.rb_run.specs.Jobs.{IsJob};
ghost use Rattle.rb_tree.specs.Columns.{has_mimic};
ghost use Rattle.rb_tree.specs.Shape.{shape_of};
ghost use Rattle.rb_tree.specs.State.{Fits};
ghost use Rattle.rbd.specs.Course.{tells as text_course};
ghost use Rattle.rbd.specs.Plan.{plan, articulated, Leads};
ghost use Rattle.rbd.specs.Run.{source, stream, Follows, Obeys, Goes, Ends, IsComplete, IsRest};
ghost use Rattle.rbd.specs.Stops.{stop_of_rows};
ghost use Rattle.rbd.specs.Headline.{Headline};

use crate::ends::{no_memory, put_text, status};
use crate::put::put;
use crate::read::{read_constraints_of, read_robot, read_rows, start_of};
use crate::rows::answer_all;
use crate::status::Status;
use crate::stop::{
    RowsStop, Stop, UsageFault, of_constraints, of_reading, of_robot, of_rows, of_start, of_words,
};
use rb_constraint::{Constraints, file_law};
use rb_io::{Inputs, Sink, put_all};
use rb_model::model_text;
use rb_rows::column_line;
use rb_run::laws::answer_law;
use rb_run::{Job, Task};
use rb_text::Out;
use rb_tree::{Robot, State};
use rb_words::{Command, Order, read_words};
use std::alloc::Global;

/// Puts the model of a robot, with the position that rows start from.
fn put_model<O: Sink>(
    alloc: Global,
    robot: &Robot,
    start: &State,
    out: &mut O,
) -> Result<bool, RowsStop>
    requires start { Fits robot.now start.now }
    ensures tells { IsTrue (O.tells out.new) → IsTrue (O.tells out.old) }
    ensures follows { Follows (text_course (model_text robot.now start.now.q)) (stream O.tells O.put O.faults out.old out.new) (told_as stop_of_rows result) }
    ensures rose { IsErrOf result RowsStop.Output → Rose (O.faults out.old) (O.faults out.new) }
    ensures kept { ¬ (IsErrOf result RowsStop.Output) → O.faults out.new ≡ O.faults out.old }
{
    let text = model_text(alloc, robot, start)?;
    put(text.as_slice(), out)?;
    Ok(false)
}

/// Puts the line of the columns of a robot's states.
fn put_columns<O: Sink>(alloc: Global, robot: &Robot, out: &mut O) -> Result<bool, RowsStop>
    ensures tells { IsTrue (O.tells out.new) → IsTrue (O.tells out.old) }
    ensures follows { Follows (text_course (text_of_names (state_columns robot.now))) (stream O.tells O.put O.faults out.old out.new) (told_as stop_of_rows result) }
    ensures rose { IsErrOf result RowsStop.Output → Rose (O.faults out.old) (O.faults out.new) }
    ensures kept { ¬ (IsErrOf result RowsStop.Output) → O.faults out.new ≡ O.faults out.old }
{
    let line = column_line(alloc, robot)?;
    put(line.as_str().as_bytes(), out)?;
    Ok(false)
}

/// Reads the rows of this name, and answers them. Tells whether a row is refused.
fn answer_rows<I: Inputs, O: Sink>(
    alloc: Global,
    job: &Job,
    start: &State,
    name: &str,
    inputs: &mut I,
    out: &mut O,
) -> Result<bool, Stop>
    requires task { IsJob job.now }
    requires start { Fits job.now.robot start.now }
    ensures tells { IsTrue (O.tells out.new) → IsTrue (O.tells out.old) }
    ensures obeys { Obeys (plan (Order.Rows job.now.task) job.now.robot start.now job.now.cons name.now job.now.echo)
        (source I.tells I.holds I.given I.faults inputs.old inputs.new) (stream O.tells O.put O.faults out.old out.new) result }
{
    let rows = match read_rows(alloc, inputs, name) {
        Ok(rows) => rows,
        Err(stop) => return Err(of_reading(stop)),
    };
    match answer_all(alloc, job, start, rows.as_slice(), out) {
        Ok(refused) => Ok(refused),
        Err(stop) => Err(of_rows(stop)),
    }
}

/// Does what is asked of a robot under constraints. Tells whether a row is refused.
fn obey<I: Inputs, O: Sink>(
    alloc: Global,
    command: &Command<'_>,
    robot: Robot,
    cons: Constraints,
    start: &State,
    inputs: &mut I,
    out: &mut O,
) -> Result<bool, Stop>
    requires leads { Leads command.now.order robot }
    requires fit { RowsFit (shape_of robot) (constraints_of cons) }
    requires start { Fits robot start.now }
    ensures tells { IsTrue (O.tells out.new) → IsTrue (O.tells out.old) }
    ensures obeys { Obeys (plan command.now.order robot start.now cons command.now.rows.now command.now.echo)
        (source I.tells I.holds I.given I.faults inputs.old inputs.new) (stream O.tells O.put O.faults out.old out.new) result }
{
    let done = match command.order {
        Order::Rows(task) => {
            let job = Job {
                robot,
                cons,
                task,
                echo: command.echo,
            };
            return answer_rows(alloc, &job, start, command.rows, inputs, out);
        }
        Order::Model => put_model(alloc, &robot, start, out),
        Order::Columns => put_columns(alloc, &robot, out),
    };
    match done {
        Ok(refused) => Ok(refused),
        Err(stop) => Err(of_rows(stop)),
    }
}

/// Whether articulated bodies are asked of a robot in which a joint follows another.
fn is_unfit(order: Order, robot: &Robot) -> bool
    ensures articulated { result ≡ true → order ≡ articulated }
    ensures mimic { result ≡ true → has_mimic robot.now.bodies ≡ true }
    ensures leads { result ≡ false → Leads order robot.now }
{
    match order {
        Order::Rows(Task::Aba) => robot.has_mimic(),
        Order::Rows(_) | Order::Model | Order::Columns => false,
    }
}

/// The steps of a run, up to the first that stops it. Tells whether a row is refused. Only `contact` and `impulse` use the
/// constraints.
fn steps<I: Inputs, O: Sink>(
    alloc: Global,
    words: &[String],
    told: &mut String,
    inputs: &mut I,
    out: &mut O,
) -> Result<bool, Stop>
    ensures tells { IsTrue (O.tells out.new) → IsTrue (O.tells out.old) }
    ensures goes { Goes (map string_bytes words.now) (source I.tells I.holds I.given I.faults inputs.old inputs.new) (stream O.tells O.put O.faults out.old out.new) result }
    ensures rest { string_bytes told.old ≡ [] → IsRest result (string_bytes told.new) }
{
    let command = match read_words(alloc, words, told) {
        Ok(command) => command,
        Err(stop) => return Err(of_words(stop)),
    };
    let robot = match read_robot(alloc, inputs, command.urdf, command.srdf, command.root) {
        Ok(robot) => robot,
        Err(stop) => return Err(of_robot(stop)),
    };
    let start = match start_of(alloc, &robot, &command.gravity, command.state) {
        Ok(start) => start,
        Err(stop) => return Err(of_start(stop)),
    };
    if is_unfit(command.order, &robot) {
        return Err(Stop::Usage(UsageFault::Mimic));
    }
    let cons = match read_constraints_of(alloc, inputs, &robot, command.constraints) {
        Ok(cons) => cons,
        Err(stop) => return Err(of_constraints(stop)),
    };
    obey(alloc, &command, robot, cons, &start, inputs, out)
}

/// Says a line, and what comes behind it.
fn say<E: Sink>(line: &[u8], rest: &[u8], err: &mut E)
    ensures whole { IsTrue (E.tells err.new) → (E.put err.new ≡ E.put err.old ++ (line.now ++ rest.now)) ⊎ Rose (E.faults err.old) (E.faults err.new) }
    ensures part { IsTrue (E.tells err.new) → PutsPart (E.put err.old) (E.put err.new) (line.now ++ rest.now) }
{
    if put_all(err, line).is_err() {
        return;
    }
    if put_all(err, rest).is_err() {
        return;
    }
}

/// Runs the words over the inputs, and tells how it ended. The first word is the program's name.
pub fn run<I: Inputs, O: Sink, E: Sink>(
    alloc: Global,
    words: &[String],
    inputs: &mut I,
    out: &mut O,
    err: &mut E,
) -> Status
    // The status and the line on the error stream are those of one answer, which is that of the course or has its cause outside.
    ensures ended { (answer : Result Bool Stop) × Ends (map string_bytes words.now) (source I.tells I.holds I.given I.faults inputs.old inputs.new)
        (stream O.tells O.put O.faults out.old out.new) (stream E.tells E.put E.faults err.old err.new) result answer }
    // Where no count rose it ends as the course says, or for want of memory.
    ensures complete { IsComplete (map string_bytes words.now) (source I.tells I.holds I.given I.faults inputs.old inputs.new)
        (stream O.tells O.put O.faults out.old out.new) result }
    // What the lines mean that it put.
    ensures headline { Headline (map string_bytes words.now) (source I.tells I.holds I.given I.faults inputs.old inputs.new)
        (stream O.tells O.put O.faults out.old out.new) result }
{
    let mut line = match Out::with_room(alloc, 100) {
        Ok(line) => line,
        Err(_) => {
            say(no_memory(), b"", err);
            return Status::Memory;
        }
    };
    answer_law();
    file_law();
    let mut told = String::new(alloc);
    let answer = steps(alloc, words, &mut told, inputs, out);
    put_text(&answer, &mut line);
    say(line.bytes(), told.as_bytes(), err);
    status(&answer)
}
