//! Answering the rows of an input, line by line.
ghost use Rattle.std.specs.Prelude.{◌≡◌, ◌≤◌, ◌<◌, [], ◌∷◌, ◌++◌, ◌⊎◌, IsTrue, IsErrOf, length, IfOk, IfErr, OnOk, Ok, Err};
ghost use Rattle.rb_io.specs.Outside.{Rose};
ghost use Rattle.rb_io.specs.Calls.{PutsPart};
ghost use Rattle.rb_io.specs.Cut.{line, lines_of};
ghost use Rattle.rb_io.specs.declared.lines.TheConstants.{MOST_LINE};
ghost use Rattle.rb_result.specs.Steps.{told_as};
ghost use Rattle.rb_tree.specs.Robot.{Tree};
ghost use Rattle.rb_tree.specs.State.{Fits, Row};
ghost use Rattle.rb_rows.specs.Header.{HasPlaces, header_of as targets_of_line};
ghost use Rattle.rb_rows.specs.Row.{row_of};
ghost use Rattle.rb_run.specs.Answers.{slot_of, is_refused};
ghost use Rattle.rb_run.specs.Jobs.{IsJob};
ghost use Rattle.rb_run.specs.Line.{line_of};
ghost use Rattle.rbd.specs.Course.{head_of, course_behind, course_of_rows};
ghost use Rattle.rbd.specs.Desk.{IsDeskOf};
ghost use Rattle.rbd.specs.Inputs.{most_rows, rows as rows_in, rows_of_lines};
ghost use Rattle.rbd.specs.Run.{stream, Follows};
ghost use Rattle.rbd.specs.Stops.{stop_of_rows};

use crate::desk::Desk;
use crate::put::put;
use crate::stop::{RowsFault, RowsStop, of_header};
use rb_io::{Cut, MOST_LINE, Sink, next_line};
use rb_rows::{Header, HeaderFault, HeaderKind, head_line};
use rb_run::Job;
use rb_tags::Text;
use rb_tree::{Robot, State};
use std::alloc::{AllocError, Global};

/// Puts the line of a row, and tells whether the row is refused.
#[tactic(auto, using(rb_io::proofs::Parts::part_whole, rb_io::proofs::Parts::part_none))]
fn put_row<O: Sink>(
    alloc: Global,
    job: &Job,
    start: &State,
    header: &Header,
    number: u64,
    row: &[u8],
    desk: &mut Desk,
    out: &mut O,
) -> Result<bool, RowsStop>
    requires task { IsJob job.now }
    requires desk { IsDeskOf job.now desk.old }
    requires start { Fits job.now.robot start.now }
    requires places { HasPlaces header.now start.now }
    requires short { length row.now ≤ MOST_LINE }
    ensures desk { IsDeskOf job.now desk.new }
    ensures tells { IsTrue (O.tells out.new) → IsTrue (O.tells out.old) }
    ensures refused { IfOk result (λ refused. refused ≡ is_refused (slot_of job.now number (row_of header.now row.now start.now))) }
    ensures whole { IsTrue (O.tells out.new) → OnOk result (O.put out.new ≡ O.put out.old ++ line_of job.now.echo (slot_of job.now number (row_of header.now row.now start.now))) }
    ensures part { IsTrue (O.tells out.new) → PutsPart (O.put out.old) (O.put out.new) (line_of job.now.echo (slot_of job.now number (row_of header.now row.now start.now))) }
    ensures only { IfErr result (λ stop. (stop ≡ RowsStop.Output) ⊎ (stop ≡ RowsStop.Memory)) }
    ensures rose { IsErrOf result RowsStop.Output → Rose (O.faults out.old) (O.faults out.new) }
    ensures kept { ¬ (IsErrOf result RowsStop.Output) → O.faults out.new ≡ O.faults out.old }
{
    let refused = desk.make_line(alloc, job, start, header, number, row)?;
    put(desk.line(), out)?;
    Ok(refused)
}

/// Puts the line of each row, up to the first that is too long. Tells whether a row is refused.
fn put_rows<O: Sink>(
    alloc: Global,
    job: &Job,
    start: &State,
    header: &Header,
    rows: &[u8],
    desk: &mut Desk,
    out: &mut O,
) -> Result<bool, RowsStop>
    requires task { IsJob job.now }
    requires desk { IsDeskOf job.now desk.old }
    requires start { Fits job.now.robot start.now }
    requires places { HasPlaces header.now start.now }
    requires short { length rows.now ≤ most_rows }
    ensures tells { IsTrue (O.tells out.new) → IsTrue (O.tells out.old) }
    ensures follows { Follows (course_behind job.now start.now (rows_in header.now (lines_of rows.now))) (stream O.tells O.put O.faults out.old out.new) (told_as stop_of_rows result) }
    ensures rose { IsErrOf result RowsStop.Output → Rose (O.faults out.old) (O.faults out.new) }
    ensures kept { ¬ (IsErrOf result RowsStop.Output) → O.faults out.new ≡ O.faults out.old }
{
    let mut bad = false;
    let mut number: u64 = 1;
    let mut rest = rows;
    'rows: while let Some(row) = next_line(rest) {
        if row.size > MOST_LINE {
            return Err(RowsStop::Fault(RowsFault::LineTooLong(number)));
        }
        bad |= match put_row(alloc, job, start, header, number, row.content, desk, out) {
            Ok(refused) => refused,
            Err(stop) => return Err(stop),
        };
        rest = row.rest;
        number += 1;
    }
    Ok(bad)
}

/// What is told where there is no header.
fn no_header() -> RowsFault
    ensures { (tree : Tree) → rows_of_lines tree [] ≡ Err result }
{
    RowsFault::Header(HeaderFault {
        kind: HeaderKind::BadHeader,
        field: 0,
    })
}

/// The line of the header, and what is behind it.
fn line_of_header(bytes: &[u8]) -> Result<Cut<'_>, RowsFault>
    ensures lines { IfOk result (λ cut. lines_of bytes.now ≡ line cut.content.now cut.size ∷ lines_of cut.rest.now) }
    ensures short { IfOk result (λ cut. cut.size ≤ MOST_LINE) }
    ensures within { IfOk result (λ cut. length cut.content.now ≤ cut.size) }
    ensures shorter { IfOk result (λ cut. length cut.rest.now < length bytes.now) }
    ensures err { IfErr result (λ fault. (tree : Tree) → rows_of_lines tree (lines_of bytes.now) ≡ Err fault) }
{
    match next_line(bytes) {
        None => Err(no_header()),
        Some(first) if first.size > MOST_LINE => Err(RowsFault::LineTooLong(0)),
        Some(first) => Ok(first),
    }
}

/// The header that a line tells.
fn header_of(alloc: Global, robot: &Robot, line: &[u8]) -> Result<Header, RowsStop>
    requires short { length line.now ≤ MOST_LINE }
    ensures ok { IfOk result (λ header. targets_of_line robot.now line.now ≡ Ok header) }
    ensures places { IfOk result (λ header. (row : Row) → Fits robot.now row → HasPlaces header row) }
    ensures err { IfErr result (λ stop. (stop ≡ RowsStop.Memory) ⊎ ((fault : RowsFault) × (stop ≡ RowsStop.Fault fault) × (told_as RowsFault.Header (targets_of_line robot.now line.now) ≡ Err fault))) }
{
    match Header::read(alloc, robot, line) {
        Ok(header) => Ok(header),
        Err(fault) => Err(of_header(fault)),
    }
}

/// The header of the rows, and what is behind it.
fn behind_header<'a>(
    alloc: Global,
    robot: &Robot,
    bytes: &'a [u8],
) -> Result<(Header, &'a [u8]), RowsStop>
    ensures ok { IfOk result (λ found. rows_of_lines robot.now (lines_of bytes.now) ≡ Ok (rows_in found.0 (lines_of found.1.now))) }
    ensures places { IfOk result (λ found. (row : Row) → Fits robot.now row → HasPlaces found.0 row) }
    ensures shorter { IfOk result (λ found. length found.1.now ≤ length bytes.now) }
    ensures err { IfErr result (λ stop. (stop ≡ RowsStop.Memory) ⊎ ((fault : RowsFault) × (stop ≡ RowsStop.Fault fault) × (rows_of_lines robot.now (lines_of bytes.now) ≡ Err fault))) }
{
    let first = line_of_header(bytes)?;
    let header = header_of(alloc, robot, first.content)?;
    Ok((header, first.rest))
}

/// Makes what the rows of a job need: the first line, and a desk.
fn prepare(alloc: Global, job: &Job) -> Result<(Text, Desk), AllocError>
    ensures first { IfOk result (λ made. made.0 ≡ head_of job.now) }
    ensures desk { IfOk result (λ made. IsDeskOf job.now made.1) }
{
    let first = head_line(alloc, &job.robot, &job.cons, job.task, job.echo)?;
    Ok((first, Desk::new(alloc, job)?))
}

fn bytes_of(text: &Text) -> &[u8]
    ensures { result.now ≡ text.now }
{
    text.as_str().as_bytes()
}

/// Puts the first line, and then the lines of the rows behind the header. Tells whether a row is refused.
fn answer_behind<O: Sink>(
    alloc: Global,
    job: &Job,
    start: &State,
    header: &Header,
    rest: &[u8],
    out: &mut O,
) -> Result<bool, RowsStop>
    requires task { IsJob job.now }
    requires start { Fits job.now.robot start.now }
    requires places { HasPlaces header.now start.now }
    requires short { length rest.now ≤ most_rows }
    ensures tells { IsTrue (O.tells out.new) → IsTrue (O.tells out.old) }
    ensures follows { Follows (course_of_rows job.now start.now (Ok (rows_in header.now (lines_of rest.now)))) (stream O.tells O.put O.faults out.old out.new) (told_as stop_of_rows result) }
    ensures long { ¬ (IsErrOf result (RowsStop.Fault RowsFault.TooLong)) }
    ensures rose { IsErrOf result RowsStop.Output → Rose (O.faults out.old) (O.faults out.new) }
    ensures kept { ¬ (IsErrOf result RowsStop.Output) → O.faults out.new ≡ O.faults out.old }
{
    let (first, mut desk) = match prepare(alloc, job) {
        Ok(made) => made,
        Err(_) => return Err(RowsStop::Memory),
    };
    match put(bytes_of(&first), out) {
        Ok(()) => put_rows(alloc, job, start, header, rest, &mut desk, out),
        Err(stop) => Err(stop),
    }
}

/// Answers the rows of an input. Tells whether a row is refused.
pub(crate) fn answer_all<O: Sink>(
    alloc: Global,
    job: &Job,
    start: &State,
    bytes: &[u8],
    out: &mut O,
) -> Result<bool, RowsStop>
    requires task { IsJob job.now }
    requires start { Fits job.now.robot start.now }
    requires short { length bytes.now ≤ most_rows }
    ensures tells { IsTrue (O.tells out.new) → IsTrue (O.tells out.old) }
    ensures follows { Follows (course_of_rows job.now start.now (rows_of_lines job.now.robot (lines_of bytes.now))) (stream O.tells O.put O.faults out.old out.new) (told_as stop_of_rows result) }
    ensures long { ¬ (IsErrOf result (RowsStop.Fault RowsFault.TooLong)) }
    ensures rose { IsErrOf result RowsStop.Output → Rose (O.faults out.old) (O.faults out.new) }
    ensures kept { ¬ (IsErrOf result RowsStop.Output) → O.faults out.new ≡ O.faults out.old }
{
    match behind_header(alloc, &job.robot, bytes) {
        Ok((header, rest)) => answer_behind(alloc, job, start, &header, rest, out),
        Err(stop) => Err(stop),
    }
}
