//! The status and the line on standard error of an answer.
ghost use Rattle.std.specs.Prelude.{◌≡◌, ◌≤◌, ◌+◌, ◌++◌, length, codes, decimal, Result, Ok, Err};
ghost use Rattle.rb_constraint.specs.Faults.{fault_text as con_text};
ghost use Rattle.rb_rows.specs.Faults.{header_text};
ghost use Rattle.rb_tree.specs.Faults.{fault_text as tree_text};
ghost use Rattle.rbd.specs.Ends.{status_of, usage_word, in_file, robot_text, constraints_text, rows_text, stop_text, text_of};

use crate::status::Status;
use crate::stop::{ConstraintsFault, RobotFault, RowsFault, Stop, UsageFault};
use rb_constraint::ConFault;
use rb_rows::HeaderFault;
use rb_run::put_number;
use rb_text::Out;
use rb_tree::{TreeFault, WhichFile};

/// The status of an answer.
pub(crate) fn status(answer: &Result<bool, Stop>) -> Status
    ensures { result ≡ status_of answer.now }
{
    match answer {
        Ok(false) => Status::Done,
        Ok(true) => Status::Refused,
        Err(Stop::Usage(_)) => Status::Usage,
        Err(Stop::Robot(_) | Stop::Constraints(_)) => Status::Robot,
        Err(Stop::Rows(_)) => Status::Rows,
        Err(Stop::Input) => Status::InputFault,
        Err(Stop::Output) => Status::OutputFault,
        Err(Stop::Memory) => Status::Memory,
    }
}

/// The line for want of memory.
#[tactic(auto, unfolding(crate::specs::Ends::text_of))]
pub(crate) fn no_memory() -> &'static [u8]
    ensures { result.now ≡ text_of (Err Stop.Memory) }
{
    b"rbd: no memory\n"
}

fn usage_word(fault: UsageFault) -> &'static [u8]
    ensures word { result.now ≡ usage_word fault }
    ensures short { length result.now ≤ 7 }
{
    match fault {
        UsageFault::Words(fault) => fault.word().as_bytes(),
        UsageFault::State => b"state",
        UsageFault::Mimic => b"mimic",
    }
}

#[tactic(auto, using(std::proofs::Common::append_assoc))]
fn put_usage_fault(fault: UsageFault, line: &mut Out)
    requires { 60 ≤ line.old.spare }
    ensures bytes { line.new.bytes ≡ line.old.bytes ++ (codes "usage: " ++ usage_word fault) }
    ensures spare { line.old.spare ≤ line.new.spare + 60 }
{
    line.put(b"usage: ");
    line.put(usage_word(fault));
}

// Puts a word and a place of a file of the robot.
#[tactic(auto, using(std::proofs::Common::append_assoc), unfolding(crate::specs::Ends::in_file))]
fn put_placed(file: WhichFile, word: &[u8], place: u64, line: &mut Out)
    requires short { length word.now ≤ 20 }
    requires room { 50 ≤ line.old.spare }
    ensures bytes { line.new.bytes ≡ line.old.bytes ++ in_file file (word.now ++ codes " at " ++ decimal place) }
    ensures spare { line.old.spare ≤ line.new.spare + 50 }
{
    line.put(file.word().as_bytes());
    line.put(b": ");
    line.put(word);
    line.put(b" at ");
    put_number(place, line);
}

// Puts that a file of the robot is too long.
#[tactic(auto, using(std::proofs::Common::append_assoc), unfolding(crate::specs::Ends::in_file))]
fn put_too_long(file: WhichFile, line: &mut Out)
    requires { 50 ≤ line.old.spare }
    ensures bytes { line.new.bytes ≡ line.old.bytes ++ in_file file (codes "TooLong") }
    ensures spare { line.old.spare ≤ line.new.spare + 50 }
{
    line.put(file.word().as_bytes());
    line.put(b": TooLong");
}

// Puts a fault of the tree: its file, its word and its place.
#[tactic(auto, using(std::proofs::Common::append_assoc))]
fn put_tree_fault(fault: TreeFault, line: &mut Out)
    requires { 50 ≤ line.old.spare }
    ensures bytes { line.new.bytes ≡ line.old.bytes ++ tree_text fault }
    ensures spare { line.old.spare ≤ line.new.spare + 50 }
{
    line.put(fault.file.word().as_bytes());
    line.put(b": ");
    line.put(fault.kind.word().as_bytes());
    line.put(b" at ");
    put_number(fault.at, line);
}

fn put_robot_fault(fault: &RobotFault, line: &mut Out)
    requires { 60 ≤ line.old.spare }
    ensures bytes { line.new.bytes ≡ line.old.bytes ++ robot_text fault.now }
    ensures spare { line.old.spare ≤ line.new.spare + 60 }
{
    match fault {
        RobotFault::TooLong(file) => put_too_long(*file, line),
        RobotFault::Tags(file, fault) => put_placed(
            *file,
            fault.kind.word().as_bytes(),
            fault.at,
            line,
        ),
        RobotFault::Urdf(fault) => put_placed(
            WhichFile::Urdf,
            fault.kind.word().as_bytes(),
            fault.at,
            line,
        ),
        RobotFault::Srdf(fault) => put_placed(
            WhichFile::Srdf,
            fault.kind.word().as_bytes(),
            fault.at,
            line,
        ),
        RobotFault::Tree(fault) => put_tree_fault(*fault, line),
    }
}

// Puts a fault of a file of constraints: its word and its line.
#[tactic(auto, using(std::proofs::Common::append_assoc))]
fn put_con_fault(fault: ConFault, line: &mut Out)
    requires { 60 ≤ line.old.spare }
    ensures bytes { line.new.bytes ≡ line.old.bytes ++ (codes "constraints: " ++ con_text fault) }
    ensures spare { line.old.spare ≤ line.new.spare + 60 }
{
    line.put(b"constraints: ");
    line.put(fault.kind.word().as_bytes());
    line.put(b" at line ");
    put_number(u64::from(fault.line), line);
}

fn put_constraints_fault(fault: ConstraintsFault, line: &mut Out)
    requires { 60 ≤ line.old.spare }
    ensures bytes { line.new.bytes ≡ line.old.bytes ++ constraints_text fault }
    ensures spare { line.old.spare ≤ line.new.spare + 60 }
{
    match fault {
        ConstraintsFault::TooLong => line.put(b"constraints: TooLong"),
        ConstraintsFault::File(fault) => put_con_fault(fault, line),
    }
}

#[tactic(auto, using(std::proofs::Common::append_assoc))]
fn put_long_line(row: u64, line: &mut Out)
    requires { 60 ≤ line.old.spare }
    ensures bytes { line.new.bytes ≡ line.old.bytes ++ (codes "rows: LineTooLong at row " ++ decimal row) }
    ensures spare { line.old.spare ≤ line.new.spare + 60 }
{
    line.put(b"rows: LineTooLong at row ");
    put_number(row, line);
}

#[tactic(auto, using(std::proofs::Common::append_assoc))]
fn put_header_fault(fault: HeaderFault, line: &mut Out)
    requires { 60 ≤ line.old.spare }
    ensures bytes { line.new.bytes ≡ line.old.bytes ++ (codes "rows: " ++ header_text fault) }
    ensures spare { line.old.spare ≤ line.new.spare + 60 }
{
    line.put(b"rows: ");
    line.put(fault.kind.word().as_bytes());
    line.put(b" at field ");
    put_number(u64::from(fault.field), line);
}

fn put_rows_fault(fault: &RowsFault, line: &mut Out)
    requires { 60 ≤ line.old.spare }
    ensures bytes { line.new.bytes ≡ line.old.bytes ++ rows_text fault.now }
    ensures spare { line.old.spare ≤ line.new.spare + 60 }
{
    match fault {
        RowsFault::TooLong => line.put(b"rows: TooLong"),
        RowsFault::Header(fault) => put_header_fault(*fault, line),
        RowsFault::LineTooLong(row) => put_long_line(*row, line),
    }
}

fn put_stop(stop: &Stop, line: &mut Out)
    requires { 60 ≤ line.old.spare }
    ensures bytes { line.new.bytes ≡ line.old.bytes ++ stop_text stop.now }
    ensures spare { line.old.spare ≤ line.new.spare + 60 }
{
    match stop {
        Stop::Usage(fault) => put_usage_fault(*fault, line),
        Stop::Robot(fault) => put_robot_fault(fault, line),
        Stop::Constraints(fault) => put_constraints_fault(*fault, line),
        Stop::Rows(fault) => put_rows_fault(fault, line),
        Stop::Input => line.put(b"input failed"),
        Stop::Output => line.put(b"output failed"),
        Stop::Memory => line.put(b"no memory"),
    }
}

/// Puts the line of an answer for standard error.
#[tactic(auto, using(std::proofs::Common::append_assoc), unfolding(crate::specs::Ends::text_of))]
pub(crate) fn put_text(answer: &Result<bool, Stop>, line: &mut Out)
    requires { 80 ≤ line.old.spare }
    ensures { line.new.bytes ≡ line.old.bytes ++ text_of answer.now }
{
    if let Err(stop) = answer {
        line.put(b"rbd: ");
        put_stop(stop, line);
        line.put(b"\n");
    }
}
