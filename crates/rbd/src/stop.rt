//! What ends a run before its last row, by the part of the run that it comes from.
ghost use Rattle.std.specs.Prelude.{◌≡◌};
ghost use Rattle.rbd.specs.Stops.{refusal_of_tags, refusal_of_urdf, refusal_of_srdf, refusal_of_tree, stop_of_refusal, stop_of_read, stop_of_rows, stop_of_start, stop_of_con, stop_of_header, stop_of_words};

use rb_constraint::{ConFault, ConKind};
use rb_rows::{HeaderFault, HeaderKind};
use rb_srdf::{SrdfFault, SrdfFaultKind};
use rb_tags::{TagFault, TagKind};
use rb_tree::{TreeFault, TreeKind, WhichFile};
use rb_urdf::{UrdfFault, UrdfFaultKind};
use rb_words::{WordsFault, WordsStop};
use std::alloc::AllocError;

/// What is wrong with the words.
#[derive(Clone, Copy, Debug, PartialEq, Eq)]
pub enum UsageFault {
    /// What the words alone show.
    Words(WordsFault),
    /// No group state has the name.
    State,
    /// Articulated bodies are asked of a robot in which a joint follows another.
    Mimic,
}

/// What is wrong with the robot's files.
#[derive(Clone, Copy, Debug, PartialEq, Eq)]
pub enum RobotFault {
    /// One passes 8 MiB.
    TooLong(WhichFile),
    /// One is no list of tags.
    Tags(WhichFile, TagFault),
    /// The tags of the robot's own file are no robot.
    Urdf(UrdfFault),
    /// The tags of the other file are no groups, states and virtual joints.
    Srdf(SrdfFault),
    /// The robot is no tree.
    Tree(TreeFault),
}

/// What is wrong with the file of constraints.
#[derive(Clone, Copy, Debug, PartialEq, Eq)]
pub enum ConstraintsFault {
    /// It passes 8 MiB.
    TooLong,
    /// Its bytes are no constraints of the robot.
    File(ConFault),
}

/// What is wrong with the rows.
#[derive(Clone, Copy, Debug, PartialEq, Eq)]
pub enum RowsFault {
    /// They pass 2^40 bytes.
    TooLong,
    /// The header is missing or wrong.
    Header(HeaderFault),
    /// A line passes 65,536 bytes: its row, from 1, or 0 for the header.
    LineTooLong(u64),
}

/// Why a run ends before its last row.
#[derive(Clone, Copy, Debug, PartialEq, Eq)]
pub enum Stop {
    Usage(UsageFault),
    Robot(RobotFault),
    Constraints(ConstraintsFault),
    Rows(RowsFault),
    /// An input failed.
    Input,
    /// The output failed.
    Output,
    /// No memory was found.
    Memory,
}

/// Why bytes are refused, or that no memory was found.
#[derive(Clone, Copy, Debug, PartialEq, Eq)]
pub enum Refusal<F> {
    Fault(F),
    Memory,
}

/// Why a name is not read: for what it holds, for a fault of the input, or for want of memory.
#[derive(Clone, Copy, Debug, PartialEq, Eq)]
pub enum ReadStop<F> {
    Fault(F),
    Input,
    Memory,
}

/// Why there is no state from which rows start.
#[derive(Clone, Copy, Debug, PartialEq, Eq)]
pub enum StartStop {
    /// No group state has the name.
    NoState,
    Memory,
}

/// Why rows are not answered to the last: for what they hold, for a fault of the output, or for want of memory.
#[derive(Clone, Copy, Debug, PartialEq, Eq)]
pub enum RowsStop {
    Fault(RowsFault),
    Output,
    Memory,
}

/// Why the bytes of a file are refused, of which the tags are.
pub(crate) fn of_tags(file: WhichFile, fault: TagFault) -> Refusal<RobotFault>
    ensures { result ≡ refusal_of_tags file fault }
{
    match fault.kind {
        TagKind::Memory => Refusal::Memory,
        _ => Refusal::Fault(RobotFault::Tags(file, fault)),
    }
}

impl From<UrdfFault> for Refusal<RobotFault> {
    ghost from_gives = { λ fault refusal. refusal ≡ refusal_of_urdf fault };

    fn from(fault: UrdfFault) -> Self {
        match fault.kind {
            UrdfFaultKind::Memory => Refusal::Memory,
            _ => Refusal::Fault(RobotFault::Urdf(fault)),
        }
    }
}

impl From<SrdfFault> for Refusal<RobotFault> {
    ghost from_gives = { λ fault refusal. refusal ≡ refusal_of_srdf fault };

    fn from(fault: SrdfFault) -> Self {
        match fault.kind {
            SrdfFaultKind::Memory => Refusal::Memory,
            _ => Refusal::Fault(RobotFault::Srdf(fault)),
        }
    }
}

impl From<TreeFault> for Refusal<RobotFault> {
    ghost from_gives = { λ fault refusal. refusal ≡ refusal_of_tree fault };

    fn from(fault: TreeFault) -> Self {
        match fault.kind {
            TreeKind::Memory => Refusal::Memory,
            _ => Refusal::Fault(RobotFault::Tree(fault)),
        }
    }
}

impl From<Refusal<RobotFault>> for ReadStop<RobotFault> {
    ghost from_gives = { λ refusal stop. stop ≡ stop_of_refusal refusal };

    fn from(refusal: Refusal<RobotFault>) -> Self {
        match refusal {
            Refusal::Fault(fault) => ReadStop::Fault(fault),
            Refusal::Memory => ReadStop::Memory,
        }
    }
}

impl From<RowsFault> for RowsStop {
    ghost use Rattle.rbd.specs.declared.stop.RowsStop.TheVariants.{Fault};

    ghost from_gives = { λ fault stop. stop ≡ Fault fault };

    fn from(fault: RowsFault) -> Self {
        RowsStop::Fault(fault)
    }
}

impl From<AllocError> for StartStop {
    ghost use Rattle.rbd.specs.declared.stop.StartStop.TheVariants.{Memory};

    ghost from_gives = { λ _ stop. stop ≡ Memory };

    fn from(_error: AllocError) -> Self {
        StartStop::Memory
    }
}

impl From<AllocError> for RowsStop {
    ghost use Rattle.rbd.specs.declared.stop.RowsStop.TheVariants.{Memory};

    ghost from_gives = { λ _ stop. stop ≡ Memory };

    fn from(_error: AllocError) -> Self {
        RowsStop::Memory
    }
}

/// Why constraints are not read.
pub(crate) fn of_con(fault: ConFault) -> ReadStop<ConstraintsFault>
    ensures { result ≡ stop_of_con fault }
{
    match fault.kind {
        ConKind::Memory => ReadStop::Memory,
        _ => ReadStop::Fault(ConstraintsFault::File(fault)),
    }
}

/// Why the rows end at their header.
pub(crate) fn of_header(fault: HeaderFault) -> RowsStop
    ensures { result ≡ stop_of_header fault }
{
    match fault.kind {
        HeaderKind::Memory => RowsStop::Memory,
        _ => RowsStop::Fault(RowsFault::Header(fault)),
    }
}

/// A stop of reading the words, as one of the run.
pub(crate) fn of_words(stop: WordsStop) -> Stop
    ensures { result ≡ stop_of_words stop }
{
    match stop {
        WordsStop::Fault(fault) => Stop::Usage(UsageFault::Words(fault)),
        WordsStop::Memory => Stop::Memory,
    }
}

/// A stop of reading the robot, as one of the run.
pub(crate) fn of_robot(stop: ReadStop<RobotFault>) -> Stop
    ensures { result ≡ stop_of_read Stop.Robot stop }
{
    match stop {
        ReadStop::Fault(fault) => Stop::Robot(fault),
        ReadStop::Input => Stop::Input,
        ReadStop::Memory => Stop::Memory,
    }
}

/// A stop for want of a state to start from, as one of the run.
pub(crate) fn of_start(stop: StartStop) -> Stop
    ensures { result ≡ stop_of_start stop }
{
    match stop {
        StartStop::NoState => Stop::Usage(UsageFault::State),
        StartStop::Memory => Stop::Memory,
    }
}

/// A stop of reading the constraints, as one of the run.
pub(crate) fn of_constraints(stop: ReadStop<ConstraintsFault>) -> Stop
    ensures { result ≡ stop_of_read Stop.Constraints stop }
{
    match stop {
        ReadStop::Fault(fault) => Stop::Constraints(fault),
        ReadStop::Input => Stop::Input,
        ReadStop::Memory => Stop::Memory,
    }
}

/// A stop of reading the rows, as one of the run.
pub(crate) fn of_reading(stop: ReadStop<RowsFault>) -> Stop
    ensures { result ≡ stop_of_read Stop.Rows stop }
{
    match stop {
        ReadStop::Fault(fault) => Stop::Rows(fault),
        ReadStop::Input => Stop::Input,
        ReadStop::Memory => Stop::Memory,
    }
}

/// A stop of answering the rows, as one of the run.
pub(crate) fn of_rows(stop: RowsStop) -> Stop
    ensures { result ≡ stop_of_rows stop }
{
    match stop {
        RowsStop::Fault(fault) => Stop::Rows(fault),
        RowsStop::Output => Stop::Output,
        RowsStop::Memory => Stop::Memory,
    }
}
