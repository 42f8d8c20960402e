//! Reading the robot's files, the constraints and the rows whole.
ghost use Rattle.std.specs.Prelude.{◌≡◌, ℕ, ◌≤◌, ◌<◌, ◌⊎◌, IsTrue, IsErrOf, length, option_map, option_copied, IfOk, IfErr, Some, Result, Ok, Err};
ghost use Rattle.std.specs.Str.{IsUtf8};
ghost use Rattle.std.specs.Option.{IsSomeAnd};
ghost use Rattle.rb_result.specs.Steps.{told_as};
ghost use Rattle.rb_flat.specs.Contact.{RowsFit};
ghost use Rattle.rb_io.specs.Outside.{Rose};
ghost use Rattle.rb_urdf.specs.Urdf.{urdf_of};
ghost use Rattle.rb_srdf.specs.Groups.{HoldsItself};
ghost use Rattle.rb_srdf.specs.Read.{semantics_of};
ghost use Rattle.rb_tree.specs.declared.faults.WhichFile.{WhichFile as Which};
ghost use Rattle.rb_tree.specs.Build.{IsBuilt};
ghost use Rattle.rb_tree.specs.Robot.{AreBodies};
ghost use Rattle.rb_tree.specs.State.{Fits, neutral_under};
ghost use Rattle.rb_tree.specs.Shape.{shape_of};
ghost use Rattle.rb_tree.specs.States.{HasState};
ghost use Rattle.rb_constraint.specs.Constraints.{constraints_of};
ghost use Rattle.rbd.specs.Plan.{tags_in, urdf_in, files, IsSemanticsIn, HasNoSemantics, IsRefusedBy, IsUnfit, IsRobotOf, IsRefused, IsStart, IsConstraintsFile, IsConstraintsIn, HasNoConstraints, most_file};
ghost use Rattle.rbd.specs.Inputs.{most_rows};
ghost use Rattle.rbd.specs.Stops.{IfFault, IfRefused, file_stop};

use crate::stop::{
    ConstraintsFault, ReadStop, Refusal, RobotFault, RowsFault, StartStop, of_con, of_tags,
};
use rb_constraint::{Constraints, read_constraints};
use rb_io::{Bytes, FileFault, Inputs, read_all};
use rb_spatial::Vec3;
use rb_srdf::{Srdf, read_srdf};
use rb_tags::{RootKind, Tags, read_tags};
use rb_tree::{Robot, State, WhichFile};
use rb_urdf::{UrdfRobot, read_urdf};
use std::alloc::{AllocError, Global};

/// The most bytes of a file of the robot or of constraints.
pub(crate) const MOST_FILE: u64 = 8_388_608;

/// The most bytes of the rows.
pub(crate) const MOST_ROWS: u64 = 1 << 40;

/// The stop for a fault of reading a name whole, where `long` is that of a name that holds too much.
fn file_stop<F: Copy>(fault: FileFault, long: F) -> ReadStop<F>
    ensures { result ≡ file_stop fault long }
{
    match fault {
        FileFault::TooLong => ReadStop::Fault(long),
        FileFault::Failed => ReadStop::Input,
        FileFault::Memory => ReadStop::Memory,
    }
}

/// The tags that a file's bytes hold.
#[tactic(auto, unfolding(crate::specs::Plan::tags_in))]
fn tags_of_bytes(alloc: Global, bytes: &[u8], file: WhichFile) -> Result<Tags, Refusal<RobotFault>>
    requires { length bytes.now ≤ most_file }
    ensures ok { IfOk result (λ tags. tags_in file bytes.now ≡ Ok tags) }
    ensures err { IfErr result (IfRefused (λ fault. tags_in file bytes.now ≡ Err fault)) }
    ensures memory { IsErrOf result Refusal.Memory → IsUtf8 bytes.now }
{
    match read_tags(alloc, bytes) {
        Ok(tags) => Ok(tags),
        Err(fault) => Err(of_tags(file, fault)),
    }
}

/// Reads the tags of a file.
fn read_tags_of<I: Inputs>(
    alloc: Global,
    inputs: &mut I,
    name: &str,
    file: WhichFile,
) -> Result<Tags, ReadStop<RobotFault>>
    ensures tells { I.tells inputs.new ≡ I.tells inputs.old }
    ensures holds { I.holds inputs.new ≡ I.holds inputs.old }
    ensures tags { IsTrue (I.tells inputs.old) → IfOk result (λ tags. tags_in file (I.holds inputs.old name.now) ≡ Ok tags) }
    ensures refused { IsTrue (I.tells inputs.old) → IfErr result (IfFault (λ fault. tags_in file (I.holds inputs.old name.now) ≡ Err fault)) }
    ensures long { (which : Which) → IsErrOf result (ReadStop.Fault (RobotFault.TooLong which)) → most_file < I.given inputs.new }
    ensures rose { IsErrOf result ReadStop.Input → Rose (I.faults inputs.old) (I.faults inputs.new) }
    ensures kept { ¬ (IsErrOf result ReadStop.Input) → I.faults inputs.new ≡ I.faults inputs.old }
{
    let bytes = match read_all(alloc, inputs, name, MOST_FILE) {
        Ok(bytes) => bytes,
        Err(fault) => return Err(file_stop(fault, RobotFault::TooLong(file))),
    };
    Ok(tags_of_bytes(alloc, bytes.as_slice(), file)?)
}

/// The links and joints that tags tell.
fn urdf_of_tags(alloc: Global, tags: &Tags) -> Result<UrdfRobot, Refusal<RobotFault>>
    ensures ok { IfOk result (λ urdf. urdf_of tags.now ≡ Ok urdf) }
    ensures err { IfErr result (IfRefused (λ fault. told_as RobotFault.Urdf (urdf_of tags.now) ≡ Err fault)) }
{
    Ok(read_urdf(alloc, tags)?)
}

/// Reads the links and joints of a file.
fn read_urdf_of<I: Inputs>(
    alloc: Global,
    inputs: &mut I,
    name: &str,
) -> Result<UrdfRobot, ReadStop<RobotFault>>
    ensures tells { I.tells inputs.new ≡ I.tells inputs.old }
    ensures holds { I.holds inputs.new ≡ I.holds inputs.old }
    ensures urdf { IsTrue (I.tells inputs.old) → IfOk result (λ urdf. urdf_in (I.holds inputs.old name.now) ≡ Ok urdf) }
    ensures refused { IsTrue (I.tells inputs.old) → IfErr result (IfFault (λ fault. urdf_in (I.holds inputs.old name.now) ≡ Err fault)) }
    ensures long { (which : Which) → IsErrOf result (ReadStop.Fault (RobotFault.TooLong which)) → most_file < I.given inputs.new }
    ensures rose { IsErrOf result ReadStop.Input → Rose (I.faults inputs.old) (I.faults inputs.new) }
    ensures kept { ¬ (IsErrOf result ReadStop.Input) → I.faults inputs.new ≡ I.faults inputs.old }
{
    let tags = read_tags_of(alloc, inputs, name, WhichFile::Urdf)?;
    Ok(urdf_of_tags(alloc, &tags)?)
}

/// The groups, states and virtual joints that tags tell.
fn srdf_of_tags(alloc: Global, tags: &Tags) -> Result<Srdf, Refusal<RobotFault>>
    ensures ok { IfOk result (λ srdf. semantics_of tags.now ≡ Ok srdf) }
    ensures no_loop { IfOk result (λ srdf. (k : ℕ) → HoldsItself srdf.groups k → ⊥) }
    ensures err { IfErr result (IfRefused (IsRefusedBy tags.now)) }
{
    Ok(read_srdf(alloc, tags)?)
}

/// Reads the groups, states and virtual joints of a file, where its name is given.
fn read_srdf_of<I: Inputs>(
    alloc: Global,
    inputs: &mut I,
    name: Option<&str>,
) -> Result<Option<Srdf>, ReadStop<RobotFault>>
    ensures tells { I.tells inputs.new ≡ I.tells inputs.old }
    ensures holds { I.holds inputs.new ≡ I.holds inputs.old }
    ensures srdf { IsTrue (I.tells inputs.old) → IfOk result (IsSemanticsIn (option_map (λ name. I.holds inputs.old name) (option_copied name.entry))) }
    ensures refused { IsTrue (I.tells inputs.old) → IfErr result (IfFault (HasNoSemantics (option_map (λ name. I.holds inputs.old name) (option_copied name.entry)))) }
    ensures long { (which : Which) → IsErrOf result (ReadStop.Fault (RobotFault.TooLong which)) → most_file < I.given inputs.new }
    ensures rose { IsErrOf result ReadStop.Input → Rose (I.faults inputs.old) (I.faults inputs.new) }
    ensures kept { ¬ (IsErrOf result ReadStop.Input) → I.faults inputs.new ≡ I.faults inputs.old }
{
    let Some(name) = name else {
        return Ok(None);
    };
    let tags = read_tags_of(alloc, inputs, name, WhichFile::Srdf)?;
    Ok(Some(srdf_of_tags(alloc, &tags)?))
}

/// The robot of links and joints, with groups, states and virtual joints where they are given, and with this kind of root.
fn robot_of(
    alloc: Global,
    urdf: &UrdfRobot,
    srdf: Option<&Srdf>,
    root: Option<RootKind>,
) -> Result<Robot, Refusal<RobotFault>>
    ensures ok { IfOk result (IsBuilt (record { urdf = urdf.now; srdf = option_copied srdf.entry; root = root })) }
    ensures kept { IfOk result (λ robot. AreBodies robot.bodies) }
    ensures err { IfErr result (IfRefused (IsUnfit (record { urdf = urdf.now; srdf = option_copied srdf.entry; root = root }))) }
{
    let robot = Robot::build(alloc, urdf, srdf, root)?;
    let _bodies = robot.bodies();
    Ok(robot)
}

/// Reads the robot of these files.
pub(crate) fn read_robot<I: Inputs>(
    alloc: Global,
    inputs: &mut I,
    urdf: &str,
    srdf: Option<&str>,
    root: Option<RootKind>,
) -> Result<Robot, ReadStop<RobotFault>>
    ensures tells { I.tells inputs.new ≡ I.tells inputs.old }
    ensures holds { I.holds inputs.new ≡ I.holds inputs.old }
    ensures robot { IsTrue (I.tells inputs.old) → IfOk result (IsRobotOf root (files (I.holds inputs.old) urdf.now (option_copied srdf.entry))) }
    ensures refused { IsTrue (I.tells inputs.old) → IfErr result (IfFault (IsRefused root (files (I.holds inputs.old) urdf.now (option_copied srdf.entry)))) }
    ensures long { (which : Which) → IsErrOf result (ReadStop.Fault (RobotFault.TooLong which)) → most_file < I.given inputs.new }
    ensures rose { IsErrOf result ReadStop.Input → Rose (I.faults inputs.old) (I.faults inputs.new) }
    ensures kept { ¬ (IsErrOf result ReadStop.Input) → I.faults inputs.new ≡ I.faults inputs.old }
{
    let urdf = read_urdf_of(alloc, inputs, urdf)?;
    let srdf = read_srdf_of(alloc, inputs, srdf)?;
    Ok(robot_of(alloc, &urdf, srdf.as_ref(), root)?)
}

/// The neutral state under this gravity.
#[tactic(auto, unfolding(rb_tree::specs::State::neutral_under))]
fn neutral_start(alloc: Global, robot: &Robot, gravity: &Vec3) -> Result<State, AllocError>
    ensures exact { IfOk result (λ start. start ≡ neutral_under gravity.now robot.now) }
    ensures fits { IfOk result (Fits robot.now) }
{
    let mut start = State::new(alloc, robot)?;
    start.set_gravity(*gravity);
    Ok(start)
}

/// The state that rows start from: under this gravity the neutral one, or where a name is told the one of the group states of the name.
pub(crate) fn start_of(
    alloc: Global,
    robot: &Robot,
    gravity: &Vec3,
    name: Option<&str>,
) -> Result<State, StartStop>
    ensures ok { IfOk result (IsStart robot.now gravity.now (option_copied name.entry)) }
    ensures fits { IfOk result (Fits robot.now) }
    ensures err { IfErr result (λ stop. (stop ≡ StartStop.Memory) ⊎ ((stop ≡ StartStop.NoState) × IsSomeAnd (option_copied name.entry) (λ name. HasState robot.now.states name → ⊥))) }
{
    let mut start = neutral_start(alloc, robot, gravity)?;
    let Some(name) = name else {
        return Ok(start);
    };
    match start.set_named(robot, name.as_bytes()) {
        Ok(()) => Ok(start),
        Err(_) => Err(StartStop::NoState),
    }
}

/// Reads the constraints of a file.
fn read_constraints_in<I: Inputs>(
    alloc: Global,
    inputs: &mut I,
    robot: &Robot,
    name: &str,
) -> Result<Constraints, ReadStop<ConstraintsFault>>
    ensures tells { I.tells inputs.new ≡ I.tells inputs.old }
    ensures holds { I.holds inputs.new ≡ I.holds inputs.old }
    ensures constraints { IsTrue (I.tells inputs.old) → IfOk result (IsConstraintsFile robot.now (I.holds inputs.old name.now)) }
    ensures fit { IfOk result (λ cons. RowsFit (shape_of robot.now) (constraints_of cons)) }
    ensures refused { IsTrue (I.tells inputs.old) → IfErr result (IfFault (HasNoConstraints robot.now (Some (I.holds inputs.old name.now)))) }
    ensures long { IsErrOf result (ReadStop.Fault ConstraintsFault.TooLong) → most_file < I.given inputs.new }
    ensures rose { IsErrOf result ReadStop.Input → Rose (I.faults inputs.old) (I.faults inputs.new) }
    ensures kept { ¬ (IsErrOf result ReadStop.Input) → I.faults inputs.new ≡ I.faults inputs.old }
{
    let bytes = match read_all(alloc, inputs, name, MOST_FILE) {
        Ok(bytes) => bytes,
        Err(fault) => return Err(file_stop(fault, ConstraintsFault::TooLong)),
    };
    match read_constraints(alloc, bytes.as_slice(), robot) {
        Ok(constraints) => {
            let _kept = constraints.as_slice();
            Ok(constraints)
        }
        Err(fault) => Err(of_con(fault)),
    }
}

/// Reads the constraints of a file, where its name is given. With none there is no constraint.
pub(crate) fn read_constraints_of<I: Inputs>(
    alloc: Global,
    inputs: &mut I,
    robot: &Robot,
    name: Option<&str>,
) -> Result<Constraints, ReadStop<ConstraintsFault>>
    ensures tells { I.tells inputs.new ≡ I.tells inputs.old }
    ensures holds { I.holds inputs.new ≡ I.holds inputs.old }
    ensures constraints { IsTrue (I.tells inputs.old) → IfOk result (IsConstraintsIn robot.now (option_map (λ name. I.holds inputs.old name) (option_copied name.entry))) }
    ensures fit { IfOk result (λ cons. RowsFit (shape_of robot.now) (constraints_of cons)) }
    ensures refused { IsTrue (I.tells inputs.old) → IfErr result (IfFault (HasNoConstraints robot.now (option_map (λ name. I.holds inputs.old name) (option_copied name.entry)))) }
    ensures long { IsErrOf result (ReadStop.Fault ConstraintsFault.TooLong) → most_file < I.given inputs.new }
    ensures rose { IsErrOf result ReadStop.Input → Rose (I.faults inputs.old) (I.faults inputs.new) }
    ensures kept { ¬ (IsErrOf result ReadStop.Input) → I.faults inputs.new ≡ I.faults inputs.old }
{
    match name {
        None => Ok(Constraints::none(alloc)),
        Some(name) => read_constraints_in(alloc, inputs, robot, name),
    }
}

/// Reads the rows.
pub(crate) fn read_rows<I: Inputs>(
    alloc: Global,
    inputs: &mut I,
    name: &str,
) -> Result<Bytes, ReadStop<RowsFault>>
    ensures bytes { IsTrue (I.tells inputs.old) → IfOk result (λ bytes. bytes ≡ I.holds inputs.old name.now) }
    ensures within { IfOk result (λ bytes. length bytes ≤ most_rows) }
    ensures refused { IfErr result (IfFault (λ fault. fault ≡ RowsFault.TooLong)) }
    ensures longer { IsTrue (I.tells inputs.old) → IsErrOf result (ReadStop.Fault RowsFault.TooLong) → most_rows < length (I.holds inputs.old name.now) }
    ensures long { IsErrOf result (ReadStop.Fault RowsFault.TooLong) → most_rows < I.given inputs.new }
    ensures rose { IsErrOf result ReadStop.Input → Rose (I.faults inputs.old) (I.faults inputs.new) }
    ensures kept { ¬ (IsErrOf result ReadStop.Input) → I.faults inputs.new ≡ I.faults inputs.old }
{
    match read_all(alloc, inputs, name, MOST_ROWS) {
        Ok(bytes) => Ok(bytes),
        Err(fault) => Err(file_stop(fault, RowsFault::TooLong)),
    }
}
