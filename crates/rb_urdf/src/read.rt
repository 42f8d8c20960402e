// The robot of a list of tags.
ghost use Rattle.std.specs.Prelude.{◌≡◌, ◌≤◌, ◌⊎◌, ◌∷◌, IfOk, IfErr, IfSome, Ok, Err, length, find, option_copied, ◌≢◌, []};
ghost use Rattle.rb_urdf.specs.Robot.{IsRobot};
ghost use Rattle.rb_urdf.specs.Urdf.{is_xacro, robot_with, robot_of, urdf_of, no_memory};
ghost use Rattle.rb_result.specs.Steps.{Gives};
ghost use Rattle.rb_tags.specs.declared.tag.TheConstants.{MAX_TAGS};

use crate::faults::{UrdfFault, UrdfFaultKind, fault};
use crate::joint::read_drafts;
use crate::link::read_links;
use crate::mimic::joints_of;
use crate::names::name_of;
use crate::robot::{Joints, Links, UrdfRobot};
use rb_tags::{ElementRef, Names, Tag, Tags, Text};
use std::alloc::Global;

/// Whether the name of an element begins with `xacro:`.
#[tactic(auto, unfolding(crate::specs::Urdf::is_xacro))]
fn is_xacro(tag: &Tag) -> bool
    ensures { result ≡ is_xacro tag.now }
{
    tag.name.as_str().as_bytes().starts_with(b"xacro:")
}

/// The first element whose name begins with `xacro:`.
fn first_xacro(tags: &[Tag]) -> Option<&Tag>
    ensures { option_copied result ≡ find is_xacro tags.now }
{
    tags.iter().find(|tag| is_xacro(tag))
}

/// The links and joints of the tags behind the outermost one, for a robot of this name.
#[tactic(auto, unfolding(crate::specs::Urdf::robot_with))]
fn robot_with(alloc: Global, name: &str, place: u64, tags: &[Tag]) -> Result<UrdfRobot, UrdfFault>
    requires few { length tags.now ≤ MAX_TAGS }
    requires given { name.now ≢ [] }
    ensures { Gives no_memory (λ robot. robot) result (robot_with name.now place tags.now) }
{
    let mut link_names = Names::new(alloc);
    let links = read_links(alloc, &mut link_names, tags)?;
    let mut joint_names = Names::new(alloc);
    let drafts = read_drafts(alloc, &link_names, &mut joint_names, tags)?;
    let joints = joints_of(alloc, &joint_names, drafts)?;
    Ok(UrdfRobot {
        name: Text::copy(alloc, name)?,
        place,
        links: Links { links },
        joints: Joints { joints },
    })
}

/// The robot of the outermost element, whose tag is the first.
#[tactic(auto, unfolding(crate::specs::Urdf::robot_of, crate::specs::Urdf::plain_tags))]
fn robot_of(alloc: Global, root: &Tag, behind: &[Tag], tags: &[Tag]) -> Result<UrdfRobot, UrdfFault>
    requires all { tags.now ≡ root.now ∷ behind.now }
    requires few { length tags.now ≤ MAX_TAGS }
    ensures { Gives no_memory (λ robot. robot) result (robot_of root.now behind.now) }
{
    if let Some(tag) = first_xacro(tags) {
        return Err(fault(UrdfFaultKind::Xacro, tag.place));
    }
    match name_of(ElementRef::new(root, behind)) {
        Ok(name) => robot_with(alloc, name, root.place, behind),
        Err(kind) => Err(fault(kind, root.place)),
    }
}

/// The robot of all tags.
#[tactic(auto, unfolding(crate::specs::Urdf::urdf_of))]
fn urdf_of(alloc: Global, tags: &[Tag]) -> Result<UrdfRobot, UrdfFault>
    requires { length tags.now ≤ MAX_TAGS }
    ensures { Gives no_memory (λ robot. robot) result (urdf_of tags.now) }
{
    let [root, behind @ ..] = tags else {
        return Err(fault(UrdfFaultKind::NoRobot, 0));
    };
    if root.name.as_str() != "robot" {
        return Err(fault(UrdfFaultKind::NoRobot, root.place));
    }
    robot_of(alloc, root, behind, tags)
}

/// The robot that the tags of a file describe, or the first fault.
pub fn read_urdf(alloc: Global, tags: &Tags) -> Result<UrdfRobot, UrdfFault>
    ensures ok { IfOk result (λ robot. urdf_of tags.now ≡ Ok robot) }
    ensures err { IfErr result (λ fault. (fault ≡ no_memory) ⊎ (urdf_of tags.now ≡ Err fault)) }
{
    urdf_of(alloc, tags.as_slice())
}
