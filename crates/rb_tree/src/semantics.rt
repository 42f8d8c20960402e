// Whether groups, states and virtual joints go with a robot.
ghost use Rattle.std.specs.Prelude.{◌≡◌, ◌⊎◌, ◌↔◌, ◌≤◌, ◌^◌, IsTrue, IfOk, IfErr, Some, length, option_copied};
ghost use Rattle.std.specs.List.{AllByRecursion};
ghost use Rattle.rb_tags.specs.Names.{AreDifferent};
ghost use Rattle.rb_urdf.specs.Robot.{IsRobot, names_of_links};
ghost use Rattle.rb_tree.specs.declared.faults.TreeKind.TheVariants.{UnknownName};
ghost use Rattle.rb_tree.specs.declared.faults.WhichFile.TheVariants.{Srdf as OfSemantics};
ghost use Rattle.rb_tree.specs.Faults.{IsIn, no_memory};
ghost use Rattle.rb_tree.specs.Build.{virtuals_in, IsOfRobot, BearsLink};
ghost use Rattle.rb_tree.specs.Refusals.{BearsNoLink, IsFirstSemanticsFault};

use crate::faults::{TreeFault, TreeKind, WhichFile};
use rb_srdf::{Srdf, Virtual};
use rb_tags::Names;
use rb_urdf::{UrdfLink, UrdfRobot};
use std::alloc::{AllocError, Global};

/// Refuses groups and states of another robot.
fn check_robot(urdf: &UrdfRobot, srdf: &Srdf) -> Result<(), TreeFault>
    ensures ok { IfOk result (λ _. IsOfRobot urdf.now (Some srdf.now)) }
    ensures err { IfErr result (λ fault. IsFirstSemanticsFault urdf.now (Some srdf.now) fault) }
{
    if srdf.name() == urdf.name() {
        Ok(())
    } else {
        Err(TreeFault::new(WhichFile::Srdf, TreeKind::OtherRobot, srdf.place()))
    }
}

/// The names of links, which differ.
fn names_of(alloc: Global, links: &[UrdfLink]) -> Result<Names<'_>, AllocError>
    requires { AreDifferent (names_of_links links.now) }
    ensures { IfOk result (λ names. names ≡ names_of_links links.now) }
{
    let mut names = Names::new(alloc);
    for link in links {
        names.add(link.name.as_str())?;
    }
    Ok(names)
}

/// Whether a virtual joint bears one of these links.
fn bears_link(names: &Names, virtual_joint: &Virtual) -> bool
    requires { length names.now ≤ 2 ^ 32 }
    ensures { IsTrue result ↔ BearsLink names.now virtual_joint.now }
{
    names.number_of(virtual_joint.child.as_str()).is_some()
}

/// Refuses the first virtual joint that bears none of these links.
fn check_children(names: &Names, virtuals: &[Virtual]) -> Result<(), TreeFault>
    requires { length names.now ≤ 2 ^ 32 }
    ensures ok { IfOk result (λ _. AllByRecursion (BearsLink names.now) virtuals.now) }
    ensures err { IfErr result (λ fault. IsIn OfSemantics UnknownName fault (BearsNoLink names.now virtuals.now fault.at)) }
{
    for virtual_joint in virtuals {
        if !bears_link(names, virtual_joint) {
            return Err(TreeFault::new(WhichFile::Srdf, TreeKind::UnknownName, virtual_joint.place));
        }
    }
    Ok(())
}

/// The links and joints of a robot keep what those of each robot do.
fn keeps(urdf: &UrdfRobot)
    ensures { IsRobot urdf.now.links urdf.now.joints }
{
    let _joints = urdf.joints();
}

/// Refuses the first virtual joint that bears no link, where groups and states are of the robot.
fn check_virtuals(alloc: Global, urdf: &UrdfRobot, srdf: &Srdf) -> Result<(), TreeFault>
    requires { IsOfRobot urdf.now (Some srdf.now) }
    ensures ok { IfOk result (λ _. AllByRecursion (BearsLink (names_of_links urdf.now.links)) srdf.now.virtuals) }
    ensures err { IfErr result (λ fault. (fault ≡ no_memory) ⊎ IsFirstSemanticsFault urdf.now (Some srdf.now) fault) }
{
    keeps(urdf);
    let names = names_of(alloc, urdf.links().as_slice())?;
    check_children(&names, srdf.virtuals().as_slice())
}

/// Refuses groups and states of another robot, and a virtual joint that bears no link.
fn check_both(alloc: Global, urdf: &UrdfRobot, srdf: &Srdf) -> Result<(), TreeFault>
    ensures robot { IfOk result (λ _. IsOfRobot urdf.now (Some srdf.now)) }
    ensures virtuals { IfOk result (λ _. AllByRecursion (BearsLink (names_of_links urdf.now.links)) srdf.now.virtuals) }
    ensures err { IfErr result (λ fault. (fault ≡ no_memory) ⊎ IsFirstSemanticsFault urdf.now (Some srdf.now) fault) }
{
    check_robot(urdf, srdf)?;
    check_virtuals(alloc, urdf, srdf)
}

/// The same where groups and states are given.
pub(crate) fn check_semantics(
    alloc: Global,
    urdf: &UrdfRobot,
    srdf: Option<&Srdf>,
) -> Result<(), TreeFault>
    ensures robot { IfOk result (λ _. IsOfRobot urdf.now (option_copied srdf.entry)) }
    ensures virtuals { IfOk result (λ _. AllByRecursion (BearsLink (names_of_links urdf.now.links)) (virtuals_in (option_copied srdf.entry))) }
    ensures err { IfErr result (λ fault. (fault ≡ no_memory) ⊎ IsFirstSemanticsFault urdf.now (option_copied srdf.entry) fault) }
{
    match srdf {
        Some(srdf) => check_both(alloc, urdf, srdf),
        None => Ok(()),
    }
}
