// The bodies of a robot by the names of their links and joints.
ghost use Rattle.std.specs.Prelude.{◌≡◌, ◌≤◌, ◌<◌, length, position, bytes_eq, IfOk, IfSome};
ghost use Rattle.rb_tags.specs.Names.{AreDifferent};
ghost use Rattle.rb_srdf.specs.Srdf.{names_of_virtuals as names_of_virtuals_in};
ghost use Rattle.rb_tree.specs.Groups.{body_of_link as body_of_link_in, body_of_joint as body_of_joint_in};
ghost use Rattle.rb_tree.specs.declared.sizes.TheConstants.{MAX_LINKS};

use crate::robot::Body;
use rb_srdf::Virtual;
use rb_tags::Names;
use std::alloc::{AllocError, Global};

/// The place from 0 of the body whose link has the name.
fn place_of_link(bodies: &[Body], name: &str) -> Option<usize>
    ensures place { result ≡ position (λ body. bytes_eq body.link_name name.now) bodies.now }
    ensures there { IfSome result (λ k. k < length bodies.now) }
{
    bodies
        .iter()
        .position(|body| body.link_name.as_str() == name)
}

/// The place from 0 of the body whose joint has the name.
fn place_of_joint(bodies: &[Body], name: &str) -> Option<usize>
    ensures place { result ≡ position (λ body. bytes_eq body.joint_name name.now) bodies.now }
    ensures there { IfSome result (λ k. k < length bodies.now) }
{
    bodies
        .iter()
        .position(|body| body.joint_name.as_str() == name)
}

/// The number of the body whose link has the name.
#[tactic(auto, unfolding(crate::specs::Groups::body_of_link))]
pub(crate) fn body_of_link(bodies: &[Body], name: &str) -> Option<u32>
    requires { length bodies.now ≤ MAX_LINKS }
    ensures number { result ≡ body_of_link_in bodies.now name.now }
    ensures there { IfSome result (λ i. (1 ≤ i) × (i ≤ length bodies.now)) }
{
    let place = place_of_link(bodies, name)?;
    Some(place as u32 + 1)
}

/// The number of the body whose joint has the name: of the root's joint and another of one name it is the other.
#[tactic(auto, unfolding(crate::specs::Groups::body_of_joint))]
pub(crate) fn body_of_joint(bodies: &[Body], name: &str) -> Option<u32>
    requires { length bodies.now ≤ MAX_LINKS }
    ensures number { result ≡ body_of_joint_in bodies.now name.now }
    ensures there { IfSome result (λ i. (1 ≤ i) × (i ≤ length bodies.now)) }
{
    let (root, rest) = bodies.split_first()?;
    match place_of_joint(rest, name) {
        Some(place) => Some(place as u32 + 2),
        None if root.joint_name.as_str() == name => Some(1),
        None => None,
    }
}

/// The names of virtual joints, which differ.
pub(crate) fn names_of_virtuals(
    alloc: Global,
    virtuals: &[Virtual],
) -> Result<Names<'_>, AllocError>
    requires { AreDifferent (names_of_virtuals_in virtuals.now) }
    ensures { IfOk result (λ names. names ≡ names_of_virtuals_in virtuals.now) }
{
    let mut names = Names::new(alloc);
    for joint in virtuals {
        names.add(joint.name.as_str())?;
    }
    Ok(names)
}
