ghost use Rattle.std.specs.Prelude.{◌≡◌, ◌<◌, ◌≤◌, ◌^◌, ◌↔◌, ℕ, IsTrue, IfOk, IfErr, MatchOption, length};
ghost use Rattle.std.specs.List.{All, Any};
ghost use Rattle.rb_tree.specs.declared.sizes.TheConstants.{MAX_LINKS};
ghost use Rattle.rb_tree.specs.Faults.{no_memory};
ghost use Rattle.rb_tree.specs.Grow.{HasLink, IsFreeJoint, IsFullLink, IsPartOf, AreNumbered, IsGrown, IsNextStem, IsClosed, IsFirstApart};

use crate::faults::TreeFault;
use crate::order::Stem;
use rb_urdf::UrdfJoint;
use std::alloc::Global;

/// Whether the link is that of a body.
fn is_placed(stems: &[Stem], link: usize) -> bool
    ensures { IsTrue result ↔ Any (λ stem. stem.link ≡ link) stems.now }
{
    stems.iter().any(|stem| stem.link as usize == link)
}

/// The first joint of the link whose child is not placed.
fn free_joint(joints: &[UrdfJoint], stems: &[Stem], link: u32) -> Option<usize>
    ensures { MatchOption result (IsFullLink joints.now stems.now link) (λ joint. IsFreeJoint joints.now stems.now link joint) }
{
    for (number, joint) in joints.iter().enumerate() {
        if joint.parent == link && !is_placed(stems, joint.child as usize) {
            return Some(number);
        }
    }
    None
}

/// The body that comes next: it is borne by a free joint of the last body or of the nearest body above it that has one.
fn next_stem(joints: &[UrdfJoint], stems: &[Stem]) -> Option<Stem>
    requires few_joints { length joints.now < 2 ^ 32 }
    requires few_stems { length stems.now < 2 ^ 32 }
    requires part { IsPartOf joints.now stems.now }
    requires numbered { AreNumbered stems.now }
    ensures { MatchOption result (IsClosed joints.now stems.now) (λ stem. IsNextStem joints.now stems.now stem) }
{
    let mut body = stems.len();
    while 0 < body {
        let stem = stems[body - 1];
        if let Some(number) = free_joint(joints, stems, stem.link) {
            return Some(Stem {
                link: joints[number].child,
                joint: Some(number as u32),
                parent: body as u32,
            });
        }
        body = stem.parent as usize;
    }
    None
}

/// The bodies that ways of joints reach from the root, in their order.
pub(crate) fn stems_of(
    alloc: Global,
    joints: &[UrdfJoint],
    links: usize,
    root: usize,
) -> Result<Vec<Stem>, TreeFault>
    requires few_joints { length joints.now < 2 ^ 32 }
    requires few_links { links ≤ MAX_LINKS }
    requires root_there { root < links }
    requires children { All (λ joint. joint.child < links) joints.now }
    ensures grown { IfOk result (λ stems. IsGrown joints.now links root stems.items) }
    ensures closed { IfOk result (λ stems. IsClosed joints.now stems.items) }
    ensures err { IfErr result (λ fault. fault ≡ no_memory) }
{
    let mut stems = Vec::new(alloc);
    let first = Stem {
        link: root as u32,
        joint: None,
        parent: 0,
    };
    stems.push(first)?;
    while let Some(stem) = next_stem(joints, stems.as_slice()) {
        stems.push(stem)?;
    }
    Ok(stems)
}

/// The first of the links that is not placed.
pub(crate) fn first_apart(stems: &[Stem], links: usize) -> Option<usize>
    ensures { MatchOption result ((link : ℕ) → link < links → HasLink stems.now link) (λ apart. IsFirstApart stems.now links apart) }
{
    for link in 0..links {
        if !is_placed(stems, link) {
            return Some(link);
        }
    }
    None
}
