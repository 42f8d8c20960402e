// Joints that follow others.
ghost use Rattle.std.specs.Prelude.{◌≡◌, ◌≤◌, ◌^◌, [], length, map, IfOk};
ghost use Rattle.rb_urdf.specs.Joints.{names_of_drafts};
ghost use Rattle.rb_urdf.specs.Mimics.{may_lead, following_kind, head_of, mimic_of, joint_of, joints_of};
ghost use Rattle.rb_result.specs.Steps.{Gives};
ghost use Rattle.rb_urdf.specs.Faults.{no_memory};

use crate::faults::{UrdfFault, UrdfFaultKind, fault};
use crate::joint::{Draft, Follow};
use crate::robot::{UrdfJoint, UrdfKind, UrdfMimic};
use rb_tags::Names;
use std::alloc::{AllocError, Global};

/// What others ask of a joint that they follow: its kind, and whether it follows one itself.
#[derive(Clone, Copy)]
pub struct Head {
    pub kind: UrdfKind,
    pub follows: bool,
}

/// Whether a joint of this kind may be followed.
fn may_lead(kind: UrdfKind) -> bool
    ensures { result ≡ may_lead kind }
{
    matches!(kind, UrdfKind::Revolute | UrdfKind::Prismatic)
}

/// The kind of a joint that follows another: a continuous one is taken as revolute.
fn following_kind(kind: UrdfKind) -> UrdfKind
    ensures { result ≡ following_kind kind }
{
    match kind {
        UrdfKind::Continuous => UrdfKind::Revolute,
        _ => kind,
    }
}

/// What others ask of each joint.
fn heads_of(alloc: Global, drafts: &[Draft]) -> Result<Vec<Head>, AllocError>
    ensures { IfOk result (λ heads. heads.items ≡ map head_of drafts.now) }
{
    drafts
        .iter()
        .map(|draft| Head {
            kind: draft.joint.kind,
            follows: draft.follow.is_some(),
        })
        .collect(alloc)
}

/// The mimic of a joint of a kind.
#[tactic(auto, unfolding(crate::specs::Mimics::mimic_of))]
fn mimic_of(
    names: &Names<'_>,
    heads: &[Head],
    kind: UrdfKind,
    follow: &Follow,
) -> Result<UrdfMimic, UrdfFaultKind>
    requires { length names.now ≤ 2 ^ 32 }
    ensures { result ≡ mimic_of names.now heads.now kind follow.now }
{
    let Some(master) = &follow.master else {
        return Err(UrdfFaultKind::MimicUnknown);
    };
    let Some(master) = names.number_of(master.as_str()) else {
        return Err(UrdfFaultKind::MimicUnknown);
    };
    let Some(head) = heads.get(master as usize) else {
        return Err(UrdfFaultKind::MimicUnknown);
    };
    if head.follows {
        return Err(UrdfFaultKind::MimicChain);
    }
    if !may_lead(head.kind) || !may_lead(following_kind(kind)) {
        return Err(UrdfFaultKind::MimicMaster);
    }
    Ok(UrdfMimic {
        master,
        multiplier: follow.multiplier,
        offset: follow.offset,
    })
}

/// The joint, whose mimic has the number of the joint that it follows.
#[tactic(auto, unfolding(crate::specs::Mimics::joint_of))]
fn joint_of(names: &Names<'_>, heads: &[Head], draft: Draft) -> Result<UrdfJoint, UrdfFaultKind>
    requires { length names.now ≤ 2 ^ 32 }
    ensures { result ≡ joint_of names.now heads.now draft }
{
    let Draft { mut joint, follow } = draft;
    if let Some(follow) = &follow {
        joint.mimic = Some(mimic_of(names, heads, joint.kind, follow)?);
        joint.kind = following_kind(joint.kind);
    }
    Ok(joint)
}

/// The joints of drafts with these names.
#[tactic(auto, unfolding(crate::specs::Mimics::joints_of))]
pub fn joints_of(
    alloc: Global,
    names: &Names<'_>,
    drafts: Vec<Draft>,
) -> Result<Vec<UrdfJoint>, UrdfFault>
    requires few { length names.now ≤ 2 ^ 32 }
    requires names { names.now ≡ names_of_drafts drafts.items }
    ensures { Gives no_memory (λ joints. joints.items) result (joints_of drafts.items) }
{
    let heads = heads_of(alloc, drafts.as_slice())?;
    let mut joints = Vec::new(alloc);
    for draft in drafts {
        let place = draft.joint.place;
        match joint_of(names, heads.as_slice(), draft) {
            Ok(joint) => joints.push(joint)?,
            Err(kind) => return Err(fault(kind, place)),
        }
    }
    Ok(joints)
}
