ghost use Rattle.std.specs.Prelude.{◌≡◌, ◌<◌, ◌≤◌, ◌+◌, ◌-◌, ◌*◌, IfOk, IfSome, length, slice_get, slice_index, EachIndex};
ghost use Rattle.std.specs.Option.{IsSomeAnd};
ghost use Rattle.std.specs.Str.{IsUtf8};

use crate::columns::{Start, has_mimic, owners_of, starts_of, ups_of};
use crate::groups::BodyGroup;
use crate::states::NamedState;
use rb_body::{JointRaw, LinkRaw};
use rb_joint::AnyJoint;
use rb_num::Iv;
use rb_spatial::BodyInertia;
use rb_tags::Text;
use std::alloc::{AllocError, Global};
use std::marker::Model;

/// That a joint follows that of another body: its entry is `multiplier` times the other's, plus `offset`.
#[derive(Clone, Copy, Debug, PartialEq, Eq)]
pub struct Mimic {
    /// The number of the other body.
    pub master: u32,
    pub multiplier: Iv,
    pub offset: Iv,
}

impl Mimic {
    ghost use Rattle.rb_flat.specs.Choice.{MimicOrdered};
    ghost use Rattle.rb_tree.specs.Robot.{mimic_brackets};

    /// The ends of both brackets are in order, as those of each interval are.
    pub(crate) fn in_order(&self)
        ensures { MimicOrdered (mimic_brackets self.now) }
    {
        let _bounds = (self.multiplier.lo(), self.offset.lo());
    }
}

/// A body: the number of its parent, the joint that bears it, its inertia, and the names and the brackets of its link and its joint.
#[derive(Debug, Drop, PartialEq, Eq)]
pub struct Body {
    pub parent: u32,
    pub joint: AnyJoint,
    pub inertia: BodyInertia,
    pub link_name: Text,
    pub joint_name: Text,
    pub link_raw: LinkRaw,
    pub joint_raw: JointRaw,
    pub mimic: Option<Mimic>,
}

/// A tree of 1 to `MAX_LINKS` bodies with at most `MAX_COLUMNS` columns, also with those of joints that follow others. Bodies and columns are
/// numbered from 1; body 0 is the world. The parent of a body has a smaller number (Featherstone, Rigid Body Dynamics Algorithms, chapter 4).
/// With it go groups of its bodies and states that set entries of its position.
#[derive(Debug, Drop)]
pub struct Robot {
    name: Text,
    bodies: Vec<Body>,
    starts: Vec<Start>,
    owners: Vec<u32>,
    ups: Vec<u32>,
    groups: Vec<BodyGroup>,
    states: Vec<NamedState>,
}

impl Model for Robot {
    ghost use Rattle.rb_tree.specs.Robot.{Tree, IsRobot};

    ghost Value = { Tree };

    ghost view = { λ r. record { name = r.name; bodies = r.bodies.items; groups = r.groups.items; states = r.states.items } };

    ghost invariant = { λ r. IsRobot (record { name = r.name; bodies = r.bodies.items; groups = r.groups.items; states = r.states.items }) r.starts.items r.owners.items r.ups.items };
}

impl Robot {
    ghost use Rattle.rb_body.specs.Raw.{link_brackets};
    ghost use Rattle.rb_body.specs.Inertia.{inertia_by, EnclosesInertia};
    ghost use Rattle.rb_body.specs.Joint.{joint_by, EnclosesJoint};
    ghost use Rattle.rb_tags.specs.declared.tag.TheConstants.{MAX_TAGS};
    ghost use Rattle.rb_tree.specs.declared.sizes.TheConstants.{MAX_LINKS, MAX_COLUMNS};
    ghost use Rattle.rb_tree.specs.Numbers.{joint_at, inertia_at, mimic_at};
    ghost use Rattle.rb_tree.specs.Columns.{body_at, parent_at, full_at, columns_at, entries_at, body_of_column, up_of, first_full, first_column, first_entry, full_count, column_count, entry_count, has_mimic as has_mimic_in, start_behind, leader_at, AreUps};
    ghost use Rattle.std.specs.Prelude.{◌↔◌, IsTrue};
    ghost use Rattle.rb_tree.specs.States.{HasState};
    ghost use Rattle.std.specs.List.{AllByRecursion};
    ghost use Rattle.rb_tree.specs.Robot.{HasBody, HasColumn, IsGroupKept, IsStateKept, IsAxisKept, IsBodyKept, IsOnlyLink, HasOwnJointName, IsOnlyJoint, FollowsMaster, AreBodies};

    /// The robot of these bodies, groups and states.
    pub(crate) fn new(
        alloc: Global,
        name: Text,
        bodies: Vec<Body>,
        groups: Vec<BodyGroup>,
        states: Vec<NamedState>,
    ) -> Result<Robot, AllocError>
        requires bodies { AreBodies bodies.items }
        requires groups { AllByRecursion (IsGroupKept bodies.items) groups.items }
        requires few_groups { length groups.items ≤ MAX_TAGS }
        requires states { AllByRecursion (IsStateKept bodies.items) states.items }
        ensures { IfOk result (λ robot. robot ≡ record { name = name; bodies = bodies.items; groups = groups.items; states = states.items }) }
    {
        let starts = starts_of(alloc, bodies.as_slice())?;
        let owners = owners_of(alloc, bodies.as_slice())?;
        let ups = ups_of(
            alloc,
            bodies.as_slice(),
            starts.as_slice(),
            owners.as_slice(),
        )?;
        Ok(Robot {
            name,
            bodies,
            starts,
            owners,
            ups,
            groups,
            states,
        })
    }

    /// Its name, in UTF-8.
    #[inline]
    pub fn name(&self) -> &[u8]
        ensures name { result.now ≡ self.now.name }
        ensures utf8 { IsUtf8 result.now }
    {
        self.name.as_str().as_bytes()
    }

    /// How many bodies it has.
    #[inline]
    pub fn bodies(&self) -> u32
        ensures count { result ≡ length self.now.bodies }
        ensures some { 1 ≤ result }
        ensures few { result ≤ MAX_LINKS }
        ensures kept { AreBodies self.now.bodies }
    {
        self.bodies.len() as u32
    }

    pub(crate) fn body_list(&self) -> &[Body]
        ensures bodies { result.now ≡ self.now.bodies }
        ensures kept { AreBodies self.now.bodies }
    {
        self.bodies.as_slice()
    }

    pub(crate) fn state_list(&self) -> &[NamedState]
        ensures states { result.now ≡ self.now.states }
        ensures kept { AllByRecursion (IsStateKept self.now.bodies) self.now.states }
    {
        self.states.as_slice()
    }

    /// Whether a group state has this name.
    pub fn has_state(&self, name: &[u8]) -> bool
        ensures { IsTrue result ↔ HasState self.now.states name.now }
    {
        self.state_list()
            .iter()
            .any(|state| state.name.as_str().as_bytes() == name)
    }

    fn body(&self, i: u32) -> &Body
        requires { HasBody self.now i }
        ensures is { body_at self.now.bodies i ≡ Some result.now }
        ensures robot { AreBodies self.now.bodies }
        ensures kept { IsBodyKept result.now }
        ensures above { result.now.parent < i }
    {
        &self.bodies[i as usize - 1]
    }

    /// The number of the body's parent, 0 for the world.
    #[inline]
    pub fn parent(&self, i: u32) -> u32
        requires { HasBody self.now i }
        ensures parent { IsSomeAnd (body_at self.now.bodies i) (λ body. body.parent ≡ result) }
        ensures at { result ≡ parent_at self.now.bodies i }
        ensures above { result < i }
    {
        self.body(i).parent
    }

    /// The joint that bears the body: that which its brackets give. It encloses what they allow.
    #[inline]
    #[tactic(auto, using(crate::proofs::Shapes::encloses_joint))]
    pub fn joint(&self, i: u32) -> &AnyJoint
        requires { HasBody self.now i }
        ensures joint { IsSomeAnd (body_at self.now.bodies i) (λ body. body.joint ≡ result.now) }
        ensures at { result.now ≡ joint_at self.now.bodies i }
        ensures exact { IsSomeAnd (body_at self.now.bodies i) (λ body. joint_by body.joint_raw.kind body.joint_raw.xyz body.joint_raw.rpy body.joint_raw.axis ≡ Ok (result.now, body.joint_raw)) }
        ensures encloses { IsSomeAnd (body_at self.now.bodies i) (λ body. EnclosesJoint result.now body.joint_raw) }
    {
        &self.body(i).joint
    }

    /// The inertia of the body, that which its link's brackets give: the mass in kilograms, the first moment in kg m, and the inertia about
    /// the body's origin in kg m². It encloses what the brackets allow.
    #[inline]
    #[tactic(auto, using(crate::proofs::Shapes::encloses_inertia))]
    pub fn inertia(&self, i: u32) -> &BodyInertia
        requires { HasBody self.now i }
        ensures inertia { IsSomeAnd (body_at self.now.bodies i) (λ body. body.inertia ≡ result.now) }
        ensures at { result.now ≡ inertia_at self.now.bodies i }
        ensures exact { IsSomeAnd (body_at self.now.bodies i) (λ body. inertia_by (link_brackets body.link_raw) ≡ Ok result.now) }
        ensures encloses { IsSomeAnd (body_at self.now.bodies i) (λ body. EnclosesInertia (link_brackets body.link_raw) result.now) }
    {
        &self.body(i).inertia
    }

    /// The name of the body's link, in UTF-8, which no other body's link has.
    #[inline]
    #[tactic(auto, using(crate::proofs::Shapes::only_link))]
    pub fn link_name(&self, i: u32) -> &[u8]
        requires { HasBody self.now i }
        ensures name { IsSomeAnd (body_at self.now.bodies i) (λ body. body.link_name ≡ result.now) }
        ensures only { IsOnlyLink self.now.bodies i result.now }
        ensures utf8 { IsUtf8 result.now }
    {
        self.body(i).link_name.as_str().as_bytes()
    }

    /// The name of the joint that bears the body, in UTF-8: for body 1 `root_joint` or that of a virtual joint. But for a root's joint that is
    /// fixed, no two bodies' joints have one name.
    #[inline]
    pub fn joint_name(&self, i: u32) -> &[u8]
        requires { HasBody self.now i }
        ensures name { IsSomeAnd (body_at self.now.bodies i) (λ body. body.joint_name ≡ result.now) }
        ensures only { IsSomeAnd (body_at self.now.bodies i) (λ body. HasOwnJointName i body → IsOnlyJoint self.now.bodies i result.now) }
        ensures utf8 { IsUtf8 result.now }
    {
        self.body(i).joint_name.as_str().as_bytes()
    }

    /// The brackets of the body's link.
    #[inline]
    pub fn link_raw(&self, i: u32) -> &LinkRaw
        requires { HasBody self.now i }
        ensures { IsSomeAnd (body_at self.now.bodies i) (λ body. body.link_raw ≡ result.now) }
    {
        &self.body(i).link_raw
    }

    /// The brackets of the body's joint, and the kind that it is taken as. Axis and factor are zero but for kinds that have an axis.
    #[inline]
    pub fn joint_raw(&self, i: u32) -> &JointRaw
        requires { HasBody self.now i }
        ensures axis { IsAxisKept result.now }
        ensures raw { IsSomeAnd (body_at self.now.bodies i) (λ body. body.joint_raw ≡ result.now) }
    {
        &self.body(i).joint_raw
    }

    /// That the body's joint follows another, where it does: both have one entry, and the other follows none.
    #[inline]
    #[tactic(auto, using(crate::proofs::Shapes::follows))]
    pub fn mimic_of(&self, i: u32) -> Option<Mimic>
        requires { HasBody self.now i }
        ensures mimic { IsSomeAnd (body_at self.now.bodies i) (λ body. body.mimic ≡ result) }
        ensures at { result ≡ mimic_at self.now.bodies i }
        ensures follows { IsSomeAnd (body_at self.now.bodies i) (λ body. IfSome result (FollowsMaster self.now.bodies body)) }
    {
        self.body(i).mimic
    }

    /// Whether some joint follows another.
    #[inline]
    pub fn has_mimic(&self) -> bool
        ensures { result ≡ has_mimic_in self.now.bodies }
    {
        has_mimic(self.bodies.as_slice())
    }

    /// The start behind the last body.
    fn end(&self) -> Start
        ensures full { result.full ≡ 1 + full_count self.now.bodies }
        ensures column { result.column ≡ 1 + column_count self.now.bodies }
        ensures entry { result.entry ≡ entry_count self.now.bodies }
        ensures few { result.full ≤ MAX_COLUMNS + 1 }
        ensures within { result.column ≤ result.full }
        ensures few_entries { result.entry ≤ 2 * MAX_COLUMNS }
    {
        self.starts[self.bodies.len()]
    }

    /// How many numbers a state has for the position: the entries of all joints that follow no other, at most two for each column.
    #[inline]
    pub fn nq(&self) -> u32
        ensures count { result ≡ entry_count self.now.bodies }
        ensures few { result ≤ 2 * MAX_COLUMNS }
    {
        self.end().entry as u32
    }

    /// How many columns it has: those of all joints that follow no other.
    #[inline]
    pub fn nv(&self) -> u32
        ensures count { result ≡ column_count self.now.bodies }
        ensures few { result ≤ MAX_COLUMNS }
    {
        self.end().column - 1
    }

    /// How many full columns it has: those of all joints.
    #[inline]
    pub fn full(&self) -> u32
        ensures count { result ≡ full_count self.now.bodies }
        ensures few { result ≤ MAX_COLUMNS }
        ensures columns { column_count self.now.bodies ≤ result }
    {
        self.end().full - 1
    }

    /// The number of the body's first full column, or of the one that the next would have.
    #[inline]
    pub fn first_full(&self, i: u32) -> u32
        requires { HasBody self.now i }
        ensures exact { result ≡ first_full self.now.bodies i }
        ensures within { result + full_at self.now.bodies i ≤ full_count self.now.bodies + 1 }
    {
        self.starts[i as usize - 1].full
    }

    /// Where the columns and entries of the body begin that the body moves by: of a mimic, its master.
    fn start(&self, i: u32) -> Start
        requires { HasBody self.now i }
        ensures exact { result ≡ start_behind self.now.bodies (leader_at self.now.bodies i - 1) }
        ensures there { HasBody self.now (leader_at self.now.bodies i) }
    {
        let leader = match self.body(i).mimic {
            None => i,
            Some(mimic) => mimic.master,
        };
        self.starts[leader as usize - 1]
    }

    /// The number of the body's first column, of a mimic that of its master, or the one that the next would have.
    #[inline]
    pub fn first_column(&self, i: u32) -> u32
        requires { HasBody self.now i }
        ensures exact { result ≡ first_column self.now.bodies i }
        ensures within { result + columns_at self.now.bodies (leader_at self.now.bodies i) ≤ column_count self.now.bodies + 1 }
    {
        self.start(i).column
    }

    /// The place from 0 of the body's first entry in a state, of a mimic that of its master, or the one that the next would have.
    #[inline]
    pub fn first_q(&self, i: u32) -> usize
        requires { HasBody self.now i }
        ensures exact { result ≡ first_entry self.now.bodies i }
        ensures within { result + entries_at self.now.bodies (leader_at self.now.bodies i) ≤ entry_count self.now.bodies }
    {
        self.start(i).entry
    }

    /// The body of the joint of a column.
    #[inline]
    pub fn column_body(&self, c: u32) -> u32
        requires { HasColumn self.now c }
        ensures exact { result ≡ body_of_column self.now.bodies c }
        ensures there { HasBody self.now result }
        ensures within { (first_column self.now.bodies result ≤ c) × (c < first_column self.now.bodies result + columns_at self.now.bodies result) }
    {
        self.owners[c as usize - 1]
    }

    /// The next column upward, or 0: the one before it at the same joint, else the last one of the nearest body above that has columns. In
    /// a robot with a mimic it is the one before.
    #[inline]
    pub fn up(&self, c: u32) -> u32
        requires { HasColumn self.now c }
        ensures exact { result ≡ up_of self.now.bodies c }
        ensures above { result < c }
    {
        self.ups[c as usize - 1]
    }

    /// The next columns upward, from column 1 on.
    #[inline]
    pub fn ups(&self) -> &[u32]
        ensures exact { AreUps self.now.bodies result.now }
        ensures above { EachIndex result.now (λ k. slice_index result.now k ≤ k) }
    {
        self.ups.as_slice()
    }

    /// How many groups it has.
    #[inline]
    pub fn groups(&self) -> u32
        ensures count { result ≡ length self.now.groups }
        ensures few { result ≤ MAX_TAGS }
    {
        self.groups.len() as u32
    }

    fn group(&self, k: u32) -> &BodyGroup
        requires { k < length self.now.groups }
        ensures is { slice_get self.now.groups k ≡ Some result.now }
        ensures kept { IsGroupKept self.now.bodies result.now }
    {
        &self.groups[k as usize]
    }

    /// The name of the group of a number, from 0 in file order, in UTF-8.
    #[inline]
    pub fn group_name(&self, k: u32) -> &[u8]
        requires { k < length self.now.groups }
        ensures name { IsSomeAnd (slice_get self.now.groups k) (λ group. group.name ≡ result.now) }
        ensures utf8 { IsUtf8 result.now }
    {
        self.group(k).name.as_str().as_bytes()
    }

    /// The numbers of the bodies of the group of a number, in ascending order. They are there.
    #[inline]
    pub fn group_bodies(&self, k: u32) -> &[u32]
        requires { k < length self.now.groups }
        ensures bodies { IsSomeAnd (slice_get self.now.groups k) (λ group. group.bodies ≡ result.now) }
        ensures kept { IsSomeAnd (slice_get self.now.groups k) (IsGroupKept self.now.bodies) }
    {
        self.group(k).bodies.as_slice()
    }
}
