ghost use Rattle.std.specs.Prelude.{◌≡◌, ◌≢◌, [], ◌∷◌, ◌++◌, IfOk};
ghost use Rattle.std.specs.Str.{IsUtf8};
ghost use Rattle.rb_srdf.specs.Srdf.{IsSrdf};

use rb_num::Iv;
use rb_tags::{RootKind, Text};
use std::alloc::{AllocError, Global};
use std::marker::Model;

/// What a group names (SRDF `link`, `joint`, `chain` and `group` in a `group`).
#[derive(Debug, Drop, PartialEq, Eq)]
pub enum GroupItem {
    /// A link.
    Link(Text),
    /// A joint.
    Joint(Text),
    /// The links from one, which is left out, down to another.
    Chain(Text, Text),
    /// A group.
    Group(Text),
}

/// What a group names, in file order.
#[derive(Debug, Drop)]
pub struct Items {
    pub(crate) items: Vec<GroupItem>,
}

impl Model for Items {
    ghost use Rattle.std.specs.Prelude.{List};
    ghost use Rattle.rb_srdf.specs.declared.srdf.GroupItem.{GroupItem};

    ghost Value = { List GroupItem };

    ghost view = { λ l. l.items.items };
}

impl Items {
    /// What a group names, in file order.
    pub fn as_slice(&self) -> &[GroupItem]
        ensures { result.now ≡ self.now }
    {
        self.items.as_slice()
    }
}

/// A group (SRDF `group`): its name, the place of its `<` in bytes of the file, and what it names.
#[derive(Debug, Drop)]
pub struct Group {
    pub name: Text,
    pub place: u64,
    pub items: Items,
}

/// The numbers of a joint in a state, in file order.
#[derive(Debug, Drop)]
pub struct Numbers {
    pub(crate) numbers: Vec<Iv>,
}

impl Model for Numbers {
    ghost use Rattle.std.specs.Prelude.{List};
    ghost use Rattle.rb_num.specs.Interval.{Interval};

    ghost Value = { List Interval };

    ghost view = { λ l. l.numbers.items };
}

impl Numbers {
    /// The numbers of a joint in a state, in file order.
    pub fn as_slice(&self) -> &[Iv]
        ensures { result.now ≡ self.now }
    {
        self.numbers.as_slice()
    }
}

/// The numbers that a state gives a joint (SRDF `joint` in a `group_state`): lengths in metres, angles in radians, or what the kind of the joint asks for.
#[derive(Debug, Drop)]
pub struct JointNumbers {
    pub joint: Text,
    pub numbers: Numbers,
}

/// The joints of a state with their numbers, in file order.
#[derive(Debug, Drop)]
pub struct Values {
    pub(crate) values: Vec<JointNumbers>,
}

impl Model for Values {
    ghost use Rattle.std.specs.Prelude.{List};
    ghost use Rattle.rb_srdf.specs.declared.srdf.JointNumbers.{JointNumbers};

    ghost Value = { List JointNumbers };

    ghost view = { λ l. l.values.items };
}

impl Values {
    /// The joints of a state with their numbers, in file order.
    pub fn as_slice(&self) -> &[JointNumbers]
        ensures { result.now ≡ self.now }
    {
        self.values.as_slice()
    }
}

/// A state of a group (SRDF `group_state`): its name, the name of its group, the place of its `<` in bytes of the file, and the numbers of joints.
#[derive(Debug, Drop)]
pub struct GroupState {
    pub name: Text,
    pub group: Text,
    pub place: u64,
    pub values: Values,
}

/// A virtual joint (SRDF `virtual_joint`): its name, the place of its `<` in bytes of the file, its kind, and the name of the link that it bears.
#[derive(Debug, Drop, PartialEq, Eq)]
pub struct Virtual {
    pub name: Text,
    pub place: u64,
    pub kind: RootKind,
    pub child: Text,
}

/// The groups of a file, in file order.
#[derive(Debug, Drop)]
pub struct Groups {
    pub(crate) groups: Vec<Group>,
}

impl Model for Groups {
    ghost use Rattle.std.specs.Prelude.{List};
    ghost use Rattle.rb_srdf.specs.declared.srdf.Group.{Group};

    ghost Value = { List Group };

    ghost view = { λ l. l.groups.items };
}

impl Groups {
    /// None.
    pub(crate) fn new(alloc: Global) -> Self
        ensures { result ≡ [] }
    {
        Groups {
            groups: Vec::new(alloc),
        }
    }

    /// Puts one behind the others.
    pub(crate) fn push(&mut self, group: Group) -> Result<(), AllocError>
        ensures { IfOk result (λ _. self.new ≡ self.old ++ group ∷ []) }
    {
        Ok(self.groups.push(group)?)
    }

    /// The groups of a file, in file order.
    pub fn as_slice(&self) -> &[Group]
        ensures { result.now ≡ self.now }
    {
        self.groups.as_slice()
    }
}

/// The states of a file, in file order.
#[derive(Debug, Drop)]
pub struct States {
    pub(crate) states: Vec<GroupState>,
}

impl Model for States {
    ghost use Rattle.std.specs.Prelude.{List};
    ghost use Rattle.rb_srdf.specs.declared.srdf.GroupState.{GroupState};

    ghost Value = { List GroupState };

    ghost view = { λ l. l.states.items };
}

impl States {
    /// None.
    pub(crate) fn new(alloc: Global) -> Self
        ensures { result ≡ [] }
    {
        States {
            states: Vec::new(alloc),
        }
    }

    /// Puts one behind the others.
    pub(crate) fn push(&mut self, state: GroupState) -> Result<(), AllocError>
        ensures { IfOk result (λ _. self.new ≡ self.old ++ state ∷ []) }
    {
        Ok(self.states.push(state)?)
    }

    /// The states of a file, in file order.
    pub fn as_slice(&self) -> &[GroupState]
        ensures { result.now ≡ self.now }
    {
        self.states.as_slice()
    }
}

/// The virtual joints of a file, in file order.
#[derive(Debug, Drop)]
pub struct Virtuals {
    pub(crate) virtuals: Vec<Virtual>,
}

impl Model for Virtuals {
    ghost use Rattle.std.specs.Prelude.{List};
    ghost use Rattle.rb_srdf.specs.declared.srdf.Virtual.{Virtual};

    ghost Value = { List Virtual };

    ghost view = { λ l. l.virtuals.items };
}

impl Virtuals {
    /// None.
    pub(crate) fn new(alloc: Global) -> Self
        ensures { result ≡ [] }
    {
        Virtuals {
            virtuals: Vec::new(alloc),
        }
    }

    /// Puts one behind the others.
    pub(crate) fn push(&mut self, joint: Virtual) -> Result<(), AllocError>
        ensures { IfOk result (λ _. self.new ≡ self.old ++ joint ∷ []) }
    {
        Ok(self.virtuals.push(joint)?)
    }

    /// The virtual joints of a file, in file order.
    pub fn as_slice(&self) -> &[Virtual]
        ensures { result.now ≡ self.now }
    {
        self.virtuals.as_slice()
    }
}

/// The semantics of a robot: its name, the place of its `<` in bytes of the file, its groups, their states, and virtual joints.
///
/// `read_srdf` alone makes one, so it keeps what that call asks for: names are given and differ, groups that are named are there, and no group holds
/// itself.
#[derive(Debug, Drop)]
pub struct Srdf {
    pub(crate) name: Text,
    pub(crate) place: u64,
    pub(crate) groups: Groups,
    pub(crate) order: Vec<u32>,
    pub(crate) states: States,
    pub(crate) virtuals: Virtuals,
}

impl Model for Srdf {
    ghost use Rattle.rb_srdf.specs.Srdf.{Semantics, IsSrdf};
    ghost use Rattle.rb_srdf.specs.Groups.{IsHoldingOrder};

    ghost Value = { Semantics };

    ghost view = { λ s. record { name = s.name; place = s.place; groups = s.groups; states = s.states; virtuals = s.virtuals } };

    ghost invariant = { λ s. IsSrdf (record { name = s.name; place = s.place; groups = s.groups; states = s.states; virtuals = s.virtuals }) × IsHoldingOrder s.groups s.order.items };
}

impl Srdf {
    ghost use Rattle.rb_srdf.specs.Groups.{IsHoldingOrder};

    /// The robot's name.
    pub fn name(&self) -> &str
        ensures same { result.now ≡ self.now.name }
        ensures utf8 { IsUtf8 self.now.name }
    {
        self.name.as_str()
    }

    /// The place of the robot's `<` in bytes of the file.
    pub fn place(&self) -> u64
        ensures { result ≡ self.now.place }
    {
        self.place
    }

    /// The groups, in file order.
    pub fn groups(&self) -> &Groups
        ensures same { result.now ≡ self.now.groups }
        ensures kept { IsSrdf self.now }
    {
        &self.groups
    }

    /// The numbers of the groups, from 0 in file order, in an order in which each group comes behind those that it holds.
    pub fn holding_order(&self) -> &[u32]
        ensures { IsHoldingOrder self.now.groups result.now }
    {
        self.order.as_slice()
    }

    /// The states, in file order.
    pub fn states(&self) -> &States
        ensures same { result.now ≡ self.now.states }
        ensures kept { IsSrdf self.now }
    {
        &self.states
    }

    /// The virtual joints, in file order.
    pub fn virtuals(&self) -> &Virtuals
        ensures same { result.now ≡ self.now.virtuals }
        ensures kept { IsSrdf self.now }
    {
        &self.virtuals
    }
}
