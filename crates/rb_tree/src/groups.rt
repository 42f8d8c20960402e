// The bodies of the groups of a robot.
ghost use Rattle.std.specs.Prelude.{◌≡◌, ◌⊎◌, ◌↔◌, ◌<◌, ◌≤◌, ℕ, Some, IsTrue, IfOk, IfErr, length, take, slice_get, map};
ghost use Rattle.std.specs.List.{AllByRecursion, Any, Contains};
ghost use Rattle.rb_tags.specs.declared.tag.TheConstants.{MAX_TAGS};
ghost use Rattle.rb_tags.specs.Names.{AreDifferent};
ghost use Rattle.rb_srdf.specs.declared.srdf.GroupItem.TheVariants as Item;
ghost use Rattle.rb_srdf.specs.Groups.{Holds};
ghost use Rattle.rb_srdf.specs.Srdf.{names_of_groups as names_of_groups_in};
ghost use Rattle.rb_tree.specs.Robot.{AreBodies, IsGroupKept};
ghost use Rattle.rb_tree.specs.declared.faults.WhichFile.TheVariants as File;
ghost use Rattle.rb_tree.specs.Faults.{no_memory};
ghost use Rattle.rb_tree.specs.Groups.{is_virtual as is_virtual_in, IsAtOrAbove, IsBelow, IsInChain, IsUnknown, IsBroken, IsBadChain, IsGroupRight, IsGroupRefused, AreGroupsOf, HasGroupFault, GroupGives, ItemGives};
ghost use Rattle.rb_tree.specs.GroupMarks.{IsMarked, Adds, AreMarked, AreBodiesOf, HasBodies, NamesGroup, ItemGivesAll};

use crate::bearers::{body_of_joint, body_of_link, names_of_virtuals};
use crate::faults::{TreeFault, TreeKind, WhichFile};
use crate::robot::Body;
use crate::sizes::MAX_LINKS;
use rb_srdf::{Group, GroupItem, Srdf};
use rb_tags::{Names, Text};
use std::alloc::{AllocError, Global};
use std::marker::Model;

/// Numbers of bodies, in ascending order.
#[derive(Debug, Drop)]
pub struct BodyNumbers {
    pub(crate) numbers: Vec<u32>,
}

impl Model for BodyNumbers {
    ghost use Rattle.std.specs.Prelude.{List, ℕ};

    ghost Value = { List ℕ };

    ghost view = { λ b. b.numbers.items };
}

impl BodyNumbers {
    /// The numbers, in ascending order.
    pub fn as_slice(&self) -> &[u32]
        ensures { result.now ≡ self.now }
    {
        self.numbers.as_slice()
    }
}

/// A group of bodies: its name, and the numbers of its bodies in ascending order.
#[derive(Debug, Drop)]
pub struct BodyGroup {
    pub name: Text,
    pub bodies: BodyNumbers,
}

/// A mark for the world and one for each body of a robot.
const MARKS: usize = MAX_LINKS + 1;

/// The bodies of a robot and the groups and virtual joints of a file, with the names of these.
#[derive(Drop)]
struct Scope<'a> {
    bodies: &'a [Body],
    srdf: &'a Srdf,
    virtuals: Names<'a>,
    groups: Names<'a>,
}

impl<'a> Model for Scope<'a> {
    ghost use Rattle.rb_tree.specs.GroupMarks.{Scope as Known, IsScope};

    ghost Value = { Known };

    ghost view = { λ s. record { bodies = s.bodies.now; srdf = s.srdf.now } };

    ghost invariant = { λ s. IsScope (record { bodies = s.bodies.now; srdf = s.srdf.now }) s.virtuals s.groups };
}

/// Whether a body is another, or above it.
fn is_above(bodies: &[Body], above: u32, body: u32) -> bool
    requires bodies { AreBodies bodies.now }
    requires there { body ≤ length bodies.now }
    ensures { IsTrue result ↔ IsAtOrAbove bodies.now above body }
{
    let mut body = body;
    while above < body {
        body = bodies[body as usize - 1].parent;
    }
    body == above
}

/// Whether the base of a chain is neither its tip nor above it.
fn is_broken(bodies: &[Body], base: &str, tip: &str) -> bool
    requires { AreBodies bodies.now }
    ensures { IsTrue result ↔ IsBroken bodies.now base.now tip.now }
{
    match (body_of_link(bodies, base), body_of_link(bodies, tip)) {
        (Some(base), Some(tip)) => !is_above(bodies, base, tip),
        _ => false,
    }
}

/// Whether an item is a chain that does not go down.
fn is_bad_chain(bodies: &[Body], item: &GroupItem) -> bool
    requires { AreBodies bodies.now }
    ensures { IsTrue result ↔ IsBadChain bodies.now item.now }
{
    match item {
        GroupItem::Chain(base, tip) => is_broken(bodies, base.as_str(), tip.as_str()),
        GroupItem::Link(_) | GroupItem::Joint(_) | GroupItem::Group(_) => false,
    }
}

/// The names of groups.
fn names_of_groups(alloc: Global, groups: &[Group]) -> Result<Names<'_>, AllocError>
    requires { AreDifferent (names_of_groups_in groups.now) }
    ensures { IfOk result (λ names. names ≡ names_of_groups_in groups.now) }
{
    let mut names = Names::new(alloc);
    for group in groups {
        names.add(group.name.as_str())?;
    }
    Ok(names)
}

/// Marks a body, where there is one.
fn mark_body(body: Option<u32>, marks: &mut [bool])
    requires { (i : ℕ) → body ≡ Some i → i < length marks.old }
    ensures { Adds (λ i. body ≡ Some i) marks.old marks.new }
{
    if let Some(body) = body {
        marks[body as usize] = true;
    }
}

/// Marks the bodies of a list.
fn mark_list(numbers: &[u32], marks: &mut [bool])
    requires { (i : ℕ) → Contains numbers.now i → i < length marks.old }
    ensures { Adds (Contains numbers.now) marks.old marks.new }
{
    for number in numbers {
        marks[*number as usize] = true;
    }
}

/// Marks the bodies below the base of a chain, down to its tip.
fn mark_chain(bodies: &[Body], base: u32, tip: u32, marks: &mut [bool])
    requires bodies { AreBodies bodies.now }
    requires base { 1 ≤ base }
    requires tip { tip ≤ length bodies.now }
    requires down { IsAtOrAbove bodies.now base tip }
    requires room { length bodies.now < length marks.old }
    ensures { Adds (λ i. IsBelow bodies.now base i × IsAtOrAbove bodies.now i tip) marks.old marks.new }
{
    let mut body = tip;
    while base < body {
        marks[body as usize] = true;
        body = bodies[body as usize - 1].parent;
    }
}

/// The numbers that are marked, in ascending order.
fn numbers_of(alloc: Global, marks: &[bool]) -> Result<BodyNumbers, AllocError>
    requires { length marks.now ≤ MARKS }
    ensures { IfOk result (λ numbers. AreMarked marks.now numbers) }
{
    let mut numbers = Vec::new(alloc);
    for (number, marked) in marks.iter().enumerate() {
        if *marked {
            numbers.push(number as u32)?;
        }
    }
    Ok(BodyNumbers { numbers })
}

/// The groups with their names, and with no bodies yet.
fn groups_without_bodies(alloc: Global, groups: &[Group]) -> Result<Vec<BodyGroup>, AllocError>
    ensures { IfOk result (λ made. map (λ group. group.name) made.items ≡ names_of_groups_in groups.now) }
{
    let mut made = Vec::new(alloc);
    for group in groups {
        made.push(BodyGroup {
            name: Text::copy(alloc, group.name.as_str())?,
            bodies: BodyNumbers {
                numbers: Vec::new(alloc),
            },
        })?;
    }
    Ok(made)
}

impl<'a> Scope<'a> {
    /// The bodies of a robot and what a file has.
    fn new(alloc: Global, bodies: &'a [Body], srdf: &'a Srdf) -> Result<Self, AllocError>
        requires { AreBodies bodies.now }
        ensures { IfOk result (λ scope. scope ≡ record { bodies = bodies.now; srdf = srdf.now }) }
    {
        let virtuals = names_of_virtuals(alloc, srdf.virtuals().as_slice())?;
        let groups = names_of_groups(alloc, srdf.groups().as_slice())?;
        Ok(Scope {
            bodies,
            srdf,
            virtuals,
            groups,
        })
    }

    /// Whether a virtual joint has the name.
    fn is_virtual(&self, name: &str) -> bool
        ensures { result ≡ is_virtual_in self.now.srdf.virtuals name.now }
    {
        self.virtuals.number_of(name).is_some()
    }

    /// Whether an item names no link, or no joint.
    fn is_unknown(&self, item: &GroupItem) -> bool
        ensures { IsTrue result ↔ IsUnknown self.now.bodies self.now.srdf.virtuals item.now }
    {
        match item {
            GroupItem::Link(name) => body_of_link(self.bodies, name.as_str()).is_none(),
            GroupItem::Joint(name) => {
                body_of_joint(self.bodies, name.as_str()).is_none()
                    && !self.is_virtual(name.as_str())
            }
            GroupItem::Chain(base, tip) => {
                body_of_link(self.bodies, base.as_str()).is_none()
                    || body_of_link(self.bodies, tip.as_str()).is_none()
            }
            GroupItem::Group(_) => false,
        }
    }

    /// Whether an item of a group names no link, or no joint.
    fn has_unknown(&self, group: &Group) -> bool
        ensures { IsTrue result ↔ Any (IsUnknown self.now.bodies self.now.srdf.virtuals) group.now.items }
    {
        group
            .items
            .as_slice()
            .iter()
            .any(|item| self.is_unknown(item))
    }

    /// Whether a chain of a group does not go down.
    fn has_bad_chain(&self, group: &Group) -> bool
        ensures { IsTrue result ↔ Any (IsBadChain self.now.bodies) group.now.items }
    {
        group
            .items
            .as_slice()
            .iter()
            .any(|item| is_bad_chain(self.bodies, item))
    }

    /// Refuses a group with an item that names nothing, or else with a chain that does not go down.
    fn check_group(&self, group: &Group) -> Result<(), TreeFault>
        ensures ok { IfOk result (λ _. IsGroupRight self.now.bodies self.now.srdf.virtuals group.now) }
        ensures err { IfErr result (λ fault. (fault.file ≡ File.Srdf) × (fault.at ≡ group.now.place) × IsGroupRefused self.now.bodies self.now.srdf.virtuals group.now fault.kind) }
    {
        if self.has_unknown(group) {
            return Err(TreeFault::new(WhichFile::Srdf, TreeKind::UnknownName, group.place));
        }
        if self.has_bad_chain(group) {
            return Err(TreeFault::new(WhichFile::Srdf, TreeKind::BadChain, group.place));
        }
        Ok(())
    }

    /// Refuses the first group that is not right.
    fn check_groups(&self) -> Result<(), TreeFault>
        ensures ok { IfOk result (λ _. AllByRecursion (IsGroupRight self.now.bodies self.now.srdf.virtuals) self.now.srdf.groups) }
        ensures err { IfErr result (HasGroupFault self.now.bodies self.now.srdf.virtuals self.now.srdf.groups) }
    {
        for group in self.srdf.groups().as_slice() {
            self.check_group(group)?;
        }
        Ok(())
    }

    /// Marks the bodies of a chain between two links.
    fn mark_links(&self, base: &str, tip: &str, marks: &mut [bool])
        requires room { length self.now.bodies < length marks.old }
        requires down { IsBroken self.now.bodies base.now tip.now → ⊥ }
        ensures { Adds (IsInChain self.now.bodies base.now tip.now) marks.old marks.new }
    {
        if let (Some(base), Some(tip)) = (
            body_of_link(self.bodies, base),
            body_of_link(self.bodies, tip),
        ) {
            mark_chain(self.bodies, base, tip, marks);
        }
    }

    /// Marks the bodies of a group that is named, which has them.
    fn mark_held(&self, made: &[BodyGroup], name: &str, marks: &mut [bool])
        requires room { length self.now.bodies < length marks.old }
        requires count { length made.now ≡ length self.now.srdf.groups }
        requires held { (k : ℕ) → NamesGroup self.now.srdf.groups (Item.Group name.now) k → HasBodies self.now.bodies self.now.srdf.groups made.now k }
        ensures { Adds (ItemGivesAll self.now.bodies self.now.srdf.groups (Item.Group name.now)) marks.old marks.new }
    {
        if let Some(held) = self.groups.number_of(name) {
            let group = &made[held as usize];
            mark_list(group.bodies.as_slice(), marks);
        }
    }

    /// Marks the bodies that an item names, itself or by a group that has its bodies.
    fn mark_item(&self, made: &[BodyGroup], item: &GroupItem, marks: &mut [bool])
        requires room { length self.now.bodies < length marks.old }
        requires down { IsBadChain self.now.bodies item.now → ⊥ }
        requires count { length made.now ≡ length self.now.srdf.groups }
        requires held { (k : ℕ) → NamesGroup self.now.srdf.groups item.now k → HasBodies self.now.bodies self.now.srdf.groups made.now k }
        ensures { Adds (ItemGivesAll self.now.bodies self.now.srdf.groups item.now) marks.old marks.new }
    {
        match item {
            GroupItem::Link(name) => mark_body(body_of_link(self.bodies, name.as_str()), marks),
            GroupItem::Joint(name) => mark_body(body_of_joint(self.bodies, name.as_str()), marks),
            GroupItem::Chain(base, tip) => self.mark_links(base.as_str(), tip.as_str(), marks),
            GroupItem::Group(name) => self.mark_held(made, name.as_str(), marks),
        }
    }

    /// Marks the bodies that items name, themselves or by groups that have their bodies.
    fn mark_items(&self, made: &[BodyGroup], items: &[GroupItem], marks: &mut [bool])
        requires room { length self.now.bodies < length marks.old }
        requires down { AllByRecursion (λ item. IsBadChain self.now.bodies item → ⊥) items.now }
        requires count { length made.now ≡ length self.now.srdf.groups }
        requires held { (k : ℕ) → Any (λ item. NamesGroup self.now.srdf.groups item k) items.now → HasBodies self.now.bodies self.now.srdf.groups made.now k }
        ensures { Adds (λ i. Any (λ item. ItemGivesAll self.now.bodies self.now.srdf.groups item i) items.now) marks.old marks.new }
    {
        for item in items {
            self.mark_item(made, item, marks);
        }
    }

    /// The marks of the bodies of a group, where the groups that it holds have theirs.
    fn marks_of(&self, made: &[BodyGroup], number: u32) -> [bool; MARKS]
        requires right { AllByRecursion (IsGroupRight self.now.bodies self.now.srdf.virtuals) self.now.srdf.groups }
        requires there { number < length self.now.srdf.groups }
        requires count { length made.now ≡ length self.now.srdf.groups }
        requires held { (k : ℕ) → Holds self.now.srdf.groups number k → HasBodies self.now.bodies self.now.srdf.groups made.now k }
        ensures size { length result ≡ MARKS }
        ensures marks { (i : ℕ) → IsMarked result i ↔ GroupGives self.now.bodies self.now.srdf.groups number i }
    {
        let mut marks = [false; MARKS];
        let group = &self.srdf.groups().as_slice()[number as usize];
        self.mark_items(made, group.items.as_slice(), &mut marks);
        marks
    }

    /// The groups with their bodies, in file order.
    fn make_groups(&self, alloc: Global) -> Result<Vec<BodyGroup>, AllocError>
        requires { AllByRecursion (IsGroupRight self.now.bodies self.now.srdf.virtuals) self.now.srdf.groups }
        ensures { IfOk result (λ made. AreGroupsOf self.now.bodies self.now.srdf.virtuals self.now.srdf.groups made.items) }
    {
        let mut made = groups_without_bodies(alloc, self.srdf.groups().as_slice())?;
        for number in self.srdf.holding_order() {
            let marks = self.marks_of(made.as_slice(), *number);
            made[*number as usize].bodies = numbers_of(alloc, &marks)?;
        }
        Ok(made)
    }
}

/// The groups of a file with their bodies, in file order.
pub(crate) fn groups_of(
    alloc: Global,
    bodies: &[Body],
    srdf: &Srdf,
) -> Result<Vec<BodyGroup>, TreeFault>
    requires { AreBodies bodies.now }
    ensures ok { IfOk result (λ groups. AreGroupsOf bodies.now srdf.now.virtuals srdf.now.groups groups.items) }
    ensures kept { IfOk result (λ groups. AllByRecursion (IsGroupKept bodies.now) groups.items) }
    ensures few { IfOk result (λ groups. length groups.items ≤ MAX_TAGS) }
    ensures err { IfErr result (λ fault. (fault ≡ no_memory) ⊎ HasGroupFault bodies.now srdf.now.virtuals srdf.now.groups fault) }
{
    let scope = Scope::new(alloc, bodies, srdf)?;
    scope.check_groups()?;
    Ok(scope.make_groups(alloc)?)
}
