//! The groups, states and virtual joints of a file of semantics, and its first fault.
use crate::wholes::whole;
use rb_num::Iv;
use rb_srdf::{Group, GroupItem, JointNumbers, Srdf, SrdfFault, SrdfFaultKind, Virtual, read_srdf};
use rb_tags::{RootKind, Text, read_tags};
use std::alloc::Global;

// A file, and the kind and the place of its fault.
const FILES: [(&str, SrdfFaultKind, u64); 3] = [
    ("<!-- --><robots name='r'/>", SrdfFaultKind::NoRobot, 8),
    ("<robot name=''><group/></robot>", SrdfFaultKind::NoName, 0),
    ("<lift><robot name='r'/></lift>", SrdfFaultKind::NoRobot, 0),
];

// What stands in a robot, and the kind and the place of its fault. The first element is at 16.
const ELEMENTS: [(&str, SrdfFaultKind, u64); 12] = [
    ("<group/>", SrdfFaultKind::NoName, 16),
    (
        "<group name='a'><chain tip_link='t'/></group>",
        SrdfFaultKind::NoName,
        16,
    ),
    ("<group_state group='a'/>", SrdfFaultKind::NoName, 16),
    (
        "<virtual_joint type='fixed' child_link='l'/>",
        SrdfFaultKind::NoName,
        16,
    ),
    (
        "<group name='a'/><group_state name='s' group='a'/><group_state name='s' group='a'><joint name='j' value='x'/></group_state>",
        SrdfFaultKind::NameTwice,
        66,
    ),
    (
        "<virtual_joint name='v' type='fixed' child_link='l'/><virtual_joint name='v' type='x' child_link='m'/>",
        SrdfFaultKind::NameTwice,
        69,
    ),
    (
        "<virtual_joint name='v' type='revolute' child_link='l'/>",
        SrdfFaultKind::BadType,
        16,
    ),
    (
        "<group name='a'/><group_state name='s' group='a'><joint name='j'/></group_state>",
        SrdfFaultKind::BadNumber,
        33,
    ),
    (
        "<group name='a'/><group_state name='s' group='a'><joint name='j' value='0 1,5'/></group_state>",
        SrdfFaultKind::BadNumber,
        33,
    ),
    (
        "<group_state name='s' group='x'/>",
        SrdfFaultKind::UnknownName,
        16,
    ),
    (
        "<group name='a'><link name='b'/><joint name='b'/><group name='b'/></group><group name='c'><group name='c'/></group>",
        SrdfFaultKind::UnknownName,
        16,
    ),
    (
        "<group name='a'/><group name='b'><group name='a'/><group name='c'/></group><group name='c'><link name='c'/><group name='b'/></group><group name='d'><group name='d'/></group>",
        SrdfFaultKind::GroupLoop,
        33,
    ),
];

fn is_faulted(alloc: Global, text: &str, kind: SrdfFaultKind, at: u64) -> bool {
    match read_tags(alloc, text.as_bytes()) {
        Ok(tags) => match read_srdf(alloc, &tags) {
            Ok(_) => false,
            Err(fault) => fault == SrdfFault { kind, at },
        },
        Err(_) => false,
    }
}

// Whether a robot of these elements has this fault.
pub(crate) fn is_refused(alloc: Global, elements: &str, kind: SrdfFaultKind, at: u64) -> bool {
    let Ok(text) = format!(in alloc; "<robot name='r'>{elements}</robot>") else {
        return false;
    };
    is_faulted(alloc, text.as_str(), kind, at)
}

#[test]
fn files_are_refused(rt: HostRuntime) {
    for (text, kind, at) in FILES.iter() {
        assert!(rt; is_faulted(rt.alloc(), text, *kind, *at), "in {text}");
    }
}

#[test]
fn elements_are_refused(rt: HostRuntime) {
    for (elements, kind, at) in ELEMENTS.iter() {
        assert!(rt;
            is_refused(rt.alloc(), elements, *kind, *at),
            "in {elements}"
        );
    }
}

const ARM: &str = "<robot name='arm'>
<link/>
<group name='all'>
  <group name='hand'/><x><link name='deep'/></x>
  <chain base_link='base' tip_link='wrist'/><joint name='lift'><link/></joint>
</group>
<group name='hand'><link name='palm'/></group>
<group_state name='home' group='all'>
  <joint name='lift' value='0.5'/><link/><x><joint/></x>
  <joint name='base' value=' 1\t-2\n0.25..0.5 '/>
</group_state>
<group_state name='home' group='hand'/>
<x><group name='hand'/></x>
<virtual_joint name='world' type='planar' parent_frame='' child_link='base'/>
<virtual_joint name='bolt' type='fixed' child_link='palm'/>
<virtual_joint name='home' type='floating' child_link='palm'/>
</robot>";

// The semantics of the arm.
fn arm(alloc: Global) -> Option<Srdf> {
    let Ok(tags) = read_tags(alloc, ARM.as_bytes()) else {
        return None;
    };
    read_srdf(alloc, &tags).ok()
}

fn is_hand(item: &GroupItem) -> bool {
    matches!(item, GroupItem::Group(name) if name.as_str() == "hand")
}

fn is_chain(item: &GroupItem) -> bool {
    matches!(item, GroupItem::Chain(base, tip) if base.as_str() == "base" && tip.as_str() == "wrist")
}

fn is_lift(item: &GroupItem) -> bool {
    matches!(item, GroupItem::Joint(name) if name.as_str() == "lift")
}

// Whether this is the group of all of the arm.
fn is_all(group: &Group) -> bool {
    let [first, second, third] = group.items.as_slice() else {
        return false;
    };
    group.name.as_str() == "all"
        && group.place == 27
        && is_hand(first)
        && is_chain(second)
        && is_lift(third)
}

// Whether the palm is all that the group names.
fn has_palm(alloc: Global, group: &Group) -> bool {
    let Ok(name) = Text::copy(alloc, "palm") else {
        return false;
    };
    group.items.as_slice() == [GroupItem::Link(name)].as_slice()
}

fn has_groups(alloc: Global, srdf: &Srdf) -> bool {
    let [all, hand] = srdf.groups().as_slice() else {
        return false;
    };
    is_all(all) && has_palm(alloc, hand) && srdf.holding_order() == [1, 0].as_slice()
}

fn is_named(srdf: &Srdf) -> bool {
    srdf.name() == "arm" && srdf.place() == 0
}

#[test]
fn groups_are_read(rt: HostRuntime) {
    let srdf = arm(rt.alloc());
    assert!(rt; matches!(&srdf, Some(srdf) if is_named(srdf) && has_groups(rt.alloc(), srdf)));
}

fn has_numbers(value: &JointNumbers, name: &str, numbers: &[Iv]) -> bool {
    value.joint.as_str() == name && value.numbers.as_slice() == numbers
}

// Whether the joints of the state at home have their numbers.
fn has_home(values: &[JointNumbers]) -> bool {
    let [lift, base] = values else {
        return false;
    };
    let half = Iv::new(500_000_000_000, 500_000_000_000);
    let range = Iv::new(250_000_000_000, 500_000_000_000);
    has_numbers(lift, "lift", &[half]) && has_numbers(base, "base", &[whole(1), whole(-2), range])
}

fn has_states(srdf: &Srdf) -> bool {
    let [home, hand] = srdf.states().as_slice() else {
        return false;
    };
    home.name.as_str() == "home"
        && home.group.as_str() == "all"
        && has_home(home.values.as_slice())
        && hand.group.as_str() == "hand"
        && hand.values.as_slice().is_empty()
}

#[test]
fn states_are_read(rt: HostRuntime) {
    let srdf = arm(rt.alloc());
    assert!(rt; matches!(&srdf, Some(srdf) if has_states(srdf)));
}

fn is_virtual(joint: &Virtual, name: &str, kind: RootKind, child: &str) -> bool {
    joint.name.as_str() == name && joint.kind == kind && joint.child.as_str() == child
}

fn has_virtuals(srdf: &Srdf) -> bool {
    let [world, bolt, home] = srdf.virtuals().as_slice() else {
        return false;
    };
    is_virtual(world, "world", RootKind::Planar, "base")
        && is_virtual(bolt, "bolt", RootKind::Fixed, "palm")
        && is_virtual(home, "home", RootKind::Floating, "palm")
}

#[test]
fn virtual_joints_are_read(rt: HostRuntime) {
    let srdf = arm(rt.alloc());
    assert!(rt; matches!(&srdf, Some(srdf) if has_virtuals(srdf)));
}
