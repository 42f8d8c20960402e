// The joints of a robot, whose mimics still name the joint that they follow.
ghost use Rattle.std.specs.Prelude.{◌≡◌, ◌≤◌, ◌^◌, ◌++◌, ◌∷◌, [], codes, length, IfOk, IsOk, Ok, Err, not, ◌&&◌, if◌then◌else◌, option_map, option_copied};
ghost use Rattle.rb_tags.specs.Elements.{elements, as_element};
ghost use Rattle.rb_urdf.specs.Names.{name_after};
ghost use Rattle.rb_urdf.specs.Joints.{kind_named, kind_of, end_of, ends_of, axis_of, follow_in, follow_of, is_exactly, is_plane_axis, is_planar, draft_of, drafts_after, names_of_drafts};
ghost use Rattle.rb_result.specs.Steps.{Gives};
ghost use Rattle.rb_urdf.specs.declared.faults.UrdfFaultKind.TheVariants.{Memory, PlanarAxis};
ghost use Rattle.rb_urdf.specs.Faults.{no_memory};

use crate::faults::{UrdfFault, UrdfFaultKind, fault};
use crate::names::take_name;
use crate::numbers::{ZEROS, number_or, origin_of, three_or};
use crate::robot::{UrdfJoint, UrdfKind};
use rb_num::{Iv, S};
use rb_tags::{ElementRef, Names, Tag, Text, attribute_in, is_child};
use std::alloc::Global;

/// The axis of a joint that names none, but for a planar one.
const FIRST_AXIS: [Iv; 3] = [Iv::ONE, Iv::ZERO, Iv::ZERO];

/// The axis of a planar joint.
const PLANE_AXIS: [Iv; 3] = [Iv::ZERO, Iv::ZERO, Iv::ONE];

/// The numbers of the links that a joint stands between.
#[derive(Clone, Copy)]
pub struct Ends {
    pub parent: u32,
    pub child: u32,
}

/// That a joint follows another: the name of that joint, the multiplier and the offset.
#[derive(Drop)]
pub struct Follow {
    pub master: Option<Text>,
    pub multiplier: Iv,
    pub offset: Iv,
}

/// A joint, and the joint that it is to follow.
#[derive(Drop)]
pub struct Draft {
    pub joint: UrdfJoint,
    pub follow: Option<Follow>,
}

/// The kind of a type's name.
#[tactic(auto, unfolding(crate::specs::Joints::kind_named))]
fn kind_named(text: &str) -> Option<UrdfKind>
    ensures { result ≡ kind_named text.now }
{
    if text == "revolute" {
        Some(UrdfKind::Revolute)
    } else if text == "continuous" {
        Some(UrdfKind::Continuous)
    } else if text == "prismatic" {
        Some(UrdfKind::Prismatic)
    } else if text == "fixed" {
        Some(UrdfKind::Fixed)
    } else if text == "floating" {
        Some(UrdfKind::Floating)
    } else if text == "planar" {
        Some(UrdfKind::Planar)
    } else {
        None
    }
}

/// The kind of a joint.
#[tactic(auto, unfolding(crate::specs::Joints::kind_of))]
fn kind_of(element: ElementRef<'_>) -> Result<UrdfKind, UrdfFaultKind>
    ensures { result ≡ kind_of (as_element element.entry) }
{
    let Some(text) = element.attribute("type") else {
        return Err(UrdfFaultKind::BadType);
    };
    match kind_named(text) {
        Some(kind) => Ok(kind),
        None => Err(UrdfFaultKind::BadType),
    }
}

/// The name of the link that the element `parent` or `child` has.
fn end_of<'a>(name: &str, element: ElementRef<'a>) -> Option<&'a str>
    ensures { option_copied result ≡ end_of name.now (as_element element.entry) }
{
    attribute_in("link", element.child(name))
}

/// The numbers of the parent and the child.
#[tactic(auto, unfolding(crate::specs::Joints::ends_of))]
fn ends_of(links: &Names<'_>, element: ElementRef<'_>) -> Result<Ends, UrdfFaultKind>
    requires { length links.now ≤ 2 ^ 32 }
    ensures { result ≡ ends_of links.now (as_element element.entry) }
{
    let Some(parent) = end_of("parent", element) else {
        return Err(UrdfFaultKind::NoParent);
    };
    let Some(child) = end_of("child", element) else {
        return Err(UrdfFaultKind::NoChild);
    };
    let Some(parent) = links.number_of(parent) else {
        return Err(UrdfFaultKind::UnknownLink);
    };
    let Some(child) = links.number_of(child) else {
        return Err(UrdfFaultKind::UnknownLink);
    };
    Ok(Ends { parent, child })
}

/// The axis of a joint of a kind, which a fixed or floating joint has none of.
#[tactic(auto, unfolding(crate::specs::Joints::axis_of))]
fn axis_of(kind: UrdfKind, element: ElementRef<'_>) -> Result<[Iv; 3], UrdfFaultKind>
    ensures { result ≡ axis_of kind (as_element element.entry) }
{
    match kind {
        UrdfKind::Fixed | UrdfKind::Floating => Ok(ZEROS),
        UrdfKind::Planar => three_or(PLANE_AXIS, "xyz", element.child("axis")),
        UrdfKind::Revolute | UrdfKind::Prismatic | UrdfKind::Continuous => {
            three_or(FIRST_AXIS, "xyz", element.child("axis"))
        }
    }
}

/// A copy of a text that may be missing.
fn copy_of(alloc: Global, text: Option<&str>) -> Result<Option<Text>, UrdfFaultKind>
    ensures { Gives Memory (λ copy. copy) result (Ok (option_copied text.entry)) }
{
    match text {
        Some(text) => Ok(Some(Text::copy(alloc, text)?)),
        None => Ok(None),
    }
}

/// What the element `mimic` says.
#[tactic(auto, unfolding(crate::specs::Joints::follow_in))]
fn follow_in(alloc: Global, mimic: ElementRef<'_>) -> Result<Follow, UrdfFaultKind>
    ensures gives { Gives Memory (λ follow. follow) result (follow_in (as_element mimic.entry)) }
    ensures memory { result ≡ Err Memory → IsOk (follow_in (as_element mimic.entry)) }
{
    let multiplier = number_or(Iv::ONE, "multiplier", Some(mimic))?;
    let offset = number_or(Iv::ZERO, "offset", Some(mimic))?;
    Ok(Follow {
        master: copy_of(alloc, mimic.attribute("joint"))?,
        multiplier,
        offset,
    })
}

/// What the element `mimic` says, where there is one.
#[tactic(auto, unfolding(crate::specs::Joints::follow_of))]
fn follow_of(alloc: Global, mimic: Option<ElementRef<'_>>) -> Result<Option<Follow>, UrdfFaultKind>
    ensures gives { Gives Memory (λ follow. follow) result (follow_of (option_map as_element mimic.entry)) }
    ensures memory { result ≡ Err Memory → IsOk (follow_of (option_map as_element mimic.entry)) }
{
    match mimic {
        Some(mimic) => Ok(Some(follow_in(alloc, mimic)?)),
        None => Ok(None),
    }
}

/// Whether both ends are so many units.
fn is_exactly(units: i128, v: Iv) -> bool
    ensures { result ≡ is_exactly units v }
{
    v.lo() == units && v.hi() == units
}

/// Whether an axis is exactly 0 0 1.
#[tactic(auto, unfolding(crate::specs::Joints::is_plane_axis))]
fn is_plane_axis(axis: [Iv; 3]) -> bool
    ensures { result ≡ is_plane_axis axis }
{
    let [x, y, z] = axis;
    is_exactly(0, x) && is_exactly(0, y) && is_exactly(S, z)
}

/// Whether a joint of a kind may have an axis: that of a planar one is exactly 0 0 1.
fn check_axis(kind: UrdfKind, axis: [Iv; 3]) -> Result<(), UrdfFaultKind>
    ensures { result ≡ (if is_planar kind && not (is_plane_axis axis) then Err PlanarAxis else Ok tt) }
{
    if kind == UrdfKind::Planar && !is_plane_axis(axis) {
        return Err(UrdfFaultKind::PlanarAxis);
    }
    Ok(())
}

/// The joint of an element, whose name is put behind those of a set.
#[tactic(auto, unfolding(crate::specs::Joints::draft_of))]
fn draft_of<'a>(
    alloc: Global,
    links: &Names<'_>,
    names: &mut Names<'a>,
    element: ElementRef<'a>,
) -> Result<Draft, UrdfFaultKind>
    requires { length links.now ≤ 2 ^ 32 }
    ensures gives { Gives Memory (λ draft. draft) result (draft_of links.now names.old (as_element element.entry)) }
    ensures names { IfOk result (λ draft. names.new ≡ names.old ++ draft.joint.name ∷ []) }
    ensures memory { result ≡ Err Memory → IsOk (name_after names.old (as_element element.entry)) }
{
    let name = take_name(names, element)?;
    let kind = kind_of(element)?;
    let ends = ends_of(links, element)?;
    let origin = origin_of(element.child("origin"))?;
    let axis = axis_of(kind, element)?;
    let follow = follow_of(alloc, element.child("mimic"))?;
    check_axis(kind, axis)?;
    let joint = UrdfJoint {
        name: Text::copy(alloc, name)?,
        place: element.tag.place,
        kind,
        parent: ends.parent,
        child: ends.child,
        xyz: origin.xyz,
        rpy: origin.rpy,
        axis,
        mimic: None,
    };
    Ok(Draft { joint, follow })
}

/// The joints among the tags behind the outermost one. Their names are put into an empty set.
pub fn read_drafts<'a>(
    alloc: Global,
    links: &Names<'_>,
    names: &mut Names<'a>,
    tags: &'a [Tag],
) -> Result<Vec<Draft>, UrdfFault>
    requires links { length links.now ≤ 2 ^ 32 }
    requires none { names.old ≡ [] }
    ensures gives { Gives no_memory (λ drafts. drafts.items) result (drafts_after links.now [] (elements (codes "joint") 1 tags.now)) }
    ensures names { IfOk result (λ drafts. names.new ≡ names_of_drafts drafts.items) }
    ensures few { IfOk result (λ drafts. length drafts.items ≤ length tags.now) }
{
    let mut drafts = Vec::new(alloc);
    let mut rest = tags;
    while let [tag, behind @ ..] = rest {
        if is_child("joint", 1, tag) {
            match draft_of(alloc, links, names, ElementRef::new(tag, behind)) {
                Ok(draft) => drafts.push(draft)?,
                Err(kind) => return Err(fault(kind, tag.place)),
            }
        }
        rest = behind;
    }
    Ok(drafts)
}
