// The groups, states and virtual joints of a file, in the order in which its elements stand.
ghost use Rattle.std.specs.Prelude.{◌≡◌, ◌≢◌, codes, IfOk, IsOk, Err};
ghost use Rattle.std.specs.List.{list_all};
ghost use Rattle.rb_tags.specs.Elements.{elements_inside, as_element};
ghost use Rattle.rb_result.specs.Steps.{placed, Gives};
ghost use Rattle.rb_srdf.specs.declared.faults.SrdfFaultKind.TheVariants.{Memory};
ghost use Rattle.rb_srdf.specs.Faults.{no_memory, fault_at};
ghost use Rattle.rb_srdf.specs.Parts.{no_parts, parts_with, parts_after, is_known, names_known, groups_inside, is_settled, all_settled};
ghost use Rattle.rb_srdf.specs.PartNames.{AreNamed};
ghost use Rattle.rb_srdf.specs.Srdf.{names_of_groups};

use crate::faults::{SrdfFault, SrdfFaultKind, fault};
use crate::read_groups::read_group;
use crate::read_states::read_state;
use crate::read_virtuals::read_virtual;
use crate::srdf::{Groups, States, Virtuals};
use crate::state_names::StateNames;
use rb_tags::{ElementRef, Names, Tag, is_child, is_inside};
use std::alloc::Global;

/// Groups, states and virtual joints, in file order.
#[derive(Drop)]
pub struct Parts {
    pub groups: Groups,
    pub states: States,
    pub virtuals: Virtuals,
}

impl Parts {
    /// None.
    fn new(alloc: Global) -> Self
        ensures { result ≡ no_parts }
    {
        Parts {
            groups: Groups::new(alloc),
            states: States::new(alloc),
            virtuals: Virtuals::new(alloc),
        }
    }
}

/// The names of groups, states and virtual joints.
#[derive(Drop)]
pub struct PartNames<'a> {
    pub groups: Names<'a>,
    pub states: StateNames<'a>,
    pub virtuals: Names<'a>,
}

impl<'a> PartNames<'a> {
    /// None.
    pub fn new(alloc: Global) -> Self
        ensures { AreNamed result no_parts }
    {
        PartNames {
            groups: Names::new(alloc),
            states: StateNames::new(alloc),
            virtuals: Names::new(alloc),
        }
    }
}

/// Puts the part of an element behind others, if it is one that counts.
#[tactic(auto, unfolding(crate::specs::Parts::parts_with))]
fn read_part<'a>(
    alloc: Global,
    names: &mut PartNames<'a>,
    parts: &mut Parts,
    element: ElementRef<'a>,
) -> Result<(), SrdfFaultKind>
    requires { AreNamed names.old parts.old }
    ensures gives { Gives Memory (λ _. parts.new) result (parts_with parts.old (as_element element.entry)) }
    ensures named { IfOk result (λ _. AreNamed names.new parts.new) }
    ensures memory { result ≡ Err Memory → IsOk (parts_with parts.old (as_element element.entry)) }
{
    let kind = element.tag.name.as_str();
    if kind == "group" {
        let group = read_group(alloc, &mut names.groups, element)?;
        parts.groups.push(group)?;
    } else if kind == "group_state" {
        let state = read_state(alloc, &mut names.states, element)?;
        parts.states.push(state)?;
    } else if kind == "virtual_joint" {
        let joint = read_virtual(alloc, &mut names.virtuals, element)?;
        parts.virtuals.push(joint)?;
    }
    Ok(())
}

/// The same, where a fault has the place of the element.
#[tactic(auto)]
fn put_part<'a>(
    alloc: Global,
    names: &mut PartNames<'a>,
    parts: &mut Parts,
    element: ElementRef<'a>,
) -> Result<(), SrdfFault>
    requires { AreNamed names.old parts.old }
    ensures gives { Gives no_memory (λ _. parts.new) result (placed fault_at element.entry.tag.now.place (parts_with parts.old (as_element element.entry))) }
    ensures named { IfOk result (λ _. AreNamed names.new parts.new) }
    ensures memory { result ≡ Err no_memory → IsOk (parts_with parts.old (as_element element.entry)) }
{
    match read_part(alloc, names, parts, element) {
        Ok(()) => Ok(()),
        Err(kind) => Err(fault(kind, element.tag.place)),
    }
}

/// The parts among the tags behind the outermost one.
pub(crate) fn read_parts<'a>(
    alloc: Global,
    names: &mut PartNames<'a>,
    tags: &'a [Tag],
) -> Result<Parts, SrdfFault>
    requires { AreNamed names.old no_parts }
    ensures gives { Gives no_memory (λ parts. parts) result (parts_after no_parts (elements_inside 1 tags.now)) }
    ensures named { IfOk result (λ parts. AreNamed names.new parts) }
{
    let mut parts = Parts::new(alloc);
    let mut rest = tags;
    while let [tag, behind @ ..] = rest {
        if is_inside(1, tag) {
            put_part(alloc, names, &mut parts, ElementRef::new(tag, behind))?;
        }
        rest = behind;
    }
    Ok(parts)
}

/// Whether an attribute of an element names one of these groups.
fn names_known(groups: &Names<'_>, key: &str, element: ElementRef<'_>) -> bool
    ensures { result ≡ names_known groups.now key.now (as_element element.entry) }
{
    match element.attribute(key) {
        Some(name) => groups.has(name),
        None => false,
    }
}

/// Whether each group that a group names is one of these.
fn items_known(groups: &Names<'_>, element: ElementRef<'_>) -> bool
    ensures { result ≡ list_all (names_known groups.now (codes "name")) (groups_inside (as_element element.entry)) }
{
    let mut rest = element.inside;
    while let [tag, behind @ ..] = rest {
        if is_child("group", element.tag.depth, tag)
            && !names_known(groups, "name", ElementRef::new(tag, behind))
        {
            return false;
        }
        rest = behind;
    }
    true
}

/// Whether each group that an element names is one of these.
#[tactic(auto, unfolding(crate::specs::Parts::is_settled))]
fn is_settled(groups: &Names<'_>, element: ElementRef<'_>) -> bool
    ensures { result ≡ is_settled groups.now (as_element element.entry) }
{
    let kind = element.tag.name.as_str();
    if kind == "group" {
        items_known(groups, element)
    } else if kind == "group_state" {
        names_known(groups, "group", element)
    } else {
        true
    }
}

/// Whether the groups that the elements behind the outermost tag name are among these.
pub(crate) fn check_settled(groups: &Names<'_>, tags: &[Tag]) -> Result<(), SrdfFault>
    ensures exact { result ≡ all_settled groups.now (elements_inside 1 tags.now) }
    ensures takes_no_memory { result ≢ Err no_memory }
{
    let mut rest = tags;
    while let [tag, behind @ ..] = rest {
        if is_inside(1, tag) && !is_settled(groups, ElementRef::new(tag, behind)) {
            return Err(fault(SrdfFaultKind::UnknownName, tag.place));
        }
        rest = behind;
    }
    Ok(())
}
