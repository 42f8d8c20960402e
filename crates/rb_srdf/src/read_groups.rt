// The groups of a file, one by one.
ghost use Rattle.std.specs.Prelude.{◌≡◌, ◌≢◌, false, ◌++◌, ◌∷◌, [], IfOk, IsOk, Err, option_map};
ghost use Rattle.rb_tags.specs.Elements.{as_element};
ghost use Rattle.rb_result.specs.Steps.{Gives};
ghost use Rattle.rb_srdf.specs.declared.faults.SrdfFaultKind.TheVariants.{Memory};
ghost use Rattle.rb_srdf.specs.Names.{has_name, checked};
ghost use Rattle.rb_srdf.specs.ReadGroups.{chain_in, named_item, item_in, items_of, group_of, name_of_group, as_item};

use crate::faults::SrdfFaultKind;
use crate::names::{name_in, new_name};
use crate::srdf::{Group, GroupItem, Items};
use rb_tags::{ElementRef, Names, Text, is_inside};
use std::alloc::{AllocError, Global};

/// What a group names, in the words of a file.
#[derive(Clone, Copy)]
pub enum ItemRef<'a> {
    Link(&'a str),
    Joint(&'a str),
    Chain(&'a str, &'a str),
    Group(&'a str),
}

/// The names that a chain goes from and to.
#[tactic(auto, unfolding(crate::specs::ReadGroups::chain_in))]
fn chain_in(element: ElementRef<'_>) -> Result<ItemRef<'_>, SrdfFaultKind>
    ensures gives { Gives Memory as_item result (chain_in (as_element element.entry)) }
    ensures takes_no_memory { result ≢ Err Memory }
{
    let base = name_in("base_link", element)?;
    let tip = name_in("tip_link", element)?;
    Ok(ItemRef::Chain(base, tip))
}

/// What an element inside a group names, if it is one that counts.
#[tactic(auto, unfolding(crate::specs::ReadGroups::item_in, crate::specs::ReadGroups::named_item))]
fn item_in(element: ElementRef<'_>) -> Result<Option<ItemRef<'_>>, SrdfFaultKind>
    ensures gives { Gives Memory (option_map as_item) result (item_in (as_element element.entry)) }
    ensures takes_no_memory { result ≢ Err Memory }
{
    let name = element.tag.name.as_str();
    if name == "link" {
        Ok(Some(ItemRef::Link(name_in("name", element)?)))
    } else if name == "joint" {
        Ok(Some(ItemRef::Joint(name_in("name", element)?)))
    } else if name == "chain" {
        Ok(Some(chain_in(element)?))
    } else if name == "group" {
        Ok(Some(ItemRef::Group(name_in("name", element)?)))
    } else {
        Ok(None)
    }
}

/// An item of its own.
fn copy_of(alloc: Global, item: ItemRef<'_>) -> Result<GroupItem, AllocError>
    ensures { IfOk result (λ copy. copy ≡ as_item item.entry) }
{
    match item {
        ItemRef::Link(name) => Ok(GroupItem::Link(Text::copy(alloc, name)?)),
        ItemRef::Joint(name) => Ok(GroupItem::Joint(Text::copy(alloc, name)?)),
        ItemRef::Chain(base, tip) => {
            let base = Text::copy(alloc, base)?;
            let tip = Text::copy(alloc, tip)?;
            Ok(GroupItem::Chain(base, tip))
        }
        ItemRef::Group(name) => Ok(GroupItem::Group(Text::copy(alloc, name)?)),
    }
}

/// Whether what a group names can be read.
fn check_items(element: ElementRef<'_>) -> Result<(), SrdfFaultKind>
    ensures exact { result ≡ checked (items_of (as_element element.entry)) }
    ensures takes_no_memory { result ≢ Err Memory }
{
    let mut rest = element.inside;
    while let [tag, behind @ ..] = rest {
        if is_inside(element.tag.depth, tag) {
            let _ = item_in(ElementRef::new(tag, behind))?;
        }
        rest = behind;
    }
    Ok(())
}

/// What a group names.
fn read_items(alloc: Global, element: ElementRef<'_>) -> Result<Items, SrdfFaultKind>
    ensures { Gives Memory (λ items. items) result (items_of (as_element element.entry)) }
{
    let mut items = Vec::new(alloc);
    let mut rest = element.inside;
    while let [tag, behind @ ..] = rest {
        if is_inside(element.tag.depth, tag) {
            if let Some(item) = item_in(ElementRef::new(tag, behind))? {
                items.push(copy_of(alloc, item)?)?;
            }
        }
        rest = behind;
    }
    Ok(Items { items })
}

/// The name of a group that can be read.
#[tactic(auto, unfolding(crate::specs::ReadGroups::group_of))]
fn check_group<'a>(names: &Names<'_>, element: ElementRef<'a>) -> Result<&'a str, SrdfFaultKind>
    ensures gives { Gives Memory (λ name. name.now) result (name_of_group (group_of names.now (as_element element.entry))) }
    ensures takes_no_memory { result ≢ Err Memory }
    ensures new { IfOk result (λ name. has_name names.now name.now ≡ false) }
{
    let name = name_in("name", element)?;
    check_items(element)?;
    new_name(names, name)?;
    Ok(name)
}

/// The group of an element, whose name is put behind those of a set.
#[tactic(auto, unfolding(crate::specs::ReadGroups::group_of))]
pub(crate) fn read_group<'a>(
    alloc: Global,
    names: &mut Names<'a>,
    element: ElementRef<'a>,
) -> Result<Group, SrdfFaultKind>
    ensures gives { Gives Memory (λ group. group) result (group_of names.old (as_element element.entry)) }
    ensures names { IfOk result (λ group. names.new ≡ names.old ++ group.name ∷ []) }
    ensures memory { result ≡ Err Memory → IsOk (group_of names.old (as_element element.entry)) }
{
    let name = check_group(names, element)?;
    names.add(name)?;
    Ok(Group {
        name: Text::copy(alloc, name)?,
        place: element.tag.place,
        items: read_items(alloc, element)?,
    })
}
