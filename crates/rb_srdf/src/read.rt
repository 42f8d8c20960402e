// The semantics of a list of tags.
ghost use Rattle.std.specs.Prelude.{◌≡◌, ◌≢◌, ◌≤◌, ◌⊎◌, ◌∷◌, [], codes, length, ℕ, Ok, Err, IfOk, IfErr, IsOk};
ghost use Rattle.rb_tags.specs.declared.tag.TheConstants.{MAX_TAGS};
ghost use Rattle.rb_tags.specs.Elements.{element_of, elements_inside};
ghost use Rattle.rb_srdf.specs.Faults.{no_memory};
ghost use Rattle.rb_srdf.specs.Groups.{HoldsItself};
ghost use Rattle.rb_srdf.specs.Loops.{IsHolding, IsLoopFree};
ghost use Rattle.rb_srdf.specs.Names.{name_in};
ghost use Rattle.rb_srdf.specs.Parts.{no_parts, parts_after};
ghost use Rattle.rb_srdf.specs.Read.{semantics_with, semantics_in, semantics_of, robot_of, HasGroupLoop, IsRefused, Answers};
ghost use Rattle.rb_srdf.specs.Srdf.{names_of_groups};

use crate::faults::{SrdfFault, SrdfFaultKind, fault};
use crate::loops::{Holding, holding_order};
use crate::names::name_in;
use crate::parts::{PartNames, Parts, check_settled, read_parts};
use crate::srdf::{Groups, Srdf};
use rb_tags::{ElementRef, Names, Tag, Tags, Text};
use std::alloc::Global;

/// The order of groups of which none holds itself.
fn order_of(groups: &Groups, holding: Holding) -> Result<Vec<u32>, SrdfFault>
    requires { IsHolding groups.now holding }
    ensures ok { IfOk result (λ order. IsLoopFree groups.now order.items) }
    ensures err { IfErr result (HasGroupLoop groups.now) }
{
    match holding {
        Holding::Order(order) => Ok(order),
        Holding::Loop(number) => {
            let group = &groups.as_slice()[number];
            Err(fault(SrdfFaultKind::GroupLoop, group.place))
        }
    }
}

/// The semantics of parts that were read from the tags behind the outermost one, for a robot of this name.
#[tactic(auto, unfolding(crate::specs::Read::semantics_with))]
fn semantics_from(
    alloc: Global,
    name: &str,
    place: u64,
    names: &Names<'_>,
    parts: Parts,
    tags: &[Tag],
) -> Result<Srdf, SrdfFault>
    requires few { length tags.now ≤ MAX_TAGS }
    requires given { name.now ≢ [] }
    requires names { names.now ≡ names_of_groups parts.groups }
    requires parts { parts_after no_parts (elements_inside 1 tags.now) ≡ Ok parts }
    ensures answers { Answers result (semantics_with name.now place tags.now) }
    ensures memory { result ≡ Err no_memory → IsOk (semantics_with name.now place tags.now) }
{
    check_settled(names, tags)?;
    let holding = holding_order(alloc, names, parts.groups.as_slice())?;
    let order = order_of(&parts.groups, holding)?;
    Ok(Srdf {
        name: Text::copy(alloc, name)?,
        place,
        groups: parts.groups,
        order,
        states: parts.states,
        virtuals: parts.virtuals,
    })
}

/// The semantics of the tags behind the outermost one, for a robot of this name.
#[tactic(auto, unfolding(crate::specs::Read::semantics_with))]
fn semantics_with(alloc: Global, name: &str, place: u64, tags: &[Tag]) -> Result<Srdf, SrdfFault>
    requires few { length tags.now ≤ MAX_TAGS }
    requires given { name.now ≢ [] }
    ensures { Answers result (semantics_with name.now place tags.now) }
{
    let mut names = PartNames::new(alloc);
    let parts = read_parts(alloc, &mut names, tags)?;
    semantics_from(alloc, name, place, &names.groups, parts, tags)
}

/// The semantics of the outermost element, whose tag is before these.
#[tactic(auto, unfolding(crate::specs::Read::semantics_in))]
fn semantics_in(alloc: Global, root: &Tag, tags: &[Tag]) -> Result<Srdf, SrdfFault>
    requires { length tags.now ≤ MAX_TAGS }
    ensures answers { Answers result (semantics_in root.now tags.now) }
    ensures memory { result ≡ Err no_memory → IsOk (name_in (codes "name") (element_of root.now tags.now)) }
{
    match name_in("name", ElementRef::new(root, tags)) {
        Ok(name) => semantics_with(alloc, name, root.place, tags),
        Err(kind) => Err(fault(kind, root.place)),
    }
}

/// The semantics of all tags.
#[tactic(auto, unfolding(crate::specs::Read::semantics_of, crate::specs::Read::robot_of))]
fn semantics_of(alloc: Global, tags: &[Tag]) -> Result<Srdf, SrdfFault>
    requires { length tags.now ≤ MAX_TAGS }
    ensures answers { Answers result (semantics_of tags.now) }
    ensures memory { result ≡ Err no_memory → IsOk (robot_of tags.now) }
{
    let [root, behind @ ..] = tags else {
        return Err(fault(SrdfFaultKind::NoRobot, 0));
    };
    if root.name.as_str() != "robot" {
        return Err(fault(SrdfFaultKind::NoRobot, root.place));
    }
    semantics_in(alloc, root, behind)
}

/// The groups, states and virtual joints that the tags of a file describe, or the first fault. Want of memory is told only where the outermost
/// element is a robot with a name.
pub fn read_srdf(alloc: Global, tags: &Tags) -> Result<Srdf, SrdfFault>
    ensures ok { IfOk result (λ srdf. semantics_of tags.now ≡ Ok srdf) }
    ensures no_loop { IfOk result (λ srdf. (k : ℕ) → ¬ HoldsItself srdf.groups k) }
    ensures err { IfErr result (λ fault. (fault ≡ no_memory) ⊎ IsRefused tags.now fault) }
    ensures memory { result ≡ Err no_memory → IsOk (robot_of tags.now) }
{
    semantics_of(alloc, tags.as_slice())
}
