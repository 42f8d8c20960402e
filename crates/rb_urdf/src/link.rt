// The links of a robot.
ghost use Rattle.std.specs.Prelude.{◌≡◌, ◌≤◌, ◌++◌, ◌∷◌, [], codes, length, IfOk, IsOk, Err, option_map};
ghost use Rattle.rb_tags.specs.Elements.{elements, as_element};
ghost use Rattle.rb_urdf.specs.Names.{name_after};
ghost use Rattle.rb_urdf.specs.Links.{six_of, inertial_of, link_of, links_after};
ghost use Rattle.rb_result.specs.Steps.{Gives};
ghost use Rattle.rb_urdf.specs.declared.faults.UrdfFaultKind.TheVariants.{Memory};
ghost use Rattle.rb_urdf.specs.Faults.{no_memory};
ghost use Rattle.rb_urdf.specs.Robot.{names_of_links};

use crate::faults::{UrdfFault, UrdfFaultKind, fault};
use crate::names::take_name;
use crate::numbers::{Origin, number_or, origin_of};
use crate::robot::UrdfLink;
use rb_num::Iv;
use rb_tags::{ElementRef, Names, Tag, Text, child_in, is_child};
use std::alloc::Global;

/// What the element `inertial` says: the mass in kilograms, the centre of mass and the axes of the inertia, and ixx, ixy, ixz, iyy, iyz,
/// izz in kg m².
#[derive(Clone, Copy)]
pub struct Inertial {
    pub mass: Iv,
    pub origin: Origin,
    pub six: [Iv; 6],
}

/// ixx, ixy, ixz, iyy, iyz and izz.
#[tactic(auto, unfolding(crate::specs::Links::six_of))]
fn six_of(inertia: Option<ElementRef<'_>>) -> Result<[Iv; 6], UrdfFaultKind>
    ensures { result ≡ six_of (option_map as_element inertia.entry) }
{
    let ixx = number_or(Iv::ZERO, "ixx", inertia)?;
    let ixy = number_or(Iv::ZERO, "ixy", inertia)?;
    let ixz = number_or(Iv::ZERO, "ixz", inertia)?;
    let iyy = number_or(Iv::ZERO, "iyy", inertia)?;
    let iyz = number_or(Iv::ZERO, "iyz", inertia)?;
    let izz = number_or(Iv::ZERO, "izz", inertia)?;
    Ok([ixx, ixy, ixz, iyy, iyz, izz])
}

/// What the element `inertial` says.
#[tactic(auto, unfolding(crate::specs::Links::inertial_of))]
fn inertial_of(inertial: Option<ElementRef<'_>>) -> Result<Inertial, UrdfFaultKind>
    ensures { result ≡ inertial_of (option_map as_element inertial.entry) }
{
    let origin = origin_of(child_in("origin", inertial))?;
    let mass = number_or(Iv::ZERO, "value", child_in("mass", inertial))?;
    let six = six_of(child_in("inertia", inertial))?;
    if mass.lo() < 0 {
        return Err(UrdfFaultKind::NegativeMass);
    }
    Ok(Inertial { mass, origin, six })
}

/// The link of an element, whose name is put behind those of a set.
#[tactic(auto, unfolding(crate::specs::Links::link_of))]
fn link_of<'a>(
    alloc: Global,
    names: &mut Names<'a>,
    element: ElementRef<'a>,
) -> Result<UrdfLink, UrdfFaultKind>
    ensures gives { Gives Memory (λ link. link) result (link_of names.old (as_element element.entry)) }
    ensures names { IfOk result (λ link. names.new ≡ names.old ++ link.name ∷ []) }
    ensures memory { result ≡ Err Memory → IsOk (name_after names.old (as_element element.entry)) }
{
    let name = take_name(names, element)?;
    let inertial = inertial_of(element.child("inertial"))?;
    Ok(UrdfLink {
        name: Text::copy(alloc, name)?,
        place: element.tag.place,
        mass: inertial.mass,
        com: inertial.origin.xyz,
        rpy: inertial.origin.rpy,
        six: inertial.six,
    })
}

/// The links among the tags behind the outermost one. Their names are put into an empty set.
pub fn read_links<'a>(
    alloc: Global,
    names: &mut Names<'a>,
    tags: &'a [Tag],
) -> Result<Vec<UrdfLink>, UrdfFault>
    requires { names.old ≡ [] }
    ensures gives { Gives no_memory (λ links. links.items) result (links_after [] (elements (codes "link") 1 tags.now)) }
    ensures names { IfOk result (λ links. names.new ≡ names_of_links links.items) }
    ensures few { IfOk result (λ links. length links.items ≤ length tags.now) }
{
    let mut links = Vec::new(alloc);
    let mut rest = tags;
    while let [tag, behind @ ..] = rest {
        if is_child("link", 1, tag) {
            match link_of(alloc, names, ElementRef::new(tag, behind)) {
                Ok(link) => links.push(link)?,
                Err(kind) => return Err(fault(kind, tag.place)),
            }
        }
        rest = behind;
    }
    Ok(links)
}
