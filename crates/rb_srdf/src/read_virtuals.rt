// The virtual joints of a file, one by one.
ghost use Rattle.std.specs.Prelude.{◌≡◌, ◌≢◌, false, ◌++◌, ◌∷◌, [], IfOk, IsOk, Err};
ghost use Rattle.rb_tags.specs.Elements.{as_element};
ghost use Rattle.rb_result.specs.Steps.{Gives};
ghost use Rattle.rb_srdf.specs.declared.faults.SrdfFaultKind.TheVariants.{Memory};
ghost use Rattle.rb_srdf.specs.Names.{has_name};
ghost use Rattle.rb_srdf.specs.ReadVirtuals.{kind_named, kind_of, virtual_of, as_virtual};

use crate::faults::SrdfFaultKind;
use crate::names::{name_in, new_name};
use crate::srdf::Virtual;
use rb_tags::{ElementRef, Names, RootKind, Text};
use std::alloc::Global;

/// A virtual joint, in the words of a file.
#[derive(Clone, Copy)]
pub struct VirtualRef<'a> {
    pub name: &'a str,
    pub place: u64,
    pub kind: RootKind,
    pub child: &'a str,
}

/// The kind of a type's name.
#[tactic(auto, unfolding(crate::specs::ReadVirtuals::kind_named))]
fn kind_named(text: &str) -> Option<RootKind>
    ensures { result ≡ kind_named text.now }
{
    if text == "fixed" {
        Some(RootKind::Fixed)
    } else if text == "floating" {
        Some(RootKind::Floating)
    } else if text == "planar" {
        Some(RootKind::Planar)
    } else {
        None
    }
}

/// The kind of a virtual joint.
#[tactic(auto, unfolding(crate::specs::ReadVirtuals::kind_of))]
fn kind_of(element: ElementRef<'_>) -> Result<RootKind, SrdfFaultKind>
    ensures exact { result ≡ kind_of (as_element element.entry) }
    ensures takes_no_memory { result ≢ Err Memory }
{
    let Some(text) = element.attribute("type") else {
        return Err(SrdfFaultKind::BadType);
    };
    match kind_named(text) {
        Some(kind) => Ok(kind),
        None => Err(SrdfFaultKind::BadType),
    }
}

/// The virtual joint of an element behind others of these names.
#[tactic(auto, unfolding(crate::specs::ReadVirtuals::virtual_of))]
fn virtual_of<'a>(
    names: &Names<'_>,
    element: ElementRef<'a>,
) -> Result<VirtualRef<'a>, SrdfFaultKind>
    ensures gives { Gives Memory as_virtual result (virtual_of names.now (as_element element.entry)) }
    ensures takes_no_memory { result ≢ Err Memory }
    ensures new { IfOk result (λ virtual. has_name names.now virtual.name.now ≡ false) }
{
    let name = name_in("name", element)?;
    let child = name_in("child_link", element)?;
    new_name(names, name)?;
    let kind = kind_of(element)?;
    Ok(VirtualRef {
        name,
        place: element.tag.place,
        kind,
        child,
    })
}

/// The virtual joint of an element, whose name is put behind those of a set.
#[tactic(auto)]
pub(crate) fn read_virtual<'a>(
    alloc: Global,
    names: &mut Names<'a>,
    element: ElementRef<'a>,
) -> Result<Virtual, SrdfFaultKind>
    ensures gives { Gives Memory (λ virtual. virtual) result (virtual_of names.old (as_element element.entry)) }
    ensures names { IfOk result (λ virtual. names.new ≡ names.old ++ virtual.name ∷ []) }
    ensures memory { result ≡ Err Memory → IsOk (virtual_of names.old (as_element element.entry)) }
{
    let virtual_joint = virtual_of(names, element)?;
    names.add(virtual_joint.name)?;
    Ok(Virtual {
        name: Text::copy(alloc, virtual_joint.name)?,
        place: virtual_joint.place,
        kind: virtual_joint.kind,
        child: Text::copy(alloc, virtual_joint.child)?,
    })
}
