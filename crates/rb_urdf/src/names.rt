// The names of links and joints.
ghost use Rattle.std.specs.Prelude.{◌≡◌, ◌≢◌, ◌++◌, ◌∷◌, [], IfOk, IsOk, Err};
ghost use Rattle.rb_tags.specs.Elements.{as_element};
ghost use Rattle.rb_result.specs.Steps.{Gives};
ghost use Rattle.rb_urdf.specs.declared.faults.UrdfFaultKind.TheVariants.{Memory};
ghost use Rattle.rb_urdf.specs.Names.{name_of, name_after};

use crate::faults::UrdfFaultKind;
use rb_tags::{ElementRef, Names};

/// The name of an element, which is given.
#[tactic(auto, unfolding(crate::specs::Names::name_of))]
pub fn name_of<'a>(element: ElementRef<'a>) -> Result<&'a str, UrdfFaultKind>
    ensures gives { Gives Memory (λ name. name.now) result (name_of (as_element element.entry)) }
    ensures takes_no_memory { result ≢ Err Memory }
{
    match element.given("name") {
        Some(name) => Ok(name),
        None => Err(UrdfFaultKind::NoName),
    }
}

/// Adds the name of an element behind others, which do not have it.
#[tactic(auto, unfolding(crate::specs::Names::name_after, crate::specs::Names::new_name))]
pub fn take_name<'a>(
    names: &mut Names<'a>,
    element: ElementRef<'a>,
) -> Result<&'a str, UrdfFaultKind>
    ensures gives { Gives Memory (λ name. name.now) result (name_after names.old (as_element element.entry)) }
    ensures names { IfOk result (λ name. names.new ≡ names.old ++ name.now ∷ []) }
    ensures memory { result ≡ Err Memory → IsOk (name_after names.old (as_element element.entry)) }
{
    let name = name_of(element)?;
    if names.add(name)? {
        Ok(name)
    } else {
        Err(UrdfFaultKind::NameTwice)
    }
}
