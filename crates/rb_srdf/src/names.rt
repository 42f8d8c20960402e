// Names that elements give, and sets of them.
ghost use Rattle.std.specs.Prelude.{◌≡◌, ◌≢◌, false, IfOk, Err};
ghost use Rattle.rb_tags.specs.Elements.{as_element};
ghost use Rattle.rb_result.specs.Steps.{Gives};
ghost use Rattle.rb_srdf.specs.declared.faults.SrdfFaultKind.TheVariants.{Memory};
ghost use Rattle.rb_srdf.specs.Names.{has_name, name_in, new_name};

use crate::faults::SrdfFaultKind;
use rb_tags::{ElementRef, Names};

/// The name that an attribute of an element gives, which is not empty.
#[tactic(auto, unfolding(crate::specs::Names::name_in))]
pub(crate) fn name_in<'a>(key: &str, element: ElementRef<'a>) -> Result<&'a str, SrdfFaultKind>
    ensures gives { Gives Memory (λ name. name.now) result (name_in key.now (as_element element.entry)) }
    ensures takes_no_memory { result ≢ Err Memory }
{
    match element.given(key) {
        Some(name) => Ok(name),
        None => Err(SrdfFaultKind::NoName),
    }
}

/// Whether a name is none of these.
#[tactic(auto, unfolding(crate::specs::Names::new_name))]
pub(crate) fn new_name(names: &Names<'_>, name: &str) -> Result<(), SrdfFaultKind>
    ensures exact { result ≡ new_name names.now name.now }
    ensures takes_no_memory { result ≢ Err Memory }
    ensures new { IfOk result (λ _. has_name names.now name.now ≡ false) }
{
    if names.has(name) {
        return Err(SrdfFaultKind::NameTwice);
    }
    Ok(())
}
