// The numbers of attributes.
ghost use Rattle.std.specs.Prelude.{◌≡◌, ◌≢◌, Err, option_map};
ghost use Rattle.rb_urdf.specs.Numbers.{number_in, three_in, number_or, three_or, origin_of};
ghost use Rattle.rb_tags.specs.Elements.{as_element};
ghost use Rattle.rb_urdf.specs.declared.faults.UrdfFaultKind.TheVariants.{Memory};

use crate::faults::UrdfFaultKind;
use rb_num::Iv;
use rb_tags::{ElementRef, attribute_in};
use rb_text::{read_bracket, read_three};

/// Three zeros.
pub const ZEROS: [Iv; 3] = [Iv::ZERO, Iv::ZERO, Iv::ZERO];

/// Where an origin is in metres, and its roll, pitch and yaw in radians.
#[derive(Clone, Copy)]
pub struct Origin {
    pub xyz: [Iv; 3],
    pub rpy: [Iv; 3],
}

/// The bracket of a text.
#[tactic(auto, unfolding(crate::specs::Numbers::number_in))]
fn number_in(text: &[u8]) -> Result<Iv, UrdfFaultKind>
    ensures exact { result ≡ number_in text.now }
    ensures takes_no_memory { result ≢ Err Memory }
{
    match read_bracket(text) {
        Ok(v) => Ok(v),
        Err(_) => Err(UrdfFaultKind::BadNumber),
    }
}

/// The brackets of a text of three words.
#[tactic(auto, unfolding(crate::specs::Numbers::three_in))]
fn three_in(text: &[u8]) -> Result<[Iv; 3], UrdfFaultKind>
    ensures { result ≡ three_in text.now }
{
    match read_three(text) {
        Ok(three) => Ok(three),
        Err(_) => Err(UrdfFaultKind::BadNumber),
    }
}

/// The number of an attribute, or the default where the element or the attribute is missing.
#[tactic(auto, unfolding(crate::specs::Numbers::number_or))]
pub fn number_or(
    default: Iv,
    key: &str,
    element: Option<ElementRef<'_>>,
) -> Result<Iv, UrdfFaultKind>
    ensures exact { result ≡ number_or default key.now (option_map as_element element.entry) }
    ensures takes_no_memory { result ≢ Err Memory }
{
    match attribute_in(key, element) {
        Some(text) => number_in(text.as_bytes()),
        None => Ok(default),
    }
}

/// The three numbers of an attribute, or the default where the element or the attribute is missing.
#[tactic(auto, unfolding(crate::specs::Numbers::three_or))]
pub fn three_or(
    default: [Iv; 3],
    key: &str,
    element: Option<ElementRef<'_>>,
) -> Result<[Iv; 3], UrdfFaultKind>
    ensures { result ≡ three_or default key.now (option_map as_element element.entry) }
{
    match attribute_in(key, element) {
        Some(text) => three_in(text.as_bytes()),
        None => Ok(default),
    }
}

/// Where an origin is and how it is turned.
#[tactic(auto, unfolding(crate::specs::Numbers::origin_of))]
pub fn origin_of(origin: Option<ElementRef<'_>>) -> Result<Origin, UrdfFaultKind>
    ensures { result ≡ origin_of (option_map as_element origin.entry) }
{
    let xyz = three_or(ZEROS, "xyz", origin)?;
    let rpy = three_or(ZEROS, "rpy", origin)?;
    Ok(Origin { xyz, rpy })
}
