ghost use Rattle.std.specs.Prelude.{◌≡◌, ◌∷◌, [], MatchOption};
ghost use Rattle.rb_words.specs.Words.{bracket_in, gravity_of, parts};

use crate::faults::WordsFault;
use rb_num::Iv;
use rb_spatial::Vec3;
use rb_text::read_bracket;

/// The bracket of a number text.
fn read_part(text: &str) -> Result<Iv, WordsFault>
    ensures { result ≡ bracket_in text.now }
{
    match read_bracket(text.as_bytes()) {
        Ok(bracket) => Ok(bracket),
        Err(_) => Err(WordsFault::Gravity),
    }
}

/// What stands before the first comma, and behind it.
fn next_part(text: &str) -> Option<(&str, &str)>
    ensures { MatchOption result (parts text.now ≡ text.now ∷ []) (λ next. parts text.now ≡ next.0.now ∷ parts next.1.now) }
{
    text.split_once(',')
}

/// The brackets of three number texts between commas.
#[tactic(auto, using(crate::proofs::Parts::four_parts), unfolding(crate::specs::Words::gravity_of))]
pub(crate) fn read_gravity(text: &str) -> Result<Vec3, WordsFault>
    ensures { result ≡ gravity_of text.now }
{
    let (x, others) = next_part(text).ok_or(WordsFault::Gravity)?;
    let (y, z) = next_part(others).ok_or(WordsFault::Gravity)?;
    if next_part(z).is_some() {
        return Err(WordsFault::Gravity);
    }
    Ok(Vec3::new(read_part(x)?, read_part(y)?, read_part(z)?))
}
