// The numbers of a constraint.
ghost use Rattle.std.specs.Prelude.{◌≡◌, ◌+◌, ◌≤◌, ◌<◌, option_map, IfSome};
ghost use Rattle.csv.specs.Records.{fields_of};
ghost use Rattle.rb_constraint.specs.File.{three_from};
ghost use Rattle.rb_constraint.specs.Read.{number_of, three_of, is_outside, with_limits, numbers_of, numbers_seen};
ghost use Rattle.rb_constraint.specs.Constraints.{AreNumbersOrdered};

use csv::ByteRecord;
use rb_num::{Iv, S};
use rb_record::field;
use rb_spatial::Vec3;
use rb_text::read_bracket;

/// The numbers of a constraint: its point in each body, `mu` and `e`.
#[derive(Clone, Copy, Debug)]
pub(crate) struct Numbers {
    pub at1: Vec3,
    pub at2: Vec3,
    pub mu: Iv,
    pub e: Iv,
}

/// The bracket of a number. An empty one is 0.
#[tactic(auto, unfolding(crate::specs::Read::number_of))]
fn number(text: &[u8]) -> Option<Iv>
    ensures { result ≡ number_of text.now }
{
    if text.is_empty() {
        return Some(Iv::ZERO);
    }
    read_bracket(text).ok()
}

/// Three numbers from a field on.
#[tactic(auto, unfolding(crate::specs::Read::three_of))]
fn three(fields: &ByteRecord, k: usize) -> Option<Vec3>
    requires { k < 12 }
    ensures { result ≡ three_of (three_from k (fields_of fields.now)) }
{
    let x = number(field(fields, k))?;
    let y = number(field(fields, k + 1))?;
    let z = number(field(fields, k + 2))?;
    Some(Vec3::new(x, y, z))
}

/// Whether `mu` may be below 0, or `e` outside 0..1.
#[tactic(auto, unfolding(crate::specs::Read::is_outside))]
fn is_outside(mu: Iv, e: Iv) -> bool
    ensures { result ≡ is_outside mu e }
{
    mu.lo() < 0 || e.lo() < 0 || S < e.hi()
}

/// The numbers with these points.
fn with_limits(at1: Vec3, at2: Vec3, fields: &ByteRecord) -> Option<Numbers>
    ensures { option_map numbers_seen result ≡ with_limits at1 at2 (fields_of fields.now) }
{
    let mu = number(field(fields, 10))?;
    let e = number(field(fields, 11))?;
    if is_outside(mu, e) {
        return None;
    }
    Some(Numbers { at1, at2, mu, e })
}

impl Numbers {
    /// The ends of each bracket are in order.
    pub(crate) fn in_order(&self)
        ensures { AreNumbersOrdered (numbers_seen self.now) }
    {
        let _first = (self.at1.x().lo(), self.at1.y().lo(), self.at1.z().lo());
        let _second = (self.at2.x().lo(), self.at2.y().lo(), self.at2.z().lo());
        let _others = (self.mu.lo(), self.e.lo());
    }
}

/// The numbers in the fields of a constraint.
#[tactic(auto, unfolding(crate::specs::Read::numbers_of))]
pub(crate) fn read_numbers(fields: &ByteRecord) -> Option<Numbers>
    ensures { option_map numbers_seen result ≡ numbers_of (fields_of fields.now) }
{
    let at1 = three(fields, 3)?;
    let at2 = three(fields, 7)?;
    with_limits(at1, at2, fields)
}
