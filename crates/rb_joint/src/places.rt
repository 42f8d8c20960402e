ghost use Rattle.std.specs.Prelude.{◌≡◌, ◌∷◌, Ok, IfOk, IfErr, IfSome};
ghost use Rattle.rb_num.specs.Arith.{intervals, signs_of};
ghost use Rattle.rb_num.specs.Interval.{one_interval};
ghost use Rattle.rb_num.specs.Dot.{iv_dot};
ghost use Rattle.rb_frac.specs.Tables.{nothing};
ghost use Rattle.rb_spatial.specs.Motions.{pairs};
ghost use Rattle.rb_joint.specs.Places.{outside as outside_of, place_of as place_by, place_shifted as place_shifted_of};
ghost use Rattle.rb_joint.specs.Places.{EnclosesOutside, EnclosesPlaceOf, EnclosesPlaceShifted};

use crate::exact::is_narrow_vector;
use rb_num::{Iv, Narrow, NumFault, Sums, dot};
use rb_spatial::{Frame, Mat3, NarrowVec3, Place, Vec3, product};

#[inline(always)]
fn narrow_sum(at: Narrow, u: &NarrowVec3, p: &NarrowVec3) -> Option<Narrow>
    ensures { IfSome result (λ v. iv_dot ((at, one_interval) ∷ pairs u.now p.now) ≡ Ok v) }
{
    Sums::none()
        .with(u.z, p.z)
        .with(u.y, p.y)
        .with(u.x, p.x)
        .plus(at)
        .sum()
}

#[inline(always)]
fn near_sum(at: &Iv, u: &Vec3, p: &Vec3) -> Option<Iv>
    ensures { IfSome result (λ v. iv_dot ((at.now, one_interval) ∷ pairs u.now p.now) ≡ Ok v) }
{
    let sum = narrow_sum(at.narrow()?, &u.narrow()?, &p.narrow()?)?;
    Some(sum.wide())
}

#[cold]
#[inline(never)]
fn far_sum(at: &Iv, u: &Vec3, p: &Vec3) -> Result<Iv, NumFault>
    ensures exact { result ≡ iv_dot ((at.now, one_interval) ∷ pairs u.now p.now) }
    ensures size { IfErr result (λ e. e ≡ NumFault.Size) }
{
    dot(&[
        (*at, Iv::ONE),
        (u.x(), p.x()),
        (u.y(), p.y()),
        (u.z(), p.z()),
    ])
}

// `at + u p`
#[inline(always)]
fn sum(at: &Iv, u: &Vec3, p: &Vec3) -> Result<Iv, NumFault>
    ensures exact { result ≡ iv_dot ((at.now, one_interval) ∷ pairs u.now p.now) }
    ensures size { IfErr result (λ e. e ≡ NumFault.Size) }
{
    match near_sum(at, u, p) {
        Some(x) => Ok(x),
        None => far_sum(at, u, p),
    }
}

/// The point `p` of a frame, seen from where the frame stands: `at + rot p`, one sum of four products
/// for each part. It is refused with `Size` exactly where one of these is.
#[tactic(auto, unfolding(crate::specs::Places::outside))]
pub fn outside(f: &Frame, p: &Vec3) -> Result<Vec3, NumFault>
    ensures exact { result ≡ outside_of intervals f.now p.now }
    ensures encloses { IfOk result (EnclosesOutside f.now p.now) }
    ensures size { IfErr result (λ e. e ≡ NumFault.Size) }
{
    let x = sum(&f.at.x(), &f.rot.x(), p)?;
    let y = sum(&f.at.y(), &f.rot.y(), p)?;
    let z = sum(&f.at.z(), &f.rot.z(), p)?;
    Ok(Vec3::new(x, y, z))
}

/// The origin of a frame, seen from where the frame stands.
#[inline(always)]
pub(crate) fn origin_of(f: &Frame) -> Result<Vec3, NumFault>
    ensures exact { result ≡ outside_of intervals f.now (nothing (signs_of intervals)) }
    ensures size { IfErr result (λ e. e ≡ NumFault.Size) }
{
    if is_narrow_vector(&f.at) {
        Ok(f.at)
    } else {
        outside(f, &Vec3::new(Iv::ZERO, Iv::ZERO, Iv::ZERO))
    }
}

/// The place of a joint that turns by `turn` and shifts by `p` in its frame: `e` is the transpose of
/// the frame's rotation times `turn`, and `r` is the shifted origin, seen from outside. It is
/// refused with `Size` exactly where one of its sums of products is.
#[tactic(auto, unfolding(crate::specs::Places::place_of))]
pub fn place_of(f: &Frame, turn: &Mat3, p: &Vec3) -> Result<Place, NumFault>
    ensures exact { result ≡ place_by intervals f.now turn.now p.now }
    ensures encloses { IfOk result (EnclosesPlaceOf f.now turn.now p.now) }
    ensures size { IfErr result (λ e. e ≡ NumFault.Size) }
{
    let t = product(&f.rot, turn)?;
    let r = outside(f, p)?;
    Ok(Place {
        e: t.transpose(),
        r,
    })
}

/// The place of a joint that shifts by `p` in its frame and turns not. It is refused with `Size`
/// exactly where one of its sums of products is.
#[tactic(auto, unfolding(crate::specs::Places::place_shifted))]
pub fn place_shifted(f: &Frame, p: &Vec3) -> Result<Place, NumFault>
    ensures exact { result ≡ place_shifted_of intervals f.now p.now }
    ensures encloses { IfOk result (EnclosesPlaceShifted f.now p.now) }
    ensures size { IfErr result (λ e. e ≡ NumFault.Size) }
{
    let r = outside(f, p)?;
    Ok(Place {
        e: f.rot.transpose(),
        r,
    })
}
