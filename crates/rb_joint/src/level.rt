//! Turns about the coordinate axes, of narrow intervals: without the products of zeros and of one. `None` says no more than that the rule
//! of any axis has to be gone through.
ghost use Rattle.std.specs.Prelude.{◌≡◌, [], ◌∷◌, Ok, IfSome};
ghost use Rattle.rb_num.specs.Arith.{intervals};
ghost use Rattle.rb_num.specs.Dot.{iv_dot};
ghost use Rattle.rb_frac.specs.Tables.{transpose};
ghost use Rattle.rb_spatial.specs.Carrying.{row_mul, product};
ghost use Rattle.rb_joint.specs.Level.{along, level_table, IsLone, IsLevel, IsPlaceTurned};

use crate::exact::{is_exactly, is_narrow, is_narrow_vector};
use crate::turns::SineCosine;
use rb_num::{Iv, Narrow, S, Sums};
use rb_spatial::{Frame, Mat3, Place, Vec3};

/// A coordinate axis.
#[derive(Clone, Copy, Debug, PartialEq, Eq)]
pub(crate) enum Coordinate {
    X,
    Y,
    Z,
}

// A turn about a coordinate axis: the cosine of its angle, the sine as it stands below the diagonal, or above it for y, and the negative
// of that.
#[derive(Clone, Copy, Debug)]
struct LevelTurn {
    about: Coordinate,
    cos: Iv,
    sin: Iv,
    less: Iv,
}

/// The coordinate axis, and the part along it, of a vector whose other two parts are zero.
#[inline(always)]
pub(crate) fn lone_part(a: &Vec3) -> Option<(Coordinate, Iv)>
    ensures { IfSome result (IsLone a.now) }
{
    if is_exactly(&a.x(), 0) {
        if is_exactly(&a.y(), 0) {
            Some((Coordinate::Z, a.z()))
        } else if is_exactly(&a.z(), 0) {
            Some((Coordinate::Y, a.y()))
        } else {
            None
        }
    } else if is_exactly(&a.y(), 0) && is_exactly(&a.z(), 0) {
        Some((Coordinate::X, a.x()))
    } else {
        None
    }
}

/// The part along a coordinate axis.
#[inline(always)]
pub(crate) fn part_along(k: Coordinate, v: &Vec3) -> Iv
    ensures { result ≡ along k v.now }
{
    match k {
        Coordinate::X => v.x(),
        Coordinate::Y => v.y(),
        Coordinate::Z => v.z(),
    }
}

// The turn about an axis by `t`, where it is a unit vector along a coordinate axis or against it.
#[inline(always)]
fn level_turn(a: &Vec3, t: &SineCosine) -> Option<LevelTurn>
    ensures { IfSome result (IsLevel a.now t.now) }
{
    let (about, part) = lone_part(a)?;
    if !is_narrow(&t.sin) || !is_narrow(&t.cos) {
        return None;
    }
    let back = t.sin.neg();
    if is_exactly(&part, S) {
        Some(LevelTurn {
            about,
            cos: t.cos,
            sin: t.sin,
            less: back,
        })
    } else if is_exactly(&part, -S) {
        Some(LevelTurn {
            about,
            cos: t.cos,
            sin: back,
            less: t.sin,
        })
    } else {
        None
    }
}

// `u c + v s`
#[inline(always)]
fn near_pair(u: Narrow, c: Narrow, v: Narrow, s: Narrow) -> Option<Narrow>
    ensures { IfSome result (λ x. iv_dot ((u, c) ∷ (v, s) ∷ []) ≡ Ok x) }
{
    Sums::none().with(v, s).with(u, c).sum()
}

// `u c + v s` and `u l + v c`
#[inline(always)]
fn across(u: &Iv, v: &Iv, c: &Iv, s: &Iv, l: &Iv) -> Option<(Iv, Iv)>
    ensures first { IfSome result (λ p. iv_dot ((u.now, c.now) ∷ (v.now, s.now) ∷ []) ≡ Ok p.0) }
    ensures second { IfSome result (λ p. iv_dot ((u.now, l.now) ∷ (v.now, c.now) ∷ []) ≡ Ok p.1) }
{
    let (u, v) = (u.narrow()?, v.narrow()?);
    let (c, s, l) = (c.narrow()?, s.narrow()?, l.narrow()?);
    let first = near_pair(u, c, v, s)?;
    let second = near_pair(u, l, v, c)?;
    Some((first.wide(), second.wide()))
}

impl LevelTurn {
    // The vector, as a row, times the turn.
    #[inline(always)]
    fn row(&self, v: &Vec3) -> Option<Vec3>
        ensures { IfSome result (λ r. row_mul intervals v.now (transpose (level_table self.now)) ≡ Ok r) }
    {
        let (x, y, z) = (v.x(), v.y(), v.z());
        match self.about {
            Coordinate::X if is_narrow(&x) => {
                let (y, z) = across(&y, &z, &self.cos, &self.sin, &self.less)?;
                Some(Vec3::new(x, y, z))
            }
            Coordinate::Y if is_narrow(&y) => {
                let (x, z) = across(&x, &z, &self.cos, &self.less, &self.sin)?;
                Some(Vec3::new(x, y, z))
            }
            Coordinate::Z if is_narrow(&z) => {
                let (x, y) = across(&x, &y, &self.cos, &self.sin, &self.less)?;
                Some(Vec3::new(x, y, z))
            }
            _ => None,
        }
    }

    // The table times the turn.
    #[inline(always)]
    fn after(&self, m: &Mat3) -> Option<Mat3>
        ensures { IfSome result (λ r. product intervals m.now (level_table self.now) ≡ Ok r) }
    {
        let x = self.row(&m.x())?;
        let y = self.row(&m.y())?;
        let z = self.row(&m.z())?;
        Some(Mat3::new(x, y, z))
    }
}

/// The place of a joint in the frame `f` that turns by `t` about the axis `a`, a unit vector along a coordinate axis or against it.
#[inline(always)]
pub(crate) fn level_place(f: &Frame, a: &Vec3, t: &SineCosine) -> Option<Place>
    ensures { IfSome result (IsPlaceTurned f.now a.now t.now) }
{
    let turn = level_turn(a, t)?;
    let rot = turn.after(&f.rot)?;
    if is_narrow_vector(&f.at) {
        Some(Place {
            e: rot.transpose(),
            r: f.at,
        })
    } else {
        None
    }
}
