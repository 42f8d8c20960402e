ghost use Rattle.std.specs.Prelude.{◌≡◌, ◌<◌, ◌↔◌, IfErr, IfOk, IsErrOf, Ok};
ghost use Rattle.rb_num.specs.Arith.{intervals, signs_of};
ghost use Rattle.rb_result.specs.Steps.{told_as};
ghost use Rattle.rb_frac.specs.Tables.{nothing, unit as unit_of};
ghost use Rattle.rb_flat.specs.Joint.{along as along_of, around as around_of};
ghost use Rattle.rb_joint.specs.Models.{axial_by, place_turned, near_one as near_one_of, check_unit as check_unit_of};
ghost use Rattle.rb_joint.specs.Models.{square_of_pair as square_of_pair_by, square_of_quaternion as square_of_quaternion_by};

use crate::columns::rated;
use crate::faults::JointFault;
use crate::frames::sine_cosine_of;
use crate::level::level_place;
use crate::model::JointModel;
use crate::places::{origin_of, place_of, place_shifted};
use crate::turns::{Quaternion, SineCosine, axis_products, turn_about, turn_level, turn_of};
use rb_num::{Iv, NumFault, dot};
use rb_spatial::{Frame, Motion, Place, Sym3, Vec3, product};
use std::marker::Model;

fn origin() -> Vec3
    ensures { result ≡ nothing (signs_of intervals) }
{
    Vec3::new(Iv::ZERO, Iv::ZERO, Iv::ZERO)
}

// The unit vector along axis `k`, from 0.
fn unit(k: usize) -> Vec3
    requires { k < 3 }
    ensures { result ≡ unit_of (signs_of intervals) k }
{
    match k {
        0 => Vec3::new(Iv::ONE, Iv::ZERO, Iv::ZERO),
        1 => Vec3::new(Iv::ZERO, Iv::ONE, Iv::ZERO),
        _ => Vec3::new(Iv::ZERO, Iv::ZERO, Iv::ONE),
    }
}

fn along(axis: Vec3) -> Motion
    ensures { result ≡ along_of (signs_of intervals) axis }
{
    Motion {
        lin: axis,
        ang: origin(),
    }
}

fn around(axis: Vec3) -> Motion
    ensures { result ≡ around_of (signs_of intervals) axis }
{
    Motion {
        lin: origin(),
        ang: axis,
    }
}

// 0.999 to 1.001.
fn near_one() -> Iv
    ensures { result ≡ near_one_of }
{
    Iv::new(999_000_000_000, 1_001_000_000_000)
}

// Whether a squared length may be that of something of length one.
#[tactic(auto, unfolding(crate::specs::Models::check_unit))]
fn check_unit(square: Iv) -> Result<(), JointFault>
    ensures { result ≡ check_unit_of (Ok square) }
{
    if square.meets(near_one()) {
        Ok(())
    } else {
        Err(JointFault::NotUnit)
    }
}

// The cosine and sine `t`, where their squared length may be one.
#[tactic(auto, unfolding(crate::specs::Models::check_unit, crate::specs::Models::square_of_pair))]
fn check_pair(t: &SineCosine) -> Result<(), JointFault>
    ensures { result ≡ check_unit_of (square_of_pair_by intervals t.now) }
{
    let square = dot(&[(t.cos, t.cos), (t.sin, t.sin)])?;
    check_unit(square)
}

#[tactic(auto, unfolding(crate::specs::Models::check_unit, crate::specs::Models::square_of_quaternion))]
fn check_quaternion(q: &Quaternion) -> Result<(), JointFault>
    ensures { result ≡ check_unit_of (square_of_quaternion_by intervals q.now) }
{
    let square = dot(&[(q.x, q.x), (q.y, q.y), (q.z, q.z), (q.w, q.w)])?;
    check_unit(square)
}

/// A joint that does not move.
#[derive(Clone, Copy, Debug, PartialEq, Eq)]
pub struct Fixed {
    frame: Frame,
}

impl Fixed {
    /// With the body's frame in the parent.
    pub fn new(frame: Frame) -> Fixed
        ensures { result.frame ≡ frame }
    {
        Fixed { frame }
    }
}

impl JointModel for Fixed {
    ghost use Rattle.rb_flat.specs.Joint as Kinds;
    ghost use Rattle.rb_flat.specs.Joint.{along};
    ghost use Rattle.rb_joint.specs.Models.{fixed_place};
    ghost use Rattle.rb_joint.specs.Frames.{HasFrame};
    ghost use Rattle.std.specs.Prelude.{refl};

    const NQ: usize = 0;

    const NV: usize = 0;

    ghost NQ = { 0 };

    ghost NV = { 0 };

    ghost kind = { Kinds.Fixed };

    ghost has = { λ m. HasFrame m.frame };

    ghost place_at = { λ m q. fixed_place m.frame };

    ghost column_at = { λ m k. along (signs_of intervals) (nothing (signs_of intervals)) };

    ghost entry_law = { refl };

    ghost column_law = { refl };

    #[tactic(auto, unfolding(crate::specs::Models::fixed_place, crate::specs::Models::place_fixed, crate::specs::Places::place_shifted))]
    fn place(&self, _q: &[Iv]) -> Result<Place, JointFault> {
        let r = origin_of(&self.frame)?;
        Ok(Place {
            e: self.frame.rot.transpose(),
            r,
        })
    }

    /// There is none, and the answer is no motion.
    fn column(&self, _k: usize) -> Motion
        ensures { result ≡ along (signs_of intervals) (nothing (signs_of intervals)) }
    {
        along(origin())
    }
}

// What a joint that turns about an axis keeps: the axis with its products.
#[derive(Clone, Copy, Debug, PartialEq, Eq)]
struct Hinge {
    frame: Frame,
    axis: Vec3,
    products: Sym3,
}

impl Model for Hinge {
    ghost use Rattle.std.specs.Prelude.{◌≡◌, Ok, Result};
    ghost use Rattle.std.proofs.Common.{ap};
    ghost use Rattle.rb_num.specs.declared.interval.NumFault.{NumFault};
    ghost use Rattle.rb_num.specs.Interval.{Interval};
    ghost use Rattle.rb_num.specs.Arith.{intervals};
    ghost use Rattle.rb_frac.specs.Tables.{Symmetric};
    ghost use Rattle.rb_joint.specs.Turns.{axis_products};
    ghost use Rattle.rb_joint.specs.Models.{Axial, kept};

    ghost Value = { Axial };

    ghost view = { λ m. record { frame = m.frame; axis = m.axis } };

    ghost invariant = { λ m. axis_products intervals m.axis ≡ Ok m.products };

    ghost inverse = { λ v. record { frame = v.frame; axis = v.axis; products = kept (axis_products intervals v.axis) } };

    ghost inverse_ok = { λ m h. ap (λ (r : Result (Symmetric Interval) NumFault). record { frame = m.frame; axis = m.axis; products = kept r }) h };
}

impl Hinge {
    #[tactic(auto, unfolding(crate::specs::Models::axial_by))]
    fn new(frame: Frame, axis: Vec3) -> Result<Hinge, NumFault>
        ensures exact { result ≡ axial_by frame axis }
        ensures ok { IfOk result (λ m. m ≡ record { frame = frame; axis = axis }) }
        ensures size { IfErr result (λ e. e ≡ NumFault.Size) }
    {
        let products = axis_products(&axis)?;
        Ok(Hinge {
            frame,
            axis,
            products,
        })
    }

    // Turned by `t`.
    fn place(&self, t: &SineCosine) -> Result<Place, NumFault>
        ensures { result ≡ place_turned intervals self.now.frame self.now.axis t.now }
    {
        match level_place(&self.frame, &self.axis, t) {
            Some(place) => Ok(place),
            None => self.any_place(t),
        }
    }

    // The same, about any axis.
    #[inline(never)]
    #[tactic(auto, unfolding(crate::specs::Models::place_turned, crate::specs::Places::place_of))]
    fn any_place(&self, t: &SineCosine) -> Result<Place, NumFault>
        ensures { result ≡ place_turned intervals self.now.frame self.now.axis t.now }
    {
        let turn = turn_about(&self.axis, &self.products, t)?;
        let rot = product(&self.frame.rot, &turn)?;
        let r = origin_of(&self.frame)?;
        Ok(Place {
            e: rot.transpose(),
            r,
        })
    }
}

/// A joint that turns about an axis, by one angle in radians.
#[derive(Clone, Copy, Debug, PartialEq, Eq)]
pub struct Revolute(Hinge);

impl Model for Revolute {
    ghost use Rattle.rb_joint.specs.Models.{Axial};

    ghost Value = { Axial };

    ghost view = { λ m. m.0 };

    ghost inverse = { λ v. record { 0 = v } };
}

impl Revolute {
    /// About `axis` in `frame`. It is refused with `Size` exactly where a product of two parts of the
    /// axis is.
    pub fn new(frame: Frame, axis: Vec3) -> Result<Revolute, NumFault>
        ensures exact { result ≡ axial_by frame axis }
        ensures ok { IfOk result (λ m. m ≡ record { frame = frame; axis = axis }) }
        ensures size { IfErr result (λ e. e ≡ NumFault.Size) }
    {
        Ok(Revolute(Hinge::new(frame, axis)?))
    }
}

impl JointModel for Revolute {
    ghost use Rattle.rb_flat.specs.Joint as Kinds;
    ghost use Rattle.rb_flat.specs.Joint.{around};
    ghost use Rattle.rb_joint.specs.Models.{revolute_place, entry_at};
    ghost use Rattle.rb_joint.specs.Model.{HasFrameAndAxis};
    ghost use Rattle.std.specs.Prelude.{refl};

    const NQ: usize = 1;

    const NV: usize = 1;

    ghost NQ = { 1 };

    ghost NV = { 1 };

    ghost kind = { Kinds.Revolute };

    ghost has = { λ m. HasFrameAndAxis m.frame m.axis };

    ghost place_at = { λ m q. revolute_place m.frame m.axis (entry_at q 0) };

    ghost column_at = { λ m k. around (signs_of intervals) m.axis };

    ghost entry_law = { refl };

    ghost column_law = { refl };

    #[tactic(auto, unfolding(crate::specs::Models::revolute_place))]
    fn place(&self, q: &[Iv]) -> Result<Place, JointFault> {
        let t = sine_cosine_of(q[0])?;
        Ok(self.0.place(&t)?)
    }

    fn column(&self, _k: usize) -> Motion {
        around(self.0.axis)
    }
}

/// A joint that turns about an axis without limit, by the cosine and the sine of its angle, in this
/// order (Pinocchio's unbounded revolute joint).
#[derive(Clone, Copy, Debug, PartialEq, Eq)]
pub struct Continuous(Hinge);

impl Model for Continuous {
    ghost use Rattle.rb_joint.specs.Models.{Axial};

    ghost Value = { Axial };

    ghost view = { λ m. m.0 };

    ghost inverse = { λ v. record { 0 = v } };
}

impl Continuous {
    /// About `axis` in `frame`. It is refused with `Size` exactly where a product of two parts of the
    /// axis is.
    pub fn new(frame: Frame, axis: Vec3) -> Result<Continuous, NumFault>
        ensures exact { result ≡ axial_by frame axis }
        ensures ok { IfOk result (λ m. m ≡ record { frame = frame; axis = axis }) }
        ensures size { IfErr result (λ e. e ≡ NumFault.Size) }
    {
        Ok(Continuous(Hinge::new(frame, axis)?))
    }
}

impl JointModel for Continuous {
    ghost use Rattle.rb_flat.specs.Joint as Kinds;
    ghost use Rattle.rb_flat.specs.Joint.{around};
    ghost use Rattle.rb_joint.specs.Models.{continuous_place, pair_from};
    ghost use Rattle.rb_joint.specs.Model.{HasFrameAndAxis};
    ghost use Rattle.std.specs.Prelude.{refl};

    const NQ: usize = 2;

    const NV: usize = 1;

    ghost NQ = { 2 };

    ghost NV = { 1 };

    ghost kind = { Kinds.Continuous };

    ghost has = { λ m. HasFrameAndAxis m.frame m.axis };

    ghost place_at = { λ m q. continuous_place m.frame m.axis (pair_from q 0) };

    ghost column_at = { λ m k. around (signs_of intervals) m.axis };

    ghost entry_law = { refl };

    ghost column_law = { refl };

    #[tactic(auto, unfolding(crate::specs::Models::continuous_place))]
    fn place(&self, q: &[Iv]) -> Result<Place, JointFault> {
        let t = SineCosine {
            sin: q[1],
            cos: q[0],
        };
        check_pair(&t)?;
        Ok(self.0.place(&t)?)
    }

    fn column(&self, _k: usize) -> Motion {
        around(self.0.axis)
    }
}

/// A joint that shifts along an axis, by one length in metres.
#[derive(Clone, Copy, Debug, PartialEq, Eq)]
pub struct Prismatic {
    frame: Frame,
    axis: Vec3,
}

impl Prismatic {
    /// Along `axis` in `frame`.
    pub fn new(frame: Frame, axis: Vec3) -> Prismatic
        ensures frame { result.frame ≡ frame }
        ensures axis { result.axis ≡ axis }
    {
        Prismatic { frame, axis }
    }
}

impl JointModel for Prismatic {
    ghost use Rattle.rb_flat.specs.Joint as Kinds;
    ghost use Rattle.rb_flat.specs.Joint.{along};
    ghost use Rattle.rb_joint.specs.Models.{prismatic_place, entry_at};
    ghost use Rattle.rb_joint.specs.Model.{HasFrameAndAxis};
    ghost use Rattle.std.specs.Prelude.{refl};

    const NQ: usize = 1;

    const NV: usize = 1;

    ghost NQ = { 1 };

    ghost NV = { 1 };

    ghost kind = { Kinds.Prismatic };

    ghost has = { λ m. HasFrameAndAxis m.frame m.axis };

    ghost place_at = { λ m q. prismatic_place m.frame m.axis (entry_at q 0) };

    ghost column_at = { λ m k. along (signs_of intervals) m.axis };

    ghost entry_law = { refl };

    ghost column_law = { refl };

    #[tactic(auto, unfolding(crate::specs::Models::prismatic_place, crate::specs::Models::place_along))]
    fn place(&self, q: &[Iv]) -> Result<Place, JointFault> {
        let p = rated(&q[0], &self.axis)?;
        Ok(place_shifted(&self.frame, &p)?)
    }

    fn column(&self, _k: usize) -> Motion {
        along(self.axis)
    }
}

/// A joint that shifts along x and y of its frame, in metres, and turns about z, by the cosine and
/// the sine of its angle (URDF and Pinocchio `planar`).
#[derive(Clone, Copy, Debug, PartialEq, Eq)]
pub struct Planar {
    frame: Frame,
}

impl Planar {
    /// In `frame`.
    pub fn new(frame: Frame) -> Planar
        ensures { result.frame ≡ frame }
    {
        Planar { frame }
    }
}

impl JointModel for Planar {
    ghost use Rattle.rb_flat.specs.Joint as Kinds;
    ghost use Rattle.rb_joint.specs.Models.{planar_place, planar_column, level_shift, pair_from};
    ghost use Rattle.rb_joint.specs.Frames.{HasFrame};
    ghost use Rattle.std.specs.Prelude.{refl};

    const NQ: usize = 4;

    const NV: usize = 3;

    ghost NQ = { 4 };

    ghost NV = { 3 };

    ghost kind = { Kinds.Planar };

    ghost has = { λ m. HasFrame m.frame };

    ghost place_at = { λ m q. planar_place m.frame (level_shift q) (pair_from q 2) };

    ghost column_at = { λ m k. planar_column k };

    ghost entry_law = { refl };

    ghost column_law = { refl };

    #[tactic(auto, unfolding(crate::specs::Models::planar_place, crate::specs::Models::place_level))]
    fn place(&self, q: &[Iv]) -> Result<Place, JointFault> {
        let t = SineCosine {
            sin: q[3],
            cos: q[2],
        };
        check_pair(&t)?;
        let shift = Vec3::new(q[0], q[1], Iv::ZERO);
        Ok(place_of(&self.frame, &turn_level(&t), &shift)?)
    }

    #[tactic(auto, unfolding(rb_flat::specs::Joint::joint_column))]
    fn column(&self, k: usize) -> Motion {
        if k == 2 {
            around(unit(2))
        } else {
            along(unit(k))
        }
    }
}

/// A joint that moves freely: by a shift in metres, and by a quaternion x, y, z, w (URDF `floating`,
/// Pinocchio's free flyer).
#[derive(Clone, Copy, Debug, PartialEq, Eq)]
pub struct Free {
    frame: Frame,
}

impl Free {
    /// In `frame`.
    pub fn new(frame: Frame) -> Free
        ensures { result.frame ≡ frame }
    {
        Free { frame }
    }
}

impl JointModel for Free {
    ghost use Rattle.rb_flat.specs.Joint as Kinds;
    ghost use Rattle.rb_joint.specs.Models.{free_place, free_column, free_shift, free_turn};
    ghost use Rattle.rb_joint.specs.Frames.{HasFrame};
    ghost use Rattle.std.specs.Prelude.{refl};

    const NQ: usize = 7;

    const NV: usize = 6;

    ghost NQ = { 7 };

    ghost NV = { 6 };

    ghost kind = { Kinds.Free };

    ghost has = { λ m. HasFrame m.frame };

    ghost place_at = { λ m q. free_place m.frame (free_shift q) (free_turn q) };

    ghost column_at = { λ m k. free_column k };

    ghost entry_law = { refl };

    ghost column_law = { refl };

    #[tactic(auto, unfolding(crate::specs::Models::free_place, crate::specs::Models::place_free))]
    fn place(&self, q: &[Iv]) -> Result<Place, JointFault> {
        let turned = Quaternion {
            x: q[3],
            y: q[4],
            z: q[5],
            w: q[6],
        };
        check_quaternion(&turned)?;
        let turn = turn_of(&turned)?;
        Ok(place_of(&self.frame, &turn, &Vec3::new(q[0], q[1], q[2]))?)
    }

    #[tactic(auto, unfolding(rb_flat::specs::Joint::joint_column))]
    fn column(&self, k: usize) -> Motion {
        if k < 3 {
            along(unit(k))
        } else {
            around(unit(k - 3))
        }
    }
}
