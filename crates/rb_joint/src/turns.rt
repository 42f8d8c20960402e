ghost use Rattle.std.specs.Prelude.{◌≡◌, IfOk, IfErr};
ghost use Rattle.rb_num.specs.Arith.{intervals, signs_of};
ghost use Rattle.rb_flat.specs.Turns.{about_z as about_z_of};
ghost use Rattle.rb_joint.specs.Turns.{rotation_row_x as rotation_row_x_of, rotation_row_y as rotation_row_y_of, rotation_row_z as rotation_row_z_of, rotation as rotation_of};
ghost use Rattle.rb_joint.specs.Turns.{axis_products as axis_products_of, axis_row_x as axis_row_x_of, axis_row_y as axis_row_y_of, axis_row_z as axis_row_z_of, turn_about as turn_about_of};
ghost use Rattle.rb_joint.specs.Turns.{quaternion_row_x as quaternion_row_x_of, quaternion_row_y as quaternion_row_y_of, quaternion_row_z as quaternion_row_z_of, twice as twice_of, turn_of as turn_of_quaternion};
ghost use Rattle.rb_joint.specs.Turns.{EnclosesRotation, EnclosesAxisProducts, EnclosesTurnAbout, EnclosesTurnLevel, EnclosesTurnOf};

use rb_num::{Iv, NumFault, dot};
use rb_spatial::{Mat3, Sym3, Vec3};
use std::marker::Model;

/// An angle by its sine and cosine.
#[derive(Clone, Copy, Debug, PartialEq, Eq)]
pub struct SineCosine {
    pub sin: Iv,
    pub cos: Iv,
}

impl Model for SineCosine {
    ghost use Rattle.rb_num.specs.Interval.{Interval};
    ghost use Rattle.rb_frac.specs.Spatial as S;

    ghost Value = { S.SineCosine Interval };

    ghost view = { λ t. record { sin = t.sin; cos = t.cos } };

    ghost inverse = { λ t. record { sin = t.sin; cos = t.cos } };
}

/// A quaternion, vector part first.
#[derive(Clone, Copy, Debug, PartialEq, Eq)]
pub struct Quaternion {
    pub x: Iv,
    pub y: Iv,
    pub z: Iv,
    pub w: Iv,
}

impl Model for Quaternion {
    ghost use Rattle.rb_num.specs.Interval.{Interval};
    ghost use Rattle.rb_frac.specs.Spatial as S;

    ghost Value = { S.Quaternion Interval };

    ghost view = { λ q. record { x = q.x; y = q.y; z = q.z; w = q.w } };

    ghost inverse = { λ q. record { x = q.x; y = q.y; z = q.z; w = q.w } };
}

#[tactic(auto, unfolding(crate::specs::Turns::rotation_row_x))]
fn rotation_row_x(
    roll: &SineCosine,
    pitch: &SineCosine,
    yaw: &SineCosine,
    t1: Iv,
    t2: Iv,
) -> Result<Vec3, NumFault>
    ensures exact { result ≡ rotation_row_x_of intervals roll.now pitch.now yaw.now t1 t2 }
    ensures size { IfErr result (λ e. e ≡ NumFault.Size) }
{
    let x = dot(&[(yaw.cos, pitch.cos)])?;
    let y = dot(&[(yaw.cos, t1), (yaw.sin.neg(), roll.cos)])?;
    let z = dot(&[(yaw.cos, t2), (yaw.sin, roll.sin)])?;
    Ok(Vec3::new(x, y, z))
}

#[tactic(auto, unfolding(crate::specs::Turns::rotation_row_y))]
fn rotation_row_y(
    roll: &SineCosine,
    pitch: &SineCosine,
    yaw: &SineCosine,
    t1: Iv,
    t2: Iv,
) -> Result<Vec3, NumFault>
    ensures exact { result ≡ rotation_row_y_of intervals roll.now pitch.now yaw.now t1 t2 }
    ensures size { IfErr result (λ e. e ≡ NumFault.Size) }
{
    let x = dot(&[(yaw.sin, pitch.cos)])?;
    let y = dot(&[(yaw.sin, t1), (yaw.cos, roll.cos)])?;
    let z = dot(&[(yaw.sin, t2), (yaw.cos.neg(), roll.sin)])?;
    Ok(Vec3::new(x, y, z))
}

#[tactic(auto, unfolding(crate::specs::Turns::rotation_row_z))]
fn rotation_row_z(roll: &SineCosine, pitch: &SineCosine) -> Result<Vec3, NumFault>
    ensures exact { result ≡ rotation_row_z_of intervals roll.now pitch.now }
    ensures size { IfErr result (λ e. e ≡ NumFault.Size) }
{
    let y = dot(&[(pitch.cos, roll.sin)])?;
    let z = dot(&[(pitch.cos, roll.cos)])?;
    Ok(Vec3::new(pitch.sin.neg(), y, z))
}

/// The turn of roll, pitch and yaw: about z by yaw, of that about y by pitch, of that about x by
/// roll. It is refused with `Size` exactly where one of its sums of products is.
#[tactic(auto, unfolding(crate::specs::Turns::rotation))]
pub fn rotation(roll: &SineCosine, pitch: &SineCosine, yaw: &SineCosine) -> Result<Mat3, NumFault>
    ensures exact { result ≡ rotation_of intervals roll.now pitch.now yaw.now }
    ensures encloses { IfOk result (EnclosesRotation roll.now pitch.now yaw.now) }
    ensures size { IfErr result (λ e. e ≡ NumFault.Size) }
{
    let t1 = dot(&[(pitch.sin, roll.sin)])?;
    let t2 = dot(&[(pitch.sin, roll.cos)])?;
    let x = rotation_row_x(roll, pitch, yaw, t1, t2)?;
    let y = rotation_row_y(roll, pitch, yaw, t1, t2)?;
    let z = rotation_row_z(roll, pitch)?;
    Ok(Mat3::new(x, y, z))
}

/// Of an axis: on the diagonal the squared distances from the coordinate axes, and above it the
/// products. It is refused with `Size` exactly where one of these is.
#[tactic(auto, unfolding(crate::specs::Turns::axis_products))]
pub fn axis_products(a: &Vec3) -> Result<Sym3, NumFault>
    ensures exact { result ≡ axis_products_of intervals a.now }
    ensures encloses { IfOk result (EnclosesAxisProducts a.now) }
    ensures size { IfErr result (λ e. e ≡ NumFault.Size) }
{
    let (x, y, z) = (a.x(), a.y(), a.z());
    let xx = dot(&[(y, y), (z, z)])?;
    let xy = dot(&[(x, y)])?;
    let xz = dot(&[(x, z)])?;
    let yy = dot(&[(z, z), (x, x)])?;
    let yz = dot(&[(y, z)])?;
    let zz = dot(&[(x, x), (y, y)])?;
    Ok(Sym3 {
        xx,
        xy,
        xz,
        yy,
        yz,
        zz,
    })
}

#[tactic(auto, unfolding(crate::specs::Turns::axis_row_x))]
fn axis_row_x(a: &Vec3, p: &Sym3, s: Iv, k: Iv) -> Result<Vec3, NumFault>
    ensures exact { result ≡ axis_row_x_of intervals a.now p.now s k }
    ensures size { IfErr result (λ e. e ≡ NumFault.Size) }
{
    let x = dot(&[(Iv::ONE, Iv::ONE), (k.neg(), p.xx)])?;
    let y = dot(&[(k, p.xy), (a.z().neg(), s)])?;
    let z = dot(&[(k, p.xz), (a.y(), s)])?;
    Ok(Vec3::new(x, y, z))
}

#[tactic(auto, unfolding(crate::specs::Turns::axis_row_y))]
fn axis_row_y(a: &Vec3, p: &Sym3, s: Iv, k: Iv) -> Result<Vec3, NumFault>
    ensures exact { result ≡ axis_row_y_of intervals a.now p.now s k }
    ensures size { IfErr result (λ e. e ≡ NumFault.Size) }
{
    let x = dot(&[(k, p.xy), (a.z(), s)])?;
    let y = dot(&[(Iv::ONE, Iv::ONE), (k.neg(), p.yy)])?;
    let z = dot(&[(k, p.yz), (a.x().neg(), s)])?;
    Ok(Vec3::new(x, y, z))
}

#[tactic(auto, unfolding(crate::specs::Turns::axis_row_z))]
fn axis_row_z(a: &Vec3, p: &Sym3, s: Iv, k: Iv) -> Result<Vec3, NumFault>
    ensures exact { result ≡ axis_row_z_of intervals a.now p.now s k }
    ensures size { IfErr result (λ e. e ≡ NumFault.Size) }
{
    let x = dot(&[(k, p.xz), (a.y().neg(), s)])?;
    let y = dot(&[(k, p.yz), (a.x(), s)])?;
    let z = dot(&[(Iv::ONE, Iv::ONE), (k.neg(), p.zz)])?;
    Ok(Vec3::new(x, y, z))
}

/// The turn about the axis `a`, whose products are `p`: the identity, plus the sine times the table
/// of the cross product with `a`, plus one less the cosine times its square. It is refused with
/// `Size` exactly where one of its steps is.
#[tactic(auto, unfolding(crate::specs::Turns::turn_about))]
pub fn turn_about(a: &Vec3, p: &Sym3, t: &SineCosine) -> Result<Mat3, NumFault>
    ensures exact { result ≡ turn_about_of intervals a.now p.now t.now }
    ensures encloses { IfOk result (EnclosesTurnAbout a.now p.now t.now) }
    ensures size { IfErr result (λ e. e ≡ NumFault.Size) }
{
    let k = Iv::ONE.sub(t.cos)?;
    let x = axis_row_x(a, p, t.sin, k)?;
    let y = axis_row_y(a, p, t.sin, k)?;
    let z = axis_row_z(a, p, t.sin, k)?;
    Ok(Mat3::new(x, y, z))
}

/// The turn about the third axis.
#[tactic(auto, unfolding(rb_flat::specs::Turns::about_z))]
pub fn turn_level(t: &SineCosine) -> Mat3
    ensures exact { result ≡ about_z_of (signs_of intervals) t.now }
    ensures encloses { EnclosesTurnLevel t.now result }
{
    Mat3::new(
        Vec3::new(t.cos, t.sin.neg(), Iv::ZERO),
        Vec3::new(t.sin, t.cos, Iv::ZERO),
        Vec3::new(Iv::ZERO, Iv::ZERO, Iv::ONE),
    )
}

#[tactic(auto, unfolding(crate::specs::Turns::quaternion_row_x))]
fn quaternion_row_x(q: &Quaternion, d: &Vec3) -> Result<Vec3, NumFault>
    ensures exact { result ≡ quaternion_row_x_of intervals q.now d.now }
    ensures size { IfErr result (λ e. e ≡ NumFault.Size) }
{
    let x = dot(&[(Iv::ONE, Iv::ONE), (d.y().neg(), q.y), (d.z().neg(), q.z)])?;
    let y = dot(&[(d.x(), q.y), (d.z().neg(), q.w)])?;
    let z = dot(&[(d.x(), q.z), (d.y(), q.w)])?;
    Ok(Vec3::new(x, y, z))
}

#[tactic(auto, unfolding(crate::specs::Turns::quaternion_row_y))]
fn quaternion_row_y(q: &Quaternion, d: &Vec3) -> Result<Vec3, NumFault>
    ensures exact { result ≡ quaternion_row_y_of intervals q.now d.now }
    ensures size { IfErr result (λ e. e ≡ NumFault.Size) }
{
    let x = dot(&[(d.x(), q.y), (d.z(), q.w)])?;
    let y = dot(&[(Iv::ONE, Iv::ONE), (d.x().neg(), q.x), (d.z().neg(), q.z)])?;
    let z = dot(&[(d.y(), q.z), (d.x().neg(), q.w)])?;
    Ok(Vec3::new(x, y, z))
}

#[tactic(auto, unfolding(crate::specs::Turns::quaternion_row_z))]
fn quaternion_row_z(q: &Quaternion, d: &Vec3) -> Result<Vec3, NumFault>
    ensures exact { result ≡ quaternion_row_z_of intervals q.now d.now }
    ensures size { IfErr result (λ e. e ≡ NumFault.Size) }
{
    let x = dot(&[(d.x(), q.z), (d.y().neg(), q.w)])?;
    let y = dot(&[(d.y(), q.z), (d.x(), q.w)])?;
    let z = dot(&[(Iv::ONE, Iv::ONE), (d.x().neg(), q.x), (d.y().neg(), q.y)])?;
    Ok(Vec3::new(x, y, z))
}

// Twice the vector part.
#[tactic(auto, unfolding(crate::specs::Turns::twice))]
fn twice(q: &Quaternion) -> Result<Vec3, NumFault>
    ensures exact { result ≡ twice_of intervals q.now }
    ensures size { IfErr result (λ e. e ≡ NumFault.Size) }
{
    let x = q.x.add(q.x)?;
    let y = q.y.add(q.y)?;
    let z = q.z.add(q.z)?;
    Ok(Vec3::new(x, y, z))
}

/// The turn of a quaternion: the identity, plus twice `w` times the table of the cross product with
/// the vector part, plus twice its square. It is refused with `Size` exactly where one of its steps
/// is.
#[tactic(auto, unfolding(crate::specs::Turns::turn_of))]
pub fn turn_of(q: &Quaternion) -> Result<Mat3, NumFault>
    ensures exact { result ≡ turn_of_quaternion intervals q.now }
    ensures encloses { IfOk result (EnclosesTurnOf q.now) }
    ensures size { IfErr result (λ e. e ≡ NumFault.Size) }
{
    let d = twice(q)?;
    let x = quaternion_row_x(q, &d)?;
    let y = quaternion_row_y(q, &d)?;
    let z = quaternion_row_z(q, &d)?;
    Ok(Mat3::new(x, y, z))
}
