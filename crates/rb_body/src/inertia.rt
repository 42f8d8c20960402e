ghost use Rattle.std.specs.Prelude.{◌≡◌, ◌↔◌, IfOk, IfErr, IsErrOf};
ghost use Rattle.rb_num.specs.Arith.{intervals};
ghost use Rattle.rb_spatial.specs.Vectors.{vector_of};
ghost use Rattle.rb_joint.specs.Frames.{AreAngles};
ghost use Rattle.rb_body.specs.Raw.{link_brackets};
ghost use Rattle.rb_body.specs.Inertia.{turned as turned_of, moved as moved_of, body as body_of, inertia_by, EnclosesInertia};

use crate::faults::BodyFault;
use crate::raw::LinkRaw;
use crate::vectors::{table, vector};
use rb_joint::frame_of;
use rb_num::{Iv, NumFault, dot};
use rb_spatial::{BodyInertia, Mat3, Sym3, Vec3, multiple, product, upper_product};

// The inertia `j` along axes that stand by the rotation `r`.
#[tactic(auto, unfolding(crate::specs::Inertia::turned))]
fn turned(r: &Mat3, j: &Sym3) -> Result<Sym3, NumFault>
    ensures exact { result ≡ turned_of intervals r.now j.now }
    ensures size { IfErr result (λ e. e ≡ NumFault.Size) }
{
    let t = product(r, &j.full())?;
    upper_product(&t, r)
}

// The inertia `j` about the centre `c`, taken about the origin, where the first moment is `h`.
#[tactic(auto, unfolding(crate::specs::Inertia::moved))]
fn moved(j: &Sym3, h: &Vec3, c: &Vec3) -> Result<Sym3, NumFault>
    ensures exact { result ≡ moved_of intervals j.now h.now c.now }
    ensures size { IfErr result (λ e. e ≡ NumFault.Size) }
{
    let xx = dot(&[(j.xx, Iv::ONE), (h.y(), c.y()), (h.z(), c.z())])?;
    let xy = dot(&[(j.xy, Iv::ONE), (h.x().neg(), c.y())])?;
    let xz = dot(&[(j.xz, Iv::ONE), (h.x().neg(), c.z())])?;
    let yy = dot(&[(j.yy, Iv::ONE), (h.x(), c.x()), (h.z(), c.z())])?;
    let yz = dot(&[(j.yz, Iv::ONE), (h.y().neg(), c.z())])?;
    let zz = dot(&[(j.zz, Iv::ONE), (h.x(), c.x()), (h.y(), c.y())])?;
    Ok(Sym3 {
        xx,
        xy,
        xz,
        yy,
        yz,
        zz,
    })
}

// The body of this mass and centre, whose inertia about the centre is `j` along axes that stand by
// the rotation `r`.
#[tactic(auto, unfolding(crate::specs::Inertia::body))]
fn body(r: &Mat3, mass: Iv, centre: &Vec3, j: &Sym3) -> Result<BodyInertia, NumFault>
    ensures exact { result ≡ body_of intervals r.now mass centre.now j.now }
    ensures size { IfErr result (λ e. e ≡ NumFault.Size) }
{
    let about_centre = turned(r, j)?;
    let first = multiple(mass, centre)?;
    let six = moved(&about_centre, &first, centre)?;
    Ok(BodyInertia::new(
        mass,
        first,
        [six.xx, six.xy, six.xz, six.yy, six.yz, six.zz],
    ))
}

/// The inertia that a link gives its body: its mass, its first moment, and its rotational inertia
/// about the body's origin. The inertia about the centre is turned from the axes of the link's `rpy`
/// to those of the body, and then moved to the origin (Featherstone, chapter 2).
///
/// It is refused with `AngleRange` exactly where an end of an angle is larger in size than eight
/// radians, else with `Size` exactly where a step is, and never with `ZeroAxis`.
#[tactic(auto, unfolding(crate::specs::Inertia::inertia_by))]
pub fn inertia_of(link: &LinkRaw) -> Result<BodyInertia, BodyFault>
    ensures exact { result ≡ inertia_by (link_brackets link.now) }
    ensures encloses { IfOk result (EnclosesInertia (link_brackets link.now)) }
    ensures range { IsErrOf result BodyFault.AngleRange ↔ ¬ AreAngles (vector_of link.now.rpy) }
    ensures axis { ¬ IsErrOf result BodyFault.ZeroAxis }
{
    let centre = vector(&link.com);
    let frame = frame_of(&centre, &vector(&link.rpy))?;
    Ok(body(&frame.rot, link.mass, &centre, &table(&link.six))?)
}
