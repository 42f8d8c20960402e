ghost use Rattle.std.specs.Prelude.{◌≡◌};
ghost use Rattle.rb_work.specs.Zeros.{zero_vector as zero_vector_of, zero_motion as zero_motion_of, zero_force as zero_force_of, zero_table as zero_table_of, zero_place as zero_place_of, zero_symmetric as zero_symmetric_of, zero_inertia as zero_inertia_of};

use rb_num::Iv;
use rb_spatial::{Force, Inertia6, Mat3, Motion, Place, Sym3, Vec3};

fn zero_vector() -> Vec3
    ensures { result ≡ zero_vector_of }
{
    Vec3::new(Iv::ZERO, Iv::ZERO, Iv::ZERO)
}

#[tactic(auto, unfolding(crate::specs::Zeros::zero_motion))]
pub(crate) fn zero_motion() -> Motion
    ensures { result ≡ zero_motion_of }
{
    Motion {
        lin: zero_vector(),
        ang: zero_vector(),
    }
}

#[tactic(auto, unfolding(crate::specs::Zeros::zero_force))]
pub(crate) fn zero_force() -> Force
    ensures { result ≡ zero_force_of }
{
    Force {
        lin: zero_vector(),
        ang: zero_vector(),
    }
}

#[tactic(auto, unfolding(crate::specs::Zeros::zero_table))]
pub(crate) fn zero_table() -> Mat3
    ensures { result ≡ zero_table_of }
{
    Mat3::new(zero_vector(), zero_vector(), zero_vector())
}

#[tactic(auto, unfolding(crate::specs::Zeros::zero_place))]
pub(crate) fn zero_place() -> Place
    ensures { result ≡ zero_place_of }
{
    Place {
        e: zero_table(),
        r: zero_vector(),
    }
}

fn zero_symmetric() -> Sym3
    ensures { result ≡ zero_symmetric_of }
{
    Sym3 {
        xx: Iv::ZERO,
        xy: Iv::ZERO,
        xz: Iv::ZERO,
        yy: Iv::ZERO,
        yz: Iv::ZERO,
        zz: Iv::ZERO,
    }
}

#[tactic(auto, unfolding(crate::specs::Zeros::zero_inertia))]
pub(crate) fn zero_inertia() -> Inertia6
    ensures { result ≡ zero_inertia_of }
{
    Inertia6 {
        a: zero_symmetric(),
        b: zero_table(),
        c: zero_symmetric(),
    }
}
