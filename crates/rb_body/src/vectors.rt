ghost use Rattle.std.specs.Prelude.{◌≡◌};
ghost use Rattle.rb_spatial.specs.Vectors.{vector_of, symmetric_of};
ghost use Rattle.rb_flat.specs.Choice.{AreOrdered, SixOrdered};

use rb_num::Iv;
use rb_spatial::{Sym3, Vec3};

// The vector of these parts.
pub fn vector(parts: &[Iv; 3]) -> Vec3
    ensures { result ≡ vector_of parts.now }
{
    Vec3::new(parts[0], parts[1], parts[2])
}

// The six numbers as a table.
pub fn table(six: &[Iv; 6]) -> Sym3
    ensures { result ≡ symmetric_of six.now }
{
    Sym3 {
        xx: six[0],
        xy: six[1],
        xz: six[2],
        yy: six[3],
        yz: six[4],
        zz: six[5],
    }
}

// The ends of each part are in order.
pub fn three_in_order(parts: &[Iv; 3])
    ensures { AreOrdered (vector_of parts.now) }
{
    let [x, y, z] = *parts;
    let _bounds = (x.lo(), y.lo(), z.lo());
}

// The ends of each number are in order.
pub fn six_in_order(six: &[Iv; 6])
    ensures { SixOrdered (symmetric_of six.now) }
{
    let [xx, xy, xz, yy, yz, zz] = *six;
    let _bounds = (xx.lo(), xy.lo(), xz.lo(), yy.lo(), yz.lo(), zz.lo());
}
