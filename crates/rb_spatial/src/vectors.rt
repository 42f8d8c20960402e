ghost use Rattle.std.specs.Prelude.{◌≡◌, ◌<◌, IfSome};
ghost use Rattle.rb_num.specs.Arith.{intervals, signs_of};
ghost use Rattle.rb_frac.specs.Tables.{transpose as transpose_of, full as full_of, component as component_of, row as row_of, cross_table as cross_table_of};

use crate::narrow::{NarrowMat3, NarrowSym3, NarrowVec3};
use rb_num::Iv;
use std::marker::Model;

/// A vector of three intervals.
#[derive(Clone, Copy, Debug, PartialEq, Eq)]
pub struct Vec3([Iv; 3]);

impl Model for Vec3 {
    ghost use Rattle.std.specs.Prelude.{◌≡◌, List, length};
    ghost use Rattle.std.proofs.Common.{ap};
    ghost use Rattle.rb_frac.specs.Ops.{V3};
    ghost use Rattle.rb_num.specs.Interval.{Interval};
    ghost use Rattle.rb_spatial.specs.Vectors.{vector_of, list_of, list_of-vector_of};

    ghost Value = { V3 Interval };

    ghost view = { λ a. vector_of a.0 };

    ghost invariant = { λ a. length a.0 ≡ 3 };

    ghost inverse = { λ v. record { 0 = list_of v } };

    ghost inverse_ok = { λ a h. ap (λ (l : List Interval). record { 0 = l }) (list_of-vector_of a.0 h) };
}

impl Vec3 {
    /// The vector of these parts.
    #[inline]
    pub fn new(x: Iv, y: Iv, z: Iv) -> Vec3
        ensures { result ≡ record { x = x; y = y; z = z } }
    {
        Vec3([x, y, z])
    }

    /// The part along x.
    #[inline]
    pub fn x(&self) -> Iv
        ensures { result ≡ self.now.x }
    {
        self.0[0]
    }

    /// The part along y.
    #[inline]
    pub fn y(&self) -> Iv
        ensures { result ≡ self.now.y }
    {
        self.0[1]
    }

    /// The part along z.
    #[inline]
    pub fn z(&self) -> Iv
        ensures { result ≡ self.now.z }
    {
        self.0[2]
    }

    /// The same vector, where its parts are narrow.
    #[inline(always)]
    pub fn narrow(&self) -> Option<NarrowVec3>
        ensures { IfSome result (λ v. v ≡ self.now) }
    {
        let [x, y, z] = &self.0;
        Some(NarrowVec3 {
            x: x.narrow()?,
            y: y.narrow()?,
            z: z.narrow()?,
        })
    }

    /// Component `k`, from 0.
    #[inline]
    pub fn component(&self, k: usize) -> Iv
        requires { k < 3 }
        ensures { result ≡ component_of self.now k }
    {
        match k {
            0 => self.x(),
            1 => self.y(),
            _ => self.z(),
        }
    }

    /// The table of the cross product with this vector.
    #[inline]
    pub fn cross_table(&self) -> Mat3
        ensures { result ≡ cross_table_of (signs_of intervals) self.now }
    {
        Mat3::new(
            Vec3::new(Iv::ZERO, self.z().neg(), self.y()),
            Vec3::new(self.z(), Iv::ZERO, self.x().neg()),
            Vec3::new(self.y().neg(), self.x(), Iv::ZERO),
        )
    }
}

/// A table of three rows of three intervals.
#[derive(Clone, Copy, Debug)]
pub struct Mat3([[Iv; 3]; 3]);

impl Model for Mat3 {
    ghost use Rattle.std.specs.Prelude.{◌≡◌, List};
    ghost use Rattle.std.proofs.Common.{ap};
    ghost use Rattle.rb_num.specs.Interval.{Interval};
    ghost use Rattle.rb_frac.specs.Tables.{Table};
    ghost use Rattle.rb_spatial.specs.Vectors.{IsSquare, table_of, lists_of, lists_of-table_of};

    ghost Value = { Table Interval };

    ghost view = { λ a. table_of a.0 };

    ghost invariant = { λ a. IsSquare a.0 };

    ghost inverse = { λ v. record { 0 = lists_of v } };

    ghost inverse_ok = { λ a h. ap (λ (l : List (List Interval)). record { 0 = l }) (lists_of-table_of a.0 h) };
}

impl PartialEq for Mat3 {
    ghost use Rattle.std.proofs.Common.{rules};
    ghost use Rattle.std.specs.Cmp.Rules.{comparing};
    ghost use Rattle.rb_spatial.specs.Vectors.{table_eq};

    ghost eq = { table_eq };

    ghost laws = { Prim.search (comparing, rules) depth 12 };

    fn eq(&self, other: &Mat3) -> bool {
        self.x() == other.x() && self.y() == other.y() && self.z() == other.z()
    }
}

impl Eq for Mat3 {
    ghost use Rattle.std.proofs.Common.{rules};
    ghost use Rattle.std.specs.Cmp.Rules.{comparing};

    ghost laws = { Prim.search (comparing, rules) depth 12 };
}

impl Mat3 {
    /// The table of these rows.
    #[inline]
    pub fn new(x: Vec3, y: Vec3, z: Vec3) -> Mat3
        ensures { result ≡ record { x = x; y = y; z = z } }
    {
        Mat3([
            [x.x(), x.y(), x.z()],
            [y.x(), y.y(), y.z()],
            [z.x(), z.y(), z.z()],
        ])
    }

    /// The first row.
    #[inline]
    pub fn x(&self) -> Vec3
        ensures { result ≡ self.now.x }
    {
        Vec3(self.0[0])
    }

    /// The second row.
    #[inline]
    pub fn y(&self) -> Vec3
        ensures { result ≡ self.now.y }
    {
        Vec3(self.0[1])
    }

    /// The third row.
    #[inline]
    pub fn z(&self) -> Vec3
        ensures { result ≡ self.now.z }
    {
        Vec3(self.0[2])
    }

    /// The same table, where its entries are narrow.
    #[inline(always)]
    pub(crate) fn narrow(&self) -> Option<NarrowMat3>
        ensures { IfSome result (λ t. t ≡ self.now) }
    {
        Some(NarrowMat3 {
            x: self.x().narrow()?,
            y: self.y().narrow()?,
            z: self.z().narrow()?,
        })
    }

    /// Row `k`, from 0.
    #[inline]
    pub fn row(&self, k: usize) -> Vec3
        requires { k < 3 }
        ensures { result ≡ row_of self.now k }
    {
        match k {
            0 => self.x(),
            1 => self.y(),
            _ => self.z(),
        }
    }

    /// The table whose rows are the columns of this one.
    #[inline]
    pub fn transpose(&self) -> Mat3
        ensures { result ≡ transpose_of self.now }
    {
        let (x, y, z) = (self.x(), self.y(), self.z());
        Mat3::new(
            Vec3::new(x.x(), y.x(), z.x()),
            Vec3::new(x.y(), y.y(), z.y()),
            Vec3::new(x.z(), y.z(), z.z()),
        )
    }
}

/// A symmetric table of three rows: its entries on and above the diagonal.
#[derive(Clone, Copy, Debug, PartialEq, Eq)]
pub struct Sym3 {
    pub xx: Iv,
    pub xy: Iv,
    pub xz: Iv,
    pub yy: Iv,
    pub yz: Iv,
    pub zz: Iv,
}

impl Model for Sym3 {
    ghost use Rattle.rb_num.specs.Interval.{Interval};
    ghost use Rattle.rb_frac.specs.Tables.{Symmetric};

    ghost Value = { Symmetric Interval };

    ghost view = { λ s. record { xx = s.xx; xy = s.xy; xz = s.xz; yy = s.yy; yz = s.yz; zz = s.zz } };

    ghost inverse = { λ s. record { xx = s.xx; xy = s.xy; xz = s.xz; yy = s.yy; yz = s.yz; zz = s.zz } };
}

impl Sym3 {
    /// All nine entries.
    #[inline]
    pub fn full(&self) -> Mat3
        ensures { result ≡ full_of self.now }
    {
        Mat3::new(
            Vec3::new(self.xx, self.xy, self.xz),
            Vec3::new(self.xy, self.yy, self.yz),
            Vec3::new(self.xz, self.yz, self.zz),
        )
    }

    /// The same table, where its entries are narrow.
    #[inline(always)]
    pub(crate) fn narrow(&self) -> Option<NarrowSym3>
        ensures { IfSome result (λ s. s ≡ self.now) }
    {
        Some(NarrowSym3 {
            xx: self.xx.narrow()?,
            xy: self.xy.narrow()?,
            xz: self.xz.narrow()?,
            yy: self.yy.narrow()?,
            yz: self.yz.narrow()?,
            zz: self.zz.narrow()?,
        })
    }
}
