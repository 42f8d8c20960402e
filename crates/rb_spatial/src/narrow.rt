//! Vectors, tables and inertias whose parts are narrow: what is found from them needs no test of its products.
ghost use Rattle.std.specs.Prelude.{◌≡◌, IfSome};
ghost use Rattle.rb_num.specs.Arith.{intervals, signs_of};
ghost use Rattle.rb_frac.specs.Tables.{transpose as transpose_of, full as full_of};

use crate::vectors::{Mat3, Sym3, Vec3};
use rb_num::Narrow;
use std::marker::Model;

/// A vector of three narrow intervals.
#[derive(Clone, Copy, Debug)]
pub struct NarrowVec3 {
    pub x: Narrow,
    pub y: Narrow,
    pub z: Narrow,
}

impl Model for NarrowVec3 {
    ghost use Rattle.rb_frac.specs.Ops.{V3};
    ghost use Rattle.rb_num.specs.Interval.{Interval};

    ghost Value = { V3 Interval };

    ghost view = { λ a. record { x = a.x; y = a.y; z = a.z } };

    ghost inverse = { λ v. record { x = v.x; y = v.y; z = v.z } };
}

impl NarrowVec3 {
    /// The same vector.
    #[inline(always)]
    pub fn wide(&self) -> Vec3
        ensures { result ≡ self.now }
    {
        Vec3::new(self.x.wide(), self.y.wide(), self.z.wide())
    }
}

/// A table of three rows of three narrow intervals.
#[derive(Clone, Copy, Debug)]
pub(crate) struct NarrowMat3 {
    pub(crate) x: NarrowVec3,
    pub(crate) y: NarrowVec3,
    pub(crate) z: NarrowVec3,
}

impl Model for NarrowMat3 {
    ghost use Rattle.rb_num.specs.Interval.{Interval};
    ghost use Rattle.rb_frac.specs.Tables.{Table};

    ghost Value = { Table Interval };

    ghost view = { λ a. record { x = a.x; y = a.y; z = a.z } };

    ghost inverse = { λ v. record { x = v.x; y = v.y; z = v.z } };
}

impl NarrowMat3 {
    /// The same table.
    #[inline(always)]
    pub(crate) fn wide(&self) -> Mat3
        ensures { result ≡ self.now }
    {
        Mat3::new(self.x.wide(), self.y.wide(), self.z.wide())
    }

    /// The table whose rows are the columns of this one.
    #[inline(always)]
    pub(crate) fn transpose(&self) -> NarrowMat3
        ensures { result ≡ transpose_of self.now }
    {
        NarrowMat3 {
            x: NarrowVec3 {
                x: self.x.x,
                y: self.y.x,
                z: self.z.x,
            },
            y: NarrowVec3 {
                x: self.x.y,
                y: self.y.y,
                z: self.z.y,
            },
            z: NarrowVec3 {
                x: self.x.z,
                y: self.y.z,
                z: self.z.z,
            },
        }
    }
}

/// A symmetric table of narrow intervals: its entries on and above the diagonal.
#[derive(Clone, Copy, Debug)]
pub(crate) struct NarrowSym3 {
    pub(crate) xx: Narrow,
    pub(crate) xy: Narrow,
    pub(crate) xz: Narrow,
    pub(crate) yy: Narrow,
    pub(crate) yz: Narrow,
    pub(crate) zz: Narrow,
}

impl Model for NarrowSym3 {
    ghost use Rattle.rb_num.specs.Interval.{Interval};
    ghost use Rattle.rb_frac.specs.Tables.{Symmetric};

    ghost Value = { Symmetric Interval };

    ghost view = { λ s. record { xx = s.xx; xy = s.xy; xz = s.xz; yy = s.yy; yz = s.yz; zz = s.zz } };

    ghost inverse = { λ s. record { xx = s.xx; xy = s.xy; xz = s.xz; yy = s.yy; yz = s.yz; zz = s.zz } };
}

impl NarrowSym3 {
    /// The same table.
    #[inline(always)]
    pub(crate) fn wide(&self) -> Sym3
        ensures { result ≡ self.now }
    {
        Sym3 {
            xx: self.xx.wide(),
            xy: self.xy.wide(),
            xz: self.xz.wide(),
            yy: self.yy.wide(),
            yz: self.yz.wide(),
            zz: self.zz.wide(),
        }
    }

    /// All nine entries.
    #[inline(always)]
    pub(crate) fn full(&self) -> NarrowMat3
        ensures { result ≡ full_of self.now }
    {
        NarrowMat3 {
            x: NarrowVec3 {
                x: self.xx,
                y: self.xy,
                z: self.xz,
            },
            y: NarrowVec3 {
                x: self.xy,
                y: self.yy,
                z: self.yz,
            },
            z: NarrowVec3 {
                x: self.xz,
                y: self.yz,
                z: self.zz,
            },
        }
    }
}
