ghost use Rattle.std.specs.Prelude.{◌≡◌, ◌≤◌, slice_set, max, min};
ghost use Rattle.rb_work.specs.Path.{IsOn, packed_place};
ghost use Rattle.rb_work.specs.View.{columns_of, full_place, H_at, M_at, D_at, w_at, z_at, x_at, u_at, k_at, y_at};

use crate::work::Work;
use rb_num::Iv;

/// The values of columns, and of two columns.
impl Work {
    /// `H[k.l]`: the entry of full columns `k` and `l`.
    #[inline]
    pub fn H(&self, k: u32, l: u32) -> Iv
        requires first { k ≤ self.now.full }
        requires second { l ≤ k }
        ensures { result ≡ H_at self.now k l }
    {
        self.by_column.H[self.full_place(k, l)]
    }

    /// Puts `H[k.l]`.
    #[inline]
    pub fn set_H(&mut self, k: u32, l: u32, value: Iv)
        requires first { k ≤ self.old.full }
        requires second { l ≤ k }
        ensures { self.new ≡ record self.old { H = slice_set self.old.H (full_place self.old k l) value } }
    {
        let place = self.full_place(k, l);
        self.by_column.H[place] = value;
    }

    /// `M[c.d]`: the entry of the mass table for columns `c` and `d`.
    #[inline]
    pub fn M(&self, c: u32, d: u32) -> Iv
        requires first { c ≤ columns_of self.now }
        requires second { d ≤ columns_of self.now }
        requires pair { IsOn self.now.up (max c d) (min c d) }
        ensures { result ≡ M_at self.now c d }
    {
        self.by_column.packed[self.packed_place(c.max(d), c.min(d))]
    }

    /// Puts `M[c.d]`.
    #[inline]
    pub fn set_M(&mut self, c: u32, d: u32, value: Iv)
        requires first { c ≤ columns_of self.old }
        requires second { d ≤ columns_of self.old }
        requires pair { IsOn self.old.up (max c d) (min c d) }
        ensures { self.new ≡ record self.old { packed = slice_set self.old.packed (packed_place self.old.up (max c d) (min c d)) value } }
    {
        let place = self.packed_place(c.max(d), c.min(d));
        self.by_column.packed[place] = value;
    }

    /// `D[c]`: the pivot of column `c`.
    #[inline]
    pub fn D(&self, c: u32) -> Iv
        requires from { 1 ≤ c }
        requires to { c ≤ columns_of self.now }
        ensures { result ≡ D_at self.now c }
    {
        self.by_column.packed[self.pivot_place(c)]
    }

    /// Puts `D[c]`.
    #[inline]
    pub fn set_D(&mut self, c: u32, value: Iv)
        requires from { 1 ≤ c }
        requires to { c ≤ columns_of self.old }
        ensures { self.new ≡ record self.old { packed = slice_set self.old.packed (packed_place self.old.up c c) value } }
    {
        let place = self.pivot_place(c);
        self.by_column.packed[place] = value;
    }

    /// `w[c]`: the right side at column `c`, and what the first step leaves of it.
    #[inline]
    pub fn w(&self, c: u32) -> Iv
        requires { c ≤ columns_of self.now }
        ensures { result ≡ w_at self.now c }
    {
        self.by_column.w[c as usize]
    }

    /// Puts `w[c]`.
    #[inline]
    pub fn set_w(&mut self, c: u32, value: Iv)
        requires { c ≤ columns_of self.old }
        ensures { self.new ≡ record self.old { w = slice_set self.old.w c value } }
    {
        self.by_column.w[c as usize] = value;
    }

    /// `z[c]`: the quotient at column `c`.
    #[inline]
    pub fn z(&self, c: u32) -> Iv
        requires { c ≤ columns_of self.now }
        ensures { result ≡ z_at self.now c }
    {
        self.by_column.z[c as usize]
    }

    /// Puts `z[c]`.
    #[inline]
    pub fn set_z(&mut self, c: u32, value: Iv)
        requires { c ≤ columns_of self.old }
        ensures { self.new ≡ record self.old { z = slice_set self.old.z c value } }
    {
        self.by_column.z[c as usize] = value;
    }

    /// `x[c]`: the solution at column `c`.
    #[inline]
    pub fn x(&self, c: u32) -> Iv
        requires { c ≤ columns_of self.now }
        ensures { result ≡ x_at self.now c }
    {
        self.by_column.x[c as usize]
    }

    /// Puts `x[c]`.
    #[inline]
    pub fn set_x(&mut self, c: u32, value: Iv)
        requires { c ≤ columns_of self.old }
        ensures { self.new ≡ record self.old { x = slice_set self.old.x c value } }
    {
        self.by_column.x[c as usize] = value;
    }

    /// `u[c]`: the torque of column `c` that is left.
    #[inline]
    pub fn u(&self, c: u32) -> Iv
        requires { c ≤ columns_of self.now }
        ensures { result ≡ u_at self.now c }
    {
        self.by_column.u[c as usize]
    }

    /// Puts `u[c]`.
    #[inline]
    pub fn set_u(&mut self, c: u32, value: Iv)
        requires { c ≤ columns_of self.old }
        ensures { self.new ≡ record self.old { u = slice_set self.old.u c value } }
    {
        self.by_column.u[c as usize] = value;
    }

    /// `k[c]`: the torque of column `c` less its bias.
    #[inline]
    pub fn k(&self, c: u32) -> Iv
        requires { c ≤ columns_of self.now }
        ensures { result ≡ k_at self.now c }
    {
        self.by_column.k[c as usize]
    }

    /// Puts `k[c]`.
    #[inline]
    pub fn set_k(&mut self, c: u32, value: Iv)
        requires { c ≤ columns_of self.old }
        ensures { self.new ≡ record self.old { k = slice_set self.old.k c value } }
    {
        self.by_column.k[c as usize] = value;
    }

    /// `y[c]`: the speed of column `c` afterwards.
    #[inline]
    pub fn y(&self, c: u32) -> Iv
        requires { c ≤ columns_of self.now }
        ensures { result ≡ y_at self.now c }
    {
        self.by_column.y[c as usize]
    }

    /// Puts `y[c]`.
    #[inline]
    pub fn set_y(&mut self, c: u32, value: Iv)
        requires { c ≤ columns_of self.old }
        ensures { self.new ≡ record self.old { y = slice_set self.old.y c value } }
    {
        self.by_column.y[c as usize] = value;
    }
}
