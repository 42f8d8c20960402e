ghost use Rattle.std.specs.Prelude.{◌≡◌, ◌≤◌, slice_set, max, min};
ghost use Rattle.rb_work.specs.Path.{IsOn, packed_place};
ghost use Rattle.rb_work.specs.View.{columns_of, column_place, row_place, J_at, g_at, l_at, e_at, lam_at};

use crate::work::Work;
use rb_num::Iv;

/// The values of rows, and of two rows or a row and a column.
impl Work {
    /// `J[r.c]`: the entry of row `r` at column `c`.
    #[inline]
    pub fn J(&self, r: u32, c: u32) -> Iv
        requires row { r ≤ self.now.rows }
        requires column { c ≤ columns_of self.now }
        ensures { result ≡ J_at self.now r c }
    {
        self.by_row.J[self.column_place(r, c)]
    }

    /// Puts `J[r.c]`.
    #[inline]
    pub fn set_J(&mut self, r: u32, c: u32, value: Iv)
        requires row { r ≤ self.old.rows }
        requires column { c ≤ columns_of self.old }
        ensures { self.new ≡ record self.old { J = slice_set self.old.J (column_place self.old r c) value } }
    {
        let place = self.column_place(r, c);
        self.by_row.J[place] = value;
    }

    /// `g[r]`: the acceleration of row `r` without forces.
    #[inline]
    pub fn g(&self, r: u32) -> Iv
        requires { r ≤ self.now.rows }
        ensures { result ≡ g_at self.now r }
    {
        self.by_row.g[r as usize]
    }

    /// Puts `g[r]`.
    #[inline]
    pub fn set_g(&mut self, r: u32, value: Iv)
        requires { r ≤ self.old.rows }
        ensures { self.new ≡ record self.old { g = slice_set self.old.g r value } }
    {
        self.by_row.g[r as usize] = value;
    }

    /// `l[s.r]`: the factor of row `s` for row `r`.
    #[inline]
    pub fn l(&self, s: u32, r: u32) -> Iv
        requires first { s ≤ self.now.rows }
        requires second { r ≤ s }
        ensures { result ≡ l_at self.now s r }
    {
        self.by_row.pairs[self.row_place(s, r)]
    }

    /// Puts `l[s.r]`.
    #[inline]
    pub fn set_l(&mut self, s: u32, r: u32, value: Iv)
        requires first { s ≤ self.old.rows }
        requires second { r ≤ s }
        ensures { self.new ≡ record self.old { pairs = slice_set self.old.pairs (row_place self.old s r) value } }
    {
        let place = self.row_place(s, r);
        self.by_row.pairs[place] = value;
    }

    /// `e[r]`: the right side at row `r`.
    #[inline]
    pub fn e(&self, r: u32) -> Iv
        requires { r ≤ self.now.rows }
        ensures { result ≡ e_at self.now r }
    {
        self.by_row.e[r as usize]
    }

    /// Puts `e[r]`.
    #[inline]
    pub fn set_e(&mut self, r: u32, value: Iv)
        requires { r ≤ self.old.rows }
        ensures { self.new ≡ record self.old { e = slice_set self.old.e r value } }
    {
        self.by_row.e[r as usize] = value;
    }

    /// `lam[r]`: the force of row `r`.
    #[inline]
    pub fn lam(&self, r: u32) -> Iv
        requires { r ≤ self.now.rows }
        ensures { result ≡ lam_at self.now r }
    {
        self.by_row.lam[r as usize]
    }

    /// Puts `lam[r]`.
    #[inline]
    pub fn set_lam(&mut self, r: u32, value: Iv)
        requires { r ≤ self.old.rows }
        ensures { self.new ≡ record self.old { lam = slice_set self.old.lam r value } }
    {
        self.by_row.lam[r as usize] = value;
    }
}
