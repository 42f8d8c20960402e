ghost use Rattle.std.specs.Prelude.{◌≡◌, ◌≤◌, ◌↔◌, IsTrue, max, min};
ghost use Rattle.rb_work.specs.Path.{IsOn, is_on};
ghost use Rattle.rb_work.specs.View.{columns_of, X_at, T_at, mass_at, x_at, y_at, lam_at};

use crate::work::Work;
use rb_num::Iv;
use rb_spatial::Place;

/// What the tasks ask for.
impl Work {
    /// The place of body `i` in its parent: `X[i]`.
    #[inline]
    pub fn place(&self, i: u32) -> &Place
        requires { i ≤ self.now.bodies }
        ensures { result.now ≡ X_at self.now i }
    {
        &self.by_body.X[i as usize]
    }

    /// The torque of column `c`: `T[c]`.
    #[inline]
    pub fn torque(&self, c: u32) -> Iv
        requires { c ≤ columns_of self.now }
        ensures { result ≡ T_at self.now c }
    {
        self.by_column.T[c as usize]
    }

    /// Whether column `d` is column `c` or one of its ancestors: what `L` asks for.
    pub fn is_on(&self, c: u32, d: u32) -> bool
        requires { c ≤ columns_of self.now }
        ensures exact { result ≡ is_on self.now.up c d }
        ensures on { IsTrue result ↔ IsOn self.now.up c d }
    {
        let _sizes = self.columns();
        let mut at = c;
        while d < at {
            at = self.up(at);
        }
        at != 0 && at == d
    }

    /// The entry of the mass table for columns `c` and `d`: `M[c.d]`, and 0 where neither is the other or its ancestor.
    pub fn mass(&self, c: u32, d: u32) -> Iv
        requires first { c ≤ columns_of self.now }
        requires second { d ≤ columns_of self.now }
        ensures { result ≡ mass_at self.now c d }
    {
        if self.is_on(c.max(d), c.min(d)) {
            self.M(c, d)
        } else {
            Iv::ZERO
        }
    }

    /// The acceleration of column `c`: `x[c]`.
    #[inline]
    pub fn accel(&self, c: u32) -> Iv
        requires { c ≤ columns_of self.now }
        ensures { result ≡ x_at self.now c }
    {
        self.by_column.x[c as usize]
    }

    /// The speed of column `c` after an impact: `y[c]`.
    #[inline]
    pub fn speed_after(&self, c: u32) -> Iv
        requires { c ≤ columns_of self.now }
        ensures { result ≡ y_at self.now c }
    {
        self.by_column.y[c as usize]
    }

    /// The force of row `r`, or its impulse: `lam[r]`.
    #[inline]
    pub fn row_force(&self, r: u32) -> Iv
        requires { r ≤ self.now.rows }
        ensures { result ≡ lam_at self.now r }
    {
        self.by_row.lam[r as usize]
    }
}
