ghost use Rattle.std.specs.Prelude.{◌≡◌, ◌≤◌, slice_set, max, min};
ghost use Rattle.rb_work.specs.Path.{IsOn, packed_place};
ghost use Rattle.rb_work.specs.View.{View, columns_of, column_place, row_place, X_at, T_at, L_at, IA_at, U_at, K_at, Y_at, Z_at, G_at, C_at};

use crate::work::Work;
use rb_num::Iv;
use rb_spatial::{Force, Inertia6, Place};

/// Readers and writers of the names in capitals, since methods of one type may not differ in case alone.
pub trait Capitals {
    ghost seen: { Self → View };

    /// `X[i]`: the place of body `i` in its parent.
    fn X(&self, i: u32) -> &Place
        requires { i ≤ (seen self.now).bodies }
        ensures { result.now ≡ X_at (seen self.now) i };

    /// Puts `X[i]`.
    fn set_X(&mut self, i: u32, value: Place)
        requires { i ≤ (seen self.old).bodies }
        ensures { (seen self.new) ≡ record (seen self.old) { X = slice_set (seen self.old).X i value } };

    /// `T[c]`: the torque of column `c`.
    fn T(&self, c: u32) -> Iv
        requires { c ≤ columns_of (seen self.now) }
        ensures { result ≡ T_at (seen self.now) c };

    /// Puts `T[c]`.
    fn set_T(&mut self, c: u32, value: Iv)
        requires { c ≤ columns_of (seen self.old) }
        ensures { (seen self.new) ≡ record (seen self.old) { T = slice_set (seen self.old).T c value } };

    /// `L[c.d]`: the factor of column `c` for its ancestor `d`.
    fn L(&self, c: u32, d: u32) -> Iv
        requires exists { c ≤ columns_of (seen self.now) }
        requires pair { IsOn (seen self.now).up c d }
        ensures { result ≡ L_at (seen self.now) c d };

    /// Puts `L[c.d]`.
    fn set_L(&mut self, c: u32, d: u32, value: Iv)
        requires exists { c ≤ columns_of (seen self.old) }
        requires pair { IsOn (seen self.old).up c d }
        ensures { (seen self.new) ≡ record (seen self.old) { packed = slice_set (seen self.old).packed (packed_place (seen self.old).up c d) value } };

    /// `IA[i]`: the inertia of body `i` as the articulated bodies behind it leave it.
    fn IA(&self, i: u32) -> &Inertia6
        requires { i ≤ (seen self.now).bodies }
        ensures { result.now ≡ IA_at (seen self.now) i };

    /// Puts `IA[i]`.
    fn set_IA(&mut self, i: u32, value: Inertia6)
        requires { i ≤ (seen self.old).bodies }
        ensures { (seen self.new) ≡ record (seen self.old) { IA = slice_set (seen self.old).IA i value } };

    /// `U[c]`: the force that column `c` moves its body by.
    fn U(&self, c: u32) -> &Force
        requires { c ≤ columns_of (seen self.now) }
        ensures { result.now ≡ U_at (seen self.now) c };

    /// Puts `U[c]`.
    fn set_U(&mut self, c: u32, value: Force)
        requires { c ≤ columns_of (seen self.old) }
        ensures { (seen self.new) ≡ record (seen self.old) { U = slice_set (seen self.old).U c value } };

    /// `K[r]`: the forces of row `r` on its first body and on its second.
    fn K(&self, r: u32) -> &[Force; 2]
        requires { r ≤ (seen self.now).rows }
        ensures { result.now ≡ K_at (seen self.now) r };

    /// Puts `K[r]`.
    fn set_K(&mut self, r: u32, value: [Force; 2])
        requires { r ≤ (seen self.old).rows }
        ensures { (seen self.new) ≡ record (seen self.old) { K = slice_set (seen self.old).K r value } };

    /// `Y[r.c]`: the first step on row `r` at column `c`.
    fn Y(&self, r: u32, c: u32) -> Iv
        requires row { r ≤ (seen self.now).rows }
        requires column { c ≤ columns_of (seen self.now) }
        ensures { result ≡ Y_at (seen self.now) r c };

    /// Puts `Y[r.c]`.
    fn set_Y(&mut self, r: u32, c: u32, value: Iv)
        requires row { r ≤ (seen self.old).rows }
        requires column { c ≤ columns_of (seen self.old) }
        ensures { (seen self.new) ≡ record (seen self.old) { Y = slice_set (seen self.old).Y (column_place (seen self.old) r c) value } };

    /// `Z[r.c]`: the quotient of row `r` at column `c`.
    fn Z(&self, r: u32, c: u32) -> Iv
        requires row { r ≤ (seen self.now).rows }
        requires column { c ≤ columns_of (seen self.now) }
        ensures { result ≡ Z_at (seen self.now) r c };

    /// Puts `Z[r.c]`.
    fn set_Z(&mut self, r: u32, c: u32, value: Iv)
        requires row { r ≤ (seen self.old).rows }
        requires column { c ≤ columns_of (seen self.old) }
        ensures { (seen self.new) ≡ record (seen self.old) { Z = slice_set (seen self.old).Z (column_place (seen self.old) r c) value } };

    /// `G[r.s]`: the entry of rows `r` and `s`.
    fn G(&self, r: u32, s: u32) -> Iv
        requires first { r ≤ (seen self.now).rows }
        requires second { s ≤ r }
        ensures { result ≡ G_at (seen self.now) r s };

    /// Puts `G[r.s]`.
    fn set_G(&mut self, r: u32, s: u32, value: Iv)
        requires first { r ≤ (seen self.old).rows }
        requires second { s ≤ r }
        ensures { (seen self.new) ≡ record (seen self.old) { pairs = slice_set (seen self.old).pairs (row_place (seen self.old) r s) value } };

    /// `C[r]`: the pivot of row `r`.
    fn C(&self, r: u32) -> Iv
        requires { r ≤ (seen self.now).rows }
        ensures { result ≡ C_at (seen self.now) r };

    /// Puts `C[r]`.
    fn set_C(&mut self, r: u32, value: Iv)
        requires { r ≤ (seen self.old).rows }
        ensures { (seen self.new) ≡ record (seen self.old) { pairs = slice_set (seen self.old).pairs (row_place (seen self.old) r r) value } };
}

impl Capitals for Work {
    ghost seen = { λ w. w };

    #[inline]
    fn X(&self, i: u32) -> &Place {
        &self.by_body.X[i as usize]
    }

    #[inline]
    fn set_X(&mut self, i: u32, value: Place) {
        self.by_body.X[i as usize] = value;
    }

    #[inline]
    fn T(&self, c: u32) -> Iv {
        self.by_column.T[c as usize]
    }

    #[inline]
    fn set_T(&mut self, c: u32, value: Iv) {
        self.by_column.T[c as usize] = value;
    }

    #[inline]
    fn L(&self, c: u32, d: u32) -> Iv {
        self.by_column.packed[self.packed_place(c, d)]
    }

    #[inline]
    fn set_L(&mut self, c: u32, d: u32, value: Iv) {
        let place = self.packed_place(c, d);
        self.by_column.packed[place] = value;
    }

    #[inline]
    fn IA(&self, i: u32) -> &Inertia6 {
        &self.by_body.IA[i as usize]
    }

    #[inline]
    fn set_IA(&mut self, i: u32, value: Inertia6) {
        self.by_body.IA[i as usize] = value;
    }

    #[inline]
    fn U(&self, c: u32) -> &Force {
        &self.by_column.U[c as usize]
    }

    #[inline]
    fn set_U(&mut self, c: u32, value: Force) {
        self.by_column.U[c as usize] = value;
    }

    #[inline]
    fn K(&self, r: u32) -> &[Force; 2] {
        &self.by_row.K[r as usize]
    }

    #[inline]
    fn set_K(&mut self, r: u32, value: [Force; 2]) {
        self.by_row.K[r as usize] = value;
    }

    #[inline]
    fn Y(&self, r: u32, c: u32) -> Iv {
        self.by_row.Y[self.column_place(r, c)]
    }

    #[inline]
    fn set_Y(&mut self, r: u32, c: u32, value: Iv) {
        let place = self.column_place(r, c);
        self.by_row.Y[place] = value;
    }

    #[inline]
    fn Z(&self, r: u32, c: u32) -> Iv {
        self.by_row.Z[self.column_place(r, c)]
    }

    #[inline]
    fn set_Z(&mut self, r: u32, c: u32, value: Iv) {
        let place = self.column_place(r, c);
        self.by_row.Z[place] = value;
    }

    #[inline]
    fn G(&self, r: u32, s: u32) -> Iv {
        self.by_row.pairs[self.row_place(r, s)]
    }

    #[inline]
    fn set_G(&mut self, r: u32, s: u32, value: Iv) {
        let place = self.row_place(r, s);
        self.by_row.pairs[place] = value;
    }

    #[inline]
    fn C(&self, r: u32) -> Iv {
        self.by_row.pairs[self.row_place(r, r)]
    }

    #[inline]
    fn set_C(&mut self, r: u32, value: Iv) {
        let place = self.row_place(r, r);
        self.by_row.pairs[place] = value;
    }
}
