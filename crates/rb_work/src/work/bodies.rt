ghost use Rattle.std.specs.Prelude.{◌≡◌, ◌≤◌, slice_set, max, min};
ghost use Rattle.rb_work.specs.Path.{IsOn, packed_place};
ghost use Rattle.rb_work.specs.View.{q_at, s_at, v_at, c_at, a_at, b_at, f_at, t_at, I_at, p_at, Ia_at, pa_at, O_at};

use crate::work::Work;
use rb_num::Iv;
use rb_spatial::{Force, Inertia6, Mat3, Motion};

/// The values of bodies.
impl Work {
    /// `q[i]`: the configuration numbers of the joint of body `i`, zero past them.
    #[inline]
    pub fn q(&self, i: u32) -> &[Iv; 7]
        requires { i ≤ self.now.bodies }
        ensures { result.now ≡ q_at self.now i }
    {
        &self.by_body.q[i as usize]
    }

    /// Puts `q[i]`.
    #[inline]
    pub fn set_q(&mut self, i: u32, value: [Iv; 7])
        requires { i ≤ self.old.bodies }
        ensures { self.new ≡ record self.old { q = slice_set self.old.q i value } }
    {
        self.by_body.q[i as usize] = value;
    }

    /// `s[i]`: the speeds of the joint of body `i`, zero past its columns.
    #[inline]
    pub fn s(&self, i: u32) -> &[Iv; 6]
        requires { i ≤ self.now.bodies }
        ensures { result.now ≡ s_at self.now i }
    {
        &self.by_body.s[i as usize]
    }

    /// Puts `s[i]`.
    #[inline]
    pub fn set_s(&mut self, i: u32, value: [Iv; 6])
        requires { i ≤ self.old.bodies }
        ensures { self.new ≡ record self.old { s = slice_set self.old.s i value } }
    {
        self.by_body.s[i as usize] = value;
    }

    /// `v[i]`: the velocity of body `i`, or of the world.
    #[inline]
    pub fn v(&self, i: u32) -> &Motion
        requires { i ≤ self.now.bodies }
        ensures { result.now ≡ v_at self.now i }
    {
        &self.by_body.v[i as usize]
    }

    /// Puts `v[i]`.
    #[inline]
    pub fn set_v(&mut self, i: u32, value: Motion)
        requires { i ≤ self.old.bodies }
        ensures { self.new ≡ record self.old { v = slice_set self.old.v i value } }
    {
        self.by_body.v[i as usize] = value;
    }

    /// `c[i]`: the acceleration of body `i` by its velocity.
    #[inline]
    pub fn c(&self, i: u32) -> &Motion
        requires { i ≤ self.now.bodies }
        ensures { result.now ≡ c_at self.now i }
    {
        &self.by_body.c[i as usize]
    }

    /// Puts `c[i]`.
    #[inline]
    pub fn set_c(&mut self, i: u32, value: Motion)
        requires { i ≤ self.old.bodies }
        ensures { self.new ≡ record self.old { c = slice_set self.old.c i value } }
    {
        self.by_body.c[i as usize] = value;
    }

    /// `a[i]`: the acceleration of body `i`, or of the world.
    #[inline]
    pub fn a(&self, i: u32) -> &Motion
        requires { i ≤ self.now.bodies }
        ensures { result.now ≡ a_at self.now i }
    {
        &self.by_body.a[i as usize]
    }

    /// Puts `a[i]`.
    #[inline]
    pub fn set_a(&mut self, i: u32, value: Motion)
        requires { i ≤ self.old.bodies }
        ensures { self.new ≡ record self.old { a = slice_set self.old.a i value } }
    {
        self.by_body.a[i as usize] = value;
    }

    /// `b[i]`: the force that moves body `i`.
    #[inline]
    pub fn b(&self, i: u32) -> &Force
        requires { i ≤ self.now.bodies }
        ensures { result.now ≡ b_at self.now i }
    {
        &self.by_body.b[i as usize]
    }

    /// Puts `b[i]`.
    #[inline]
    pub fn set_b(&mut self, i: u32, value: Force)
        requires { i ≤ self.old.bodies }
        ensures { self.new ≡ record self.old { b = slice_set self.old.b i value } }
    {
        self.by_body.b[i as usize] = value;
    }

    /// `f[i]`: the force across the joint of body `i`.
    #[inline]
    pub fn f(&self, i: u32) -> &Force
        requires { i ≤ self.now.bodies }
        ensures { result.now ≡ f_at self.now i }
    {
        &self.by_body.f[i as usize]
    }

    /// Puts `f[i]`.
    #[inline]
    pub fn set_f(&mut self, i: u32, value: Force)
        requires { i ≤ self.old.bodies }
        ensures { self.new ≡ record self.old { f = slice_set self.old.f i value } }
    {
        self.by_body.f[i as usize] = value;
    }

    /// `t[i]`: the forces along the columns of the joint of body `i`, zero past them.
    #[inline]
    pub fn t(&self, i: u32) -> &[Iv; 6]
        requires { i ≤ self.now.bodies }
        ensures { result.now ≡ t_at self.now i }
    {
        &self.by_body.t[i as usize]
    }

    /// Puts `t[i]`.
    #[inline]
    pub fn set_t(&mut self, i: u32, value: [Iv; 6])
        requires { i ≤ self.old.bodies }
        ensures { self.new ≡ record self.old { t = slice_set self.old.t i value } }
    {
        self.by_body.t[i as usize] = value;
    }

    /// `I[i]`: the inertia of body `i` and of all that it bears.
    #[inline]
    pub fn I(&self, i: u32) -> &Inertia6
        requires { i ≤ self.now.bodies }
        ensures { result.now ≡ I_at self.now i }
    {
        &self.by_body.I[i as usize]
    }

    /// Puts `I[i]`.
    #[inline]
    pub fn set_I(&mut self, i: u32, value: Inertia6)
        requires { i ≤ self.old.bodies }
        ensures { self.new ≡ record self.old { I = slice_set self.old.I i value } }
    {
        self.by_body.I[i as usize] = value;
    }

    /// `p[i]`: the force that holds body `i` without acceleration.
    #[inline]
    pub fn p(&self, i: u32) -> &Force
        requires { i ≤ self.now.bodies }
        ensures { result.now ≡ p_at self.now i }
    {
        &self.by_body.p[i as usize]
    }

    /// Puts `p[i]`.
    #[inline]
    pub fn set_p(&mut self, i: u32, value: Force)
        requires { i ≤ self.old.bodies }
        ensures { self.new ≡ record self.old { p = slice_set self.old.p i value } }
    {
        self.by_body.p[i as usize] = value;
    }

    /// `Ia[i]`: the inertia of body `i` as its parent feels it.
    #[inline]
    pub fn Ia(&self, i: u32) -> &Inertia6
        requires { i ≤ self.now.bodies }
        ensures { result.now ≡ Ia_at self.now i }
    {
        &self.by_body.Ia[i as usize]
    }

    /// Puts `Ia[i]`.
    #[inline]
    pub fn set_Ia(&mut self, i: u32, value: Inertia6)
        requires { i ≤ self.old.bodies }
        ensures { self.new ≡ record self.old { Ia = slice_set self.old.Ia i value } }
    {
        self.by_body.Ia[i as usize] = value;
    }

    /// `pa[i]`: the force of body `i` as its parent feels it.
    #[inline]
    pub fn pa(&self, i: u32) -> &Force
        requires { i ≤ self.now.bodies }
        ensures { result.now ≡ pa_at self.now i }
    {
        &self.by_body.pa[i as usize]
    }

    /// Puts `pa[i]`.
    #[inline]
    pub fn set_pa(&mut self, i: u32, value: Force)
        requires { i ≤ self.old.bodies }
        ensures { self.new ≡ record self.old { pa = slice_set self.old.pa i value } }
    {
        self.by_body.pa[i as usize] = value;
    }

    /// `O[i]`: the orientation of body `i`, or of the world.
    #[inline]
    pub fn O(&self, i: u32) -> &Mat3
        requires { i ≤ self.now.bodies }
        ensures { result.now ≡ O_at self.now i }
    {
        &self.by_body.O[i as usize]
    }

    /// Puts `O[i]`.
    #[inline]
    pub fn set_O(&mut self, i: u32, value: Mat3)
        requires { i ≤ self.old.bodies }
        ensures { self.new ≡ record self.old { O = slice_set self.old.O i value } }
    {
        self.by_body.O[i as usize] = value;
    }
}
