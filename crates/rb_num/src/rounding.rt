//! Quotients by a product with a reciprocal, and no division, where they are not large.
ghost use Rattle.std.specs.Prelude.{◌≡◌, ◌+◌, ◌-◌, ◌/◌, ◌%◌, ◌<◌, ◌≤◌, ◌^◌, pos, neg_ℤ, ◌+ℤ◌, ◌≤ℤ◌, SomeIff};
ghost use Rattle.rb_num.specs.Dot.{floor_of, ceil_of};
ghost use Rattle.rb_num.specs.Reciprocal.{IsReciprocal, IsNear};

use crate::interval::S;

// A number is near where its quotient lies from -2^60 up to below 2^60.
const NEAR: i128 = 1 << 60;

/// A number to divide by, and its reciprocal.
#[derive(Clone, Copy, Debug)]
pub struct Divisor {
    /// What is divided by: at least `2^(shift + 2)`, and less than 2^63.
    pub by: u64,
    /// How many bits of a number are left out of the product with the reciprocal.
    pub shift: u32,
    /// `2^(shift + 66) / by`, rounded down.
    pub reciprocal: u64,
    pub ghost is_reciprocal: { IsReciprocal by shift reciprocal },
}

/// Division by the number of units in one.
pub(crate) const BY_GRID: Divisor = Divisor {
    by: S as u64,
    shift: 37,
    reciprocal: 10_141_204_801_825_835_211,
};

impl Divisor {
    /// `x / by`, rounded down. The product with the reciprocal gives it, or one less.
    #[inline(always)]
    #[tactic(auto, using(crate::proofs::Reciprocal::guess_low, crate::proofs::Reciprocal::guess_high))]
    pub fn quotient(self, x: u128) -> u64
        requires { x < 2 ^ (self.shift + 64) }
        ensures { result ≡ x / self.by }
    {
        let guess = (((x >> self.shift) as u64 as u128 * self.reciprocal as u128) >> 66) as u64;
        let rest = (x - guess as u128 * self.by as u128) as u64;
        if rest < self.by { guess } else { guess + 1 }
    }

    /// `z / by`, rounded down: `None` exactly where the quotient is below -2^60, or not below 2^60.
    #[inline(always)]
    pub fn rounded_down(self, z: i128) -> Option<i128>
        requires close { self.by ≤ 2 ^ (self.shift + 3) }
        requires even { self.by % 8 ≡ 0 }
        requires above { neg_ℤ (pos (2 ^ 126)) ≤ℤ z }
        requires below { z ≤ℤ pos (2 ^ 126 + 2 ^ 63) }
        ensures { SomeIff result (IsNear self.by z) (floor_of z self.by) }
    {
        let lifted = (z + self.by as i128 * NEAR).cast_unsigned();
        if ((lifted >> 64) as u64) < self.by / 8 {
            Some(self.quotient(lifted) as i128 - NEAR)
        } else {
            None
        }
    }

    /// `z / by`, rounded up: `None` exactly where the quotient of `z + (by - 1)` is below -2^60, or not
    /// below 2^60.
    #[inline(always)]
    pub fn rounded_up(self, z: i128) -> Option<i128>
        requires close { self.by ≤ 2 ^ (self.shift + 3) }
        requires even { self.by % 8 ≡ 0 }
        requires above { neg_ℤ (pos (2 ^ 126)) ≤ℤ z }
        requires below { z ≤ℤ pos (2 ^ 126) }
        ensures { SomeIff result (IsNear self.by (z +ℤ pos (self.by - 1))) (ceil_of z self.by) }
    {
        self.rounded_down(z + (self.by as i128 - 1))
    }
}
