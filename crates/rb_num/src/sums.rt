//! Sums of products of narrow intervals, pair by pair: no product is tested, and nothing is divided.

ghost use Rattle.std.specs.Prelude.{◌≡◌, ◌<◌, [], ◌∷◌, List, Ok, IfSome, SomeIff};
ghost use Rattle.rb_num.specs.Interval.{Interval, negative_of, one_interval};
ghost use Rattle.rb_num.specs.declared.interval.TheConstants.{MAX_PAIRS};
ghost use Rattle.rb_num.specs.Dot.{iv_dot};
ghost use Rattle.rb_num.specs.Sums.{AreSums, AreNear, plus, rounded};

use crate::narrow::{Ends, Narrow, by_one, product_ends};
use crate::rounding::BY_GRID;
use std::marker::Model;

/// The sums of the least and of the greatest products of ends of so many pairs of narrow intervals: those whose ends are at most 2^60 units in
/// size. They stand for `dot` where all intervals are narrow and the sums are near.
#[derive(Clone, Copy, Debug)]
pub struct Sums {
    low: i128,
    high: i128,
    count: usize,
}

impl Model for Sums {
    ghost use Rattle.rb_num.specs.Sums.{Totals, AreBounded};

    ghost Value = { Totals };

    ghost view = { λ s. record { low = s.low; high = s.high; count = s.count } };

    ghost invariant = { λ s. AreBounded s.low s.high s.count };

    ghost inverse = { λ v. record { low = v.low; high = v.high; count = v.count } };
}

impl Sums {
    /// Those of no pairs.
    #[inline(always)]
    pub fn none() -> Sums
        ensures sums { AreSums [] result }
        ensures count { result.count ≡ 0 }
    {
        Sums {
            low: 0,
            high: 0,
            count: 0,
        }
    }

    /// Those of one more pair, in front.
    #[inline(always)]
    pub fn with(self, a: Narrow, b: Narrow) -> Sums
        requires { self.count < MAX_PAIRS }
        ensures exact { result ≡ plus (a, b) self }
        ensures sums { (pairs : List (Interval × Interval)) → AreSums pairs self → AreSums ((a, b) ∷ pairs) result }
    {
        let (least, greatest) = product_ends(a.0, b.0);
        Sums {
            low: least + self.low,
            high: greatest + self.high,
            count: self.count + 1,
        }
    }

    /// Those of one more pair, in front, of the negative of `a` and of `b`.
    #[inline(always)]
    pub fn less(self, a: Narrow, b: Narrow) -> Sums
        requires { self.count < MAX_PAIRS }
        ensures exact { result ≡ plus (negative_of a, b) self }
        ensures sums { (pairs : List (Interval × Interval)) → AreSums pairs self → AreSums ((negative_of a, b) ∷ pairs) result }
    {
        let (least, greatest) = product_ends(a.0, b.0);
        Sums {
            low: self.low - greatest,
            high: self.high - least,
            count: self.count + 1,
        }
    }

    /// Those of one more pair, in front, of `a` and one.
    #[inline(always)]
    pub fn plus(self, a: Narrow) -> Sums
        requires { self.count < MAX_PAIRS }
        ensures exact { result ≡ plus (a, one_interval) self }
        ensures sums { (pairs : List (Interval × Interval)) → AreSums pairs self → AreSums ((a, one_interval) ∷ pairs) result }
    {
        let (least, greatest) = (by_one(a.0.lo), by_one(a.0.hi));
        Sums {
            low: least + self.low,
            high: greatest + self.high,
            count: self.count + 1,
        }
    }

    /// The sum of the products, as `dot` has it: `None` exactly where the sums are not near.
    #[inline(always)]
    pub fn sum(self) -> Option<Narrow>
        ensures exact { SomeIff result (AreNear self) (rounded self) }
        ensures sum { (pairs : List (Interval × Interval)) → AreSums pairs self → IfSome result (λ v. iv_dot pairs ≡ Ok v) }
    {
        let lo = BY_GRID.rounded_down(self.low)?;
        let hi = BY_GRID.rounded_up(self.high)?;
        Some(Narrow(Ends {
            lo: lo as i64,
            hi: hi as i64,
        }))
    }
}
