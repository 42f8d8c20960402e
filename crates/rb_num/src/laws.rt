//! The laws of intervals, and of sines and cosines.

ghost use Rattle.rb_num.specs.Laws.{DoMeetDecides, DotLeavesOutZero, HasPair, IsCut, LiesInKeepsSame, ZeroIsNeutral};

/// A fraction lies in an interval where another of the same number does.
pub fn lies_in_law()
    ensures { LiesInKeepsSame }
{}

/// A cut sum of sine or cosine terms is the sum from -1 to 1, and else the nearer end.
pub fn cut_law()
    ensures { IsCut }
{}

/// Every angle has a pair of fractions that goes with it as its sine and its cosine.
pub fn sine_law()
    ensures { HasPair }
{}

/// A pair with zero in it may be left out of the pairs of `dot`, also where `dot` is refused; the
/// sum of no pairs is zero.
pub fn dot_without_zero_law()
    ensures { DotLeavesOutZero }
{}

/// Zero, added to an interval or taken away from it, changes nothing and is never refused.
pub fn zero_law()
    ensures { ZeroIsNeutral }
{}

/// Whether two intervals meet is a test of their ends.
pub fn meet_law()
    ensures { DoMeetDecides }
{}
