//! What sweeps do.

ghost use Rattle.rb_sweep.specs.Sweep.{upward, downward};
ghost use Rattle.rb_sweep.specs.Laws.{GoesOn, RefusesFirst, HasRange};

/// A sweep over two lists is one over the first and then one over the second; it is refused exactly
/// as the first of its steps that is; and the ranges upward and downward have the numbers from their
/// lower bound on and below their upper one.
pub fn sweep_law<N, S, E>()
    ensures goes_on { GoesOn N S E }
    ensures refuses_first { RefusesFirst N S E }
    ensures upward { HasRange upward }
    ensures downward { HasRange downward }
{}
