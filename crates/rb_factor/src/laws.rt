//! That there is one answer of factors and of solutions, whatever stood in a work before.

ghost use Rattle.rb_factor.specs.Laws.{FactorIsOne, SolveIsOne};

/// From tables that are the same on the paths come the same pivots and factors, or the same refusal, and not both.
pub fn factor_law()
    ensures { FactorIsOne }
{}

/// From the same factors, pivots and right side comes the same solution, or the same refusal, and not both.
pub fn solve_law()
    ensures { SolveIsOne }
{}
