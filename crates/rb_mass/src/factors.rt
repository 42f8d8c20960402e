//! The factors of a robot's mass table, and the solution of equations by them.

ghost use Rattle.std.specs.Prelude.{◌≡◌, OnOk, IfErr};
ghost use Rattle.rb_tree.specs.Places.{IsFor};
ghost use Rattle.rb_factor.specs.Factor.{HoldsDivisors, HoldsFactors, RefusesFactor};
ghost use Rattle.rb_factor.specs.Laws.{EnclosesFactors, EnclosesSolution};
ghost use Rattle.rb_factor.specs.Solve.{HoldsSolution, RefusesSolve};

use rb_tree::Robot;
use rb_work::{RowFault, Work};

/// Puts the factors `D` and `L` of the mass table in the place of the table `M` that a work holds for a robot, as `rb_factor::factor` does for any tree of
/// columns: from the last column to the first, without the entries of columns that are not on one path.
///
/// A refusal is that of the first name that is refused: `Pivot` bears a `D` in which zero lies, with its interval, and `Size` an `L`
/// (Featherstone, Rigid Body Dynamics Algorithms, chapter 6).
pub fn factor(robot: &Robot, work: &mut Work) -> Result<(), RowFault>
    requires room { IsFor robot.now work.old }

    // the factors are what the elimination of the table gives, and zero lies in no pivot
    ensures values { OnOk result (HoldsFactors work.old work.new) }

    // the first name whose rule refuses, where those before it are what their rules give
    ensures refused { IfErr result (RefusesFactor work.old) }

    // each table of fractions within `M` has pivots that are not zero, and its factors lie in `D` and `L`
    ensures encloses { OnOk result (EnclosesFactors work.old work.new) }

    // all else is as it was
    ensures others { work.new ≡ record work.old { packed = work.new.packed } }
{
    let _ = robot;
    rb_factor::factor(work)
}

/// Solves the equations of the mass table, whose factors a work holds for a robot, for the right side `w`, as `rb_factor::solve` does for any tree of
/// columns: `x` has the solution, `w` and `z` what is found on the way.
///
/// A refusal is that of the first name that is refused: `Size` bears a `w`, then a `z`, then an `x`
/// (Featherstone, Rigid Body Dynamics Algorithms, chapter 6).
pub fn solve(robot: &Robot, work: &mut Work) -> Result<(), RowFault>
    requires room { IsFor robot.now work.old }
    requires divisors { HoldsDivisors work.old }

    // what the factors find for the right side
    ensures values { OnOk result (HoldsSolution work.old work.new) }

    // the first name whose rule refuses, where those before it are what their rules give
    ensures refused { IfErr result (RefusesSolve work.old) }

    // the equations of each table whose factors lie in `D` and `L` have exactly one solution for each right side within `w`, and it lies in `x`
    ensures encloses { OnOk result (EnclosesSolution work.old work.new) }

    // all else is as it was
    ensures others { work.new ≡ record work.old { w = work.new.w; z = work.new.z; x = work.new.x } }
{
    let _ = robot;
    rb_factor::solve(work)
}
