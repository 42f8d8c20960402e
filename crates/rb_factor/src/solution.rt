//! The solution of equations by the factors that a work holds as `L` and `D`.

ghost use Rattle.std.specs.Prelude.{◌≡◌, ◌≤◌, IfErr, OnOk};
ghost use Rattle.rb_num.specs.declared.interval.NumFault.{NumFault};
ghost use Rattle.rb_sweep.specs.Sweep.{Answers, sweep};
ghost use Rattle.rb_work.specs.Path.{IsOn};
ghost use Rattle.rb_work.specs.View.{columns_of, w_at};
ghost use Rattle.rb_factor.specs.Factor.{HoldsDivisors};
ghost use Rattle.rb_factor.specs.Solve.{HoldsReduced, HoldsDivided, HoldsSubstituted, HoldsSolution, RefusesReduce, RefusesDivide, RefusesSubstitute, RefusesSolve};
ghost use Rattle.rb_factor.specs.Laws.{EnclosesReduced, EnclosesDivided, EnclosesSubstituted, EnclosesSolution};
ghost use Rattle.rb_factor.specs.Sweeps.{take_step, reduce_step, reduce_of, divide_step, divide_of, part_step, part_of, substitute_step, substitute_of};

use rb_num::{Iv, NumFault};
use rb_work::{Capitals, Name, NameKind, RowFault, Work, named};

// The number of d is lessened by that of c, its own.
#[tactic(auto, unfolding(crate::specs::Sweeps::take_step))]
fn lessen_number(c: u32, own: Iv, d: u32, work: &mut Work) -> Result<(), RowFault>
    requires to { c ≤ columns_of work.old }
    requires there { d ≤ columns_of work.old }
    requires pair { IsOn work.old.up c d }
    ensures exact { Answers result (take_step work.old.up work.old.packed c own d work.old.w) work.new.w }
    ensures others { work.new ≡ record work.old { w = work.new.w } }
{
    let m = work.L(c, d).neg();
    let r = named(work.w(d).plus_product(m, own), Name::one(NameKind::w, c))?;
    work.set_w(d, r);
    Ok(())
}

// The number of c, times the factors in its row, is taken from those of its ancestors.
#[tactic(auto, unfolding(crate::specs::Sweeps::reduce_step), using(rb_work::proofs::PathSteps::path_steps))]
fn take_column(c: u32, work: &mut Work) -> Result<(), RowFault>
    requires from { 1 ≤ c }
    requires to { c ≤ columns_of work.old }
    ensures exact { Answers result (reduce_step work.old.up work.old.packed c work.old.w) work.new.w }
    ensures others { work.new ≡ record work.old { w = work.new.w } }
{
    let _sizes = work.columns();
    let own = work.w(c);
    let mut d = work.up(c);
    while d != 0 {
        lessen_number(c, own, d, work)?;
        d = work.up(d);
    }
    Ok(())
}

// The columns from the last on.
#[tactic(auto, using(rb_sweep::proofs::SweepSteps::sweeps_down))]
fn take_all(work: &mut Work) -> Result<(), RowFault>
    ensures exact { Answers result (reduce_of work.old.up work.old.packed work.old.w) work.new.w }
    ensures others { work.new ≡ record work.old { w = work.new.w } }
{
    let end = work.columns() + 1;
    for c in (1..end).rev() {
        take_column(c, work)?;
    }
    Ok(())
}

// The number of c is divided by its pivot.
#[tactic(auto, unfolding(crate::specs::Sweeps::divide_step))]
fn divide_number(c: u32, work: &mut Work) -> Result<(), RowFault>
    requires from { 1 ≤ c }
    requires to { c ≤ columns_of work.old }
    ensures exact { Answers result (divide_step work.old.up work.old.packed work.old.w c work.old.z) work.new.z }
    ensures others { work.new ≡ record work.old { z = work.new.z } }
{
    let quotient = named(work.w(c).div(work.D(c)), Name::one(NameKind::z, c))?;
    work.set_z(c, quotient);
    Ok(())
}

// The columns from the first on.
#[tactic(auto, using(rb_sweep::proofs::SweepSteps::sweeps))]
fn divide_all(work: &mut Work) -> Result<(), RowFault>
    ensures exact { Answers result (divide_of work.old.up work.old.packed work.old.w work.old.z) work.new.z }
    ensures others { work.new ≡ record work.old { z = work.new.z } }
{
    let end = work.columns() + 1;
    for c in 1..end {
        divide_number(c, work)?;
    }
    Ok(())
}

// The quotient of c, lessened by the numbers of its ancestors times the factors in its row.
#[tactic(auto, unfolding(crate::specs::Sweeps::part_step), using(rb_work::proofs::PathSteps::path_steps))]
fn number_left(c: u32, work: &Work) -> Result<Iv, NumFault>
    requires from { 1 ≤ c }
    requires to { c ≤ columns_of work.now }
    ensures exact { result ≡ part_of work.now.up work.now.packed work.now.z work.now.x c }
    ensures size { IfErr result (λ e. e ≡ NumFault.Size) }
{
    let _sizes = work.columns();
    let mut part = work.z(c);
    let mut d = work.up(c);
    while d != 0 {
        part = part.plus_product(work.L(c, d).neg(), work.x(d))?;
        d = work.up(d);
    }
    Ok(part)
}

// The number of c.
#[tactic(auto, unfolding(crate::specs::Sweeps::substitute_step))]
fn find_number(c: u32, work: &mut Work) -> Result<(), RowFault>
    requires from { 1 ≤ c }
    requires to { c ≤ columns_of work.old }
    ensures exact { Answers result (substitute_step work.old.up work.old.packed work.old.z c work.old.x) work.new.x }
    ensures others { work.new ≡ record work.old { x = work.new.x } }
{
    let x = named(number_left(c, work), Name::one(NameKind::x, c))?;
    work.set_x(c, x);
    Ok(())
}

// The columns from the first on.
#[tactic(auto, using(rb_sweep::proofs::SweepSteps::sweeps))]
fn find_all(work: &mut Work) -> Result<(), RowFault>
    ensures exact { Answers result (substitute_of work.old.up work.old.packed work.old.z work.old.x) work.new.x }
    ensures others { work.new ≡ record work.old { x = work.new.x } }
{
    let end = work.columns() + 1;
    for c in 1..end {
        find_number(c, work)?;
    }
    Ok(())
}

/// The first step of a solution: from the last column to the first, takes from the right side `w` at each ancestor of a column its own `w` times `L`
/// (Featherstone, Rigid Body Dynamics Algorithms, chapter 6). The first column whose step is too large is refused as `Size` under `w[c]`. What each
/// right side within `w` leaves, by factors within `L`, lies in the new `w`. Takes no memory, and writes `w` alone.
pub fn reduce(work: &mut Work) -> Result<(), RowFault>
    ensures values { OnOk result (HoldsReduced work.old work.new) }
    ensures refused { IfErr result (RefusesReduce work.old) }
    ensures encloses { OnOk result (EnclosesReduced work.old work.new) }
    ensures others { work.new ≡ record work.old { w = work.new.w } }
{
    let _sizes = work.columns();
    take_all(work)
}

/// The second step of a solution: `z[c]` is `w[c]` divided by the pivot `D[c]`, from the first column on. A quotient that is too large is refused as
/// `Size` under `z[c]`; no pivot may contain zero. The quotients of all numbers within `w` and `D` lie in `z`. Takes no memory, and writes `z` alone.
pub fn divide(work: &mut Work) -> Result<(), RowFault>
    requires divisors { HoldsDivisors work.old }
    ensures values { OnOk result (HoldsDivided work.old work.new) }
    ensures refused { IfErr result (RefusesDivide work.old) }
    ensures encloses { OnOk result (EnclosesDivided work.old work.new) }
    ensures others { work.new ≡ record work.old { z = work.new.z } }
{
    let _sizes = work.columns();
    divide_all(work)
}

/// The last step of a solution: from the first column to the last, `x[c]` is `z[c]`, less `L` times the `x` of each ancestor, the nearest first
/// (Featherstone, Rigid Body Dynamics Algorithms, chapter 6). The first column whose step is too large is refused as `Size` under `x[c]`. What is found
/// from all numbers within `z` and `L` lies in `x`. Takes no memory, and writes `x` alone.
pub fn substitute(work: &mut Work) -> Result<(), RowFault>
    ensures values { OnOk result (HoldsSubstituted work.old work.new) }
    ensures refused { IfErr result (RefusesSubstitute work.old) }
    ensures encloses { OnOk result (EnclosesSubstituted work.old work.new) }
    ensures others { work.new ≡ record work.old { x = work.new.x } }
{
    let _sizes = work.columns();
    find_all(work)
}

/// Solves the equations of the table whose factors are held as `L` and `D`, for the right side `w`: `reduce`, `divide` and `substitute` in turn, with
/// their refusals. For all factors within `L` and `D`, and each right side within `w`, the equations of their table have exactly one solution, and it lies
/// in `x`. No pivot may contain zero. Takes no memory, and writes `w`, `z` and `x` alone.
pub fn solve(work: &mut Work) -> Result<(), RowFault>
    requires divisors { HoldsDivisors work.old }
    ensures values { OnOk result (HoldsSolution work.old work.new) }
    ensures refused { IfErr result (RefusesSolve work.old) }
    ensures encloses { OnOk result (EnclosesSolution work.old work.new) }
    ensures others { work.new ≡ record work.old { w = work.new.w; z = work.new.z; x = work.new.x } }
{
    let _sizes = work.columns();
    reduce(work)?;
    divide(work)?;
    substitute(work)
}
