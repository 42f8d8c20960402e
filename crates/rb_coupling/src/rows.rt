//! The first step of a solution on each row, and its quotients by the pivots of the table.

ghost use Rattle.std.specs.Prelude.{◌≡◌, ◌≤◌};
ghost use Rattle.rb_sweep.specs.Sweep.{Answers};
ghost use Rattle.rb_work.specs.Path.{IsOn};
ghost use Rattle.rb_work.specs.View.{columns_of};
ghost use Rattle.rb_coupling.specs.Sweeps.{copy_step, copied_of, take_step, reduce_step, reduced_of, divide_step, divided_of, row_step, rows_of};

use rb_num::Iv;
use rb_work::{Capitals, Name, NameKind, RowFault, Work, named};

// The row of J is copied.
#[tactic(auto, unfolding(crate::specs::Sweeps::copy_step), using(rb_sweep::proofs::SweepSteps::sweeps))]
fn copy_row(r: u32, work: &mut Work) -> Result<(), RowFault>
    requires row { r ≤ work.old.rows }
    ensures exact { Answers result (copied_of work.old.up work.old.J r work.old.Y) work.new.Y }
    ensures others { work.new ≡ record work.old { Y = work.new.Y } }
{
    let end = work.columns() + 1;
    for c in 1..end {
        let entry = work.J(r, c);
        work.set_Y(r, c, entry);
    }
    Ok(())
}

// The number of d in a row is lessened by that of c, its own.
#[tactic(auto, unfolding(crate::specs::Sweeps::take_step))]
fn lessen_number(r: u32, c: u32, own: Iv, d: u32, work: &mut Work) -> Result<(), RowFault>
    requires row { r ≤ work.old.rows }
    requires to { c ≤ columns_of work.old }
    requires there { d ≤ columns_of work.old }
    requires pair { IsOn work.old.up c d }
    ensures exact { Answers result (take_step work.old.up work.old.packed r c own d work.old.Y) work.new.Y }
    ensures others { work.new ≡ record work.old { Y = work.new.Y } }
{
    let m = work.L(c, d).neg();
    let v = named(work.Y(r, d).plus_product(m, own), Name::one(NameKind::Y, r))?;
    work.set_Y(r, d, v);
    Ok(())
}

// The number of c in a row, times the factors of c, is taken from those of its ancestors.
#[tactic(auto, unfolding(crate::specs::Sweeps::reduce_step), using(rb_work::proofs::PathSteps::path_steps))]
fn take_column(r: u32, c: u32, work: &mut Work) -> Result<(), RowFault>
    requires row { r ≤ work.old.rows }
    requires from { 1 ≤ c }
    requires to { c ≤ columns_of work.old }
    ensures exact { Answers result (reduce_step work.old.up work.old.packed r c work.old.Y) work.new.Y }
    ensures others { work.new ≡ record work.old { Y = work.new.Y } }
{
    let _sizes = work.columns();
    let own = work.Y(r, c);
    let mut d = work.up(c);
    while d != 0 {
        lessen_number(r, c, own, d, work)?;
        d = work.up(d);
    }
    Ok(())
}

// The columns of a row from the last on.
#[tactic(auto, using(rb_sweep::proofs::SweepSteps::sweeps_down))]
fn take_all(r: u32, work: &mut Work) -> Result<(), RowFault>
    requires row { r ≤ work.old.rows }
    ensures exact { Answers result (reduced_of work.old.up work.old.packed r work.old.Y) work.new.Y }
    ensures others { work.new ≡ record work.old { Y = work.new.Y } }
{
    let end = work.columns() + 1;
    for c in (1..end).rev() {
        take_column(r, c, work)?;
    }
    Ok(())
}

// The number of c in a row is divided by its pivot.
#[tactic(auto, unfolding(crate::specs::Sweeps::divide_step))]
fn divide_number(r: u32, c: u32, work: &mut Work) -> Result<(), RowFault>
    requires row { r ≤ work.old.rows }
    requires from { 1 ≤ c }
    requires to { c ≤ columns_of work.old }
    ensures exact { Answers result (divide_step work.old.up work.old.packed work.old.Y r c work.old.Z) work.new.Z }
    ensures others { work.new ≡ record work.old { Z = work.new.Z } }
{
    let quotient = named(work.Y(r, c).div(work.D(c)), Name::one(NameKind::Z, r))?;
    work.set_Z(r, c, quotient);
    Ok(())
}

// The columns of a row from the first on.
#[tactic(auto, using(rb_sweep::proofs::SweepSteps::sweeps))]
fn divide_all(r: u32, work: &mut Work) -> Result<(), RowFault>
    requires row { r ≤ work.old.rows }
    ensures exact { Answers result (divided_of work.old.up work.old.packed work.old.Y r work.old.Z) work.new.Z }
    ensures others { work.new ≡ record work.old { Z = work.new.Z } }
{
    let end = work.columns() + 1;
    for c in 1..end {
        divide_number(r, c, work)?;
    }
    Ok(())
}

// One row.
#[tactic(auto, unfolding(crate::specs::Sweeps::row_step))]
fn reduce_row(r: u32, work: &mut Work) -> Result<(), RowFault>
    requires row { r ≤ work.old.rows }
    ensures exact { Answers result (row_step work.old.up work.old.packed work.old.J r (work.old.Y, work.old.Z)) (work.new.Y, work.new.Z) }
    ensures others { work.new ≡ record work.old { Y = work.new.Y; Z = work.new.Z } }
{
    copy_row(r, work)?;
    take_all(r, work)?;
    divide_all(r, work)
}

// The rows from the first on.
#[tactic(auto, using(rb_sweep::proofs::SweepSteps::sweeps))]
pub(crate) fn reduce_rows(rows: u32, work: &mut Work) -> Result<(), RowFault>
    requires rows { rows ≤ work.old.rows }
    ensures exact { Answers result (rows_of work.old.up rows work.old.packed work.old.J (work.old.Y, work.old.Z)) (work.new.Y, work.new.Z) }
    ensures others { work.new ≡ record work.old { Y = work.new.Y; Z = work.new.Z } }
{
    let _sizes = work.rows();
    for r in 1..rows + 1 {
        reduce_row(r, work)?;
    }
    Ok(())
}
