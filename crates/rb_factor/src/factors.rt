//! The factors of the table that a work holds as `M`.

ghost use Rattle.std.specs.Prelude.{◌≡◌, ◌≤◌, IfErr, OnOk};
ghost use Rattle.rb_num.specs.Interval.{negative_of};
ghost use Rattle.rb_sweep.specs.Sweep.{Answers, sweep};
ghost use Rattle.rb_work.specs.Path.{IsOn};
ghost use Rattle.rb_work.specs.View.{columns_of};
ghost use Rattle.rb_factor.specs.Factor.{HoldsFactors, RefusesFactor};
ghost use Rattle.rb_factor.specs.Laws.{EnclosesFactors};
ghost use Rattle.rb_factor.specs.Sweeps.{update_step, updates_of, entry_step, entries_of, column_step, factor_of};

use rb_num::Iv;
use rb_work::{Capitals, Name, NameKind, RowFault, Work, named, pivot};

// The entry of d and e is lessened by that of c and e.
#[tactic(auto, unfolding(crate::specs::Sweeps::update_step))]
fn lessen_entry(c: u32, d: u32, m: Iv, e: u32, work: &mut Work) -> Result<(), RowFault>
    requires column { c ≤ columns_of work.old }
    requires row { d ≤ columns_of work.old }
    requires of_column { IsOn work.old.up c e }
    requires of_row { IsOn work.old.up d e }
    ensures exact { Answers result (update_step work.old.up c d m e work.old.packed) work.new.packed }
    ensures others { work.new ≡ record work.old { packed = work.new.packed } }
{
    let r = named(
        work.L(d, e).plus_product(m, work.L(c, e)),
        Name::two(NameKind::L, c, d),
    )?;
    work.set_L(d, e, r);
    Ok(())
}

// The entries of row d are lessened.
#[tactic(auto, using(rb_work::proofs::PathSteps::path_steps))]
fn lessen_row(c: u32, d: u32, m: Iv, work: &mut Work) -> Result<(), RowFault>
    requires column { c ≤ columns_of work.old }
    requires row { d ≤ columns_of work.old }
    requires pair { IsOn work.old.up c d }
    ensures exact { Answers result (updates_of work.old.up c d m work.old.packed) work.new.packed }
    ensures others { work.new ≡ record work.old { packed = work.new.packed } }
{
    let _sizes = work.columns();
    let mut e = d;
    while e != 0 {
        lessen_entry(c, d, m, e, work)?;
        e = work.up(e);
    }
    Ok(())
}

// The entry of c and its ancestor d is divided by the pivot p, once the row of d is lessened.
#[tactic(auto, unfolding(crate::specs::Sweeps::entry_step))]
fn divide_entry(c: u32, d: u32, p: Iv, work: &mut Work) -> Result<(), RowFault>
    requires column { c ≤ columns_of work.old }
    requires row { d ≤ columns_of work.old }
    requires pair { IsOn work.old.up c d }
    ensures exact { Answers result (entry_step work.old.up c p d work.old.packed) work.new.packed }
    ensures others { work.new ≡ record work.old { packed = work.new.packed } }
{
    let quotient = named(work.L(c, d).div(p), Name::two(NameKind::L, c, d))?;
    lessen_row(c, d, quotient.neg(), work)?;
    work.set_L(c, d, quotient);
    Ok(())
}

// The entries of c and its ancestors.
#[tactic(auto, using(rb_work::proofs::PathSteps::path_steps))]
fn divide_row(c: u32, p: Iv, work: &mut Work) -> Result<(), RowFault>
    requires from { 1 ≤ c }
    requires to { c ≤ columns_of work.old }
    ensures exact { Answers result (entries_of work.old.up c p work.old.packed) work.new.packed }
    ensures others { work.new ≡ record work.old { packed = work.new.packed } }
{
    let _sizes = work.columns();
    let mut d = work.up(c);
    while d != 0 {
        divide_entry(c, d, p, work)?;
        d = work.up(d);
    }
    Ok(())
}

// Column c is eliminated.
#[tactic(auto, unfolding(crate::specs::Sweeps::column_step))]
fn eliminate(c: u32, work: &mut Work) -> Result<(), RowFault>
    requires from { 1 ≤ c }
    requires to { c ≤ columns_of work.old }
    ensures exact { Answers result (column_step work.old.up c work.old.packed) work.new.packed }
    ensures others { work.new ≡ record work.old { packed = work.new.packed } }
{
    let p = pivot(work.D(c), Name::one(NameKind::D, c))?;
    divide_row(c, p, work)
}

// The columns from the last on.
#[tactic(auto, using(rb_sweep::proofs::SweepSteps::sweeps_down))]
fn eliminate_all(work: &mut Work) -> Result<(), RowFault>
    ensures exact { Answers result (factor_of work.old.up work.old.packed) work.new.packed }
    ensures others { work.new ≡ record work.old { packed = work.new.packed } }
{
    let end = work.columns() + 1;
    for c in (1..end).rev() {
        eliminate(c, work)?;
    }
    Ok(())
}

/// Replaces the mass table `M` by its factors: each `M[c.c]` by the pivot `D[c]`, and each `M[c.d]` by the factor `L[c.d]`, from the last column to the
/// first (Featherstone, Rigid Body Dynamics Algorithms, chapter 6: the table is the product of `L` transposed, `D` and `L`, and no entry off the
/// paths is needed). All numbers are on the grid of `Iv`. The first name that is refused is told: `Pivot` under `D[c]`, with what stands there,
/// where zero lies in it, or `Size` under `L[c.d]`, where the quotient or an entry of row `d` is too large; the table is then of no use.
/// For each table within `M` the factors lie in `L` and `D`. Takes no memory, and writes `M`, `D` and `L` alone, which are one table.
pub fn factor(work: &mut Work) -> Result<(), RowFault>
    ensures values { OnOk result (HoldsFactors work.old work.new) }
    ensures refused { IfErr result (RefusesFactor work.old) }
    ensures encloses { OnOk result (EnclosesFactors work.old work.new) }
    ensures others { work.new ≡ record work.old { packed = work.new.packed } }
{
    let _sizes = work.columns();
    eliminate_all(work)
}
