//! The elimination of the rows from their coupling.

ghost use Rattle.std.specs.Prelude.{◌≡◌, ◌≤◌, ◌<◌};
ghost use Rattle.rb_sweep.specs.Sweep.{Answers};
ghost use Rattle.rb_coupling.specs.Sweeps.{quotient_step, quotients_of, update_step, update_row_step, updates_of, eliminate_step, eliminated_of};

use rb_num::Iv;
use rb_work::{Capitals, Name, NameKind, RowFault, Work, named, pivot};

// The entry of q in column r is divided by the pivot p. Column 0, which no row has, keeps what it was.
#[tactic(auto, unfolding(crate::specs::Sweeps::quotient_step))]
fn divide_entry(r: u32, p: Iv, q: u32, work: &mut Work) -> Result<(), RowFault>
    requires later { r < q }
    requires row { q ≤ work.old.rows }
    ensures exact { Answers result (quotient_step work.old.rows r p q work.old.pairs) work.new.pairs }
    ensures others { work.new ≡ record work.old { pairs = work.new.pairs } }
{
    let before = work.G(q, r);
    let quotient = named(before.div(p), Name::two(NameKind::l, q, r))?;
    work.set_G(q, 0, before);
    work.set_l(q, r, quotient);
    Ok(())
}

// The later rows have their quotients.
#[tactic(auto, using(rb_sweep::proofs::SweepSteps::sweeps))]
fn divide_column(rows: u32, r: u32, p: Iv, work: &mut Work) -> Result<(), RowFault>
    requires rows { rows ≤ work.old.rows }
    requires row { r ≤ rows }
    ensures exact { Answers result (quotients_of work.old.rows rows r p work.old.pairs) work.new.pairs }
    ensures others { work.new ≡ record work.old { pairs = work.new.pairs } }
{
    let _sizes = work.rows();
    for q in r + 1..rows + 1 {
        divide_entry(r, p, q, work)?;
    }
    Ok(())
}

// The entry of q and t is lessened by the quotient of q, times what t had in column r.
#[tactic(auto, unfolding(crate::specs::Sweeps::update_step))]
fn lessen_entry(r: u32, q: u32, t: u32, work: &mut Work) -> Result<(), RowFault>
    requires later { r < t }
    requires earlier { t ≤ q }
    requires row { q ≤ work.old.rows }
    ensures exact { Answers result (update_step work.old.rows r q t work.old.pairs) work.new.pairs }
    ensures others { work.new ≡ record work.old { pairs = work.new.pairs } }
{
    let m = work.l(q, r).neg();
    let v = named(
        work.G(q, t).plus_product(m, work.G(t, 0)),
        Name::two(NameKind::l, q, r),
    )?;
    work.set_G(q, t, v);
    Ok(())
}

// The entries of row q.
#[tactic(auto, unfolding(crate::specs::Sweeps::update_row_step), using(rb_sweep::proofs::SweepSteps::sweeps))]
fn lessen_row(r: u32, q: u32, work: &mut Work) -> Result<(), RowFault>
    requires later { r < q }
    requires row { q ≤ work.old.rows }
    ensures exact { Answers result (update_row_step work.old.rows r q work.old.pairs) work.new.pairs }
    ensures others { work.new ≡ record work.old { pairs = work.new.pairs } }
{
    let _sizes = work.rows();
    for t in r + 1..q + 1 {
        lessen_entry(r, q, t, work)?;
    }
    Ok(())
}

// The entries of the later rows.
#[tactic(auto, using(rb_sweep::proofs::SweepSteps::sweeps))]
fn lessen_rows(rows: u32, r: u32, work: &mut Work) -> Result<(), RowFault>
    requires rows { rows ≤ work.old.rows }
    requires row { r ≤ rows }
    ensures exact { Answers result (updates_of work.old.rows rows r work.old.pairs) work.new.pairs }
    ensures others { work.new ≡ record work.old { pairs = work.new.pairs } }
{
    let _sizes = work.rows();
    for q in r + 1..rows + 1 {
        lessen_row(r, q, work)?;
    }
    Ok(())
}

// Row r is eliminated.
#[tactic(auto, unfolding(crate::specs::Sweeps::eliminate_step))]
fn eliminate_row(rows: u32, r: u32, work: &mut Work) -> Result<(), RowFault>
    requires rows { rows ≤ work.old.rows }
    requires row { r ≤ rows }
    ensures exact { Answers result (eliminate_step work.old.rows rows r work.old.pairs) work.new.pairs }
    ensures others { work.new ≡ record work.old { pairs = work.new.pairs } }
{
    let p = pivot(work.C(r), Name::one(NameKind::C, r))?;
    divide_column(rows, r, p, work)?;
    lessen_rows(rows, r, work)
}

// The rows from the first on.
#[tactic(auto, using(rb_sweep::proofs::SweepSteps::sweeps))]
pub(crate) fn eliminate_rows(rows: u32, work: &mut Work) -> Result<(), RowFault>
    requires rows { rows ≤ work.old.rows }
    ensures exact { Answers result (eliminated_of work.old.rows rows work.old.pairs) work.new.pairs }
    ensures others { work.new ≡ record work.old { pairs = work.new.pairs } }
{
    let _sizes = work.rows();
    for r in 1..rows + 1 {
        eliminate_row(rows, r, work)?;
    }
    Ok(())
}
