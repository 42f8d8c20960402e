//! How the rows act on one another.

ghost use Rattle.std.specs.Prelude.{◌≡◌, ◌≤◌, length, IfErr, OnOk};
ghost use Rattle.rb_num.specs.declared.interval.NumFault.{NumFault};
ghost use Rattle.rb_num.specs.declared.interval.TheConstants.{MAX_PAIRS};
ghost use Rattle.rb_sweep.specs.Sweep.{Answers};
ghost use Rattle.rb_work.specs.View.{columns_of};
ghost use Rattle.rb_factor.specs.Factor.{HoldsDivisors};
ghost use Rattle.rb_coupling.specs.Steps.{of_row};
ghost use Rattle.rb_coupling.specs.Couple.{HoldsCoupling, RefusesCouple};
ghost use Rattle.rb_coupling.specs.Laws.{EnclosesCoupling};
ghost use Rattle.rb_coupling.specs.Sweeps.{entry_of, couple_step, couple_row_step, coupled_of, couple_of};

use crate::eliminate::eliminate_rows;
use crate::rows::reduce_rows;
use crate::sums::{NO_PAIRS, Pairs, sum_of_rows};
use rb_num::{Iv, NumFault};
use rb_work::{Capitals, Name, NameKind, RowFault, Work, named};

// The entry of q and r.
#[tactic(auto, unfolding(crate::specs::Sweeps::entry_of))]
fn entry(compliances: &[Iv], q: u32, r: u32, work: &Work, pairs: &mut Pairs) -> Result<Iv, NumFault>
    requires from { 1 ≤ r }
    requires earlier { r ≤ q }
    requires row { q ≤ work.now.rows }
    requires compliance { q ≤ length compliances.now }
    ensures exact { result ≡ entry_of (columns_of work.now) compliances.now work.now.Y work.now.Z q r }
    ensures room { length pairs.new ≡ MAX_PAIRS }
    ensures size { IfErr result (λ e. e ≡ NumFault.Size) }
{
    let sum = sum_of_rows(work, q, r, pairs)?;
    if r == q {
        sum.add(compliances[q as usize - 1])
    } else {
        Ok(sum)
    }
}

// It is put.
#[tactic(auto, unfolding(crate::specs::Sweeps::couple_step))]
fn couple_two(
    compliances: &[Iv],
    q: u32,
    r: u32,
    work: &mut Work,
    pairs: &mut Pairs,
) -> Result<(), RowFault>
    requires from { 1 ≤ r }
    requires earlier { r ≤ q }
    requires row { q ≤ work.old.rows }
    requires compliance { q ≤ length compliances.now }
    ensures exact { Answers result (couple_step (columns_of work.old) work.old.rows compliances.now work.old.Y work.old.Z q r work.old.pairs) work.new.pairs }
    ensures others { work.new ≡ record work.old { pairs = work.new.pairs } }
    ensures room { length pairs.new ≡ MAX_PAIRS }
{
    let v = named(
        entry(compliances, q, r, work, pairs),
        Name::two(NameKind::G, q, r),
    )?;
    work.set_G(q, r, v);
    Ok(())
}

// The entries of row q.
#[tactic(auto, unfolding(crate::specs::Sweeps::couple_row_step), using(rb_sweep::proofs::SweepSteps::sweeps))]
fn couple_row(compliances: &[Iv], q: u32, work: &mut Work) -> Result<(), RowFault>
    requires row { q ≤ work.old.rows }
    requires compliance { q ≤ length compliances.now }
    ensures exact { Answers result (couple_row_step (columns_of work.old) work.old.rows compliances.now work.old.Y work.old.Z q work.old.pairs) work.new.pairs }
    ensures others { work.new ≡ record work.old { pairs = work.new.pairs } }
{
    let _sizes = work.rows();
    let mut pairs = NO_PAIRS;
    for r in 1..q + 1 {
        couple_two(compliances, q, r, work, &mut pairs)?;
    }
    Ok(())
}

// The rows from the first on.
#[tactic(auto, using(rb_sweep::proofs::SweepSteps::sweeps))]
fn couple_rows(rows: u32, compliances: &[Iv], work: &mut Work) -> Result<(), RowFault>
    requires rows { rows ≤ work.old.rows }
    requires compliances { length compliances.now ≡ rows }
    ensures exact { Answers result (coupled_of (columns_of work.old) work.old.rows rows compliances.now work.old.Y work.old.Z work.old.pairs) work.new.pairs }
    ensures others { work.new ≡ record work.old { pairs = work.new.pairs } }
{
    let _sizes = work.rows();
    for q in 1..rows + 1 {
        couple_row(compliances, q, work)?;
    }
    Ok(())
}

// The three steps in turn.
#[tactic(auto, unfolding(crate::specs::Sweeps::couple_of))]
fn couple_all(rows: u32, compliances: &[Iv], work: &mut Work) -> Result<(), RowFault>
    requires rows { rows ≤ work.old.rows }
    requires compliances { length compliances.now ≡ rows }
    ensures exact { Answers result (couple_of work.old.up work.old.rows (length compliances.now) work.old.packed work.old.J compliances.now (work.old.Y, work.old.Z, work.old.pairs)) (work.new.Y, work.new.Z, work.new.pairs) }
    ensures others { work.new ≡ record work.old { Y = work.new.Y; Z = work.new.Z; pairs = work.new.pairs } }
{
    reduce_rows(rows, work)?;
    couple_rows(rows, compliances, work)?;
    eliminate_rows(rows, work)
}

/// The coupling of the rows `J` over the factors `L` and `D`, and its factors. For each row `r` in turn `Y[r]` is the first step of the solution on `J[r]`, and
/// `Z[r]` its quotients by `D`. `G[q.r]`, for each `q` and then each `r` up to `q`, is the sum of the products of `Y[r]` and `Z[q]`, with the compliance of the
/// row added where `r` is `q`. Then the rows are eliminated from the first on: `C[r]` is the present `G[r.r]`, each later row `q` has `l[q.r]`, its entry
/// divided by `C[r]`, and each later entry `G[q.t]` is lessened by `l[q.r]` times what row `t` had (Featherstone, Rigid Body Dynamics Algorithms, chapter 8).
/// The first name that is refused is told: `Size` under `Y[r]`, `Z[r]`, `G[q.r]` or `l[q.r]`, the last also where a lessened entry of row `q` is too large, or
/// `Pivot` under `C[r]`, with what stands there, where zero lies in it. As many rows are coupled as there are compliances: the work has room for them, and may
/// have it for more. No pivot `D` may contain zero. For all numbers within `J`, `L`, `D` and the compliances, what is found lies in `Y`, `l` and `C`. Takes no
/// memory, and writes `Y`, `Z`, `G`, `C` and `l` alone, of which the last three are one table.
pub fn couple(work: &mut Work, compliances: &[Iv]) -> Result<(), RowFault>
    requires divisors { HoldsDivisors work.old }
    requires compliances { length compliances.now ≤ work.old.rows }
    ensures values { OnOk result (HoldsCoupling (length compliances.now) work.old work.new (of_row compliances.now)) }
    ensures refused { IfErr result (RefusesCouple work.old compliances.now) }
    ensures encloses { OnOk result (EnclosesCoupling (length compliances.now) work.old work.new (of_row compliances.now)) }
    ensures others { work.new ≡ record work.old { Y = work.new.Y; Z = work.new.Z; pairs = work.new.pairs } }
{
    let _sizes = work.rows();
    couple_all(compliances.len() as u32, compliances, work)
}
