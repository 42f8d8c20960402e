//! Sums of products over the columns of rows, and over the rows.

ghost use Rattle.std.specs.Prelude.{◌≡◌, ◌≤◌, ◌<◌, ◌+◌, ◌++◌, [], ◌∷◌, take, length, IfErr};
ghost use Rattle.rb_num.specs.declared.interval.NumFault.{NumFault};
ghost use Rattle.rb_num.specs.declared.interval.TheConstants.{MAX_PAIRS};
ghost use Rattle.rb_num.specs.Interval.{Interval};
ghost use Rattle.rb_num.specs.Dot.{iv_dot};
ghost use Rattle.rb_work.specs.View.{columns_of};
ghost use Rattle.rb_factor.specs.Sweeps.{number_at};
ghost use Rattle.rb_coupling.specs.Steps.{pairs_of};
ghost use Rattle.rb_coupling.specs.Sweeps.{cell_at};

use rb_num::{Iv, MAX_PAIRS, NumFault, dot};
use rb_work::{Capitals, Work};

// Room for the pairs of a sum. What stands there before does not matter.
pub(crate) type Pairs = [(Iv, Iv); MAX_PAIRS];

// Such room, with no pairs yet.
pub(crate) const NO_PAIRS: Pairs = [(Iv::ZERO, Iv::ZERO); MAX_PAIRS];

// The columns of Y of one row with Z of another.
#[tactic(auto, unfolding(crate::specs::Steps::pairs_of))]
pub(crate) fn sum_of_rows(work: &Work, q: u32, r: u32, pairs: &mut Pairs) -> Result<Iv, NumFault>
    requires later { q ≤ work.now.rows }
    requires earlier { r ≤ work.now.rows }
    ensures exact { result ≡ iv_dot (pairs_of (cell_at (columns_of work.now) work.now.Y r) (cell_at (columns_of work.now) work.now.Z q) (columns_of work.now)) }
    ensures room { length pairs.new ≡ MAX_PAIRS }
    ensures size { IfErr result (λ e. e ≡ NumFault.Size) }
{
    let columns = work.columns();
    for c in 1..columns + 1 {
        pairs[c as usize - 1] = (work.Y(r, c), work.Z(q, c));
    }
    dot(&pairs[..columns as usize])
}

// The columns of Y of one row with z.
#[tactic(auto, unfolding(crate::specs::Steps::pairs_of))]
pub(crate) fn sum_of_row(work: &Work, r: u32, pairs: &mut Pairs) -> Result<Iv, NumFault>
    requires row { r ≤ work.now.rows }
    ensures exact { result ≡ iv_dot (pairs_of (cell_at (columns_of work.now) work.now.Y r) (number_at work.now.z) (columns_of work.now)) }
    ensures room { length pairs.new ≡ MAX_PAIRS }
    ensures size { IfErr result (λ e. e ≡ NumFault.Size) }
{
    let columns = work.columns();
    for c in 1..columns + 1 {
        pairs[c as usize - 1] = (work.Y(r, c), work.z(c));
    }
    dot(&pairs[..columns as usize])
}

// So many rows of Y at one column with lam.
#[tactic(auto, unfolding(crate::specs::Steps::pairs_of))]
pub(crate) fn sum_of_column(
    rows: u32,
    work: &Work,
    c: u32,
    pairs: &mut [(Iv, Iv)],
) -> Result<Iv, NumFault>
    requires rows { rows ≤ work.now.rows }
    requires room { rows ≤ length pairs.old }
    requires column { c ≤ columns_of work.now }
    ensures exact { result ≡ iv_dot (pairs_of (λ r. cell_at (columns_of work.now) work.now.Y r c) (number_at work.now.lam) rows) }
    ensures room { length pairs.new ≡ length pairs.old }
    ensures size { IfErr result (λ e. e ≡ NumFault.Size) }
{
    let _sizes = work.rows();
    for r in 1..rows + 1 {
        pairs[r as usize - 1] = (work.Y(r, c), work.lam(r));
    }
    dot(&pairs[..rows as usize])
}
