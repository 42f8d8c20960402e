//! What the rows have to gain: the negative of their speed before, times one and the restitution.

ghost use Rattle.std.specs.Prelude.{◌≡◌, ◌≤◌, length, OnOk, IfErr};
ghost use Rattle.rb_num.specs.declared.interval.NumFault.{NumFault};
ghost use Rattle.rb_sweep.specs.Sweep.{Answers};
ghost use Rattle.rb_flat.specs.Contact.{HasRow};
ghost use Rattle.rb_work.specs.View.{columns_of};
ghost use Rattle.rb_constraint.specs.Constraints.{constraints_of};
ghost use Rattle.rb_impact.specs.Sides.{row_speed_of, gain_of, row_gain_of, side_step, gains_of, AreSides, IsSideRefused};

use rb_constraint::Constraints;
use rb_num::{Iv, MAX_PAIRS, NumFault, dot};
use rb_tree::State;
use rb_work::{Capitals, Name, NameKind, RowFault, Work, named};

// The speed of row r before the impact.
#[tactic(auto, unfolding(rb_coupling::specs::Steps::pairs_of))]
fn row_speed(state: &State, r: u32, work: &Work) -> Result<Iv, NumFault>
    requires row { r ≤ work.now.rows }
    requires speeds { length state.now.v ≡ columns_of work.now }
    ensures exact { result ≡ row_speed_of state.now r work.now }
    ensures size { IfErr result (λ e. e ≡ NumFault.Size) }
{
    let columns = work.columns();
    let mut pairs = [(Iv::ZERO, Iv::ZERO); MAX_PAIRS];
    for c in 1..columns + 1 {
        pairs[c as usize - 1] = (work.J(r, c), state.v(c as usize - 1));
    }
    dot(&pairs[..columns as usize])
}

// What a row of this restitution and speed has to gain.
#[tactic(auto, unfolding(crate::specs::Sides::gain_of))]
fn gain(restitution: Iv, speed: Iv) -> Result<Iv, NumFault>
    ensures exact { result ≡ gain_of restitution speed }
    ensures size { IfErr result (λ e. e ≡ NumFault.Size) }
{
    let factor = Iv::ONE.add(restitution)?;
    let product = dot(&[(factor, speed)])?;
    Ok(product.neg())
}

// What row r has to gain.
fn row_gain(cons: &Constraints, state: &State, r: u32, work: &Work) -> Result<Iv, NumFault>
    requires there { HasRow (constraints_of cons.now) r }
    requires row { r ≤ work.now.rows }
    requires speeds { length state.now.v ≡ columns_of work.now }
    ensures exact { result ≡ row_gain_of state.now (constraints_of cons.now) r work.now }
    ensures size { IfErr result (λ e. e ≡ NumFault.Size) }
{
    let speed = row_speed(state, r, work)?;
    gain(cons.row(r).restitution, speed)
}

// It is put.
#[tactic(auto, unfolding(crate::specs::Sides::e_rule, crate::specs::Sides::side_step))]
fn find_side(cons: &Constraints, state: &State, r: u32, work: &mut Work) -> Result<(), RowFault>
    requires there { HasRow (constraints_of cons.now) r }
    requires row { r ≤ work.old.rows }
    requires speeds { length state.now.v ≡ columns_of work.old }
    ensures exact { Answers result (side_step state.now (constraints_of cons.now) r work.old) work.new }
    ensures others { work.new ≡ record work.old { e = work.new.e } }
{
    let side = named(row_gain(cons, state, r, work), Name::one(NameKind::e, r))?;
    work.set_e(r, side);
    Ok(())
}

// The rows from the first on.
#[tactic(auto, using(rb_sweep::proofs::SweepSteps::sweeps))]
fn find_sides(cons: &Constraints, state: &State, work: &mut Work) -> Result<(), RowFault>
    requires rows { (constraints_of cons.now).rows ≤ work.old.rows }
    requires speeds { length state.now.v ≡ columns_of work.old }
    ensures exact { Answers result (gains_of state.now (constraints_of cons.now) work.old) work.new }
    ensures others { work.new ≡ record work.old { e = work.new.e } }
{
    let end = cons.rows() + 1;
    for r in 1..end {
        find_side(cons, state, r, work)?;
    }
    Ok(())
}

// What each row has to gain, as the right side of the rows.
pub(crate) fn impact_sides(
    cons: &Constraints,
    state: &State,
    work: &mut Work,
) -> Result<(), RowFault>
    requires rows { (constraints_of cons.now).rows ≤ work.old.rows }
    requires speeds { length state.now.v ≡ columns_of work.old }
    ensures values { OnOk result (AreSides state.now (constraints_of cons.now) work.new) }
    ensures refused { IfErr result (IsSideRefused state.now (constraints_of cons.now) work.old) }
    ensures others { work.new ≡ record work.old { e = work.new.e } }
{
    let _sizes = work.rows();
    find_sides(cons, state, work)
}
