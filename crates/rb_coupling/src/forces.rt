//! The forces of the rows.

ghost use Rattle.std.specs.Prelude.{◌≡◌, ◌≤◌, ◌<◌, length, IfErr, OnOk};
ghost use Rattle.rb_num.specs.declared.interval.NumFault.{NumFault};
ghost use Rattle.rb_num.specs.declared.interval.TheConstants.{MAX_PAIRS};
ghost use Rattle.rb_sweep.specs.Sweep.{Answers};
ghost use Rattle.rb_work.specs.View.{columns_of};
ghost use Rattle.rb_factor.specs.Sweeps.{number_at};
ghost use Rattle.rb_coupling.specs.Couple.{HoldsRowDivisors};
ghost use Rattle.rb_coupling.specs.Forces.{HoldsRowSides, HoldsRowForces, HoldsAddedForces, RefusesRowSides, RefusesRowForces, RefusesAddedForces};
ghost use Rattle.rb_coupling.specs.Laws.{EnclosesRowSides, EnclosesRowForces, EnclosesAddedForces};
ghost use Rattle.rb_coupling.specs.Sweeps.{cell_at, total_of, side_step, sides_of, lessen_step, lessen_row_step, right_reduced_of, right_divide_step, right_divided_of, part_step, part_of, force_step, forces_of, keep_step, kept_of, row_forces_of, add_step, added_of};

use crate::sums::{NO_PAIRS, Pairs, sum_of_column, sum_of_row};
use rb_num::{Iv, NumFault};
use rb_work::{Capitals, Name, NameKind, RowFault, Work, named};

// What row r has at z, and g.
#[tactic(auto, unfolding(crate::specs::Sweeps::total_of))]
fn row_total(r: u32, work: &Work, pairs: &mut Pairs) -> Result<Iv, NumFault>
    requires row { r ≤ work.now.rows }
    ensures exact { result ≡ total_of (number_at work.now.g r) (columns_of work.now) (cell_at (columns_of work.now) work.now.Y r) (number_at work.now.z) }
    ensures room { length pairs.new ≡ MAX_PAIRS }
    ensures size { IfErr result (λ e. e ≡ NumFault.Size) }
{
    let sum = sum_of_row(work, r, pairs)?;
    work.g(r).add(sum)
}

// The right side of row r.
#[tactic(auto, unfolding(crate::specs::Sweeps::side_step))]
fn find_side(r: u32, work: &mut Work) -> Result<(), RowFault>
    requires row { r ≤ work.old.rows }
    ensures exact { Answers result (side_step (columns_of work.old) work.old.Y work.old.z work.old.g r work.old.e) work.new.e }
    ensures others { work.new ≡ record work.old { e = work.new.e } }
{
    let mut pairs = NO_PAIRS;
    let total = named(row_total(r, work, &mut pairs), Name::one(NameKind::e, r))?;
    work.set_e(r, total.neg());
    Ok(())
}

// The rows from the first on.
#[tactic(auto, using(rb_sweep::proofs::SweepSteps::sweeps))]
fn find_sides(rows: u32, work: &mut Work) -> Result<(), RowFault>
    requires rows { rows ≤ work.old.rows }
    ensures exact { Answers result (sides_of (columns_of work.old) rows work.old.Y work.old.z work.old.g work.old.e) work.new.e }
    ensures others { work.new ≡ record work.old { e = work.new.e } }
{
    let _sizes = work.rows();
    for r in 1..rows + 1 {
        find_side(r, work)?;
    }
    Ok(())
}

// The right side of q is lessened by that of r, its own.
#[tactic(auto, unfolding(crate::specs::Sweeps::lessen_step))]
fn lessen_side(r: u32, own: Iv, q: u32, work: &mut Work) -> Result<(), RowFault>
    requires later { r < q }
    requires row { q ≤ work.old.rows }
    ensures exact { Answers result (lessen_step work.old.rows work.old.pairs r own q work.old.e) work.new.e }
    ensures others { work.new ≡ record work.old { e = work.new.e } }
{
    let m = work.l(q, r).neg();
    let v = named(work.e(q).plus_product(m, own), Name::one(NameKind::e, r))?;
    work.set_e(q, v);
    Ok(())
}

// Row r is taken from the later ones.
#[tactic(auto, unfolding(crate::specs::Sweeps::lessen_row_step), using(rb_sweep::proofs::SweepSteps::sweeps))]
fn take_row(rows: u32, r: u32, work: &mut Work) -> Result<(), RowFault>
    requires rows { rows ≤ work.old.rows }
    requires row { r ≤ rows }
    ensures exact { Answers result (lessen_row_step work.old.rows rows work.old.pairs r work.old.e) work.new.e }
    ensures others { work.new ≡ record work.old { e = work.new.e } }
{
    let _sizes = work.rows();
    let own = work.e(r);
    for q in r + 1..rows + 1 {
        lessen_side(r, own, q, work)?;
    }
    Ok(())
}

// The rows from the first on.
#[tactic(auto, using(rb_sweep::proofs::SweepSteps::sweeps))]
fn take_rows(rows: u32, work: &mut Work) -> Result<(), RowFault>
    requires rows { rows ≤ work.old.rows }
    ensures exact { Answers result (right_reduced_of work.old.rows rows work.old.pairs work.old.e) work.new.e }
    ensures others { work.new ≡ record work.old { e = work.new.e } }
{
    let _sizes = work.rows();
    for r in 1..rows + 1 {
        take_row(rows, r, work)?;
    }
    Ok(())
}

// What is left of row r is divided by its pivot.
#[tactic(auto, unfolding(crate::specs::Sweeps::right_divide_step))]
fn divide_row(r: u32, work: &mut Work) -> Result<(), RowFault>
    requires row { r ≤ work.old.rows }
    ensures exact { Answers result (right_divide_step work.old.rows work.old.pairs r work.old.e) work.new.e }
    ensures others { work.new ≡ record work.old { e = work.new.e } }
{
    let quotient = named(work.e(r).div(work.C(r)), Name::one(NameKind::e, r))?;
    work.set_e(r, quotient);
    Ok(())
}

// The rows from the first on.
#[tactic(auto, using(rb_sweep::proofs::SweepSteps::sweeps))]
fn divide_rows(rows: u32, work: &mut Work) -> Result<(), RowFault>
    requires rows { rows ≤ work.old.rows }
    ensures exact { Answers result (right_divided_of work.old.rows rows work.old.pairs work.old.e) work.new.e }
    ensures others { work.new ≡ record work.old { e = work.new.e } }
{
    let _sizes = work.rows();
    for r in 1..rows + 1 {
        divide_row(r, work)?;
    }
    Ok(())
}

// The quotient of row r, lessened by the forces of the later rows.
#[tactic(auto, unfolding(crate::specs::Sweeps::part_step), using(rb_sweep::proofs::SweepSteps::sweeps))]
fn force_left(rows: u32, r: u32, work: &Work) -> Result<Iv, NumFault>
    requires rows { rows ≤ work.now.rows }
    requires row { r ≤ rows }
    ensures exact { result ≡ part_of work.now.rows rows work.now.pairs work.now.e work.now.lam r }
    ensures size { IfErr result (λ e. e ≡ NumFault.Size) }
{
    let _sizes = work.rows();
    let mut part = work.e(r);
    for q in r + 1..rows + 1 {
        part = part.plus_product(work.l(q, r).neg(), work.lam(q))?;
    }
    Ok(part)
}

// The force of row r.
#[tactic(auto, unfolding(crate::specs::Sweeps::force_step))]
fn find_force(rows: u32, r: u32, work: &mut Work) -> Result<(), RowFault>
    requires rows { rows ≤ work.old.rows }
    requires row { r ≤ rows }
    ensures exact { Answers result (force_step work.old.rows rows work.old.pairs work.old.e r work.old.lam) work.new.lam }
    ensures others { work.new ≡ record work.old { lam = work.new.lam } }
{
    let force = named(force_left(rows, r, work), Name::one(NameKind::lam, r))?;
    work.set_lam(r, force);
    Ok(())
}

// The rows from the last on.
#[tactic(auto, using(rb_sweep::proofs::SweepSteps::sweeps_down))]
fn find_forces(rows: u32, work: &mut Work) -> Result<(), RowFault>
    requires rows { rows ≤ work.old.rows }
    ensures exact { Answers result (forces_of work.old.rows rows work.old.pairs work.old.e work.old.lam) work.new.lam }
    ensures others { work.new ≡ record work.old { lam = work.new.lam } }
{
    let _sizes = work.rows();
    for r in (1..rows + 1).rev() {
        find_force(rows, r, work)?;
    }
    Ok(())
}

// The right side of each row becomes its force.
#[tactic(auto, unfolding(crate::specs::Sweeps::keep_step), using(rb_sweep::proofs::SweepSteps::sweeps))]
fn keep_forces(rows: u32, work: &mut Work) -> Result<(), RowFault>
    requires rows { rows ≤ work.old.rows }
    ensures exact { Answers result (kept_of rows work.old.lam work.old.e) work.new.e }
    ensures others { work.new ≡ record work.old { e = work.new.e } }
{
    let _sizes = work.rows();
    for r in 1..rows + 1 {
        let force = work.lam(r);
        work.set_e(r, force);
    }
    Ok(())
}

// The four steps in turn.
#[tactic(auto, unfolding(crate::specs::Sweeps::row_forces_of))]
fn find_all(rows: u32, work: &mut Work) -> Result<(), RowFault>
    requires rows { rows ≤ work.old.rows }
    ensures exact { Answers result (row_forces_of work.old.rows rows work.old.pairs (work.old.e, work.old.lam)) (work.new.e, work.new.lam) }
    ensures others { work.new ≡ record work.old { e = work.new.e; lam = work.new.lam } }
{
    take_rows(rows, work)?;
    divide_rows(rows, work)?;
    find_forces(rows, work)?;
    keep_forces(rows, work)
}

// The number of column c, and what the forces add to it.
#[tactic(auto, unfolding(crate::specs::Sweeps::total_of))]
fn column_total(rows: u32, c: u32, work: &Work, pairs: &mut [(Iv, Iv)]) -> Result<Iv, NumFault>
    requires rows { rows ≤ work.now.rows }
    requires room { rows ≤ length pairs.old }
    requires column { c ≤ columns_of work.now }
    ensures exact { result ≡ total_of (number_at work.now.w c) rows (λ r. cell_at (columns_of work.now) work.now.Y r c) (number_at work.now.lam) }
    ensures room { length pairs.new ≡ length pairs.old }
    ensures size { IfErr result (λ e. e ≡ NumFault.Size) }
{
    let sum = sum_of_column(rows, work, c, pairs)?;
    work.w(c).add(sum)
}

// It is put.
#[tactic(auto, unfolding(crate::specs::Sweeps::add_step))]
fn add_to_column(rows: u32, c: u32, work: &mut Work, pairs: &mut [(Iv, Iv)]) -> Result<(), RowFault>
    requires rows { rows ≤ work.old.rows }
    requires room { rows ≤ length pairs.old }
    requires column { c ≤ columns_of work.old }
    ensures exact { Answers result (add_step (columns_of work.old) rows work.old.Y work.old.lam c work.old.w) work.new.w }
    ensures others { work.new ≡ record work.old { w = work.new.w } }
    ensures room { length pairs.new ≡ length pairs.old }
{
    let total = named(
        column_total(rows, c, work, pairs),
        Name::one(NameKind::w, c),
    )?;
    work.set_w(c, total);
    Ok(())
}

// The columns from the first on.
#[tactic(auto, using(rb_sweep::proofs::SweepSteps::sweeps))]
fn add_to_columns(rows: u32, work: &mut Work, pairs: &mut [(Iv, Iv)]) -> Result<(), RowFault>
    requires rows { rows ≤ work.old.rows }
    requires room { rows ≤ length pairs.old }
    ensures exact { Answers result (added_of (columns_of work.old) rows work.old.Y work.old.lam work.old.w) work.new.w }
    ensures others { work.new ≡ record work.old { w = work.new.w } }
{
    let end = work.columns() + 1;
    for c in 1..end {
        add_to_column(rows, c, work, pairs)?;
    }
    Ok(())
}

// The room for pairs is made where there is a row.
fn add_to_all(rows: u32, work: &mut Work) -> Result<(), RowFault>
    requires rows { rows ≤ work.old.rows }
    ensures exact { Answers result (added_of (columns_of work.old) rows work.old.Y work.old.lam work.old.w) work.new.w }
    ensures others { work.new ≡ record work.old { w = work.new.w } }
{
    let _sizes = work.rows();
    if rows == 0 {
        return add_to_columns(rows, work, &mut []);
    }
    let mut pairs = NO_PAIRS;
    add_to_columns(rows, work, &mut pairs)
}

/// The right side of the forces of the first `rows` rows: `e[r]` is the negative of `g[r]` with the sum of the products of `Y[r]` and `z` added, from the first
/// row on. A sum that is too large is refused as `Size` under `e[r]`. For all numbers within `Y`, `z` and `g` it lies in `e`. Takes no memory, and writes `e`
/// alone.
pub fn row_sides(rows: u32, work: &mut Work) -> Result<(), RowFault>
    requires rows { rows ≤ work.old.rows }
    ensures values { OnOk result (HoldsRowSides rows work.old work.new) }
    ensures refused { IfErr result (RefusesRowSides rows work.old) }
    ensures encloses { OnOk result (EnclosesRowSides rows work.old work.new) }
    ensures others { work.new ≡ record work.old { e = work.new.e } }
{
    let _sizes = work.rows();
    find_sides(rows, work)
}

/// The forces `lam` of the first `rows` rows, by the factors `l` and `C` of their coupling and the right side `e`. From the first row on, `e[r]` times `l[q.r]`
/// is taken from `e` of each later row `q`; then each `e[r]` is divided by `C[r]`; then, from the last row down, `lam[r]` is `e[r]`, less `l[q.r]` times the
/// `lam` of each later row `q`, in their order, and `e[r]` becomes it too (Featherstone, Rigid Body Dynamics Algorithms, chapter 8). The first row whose step
/// is too large is refused as `Size`, under `e[r]` in the first two steps and `lam[r]` in the last. No pivot `C` may contain zero. What is found from all
/// numbers within `l`, `C` and `e` lies in `lam`. Takes no memory, and writes `e` and `lam` alone.
pub fn row_forces(rows: u32, work: &mut Work) -> Result<(), RowFault>
    requires rows { rows ≤ work.old.rows }
    requires divisors { HoldsRowDivisors rows work.old }
    ensures values { OnOk result (HoldsRowForces rows work.old work.new) }
    ensures refused { IfErr result (RefusesRowForces rows work.old) }
    ensures encloses { OnOk result (EnclosesRowForces rows work.old work.new) }
    ensures others { work.new ≡ record work.old { e = work.new.e; lam = work.new.lam } }
{
    let _sizes = work.rows();
    find_all(rows, work)
}

/// Adds to `w[c]` the sum over the first `rows` rows of the products of `Y[r.c]` and `lam[r]`, from the first column on. A sum that is too large is refused as
/// `Size` under `w[c]`. For all numbers within `Y`, `lam` and `w` it lies in the new `w`. Takes no memory, and writes `w` alone.
pub fn add_row_forces(rows: u32, work: &mut Work) -> Result<(), RowFault>
    requires rows { rows ≤ work.old.rows }
    ensures values { OnOk result (HoldsAddedForces rows work.old work.new) }
    ensures refused { IfErr result (RefusesAddedForces rows work.old) }
    ensures encloses { OnOk result (EnclosesAddedForces rows work.old work.new) }
    ensures others { work.new ≡ record work.old { w = work.new.w } }
{
    let _sizes = work.columns();
    add_to_all(rows, work)
}
