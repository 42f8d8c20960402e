// The order of groups in which each comes behind those that it holds, or the first group that holds itself.
ghost use Rattle.std.specs.Prelude.{◌≡◌, ◌<◌, ◌≤◌, ◌+◌, ◌↔◌, ℕ, IsTrue, IfOk, MatchOption, length, slice_index};
ghost use Rattle.std.specs.List.{All, range_with_len};
ghost use Rattle.std.specs.List.Sorted.{IsPermutation, IsNonDecreasingBy};
ghost use Rattle.rb_tags.specs.declared.tag.TheConstants.{MAX_TAGS};
ghost use Rattle.rb_srdf.specs.Srdf.{names_of_groups};
ghost use Rattle.rb_srdf.specs.Loops.{RowHolds, LeadsTo, AreOrdered, AreFalling, IsFirstOnLoop, IsRowOrder, IsRowAnswer, IsHolding};

use crate::components::components;
use crate::reached::{is_on_loop, reach_counts};
use crate::rows::{Row, differ, row_at, rows_of};
use crate::srdf::Group;
use rb_tags::Names;
use std::alloc::{AllocError, Global};

/// What is said of groups that hold groups.
#[derive(Drop)]
pub(crate) enum Holding {
    /// The numbers of all groups, in an order in which each comes behind those that it holds.
    Order(Vec<u32>),
    /// The number of the first group that holds itself.
    Loop(usize),
}

/// The level of a row, and 0 where it has none.
fn level_at(levels: &[usize], number: u32) -> usize
    ensures { result ≡ slice_index levels.now number }
{
    levels.get(number as usize).copied().unwrap_or(0)
}

/// Whether all that a row holds have levels below a limit.
fn is_below(row: &[u32], levels: &[usize], limit: usize) -> bool
    ensures { IsTrue result ↔ All (λ k. slice_index levels.now k < limit) row.now }
{
    row.iter().all(|k| level_at(levels, *k) < limit)
}

/// Whether each row holds only rows whose levels are less than its own with this much added.
fn are_below(rows: &[Row], levels: &[usize], more: usize) -> bool
    requires { length rows.now ≤ MAX_TAGS }
    ensures { IsTrue result → (a b : ℕ) → RowHolds rows.now a b → slice_index levels.now b < slice_index levels.now a + more }
{
    for k in 0..rows.len() {
        let number = k as u32;
        let limit = level_at(levels, number).saturating_add(more);
        if !is_below(row_at(rows, number), levels, limit) {
            return false;
        }
    }
    true
}

/// Whether a way leads from a row to itself. If levels are ordered, no row is at a lower one than those that it holds, and then a row on a loop
/// holds one at its own level.
fn leads_to_itself(
    alloc: Global,
    rows: &[Row],
    levels: &[usize],
    ordered: bool,
    number: u32,
) -> Result<bool, AllocError>
    requires { IsTrue ordered → AreOrdered rows.now levels.now }
    ensures { IfOk result (λ loops. IsTrue loops ↔ LeadsTo rows.now number number) }
{
    let limit = level_at(levels, number);
    if ordered && is_below(row_at(rows, number), levels, limit) {
        return Ok(false);
    }
    is_on_loop(alloc, rows, number)
}

/// The first row from which a way leads to itself. The better the levels, the sooner it is found.
fn first_on_loop(alloc: Global, rows: &[Row], levels: &[usize]) -> Result<Option<usize>, AllocError>
    requires { length rows.now ≤ MAX_TAGS }
    ensures { IfOk result (λ found. MatchOption found ((k : ℕ) → ¬ LeadsTo rows.now k k) (IsFirstOnLoop rows.now)) }
{
    let ordered = are_below(rows, levels, 1);
    for k in 0..rows.len() {
        if leads_to_itself(alloc, rows, levels, ordered, k as u32)? {
            return Ok(Some(k));
        }
    }
    Ok(None)
}

/// The numbers from 0 up to a count.
fn numbers_to(alloc: Global, count: u32) -> Result<Vec<u32>, AllocError>
    ensures { IfOk result (λ order. order.items ≡ range_with_len 0 count) }
{
    let mut order = Vec::new(alloc);
    for k in 0..count {
        order.push(k)?;
    }
    Ok(order)
}

/// The numbers from 0 up to a count, by their levels.
fn sorted_by(alloc: Global, levels: &[usize], count: u32) -> Result<Vec<u32>, AllocError>
    ensures moved { IfOk result (λ order. IsPermutation (range_with_len 0 count) order.items) }
    ensures sorted { IfOk result (λ order. IsNonDecreasingBy (λ k. slice_index levels.now k) order.items) }
{
    let mut order = numbers_to(alloc, count)?;
    order.sort_by_key(|k| level_at(levels, *k))?;
    Ok(order)
}

/// The order of rows by levels that fall from each row to those that it holds.
fn order_by(alloc: Global, rows: &[Row], levels: &[usize]) -> Result<Vec<u32>, AllocError>
    requires few { length rows.now ≤ MAX_TAGS }
    requires falling { AreFalling rows.now levels.now }
    ensures { IfOk result (λ order. IsRowOrder rows.now order.items) }
{
    let order = sorted_by(alloc, levels, rows.len() as u32)?;
    Ok(order)
}

/// An order of rows, or the first from which a way leads to itself.
pub(crate) fn answer_of(alloc: Global, rows: &[Row]) -> Result<Holding, AllocError>
    requires { length rows.now ≤ MAX_TAGS }
    ensures { IfOk result (IsRowAnswer rows.now) }
{
    let levels = components(alloc, rows)?;
    if are_below(rows, levels.as_slice(), 0) {
        let order = order_by(alloc, rows, levels.as_slice())?;
        return Ok(Holding::Order(order));
    }
    if let Some(k) = first_on_loop(alloc, rows, levels.as_slice())? {
        return Ok(Holding::Loop(k));
    }
    let counts = reach_counts(alloc, rows)?;
    let order = order_by(alloc, rows, counts.as_slice())?;
    Ok(Holding::Order(order))
}

/// An order of groups in which each comes behind those that it holds, or the first that holds itself. These are their names.
pub(crate) fn holding_order(
    alloc: Global,
    names: &Names<'_>,
    groups: &[Group],
) -> Result<Holding, AllocError>
    requires names { names.now ≡ names_of_groups groups.now }
    requires few { length groups.now ≤ MAX_TAGS }
    ensures { IfOk result (IsHolding groups.now) }
{
    differ(names);
    let rows = rows_of(alloc, names, groups)?;
    let holding = answer_of(alloc, rows.as_slice())?;
    Ok(holding)
}
