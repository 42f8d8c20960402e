// Which groups a group holds, itself or through groups.
ghost use Rattle.std.specs.Prelude.{◌≤◌, ◌↔◌, ℕ, IsTrue, IfOk, length};
ghost use Rattle.rb_tags.specs.declared.tag.TheConstants.{MAX_TAGS};
ghost use Rattle.rb_srdf.specs.Loops.{LeadsTo, AreFalling};
ghost use Rattle.rb_srdf.specs.Reached.{IsAdded, AreReached};

use crate::rows::{Row, row_at};
use indexmap::IndexSet;
use std::alloc::{AllocError, Global};

/// Adds the numbers of a row behind the others, each that is not there yet.
fn add_row(found: &mut IndexSet<u32>, row: &[u32]) -> Result<(), AllocError>
    ensures { IfOk result (λ _. IsAdded found.old.keys row.now found.new.keys) }
{
    for number in row {
        found.insert(*number)?;
    }
    Ok(())
}

/// The rows to which ways of one step or more lead from a row.
fn reached(alloc: Global, rows: &[Row], from: u32) -> Result<IndexSet<u32>, AllocError>
    ensures { IfOk result (λ found. AreReached rows.now from found.keys) }
{
    let mut found = IndexSet::new(alloc);
    add_row(&mut found, row_at(rows, from))?;
    let mut next = 0;
    while next < found.len() {
        let number = found.get_index(next).copied().unwrap_or(0);
        add_row(&mut found, row_at(rows, number))?;
        next += 1;
    }
    Ok(found)
}

/// Whether a way of one step or more leads from a row to itself.
pub(crate) fn is_on_loop(alloc: Global, rows: &[Row], number: u32) -> Result<bool, AllocError>
    ensures { IfOk result (λ loops. IsTrue loops ↔ LeadsTo rows.now number number) }
{
    let found = reached(alloc, rows, number)?;
    Ok(found.contains(&number))
}

/// For each row the number of those to which ways of one step or more lead from it.
pub(crate) fn reach_counts(alloc: Global, rows: &[Row]) -> Result<Vec<usize>, AllocError>
    requires few { length rows.now ≤ MAX_TAGS }
    requires free { (k : ℕ) → ¬ LeadsTo rows.now k k }
    ensures { IfOk result (λ counts. AreFalling rows.now counts.items) }
{
    let mut counts = Vec::new(alloc);
    for k in 0..rows.len() {
        counts.push(reached(alloc, rows, k as u32)?.len())?;
    }
    Ok(counts)
}
