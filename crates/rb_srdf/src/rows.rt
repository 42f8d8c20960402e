// Which groups hold which, by their numbers in file order.
ghost use Rattle.std.specs.Prelude.{◌≡◌, ◌≤◌, ◌^◌, [], IfOk, length, slice_index_or};
ghost use Rattle.rb_tags.specs.declared.tag.TheConstants.{MAX_TAGS};
ghost use Rattle.rb_tags.specs.Names.{AreDifferent};
ghost use Rattle.rb_srdf.specs.Srdf.{names_of_groups};
ghost use Rattle.rb_srdf.specs.Loops.{number_of_item, held_by, rows_of};

use crate::srdf::{Group, GroupItem};
use rb_tags::Names;
use std::alloc::{AllocError, Global};
use std::marker::Model;

/// The numbers of the groups that a group holds, in file order.
#[derive(Drop)]
pub(crate) struct Row {
    held: Vec<u32>,
}

impl Model for Row {
    ghost use Rattle.std.specs.Prelude.{List, ℕ};

    ghost Value = { List ℕ };

    ghost view = { λ r. r.held.items };
}

impl Row {
    /// These numbers.
    pub(crate) fn new(held: Vec<u32>) -> Row
        ensures { result ≡ held.items }
    {
        Row { held }
    }

    /// The numbers, in file order.
    pub(crate) fn as_slice(&self) -> &[u32]
        ensures { result.now ≡ self.now }
    {
        self.held.as_slice()
    }
}

/// The numbers in a row. A row that is not there has none.
pub(crate) fn row_at(rows: &[Row], number: u32) -> &[u32]
    ensures { result.now ≡ slice_index_or rows.now number [] }
{
    match rows.get(number as usize) {
        Some(row) => row.as_slice(),
        None => &[],
    }
}

/// The number of the group that an item names.
fn number_of_item(names: &Names<'_>, item: &GroupItem) -> Option<u32>
    requires few { length names.now ≤ 2 ^ 32 }
    ensures { result ≡ number_of_item names.now item.now }
{
    match item {
        GroupItem::Group(name) => names.number_of(name.as_str()),
        _ => None,
    }
}

/// The numbers of the groups that items name.
fn row_of(alloc: Global, names: &Names<'_>, items: &[GroupItem]) -> Result<Row, AllocError>
    requires few { length names.now ≤ 2 ^ 32 }
    ensures { IfOk result (λ row. row ≡ held_by names.now items.now) }
{
    let mut held = Vec::new(alloc);
    for item in items {
        if let Some(number) = number_of_item(names, item) {
            held.push(number)?;
        }
    }
    Ok(Row::new(held))
}

/// The row of each group, where these are their names.
#[tactic(auto, unfolding(crate::specs::Loops::rows_of))]
pub(crate) fn rows_of(
    alloc: Global,
    names: &Names<'_>,
    groups: &[Group],
) -> Result<Vec<Row>, AllocError>
    requires names { names.now ≡ names_of_groups groups.now }
    requires few { length groups.now ≤ MAX_TAGS }
    ensures { IfOk result (λ rows. rows.items ≡ rows_of groups.now) }
{
    let mut rows = Vec::new(alloc);
    for group in groups {
        rows.push(row_of(alloc, names, group.items.as_slice())?)?;
    }
    Ok(rows)
}

/// Says that names differ, as each look-up does.
pub(crate) fn differ(names: &Names<'_>)
    requires few { length names.now ≤ 2 ^ 32 }
    ensures { AreDifferent names.now }
{
    let _ = names.number_of("");
}
