ghost use Rattle.std.specs.Prelude.{◌≡◌, ◌≤◌, ◌<◌, ◌+◌, ◌*◌, IfOk, length};
ghost use Rattle.rb_work.specs.Path.{Ascends, IsOn, above, packed_length, packed_place};
ghost use Rattle.rb_work.specs.View.{IsSized, blank_of, columns_of, full_place, column_place, row_place};

use crate::steps::{depths_of, ends_of};
use crate::tables::{BodyTables, ColumnTables, RowTables, body_tables, column_tables, row_tables};
use std::alloc::{AllocError, Global};
use std::marker::Model;

mod answers;
mod bodies;
mod capitals;
mod columns;
mod rows;

pub use capitals::Capitals;

/// The values of all names for one robot and so many rows. What it holds is written by name, and never cleared.
///
/// Bodies, full columns, columns and rows are numbered from 1; the world is body 0. `M`, `D` and `L` have one table, with one number for each
/// column and each of its ancestors, itself included; `G`, `C` and `l` have one table. So a writer of one of these changes what the others of its
/// table tell at that place. Otherwise a writer changes its value alone.
#[derive(Drop)]
pub struct Work {
    bodies: u32,
    full: u32,
    rows: u32,
    up: Vec<u32>,
    depths: Vec<u32>,
    ends: Vec<u32>,
    by_body: BodyTables,
    by_column: ColumnTables,
    by_row: RowTables,
}

impl Model for Work {
    ghost use Rattle.rb_work.specs.View.{View};

    ghost Value = { View };

    ghost use Rattle.rb_work.specs.Inside.{view_of, IsWork};

    ghost view = { view_of };

    ghost invariant = { IsWork };
}

impl Work {
    /// A work for so many bodies, full columns and rows, with zeros throughout; `up` tells the column above each column from 1 on, or 0. All memory
    /// is taken here.
    pub fn new(
        alloc: Global,
        bodies: u32,
        full: u32,
        up: &[u32],
        rows: u32,
    ) -> Result<Work, AllocError>
        requires few_bodies { bodies ≤ 256 }
        requires few_full { full ≤ 64 }
        requires few_columns { length up.now ≤ full }
        requires few_rows { rows ≤ 64 }
        requires ascends { Ascends up.now }
        ensures { IfOk result (λ w. w ≡ blank_of (record { bodies = bodies; full = full; up = up.now; rows = rows })) }
    {
        let columns = up.len();
        let listed = Vec::from_slice(alloc, up)?;
        let depths = depths_of(alloc, up)?;
        let ends = ends_of(alloc, up, depths.as_slice())?;
        let packed_len = ends[columns] as usize;
        Ok(Work {
            bodies,
            full,
            rows,
            up: listed,
            depths,
            ends,
            by_body: body_tables(alloc, bodies)?,
            by_column: column_tables(alloc, full, columns, packed_len)?,
            by_row: row_tables(alloc, rows, columns)?,
        })
    }

    /// How many bodies it is for.
    #[inline]
    pub fn bodies(&self) -> u32
        ensures value { result ≡ self.now.bodies }
        ensures sized { IsSized self.now }
    {
        self.bodies
    }

    /// How many full columns it is for.
    #[inline]
    pub fn full(&self) -> u32
        ensures value { result ≡ self.now.full }
        ensures sized { IsSized self.now }
    {
        self.full
    }

    /// How many columns it is for.
    #[inline]
    pub fn columns(&self) -> u32
        ensures value { result ≡ columns_of self.now }
        ensures sized { IsSized self.now }
    {
        self.up.len() as u32
    }

    /// How many rows it has room for.
    #[inline]
    pub fn rows(&self) -> u32
        ensures value { result ≡ self.now.rows }
        ensures sized { IsSized self.now }
    {
        self.rows
    }

    /// The column above column `c`, or 0.
    #[inline]
    pub fn up(&self, c: u32) -> u32
        requires from { 1 ≤ c }
        requires to { c ≤ columns_of self.now }
        ensures value { result ≡ above self.now.up c }
        ensures less { result < c }
    {
        self.up[c as usize - 1]
    }

    // Where the value of full columns k and l stands.
    #[inline]
    fn full_place(&self, k: u32, l: u32) -> usize
        requires first { k ≤ self.now.full }
        requires second { l ≤ k }
        ensures value { result ≡ full_place self.now k l }
        ensures within { result < length self.now.H }
    {
        k as usize * (self.full as usize + 1) + l as usize
    }

    // Where that of a row and a column stands.
    #[inline]
    fn column_place(&self, r: u32, c: u32) -> usize
        requires row { r ≤ self.now.rows }
        requires column { c ≤ columns_of self.now }
        ensures value { result ≡ column_place self.now r c }
        ensures within { result < (self.now.rows + 1) * (columns_of self.now + 1) }
    {
        r as usize * (self.up.len() + 1) + c as usize
    }

    // Where that of two rows stands.
    #[inline]
    fn row_place(&self, r: u32, s: u32) -> usize
        requires first { r ≤ self.now.rows }
        requires second { s ≤ r }
        ensures value { result ≡ row_place self.now r s }
        ensures within { result < length self.now.pairs }
    {
        r as usize * (self.rows as usize + 1) + s as usize
    }

    // Where that of a column and one on its path stands.
    #[inline]
    fn packed_place(&self, c: u32, d: u32) -> usize
        requires column { c ≤ columns_of self.now }
        requires pair { IsOn self.now.up c d }
        ensures value { result ≡ packed_place self.now.up c d }
        ensures within { result < length self.now.packed }
    {
        (self.ends[c as usize] - self.depths[d as usize]) as usize
    }

    // Where that of a column and itself stands.
    #[inline]
    fn pivot_place(&self, c: u32) -> usize
        requires from { 1 ≤ c }
        requires to { c ≤ columns_of self.now }
        ensures value { result ≡ packed_place self.now.up c c }
        ensures within { result < length self.now.packed }
    {
        let _ = &self.bodies;
        self.packed_place(c, c)
    }

    /// How many numbers the table of `M`, `D` and `L` has: the sum of the depths of the columns.
    pub fn packed_len(&self) -> usize
        ensures { result ≡ packed_length self.now.up }
    {
        self.by_column.packed.len()
    }
}
