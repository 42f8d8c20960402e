//! Constraints, and the rows of equations that they have.
ghost use Rattle.std.specs.Prelude.{◌≡◌, ◌≤◌, ◌<◌, ◌+◌, ◌-◌, ◌++◌, ◌∷◌, [], ℕ, length, map, slice_get, slice_index_or, bytes_eq, OnOk, IfOk, Some};
ghost use Rattle.std.specs.List.{AllByRecursion};
ghost use Rattle.rb_num.specs.Interval.{zero_interval};
ghost use Rattle.rb_flat.specs.Contact.{HasRow, RowsFit};
ghost use Rattle.rb_flat.specs.Shape.{Shape};
ghost use Rattle.rb_constraint.specs.Axes.{where_held, directions};
ghost use Rattle.rb_constraint.specs.Constraints.{row_of, own_rows, rows_of, row_at, flat_row, flat_numbers, compliance_of, constraints_of, IsConstraintKept, AreConstraints};

use crate::axes::{Axes, Direction};
use rb_num::Iv;
use rb_spatial::Vec3;
use rb_tags::Text;
use std::alloc::{AllocError, Global};
use std::marker::Model;

/// The greatest number of rows.
pub const MAX_ROWS: usize = 64;

/// A constraint between a point of one body and a point of another, of which the second may be the world, number 0.
#[derive(Debug, Drop, PartialEq, Eq)]
pub struct Constraint {
    /// Its name, which is not empty.
    pub name: Text,
    /// What it holds.
    pub axes: Axes,
    /// The number of the first body.
    pub body1: u32,
    /// The point in the first body.
    pub at1: Vec3,
    /// The number of the second body.
    pub body2: u32,
    /// The point in the second body.
    pub at2: Vec3,
    /// The compliance of each of its rows.
    pub mu: Iv,
    /// The restitution of each of its rows, within 0..1.
    pub e: Iv,
}

/// A row: an axis of the world from 0, whether the row holds turns about it or points along it, the two bodies with their points, the compliance and
/// the restitution.
#[derive(Clone, Copy, Debug, PartialEq, Eq)]
pub struct Row {
    pub axis: usize,
    pub turns: bool,
    pub first: u32,
    pub second: u32,
    pub first_point: Vec3,
    pub second_point: Vec3,
    pub compliance: Iv,
    pub restitution: Iv,
}

/// The row of a constraint in a direction.
fn row_of(c: &Constraint, direction: Direction) -> Row
    ensures { result ≡ row_of c.now direction }
{
    Row {
        axis: direction.axis(),
        turns: direction.is_turn(),
        first: c.body1,
        second: c.body2,
        first_point: c.at1,
        second_point: c.at2,
        compliance: c.mu,
        restitution: c.e,
    }
}

/// Puts the row of a constraint in a direction, where it is held.
fn put_row(
    rows: &mut Vec<Row>,
    held: bool,
    c: &Constraint,
    direction: Direction,
) -> Result<(), AllocError>
    ensures { OnOk result (rows.new.items ≡ rows.old.items ++ map (row_of c.now) (where_held held direction [])) }
{
    if held {
        rows.push(row_of(c, direction))?;
    }
    Ok(())
}

/// Puts the rows of a constraint.
#[tactic(auto, unfolding(crate::specs::Axes::directions))]
fn put_rows(rows: &mut Vec<Row>, c: &Constraint) -> Result<(), AllocError>
    ensures { OnOk result (rows.new.items ≡ rows.old.items ++ own_rows c.now) }
{
    put_row(rows, c.axes.x, c, Direction::AlongX)?;
    put_row(rows, c.axes.y, c, Direction::AlongY)?;
    put_row(rows, c.axes.z, c, Direction::AlongZ)?;
    put_row(rows, c.axes.a, c, Direction::AboutX)?;
    put_row(rows, c.axes.b, c, Direction::AboutY)?;
    put_row(rows, c.axes.c, c, Direction::AboutZ)
}

/// Constraints with their rows, while they are read.
#[derive(Debug, Drop)]
pub(crate) struct Made {
    pub list: Vec<Constraint>,
    pub rows: Vec<Row>,
}

impl Made {
    /// None yet.
    pub(crate) fn new(alloc: Global) -> Self
        ensures list { result.list.items ≡ [] }
        ensures rows { result.rows.items ≡ rows_of [] }
    {
        Made {
            list: Vec::new(alloc),
            rows: Vec::new(alloc),
        }
    }

    /// Adds a constraint behind the others.
    pub(crate) fn add(&mut self, c: Constraint) -> Result<(), AllocError>
        requires { self.old.rows.items ≡ rows_of self.old.list.items }
        ensures list { OnOk result (self.new.list.items ≡ self.old.list.items ++ c ∷ []) }
        ensures rows { OnOk result (self.new.rows.items ≡ rows_of self.new.list.items) }
    {
        put_rows(&mut self.rows, &c)?;
        self.list.push(c)?;
        Ok(())
    }
}

/// The compliances of rows.
fn compliances_of(alloc: Global, rows: &[Row]) -> Result<Vec<Iv>, AllocError>
    ensures { IfOk result (λ made. made.items ≡ map compliance_of rows.now) }
{
    rows.iter().map(|row| row.compliance).collect(alloc)
}

/// Constraints of different names with at most `MAX_ROWS` rows. The rows are numbered from 1 over all constraints: of each, points along x, y and z,
/// and then turns about them.
#[derive(Debug, Drop)]
pub struct Constraints {
    list: Vec<Constraint>,
    rows: Vec<Row>,
    compliances: Vec<Iv>,
}

impl Model for Constraints {
    ghost use Rattle.std.specs.Prelude.{◌≡◌, List, map};
    ghost use Rattle.rb_constraint.specs.declared.constraints.Constraint.{Constraint};
    ghost use Rattle.rb_constraint.specs.Constraints.{rows_of, compliance_of, AreConstraints};

    ghost Value = { List Constraint };

    ghost view = { λ k. k.list.items };

    ghost invariant = { λ k. (k.rows.items ≡ rows_of k.list.items) × (k.compliances.items ≡ map compliance_of k.rows.items) × AreConstraints k.list.items };
}

impl Constraints {
    /// No constraints, which fit each robot. This takes no memory.
    pub fn none(alloc: Global) -> Constraints
        ensures exact { result ≡ [] }
        ensures fit { (shape : Shape) → RowsFit shape (constraints_of result) }
    {
        Constraints {
            list: Vec::new(alloc),
            rows: Vec::new(alloc),
            compliances: Vec::new(alloc),
        }
    }

    /// Those that were made.
    pub(crate) fn of(alloc: Global, made: Made) -> Result<Constraints, AllocError>
        requires rows { made.rows.items ≡ rows_of made.list.items }
        requires kept { AreConstraints made.list.items }
        ensures { IfOk result (λ k. k ≡ made.list.items) }
    {
        let compliances = compliances_of(alloc, made.rows.as_slice())?;
        Ok(Constraints {
            list: made.list,
            rows: made.rows,
            compliances,
        })
    }

    /// The constraints, in the order of the file.
    pub fn as_slice(&self) -> &[Constraint]
        ensures same { result.now ≡ self.now }
        ensures kept { AreConstraints self.now }
    {
        self.list.as_slice()
    }

    /// How many rows they have.
    #[inline]
    pub fn rows(&self) -> u32
        ensures count { result ≡ (constraints_of self.now).rows }
        ensures few { result ≤ MAX_ROWS }
        ensures kept { AreConstraints self.now }
    {
        self.rows.len() as u32
    }

    /// The row of this number, as the equations see it.
    #[inline]
    pub fn row(&self, r: u32) -> &Row
        requires { HasRow (constraints_of self.now) r }
        ensures is { row_at self.now r ≡ Some result.now }
        ensures row { (constraints_of self.now).row r ≡ flat_row result.now }
        ensures numbers { (constraints_of self.now).numbers r ≡ flat_numbers result.now }
        ensures axis { result.now.axis < 3 }
    {
        &self.rows[r as usize - 1]
    }

    /// The compliances of the rows, by their numbers.
    #[inline]
    pub fn compliances(&self) -> &[Iv]
        ensures count { length result.now ≡ (constraints_of self.now).rows }
        ensures each { (r : ℕ) → HasRow (constraints_of self.now) r → slice_index_or result.now (r - 1) zero_interval ≡ ((constraints_of self.now).numbers r).compliance }
    {
        self.compliances.as_slice()
    }
}
