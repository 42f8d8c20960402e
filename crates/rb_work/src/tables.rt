ghost use Rattle.std.specs.Prelude.{◌≡◌, ◌≤◌, ◌<◌, IfOk, replicate};
ghost use Rattle.rb_work.specs.Tables.{AreBlankBodies, AreBlankColumns, AreBlankRows};

use crate::zeros::{zero_force, zero_inertia, zero_motion, zero_place, zero_table};
use rb_num::Iv;
use rb_spatial::{Force, Inertia6, Mat3, Motion, Place};
use std::alloc::{AllocError, Global};

/// The tables of bodies.
#[derive(Drop)]
pub(crate) struct BodyTables {
    pub(crate) q: Vec<[Iv; 7]>,
    pub(crate) X: Vec<Place>,
    pub(crate) s: Vec<[Iv; 6]>,
    pub(crate) v: Vec<Motion>,
    pub(crate) c: Vec<Motion>,
    pub(crate) a: Vec<Motion>,
    pub(crate) b: Vec<Force>,
    pub(crate) f: Vec<Force>,
    pub(crate) t: Vec<[Iv; 6]>,
    pub(crate) I: Vec<Inertia6>,
    pub(crate) IA: Vec<Inertia6>,
    pub(crate) p: Vec<Force>,
    pub(crate) Ia: Vec<Inertia6>,
    pub(crate) pa: Vec<Force>,
    pub(crate) O: Vec<Mat3>,
}

/// The tables of columns, and of two columns.
#[derive(Drop)]
pub(crate) struct ColumnTables {
    pub(crate) T: Vec<Iv>,
    pub(crate) H: Vec<Iv>,
    pub(crate) packed: Vec<Iv>,
    pub(crate) w: Vec<Iv>,
    pub(crate) z: Vec<Iv>,
    pub(crate) x: Vec<Iv>,
    pub(crate) U: Vec<Force>,
    pub(crate) u: Vec<Iv>,
    pub(crate) k: Vec<Iv>,
    pub(crate) y: Vec<Iv>,
}

/// The tables of rows, of two rows, and of a row and a column.
#[derive(Drop)]
pub(crate) struct RowTables {
    pub(crate) K: Vec<[Force; 2]>,
    pub(crate) J: Vec<Iv>,
    pub(crate) g: Vec<Iv>,
    pub(crate) Y: Vec<Iv>,
    pub(crate) Z: Vec<Iv>,
    pub(crate) pairs: Vec<Iv>,
    pub(crate) e: Vec<Iv>,
    pub(crate) lam: Vec<Iv>,
}

// A table of so many equal values.
fn filled<T: Copy>(alloc: Global, value: T, count: usize) -> Result<Vec<T>, AllocError>
    ensures { IfOk result (λ v. v.items ≡ replicate count value) }
{
    let mut table = Vec::with_capacity(alloc, count)?;
    for _i in 0..count {
        table.push(value)?;
    }
    Ok(table)
}

/// Those for so many, with zeros throughout.
pub(crate) fn body_tables(alloc: Global, bodies: u32) -> Result<BodyTables, AllocError>
    requires { bodies ≤ 256 }
    ensures { IfOk result (AreBlankBodies bodies) }
{
    let count = bodies as usize + 1;
    let motion = zero_motion();
    let force = zero_force();
    let place = zero_place();
    let table = zero_table();
    let inertia = zero_inertia();
    Ok(BodyTables {
        q: filled(alloc, [Iv::ZERO; 7], count)?,
        X: filled(alloc, place, count)?,
        s: filled(alloc, [Iv::ZERO; 6], count)?,
        v: filled(alloc, motion, count)?,
        c: filled(alloc, motion, count)?,
        a: filled(alloc, motion, count)?,
        b: filled(alloc, force, count)?,
        f: filled(alloc, force, count)?,
        t: filled(alloc, [Iv::ZERO; 6], count)?,
        I: filled(alloc, inertia, count)?,
        IA: filled(alloc, inertia, count)?,
        p: filled(alloc, force, count)?,
        Ia: filled(alloc, inertia, count)?,
        pa: filled(alloc, force, count)?,
        O: filled(alloc, table, count)?,
    })
}

/// Those for so many, with zeros throughout.
pub(crate) fn column_tables(
    alloc: Global,
    full: u32,
    columns: usize,
    packed_len: usize,
) -> Result<ColumnTables, AllocError>
    requires few_full { full ≤ 64 }
    requires few_columns { columns ≤ 64 }
    ensures { IfOk result (AreBlankColumns full columns packed_len) }
{
    let count = columns + 1;
    let per_full = full as usize + 1;
    let force = zero_force();
    Ok(ColumnTables {
        T: filled(alloc, Iv::ZERO, count)?,
        H: filled(alloc, Iv::ZERO, per_full * per_full)?,
        packed: filled(alloc, Iv::ZERO, packed_len)?,
        w: filled(alloc, Iv::ZERO, count)?,
        z: filled(alloc, Iv::ZERO, count)?,
        x: filled(alloc, Iv::ZERO, count)?,
        U: filled(alloc, force, count)?,
        u: filled(alloc, Iv::ZERO, count)?,
        k: filled(alloc, Iv::ZERO, count)?,
        y: filled(alloc, Iv::ZERO, count)?,
    })
}

/// Those for so many, with zeros throughout.
pub(crate) fn row_tables(alloc: Global, rows: u32, columns: usize) -> Result<RowTables, AllocError>
    requires few_rows { rows ≤ 64 }
    requires few_columns { columns ≤ 64 }
    ensures { IfOk result (AreBlankRows rows columns) }
{
    let count = rows as usize + 1;
    let per_column = columns + 1;
    let force = zero_force();
    Ok(RowTables {
        K: filled(alloc, [force; 2], count)?,
        J: filled(alloc, Iv::ZERO, count * per_column)?,
        g: filled(alloc, Iv::ZERO, count)?,
        Y: filled(alloc, Iv::ZERO, count * per_column)?,
        Z: filled(alloc, Iv::ZERO, count * per_column)?,
        pairs: filled(alloc, Iv::ZERO, count * count)?,
        e: filled(alloc, Iv::ZERO, count)?,
        lam: filled(alloc, Iv::ZERO, count)?,
    })
}
