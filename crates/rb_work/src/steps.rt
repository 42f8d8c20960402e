ghost use Rattle.std.specs.Prelude.{◌≤◌, ◌↔◌, IsTrue, IfOk, length};
ghost use Rattle.rb_work.specs.Path.{Ascends, AreDepths, AreEnds};

use std::alloc::{AllocError, Global};

/// Whether each number is less than that of its own column: what `Work::new` asks for.
pub fn ascends(up: &[u32]) -> bool
    ensures { IsTrue result ↔ Ascends up.now }
{
    for c in 0..up.len() {
        if c < up[c] as usize {
            return false;
        }
    }
    true
}

/// The depths of the columns, from column 0 on.
pub(crate) fn depths_of(alloc: Global, up: &[u32]) -> Result<Vec<u32>, AllocError>
    requires few { length up.now ≤ 64 }
    requires ascends { Ascends up.now }
    ensures { IfOk result (λ v. AreDepths up.now v.items) }
{
    let mut depths = Vec::with_capacity(alloc, up.len() + 1)?;
    depths.push(0)?;
    for above in up {
        let depth: u32 = depths[*above as usize];
        depths.push(depth + 1)?;
    }
    Ok(depths)
}

/// The ends of the numbers of the columns in the packed table, from column 0 on.
pub(crate) fn ends_of(alloc: Global, up: &[u32], depths: &[u32]) -> Result<Vec<u32>, AllocError>
    requires few { length up.now ≤ 64 }
    requires depths { AreDepths up.now depths.now }
    requires ascends { Ascends up.now }
    ensures { IfOk result (λ v. AreEnds up.now v.items) }
{
    let mut ends = Vec::with_capacity(alloc, up.len() + 1)?;
    let mut end: u32 = 0;
    ends.push(end)?;
    for c in 0..up.len() {
        end += depths[c + 1];
        ends.push(end)?;
    }
    Ok(ends)
}
