ghost use Rattle.std.specs.Prelude.{◌≡◌, ◌≤◌, ◌<◌, ◌+◌, ◌-◌, ℕ, nat_lt, if◌then◌else◌, length, IfOk};
ghost use Rattle.rb_tree.specs.declared.sizes.TheConstants.{MAX_LINKS};
ghost use Rattle.rb_tree.specs.Columns.{full_columns as full_columns_of, own_columns as own_columns_of, own_entries as own_entries_of, has_mimic as has_mimic_in, parent_at, owners_from, start_behind, nearest_column, AreStarts, AreNearest, AreUps};

use crate::robot::Body;
use std::alloc::{AllocError, Global};

/// Where the columns and entries of a body begin: the numbers of its first full column and its first column, and the place of its first
/// entry.
#[derive(Clone, Copy, Debug, PartialEq, Eq)]
pub(crate) struct Start {
    pub full: u32,
    pub column: u32,
    pub entry: usize,
}

fn full_columns(body: &Body) -> u32
    ensures value { result ≡ full_columns_of body.now }
    ensures few { result ≤ 6 }
{
    body.joint.nv() as u32
}

fn own_columns(body: &Body) -> u32
    ensures value { result ≡ own_columns_of body.now }
    ensures few { result ≤ 6 }
{
    match body.mimic {
        None => full_columns(body),
        Some(_) => 0,
    }
}

/// How many entries the body's joint has of its own.
pub(crate) fn own_entries(body: &Body) -> usize
    ensures value { result ≡ own_entries_of body.now }
    ensures few { result ≤ 7 }
{
    match body.mimic {
        None => body.joint.nq(),
        Some(_) => 0,
    }
}

/// Whether a body's joint follows another.
pub(crate) fn has_mimic(bodies: &[Body]) -> bool
    ensures { result ≡ has_mimic_in bodies.now }
{
    bodies.iter().any(|body| body.mimic.is_some())
}

/// Where each body begins, and at the end what would come next.
pub(crate) fn starts_of(alloc: Global, bodies: &[Body]) -> Result<Vec<Start>, AllocError>
    requires few { length bodies.now ≤ MAX_LINKS }
    ensures { IfOk result (λ starts. AreStarts bodies.now starts.items) }
{
    let mut next = Start {
        full: 1,
        column: 1,
        entry: 0,
    };
    let mut starts = Vec::new(alloc);
    starts.push(next)?;
    for body in bodies {
        next = Start {
            full: next.full + full_columns(body),
            column: next.column + own_columns(body),
            entry: next.entry + own_entries(body),
        };
        starts.push(next)?;
    }
    Ok(starts)
}

/// The bodies of the columns.
pub(crate) fn owners_of(alloc: Global, bodies: &[Body]) -> Result<Vec<u32>, AllocError>
    requires few { length bodies.now ≤ MAX_LINKS }
    ensures { IfOk result (λ owners. owners.items ≡ owners_from 1 bodies.now) }
{
    let mut owners = Vec::new(alloc);
    let mut number = 0;
    for body in bodies {
        number += 1;
        let count = owners.len() + own_columns(body) as usize;
        owners.resize(count, number)?;
    }
    Ok(owners)
}

/// The last column of each body, from the world on, where a body without columns takes that of its parent.
fn nearest_of(alloc: Global, bodies: &[Body]) -> Result<Vec<u32>, AllocError>
    requires few { length bodies.now ≤ MAX_LINKS }
    requires parents { (i : ℕ) → 1 ≤ i → parent_at bodies.now i < i }
    ensures { IfOk result (λ lasts. AreNearest bodies.now lasts.items) }
{
    let mut lasts = Vec::new(alloc);
    lasts.push(0)?;
    let mut columns: u32 = 0;
    for body in bodies {
        let own = own_columns(body);
        columns += own;
        let last = if own == 0 {
            lasts[body.parent as usize]
        } else {
            columns
        };
        lasts.push(last)?;
    }
    Ok(lasts)
}

/// The next column upward from a column of this body, where its number is behind `previous`.
fn up_from(bodies: &[Body], starts: &[Start], lasts: &[u32], owner: u32, previous: u32) -> u32
    requires from { 1 ≤ owner }
    requires to { owner ≤ length bodies.now }
    requires parents { (i : ℕ) → 1 ≤ i → parent_at bodies.now i < i }
    requires starts { AreStarts bodies.now starts.now }
    requires lasts { AreNearest bodies.now lasts.now }
    ensures { result ≡ (if nat_lt (start_behind bodies.now (owner - 1)).column (previous + 1) then previous else nearest_column bodies.now (parent_at bodies.now owner)) }
{
    let place = owner as usize - 1;
    if starts[place].column <= previous {
        previous
    } else {
        lasts[bodies[place].parent as usize]
    }
}

/// The next columns upward, from column 1 on.
pub(crate) fn ups_of(
    alloc: Global,
    bodies: &[Body],
    starts: &[Start],
    owners: &[u32],
) -> Result<Vec<u32>, AllocError>
    requires few { length bodies.now ≤ MAX_LINKS }
    requires parents { (i : ℕ) → 1 ≤ i → parent_at bodies.now i < i }
    requires starts { AreStarts bodies.now starts.now }
    requires owners { owners.now ≡ owners_from 1 bodies.now }
    ensures { IfOk result (λ ups. AreUps bodies.now ups.items) }
{
    let lasts = nearest_of(alloc, bodies)?;
    let mimics = has_mimic(bodies);
    let mut ups = Vec::new(alloc);
    let mut previous: u32 = 0;
    for owner in owners {
        let up = if mimics {
            previous
        } else {
            up_from(bodies, starts, lasts.as_slice(), *owner, previous)
        };
        ups.push(up)?;
        previous += 1;
    }
    Ok(ups)
}
