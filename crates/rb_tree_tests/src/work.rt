//! The values of all names that a work keeps, the names, and what is refused under them.
use rb_num::{Iv, NumFault};
use rb_spatial::{Motion, Vec3};
use rb_work::{Capitals, Name, NameKind, RowFault, Work, ascends, named, pivot};
use std::alloc::{AllocError, Global};
use std::test::*;

const A: Iv = Iv::ONE;

// Each column above the next.
fn chain(alloc: Global) -> Result<Vec<u32>, AllocError> {
    let mut up = Vec::new(alloc);
    for c in 0..64 {
        up.push(c)?;
    }
    Ok(up)
}

// A work of the greatest size for such columns.
fn made(alloc: Global, up: &[u32]) -> Option<Work> {
    if up.len() > 64 || !ascends(up) {
        return None;
    }
    Work::new(alloc, 256, 64, up, 64).ok()
}

// A work of the greatest size for a chain.
fn made_for_chain(alloc: Global) -> Option<Work> {
    let Ok(up) = chain(alloc) else {
        return None;
    };
    made(alloc, up.as_slice())
}

// Whether the packed table for these columns has this length.
fn is_packed(alloc: Global, up: &[u32], length: usize) -> bool {
    let work = made(alloc, up);
    matches!(&work, Some(work) if work.packed_len() == length)
}

#[test]
fn packed_table_is_as_long_as_all_depths(rt: HostRuntime) {
    let alloc = rt.alloc();
    assert!(rt; is_packed(alloc, &[0; 64], 64) && is_packed(alloc, &[0, 1, 1, 3], 8));
}

fn keeps_entries(work: &mut Work, i: u32) -> bool {
    if work.bodies() < i {
        return false;
    }
    work.set_q(i, [A; 7]);
    work.q(i)[6] == A && work.s(i)[5] == Iv::ZERO
}

// The last body has no speed yet.
fn keeps_motions(work: &mut Work, motion: Motion, i: u32) -> bool {
    if work.bodies() < i {
        return false;
    }
    work.set_v(0, motion);
    work.set_a(i, motion);
    *work.v(0) == motion && *work.v(i) != motion && *work.a(i) == motion
}

fn keeps_bodies(alloc: Global) -> bool {
    let Some(mut work) = made(alloc, &[]) else {
        return false;
    };
    let one = Vec3::new(A, A, A);
    keeps_entries(&mut work, 256) && keeps_motions(&mut work, Motion { lin: one, ang: one }, 256)
}

#[test]
fn bodies_are_kept(rt: HostRuntime) {
    assert!(rt; keeps_bodies(rt.alloc()));
}

fn keeps_torques(work: &mut Work, c: u32) -> bool {
    if work.columns() < c {
        return false;
    }
    work.set_T(c, A);
    work.torque(c) == A && work.k(c) == Iv::ZERO
}

// The mass table and its factors have the same places.
fn keeps_masses(work: &mut Work) -> bool {
    if work.columns() < 64 || !work.is_on(64, 1) {
        return false;
    }
    work.set_L(64, 1, A);
    work.L(64, 1) == A && work.mass(1, 64) == A
}

fn keeps_columns(alloc: Global) -> bool {
    let Some(mut work) = made_for_chain(alloc) else {
        return false;
    };
    keeps_torques(&mut work, 64) && keeps_masses(&mut work)
}

#[test]
fn columns_are_kept(rt: HostRuntime) {
    assert!(rt; keeps_columns(rt.alloc()));
}

fn keeps_row_columns(work: &mut Work, r: u32, c: u32) -> bool {
    if work.rows() < r || work.columns() < c {
        return false;
    }
    work.set_J(r, c, A);
    work.J(r, c) == A && work.J(r, 0) == Iv::ZERO && work.J(0, c) == Iv::ZERO
}

// The couplings of rows and their factors have the same places.
fn keeps_rows(work: &mut Work, r: u32) -> bool {
    if r == 0 || work.rows() < r {
        return false;
    }
    work.set_C(r, A);
    work.set_lam(r, A);
    work.G(r, r) == A && work.l(r, r - 1) == Iv::ZERO && work.row_force(r) == A
}

fn keeps_all_rows(alloc: Global) -> bool {
    let Some(mut work) = made_for_chain(alloc) else {
        return false;
    };
    keeps_row_columns(&mut work, 64, 64) && keeps_rows(&mut work, 64)
}

#[test]
fn rows_are_kept(rt: HostRuntime) {
    assert!(rt; keeps_all_rows(rt.alloc()));
}

#[test]
fn refusals_bear_their_names(rt: HostRuntime) {
    let name = Name::one(NameKind::D, 1);
    let size = RowFault::Size { name };
    let zero = RowFault::Pivot { name, iv: Iv::ZERO };
    assert!(rt;
        named::<Iv>(Err(NumFault::Size), name) == Err(size)
            && named(Ok(A), name) == Ok(A)
            && pivot(Iv::ZERO, name) == Err(zero)
            && pivot(A, name) == Ok(A)
    );
}
