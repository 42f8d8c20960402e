//! A branched table of three columns, worked by hand, and a refusal of each kind.
ghost use Rattle.std.specs.Prelude.{◌≡◌, IfSome};
ghost use Rattle.rb_work.specs.View.{extent_of};

use crate::bench::whole;
use rb_factor::{factor, solve};
use rb_num::Iv;
use rb_work::{Capitals, Name, NameKind, RowFault, Work, ascends};
use std::alloc::Global;

// A work for columns alone.
fn made(alloc: Global, up: &[u32]) -> Option<Work>
    ensures { IfSome result (λ w. extent_of w ≡ record { bodies = 0; full = 64; up = up.now; rows = 0 }) }
{
    if up.len() > 64 || !ascends(up) {
        return None;
    }
    let Ok(work) = Work::new(alloc, 0, 64, up, 0) else {
        return None;
    };
    Some(work)
}

// The entry of a column and one on its path.
fn put_entry(work: &mut Work, c: u32, d: u32, value: Iv) {
    if c <= work.columns() && work.is_on(c, d) {
        work.set_L(c, d, value);
    }
}

fn put_right(work: &mut Work, c: u32, value: Iv) {
    if c <= work.columns() {
        work.set_w(c, value);
    }
}

// Whether a column has this whole number.
fn has_value(work: &Work, c: u32, number: i32) -> bool {
    c <= work.columns() && work.accel(c) == whole(number)
}

fn factor_and_solve(work: &mut Work) -> Result<(), RowFault> {
    factor(work)?;
    solve(work)
}

// Puts the table with 4 in its first column and 1, 2 and 3, 3 on its branches, and what is to be solved for.
fn put_branches(work: &mut Work) {
    put_entry(work, 1, 1, whole(4));
    put_entry(work, 2, 1, whole(1));
    put_entry(work, 2, 2, whole(2));
    put_entry(work, 3, 1, whole(3));
    put_entry(work, 3, 3, whole(3));
    put_right(work, 1, whole(15));
    put_right(work, 2, whole(5));
    put_right(work, 3, whole(12));
}

fn solves_branches(alloc: Global) -> bool {
    let Some(mut work) = made(alloc, &[0, 1, 1]) else {
        return false;
    };
    put_branches(&mut work);
    matches!(factor_and_solve(&mut work), Ok(()))
        && has_value(&work, 1, 1)
        && has_value(&work, 2, 2)
        && has_value(&work, 3, 3)
}

#[test]
fn branched_table_is_solved(rt: HostRuntime) {
    assert!(rt; solves_branches(rt.alloc()));
}

// Whether a last pivot with zero in it is refused.
fn refuses_pivot(work: &mut Work) -> bool {
    let iv = Iv::new(-1, 1);
    put_entry(work, 2, 2, iv);
    let pivot = RowFault::Pivot {
        name: Name::one(NameKind::D, 2),
        iv,
    };
    matches!(factor(work), Err(fault) if fault == pivot)
}

// Whether an entry that is too large is refused.
fn refuses_size(work: &mut Work) -> bool {
    put_entry(work, 2, 2, whole(1));
    let large = 1 << 100;
    put_entry(work, 2, 1, Iv::new(large, large));
    let size = RowFault::Size {
        name: Name::two(NameKind::L, 2, 1),
    };
    matches!(factor(work), Err(fault) if fault == size)
}

fn refuses_both(alloc: Global) -> bool {
    let Some(mut work) = made(alloc, &[0, 1]) else {
        return false;
    };
    refuses_pivot(&mut work) && refuses_size(&mut work)
}

#[test]
fn refusals_bear_their_names(rt: HostRuntime) {
    assert!(rt; refuses_both(rt.alloc()));
}
