//! Intervals that hold one whole number.
use rb_num::{Iv, S};

// The whole number `n`.
pub(crate) fn whole(n: i32) -> Iv {
    let end = i128::from(n) * S;
    Iv::new(end, end)
}
