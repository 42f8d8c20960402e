//! Tests of the calls of `rb_num`, `rb_trig`, `rb_spatial` and `rb_joint`, from outside.
#![tactic(auto)]

#[cfg(test)]
mod angles;
#[cfg(test)]
mod intervals;
#[cfg(test)]
mod joints;
#[cfg(test)]
mod motions;
