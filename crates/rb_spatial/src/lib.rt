//! Spatial algebra: motions, forces and inertias of six dimensions, linear part first, as intervals.
#![tactic(auto)]

mod carrying;
mod inertias;
pub mod laws;
mod motions;
mod narrow;
mod near;
mod vectors;

pub use carrying::{carry, product, upper_product};
pub use inertias::{BodyInertia, Inertia6, less_outer, sum, table, times, times_body};
pub use motions::{
    Force, Frame, Motion, Place, apply, apply_dual, cross, cross_dual, cross_twice, cross3, mul,
    multiple, plus_cross, power, sum_forces, sum_motions, sum_vector,
};
pub use narrow::NarrowVec3;
pub use near::{near_dot, near_one};
pub use vectors::{Mat3, Sym3, Vec3};
