//! Factors of a symmetric table that is zero off the paths of a tree, and the solution of equations by
//! them, which no code here computes. They are defined in `specs/` over any numbers, and each law
//! about them, over exact fractions, is the contract of a function that does nothing. The source is Featherstone, Rigid Body Dynamics Algorithms, chapter 6.
#![tactic(auto)]

mod laws;

pub use laws::{elimination_law, example_law, existence_law, factor_law, solution_law};
