//! Constraints between the bodies of a robot, or between a body and the world: their file, and the rows of equations that they have (Featherstone,
//! Rigid Body Dynamics Algorithms, chapter 8).
#![tactic(auto)]

mod axes;
mod bias;
mod constraints;
mod faults;
mod laws;
mod lines;
mod links;
mod numbers;
mod read;
mod record;
mod row_laws;
mod rows;
mod ways;

pub use axes::{Axes, Direction};
pub use bias::fill_bias;
pub use constraints::{Constraint, Constraints, MAX_ROWS, Row};
pub use faults::{ConFault, ConKind};
pub use laws::{choice_law, file_law};
pub use read::read_constraints;
pub use row_laws::rows_law;
pub use rows::fill_rows;
