//! The workspace of a worker: the values of all names for one robot, the names, and what is refused under them.
#![tactic(auto)]

mod names;
mod steps;
mod tables;
mod work;
mod zeros;

pub use names::{Name, NameKind, RowFault, named, pivot};
pub use steps::ascends;
pub use work::{Capitals, Work};
