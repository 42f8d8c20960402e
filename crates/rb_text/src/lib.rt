//! Number texts: the bracket of a decimal text or of a range, three of them, and a buffer that intervals are printed to.
#![tactic(auto)]

mod bracket;
mod buffer;
mod decimal;
mod range;
mod size;
mod three;

pub use bracket::{TextFault, read_bracket};
pub use buffer::Out;
pub use size::LARGEST;
pub use three::read_three;
