//! Intervals of whole multiples of one part in 10^12, with arithmetic that encloses.
//!
//! An `Iv` stands for the exact fractions between its ends. Every operation rounds outwards, so that
//! its result has in it the results of all fractions in its arguments, and it is refused rather than
//! wrapped where a number on the way is larger than 2^120 units. The fractions, their arithmetic and
//! its laws stand in `rb_frac`.
#![tactic(auto)]

mod interval;
pub mod laws;
mod narrow;
mod rounding;
mod sums;
mod terms;
mod text;

pub use interval::{B, Iv, MAX_PAIRS, NumFault, S, dot};
pub use laws::{cut_law, dot_without_zero_law, lies_in_law, meet_law, sine_law, zero_law};
pub use narrow::Narrow;
pub use rounding::Divisor;
pub use sums::Sums;
pub use terms::TERMS;
