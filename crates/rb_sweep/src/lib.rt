//! Steps in turn, up to the first that is refused; and values with names, which are found in turn by
//! their rules. Definitions in `specs/` for the contracts of the crates above, and in `proofs/` what
//! holds of them; no code stands here.
#![tactic(auto)]

mod laws;

pub use laws::sweep_law;
