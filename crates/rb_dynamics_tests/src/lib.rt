//! Tests of inverse and forward dynamics, of impacts, of the mass table and of its factors, from outside.
#![tactic(auto)]

#[cfg(test)]
mod articulated;
#[cfg(test)]
mod bench;
#[cfg(test)]
mod constrained;
#[cfg(test)]
mod factors;
#[cfg(test)]
mod forward;
#[cfg(test)]
mod impacts;
#[cfg(test)]
mod inverse;
#[cfg(test)]
mod mass;
