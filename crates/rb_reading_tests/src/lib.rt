//! Tests of the calls of `rb_io`, `rb_tags`, `rb_text`, `rb_urdf`, `rb_srdf` and `rb_body`, from outside.
#![tactic(auto)]

#[cfg(test)]
mod bodies;
#[cfg(test)]
mod groups;
#[cfg(test)]
mod holding;
#[cfg(test)]
mod memory;
#[cfg(test)]
mod numbers;
#[cfg(test)]
mod robots;
#[cfg(test)]
mod streams;
#[cfg(test)]
mod tags;
#[cfg(test)]
mod wholes;
