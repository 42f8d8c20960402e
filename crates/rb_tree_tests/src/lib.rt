//! Tests of the calls of `rb_tree` and `rb_work`, from outside.
#![tactic(auto)]

#[cfg(test)]
mod bodies;
#[cfg(test)]
mod building;
#[cfg(test)]
mod groups;
#[cfg(test)]
mod order;
#[cfg(test)]
mod places;
#[cfg(test)]
mod robots;
#[cfg(test)]
mod states;
#[cfg(test)]
mod work;
