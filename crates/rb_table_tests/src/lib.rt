//! Tests of the calls of `rb_constraint`, `rb_rows`, `rb_run`, `rb_words` and `rb_model`, from outside.
#![tactic(auto)]

#[cfg(test)]
mod answers;
#[cfg(test)]
mod constraints;
#[cfg(test)]
mod headers;
#[cfg(test)]
mod models;
#[cfg(test)]
mod robots;
#[cfg(test)]
mod rows;
#[cfg(test)]
mod words;
