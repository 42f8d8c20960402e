// The names of a tag's attributes, and lists of different names.
ghost use Rattle.std.specs.Prelude.{◌≡◌, ◌≤◌, ◌^◌, ◌++◌, ◌∷◌, [], not, false, if◌then◌else◌, bytes_eq, length, IfOk, IfErr};
ghost use Rattle.std.specs.List.{list_any};
ghost use Rattle.rb_tags.specs.Names.{AreDifferent, number_of_name};
ghost use Rattle.rb_tags.specs.Seen.{are_distinct, name_count};

use crate::tag::Attr;
use indexmap::IndexSet;
use std::alloc::{AllocError, Global};
use std::collections::BTreeSet;
use std::marker::Model;

/// How many different names attributes have. The set is sorted, so that no choice of names makes many attributes slow.
pub fn name_count(alloc: Global, attrs: &[Attr]) -> Result<usize, AllocError>
    ensures { IfOk result (λ count. count ≡ name_count attrs.now) }
{
    let mut names = BTreeSet::new(alloc);
    let mut rest = attrs;
    while let [others @ .., last] = rest {
        names.insert(last.name.as_str())?;
        rest = others;
    }
    Ok(names.len())
}

/// Whether no two attributes have one name, where they have so many different names.
#[tactic(auto, using(crate::proofs::Distinct::distinct_by_count))]
pub fn are_distinct(names: usize, attrs: &[Attr]) -> bool
    requires { names ≡ name_count attrs.now }
    ensures { result ≡ are_distinct attrs.now }
{
    names == attrs.len()
}

/// Different names, in the order in which they were added.
#[derive(Drop)]
pub struct Names<'a> {
    names: IndexSet<&'a str>,
}

impl<'a> Model for Names<'a> {
    ghost use Rattle.std.specs.Prelude.{List, ℕ, map};
    ghost use Rattle.rb_tags.specs.Names.{AreDifferent};

    ghost Value = { List (List ℕ) };

    ghost view = { λ n. map (λ name. name.now) n.names.keys };

    ghost invariant = { λ n. AreDifferent (map (λ name. name.now) n.names.keys) };
}

impl<'a> Names<'a> {
    /// No names.
    pub fn new(alloc: Global) -> Self
        ensures { result ≡ [] }
    {
        Names {
            names: IndexSet::new(alloc),
        }
    }

    /// Adds a name behind the others, if none of them is the same, and says whether it did. Its one refusal is for want of memory, where
    /// none is the same, and the names are then as they were.
    pub fn add(&mut self, name: &'a str) -> Result<bool, AllocError>
        ensures added { IfOk result (λ added. added ≡ not (list_any (bytes_eq name.now) self.old)) }
        ensures names { IfOk result (λ added. self.new ≡ (if added then self.old ++ name.now ∷ [] else self.old)) }
        ensures kept { IfErr result (λ _. self.new ≡ self.old) }
        ensures absent { IfErr result (λ _. list_any (bytes_eq name.now) self.old ≡ false) }
    {
        Ok(self.names.insert(name)?)
    }

    /// Whether one of them is this.
    pub fn has(&self, name: &str) -> bool
        ensures { result ≡ list_any (bytes_eq name.now) self.now }
    {
        self.names.contains(name)
    }

    /// The number of a name, from 0.
    pub fn number_of(&self, name: &str) -> Option<u32>
        requires { length self.now ≤ 2 ^ 32 }
        ensures number { result ≡ number_of_name self.now name.now }
        ensures kept { AreDifferent self.now }
    {
        match self.names.get_index_of(name) {
            Some(number) => Some(number as u32),
            None => None,
        }
    }
}
