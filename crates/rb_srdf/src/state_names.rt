// The names of states and of their groups.
ghost use Rattle.std.specs.Prelude.{◌≡◌, ◌++◌, ◌∷◌, [], if◌then◌else◌, IfOk};
ghost use Rattle.std.specs.List.{list_any};
ghost use Rattle.rb_srdf.specs.StateNames.{is_state, as_names};

use indexmap::IndexSet;
use std::alloc::{AllocError, Global};
use std::marker::Model;

/// The groups and the names of states, in the order in which they were added.
#[derive(Drop)]
pub struct StateNames<'a> {
    pairs: IndexSet<(&'a str, &'a str)>,
}

impl<'a> Model for StateNames<'a> {
    ghost use Rattle.std.specs.Prelude.{List};
    ghost use Rattle.rb_srdf.specs.StateNames.{StateName, as_names};

    ghost Value = { List StateName };

    ghost view = { λ n. as_names n.pairs.keys };
}

impl<'a> StateNames<'a> {
    /// No states.
    pub fn new(alloc: Global) -> Self
        ensures { result ≡ [] }
    {
        StateNames {
            pairs: IndexSet::new(alloc),
        }
    }

    /// Whether a state has this group and this name.
    pub fn has(&self, group: &'a str, name: &'a str) -> bool
        ensures { result ≡ list_any (is_state group.now name.now) self.now }
    {
        self.pairs.contains(&(group, name))
    }

    /// Adds a state behind the others, if none of them is the same.
    pub fn add(&mut self, group: &'a str, name: &'a str) -> Result<(), AllocError>
        ensures { IfOk result (λ _. self.new ≡
            (if list_any (is_state group.now name.now) self.old then self.old else self.old ++ record { group = group.now; name = name.now } ∷ [])) }
    {
        self.pairs.insert((group, name))?;
        Ok(())
    }
}
