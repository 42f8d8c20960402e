//! What is computed of each row.
ghost use Rattle.std.specs.Prelude.{◌≡◌};
ghost use Rattle.rb_rows.specs.Head.{task_word};

/// What is computed of each row.
#[derive(Clone, Copy, Debug, PartialEq, Eq)]
pub enum Task {
    /// The torques, by the recursive Newton-Euler algorithm (Featherstone, Rigid Body Dynamics Algorithms, chapter 5).
    Rnea,
    /// The joint space inertia matrix, by the composite rigid body algorithm (chapter 6).
    Crba,
    /// The accelerations, by the inertia matrix and its factors (chapter 6).
    Fd,
    /// The accelerations, by the articulated body algorithm (chapter 7).
    Aba,
    /// The accelerations under constraints (chapters 8 and 11).
    Contact,
    /// The speeds after an impact (chapter 11).
    Impulse,
}

impl Task {
    /// Its word.
    pub fn word(self) -> &'static str
        ensures { result.now ≡ task_word self }
    {
        match self {
            Task::Rnea => "rnea",
            Task::Crba => "crba",
            Task::Fd => "fd",
            Task::Aba => "aba",
            Task::Contact => "contact",
            Task::Impulse => "impulse",
        }
    }
}
