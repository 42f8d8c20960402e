//! How a run ends.
ghost use Rattle.std.specs.Prelude.{◌≡◌};
ghost use Rattle.rbd.specs.Codes.{code_of};

/// The status that a run ends with.
#[derive(Clone, Copy, Debug, PartialEq, Eq)]
pub enum Status {
    /// Each row is answered.
    Done,
    /// All lines are written, and at least one row is refused.
    Refused,
    /// The words do not fit.
    Usage,
    /// The robot is refused, or its constraints are.
    Robot,
    /// The rows are refused from some line on.
    Rows,
    /// An input failed.
    InputFault,
    /// The output failed.
    OutputFault,
    /// No memory was found.
    Memory,
}

impl Status {
    /// The exit status of the program: 0 to 7, in the order of the variants.
    #[tactic(auto, unfolding(crate::specs::Codes::code_of))]
    pub fn code(self) -> u8
        ensures { result ≡ code_of self }
    {
        match self {
            Status::Done => 0,
            Status::Refused => 1,
            Status::Usage => 2,
            Status::Robot => 3,
            Status::Rows => 4,
            Status::InputFault => 5,
            Status::OutputFault => 6,
            Status::Memory => 7,
        }
    }
}
