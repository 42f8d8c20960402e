use rb_constraint::Constraints;
use rb_rows::Task;
use rb_tree::Robot;

/// What is asked of all rows: for which robot, under which constraints, what, and whether the numbers of each row are told with its answer. Only
/// `contact` and `impulse` look at the constraints.
#[derive(Debug, Drop)]
pub struct Job {
    pub robot: Robot,
    pub cons: Constraints,
    pub task: Task,
    pub echo: bool,
}
