ghost use Rattle.std.specs.Prelude.{◌≡◌};
ghost use Rattle.rb_words.specs.Words.{order_word, order_of};

use crate::faults::WordsFault;
use rb_rows::Task;

/// What is put out.
#[derive(Clone, Copy, Debug, PartialEq, Eq)]
pub enum Order {
    /// A line for each row, of the values that this task computes.
    Rows(Task),
    /// The robot as it is built.
    Model,
    /// The names of the columns that rows may have.
    Columns,
}

impl Order {
    /// Its word, as `--task` has it.
    pub fn word(self) -> &'static str
        ensures { result.now ≡ order_word self }
    {
        match self {
            Order::Rows(task) => task.word(),
            Order::Model => "model",
            Order::Columns => "columns",
        }
    }
}

/// The order of this word.
#[tactic(auto, unfolding(crate::specs::Words::order_of))]
pub(crate) fn read_order(word: &str) -> Result<Order, WordsFault>
    ensures { result ≡ order_of word.now }
{
    match word {
        "rnea" => Ok(Order::Rows(Task::Rnea)),
        "crba" => Ok(Order::Rows(Task::Crba)),
        "fd" => Ok(Order::Rows(Task::Fd)),
        "aba" => Ok(Order::Rows(Task::Aba)),
        "contact" => Ok(Order::Rows(Task::Contact)),
        "impulse" => Ok(Order::Rows(Task::Impulse)),
        "model" => Ok(Order::Model),
        "columns" => Ok(Order::Columns),
        _ => Err(WordsFault::Task),
    }
}
