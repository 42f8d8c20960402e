// What the words of a command line say, in a user's terms.
ghost use Rattle.rb_words.specs.Laws.{ShortWordsTell, JoinedWordsTell, AllWordsTell};

/// The words `--task T --urdf F`, of which neither T nor F begins with a hyphen, are accepted where T is the word of an order, and
/// refused as `Task` else; so are `--task=T --urdf=F`, of which T and F are any texts. They ask for the order and the file, and for the defaults: no
/// SRDF file, no group state, the root as it is without `--root`, no file of constraints, rows from standard input, a gravity of 9.81 m/s² down, no
/// echo. Where every option is told, each text goes to its own part of the command.
#[tactic(auto, using(crate::proofs::WordLists::short_words_tell, crate::proofs::WordLists::joined_words_tell))]
pub fn words_law()
    ensures apart { ShortWordsTell }
    ensures joined { JoinedWordsTell }
    ensures all { AllWordsTell }
{}
