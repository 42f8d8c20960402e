ghost use Rattle.std.specs.Prelude.{◌≡◌, ◌⊎◌, ◌++◌, ℕ, List, IfOk, OnOk, OnErr, Ok, Err, map, string_bytes};
ghost use Rattle.clap.specs.Words.{kind_of};
ghost use Rattle.rb_words.specs.Words.{asked_by, command_of};

use crate::command::{Command, read_options};
use crate::faults::{WordsFault, WordsStop};
use crate::options::parse;
use clap::Error;
use clap::error::ErrorKind;
use std::alloc::{AllocError, Global};

/// Puts the parser's own text behind `told`.
fn tell(alloc: Global, error: &Error, told: &mut String) -> Result<(), AllocError>
    ensures ok { OnOk result ((text : List ℕ) × (string_bytes told.new ≡ string_bytes told.old ++ text)) }
    ensures err { OnErr result (string_bytes told.new ≡ string_bytes told.old) }
{
    let text = error.to_string(alloc)?;
    told.push_str(text.as_str())
}

/// What the parser's refusal comes to, with its own text behind `told`.
fn refusal(alloc: Global, error: &Error, told: &mut String) -> WordsStop
    ensures stop { (result ≡ WordsStop.Memory) ⊎ ((result ≡ WordsStop.Fault WordsFault.Words) × ((kind_of error.now ≡ ErrorKind.OutOfMemory) → ⊥)) }
    ensures text { (text : List ℕ) × (string_bytes told.new ≡ string_bytes told.old ++ text) }
    ensures quiet { result ≡ WordsStop.Memory → string_bytes told.new ≡ string_bytes told.old }
{
    if error.kind() == ErrorKind::OutOfMemory {
        return WordsStop::Memory;
    }
    match tell(alloc, error, told) {
        Ok(()) => WordsStop::Fault(WordsFault::Words),
        Err(_) => WordsStop::Memory,
    }
}

/// The command that the words of a command line tell. The first word is the program's name.
///
/// The words are read by `clap`. What it refuses is `Words`, and so is a word that asks for help: its own text then stands behind what `told` held.
/// Else the first of `Task`, `Root` and `Gravity` is told that is wrong, and `told` is as it was. Of the numbers of the gravity each is read as
/// `read_bracket` of `rb_text` reads it.
pub fn read_words<'a>(
    alloc: Global,
    words: &'a [String],
    told: &mut String,
) -> Result<Command<'a>, WordsStop>
    ensures ok { IfOk result (λ command. command_of (map string_bytes words.now) ≡ Ok (asked_by command)) }
    ensures err { (fault : WordsFault) → result ≡ Err (WordsStop.Fault fault) → command_of (map string_bytes words.now) ≡ Err fault }
    ensures text { (text : List ℕ) × (string_bytes told.new ≡ string_bytes told.old ++ text) }
    ensures quiet { (result ≡ Err (WordsStop.Fault WordsFault.Words) → ⊥) → string_bytes told.new ≡ string_bytes told.old }
{
    match parse(alloc, words) {
        Ok(given) => match read_options(&given) {
            Ok(command) => Ok(command),
            Err(fault) => Err(WordsStop::Fault(fault)),
        },
        Err(error) => Err(refusal(alloc, &error, told)),
    }
}
