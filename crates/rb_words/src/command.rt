ghost use Rattle.std.specs.Prelude.{◌≡◌, MatchResult, Ok, Err, option_copied, codes};
ghost use Rattle.rb_tags.specs.declared.root.RootKind.{RootKind};
ghost use Rattle.clap.specs.Words.{first_of, found_of, rows_of};
ghost use Rattle.rb_words.specs.Words.{asked_by, asked_in, root_in, root_of, text_of};

use crate::faults::WordsFault;
use crate::gravity::read_gravity;
use crate::order::{Order, read_order};
use clap::ArgMatches;
use rb_spatial::Vec3;
use rb_tags::RootKind;

/// What the words of a command line ask for.
#[derive(Clone, Copy, Debug)]
pub struct Command<'a> {
    /// What is put out.
    pub order: Order,
    /// The name of the robot's URDF file.
    pub urdf: &'a str,
    /// The name of an SRDF file, of groups, group states and virtual joints.
    pub srdf: Option<&'a str>,
    /// The group state that rows start from; with none they start from the neutral position.
    pub state: Option<&'a str>,
    /// How the root is borne; with none the SRDF file says it, and without a virtual joint there it is fixed.
    pub root: Option<RootKind>,
    /// The name of a file of constraints; with none there is no constraint.
    pub constraints: Option<&'a str>,
    /// The name of the file of the rows; `-` is the standard input.
    pub rows: &'a str,
    /// The gravity, in m/s².
    pub gravity: Vec3,
    /// Whether each row's numbers are put out before its values.
    pub echo: bool,
}

/// The kind of root that a word tells.
#[tactic(auto, unfolding(crate::specs::Words::root_of))]
fn root_kind(word: &str) -> Result<RootKind, WordsFault>
    ensures { result ≡ root_of word.now }
{
    match word {
        "fixed" => Ok(RootKind::Fixed),
        "planar" => Ok(RootKind::Planar),
        "floating" => Ok(RootKind::Floating),
        _ => Err(WordsFault::Root),
    }
}

/// The kind of root that is told, if one is.
#[tactic(auto, unfolding(crate::specs::Words::root_in))]
fn read_root(word: Option<&str>) -> Result<Option<RootKind>, WordsFault>
    ensures { result ≡ root_in (option_copied word.entry) }
{
    match word {
        None => Ok(None),
        Some(word) => Ok(Some(root_kind(word)?)),
    }
}

/// The text of an option, if it has one.
#[tactic(auto, using(crate::proofs::Matches::text_by_rows))]
fn text<'a>(given: &ArgMatches<'a>, option: &str) -> Option<&'a str>
    ensures { option_copied result ≡ first_of option.now (rows_of (found_of given.now)) }
{
    given.get_str(option)
}

/// The text of an option that has to be given, or has a default.
fn sure_text<'a>(given: &ArgMatches<'a>, option: &str) -> &'a str
    ensures { result.now ≡ text_of option.now (rows_of (found_of given.now)) }
{
    text(given, option).unwrap_or("")
}

/// What the options ask for. `clap` has the text `true` for a flag that is given.
#[tactic(auto, unfolding(crate::specs::Words::asked_in))]
pub(crate) fn read_options<'a>(given: &ArgMatches<'a>) -> Result<Command<'a>, WordsFault>
    ensures { MatchResult result
        (λ command. asked_in (rows_of (found_of given.now)) ≡ Ok (asked_by command))
        (λ fault. asked_in (rows_of (found_of given.now)) ≡ Err fault) }
{
    let order = read_order(sure_text(given, "task"))?;
    let root = read_root(text(given, "root"))?;
    let gravity = read_gravity(sure_text(given, "gravity"))?;
    Ok(Command {
        order,
        urdf: sure_text(given, "urdf"),
        srdf: text(given, "srdf"),
        state: text(given, "state"),
        root,
        constraints: text(given, "constraints"),
        rows: sure_text(given, "rows"),
        gravity,
        echo: sure_text(given, "echo") == "true",
    })
}
