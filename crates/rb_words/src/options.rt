// The options, and the parser of `clap` that has them.
ghost use Rattle.std.specs.Prelude.{◌≡◌, IfOk, Some, codes, false, map, string_bytes};
ghost use Rattle.clap.specs.Words.{FailsBy, app_of, fault_of, found_of, matches_of, new_rule, rows_of, rule_of};
ghost use Rattle.rb_words.specs.Options.{app, by_default, flag, option, required};

use clap::{Arg, ArgAction, ArgMatches, Command, Error};
use std::alloc::{AllocError, Global};

const ABOUT: &str =
    "Rigid body dynamics in certified intervals, of a robot from URDF and rows of a table";

const EXAMPLE: &str =
    "Example: rbd --task rnea --urdf arm.urdf --rows table.csv --gravity 0,0,-9.81";

const TASK: &str =
    "What is put out: rnea, the torques of each row; crba, its mass table; fd, its accelerations; aba, the same by articulated bodies; contact, the same under constraints, and the forces of these; impulse, its speeds after an impact on constraints, and the impulses of these; model, the robot as it is built; columns, the names of the columns that rows may have";

const URDF: &str = "The URDF file of the robot";

const SRDF: &str = "An SRDF file of the robot's groups, group states and virtual joints";

const STATE: &str = "The group state that rows start from, in place of the neutral position";

const ROOT: &str =
    "How the world bears the root: fixed, planar or floating, in place of what the SRDF file says";

const CONSTRAINTS: &str =
    "A file of constraints between the bodies of the robot, or with the world";

const ROWS: &str =
    "The file of the rows, a table with commas whose first line names columns; - is standard input";

const GRAVITY: &str =
    "The gravity in m/s²: three numbers or ranges lo..hi; one that begins with - is joined by =";

const ECHO: &str = "Puts the numbers of each row before its values";

/// An option with one value.
fn option<'a>(alloc: Global, name: &'a str, value: &'a str, help: &'a str) -> Arg<'a>
    ensures rule { rule_of result ≡ option name.now }
    ensures own { result.global ≡ false }
{
    Arg::new(alloc, name)
        .long(name)
        .value_name(value)
        .help(help)
}

/// The flag by which rows are put out again.
fn echo<'a>(alloc: Global) -> Arg<'a>
    ensures rule { rule_of result ≡ flag (codes "echo") }
    ensures own { result.global ≡ false }
{
    Arg::new(alloc, "echo")
        .long("echo")
        .action(ArgAction::SetTrue)
        .help(ECHO)
}

/// The command with the options.
fn command<'a>(alloc: Global) -> Result<Command<'a>, AllocError>
    ensures { IfOk result (λ made. app_of made ≡ app) }
{
    let rows = option(alloc, "rows", "FILE", ROWS).default_value("-");
    let gravity = option(alloc, "gravity", "X,Y,Z", GRAVITY).default_value("0,0,-9.81");
    Command::new(alloc, "rbd")
        .about(ABOUT)
        .after_help(EXAMPLE)
        .arg(option(alloc, "task", "TASK", TASK).required(true))?
        .arg(option(alloc, "urdf", "FILE", URDF).required(true))?
        .arg(option(alloc, "srdf", "FILE", SRDF))?
        .arg(option(alloc, "state", "NAME", STATE))?
        .arg(option(alloc, "root", "KIND", ROOT))?
        .arg(option(alloc, "constraints", "FILE", CONSTRAINTS))?
        .arg(rows)?
        .arg(gravity)?
        .arg(echo(alloc))
}

/// What the words give to the options, or why `clap` refuses them.
pub(crate) fn parse<'a>(alloc: Global, words: &'a [String]) -> Result<ArgMatches<'a>, Error>
    ensures matches { IfOk result (λ m. rows_of (found_of m) ≡ matches_of app (map string_bytes words.now)) }
    ensures kinds { FailsBy (fault_of app (map string_bytes words.now)) result }
{
    command(alloc)?.try_get_matches_from(words)
}
