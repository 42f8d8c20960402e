//! What the words of a command line ask for, and their faults.
use rb_num::Iv;
use rb_rows::Task;
use rb_tags::RootKind;
use rb_words::{Command, Order, WordsFault, WordsStop, read_words};
use std::alloc::{AllocError, Global};

const S: i128 = 1_000_000_000_000;

// The words of a line, behind the program's name.
fn words_of(alloc: Global, line: &[&str]) -> Result<Vec<String>, AllocError> {
    let mut words = Vec::new(alloc);
    words.push(String::from_str(alloc, "rbd")?)?;
    for word in line {
        words.push(String::from_str(alloc, word)?)?;
    }
    Ok(words)
}

// Whether a command has only what must be there.
fn is_least(command: &Command<'_>) -> bool {
    let earth = Iv::new(-9_810_000_000_000, -9_810_000_000_000);
    command.order == Order::Rows(Task::Rnea)
        && command.urdf == "-"
        && command.rows == "-"
        && command.srdf.is_none()
        && command.state.is_none()
        && command.root.is_none()
        && !command.echo
        && command.constraints.is_none()
        && command.gravity.x() == Iv::ZERO
        && command.gravity.y() == Iv::ZERO
        && command.gravity.z() == earth
}

fn reads_least(alloc: Global) -> bool {
    let Ok(words) = words_of(alloc, &["--urdf", "-", "--task", "rnea"]) else {
        return false;
    };
    let mut told = String::new(alloc);
    let read = read_words(alloc, words.as_slice(), &mut told);
    matches!(&read, Ok(command) if is_least(command)) && told.is_empty()
}

#[test]
fn two_options_suffice(rt: HostRuntime) {
    assert!(rt; reads_least(rt.alloc()));
}

// Whether a command has all that can be there.
fn is_most(command: &Command<'_>) -> bool {
    command.order == Order::Rows(Task::Contact)
        && command.urdf == "arm.urdf"
        && command.rows == "table.csv"
        && command.srdf == Some("arm.srdf")
        && command.state == Some("half")
        && command.root == Some(RootKind::Floating)
        && command.echo
        && command.constraints == Some("grips.csv")
        && command.gravity.x() == Iv::new(-S, S)
        && command.gravity.z() == Iv::new(2 * S, 2 * S)
}

const MOST: [&str; 14] = [
    "--echo",
    "--gravity=-1..1,0, 2 ",
    "--root",
    "floating",
    "--constraints",
    "grips.csv",
    "--urdf=arm.urdf",
    "--rows",
    "table.csv",
    "--state=half",
    "--srdf",
    "arm.srdf",
    "--task",
    "contact",
];

fn reads_most(alloc: Global) -> bool {
    let Ok(words) = words_of(alloc, &MOST) else {
        return false;
    };
    let mut told = String::new(alloc);
    let read = read_words(alloc, words.as_slice(), &mut told);
    matches!(&read, Ok(command) if is_most(command))
}

#[test]
fn options_come_in_any_order(rt: HostRuntime) {
    assert!(rt; reads_most(rt.alloc()));
}

// Words behind the program's name, and their fault.
type Refused = (&'static [&'static str], WordsFault);

const FAULTS: [Refused; 8] = [
    (&[], WordsFault::Words),
    (&["--task", "rnea", "--urdf", "a", "b"], WordsFault::Words),
    (
        &["--task", "rnea", "--urdf", "a", "--workers", "2"],
        WordsFault::Words,
    ),
    (
        &["--task", "rnea", "--urdf", "a", "--urdf", "a"],
        WordsFault::Words,
    ),
    (&["--task", "impulses", "--urdf", "a"], WordsFault::Task),
    (
        &[
            "--task",
            "rnea",
            "--urdf",
            "a",
            "--root",
            "ball",
            "--gravity",
            "0",
        ],
        WordsFault::Root,
    ),
    (
        &["--task", "model", "--urdf", "a", "--gravity", "0,0,0,0"],
        WordsFault::Gravity,
    ),
    (
        &["--task", "model", "--urdf", "a", "--gravity", "0,1..0,0"],
        WordsFault::Gravity,
    ),
];

// Whether the words have this fault, and more is told of them where they do not fit.
fn has_fault(alloc: Global, line: &[&str], fault: WordsFault) -> bool {
    let Ok(words) = words_of(alloc, line) else {
        return false;
    };
    let mut told = String::new(alloc);
    let read = read_words(alloc, words.as_slice(), &mut told);
    matches!(&read, Err(WordsStop::Fault(found)) if *found == fault)
        && told.is_empty() == (fault != WordsFault::Words)
}

fn have_faults(alloc: Global, rows: &[Refused]) -> bool {
    for (line, fault) in rows {
        if !has_fault(alloc, line, *fault) {
            return false;
        }
    }
    true
}

#[test]
fn faults_are_told(rt: HostRuntime) {
    assert!(rt; have_faults(rt.alloc(), &FAULTS));
}
