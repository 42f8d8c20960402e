//! Runs over inputs and sinks in memory.
use crate::faults::Fault;
use crate::run::run;
use rb_io::{Failed, FileFault, MemInputs, MemSink};
use rb_tree::{TreeFault, TreeKind, WhichFile};
use std::alloc::{AllocError, Global};
use std::test::*;

// Two branches from a body, one of them behind a joint that does not move.
const TREE: &[u8] =
    b"<robot name='t'><link name='trunk'><inertial><mass value='4'/></inertial></link><link name='arm'><inertial><mass value='0.25..0.5'/></inertial></link><link name='hand'><inertial><mass value='1e-13'/></inertial></link><link name='tail'/><joint name='wrist' type='fixed'><parent link='arm'/><child link='hand'/></joint><joint name='shoulder' type='revolute'><parent link='trunk'/><child link='arm'/></joint><joint name='hip' type='floating'><parent link='trunk'/><child link='tail'/></joint></robot>";

const OUTLINE: &[u8] = b"1: depth 1, link trunk, joint root_joint, columns 0
2: depth 2, link arm, joint shoulder, columns 1
3: depth 3, link hand, joint wrist, columns 0
4: depth 2, link tail, joint hip, columns 6
bodies 4, columns 7, mass 4.250000000000..4.500000000001
";

// How a run ended, and what it put.
#[derive(Drop)]
struct Ran {
    answer: Result<(), Fault>,
    out: MemSink,
}

fn words_of(alloc: Global, words: &[&str]) -> Result<Vec<String>, AllocError> {
    let mut told = Vec::new(alloc);
    for word in words {
        told.push(String::from_str(alloc, word)?)?;
    }
    Ok(told)
}

// The robot's file; the calls of these numbers fail.
fn inputs_of(alloc: Global, robot: &[u8], reads: &[u64]) -> Result<MemInputs, AllocError> {
    let mut inputs = MemInputs::new(alloc, 100, reads)?;
    inputs.add("robot.urdf", robot)?;
    Ok(inputs)
}

// Runs with these words over these bytes; the reads and writes of these numbers fail.
fn run_failing(
    alloc: Global,
    words: &[&str],
    robot: &[u8],
    reads: &[u64],
    writes: &[u64],
) -> Result<Ran, AllocError> {
    let told = words_of(alloc, words)?;
    let mut inputs = inputs_of(alloc, robot, reads)?;
    let mut out = MemSink::new(alloc, 10_000, 100, writes)?;
    let answer = run(alloc, told.as_slice(), &mut inputs, &mut out);
    Ok(Ran { answer, out })
}

const WORDS: [&str; 2] = ["outline", "robot.urdf"];

#[test]
fn an_outline(rt: HostRuntime) {
    let ran = run_failing(rt.alloc(), &WORDS, TREE, &[], &[]);
    assert!(rt; matches!(&ran, Ok(ran) if ran.answer.is_ok() && ran.out.bytes() == OUTLINE));
}

// Whether a run ends with this fault, and puts this before.
fn fails(
    alloc: Global,
    words: &[&str],
    robot: &[u8],
    reads: &[u64],
    writes: &[u64],
    fault: Fault,
    put: &[u8],
) -> bool {
    let Ok(ran) = run_failing(alloc, words, robot, reads, writes) else {
        return false;
    };
    matches!(&ran.answer, Err(found) if *found == fault) && ran.out.bytes() == put
}

#[test]
fn faults(rt: HostRuntime) {
    let alloc = rt.alloc();
    let input = Fault::File(FileFault::Failed);
    let output = Fault::Output(Failed);
    assert!(rt;
        fails(alloc, &["outline"], TREE, &[], &[], Fault::Usage, b"")
            && fails(alloc, &WORDS, TREE, &[2], &[], input, b"")
            && fails(alloc, &WORDS, TREE, &[], &[2], output, &OUTLINE[..100])
    );
}

// Two bodies that nothing bears.
const PAIR: &[u8] = b"<robot name='t'><link name='a'/><link name='b'/></robot>";

const TWO_ROOTS: TreeFault = TreeFault {
    kind: TreeKind::TwoRoots,
    file: WhichFile::Urdf,
    at: 32,
};

#[test]
fn two_roots_are_refused(rt: HostRuntime) {
    assert!(rt;
        fails(
            rt.alloc(),
            &WORDS,
            PAIR,
            &[],
            &[],
            Fault::Tree(TWO_ROOTS),
            b""
        )
    );
}

#[test]
fn a_fault_is_printed(rt: HostRuntime) {
    let text = format!(in rt.alloc(); "{}", Fault::Tree(TWO_ROOTS));
    assert!(rt; matches!(&text, Ok(text) if text.as_str() == "tree: urdf: TwoRoots at 32"));
}
