//! Runs over inputs and sinks in memory. The expected lines were worked out by hand, with exact fractions.
use crate::run::run;
use crate::status::Status;
use rb_io::{MemInputs, MemSink};
use std::alloc::{AllocError, Global};

const LIFT: &[u8] =
    br#"<robot name="lift"><link name="base"/><link name="car"><inertial><mass value="2"/></inertial></link><joint name="lift" type="prismatic"><parent link="base"/><child link="car"/><axis xyz="0 0 1"/></joint></robot>"#;

const ARM: &[u8] =
    br#"<robot name="arm"><link name="base"/><link name="rod"><inertial><origin xyz="0 0 -1"/><mass value="1"/></inertial></link><joint name="hinge" type="revolute"><parent link="base"/><child link="rod"/><axis xyz="0 1 0"/></joint></robot>"#;

const WHEEL: &[u8] =
    br#"<robot name="arm"><link name="base"/><link name="rod"><inertial><origin xyz="0 0 -1"/><mass value="1"/></inertial></link><joint name="hinge" type="continuous"><parent link="base"/><child link="rod"/><axis xyz="0 1 0"/></joint></robot>"#;

const BOX: &[u8] =
    br#"<robot name="box"><link name="box"><inertial><mass value="1"/><inertia ixx="1" ixy="0" ixz="0" iyy="1" iyz="0" izz="1"/></inertial></link></robot>"#;

// Two sliders of 1 kg, of which the second follows the first.
const PAIR: &[u8] =
    br#"<robot name="pair"><link name="base"/><link name="l1"><inertial><mass value="1"/></inertial></link><link name="l2"><inertial><mass value="1"/></inertial></link><joint name="one" type="prismatic"><parent link="base"/><child link="l1"/><axis xyz="1 0 0"/></joint><joint name="two" type="prismatic"><parent link="l1"/><child link="l2"/><axis xyz="1 0 0"/><mimic joint="one"/></joint></robot>"#;

const STACK: &[u8] =
    br#"<robot name="stack"><link name="base"/><link name="l1"><inertial><mass value="1"/></inertial></link><link name="l2"><inertial><mass value="1"/></inertial></link><joint name="one" type="prismatic"><parent link="base"/><child link="l1"/><axis xyz="1 0 0"/></joint><joint name="two" type="prismatic"><parent link="l1"/><child link="l2"/><axis xyz="1 0 0"/></joint></robot>"#;

// A hinge that nothing hangs on.
const LEAF: &[u8] =
    br#"<robot name="leaf"><link name="base"/><link name="tip"/><joint name="hinge" type="revolute"><parent link="base"/><child link="tip"/><axis xyz="0 1 0"/></joint></robot>"#;

// Three bars between hinges, of which the second hangs on the first.
const BARS: &[u8] =
    br#"<robot name="fourbar"><link name="base"/><link name="crank"><inertial><inertia ixx="0" ixy="0" ixz="0" iyy="1" iyz="0" izz="0"/></inertial></link><link name="coupler"><inertial><mass value="1"/><inertia ixx="0" ixy="0" ixz="0" iyy="1" iyz="0" izz="0"/></inertial></link><link name="rocker"><inertial><inertia ixx="0" ixy="0" ixz="0" iyy="1" iyz="0" izz="0"/></inertial></link><joint name="crank" type="revolute"><parent link="base"/><child link="crank"/><axis xyz="0 1 0"/></joint><joint name="coupler" type="revolute"><parent link="crank"/><child link="coupler"/><origin xyz="0 0 1"/><axis xyz="0 1 0"/></joint><joint name="rocker" type="revolute"><parent link="base"/><child link="rocker"/><origin xyz="1 0 0"/><axis xyz="0 1 0"/></joint></robot>"#;

// The poses of the arm.
const POSE: &[u8] =
    br#"<robot name="arm"><group name="all"><joint name="hinge"/></group><group_state name="half" group="all"><joint name="hinge" value="0.5"/></group_state></robot>"#;

// How a run ended, and what it put.
#[derive(Drop)]
struct Ran {
    status: Status,
    out: MemSink,
    err: MemSink,
}

// What the files hold: the robot, its poses, a table; and the table on standard input.
#[derive(Clone, Copy)]
struct Held<'a> {
    robot: &'a [u8],
    poses: &'a [u8],
    rows: &'a [u8],
}

fn words_of(alloc: Global, words: &[&str]) -> Result<Vec<String>, AllocError> {
    let mut texts = Vec::new(alloc);
    texts.push(String::from_str(alloc, "rbd")?)?;
    for word in words {
        texts.push(String::from_str(alloc, word)?)?;
    }
    Ok(texts)
}

// The files and standard input; the calls of these numbers fail.
fn inputs_of(
    alloc: Global,
    held: Held<'_>,
    constraints: &[u8],
    reads: &[u64],
) -> Result<MemInputs, AllocError> {
    let mut inputs = MemInputs::new(alloc, 4096, reads)?;
    inputs.add("robot.urdf", held.robot)?;
    inputs.add("robot.srdf", held.poses)?;
    inputs.add("grips.csv", constraints)?;
    inputs.add("table.csv", held.rows)?;
    inputs.add("-", held.rows)?;
    Ok(inputs)
}

// What a run has not put yet; the calls of these numbers fail.
fn nothing_put(alloc: Global, writes: &[u64]) -> Result<Ran, AllocError> {
    let out = MemSink::new(alloc, 100_000, 100, writes)?;
    let err = MemSink::new(alloc, 10_000, 7, &[])?;
    Ok(Ran {
        status: Status::Done,
        out,
        err,
    })
}

// Runs these words, with a file of constraints; the calls of these numbers fail.
fn run_under(
    alloc: Global,
    words: &[&str],
    held: Held<'_>,
    constraints: &[u8],
    reads: &[u64],
    writes: &[u64],
) -> Result<Ran, AllocError> {
    let words = words_of(alloc, words)?;
    let mut inputs = inputs_of(alloc, held, constraints, reads)?;
    let mut ran = nothing_put(alloc, writes)?;
    ran.status = run(
        alloc,
        words.as_slice(),
        &mut inputs,
        &mut ran.out,
        &mut ran.err,
    );
    Ok(ran)
}

// Whether a run ended so, and put this.
fn has_put(ran: &Ran, status: Status, out: &[u8], err: &[u8]) -> bool {
    ran.status == status && ran.out.bytes() == out && ran.err.bytes() == err
}

fn run_failing(
    alloc: Global,
    words: &[&str],
    held: Held<'_>,
    reads: &[u64],
    writes: &[u64],
) -> Result<Ran, AllocError> {
    run_under(alloc, words, held, b"", reads, writes)
}

fn run_words(alloc: Global, words: &[&str], held: Held<'_>) -> Result<Ran, AllocError> {
    run_failing(alloc, words, held, &[], &[])
}

// Inverse dynamics of a robot, without other options.
fn run_over(alloc: Global, robot: &[u8], rows: &[u8]) -> Result<Ran, AllocError> {
    let held = Held {
        robot,
        poses: b"",
        rows,
    };
    run_words(alloc, &["--task", "rnea", "--urdf", "robot.urdf"], held)
}

// The robot `lift` with another mass.
fn lift_of(alloc: Global, mass: &[u8]) -> Result<Vec<u8>, AllocError> {
    let mut text = Vec::from_slice(
        alloc,
        br#"<robot name="lift"><link name="base"/><link name="car"><inertial><mass value=""#,
    )?;
    text.extend_from_slice(mass)?;
    text.extend_from_slice(
        br#""/></inertial></link><joint name="lift" type="prismatic"><parent link="base"/><child link="car"/><axis xyz="0 0 1"/></joint></robot>"#,
    )?;
    Ok(text)
}

// A chain of so many sliders along x, without masses.
fn tower_of(alloc: Global, sliders: usize) -> Result<Vec<u8>, AllocError> {
    let mut text = Vec::from_slice(alloc, br#"<robot name="tower"><link name="l0"/>"#)?;
    for k in 0..sliders {
        let link = format!(in alloc; "<link name=\"l{}\"/>", k as u64 + 1)?;
        text.extend_from_slice(link.as_str().as_bytes())?;
    }
    for k in 0..sliders {
        let joint = format!(in alloc;
            "<joint name=\"j{}\" type=\"prismatic\"><parent link=\"l{}\"/><child link=\"l{}\"/><axis xyz=\"1 0 0\"/></joint>",
            k as u64,
            k as u64,
            k as u64 + 1
        )?;
        text.extend_from_slice(joint.as_str().as_bytes())?;
    }
    text.extend_from_slice(b"</robot>")?;
    Ok(text)
}

// Whether the words end so, over such files, and put this.
fn puts(
    alloc: Global,
    words: &[&str],
    held: Held<'_>,
    status: Status,
    out: &[u8],
    err: &[u8],
) -> bool {
    let Ok(ran) = run_words(alloc, words, held) else {
        return false;
    };
    has_put(&ran, status, out, err)
}

// Words, a robot, a table, the status, and what is put.
type Worked = (
    &'static [&'static str],
    &'static [u8],
    &'static [u8],
    Status,
    &'static [u8],
);

const WORKED: [Worked; 13] = [
    (
        &["--task", "rnea", "--urdf", "robot.urdf"],
        LIFT,
        b"a.lift\n1.5\n",
        Status::Done,
        b"row,answer,cause,tau.lift\n1,ok,,22.620000000000..22.620000000000\n",
    ),
    (
        &["--rows", "table.csv", "--urdf=robot.urdf", "--task=rnea"],
        LIFT,
        b"a.lift\n",
        Status::Done,
        b"row,answer,cause,tau.lift\n",
    ),
    // no weight: the force is the mass
    (
        &[
            "--task",
            "rnea",
            "--urdf",
            "robot.urdf",
            "--gravity",
            "0,0,0",
        ],
        b"<robot name='lift'><link name='base'/><link name='car'><inertial><mass value='0.1234567890123'/></inertial></link><joint name='lift' type='prismatic'><parent link='base'/><child link='car'/><axis xyz='0 0 1'/></joint></robot>",
        b"a.lift\n1\n",
        Status::Done,
        b"row,answer,cause,tau.lift\n1,ok,,0.123456789012..0.123456789013\n",
    ),
    // the links move by 1 and 2 m/s² a unit of the first joint: 1 * 1 + 2 * 2
    (
        &["--task", "rnea", "--urdf", "robot.urdf"],
        PAIR,
        b"a.one\n1\n",
        Status::Done,
        b"row,answer,cause,tau.one\n1,ok,,5.000000000000..5.000000000000\n",
    ),
    (
        &["--task", "rnea", "--urdf", "robot.urdf"],
        ARM,
        b"q.hinge\n0\n0.5\n1.5707963267949\n0.1..0.2\n8\n8.000000000001\n",
        Status::Refused,
        b"row,answer,cause,tau.hinge\n1,ok,,0.000000000000..0.000000000000\n2,ok,,4.703164533705..4.703164533716\n3,ok,,9.809999999990..9.810000000000\n4,ok,,0.974463266883..1.958736538447\n5,ok,,9.705604399371..9.705604399382\n6,range,q[2],\n",
    ),
    // a quarter turn, by its cosine and its sine
    (
        &["--task", "rnea", "--urdf", "robot.urdf"],
        WHEEL,
        b"q.hinge.sin,q.hinge.cos\n1,0\n",
        Status::Done,
        b"row,answer,cause,tau.hinge\n1,ok,,9.810000000000..9.810000000000\n",
    ),
    (
        &["--task", "rnea", "--urdf", "robot.urdf", "--root", "planar"],
        BOX,
        b"a.root_joint.wz,a.root_joint.vx\n2,1\n",
        Status::Done,
        b"row,answer,cause,tau.root_joint.vx,tau.root_joint.vy,tau.root_joint.wz\n1,ok,,1.000000000000..1.000000000000,0.000000000000..0.000000000000,2.000000000000..2.000000000000\n",
    ),
    (
        &[
            "--task",
            "rnea",
            "--urdf",
            "robot.urdf",
            "--root",
            "floating",
        ],
        BOX,
        b"q.root_joint.qx,q.root_joint.qy,q.root_joint.qz,q.root_joint.qw\n0,0,0,0\n0,0,0,1\n",
        Status::Refused,
        b"row,answer,cause,tau.root_joint.vx,tau.root_joint.vy,tau.root_joint.vz,tau.root_joint.wx,tau.root_joint.wy,tau.root_joint.wz\n1,notunit,q[1],,,,,,\n2,ok,,0.000000000000..0.000000000000,0.000000000000..0.000000000000,9.810000000000..9.810000000000,0.000000000000..0.000000000000,0.000000000000..0.000000000000,0.000000000000..0.000000000000\n",
    ),
    (
        &[
            "--task",
            "rnea",
            "--urdf",
            "robot.urdf",
            "--srdf",
            "robot.srdf",
            "--state",
            "half",
        ],
        ARM,
        b"#n\n1\n",
        Status::Done,
        b"row,answer,cause,tau.hinge\n1,ok,,4.703164533705..4.703164533716\n",
    ),
    // a mark of byte order, CR LF, a quoted name and a quoted number, a remark, an empty field
    (
        &["--task", "rnea", "--urdf", "robot.urdf"],
        LIFT,
        b"\xef\xbb\xbf#note,\"a.lift\"\r\nfirst,\"1.5\"\r\n\"second, at rest\",\n",
        Status::Done,
        b"row,answer,cause,tau.lift\n1,ok,,22.620000000000..22.620000000000\n2,ok,,19.620000000000..19.620000000000\n",
    ),
    (
        &["--task", "rnea", "--urdf", "robot.urdf", "--echo"],
        LIFT,
        b"a.lift\nx\n1..2\n",
        Status::Refused,
        b"row,answer,cause,in.q.lift,in.v.lift,in.a.lift,in.tau.lift,tau.lift\n1,field,NotNumber[1],,,,,\n2,ok,,0.000000000000..0.000000000000,0.000000000000..0.000000000000,1.000000000000..2.000000000000,0.000000000000..0.000000000000,21.620000000000..23.620000000000\n",
    ),
    (
        &["--task", "columns", "--urdf", "robot.urdf"],
        LIFT,
        b"",
        Status::Done,
        b"q.lift,v.lift,a.lift,tau.lift\n",
    ),
    (
        &["--task", "model", "--urdf", "robot.urdf"],
        BOX,
        b"",
        Status::Done,
        b"robot,box\njoint,1,0,root_joint,fixed,0.000000000000..0.000000000000,0.000000000000..0.000000000000,0.000000000000..0.000000000000,0.000000000000..0.000000000000,0.000000000000..0.000000000000,0.000000000000..0.000000000000,,,,,,,\nlink,1,box,1.000000000000..1.000000000000,0.000000000000..0.000000000000,0.000000000000..0.000000000000,0.000000000000..0.000000000000,0.000000000000..0.000000000000,0.000000000000..0.000000000000,0.000000000000..0.000000000000,1.000000000000..1.000000000000,0.000000000000..0.000000000000,0.000000000000..0.000000000000,1.000000000000..1.000000000000,0.000000000000..0.000000000000,1.000000000000..1.000000000000\nstate,\n",
    ),
];

// A task over rows, a robot, a table, the status, and what is put.
type OfTask = (
    &'static str,
    &'static [u8],
    &'static [u8],
    Status,
    &'static [u8],
);

const TASKS: [OfTask; 10] = [
    // the first joint moves both bodies
    (
        "crba",
        STACK,
        b"q.one\n0\n",
        Status::Done,
        b"row,answer,cause,M.1.1,M.1.2,M.2.2\n1,ok,,2.000000000000..2.000000000000,1.000000000000..1.000000000000,1.000000000000..1.000000000000\n",
    ),
    // 2 * 2 - 1 = 3, and 2 - 1 = 1
    (
        "fd",
        STACK,
        b"tau.one,tau.two\n3,1\n",
        Status::Done,
        b"row,answer,cause,a.one,a.two\n1,ok,,2.000000000000..2.000000000000,-1.000000000000..-1.000000000000\n",
    ),
    // a mass of 1 kg 1 m from the hinge, at each angle
    (
        "crba",
        ARM,
        b"q.hinge\n0.1..0.2\n",
        Status::Done,
        b"row,answer,cause,M.1.1\n1,ok,,1.000000000000..1.000000000000\n",
    ),
    // the links move by 1 and 2 m a unit of the first joint: 1 * 1 + 2 * 2
    (
        "crba",
        PAIR,
        b"q.one\n0\n",
        Status::Done,
        b"row,answer,cause,M.1.1\n1,ok,,5.000000000000..5.000000000000\n",
    ),
    (
        "fd",
        PAIR,
        b"tau.one\n5\n",
        Status::Done,
        b"row,answer,cause,a.one\n1,ok,,1.000000000000..1.000000000000\n",
    ),
    (
        "fd",
        LEAF,
        b"tau.hinge\n0\n",
        Status::Refused,
        b"row,answer,cause,a.hinge\n1,pivot,D[1]=0.000000000000..0.000000000000,\n",
    ),
    // 22.62 / 2 - 9.81
    (
        "fd",
        LIFT,
        b"tau.lift,a.lift\n22.62\n22.62,\n",
        Status::Refused,
        b"row,answer,cause,a.lift\n1,field,Count[1],\n2,ok,,1.500000000000..1.500000000000\n",
    ),
    // the same by articulated bodies
    (
        "aba",
        STACK,
        b"tau.one,tau.two\n3,1\n",
        Status::Done,
        b"row,answer,cause,a.one,a.two\n1,ok,,2.000000000000..2.000000000000,-1.000000000000..-1.000000000000\n",
    ),
    (
        "aba",
        LEAF,
        b"tau.hinge\n0\n",
        Status::Refused,
        b"row,answer,cause,a.hinge\n1,pivot,D[1]=0.000000000000..0.000000000000,\n",
    ),
    (
        "aba",
        LIFT,
        b"tau.lift\n22.62\n",
        Status::Done,
        b"row,answer,cause,a.lift\n1,ok,,1.500000000000..1.500000000000\n",
    ),
];

fn tasks_put(alloc: Global, cases: &[OfTask]) -> bool {
    for (task, robot, rows, status, out) in cases {
        let held = Held {
            robot,
            poses: b"",
            rows,
        };
        let words = ["--task", task, "--urdf", "robot.urdf"];
        if !puts(alloc, &words, held, *status, out, b"") {
            return false;
        }
    }
    true
}

#[test]
fn tasks_have_their_values(rt: HostRuntime) {
    assert!(rt; tasks_put(rt.alloc(), &TASKS));
}

// A robot, words behind the task, constraints, a table, the status, and what is put.
type HeldCase = (
    &'static [u8],
    &'static [&'static str],
    &'static [u8],
    &'static [u8],
    Status,
    &'static [u8],
);

const HELD: [HeldCase; 5] = [
    // a point of the box is held: the force is its weight
    (
        BOX,
        &["--root", "floating"],
        b"name,axes,link1,x1,y1,z1,link2,x2,y2,z2,mu,e\nfoot,xyz,box,0,0,0,,0,0,0,0,0\n",
        b"v.root_joint.vx\n0\n",
        Status::Done,
        b"row,answer,cause,a.root_joint.vx,a.root_joint.vy,a.root_joint.vz,a.root_joint.wx,a.root_joint.wy,a.root_joint.wz,lam.foot.x,lam.foot.y,lam.foot.z\n1,ok,,0.000000000000..0.000000000000,0.000000000000..0.000000000000,0.000000000000..0.000000000000,0.000000000000..0.000000000000,0.000000000000..0.000000000000,0.000000000000..0.000000000000,0.000000000000..0.000000000000,0.000000000000..0.000000000000,9.810000000000..9.810000000000\n",
    ),
    // the box is held twice
    (
        BOX,
        &["--root", "floating"],
        b"name,axes,link1,x1,y1,z1,link2,x2,y2,z2,mu,e\none,xyzabc,box,,,,,,,,0,0\ntwo,xyzabc,box,,,,,,,,0,0\n",
        b"v.root_joint.vx\n0\n",
        Status::Refused,
        b"row,answer,cause,a.root_joint.vx,a.root_joint.vy,a.root_joint.vz,a.root_joint.wx,a.root_joint.wy,a.root_joint.wz,lam.one.x,lam.one.y,lam.one.z,lam.one.a,lam.one.b,lam.one.c,lam.two.x,lam.two.y,lam.two.z,lam.two.a,lam.two.b,lam.two.c\n1,pivot,C[7]=0.000000000000..0.000000000000,,,,,,,,,,,,,,,,,,\n",
    ),
    // each gives way as much as the box has mass: a third of the weight
    (
        BOX,
        &["--root", "floating"],
        b"name,axes,link1,x1,y1,z1,link2,x2,y2,z2,mu,e\none,xyzabc,box,,,,,,,,1,0\ntwo,xyzabc,box,,,,,,,,1,0\n",
        b"v.root_joint.vx\n0\n",
        Status::Done,
        b"row,answer,cause,a.root_joint.vx,a.root_joint.vy,a.root_joint.vz,a.root_joint.wx,a.root_joint.wy,a.root_joint.wz,lam.one.x,lam.one.y,lam.one.z,lam.one.a,lam.one.b,lam.one.c,lam.two.x,lam.two.y,lam.two.z,lam.two.a,lam.two.b,lam.two.c\n1,ok,,0.000000000000..0.000000000000,0.000000000000..0.000000000000,-3.270000000000..-3.270000000000,0.000000000000..0.000000000000,0.000000000000..0.000000000000,0.000000000000..0.000000000000,0.000000000000..0.000000000000,0.000000000000..0.000000000000,3.270000000000..3.270000000000,0.000000000000..0.000000000000,0.000000000000..0.000000000000,0.000000000000..0.000000000000,0.000000000000..0.000000000000,0.000000000000..0.000000000000,3.270000000000..3.270000000000,0.000000000000..0.000000000000,0.000000000000..0.000000000000,0.000000000000..0.000000000000\n",
    ),
    // four bars are closed to a loop
    (
        BARS,
        &["--gravity", "0,0,0"],
        b"name,axes,link1,x1,y1,z1,link2,x2,y2,z2,mu,e\nloop,xz,coupler,1,0,0,rocker,0,0,1,0,0\n",
        b"tau.crank\n3\n",
        Status::Done,
        b"row,answer,cause,a.crank,a.coupler,a.rocker,lam.loop.x,lam.loop.z\n1,ok,,1.000000000000..1.000000000000,-1.000000000000..-1.000000000000,1.000000000000..1.000000000000,-1.000000000000..-1.000000000000,0.000000000000..0.000000000000\n",
    ),
    // they cannot move along y
    (
        BARS,
        &["--gravity", "0,0,0"],
        b"name,axes,link1,x1,y1,z1,link2,x2,y2,z2,mu,e\nloop,xyz,coupler,1,0,0,rocker,0,0,1,0,0\n",
        b"tau.crank\n3\n",
        Status::Refused,
        b"row,answer,cause,a.crank,a.coupler,a.rocker,lam.loop.x,lam.loop.y,lam.loop.z\n1,pivot,C[2]=0.000000000000..0.000000000000,,,,,,\n",
    ),
];

// Words behind others.
fn words_behind(
    alloc: Global,
    first: &[&'static str],
    more: &[&'static str],
) -> Result<Vec<&'static str>, AllocError> {
    let mut words = Vec::from_slice(alloc, first)?;
    words.extend_from_slice(more)?;
    Ok(words)
}

// Whether the task over a robot under constraints is answered so.
fn holds(alloc: Global, task: &'static str, case: &HeldCase) -> bool {
    let (robot, first, constraints, rows, status, out) = *case;
    let held = Held {
        robot,
        poses: b"",
        rows,
    };
    let more = [
        "--task",
        task,
        "--urdf",
        "robot.urdf",
        "--constraints",
        "grips.csv",
    ];
    let Ok(words) = words_behind(alloc, first, &more) else {
        return false;
    };
    let Ok(ran) = run_under(alloc, words.as_slice(), held, constraints, &[], &[]) else {
        return false;
    };
    has_put(&ran, status, out, b"")
}

fn hold_all(alloc: Global, task: &'static str, cases: &[HeldCase]) -> bool {
    for case in cases {
        if !holds(alloc, task, case) {
            return false;
        }
    }
    true
}

#[test]
fn constraints_hold_robots(rt: HostRuntime) {
    assert!(rt; hold_all(rt.alloc(), "contact", &HELD));
}

// A robot, words behind the task, constraints, a table, the status, and what is put.
const STRUCK: [HeldCase; 6] = [
    // 2 m/s downwards come back with 0 to 2 m/s: 1 kg gains 2 to 4 N s
    (
        b"<robot name='lift'><link name='base'/><link name='car'><inertial><mass value='1'/></inertial></link><joint name='lift' type='prismatic'><parent link='base'/><child link='car'/><axis xyz='0 0 1'/></joint></robot>",
        &[],
        b"name,axes,link1,x1,y1,z1,link2,x2,y2,z2,mu,e\nfloor,z,car,,,,,,,,0,0..1\n",
        b"v.lift\n-2\n",
        Status::Done,
        b"row,answer,cause,v.lift,imp.floor.z\n1,ok,,0.000000000000..2.000000000000,2.000000000000..4.000000000000\n",
    ),
    // half of 2 m/s comes back: 2 * (2 + 1) N s; a car at rest stays so
    (
        LIFT,
        &[],
        b"name,axes,link1,x1,y1,z1,link2,x2,y2,z2,mu,e\nfloor,z,car,,,,,,,,0,0.5\n",
        b"v.lift\n-2\n0\n",
        Status::Done,
        b"row,answer,cause,v.lift,imp.floor.z\n1,ok,,1.000000000000..1.000000000000,6.000000000000..6.000000000000\n2,ok,,0.000000000000..0.000000000000,0.000000000000..0.000000000000\n",
    ),
    // the second slides twice as fast as the first, so 2 m/s of the first have 1 * 2 + 2 * 4 kg m/s, twice the impulse
    (
        PAIR,
        &[],
        b"name,axes,link1,x1,y1,z1,link2,x2,y2,z2,mu,e\nwall,x,l2,,,,,,,,,\n",
        b"v.one\n2\n",
        Status::Done,
        b"row,answer,cause,v.one,imp.wall.x\n1,ok,,0.000000000000..0.000000000000,-5.000000000000..-5.000000000000\n",
    ),
    // the loop turns as one, and its rocker meets a stop: 3 kg m² turn back from 2 rad/s to -1, of which 2 on the side of the crank
    (
        BARS,
        &[],
        b"name,axes,link1,x1,y1,z1,link2,x2,y2,z2,mu,e\nstop,x,rocker,0,0,1,,,,,0,0.5\nloop,xz,coupler,1,0,0,rocker,0,0,1,0,0\n",
        b"v.crank,v.coupler,v.rocker\n2,-2,2\n",
        Status::Done,
        b"row,answer,cause,v.crank,v.coupler,v.rocker,imp.stop.x,imp.loop.x,imp.loop.z\n1,ok,,-1.000000000000..-1.000000000000,1.000000000000..1.000000000000,-1.000000000000..-1.000000000000,-9.000000000000..-9.000000000000,-6.000000000000..-6.000000000000,0.000000000000..0.000000000000\n",
    ),
    // two rows hold the same, whatever their compliance
    (
        BOX,
        &["--root", "floating"],
        b"name,axes,link1,x1,y1,z1,link2,x2,y2,z2,mu,e\none,z,box,,,,,,,,1,\ntwo,z,box,,,,,,,,1,\n",
        b"v.root_joint.vz\n-2\n",
        Status::Refused,
        b"row,answer,cause,v.root_joint.vx,v.root_joint.vy,v.root_joint.vz,v.root_joint.wx,v.root_joint.wy,v.root_joint.wz,imp.one.z,imp.two.z\n1,pivot,C[2]=0.000000000000..0.000000000000,,,,,,,,\n",
    ),
    // nothing is met, but a mass table without factors is refused all the same
    (
        LEAF,
        &[],
        b"name,axes,link1,x1,y1,z1,link2,x2,y2,z2,mu,e\n",
        b"v.hinge\n1\n",
        Status::Refused,
        b"row,answer,cause,v.hinge\n1,pivot,D[1]=0.000000000000..0.000000000000,\n",
    ),
];

#[test]
fn impacts_turn_robots_round(rt: HostRuntime) {
    assert!(rt; hold_all(rt.alloc(), "impulse", &STRUCK));
}

// Articulated bodies are asked only of a robot in which no joint follows another.
#[test]
fn followers_are_refused(rt: HostRuntime) {
    let held = Held {
        robot: PAIR,
        poses: b"",
        rows: b"tau.one\n5\n",
    };
    let words = ["--task", "aba", "--urdf", "robot.urdf"];
    let line = b"rbd: usage: mimic\n";
    assert!(rt; puts(rt.alloc(), &words, held, Status::Usage, b"", line));
}

fn runs_put(alloc: Global, cases: &[Worked]) -> bool {
    for (words, robot, rows, status, out) in cases {
        let held = Held {
            robot,
            poses: POSE,
            rows,
        };
        if !puts(alloc, words, held, *status, out, b"") {
            return false;
        }
    }
    true
}

#[test]
fn runs_put_what_they_are_asked_for(rt: HostRuntime) {
    assert!(rt; runs_put(rt.alloc(), &WORKED));
}

// Words, the poses, the status and the line on standard error. The robot is the arm, and nothing is put.
type RefusedWords = (
    &'static [&'static str],
    &'static [u8],
    Status,
    &'static [u8],
);

const REFUSED: [RefusedWords; 9] = [
    (
        &["--task", "walk", "--urdf", "robot.urdf"],
        b"",
        Status::Usage,
        b"rbd: usage: task\n",
    ),
    (
        &["--task", "rnea", "--urdf", "robot.urdf", "--root", "free"],
        b"",
        Status::Usage,
        b"rbd: usage: root\n",
    ),
    (
        &["--task", "rnea", "--urdf", "robot.urdf", "--gravity", "0,0"],
        b"",
        Status::Usage,
        b"rbd: usage: gravity\n",
    ),
    (
        &["--task", "rnea", "--urdf", "robot.urdf", "--state", "half"],
        b"",
        Status::Usage,
        b"rbd: usage: state\n",
    ),
    (
        &[
            "--task",
            "model",
            "--urdf",
            "robot.urdf",
            "--srdf",
            "robot.srdf",
            "--state",
            "whole",
        ],
        POSE,
        Status::Usage,
        b"rbd: usage: state\n",
    ),
    (
        &[
            "--task",
            "rnea",
            "--urdf",
            "robot.urdf",
            "--srdf",
            "robot.srdf",
        ],
        b"<robot name='arm'",
        Status::Robot,
        b"rbd: srdf: Unclosed at 0\n",
    ),
    (
        &[
            "--task",
            "rnea",
            "--urdf",
            "robot.urdf",
            "--srdf",
            "robot.srdf",
        ],
        b"<robot name='arm'><group name=''/></robot>",
        Status::Robot,
        b"rbd: srdf: NoName at 18\n",
    ),
    (
        &[
            "--task",
            "rnea",
            "--urdf",
            "robot.urdf",
            "--srdf",
            "robot.srdf",
        ],
        b"<robot name='leg'/>",
        Status::Robot,
        b"rbd: srdf: OtherRobot at 0\n",
    ),
    (
        &[
            "--task",
            "columns",
            "--urdf",
            "robot.urdf",
            "--srdf",
            "robot.srdf",
            "--state",
            "none",
        ],
        b"<robot name='arm'><group name='g'><joint name='knee'/></group></robot>",
        Status::Robot,
        b"rbd: srdf: UnknownName at 18\n",
    ),
];

fn are_refused(alloc: Global, cases: &[RefusedWords]) -> bool {
    for (words, poses, status, line) in cases {
        let held = Held {
            robot: ARM,
            poses,
            rows: b"a.hinge\n0\n",
        };
        if !puts(alloc, words, held, *status, b"", line) {
            return false;
        }
    }
    true
}

#[test]
fn words_and_poses_are_refused(rt: HostRuntime) {
    assert!(rt; are_refused(rt.alloc(), &REFUSED));
}

// A file of constraints of the box, and the line on standard error.
type RefusedFile = (&'static [u8], &'static [u8]);

const CONSTRAINTS: [RefusedFile; 12] = [
    (b"", b"rbd: constraints: BadHeader at line 0\n"),
    (
        b"# none\n\nname,axes\n",
        b"rbd: constraints: BadHeader at line 3\n",
    ),
    (
        b"name,axes,link1,x1,y1,z1,link2,x2,y2,z2,mu,e\na,x,box\n",
        b"rbd: constraints: BadLine at line 2\n",
    ),
    (
        b"name,axes,link1,x1,y1,z1,link2,x2,y2,z2,mu,e\n,x,box,,,,,,,,,\n",
        b"rbd: constraints: BadLine at line 2\n",
    ),
    (
        b"name,axes,link1,x1,y1,z1,link2,x2,y2,z2,mu,e\na,x,box,,,,,,,,,\n# again\na,y,box,,,,,,,,,\n",
        b"rbd: constraints: NameTwice at line 4\n",
    ),
    (
        b"name,axes,link1,x1,y1,z1,link2,x2,y2,z2,mu,e\na,xx,box,,,,,,,,0,0\n",
        b"rbd: constraints: BadRows at line 2\n",
    ),
    (
        b"name,axes,link1,x1,y1,z1,link2,x2,y2,z2,mu,e\na,xy,box,,,,,,,,,\nb,z,lid,,,,,,,,,\n",
        b"rbd: constraints: UnknownLink at line 3\n",
    ),
    // the world comes second
    (
        b"name,axes,link1,x1,y1,z1,link2,x2,y2,z2,mu,e\na,x,,,,,box,,,,,\n",
        b"rbd: constraints: UnknownLink at line 2\n",
    ),
    (
        b"name,axes,link1,x1,y1,z1,link2,x2,y2,z2,mu,e\na,x,box,one,,,,,,,,\n",
        b"rbd: constraints: BadNumber at line 2\n",
    ),
    (
        b"name,axes,link1,x1,y1,z1,link2,x2,y2,z2,mu,e\na,x,box,,,,,,,,-1..1,\n",
        b"rbd: constraints: BadNumber at line 2\n",
    ),
    (
        b"name,axes,link1,x1,y1,z1,link2,x2,y2,z2,mu,e\r\na,x,box,,,,,,,,,1.5\r\n",
        b"rbd: constraints: BadNumber at line 2\n",
    ),
    // ten have sixty rows
    (
        b"name,axes,link1,x1,y1,z1,link2,x2,y2,z2,mu,e\na,xyzabc,box,,,,,,,,,\nb,xyzabc,box,,,,,,,,,\nc,xyzabc,box,,,,,,,,,\nd,xyzabc,box,,,,,,,,,\ne,xyzabc,box,,,,,,,,,\nf,xyzabc,box,,,,,,,,,\ng,xyzabc,box,,,,,,,,,\nh,xyzabc,box,,,,,,,,,\ni,xyzabc,box,,,,,,,,,\nj,xyzabc,box,,,,,,,,,\nk,xyzab,box,,,,,,,,,\n",
        b"rbd: constraints: TooMany at line 12\n",
    ),
];

// Whether a file of constraints of the box is refused with this line.
fn refuses_constraints(alloc: Global, constraints: &[u8], line: &[u8]) -> bool {
    let held = Held {
        robot: BOX,
        poses: b"",
        rows: b"no column\n",
    };
    let words = [
        "--task",
        "fd",
        "--urdf",
        "robot.urdf",
        "--root",
        "floating",
        "--echo",
        "--constraints",
        "grips.csv",
    ];
    let Ok(ran) = run_under(alloc, &words, held, constraints, &[], &[]) else {
        return false;
    };
    has_put(&ran, Status::Robot, b"", line)
}

fn refuses_each(alloc: Global, cases: &[RefusedFile]) -> bool {
    for (constraints, line) in cases {
        if !refuses_constraints(alloc, constraints, line) {
            return false;
        }
    }
    true
}

#[test]
fn constraints_are_refused(rt: HostRuntime) {
    assert!(rt; refuses_each(rt.alloc(), &CONSTRAINTS));
}

// Each task but `contact` and `impulse` takes a file of constraints, here between two links and with the world, and puts what it puts without one.
fn passes_over(alloc: Global, task: &str) -> bool {
    let held = Held {
        robot: STACK,
        poses: b"",
        rows: b"a.one,tau.two\n1,2\n",
    };
    let constraints =
        b"# grips\n\nname,axes,link1,x1,y1,z1,link2,x2,y2,z2,mu,e\nboth,xc,l1,0.5,,,l2,,-1..1,,,0.5\n\"held, still\",yz,l2,,,,,,,,1e-3,\n";
    let words = [
        "--task",
        task,
        "--urdf",
        "robot.urdf",
        "--constraints=grips.csv",
    ];
    let Ok(without) = run_words(alloc, &["--task", task, "--urdf", "robot.urdf"], held) else {
        return false;
    };
    let Ok(ran) = run_under(alloc, &words, held, constraints, &[], &[]) else {
        return false;
    };
    has_put(&ran, Status::Done, without.out.bytes(), b"")
}

fn pass_over(alloc: Global, tasks: &[&str]) -> bool {
    for task in tasks {
        if !passes_over(alloc, task) {
            return false;
        }
    }
    true
}

#[test]
fn tasks_pass_over_constraints(rt: HostRuntime) {
    assert!(rt;
        pass_over(
            rt.alloc(),
            &["rnea", "crba", "fd", "aba", "model", "columns"]
        )
    );
}

// Words behind the task and the robot, in which a joint follows another and which has no states, and the line on standard error.
type Before = (&'static [&'static str], Status, &'static [u8]);

const BEFORE_CONSTRAINTS: [Before; 4] = [
    (
        &["--task", "columns", "--state", "half"],
        Status::Usage,
        b"rbd: usage: state\n",
    ),
    (&["--task", "aba"], Status::Usage, b"rbd: usage: mimic\n"),
    (
        &["--task", "fd"],
        Status::Robot,
        b"rbd: constraints: BadHeader at line 1\n",
    ),
    (
        &["--task", "model"],
        Status::Robot,
        b"rbd: constraints: BadHeader at line 1\n",
    ),
];

// Whether a run of these words, the robot and its constraints is refused so.
fn refuses_before(alloc: Global, first: &[&'static str], status: Status, line: &[u8]) -> bool {
    let held = Held {
        robot: PAIR,
        poses: b"",
        rows: b"no column\n",
    };
    let more = ["--urdf", "robot.urdf", "--constraints", "grips.csv"];
    let Ok(words) = words_behind(alloc, first, &more) else {
        return false;
    };
    let Ok(ran) = run_under(alloc, words.as_slice(), held, b"grips\n", &[], &[]) else {
        return false;
    };
    has_put(&ran, status, b"", line)
}

fn refuse_before(alloc: Global, cases: &[Before]) -> bool {
    for (first, status, line) in cases {
        if !refuses_before(alloc, first, *status, line) {
            return false;
        }
    }
    true
}

#[test]
fn constraints_are_read_behind_the_state(rt: HostRuntime) {
    assert!(rt; refuse_before(rt.alloc(), &BEFORE_CONSTRAINTS));
}

// Whether the words do not fit, and more is said of them.
fn says_more(alloc: Global, words: &[&str]) -> bool {
    let held = Held {
        robot: LIFT,
        poses: b"",
        rows: b"",
    };
    let Ok(ran) = run_words(alloc, words, held) else {
        return false;
    };
    ran.status == Status::Usage
        && ran.err.bytes().starts_with(b"rbd: usage: words\n")
        && ran.out.bytes().is_empty()
}

#[test]
fn the_parser_of_words_says_more(rt: HostRuntime) {
    let alloc = rt.alloc();
    assert!(rt;
        says_more(alloc, &["--task", "rnea"])
            && says_more(alloc, &["--help"])
            && says_more(alloc, &["--task", "rnea", "--urdf", "a", "--wings"])
    );
}

// A robot file, and the line on standard error.
const ROBOTS: [RefusedFile; 3] = [
    (
        br#"<robot name="lift"><link name="base"/><link name="car"/></robot>"#,
        b"rbd: urdf: TwoRoots at 38\n",
    ),
    (
        br#"<robot name="lift"><link name="ba"#,
        b"rbd: urdf: Unclosed at 19\n",
    ),
    (
        br#"<robot name="r"><link/></robot>"#,
        b"rbd: urdf: NoName at 16\n",
    ),
];

// Whether a run over a robot and a table ends so, and puts this.
fn is_over(
    alloc: Global,
    robot: &[u8],
    rows: &[u8],
    status: Status,
    out: &[u8],
    err: &[u8],
) -> bool {
    let Ok(ran) = run_over(alloc, robot, rows) else {
        return false;
    };
    has_put(&ran, status, out, err)
}

fn refuse_robots(alloc: Global, cases: &[RefusedFile]) -> bool {
    for (robot, line) in cases {
        if !is_over(alloc, robot, b"a.lift\n1.5\n", Status::Robot, b"", line) {
            return false;
        }
    }
    true
}

#[test]
fn robots_are_refused(rt: HostRuntime) {
    assert!(rt; refuse_robots(rt.alloc(), &ROBOTS));
}

// A header of the lift, and the line on standard error.
const HEADERS: [RefusedFile; 7] = [
    (b"", b"rbd: rows: BadHeader at field 0\n"),
    (b"\n\r\n", b"rbd: rows: BadHeader at field 0\n"),
    (b"a.lift\rq.lift\n1\n", b"rbd: rows: BadHeader at field 0\n"),
    (b"a.lift,\xff\n1,2\n", b"rbd: rows: BadHeader at field 0\n"),
    (
        b"a.lift,#,lift\n1,2,3\n",
        b"rbd: rows: UnknownColumn at field 3\n",
    ),
    (
        b"a.lift,v.lift,a.lift\n1,2,3\n",
        b"rbd: rows: ColumnTwice at field 3\n",
    ),
    (
        b"a.lift,,x\n1,2,3\n",
        b"rbd: rows: UnknownColumn at field 2\n",
    ),
];

fn refuse_headers(alloc: Global, cases: &[RefusedFile]) -> bool {
    for (rows, line) in cases {
        if !is_over(alloc, LIFT, rows, Status::Rows, b"", line) {
            return false;
        }
    }
    true
}

#[test]
fn headers_are_refused(rt: HostRuntime) {
    assert!(rt; refuse_headers(rt.alloc(), &HEADERS));
}

#[test]
fn fields_are_refused(rt: HostRuntime) {
    let rows = b"a.lift\r\n1.5,0\r\n\r\nx\n2000000000000\n1e3\n1..2\n2..1\n1\r2\n+.5";
    let out =
        b"row,answer,cause,tau.lift\n1,field,Count[2],\n2,field,NotNumber[1],\n3,field,TooLarge[1],\n4,ok,,2019.620000000000..2019.620000000000\n5,ok,,21.620000000000..23.620000000000\n6,field,Backwards[1],\n7,field,Count[0],\n8,ok,,20.620000000000..20.620000000000\n";
    assert!(rt; is_over(rt.alloc(), LIFT, rows, Status::Refused, out, b""));
}

// Whether a mass of 10^12 kg is too heavy at 10^12 m/s².
fn is_too_heavy(alloc: Global) -> bool {
    let Ok(heavy) = lift_of(alloc, b"1000000000000") else {
        return false;
    };
    let out = b"row,answer,cause,tau.lift\n1,size,b[2],\n";
    let rows = b"a.lift\n1000000000000\n";
    is_over(alloc, heavy.as_slice(), rows, Status::Refused, out, b"")
}

// Whether three sliders are too fast together.
fn is_too_fast(alloc: Global) -> bool {
    let Ok(tower) = tower_of(alloc, 3) else {
        return false;
    };
    let out = b"row,answer,cause,tau.j0,tau.j1,tau.j2\n1,size,a[4],,,\n";
    let rows = b"a.j0,a.j1,a.j2\n1000000000000,1000000000000,1000000000000\n";
    is_over(alloc, tower.as_slice(), rows, Status::Refused, out, b"")
}

#[test]
fn sizes_are_refused(rt: HostRuntime) {
    assert!(rt; is_too_heavy(rt.alloc()) && is_too_fast(rt.alloc()));
}

// The names of all numbers of seven sliders, and three hundred rows, of which one has a last field that is no number.
fn many_rows(alloc: Global) -> Result<Vec<u8>, AllocError> {
    let mut rows = Vec::from_slice(
        alloc,
        b"q.j0,q.j1,q.j2,q.j3,q.j4,q.j5,q.j6,v.j0,v.j1,v.j2,v.j3,v.j4,v.j5,v.j6,a.j0,a.j1,a.j2,a.j3,a.j4,a.j5,a.j6\n",
    )?;
    for row in 1..301 {
        let last = if row == 257 {
            b"one\n".as_slice()
        } else {
            b"1\n"
        };
        rows.extend_from_slice(b"0,0,0,0,0,0,0,0,0,0,0,0,0,0,0,0,0,0,0,0,")?;
        rows.extend_from_slice(last)?;
    }
    Ok(rows)
}

// Whether there are so many lines, the last of which is empty, and the one behind row 256 is this.
fn has_line(text: &[u8], lines: usize, wanted: &[u8]) -> bool {
    let mut count: usize = 0;
    for line in text.split(|byte| *byte == b'\n') {
        if count == 257 && line != wanted {
            return false;
        }
        count = count.wrapping_add(1);
    }
    count == lines
}

fn refuses_one_of_many(alloc: Global) -> bool {
    let Ok(tower) = tower_of(alloc, 7) else {
        return false;
    };
    let Ok(rows) = many_rows(alloc) else {
        return false;
    };
    let Ok(ran) = run_over(alloc, tower.as_slice(), rows.as_slice()) else {
        return false;
    };
    let line = b"257,field,NotNumber[21],,,,,,,";
    ran.status == Status::Refused && has_line(ran.out.bytes(), 302, line)
}

#[test]
fn one_bad_field_among_many_rows(rt: HostRuntime) {
    assert!(rt; refuses_one_of_many(rt.alloc()));
}

// Whether the run fails so, where the calls of these numbers fail.
fn fails(
    alloc: Global,
    words: &[&str],
    reads: &[u64],
    writes: &[u64],
    status: Status,
    line: &[u8],
) -> bool {
    let held = Held {
        robot: LIFT,
        poses: b"",
        rows: b"a.lift\n1.5\n",
    };
    let Ok(ran) = run_failing(alloc, words, held, reads, writes) else {
        return false;
    };
    has_put(&ran, status, b"", line)
}

#[test]
fn a_read_fails(rt: HostRuntime) {
    let alloc = rt.alloc();
    // the robot is opened and read in two calls, the rows are opened by the fourth
    let words = ["--task", "rnea", "--urdf", "robot.urdf"];
    // the constraints are opened by the fourth call, and the model takes no rows
    let model = [
        "--task",
        "model",
        "--urdf",
        "robot.urdf",
        "--constraints",
        "grips.csv",
    ];
    let (input, output) = (b"rbd: input failed\n", b"rbd: output failed\n");
    assert!(rt;
        fails(alloc, &words, &[5], &[], Status::InputFault, input)
            && fails(alloc, &words, &[], &[1], Status::OutputFault, output)
            && fails(alloc, &model, &[4], &[], Status::InputFault, input)
    );
}

// The longest line that is read, behind one row.
fn longest_rows(alloc: Global) -> Result<Vec<u8>, AllocError> {
    let mut rows = Vec::from_slice(alloc, b"a.lift\n1.5\n")?;
    rows.extend_from_slice(vec![in alloc; b'0'; 65_533]?.as_slice())?;
    rows.extend_from_slice(b"1.5\n")?;
    Ok(rows)
}

// The same, and behind it a line with one byte more, and a row.
fn longer_rows(alloc: Global) -> Result<Vec<u8>, AllocError> {
    let mut rows = longest_rows(alloc)?;
    rows.push(b'0')?;
    rows.extend_from_slice(vec![in alloc; b'0'; 65_533]?.as_slice())?;
    rows.extend_from_slice(b"1.5\n2\n")?;
    Ok(rows)
}

// Whether the longest line is answered, and the rows stop at one that is longer.
fn stops_at_longer(alloc: Global, longest: &[u8], longer: &[u8]) -> bool {
    let Ok(done) = run_over(alloc, LIFT, longest) else {
        return false;
    };
    let line = b"rbd: rows: LineTooLong at row 3\n";
    done.status == Status::Done
        && is_over(alloc, LIFT, longer, Status::Rows, done.out.bytes(), line)
}

fn limits_lines(alloc: Global) -> bool {
    let Ok(longest) = longest_rows(alloc) else {
        return false;
    };
    let Ok(longer) = longer_rows(alloc) else {
        return false;
    };
    stops_at_longer(alloc, longest.as_slice(), longer.as_slice())
}

#[test]
fn lines_are_limited(rt: HostRuntime) {
    assert!(rt; limits_lines(rt.alloc()));
}

// Whether a run over so many sliders ends so, with this line on standard error.
fn is_tower(alloc: Global, sliders: usize, rows: &[u8], status: Status, line: &[u8]) -> bool {
    let Ok(tower) = tower_of(alloc, sliders) else {
        return false;
    };
    is_over(alloc, tower.as_slice(), rows, status, b"", line)
}

#[test]
fn columns_are_limited(rt: HostRuntime) {
    let most = b"rbd: rows: UnknownColumn at field 1\n";
    let more = b"rbd: urdf: TooManyColumns at 7633\n";
    assert!(rt;
        is_tower(rt.alloc(), 64, b"a.j64\n", Status::Rows, most)
            && is_tower(rt.alloc(), 65, b"a.j0\n", Status::Robot, more)
    );
}

// A text with spaces behind it, up to a length.
fn padded(alloc: Global, text: &[u8], length: usize) -> Result<Vec<u8>, AllocError> {
    let mut all = Vec::from_slice(alloc, text)?;
    let rest = length.saturating_sub(text.len());
    all.extend_from_slice(vec![in alloc; b' '; rest]?.as_slice())?;
    Ok(all)
}

// Whether a robot file of this length is read.
fn reads_robot(alloc: Global, length: usize) -> bool {
    let Ok(robot) = padded(alloc, LIFT, length) else {
        return false;
    };
    let ran = run_over(alloc, robot.as_slice(), b"a.lift\n1.5\n");
    matches!(&ran, Ok(ran) if ran.status == Status::Done)
}

fn refuses_robot(alloc: Global, length: usize) -> bool {
    let Ok(robot) = padded(alloc, LIFT, length) else {
        return false;
    };
    let line = b"rbd: urdf: TooLong\n";
    is_over(
        alloc,
        robot.as_slice(),
        b"a.lift\n1.5\n",
        Status::Robot,
        b"",
        line,
    )
}

#[test]
fn files_are_limited(rt: HostRuntime) {
    assert!(rt; reads_robot(rt.alloc(), 8_388_608) && refuses_robot(rt.alloc(), 8_388_609));
}

// A run over a file of constraints of this length, which holds none.
fn run_of_length(alloc: Global, length: usize) -> Result<Ran, AllocError> {
    let held = Held {
        robot: LIFT,
        poses: b"",
        rows: b"",
    };
    let words = [
        "--task",
        "columns",
        "--urdf",
        "robot.urdf",
        "--constraints",
        "grips.csv",
    ];
    let none = b"name,axes,link1,x1,y1,z1,link2,x2,y2,z2,mu,e\n#";
    let text = padded(alloc, none, length)?;
    run_under(alloc, &words, held, text.as_slice(), &[], &[])
}

fn reads_constraints(alloc: Global, length: usize) -> bool {
    let ran = run_of_length(alloc, length);
    matches!(&ran, Ok(ran) if ran.status == Status::Done)
}

fn refuses_length(alloc: Global, length: usize) -> bool {
    let ran = run_of_length(alloc, length);
    let line = b"rbd: constraints: TooLong\n";
    matches!(&ran, Ok(ran) if has_put(ran, Status::Robot, b"", line))
}

#[test]
fn constraints_are_limited(rt: HostRuntime) {
    assert!(rt; reads_constraints(rt.alloc(), 8_388_608) && refuses_length(rt.alloc(), 8_388_609));
}
