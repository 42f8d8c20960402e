//! Accelerations and forces of small robots under constraints in closed form, and a refusal.
use crate::bench::{BOX, Given, Held, LOOP, exactly, stand_of, zero_pivot};
use rb_contact::contact;
use rb_num::Iv;
use rb_tags::RootKind;
use rb_work::{NameKind, RowFault, Work};
use std::alloc::Global;
use std::test::*;

// The acceleration of column c and the force of row r, after this answer; nothing if there are none.
fn told(
    answer: Result<(), RowFault>,
    work: &Work,
    c: u32,
    r: u32,
) -> Option<Result<(Iv, Iv), RowFault>> {
    match answer {
        Err(fault) => Some(Err(fault)),
        Ok(()) if c <= work.columns() && r <= work.rows() => {
            Some(Ok((work.accel(c), work.row_force(r))))
        }
        Ok(()) => None,
    }
}

// What `contact` answers for a column and a row.
fn answered(
    alloc: Global,
    held: &Held,
    c: u32,
    r: u32,
) -> Result<Result<(Iv, Iv), RowFault>, Fail> {
    let mut stand = stand_of(alloc, held)?;
    let answer = contact(&stand.robot, &stand.cons, &stand.state, &mut stand.work);
    Ok(told(answer, &stand.work, c, r).ok_or("there are such ones")?)
}

// How a box of 1 kg rises, and the force of row r.
fn box_held(alloc: Global, lines: &[u8], r: u32) -> Result<Result<(Iv, Iv), RowFault>, Fail> {
    let held = Held {
        text: BOX,
        root: Some(RootKind::Floating),
        lines,
        row: &[],
    };
    answered(alloc, &held, 3, r)
}

// It rests on a point of the world.
#[test]
fn a_box_on_a_foot(rt: HostRuntime) -> Result<(), Fail> {
    let lines = b"name,axes,link1,x1,y1,z1,link2,x2,y2,z2,mu,e\nfoot,xyz,box,,,,,,,,,\n";
    let weight = Ok((Iv::ZERO, exactly(9_810_000_000_000)));
    assert_eq!(rt; box_held(rt.alloc(), lines, 3)?, weight);
    Ok(())
}

// The seventh row is the first once more.
#[test]
fn a_box_held_twice(rt: HostRuntime) -> Result<(), Fail> {
    let lines =
        b"name,axes,link1,x1,y1,z1,link2,x2,y2,z2,mu,e\none,xyzabc,box,,,,,,,,,\ntwo,xyzabc,box,,,,,,,,,\n";
    assert_eq!(rt;
        box_held(rt.alloc(), lines, 3)?,
        Err(zero_pivot(NameKind::C, 7))
    );
    Ok(())
}

// With compliances of one each row bears -a, so a = -2 a - 9.81.
#[test]
fn a_box_held_softly_twice(rt: HostRuntime) -> Result<(), Fail> {
    let lines =
        b"name,axes,link1,x1,y1,z1,link2,x2,y2,z2,mu,e\none,xyzabc,box,,,,,,,,1,\ntwo,xyzabc,box,,,,,,,,1,\n";
    let third = Ok((exactly(-3_270_000_000_000), exactly(3_270_000_000_000)));
    assert_eq!(rt; box_held(rt.alloc(), lines, 9)?, third);
    Ok(())
}

// A row between a body and itself holds nothing.
#[test]
fn a_box_held_to_itself(rt: HostRuntime) -> Result<(), Fail> {
    let lines = b"name,axes,link1,x1,y1,z1,link2,x2,y2,z2,mu,e\nsame,x,box,,,,box,,,,,\n";
    assert_eq!(rt;
        box_held(rt.alloc(), lines, 1)?,
        Err(zero_pivot(NameKind::C, 1))
    );
    let softly = b"name,axes,link1,x1,y1,z1,link2,x2,y2,z2,mu,e\nsame,x,box,,,,box,,,,1,\n";
    let falls = Ok((exactly(-9_810_000_000_000), Iv::ZERO));
    assert_eq!(rt; box_held(rt.alloc(), softly, 1)?, falls);
    Ok(())
}

// (1 + 1 + 1) kg m^2 move with the crank, whatever the coupler weighs; the loop gives the rocker its part.
#[test]
fn a_loop(rt: HostRuntime) -> Result<(), Fail> {
    let held = Held {
        text: LOOP,
        root: None,
        lines: b"name,axes,link1,x1,y1,z1,link2,x2,y2,z2,mu,e\nloop,xz,coupler,1,0,0,rocker,0,0,1,,\n",
        row: &[Given::Torque(0, 3_000_000_000_000)],
    };
    let turned = Ok((exactly(1_000_000_000_000), exactly(-1_000_000_000_000)));
    assert_eq!(rt; answered(rt.alloc(), &held, 1, 1)?, turned);
    Ok(())
}
