//! Speeds after impacts and impulses of small robots in closed form, and refusals.
use crate::bench::{
    BOX, Given, Held, LEAF, LIFT, LOOP, STACK, exactly, stand_of, whole, zero_pivot,
};
use rb_impact::impulse;
use rb_num::Iv;
use rb_tags::RootKind;
use rb_work::{NameKind, RowFault, Work};
use std::alloc::Global;
use std::test::*;

// The speed of column c and the impulse of row r, after this answer; nothing if there are none.
fn told(
    answer: Result<(), RowFault>,
    work: &Work,
    c: u32,
    r: u32,
) -> Option<Result<(Iv, Iv), RowFault>> {
    match answer {
        Err(fault) => Some(Err(fault)),
        Ok(()) if c <= work.columns() && r <= work.rows() => {
            Some(Ok((work.speed_after(c), work.row_force(r))))
        }
        Ok(()) => None,
    }
}

// What `impulse` answers for a column and a row.
fn struck(alloc: Global, held: &Held, c: u32, r: u32) -> Result<Result<(Iv, Iv), RowFault>, Fail> {
    let mut stand = stand_of(alloc, held)?;
    let answer = impulse(&stand.robot, &stand.cons, &stand.state, &mut stand.work);
    Ok(told(answer, &stand.work, c, r).ok_or("there are such ones")?)
}

// Of 2 m/s downwards half comes back upwards: the floor gives 2 * (1 + 0.5) * 2 N s.
#[test]
fn a_car_on_a_floor(rt: HostRuntime) -> Result<(), Fail> {
    let held = Held {
        text: LIFT,
        root: None,
        lines: b"name,axes,link1,x1,y1,z1,link2,x2,y2,z2,mu,e\nfloor,z,car,,,,,,,,,0.5\n",
        row: &[Given::Speed(0, -2_000_000_000_000)],
    };
    assert_eq!(rt; struck(rt.alloc(), &held, 1, 1)?, Ok((whole(1), whole(6))));
    Ok(())
}

// Two cars of 1 and 2 kg on a rail.
const CARS: &str =
    "<robot name='cars'><link name='rail'/><link name='light'><inertial><mass value='1'/></inertial></link><link name='heavy'><inertial><mass value='2'/></inertial></link><joint name='light' type='prismatic'><parent link='rail'/><child link='light'/></joint><joint name='heavy' type='prismatic'><parent link='rail'/><child link='heavy'/></joint></robot>";

// A difference of 3 m/s turns to -1.5, so 4.5 * 2 / 3 N s pass from the light car to the heavy one, and the momentum stays 3.
#[test]
fn two_cars(rt: HostRuntime) -> Result<(), Fail> {
    let alloc = rt.alloc();
    let held = Held {
        text: CARS,
        root: None,
        lines: b"name,axes,link1,x1,y1,z1,link2,x2,y2,z2,mu,e\nbumper,x,light,,,,heavy,,,,,0.5\n",
        row: &[Given::Speed(0, 3_000_000_000_000)],
    };
    assert_eq!(rt; struck(alloc, &held, 1, 1)?, Ok((Iv::ZERO, whole(-3))));
    let pushed = exactly(1_500_000_000_000);
    assert_eq!(rt; struck(alloc, &held, 2, 1)?, Ok((pushed, whole(-3))));
    Ok(())
}

// The loop turns as one, and its rocker meets a stop: (1 + 1 + 1) kg m^2 turn back from 2 rad/s to -1.
#[test]
fn a_loop_at_a_stop(rt: HostRuntime) -> Result<(), Fail> {
    let alloc = rt.alloc();
    let held = Held {
        text: LOOP,
        root: None,
        lines: b"name,axes,link1,x1,y1,z1,link2,x2,y2,z2,mu,e\nstop,x,rocker,,,1,,,,,,0.5\nloop,xz,coupler,1,0,0,rocker,0,0,1,,\n",
        row: &[
            Given::Speed(0, 2_000_000_000_000),
            Given::Speed(1, -2_000_000_000_000),
            Given::Speed(2, 2_000_000_000_000),
        ],
    };
    assert_eq!(rt; struck(alloc, &held, 1, 1)?, Ok((whole(-1), whole(-9))));
    assert_eq!(rt; struck(alloc, &held, 3, 2)?, Ok((whole(-1), whole(-6))));
    Ok(())
}

// The seventh row is the first once more, and an impact knows no compliance.
#[test]
fn a_box_struck_twice(rt: HostRuntime) -> Result<(), Fail> {
    let held = Held {
        text: BOX,
        root: Some(RootKind::Floating),
        lines: b"name,axes,link1,x1,y1,z1,link2,x2,y2,z2,mu,e\none,xyzabc,box,,,,,,,,1,\ntwo,xyzabc,box,,,,,,,,1,\n",
        row: &[],
    };
    let twice = Err(zero_pivot(NameKind::C, 7));
    assert_eq!(rt; struck(rt.alloc(), &held, 3, 3)?, twice);
    Ok(())
}

// Without rows the speeds stay, but the mass table is factored all the same.
#[test]
fn nothing_is_met(rt: HostRuntime) -> Result<(), Fail> {
    let alloc = rt.alloc();
    let lines = b"name,axes,link1,x1,y1,z1,link2,x2,y2,z2,mu,e\n";
    let slides = Held {
        text: STACK,
        root: None,
        lines,
        row: &[Given::Speed(1, -2_000_000_000_000)],
    };
    assert_eq!(rt; struck(alloc, &slides, 2, 0)?, Ok((whole(-2), Iv::ZERO)));
    let hinge = Held {
        text: LEAF,
        root: None,
        lines,
        row: &[],
    };
    let light = Err(zero_pivot(NameKind::D, 1));
    assert_eq!(rt; struck(alloc, &hinge, 1, 0)?, light);
    Ok(())
}
