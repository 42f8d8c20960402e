//! Bodies of a robot file whose joints follow others.
use crate::building::robot_on;
use rb_num::Iv;
use rb_tree::{Mimic, Robot};

// The knuckle, which is nearer to the root, and the tip, which is farther from it, follow the finger.
const FINGER: &str =
    "<robot name='hand'><link name='palm'/><link name='knuckle'/><link name='finger'/><link name='tip'/><link name='thumb'/><joint name='bend' type='revolute'><parent link='palm'/><child link='knuckle'/><axis xyz='0 0 1'/><mimic joint='slide' multiplier='-2' offset='0.5'/></joint><joint name='slide' type='prismatic'><parent link='knuckle'/><child link='finger'/></joint><joint name='curl' type='revolute'><parent link='finger'/><child link='tip'/><mimic joint='slide'/></joint><joint name='turn' type='continuous'><parent link='palm'/><child link='thumb'/></joint></robot>";

// Where a body begins, in all columns, in those of the table and in the entries, and what it follows.
type Start = (u32, u32, usize, Option<Mimic>);

// Whether these are the starts of the bodies, from body 1 on.
fn has_starts(robot: &Robot, starts: &[Start]) -> bool {
    let mut number = 0;
    for (full, column, entry, mimic) in starts {
        if robot.bodies() <= number
            || robot.first_full(number + 1) != *full
            || robot.first_column(number + 1) != *column
            || robot.first_q(number + 1) != *entry
            || robot.mimic_of(number + 1) != *mimic
        {
            return false;
        }
        number += 1;
    }
    robot.bodies() == number
}

// What follows the finger.
fn following(multiplier: Iv, offset: Iv) -> Option<Mimic> {
    Some(Mimic {
        master: 3,
        multiplier,
        offset,
    })
}

// Whether the bodies of the hand start where they are to.
fn has_followers(hand: &Robot) -> bool {
    let minus_two = Iv::new(-2_000_000_000_000, -2_000_000_000_000);
    let half = Iv::new(500_000_000_000, 500_000_000_000);
    let starts = [
        (1, 1, 0, None),
        (1, 1, 0, following(minus_two, half)),
        (2, 1, 0, None),
        (3, 1, 0, following(Iv::ONE, Iv::ZERO)),
        (4, 2, 1, None),
    ];
    hand.has_mimic() && has_starts(hand, &starts)
}

// Whether the columns are those of the finger and of the thumb, which stands on the palm alone.
fn has_columns(hand: &Robot) -> bool {
    hand.nq() == 3
        && hand.nv() == 2
        && hand.full() == 4
        && hand.ups() == [0, 1].as_slice()
        && hand.column_body(1) == 3
        && hand.column_body(2) == 5
        && hand.up(2) == 1
}

#[test]
fn joints_above_and_below_follow_one(rt: HostRuntime) {
    let hand = robot_on(rt.alloc(), FINGER, None);
    assert!(rt; matches!(&hand, Some(hand) if has_followers(hand) && has_columns(hand)));
}
