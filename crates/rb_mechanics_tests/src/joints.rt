use rb_joint::{
    AnyJoint, Continuous, Fixed, Free, JointFault, JointModel, Planar, Prismatic, Quaternion,
    Revolute, frame_of, turn_of,
};
use rb_num::{Iv, NumFault, S};
use rb_spatial::{Force, Frame, Mat3, Motion, Place, Vec3};

// The whole number `n`.
fn whole(n: i32) -> Iv {
    let end = i128::from(n) * S;
    Iv::new(end, end)
}

fn vector(x: i32, y: i32, z: i32) -> Vec3 {
    Vec3::new(whole(x), whole(y), whole(z))
}

// Half of pi, to twelve places.
fn quarter() -> Iv {
    Iv::new(1_570_796_326_794, 1_570_796_326_795)
}

fn world() -> Frame {
    Frame {
        rot: Mat3::new(vector(1, 0, 0), vector(0, 1, 0), vector(0, 0, 1)),
        at: vector(0, 0, 0),
    }
}

// Whether `v` has `n` in it, and its ends are at most ten parts of 10^-12 away.
fn is_near(v: Iv, n: i32) -> bool {
    let end = i128::from(n) * S;
    (end - 10..=end).contains(&v.lo()) && (end..=end + 10).contains(&v.hi())
}

fn is_near_vector(v: &Vec3, n: [i32; 3]) -> bool {
    is_near(v.x(), n[0]) && is_near(v.y(), n[1]) && is_near(v.z(), n[2])
}

fn is_near_table(t: &Mat3, n: [[i32; 3]; 3]) -> bool {
    is_near_vector(&t.x(), n[0]) && is_near_vector(&t.y(), n[1]) && is_near_vector(&t.z(), n[2])
}

// Whether this is the table of the place after a quarter turn about the axis.
fn turns(axis: Vec3, rows: [[i32; 3]; 3]) -> bool {
    let Ok(joint) = Revolute::new(world(), axis) else {
        return false;
    };
    let place = AnyJoint::Revolute(joint).place(&[quarter()]);
    matches!(place, Ok(found) if is_near_table(&found.e, rows))
}

// A body whose x axis has turned to the parent's y sees the parent's x as minus its own y.
#[test]
fn quarter_turns_about_each_axis(rt: HostRuntime) {
    assert!(rt;
        turns(vector(1, 0, 0), [[1, 0, 0], [0, 0, 1], [0, -1, 0]])
            && turns(vector(0, 1, 0), [[0, 0, -1], [0, 1, 0], [1, 0, 0]])
            && turns(vector(0, 0, 1), [[0, 1, 0], [-1, 0, 0], [0, 0, 1]])
    );
}

// So many parts of ten thousand.
fn parts(n: i32) -> Iv {
    let end = i128::from(n) * (S / 10_000);
    Iv::new(end, end)
}

fn level_vector(x: i32, y: i32) -> Vec3 {
    Vec3::new(parts(x), parts(y), Iv::ZERO)
}

// Whether this is the table of these rows.
fn has_rows(table: &Mat3, x: Vec3, y: Vec3, z: Vec3) -> bool {
    table.x() == x && table.y() == y && table.z() == z
}

// The vector part along z is 3/5 and the scalar part 4/5, which are the sine and the cosine of half the angle: the sine of the angle is
// 2 * 3/5 * 4/5 = 24/25, and its cosine 16/25 - 9/25 = 7/25.
#[test]
fn turn_of_a_quaternion(rt: HostRuntime) {
    let q = Quaternion {
        x: Iv::ZERO,
        y: Iv::ZERO,
        z: parts(6000),
        w: parts(8000),
    };
    let (x, y) = (level_vector(2800, -9600), level_vector(9600, 2800));
    assert!(rt; matches!(turn_of(&q), Ok(turn) if has_rows(&turn, x, y, vector(0, 0, 1))));
}

// Roll comes first and yaw last: z goes to minus y, and on to x.
#[test]
fn frame_of_roll_and_yaw(rt: HostRuntime) {
    let angles = Vec3::new(quarter(), Iv::ZERO, quarter());
    let frame = frame_of(&vector(1, 2, 3), &angles);
    assert!(rt; matches!(frame, Ok(f) if is_near_table(&f.rot, [[0, 0, 1], [1, 0, 0], [0, 1, 0]])));
}

// The x axis of this frame is y outside, and its y axis minus x.
fn turned_frame() -> Frame {
    Frame {
        rot: Mat3::new(vector(0, -1, 0), vector(1, 0, 0), vector(0, 0, 1)),
        at: vector(1, 2, 3),
    }
}

// Whether the joint has so many entries and columns.
fn has_counts(joint: &AnyJoint, entries: usize, columns: usize) -> bool {
    joint.nq() == entries && joint.nv() == columns
}

// Whether the place is there.
fn is_at(place: Result<Place, JointFault>, at: Vec3) -> bool {
    matches!(place, Ok(found) if found.r == at)
}

#[test]
fn shift_along_an_axis(rt: HostRuntime) {
    let model = Prismatic::new(turned_frame(), vector(1, 0, 0));
    let slider = AnyJoint::Prismatic(model);
    let along = motion(vector(1, 0, 0), vector(0, 0, 0));
    assert!(rt;
        has_counts(&slider, 1, 1)
            && is_at(slider.place(&[whole(2)]), vector(1, 4, 3))
            && slider.column(0) == along
    );
}

#[test]
fn no_motion_of_a_fixed_joint(rt: HostRuntime) {
    let still = AnyJoint::Fixed(Fixed::new(turned_frame()));
    assert!(rt; has_counts(&still, 0, 0) && is_at(still.place(&[]), vector(1, 2, 3)));
}

// A turn with the cosine 3/5 and the sine 4/5 about x, in a frame whose x axis is y outside.
fn turned_place() -> Option<Place> {
    let Ok(joint) = Continuous::new(turned_frame(), vector(1, 0, 0)) else {
        return None;
    };
    joint.place(&[parts(6000), parts(8000)]).ok()
}

#[test]
fn turn_in_a_turned_frame(rt: HostRuntime) {
    let y = Vec3::new(parts(-6000), Iv::ZERO, parts(8000));
    let z = Vec3::new(parts(8000), Iv::ZERO, parts(6000));
    assert!(rt;
        matches!(turned_place(), Some(p) if p.r == vector(1, 2, 3) && has_rows(&p.e, vector(0, 1, 0), y, z))
    );
}

fn motion(lin: Vec3, ang: Vec3) -> Motion {
    Motion { lin, ang }
}

// Whether a call gives this motion.
fn is_motion(found: Result<Motion, NumFault>, lin: Vec3, ang: Vec3) -> bool {
    matches!(found, Ok(m) if m.lin == lin && m.ang == ang)
}

// Whether a call gives the power 3.
fn is_three(found: Result<Iv, NumFault>) -> bool {
    matches!(found, Ok(power) if power == whole(3))
}

// An axis of length one between x and z.
fn oblique() -> Vec3 {
    Vec3::new(parts(6000), Iv::ZERO, parts(8000))
}

// Whether a turn by 10 about the oblique axis has its motion, and the force its power.
fn moves_obliquely(force: &Force) -> bool {
    let Ok(model) = Revolute::new(world(), oblique()) else {
        return false;
    };
    let joint = AnyJoint::Revolute(model);
    let turned = joint.motion(&[whole(10)]);
    is_motion(turned, vector(0, 0, 0), vector(6, 0, 8)) && is_three(joint.power(0, force))
}

// The same of a shift and a turn in the plane.
fn moves_on_the_plane(force: &Force) -> bool {
    let joint = AnyJoint::Planar(Planar::new(world()));
    let moved = joint.motion(&[whole(1), whole(2), whole(3)]);
    is_motion(moved, vector(1, 2, 0), vector(0, 0, 3)) && is_three(joint.power(2, force))
}

#[test]
fn motions_and_powers(rt: HostRuntime) {
    let force = Force {
        lin: vector(7, 8, 9),
        ang: vector(1, 2, 3),
    };
    assert!(rt; moves_obliquely(&force) && moves_on_the_plane(&force));
}

// The linear part is (1, 2, 3), and the angular part (4, 5, 6).
fn some_motion() -> Motion {
    motion(vector(1, 2, 3), vector(4, 5, 6))
}

// Whether the turning by a hinge about the axis is this, at the rate 2, and that by a slider along it the first part of it.
fn turns_motions(axis: Vec3, lin: Vec3, ang: Vec3) -> bool {
    let Ok(model) = Revolute::new(world(), axis) else {
        return false;
    };
    let by_hinge = AnyJoint::Revolute(model).turning(&some_motion(), &[whole(2)]);
    let slider = AnyJoint::Prismatic(Prismatic::new(world(), axis));
    let by_slider = slider.turning(&some_motion(), &[whole(2)]);
    is_motion(by_hinge, lin, ang) && is_motion(by_slider, ang, vector(0, 0, 0))
}

// Worked out by hand.
#[test]
fn turnings(rt: HostRuntime) {
    assert!(rt;
        turns_motions(vector(1, 0, 0), vector(0, 6, -4), vector(0, 12, -10))
            && turns_motions(vector(0, -1, 0), vector(6, 0, -2), vector(12, 0, -8))
            && turns_motions(vector(0, 0, 1), vector(4, -2, 0), vector(10, -8, 0))
    );
}

// The turning by a wheel about the oblique axis, at the rate 10.
fn turned_obliquely() -> Result<Motion, NumFault> {
    let model = Continuous::new(world(), oblique())?;
    AnyJoint::Continuous(model).turning(&some_motion(), &[whole(10)])
}

#[test]
fn turning_about_an_oblique_axis(rt: HostRuntime) {
    assert!(rt; is_motion(turned_obliquely(), vector(16, 10, -12), vector(40, 4, -30)));
}

// Whether this is the place.
fn is_place(found: Result<Place, JointFault>, want: Place) -> bool {
    matches!(found, Ok(place) if place == want)
}

// A shift along x and y of the frame, and a quarter turn on that of the frame.
#[test]
fn planar_shift_and_turn(rt: HostRuntime) {
    let joint = AnyJoint::Planar(Planar::new(turned_frame()));
    let want = Place {
        e: Mat3::new(vector(-1, 0, 0), vector(0, -1, 0), vector(0, 0, 1)),
        r: vector(-4, 6, 3),
    };
    let place = joint.place(&[whole(4), whole(5), Iv::ZERO, Iv::ONE]);
    assert!(rt; has_counts(&joint, 4, 3) && is_place(place, want));
}

// A half turn about x, in the frame.
#[test]
fn free_shift_and_half_turn(rt: HostRuntime) {
    let joint = AnyJoint::Free(Free::new(turned_frame()));
    let zero = Iv::ZERO;
    let place = joint.place(&[whole(4), whole(5), whole(6), Iv::ONE, zero, zero, zero]);
    let want = Place {
        e: Mat3::new(vector(0, 1, 0), vector(1, 0, 0), vector(0, 0, -1)),
        r: vector(-4, 6, 9),
    };
    let last = motion(vector(0, 0, 0), vector(0, 0, 1));
    assert!(rt; has_counts(&joint, 7, 6) && is_place(place, want) && joint.column(5) == last);
}

// Whether a wheel about z has no place with this cosine and this sine.
fn is_no_unit(cosine: Iv, sine: Iv) -> bool {
    let Ok(wheel) = Continuous::new(world(), vector(0, 0, 1)) else {
        return false;
    };
    matches!(wheel.place(&[cosine, sine]), Err(JointFault::NotUnit))
}

// The square of the length decides: 0.999 squared is 0.998, and 1.001 squared 1.002. The cosine is 3/5 of it, and the sine 4/5.
#[test]
fn lengths_of_pairs(rt: HostRuntime) {
    assert!(rt; is_no_unit(parts(5_994), parts(7_992)) && is_no_unit(parts(6_006), parts(8_008)));
}

// Whether an angle is past its limit in a frame, and of a hinge.
fn is_past(angle: Iv) -> bool {
    let frame = frame_of(&vector(0, 0, 0), &Vec3::new(Iv::ZERO, angle, Iv::ZERO));
    let Ok(hinge) = Revolute::new(world(), vector(0, 0, 1)) else {
        return false;
    };
    matches!(frame, Err(JointFault::Range))
        && matches!(hinge.place(&[angle]), Err(JointFault::Range))
}

// Whether a number is too large for a cosine, a shift and a part of an axis.
fn is_far(number: Iv) -> bool {
    let zero = Iv::ZERO;
    let level = Planar::new(world()).place(&[zero, zero, number, zero]);
    let slider = Prismatic::new(world(), vector(1, 0, 0));
    let hinge = Revolute::new(world(), Vec3::new(number, zero, zero));
    matches!(level, Err(JointFault::Size))
        && matches!(slider.place(&[number]), Err(JointFault::Size))
        && matches!(hinge, Err(NumFault::Size))
}

#[test]
fn refusals(rt: HostRuntime) {
    let free = Free::new(world()).place(&[Iv::ZERO; 7]);
    assert!(rt;
        is_past(Iv::new(0, 8 * S + 1))
            && is_far(Iv::new(1 << 100, 1 << 100))
            && matches!(free, Err(JointFault::NotUnit))
    );
}
