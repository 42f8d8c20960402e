use rb_num::{Iv, NumFault};
use rb_spatial::{
    BodyInertia, Force, Inertia6, Mat3, Motion, Place, Vec3, apply, apply_dual, carry, cross,
    cross_dual, less_outer, power, sum, table, times, times_body,
};

// The whole number `n`.
fn whole(n: i32) -> Iv {
    let end = i128::from(n) * 1_000_000_000_000;
    Iv::new(end, end)
}

fn vector(x: i32, y: i32, z: i32) -> Vec3 {
    Vec3::new(whole(x), whole(y), whole(z))
}

fn motion(lin: (i32, i32, i32), ang: (i32, i32, i32)) -> Motion {
    Motion {
        lin: vector(lin.0, lin.1, lin.2),
        ang: vector(ang.0, ang.1, ang.2),
    }
}

fn force(lin: (i32, i32, i32), ang: (i32, i32, i32)) -> Force {
    Force {
        lin: vector(lin.0, lin.1, lin.2),
        ang: vector(ang.0, ang.1, ang.2),
    }
}

// The body's axes are the parent's, turned by a quarter about x; its origin is (1, 2, 3).
fn quarter_about_x() -> Place {
    Place {
        e: Mat3::new(vector(1, 0, 0), vector(0, 0, 1), vector(0, -1, 0)),
        r: vector(1, 2, 3),
    }
}

// The same about y.
fn quarter_about_y() -> Place {
    Place {
        e: Mat3::new(vector(0, 0, -1), vector(0, 1, 0), vector(1, 0, 0)),
        r: vector(1, 2, 3),
    }
}

// The same about z.
fn quarter_about_z() -> Place {
    Place {
        e: Mat3::new(vector(0, 1, 0), vector(-1, 0, 0), vector(0, 0, 1)),
        r: vector(1, 2, 3),
    }
}

fn body(mass: i32, first: (i32, i32, i32), six: [i32; 6]) -> BodyInertia {
    BodyInertia::new(
        whole(mass),
        vector(first.0, first.1, first.2),
        [
            whole(six[0]),
            whole(six[1]),
            whole(six[2]),
            whole(six[3]),
            whole(six[4]),
            whole(six[5]),
        ],
    )
}

// Mass 2, first moment (1, 2, 3), and six numbers that are all different.
fn some_body() -> BodyInertia {
    body(2, (1, 2, 3), [10, 1, 2, 20, 3, 30])
}

// Whether the motion is this one at the place.
fn moves(place: Place, m: &Motion, want: Motion) -> bool {
    matches!(apply(&place, m), Ok(found) if found == want)
}

#[test]
fn motions_turn(rt: HostRuntime) {
    let m = motion((4, 5, 6), (7, 8, 9));
    // lin + ang x r is (10, -7, 12).
    assert!(rt;
        moves(quarter_about_x(), &m, motion((10, 12, 7), (7, 9, -8)))
            && moves(quarter_about_y(), &m, motion((-12, -7, 10), (-9, 8, 7)))
            && moves(quarter_about_z(), &m, motion((-7, -10, 12), (8, -7, 9)))
    );
}

// Whether the force at the place is this one outside.
fn pushes(place: Place, f: &Force, want: Force) -> bool {
    matches!(apply_dual(&place, f), Ok(found) if found == want)
}

#[test]
fn forces_turn(rt: HostRuntime) {
    let f = force((1, 2, 3), (4, 5, 6));
    // The force turns back to (1, -3, 2), (3, 2, -1) and (-2, 1, 3).
    assert!(rt;
        pushes(quarter_about_x(), &f, force((1, -3, 2), (17, -5, 0)))
            && pushes(quarter_about_y(), &f, force((3, 2, -1), (-2, 15, -8)))
            && pushes(quarter_about_z(), &f, force((-2, 1, 3), (-2, -5, 11)))
    );
}

// Whether a product, or a sum, of forces is this one.
fn is_force(found: Result<Force, NumFault>, want: Force) -> bool {
    matches!(found, Ok(force) if force == want)
}

#[test]
fn products(rt: HostRuntime) {
    let a = motion((1, 2, 3), (4, 5, 6));
    let crossed = cross(&a, &motion((7, 8, 9), (-1, 0, 2)));
    let f = force((7, 8, 9), (-1, 0, 2));
    assert!(rt;
        matches!(crossed, Ok(m) if m == motion((1, 1, -1), (10, -14, 5)))
            && is_force(cross_dual(&a, &f), force((-3, 6, -3), (4, -2, -1)))
            && matches!(power(&a, &f), Ok(found) if found == whole(58))
    );
}

#[test]
fn entries_of_an_inertia(rt: HostRuntime) {
    let i = table(&some_body());
    assert!(rt;
        i.get(0, 0) == whole(2)
            && i.get(4, 0) == whole(3)
            && i.get(2, 4) == whole(-1)
            && i.get(3, 5) == whole(2)
            && i.get(4, 4) == whole(20)
    );
}

// 2 u + w x h, and the six numbers times w, and h x u.
#[test]
fn momenta(rt: HostRuntime) {
    let m = motion((3, 2, 1), (4, 5, 6));
    let want = force((9, -2, 5), (53, 130, 199));
    assert!(rt;
        is_force(times(&table(&some_body()), &m), want)
            && is_force(times_body(&some_body(), &m), want)
    );
}

#[test]
fn sums_of_inertias(rt: HostRuntime) {
    let i = table(&some_body());
    let twice = table(&body(4, (2, 4, 6), [20, 2, 4, 40, 6, 60]));
    assert!(rt; matches!(sum(&i, &i), Ok(found) if found == twice));
}

#[test]
fn an_inertia_less_a_product(rt: HostRuntime) {
    let i = table(&some_body());
    let u = force((1, 2, 3), (4, 5, 6));
    let less = less_outer(&i, &u, &force((1, 1, 1), (2, 2, 2)));
    assert!(rt;
        matches!(less, Ok(found) if found.get(0, 1) == whole(-1) && found.get(3, 1) == whole(-7) && found.get(5, 5) == whole(18))
    );
}

// Whether the inertia is that of this body, seen from outside the place.
fn carries(place: Place, i: &Inertia6, want: BodyInertia) -> bool {
    matches!(carry(&place, i), Ok(found) if found == table(&want))
}

// Mass 2 at (1, 0, 0) with the principal inertias 1, 2 and 3 about the centre. In the parent the
// centre is at r and the turned (1, 0, 0), and the parallel axes give the six numbers there.
#[test]
fn carried_body(rt: HostRuntime) {
    let i = table(&body(2, (2, 0, 0), [1, 0, 0, 4, 0, 5]));
    let from_x = body(2, (4, 4, 6), [27, -8, -12, 29, -12, 18]);
    let from_y = body(2, (2, 4, 4), [19, -4, -4, 12, -8, 11]);
    let from_z = body(2, (2, 6, 6), [38, -6, -6, 21, -18, 23]);
    assert!(rt;
        carries(quarter_about_x(), &i, from_x)
            && carries(quarter_about_y(), &i, from_y)
            && carries(quarter_about_z(), &i, from_z)
    );
}

// A product of the smallest numbers lies strictly between two of the grid.
#[test]
fn brackets(rt: HostRuntime) {
    let least = Iv::new(1, 1);
    let zero = vector(0, 0, 0);
    let m = Motion {
        lin: Vec3::new(least, Iv::ZERO, Iv::ZERO),
        ang: zero,
    };
    let f = Force {
        lin: Vec3::new(least.neg(), Iv::ZERO, Iv::ZERO),
        ang: zero,
    };
    assert!(rt; matches!(power(&m, &f), Ok(found) if found == Iv::new(-1, 0)));
}

// The first step of each call has a product, or a sum, above the limit.
fn refuses_motions(place: &Place, m: &Motion, f: &Force) -> bool {
    matches!(apply(place, m), Err(NumFault::Size))
        && matches!(apply_dual(place, f), Err(NumFault::Size))
        && matches!(cross(m, m), Err(NumFault::Size))
        && matches!(cross_dual(m, f), Err(NumFault::Size))
        && matches!(power(m, f), Err(NumFault::Size))
}

// The same of calls that take an inertia.
fn refuses_body(place: &Place, m: &Motion, f: &Force, body: &BodyInertia) -> bool {
    let heavy = table(body);
    matches!(times(&heavy, m), Err(NumFault::Size))
        && matches!(times_body(body, m), Err(NumFault::Size))
        && matches!(carry(place, &heavy), Err(NumFault::Size))
        && matches!(sum(&heavy, &table(&some_body())), Err(NumFault::Size))
        && matches!(less_outer(&heavy, f, f), Err(NumFault::Size))
}

#[test]
fn refusals(rt: HostRuntime) {
    let limit = Iv::new(
        1_329_227_995_784_915_872_903_807_060_280_344_576,
        1_329_227_995_784_915_872_903_807_060_280_344_576,
    );
    let place = quarter_about_x();
    let far = Vec3::new(limit, limit, limit);
    let m = Motion { lin: far, ang: far };
    let f = Force { lin: far, ang: far };
    let heavy = BodyInertia {
        mass: limit,
        ..some_body()
    };
    assert!(rt; refuses_motions(&place, &m, &f) && refuses_body(&place, &m, &f, &heavy));
}
