//! Sums of products, quotients and texts of intervals, with ends that were worked out elsewhere.

use rb_num::{B, Iv, NumFault, dot};
use std::test::Fail;

#[test]
fn common_parts(rt: HostRuntime) {
    let low = Iv::new(-5, 2);
    let common = low.meet(Iv::new(1, 7));
    assert!(rt;
        matches!(common, Some(found) if found == Iv::new(1, 2)) && !low.meets(Iv::new(3, 7))
    );
}

// Whether this is the product of two intervals.
fn has_product(a: Iv, b: Iv, product: Iv) -> bool {
    matches!(dot(&[(a, b)]), Ok(found) if found == product)
}

// Whether this is the sum of two products.
fn has_sum(first: (Iv, Iv), second: (Iv, Iv), sum: Iv) -> bool {
    matches!(dot(&[first, second]), Ok(found) if found == sum)
}

// Where the sums are near by one unit, and where they are not. The expected ends were worked out
// elsewhere.
#[test]
fn vectors_at_the_edge(rt: HostRuntime) {
    let far = Iv::new(1152921504606846975, 1152921504606846976);
    let near_one = Iv::new(999999999999, 1000000000000);
    let below = Iv::new(-1152921504606846976, -1152921504606846975);
    let one = Iv::new(1000000000000, 1000000000000);
    let least = (Iv::new(-1, 0), Iv::new(1, 1));
    assert!(rt;
        has_product(
            far,
            near_one,
            Iv::new(1152921504605694053, 1152921504606846976)
        ) && has_sum(
            (below, one),
            least,
            Iv::new(-1152921504606846977, -1152921504606846975)
        )
    );
}

// The expected ends were worked out elsewhere, with exact fractions.
#[test]
fn vectors(rt: HostRuntime) {
    let first = (
        Iv::new(193545308143008, 892293995717359),
        Iv::new(-85054318476447147, -28215458751196300),
    );
    let second = (
        Iv::new(-646799495075269, -162798718643978),
        Iv::new(-70607878600660632, 9745997543859624),
    );
    let wide = Iv::new(0, 1152921504606846976);
    let refused = dot(&[(wide, Iv::new(-1152921504606846977, 5))]);
    let product = Iv::new(-1329227995784915872903808, 5764608);
    assert!(rt;
        has_sum(
            first,
            second,
            Iv::new(-82197163976739035695, 40208170568846568282)
        ) && matches!(refused, Err(NumFault::Size))
            && has_product(wide, Iv::new(-1152921504606846976, 5), product)
    );
}

// Whether this is the quotient of two intervals.
fn has_quotient(a: Iv, by: Iv, quotient: Iv) -> bool {
    matches!(a.div(by), Ok(found) if found == quotient)
}

#[test]
fn quotients(rt: HostRuntime) {
    let across = Iv::new(-5, 7);
    let zero = Iv::new(1, 2).div(Iv::new(-1, 1));
    let size = Iv::new(0, 2417851639229258349412352).div(Iv::new(1, 1));
    let sevenths = Iv::new(428571428571, 428571428572);
    assert!(rt;
        has_quotient(
            across,
            Iv::new(2, 3),
            Iv::new(-2500000000000, 3500000000000)
        ) && has_quotient(
            across,
            Iv::new(-3, -2),
            Iv::new(-3500000000000, 2500000000000)
        ) && has_quotient(Iv::new(3, 3), Iv::new(7, 7), sevenths)
            && matches!(zero, Err(NumFault::Zero))
            && matches!(size, Err(NumFault::Size))
    );
}

// An end of one negative unit, and the limit, which has 25 digits before the point.
#[test]
fn printed_texts(rt: HostRuntime) -> Result<(), Fail> {
    let small = Iv::new(-1, 12_000_000_000_000).to_string(rt.alloc())?;
    let limit = Iv::new(-B, B).to_string(rt.alloc())?;
    assert!(rt;
        small.as_str() == "-0.000000000001..12.000000000000"
            && limit.as_str()
                == "-1329227995784915872903807.060280344576..1329227995784915872903807.060280344576"
    );
    Ok(())
}
