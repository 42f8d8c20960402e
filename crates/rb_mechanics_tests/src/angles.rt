//! Sines, cosines and factors of axes in closed form, and what is refused.
use rb_num::{Iv, S};
use rb_trig::{ANGLE_LIMIT, AngleRange, AxisFault, sin_cos, unit_scale};

// Whether an angle has this sine and this cosine.
fn has_sine(angle: Iv, sine: Iv, cosine: Iv) -> bool {
    matches!(sin_cos(angle), Ok((s, c)) if s == sine && c == cosine)
}

// The expected ends are those of the sine and the cosine to twelve places, rounded outwards.
#[test]
fn known_angles(rt: HostRuntime) {
    let half = Iv::new(500_000_000_000, 500_000_000_000);
    let sine = Iv::new(479_425_538_604, 479_425_538_605);
    let cosine = Iv::new(877_582_561_890, 877_582_561_891);
    let wide = sin_cos(Iv::new(100_000_000_000, 200_000_000_000));
    let all = Iv::new(-S, S);
    assert!(rt;
        has_sine(half, sine, cosine)
            && has_sine(Iv::ZERO, Iv::ZERO, Iv::ONE)
            && has_sine(Iv::new(-ANGLE_LIMIT, ANGLE_LIMIT), all, all)
            && matches!(wide, Ok((s, _)) if s == Iv::new(99_333_666_349, 199_667_333_175))
    );
}

#[test]
fn angles_out_of_range(rt: HostRuntime) {
    let above = sin_cos(Iv::new(0, 8_000_000_000_001));
    let below = sin_cos(Iv::new(-8_000_000_000_001, 0));
    assert!(rt; matches!(above, Err(AngleRange)) && matches!(below, Err(AngleRange)));
}

// Whether an axis in the first two directions has this factor.
fn has_scale(x: Iv, y: Iv, scale: Iv) -> bool {
    matches!(unit_scale(x, y, Iv::ZERO), Ok(found) if found == scale)
}

#[test]
fn known_axes(rt: HostRuntime) {
    let (three, four) = (Iv::new(3 * S, 3 * S), Iv::new(4 * S, 4 * S));
    let fifth = Iv::new(200_000_000_000, 200_000_000_000);
    let root = Iv::new(707_106_781_186, 707_106_781_187);
    assert!(rt; has_scale(three, four, fifth) && has_scale(Iv::ONE, Iv::ONE, root));
}

// From -2 to 1, the square is at most 4.
#[test]
fn an_axis_across_zero(rt: HostRuntime) {
    let across = Iv::new(-2 * S, S);
    assert!(rt; has_scale(across, Iv::ONE, Iv::new(447_213_595_499, S)));
}

#[test]
fn refused_axes(rt: HostRuntime) {
    let zero = unit_scale(Iv::new(-1, 1), Iv::ZERO, Iv::ZERO);
    let size = unit_scale(Iv::ZERO, Iv::new(0, 1_152_921_504_606_846_977), Iv::ZERO);
    assert!(rt; matches!(zero, Err(AxisFault::ZeroAxis)) && matches!(size, Err(AxisFault::Size)));
}
