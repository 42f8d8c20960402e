//! The brackets of number texts, and how intervals are printed.
use rb_num::Iv;
use rb_text::{Out, TextFault, read_bracket, read_three};
use std::alloc::Global;

const ONE: i128 = 1_000_000_000_000;

const MOST: i128 = ONE * ONE;

// Whether a text has these ends.
fn has_ends(text: &[u8], low: i128, high: i128) -> bool {
    matches!(read_bracket(text), Ok(found) if found.lo() == low && found.hi() == high)
}

fn is_refused(text: &[u8], fault: TextFault) -> bool {
    matches!(read_bracket(text), Err(found) if found == fault)
}

// A text, and both ends of its interval.
const EXACT: [(&[u8], i128); 12] = [
    (b"1.5", 1_500_000_000_000),
    (b" 15e-1 ", 1_500_000_000_000),
    (b"-.5", -500_000_000_000),
    (b"0e999", 0),
    (b"1e+3", 1000 * ONE),
    (b"0e9999999999999999999999999999999999999999", 0),
    (b"1e0000000000000000000000000000000000000003", 1000 * ONE),
    (b"0.0000000000001e1", 1),
    (b"0001000000000000", MOST),
    (b"-1e12", -MOST),
    (b"0.0000000000001e25", MOST),
    (b"-1E0..-.1e1", -ONE),
];

#[test]
fn exact_numbers_have_equal_ends(rt: HostRuntime) {
    for (text, end) in EXACT.iter() {
        assert!(rt; has_ends(text, *end, *end), "at {text:?}");
    }
}

// A text, and the ends of its interval.
const OTHERS: [(&[u8], i128, i128); 9] = [
    (b"1e-13", 0, 1),
    (b"-1e-13", -1, 0),
    (b"-1e-9999999999999999999999999999999999999999", -1, 0),
    (b"12.5e-13", 1, 2),
    (b"-123456e-15", -124, -123),
    (b"999999999999.9999999999999", MOST - 1, MOST),
    (b"\t -1..+1", -ONE, ONE),
    (b"-2..-1e-13", -2 * ONE, 0),
    (b"-1e12..1e12", -MOST, MOST),
];

#[test]
fn other_numbers_have_the_least_interval(rt: HostRuntime) {
    for (text, low, high) in OTHERS.iter() {
        assert!(rt; has_ends(text, *low, *high), "at {text:?}");
    }
}

// Texts that are no numbers.
const NOT_NUMBERS: [&[u8]; 17] = [
    b"", b"1 2", b"nan", b"0x1", b".", b"1.2.3", b"1,5", b"1e", b"1e1.5", b"1 e5", b"1\n", b"\xff",
    b"1..", b"..1", b"1..2..3", b"1 .. 2", b"2..1\n",
];

#[test]
fn other_texts_are_not_numbers(rt: HostRuntime) {
    for text in NOT_NUMBERS.iter() {
        assert!(rt; is_refused(text, TextFault::NotNumber), "at {text:?}");
    }
}

// Texts of numbers that are too large.
const LARGE: [&[u8]; 6] = [
    b"1000000000000.0000000000001",
    b"-1000000000000.0000000000000000001",
    b"10000000000000000000000001e-13",
    b"-.1e9999999999999999999999999999999999999999",
    b"1..1e13",
    b"1e13..-1e13",
];

#[test]
fn large_numbers_are_refused(rt: HostRuntime) {
    for text in LARGE.iter() {
        assert!(rt; is_refused(text, TextFault::TooLarge), "at {text:?}");
    }
}

// Texts of ranges whose end is below their beginning.
const FALLING: [&[u8]; 3] = [b"1...2", b"2..1", b"0.0000000000015..0.000000000001"];

#[test]
fn ranges_that_fall_are_refused(rt: HostRuntime) {
    for text in FALLING.iter() {
        assert!(rt; is_refused(text, TextFault::Backwards), "at {text:?}");
    }
}

#[test]
fn three_numbers_are_read(rt: HostRuntime) {
    let three = read_three(b" 1\t-.5\r\n1e-13 ");
    let (one, half, least) = (
        Iv::new(ONE, ONE),
        Iv::new(-ONE / 2, -ONE / 2),
        Iv::new(0, 1),
    );
    assert!(rt; three == Ok([one, half, least]));
}

// Lists that are not three numbers, and their faults.
const LISTS: [(&[u8], TextFault); 5] = [
    (b"1 2", TextFault::NotNumber),
    (b"1 2 3 4", TextFault::NotNumber),
    (b"1 x 1e13", TextFault::NotNumber),
    (b"1 1e13 x", TextFault::TooLarge),
    (b"2..1 1 1", TextFault::Backwards),
];

#[test]
fn other_lists_are_refused(rt: HostRuntime) {
    for (text, fault) in LISTS.iter() {
        assert!(rt;
            matches!(read_three(text), Err(found) if found == *fault),
            "at {text:?}"
        );
    }
}

// Whether an interval that is put behind another, which was cleared, leaves this and so much room of 80 bytes.
fn is_put(alloc: Global, iv: Iv, text: &[u8], spare: usize) -> bool {
    let Ok(mut out) = Out::with_room(alloc, 80) else {
        return false;
    };
    let is_fresh = out.spare() == 80;
    out.put_iv(Iv::ZERO);
    out.clear();
    out.put_iv(iv);
    is_fresh && out.bytes() == text && out.spare() == spare
}

// Whether the longest text of all is put.
fn is_longest_put(alloc: Global) -> bool {
    let limit = 1_329_227_995_784_915_872_903_807_060_280_344_576;
    let text = b"-1329227995784915872903807.060280344576..1329227995784915872903807.060280344576";
    is_put(alloc, Iv::new(-limit, limit), text, 1)
}

#[test]
fn intervals_are_put(rt: HostRuntime) {
    let exact = Iv::new(22_620_000_000_000, 22_620_000_000_000);
    let below = Iv::new(-500_000_000_000, 1);
    let alloc = rt.alloc();
    assert!(rt;
        is_put(alloc, exact, b"22.620000000000..22.620000000000", 48)
            && is_put(alloc, below, b"-0.500000000000..0.000000000001", 49)
            && is_longest_put(alloc)
    );
}
