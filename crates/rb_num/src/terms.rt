/// How many terms the shorter of the two sums of a sine or a cosine has; the longer has one more.
pub const TERMS: u64 = 24;
