ghost use Rattle.std.specs.Prelude.{◌≡◌, ◌≤◌, ◌<◌, ◌-◌, ◌+◌, ◌/◌, ◌%◌, [], ◌++◌, length, IfOk};
ghost use Rattle.rb_num.specs.Interval.{IsWithin, grid};
ghost use Rattle.rb_num.specs.Text.{part_text, minus_text, end_text, iv_text};
ghost use Rattle.rb_text.specs.Print.{Says};

use crate::size::UNITS;
use itoa::Buffer;
use rb_num::Iv;
use std::alloc::{AllocError, Global};
use std::marker::Model;

// `UNITS`, in 64 bits.
const UNITS_SHORT: u64 = UNITS as u64;

// How many whole ones are in so many units, and how many units are left. Most numbers fit 64 bits, where
// this is quicker.
#[inline]
fn ones_and_units(size: u128) -> (u128, u64)
    ensures ones { result.0 ≡ size / grid }
    ensures units { result.1 ≡ size % grid }
{
    if size <= u64::MAX as u128 {
        let size = size as u64;
        (u128::from(size / UNITS_SHORT), size % UNITS_SHORT)
    } else {
        (size / UNITS, (size % UNITS) as u64)
    }
}

/// A byte buffer of fixed room: nothing that is put to it takes memory.
#[derive(Drop)]
pub struct Out {
    bytes: Vec<u8>,
    room: usize,
}

impl Model for Out {
    ghost use Rattle.std.specs.Prelude.{◌≤◌, ◌<◌, ◌-◌, length, vec_capacity};
    ghost use Rattle.rb_text.specs.Buffer.{Buffer};

    ghost Value = { Buffer };

    ghost view = { λ o. record { bytes = o.bytes.items; spare = o.room - length o.bytes.items } };

    ghost invariant = { λ o. (length o.bytes.items ≤ o.room) × (o.room ≤ vec_capacity o.bytes) };
}

impl Out {
    /// An empty buffer that `room` bytes fit into. Its one refusal is for want of memory.
    pub fn with_room(alloc: Global, room: usize) -> Result<Self, AllocError>
        ensures empty { IfOk result (λ out. out.bytes ≡ []) }
        ensures spare { IfOk result (λ out. out.spare ≡ room) }
    {
        Ok(Out {
            bytes: Vec::with_capacity(alloc, room)?,
            room,
        })
    }

    /// How many more bytes fit.
    pub fn spare(&self) -> usize
        ensures { result ≡ self.now.spare }
    {
        self.room - self.bytes.len()
    }

    /// The bytes that were put.
    pub fn bytes(&self) -> &[u8]
        ensures { result.now ≡ self.now.bytes }
    {
        self.bytes.as_slice()
    }

    /// Takes all bytes out.
    pub fn clear(&mut self)
        ensures bytes { self.new.bytes ≡ [] }
        ensures spare { self.new.spare ≡ self.old.spare + length self.old.bytes }
    {
        self.bytes.clear();
    }

    /// Puts bytes behind those that were put.
    pub fn put(&mut self, bytes: &[u8])
        requires { length bytes.now ≤ self.old.spare }
        ensures bytes { self.new.bytes ≡ self.old.bytes ++ bytes.now }
        ensures spare { self.new.spare + length bytes.now ≡ self.old.spare }
    {
        self.bytes.extend_from_slice(bytes).unwrap();
    }

    // Puts twelve digits.
    #[tactic(auto, unfolding(rb_num::specs::Text::part_text))]
    fn put_part(&mut self, units: u64)
        requires digits { units < grid }
        requires room { 12 ≤ self.old.spare }
        ensures bytes { self.new.bytes ≡ self.old.bytes ++ part_text units }
        ensures spare { self.new.spare + 12 ≡ self.old.spare }
    {
        let mut buffer = Buffer::new();
        let digits = buffer.format(units).as_bytes();
        let zeros = b"000000000000".as_slice();
        self.put(&zeros[digits.len()..]);
        self.put(digits);
    }

    // Puts a minus where the number is negative.
    fn put_sign(&mut self, number: i128)
        requires { 1 ≤ self.old.spare }
        ensures bytes { self.new.bytes ≡ self.old.bytes ++ minus_text number }
        ensures spare { self.new.spare + length (minus_text number) ≡ self.old.spare }
        ensures short { length (minus_text number) ≤ 1 }
    {
        if number < 0 {
            self.put(b"-");
        }
    }

    // Puts an end: a minus where it is negative, the whole part, a point and twelve digits.
    #[tactic(auto, unfolding(rb_num::specs::Text::end_text))]
    fn put_end(&mut self, end: i128)
        requires within { IsWithin end }
        requires room { 39 ≤ self.old.spare }
        ensures bytes { self.new.bytes ≡ self.old.bytes ++ end_text end }
        ensures spare { self.new.spare + length (end_text end) ≡ self.old.spare }
        ensures short { length (end_text end) ≤ 39 }
        ensures says { Says (end_text end) end }
    {
        self.put_sign(end);
        let (ones, units) = ones_and_units(end.unsigned_abs());
        let mut buffer = Buffer::new();
        self.put(buffer.format(ones).as_bytes());
        self.put(b".");
        self.put_part(units);
    }

    /// Puts an interval: its lower end, two points, its upper end.
    #[tactic(auto, unfolding(rb_num::specs::Text::iv_text))]
    pub fn put_iv(&mut self, iv: Iv)
        requires { 80 ≤ self.old.spare }
        ensures bytes { self.new.bytes ≡ self.old.bytes ++ iv_text iv }
        ensures spare { self.new.spare + length (iv_text iv) ≡ self.old.spare }
        ensures short { length (iv_text iv) ≤ 80 }
        ensures lower_says { Says (end_text iv.lo) iv.lo }
        ensures upper_says { Says (end_text iv.hi) iv.hi }
    {
        self.put_end(iv.lo());
        self.put(b"..");
        self.put_end(iv.hi());
    }
}
