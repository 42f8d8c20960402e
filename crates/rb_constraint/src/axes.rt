//! The axes that a constraint holds.
ghost use Rattle.std.specs.Prelude.{◌≡◌, ◌<◌, ◌∷◌, []};
ghost use Rattle.rb_constraint.specs.Axes.{letter_of, axis_of, is_turn};
ghost use Rattle.rb_constraint.specs.Read.{begins, behind, axes_of};

/// What a row holds between two bodies: points along an axis of the world, or turns about it.
#[derive(Clone, Copy, Debug, PartialEq, Eq)]
pub enum Direction {
    AlongX,
    AlongY,
    AlongZ,
    AboutX,
    AboutY,
    AboutZ,
}

impl Direction {
    /// Its letter: `x`, `y`, `z` along the axes and `a`, `b`, `c` about them.
    pub fn letter(self) -> &'static str
        ensures { result.now ≡ letter_of self ∷ [] }
    {
        match self {
            Direction::AlongX => "x",
            Direction::AlongY => "y",
            Direction::AlongZ => "z",
            Direction::AboutX => "a",
            Direction::AboutY => "b",
            Direction::AboutZ => "c",
        }
    }

    /// The axis of the world, from 0.
    pub fn axis(self) -> usize
        ensures exact { result ≡ axis_of self }
        ensures within { result < 3 }
    {
        match self {
            Direction::AlongX | Direction::AboutX => 0,
            Direction::AlongY | Direction::AboutY => 1,
            Direction::AlongZ | Direction::AboutZ => 2,
        }
    }

    /// Whether it is about the axis.
    pub fn is_turn(self) -> bool
        ensures { result ≡ is_turn self }
    {
        match self {
            Direction::AlongX | Direction::AlongY | Direction::AlongZ => false,
            Direction::AboutX | Direction::AboutY | Direction::AboutZ => true,
        }
    }
}

/// A set of directions: `x`, `y` and `z` along the axes of the world, `a`, `b` and `c` about them.
#[derive(Clone, Copy, Debug, PartialEq, Eq)]
pub struct Axes {
    pub x: bool,
    pub y: bool,
    pub z: bool,
    pub a: bool,
    pub b: bool,
    pub c: bool,
}

/// Whether a text begins with a letter, and what is behind it where it does.
fn behind(text: &[u8], letter: u8) -> (bool, &[u8])
    ensures begins { result.0 ≡ begins letter text.now }
    ensures behind { result.1.now ≡ behind letter text.now }
{
    match text {
        [first, rest @ ..] if *first == letter => (true, rest),
        _ => (false, text),
    }
}

/// The axes of a text: one or more of the letters `xyzabc` in that order, each once.
#[tactic(auto, unfolding(crate::specs::Read::axes_of))]
pub(crate) fn read_axes(text: &[u8]) -> Option<Axes>
    ensures { result ≡ axes_of text.now }
{
    if text.is_empty() {
        return None;
    }
    let (x, rest) = behind(text, b'x');
    let (y, rest) = behind(rest, b'y');
    let (z, rest) = behind(rest, b'z');
    let (a, rest) = behind(rest, b'a');
    let (b, rest) = behind(rest, b'b');
    let (c, rest) = behind(rest, b'c');
    if rest.is_empty() {
        Some(Axes { x, y, z, a, b, c })
    } else {
        None
    }
}
