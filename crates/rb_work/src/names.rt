ghost use Rattle.std.specs.Prelude.{◌≡◌, ◌≤◌, length};
ghost use Rattle.rb_work.specs.Names.{word_of, one, two, named_as, pivot_as};

use rb_num::{Iv, NumFault};
use std::fmt;

/// The kinds of named values, as they are written. Featherstone, Rigid Body Dynamics Algorithms, chapters 5 to 9 and 11.
#[derive(Clone, Copy, Debug, PartialEq, Eq)]
pub enum NameKind {
    /// The configuration numbers of a joint.
    q,
    /// The place of a body in its parent.
    X,
    /// The speeds of a joint.
    s,
    /// The velocity of a body.
    v,
    /// The acceleration of a body by its velocity.
    c,
    /// The acceleration of a body.
    a,
    /// The force that moves a body.
    b,
    /// The force across a joint.
    f,
    /// The forces along the columns of a joint.
    t,
    /// The torque of a column.
    T,
    /// The inertia of a body and of all that it bears.
    I,
    /// An entry of two full columns.
    H,
    /// An entry of the mass table.
    M,
    /// A pivot.
    D,
    /// A factor of the mass table.
    L,
    /// The right side, and what the first step leaves of it.
    w,
    /// The quotients of the first step.
    z,
    /// A solution: accelerations.
    x,
    /// The inertia of an articulated body.
    IA,
    /// The force that holds an articulated body without acceleration.
    p,
    /// The force that a column moves its body by.
    U,
    /// The torque of a column that is left.
    u,
    /// The inertia of an articulated body as its parent feels it.
    Ia,
    /// Its force as its parent feels it.
    pa,
    /// The orientation of a body.
    O,
    /// The forces of a row on its two bodies.
    K,
    /// An entry of the row table.
    J,
    /// The acceleration of a row without forces.
    g,
    /// The first step on a row.
    Y,
    /// The quotients of that.
    Z,
    /// An entry of two rows.
    G,
    /// A pivot of two rows.
    C,
    /// A factor of two rows.
    l,
    /// The right side of the rows.
    e,
    /// The force of a row.
    lam,
    /// The torque of a column less its bias.
    k,
    /// The speed of a column afterwards.
    y,
}

impl NameKind {
    /// The kind as it is printed.
    pub fn word(self) -> &'static str
        ensures word { result.now ≡ word_of self }
        ensures short { length result.now ≤ 3 }
    {
        match self {
            NameKind::q => "q",
            NameKind::X => "X",
            NameKind::s => "s",
            NameKind::v => "v",
            NameKind::c => "c",
            NameKind::a => "a",
            NameKind::b => "b",
            NameKind::f => "f",
            NameKind::t => "t",
            NameKind::T => "T",
            NameKind::I => "I",
            NameKind::H => "H",
            NameKind::M => "M",
            NameKind::D => "D",
            NameKind::L => "L",
            NameKind::w => "w",
            NameKind::z => "z",
            NameKind::x => "x",
            NameKind::IA => "IA",
            NameKind::p => "p",
            NameKind::U => "U",
            NameKind::u => "u",
            NameKind::Ia => "Ia",
            NameKind::pa => "pa",
            NameKind::O => "O",
            NameKind::K => "K",
            NameKind::J => "J",
            NameKind::g => "g",
            NameKind::Y => "Y",
            NameKind::Z => "Z",
            NameKind::G => "G",
            NameKind::C => "C",
            NameKind::l => "l",
            NameKind::e => "e",
            NameKind::lam => "lam",
            NameKind::k => "k",
            NameKind::y => "y",
        }
    }
}

/// The name of a value: its kind and its numbers, of which the second is 0 where there is one number.
#[derive(Clone, Copy, Debug, PartialEq, Eq)]
pub struct Name {
    pub kind: NameKind,
    pub i: u32,
    pub j: u32,
}

impl Name {
    /// The name of one number.
    pub fn one(kind: NameKind, i: u32) -> Name
        ensures { result ≡ one kind i }
    {
        Name { kind, i, j: 0 }
    }

    /// The name of two numbers.
    pub fn two(kind: NameKind, i: u32, j: u32) -> Name
        ensures { result ≡ two kind i j }
    {
        Name { kind, i, j }
    }
}

/// As `b[2]` or `L[3.1]`.
impl fmt::Display for Name {
    ghost use Rattle.std.specs.Prelude.{Some};
    ghost use Rattle.rb_work.specs.Names.{text_of};

    ghost output = { λ name. Some (text_of name) };

    fn fmt<W: fmt::Write>(&self, f: &mut fmt::Formatter<W>) -> fmt::Result {
        if self.j == 0 {
            write!(f, "{}[{}]", self.kind.word(), self.i)
        } else {
            write!(f, "{}[{}.{}]", self.kind.word(), self.i, self.j)
        }
    }
}

/// Why the values of a row are refused: the first name whose rule refuses.
#[derive(Clone, Copy, Debug, PartialEq, Eq)]
pub enum RowFault {
    /// A number on the way is too large.
    Size { name: Name },
    /// An angle is too large.
    Range { name: Name },
    /// A quaternion, or a cosine with its sine, is not of length one.
    NotUnit { name: Name },
    /// Zero lies in what would be divided by.
    Pivot { name: Name, iv: Iv },
}

/// A step whose refusal bears this name.
#[inline]
pub fn named<T>(step: Result<T, NumFault>, name: Name) -> Result<T, RowFault>
    ensures { result ≡ named_as name step }
{
    match step {
        Ok(value) => Ok(value),
        Err(_) => Err(RowFault::Size { name }),
    }
}

/// A value by which is divided: refused under this name where zero lies in it.
#[inline]
pub fn pivot(iv: Iv, name: Name) -> Result<Iv, RowFault>
    ensures { result ≡ pivot_as name iv }
{
    if iv.has_zero() {
        Err(RowFault::Pivot { name, iv })
    } else {
        Ok(iv)
    }
}
