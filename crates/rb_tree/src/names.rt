ghost use Rattle.std.specs.Prelude.{◌≡◌, ◌↔◌, ◌++◌, IsTrue, List, ℕ, map};
ghost use Rattle.std.specs.List.{Any};
ghost use Rattle.rb_body.specs.Raw.{kind_of};
ghost use Rattle.rb_tree.specs.Names.{entry_suffixes as entry_suffixes_of, column_suffixes as column_suffixes_of, names_by, HaveCommon, ShareName};

use rb_urdf::{UrdfJoint, UrdfKind};

static ONE: [&str; 1] = [""];

static PAIR: [&str; 2] = [".cos", ".sin"];

static LEVEL: [&str; 4] = [".x", ".y", ".cos", ".sin"];

static LEVEL_COLUMNS: [&str; 3] = [".vx", ".vy", ".wz"];

static FREE: [&str; 7] = [".x", ".y", ".z", ".qx", ".qy", ".qz", ".qw"];

static FREE_COLUMNS: [&str; 6] = [".vx", ".vy", ".vz", ".wx", ".wy", ".wz"];

/// What comes behind the joint's name in the name of each entry of the position: nothing at joints of one entry, else a point and a suffix.
pub fn entry_suffixes(kind: UrdfKind) -> &'static [&'static str]
    ensures { map (λ s. s.now) result.now ≡ entry_suffixes_of (kind_of kind) }
{
    match kind {
        UrdfKind::Fixed => &[],
        UrdfKind::Revolute | UrdfKind::Prismatic => &ONE,
        UrdfKind::Continuous => &PAIR,
        UrdfKind::Planar => &LEVEL,
        UrdfKind::Floating => &FREE,
    }
}

/// What comes behind the joint's name in the name of each column: nothing at joints of one column, else a point and a suffix.
pub fn column_suffixes(kind: UrdfKind) -> &'static [&'static str]
    ensures { map (λ s. s.now) result.now ≡ column_suffixes_of (kind_of kind) }
{
    match kind {
        UrdfKind::Fixed => &[],
        UrdfKind::Revolute | UrdfKind::Prismatic | UrdfKind::Continuous => &ONE,
        UrdfKind::Planar => &LEVEL_COLUMNS,
        UrdfKind::Floating => &FREE_COLUMNS,
    }
}

/// Whether the text is the front with the end behind it.
fn is_joined(text: &[u8], front: &[u8], end: &[u8]) -> bool
    ensures { IsTrue result ↔ (front.now ++ end.now ≡ text.now) }
{
    match text.strip_prefix(front) {
        Some(rest) => rest == end,
        None => false,
    }
}

/// Whether two texts, one behind the other, are two others.
fn is_same(a: &[u8], x: &[u8], b: &[u8], y: &[u8]) -> bool
    ensures { IsTrue result ↔ (a.now ++ x.now ≡ b.now ++ y.now) }
{
    if let Some(rest) = a.strip_prefix(b) {
        return is_joined(y, rest, x);
    }
    match b.strip_prefix(a) {
        Some(rest) => is_joined(x, rest, y),
        None => false,
    }
}

/// Whether the name with this suffix is the other name with one of those.
fn is_among(name: &str, suffix: &str, other: &str, suffixes: &[&str]) -> bool
    ensures { IsTrue result ↔ Any (λ s. name.now ++ suffix.now ≡ other.now ++ s.now) suffixes.now }
{
    suffixes.iter().any(|s| {
        is_same(
            name.as_bytes(),
            suffix.as_bytes(),
            other.as_bytes(),
            s.as_bytes(),
        )
    })
}

/// Whether the name with one of the suffixes is the other name with one of the others.
fn have_common(name: &str, suffixes: &[&str], other: &str, others: &[&str]) -> bool
    ensures { IsTrue result ↔ Any (λ s. Any (λ t. name.now ++ s.now ≡ other.now ++ t.now) others.now) suffixes.now }
{
    suffixes.iter().any(|s| is_among(name, s, other, others))
}

/// Whether two joints have a name of entries in common, or of columns.
pub(crate) fn share_name(a: &UrdfJoint, b: &UrdfJoint) -> bool
    ensures { IsTrue result ↔ ShareName (kind_of a.now.kind) a.now.name (kind_of b.now.kind) b.now.name }
{
    let (name, other) = (a.name.as_str(), b.name.as_str());
    have_common(name, entry_suffixes(a.kind), other, entry_suffixes(b.kind))
        || have_common(
            name,
            column_suffixes(a.kind),
            other,
            column_suffixes(b.kind),
        )
}
