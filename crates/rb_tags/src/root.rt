/// How the outermost link of a robot is borne by the world: not at all free, free in a plane, or free.
#[derive(Clone, Copy, Debug, PartialEq, Eq)]
pub enum RootKind {
    Fixed,
    Planar,
    Floating,
}
