//! The articulated-body algorithm solves forward dynamics.

ghost use Rattle.rb_articulated.specs.Laws.{JointsBear, ForwardHasSolution, FoundIsSolution, HasArticulated, HasFound};

/// Where no joint follows another, the joint of a body bears in every solution of forward dynamics
/// what the articulated inertia of the body needs for its acceleration, and the bias: the body and all
/// that it bears answer like one body. Where no pivot is zero there is exactly one solution, and its
/// accelerations are those that the algorithm finds on its way back from the root. Every tree has such
/// inertias, biases and accelerations.
pub fn articulated_law()
    ensures bears { JointsBear }
    ensures one { ForwardHasSolution }
    ensures found { FoundIsSolution }
    ensures inertias { HasArticulated }
    ensures accelerations { HasFound }
{}
