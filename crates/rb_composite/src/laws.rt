//! The composite inertias give the mass table.

ghost use Rattle.rb_composite.specs.Laws.{CompositeIsRigid, HasCompositeTable, CompositeIsMassTable, CompositeIsSymmetric, CompositeGivesTorques, ApartIsZero, EachPairOnce};

/// Where no joint moves, the joint of a body bears against gravity what the composite inertia of the
/// body needs, as if all that it bears were one rigid body. Every tree has composite inertias, and the table that they
/// give is the mass table: in each column the torques of a unit acceleration. Joints may follow
/// others, and the tables of the places need not be turns. So the table is symmetric, and the torques
/// are the bias and the table times the accelerations of the joints.
pub fn composite_law()
    ensures rigid { CompositeIsRigid }
    ensures exists { HasCompositeTable }
    ensures table { CompositeIsMassTable }
    ensures symmetric { CompositeIsSymmetric }
    ensures torques { CompositeGivesTorques }
{}

/// Where no joint follows another, two columns have the entry zero unless their bodies are on one
/// path to the world. The entries may be added up along these paths, with each pair of joint columns
/// taken once.
pub fn pair_law()
    ensures apart { ApartIsZero }
    ensures once { EachPairOnce }
{}
