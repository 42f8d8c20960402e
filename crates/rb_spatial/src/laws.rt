//! What the rules mean at fractions.

ghost use Rattle.rb_spatial.specs.Laws.{ApplyIsInBody, ApplyDualIsInParent, CrossIsMotionProduct, CrossDualIsForceProduct, MultipleIsScaled, PowerIsSum, TableGivesMomentum};
ghost use Rattle.rb_spatial.specs.Laws.{ApplyDuality, CrossDuality, CrossIsAlternating, TimesIsSymmetric};
ghost use Rattle.rb_spatial.specs.Laws.{CarryIsCongruence, NewtonEuler, LessOuterTimes, SumIsAdditive};
ghost use Rattle.rb_spatial.specs.Laws.{EntryIsSymmetric, TimesIsRows, LessOuterEntry};
ghost use Rattle.rb_spatial.specs.Laws.{ApplyIsLinear, ApplyDualIsLinear, CrossIsLinear, CrossDualIsLinear, TimesIsLinear, PowerIsLinear, TableIsLinear, NeededIsLinear};

/// Each rule is its formula of three-dimensional vectors.
pub fn formulas()
    ensures apply { ApplyIsInBody }
    ensures apply_dual { ApplyDualIsInParent }
    ensures cross { CrossIsMotionProduct }
    ensures cross_dual { CrossDualIsForceProduct }
    ensures multiple { MultipleIsScaled }
    ensures power { PowerIsSum }
    ensures table { TableGivesMomentum }
{}

/// A force has the same power in the body and in the parent, and a product with a motion goes over
/// to the other factor of a power, negated.
pub fn duality()
    ensures apply { ApplyDuality }
    ensures cross { CrossDuality }
{}

/// The product of motions changes its sign with their order, and an inertia is symmetric.
pub fn symmetry()
    ensures cross { CrossIsAlternating }
    ensures times { TimesIsSymmetric }
{}

/// The entries of an inertia: those on both sides of the diagonal are the same, a product with a
/// motion goes row by row, and an outer product is taken off entry by entry.
pub fn entries()
    ensures symmetric { EntryIsSymmetric }
    ensures times { TimesIsRows }
    ensures less_outer { LessOuterEntry }
{}

/// A carried inertia takes a motion of the parent to the force that it needs there.
pub fn congruence()
    ensures { CarryIsCongruence }
{}

/// The spatial equation of motion of a body is Newton's and Euler's.
pub fn newton_euler()
    ensures { NewtonEuler }
{}

/// An inertia less an outer product, at vectors of which one is a multiple of the other, makes of a
/// motion what the inertia makes of it, less the first vector times the second's product with it.
pub fn outer_product()
    ensures { LessOuterTimes }
{}

/// Each rule is linear in its last argument, and a product in its inertia too; the momentum of a
/// body and what the body needs are linear in its ten numbers, which are mass, first moment and
/// rotational inertia.
pub fn linearity()
    ensures apply { ApplyIsLinear }
    ensures apply_dual { ApplyDualIsLinear }
    ensures cross { CrossIsLinear }
    ensures cross_dual { CrossDualIsLinear }
    ensures times { TimesIsLinear }
    ensures sum { SumIsAdditive }
    ensures power { PowerIsLinear }
    ensures table { TableIsLinear }
    ensures needed { NeededIsLinear }
{}
