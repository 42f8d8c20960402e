//! What the rule of a body means at fractions.

ghost use Rattle.rb_body.specs.Laws.{BodyIsRelation};

/// The rule of a body gives what the body relation gives.
pub fn bodies()
    ensures body { BodyIsRelation }
{}
