// What the definitions say of the format.
ghost use Rattle.rb_srdf.specs.Laws.{ReadsDescribed, DescribedIsRead, RefusesFaulty, FaultyIsRefused, HasOneFault, FaultExcludesDescribed};

/// The semantics that are read are those that tags describe in the words of the format. Tags are refused with the first fault that they
/// have in the order of the refusals; they have at most one such fault, and none where they describe semantics.
pub fn semantics_by_profile()
    ensures sound { ReadsDescribed }
    ensures complete { DescribedIsRead }
    ensures refused { RefusesFaulty }
    ensures faulty { FaultyIsRefused }
    ensures one { HasOneFault }
    ensures excludes { FaultExcludesDescribed }
{}
