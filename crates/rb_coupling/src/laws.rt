//! That there is one answer of the coupling and of the forces, whatever stood in a work before, that the solution of the bordered equations is enclosed, and that
//! zero compliances are none.

ghost use Rattle.rb_coupling.specs.Laws.{CouplingIsOne, ForcesAreOne, BorderedEncloses, ZeroIsRigid};

/// From the same rows, compliances and factors of the table come the same factors of the rows, or the same refusal, and not both.
pub fn coupling_law()
    ensures { CouplingIsOne }
{}

/// From the same factors of the rows and the same right side come the same forces, or the same refusal, and not both.
pub fn forces_law()
    ensures { ForcesAreOne }
{}

/// Where no pivot of the table and none of the rows contains zero, the bordered equations of all numbers within the given intervals have exactly one solution,
/// and it lies in the accelerations and forces that are found.
pub fn bordered_law()
    ensures { BorderedEncloses }
{}

/// Where all compliances are zero, the coupling is that of rows without compliance, as at an impact: to add zero changes nothing, and is not refused.
pub fn rigid_law()
    ensures { ZeroIsRigid }
{}
