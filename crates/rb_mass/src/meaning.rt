//! What the mass table of a work means.

ghost use Rattle.rb_mass.specs.Encloses.{MassEncloses, RowMassEncloses, RowEncloses, MassGivesTorques};

/// Where the values of a work are what their rules give, each entry of the mass table of each choice within the brackets of the robot lies in that of the
/// work, if its places lie there, as they do for each choice within the brackets of the row. An entry of two columns that are not on one path is zero. A
/// table that lies so gives the torques of each motion: the bias, and the table times the accelerations of the joints.
pub fn table_law()
    ensures encloses { MassEncloses }
    ensures row { RowMassEncloses }
    ensures answer { RowEncloses }
    ensures torques { MassGivesTorques }
{}
