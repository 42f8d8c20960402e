//! What a work holds for rows of constraints, whatever it held before.

ghost use Rattle.rb_num.specs.Interval.{Interval};
ghost use Rattle.rb_flat.specs.Contact.{Constraints, RowsFit};
ghost use Rattle.rb_work.specs.View.{View};
ghost use Rattle.rb_tree.specs.Robot.{Tree, AreBodies};
ghost use Rattle.rb_tree.specs.Shape.{shape_of};
ghost use Rattle.rb_constraint.specs.Rows.{AreRows, RowsHaveOneAnswer};
ghost use Rattle.rb_constraint.specs.Bias.{AreBias, BiasHasOneAnswer};
ghost use Rattle.rb_constraint.specs.Encloses.{EnclosesRows, EnclosesBias};

/// The turns, the row vectors and the table of rows, or their refusal, are the same whatever a work held but the places of the bodies; and the bias of
/// the rows, or its refusal, whatever it held but the motions of the bodies, the turns and the row vectors. Values that are what their rules give enclose
/// those of each choice.
pub fn rows_law()
    ensures rows { (tree : Tree) (k : Constraints Interval) → AreBodies tree.bodies → RowsFit (shape_of tree) k → RowsHaveOneAnswer tree k }
    ensures bias { (tree : Tree) (k : Constraints Interval) → RowsFit (shape_of tree) k → BiasHasOneAnswer tree k }
    ensures encloses { (tree : Tree) (k : Constraints Interval) (w : View) → AreBodies tree.bodies → RowsFit (shape_of tree) k → AreRows tree k w → EnclosesRows tree k w }
    ensures encloses_bias { (tree : Tree) (k : Constraints Interval) (w : View) → RowsFit (shape_of tree) k → AreBias k w → EnclosesBias tree k w }
{}
