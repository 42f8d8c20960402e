ghost use Rattle.std.specs.Prelude.{◌≡◌, ℕ, ◌<◌, Result, List, length, IfOk};
ghost use Rattle.rb_num.specs.Interval.{Interval};
ghost use Rattle.rb_frac.specs.Spatial as S;
ghost use Rattle.rb_flat.specs.Joint.{Kind, JointChoice, entry_count, column_count};
ghost use Rattle.rb_joint.specs.declared.faults.JointFault.{JointFault};
ghost use Rattle.rb_joint.specs.Model.{EnclosesPlace, EnclosesColumn};

use crate::faults::JointFault;
use rb_num::Iv;
use rb_spatial::{Motion, Place};

/// A kind of joint: its place for the entries of its position, and its columns, which no position
/// changes.
pub trait JointModel {
    /// How many entries the position has.
    const NQ: usize;

    /// How many columns the joint has.
    const NV: usize;

    ghost NQ: { ℕ };

    ghost NV: { ℕ };

    // its kind in the joint relation
    ghost kind: { Kind };

    // whether the frame and the axis of a choice are among those of the model
    ghost has: { Self → JointChoice → Type 0 };

    ghost place_at: { Self → List Interval → Result (S.Place Interval) JointFault };

    ghost column_at: { Self → ℕ → S.Motion Interval };

    /// The place of the body behind the joint, for the entries `q`. For each choice of numbers in the
    /// model's frame and axis and in `q`, the place of the joint relation lies in it.
    fn place(&self, q: &[Iv]) -> Result<Place, JointFault>
        requires { length q.now ≡ NQ }
        ensures exact { result ≡ place_at self.now q.now }
        ensures encloses { IfOk result (EnclosesPlace kind (has self.now) q.now) };

    /// Column `k`, from 0, linear part first. For each choice the column of the joint relation lies in
    /// it.
    fn column(&self, k: usize) -> Motion
        requires { k < NV }
        ensures exact { result ≡ column_at self.now k }
        ensures encloses { EnclosesColumn kind (has self.now) k result };

    // the counts are those of the kind
    ghost entry_law: { NQ ≡ entry_count kind };

    ghost column_law: { NV ≡ column_count kind };
}
