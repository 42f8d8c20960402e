ghost use Rattle.std.specs.Prelude.{◌≡◌, length, OnOk, IfErr};
ghost use Rattle.rb_sweep.specs.Sweep.{Answers};
ghost use Rattle.rb_tree.specs.State.{Fits};
ghost use Rattle.rb_tree.specs.Places.{IsFor, ArePlaces};
ghost use Rattle.rb_mass.specs.Steps.{sweeps_of};
ghost use Rattle.rb_mass.specs.Encloses.{EnclosesMass, EnclosesRowMass};
ghost use Rattle.rb_mass.specs.Mass.{AreMass, IsMassRefused, mass_of, table_in, IsRefused, answer_of};

use crate::entries::sweep_entries;
use crate::inertias::sweep_inertias;
use crate::masses::sweep_masses;
use rb_tree::{Robot, State, place_all};
use rb_work::{RowFault, Work};

// The sweeps one after the other.
fn sweeps(robot: &Robot, work: &mut Work) -> Result<(), RowFault>
    requires room { IsFor robot.now work.old }
    ensures exact { Answers result (sweeps_of robot.now work.old) work.new }
    ensures others { work.new ≡ record work.old { I = work.new.I; H = work.new.H; packed = work.new.packed } }
{
    sweep_inertias(robot, work)?;
    sweep_entries(robot, work)?;
    sweep_masses(robot, work)
}

/// The mass table for the places `X` that a work holds: its values `I`, `H` and `M`, in kilograms, kilogram metres and kilogram square metres.
///
/// `H` has the entries of pairs of columns as if no joint followed another, `M` those of the columns. A refusal is that of the first name that is refused, in this
/// order: `I` from the last body to the first, `H` body by body, and `M[c.d]`, c at most d, by c and then d. `Size` bears the value that is too large
/// (Featherstone, Rigid Body Dynamics Algorithms, chapter 6).
pub fn composite(robot: &Robot, work: &mut Work) -> Result<(), RowFault>
    requires room { IsFor robot.now work.old }

    // each value that the work holds is what its rule gives from the values that the work holds
    ensures values { OnOk result (AreMass robot.now work.new) }

    // there are values in which each name before one is what its rule gives, and the rule of that one refuses so
    ensures refused { IfErr result (IsMassRefused robot.now work.old) }

    // one answer, whatever the work held before but for its places
    ensures answer { Answers result (mass_of robot.now work.old) (table_in robot.now work.new) }

    // the mass table of each choice whose places lie in those of the work lies in the values
    ensures encloses { OnOk result (EnclosesMass robot.now work.new) }

    // all else is as it was
    ensures others { work.new ≡ record work.old { I = work.new.I; H = work.new.H; packed = work.new.packed } }
{
    let _tree = robot.bodies();
    let _sizes = work.bodies();
    sweeps(robot, work)
}

/// The mass table at the position of a row: the values `q X I H M` of the work.
///
/// A refusal is that of the first name that is refused: `q` and `X` body by body, and then as by `composite`.
pub fn crba(robot: &Robot, state: &State, work: &mut Work) -> Result<(), RowFault>
    requires fits { Fits robot.now state.now }
    requires room { IsFor robot.now work.old }

    // each value that the work holds is what its rule gives from the values that the work holds
    ensures places { OnOk result (ArePlaces robot.now state.now work.new) }
    ensures values { OnOk result (AreMass robot.now work.new) }

    // there are values in which each name before one is what its rule gives, and the rule of that one refuses so
    ensures refused { IfErr result (IsRefused robot.now state.now) }

    // one answer, whatever the work held before
    ensures answer { Answers result (answer_of robot.now state.now) (table_in robot.now work.new) }

    // the mass table of each choice lies in the values
    ensures encloses { OnOk result (EnclosesRowMass robot.now state.now work.new) }

    // all else is as it was
    ensures others { work.new ≡ record work.old { q = work.new.q; X = work.new.X; I = work.new.I; H = work.new.H; packed = work.new.packed } }
{
    let _tree = robot.bodies();
    place_all(robot, state, work)?;
    composite(robot, work)
}
