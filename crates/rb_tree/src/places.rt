ghost use Rattle.std.specs.Prelude.{◌≡◌, ◌+◌, ◌≤◌, length, ◌∷◌, [], None, OnOk, IfErr};
ghost use Rattle.rb_flat.specs.Choice.{items_from};
ghost use Rattle.rb_flat.specs.Joint.{entry_count};
ghost use Rattle.rb_joint.specs.Any.{kind_of};
ghost use Rattle.rb_result.specs.Steps.{told_as};
ghost use Rattle.rb_sweep.specs.Sweep.{Answers};
ghost use Rattle.rb_tree.specs.Columns.{first_entry};
ghost use Rattle.rb_tree.specs.Numbers.{joint_at, mimic_at};
ghost use Rattle.rb_tree.specs.Robot.{HasBody};
ghost use Rattle.rb_tree.specs.State.{Fits, at_place};
ghost use Rattle.rb_tree.specs.Places.{IsFor, padded, q_rule, place_fault, X_rule, ArePlaces, IsPlaceRefused, EnclosesPlaces};
ghost use Rattle.rb_tree.specs.Steps.{place_step, places_of};

use crate::robot::Robot;
use crate::state::State;
use rb_joint::JointFault;
use rb_num::{Iv, dot};
use rb_spatial::Place;
use rb_work::{Capitals, Name, NameKind, RowFault, Work, named};

// The entries of a joint that follows no other.
fn own_entries(robot: &Robot, state: &State, i: u32) -> [Iv; 7]
    requires fits { Fits robot.now state.now }
    requires there { HasBody robot.now i }
    requires leads { mimic_at robot.now.bodies i ≡ None }
    ensures { result ≡ padded 7 (items_from (at_place state.now.q) (first_entry robot.now.bodies i) (entry_count (kind_of (joint_at robot.now.bodies i)))) }
{
    let _tree = robot.bodies();
    let mut entries = [Iv::ZERO; 7];
    let first = robot.first_q(i);
    let count = robot.joint(i).nq();
    for k in 0..count {
        entries[k] = state.q(first + k);
    }
    entries
}

// One entry, and zeros behind it.
fn one_entry(x: Iv) -> [Iv; 7]
    ensures { result ≡ padded 7 (x ∷ []) }
{
    [
        x,
        Iv::ZERO,
        Iv::ZERO,
        Iv::ZERO,
        Iv::ZERO,
        Iv::ZERO,
        Iv::ZERO,
    ]
}

// The entries of the joint of a body.
#[tactic(auto, unfolding(crate::specs::Places::q_rule))]
fn entries_at(robot: &Robot, state: &State, i: u32) -> Result<[Iv; 7], RowFault>
    requires fits { Fits robot.now state.now }
    requires there { HasBody robot.now i }
    ensures exact { result ≡ q_rule robot.now state.now i }
{
    match robot.mimic_of(i) {
        None => Ok(own_entries(robot, state, i)),
        Some(mimic) => {
            let leading = state.q(robot.first_q(i));
            let name = Name::one(NameKind::q, i);
            let x = named(
                dot(&[(mimic.multiplier, leading), (mimic.offset, Iv::ONE)]),
                name,
            )?;
            Ok(one_entry(x))
        }
    }
}

// What a joint may answer, with its name.
fn told(step: Result<Place, JointFault>, i: u32) -> Result<Place, RowFault>
    ensures { result ≡ told_as (place_fault i) step }
{
    match step {
        Ok(place) => Ok(place),
        Err(JointFault::Range) => Err(RowFault::Range {
            name: Name::one(NameKind::q, i),
        }),
        Err(JointFault::NotUnit) => Err(RowFault::NotUnit {
            name: Name::one(NameKind::q, i),
        }),
        Err(JointFault::Size) => Err(RowFault::Size {
            name: Name::one(NameKind::X, i),
        }),
    }
}

// The place of a body at its entries.
#[tactic(auto, unfolding(crate::specs::Places::X_rule))]
fn place_at(robot: &Robot, i: u32, work: &Work) -> Result<Place, RowFault>
    requires room { work.now.bodies ≡ length robot.now.bodies }
    requires there { HasBody robot.now i }
    ensures exact { result ≡ X_rule robot.now i work.now }
{
    let joint = robot.joint(i);
    let entries = work.q(i);
    told(joint.place(&entries[..joint.nq()]), i)
}

// The names of one body.
#[tactic(auto, unfolding(crate::specs::Steps::place_step))]
fn body_places(robot: &Robot, state: &State, i: u32, work: &mut Work) -> Result<(), RowFault>
    requires fits { Fits robot.now state.now }
    requires room { work.old.bodies ≡ length robot.now.bodies }
    requires there { HasBody robot.now i }
    ensures step { Answers result (place_step robot.now state.now i work.old) work.new }
    ensures others { work.new ≡ record work.old { q = work.new.q; X = work.new.X } }
{
    let entries = entries_at(robot, state, i)?;
    work.set_q(i, entries);
    let place = place_at(robot, i, work)?;
    work.set_X(i, place);
    Ok(())
}

// The sweep over the bodies.
#[tactic(auto, using(rb_sweep::proofs::SweepSteps::sweeps))]
fn sweep_places(robot: &Robot, state: &State, work: &mut Work) -> Result<(), RowFault>
    requires fits { Fits robot.now state.now }
    requires room { work.old.bodies ≡ length robot.now.bodies }
    ensures exact { Answers result (places_of robot.now state.now work.old) work.new }
    ensures others { work.new ≡ record work.old { q = work.new.q; X = work.new.X } }
{
    let end = robot.bodies() + 1;
    for i in 1..end {
        body_places(robot, state, i, work)?;
    }
    Ok(())
}

/// The entries and the place of each body in a row: the values `q` and `X` of the work, body by body.
///
/// A joint that follows another has the entry of its master times the multiplier, plus the offset. A refusal is that of the first name that is refused, where
/// `q` comes before `X` at each body: `Range` and `NotUnit` of a joint bear `q`, and `Size` bears the value that is too large on the way, `q` or `X`
/// (Featherstone, Rigid Body Dynamics Algorithms, chapter 4).
pub fn place_all(robot: &Robot, state: &State, work: &mut Work) -> Result<(), RowFault>
    requires fits { Fits robot.now state.now }
    requires room { IsFor robot.now work.old }

    // each value that the work holds is what its rule gives from the values that the work holds
    ensures values { OnOk result (ArePlaces robot.now state.now work.new) }

    // there are values in which each name before one is what its rule gives, and the rule of that one refuses so
    ensures refused { IfErr result (IsPlaceRefused robot.now state.now) }

    // the place of each body, for each choice of numbers in the brackets of the robot and of the row, lies in its value
    ensures encloses { OnOk result (EnclosesPlaces robot.now state.now work.new) }

    // all else is as it was
    ensures others { work.new ≡ record work.old { q = work.new.q; X = work.new.X } }
{
    let _tree = robot.bodies();
    let _sizes = work.bodies();
    sweep_places(robot, state, work)
}
