//! The mass table: the entries of pairs of joint columns, gathered by the columns that these are or follow.

ghost use Rattle.std.specs.Prelude.{◌≡◌, ◌+◌, ◌≤◌, ◌==◌, ◌||◌, not, false, length, IfErr};
ghost use Rattle.rb_num.specs.Interval.{zero_interval};
ghost use Rattle.rb_sweep.specs.Sweep.{Answers, sweep, upward};
ghost use Rattle.rb_flat.specs.Dynamics.{follows};
ghost use Rattle.rb_work.specs.Path.{path, IsOn};
ghost use Rattle.rb_tree.specs.Columns.{has_mimic, column_count, full_count, first_full};
ghost use Rattle.rb_tree.specs.Numbers.{mimic_at};
ghost use Rattle.rb_tree.specs.Shape.{master_of};
ghost use Rattle.rb_tree.specs.Robot.{HasBody, HasColumn};
ghost use Rattle.rb_mass.specs.Entries.{HasJointColumn};
ghost use Rattle.rb_mass.specs.Table.{is_led as is_led_of, multiplier_at, pair_adds, is_pair as is_pair_of, add_pair, add_body, add_column, add_joint, ups_of, column_of};
ghost use Rattle.rb_mass.specs.Steps.{parents_of, pair_step, mass_step, masses_of};

use crate::columns::{JointColumn, column_number, full_number, joint_columns, met_columns};
use rb_num::{Iv, NumFault, dot};
use rb_tree::Robot;
use rb_work::{Name, NameKind, RowFault, Work, named};

// The entry of columns c and d that is gathered, and whether a joint follows that of c or d.
#[derive(Clone, Copy)]
struct Sought {
    c: u32,
    d: u32,
    led: bool,
}

// Two columns of joints, the second of the same body or of one above it.
#[derive(Clone, Copy)]
struct Pair {
    first: JointColumn,
    second: JointColumn,
}

// Whether the joint of body j follows that of body i.
fn follows_joint(robot: &Robot, j: u32, i: u32) -> bool
    requires { HasBody robot.now j }
    ensures { result ≡ follows (master_of (mimic_at robot.now.bodies j)) i }
{
    match robot.mimic_of(j) {
        None => false,
        Some(mimic) => mimic.master == i,
    }
}

// Whether some joint follows that of column c.
#[tactic(auto, using(crate::proofs::Ways::any_upward))]
fn is_led(robot: &Robot, c: u32) -> bool
    requires { HasColumn robot.now c }
    ensures { result ≡ is_led_of robot.now.bodies c }
{
    let i = robot.column_body(c);
    let end = robot.bodies() + 1;
    for j in 1..end {
        if follows_joint(robot, j, i) {
            return true;
        }
    }
    false
}

// By how much the joint of body i follows another, or one.
fn multiplier(robot: &Robot, i: u32) -> Iv
    requires { HasBody robot.now i }
    ensures { result ≡ multiplier_at robot.now.bodies i }
{
    match robot.mimic_of(i) {
        None => Iv::ONE,
        Some(mimic) => mimic.multiplier,
    }
}

// What the entry of a pair adds.
#[tactic(auto, unfolding(crate::specs::Table::pair_adds, crate::specs::Table::weighed, crate::specs::Table::twice_if))]
fn adds(robot: &Robot, sought: Sought, pair: Pair, entry: Iv) -> Result<Iv, NumFault>
    requires first { HasBody robot.now pair.first.body }
    requires second { HasBody robot.now pair.second.body }
    requires led { sought.led ≡ (is_led_of robot.now.bodies sought.c || is_led_of robot.now.bodies sought.d) }
    ensures exact { result ≡ pair_adds robot.now.bodies sought.c sought.d pair.first.body pair.first.k pair.second.body pair.second.k entry }
    ensures size { IfErr result (λ e. e ≡ NumFault.Size) }
{
    if !sought.led {
        return Ok(entry);
    }
    let both = dot(&[(
        multiplier(robot, pair.first.body),
        multiplier(robot, pair.second.body),
    )])?;
    let x = dot(&[(both, entry)])?;
    let same = pair.second.body == pair.first.body && pair.second.k == pair.first.k;
    if sought.c == sought.d && !same {
        x.add(x)
    } else {
        Ok(x)
    }
}

// Whether one of the two is or follows c, and the other d.
fn is_pair(robot: &Robot, sought: Sought, pair: Pair) -> bool
    requires first { HasJointColumn robot.now pair.first.body pair.first.k }
    requires second { HasJointColumn robot.now pair.second.body pair.second.k }
    ensures { result ≡ is_pair_of robot.now.bodies sought.c sought.d pair.first.body pair.first.k pair.second.body pair.second.k }
{
    let first = column_number(robot, pair.first);
    let second = column_number(robot, pair.second);
    (first == sought.c && second == sought.d) || (first == sought.d && second == sought.c)
}

// One more pair.
#[tactic(auto, unfolding(crate::specs::Table::add_pair))]
fn with_pair(
    robot: &Robot,
    sought: Sought,
    pair: Pair,
    sum: Iv,
    work: &Work,
) -> Result<Iv, NumFault>
    requires room { work.now.full ≡ full_count robot.now.bodies }
    requires first { HasJointColumn robot.now pair.first.body pair.first.k }
    requires second { HasJointColumn robot.now pair.second.body pair.second.k }
    requires upward { first_full robot.now.bodies pair.second.body + pair.second.k ≤ first_full robot.now.bodies pair.first.body + pair.first.k }
    requires led { sought.led ≡ (is_led_of robot.now.bodies sought.c || is_led_of robot.now.bodies sought.d) }
    ensures exact { result ≡ add_pair robot.now.bodies work.now sought.c sought.d pair.first.body pair.first.k pair.second.body pair.second.k sum }
    ensures size { IfErr result (λ e. e ≡ NumFault.Size) }
{
    if !is_pair(robot, sought, pair) {
        return Ok(sum);
    }
    let entry = work.H(
        full_number(robot, pair.first),
        full_number(robot, pair.second),
    );
    sum.add(adds(robot, sought, pair, entry)?)
}

// A joint column with those of body a that it meets.
#[tactic(auto, unfolding(crate::specs::Table::add_body), using(rb_sweep::proofs::SweepSteps::sweeps_down, crate::proofs::Ways::full_rises))]
fn with_body(
    robot: &Robot,
    sought: Sought,
    of: JointColumn,
    a: u32,
    start: Iv,
    work: &Work,
) -> Result<Iv, NumFault>
    requires room { work.now.full ≡ full_count robot.now.bodies }
    requires there { HasJointColumn robot.now of.body of.k }
    requires body { HasBody robot.now a }
    requires upward { a ≤ of.body }
    requires led { sought.led ≡ (is_led_of robot.now.bodies sought.c || is_led_of robot.now.bodies sought.d) }
    ensures exact { result ≡ add_body robot.now.bodies work.now sought.c sought.d of.body of.k a start }
    ensures size { IfErr result (λ e. e ≡ NumFault.Size) }
{
    let mut sum = start;
    let end = met_columns(robot, of, a);
    for l in (0..end).rev() {
        let pair = Pair {
            first: of,
            second: JointColumn { body: a, k: l },
        };
        sum = with_pair(robot, sought, pair, sum, work)?;
    }
    Ok(sum)
}

// A joint column with those that it meets on the way to the root.
#[tactic(auto, using(crate::proofs::Ways::body_paths))]
fn on_the_way(
    robot: &Robot,
    sought: Sought,
    of: JointColumn,
    start: Iv,
    work: &Work,
) -> Result<Iv, NumFault>
    requires room { work.now.full ≡ full_count robot.now.bodies }
    requires there { HasJointColumn robot.now of.body of.k }
    requires led { sought.led ≡ (is_led_of robot.now.bodies sought.c || is_led_of robot.now.bodies sought.d) }
    ensures exact { result ≡ sweep (add_body robot.now.bodies work.now sought.c sought.d of.body of.k) (path (parents_of robot.now.bodies) of.body) start }
    ensures size { IfErr result (λ e. e ≡ NumFault.Size) }
{
    let _tree = robot.bodies();
    let mut sum = start;
    let mut a = of.body;
    while a != 0 {
        sum = with_body(robot, sought, of, a, sum, work)?;
        a = robot.parent(a);
    }
    Ok(sum)
}

// Whether a joint column is or follows c or d.
fn is_sought(robot: &Robot, sought: Sought, of: JointColumn) -> bool
    requires { HasJointColumn robot.now of.body of.k }
    ensures { result ≡ (column_of robot.now.bodies of.body of.k == sought.c || column_of robot.now.bodies of.body of.k == sought.d) }
{
    let column = column_number(robot, of);
    column == sought.c || column == sought.d
}

// One more joint column, if it is or follows c or d.
fn with_column(
    robot: &Robot,
    sought: Sought,
    of: JointColumn,
    sum: Iv,
    work: &Work,
) -> Result<Iv, NumFault>
    requires room { work.now.full ≡ full_count robot.now.bodies }
    requires there { HasJointColumn robot.now of.body of.k }
    requires led { sought.led ≡ (is_led_of robot.now.bodies sought.c || is_led_of robot.now.bodies sought.d) }
    ensures exact { result ≡ add_column robot.now work.now sought.c sought.d of.body of.k sum }
    ensures size { IfErr result (λ e. e ≡ NumFault.Size) }
{
    let _tree = robot.bodies();
    if is_sought(robot, sought, of) {
        on_the_way(robot, sought, of, sum, work)
    } else {
        Ok(sum)
    }
}

// Those of one body.
#[tactic(auto, unfolding(crate::specs::Table::add_joint), using(rb_sweep::proofs::SweepSteps::sweeps))]
fn with_joint(robot: &Robot, sought: Sought, i: u32, start: Iv, work: &Work) -> Result<Iv, NumFault>
    requires room { work.now.full ≡ full_count robot.now.bodies }
    requires there { HasBody robot.now i }
    requires led { sought.led ≡ (is_led_of robot.now.bodies sought.c || is_led_of robot.now.bodies sought.d) }
    ensures exact { result ≡ add_joint robot.now work.now sought.c sought.d i start }
    ensures size { IfErr result (λ e. e ≡ NumFault.Size) }
{
    let mut sum = start;
    let end = joint_columns(robot, i);
    for k in 0..end {
        sum = with_column(robot, sought, JointColumn { body: i, k }, sum, work)?;
    }
    Ok(sum)
}

// The sum over the columns of all joints.
#[tactic(auto, using(rb_sweep::proofs::SweepSteps::sweeps))]
fn gathered(robot: &Robot, c: u32, d: u32, work: &Work) -> Result<Iv, NumFault>
    requires room { work.now.full ≡ full_count robot.now.bodies }
    requires first { HasColumn robot.now c }
    requires second { HasColumn robot.now d }
    ensures exact { result ≡ sweep (add_joint robot.now work.now c d) (upward 1 (length robot.now.bodies + 1)) zero_interval }
    ensures size { IfErr result (λ e. e ≡ NumFault.Size) }
{
    let led = is_led(robot, c) || is_led(robot, d);
    let sought = Sought { c, d, led };
    let mut sum = Iv::ZERO;
    let end = robot.bodies() + 1;
    for i in 1..end {
        sum = with_joint(robot, sought, i, sum, work)?;
    }
    Ok(sum)
}

// The sum where no joint follows another: one pair alone is these columns.
fn alone(robot: &Robot, c: u32, d: u32, work: &Work) -> Result<Iv, NumFault>
    requires room { work.now.full ≡ full_count robot.now.bodies }
    requires plain { has_mimic robot.now.bodies ≡ false }
    requires second { HasColumn robot.now d }
    requires order { c ≤ d }
    requires on { IsOn (ups_of robot.now) d c }
    ensures exact { result ≡ sweep (add_joint robot.now work.now c d) (upward 1 (length robot.now.bodies + 1)) zero_interval }
    ensures size { IfErr result (λ e. e ≡ NumFault.Size) }
{
    let _tree = robot.bodies();
    Iv::ZERO.add(work.H(d, c))
}

// The sum, by the way that serves.
fn entry_of(robot: &Robot, c: u32, d: u32, plain: bool, work: &Work) -> Result<Iv, NumFault>
    requires room { work.now.full ≡ full_count robot.now.bodies }
    requires plain { plain ≡ not (has_mimic robot.now.bodies) }
    requires first { HasColumn robot.now c }
    requires second { HasColumn robot.now d }
    requires order { c ≤ d }
    requires on { IsOn (ups_of robot.now) d c }
    ensures exact { result ≡ sweep (add_joint robot.now work.now c d) (upward 1 (length robot.now.bodies + 1)) zero_interval }
    ensures size { IfErr result (λ e. e ≡ NumFault.Size) }
{
    if plain {
        alone(robot, c, d, work)
    } else {
        gathered(robot, c, d, work)
    }
}

// The name of two columns, if they are on one path.
#[tactic(auto, unfolding(crate::specs::Table::M_rule, crate::specs::Steps::pair_step), using(crate::proofs::Ways::pair_on))]
fn put_pair(robot: &Robot, c: u32, d: u32, plain: bool, work: &mut Work) -> Result<(), RowFault>
    requires room { work.old.full ≡ full_count robot.now.bodies }
    requires up { work.old.up ≡ ups_of robot.now }
    requires plain { plain ≡ not (has_mimic robot.now.bodies) }
    requires first { HasColumn robot.now c }
    requires second { HasColumn robot.now d }
    requires order { c ≤ d }
    ensures step { Answers result (pair_step robot.now c d work.old) work.new }
    ensures others { work.new ≡ record work.old { packed = work.new.packed } }
{
    if !work.is_on(d, c) {
        return Ok(());
    }
    let entry = named(
        entry_of(robot, c, d, plain, work),
        Name::two(NameKind::M, c, d),
    )?;
    work.set_M(c, d, entry);
    Ok(())
}

// The names of one column.
#[tactic(auto, unfolding(crate::specs::Steps::mass_step), using(rb_sweep::proofs::SweepSteps::sweeps))]
fn put_pairs(robot: &Robot, c: u32, plain: bool, work: &mut Work) -> Result<(), RowFault>
    requires room { work.old.full ≡ full_count robot.now.bodies }
    requires up { work.old.up ≡ ups_of robot.now }
    requires plain { plain ≡ not (has_mimic robot.now.bodies) }
    requires there { HasColumn robot.now c }
    ensures step { Answers result (mass_step robot.now c work.old) work.new }
    ensures others { work.new ≡ record work.old { packed = work.new.packed } }
{
    let end = robot.nv() + 1;
    for d in c..end {
        put_pair(robot, c, d, plain, work)?;
    }
    Ok(())
}

// The sweep over the columns.
#[tactic(auto, using(rb_sweep::proofs::SweepSteps::sweeps))]
pub(crate) fn sweep_masses(robot: &Robot, work: &mut Work) -> Result<(), RowFault>
    requires room { work.old.full ≡ full_count robot.now.bodies }
    requires up { work.old.up ≡ ups_of robot.now }
    ensures exact { Answers result (masses_of robot.now work.old) work.new }
    ensures others { work.new ≡ record work.old { packed = work.new.packed } }
{
    let plain = !robot.has_mimic();
    let end = robot.nv() + 1;
    for c in 1..end {
        put_pairs(robot, c, plain, work)?;
    }
    Ok(())
}
