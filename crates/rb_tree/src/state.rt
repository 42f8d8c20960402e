ghost use Rattle.std.specs.Prelude.{◌≡◌, ◌<◌, ◌≤◌, ◌+◌, ◌++◌, List, length, IfOk, slice_set, take, drop, replicate, ◌↔◌, IsErr, OnOk, OnErr, Some, codes};
ghost use Rattle.std.specs.List.{All, AllByRecursion};
ghost use Rattle.rb_num.specs.Interval.{Interval, zero_interval};
ghost use Rattle.rb_flat.specs.Choice.{IsOrdered};
ghost use Rattle.rb_joint.specs.Any.{kind_of};
ghost use Rattle.rb_flat.specs.Joint.{entry_count as joint_entries};
ghost use Rattle.rb_tree.specs.Columns.{entry_count};
ghost use Rattle.rb_tree.specs.States.{HasState, entries_named, IsPositionWith};
ghost use Rattle.rb_tree.specs.State.{Row, IsRow, Fits, at_place, neutral_entries, neutral_position, neutral_under, standard_gravity};

use crate::columns::own_entries;
use crate::robot::{Body, Robot};
use crate::states::{Entry, NamedState};
use rb_joint::AnyJoint;
use rb_num::Iv;
use rb_spatial::Vec3;
use std::alloc::{AllocError, Global};
use std::error::Error;
use std::fmt;
use std::marker::Model;

/// The numbers of one row: the entries `q` of the position, the speeds `v`, the accelerations `a` and the torques `tau`, each by place from 0, and the
/// gravity. Entries are in metres, in radians, or cosines, sines and parts of a unit quaternion; the others are in units of metres, radians, newtons and
/// seconds. Column `c` has the place `c - 1`.
#[derive(Debug, Drop)]
pub struct State {
    q: Vec<Iv>,
    v: Vec<Iv>,
    a: Vec<Iv>,
    tau: Vec<Iv>,
    gravity: Vec3,
}

impl Model for State {
    ghost use Rattle.rb_tree.specs.State.{Row, IsRow};

    ghost Value = { Row };

    ghost view = { λ s. record { q = s.q.items; v = s.v.items; a = s.a.items; tau = s.tau.items; gravity = s.gravity } };

    ghost invariant = { λ s. IsRow s.q.items s.v.items s.a.items s.tau.items s.gravity };
}

/// No group state has the name.
#[derive(Clone, Copy, Debug, PartialEq, Eq)]
pub struct NoState;

impl fmt::Display for NoState {
    ghost output = { λ _. Some (codes "no such state") };

    fn fmt<W: fmt::Write>(&self, f: &mut fmt::Formatter<W>) -> fmt::Result {
        f.write_str("no such state")
    }
}

impl Error for NoState {}

/// Puts a joint into its neutral position.
fn put_joint(q: &mut [Iv], joint: &AnyJoint)
    requires { length q.old ≡ joint_entries (kind_of joint.now) }
    ensures { q.new ≡ neutral_entries (kind_of joint.now) }
{
    q.fill(Iv::ZERO);
    match joint {
        AnyJoint::Fixed(_) | AnyJoint::Revolute(_) | AnyJoint::Prismatic(_) => {}
        AnyJoint::Continuous(_) => q[0] = Iv::ONE,
        AnyJoint::Planar(_) => q[2] = Iv::ONE,
        AnyJoint::Free(_) => q[6] = Iv::ONE,
    }
}

/// Puts the joint of each body, where it follows no other, into its neutral position.
fn put_neutral(q: &mut [Iv], bodies: &[Body])
    requires { length q.old ≡ entry_count bodies.now }
    ensures { q.new ≡ neutral_position bodies.now }
{
    let mut at = 0;
    for body in bodies {
        let end = at + own_entries(body);
        if body.mimic.is_none() {
            put_joint(&mut q[at..end], &body.joint);
        }
        at = end;
    }
}

fn put_zeros(numbers: &mut [Iv])
    ensures { numbers.new ≡ replicate (length numbers.old) zero_interval }
{
    numbers.fill(Iv::ZERO);
}

/// So many zeros.
fn zeros(alloc: Global, count: usize) -> Result<Vec<Iv>, AllocError>
    ensures { IfOk result (λ zeros. zeros.items ≡ replicate count zero_interval) }
{
    let mut zeros = Vec::new(alloc);
    zeros.resize(count, Iv::ZERO)?;
    Ok(zeros)
}

/// The gravity of the earth.
fn earth() -> Vec3
    ensures { result ≡ standard_gravity }
{
    let down = Iv::new(-9_810_000_000_000, -9_810_000_000_000);
    Vec3::new(Iv::ZERO, Iv::ZERO, down)
}

/// Sets the entries, one after the other.
fn put_entries(q: &mut [Iv], entries: &[Entry])
    requires { AllByRecursion (λ entry. entry.place < length q.old) entries.now }
    ensures position { IsPositionWith entries.now q.old q.new }
    ensures ordered { All IsOrdered q.old → All IsOrdered q.new }
{
    for entry in entries {
        let _ends = entry.value.lo();
        q[entry.place] = entry.value;
    }
}

/// Sets the entries of each state of this name, one after the other.
fn put_named(q: &mut [Iv], states: &[NamedState], name: &[u8])
    requires { AllByRecursion (λ state. AllByRecursion (λ entry. entry.place < length q.old) state.entries) states.now }
    ensures position { IsPositionWith (entries_named states.now name.now) q.old q.new }
    ensures ordered { All IsOrdered q.old → All IsOrdered q.new }
{
    for state in states {
        if state.name.as_str().as_bytes() == name {
            put_entries(q, state.entries.as_slice());
        }
    }
}

impl State {
    /// The neutral state of the robot, under the gravity of (0, 0, -9.81) m/s².
    pub fn new(alloc: Global, robot: &Robot) -> Result<State, AllocError>
        ensures exact { IfOk result (λ state. state ≡ neutral_under standard_gravity robot.now) }
        ensures fits { IfOk result (Fits robot.now) }
    {
        let columns = robot.nv() as usize;
        let mut state = State {
            q: zeros(alloc, robot.nq() as usize)?,
            v: zeros(alloc, columns)?,
            a: zeros(alloc, columns)?,
            tau: zeros(alloc, columns)?,
            gravity: earth(),
        };
        state.set_neutral(robot);
        Ok(state)
    }

    /// Puts the neutral position, and speeds, accelerations and torques of zero. The gravity stays.
    pub fn set_neutral(&mut self, robot: &Robot)
        requires { Fits robot.now self.old }
        ensures exact { self.new ≡ neutral_under self.old.gravity robot.now }
        ensures fits { Fits robot.now self.new }
    {
        put_neutral(self.q.as_mut_slice(), robot.body_list());
        put_zeros(self.v.as_mut_slice());
        put_zeros(self.a.as_mut_slice());
        put_zeros(self.tau.as_mut_slice());
    }

    /// Puts the position that the group states of this name give, in file order, so that a later one holds where two give an entry. All else stays. It
    /// is refused exactly where no state has the name, and then nothing changes.
    pub fn set_named(&mut self, robot: &Robot, name: &[u8]) -> Result<(), NoState>
        requires { Fits robot.now self.old }
        ensures absent { IsErr result ↔ ¬ HasState robot.now.states name.now }
        ensures present { OnOk result (HasState robot.now.states name.now) }
        ensures position { OnOk result (IsPositionWith (entries_named robot.now.states name.now) self.old.q self.new.q) }
        ensures rest { OnOk result (self.new ≡ record self.old { q = self.new.q }) }
        ensures unchanged { OnErr result (self.new ≡ self.old) }
        ensures fits { Fits robot.now self.new }
    {
        if !robot.has_state(name) {
            return Err(NoState);
        }
        put_named(self.q.as_mut_slice(), robot.state_list(), name);
        Ok(())
    }

    /// Takes the numbers and the gravity of another state, which has as many.
    pub fn set_to(&mut self, other: &State)
        requires q { length self.old.q ≡ length other.now.q }
        requires v { length self.old.v ≡ length other.now.v }
        requires a { length self.old.a ≡ length other.now.a }
        requires tau { length self.old.tau ≡ length other.now.tau }
        ensures { self.new ≡ other.now }
    {
        self.q.as_mut_slice().copy_from_slice(other.q.as_slice());
        self.v.as_mut_slice().copy_from_slice(other.v.as_slice());
        self.a.as_mut_slice().copy_from_slice(other.a.as_slice());
        self.tau
            .as_mut_slice()
            .copy_from_slice(other.tau.as_slice());
        self.gravity = other.gravity;
    }

    /// The entry of the position at this place.
    #[inline]
    pub fn q(&self, k: usize) -> Iv
        requires { k < length self.now.q }
        ensures exact { result ≡ at_place self.now.q k }
        ensures kept { IsRow self.now.q self.now.v self.now.a self.now.tau self.now.gravity }
    {
        self.q[k]
    }

    /// The speed of column `k + 1`.
    #[inline]
    pub fn v(&self, k: usize) -> Iv
        requires { k < length self.now.v }
        ensures { result ≡ at_place self.now.v k }
    {
        self.v[k]
    }

    /// The acceleration of column `k + 1`.
    #[inline]
    pub fn a(&self, k: usize) -> Iv
        requires { k < length self.now.a }
        ensures { result ≡ at_place self.now.a k }
    {
        self.a[k]
    }

    /// The speeds of the columns, from column 1 on.
    #[inline]
    pub fn speeds(&self) -> &[Iv]
        ensures { result.now ≡ self.now.v }
    {
        self.v.as_slice()
    }

    /// The accelerations of the columns, from column 1 on.
    #[inline]
    pub fn accelerations(&self) -> &[Iv]
        ensures { result.now ≡ self.now.a }
    {
        self.a.as_slice()
    }

    /// The torque of column `k + 1`.
    #[inline]
    pub fn tau(&self, k: usize) -> Iv
        requires { k < length self.now.tau }
        ensures { result ≡ at_place self.now.tau k }
    {
        self.tau[k]
    }

    /// The gravity, in m/s².
    #[inline]
    pub fn gravity(&self) -> &Vec3
        ensures exact { result.now ≡ self.now.gravity }
        ensures kept { IsRow self.now.q self.now.v self.now.a self.now.tau self.now.gravity }
    {
        &self.gravity
    }

    /// Sets the entry of the position at this place.
    #[inline]
    pub fn set_q(&mut self, k: usize, iv: Iv)
        requires { k < length self.old.q }
        ensures { self.new ≡ record self.old { q = slice_set self.old.q k iv } }
    {
        let _bounds = iv.lo();
        self.q[k] = iv;
    }

    /// Sets the speed of column `k + 1`.
    #[inline]
    pub fn set_v(&mut self, k: usize, iv: Iv)
        requires { k < length self.old.v }
        ensures { self.new ≡ record self.old { v = slice_set self.old.v k iv } }
    {
        let _bounds = iv.lo();
        self.v[k] = iv;
    }

    /// Sets the acceleration of column `k + 1`.
    #[inline]
    pub fn set_a(&mut self, k: usize, iv: Iv)
        requires { k < length self.old.a }
        ensures { self.new ≡ record self.old { a = slice_set self.old.a k iv } }
    {
        let _bounds = iv.lo();
        self.a[k] = iv;
    }

    /// Sets the torque of column `k + 1`.
    #[inline]
    pub fn set_tau(&mut self, k: usize, iv: Iv)
        requires { k < length self.old.tau }
        ensures { self.new ≡ record self.old { tau = slice_set self.old.tau k iv } }
    {
        let _bounds = iv.lo();
        self.tau[k] = iv;
    }

    /// Sets the gravity, in m/s².
    pub fn set_gravity(&mut self, g: Vec3)
        ensures { self.new ≡ record self.old { gravity = g } }
    {
        let _bounds = (g.x().lo(), g.y().lo(), g.z().lo());
        self.gravity = g;
    }
}
