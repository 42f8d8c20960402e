// The entries that the states of a robot set.
ghost use Rattle.std.specs.Prelude.{◌≡◌, ◌≤◌, ◌<◌, ◌+◌, ◌++◌, ◌^◌, [], List, length, IfOk, OnOk};
ghost use Rattle.std.specs.List.{All, AllByRecursion};
ghost use Rattle.rb_flat.specs.Choice.{IsOrdered};
ghost use Rattle.rb_joint.specs.Any.{kind_of};
ghost use Rattle.rb_result.specs.Steps.{Gives, placed};
ghost use Rattle.rb_srdf.specs.declared.srdf.Virtual.{Virtual};
ghost use Rattle.rb_srdf.specs.Srdf.{names_of_virtuals as names_of_virtuals_in};
ghost use Rattle.rb_tree.specs.declared.sizes.TheConstants.{MAX_LINKS};
ghost use Rattle.rb_tree.specs.Columns.{body_at, AreStarts};
ghost use Rattle.rb_tree.specs.Robot.{AreBodies, IsEntryKept, IsStateKept};
ghost use Rattle.rb_tree.specs.Faults.{no_memory};
ghost use Rattle.rb_tree.specs.States.{turn_of as turn_of_angle, entries_for, entries_unless, entries_from, body_entries as body_entries_of, value_entries as value_entries_of, state_entries as state_entries_of, state_fault, states_made};

use crate::bearers::{body_of_joint, names_of_virtuals};
use crate::columns::{Start, starts_of};
use crate::faults::{TreeFault, TreeKind, WhichFile};
use crate::robot::Body;
use rb_joint::AnyJoint;
use rb_num::Iv;
use rb_srdf::{GroupState, JointNumbers, Srdf};
use rb_tags::{Names, Text};
use rb_trig::sin_cos;
use std::alloc::{AllocError, Global};
use std::marker::Model;

/// What an entry of the position becomes: its place from 0, and its bracket.
#[derive(Clone, Copy, Debug, PartialEq, Eq)]
pub struct Entry {
    pub place: usize,
    pub value: Iv,
}

/// Entries of the position, in the order in which they are set.
#[derive(Debug, Drop)]
pub struct Entries {
    pub(crate) entries: Vec<Entry>,
}

impl Model for Entries {
    ghost use Rattle.std.specs.Prelude.{List};
    ghost use Rattle.rb_tree.specs.declared.states.Entry.{Entry};

    ghost Value = { List Entry };

    ghost view = { λ e. e.entries.items };
}

impl Entries {
    /// No entries.
    fn new(alloc: Global) -> Self
        ensures { result ≡ [] }
    {
        Entries {
            entries: Vec::new(alloc),
        }
    }

    /// The entries, in the order in which they are set.
    pub fn as_slice(&self) -> &[Entry]
        ensures { result.now ≡ self.now }
    {
        self.entries.as_slice()
    }

    /// Adds the entries of a joint.
    fn put(&mut self, more: &JointEntries) -> Result<(), AllocError>
        ensures entries { OnOk result (self.new ≡ self.old ++ more.now) }
        ensures ordered { OnOk result (AllByRecursion (λ entry. IsOrdered entry.value) more.now) }
    {
        put_values(&mut self.entries, more.place, more.values.as_slice())
    }
}

/// Adds the entries that values set, from a place on.
fn put_values(entries: &mut Vec<Entry>, place: usize, values: &[Iv]) -> Result<(), AllocError>
    requires { place + length values.now < 2 ^ 64 }
    ensures entries { OnOk result (entries.new.items ≡ entries.old.items ++ entries_from place values.now) }
    ensures ordered { OnOk result (All IsOrdered values.now) }
{
    for (k, value) in values.iter().enumerate() {
        let _ends = value.lo();
        entries.push(Entry {
            place: place + k,
            value: *value,
        })?;
    }
    Ok(())
}

/// A state: its name, and the entries that it sets.
#[derive(Debug, Drop)]
pub struct NamedState {
    pub name: Text,
    pub entries: Entries,
}

/// What the entries of a joint become: at most seven values.
#[derive(Drop)]
struct JointValues {
    values: [Iv; 7],
    count: usize,
}

impl Model for JointValues {
    ghost use Rattle.std.specs.Prelude.{List, take, ◌≤◌};
    ghost use Rattle.rb_num.specs.Interval.{Interval};

    ghost Value = { List Interval };

    ghost view = { λ v. take v.count v.values };

    ghost invariant = { λ v. v.count ≤ 7 };
}

impl JointValues {
    /// These values.
    fn of(values: &[Iv]) -> Self
        requires { length values.now ≤ 7 }
        ensures { result ≡ values.now }
    {
        let mut all = [Iv::ZERO; 7];
        let count = values.len();
        all[..count].copy_from_slice(values);
        JointValues { values: all, count }
    }

    /// The values.
    fn as_slice(&self) -> &[Iv]
        ensures values { result.now ≡ self.now }
        ensures few { length self.now ≤ 7 }
    {
        &self.values[..self.count]
    }
}

/// The values of the entries of a joint, and the place of the first.
#[derive(Drop)]
struct JointEntries {
    place: usize,
    values: JointValues,
}

impl Model for JointEntries {
    ghost use Rattle.std.specs.Prelude.{List, ◌<◌, ◌^◌};
    ghost use Rattle.rb_tree.specs.declared.states.Entry.{Entry};
    ghost use Rattle.rb_tree.specs.States.{entries_from};

    ghost Value = { List Entry };

    ghost view = { λ e. entries_from e.place e.values };

    ghost invariant = { λ e. e.place < 2 ^ 32 };
}

/// The cosine and the sine of an angle.
#[tactic(auto, unfolding(crate::specs::States::turn_of))]
fn turn_of(angle: Iv) -> Result<[Iv; 2], TreeKind>
    ensures { result ≡ turn_of_angle angle }
{
    match sin_cos(angle) {
        Ok((sine, cosine)) => Ok([cosine, sine]),
        Err(_) => Err(TreeKind::AngleRange),
    }
}

/// The values that numbers give a joint: a continuous one takes an angle, or a cosine and a sine, and a planar one x, y and an angle.
#[tactic(auto, unfolding(crate::specs::States::entries_for))]
fn values_for(joint: &AnyJoint, numbers: &[Iv]) -> Result<JointValues, TreeKind>
    ensures { result ≡ entries_for (kind_of joint.now) numbers.now }
{
    match (joint, numbers) {
        (AnyJoint::Revolute(_) | AnyJoint::Prismatic(_), [_])
        | (AnyJoint::Continuous(_), [_, _])
        | (AnyJoint::Free(_), [_, _, _, _, _, _, _]) => Ok(JointValues::of(numbers)),
        (AnyJoint::Continuous(_), [angle]) => Ok(JointValues::of(&turn_of(*angle)?)),
        (AnyJoint::Planar(_), [x, y, angle]) => {
            let [cosine, sine] = turn_of(*angle)?;
            Ok(JointValues::of(&[*x, *y, cosine, sine]))
        }
        _ => Err(TreeKind::StateValues),
    }
}

/// The values that numbers give the joint of a body: none where it is fixed or follows another.
fn values_of(body: &Body, numbers: &[Iv]) -> Result<JointValues, TreeKind>
    ensures { result ≡ entries_unless (kind_of body.now.joint) body.now.mimic numbers.now }
{
    match (&body.joint, body.mimic) {
        (AnyJoint::Fixed(_), _) | (_, Some(_)) => Ok(JointValues::of(&[])),
        (joint, None) => values_for(joint, numbers),
    }
}

/// The entries that numbers set of the body of this number.
fn body_entries(
    bodies: &[Body],
    starts: &[Start],
    number: u32,
    numbers: &[Iv],
) -> Result<JointEntries, TreeKind>
    requires from { 1 ≤ number }
    requires to { number ≤ length bodies.now }
    requires few { length bodies.now ≤ MAX_LINKS }
    requires starts { AreStarts bodies.now starts.now }
    ensures { result ≡ body_entries_of bodies.now number numbers.now (body_at bodies.now number) }
{
    let at = number as usize - 1;
    let values = values_of(&bodies[at], numbers)?;
    Ok(JointEntries {
        place: starts[at].entry,
        values,
    })
}

/// The entries that a value of a state sets, where these are the names of the virtual joints. Those of a virtual joint that bears no body are none.
#[tactic(auto, unfolding(crate::specs::States::value_entries))]
fn value_entries(
    bodies: &[Body],
    starts: &[Start],
    virtual_names: &Names<'_>,
    value: &JointNumbers,
) -> Result<JointEntries, TreeKind>
    requires few { length bodies.now ≤ MAX_LINKS }
    requires starts { AreStarts bodies.now starts.now }
    requires few_names { length virtual_names.now ≤ 2 ^ 32 }
    ensures { (virtuals : List Virtual) → virtual_names.now ≡ names_of_virtuals_in virtuals → result ≡ value_entries_of bodies.now virtuals value.now }
{
    let joint = value.joint.as_str();
    match body_of_joint(bodies, joint) {
        Some(number) => body_entries(bodies, starts, number, value.numbers.as_slice()),
        None if virtual_names.number_of(joint).is_some() => Ok(JointEntries {
            place: 0,
            values: JointValues::of(&[]),
        }),
        None => Err(TreeKind::UnknownName),
    }
}

/// The entries that a state sets, where these are the names of the virtual joints.
fn state_entries(
    alloc: Global,
    bodies: &[Body],
    starts: &[Start],
    virtual_names: &Names<'_>,
    state: &GroupState,
) -> Result<Entries, TreeFault>
    requires bodies { AreBodies bodies.now }
    requires starts { AreStarts bodies.now starts.now }
    requires few_names { length virtual_names.now ≤ 2 ^ 32 }
    ensures gives { (virtuals : List Virtual) → virtual_names.now ≡ names_of_virtuals_in virtuals → Gives no_memory (λ entries. entries) result (placed state_fault state.now.place (state_entries_of bodies.now virtuals state.now.values)) }
    ensures kept { (virtuals : List Virtual) → virtual_names.now ≡ names_of_virtuals_in virtuals → IfOk result (AllByRecursion (IsEntryKept bodies.now)) }
{
    let mut entries = Entries::new(alloc);
    for value in state.values.as_slice() {
        match value_entries(bodies, starts, virtual_names, value) {
            Ok(more) => entries.put(&more)?,
            Err(kind) => return Err(TreeFault::new(WhichFile::Srdf, kind, state.place)),
        }
    }
    Ok(entries)
}

/// The entries that the states of a file set, in file order.
pub(crate) fn states_of(
    alloc: Global,
    bodies: &[Body],
    srdf: &Srdf,
) -> Result<Vec<NamedState>, TreeFault>
    requires { AreBodies bodies.now }
    ensures gives { Gives no_memory (λ states. states.items) result (states_made bodies.now srdf.now.virtuals srdf.now.states) }
    ensures kept { IfOk result (λ states. AllByRecursion (IsStateKept bodies.now) states.items) }
{
    let starts = starts_of(alloc, bodies)?;
    let names = names_of_virtuals(alloc, srdf.virtuals().as_slice())?;
    let mut states = Vec::new(alloc);
    for state in srdf.states().as_slice() {
        let entries = state_entries(alloc, bodies, starts.as_slice(), &names, state)?;
        let name = Text::copy(alloc, state.name.as_str())?;
        states.push(NamedState { name, entries })?;
    }
    Ok(states)
}
